//! What the definitions of this crate say together. Each function does nothing: its contract is the
//! law.
ghost use Rattle.std.specs.Prelude.{◌≡◌, ℕ, ◌<◌, ◌≤◌, ◌^◌, ◌↔◌, List, ◌++◌, Some, IsTrue, length, nat_eq};
ghost use Rattle.std.specs.Cmp.Lexicographic.{pointwise};
ghost use Rattle.std.specs.Int.{w8, w16, w32, w64};
ghost use Rattle.std.specs.declared.cmp.Ordering.TheVariants.{Equal};
ghost use Rattle.quic_wire_core.specs.Coding.{IsBytes, fixed_at, BeginsWith};
ghost use Rattle.quic_wire_core.specs.ConnectionId.{id_cmp};
ghost use Rattle.quic_wire_core.specs.Ecn.{ecn_of};
ghost use Rattle.quic_wire_core.specs.StreamId.{stream_id, initiator_of, dir_of, index_of};
ghost use Rattle.quic_wire_core.specs.StreamIdLaw.{AreSameParts};
ghost use Rattle.quic_wire_core.specs.TransportError.{ErrorValue, same_error};
ghost use Rattle.quic_wire_core.specs.Varint.{Spells, varint_at, shortest, varint_size, Begins};
ghost use Rattle.quic_wire_core.specs.declared.stream_id.Side.{Side};
ghost use Rattle.quic_wire_core.specs.declared.stream_id.Dir.{Dir};

use crate::coding::Codec;
use crate::frame_type::FrameType;
use crate::shared::{EcnCodepoint, MAX_CID_SIZE};
use crate::stream_id::StreamId;
use crate::token::RESET_TOKEN_SIZE;
use crate::transport_error::Code;
use crate::varint::VarInt;

/// Each form of a variable-length integer is read as that integer, whatever follows it.
pub fn spelled_is_read()
    ensures { (v : ℕ) (bytes rest : List ℕ) → Spells v bytes → varint_at (bytes ++ rest) ≡ Some (v, rest) }
{}

/// The bytes before what a reader leaves are a form of the integer that it read.
pub fn read_is_spelled()
    ensures { (bytes : List ℕ) (v : ℕ) (rest : List ℕ) → IsBytes bytes → varint_at bytes ≡ Some (v, rest) → Begins bytes v rest }
{}

/// The shortest form, which is the one that is written, is a form.
pub fn shortest_is_form()
    ensures { (v : ℕ) → v < 2 ^ 62 → Spells v (shortest v) }
{}

/// No form of an integer is shorter than the one that is written.
pub fn shortest_is_shortest()
    ensures { (v : ℕ) (bytes : List ℕ) → Spells v bytes → length (shortest v) ≤ length bytes }
{}

/// How long the form is that is written.
pub fn shortest_has_size()
    ensures { (v : ℕ) → length (shortest v) ≡ varint_size v }
{}

/// No bytes are forms of two integers.
pub fn forms_are_of_one()
    ensures { (v w : ℕ) (bytes : List ℕ) → Spells v bytes → Spells w bytes → v ≡ w }
{}

/// What each type with a form in bytes writes for a value, followed by any bytes, is read as that
/// value, and those bytes are left.
pub fn encoded_is_decoded()
    ensures varint { (n : ℕ) (rest : List ℕ) → n < 2 ^ 62 → ⟦<VarInt as Codec>⟧.reads (⟦<VarInt as Codec>⟧.spelling n ++ rest) ≡ Some (n, rest) }
    ensures stream_id { (n : ℕ) (rest : List ℕ) → n < 2 ^ 62 → ⟦<StreamId as Codec>⟧.reads (⟦<StreamId as Codec>⟧.spelling n ++ rest) ≡ Some (n, rest) }
    ensures frame_type { (n : ℕ) (rest : List ℕ) → n < 2 ^ 62 → ⟦<FrameType as Codec>⟧.reads (⟦<FrameType as Codec>⟧.spelling n ++ rest) ≡ Some (n, rest) }
    ensures code { (n : ℕ) (rest : List ℕ) → n < 2 ^ 62 → ⟦<Code as Codec>⟧.reads (⟦<Code as Codec>⟧.spelling n ++ rest) ≡ Some (n, rest) }
    ensures byte { (n : ℕ) (rest : List ℕ) → n < 2 ^ 8 → ⟦<u8 as Codec>⟧.reads (⟦<u8 as Codec>⟧.spelling n ++ rest) ≡ Some (n, rest) }
    ensures two_bytes { (n : ℕ) (rest : List ℕ) → n < 2 ^ 16 → ⟦<u16 as Codec>⟧.reads (⟦<u16 as Codec>⟧.spelling n ++ rest) ≡ Some (n, rest) }
    ensures four_bytes { (n : ℕ) (rest : List ℕ) → n < 2 ^ 32 → ⟦<u32 as Codec>⟧.reads (⟦<u32 as Codec>⟧.spelling n ++ rest) ≡ Some (n, rest) }
    ensures eight_bytes { (n : ℕ) (rest : List ℕ) → n < 2 ^ 64 → ⟦<u64 as Codec>⟧.reads (⟦<u64 as Codec>⟧.spelling n ++ rest) ≡ Some (n, rest) }
{}

/// Numbers of a fixed width are read where their big-endian bytes stand at the front, and only
/// there.
pub fn fixed_is_spelled()
    ensures byte { (bytes : List ℕ) (n : ℕ) (rest : List ℕ) → IsBytes bytes → fixed_at w8 bytes ≡ Some (n, rest) → BeginsWith w8 bytes n rest }
    ensures two_bytes { (bytes : List ℕ) (n : ℕ) (rest : List ℕ) → IsBytes bytes → fixed_at w16 bytes ≡ Some (n, rest) → BeginsWith w16 bytes n rest }
    ensures four_bytes { (bytes : List ℕ) (n : ℕ) (rest : List ℕ) → IsBytes bytes → fixed_at w32 bytes ≡ Some (n, rest) → BeginsWith w32 bytes n rest }
    ensures eight_bytes { (bytes : List ℕ) (n : ℕ) (rest : List ℕ) → IsBytes bytes → fixed_at w64 bytes ≡ Some (n, rest) → BeginsWith w64 bytes n rest }
{}

/// A stream id gives back the side, the directions and the place that it was made of.
pub fn stream_ids_have_parts()
    ensures sides { (side : Side) (dir : Dir) (index : ℕ) → initiator_of (stream_id side dir index) ≡ side }
    ensures dirs { (side : Side) (dir : Dir) (index : ℕ) → dir_of (stream_id side dir index) ≡ dir }
    ensures indices { (side : Side) (dir : Dir) (index : ℕ) → index_of (stream_id side dir index) ≡ index }
    ensures whole { (id : ℕ) → stream_id (initiator_of id) (dir_of id) (index_of id) ≡ id }
{}

/// Streams that differ in side, directions or place have different ids.
pub fn stream_ids_differ()
    ensures { (side : Side) (dir : Dir) (index : ℕ) (side' : Side) (dir' : Dir) (index' : ℕ) → stream_id side dir index ≡ stream_id side' dir' index' → AreSameParts side dir index side' dir' index' }
{}

/// What `==` answers of two connection ids, and where `cmp` calls them equal: where their bytes
/// are.
pub fn connection_ids_are_their_bytes()
    ensures eq { (a b : List ℕ) → IsTrue (pointwise nat_eq a b) ↔ a ≡ b }
    ensures cmp { (a b : List ℕ) → (id_cmp a b ≡ Equal) ↔ a ≡ b }
{}

/// What `==` answers of two errors of the transport: whether they have the same code and the same
/// frame.
pub fn errors_are_code_and_frame()
    ensures { (a b : ErrorValue) → IsTrue (same_error a b) ↔ a ≡ b }
{}

/// The most bytes of a variable-length integer (RFC 9000, section 16) and of a connection id
/// (section 17.2), and how many a reset token has (section 10.3). The greatest integer is what
/// [`VarInt::max_value`] answers.
pub fn constants_are_these()
    ensures integer { VarInt.MAX_SIZE ≡ 8 }
    ensures id { MAX_CID_SIZE ≡ 20 }
    ensures token { RESET_TOKEN_SIZE ≡ 16 }
{}

/// The bits that `as u8` gives of a codepoint are those that [`EcnCodepoint::from_bits`] reads as
/// it (RFC 3168, section 5).
pub fn codepoints_are_their_bits(codepoint: EcnCodepoint) -> u8
    ensures bits { result < 4 }
    ensures read { ecn_of result ≡ Some codepoint }
{
    codepoint as u8
}
