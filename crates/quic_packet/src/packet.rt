//! Packet numbers and short headers (RFC 9000, sections 17.1 and 17.3.1).
ghost use Rattle.std.specs.Prelude.{◌≡◌, ℕ, ◌+◌, ◌-◌, ◌/◌, ◌^◌, ◌<◌, ◌≤◌, List, Option, Some, None, IfOk, OnOk, OnErr, MatchResult, ◌++◌, map, length, take, vec_len, vec_capacity};
ghost use Rattle.bytes.specs.Filled.{UsesSpare, UsesMaxSpare};
ghost use Rattle.quic_packet.specs.Number.{truncated, window, width_for, IsFewest, number_bytes, residue_of, expanded, IsExpansion};
ghost use Rattle.quic_packet.specs.Header.{first_byte, header_bytes};
ghost use Rattle.quic_packet.specs.Destination.{is_known, decoded};

use bytes::BufMut;
use quic_wire_core::ConnectionId;
use quic_wire_core::reserved::append;
use std::alloc::AllocError;
use std::marker::Model;
use thiserror::Error;

/// The first byte's top bit, which is 1 in long headers.
const LONG_HEADER_FORM: u8 = 0x80;

/// The first byte's second bit, which is 1 in every packet.
const FIXED_BIT: u8 = 0x40;

/// The last bytes of a packet number, 1 to 4 of them, as they stand in a header (RFC 9000, 17.1).
#[derive(Clone, Copy, Debug, PartialEq, Eq)]
pub struct PacketNumber {
    width: u8,
    residue: u32,
}

impl Model for PacketNumber {
    ghost use Rattle.std.specs.Prelude.{◌^◌, ◌<◌, ◌≤◌};
    ghost use Rattle.quic_packet.specs.Number.{Truncated};

    ghost Value = { Truncated };

    ghost view = { λ p. record { width = p.width; residue = p.residue } };

    ghost invariant = { λ p. (1 ≤ p.width) × (p.width ≤ 4) × (p.residue < 256 ^ p.width) };

    ghost inverse = { λ t. record { width = t.width; residue = t.residue } };
}

/// How many bytes a number takes where so many lie between it and the greatest acknowledged.
fn width_for(between: u64) -> u8
    requires { between < 2 ^ 31 }
    ensures width { result ≡ width_for between }
    ensures some { 1 ≤ result }
    ensures four { result ≤ 4 }
{
    if 2 * between < 1 << 8 {
        1
    } else if 2 * between < 1 << 16 {
        2
    } else if 2 * between < 1 << 24 {
        3
    } else {
        4
    }
}

/// How many numbers so many bytes tell apart.
fn window(width: u8) -> u64
    requires some { 1 ≤ width }
    requires four { width ≤ 4 }
    ensures window { result ≡ window width }
    ensures positive { 256 ≤ result }
    ensures small { result ≤ 2 ^ 32 }
{
    match width {
        1 => 1 << 8,
        2 => 1 << 16,
        3 => 1 << 24,
        _ => 1 << 32,
    }
}

impl PacketNumber {
    /// The number `n`, cut to the fewest bytes that tell it apart from the numbers since
    /// `largest_acked` (0 if none is acknowledged; RFC 9000, A.2).
    pub fn new(n: u64, largest_acked: u64) -> Self
        requires above { largest_acked ≤ n }
        requires near { n - largest_acked < 2 ^ 31 }
        ensures truncated { result ≡ truncated n largest_acked }
        ensures fewest { IsFewest (n - largest_acked) result.width }
    {
        let width = width_for(n - largest_acked);
        PacketNumber {
            width,
            residue: (n % window(width)) as u32,
        }
    }

    /// How many bytes it takes, 1 to 4.
    pub fn len(self) -> usize
        ensures len { result ≡ self.width }
        ensures some { 1 ≤ result }
        ensures four { result ≤ 4 }
    {
        usize::from(self.width)
    }

    /// Writes its bytes, big-endian.
    ///
    /// # Errors
    ///
    /// - [`AllocError`]: an allocation fails, or the buffer can't grow, where it has no spare room
    ///   for the bytes. Nothing is written.
    pub fn encode<B: BufMut>(self, buf: &mut B) -> Result<(), AllocError>
        ensures ok { OnOk result (B.written buf.new ≡ B.written buf.old ++ number_bytes self) }
        ensures err { OnErr result (B.written buf.new ≡ B.written buf.old) }
        ensures spare { UsesSpare result (B.spare buf.old) (B.spare buf.new) self.width }
        ensures max_spare { UsesMaxSpare result (B.max_spare buf.old) (B.max_spare buf.new) self.width }
    {
        let bytes = self.residue.to_be_bytes();
        buf.put_slice(&bytes[4 - self.len()..])
    }

    /// Appends its bytes, big-endian, for which there is room.
    pub fn put(self, out: &mut Vec<u8>)
        requires { vec_len out.old + self.width ≤ vec_capacity out.old }
        ensures items { out.new.items ≡ out.old.items ++ number_bytes self }
        ensures len { vec_len out.new ≡ vec_len out.old + self.width }
        ensures capacity { vec_capacity out.old ≤ vec_capacity out.new }
    {
        let bytes = self.residue.to_be_bytes();
        match self.width {
            1 => append(out, &bytes[3..]),
            2 => append(out, &bytes[2..]),
            3 => append(out, &bytes[1..]),
            _ => append(out, &bytes),
        }
    }

    /// The number that 1 to 4 bytes of a header say.
    pub fn decode(bytes: &[u8]) -> Self
        requires some { 1 ≤ length bytes.now }
        requires four { length bytes.now ≤ 4 }
        ensures width { result.width ≡ length bytes.now }
        ensures residue { result.residue ≡ residue_of bytes.now }
    {
        let mut whole = [0u8; 4];
        match bytes.len() {
            1 => whole[3..].copy_from_slice(bytes),
            2 => whole[2..].copy_from_slice(bytes),
            3 => whole[1..].copy_from_slice(bytes),
            _ => whole.copy_from_slice(bytes),
        }
        PacketNumber {
            width: bytes.len() as u8,
            residue: u32::from_be_bytes(whole),
        }
    }

    /// The whole number that ends in these bytes and is closest to the one that is expected
    /// (RFC 9000, A.3). It may reach 2^62, which no packet number does.
    pub fn expand(self, expected: u64) -> u64
        requires { expected ≤ 2 ^ 62 }
        ensures value { result ≡ expanded self expected }
        ensures expansion { IsExpansion self expected result }

        // What was cut against `acked` is the number again where `acked` or more is
        // expected, up to half a window above the number.
        ensures ours { (n acked : ℕ) → self ≡ truncated n acked → n - acked < 2 ^ 31 → acked ≤ expected → expected ≤ n + 1 → result ≡ n }
        ensures ours_late { (n acked : ℕ) → self ≡ truncated n acked → n - acked < 2 ^ 31 → acked ≤ expected → expected < n + window self.width / 2 → result ≡ n }
    {
        let window = window(self.width);
        let residue = u64::from(self.residue);
        residue + (expected + window / 2).saturating_sub(residue) / window * window
    }
}

/// There are fewer bytes than an id takes.
#[derive(Clone, Copy, Debug, PartialEq, Eq, Error)]
#[error("too few bytes for a connection id")]
pub struct TooShort;

/// What finds the destination id of a short header, which does not say how long it is (RFC
/// 9000, 17.3.1), as in quinn-proto.
pub trait ConnectionIdParser {
    // The id that the bytes behind the first byte begin with, or none where they are too few.
    ghost parsed: { Self → List ℕ → Option (List ℕ) };

    /// The id that `bytes`, which stand behind the first byte, begin with.
    ///
    /// # Errors
    ///
    /// - [`TooShort`]: the bytes end within the ID.
    fn parse(&self, bytes: &[u8]) -> Result<ConnectionId, TooShort>
        ensures { MatchResult result (λ id. parsed self.now bytes.now ≡ Some id) (λ _. parsed self.now bytes.now ≡ None) };

    // The id stands in front.
    ghost takes_front: { (p : Self) (bytes id : List ℕ) → parsed p bytes ≡ Some id → id ≡ take (length id) bytes };
}

/// A parser of ids that all have one length, as in quinn-proto. Contracts see the length.
#[derive(Clone, Copy, Debug, PartialEq, Eq)]
pub struct FixedLengthConnectionIdParser {
    expected_len: usize,
}

impl Model for FixedLengthConnectionIdParser {
    ghost use Rattle.std.specs.Prelude.{ℕ, ◌≤◌};

    ghost Value = { ℕ };

    ghost view = { λ p. p.expected_len };

    ghost invariant = { λ p. p.expected_len ≤ 20 };

    ghost inverse = { λ n. record { expected_len = n } };
}

impl FixedLengthConnectionIdParser {
    /// A parser of ids of `expected_len` bytes, at most 20.
    pub fn new(expected_len: usize) -> Self
        requires { expected_len ≤ 20 }
        ensures { result ≡ expected_len }
    {
        FixedLengthConnectionIdParser { expected_len }
    }
}

impl ConnectionIdParser for FixedLengthConnectionIdParser {
    ghost use Rattle.quic_packet.specs.Destination.{fixed_length_id, fixed_length_id-front};

    ghost parsed = { fixed_length_id };

    fn parse(&self, bytes: &[u8]) -> Result<ConnectionId, TooShort> {
        let len = self.expected_len;
        if bytes.len() < len {
            return Err(TooShort);
        }
        Ok(ConnectionId::new(&bytes[..len]))
    }

    ghost takes_front = { fixed_length_id-front };
}

/// Why a datagram has no short header for a known id.
#[derive(Clone, Copy, Debug, PartialEq, Eq, Error)]
pub enum HeaderError {
    /// The bytes end within the id, or there are fewer than 20 behind it: 4 of number and
    /// payload, and 16 of tag.
    #[error("the datagram is too short")]
    TooShort,
    /// The first byte's top bit is 1, as in a long header.
    #[error("not a short header")]
    NotShort,
    /// The first byte's second bit is 0.
    #[error("the fixed bit is 0")]
    FixedBit,
    /// No known id has the destination id's bytes.
    #[error("unknown connection id")]
    UnknownId,
}

/// What has a connection id: the id itself, or what is kept beside it.
pub trait HasId {
    // The bytes of the id.
    ghost id_of: { Self → List ℕ };

    /// The id.
    fn connection_id(&self) -> &ConnectionId
        ensures { result.now ≡ id_of self.now };
}

impl HasId for ConnectionId {
    ghost id_of = { λ id. id };

    fn connection_id(&self) -> &ConnectionId {
        self
    }
}

/// Whether one of the known ids has these bytes.
fn is_known<I: HasId>(id: &ConnectionId, known: &[I]) -> bool
    ensures { result ≡ is_known id.now (map I.id_of known.now) }
{
    known
        .iter()
        .any(|x| id.as_slice() == x.connection_id().as_slice())
}

/// The header of a 1-RTT packet (RFC 9000, 17.3.1). Spin, reserved and key phase bits are
/// written 0.
#[derive(Clone, Copy, Debug, PartialEq, Eq)]
pub struct ShortHeader {
    /// The destination connection id.
    pub destination: ConnectionId,
    /// The packet number.
    pub number: PacketNumber,
}

impl ShortHeader {
    /// How many bytes the header takes.
    pub fn len(&self) -> usize
        ensures bytes { result ≡ length (header_bytes self.now.destination self.now.number) }
        ensures len { result ≡ 1 + length self.now.destination + self.now.number.width }
    {
        1 + self.destination.as_slice().len() + self.number.len()
    }

    /// The first byte: the fixed bit, and how many bytes the number takes.
    fn first_byte(&self) -> u8
        ensures { result ≡ first_byte self.now.number.width }
    {
        FIXED_BIT | (self.number.len() - 1) as u8
    }

    /// Appends the header.
    ///
    /// # Errors
    ///
    /// - [`AllocError`]: `out` has no room for the header, and an allocation fails. Nothing is
    ///   written.
    pub fn encode(&self, out: &mut Vec<u8>) -> Result<(), AllocError>
        ensures ok { OnOk result (out.new.items ≡ out.old.items ++ header_bytes self.now.destination self.now.number) }
        ensures err { OnErr result (out.new.items ≡ out.old.items) }
        ensures full { OnErr result (vec_capacity out.old < vec_len out.old + (1 + length self.now.destination + self.now.number.width)) }
    {
        out.reserve(self.len())?;
        self.put(out);
        Ok(())
    }

    /// Appends the header, for which there is room.
    pub fn put(&self, out: &mut Vec<u8>)
        requires { vec_len out.old + (1 + length self.now.destination + self.now.number.width) ≤ vec_capacity out.old }
        ensures items { out.new.items ≡ out.old.items ++ header_bytes self.now.destination self.now.number }
        ensures len { vec_len out.new ≡ vec_len out.old + (1 + length self.now.destination + self.now.number.width) }
        ensures capacity { vec_capacity out.old ≤ vec_capacity out.new }
    {
        append(out, &[self.first_byte()]);
        append(out, self.destination.as_slice());
        self.number.put(out);
    }

    /// The destination id of a datagram, which one of `known` has.
    ///
    /// # Errors
    ///
    /// - [`HeaderError::TooShort`]: the bytes end within the first byte or the ID, or fewer than 20
    ///   bytes stand behind the ID.
    /// - [`HeaderError::NotShort`]: the header is a long one.
    /// - [`HeaderError::FixedBit`]: the header is a short one, and its fixed bit is 0.
    /// - [`HeaderError::UnknownId`]: none of `known` has the ID.
    pub fn decode<P: ConnectionIdParser, I: HasId>(
        datagram: &[u8],
        parser: &P,
        known: &[I],
    ) -> Result<ConnectionId, HeaderError>
        ensures decoded { result ≡ decoded (P.parsed parser.now) (map I.id_of known.now) datagram.now }
        ensures room { IfOk result (λ id. 1 + length id + 20 ≤ length datagram.now) }
    {
        let Some((&first, rest)) = datagram.split_first() else {
            return Err(HeaderError::TooShort);
        };
        let Ok(id) = parser.parse(rest) else {
            return Err(HeaderError::TooShort);
        };
        if rest.len() < id.as_slice().len() + 20 {
            return Err(HeaderError::TooShort);
        }
        if first >= LONG_HEADER_FORM {
            return Err(HeaderError::NotShort);
        }
        if first < FIXED_BIT {
            return Err(HeaderError::FixedBit);
        }
        if !is_known(&id, known) {
            return Err(HeaderError::UnknownId);
        }
        Ok(id)
    }
}
