//! What the definitions say together, for the crates above.
ghost use Rattle.std.specs.Prelude.{◌≡◌};
ghost use Rattle.quic_packet.specs.Number.{TakesFewest, NewestOpens, LateOpens};
ghost use Rattle.quic_packet.specs.Datagram.{MatesOpen, SealedIsSent, SentLength};
ghost use Rattle.quic_packet.specs.Destination.{KnownIsMember, SentIsDecoded, FixedLengthFinds};

use crate::crypto::{SAMPLE_SIZE, TAG_LEN};

/// What one end sealed opens at its mate to the number and the payload where the number's bytes
/// expand to the number, and to nothing else.
pub fn mates_open()
    ensures { MatesOpen }
{}

/// A number takes the fewest bytes, at most 4, that tell apart more than twice as many numbers as
/// lie between it and the greatest acknowledged (RFC 9000, 17.1).
pub fn numbers_take_fewest()
    ensures { TakesFewest }
{}

/// The newest number expands to itself where the expected one lies from the greatest
/// acknowledged up to the one behind it.
pub fn newest_opens()
    ensures { NewestOpens }
{}

/// A number expands to itself where the expected one lies from the greatest acknowledged up to
/// less than half a window above the number.
pub fn late_opens()
    ensures { LateOpens }
{}

/// Sealing a header and a payload behind other bytes gives the datagram behind them.
pub fn sealed_is_sent()
    ensures { SealedIsSent }
{}

/// A datagram is as long as its header, its payload and the tag.
pub fn sent_length()
    ensures { SentLength }
{}

/// An id is known where it is one of the known ids.
pub fn known_is_member()
    ensures { KnownIsMember }
{}

/// A datagram that was sent to a known id is decoded to that id, by a parser that finds the id
/// in front.
pub fn sent_is_decoded()
    ensures { SentIsDecoded }
{}

/// The parser of one length finds ids of that length in front.
pub fn fixed_length_finds()
    ensures { FixedLengthFinds }
{}

/// How many bytes sealing adds (RFC 9001, 5.3), and how many a header key samples (5.4.2).
pub fn constants_are_these()
    ensures tag { TAG_LEN ≡ 16 }
    ensures sample { SAMPLE_SIZE ≡ 16 }
{}
