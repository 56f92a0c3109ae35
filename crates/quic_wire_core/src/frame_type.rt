//! Types of frames (RFC 9000, section 19).
ghost use Rattle.std.specs.Prelude.{◌≡◌, Some, None, MatchOption};
ghost use Rattle.quic_wire_core.specs.FrameType.{all_frame_types, frame_name, frame_text, is_stream_type, is_datagram_type};

use crate::varint::VarInt;
use std::fmt;
use std::marker::Model;

/// The type of a frame: a number below 2^62 (quinn-proto's `FrameType`).
///
/// Contracts see the number.
#[derive(Clone, Copy, Debug, PartialEq, Eq)]
pub struct FrameType(u64);

impl Model for FrameType {
    ghost use Rattle.std.specs.Prelude.{ℕ, ◌^◌, ◌<◌};

    ghost Value = { ℕ };

    ghost view = { λ ty. ty.0 };

    ghost invariant = { λ ty. ty.0 < 2 ^ 62 };

    ghost inverse = { λ n. record { 0 = n } };
}

impl FrameType {
    /// No meaning; fills a packet (RFC 9000, section 19.1).
    pub const PADDING: FrameType = FrameType(0x00);

    /// Asks for an acknowledgement (RFC 9000, section 19.2).
    pub const PING: FrameType = FrameType(0x01);

    /// Acknowledges packets (RFC 9000, section 19.3).
    pub const ACK: FrameType = FrameType(0x02);

    /// Acknowledges packets, and counts congestion marks (RFC 9000, section 19.3).
    pub const ACK_ECN: FrameType = FrameType(0x03);

    /// Ends the sending part of a stream abruptly (RFC 9000, section 19.4).
    pub const RESET_STREAM: FrameType = FrameType(0x04);

    /// Asks the peer to cease sending on a stream (RFC 9000, section 19.5).
    pub const STOP_SENDING: FrameType = FrameType(0x05);

    /// Carries bytes of the handshake (RFC 9000, section 19.6).
    pub const CRYPTO: FrameType = FrameType(0x06);

    /// Gives a token for a later connection (RFC 9000, section 19.7).
    pub const NEW_TOKEN: FrameType = FrameType(0x07);

    /// The least of the eight types of frames that carry bytes of a stream (RFC 9000, section
    /// 19.8).
    pub const STREAM: FrameType = FrameType(0x08);

    /// Raises the limit of the connection (RFC 9000, section 19.9).
    pub const MAX_DATA: FrameType = FrameType(0x10);

    /// Raises the limit of a stream (RFC 9000, section 19.10).
    pub const MAX_STREAM_DATA: FrameType = FrameType(0x11);

    /// Raises the number of two-way streams (RFC 9000, section 19.11).
    pub const MAX_STREAMS_BIDI: FrameType = FrameType(0x12);

    /// Raises the number of one-way streams (RFC 9000, section 19.11).
    pub const MAX_STREAMS_UNI: FrameType = FrameType(0x13);

    /// Tells that the limit of the connection holds data back (RFC 9000, section 19.12).
    pub const DATA_BLOCKED: FrameType = FrameType(0x14);

    /// Tells that the limit of a stream holds data back (RFC 9000, section 19.13).
    pub const STREAM_DATA_BLOCKED: FrameType = FrameType(0x15);

    /// Tells that the number of two-way streams holds back a stream (RFC 9000, section 19.14).
    pub const STREAMS_BLOCKED_BIDI: FrameType = FrameType(0x16);

    /// Tells that the number of one-way streams holds back a stream (RFC 9000, section 19.14).
    pub const STREAMS_BLOCKED_UNI: FrameType = FrameType(0x17);

    /// Gives an id of the connection (RFC 9000, section 19.15).
    pub const NEW_CONNECTION_ID: FrameType = FrameType(0x18);

    /// Ends the use of an id (RFC 9000, section 19.16).
    pub const RETIRE_CONNECTION_ID: FrameType = FrameType(0x19);

    /// Asks for eight bytes back (RFC 9000, section 19.17).
    pub const PATH_CHALLENGE: FrameType = FrameType(0x1a);

    /// Gives eight bytes back (RFC 9000, section 19.18).
    pub const PATH_RESPONSE: FrameType = FrameType(0x1b);

    /// Closes the connection by an error of QUIC (RFC 9000, section 19.19).
    pub const CONNECTION_CLOSE: FrameType = FrameType(0x1c);

    /// Closes the connection by an error of the application (RFC 9000, section 19.19).
    pub const APPLICATION_CLOSE: FrameType = FrameType(0x1d);

    /// Confirms the handshake (RFC 9000, section 19.20).
    pub const HANDSHAKE_DONE: FrameType = FrameType(0x1e);

    /// Asks for an acknowledgement at once (the ACK frequency extension).
    pub const IMMEDIATE_ACK: FrameType = FrameType(0x1f);

    /// The lesser of the two types of frames that carry a message (RFC 9221, section 4).
    pub const DATAGRAM: FrameType = FrameType(0x30);

    /// Asks the peer to acknowledge more or less often (the ACK frequency extension).
    pub const ACK_FREQUENCY: FrameType = FrameType(0xaf);

    /// Each type that has a name here, in the order of their numbers.
    pub fn all() -> [FrameType; 27]
        ensures { result ≡ all_frame_types }
    {
        [
            FrameType::PADDING,
            FrameType::PING,
            FrameType::ACK,
            FrameType::ACK_ECN,
            FrameType::RESET_STREAM,
            FrameType::STOP_SENDING,
            FrameType::CRYPTO,
            FrameType::NEW_TOKEN,
            FrameType::STREAM,
            FrameType::MAX_DATA,
            FrameType::MAX_STREAM_DATA,
            FrameType::MAX_STREAMS_BIDI,
            FrameType::MAX_STREAMS_UNI,
            FrameType::DATA_BLOCKED,
            FrameType::STREAM_DATA_BLOCKED,
            FrameType::STREAMS_BLOCKED_BIDI,
            FrameType::STREAMS_BLOCKED_UNI,
            FrameType::NEW_CONNECTION_ID,
            FrameType::RETIRE_CONNECTION_ID,
            FrameType::PATH_CHALLENGE,
            FrameType::PATH_RESPONSE,
            FrameType::CONNECTION_CLOSE,
            FrameType::APPLICATION_CLOSE,
            FrameType::HANDSHAKE_DONE,
            FrameType::IMMEDIATE_ACK,
            FrameType::DATAGRAM,
            FrameType::ACK_FREQUENCY,
        ]
    }

    /// Whether frames of this type carry bytes of a stream: 8 to 15 (RFC 9000, section 19.8).
    pub fn is_stream(self) -> bool
        ensures { result ≡ is_stream_type self }
    {
        (0x08..=0x0f).contains(&self.0)
    }

    /// Whether frames of this type carry a message: 0x30 and 0x31 (RFC 9221, section 4).
    pub fn is_datagram(self) -> bool
        ensures { result ≡ is_datagram_type self }
    {
        (0x30..=0x31).contains(&self.0)
    }
}

impl From<VarInt> for FrameType {
    ghost from_gives = { λ v ty. ty ≡ v };

    fn from(v: VarInt) -> FrameType {
        FrameType(v.into_inner())
    }
}

impl From<FrameType> for VarInt {
    ghost from_gives = { λ ty v. v ≡ ty };

    fn from(ty: FrameType) -> VarInt {
        VarInt::from_u64_unchecked(ty.0)
    }
}

impl From<FrameType> for u64 {
    ghost from_gives = { λ ty x. x ≡ ty };

    fn from(ty: FrameType) -> u64 {
        ty.0
    }
}

/// The name of the type in RFC 9000, RFC 9221 or the ACK frequency extension, or `unknown frame
/// type N`.
impl fmt::Display for FrameType {
    ghost output = { λ ty. Some (frame_text ty) };

    fn fmt<W: fmt::Write>(&self, f: &mut fmt::Formatter<W>) -> fmt::Result {
        let n = self.0;
        match name_of(n) {
            Some(name) => f.write_str(name),
            None => write!(f, "unknown frame type {n}"),
        }
    }
}

/// The name of a type, where it has one.
fn name_of(ty: u64) -> Option<&'static str>
    ensures { MatchOption result (frame_name ty ≡ None) (λ name. frame_name ty ≡ Some name.now) }
{
    let name = match ty {
        0x00 => "PADDING",
        0x01 => "PING",
        0x02 => "ACK",
        0x03 => "ACK_ECN",
        0x04 => "RESET_STREAM",
        0x05 => "STOP_SENDING",
        0x06 => "CRYPTO",
        0x07 => "NEW_TOKEN",
        0x08..=0x0f => "STREAM",
        0x10 => "MAX_DATA",
        0x11 => "MAX_STREAM_DATA",
        0x12 => "MAX_STREAMS_BIDI",
        0x13 => "MAX_STREAMS_UNI",
        0x14 => "DATA_BLOCKED",
        0x15 => "STREAM_DATA_BLOCKED",
        0x16 => "STREAMS_BLOCKED_BIDI",
        0x17 => "STREAMS_BLOCKED_UNI",
        0x18 => "NEW_CONNECTION_ID",
        0x19 => "RETIRE_CONNECTION_ID",
        0x1a => "PATH_CHALLENGE",
        0x1b => "PATH_RESPONSE",
        0x1c => "CONNECTION_CLOSE",
        0x1d => "APPLICATION_CLOSE",
        0x1e => "HANDSHAKE_DONE",
        0x1f => "IMMEDIATE_ACK",
        0x30..=0x31 => "DATAGRAM",
        0xaf => "ACK_FREQUENCY",
        _ => return None,
    };
    Some(name)
}
