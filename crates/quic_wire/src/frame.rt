//! Frames (RFC 9000, section 19): their values, the reader of a payload and the writers.
ghost use Rattle.std.specs.Prelude.{◌<◌, ◌^◌};

use quic_wire_core::{
    Code, ConnectionId, Dir, FrameType, MAX_CID_SIZE, RESET_TOKEN_SIZE, Reason, ResetToken,
    StreamId, TransportError, VarInt,
};
use thiserror::Error;

pub(crate) mod ack;
mod close;
mod datagram;
mod iter;
pub(crate) mod reading;
mod unpadded;
mod writing;

pub use ack::{Ack, AckIter, EcnCounts};
pub use close::{ApplicationClose, Close, ConnectionClose};
pub use datagram::Datagram;
pub use iter::Iter;
pub use unpadded::Unpadded;
pub use writing::{
    put_frame, put_stream, put_stream_header, size_of_frame, size_of_stream_header, write_frame,
};

/// A frame of a payload (quinn-proto's `frame::Frame`).
#[derive(Debug, Drop)]
pub enum Frame<'a> {
    /// Nothing (section 19.1).
    Padding,
    /// Asks for an acknowledgement (section 19.2).
    Ping,
    /// Which packets came (section 19.3).
    Ack(Ack<'a>),
    /// Ends the sending part of a stream abruptly (section 19.4).
    ResetStream(ResetStream),
    /// Asks the peer to cease sending on a stream (section 19.5).
    StopSending(StopSending),
    /// Bytes of the handshake (section 19.6).
    Crypto {
        /// Where in the handshake the bytes begin: below 2^62.
        offset: u64,
        /// The bytes.
        data: &'a [u8],
    },
    /// A token for a later connection (section 19.7).
    NewToken {
        /// The token.
        token: &'a [u8],
    },
    /// Bytes of a stream (section 19.8).
    Stream(Stream<'a>),
    /// How many bytes may be sent on all streams together (section 19.9).
    MaxData(VarInt),
    /// How many bytes may be sent on a stream (section 19.10).
    MaxStreamData {
        /// The stream's id.
        id: StreamId,
        /// The limit, in bytes: below 2^62.
        offset: u64,
    },
    /// How many streams may be opened (section 19.11).
    MaxStreams {
        /// Which streams.
        dir: Dir,
        /// How many of them since the connection began: below 2^62. An end that acts on it closes
        /// above 2^60 (section 19.11).
        count: u64,
    },
    /// The limit of the connection holds data back (section 19.12).
    DataBlocked {
        /// That limit, in bytes: below 2^62.
        offset: u64,
    },
    /// The limit of a stream holds data back (section 19.13).
    StreamDataBlocked {
        /// The stream's id.
        id: StreamId,
        /// That limit, in bytes: below 2^62.
        offset: u64,
    },
    /// The number of streams holds back a stream (section 19.14).
    StreamsBlocked {
        /// Which streams.
        dir: Dir,
        /// How many may be opened: below 2^62. An end that acts on it closes above 2^60 (section
        /// 19.14).
        limit: u64,
    },
    /// Gives an id of the connection (section 19.15).
    NewConnectionId(NewConnectionId),
    /// Ends the use of an id of the connection (section 19.16).
    RetireConnectionId {
        /// The number of the id: below 2^62.
        sequence: u64,
    },
    /// Asks for these eight bytes back, the most significant first (section 19.17).
    PathChallenge(u64),
    /// Gives these eight bytes back, the most significant first (section 19.18).
    PathResponse(u64),
    /// Closes the connection by an error of QUIC (section 19.19, type 1c).
    ConnectionClose {
        /// Why: a code below 2^62.
        error_code: u64,
        /// The type of the frame that was at fault, 0 where none is known: below 2^62.
        frame_type: u64,
        /// More of why, to be read by people.
        reason: &'a [u8],
    },
    /// Closes the connection by an error of the application (section 19.19, type 1d).
    ApplicationClose {
        /// Why, in the application's words: below 2^62.
        error_code: u64,
        /// More of why, to be read by people.
        reason: &'a [u8],
    },
    /// Confirms the handshake (section 19.20).
    HandshakeDone,
    /// Asks for an acknowledgement at once (the ACK frequency extension, section 5).
    ImmediateAck,
    /// A message of the application (RFC 9221, section 4).
    Datagram {
        /// The message.
        data: &'a [u8],
    },
    /// Asks the peer to acknowledge more or less often (the ACK frequency extension, section 4).
    AckFrequency(AckFrequency),
}

impl<'a> Frame<'a> {
    ghost use Rattle.std.specs.Prelude.{◌≡◌};
    ghost use Rattle.quic_wire.specs.Value.{asks};
    ghost use Rattle.quic_wire.specs.FrameView.{frame_view};
    ghost use Rattle.quic_wire.specs.Writing.{type_number};

    /// The frame's type; of a STREAM or DATAGRAM frame the type that it has where its length isn't
    /// written (quinn-proto's `Frame::ty`).
    pub fn ty(&self) -> FrameType
        ensures { result ≡ type_number (frame_view self.now) }
    {
        match self {
            Frame::Padding => FrameType::PADDING,
            Frame::Ping => FrameType::PING,
            Frame::Ack(ack) => ack.ty(),
            Frame::ResetStream(_) => FrameType::RESET_STREAM,
            Frame::StopSending(_) => FrameType::STOP_SENDING,
            Frame::Crypto { .. } => FrameType::CRYPTO,
            Frame::NewToken { .. } => FrameType::NEW_TOKEN,
            Frame::Stream(stream) => VarInt::from_u32(stream.ty(false)).into(),
            Frame::MaxData(_) => FrameType::MAX_DATA,
            Frame::MaxStreamData { .. } => FrameType::MAX_STREAM_DATA,
            Frame::MaxStreams { dir: Dir::Bi, .. } => FrameType::MAX_STREAMS_BIDI,
            Frame::MaxStreams { dir: Dir::Uni, .. } => FrameType::MAX_STREAMS_UNI,
            Frame::DataBlocked { .. } => FrameType::DATA_BLOCKED,
            Frame::StreamDataBlocked { .. } => FrameType::STREAM_DATA_BLOCKED,
            Frame::StreamsBlocked { dir: Dir::Bi, .. } => FrameType::STREAMS_BLOCKED_BIDI,
            Frame::StreamsBlocked { dir: Dir::Uni, .. } => FrameType::STREAMS_BLOCKED_UNI,
            Frame::NewConnectionId(_) => FrameType::NEW_CONNECTION_ID,
            Frame::RetireConnectionId { .. } => FrameType::RETIRE_CONNECTION_ID,
            Frame::PathChallenge(_) => FrameType::PATH_CHALLENGE,
            Frame::PathResponse(_) => FrameType::PATH_RESPONSE,
            Frame::ConnectionClose { .. } => FrameType::CONNECTION_CLOSE,
            Frame::ApplicationClose { .. } => FrameType::APPLICATION_CLOSE,
            Frame::HandshakeDone => FrameType::HANDSHAKE_DONE,
            Frame::ImmediateAck => FrameType::IMMEDIATE_ACK,
            Frame::Datagram { .. } => FrameType::DATAGRAM,
            Frame::AckFrequency(_) => FrameType::ACK_FREQUENCY,
        }
    }

    /// Whether a packet with this frame asks for an acknowledgement: all frames but PADDING, ACK
    /// and the closes do (RFC 9000, section 13.2; quinn-proto's `Frame::is_ack_eliciting`).
    pub fn is_ack_eliciting(&self) -> bool
        ensures { result ≡ asks (frame_view self.now) }
    {
        !matches!(
            self,
            Frame::Padding
                | Frame::Ack(_)
                | Frame::ConnectionClose { .. }
                | Frame::ApplicationClose { .. }
        )
    }
}

/// Bytes of a stream (section 19.8; quinn-proto's `frame::Stream`).
#[derive(Clone, Copy, Debug, PartialEq, Eq)]
pub struct Stream<'a> {
    /// The stream's id.
    pub id: StreamId,
    /// Where in the stream the bytes begin: below 2^62.
    pub offset: u64,
    /// Whether the stream ends behind these bytes.
    pub fin: bool,
    /// The bytes.
    pub data: &'a [u8],
    // An offset has a form as a variable-length integer (RFC 9000, section 16).
    ghost small: { offset < 2 ^ 62 },
}

impl<'a> Stream<'a> {
    ghost use Rattle.std.specs.Prelude.{◌≡◌};
    ghost use Rattle.quic_wire.specs.FrameTypes.{type_of, is_stream};
    ghost use Rattle.quic_wire.specs.Writing.{has_offset};

    /// The most bytes that stand before the data: type, id, offset and length.
    pub const SIZE_BOUND: usize = 1 + 8 + 8 + 8;

    /// The type, with the bits of an offset that isn't 0, of a length that is written and of the
    /// end.
    pub(crate) fn ty(&self, with_length: bool) -> u32
        ensures { result ≡ type_of (is_stream (has_offset self.now.offset) with_length self.now.fin) }
    {
        let offset = if self.offset == 0 { 0 } else { 4 };
        let length = if with_length { 2 } else { 0 };
        let fin = if self.fin { 1 } else { 0 };
        0x08 + offset + length + fin
    }
}

/// Ends the sending part of a stream abruptly (section 19.4; quinn-proto's `frame::ResetStream`).
#[derive(Clone, Copy, Debug, PartialEq, Eq)]
pub struct ResetStream {
    /// The stream's id.
    pub id: StreamId,
    /// Why, in the application's words.
    pub error_code: VarInt,
    /// How many bytes the stream has.
    pub final_offset: VarInt,
}

impl ResetStream {
    /// The most bytes that such a frame takes: type, id, code and final size.
    pub const SIZE_BOUND: usize = 1 + 8 + 8 + 8;
}

/// Asks the peer to cease sending on a stream (section 19.5; quinn-proto's `frame::StopSending`).
#[derive(Clone, Copy, Debug, PartialEq, Eq)]
pub struct StopSending {
    /// The stream's id.
    pub id: StreamId,
    /// Why, in the application's words.
    pub error_code: VarInt,
}

impl StopSending {
    /// The most bytes that such a frame takes: type, id and code.
    pub const SIZE_BOUND: usize = 1 + 8 + 8;
}

/// Gives an id of the connection (section 19.15; quinn-proto's `frame::NewConnectionId`).
#[derive(Clone, Copy, Debug, PartialEq, Eq)]
pub struct NewConnectionId {
    /// The number of the id among those of its sender: below 2^62.
    pub sequence: u64,
    /// Ids with lower numbers than this are to be retired: at most `sequence`.
    pub retire_prior_to: u64,
    /// The id: 1 to 20 bytes.
    pub id: ConnectionId,
    /// The token of a stateless reset that goes with the id.
    pub reset_token: ResetToken,
}

impl NewConnectionId {
    /// The most bytes that such a frame takes: type, two numbers, the length of the id, the id and
    /// the token.
    pub const SIZE_BOUND: usize = 1 + 8 + 8 + 1 + MAX_CID_SIZE + RESET_TOKEN_SIZE;
}

/// Asks the peer to acknowledge more or less often (the ACK frequency extension, section 4;
/// quinn-proto's `frame::AckFrequency`).
#[derive(Clone, Copy, Debug, PartialEq, Eq)]
pub struct AckFrequency {
    /// The number of this request among those of its sender.
    pub sequence: VarInt,
    /// How many packets that ask for an acknowledgement may come before one is owed.
    pub ack_eliciting_threshold: VarInt,
    /// The longest that an acknowledgement may wait, in microseconds.
    pub request_max_ack_delay: VarInt,
    /// How far out of order a packet has to come for an acknowledgement to be owed at once.
    pub reordering_threshold: VarInt,
}

/// Why bytes are no frame (quinn-proto's `frame::IterErr`).
#[derive(Clone, Copy, Debug, PartialEq, Eq, Error)]
pub enum FrameError {
    /// A field passes the end of the payload.
    #[error("unexpected end")]
    UnexpectedEnd,
    /// A field has a value that its frame doesn't allow.
    #[error("malformed")]
    Malformed,
    /// The type names no frame.
    #[error("invalid frame ID")]
    InvalidId,
}

/// Bytes that are no frame: the type, where it could be read, and why (quinn-proto's
/// `frame::InvalidFrame`).
#[derive(Clone, Copy, Debug, PartialEq, Eq, Error)]
#[error("invalid frame: {reason}")]
pub struct InvalidFrame {
    /// The frame's type, none where the payload ends within it.
    pub ty: Option<FrameType>,
    /// Why.
    pub reason: FrameError,
}

impl From<InvalidFrame> for TransportError {
    ghost use Rattle.std.specs.Prelude.{◌≡◌};

    // FRAME_ENCODING_ERROR is 7 (RFC 9000, section 20.1).
    ghost from_gives = { λ invalid error. (error.code ≡ 0x07) × (error.frame ≡ invalid.ty) };

    /// FRAME_ENCODING_ERROR, with the type of the frame (RFC 9000, section 12.4).
    fn from(invalid: InvalidFrame) -> TransportError {
        let reason = match invalid.reason {
            FrameError::UnexpectedEnd => Reason::UnexpectedEnd,
            FrameError::Malformed => Reason::Malformed,
            FrameError::InvalidId => Reason::InvalidFrameId,
        };
        TransportError::new(Code::FRAME_ENCODING_ERROR, invalid.ty, reason)
    }
}
