//! What calls on streams answer.

use quic_wire_core::{Dir, StreamId, VarInt};
use std::fmt;
use thiserror::Error;

/// What happened to a stream (quinn-proto's `StreamEvent`).
#[derive(Clone, Copy, Debug, PartialEq, Eq)]
pub enum StreamEvent {
    /// The peer opened one or more streams of a kind, which may be accepted.
    Opened { dir: Dir },
    /// Bytes, the end or a reset came on a stream that was open already.
    Readable { id: StreamId },
    /// A stream whose write was blocked takes bytes again.
    Writable { id: StreamId },
    /// A stream was finished, and all its bytes and its end are acknowledged.
    Finished { id: StreamId },
    /// The peer asks that nothing more be sent on a stream, with this code (RFC 9000, section 3.5).
    Stopped { id: StreamId, error_code: VarInt },
    /// More streams of a kind may be opened (RFC 9000, section 4.6).
    Available { dir: Dir },
}

impl fmt::Display for StreamEvent {
    fn fmt<W: fmt::Write>(&self, f: &mut fmt::Formatter<W>) -> fmt::Result {
        match self {
            StreamEvent::Opened { dir } => write!(f, "{dir} streams may be accepted"),
            StreamEvent::Readable { id } => write!(f, "{id} is readable"),
            StreamEvent::Writable { id } => write!(f, "{id} is writable"),
            StreamEvent::Finished { id } => write!(f, "{id} is finished"),
            StreamEvent::Stopped { id, error_code } => {
                write!(f, "{id} is stopped with code {error_code}")
            }
            StreamEvent::Available { dir } => write!(f, "{dir} streams may be opened"),
        }
    }
}

/// Why nothing was written (quinn-proto's `WriteError`).
#[derive(Clone, Copy, Debug, PartialEq, Eq, Error)]
pub enum WriteError {
    /// A limit leaves no room, or the end isn't open.
    #[error("unable to accept further writes")]
    Blocked,
    /// The peer asked that nothing more be sent, with this code (RFC 9000, section 3.5).
    #[error("stopped by peer")]
    Stopped(VarInt),
    /// There is no such stream, or it was finished or reset.
    #[error("closed stream")]
    ClosedStream,
    /// Out of memory: an allocation failed. Nothing has changed.
    #[error("out of memory")]
    Memory,
}

/// Why a stream was not finished (quinn-proto's `FinishError`).
#[derive(Clone, Copy, Debug, PartialEq, Eq, Error)]
pub enum FinishError {
    /// The peer asked that nothing more be sent, with this code (RFC 9000, section 3.5).
    #[error("stopped by peer")]
    Stopped(VarInt),
    /// There is no such stream, or it was finished or reset.
    #[error("closed stream")]
    ClosedStream,
    /// Out of memory: an allocation failed. Nothing has changed.
    #[error("out of memory")]
    Memory,
}

/// There is no such stream, or nothing is left to do on it (quinn-proto's `ClosedStream`).
#[derive(Clone, Copy, Debug, PartialEq, Eq, Error)]
#[error("closed stream")]
pub struct ClosedStream;

/// Why a stream wasn't reset, stopped or given a priority.
#[derive(Clone, Copy, Debug, PartialEq, Eq, Error)]
pub enum UpdateError {
    /// There is no such stream, or nothing is left to do on it.
    #[error("closed stream")]
    ClosedStream,
    /// Out of memory: an allocation failed. Nothing has changed.
    #[error("out of memory")]
    Memory,
}

/// Why a stream can't be read (quinn-proto's `ReadableError`).
#[derive(Clone, Copy, Debug, PartialEq, Eq, Error)]
pub enum ReadableError {
    /// There is no such stream, it was stopped, or its end or reset was told.
    #[error("closed stream")]
    ClosedStream,
    /// An ordered read after an unordered one.
    #[error("attempted an ordered read after an unordered one")]
    IllegalOrderedRead,
    /// Out of memory: an allocation failed. Nothing has changed.
    #[error("out of memory")]
    Memory,
}

/// Why nothing was read (quinn-proto's `ReadError`).
#[derive(Clone, Copy, Debug, PartialEq, Eq, Error)]
pub enum ReadError {
    /// No byte waits that may be given.
    #[error("blocked")]
    Blocked,
    /// The peer reset the stream, with this code (RFC 9000, section 3.2).
    #[error("reset by peer")]
    Reset(VarInt),
    /// Out of memory: an allocation failed. Nothing has changed.
    #[error("out of memory")]
    Memory,
}

/// Which rule of streams a frame broke.
#[derive(Clone, Copy, Debug, PartialEq, Eq)]
pub enum Breach {
    /// A limit on bytes (RFC 9000, section 4.1).
    FlowControl,
    /// The limit on streams (RFC 9000, section 4.6).
    StreamLimit,
    /// A stream on which the peer may not send, or this end may not (RFC 9000, sections 19.4, 19.5,
    /// 19.8 and 19.10).
    StreamState,
    /// A final size that can't be (RFC 9000, section 4.5).
    FinalSize,
    /// A count of streams above 2^60 (RFC 9000, section 19.11).
    FrameEncoding,
    /// More pieces wait to be read than the stream's receive window lets: one for each 1,024 bytes
    /// of it, and 2048 at least.
    Pieces,
}

/// Why a frame wasn't taken.
#[derive(Clone, Copy, Debug, PartialEq, Eq, Error)]
pub enum ReceivedError {
    /// It broke a rule.
    #[error("a rule of streams was broken")]
    Breach(Breach),
    /// Out of memory: an allocation failed. The streams are lawful, and may have some of the frame.
    #[error("out of memory")]
    Memory,
}

/// What a write of several buffers took (quinn-proto's `Written`).
#[derive(Clone, Copy, Debug, PartialEq, Eq)]
pub struct Written {
    /// How many bytes.
    pub bytes: usize,
    /// How many of the buffers are used up.
    pub chunks: usize,
}
