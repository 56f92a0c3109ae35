//! Why a connection is closed, in values that own their bytes (RFC 9000, section 19.19).
ghost use Rattle.std.specs.Prelude.{◌≡◌, ◌<◌, Some, IfOk, OnErr, length};
ghost use Rattle.std.specs.Fmt.{DisplaysOnOk};
ghost use Rattle.std.specs.Str.Chunks.{utf8_chunk_valid, utf8_chunk_invalid};
ghost use Rattle.std.specs.Str.Lossy.{utf8_lossy};
ghost use Rattle.quic_wire_core.specs.declared.reason.Reason.{Reason};
ghost use Rattle.quic_wire.specs.Close.{transport_close, application_close_with, transport_close_view, owned_application_close_view, close_view, ClosesFor, piece_text, transport_close_text, application_close_text, close_text};

use quic_wire_core::{Code, FrameType, TransportError, VarInt};
use std::alloc::{AllocError, Global};
use std::fmt;
use std::str::Utf8Chunk;

/// Why a connection is closed (quinn-proto's `frame::Close`).
#[derive(Clone, Debug, PartialEq, Eq, Drop)]
pub enum Close {
    /// An error of QUIC.
    Connection(ConnectionClose),
    /// The application's own wish.
    Application(ApplicationClose),
}

/// A close by an error of QUIC (section 19.19, type 1c; quinn-proto's `frame::ConnectionClose`).
#[derive(Clone, Debug, PartialEq, Eq, Drop)]
pub struct ConnectionClose {
    /// Why.
    pub error_code: Code,
    /// The type of the frame that was at fault, where one is known.
    pub frame_type: Option<FrameType>,
    /// More of why, for people to read: mostly UTF-8, though nothing ensures it.
    pub reason: Vec<u8>,
}

/// An application's close (section 19.19, type 1d; quinn-proto's `frame::ApplicationClose`).
#[derive(Clone, Debug, PartialEq, Eq, Drop)]
pub struct ApplicationClose {
    /// Why, in the application's words.
    pub error_code: VarInt,
    /// More of why, for people to read: mostly UTF-8, though nothing ensures it.
    pub reason: Vec<u8>,
}

impl Close {
    /// The close that tells the peer of an error: its code, its frame and the text of its reason.
    ///
    /// # Errors
    ///
    /// - [`AllocError`]: an allocation fails, of room for the text of the reason.
    pub fn of_error(alloc: Global, error: &TransportError) -> Result<Self, AllocError>
        ensures { (reason : Reason) × ClosesFor error.now result reason }
    {
        let reason = error.reason().as_str();
        let close = ConnectionClose::new(alloc, error.code(), error.frame(), reason.as_bytes())?;
        Ok(Close::Connection(close))
    }
}

impl ConnectionClose {
    /// The most bytes that stand before the reason in a frame: type, code, type of a frame and
    /// length.
    pub const SIZE_BOUND: usize = 1 + 8 + 8 + 8;

    /// A close with this code, this frame at fault and a copy of this reason.
    ///
    /// # Errors
    ///
    /// - [`AllocError`]: an allocation fails, of room for the reason, where that isn't empty.
    pub fn new(
        alloc: Global,
        error_code: Code,
        frame_type: Option<FrameType>,
        reason: &[u8],
    ) -> Result<Self, AllocError>
        ensures ok { IfOk result (λ close. transport_close_view close ≡ transport_close error_code frame_type reason.now) }
        ensures lacking { OnErr result (0 < length reason.now) }
    {
        let reason = copy_of(alloc, reason)?;
        Ok(ConnectionClose {
            error_code,
            frame_type,
            reason,
        })
    }
}

impl ApplicationClose {
    /// The most bytes that stand before the reason in a frame: type, code and length.
    pub const SIZE_BOUND: usize = 1 + 8 + 8;

    /// A close with this code and a copy of this reason.
    ///
    /// # Errors
    ///
    /// - [`AllocError`]: an allocation fails, of room for the reason, where that isn't empty.
    pub fn new(alloc: Global, error_code: VarInt, reason: &[u8]) -> Result<Self, AllocError>
        ensures ok { IfOk result (λ close. owned_application_close_view close ≡ application_close_with error_code reason.now) }
        ensures lacking { OnErr result (0 < length reason.now) }
    {
        let reason = copy_of(alloc, reason)?;
        Ok(ApplicationClose { error_code, reason })
    }
}

/// A copy of bytes, which takes no memory where there are none.
fn copy_of(alloc: Global, bytes: &[u8]) -> Result<Vec<u8>, AllocError>
    ensures ok { IfOk result (λ copy. copy.items ≡ bytes.now) }
    ensures lacking { OnErr result (0 < length bytes.now) }
{
    let mut copy = Vec::new(alloc);
    copy.extend_from_slice(bytes)?;
    Ok(copy)
}

impl From<ConnectionClose> for Close {
    ghost use Rattle.quic_wire.specs.declared.frame.close.Close.{Close};

    ghost from_gives = { λ close whole. whole ≡ Close.Connection close };

    fn from(close: ConnectionClose) -> Close {
        Close::Connection(close)
    }
}

impl From<ApplicationClose> for Close {
    ghost use Rattle.quic_wire.specs.declared.frame.close.Close.{Close};

    ghost from_gives = { λ close whole. whole ≡ Close.Application close };

    fn from(close: ApplicationClose) -> Close {
        Close::Application(close)
    }
}

/// What its kind prints.
impl fmt::Display for Close {
    ghost output = { λ close. Some (close_text (close_view close)) };

    fn fmt<W: fmt::Write>(&self, f: &mut fmt::Formatter<W>) -> fmt::Result {
        match self {
            Close::Connection(close) => close.fmt(f),
            Close::Application(close) => close.fmt(f),
        }
    }
}

/// The code, and then `: ` and the reason, where there is one. What is no UTF-8 is printed as
/// U+FFFD.
impl fmt::Display for ConnectionClose {
    ghost output = { λ close. Some (transport_close_text (transport_close_view close)) };

    fn fmt<W: fmt::Write>(&self, f: &mut fmt::Formatter<W>) -> fmt::Result {
        let code = self.error_code;
        write!(f, "{code}")?;
        if self.reason.is_empty() {
            return Ok(());
        }
        f.write_str(": ")?;
        write_text(f, &self.reason)
    }
}

/// The reason and the code, as `bye (code 7)`, or the code alone where there is no reason. What is
/// no UTF-8 is printed as U+FFFD.
impl fmt::Display for ApplicationClose {
    ghost output = { λ close. Some (application_close_text (owned_application_close_view close)) };

    fn fmt<W: fmt::Write>(&self, f: &mut fmt::Formatter<W>) -> fmt::Result {
        let code = self.error_code;
        if self.reason.is_empty() {
            return write!(f, "{code}");
        }
        write_text(f, &self.reason)?;
        write!(f, " (code {code})")
    }
}

/// Writes bytes as text, with U+FFFD for what is no UTF-8.
fn write_text<W: fmt::Write>(f: &mut fmt::Formatter<W>, bytes: &[u8]) -> fmt::Result
    ensures { DisplaysOnOk W.write_str_gives f.old result (Some (utf8_lossy bytes.now)) f.new }
{
    for chunk in bytes.utf8_chunks() {
        write_chunk(f, &chunk)?;
    }
    Ok(())
}

/// Writes the text of a piece of bytes, and U+FFFD for the bytes behind it that are none.
fn write_chunk<W: fmt::Write>(f: &mut fmt::Formatter<W>, chunk: &Utf8Chunk<'_>) -> fmt::Result
    ensures { DisplaysOnOk W.write_str_gives f.old result (Some (piece_text (utf8_chunk_valid chunk.now) (utf8_chunk_invalid chunk.now))) f.new }
{
    f.write_str(chunk.valid())?;
    if chunk.invalid().is_empty() {
        return Ok(());
    }
    f.write_str("\u{FFFD}")
}
