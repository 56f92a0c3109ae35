//! Errors of the transport, which close a connection (RFC 9000, section 20.1).
ghost use Rattle.std.specs.Prelude.{◌≡◌, Some, None, MatchOption};
ghost use Rattle.std.specs.Cmp.{partial_equiv_from_equiv};
ghost use Rattle.std.specs.Fmt.{DisplaysOnOk};
ghost use Rattle.quic_wire_core.specs.TransportError.{all_codes, code_name, code_text, frame_part, reason_part, error_text, error_in, plain_error, same_error};
ghost use Rattle.quic_wire_core.specs.TransportErrorLaw.{same_error_equiv};
ghost use Rattle.quic_wire_core.specs.declared.reason.Reason.{Reason};

use crate::frame_type::FrameType;
use crate::reason::Reason;
use crate::varint::VarInt;
use std::error::Error;
use std::fmt;
use std::marker::Model;

/// The code of an error of the transport: a number below 2^62 (RFC 9000, section 20.1;
/// quinn-proto's `transport_error::Code`).
///
/// Contracts see the number.
#[derive(Clone, Copy, Debug, PartialEq, Eq)]
pub struct Code(u64);

impl Model for Code {
    ghost use Rattle.std.specs.Prelude.{ℕ, ◌^◌, ◌<◌};

    ghost Value = { ℕ };

    ghost view = { λ code. code.0 };

    ghost invariant = { λ code. code.0 < 2 ^ 62 };

    ghost inverse = { λ n. record { 0 = n } };
}

impl Code {
    /// The connection closes without an error.
    pub const NO_ERROR: Code = Code(0x00);

    /// The end met an error of its own and cannot go on.
    pub const INTERNAL_ERROR: Code = Code(0x01);

    /// The server refuses the connection.
    pub const CONNECTION_REFUSED: Code = Code(0x02);

    /// More data came than a limit allows.
    pub const FLOW_CONTROL_ERROR: Code = Code(0x03);

    /// A frame is of a stream beyond the number that is allowed.
    pub const STREAM_LIMIT_ERROR: Code = Code(0x04);

    /// A frame is of a stream whose state does not allow it.
    pub const STREAM_STATE_ERROR: Code = Code(0x05);

    /// The final size of a stream changes, or data lies beyond it.
    pub const FINAL_SIZE_ERROR: Code = Code(0x06);

    /// A frame is badly formed.
    pub const FRAME_ENCODING_ERROR: Code = Code(0x07);

    /// The transport parameters are badly formed.
    pub const TRANSPORT_PARAMETER_ERROR: Code = Code(0x08);

    /// The peer gives more ids than are allowed.
    pub const CONNECTION_ID_LIMIT_ERROR: Code = Code(0x09);

    /// An error of the peer that no other code names.
    pub const PROTOCOL_VIOLATION: Code = Code(0x0a);

    /// A token does not serve.
    pub const INVALID_TOKEN: Code = Code(0x0b);

    /// The application closes the connection.
    pub const APPLICATION_ERROR: Code = Code(0x0c);

    /// More bytes of the handshake came than there is room for.
    pub const CRYPTO_BUFFER_EXCEEDED: Code = Code(0x0d);

    /// An update of keys goes wrong.
    pub const KEY_UPDATE_ERROR: Code = Code(0x0e);

    /// The keys have sealed or refused as many packets as they may.
    pub const AEAD_LIMIT_REACHED: Code = Code(0x0f);

    /// No path is left that serves.
    pub const NO_VIABLE_PATH: Code = Code(0x10);

    /// Each code that has a name here, in the order of their numbers.
    pub fn all() -> [Code; 17]
        ensures { result ≡ all_codes }
    {
        [
            Code::NO_ERROR,
            Code::INTERNAL_ERROR,
            Code::CONNECTION_REFUSED,
            Code::FLOW_CONTROL_ERROR,
            Code::STREAM_LIMIT_ERROR,
            Code::STREAM_STATE_ERROR,
            Code::FINAL_SIZE_ERROR,
            Code::FRAME_ENCODING_ERROR,
            Code::TRANSPORT_PARAMETER_ERROR,
            Code::CONNECTION_ID_LIMIT_ERROR,
            Code::PROTOCOL_VIOLATION,
            Code::INVALID_TOKEN,
            Code::APPLICATION_ERROR,
            Code::CRYPTO_BUFFER_EXCEEDED,
            Code::KEY_UPDATE_ERROR,
            Code::AEAD_LIMIT_REACHED,
            Code::NO_VIABLE_PATH,
        ]
    }
}

impl From<VarInt> for Code {
    ghost from_gives = { λ v code. code ≡ v };

    fn from(v: VarInt) -> Code {
        Code(v.into_inner())
    }
}

impl From<Code> for VarInt {
    ghost from_gives = { λ code v. v ≡ code };

    fn from(code: Code) -> VarInt {
        VarInt::from_u64_unchecked(code.0)
    }
}

impl From<Code> for u64 {
    ghost from_gives = { λ code x. x ≡ code };

    fn from(code: Code) -> u64 {
        code.0
    }
}

/// The name of the code in RFC 9000 or its extensions, or `unknown error N`.
impl fmt::Display for Code {
    ghost output = { λ code. Some (code_text code) };

    fn fmt<W: fmt::Write>(&self, f: &mut fmt::Formatter<W>) -> fmt::Result {
        let n = self.0;
        match name_of(n) {
            Some(name) => f.write_str(name),
            None => write!(f, "unknown error {n}"),
        }
    }
}

/// The name of a code, where it has one.
fn name_of(code: u64) -> Option<&'static str>
    ensures { MatchOption result (code_name code ≡ None) (λ name. code_name code ≡ Some name.now) }
{
    let name = match code {
        0x00 => "NO_ERROR",
        0x01 => "INTERNAL_ERROR",
        0x02 => "CONNECTION_REFUSED",
        0x03 => "FLOW_CONTROL_ERROR",
        0x04 => "STREAM_LIMIT_ERROR",
        0x05 => "STREAM_STATE_ERROR",
        0x06 => "FINAL_SIZE_ERROR",
        0x07 => "FRAME_ENCODING_ERROR",
        0x08 => "TRANSPORT_PARAMETER_ERROR",
        0x09 => "CONNECTION_ID_LIMIT_ERROR",
        0x0a => "PROTOCOL_VIOLATION",
        0x0b => "INVALID_TOKEN",
        0x0c => "APPLICATION_ERROR",
        0x0d => "CRYPTO_BUFFER_EXCEEDED",
        0x0e => "KEY_UPDATE_ERROR",
        0x0f => "AEAD_LIMIT_REACHED",
        0x10 => "NO_VIABLE_PATH",
        _ => return None,
    };
    Some(name)
}

/// An error of the transport: its code, the type of the frame that caused it, where one did, and a
/// reason for people to read (quinn-proto's `transport_error::Error`).
///
/// Contracts see the code and the type of the frame. Two errors are equal where these are, whatever
/// their reasons.
#[derive(Clone, Debug, Drop)]
pub struct TransportError {
    code: Code,
    frame: Option<FrameType>,
    reason: Reason,
}

impl Model for TransportError {
    ghost use Rattle.quic_wire_core.specs.TransportError.{ErrorValue};

    ghost Value = { ErrorValue };

    ghost view = { λ e. record { code = e.code; frame = e.frame } };
}

impl TransportError {
    /// An error with this code, the type of the frame that caused it, and this reason.
    pub fn new(code: Code, frame: Option<FrameType>, reason: Reason) -> Self
        ensures { result ≡ error_in code frame }
    {
        TransportError {
            code,
            frame,
            reason,
        }
    }

    /// What went wrong.
    pub fn code(&self) -> Code
        ensures { result ≡ self.now.code }
    {
        self.code
    }

    /// The type of the frame that caused the error, where one did.
    pub fn frame(&self) -> Option<FrameType>
        ensures { result ≡ self.now.frame }
    {
        self.frame
    }

    /// What people read about the error.
    pub fn reason(&self) -> Reason {
        self.reason
    }

    /// The same error again, its reason with it.
    pub fn copied(&self) -> TransportError
        ensures { result ≡ self.now }
    {
        TransportError {
            code: self.code,
            frame: self.frame,
            reason: self.reason,
        }
    }
}

impl PartialEq for TransportError {
    ghost eq = { same_error };

    ghost laws = { partial_equiv_from_equiv same_error_equiv };

    fn eq(&self, other: &TransportError) -> bool {
        other.code == self.code && other.frame == self.frame
    }
}

impl Eq for TransportError {
    ghost laws = { same_error_equiv };
}

impl From<Code> for TransportError {
    ghost from_gives = { λ code e. e ≡ plain_error code };

    /// An error with this code, of no frame, and with an empty reason.
    fn from(code: Code) -> TransportError {
        TransportError::new(code, None, Reason::Unsaid)
    }
}

/// The code, then the type of the frame, and then the reason, where there are.
impl fmt::Display for TransportError {
    fn fmt<W: fmt::Write>(&self, f: &mut fmt::Formatter<W>) -> fmt::Result
        ensures text { (reason : Reason) × DisplaysOnOk W.write_str_gives f.old result (Some (error_text self.now reason)) f.new }
    {
        write_error(f, self.code, self.frame, self.reason)
    }
}

/// Writes an error of this code, frame and reason.
fn write_error<W: fmt::Write>(
    f: &mut fmt::Formatter<W>,
    code: Code,
    frame: Option<FrameType>,
    reason: Reason,
) -> fmt::Result
    ensures { DisplaysOnOk W.write_str_gives f.old result (Some (error_text (error_in code frame) reason)) f.new }
{
    write!(f, "{code}")?;
    write_frame(f, frame)?;
    write_reason(f, reason)
}

/// Writes the type of the frame that caused an error, where one did.
fn write_frame<W: fmt::Write>(f: &mut fmt::Formatter<W>, frame: Option<FrameType>) -> fmt::Result
    ensures { DisplaysOnOk W.write_str_gives f.old result (Some (frame_part frame)) f.new }
{
    match frame {
        Some(frame) => write!(f, " in {frame}"),
        None => Ok(()),
    }
}

/// Writes a reason, where something is said.
fn write_reason<W: fmt::Write>(f: &mut fmt::Formatter<W>, reason: Reason) -> fmt::Result
    ensures { DisplaysOnOk W.write_str_gives f.old result (Some (reason_part reason)) f.new }
{
    if reason == Reason::Unsaid {
        return Ok(());
    }
    let text = reason.as_str();
    write!(f, ": {text}")
}

impl Error for TransportError {}
