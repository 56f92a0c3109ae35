//! Why calls are refused.
ghost use Rattle.std.specs.Prelude.{◌≡◌, ◌<◌, length};
ghost use Rattle.quic_c_core.specs.Answers.{error_number};

use quic_connection::{
    ClosedStream, ConfigError, Failed, FinishError, HandshakeDoneError, NextIdError, ReadError,
    ReadableError, SendDatagramError, UpdateError, VarInt, VarIntBoundsExceeded, WriteError,
};
use std::alloc::AllocError;
use thiserror::Error;

/// Why a call didn't do what it was asked for.
#[derive(Clone, Copy, Debug, PartialEq, Eq, Error)]
pub enum CallError {
    /// A number or a length that the call doesn't take.
    #[error("a number or a length is out of its range")]
    Invalid,
    /// The room for the answer is too small.
    #[error("the room for the answer is too small")]
    Room,
    /// Out of memory: an allocation failed.
    #[error("out of memory")]
    Memory,
    /// The endpoint has failed: an allocation failed in a call that can't be taken back.
    #[error("the endpoint has failed, as memory ran out")]
    Failed,
    /// A struct has another size than is known here.
    #[error("a struct of another size than the library knows")]
    Size,
    /// A setting is out of its range.
    #[error("a setting is out of its range")]
    Setting,
    /// A seed has other than 32 bytes.
    #[error("a seed of other than 32 bytes")]
    Seed,
    /// The own connection ID hasn't eight bytes, or the peer's hasn't 1 to 20.
    #[error("a connection ID of a length that it may not have")]
    IdLength,
    /// The peer's transport parameters are malformed, or one is out of its range.
    #[error("the peer's transport parameters are malformed or out of range")]
    Parameters,
    /// A size of datagrams is above 65527 bytes, or above what the peer takes.
    #[error("a size of datagrams is above what may be, or what the peer takes")]
    DatagramSize,
    /// The first congestion window doesn't hold two datagrams.
    #[error("the first congestion window doesn't hold two datagrams")]
    Window,
    /// A key may seal fewer than 16 packets, or refuse fewer.
    #[error("a key may seal or refuse fewer than 16 packets")]
    KeyLimit,
    /// There is none of what was asked for.
    #[error("there is none")]
    Absent,
    /// A limit leaves no room now, or the endpoint isn't open.
    #[error("a limit leaves no room now, or the endpoint isn't open")]
    Blocked,
    /// There is no such stream, or nothing is left to do on it.
    #[error("there is no such stream, or nothing is left to do on it")]
    ClosedStream,
    /// The peer asked that no more be sent on the stream, with this code.
    #[error("the peer asked that no more be sent on the stream")]
    Stopped(VarInt),
    /// The peer reset the stream, with this code.
    #[error("the peer reset the stream")]
    Reset(VarInt),
    /// The stream was read out of order before.
    #[error("the stream was read out of order before")]
    Order,
    /// The message is longer than the peer, or a packet, takes.
    #[error("the message is longer than the peer, or a packet, takes")]
    TooLarge,
    /// This endpoint takes no messages, so it sends none either.
    #[error("this endpoint takes no messages, so it sends none")]
    Disabled,
    /// The peer takes no messages.
    #[error("the peer takes no messages")]
    Unsupported,
    /// The datagram broke a rule of QUIC, and the endpoint is closing.
    #[error("the datagram broke a rule of QUIC: the endpoint is closing")]
    Closed,
    /// The endpoint is a client, and only a server says that the handshake is done.
    #[error("only a server says that the handshake is done")]
    Client,
    /// It was said before that the handshake is done.
    #[error("it was said before that the handshake is done")]
    Again,
    /// The endpoint isn't open.
    #[error("the endpoint isn't open")]
    NotOpen,
}

impl CallError {
    /// The number of the error, as `fh_error` of the header has it: -1 to -25.
    pub fn code(self) -> i32
        ensures { result ≡ error_number self }
    {
        match self {
            CallError::Invalid => -1,
            CallError::Room => -2,
            CallError::Memory => -3,
            CallError::Failed => -4,
            CallError::Size => -5,
            CallError::Setting => -6,
            CallError::Seed => -7,
            CallError::IdLength => -8,
            CallError::Parameters => -9,
            CallError::DatagramSize => -10,
            CallError::Window => -11,
            CallError::KeyLimit => -12,
            CallError::Absent => -13,
            CallError::Blocked => -14,
            CallError::ClosedStream => -15,
            CallError::Stopped(_) => -16,
            CallError::Reset(_) => -17,
            CallError::Order => -18,
            CallError::TooLarge => -19,
            CallError::Disabled => -20,
            CallError::Unsupported => -21,
            CallError::Closed => -22,
            CallError::Client => -23,
            CallError::Again => -24,
            CallError::NotOpen => -25,
        }
    }

    /// The code that the peer gave with it, if it comes from the peer.
    pub fn peer_code(self) -> Option<VarInt> {
        match self {
            CallError::Stopped(code) | CallError::Reset(code) => Some(code),
            _ => None,
        }
    }
}

/// What the number of an error means, as bytes that end with a zero. Of any other number the text
/// says that it is none.
pub fn error_text(code: i64) -> &'static [u8]
    ensures some { 0 < length result.now }
{
    match code {
        0 => b"no error\0",
        -1 => b"a number or a length is out of its range\0",
        -2 => b"the room for the answer is too small\0",
        -3 => b"out of memory\0",
        -4 => b"the endpoint has failed, as memory ran out\0",
        -5 => b"a struct of another size than the library knows\0",
        -6 => b"a setting is out of its range\0",
        -7 => b"a seed of other than 32 bytes\0",
        -8 => b"a connection ID of a length that it may not have\0",
        -9 => b"the peer's transport parameters are malformed or out of range\0",
        -10 => b"a size of datagrams is above what may be, or what the peer takes\0",
        -11 => b"the first congestion window doesn't hold two datagrams\0",
        -12 => b"a key may seal or refuse fewer than 16 packets\0",
        -13 => b"there is none\0",
        -14 => b"a limit leaves no room now, or the endpoint isn't open\0",
        -15 => b"there is no such stream, or nothing is left to do on it\0",
        -16 => b"the peer asked that no more be sent on the stream\0",
        -17 => b"the peer reset the stream\0",
        -18 => b"the stream was read out of order before\0",
        -19 => b"the message is longer than the peer, or a packet, takes\0",
        -20 => b"this endpoint takes no messages, so it sends none\0",
        -21 => b"the peer takes no messages\0",
        -22 => b"the datagram broke a rule of QUIC: the endpoint is closing\0",
        -23 => b"only a server says that the handshake is done\0",
        -24 => b"it was said before that the handshake is done\0",
        -25 => b"the endpoint isn't open\0",
        _ => b"no error of this library\0",
    }
}

impl From<AllocError> for CallError {
    ghost use Rattle.quic_c_core.specs.declared.call_error.CallError.TheVariants as errors;

    ghost from_gives = { λ _ e. e ≡ errors.Memory };

    fn from(_: AllocError) -> Self {
        CallError::Memory
    }
}

impl From<Failed> for CallError {
    ghost use Rattle.quic_c_core.specs.declared.call_error.CallError.TheVariants as errors;

    ghost from_gives = { λ _ e. e ≡ errors.Failed };

    fn from(_: Failed) -> Self {
        CallError::Failed
    }
}

impl From<VarIntBoundsExceeded> for CallError {
    ghost use Rattle.quic_c_core.specs.declared.call_error.CallError.TheVariants as errors;

    ghost from_gives = { λ _ e. e ≡ errors.Invalid };

    fn from(_: VarIntBoundsExceeded) -> Self {
        CallError::Invalid
    }
}

impl From<ClosedStream> for CallError {
    fn from(_: ClosedStream) -> Self {
        CallError::ClosedStream
    }
}

impl From<ConfigError> for CallError {
    fn from(error: ConfigError) -> Self {
        match error {
            ConfigError::Parameters => CallError::Parameters,
            ConfigError::IdLength => CallError::IdLength,
            ConfigError::Size => CallError::DatagramSize,
            ConfigError::Window => CallError::Window,
            ConfigError::KeyLimit => CallError::KeyLimit,
            ConfigError::FirstSample => CallError::Setting,
            ConfigError::Memory => CallError::Memory,
        }
    }
}

impl From<HandshakeDoneError> for CallError {
    ghost use Rattle.quic_c_core.specs.Answers.{of_done};

    ghost from_gives = { λ error e. e ≡ of_done error };

    fn from(error: HandshakeDoneError) -> Self {
        match error {
            HandshakeDoneError::Client => CallError::Client,
            HandshakeDoneError::Again => CallError::Again,
            HandshakeDoneError::NotOpen => CallError::NotOpen,
        }
    }
}

impl From<NextIdError> for CallError {
    ghost use Rattle.quic_c_core.specs.Answers.{of_next_id};

    ghost from_gives = { λ error e. e ≡ of_next_id error };

    fn from(error: NextIdError) -> Self {
        match error {
            NextIdError::NoId => CallError::Absent,
            NextIdError::TooManyPending => CallError::Blocked,
            NextIdError::Memory => CallError::Memory,
        }
    }
}

impl From<WriteError> for CallError {
    ghost use Rattle.quic_c_core.specs.Answers.{of_write};

    ghost from_gives = { λ error e. e ≡ of_write error };

    fn from(error: WriteError) -> Self {
        match error {
            WriteError::Blocked => CallError::Blocked,
            WriteError::Stopped(code) => CallError::Stopped(code),
            WriteError::ClosedStream => CallError::ClosedStream,
            WriteError::Memory => CallError::Memory,
        }
    }
}

impl From<FinishError> for CallError {
    ghost use Rattle.quic_c_core.specs.Answers.{of_finish};

    ghost from_gives = { λ error e. e ≡ of_finish error };

    fn from(error: FinishError) -> Self {
        match error {
            FinishError::Stopped(code) => CallError::Stopped(code),
            FinishError::ClosedStream => CallError::ClosedStream,
            FinishError::Memory => CallError::Memory,
        }
    }
}

impl From<UpdateError> for CallError {
    ghost use Rattle.quic_c_core.specs.Answers.{of_update};

    ghost from_gives = { λ error e. e ≡ of_update error };

    fn from(error: UpdateError) -> Self {
        match error {
            UpdateError::ClosedStream => CallError::ClosedStream,
            UpdateError::Memory => CallError::Memory,
        }
    }
}

impl From<ReadableError> for CallError {
    fn from(error: ReadableError) -> Self {
        match error {
            ReadableError::ClosedStream => CallError::ClosedStream,
            ReadableError::IllegalOrderedRead => CallError::Order,
            ReadableError::Memory => CallError::Memory,
        }
    }
}

impl From<ReadError> for CallError {
    fn from(error: ReadError) -> Self {
        match error {
            ReadError::Blocked => CallError::Blocked,
            ReadError::Reset(code) => CallError::Reset(code),
            ReadError::Memory => CallError::Memory,
        }
    }
}

impl From<SendDatagramError> for CallError {
    ghost use Rattle.quic_c_core.specs.Answers.{of_send};

    ghost from_gives = { λ error e. e ≡ of_send error };

    fn from(error: SendDatagramError) -> Self {
        match error {
            SendDatagramError::UnsupportedByPeer => CallError::Unsupported,
            SendDatagramError::Disabled => CallError::Disabled,
            SendDatagramError::TooLarge => CallError::TooLarge,
            SendDatagramError::Blocked => CallError::Blocked,
            SendDatagramError::Memory => CallError::Memory,
        }
    }
}
