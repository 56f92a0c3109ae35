//! What the calls of an end answer.
ghost use Rattle.std.specs.Prelude.{◌≡◌, ◌≤◌, vec_len, vec_capacity};
ghost use Rattle.quic_machine.specs.Reasons.{text_len};

use crate::peer_close::PeerClose;
use quic_paths::Address;
use quic_streams_parts::StreamEvent;
use quic_wire_core::{EcnCodepoint, TransportError};
use std::fmt;
use thiserror::Error;

/// Whether an end is open (RFC 9000, section 10).
#[derive(Clone, Copy, Debug, PartialEq, Eq)]
pub enum State {
    /// It sends and receives.
    Open,
    /// It only repeats its close, for three probe timeouts.
    Closing,
    /// It sends nothing more, and drops what comes.
    Drained,
    /// It met want of memory where a datagram was taken or given, or packets were lost at a
    /// timeout, and is of no more use.
    Failed,
}

impl fmt::Display for State {
    fn fmt<W: fmt::Write>(&self, f: &mut fmt::Formatter<W>) -> fmt::Result {
        f.write_str(match self {
            State::Open => "open",
            State::Closing => "closing",
            State::Drained => "drained",
            State::Failed => "failed",
        })
    }
}

/// Why an end is no longer open (quinn-proto's `ConnectionError`).
#[derive(Debug, Drop)]
pub enum LostReason {
    /// The application closed it.
    Application,
    /// The peer closed it, and said this (RFC 9000, section 19.19).
    Peer(PeerClose),
    /// More runs of a stream waited to be read than its receive window lets: one for each 1,024
    /// bytes of it, and 2048 at least.
    Pieces,
    /// Nothing came for the idle timeout (RFC 9000, section 10.1).
    Idle,
    /// The key sealed as many packets as it may, or refused as many (RFC 9001, section 6.6).
    KeyLimit,
    /// The packet numbers were used up (RFC 9000, section 12.3).
    NumberLimit,
    /// The peer broke a rule.
    Transport(TransportError),
}

impl LostReason {
    /// How many bytes the text has that the peer's close brought; 0 where the reason is another
    /// one.
    pub fn text_len(&self) -> usize
        ensures { result ≡ text_len self.now }
    {
        match self {
            LostReason::Peer(close) => close.text_len(),
            LostReason::Application
            | LostReason::Pieces
            | LostReason::Idle
            | LostReason::KeyLimit
            | LostReason::NumberLimit
            | LostReason::Transport(_) => 0,
        }
    }

    /// The same reason again, whose text goes into `room`: it is empty, and has room for it. So
    /// this takes no memory.
    pub fn copied_into(&self, room: Vec<u8>) -> LostReason
        requires empty { vec_len room ≡ 0 }
        requires room { text_len self.now ≤ vec_capacity room }
        ensures { result ≡ self.now }
    {
        match self {
            LostReason::Application => LostReason::Application,
            LostReason::Peer(close) => LostReason::Peer(close.copied_into(room)),
            LostReason::Pieces => LostReason::Pieces,
            LostReason::Idle => LostReason::Idle,
            LostReason::KeyLimit => LostReason::KeyLimit,
            LostReason::NumberLimit => LostReason::NumberLimit,
            LostReason::Transport(error) => LostReason::Transport(error.copied()),
        }
    }
}

impl fmt::Display for LostReason {
    fn fmt<W: fmt::Write>(&self, f: &mut fmt::Formatter<W>) -> fmt::Result {
        match self {
            LostReason::Application => f.write_str("closed by the application"),
            LostReason::Peer(close) => write!(f, "closed by the peer: {close}"),
            LostReason::Pieces => f.write_str("too many pieces of a stream waited"),
            LostReason::Idle => f.write_str("timed out"),
            LostReason::KeyLimit => f.write_str("a limit of the key was reached"),
            LostReason::NumberLimit => f.write_str("the packet numbers were used up"),
            LostReason::Transport(error) => write!(f, "the peer broke a rule: {error}"),
        }
    }
}

/// What the application is told (quinn-proto's `Event`).
#[derive(Debug, Drop)]
pub enum Event {
    /// Something happened to a stream.
    Stream(StreamEvent),
    /// A message came while none was unread (RFC 9221; quinn-proto's `Event::DatagramReceived`).
    Message,
    /// The handshake is confirmed: a client's first HANDSHAKE_DONE came (RFC 9001, section 4.1.2).
    HandshakeConfirmed,
    /// The end is lost. It is told once, and never of an end that has failed.
    Lost(LostReason),
}

impl fmt::Display for Event {
    fn fmt<W: fmt::Write>(&self, f: &mut fmt::Formatter<W>) -> fmt::Result {
        match self {
            Event::Stream(event) => write!(f, "{event}"),
            Event::Message => f.write_str("a message came"),
            Event::HandshakeConfirmed => f.write_str("the handshake is confirmed"),
            Event::Lost(reason) => write!(f, "connection lost: {reason}"),
        }
    }
}

/// What whoever routes datagrams to ends is told (quinn-proto's `EndpointEvent`).
#[derive(Clone, Copy, Debug, PartialEq, Eq)]
pub enum EndpointEvent {
    /// Own connection ids were issued or retired (RFC 9000, sections 5.1.1 and 5.1.2): those that
    /// live are others now.
    OwnIdsChanged,
}

impl fmt::Display for EndpointEvent {
    fn fmt<W: fmt::Write>(&self, f: &mut fmt::Formatter<W>) -> fmt::Result {
        match self {
            EndpointEvent::OwnIdsChanged => f.write_str("own ids were issued or retired"),
        }
    }
}

/// Why a datagram was dropped. Nothing in the end has changed, but that the new number of one that
/// a closing end opened counts as seen.
#[derive(Clone, Copy, Debug, PartialEq, Eq)]
pub enum DropReason {
    /// The bytes end within the id, or there are fewer than 20 behind it (RFC 9001, section 5.4.2).
    TooShort,
    /// A long header (RFC 9000, section 17.2).
    NotShort,
    /// The fixed bit is 0 (RFC 9000, section 17.3.1).
    FixedBit,
    /// The destination id is none that is in use.
    UnknownId,
    /// The key refused it.
    NotOpened,
    /// Another key phase, and keys are never updated here (RFC 9001, section 6).
    KeyPhase,
    /// Its number came before, or is too old to tell (RFC 9000, section 12.3).
    Duplicate,
    /// The end is closing, and sends its close once more.
    Closing,
    /// The end is drained.
    Drained,
    /// The end has failed.
    Failed,
    /// It came to a client from another address than its peer's, which stays (RFC 9000, section 9).
    Address,
}

impl fmt::Display for DropReason {
    fn fmt<W: fmt::Write>(&self, f: &mut fmt::Formatter<W>) -> fmt::Result {
        f.write_str(match self {
            DropReason::TooShort => "too short",
            DropReason::NotShort => "a long header",
            DropReason::FixedBit => "the fixed bit is 0",
            DropReason::UnknownId => "an id that isn't in use",
            DropReason::NotOpened => "the key refused it",
            DropReason::KeyPhase => "another key phase",
            DropReason::Duplicate => "a duplicate",
            DropReason::Closing => "the end is closing",
            DropReason::Drained => "the end is drained",
            DropReason::Failed => "the end has failed",
            DropReason::Address => "from another address than the peer's",
        })
    }
}

/// What a received datagram comes to.
#[derive(Debug, Drop)]
pub enum Received {
    /// All its frames were taken.
    Taken,
    /// It was dropped.
    Dropped(DropReason),
    /// It broke a rule, or was one packet too many that didn't open, which closed the end.
    Closed(TransportError),
    /// Out of memory: an allocation failed, and the endpoint has failed for good.
    Failed,
}

impl fmt::Display for Received {
    fn fmt<W: fmt::Write>(&self, f: &mut fmt::Formatter<W>) -> fmt::Result {
        match self {
            Received::Taken => f.write_str("taken"),
            Received::Dropped(reason) => write!(f, "dropped: {reason}"),
            Received::Closed(error) => write!(f, "closed: {error}"),
            Received::Failed => f.write_str("out of memory: the end has failed"),
        }
    }
}

/// The endpoint has failed: an allocation failed now or before.
#[derive(Clone, Copy, Debug, PartialEq, Eq, Error)]
#[error("the end has failed")]
pub struct Failed;

/// A datagram that was given out (quinn-proto's `Transmit`).
#[derive(Clone, Copy, Debug, PartialEq, Eq)]
pub struct Transmit {
    /// How many bytes it has.
    pub size: usize,
    /// How it is to be marked.
    pub ecn: Option<EcnCodepoint>,
    /// The address to which it is to go.
    pub remote: Address,
}

/// Why an end doesn't change to another id of its peer; tested in this order.
#[derive(Clone, Copy, Debug, PartialEq, Eq, Error)]
pub enum NextIdError {
    /// No later id of the peer is known.
    #[error("no other id of the peer is known")]
    NoId,
    /// More than 80 retirements would wait to be told.
    #[error("too many retired ids wait")]
    TooManyPending,
    /// Out of memory: an allocation failed.
    #[error("out of memory")]
    Memory,
}

/// Why a call that says that the handshake is done changes nothing; tested in this order.
#[derive(Clone, Copy, Debug, PartialEq, Eq, Error)]
pub enum HandshakeDoneError {
    /// The end is a client: only a server says so (RFC 9000, section 19.20).
    #[error("only a server says that the handshake is done")]
    Client,
    /// It was said before.
    #[error("it was said before that the handshake is done")]
    Again,
    /// The end isn't open.
    #[error("the end isn't open")]
    NotOpen,
}

/// Why no end was made; tested in this order.
#[derive(Clone, Copy, Debug, PartialEq, Eq, Error)]
pub enum ConfigError {
    /// The peer's transport parameters are malformed, or have a value out of range.
    #[error("the peer's transport parameters can't be read")]
    Parameters,
    /// The own id hasn't eight bytes, or the peer's has none.
    #[error("an id of the wrong length")]
    IdLength,
    /// A size of datagrams is above 65527 bytes, or the least is above what the peer takes.
    #[error("a size of datagrams out of range")]
    Size,
    /// The controller's window doesn't hold two datagrams of the size that the path begins with.
    #[error("a window below two datagrams")]
    Window,
    /// The own key may seal fewer than 16 packets, or the peer's may refuse fewer.
    #[error("a key with a limit below 16 packets")]
    KeyLimit,
    /// The time or the variation of the first sample is 0 or above 60 s.
    #[error("a first sample out of range")]
    FirstSample,
    /// Out of memory: an allocation failed.
    #[error("out of memory")]
    Memory,
}
