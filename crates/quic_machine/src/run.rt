//! What comes to two ends, and what is answered and seen then.
ghost use Rattle.std.specs.Prelude.{◌≡◌};

use crate::answers::{
    Event, Failed, HandshakeDoneError, LostReason, NextIdError, Received, State, Transmit,
};
use bytes::Bytes;
use quic_assembler::Chunk;
use quic_messages::SendDatagramError;
use quic_paths::Address;
use quic_streams_parts::{
    ClosedStream, FinishError, ReadError, ReadableError, UpdateError, WriteError, Written,
};
use quic_time::{Instant, Timer};
use quic_wire_core::{Dir, EcnCodepoint, Side, StreamId, VarInt};
use std::marker::Model;

/// One event of a run: a call at one end.
#[derive(Debug, Drop)]
pub struct RunEvent {
    /// The end at which the call is made.
    pub side: Side,
    /// The call.
    pub call: Call,
}

/// What may come to an end.
#[derive(Debug, Drop)]
pub enum Call {
    /// Opens a stream of this kind (`Streams::open`).
    Open(Dir),
    /// Accepts a stream of this kind that the peer opened (`Streams::accept`).
    Accept(Dir),
    /// Writes on a stream (`SendStream::write`).
    Write(StreamId, Bytes),
    /// Writes several buffers on a stream, each a piece (`SendStream::write_chunks`).
    WriteChunks(StreamId, Vec<Bytes>),
    /// Finishes a stream (`SendStream::finish`).
    Finish(StreamId),
    /// Resets a stream with this code (`SendStream::reset`).
    Reset(StreamId, VarInt),
    /// Sets the priority of a stream (`SendStream::set_priority`).
    SetPriority(StreamId, i32),
    /// Reads a stream (`RecvStream::read`): the bounds of each `Chunks::next`, then
    /// `Chunks::finalize` or a drop.
    Read(ReadCall),
    /// Stops a stream with this code (`RecvStream::stop`).
    Stop(StreamId, VarInt),
    /// Asks whether the peer reset a stream (`RecvStream::received_reset`).
    ReceivedReset(StreamId),
    /// Sends a message, for which older ones that wait may go or not (`Datagrams::send`).
    Send(Bytes, bool),
    /// Reads a message (`Datagrams::recv`).
    Recv,
    /// Asks for a PING (`Connection::ping`).
    Ping,
    /// Closes the connection (`Connection::close`).
    Close(CloseCall),
    /// Changes to the next id that the peer gave (`Connection::use_next_id`).
    UseNextId,
    /// Says that the handshake is done (`Connection::handshake_done`).
    HandshakeDone,
    /// Asks for a datagram at this moment (`Connection::poll_transmit`).
    Poll(Instant),
    /// Lets timers expire that are set up to this moment (`Connection::handle_timeout`).
    Timeout(Instant),
    /// A datagram of the other end arrives (`Connection::receive`).
    Deliver(Delivery),
    /// Bytes arrive that the other end gave out or didn't (`Connection::receive`, unless
    /// `Connection::would_open`).
    Inject(Injection),
    /// Asks what the application is to be told (`Connection::poll`).
    Event,
    /// Asks when a timer expires (`Connection::timer`).
    Timer(Timer),
    /// Asks when the next timer expires (`Connection::poll_timeout`).
    NextTimeout,
    /// Asks whether the end is open (`Connection::state`), and whether the peer's address is
    /// validated (`Connection::is_validated`).
    State,
}

/// A read of a stream.
#[derive(Debug, Drop)]
pub struct ReadCall {
    /// The stream.
    pub id: StreamId,
    /// Whether its bytes are read in order.
    pub ordered: bool,
    /// The greatest length of each chunk asked for, in bytes.
    pub nexts: Vec<usize>,
    /// Whether the read ends by `finalize`, and not by a drop.
    pub finalize: bool,
}

/// A close of the application.
#[derive(Debug, Drop)]
pub struct CloseCall {
    /// When it is made.
    pub now: Instant,
    /// Why, in the application's words.
    pub error_code: VarInt,
    /// More of why, for people to read.
    pub reason: Bytes,
}

/// The arrival of a datagram that the other end gave out.
#[derive(Clone, Copy, Debug)]
pub struct Delivery {
    /// When it arrives.
    pub now: Instant,
    /// The address that it comes from.
    pub remote: Address,
    /// The mark with which it arrives (RFC 3168, section 5), if it has one.
    pub ecn: Option<EcnCodepoint>,
    /// Which of the other end's datagrams it is, counted from 0.
    pub index: usize,
}

/// The arrival of any bytes as a datagram.
#[derive(Debug, Drop)]
pub struct Injection {
    /// When they arrive.
    pub now: Instant,
    /// The address that they come from.
    pub remote: Address,
    /// The mark with which they arrive (RFC 3168, section 5), if they have one.
    pub ecn: Option<EcnCodepoint>,
    /// The bytes.
    pub bytes: Bytes,
}

/// What each `next` of a read answered. Contracts see the list.
#[derive(Debug, Drop)]
pub struct Nexts {
    items: Vec<Result<Option<Chunk>, ReadError>>,
}

impl Model for Nexts {
    ghost use Rattle.std.specs.Prelude.{List, Option, Result};
    ghost use Rattle.quic_assembler.specs.declared.assembler.Chunk.{Chunk};
    ghost use Rattle.quic_streams_parts.specs.declared.answers.ReadError.{ReadError};

    ghost Value = { List (Result (Option Chunk) ReadError) };

    ghost view = { λ n. n.items.items };
}

impl Nexts {
    /// These answers.
    pub fn new(items: Vec<Result<Option<Chunk>, ReadError>>) -> Nexts
        ensures { result ≡ items.items }
    {
        Nexts { items }
    }

    /// The answers, in their order.
    pub fn as_slice(&self) -> &[Result<Option<Chunk>, ReadError>]
        ensures { result.now ≡ self.now }
    {
        self.items.as_slice()
    }
}

/// What an event is answered: what its call answers.
#[derive(Debug, Drop)]
pub enum Answer {
    /// The stream that was opened, or `None` where none may be.
    Open(Option<StreamId>),
    /// The stream that was accepted, or `None` where none waits.
    Accept(Option<StreamId>),
    /// How many bytes were accepted, or why none were.
    Write(Result<usize, WriteError>),
    /// How many bytes and whole buffers were accepted, or why none were.
    WriteChunks(Result<Written, WriteError>),
    /// The stream is finished, or why it isn't.
    Finish(Result<(), FinishError>),
    /// The stream is reset, or why it isn't.
    Reset(Result<(), UpdateError>),
    /// The priority is set, or why it isn't.
    SetPriority(Result<(), UpdateError>),
    /// What each `next` of the read answered, or why the stream can't be read.
    Read(Result<Nexts, ReadableError>),
    /// The stream is stopped, or why it isn't.
    Stop(Result<(), UpdateError>),
    /// The code with which the peer reset the stream, if it did; or that there is nothing to read
    /// on it.
    ReceivedReset(Result<Option<VarInt>, ClosedStream>),
    /// The message waits to go, or why it doesn't.
    Send(Result<(), SendDatagramError>),
    /// The message that was read, or `None` where none waits.
    Recv(Option<Bytes>),
    /// PING waits to go.
    Ping,
    /// The end is closing, unless it wasn't open.
    Close,
    /// The next id is in use, or why it isn't.
    UseNextId(Result<(), NextIdError>),
    /// HANDSHAKE_DONE waits to go, or why it doesn't.
    HandshakeDone(Result<(), HandshakeDoneError>),
    /// The datagram that was given, or `None` where nothing waits to go; or that the end failed.
    Poll(Result<Option<Transmit>, Failed>),
    /// The timers were handled; or the end failed.
    Timeout(Result<(), Failed>),
    /// What became of the delivered datagram.
    Deliver(Received),
    /// The other end gave out no such datagram; no call was made.
    NoDatagram,
    /// What became of the injected bytes.
    Inject(Received),
    /// The injected bytes would open; no call was made.
    Opens,
    /// What the application is told, or `None` where there is nothing to tell.
    Event(Option<Event>),
    /// When the timer expires, or `None` where it isn't set.
    Timer(Option<Instant>),
    /// When the next timer expires, or `None` where none is set.
    NextTimeout(Option<Instant>),
    /// Whether the end is open, and else in which way it isn't; and whether the peer's address is
    /// validated.
    State(State, bool),
}

/// What is seen of one end after an event.
#[derive(Debug, Drop)]
pub struct EndView {
    /// Whether it is open, closing, drained or failed (RFC 9000, section 10).
    pub state: State,
    /// Why it isn't open, where that is known.
    pub reason: Option<LostReason>,
    /// Whether the path to the peer is validated (RFC 9000, section 8).
    pub validated: bool,
    /// When each timer expires, if it is set, in the order of [`Timer`]'s variants.
    pub timers: [Option<Instant>; 9],
    /// The congestion window, in bytes.
    pub window: u64,
    /// The bytes that a datagram has at most, but for an MTU probe (RFC 9000, section 14).
    pub current_mtu: u16,
}

/// What is seen of both ends after an event.
#[derive(Debug, Drop)]
pub struct View {
    /// The client.
    pub client: EndView,
    /// The server.
    pub server: EndView,
}

/// A datagram that an end gave out. Contracts see its bytes.
#[derive(Debug, Drop)]
pub struct Datagram {
    bytes: Vec<u8>,
}

impl Model for Datagram {
    ghost use Rattle.std.specs.Prelude.{List, ℕ};

    ghost Value = { List ℕ };

    ghost view = { λ d. d.bytes.items };
}

impl Datagram {
    /// A datagram of these bytes.
    pub fn new(bytes: Vec<u8>) -> Datagram
        ensures { result ≡ bytes.items }
    {
        Datagram { bytes }
    }

    /// Its bytes.
    pub fn as_slice(&self) -> &[u8]
        ensures { result.now ≡ self.now }
    {
        self.bytes.as_slice()
    }
}
