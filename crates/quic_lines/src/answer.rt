//! What is printed of an answer.
ghost use Rattle.std.specs.Prelude.{◌≡◌, ◌++◌, OnOk, string_bytes};
ghost use Rattle.quic_lines.specs.Printed.{bytes_text, coded_text, id_text, moment_text, mark_text, write_text, chunks_text, finish_text, update_text, reset_text, dir_text, stream_event_text, unreadable_text, next_text, send_text, message_text, address_text, transmit_text, reason_text, received_text, timeout_text, loss_text, state_text, validated_text, event_text, rest_text, answer_text, call_text, next_id_text, handshake_done_text};

use bytes::Bytes;
use quic_assembler::Chunk;
use quic_machine::{
    Address, Answer, Call, DropReason, Event, Failed, HandshakeDoneError, LostReason, NextIdError,
    Received, State, Transmit,
};
use quic_messages::SendDatagramError;
use quic_streams_parts::{
    ClosedStream, FinishError, ReadError, ReadableError, StreamEvent, UpdateError, WriteError,
    Written,
};
use quic_time::Instant;
use quic_wire_core::{Dir, EcnCodepoint, StreamId, VarInt};
use std::alloc::{AllocError, Global};

/// Appends a number in words, as `stopped 7`.
fn put_code(out: &mut String, word: &str, code: VarInt) -> Result<(), AllocError>
    ensures { OnOk result (string_bytes out.new ≡ string_bytes out.old ++ coded_text word.now code) }
{
    let code = code.into_inner();
    write!(out, "{word} {code}")
}

/// Appends bytes in hexadecimal, where `-` stands for none.
///
/// # Errors
///
/// - [`AllocError`]: an allocation fails. Some of the text may stand in `out`.
pub fn put_bytes(alloc: Global, out: &mut String, bytes: &[u8]) -> Result<(), AllocError>
    ensures { OnOk result (string_bytes out.new ≡ string_bytes out.old ++ bytes_text bytes.now) }
{
    if bytes.is_empty() {
        return out.push_str("-");
    }
    let text = hex::encode(alloc, bytes)?;
    out.push_str(text.as_str())
}

/// Appends a stream's id, if there is one.
fn put_id(out: &mut String, id: Option<StreamId>) -> Result<(), AllocError>
    ensures { OnOk result (string_bytes out.new ≡ string_bytes out.old ++ id_text id) }
{
    match id {
        Some(id) => {
            let id = u64::from(id);
            write!(out, "{id}")
        }
        None => out.push_str("none"),
    }
}

/// Appends a moment in nanoseconds, if there is one.
fn put_moment(out: &mut String, moment: Option<Instant>) -> Result<(), AllocError>
    ensures { OnOk result (string_bytes out.new ≡ string_bytes out.old ++ moment_text moment) }
{
    match moment {
        Some(moment) => {
            let nanos = moment.as_nanos();
            write!(out, "{nanos}")
        }
        None => out.push_str("none"),
    }
}

/// Appends how many bytes a write took, or why none.
fn put_write(out: &mut String, written: &Result<usize, WriteError>) -> Result<(), AllocError>
    ensures { OnOk result (string_bytes out.new ≡ string_bytes out.old ++ write_text written.now) }
{
    match written {
        Ok(count) => write!(out, "{count}"),
        Err(WriteError::Blocked) => out.push_str("blocked"),
        Err(WriteError::Stopped(code)) => put_code(out, "stopped", *code),
        Err(WriteError::ClosedStream) => out.push_str("closed"),
        Err(WriteError::Memory) => out.push_str("memory"),
    }
}

/// Appends whether a stream was finished, or why not.
fn put_finish(out: &mut String, finished: &Result<(), FinishError>) -> Result<(), AllocError>
    ensures { OnOk result (string_bytes out.new ≡ string_bytes out.old ++ finish_text finished.now) }
{
    match finished {
        Ok(()) => out.push_str("ok"),
        Err(FinishError::Stopped(code)) => put_code(out, "stopped", *code),
        Err(FinishError::ClosedStream) => out.push_str("closed"),
        Err(FinishError::Memory) => out.push_str("memory"),
    }
}

/// Appends how many bytes and whole buffers a write took, or why none.
fn put_write_chunks(
    out: &mut String,
    written: &Result<Written, WriteError>,
) -> Result<(), AllocError>
    ensures { OnOk result (string_bytes out.new ≡ string_bytes out.old ++ chunks_text written.now) }
{
    match written {
        Ok(Written { bytes, chunks }) => write!(out, "{bytes} {chunks}"),
        Err(error) => put_write(out, &Err(*error)),
    }
}

/// How it is printed whether a stream was reset, stopped or given a priority.
fn update_name(done: &Result<(), UpdateError>) -> &'static str
    ensures { result.now ≡ update_text done.now }
{
    match done {
        Ok(()) => "ok",
        Err(UpdateError::ClosedStream) => "closed",
        Err(UpdateError::Memory) => "memory",
    }
}

/// Appends the code with which the peer reset a stream, if it did.
fn put_reset(
    out: &mut String,
    reset: &Result<Option<VarInt>, ClosedStream>,
) -> Result<(), AllocError>
    ensures { OnOk result (string_bytes out.new ≡ string_bytes out.old ++ reset_text reset.now) }
{
    match reset {
        Ok(Some(code)) => put_code(out, "reset", *code),
        Ok(None) => out.push_str("none"),
        Err(ClosedStream) => out.push_str("closed"),
    }
}

/// Appends what one `next` gave.
fn put_next(
    alloc: Global,
    out: &mut String,
    next: &Result<Option<Chunk>, ReadError>,
) -> Result<(), AllocError>
    ensures { OnOk result (string_bytes out.new ≡ string_bytes out.old ++ next_text next.now) }
{
    match next {
        Ok(Some(chunk)) => {
            let offset = chunk.offset;
            write!(out, "{offset} ")?;
            put_bytes(alloc, out, &chunk.bytes)
        }
        Ok(None) => out.push_str("end"),
        Err(ReadError::Blocked) => out.push_str("blocked"),
        Err(ReadError::Reset(code)) => put_code(out, "reset", *code),
        Err(ReadError::Memory) => out.push_str("memory"),
    }
}

/// How it is printed why a stream can't be read.
fn unreadable_name(error: ReadableError) -> &'static str
    ensures { result.now ≡ unreadable_text error }
{
    match error {
        ReadableError::ClosedStream => "closed",
        ReadableError::IllegalOrderedRead => "illegal",
        ReadableError::Memory => "memory",
    }
}

/// How it is printed whether a message waits to go, or why not.
fn send_name(sent: &Result<(), SendDatagramError>) -> &'static str
    ensures { result.now ≡ send_text sent.now }
{
    match sent {
        Ok(()) => "ok",
        Err(SendDatagramError::UnsupportedByPeer) => "unsupported",
        Err(SendDatagramError::Disabled) => "disabled",
        Err(SendDatagramError::TooLarge) => "toolarge",
        Err(SendDatagramError::Blocked) => "blocked",
        Err(SendDatagramError::Memory) => "memory",
    }
}

/// Appends a message that was read, if there is one.
fn put_message(alloc: Global, out: &mut String, message: &Option<Bytes>) -> Result<(), AllocError>
    ensures { OnOk result (string_bytes out.new ≡ string_bytes out.old ++ message_text message.now) }
{
    match message {
        Some(bytes) => put_bytes(alloc, out, bytes),
        None => out.push_str("none"),
    }
}

/// How a mark is printed, where `-` stands for none.
pub fn mark_name(ecn: Option<EcnCodepoint>) -> &'static str
    ensures { result.now ≡ mark_text ecn }
{
    match ecn {
        None => "-",
        Some(EcnCodepoint::Ect0) => "ect0",
        Some(EcnCodepoint::Ect1) => "ect1",
        Some(EcnCodepoint::Ce) => "ce",
    }
}

/// Appends which datagram of its end it is, its size, its mark, and its address where that isn't 0.
fn put_transmit(out: &mut String, transmit: &Transmit, index: usize) -> Result<(), AllocError>
    ensures { OnOk result (string_bytes out.new ≡ string_bytes out.old ++ transmit_text index transmit.now) }
{
    let size = transmit.size;
    let mark = mark_name(transmit.ecn);
    write!(out, "{index} {size} {mark}")?;
    put_address(out, transmit.remote)
}

/// Appends a blank and an address, where that isn't 0.
///
/// # Errors
///
/// - [`AllocError`]: an allocation fails. Some of the text may stand in `out`.
pub fn put_address(out: &mut String, remote: Address) -> Result<(), AllocError>
    ensures { OnOk result (string_bytes out.new ≡ string_bytes out.old ++ address_text remote) }
{
    let Address(number) = remote;
    if number == 0 {
        return Ok(());
    }
    write!(out, " {number}")
}

/// How the reason why a datagram was dropped is printed.
fn reason_name(reason: DropReason) -> &'static str
    ensures { result.now ≡ reason_text reason }
{
    match reason {
        DropReason::TooShort => "tooshort",
        DropReason::NotShort => "notshort",
        DropReason::FixedBit => "fixedbit",
        DropReason::UnknownId => "unknownid",
        DropReason::NotOpened => "notopened",
        DropReason::KeyPhase => "keyphase",
        DropReason::Duplicate => "duplicate",
        DropReason::Closing => "closing",
        DropReason::Drained => "drained",
        DropReason::Failed => "failed",
        DropReason::Address => "address",
    }
}

/// Appends what came of a datagram.
///
/// # Errors
///
/// - [`AllocError`]: an allocation fails. Some of the text may stand in `out`.
pub fn put_received(out: &mut String, received: &Received) -> Result<(), AllocError>
    ensures { OnOk result (string_bytes out.new ≡ string_bytes out.old ++ received_text received.now) }
{
    match received {
        Received::Taken => out.push_str("taken"),
        Received::Dropped(reason) => {
            let name = reason_name(*reason);
            write!(out, "dropped {name}")
        }
        Received::Closed(error) => put_code(out, "closed", VarInt::from(error.code())),
        Received::Failed => out.push_str("failed"),
    }
}

/// How it is printed whether timers were let expire, or the end has failed.
fn timeout_name(done: &Result<(), Failed>) -> &'static str
    ensures { result.now ≡ timeout_text done.now }
{
    match done {
        Ok(()) => "ok",
        Err(Failed) => "failed",
    }
}

/// How the reason why an end is lost is printed.
fn loss_name(reason: &LostReason) -> &'static str
    ensures { result.now ≡ loss_text reason.now }
{
    match reason {
        LostReason::Application => "application",
        LostReason::Peer(_) => "peer",
        LostReason::Pieces => "pieces",
        LostReason::Idle => "idle",
        LostReason::KeyLimit => "keylimit",
        LostReason::NumberLimit => "numberlimit",
        LostReason::Transport(_) => "transport",
    }
}

/// How it is printed whether an end is open, and else in which way it isn't.
fn state_name(state: State) -> &'static str
    ensures { result.now ≡ state_text state }
{
    match state {
        State::Open => "open",
        State::Closing => "closing",
        State::Drained => "drained",
        State::Failed => "failed",
    }
}

/// Appends whether an end is open, and whether its peer's address is validated.
fn put_state(out: &mut String, state: State, validated: bool) -> Result<(), AllocError>
    ensures { OnOk result (string_bytes out.new ≡ string_bytes out.old ++ (state_text state ++ validated_text validated)) }
{
    out.push_str(state_name(state))?;
    out.push_str(if validated {
        " validated"
    } else {
        " unvalidated"
    })
}

/// How it is printed whether the next id is used.
fn next_id_name(changed: &Result<(), NextIdError>) -> &'static str
    ensures { result.now ≡ next_id_text changed.now }
{
    match changed {
        Ok(()) => "ok",
        Err(NextIdError::NoId) => "noid",
        Err(NextIdError::TooManyPending) => "toomany",
        Err(NextIdError::Memory) => "memory",
    }
}

/// How it is printed whether HANDSHAKE_DONE waits to go.
fn handshake_done_name(said: &Result<(), HandshakeDoneError>) -> &'static str
    ensures { result.now ≡ handshake_done_text said.now }
{
    match said {
        Ok(()) => "ok",
        Err(HandshakeDoneError::Client) => "client",
        Err(HandshakeDoneError::Again) => "again",
        Err(HandshakeDoneError::NotOpen) => "notopen",
    }
}

/// How a kind of stream is printed.
fn dir_name(dir: Dir) -> &'static str
    ensures { result.now ≡ dir_text dir }
{
    match dir {
        Dir::Bi => "bi",
        Dir::Uni => "uni",
    }
}

/// Appends what happened to streams.
fn put_stream_event(out: &mut String, event: &StreamEvent) -> Result<(), AllocError>
    ensures { OnOk result (string_bytes out.new ≡ string_bytes out.old ++ stream_event_text event.now) }
{
    match event {
        StreamEvent::Opened { dir } => {
            let name = dir_name(*dir);
            write!(out, "opened {name}")
        }
        StreamEvent::Readable { id } => put_code(out, "readable", VarInt::from(*id)),
        StreamEvent::Writable { id } => put_code(out, "writable", VarInt::from(*id)),
        StreamEvent::Finished { id } => put_code(out, "finished", VarInt::from(*id)),
        StreamEvent::Stopped { id, error_code } => {
            put_code(out, "stopped", VarInt::from(*id))?;
            let code = error_code.into_inner();
            write!(out, " {code}")
        }
        StreamEvent::Available { dir } => {
            let name = dir_name(*dir);
            write!(out, "available {name}")
        }
    }
}

/// Appends what the application is told, if anything.
fn put_event(out: &mut String, event: &Option<Event>) -> Result<(), AllocError>
    ensures { OnOk result (string_bytes out.new ≡ string_bytes out.old ++ event_text event.now) }
{
    match event {
        Some(Event::Stream(event)) => put_stream_event(out, event),
        Some(Event::Message) => out.push_str("message"),
        Some(Event::HandshakeConfirmed) => out.push_str("confirmed"),
        Some(Event::Lost(reason)) => {
            let name = loss_name(reason);
            write!(out, "lost {name}")
        }
        None => out.push_str("none"),
    }
}

/// Appends the moment at which both ends rest, or that they were given up.
///
/// # Errors
///
/// - [`AllocError`]: an allocation fails. Some of the text may stand in `out`.
pub fn put_rest(out: &mut String, moment: Option<Instant>) -> Result<(), AllocError>
    ensures { OnOk result (string_bytes out.new ≡ string_bytes out.old ++ rest_text moment) }
{
    match moment {
        Some(moment) => {
            let nanos = moment.as_nanos();
            write!(out, "{nanos}")
        }
        None => out.push_str("gave up"),
    }
}

/// Appends an answer. A datagram that was given out is the last of the `given` datagrams of its
/// end.
///
/// # Errors
///
/// - [`AllocError`]: an allocation fails. Some of the text may stand in `out`.
pub fn put_answer(
    alloc: Global,
    out: &mut String,
    answer: &Answer,
    given: usize,
) -> Result<(), AllocError>
    ensures { OnOk result (string_bytes out.new ≡ string_bytes out.old ++ answer_text given answer.now) }
{
    match answer {
        Answer::Open(id) | Answer::Accept(id) => put_id(out, *id),
        Answer::Write(written) => put_write(out, written),
        Answer::WriteChunks(written) => put_write_chunks(out, written),
        Answer::Finish(finished) => put_finish(out, finished),
        Answer::Reset(done) | Answer::SetPriority(done) | Answer::Stop(done) => {
            out.push_str(update_name(done))
        }
        Answer::ReceivedReset(reset) => put_reset(out, reset),
        Answer::Read(Err(error)) => out.push_str(unreadable_name(*error)),
        Answer::Read(Ok(nexts)) => match nexts.as_slice() {
            [next, ..] => put_next(alloc, out, next),
            [] => Ok(()),
        },
        Answer::Send(sent) => out.push_str(send_name(sent)),
        Answer::Recv(message) => put_message(alloc, out, message),
        Answer::Ping | Answer::Close => out.push_str("ok"),
        Answer::UseNextId(changed) => out.push_str(next_id_name(changed)),
        Answer::HandshakeDone(said) => out.push_str(handshake_done_name(said)),
        Answer::Poll(Ok(Some(transmit))) => put_transmit(out, transmit, given.saturating_sub(1)),
        Answer::Poll(Ok(None)) => out.push_str("none"),
        Answer::Poll(Err(_)) => out.push_str("failed"),
        Answer::Timeout(done) => out.push_str(timeout_name(done)),
        Answer::Deliver(received) | Answer::Inject(received) => put_received(out, received),
        Answer::NoDatagram => out.push_str("nodatagram"),
        Answer::Opens => out.push_str("opens"),
        Answer::Event(event) => put_event(out, event),
        Answer::Timer(moment) | Answer::NextTimeout(moment) => put_moment(out, *moment),
        Answer::State(state, validated) => put_state(out, *state, *validated),
    }
}

/// How a call is named in a script.
pub fn call_name(call: &Call) -> &'static str
    ensures { result.now ≡ call_text call.now }
{
    match call {
        Call::Open(_) => "open",
        Call::Accept(_) => "accept",
        Call::Write(_, _) => "write",
        Call::WriteChunks(_, _) => "write_chunks",
        Call::Finish(_) => "finish",
        Call::Reset(_, _) => "reset",
        Call::SetPriority(_, _) => "priority",
        Call::Read(read) if read.ordered => "read",
        Call::Read(_) => "pick",
        Call::Stop(_, _) => "stop",
        Call::ReceivedReset(_) => "received_reset",
        Call::Send(_, _) => "send",
        Call::Recv => "recv",
        Call::Ping => "ping",
        Call::Close(_) => "close",
        Call::UseNextId => "use_next_id",
        Call::HandshakeDone => "handshake_done",
        Call::Poll(_) => "poll",
        Call::Timeout(_) => "timeout",
        Call::Deliver(_) => "deliver",
        Call::Inject(_) => "inject",
        Call::Event => "event",
        Call::Timer(_) => "timer",
        Call::NextTimeout => "next",
        Call::State => "state",
    }
}
