//! Calls of the application on streams, each made on the streams of an end alone. Each answers want
//! of memory only where it takes some.
ghost use Rattle.std.specs.Prelude.{ℕ, ◌≡◌, ◌≢◌, ◌≤◌, [], Option, Err, true, length, vec_capacity, IfSome, IfNone};
ghost use Rattle.quic_streams_parts.specs.declared.answers.ReadError.TheVariants as read_errors;
ghost use Rattle.quic_streams_parts.specs.RecvHalf.{RecvHalf};
ghost use Rattle.quic_streams_state.specs.declared.state.StreamsState.{StreamsState};
ghost use Rattle.quic_streams_state.specs.Reading.{told_bytes, next_at, next_answer, told_by, after_next};
ghost use Rattle.quic_streams_handles.specs.Told.{told_of};
ghost use Rattle.quic_machine.specs.Calls.{AreNexts, after_nexts};
ghost use Rattle.quic_machine.specs.Lacking.{NextLacks, NextsLack};
ghost use Rattle.quic_connection.specs.OnStreams.{IsCallOn};

use bytes::Bytes;
use quic_assembler::Chunk;
use quic_machine::{Answer, Call, Nexts, ReadCall};
use quic_streams_handles::{Chunks, EndStreams, RecvStream, SendStream, Streams, Told};
use quic_streams_parts::ReadError;
use quic_wire_core::{Dir, StreamId, VarInt};

/// Opens a stream.
pub(crate) fn open(streams: &mut EndStreams, is_open: bool, dir: Dir) -> Answer
    ensures { IsCallOn is_open streams.old (Call.Open dir) result streams.new }
{
    Answer::Open(Streams::new(streams, is_open).open(dir))
}

/// Accepts a stream.
pub(crate) fn accept(streams: &mut EndStreams, is_open: bool, dir: Dir) -> Answer
    ensures { IsCallOn is_open streams.old (Call.Accept dir) result streams.new }
{
    Answer::Accept(Streams::new(streams, is_open).accept(dir))
}

/// Writes bytes.
pub(crate) fn write(streams: &mut EndStreams, is_open: bool, id: StreamId, bytes: &[u8]) -> Answer
    ensures { IsCallOn is_open streams.old (Call.Write id bytes.now) result streams.new }
{
    Answer::Write(SendStream::new(id, streams, is_open).write(bytes))
}

/// Writes buffers.
pub(crate) fn write_chunks(
    streams: &mut EndStreams,
    is_open: bool,
    id: StreamId,
    chunks: &Vec<Bytes>,
) -> Answer
    ensures { IsCallOn is_open streams.old (Call.WriteChunks id chunks.now) result streams.new }
{
    Answer::WriteChunks(SendStream::new(id, streams, is_open).write_chunks(chunks.as_slice()))
}

/// Finishes a stream.
pub(crate) fn finish(streams: &mut EndStreams, is_open: bool, id: StreamId) -> Answer
    ensures { IsCallOn is_open streams.old (Call.Finish id) result streams.new }
{
    Answer::Finish(SendStream::new(id, streams, is_open).finish())
}

/// Resets a stream.
pub(crate) fn reset(streams: &mut EndStreams, is_open: bool, id: StreamId, code: VarInt) -> Answer
    ensures { IsCallOn is_open streams.old (Call.Reset id code) result streams.new }
{
    Answer::Reset(SendStream::new(id, streams, is_open).reset(code))
}

/// Sets the priority of a stream.
pub(crate) fn set_priority(
    streams: &mut EndStreams,
    is_open: bool,
    id: StreamId,
    priority: i32,
) -> Answer
    ensures { IsCallOn is_open streams.old (Call.SetPriority id priority) result streams.new }
{
    Answer::SetPriority(SendStream::new(id, streams, is_open).set_priority(priority))
}

/// Stops a stream, whether the endpoint is open or not.
pub(crate) fn stop(streams: &mut EndStreams, id: StreamId, code: VarInt) -> Answer
    ensures { IsCallOn true streams.old (Call.Stop id code) result streams.new }
{
    Answer::Stop(RecvStream::new(id, streams).stop(code))
}

/// Reads whether the peer reset a stream, whether the endpoint is open or not.
pub(crate) fn received_reset(streams: &mut EndStreams, id: StreamId) -> Answer
    ensures { IsCallOn true streams.old (Call.ReceivedReset id) result streams.new }
{
    Answer::ReceivedReset(RecvStream::new(id, streams).received_reset())
}

/// Reads a stream, whether the endpoint is open or not: each `next`, into room that is there, then
/// `finalize` or a drop.
pub(crate) fn read(
    streams: &mut EndStreams,
    read: &ReadCall,
    mut items: Vec<Result<Option<Chunk>, ReadError>>,
) -> Answer
    requires empty { items.items ≡ [] }
    requires room { length read.now.nexts.items ≤ vec_capacity items }
    ensures { IsCallOn true streams.old (Call.Read read.now) result streams.new }
{
    match RecvStream::new(read.id, streams).read(read.ordered) {
        Err(error) => Answer::Read(Err(error)),
        Ok(mut chunks) => {
            read_each(&mut chunks, &read.nexts, &mut items);
            if read.finalize {
                let _ = chunks.finalize();
            } else {
                drop(chunks);
            }
            Answer::Read(Ok(Nexts::new(items)))
        }
    }
}

/// Each `next` of a read, into room that is there.
fn read_each(
    chunks: &mut Chunks<'_>,
    nexts: &[usize],
    items: &mut Vec<Result<Option<Chunk>, ReadError>>,
)
    requires empty { items.old.items ≡ [] }
    requires room { length nexts.now ≤ vec_capacity items.old }
    ensures same_reference { chunks.new.streams.ghost_name ≡ chunks.old.streams.ghost_name }
    ensures same_stream { chunks.new.id ≡ chunks.old.id }
    ensures same_new { chunks.new.is_new ≡ chunks.old.is_new }
    ensures answers { AreNexts (told_of chunks.old.told) chunks.old.streams.now.state chunks.old.id
        nexts.now items.new.items }
    ensures lacking { NextsLack (told_of chunks.old.told) chunks.old.streams.now.state
        chunks.old.id nexts.now items.new.items }
    ensures state { chunks.new.streams.now.state
        ≡ after_nexts (told_of chunks.old.told) chunks.old.streams.now.state chunks.old.id nexts.now
        items.new.items }
    ensures pending { chunks.new.streams.now.pending ≡ chunks.old.streams.now.pending }
{
    for max_length in nexts {
        items.push_reserved(next(chunks, *max_length));
    }
}

/// The `next` of a read. FIN and a reset are answered again by each later one.
fn next(chunks: &mut Chunks<'_>, max_length: usize) -> Result<Option<Chunk>, ReadError>
    ensures same_reference { chunks.new.streams.ghost_name ≡ chunks.old.streams.ghost_name }
    ensures same_stream { chunks.new.id ≡ chunks.old.id }
    ensures same_new { chunks.new.is_new ≡ chunks.old.is_new }
    ensures answer { result ≢ Err read_errors.Memory
        → result
        ≡ next_answer (told_of chunks.old.told) chunks.old.streams.now.state chunks.old.id
        max_length }
    ensures told { told_of chunks.new.told ≡ told_by result (told_of chunks.old.told) }
    ensures state { chunks.new.streams.now.state
        ≡ after_next (told_of chunks.old.told) result chunks.old.streams.now.state chunks.old.id
        max_length }
    ensures pending { chunks.new.streams.now.pending ≡ chunks.old.streams.now.pending }
    ensures lacking { result ≡ Err read_errors.Memory
        → NextLacks (told_of chunks.old.told) chunks.old.streams.now.state chunks.old.id max_length }
{
    match told_again(&chunks.told) {
        Some(answer) => answer,
        None => chunks.next(max_length),
    }
}

/// What a read answers again, once it has answered FIN or a reset.
fn told_again(told: &Told) -> Option<Result<Option<Chunk>, ReadError>>
    ensures again { IfSome result (λ again.
        (h : Option RecvHalf) (most : ℕ) → again ≡ next_at (told_of told.now) h most) }
    ensures same { IfSome result (λ again. told_by again (told_of told.now) ≡ told_of told.now) }
    ensures left { IfSome result (λ again.
        (s : StreamsState) (id most : ℕ) → after_next (told_of told.now) again s id most ≡ s) }
    ensures no_want { IfSome result (λ again. again ≢ Err read_errors.Memory) }
    ensures bytes { IfNone result (told_of told.now ≡ told_bytes) }
{
    match told {
        Told::Bytes => None,
        Told::End => Some(Ok(None)),
        Told::Reset(code) => Some(Err(ReadError::Reset(*code))),
    }
}
