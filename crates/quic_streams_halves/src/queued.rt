//! A sending part changes, and the queue of those with something to send follows it.
ghost use Rattle.std.specs.Prelude.{◌≡◌, ◌≢◌, ◌⊎◌, ◌<◌, ◌≤◌, ◌+◌, ◌++◌, ℕ, true, false, if◌then◌else◌, length, take, IfOk, IsOkAnd, OnOk, OnErr, Some, None, Err, vec_len, vec_capacity};
ghost use Rattle.std.specs.Option.{option_map};
ghost use Rattle.quic_wire.specs.Writing.{stream_spelling, width_of};
ghost use Rattle.quic_send_buffer.specs.Buffered.{writes_length};
ghost use Rattle.quic_send_buffer.specs.Source.{bytes_of};
ghost use Rattle.quic_streams_parts.specs.Queue.{IsLast, taken_back};
ghost use Rattle.quic_streams_parts.specs.declared.answers.WriteError.TheVariants as write_errors;
ghost use Rattle.quic_streams_parts.specs.SendHalf.{written_to, grown, requeued_at, room_on, has_pending, half_after, frame_counts, frame_of, meta_of, requeued, turned, HasSent};
ghost use Rattle.quic_streams_halves.specs.Queued.{acked_with, acked_if_ready, is_ended, lost_with, counting_at, sent_if_counts, chunks_grown_with, accepted_with, finished_with, reset_with};

use crate::pending_streams::PendingStreams;
use bytes::Bytes;
use quic_copies::Copies;
use quic_send_buffer::StreamMeta;
use quic_streams_parts::{Place, Send, WriteError, rank_of};
use quic_wire_core::StreamId;
use std::alloc::AllocError;
use std::slice;

// A part that stands in the queue, or has nothing to send, is in the queue while it has something
// to send.
fn leave(half: &mut Send, queue: &mut PendingStreams)
    requires { half.old.place ≡ None → has_pending half.old ≡ false }
    ensures half { (id : ℕ) → half.new ≡ (requeued queue.old id half.old).half }
    ensures queue { (id : ℕ) → queue.new ≡ (requeued queue.old id half.old).queue }
{
    if half.has_pending() {
        return;
    }
    if let Some(place) = half.place() {
        queue.remove(place);
        half.set_place(None);
    }
}

// The last place of the queue is that of a part that isn't in it, if it has something to send, and
// else is taken back.
fn enter(half: &mut Send, queue: &mut PendingStreams, place: Place)
    requires { IsLast queue.old place }
    ensures half { half.new ≡ (if has_pending half.old then record half.old { place = Some place } else half.old) }
    ensures queue { queue.new ≡ (if has_pending half.old then queue.old else taken_back queue.old place) }
{
    if half.has_pending() {
        half.set_place(Some(place));
    } else {
        queue.take_back(place);
    }
}

// A frame was acknowledged of a part that may have to come into the queue.
fn ack_entering(
    half: &mut Send,
    frame: &StreamMeta,
    queue: &mut PendingStreams,
) -> Result<(), AllocError>
    requires { half.old.place ≡ None }
    ensures half { OnOk result (half.new ≡ (acked_with frame.now queue.old half.old).half) }
    ensures queue { OnOk result (queue.new ≡ (acked_with frame.now queue.old half.old).queue) }
    ensures err { OnErr result (half.new ≡ half.old) }
    ensures same { OnErr result (queue.new ≡ queue.old) }
{
    let place = queue.push(rank_of(half.priority()), frame.id)?;
    if half.ack(frame).is_err() {
        queue.take_back(place);
        return Err(AllocError);
    }
    enter(half, queue, place);
    Ok(())
}

/// A frame of a part was acknowledged. An `Err` (want of memory) changes nothing.
pub(crate) fn ack(
    half: &mut Send,
    frame: &StreamMeta,
    queue: &mut PendingStreams,
) -> Result<(), AllocError>
    ensures half { OnOk result (half.new ≡ (acked_with frame.now queue.old half.old).half) }
    ensures queue { OnOk result (queue.new ≡ (acked_with frame.now queue.old half.old).queue) }
    ensures err { OnErr result (half.new ≡ half.old) }
    ensures same { OnErr result (queue.new ≡ queue.old) }
    ensures lacking { OnErr result (HasSent half.old frame.now ⊎ (half.old.place ≡ None)) }
{
    if half.place().is_none() && half.has_pending() {
        return ack_entering(half, frame, queue);
    }
    half.ack(frame)?;
    leave(half, queue);
    Ok(())
}

/// Like `ack`, but does nothing if the half was finished or reset. Returns whether it is finished
/// and not reset. An `Err` (out of memory) changes nothing.
pub(crate) fn ack_if_ready(
    half: &mut Send,
    frame: &StreamMeta,
    queue: &mut PendingStreams,
) -> Result<bool, AllocError>
    ensures answer { IfOk result (λ ended. ended ≡ is_ended half.old) }
    ensures half { OnOk result (half.new ≡ (acked_if_ready frame.now queue.old half.old).half) }
    ensures queue { OnOk result (queue.new ≡ (acked_if_ready frame.now queue.old half.old).queue) }
    ensures err { OnErr result (half.new ≡ half.old) }
    ensures same { OnErr result (queue.new ≡ queue.old) }
    ensures lacking { OnErr result ((half.old.reset ≡ None) × (HasSent half.old frame.now ⊎ (half.old.place ≡ None))) }
{
    if half.reset_size().is_some() {
        return Ok(false);
    }
    if !half.is_ready() {
        return Ok(true);
    }
    ack(half, frame, queue)?;
    Ok(false)
}

// A frame was lost of a part that isn't in the queue.
fn retransmit_entering(
    half: &mut Send,
    frame: &StreamMeta,
    queue: &mut PendingStreams,
) -> Result<(), AllocError>
    requires { half.old.place ≡ None }
    ensures half { OnOk result (half.new ≡ (lost_with frame.now queue.old half.old).half) }
    ensures queue { OnOk result (queue.new ≡ (lost_with frame.now queue.old half.old).queue) }
    ensures err { OnErr result (half.new ≡ half.old) }
    ensures same { OnErr result (queue.new ≡ queue.old) }
{
    let place = queue.push(rank_of(half.priority()), frame.id)?;
    if half.retransmit(frame).is_err() {
        queue.take_back(place);
        return Err(AllocError);
    }
    enter(half, queue, place);
    Ok(())
}

/// A frame of a part was lost. An `Err` (want of memory) changes nothing.
pub(crate) fn retransmit(
    half: &mut Send,
    frame: &StreamMeta,
    queue: &mut PendingStreams,
) -> Result<(), AllocError>
    ensures half { OnOk result (half.new ≡ (lost_with frame.now queue.old half.old).half) }
    ensures queue { OnOk result (queue.new ≡ (lost_with frame.now queue.old half.old).queue) }
    ensures err { OnErr result (half.new ≡ half.old) }
    ensures same { OnErr result (queue.new ≡ queue.old) }
    ensures lacking { OnErr result (HasSent half.old frame.now ⊎ (half.old.place ≡ None)) }
{
    if half.place().is_none() {
        return retransmit_entering(half, frame, queue);
    }
    half.retransmit(frame)?;
    leave(half, queue);
    Ok(())
}

// A part of which a frame went gives up its place in the queue, unless it has something to send and
// streams take no turns, and goes behind its equals if it has something to send. After an `Err`
// (want of memory) the part is as it was, and may stand nowhere.
fn turn(
    half: &mut Send,
    id: StreamId,
    fair: bool,
    queue: &mut PendingStreams,
) -> Result<(), AllocError>
    ensures half { OnOk result (half.new ≡ (turned fair queue.old id half.old).half) }
    ensures queue { OnOk result (queue.new ≡ (turned fair queue.old id half.old).queue) }
    ensures err { OnErr result (half.new ≡ half.old) }
{
    let pending = half.has_pending();
    if let Some(place) = half.place() {
        if pending && !fair {
            return Ok(());
        }
        queue.remove(place);
    }
    if !pending {
        half.set_place(None);
        return Ok(());
    }
    let place = queue.push(rank_of(half.priority()), id)?;
    half.set_place(Some(place));
    Ok(())
}

/// Appends the next frame of a part, if it brings a byte or the end, with `max_len` bytes of room,
/// 16 at least, behind its type and id, and takes it: what it carries. Where streams take turns
/// (`fair`) the part goes behind its equals. After an `Err` (want of memory) the frame is taken,
/// and its part may stand nowhere in the queue.
pub(crate) fn put_frame(
    half: &mut Send,
    id: StreamId,
    fair: bool,
    max_len: usize,
    out: &mut Vec<u8>,
    queue: &mut PendingStreams,
) -> Result<Option<StreamMeta>, AllocError>
    requires some { 16 ≤ max_len }
    requires room { vec_len out.old + (1 + width_of id) + max_len ≤ vec_capacity out.old }
    ensures items { frame_counts half.old max_len ≡ true → out.new.items ≡ out.old.items ++ stream_spelling (writes_length half.old.buffer max_len) (frame_of id half.old max_len) }
    ensures nothing { frame_counts half.old max_len ≡ false → out.new.items ≡ out.old.items }
    ensures len { vec_len out.new ≤ vec_len out.old + (1 + width_of id) + max_len }
    ensures capacity { vec_capacity out.old ≤ vec_capacity out.new }
    ensures half { OnOk result (half.new ≡ (sent_if_counts fair id max_len queue.old half.old).half) }
    ensures queue { OnOk result (queue.new ≡ (sent_if_counts fair id max_len queue.old half.old).queue) }
    ensures err { OnErr result (half.new ≡ half_after half.old max_len) }
    ensures lacking { OnErr result (frame_counts half.old max_len ≡ true) }
    ensures meta { IfOk result (λ meta. meta ≡ option_map (λ h. meta_of (frame_of id h max_len)) (counting_at (Some half.old) max_len)) }
{
    if !half.frame_counts(max_len) {
        return Ok(None);
    }
    let frame = half.put_frame(id, max_len, out);
    turn(half, id, fair, queue)?;
    Ok(Some(frame))
}

/// The first `len` bytes of chunks go behind those that were written on a part, and wait to go. An
/// `Err` (want of memory) changes nothing.
pub(crate) fn write_all(
    half: &mut Send,
    id: StreamId,
    chunks: &[Bytes],
    len: usize,
    queue: &mut PendingStreams,
) -> Result<(), AllocError>
    requires reset { half.old.reset ≡ None }
    requires room { len ≤ room_on half.old }
    requires whole { len ≤ bytes_of chunks.now }
    ensures half { OnOk result (half.new ≡ (chunks_grown_with id len chunks.now queue.old half.old).half) }
    ensures queue { OnOk result (queue.new ≡ (chunks_grown_with id len chunks.now queue.old half.old).queue) }
    ensures err { OnErr result (half.new ≡ half.old) }
    ensures same { OnErr result (queue.new ≡ queue.old) }
{
    if half.place().is_some() {
        return half.write_all(chunks, len);
    }
    let place = queue.push(rank_of(half.priority()), id)?;
    if half.write_all(chunks, len).is_err() {
        queue.take_back(place);
        return Err(AllocError);
    }
    half.set_place(Some(place));
    Ok(())
}

/// What a write of so many bytes to a part is answered on an open end, where all streams together
/// have so much room.
///
/// # Errors
///
/// - [`WriteError::Blocked`]: all streams together have no room. Nothing changes.
/// - [`WriteError::ClosedStream`]: the part was finished or reset. Nothing changes.
/// - [`WriteError::Stopped`]: the peer sent STOP_SENDING for the stream. Nothing changes.
/// - [`WriteError::Blocked`]: the part's own limit leaves no room. Nothing changes.
pub fn written_to(half: &Send, room: u64, len: usize) -> Result<usize, WriteError>
    ensures answer { result ≡ written_to (Some half.now) room len }
    ensures memory { result ≢ Err write_errors.Memory }
{
    if room == 0 {
        return Err(WriteError::Blocked);
    }
    if !half.is_ready() {
        return Err(WriteError::ClosedStream);
    }
    if let Some(code) = half.stop_reason() {
        return Err(WriteError::Stopped(code));
    }
    let free = half.room();
    if free == 0 {
        return Err(WriteError::Blocked);
    }
    Ok((len as u64).min(room.min(free)) as usize)
}

// Bytes go behind those that were written on a part, and wait to go. An `Err` (want of memory)
// changes nothing.
fn grow(
    half: &mut Send,
    id: StreamId,
    bytes: &[u8],
    copies: &mut Copies,
    queue: &mut PendingStreams,
) -> Result<(), AllocError>
    requires reset { half.old.reset ≡ None }
    requires room { length bytes.now ≤ room_on half.old }
    ensures half { OnOk result (half.new ≡ (requeued_at half.old.place true queue.old id (grown half.old bytes.now)).half) }
    ensures queue { OnOk result (queue.new ≡ (requeued_at half.old.place true queue.old id (grown half.old bytes.now)).queue) }
    ensures err { OnErr result (half.new ≡ half.old) }
    ensures same { OnErr result (queue.new ≡ queue.old) }
{
    let piece = copies.copy(bytes)?;
    write_all(half, id, slice::from_ref(&piece), bytes.len(), queue)
}

/// Writes as many of the bytes to a part as fit, where all streams together have so much room: how
/// many. Any error, as [`written_to`] says, or want of memory, changes nothing.
pub(crate) fn write(
    half: &mut Send,
    id: StreamId,
    bytes: &[u8],
    room: u64,
    copies: &mut Copies,
    queue: &mut PendingStreams,
) -> Result<usize, WriteError>
    ensures answer { result ≢ Err write_errors.Memory → result ≡ written_to (Some half.old) room (length bytes.now) }
    ensures half { IfOk result (λ n. half.new ≡ (accepted_with id (take n bytes.now) queue.old half.old).half) }
    ensures queue { IfOk result (λ n. queue.new ≡ (accepted_with id (take n bytes.now) queue.old half.old).queue) }
    ensures within { IfOk result (λ n. (n ≤ length bytes.now) × (n ≤ room)) }
    ensures err { OnErr result (half.new ≡ half.old) }
    ensures same { OnErr result (queue.new ≡ queue.old) }
    ensures lacking { result ≡ Err write_errors.Memory → IsOkAnd (written_to (Some half.old) room (length bytes.now)) (λ n. 0 < n) }
{
    let taken = written_to(half, room, bytes.len())?;
    if taken == 0 {
        return Ok(0);
    }
    match grow(half, id, &bytes[..taken], copies, queue) {
        Ok(()) => Ok(taken),
        Err(_) => Err(WriteError::Memory),
    }
}

/// The end of a part has to go, and it stands in the queue. An `Err` (want of memory) changes
/// nothing.
pub(crate) fn finish(
    half: &mut Send,
    id: StreamId,
    queue: &mut PendingStreams,
) -> Result<(), AllocError>
    ensures half { OnOk result (half.new ≡ (finished_with id queue.old half.old).half) }
    ensures queue { OnOk result (queue.new ≡ (finished_with id queue.old half.old).queue) }
    ensures err { OnErr result (half.new ≡ half.old) }
    ensures same { OnErr result (queue.new ≡ queue.old) }
    ensures lacking { OnErr result (half.old.place ≡ None) }
{
    if half.place().is_none() {
        let place = queue.push(rank_of(half.priority()), id)?;
        half.set_place(Some(place));
    }
    half.finish();
    Ok(())
}

/// Nothing more of a part goes, and it stands no more in the queue.
pub(crate) fn reset(half: &mut Send, queue: &mut PendingStreams)
    ensures half { (id : ℕ) → half.new ≡ (reset_with id queue.old half.old).half }
    ensures queue { (id : ℕ) → queue.new ≡ (reset_with id queue.old half.old).queue }
{
    if let Some(place) = half.place() {
        queue.remove(place);
    }
    half.reset();
    half.set_place(None);
}
