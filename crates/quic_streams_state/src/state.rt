//! All streams of one end.
ghost use Rattle.std.specs.Prelude.{◌≡◌, ◌≢◌, ◌<◌, ◌≤◌, ◌^◌, ℕ, List, Ok, Err, Some, None, true, false, length, OnOk, OnErr, IfSome, IsSomeAnd};
ghost use Rattle.std.specs.Option.{option_copied};
ghost use Rattle.quic_parameters.specs.Parameters.{AreInRange};
ghost use Rattle.quic_streams_parts.specs.Table.{at};
ghost use Rattle.quic_streams_parts.specs.SendHalf.{new_send_half, finish_of, written_to};
ghost use Rattle.quic_streams_parts.specs.Answered.{AnswersBreach, UnlessMemory, OnMemory};
ghost use Rattle.quic_streams_state.specs.State.{new_streams, after_set_params, send_streams, remote_open_streams, sending_half, is_opened, sends_on};
ghost use Rattle.quic_streams_state.specs.Opening.{opened_by, sending_refusal, open_answer, after_open, accept_answer, after_accept, max_streams_breach, after_max_streams};
ghost use Rattle.quic_streams_state.specs.Limits.{can_send_data_blocked, can_send_flow_control};
ghost use Rattle.quic_streams_state.specs.Parts.{most_streams, room};
ghost use Rattle.quic_streams_parts.specs.Dirs.{of};
ghost use Rattle.quic_streams_state.specs.SendLacking.{WriteMayLack, is_noted};
ghost use Rattle.quic_streams_state.specs.Telling.{polled};
ghost use Rattle.quic_streams_state.specs.Control.{stream_data_blocked_limit, blocked_limit};
ghost use Rattle.quic_streams_state.specs.Waiting.{can_send_stream_data};
ghost use Rattle.quic_streams_state.specs.Taking.{after_max_data, after_stop_sending, stop_at, sending_for};
ghost use Rattle.quic_wire.specs.FrameView.{stop_sending_view};
ghost use Rattle.quic_send_buffer.specs.Source.{bytes_of};
ghost use Rattle.quic_streams_state.specs.Writing.{is_newly_used_up, blocked_at, accepted_at, chunks_accepted_at, after_write, after_write_chunks, write_answer, write_chunks_answer, written_by, priority_answer, stopped_answer, finish_answer, after_finish, set_priority_answer, after_set_priority};
ghost use Rattle.quic_streams_parts.specs.declared.answers.WriteError.TheVariants as write_errors;
ghost use Rattle.quic_streams_parts.specs.declared.answers.FinishError.TheVariants as finish_errors;
ghost use Rattle.quic_streams_parts.specs.declared.answers.UpdateError.TheVariants as update_errors;

use crate::chunks::{total_len, used_up};
use crate::opening::{MAX_STREAM_COUNT, Opening};
use crate::receiving::Receiving;
use crate::sending::Sending;
use bytes::Bytes;
use quic_parameters::TransportParameters;
use quic_retransmits::Retransmits;
use quic_streams_halves::{is_own, written_to};
use quic_streams_parts::{
    Breach, ByDir, ClosedStream, Events, FinishError, ReceivedError, Send, StreamEvent,
    UpdateError, WriteError, Written,
};
use quic_wire::frame::StopSending;
use quic_wire_core::{Dir, Side, StreamId, VarInt};
use std::alloc::{AllocError, Global};
use std::slice;

/// All streams of one end (quinn-proto's `StreamsState`).
///
/// Contracts see the counts of streams, what is sent on them, what has come, and what the
/// application is told.
#[derive(Drop)]
pub struct StreamsState {
    pub(crate) side: Side,
    pub(crate) opening: Opening,
    pub(crate) sending: Sending,
    pub(crate) receiving: Receiving,
    pub(crate) events: Events,
}

// The limit that STREAM_DATA_BLOCKED of a half names.
fn blocked_limit(half: &Send) -> Option<u64>
    ensures value { result ≡ blocked_limit (Some half.now) }
    ensures small { IfSome result (λ limit. limit < 2 ^ 62) }
{
    let limit = half.max_data().into_inner();
    if half.is_ready() && half.stop_reason().is_none() && half.offset() == limit {
        Some(limit)
    } else {
        None
    }
}

// What a finish of a half is answered.
fn finish_of(half: &Send) -> Result<(), FinishError>
    ensures { result ≡ finish_of (Some half.now) }
{
    if let Some(code) = half.stop_reason() {
        return Err(FinishError::Stopped(code));
    }
    if !half.is_ready() {
        return Err(FinishError::ClosedStream);
    }
    Ok(())
}

impl StreamsState {
    /// No stream is opened, and the peer's limits aren't known: the peer may have so many streams
    /// of each kind open at once, 2^60 at most; at most `send_window` bytes are buffered; and so
    /// many bytes more than were consumed, and on each stream so many more than were read, may
    /// come.
    pub fn new(
        alloc: Global,
        side: Side,
        max_remote_uni: VarInt,
        max_remote_bi: VarInt,
        send_window: u64,
        receive_window: VarInt,
        stream_receive_window: VarInt,
    ) -> Self
        ensures { result ≡ new_streams side max_remote_uni max_remote_bi send_window receive_window stream_receive_window }
    {
        let (window, stream_window) = (
            receive_window.into_inner(),
            stream_receive_window.into_inner(),
        );
        StreamsState {
            side,
            opening: Opening::new(max_remote_bi.into_inner(), max_remote_uni.into_inner()),
            sending: Sending::new(alloc, send_window),
            receiving: Receiving::new(alloc, window, stream_window),
            events: Events::new(alloc),
        }
    }

    /// Whether the end is the client or the server.
    pub fn side(&self) -> Side
        ensures { result ≡ self.now.side }
    {
        self.side
    }

    /// The peer's first limits (RFC 9000, section 18.2), before any call but `new`.
    pub fn set_params(&mut self, params: &TransportParameters)
        requires { AreInRange params.now }
        ensures { self.new ≡ after_set_params self.old params.now }
    {
        self.opening.set_max(
            params.initial_max_streams_bidi.into_inner(),
            params.initial_max_streams_uni.into_inner(),
        );
        let own = ByDir {
            bi: params.initial_max_stream_data_bidi_remote,
            uni: params.initial_max_stream_data_uni,
        };
        let remote = params.initial_max_stream_data_bidi_local;
        self.sending
            .set_limits(params.initial_max_data, own, remote);
    }

    /// Opens the next stream of a kind, where the end is open and the peer lets it (RFC 9000,
    /// section 4.6); `None` where it may not be opened.
    pub fn open(&mut self, is_open: bool, dir: Dir) -> Option<StreamId>
        ensures answer { result ≡ open_answer is_open dir self.old }
        ensures new { self.new ≡ after_open is_open dir self.old }
    {
        if !is_open {
            return None;
        }
        self.opening.open(self.side, dir)
    }

    /// The first stream of a kind that the peer opened and that wasn't accepted; it is accepted
    /// now. `None` where all were.
    pub fn accept(&mut self, dir: Dir) -> Option<StreamId>
        ensures answer { result ≡ accept_answer dir self.old }
        ensures new { self.new ≡ after_accept dir self.old }
    {
        self.opening.accept(self.side, dir)
    }

    /// How many opened streams this end may send on, and isn't done with.
    pub fn send_streams(&self) -> u64
        ensures { result ≡ send_streams self.now }
    {
        self.opening.send_streams()
    }

    /// How many streams of a kind that the peer opened aren't done both ways.
    pub fn remote_open_streams(&self, dir: Dir) -> u64
        ensures { result ≡ remote_open_streams self.now dir }
    {
        self.opening.remote_open_streams(dir)
    }

    /// Takes MAX_DATA (RFC 9000, section 19.9), which never lowers the limit.
    pub fn received_max_data(&mut self, limit: VarInt)
        ensures { self.new ≡ after_max_data self.old limit }
    {
        self.sending.raise_max_data(limit);
    }

    /// Whether bytes or the end of a stream wait to be sent.
    pub fn can_send_stream_data(&self) -> bool
        ensures { result ≡ can_send_stream_data self.now }
    {
        self.sending.is_waiting()
    }

    /// Whether DATA_BLOCKED may be sent: all bytes that the peer lets come were accepted (RFC 9000,
    /// section 19.12).
    pub fn can_send_data_blocked(&self) -> bool
        ensures { result ≡ can_send_data_blocked self.now }
    {
        self.sending.is_used_up()
    }

    /// Whether the peer may be told how far it may come on a stream (RFC 9000, section 19.10).
    pub fn can_send_flow_control(&self, id: StreamId) -> bool
        ensures { result ≡ can_send_flow_control self.now id }
    {
        match self.receiving.get(id) {
            Some(half) => half.can_send_flow_control(),
            None => false,
        }
    }

    // A sending half that isn't in use: one on which nothing was done, unless its stream isn't
    // opened, only the peer sends on it, or it is done. Inline, so that the half is moved once
    // less.
    #[inline(always)]
    pub(crate) fn fresh_send(&self, id: StreamId) -> Option<Send>
        requires { at self.now.sending.halves.live id ≡ None }
        ensures { result ≡ sending_half self.now id }
    {
        let sends = is_own(self.side, id) || id.dir() == Dir::Bi;
        if !sends || !self.opening.is_opened(self.side, id) {
            return None;
        }
        if self.sending.was_used(self.side, id) {
            return None;
        }
        Some(self.sending.fresh(self.side, id))
    }

    /// The limit that STREAM_DATA_BLOCKED of a stream names; `None` where it may not be sent (RFC
    /// 9000, section 19.13).
    pub fn stream_data_blocked_limit(&self, id: StreamId) -> Option<u64>
        ensures value { result ≡ stream_data_blocked_limit self.now id }
        ensures small { IfSome result (λ limit. limit < 2 ^ 62) }
    {
        match self.sending.get(id) {
            Some(half) => blocked_limit(half),
            None => match self.fresh_send(id) {
                Some(half) => blocked_limit(&half),
                None => None,
            },
        }
    }

    /// The priority of a stream.
    ///
    /// # Errors
    ///
    /// - [`ClosedStream`]: there is no such stream, or its sending half is done.
    pub fn priority(&self, id: StreamId) -> Result<i32, ClosedStream>
        ensures { result ≡ priority_answer self.now id }
    {
        match self.sending.get(id) {
            Some(half) => Ok(half.priority()),
            None => match self.fresh_send(id) {
                Some(half) => Ok(half.priority()),
                None => Err(ClosedStream),
            },
        }
    }

    /// The code with which the peer stopped a stream, if it did.
    ///
    /// # Errors
    ///
    /// - [`ClosedStream`]: there is no such stream, or its sending half is done.
    pub fn stopped(&self, id: StreamId) -> Result<Option<VarInt>, ClosedStream>
        ensures { result ≡ stopped_answer self.now id }
    {
        match self.sending.get(id) {
            Some(half) => Ok(half.stop_reason()),
            None => match self.fresh_send(id) {
                Some(half) => Ok(half.stop_reason()),
                None => Err(ClosedStream),
            },
        }
    }

    /// Takes MAX_STREAMS (RFC 9000, section 19.11), which never lowers a count; the application is
    /// told of one that rose.
    ///
    /// # Errors
    ///
    /// - [`ReceivedError::Breach`] with `FrameEncoding`: the count is above 2^60. Nothing changes.
    /// - [`ReceivedError::Memory`]: an allocation fails, of room for the event of a count that
    ///   rose. Nothing changes.
    pub fn received_max_streams(&mut self, dir: Dir, count: u64) -> Result<(), ReceivedError>
        ensures answer { AnswersBreach result (max_streams_breach count) }
        ensures new { UnlessMemory result (self.new ≡ after_max_streams dir count self.old) }
        ensures memory { OnMemory result (self.new ≡ self.old) }
        ensures lacking { OnMemory result ((of dir self.old.opening.own_limit < count) × (count ≤ most_streams)) }
    {
        if count > MAX_STREAM_COUNT {
            return Err(ReceivedError::Breach(Breach::FrameEncoding));
        }
        if count <= self.opening.max_of(dir) {
            return Ok(());
        }
        if self.events.push(StreamEvent::Available { dir }).is_err() {
            return Err(ReceivedError::Memory);
        }
        self.opening.set_max_of(dir, count);
        Ok(())
    }

    /// Finishes a stream: its end has to go behind its bytes.
    ///
    /// # Errors
    ///
    /// - [`FinishError::ClosedStream`]: there is no such stream, or its sending half is done.
    ///   Nothing changes.
    /// - [`FinishError::Stopped`]: the peer sent STOP_SENDING for the stream. Nothing changes.
    /// - [`FinishError::ClosedStream`]: the stream was finished or reset. Nothing changes.
    /// - [`FinishError::Memory`]: an allocation fails, where the stream isn't queued yet. Nothing
    ///   changes.
    pub fn finish(&mut self, id: StreamId) -> Result<(), FinishError>
        ensures answer { result ≢ Err finish_errors.Memory → result ≡ finish_answer self.old id }
        ensures new { result ≢ Err finish_errors.Memory → self.new ≡ after_finish self.old id }
        ensures memory { result ≡ Err finish_errors.Memory → self.new ≡ self.old }
        ensures lacking { result ≡ Err finish_errors.Memory → finish_answer self.old id ≡ Ok tt }
        ensures unqueued { result ≡ Err finish_errors.Memory → IfSome (sending_half self.old id) (λ h. h.place ≡ None) }
    {
        if let Some(half) = self.sending.get(id) {
            match finish_of(half) {
                Ok(()) => {}
                Err(error) => return Err(error),
            }
            return match self.sending.finish(id) {
                Ok(()) => Ok(()),
                Err(_) => Err(FinishError::Memory),
            };
        }
        let Some(half) = self.fresh_send(id) else {
            return Err(FinishError::ClosedStream);
        };
        match self.sending.finish_fresh(self.side, id, half) {
            Ok(()) => Ok(()),
            Err(_) => Err(FinishError::Memory),
        }
    }

    /// Sets the priority of a stream, which counts when it is queued next. A stream of a greater
    /// priority goes first. The default is 0.
    ///
    /// # Errors
    ///
    /// - [`UpdateError::ClosedStream`]: there is no such stream, or its sending half is done.
    ///   Nothing changes.
    /// - [`UpdateError::Memory`]: an allocation fails, of room to bring its sending half into use.
    ///   Nothing changes.
    pub fn set_priority(&mut self, id: StreamId, priority: i32) -> Result<(), UpdateError>
        ensures answer { result ≢ Err update_errors.Memory → result ≡ set_priority_answer self.old id }
        ensures new { result ≢ Err update_errors.Memory → self.new ≡ after_set_priority self.old id priority }
        ensures memory { result ≡ Err update_errors.Memory → self.new ≡ self.old }
        ensures lacking { result ≡ Err update_errors.Memory → set_priority_answer self.old id ≡ Ok tt }
        ensures idle { result ≡ Err update_errors.Memory → at self.old.sending.halves.live id ≡ None }
    {
        if self.sending.get(id).is_some() {
            self.sending.set_priority(id, priority);
            return Ok(());
        }
        let Some(mut half) = self.fresh_send(id) else {
            return Err(UpdateError::ClosedStream);
        };
        half.set_priority(priority);
        match self.sending.add(self.side, id, half) {
            Ok(()) => Ok(()),
            Err(_) => Err(UpdateError::Memory),
        }
    }

    // What a write of so many bytes is answered on an open end.
    fn written(&self, id: StreamId, len: usize) -> Result<usize, WriteError>
        ensures answer { result ≡ write_answer true self.now id len }
        ensures memory { result ≢ Err write_errors.Memory }
    {
        let room = self.sending.room();
        match self.sending.get(id) {
            Some(half) => written_to(half, room, len),
            None => match self.fresh_send(id) {
                Some(half) => written_to(&half, room, len),
                None => Err(WriteError::ClosedStream),
            },
        }
    }

    // The same on the half of the stream, which isn't in use.
    fn written_first(&self, id: StreamId, half: &Send, len: usize) -> Result<usize, WriteError>
        requires { sending_half self.now id ≡ Some half.now }
        ensures answer { result ≡ write_answer true self.now id len }
        ensures memory { result ≢ Err write_errors.Memory }
    {
        written_to(half, self.sending.room(), len)
    }

    // Whether the peer's limit on all streams is used up, and isn't the one that DATA_BLOCKED said
    // last.
    fn is_newly_used_up(&self) -> bool
        ensures { result ≡ is_newly_used_up self.now }
    {
        self.sending.is_used_up() && !self.sending.was_limit_said()
    }

    // A stream whose write is blocked by what all streams may send: the application is told once it
    // takes bytes again, and DATA_BLOCKED waits where the peer's limit is newly used up.
    fn block_by_all(&mut self, id: StreamId, pending: &mut Retransmits) -> Result<(), AllocError>
        requires { room self.old.sending ≡ 0 }
        ensures ok { OnOk result (self.new ≡ (blocked_at (sending_half self.old id) self.old pending.old id).state) }
        ensures pending { OnOk result (pending.new ≡ (blocked_at (sending_half self.old id) self.old pending.old id).pending) }
        ensures err { OnErr result (self.new ≡ self.old) }
        ensures kept { OnErr result (pending.new ≡ pending.old) }
        ensures lacking { OnErr result (IsSomeAnd (sending_half self.old id) (λ h. is_noted (room self.old.sending) h ≡ false)) }
    {
        let used_up = self.is_newly_used_up();
        if self.sending.get(id).is_some() {
            self.sending.block(id)?;
        } else {
            let Some(half) = self.fresh_send(id) else {
                return Ok(());
            };
            self.sending.block_fresh(self.side, id, half)?;
        }
        pending.set_data_blocked(pending.data_blocked() || used_up);
        Ok(())
    }

    // A stream whose write is blocked by its own limit: STREAM_DATA_BLOCKED waits unless it said
    // that limit last. A half that isn't in use comes into use, to keep which limit that is.
    fn block_by_own(&mut self, id: StreamId, pending: &mut Retransmits) -> Result<(), AllocError>
        requires { room self.old.sending ≢ 0 }
        ensures ok { OnOk result (self.new ≡ (blocked_at (sending_half self.old id) self.old pending.old id).state) }
        ensures pending { OnOk result (pending.new ≡ (blocked_at (sending_half self.old id) self.old pending.old id).pending) }
        ensures err { OnErr result (self.new ≡ self.old) }
        ensures kept { OnErr result (pending.new ≡ pending.old) }
        ensures lacking { OnErr result (IsSomeAnd (sending_half self.old id) (λ h. is_noted (room self.old.sending) h ≡ false)) }
    {
        if let Some(half) = self.sending.get(id) {
            if half.was_limit_said() {
                return Ok(());
            }
            pending.insert_stream_data_blocked(id)?;
            return Ok(());
        }
        let Some(half) = self.fresh_send(id) else {
            return Ok(());
        };
        let is_new = pending.insert_stream_data_blocked(id)?;
        if self.sending.add(self.side, id, half).is_err() {
            pending.take_back_stream_data_blocked(id, is_new);
            return Err(AllocError);
        }
        Ok(())
    }

    // A stream whose write is blocked by what all streams may send, or by its own limit: what the
    // peer is told of that waits, and the application is told once it takes bytes again.
    fn block(&mut self, id: StreamId, pending: &mut Retransmits) -> Result<(), AllocError>
        ensures ok { OnOk result (self.new ≡ (blocked_at (sending_half self.old id) self.old pending.old id).state) }
        ensures pending { OnOk result (pending.new ≡ (blocked_at (sending_half self.old id) self.old pending.old id).pending) }
        ensures err { OnErr result (self.new ≡ self.old) }
        ensures kept { OnErr result (pending.new ≡ pending.old) }
        ensures lacking { OnErr result (IsSomeAnd (sending_half self.old id) (λ h. is_noted (room self.old.sending) h ≡ false)) }
    {
        if self.sending.room() == 0 {
            self.block_by_all(id, pending)
        } else {
            self.block_by_own(id, pending)
        }
    }

    // Nothing is written, for this reason: where a limit blocks the write, that is noted. Says why,
    // which want of memory may be instead, and nothing changes then.
    fn refuse(&mut self, id: StreamId, error: WriteError, pending: &mut Retransmits) -> WriteError
        requires { error ≢ write_errors.Memory }
        ensures answer { result ≢ write_errors.Memory → result ≡ error }
        ensures new { (bytes : List ℕ) → self.new ≡ (written_by (Err result) self.old pending.old id bytes).state }
        ensures pending { (bytes : List ℕ) → pending.new ≡ (written_by (Err result) self.old pending.old id bytes).pending }
        ensures lacking { result ≡ write_errors.Memory → WriteMayLack (Err error) (sending_half self.old id) (room self.old.sending) }
    {
        match error {
            WriteError::Blocked => match self.block(id, pending) {
                Ok(()) => WriteError::Blocked,
                Err(_) => WriteError::Memory,
            },
            _ => error,
        }
    }

    // The first `len` bytes of chunks, which may be written on a stream, go behind those before
    // them. An `Err` (want of memory) changes nothing.
    fn take_all(
        &mut self,
        id: StreamId,
        chunks: &[Bytes],
        len: usize,
        asked: usize,
    ) -> Result<(), AllocError>
        requires accepted { write_answer true self.old id asked ≡ Ok len }
        requires whole { len ≤ bytes_of chunks.now }
        ensures ok { OnOk result (self.new ≡ chunks_accepted_at (sending_half self.old id) self.old id len chunks.now) }
        ensures err { OnErr result (self.new ≡ self.old) }
        ensures lacking { OnErr result (0 < len) }
    {
        // The proof reads how many bytes these are at most.
        let _asked = asked;
        if len == 0 {
            return Ok(());
        }
        if self.sending.get(id).is_some() {
            return self.sending.write_all(id, chunks, len);
        }
        let Some(half) = self.fresh_send(id) else {
            return Ok(());
        };
        self.sending.write_fresh(self.side, id, half, chunks, len)
    }

    // Bytes that may be written on a half that isn't in use come first on it. An `Err` (want of
    // memory) changes nothing.
    fn take_first(
        &mut self,
        id: StreamId,
        half: Send,
        bytes: &[u8],
        asked: usize,
    ) -> Result<(), AllocError>
        requires none { at self.old.sending.halves.live id ≡ None }
        requires half { sending_half self.old id ≡ Some half }
        requires accepted { write_answer true self.old id asked ≡ Ok (length bytes.now) }
        ensures ok { OnOk result (self.new ≡ accepted_at (sending_half self.old id) self.old id bytes.now) }
        ensures err { OnErr result (self.new ≡ self.old) }
        ensures lacking { OnErr result (0 < length bytes.now) }
    {
        // The proof reads how many bytes these are at most.
        let _asked = asked;
        if bytes.is_empty() {
            return Ok(());
        }
        let piece = self.sending.piece(bytes)?;
        self.sending
            .write_fresh(self.side, id, half, slice::from_ref(&piece), bytes.len())
    }

    // What a write leaves and answers on an open end, where the half of the stream isn't in use.
    fn write_first(
        &mut self,
        id: StreamId,
        bytes: &[u8],
        pending: &mut Retransmits,
    ) -> Result<usize, WriteError>
        requires { at self.old.sending.halves.live id ≡ None }
        ensures answer { result ≢ Err write_errors.Memory → result ≡ write_answer true self.old id (length bytes.now) }
        ensures new { self.new ≡ (written_by result self.old pending.old id bytes.now).state }
        ensures pending { pending.new ≡ (written_by result self.old pending.old id bytes.now).pending }
        ensures lacking { result ≡ Err write_errors.Memory → WriteMayLack (write_answer true self.old id (length bytes.now)) (sending_half self.old id) (room self.old.sending) }
    {
        let Some(half) = self.fresh_send(id) else {
            return Err(WriteError::ClosedStream);
        };
        let taken = match self.written_first(id, &half, bytes.len()) {
            Ok(taken) => taken,
            Err(error) => return Err(self.refuse(id, error, pending)),
        };
        match self.take_first(id, half, &bytes[..taken], bytes.len()) {
            Ok(()) => Ok(taken),
            Err(_) => Err(WriteError::Memory),
        }
    }

    // The same, where no half in use took it: there is none, or it was finished or reset.
    fn write_closed(
        &mut self,
        id: StreamId,
        bytes: &[u8],
        pending: &mut Retransmits,
    ) -> Result<usize, WriteError>
        requires { written_to (at self.old.sending.halves.live id) (room self.old.sending) (length bytes.now) ≡ Err write_errors.ClosedStream }
        ensures answer { result ≢ Err write_errors.Memory → result ≡ write_answer true self.old id (length bytes.now) }
        ensures new { self.new ≡ (written_by result self.old pending.old id bytes.now).state }
        ensures pending { pending.new ≡ (written_by result self.old pending.old id bytes.now).pending }
        ensures lacking { result ≡ Err write_errors.Memory → WriteMayLack (write_answer true self.old id (length bytes.now)) (sending_half self.old id) (room self.old.sending) }
    {
        if self.sending.get(id).is_some() {
            return Err(WriteError::ClosedStream);
        }
        self.write_first(id, bytes, pending)
    }

    /// Writes as many of the bytes as fit, and says how many (RFC 9000, sections 2.2 and 4.1).
    ///
    /// # Errors
    ///
    /// - [`WriteError::Blocked`]: the endpoint isn't open. Nothing changes.
    /// - [`WriteError::ClosedStream`]: there is no such stream, or its sending half is done.
    ///   Nothing changes.
    /// - [`WriteError::Blocked`]: the connection's limit or the send window leaves no room. The
    ///   stream is noted as blocked, DATA_BLOCKED is queued where that limit is used up and isn't
    ///   the one that such a frame said last, and no byte is taken.
    /// - [`WriteError::ClosedStream`]: the stream was finished or reset. Nothing changes.
    /// - [`WriteError::Stopped`]: the peer sent STOP_SENDING for the stream. Nothing changes.
    /// - [`WriteError::Blocked`]: the stream's own limit leaves no room. STREAM_DATA_BLOCKED is
    ///   queued unless such a frame of the stream said that limit last, and no byte is taken.
    /// - [`WriteError::Memory`]: an allocation fails, of room to take some bytes, or to note that
    ///   the stream is blocked. Nothing changes.
    pub fn write(
        &mut self,
        is_open: bool,
        id: StreamId,
        bytes: &[u8],
        pending: &mut Retransmits,
    ) -> Result<usize, WriteError>
        ensures answer { result ≢ Err write_errors.Memory → result ≡ write_answer is_open self.old id (length bytes.now) }
        ensures new { self.new ≡ (after_write is_open result self.old pending.old id bytes.now).state }
        ensures pending { pending.new ≡ (after_write is_open result self.old pending.old id bytes.now).pending }
        ensures open { result ≡ Err write_errors.Memory → is_open ≡ true }
        ensures lacking { result ≡ Err write_errors.Memory → WriteMayLack (write_answer true self.old id (length bytes.now)) (sending_half self.old id) (room self.old.sending) }
    {
        if !is_open {
            return Err(WriteError::Blocked);
        }
        match self.sending.write(id, bytes) {
            Ok(taken) => Ok(taken),
            Err(WriteError::Memory) => Err(WriteError::Memory),
            Err(WriteError::ClosedStream) => self.write_closed(id, bytes, pending),
            Err(error) => Err(self.refuse(id, error, pending)),
        }
    }

    /// Writes as many bytes of several buffers as fit, as one write of all their bytes, each buffer
    /// as a piece that shares its bytes (RFC 9000, sections 2.2 and 4.1; quinn-proto's
    /// `SendStream::write_chunks`). Says how many bytes, and how many of the buffers they use up,
    /// those without a byte too: the caller goes on behind these.
    ///
    /// # Errors
    ///
    /// - [`WriteError::Blocked`]: the endpoint isn't open. Nothing changes.
    /// - [`WriteError::ClosedStream`]: there is no such stream, or its sending half is done.
    ///   Nothing changes.
    /// - [`WriteError::Blocked`]: the connection's limit or the send window leaves no room. The
    ///   stream is noted as blocked, DATA_BLOCKED is queued where that limit is used up and isn't
    ///   the one that such a frame said last, and no byte is taken.
    /// - [`WriteError::ClosedStream`]: the stream was finished or reset. Nothing changes.
    /// - [`WriteError::Stopped`]: the peer sent STOP_SENDING for the stream. Nothing changes.
    /// - [`WriteError::Blocked`]: the stream's own limit leaves no room. STREAM_DATA_BLOCKED is
    ///   queued unless such a frame of the stream said that limit last, and no byte is taken.
    /// - [`WriteError::Memory`]: an allocation fails, of room to take some bytes, or to note that
    ///   the stream is blocked. Nothing changes.
    pub fn write_chunks(
        &mut self,
        is_open: bool,
        id: StreamId,
        chunks: &[Bytes],
        pending: &mut Retransmits,
    ) -> Result<Written, WriteError>
        ensures answer { result ≢ Err write_errors.Memory → result ≡ write_chunks_answer is_open self.old id chunks.now }
        ensures new { self.new ≡ (after_write_chunks is_open result self.old pending.old id chunks.now).state }
        ensures pending { pending.new ≡ (after_write_chunks is_open result self.old pending.old id chunks.now).pending }
        ensures open { result ≡ Err write_errors.Memory → is_open ≡ true }
        ensures lacking { result ≡ Err write_errors.Memory → WriteMayLack (write_answer true self.old id (bytes_of chunks.now)) (sending_half self.old id) (room self.old.sending) }
    {
        if !is_open {
            return Err(WriteError::Blocked);
        }
        // The proof reads that it is below 2^64: so more bytes than can be counted are as many as
        // that.
        let _room = self.sending.room();
        let len = total_len(chunks);
        let taken = match self.written(id, len) {
            Ok(taken) => taken,
            Err(error) => return Err(self.refuse(id, error, pending)),
        };
        match self.take_all(id, chunks, taken, len) {
            Ok(()) => Ok(Written {
                bytes: taken,
                chunks: used_up(chunks, taken),
            }),
            Err(_) => Err(WriteError::Memory),
        }
    }

    // A frame opens its stream and those of its kind below it, where the peer opens it and it isn't
    // open.
    pub(crate) fn open_by(&mut self, id: StreamId)
        ensures { self.new ≡ opened_by self.old id }
    {
        if is_own(self.side, id) || self.opening.is_opened(self.side, id) {
            return;
        }
        self.opening.open_remote(id);
        self.events.set_opened(id.dir());
    }

    // The rule that a frame for the sending half of a stream breaks by its id.
    pub(crate) fn sending_refusal(&self, id: StreamId) -> Option<Breach>
        ensures { result ≡ sending_refusal self.now id }
    {
        if !is_own(self.side, id) && id.dir() == Dir::Uni {
            return Some(Breach::StreamState);
        }
        self.opening.beyond(self.side, id)
    }

    /// Takes STOP_SENDING (RFC 9000, section 19.5): the first for a sending half that isn't done
    /// counts, and the application is told.
    ///
    /// # Errors
    ///
    /// - [`ReceivedError::Breach`] with `StreamState`: only the peer sends on the stream, or it is
    ///   one of this endpoint that isn't opened. Nothing changes.
    /// - [`ReceivedError::Breach`] with `StreamLimit`: the stream lies beyond the count that the
    ///   peer may open. Nothing changes.
    /// - [`ReceivedError::Memory`]: an allocation fails, where the frame counts. The stream is open
    ///   by then, and nothing else changed.
    pub fn received_stop_sending(&mut self, frame: StopSending) -> Result<(), ReceivedError>
        ensures answer { AnswersBreach result (sending_refusal self.old frame.id) }
        ensures new { UnlessMemory result (self.new ≡ after_stop_sending self.old (stop_sending_view frame)) }
        ensures memory { OnMemory result (self.new ≡ opened_by self.old frame.id) }
        ensures lacking { OnMemory result (IsSomeAnd (sending_for self.old frame.id) (λ h. h.stopped ≡ None)) }
    {
        if let Some(breach) = self.sending_refusal(frame.id) {
            return Err(ReceivedError::Breach(breach));
        }
        self.open_by(frame.id);
        match self.stop_send(frame.id, frame.error_code) {
            Ok(()) => Ok(()),
            Err(_) => Err(ReceivedError::Memory),
        }
    }

    // The peer stopped the sending half of a stream, unless it is done or was stopped before.
    fn stop_send(&mut self, id: StreamId, error_code: VarInt) -> Result<(), AllocError>
        ensures ok { OnOk result (self.new ≡ stop_at (sending_half self.old id) self.old id error_code) }
        ensures err { OnErr result (self.new ≡ self.old) }
        ensures lacking { OnErr result (IsSomeAnd (sending_half self.old id) (λ h. h.stopped ≡ None)) }
    {
        if let Some(half) = self.sending.get(id) {
            if half.stop_reason().is_some() {
                return Ok(());
            }
            self.events.push(StreamEvent::Stopped { id, error_code })?;
            self.sending.set_stop_reason(id, error_code);
            return Ok(());
        }
        let Some(mut half) = self.fresh_send(id) else {
            return Ok(());
        };
        half.set_stop_reason(error_code);
        self.events.push(StreamEvent::Stopped { id, error_code })?;
        if self.sending.add(self.side, id, half).is_err() {
            self.events.take_back();
            return Err(AllocError);
        }
        Ok(())
    }

    /// What the application is told next of streams, if anything: that the peer opened some,
    /// two-way ones first; that one takes bytes again whose write the connection blocked, the
    /// latest first, while the connection has room; and the rest as it came.
    pub fn poll(&mut self) -> Option<StreamEvent>
        ensures answer { result ≡ (polled self.old).answer }
        ensures new { self.new ≡ (polled self.old).state }
    {
        if let Some(dir) = self.events.take_opened() {
            return Some(StreamEvent::Opened { dir });
        }
        if self.sending.room() == 0 {
            return self.events.pop();
        }
        if let Some(id) = self.sending.pop_writable() {
            return Some(StreamEvent::Writable { id });
        }
        self.events.pop()
    }
}
