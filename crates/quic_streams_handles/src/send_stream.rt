//! A stream on which an application writes.
ghost use Rattle.std.specs.Prelude.{◌≡◌, ◌≢◌, ℕ, Ok, Err, None, true, length, IfSome, IsSome};
ghost use Rattle.quic_streams_parts.specs.declared.answers.WriteError.TheVariants as write_errors;
ghost use Rattle.quic_streams_parts.specs.declared.answers.FinishError.TheVariants as finish_errors;
ghost use Rattle.quic_streams_parts.specs.declared.answers.UpdateError.TheVariants as update_errors;
ghost use Rattle.quic_streams_parts.specs.Table.{at};
ghost use Rattle.quic_streams_state.specs.Parts.{room};
ghost use Rattle.quic_streams_state.specs.State.{sending_half};
ghost use Rattle.quic_send_buffer.specs.Source.{bytes_of};
ghost use Rattle.quic_streams_state.specs.Blocking.{blocked_by};
ghost use Rattle.quic_streams_state.specs.SendLacking.{WriteMayLack};
ghost use Rattle.quic_streams_state.specs.Writing.{write_answer, after_write, write_chunks_answer, after_write_chunks, stopped_answer, finish_answer, after_finish, reset_answer, after_reset, priority_answer, set_priority_answer, after_set_priority};

use crate::end_streams::EndStreams;
use bytes::Bytes;
use quic_streams_parts::{ClosedStream, FinishError, UpdateError, WriteError, Written};
use quic_streams_state::BlockedBy;
use quic_wire_core::{StreamId, VarInt};

/// The send half of a stream (quinn-proto's `SendStream`).
#[derive(Drop)]
pub struct SendStream<'a> {
    /// The stream.
    pub id: StreamId,
    /// All streams of the endpoint.
    pub streams: &'a mut EndStreams,
    /// Whether the endpoint is open: nothing is written on any other.
    pub is_open: bool,
}

impl<'a> SendStream<'a> {
    /// The send half of a stream of an endpoint, which is open or isn't.
    pub fn new(id: StreamId, streams: &'a mut EndStreams, is_open: bool) -> SendStream<'a>
        ensures same_reference { result.streams.ghost_name ≡ streams.entry.ghost_name }
        ensures same_streams { result.streams.now ≡ streams.old }
        ensures stream { result.id ≡ id }
        ensures open { result.is_open ≡ is_open }
    {
        SendStream {
            id,
            streams,
            is_open,
        }
    }

    /// Writes as many of the bytes as fit, and says how many (RFC 9000, sections 2.2 and 4.1;
    /// quinn-proto's `SendStream::write`).
    ///
    /// # Errors
    ///
    /// - [`WriteError::Blocked`]: the endpoint isn't open. Nothing changes.
    /// - [`WriteError::ClosedStream`]: there is no such stream, or its sending half is done.
    ///   Nothing changes.
    /// - [`WriteError::Blocked`]: the connection's limit or the send window leaves no room. The
    ///   stream is noted as blocked, DATA_BLOCKED is queued where that limit is used up and isn't
    ///   the one that such a frame said last, and no byte is taken.
    /// - [`WriteError::ClosedStream`]: the stream was finished or reset. Nothing changes.
    /// - [`WriteError::Stopped`]: the peer sent STOP_SENDING for the stream. Nothing changes.
    /// - [`WriteError::Blocked`]: the stream's own limit leaves no room. STREAM_DATA_BLOCKED is
    ///   queued unless such a frame of the stream said that limit last, and no byte is taken.
    /// - [`WriteError::Memory`]: an allocation fails, of room to take some bytes, or to note that
    ///   the stream is blocked. Nothing changes.
    pub fn write(&mut self, data: &[u8]) -> Result<usize, WriteError>
        ensures same_reference { self.new.streams.ghost_name ≡ self.old.streams.ghost_name }
        ensures same_stream { self.new.id ≡ self.old.id }
        ensures same_open { self.new.is_open ≡ self.old.is_open }
        ensures answer { result ≢ Err write_errors.Memory → result ≡ write_answer self.old.is_open self.old.streams.now.state self.old.id (length «data».now) }
        ensures state { self.new.streams.now.state ≡ (after_write self.old.is_open result self.old.streams.now.state self.old.streams.now.pending self.old.id «data».now).state }
        ensures pending { self.new.streams.now.pending ≡ (after_write self.old.is_open result self.old.streams.now.state self.old.streams.now.pending self.old.id «data».now).pending }
        ensures open { result ≡ Err write_errors.Memory → self.old.is_open ≡ true }
        ensures lacking { result ≡ Err write_errors.Memory → WriteMayLack (write_answer true self.old.streams.now.state self.old.id (length «data».now)) (sending_half self.old.streams.now.state self.old.id) (room self.old.streams.now.state.sending) }
    {
        let EndStreams { state, pending } = &mut *self.streams;
        state.write(self.is_open, self.id, data, pending)
    }

    /// Writes as many bytes of several buffers as fit, as one write of all their bytes, each buffer
    /// as a piece that shares its bytes (RFC 9000, sections 2.2 and 4.1; quinn-proto's
    /// `SendStream::write_chunks`). Says how many bytes, and how many of the buffers they use up,
    /// those without a byte too: the caller goes on behind these.
    ///
    /// # Errors
    ///
    /// - [`WriteError::Blocked`]: the endpoint isn't open. Nothing changes.
    /// - [`WriteError::ClosedStream`]: there is no such stream, or its sending half is done.
    ///   Nothing changes.
    /// - [`WriteError::Blocked`]: the connection's limit or the send window leaves no room. The
    ///   stream is noted as blocked, DATA_BLOCKED is queued where that limit is used up and isn't
    ///   the one that such a frame said last, and no byte is taken.
    /// - [`WriteError::ClosedStream`]: the stream was finished or reset. Nothing changes.
    /// - [`WriteError::Stopped`]: the peer sent STOP_SENDING for the stream. Nothing changes.
    /// - [`WriteError::Blocked`]: the stream's own limit leaves no room. STREAM_DATA_BLOCKED is
    ///   queued unless such a frame of the stream said that limit last, and no byte is taken.
    /// - [`WriteError::Memory`]: an allocation fails, of room to take some bytes, or to note that
    ///   the stream is blocked. Nothing changes.
    pub fn write_chunks(&mut self, chunks: &[Bytes]) -> Result<Written, WriteError>
        ensures same_reference { self.new.streams.ghost_name ≡ self.old.streams.ghost_name }
        ensures same_stream { self.new.id ≡ self.old.id }
        ensures same_open { self.new.is_open ≡ self.old.is_open }
        ensures answer { result ≢ Err write_errors.Memory → result ≡ write_chunks_answer self.old.is_open self.old.streams.now.state self.old.id chunks.now }
        ensures state { self.new.streams.now.state ≡ (after_write_chunks self.old.is_open result self.old.streams.now.state self.old.streams.now.pending self.old.id chunks.now).state }
        ensures pending { self.new.streams.now.pending ≡ (after_write_chunks self.old.is_open result self.old.streams.now.state self.old.streams.now.pending self.old.id chunks.now).pending }
        ensures open { result ≡ Err write_errors.Memory → self.old.is_open ≡ true }
        ensures lacking { result ≡ Err write_errors.Memory → WriteMayLack (write_answer true self.old.streams.now.state self.old.id (bytes_of chunks.now)) (sending_half self.old.streams.now.state self.old.id) (room self.old.streams.now.state.sending) }
    {
        let EndStreams { state, pending } = &mut *self.streams;
        state.write_chunks(self.is_open, self.id, chunks, pending)
    }

    /// Which limit lets a write take nothing now (RFC 9000, section 4.1): why `write` answers
    /// [`WriteError::Blocked`]. In the order in which `write` tests them: [`BlockedBy::Closed`] if
    /// the endpoint isn't open, `Connection`, `SendWindow`, `Stream`. `None` if a write would take
    /// bytes, or answer another error. Nothing changes. quinn-proto has no such call.
    pub fn blocked_by(&self) -> Option<BlockedBy>
        ensures value { result ≡ blocked_by self.now.is_open self.now.streams.now.state self.now.id }
        ensures some { (len : ℕ) → IsSome result → write_answer self.now.is_open self.now.streams.now.state self.now.id len ≡ Err write_errors.Blocked }
        ensures none { (len : ℕ) → result ≡ None → write_answer self.now.is_open self.now.streams.now.state self.now.id len ≢ Err write_errors.Blocked }
    {
        self.streams.state.blocked_by(self.is_open, self.id)
    }

    /// The code with which the peer stopped the stream, if it did (RFC 9000, section 3.5;
    /// quinn-proto's `SendStream::stopped`).
    ///
    /// # Errors
    ///
    /// - [`ClosedStream`]: there is no such stream, or its sending half is done.
    pub fn stopped(&self) -> Result<Option<VarInt>, ClosedStream>
        ensures { result ≡ stopped_answer self.now.streams.now.state self.now.id }
    {
        self.streams.state.stopped(self.id)
    }

    /// Finishes the stream: its FIN is sent behind its bytes (RFC 9000, section 3.1; quinn-proto's
    /// `SendStream::finish`).
    ///
    /// # Errors
    ///
    /// - [`FinishError::ClosedStream`]: there is no such stream, or its sending half is done.
    ///   Nothing changes.
    /// - [`FinishError::Stopped`]: the peer sent STOP_SENDING for the stream. Nothing changes.
    /// - [`FinishError::ClosedStream`]: the stream was finished or reset. Nothing changes.
    /// - [`FinishError::Memory`]: an allocation fails, where the stream isn't queued yet. Nothing
    ///   changes.
    pub fn finish(&mut self) -> Result<(), FinishError>
        ensures same_reference { self.new.streams.ghost_name ≡ self.old.streams.ghost_name }
        ensures same_stream { self.new.id ≡ self.old.id }
        ensures same_open { self.new.is_open ≡ self.old.is_open }
        ensures answer { result ≢ Err finish_errors.Memory → result ≡ finish_answer self.old.streams.now.state self.old.id }
        ensures state { result ≢ Err finish_errors.Memory → self.new.streams.now.state ≡ after_finish self.old.streams.now.state self.old.id }
        ensures pending { self.new.streams.now.pending ≡ self.old.streams.now.pending }
        ensures memory { result ≡ Err finish_errors.Memory → self.new.streams.now.state ≡ self.old.streams.now.state }
        ensures lacking { result ≡ Err finish_errors.Memory → finish_answer self.old.streams.now.state self.old.id ≡ Ok tt }
        ensures unqueued { result ≡ Err finish_errors.Memory → IfSome (sending_half self.old.streams.now.state self.old.id) (λ h. h.place ≡ None) }
    {
        self.streams.state.finish(self.id)
    }

    /// Resets the stream with a code (RFC 9000, section 3.1; quinn-proto's `SendStream::reset`):
    /// RESET_STREAM is queued, and nothing else of the stream is sent.
    ///
    /// # Errors
    ///
    /// - [`UpdateError::ClosedStream`]: there is no such stream, its sending half is done, or it
    ///   was reset. Nothing changes.
    /// - [`UpdateError::Memory`]: an allocation fails. Nothing changes.
    pub fn reset(&mut self, error_code: VarInt) -> Result<(), UpdateError>
        ensures same_reference { self.new.streams.ghost_name ≡ self.old.streams.ghost_name }
        ensures same_stream { self.new.id ≡ self.old.id }
        ensures same_open { self.new.is_open ≡ self.old.is_open }
        ensures answer { result ≢ Err update_errors.Memory → result ≡ reset_answer self.old.streams.now.state self.old.id }
        ensures state { result ≢ Err update_errors.Memory → self.new.streams.now.state ≡ (after_reset self.old.streams.now.state self.old.streams.now.pending self.old.id error_code).state }
        ensures pending { result ≢ Err update_errors.Memory → self.new.streams.now.pending ≡ (after_reset self.old.streams.now.state self.old.streams.now.pending self.old.id error_code).pending }
        ensures memory { result ≡ Err update_errors.Memory → self.new.streams.now ≡ self.old.streams.now }
        ensures lacking { result ≡ Err update_errors.Memory → reset_answer self.old.streams.now.state self.old.id ≡ Ok tt }
    {
        let EndStreams { state, pending } = &mut *self.streams;
        state.reset(self.id, error_code, pending)
    }

    /// Sets the priority of the stream, which counts when it is queued next (quinn-proto's
    /// `SendStream::set_priority`). A stream of a greater priority goes first. The default is 0.
    ///
    /// # Errors
    ///
    /// - [`UpdateError::ClosedStream`]: there is no such stream, or its sending half is done.
    ///   Nothing changes.
    /// - [`UpdateError::Memory`]: an allocation fails, of room to bring its sending half into use.
    ///   Nothing changes.
    pub fn set_priority(&mut self, priority: i32) -> Result<(), UpdateError>
        ensures same_reference { self.new.streams.ghost_name ≡ self.old.streams.ghost_name }
        ensures same_stream { self.new.id ≡ self.old.id }
        ensures same_open { self.new.is_open ≡ self.old.is_open }
        ensures answer { result ≢ Err update_errors.Memory → result ≡ set_priority_answer self.old.streams.now.state self.old.id }
        ensures state { result ≢ Err update_errors.Memory → self.new.streams.now.state ≡ after_set_priority self.old.streams.now.state self.old.id priority }
        ensures pending { self.new.streams.now.pending ≡ self.old.streams.now.pending }
        ensures memory { result ≡ Err update_errors.Memory → self.new.streams.now.state ≡ self.old.streams.now.state }
        ensures lacking { result ≡ Err update_errors.Memory → set_priority_answer self.old.streams.now.state self.old.id ≡ Ok tt }
        ensures idle { result ≡ Err update_errors.Memory → at self.old.streams.now.state.sending.halves.live self.old.id ≡ None }
    {
        self.streams.state.set_priority(self.id, priority)
    }

    /// The priority of the stream (quinn-proto's `SendStream::priority`).
    ///
    /// # Errors
    ///
    /// - [`ClosedStream`]: there is no such stream, or its sending half is done.
    pub fn priority(&self) -> Result<i32, ClosedStream>
        ensures { result ≡ priority_answer self.now.streams.now.state self.now.id }
    {
        self.streams.state.priority(self.id)
    }
}
