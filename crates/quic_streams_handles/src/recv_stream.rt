//! A stream that an application reads.
ghost use Rattle.std.specs.Prelude.{◌≡◌, ◌≢◌, not, false, true, Ok, Err, IfOk, IfErr, IsErrOf, OnOk, IsSomeAnd};
ghost use Rattle.quic_streams_parts.specs.declared.answers.ReadableError.TheVariants as readable_errors;
ghost use Rattle.quic_streams_parts.specs.declared.answers.ReadError.TheVariants as read_errors;
ghost use Rattle.quic_streams_parts.specs.declared.answers.UpdateError.TheVariants as update_errors;
ghost use Rattle.quic_streams_parts.specs.Table.{at};
ghost use Rattle.quic_streams_parts.specs.Lacking.{read_may_lack};
ghost use Rattle.quic_retransmits.specs.Retransmits.{Retransmits as Waiting, has_id};
ghost use Rattle.quic_streams_state.specs.Reading.{read_answer, begin_may_lack, after_read_begun, with_reserved, told_bytes, next_answer, told_by, after_next, finalize_answer, after_finalize, is_closed, stop_answer, after_stop, received_reset_answer, after_received_reset};

use crate::end_streams::EndStreams;
use crate::told::Told;
use quic_assembler::Chunk;
use quic_send_buffer::ShouldTransmit;
use quic_streams_parts::{ClosedStream, ReadError, ReadableError, UpdateError};
use quic_wire_core::{StreamId, VarInt};

/// The receive half of a stream (quinn-proto's `RecvStream`).
#[derive(Drop)]
pub struct RecvStream<'a> {
    /// The stream.
    pub id: StreamId,
    /// All streams of the endpoint.
    pub streams: &'a mut EndStreams,
}

/// A read of a stream (quinn-proto's `Chunks`). What `finalize` does, a drop does too.
pub struct Chunks<'a> {
    /// The stream.
    pub id: StreamId,
    /// All streams of the endpoint.
    pub streams: &'a mut EndStreams,
    /// Whether MAX_STREAM_DATA of the stream wasn't pending before the read.
    pub is_new: bool,
    /// What `next` has answered beside bytes.
    pub told: Told,
}

impl EndStreams {
    ghost use Rattle.std.specs.Borrow.{sem, follows_if, name_if_ok};
    ghost use Rattle.quic_streams_handles.specs.contracts.end_streams.EndStreams.{the_row as streams_row};
    ghost use Rattle.quic_streams_handles.specs.Lending.{chunks_lender};
    ghost use Rattle.quic_streams_handles.specs.Told.{told_of};

    // A read of a stream begins, in order or not.
    fn chunks(&mut self, id: StreamId, ordered: bool) -> Result<Chunks<'_>, ReadableError>
        ensures* unchanged_at_error { sem 𝓛 (follows_if streams_row streams_row self.entry.ghost_name (name_if_ok chunks_lender result) (λ streams. streams) self.old) }
        ensures same_reference { IfOk result (λ chunks. chunks.streams.ghost_name ≡ self.entry.ghost_name) }
        ensures same_stream { IfOk result (λ chunks. chunks.id ≡ id) }
        ensures told { IfOk result (λ chunks. told_of chunks.told ≡ told_bytes) }
        ensures state { IfOk result (λ chunks. chunks.streams.now.state ≡ after_read_begun self.old.state id ordered) }
        ensures pending { IfOk result (λ chunks. chunks.streams.now.pending ≡ with_reserved self.old.pending id) }
        ensures is_new { IfOk result (λ chunks. chunks.is_new ≡ not (has_id id self.old.pending.max_stream_data)) }
        ensures ok { OnOk result (read_answer self.old.state id ordered ≡ Ok tt) }
        ensures err { IfErr result (λ e. e ≢ readable_errors.Memory → read_answer self.old.state id ordered ≡ Err e) }
        ensures allowed { IsErrOf result readable_errors.Memory → read_answer self.old.state id ordered ≡ Ok tt }
        ensures lacking { IsErrOf result readable_errors.Memory → begin_may_lack self.old.state self.old.pending id ordered ≡ true }
    {
        match self.state.begin_read(id, ordered, &mut self.pending) {
            Ok(is_new) => Ok(Chunks {
                id,
                streams: self,
                is_new,
                told: Told::Bytes,
            }),
            Err(error) => Err(error),
        }
    }
}

impl<'a> RecvStream<'a> {
    ghost use Rattle.std.specs.Borrow.{sem, follows_if, name_if_ok};
    ghost use Rattle.quic_streams_handles.specs.contracts.end_streams.EndStreams.{the_row as streams_row};
    ghost use Rattle.quic_streams_handles.specs.Lending.{chunks_lender};
    ghost use Rattle.quic_streams_handles.specs.Told.{told_of};

    /// The receive half of a stream of an endpoint.
    pub fn new(id: StreamId, streams: &'a mut EndStreams) -> RecvStream<'a>
        ensures same_reference { result.streams.ghost_name ≡ streams.entry.ghost_name }
        ensures same_streams { result.streams.now ≡ streams.old }
        ensures stream { result.id ≡ id }
    {
        RecvStream { id, streams }
    }

    /// Begins a read, in order or not (RFC 9000, section 2.2; quinn-proto's `RecvStream::read`),
    /// and takes the memory that [`Chunks::finalize`] needs. After a read that wasn't in order all
    /// others are so.
    ///
    /// # Errors
    ///
    /// - [`ReadableError::ClosedStream`]: there is no such stream, this endpoint stopped it, or its
    ///   FIN or reset was given to the application. Nothing changes.
    /// - [`ReadableError::IllegalOrderedRead`]: the read is in order, and came after one that
    ///   wasn't. Nothing changes.
    /// - [`ReadableError::Memory`]: an allocation fails. Nothing changes.
    pub fn read(self, ordered: bool) -> Result<Chunks<'a>, ReadableError>
        ensures* unchanged_at_error { sem 𝓛 (follows_if streams_row streams_row self.entry.streams.ghost_name (name_if_ok chunks_lender result) (λ streams. streams) self.entry.streams.now) }
        ensures same_reference { IfOk result (λ chunks. chunks.streams.ghost_name ≡ self.entry.streams.ghost_name) }
        ensures same_stream { IfOk result (λ chunks. chunks.id ≡ self.entry.id) }
        ensures told { IfOk result (λ chunks. told_of chunks.told ≡ told_bytes) }
        ensures state { IfOk result (λ chunks. chunks.streams.now.state ≡ after_read_begun self.entry.streams.now.state self.entry.id ordered) }
        ensures pending { IfOk result (λ chunks. chunks.streams.now.pending ≡ with_reserved self.entry.streams.now.pending self.entry.id) }
        ensures is_new { IfOk result (λ chunks. chunks.is_new ≡ not (has_id self.entry.id self.entry.streams.now.pending.max_stream_data)) }
        ensures ok { OnOk result (read_answer self.entry.streams.now.state self.entry.id ordered ≡ Ok tt) }
        ensures err { IfErr result (λ e. e ≢ readable_errors.Memory → read_answer self.entry.streams.now.state self.entry.id ordered ≡ Err e) }
        ensures allowed { IsErrOf result readable_errors.Memory → read_answer self.entry.streams.now.state self.entry.id ordered ≡ Ok tt }
        ensures lacking { IsErrOf result readable_errors.Memory → begin_may_lack self.entry.streams.now.state self.entry.streams.now.pending self.entry.id ordered ≡ true }
    {
        let RecvStream { id, streams } = self;
        streams.chunks(id, ordered)
    }

    /// Stops the stream, of which nothing is read any more (RFC 9000, section 3.5; quinn-proto's
    /// `RecvStream::stop`): STOP_SENDING is queued unless the peer reset the stream, and raised
    /// limits are pending until they are advertised.
    ///
    /// # Errors
    ///
    /// - [`UpdateError::ClosedStream`]: there is no such stream, this endpoint stopped it before,
    ///   or its FIN or reset was given to the application. Nothing changes.
    /// - [`UpdateError::Memory`]: an allocation fails. Nothing changes.
    pub fn stop(&mut self, error_code: VarInt) -> Result<(), UpdateError>
        ensures same_reference { self.new.streams.ghost_name ≡ self.old.streams.ghost_name }
        ensures same_stream { self.new.id ≡ self.old.id }
        ensures answer { result ≢ Err update_errors.Memory → result ≡ stop_answer self.old.streams.now.state self.old.id }
        ensures state { result ≢ Err update_errors.Memory → self.new.streams.now.state ≡ (after_stop self.old.streams.now.state self.old.streams.now.pending self.old.id error_code).state }
        ensures pending { result ≢ Err update_errors.Memory → self.new.streams.now.pending ≡ (after_stop self.old.streams.now.state self.old.streams.now.pending self.old.id error_code).pending }
        ensures memory { result ≡ Err update_errors.Memory → self.new.streams.now ≡ self.old.streams.now }
        ensures lacking { result ≡ Err update_errors.Memory → is_closed self.old.streams.now.state self.old.id ≡ false }
    {
        let EndStreams { state, pending } = &mut *self.streams;
        state.stop(self.id, error_code, pending)
    }

    /// The code with which the peer reset the stream, if it did (RFC 9000, section 3.2;
    /// quinn-proto's `RecvStream::received_reset`); nothing is left to read then.
    ///
    /// # Errors
    ///
    /// - [`ClosedStream`]: there is no such stream, this endpoint stopped it, or its FIN or reset
    ///   was given to the application. Nothing changes.
    pub fn received_reset(&mut self) -> Result<Option<VarInt>, ClosedStream>
        ensures same_reference { self.new.streams.ghost_name ≡ self.old.streams.ghost_name }
        ensures same_stream { self.new.id ≡ self.old.id }
        ensures answer { result ≡ received_reset_answer self.old.streams.now.state self.old.id }
        ensures state { self.new.streams.now.state ≡ (after_received_reset self.old.streams.now.state self.old.streams.now.pending self.old.id).state }
        ensures pending { self.new.streams.now.pending ≡ (after_received_reset self.old.streams.now.state self.old.streams.now.pending self.old.id).pending }
    {
        let EndStreams { state, pending } = &mut *self.streams;
        state.received_reset_code(self.id, pending)
    }
}

impl Chunks<'_> {
    ghost use Rattle.quic_streams_handles.specs.Told.{told_of};

    /// The next bytes, at most so many, or `None` at the end of the stream (quinn-proto's
    /// `Chunks::next`). Once it has answered that, or that the peer reset the stream, it answers so
    /// again.
    ///
    /// # Errors
    ///
    /// - [`ReadError::Reset`]: the peer reset the stream. Its receive half is done then.
    /// - [`ReadError::Blocked`]: no byte is there that may be given, and not all up to the final
    ///   size were read. Nothing changes.
    /// - [`ReadError::Memory`]: an allocation fails. Nothing changes.
    pub fn next(&mut self, max_length: usize) -> Result<Option<Chunk>, ReadError>
        ensures same_reference { self.new.streams.ghost_name ≡ self.old.streams.ghost_name }
        ensures same_stream { self.new.id ≡ self.old.id }
        ensures same_new { self.new.is_new ≡ self.old.is_new }
        ensures answer { result ≢ Err read_errors.Memory → result ≡ next_answer (told_of self.old.told) self.old.streams.now.state self.old.id max_length }
        ensures told { told_of self.new.told ≡ told_by result (told_of self.old.told) }
        ensures state { self.new.streams.now.state ≡ after_next (told_of self.old.told) result self.old.streams.now.state self.old.id max_length }
        ensures pending { self.new.streams.now.pending ≡ self.old.streams.now.pending }
        ensures lacking { result ≡ Err read_errors.Memory → IsSomeAnd (at self.old.streams.now.state.receiving.halves.live self.old.id) (λ h. read_may_lack h.arrived max_length ≡ true) }
    {
        if self.told.is_over() {
            return self.told.again();
        }
        let answer = self.streams.state.read_next(self.id, max_length);
        self.told = self.told.after(&answer);
        answer
    }

    /// Ends the read (quinn-proto's `Chunks::finalize`): raised limits are pending until they are
    /// advertised. The answer is whether there are any, so that something is to be sent.
    #[inline(always)]
    pub fn finalize(self) -> ShouldTransmit
        ensures answer { result ≡ record { 0 = finalize_answer self.entry.streams.now.state self.entry.id } }
        ensures state { self.exit.1.0.now.state ≡ self.entry.streams.now.state }
        ensures pending { (before : Waiting) → self.entry.streams.now.pending ≡ with_reserved before self.entry.id → self.entry.is_new ≡ not (has_id self.entry.id before.max_stream_data) → self.exit.1.0.now.pending ≡ (after_finalize self.entry.streams.now.state before self.entry.id).pending }
    {
        let Chunks {
            id,
            streams,
            is_new,
            told: _,
        } = self;
        let EndStreams { state, pending } = &mut *streams;
        state.end_read(id, is_new, pending)
    }
}

impl Drop for Chunks<'_> {
    fn drop(self)
        ensures state { self.exit.1.0.now.state ≡ self.entry.streams.now.state }
        ensures pending { (before : Waiting) → self.entry.streams.now.pending ≡ with_reserved before self.entry.id → self.entry.is_new ≡ not (has_id self.entry.id before.max_stream_data) → self.exit.1.0.now.pending ≡ (after_finalize self.entry.streams.now.state before self.entry.id).pending }
    {
        let _ = self.finalize();
    }
}
