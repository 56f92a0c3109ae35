//! Reads of streams, and what stops them (RFC 9000, sections 2.2 and 3.5).
ghost use Rattle.std.specs.Prelude.{◌≡◌, ◌≢◌, Some, None, Ok, Err, false, IfSome, OnOk, OnErr};
ghost use Rattle.quic_streams_parts.specs.declared.answers.UpdateError.TheVariants as update_errors;
ghost use Rattle.quic_streams_parts.specs.Table.{at};
ghost use Rattle.quic_streams_parts.specs.RecvHalf.{new_recv_half};
ghost use Rattle.quic_streams_state.specs.State.{first_window, receiving_half};
ghost use Rattle.quic_streams_state.specs.Reading.{received_reset_answer, after_received_reset, is_closed, with_stop, stop_answer, after_stop};

use crate::state::StreamsState;
use quic_retransmits::Retransmits;
use quic_streams_halves::is_own;
use quic_streams_parts::{ClosedStream, Recv, UpdateError};
use quic_wire::frame::StopSending;
use quic_wire_core::{Dir, StreamId, VarInt};
use std::alloc::AllocError;

// The peer is asked to stop, unless it reset the stream. An `Err` (want of memory) changes nothing.
fn ask_to_stop(
    pending: &mut Retransmits,
    reset: Option<VarInt>,
    id: StreamId,
    error_code: VarInt,
) -> Result<(), AllocError>
    ensures ok { OnOk result (pending.new ≡ with_stop reset id error_code pending.old) }
    ensures err { OnErr result (pending.new ≡ pending.old) }
{
    if reset.is_some() {
        return Ok(());
    }
    pending.push_stop_sending(StopSending { id, error_code })
}

impl StreamsState {
    // A receiving half that isn't in use: one on which nothing was done, unless its stream isn't
    // opened, only this end sends on it, or it is done.
    pub(crate) fn fresh_recv(&self, id: StreamId) -> Option<Recv>
        requires { at self.now.receiving.halves.live id ≡ None }
        ensures half { result ≡ receiving_half self.now id }
        ensures fresh { IfSome result (λ h. h ≡ new_recv_half (first_window self.now.receiving)) }
    {
        let receives = !is_own(self.side, id) || id.dir() == Dir::Bi;
        if !receives || !self.opening.is_opened(self.side, id) {
            return None;
        }
        if self.receiving.was_used(self.side, id) {
            return None;
        }
        Some(self.receiving.fresh())
    }

    /// The code with which the peer reset a stream that is still read, if it did (quinn's
    /// `RecvStream::received_reset`); nothing is left to read then.
    ///
    /// # Errors
    ///
    /// - [`ClosedStream`]: there is no such stream, this endpoint stopped it, or its FIN or reset
    ///   was given to the application. Nothing changes.
    pub fn received_reset_code(
        &mut self,
        id: StreamId,
        pending: &mut Retransmits,
    ) -> Result<Option<VarInt>, ClosedStream>
        ensures answer { result ≡ received_reset_answer self.old id }
        ensures new { self.new ≡ (after_received_reset self.old pending.old id).state }
        ensures pending { pending.new ≡ (after_received_reset self.old pending.old id).pending }
    {
        let Some(half) = self.receiving.get(id) else {
            return match self.fresh_recv(id) {
                Some(_) => Ok(None),
                None => Err(ClosedStream),
            };
        };
        if half.is_stopped() {
            return Err(ClosedStream);
        }
        let Some(code) = half.reset_code() else {
            return Ok(None);
        };
        self.recv_done(id);
        self.decide(pending);
        Ok(Some(code))
    }

    // This end stops a half that isn't in use.
    fn stop_fresh(
        &mut self,
        id: StreamId,
        half: Recv,
        error_code: VarInt,
        pending: &mut Retransmits,
    ) -> Result<(), UpdateError>
        requires none { at self.old.receiving.halves.live id ≡ None }
        requires fresh { half ≡ new_recv_half (first_window self.old.receiving) }
        requires half { receiving_half self.old id ≡ Some half }
        ensures answer { result ≢ Err update_errors.Memory → result ≡ stop_answer self.old id }
        ensures new { result ≢ Err update_errors.Memory → self.new ≡ (after_stop self.old pending.old id error_code).state }
        ensures pending { result ≢ Err update_errors.Memory → pending.new ≡ (after_stop self.old pending.old id error_code).pending }
        ensures memory { result ≡ Err update_errors.Memory → self.new ≡ self.old }
        ensures kept { result ≡ Err update_errors.Memory → pending.new ≡ pending.old }
    {
        // The proof reads that no more arrived than may.
        let _seen = self.receiving.seen();
        let mut half = half;
        half.stop();
        if pending
            .push_stop_sending(StopSending { id, error_code })
            .is_err()
        {
            return Err(UpdateError::Memory);
        }
        if self.receiving.add(self.side, id, half).is_err() {
            pending.take_back_stop_sending();
            return Err(UpdateError::Memory);
        }
        self.decide(pending);
        Ok(())
    }

    /// Stops a stream, of which nothing is read any more (RFC 9000, section 3.5; quinn's
    /// `RecvStream::stop`): the peer is asked to stop too unless it reset the stream, and the
    /// limits that grew wait to be told.
    ///
    /// # Errors
    ///
    /// - [`UpdateError::ClosedStream`]: there is no such stream, this endpoint stopped it before,
    ///   or its FIN or reset was given to the application. Nothing changes.
    /// - [`UpdateError::Memory`]: an allocation fails. Nothing changes.
    pub fn stop(
        &mut self,
        id: StreamId,
        error_code: VarInt,
        pending: &mut Retransmits,
    ) -> Result<(), UpdateError>
        ensures answer { result ≢ Err update_errors.Memory → result ≡ stop_answer self.old id }
        ensures new { result ≢ Err update_errors.Memory → self.new ≡ (after_stop self.old pending.old id error_code).state }
        ensures pending { result ≢ Err update_errors.Memory → pending.new ≡ (after_stop self.old pending.old id error_code).pending }
        ensures memory { result ≡ Err update_errors.Memory → self.new ≡ self.old }
        ensures kept { result ≡ Err update_errors.Memory → pending.new ≡ pending.old }
        ensures lacking { result ≡ Err update_errors.Memory → is_closed self.old id ≡ false }
    {
        let Some(half) = self.receiving.get(id) else {
            return match self.fresh_recv(id) {
                Some(half) => self.stop_fresh(id, half, error_code, pending),
                None => Err(UpdateError::ClosedStream),
            };
        };
        if half.is_stopped() {
            return Err(UpdateError::ClosedStream);
        }
        if ask_to_stop(pending, half.reset_code(), id, error_code).is_err() {
            return Err(UpdateError::Memory);
        }
        self.receiving.stop(id);
        self.end_if_over(id);
        self.decide(pending);
        Ok(())
    }
}
