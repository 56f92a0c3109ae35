//! What was acknowledged or lost of what this end sent on its streams.
ghost use Rattle.std.specs.Prelude.{◌≡◌, ◌⊎◌, true, IfOk, OnOk, OnErr, IsSomeAnd, None};
ghost use Rattle.quic_streams_parts.specs.Table.{at};
ghost use Rattle.quic_retransmits.specs.Retransmits.{Retransmits as Waiting};
ghost use Rattle.quic_streams_halves.specs.Halves.{is_done};
ghost use Rattle.quic_streams_state.specs.State.{receiving_status, send_done};
ghost use Rattle.quic_streams_state.specs.Acked.{sent_half, is_acked_at, is_reset_in_use, finishes, after_stream_acked, after_reset_acked, after_stream_lost};
ghost use Rattle.quic_streams_state.specs.SendLacking.{FrameMayLack};

use crate::state::StreamsState;
use quic_retransmits::Retransmits;
use quic_send_buffer::StreamMeta;
use quic_streams_halves::is_own;
use quic_streams_parts::StreamEvent;
use quic_wire_core::{Dir, StreamId};
use std::alloc::AllocError;

impl StreamsState {
    // Whether nothing is left to do on the receiving half of a stream.
    fn is_recv_done(&self, id: StreamId) -> bool
        ensures { result ≡ is_done (receiving_status self.now id) }
    {
        let receives = !is_own(self.side, id) || id.dir() == Dir::Bi;
        if !receives || !self.opening.is_opened(self.side, id) {
            return false;
        }
        self.receiving.get(id).is_none() && self.receiving.was_used(self.side, id)
    }

    // Nothing is left to do on the sending half of a stream: where the peer opened it, and it is
    // done both ways, the peer may open one more.
    #[inline(always)]
    fn send_done(&mut self, id: StreamId)
        ensures { self.new ≡ send_done self.old id }
    {
        let both_ways = !is_own(self.side, id) && self.is_recv_done(id);
        self.sending.remove(id);
        self.opening.count_sent();
        if both_ways {
            self.opening.count_done(id.dir());
        }
    }

    // Whether all of a half in use is acknowledged.
    fn is_acked(&self, id: StreamId) -> bool
        ensures { result ≡ is_acked_at (at self.now.sending.halves.live id) }
    {
        match self.sending.get(id) {
            Some(half) => half.is_acked(),
            None => false,
        }
    }

    // A frame was acknowledged of a finished half that is in use and wasn't reset: whether that is
    // done now, of which the application is told then.
    fn ack_finished(&mut self, frame: &StreamMeta) -> Result<bool, AllocError>
        requires { IsSomeAnd (sent_half self.old frame.now.id) (λ h. h.reset ≡ None) }
        ensures answer { IfOk result (λ done. done ≡ finishes (sent_half self.old frame.now.id) frame.now) }
        ensures ok { OnOk result ((p : Waiting) → self.new ≡ (after_stream_acked self.old p frame.now).state) }
        ensures err { OnErr result (self.new ≡ self.old) }
    {
        self.events.push(StreamEvent::Finished { id: frame.id })?;
        if self.sending.ack(frame).is_err() {
            self.events.take_back();
            return Err(AllocError);
        }
        if !self.is_acked(frame.id) {
            self.events.take_back();
            return Ok(false);
        }
        self.send_done(frame.id);
        Ok(true)
    }

    // A STREAM frame was acknowledged: whether its half is done now.
    fn take_ack(&mut self, frame: &StreamMeta) -> Result<bool, AllocError>
        ensures answer { IfOk result (λ done. done ≡ finishes (sent_half self.old frame.now.id) frame.now) }
        ensures ok { OnOk result ((p : Waiting) → self.new ≡ (after_stream_acked self.old p frame.now).state) }
        ensures err { OnErr result (self.new ≡ self.old) }
        ensures lacking { OnErr result (IsSomeAnd (sent_half self.old frame.now.id) (λ h. (h.reset ≡ None) × ((h.finished ≡ true) ⊎ FrameMayLack frame.now h))) }
    {
        if self.sending.ack_if_ready(frame)? {
            return self.ack_finished(frame);
        }
        Ok(false)
    }

    /// A STREAM frame was acknowledged (RFC 9000, sections 3.1 and 13.3; quinn-proto's
    /// `StreamsState::received_ack_of`): its offsets go no more, unless its stream was reset. Once
    /// all of a finished stream is acknowledged, its end too, its sending half is done: the
    /// application is told [`StreamEvent::Finished`], and where the peer opened the stream and it
    /// is done both ways, the peer may open one more, of which it is to be told.
    ///
    /// # Errors
    ///
    /// - [`AllocError`]: an allocation fails, where the sending half is in use and wasn't reset,
    ///   and either it was finished, some of the frame was sent, or it isn't in the queue. Nothing
    ///   changes.
    pub fn received_ack_of(
        &mut self,
        frame: &StreamMeta,
        pending: &mut Retransmits,
    ) -> Result<(), AllocError>
        ensures ok { OnOk result (self.new ≡ (after_stream_acked self.old pending.old frame.now).state) }
        ensures pending { OnOk result (pending.new ≡ (after_stream_acked self.old pending.old frame.now).pending) }
        ensures err { OnErr result (self.new ≡ self.old) }
        ensures kept { OnErr result (pending.new ≡ pending.old) }
        ensures lacking { OnErr result (IsSomeAnd (sent_half self.old frame.now.id) (λ h. (h.reset ≡ None) × ((h.finished ≡ true) ⊎ FrameMayLack frame.now h))) }
    {
        if self.take_ack(frame)? {
            self.decide(pending);
        }
        Ok(())
    }

    // RESET_STREAM of a stream was acknowledged: whether its sending half, which was reset, is done
    // by that.
    fn take_reset_ack(&mut self, id: StreamId) -> bool
        ensures answer { result ≡ is_reset_in_use (sent_half self.old id) }
        ensures new { (p : Waiting) → self.new ≡ (after_reset_acked self.old p id).state }
    {
        let Some(half) = self.sending.get(id) else {
            return false;
        };
        if half.reset_size().is_none() {
            return false;
        }
        self.send_done(id);
        true
    }

    /// RESET_STREAM of a stream was acknowledged (RFC 9000, section 3.1; quinn-proto's
    /// `StreamsState::reset_acked`): its sending half, if it is in use and was reset, is done.
    /// Where the peer opened the stream and it is done both ways, the peer may open one more, of
    /// which it is to be told.
    pub fn reset_acked(&mut self, id: StreamId, pending: &mut Retransmits)
        ensures new { self.new ≡ (after_reset_acked self.old pending.old id).state }
        ensures pending { pending.new ≡ (after_reset_acked self.old pending.old id).pending }
    {
        if self.take_reset_ack(id) {
            self.decide(pending);
        }
    }

    /// A STREAM frame was lost (RFC 9000, section 13.3; quinn-proto's `StreamsState::retransmit`):
    /// what isn't acknowledged of it goes again, unless its stream was reset.
    ///
    /// # Errors
    ///
    /// - [`AllocError`]: an allocation fails, where the sending half is in use and wasn't reset,
    ///   and some of the frame was sent or the half isn't in the queue. Nothing changes.
    pub fn retransmit(&mut self, frame: &StreamMeta) -> Result<(), AllocError>
        ensures ok { OnOk result (self.new ≡ after_stream_lost self.old frame.now) }
        ensures err { OnErr result (self.new ≡ self.old) }
        ensures lacking { OnErr result (IsSomeAnd (sent_half self.old frame.now.id) (λ h. (h.reset ≡ None) × FrameMayLack frame.now h)) }
    {
        let Some(half) = self.sending.get(frame.id) else {
            return Ok(());
        };
        if half.reset_size().is_some() {
            return Ok(());
        }
        self.sending.retransmit(frame)
    }
}
