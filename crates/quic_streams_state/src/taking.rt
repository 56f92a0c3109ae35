//! Frames that come for the receiving halves of streams (RFC 9000, sections 3.2, 4.1, 4.5, 19.4,
//! 19.8, 19.13 and 19.14).
ghost use Rattle.std.specs.Prelude.{ℕ, ◌≡◌, ◌||◌, not, true, false, Some, None, IsSome, IfSome, OnOk, OnErr};
ghost use Rattle.std.specs.Option.{is_some};
ghost use Rattle.quic_wire.specs.FrameView.{frame_view, stream_view, reset_stream_view};
ghost use Rattle.quic_streams_parts.specs.Table.{at};
ghost use Rattle.quic_streams_parts.specs.RecvHalf.{new_recv_half, end_of, after_frame, after_reset_stream};
ghost use Rattle.quic_streams_parts.specs.Answered.{AnswersBreach, UnlessMemory, OnMemory};
ghost use Rattle.quic_streams_halves.specs.Halves.{is_done};
ghost use Rattle.quic_streams_state.specs.State.{StreamsState, first_window, sending_status, recv_done};
ghost use Rattle.quic_streams_state.specs.Limits.{decided};
ghost use Rattle.quic_streams_state.specs.Opening.{opens, opened_by, receiving_refusal, max_streams_breach};
ghost use Rattle.quic_streams_state.specs.Taking.{part_for, breach_on, refusal, readable_if, ended_if, stream_breach, after_stream, reset_breach, after_reset_frame, id_rule, broken, not_of_own_breach};
ghost use Rattle.quic_streams_state.specs.Received.{is_over, noted_on, FrameLacks, ResetLacks};

use crate::opening::MAX_STREAM_COUNT;
use crate::state::StreamsState;
use quic_retransmits::Retransmits;
use quic_streams_halves::is_own;
use quic_streams_parts::{Breach, ReceivedError, Recv, StreamEvent};
use quic_wire::frame::{Frame, ResetStream, Stream};
use quic_wire_core::{Dir, StreamId};
use std::alloc::AllocError;

/// What a frame is held to by the id or the count that it names, whatever else it does (RFC 9000,
/// sections 4.6 and 19).
#[derive(Clone, Copy, Debug, PartialEq, Eq)]
pub enum IdRule {
    /// Nothing.
    Free,
    /// This end receives on the stream, which is open, or which the peer may open: so of STREAM and
    /// RESET_STREAM.
    ReceivingOf(StreamId),
    /// This end sends on the stream, which is open, or which the peer may open: so of STOP_SENDING
    /// and MAX_STREAM_DATA.
    SendingOf(StreamId),
    /// The stream isn't one on which only this end sends: so of STREAM_DATA_BLOCKED.
    NotOfOwn(StreamId),
    /// The count is 2^60 at most: so of MAX_STREAMS and STREAMS_BLOCKED.
    Counting(u64),
}

impl IdRule {
    /// The rule that a frame is held to.
    pub fn of(frame: &Frame<'_>) -> IdRule
        ensures { result ≡ id_rule (frame_view frame.now) }
    {
        match frame {
            Frame::Stream(frame) => IdRule::ReceivingOf(frame.id),
            Frame::ResetStream(frame) => IdRule::ReceivingOf(frame.id),
            Frame::StopSending(frame) => IdRule::SendingOf(frame.id),
            Frame::MaxStreamData { id, .. } => IdRule::SendingOf(*id),
            Frame::MaxStreams { count, .. } => IdRule::Counting(*count),
            Frame::StreamDataBlocked { id, .. } => IdRule::NotOfOwn(*id),
            Frame::StreamsBlocked { limit, .. } => IdRule::Counting(*limit),
            _ => IdRule::Free,
        }
    }
}

// The rule that a count above 2^60 breaks.
fn count_breach(count: u64) -> Option<Breach>
    ensures { result ≡ max_streams_breach count }
{
    if count > MAX_STREAM_COUNT {
        return Some(Breach::FrameEncoding);
    }
    None
}

impl StreamsState {
    /// How a frame that is held to a rule of ids and counts breaks it: in this order `StreamState`
    /// on a stream on which this end doesn't receive or send as the rule asks, or on one of this
    /// end that isn't opened, and `StreamLimit` beyond the count that the peer may open;
    /// `FrameEncoding` for a count above 2^60. `None` where it doesn't break it.
    pub fn breach(&self, rule: IdRule) -> Option<Breach>
        ensures { result ≡ broken self.now rule }
    {
        match rule {
            IdRule::Free => None,
            IdRule::ReceivingOf(id) => self.receiving_refusal(id),
            IdRule::SendingOf(id) => self.sending_refusal(id),
            IdRule::NotOfOwn(id) => self.not_of_own_breach(id),
            IdRule::Counting(count) => count_breach(count),
        }
    }

    // The rule that is broken by the id of a stream on which only this end sends.
    fn not_of_own_breach(&self, id: StreamId) -> Option<Breach>
        ensures { result ≡ not_of_own_breach self.now id }
    {
        if is_own(self.side, id) && id.dir() == Dir::Uni {
            return Some(Breach::StreamState);
        }
        None
    }

    // Whether a frame opens its stream.
    fn opens(&self, id: StreamId) -> bool
        ensures { result ≡ opens self.now id }
    {
        !is_own(self.side, id) && !self.opening.is_opened(self.side, id)
    }

    // The rule that a frame for the receiving half of a stream breaks by its id.
    fn receiving_refusal(&self, id: StreamId) -> Option<Breach>
        ensures { result ≡ receiving_refusal self.now id }
    {
        if is_own(self.side, id) && id.dir() == Dir::Uni {
            return Some(Breach::StreamState);
        }
        self.opening.beyond(self.side, id)
    }

    // The half that a frame is for where it isn't in use: one on which nothing was done, unless it
    // is done.
    fn unused_part(&self, id: StreamId) -> Option<Recv>
        requires none { at self.now.receiving.halves.live id ≡ None }
        requires lawful { receiving_refusal self.now id ≡ None }
        ensures part { result ≡ part_for self.now id }
        ensures fresh { IfSome result (λ h. h ≡ new_recv_half (first_window self.now.receiving)) }
    {
        if self.receiving.was_used(self.side, id) {
            return None;
        }
        Some(self.receiving.fresh())
    }

    // The peer is to be told of the limits on all bytes and on streams that grew.
    pub(crate) fn decide(&self, pending: &mut Retransmits)
        ensures { pending.new ≡ decided self.now pending.old }
    {
        pending.set_max_data(pending.max_data() || self.receiving.max_data_grew());
        let bi = pending.max_stream_id(Dir::Bi) || self.opening.max_remote_grew(Dir::Bi);
        let uni = pending.max_stream_id(Dir::Uni) || self.opening.max_remote_grew(Dir::Uni);
        pending.set_max_stream_id(Dir::Bi, bi);
        pending.set_max_stream_id(Dir::Uni, uni);
    }

    // Whether the sending half of a stream is done.
    fn is_send_done(&self, id: StreamId) -> bool
        ensures { result ≡ is_done (sending_status self.now id) }
    {
        if self.sending.get(id).is_some() {
            return false;
        }
        let sends = is_own(self.side, id) || id.dir() == Dir::Bi;
        sends && self.opening.is_opened(self.side, id) && self.sending.was_used(self.side, id)
    }

    // Nothing is left to do on the receiving half of a stream.
    pub(crate) fn recv_done(&mut self, id: StreamId)
        ensures { self.new ≡ recv_done self.old id }
    {
        let is_remote = !is_own(self.side, id);
        let over = is_remote && (id.dir() == Dir::Uni || self.is_send_done(id));
        self.receiving.remove(id);
        if over {
            self.opening.count_done(id.dir());
        }
    }

    // A half that this end stopped is done once its final size is known.
    pub(crate) fn end_if_over(&mut self, id: StreamId)
        ensures { self.new ≡ ended_if (is_over (at self.old.receiving.halves.live id)) id self.old }
    {
        let Some(half) = self.receiving.get(id) else {
            return;
        };
        if half.is_stopped() && half.final_offset().is_some() {
            self.recv_done(id);
        }
    }

    // The application is told that it may read, where it is so. An `Err` (want of memory) changes
    // nothing.
    fn tell_readable(&mut self, tells: bool, id: StreamId) -> Result<(), AllocError>
        ensures ok { OnOk result (self.new ≡ readable_if tells id self.old) }
        ensures err { OnErr result (self.new ≡ self.old) }
        ensures lacking { OnErr result (tells ≡ true) }
    {
        if !tells {
            return Ok(());
        }
        self.events.push(StreamEvent::Readable { id })
    }

    // It isn't told, where it was to be.
    fn take_back(&mut self, told: bool)
        ensures { (s : StreamsState) (id : ℕ) → self.old ≡ readable_if told id s → self.new ≡ s }
    {
        if told {
            self.events.take_back();
        }
    }

    // A frame has come on a half: it opens its stream, a half that is over is done, and the limits
    // that grew are told.
    fn settle(&mut self, id: StreamId, pending: &mut Retransmits)
        ensures new { self.new ≡ ended_if (is_over (at self.old.receiving.halves.live id)) id (opened_by self.old id) }
        ensures pending { pending.new ≡ decided self.new pending.old }
    {
        self.open_by(id);
        self.end_if_over(id);
        self.decide(pending);
    }

    // A frame is kept on a half that is in use, and the application told. An `Err` (want of memory)
    // changes nothing.
    fn keep(&mut self, frame: &Stream<'_>) -> Result<(), AllocError>
        requires { IfSome (at self.old.receiving.halves.live frame.now.id) (λ h. breach_on self.old.receiving h (end_of (stream_view frame.now)) frame.now.fin ≡ None) }
        ensures ok { OnOk result (IfSome (at self.old.receiving.halves.live frame.now.id) (λ h. self.new ≡ noted_on self.old frame.now.id h (after_frame h (stream_view frame.now)) true)) }
        ensures err { OnErr result (self.new ≡ self.old) }
        ensures lacking { OnErr result (IfSome (at self.old.receiving.halves.live frame.now.id) (λ h. h.stopped ≡ false)) }
    {
        let Some(half) = self.receiving.get(frame.id) else {
            return Ok(());
        };
        let tells = !(half.is_stopped() || self.opens(frame.id));
        self.tell_readable(tells, frame.id)?;
        if self.receiving.take(frame).is_err() {
            self.take_back(tells);
            return Err(AllocError);
        }
        Ok(())
    }

    // The same on a half that isn't in use.
    fn keep_fresh(&mut self, frame: &Stream<'_>, half: Recv) -> Result<(), AllocError>
        requires none { at self.old.receiving.halves.live frame.now.id ≡ None }
        requires fresh { half ≡ new_recv_half (first_window self.old.receiving) }
        requires allowed { breach_on self.old.receiving half (end_of (stream_view frame.now)) frame.now.fin ≡ None }
        ensures ok { OnOk result (self.new ≡ noted_on self.old frame.now.id half (after_frame half (stream_view frame.now)) true) }
        ensures err { OnErr result (self.new ≡ self.old) }
    {
        let mut half = half;
        self.receiving.insert_on(&mut half, frame)?;
        let tells = !self.opens(frame.id);
        self.tell_readable(tells, frame.id)?;
        if self.receiving.add(self.side, frame.id, half).is_err() {
            self.take_back(tells);
            return Err(AllocError);
        }
        Ok(())
    }

    // A frame that isn't refused comes for a half that is in use.
    fn received_used(
        &mut self,
        frame: &Stream<'_>,
        pending: &mut Retransmits,
    ) -> Result<(), ReceivedError>
        requires used { IsSome (at self.old.receiving.halves.live frame.now.id) }
        requires allowed { refusal self.old frame.now.id (end_of (stream_view frame.now)) frame.now.fin ≡ None }
        ensures answer { AnswersBreach result (stream_breach self.old (stream_view frame.now)) }
        ensures new { UnlessMemory result (self.new ≡ (after_stream self.old pending.old (stream_view frame.now)).state) }
        ensures pending { UnlessMemory result (pending.new ≡ (after_stream self.old pending.old (stream_view frame.now)).pending) }
        ensures memory { OnMemory result (self.new ≡ self.old) }
        ensures kept { OnMemory result (pending.new ≡ pending.old) }
        ensures lacking { OnMemory result (IfSome (part_for self.old frame.now.id) (λ h. h.stopped ≡ false)) }
    {
        if self.keep(frame).is_err() {
            return Err(ReceivedError::Memory);
        }
        let crowded = self.receiving.has_too_many_pieces(frame.id);
        self.settle(frame.id, pending);
        if crowded {
            return Err(ReceivedError::Breach(Breach::Pieces));
        }
        Ok(())
    }

    // A frame that isn't refused by its id comes for a half that isn't in use. One piece waits then
    // at most, and this end didn't stop the half, so it is neither crowded nor over.
    fn received_fresh(
        &mut self,
        frame: &Stream<'_>,
        pending: &mut Retransmits,
    ) -> Result<(), ReceivedError>
        requires none { at self.old.receiving.halves.live frame.now.id ≡ None }
        requires lawful { receiving_refusal self.old frame.now.id ≡ None }
        ensures answer { AnswersBreach result (stream_breach self.old (stream_view frame.now)) }
        ensures new { UnlessMemory result (self.new ≡ (after_stream self.old pending.old (stream_view frame.now)).state) }
        ensures pending { UnlessMemory result (pending.new ≡ (after_stream self.old pending.old (stream_view frame.now)).pending) }
        ensures memory { OnMemory result (self.new ≡ self.old) }
        ensures kept { OnMemory result (pending.new ≡ pending.old) }
        ensures lacking { OnMemory result (FrameLacks (refusal self.old frame.now.id (end_of (stream_view frame.now)) frame.now.fin) (part_for self.old frame.now.id)) }
    {
        let Some(half) = self.unused_part(frame.id) else {
            return Ok(());
        };
        let end = frame.offset + frame.data.len() as u64;
        if let Some(breach) = self.receiving.breach_on(&half, end, frame.fin) {
            return Err(ReceivedError::Breach(breach));
        }
        if self.keep_fresh(frame, half).is_err() {
            return Err(ReceivedError::Memory);
        }
        self.open_by(frame.id);
        self.decide(pending);
        Ok(())
    }

    /// Takes STREAM (RFC 9000, section 19.8): its stream is open then, its bytes and its end are
    /// kept unless this end stopped the stream or the peer reset it, the application is told that
    /// it may read, and the limits that grew wait to be told.
    ///
    /// # Errors
    ///
    /// - [`ReceivedError::Breach`] with `StreamState`: only this endpoint sends on the stream, or
    ///   it is one of this endpoint that isn't opened. Nothing changes.
    /// - [`ReceivedError::Breach`] with `StreamLimit`: the stream lies beyond the count that the
    ///   peer may open. Nothing changes.
    /// - [`ReceivedError::Breach`] with `FlowControl`: the half isn't done, and the frame ends
    ///   beyond 2^62 - 1. Nothing changes.
    /// - [`ReceivedError::Breach`] with `FinalSize`: the half isn't done, and the frame breaks its
    ///   final size. Nothing changes.
    /// - [`ReceivedError::Breach`] with `FlowControl`: the half isn't done, and the frame ends
    ///   beyond the limit of the stream or of all streams. Nothing changes.
    /// - [`ReceivedError::Memory`]: an allocation fails, on a half that this endpoint didn't stop.
    ///   Nothing changes.
    /// - [`ReceivedError::Breach`] with `Pieces`: more ranges of the stream wait than may. The
    ///   frame is kept.
    pub fn received(
        &mut self,
        frame: &Stream<'_>,
        pending: &mut Retransmits,
    ) -> Result<(), ReceivedError>
        ensures answer { AnswersBreach result (stream_breach self.old (stream_view frame.now)) }
        ensures new { UnlessMemory result (self.new ≡ (after_stream self.old pending.old (stream_view frame.now)).state) }
        ensures pending { UnlessMemory result (pending.new ≡ (after_stream self.old pending.old (stream_view frame.now)).pending) }
        ensures memory { OnMemory result (self.new ≡ self.old) }
        ensures kept { OnMemory result (pending.new ≡ pending.old) }
        ensures lacking { OnMemory result (FrameLacks (refusal self.old frame.now.id (end_of (stream_view frame.now)) frame.now.fin) (part_for self.old frame.now.id)) }
    {
        if let Some(breach) = self.receiving_refusal(frame.id) {
            return Err(ReceivedError::Breach(breach));
        }
        let Some(half) = self.receiving.get(frame.id) else {
            return self.received_fresh(frame, pending);
        };
        let end = frame.offset + frame.data.len() as u64;
        if let Some(breach) = self.receiving.breach_on(half, end, frame.fin) {
            return Err(ReceivedError::Breach(breach));
        }
        self.received_used(frame, pending)
    }

    // A reset of a half that is in use is kept, and the application told of the first. An `Err`
    // (want of memory) changes nothing.
    fn keep_reset(&mut self, frame: ResetStream) -> Result<(), AllocError>
        requires { IfSome (at self.old.receiving.halves.live frame.id) (λ h. breach_on self.old.receiving h frame.final_offset true ≡ None) }
        ensures ok { OnOk result (IfSome (at self.old.receiving.halves.live frame.id) (λ h. self.new ≡ noted_on self.old frame.id h (after_reset_stream h frame.error_code frame.final_offset) (not (is_some h.reset)))) }
        ensures err { OnErr result (self.new ≡ self.old) }
        ensures lacking { OnErr result (IfSome (at self.old.receiving.halves.live frame.id) (λ h. (h.stopped || is_some h.reset) ≡ false)) }
    {
        let Some(half) = self.receiving.get(frame.id) else {
            return Ok(());
        };
        let first = !half.reset_code().is_some();
        let tells = first && !(half.is_stopped() || self.opens(frame.id));
        self.tell_readable(tells, frame.id)?;
        self.receiving.reset(frame.id, frame.error_code, frame.final_offset.into_inner());
        Ok(())
    }

    // The same of a half that isn't in use.
    fn keep_fresh_reset(&mut self, frame: ResetStream, half: Recv) -> Result<(), AllocError>
        requires none { at self.old.receiving.halves.live frame.id ≡ None }
        requires fresh { half ≡ new_recv_half (first_window self.old.receiving) }
        requires allowed { breach_on self.old.receiving half frame.final_offset true ≡ None }
        ensures ok { OnOk result (self.new ≡ noted_on self.old frame.id half (after_reset_stream half frame.error_code frame.final_offset) (not (is_some half.reset))) }
        ensures err { OnErr result (self.new ≡ self.old) }
    {
        let mut half = half;
        half.reset(frame.error_code, frame.final_offset.into_inner());
        let tells = !self.opens(frame.id);
        self.tell_readable(tells, frame.id)?;
        if self.receiving.add(self.side, frame.id, half).is_err() {
            self.take_back(tells);
            return Err(AllocError);
        }
        Ok(())
    }

    // A reset that isn't refused comes for a half that is in use.
    fn received_used_reset(
        &mut self,
        frame: ResetStream,
        pending: &mut Retransmits,
    ) -> Result<(), ReceivedError>
        requires used { IsSome (at self.old.receiving.halves.live frame.id) }
        requires allowed { reset_breach self.old (reset_stream_view frame) ≡ None }
        ensures answer { AnswersBreach result (reset_breach self.old (reset_stream_view frame)) }
        ensures new { UnlessMemory result (self.new ≡ (after_reset_frame self.old pending.old (reset_stream_view frame)).state) }
        ensures pending { UnlessMemory result (pending.new ≡ (after_reset_frame self.old pending.old (reset_stream_view frame)).pending) }
        ensures memory { OnMemory result (self.new ≡ self.old) }
        ensures kept { OnMemory result (pending.new ≡ pending.old) }
        ensures lacking { OnMemory result (IfSome (part_for self.old frame.id) (λ h. (h.stopped || is_some h.reset) ≡ false)) }
    {
        let id = frame.id;
        if self.keep_reset(frame).is_err() {
            return Err(ReceivedError::Memory);
        }
        self.settle(id, pending);
        Ok(())
    }

    // A reset that isn't refused by its id comes for a half that isn't in use. This end didn't stop
    // the half, so it isn't over.
    fn received_fresh_reset(
        &mut self,
        frame: ResetStream,
        pending: &mut Retransmits,
    ) -> Result<(), ReceivedError>
        requires none { at self.old.receiving.halves.live frame.id ≡ None }
        requires lawful { receiving_refusal self.old frame.id ≡ None }
        ensures answer { AnswersBreach result (reset_breach self.old (reset_stream_view frame)) }
        ensures new { UnlessMemory result (self.new ≡ (after_reset_frame self.old pending.old (reset_stream_view frame)).state) }
        ensures pending { UnlessMemory result (pending.new ≡ (after_reset_frame self.old pending.old (reset_stream_view frame)).pending) }
        ensures memory { OnMemory result (self.new ≡ self.old) }
        ensures kept { OnMemory result (pending.new ≡ pending.old) }
        ensures lacking { OnMemory result (ResetLacks (reset_breach self.old (reset_stream_view frame)) (part_for self.old frame.id)) }
    {
        let id = frame.id;
        let Some(half) = self.unused_part(id) else {
            return Ok(());
        };
        let size = frame.final_offset.into_inner();
        if let Some(breach) = self.receiving.breach_on(&half, size, true) {
            return Err(ReceivedError::Breach(breach));
        }
        if self.keep_fresh_reset(frame, half).is_err() {
            return Err(ReceivedError::Memory);
        }
        self.open_by(id);
        self.decide(pending);
        Ok(())
    }

    /// Takes RESET_STREAM (RFC 9000, section 19.4): its stream is open then, the final size is
    /// kept, what waits to be read goes unless this end stopped the stream, the application is told
    /// of the first that it may read, and the limits that grew wait to be told.
    ///
    /// # Errors
    ///
    /// - [`ReceivedError::Breach`] with `StreamState`: only this endpoint sends on the stream, or
    ///   it is one of this endpoint that isn't opened. Nothing changes.
    /// - [`ReceivedError::Breach`] with `StreamLimit`: the stream lies beyond the count that the
    ///   peer may open. Nothing changes.
    /// - [`ReceivedError::Breach`] with `FinalSize`: the half isn't done, and the size is another
    ///   than the final size before, or below what arrived. Nothing changes.
    /// - [`ReceivedError::Breach`] with `FlowControl`: the half isn't done, and the size lies
    ///   beyond the limit of the stream or of all streams. Nothing changes.
    /// - [`ReceivedError::Memory`]: an allocation fails, at the first reset of a half that this
    ///   endpoint didn't stop. Nothing changes.
    pub fn received_reset(
        &mut self,
        frame: ResetStream,
        pending: &mut Retransmits,
    ) -> Result<(), ReceivedError>
        ensures answer { AnswersBreach result (reset_breach self.old (reset_stream_view frame)) }
        ensures new { UnlessMemory result (self.new ≡ (after_reset_frame self.old pending.old (reset_stream_view frame)).state) }
        ensures pending { UnlessMemory result (pending.new ≡ (after_reset_frame self.old pending.old (reset_stream_view frame)).pending) }
        ensures memory { OnMemory result (self.new ≡ self.old) }
        ensures kept { OnMemory result (pending.new ≡ pending.old) }
        ensures lacking { OnMemory result (ResetLacks (reset_breach self.old (reset_stream_view frame)) (part_for self.old frame.id)) }
    {
        if let Some(breach) = self.receiving_refusal(frame.id) {
            return Err(ReceivedError::Breach(breach));
        }
        let Some(half) = self.receiving.get(frame.id) else {
            return self.received_fresh_reset(frame, pending);
        };
        let size = frame.final_offset.into_inner();
        if let Some(breach) = self.receiving.breach_on(half, size, true) {
            return Err(ReceivedError::Breach(breach));
        }
        self.received_used_reset(frame, pending)
    }
}
