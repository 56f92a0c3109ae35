//! The control frames that go into a datagram: those about streams, but for STREAM, those about
//! connection ids, and HANDSHAKE_DONE (RFC 9000, sections 13.3 and 19).
ghost use Rattle.std.specs.Prelude.{◌≡◌, ◌<◌, ◌≤◌, ◌++◌, length, take, Some, IfSome, OnOk, OnErr, vec_len, vec_capacity};
ghost use Rattle.std.specs.List.{fold};
ghost use Rattle.std.specs.Option.{option_map};
ghost use Rattle.quic_wire.specs.FrameView.{frame_view, new_connection_id_view};
ghost use Rattle.quic_wire.specs.Writing.{Fits, spelled_all};
ghost use Rattle.quic_retransmits.specs.Retransmits.{is_any, CanBeTold};
ghost use Rattle.quic_wire.specs.Value.{new_connection_id};
ghost use Rattle.quic_streams_state.specs.declared.state.StreamsState.{StreamsState as State};
ghost use Rattle.quic_streams_state.specs.Control.{waiting, without_first, frame_of_first, frame_told, and_again, flagged, done_entry, reset_entry, data_entry, limit_entry, count_entry, blocked_entry, stream_blocked_entry, told_id, issued_in, no_frames, with_kind, control_frames};

use crate::state::StreamsState;
use quic_retransmits::{CONTROL_KINDS, ControlKind, LimitQueries, Retransmits};
use quic_wire::frame::{
    Ack, Frame, NewConnectionId, ResetStream, Stream, put_frame, size_of_frame,
};
use quic_wire_core::{Dir, IssuedCid, StreamId, VarInt};
use std::alloc::AllocError;

// Whether something of a kind waits.
fn is_waiting(kind: ControlKind, pending: &Retransmits) -> bool
    ensures { result ≡ is_any (waiting kind pending.now) }
{
    match kind {
        ControlKind::HandshakeDone => pending.handshake_done(),
        ControlKind::ResetStream => pending.first_reset_stream().is_some(),
        ControlKind::StopSending => pending.first_stop_sending().is_some(),
        ControlKind::MaxData => pending.max_data(),
        ControlKind::MaxStreamData => pending.first_max_stream_data().is_some(),
        ControlKind::MaxStreams(dir) => pending.max_stream_id(dir),
        ControlKind::DataBlocked => pending.data_blocked(),
        ControlKind::StreamDataBlocked => pending.first_stream_data_blocked().is_some(),
        ControlKind::NewConnectionId => pending.first_new_cid().is_some(),
        ControlKind::RetireConnectionId => pending.first_retire_cid().is_some(),
    }
}

// The first of a kind waits no more.
fn drop_first(kind: ControlKind, pending: &mut Retransmits)
    ensures { pending.new ≡ without_first kind pending.old }
{
    match kind {
        ControlKind::HandshakeDone => pending.set_handshake_done(false),
        ControlKind::ResetStream => {
            let _ = pending.pop_reset_stream();
        }
        ControlKind::StopSending => {
            let _ = pending.pop_stop_sending();
        }
        ControlKind::MaxData => pending.set_max_data(false),
        ControlKind::MaxStreamData => {
            let _ = pending.pop_max_stream_data();
        }
        ControlKind::MaxStreams(dir) => pending.set_max_stream_id(dir, false),
        ControlKind::DataBlocked => pending.set_data_blocked(false),
        ControlKind::StreamDataBlocked => {
            let _ = pending.pop_stream_data_blocked();
        }
        ControlKind::NewConnectionId => {
            let _ = pending.pop_new_cid();
        }
        ControlKind::RetireConnectionId => {
            let _ = pending.pop_retire_cid();
        }
    }
}

// The id that NEW_CONNECTION_ID gives.
fn issued(frame: &NewConnectionId) -> IssuedCid
    ensures { result ≡ issued_in (new_connection_id_view frame.now) }
{
    IssuedCid {
        sequence: frame.sequence,
        id: frame.id,
        reset_token: frame.reset_token,
    }
}

// NEW_CONNECTION_ID of an id, which asks for none to be retired.
fn new_id_frame(cid: IssuedCid) -> Frame<'static>
    requires { CanBeTold cid }
    ensures frame { frame_view result ≡ new_connection_id (told_id cid) }
    ensures fits { Fits (frame_view result) }
{
    Frame::NewConnectionId(NewConnectionId {
        sequence: cid.sequence,
        retire_prior_to: 0,
        id: cid.id,
        reset_token: cid.reset_token,
    })
}

// HANDSHAKE_DONE, where it waits.
fn done_frame(pending: &Retransmits) -> Option<Frame<'static>>
    ensures frame { (s : State) → option_map frame_view result ≡ frame_of_first (flagged pending.now.handshake_done done_entry) s }
    ensures fits { IfSome result (λ f. Fits (frame_view f)) }
{
    if pending.handshake_done() {
        Some(Frame::HandshakeDone)
    } else {
        None
    }
}

// A datagram carries a frame. An `Err` (want of memory) changes nothing.
fn note(frame: &Frame<'_>, sent: &mut Retransmits) -> Result<(), AllocError>
    requires { Fits (frame_view frame.now) }
    ensures ok { OnOk result (sent.new ≡ and_again sent.old (frame_view frame.now)) }
    ensures err { OnErr result (sent.new ≡ sent.old) }
{
    match frame {
        Frame::HandshakeDone => sent.set_handshake_done(true),
        Frame::ResetStream(reset) => sent.push_reset_stream(reset.id, reset.error_code)?,
        Frame::StopSending(stop) => sent.push_stop_sending(*stop)?,
        Frame::MaxData(_) => sent.set_max_data(true),
        Frame::MaxStreamData { id, .. } => {
            sent.insert_max_stream_data(*id)?;
        }
        Frame::MaxStreams { dir, .. } => sent.set_max_stream_id(*dir, true),
        Frame::DataBlocked { .. } => sent.set_data_blocked(true),
        Frame::StreamDataBlocked { id, .. } => {
            sent.insert_stream_data_blocked(*id)?;
        }
        Frame::NewConnectionId(frame) => sent.push_new_cid(issued(frame))?,
        Frame::RetireConnectionId { sequence } => sent.push_retire_cid(*sequence)?,
        _ => {}
    }
    Ok(())
}

impl LimitQueries for StreamsState {
    ghost use Rattle.quic_streams_state.specs.Control.{may_go, may_go_on};

    ghost gate = { may_go };

    ghost gate_on = { may_go_on };

    fn counts(&self, kind: ControlKind) -> bool {
        match kind {
            ControlKind::DataBlocked => self.can_send_data_blocked(),
            _ => true,
        }
    }

    fn counts_on(&self, kind: ControlKind, id: StreamId) -> bool {
        match kind {
            ControlKind::MaxStreamData => self.can_send_flow_control(id),
            ControlKind::StreamDataBlocked => self.stream_data_blocked_limit(id).is_some(),
            _ => true,
        }
    }
}

impl StreamsState {
    // RESET_STREAM of a stream, with a code; none where its sending half wasn't reset, or is done.
    fn reset_frame(&self, id: StreamId, code: VarInt) -> Option<Frame<'static>>
        ensures frame { option_map frame_view result ≡ (reset_entry (id, code)).frame self.now }
        ensures fits { IfSome result (λ f. Fits (frame_view f)) }
    {
        let half = self.sending.get(id)?;
        let _size = half.reset_size()?;
        Some(Frame::ResetStream(ResetStream {
            id,
            error_code: code,
            final_offset: VarInt::from_u64_unchecked(half.offset()),
        }))
    }

    // MAX_DATA: how far the peer may come now.
    fn data_frame(&self) -> Frame<'static>
        ensures frame { Some (frame_view result) ≡ data_entry.frame self.now }
        ensures fits { Fits (frame_view result) }
    {
        Frame::MaxData(VarInt::from_u64_unchecked(self.receiving.max_data()))
    }

    // MAX_STREAM_DATA of a stream: how far the peer may come on it now; none where it takes no more
    // limits.
    fn limit_frame(&self, id: StreamId) -> Option<Frame<'static>>
        ensures frame { option_map frame_view result ≡ (limit_entry id).frame self.now }
        ensures fits { IfSome result (λ f. Fits (frame_view f)) }
    {
        let half = self.receiving.get(id)?;
        if !half.can_send_flow_control() {
            return None;
        }
        let offset = half.max_stream_data(self.receiving.stream_window());
        Some(Frame::MaxStreamData { id, offset })
    }

    // MAX_STREAMS: how many streams of a kind the peer may open now.
    fn count_frame(&self, dir: Dir) -> Frame<'static>
        ensures frame { Some (frame_view result) ≡ (count_entry dir).frame self.now }
        ensures fits { Fits (frame_view result) }
    {
        let count = self.opening.max_remote(dir);
        Frame::MaxStreams { dir, count }
    }

    // DATA_BLOCKED; none where the peer's limit isn't used up.
    fn blocked_frame(&self) -> Option<Frame<'static>>
        ensures frame { option_map frame_view result ≡ blocked_entry.frame self.now }
        ensures fits { IfSome result (λ f. Fits (frame_view f)) }
    {
        if !self.can_send_data_blocked() {
            return None;
        }
        let offset = self.sending.max_data().into_inner();
        Some(Frame::DataBlocked { offset })
    }

    // STREAM_DATA_BLOCKED of a stream; none where its limit isn't used up.
    fn stream_blocked_frame(&self, id: StreamId) -> Option<Frame<'static>>
        ensures frame { option_map frame_view result ≡ (stream_blocked_entry id).frame self.now }
        ensures fits { IfSome result (λ f. Fits (frame_view f)) }
    {
        let offset = self.stream_data_blocked_limit(id)?;
        Some(Frame::StreamDataBlocked { id, offset })
    }

    // The frame of the first that waits of a kind; none where nothing waits, or that is no longer
    // due.
    fn first_frame(&self, kind: ControlKind, pending: &Retransmits) -> Option<Frame<'static>>
        ensures frame { option_map frame_view result ≡ frame_of_first (waiting kind pending.now) self.now }
        ensures fits { IfSome result (λ f. Fits (frame_view f)) }
    {
        match kind {
            ControlKind::HandshakeDone => done_frame(pending),
            ControlKind::ResetStream => {
                let (id, code) = pending.first_reset_stream()?;
                self.reset_frame(id, code)
            }
            ControlKind::StopSending => {
                let stop = pending.first_stop_sending()?;
                Some(Frame::StopSending(stop))
            }
            ControlKind::MaxData => {
                if !pending.max_data() {
                    return None;
                }
                Some(self.data_frame())
            }
            ControlKind::MaxStreamData => self.limit_frame(pending.first_max_stream_data()?),
            ControlKind::MaxStreams(dir) => {
                if !pending.max_stream_id(dir) {
                    return None;
                }
                Some(self.count_frame(dir))
            }
            ControlKind::DataBlocked => {
                if !pending.data_blocked() {
                    return None;
                }
                self.blocked_frame()
            }
            ControlKind::StreamDataBlocked => {
                self.stream_blocked_frame(pending.first_stream_data_blocked()?)
            }
            ControlKind::NewConnectionId => Some(new_id_frame(pending.first_new_cid()?)),
            ControlKind::RetireConnectionId => {
                let sequence = pending.first_retire_cid()?;
                Some(Frame::RetireConnectionId { sequence })
            }
        }
    }

    // A frame goes: the peer is told a limit, or that one is used up, if it says so.
    fn tell(&mut self, frame: &Frame<'_>)
        ensures { self.new ≡ frame_told (frame_view frame.now) self.old }
    {
        match frame {
            Frame::MaxData(_) => self.receiving.tell_max_data(),
            Frame::MaxStreamData { id, .. } => self.receiving.tell_max_stream_data(*id),
            Frame::MaxStreams { dir, .. } => self.opening.set_sent_max_remote(*dir),
            Frame::DataBlocked { offset } => self.sending.tell_data_blocked(*offset),
            Frame::StreamDataBlocked { id, offset } => {
                self.sending.tell_stream_data_blocked(*id, *offset);
            }
            _ => {}
        }
    }

    // Appends the frames of a kind that are due and fit. An `Err` is want of memory: what was in
    // the buffer stands there yet.
    fn write_kind(
        &mut self,
        kind: ControlKind,
        out: &mut Vec<u8>,
        max_size: usize,
        pending: &mut Retransmits,
        sent: &mut Retransmits,
    ) -> Result<(), AllocError>
        requires within { vec_len out.old ≤ max_size }
        requires room { max_size ≤ vec_capacity out.old }
        ensures items { OnOk result (out.new.items ≡ out.old.items ++ spelled_all (with_kind max_size (no_frames (vec_len out.old) self.old pending.old sent.old) kind).frames) }
        ensures used { OnOk result (vec_len out.new ≡ (with_kind max_size (no_frames (vec_len out.old) self.old pending.old sent.old) kind).used) }
        ensures state { OnOk result (self.new ≡ (with_kind max_size (no_frames (vec_len out.old) self.old pending.old sent.old) kind).state) }
        ensures pending { OnOk result (pending.new ≡ (with_kind max_size (no_frames (vec_len out.old) self.old pending.old sent.old) kind).pending) }
        ensures sent { OnOk result (sent.new ≡ (with_kind max_size (no_frames (vec_len out.old) self.old pending.old sent.old) kind).sent) }
        ensures lacking { OnErr result (0 < length (with_kind max_size (no_frames (vec_len out.old) self.old pending.old sent.old) kind).frames) }
        ensures begins { take (vec_len out.old) out.new.items ≡ out.old.items }
        ensures grows { vec_len out.old ≤ vec_len out.new }
        ensures stays { vec_len out.new ≤ max_size }
        ensures capacity { vec_capacity out.old ≤ vec_capacity out.new }
    {
        let _: Option<(Stream<'_>, Ack<'_>)> = None;
        'waiting: while is_waiting(kind, pending) {
            let Some(frame) = self.first_frame(kind, pending) else {
                drop_first(kind, pending);
                continue;
            };
            if max_size - out.len() < size_of_frame(&frame) {
                break;
            }
            note(&frame, sent)?;
            put_frame(out, &frame);
            self.tell(&frame);
            drop_first(kind, pending);
        }
        Ok(())
    }

    // The same of several kinds, one behind another.
    fn write_kinds(
        &mut self,
        kinds: &[ControlKind],
        out: &mut Vec<u8>,
        max_size: usize,
        pending: &mut Retransmits,
        sent: &mut Retransmits,
    ) -> Result<(), AllocError>
        requires within { vec_len out.old ≤ max_size }
        requires room { max_size ≤ vec_capacity out.old }
        ensures items { OnOk result (out.new.items ≡ out.old.items ++ spelled_all (fold (with_kind max_size) (no_frames (vec_len out.old) self.old pending.old sent.old) kinds.now).frames) }
        ensures state { OnOk result (self.new ≡ (fold (with_kind max_size) (no_frames (vec_len out.old) self.old pending.old sent.old) kinds.now).state) }
        ensures pending { OnOk result (pending.new ≡ (fold (with_kind max_size) (no_frames (vec_len out.old) self.old pending.old sent.old) kinds.now).pending) }
        ensures sent { OnOk result (sent.new ≡ (fold (with_kind max_size) (no_frames (vec_len out.old) self.old pending.old sent.old) kinds.now).sent) }
        ensures lacking { OnErr result (0 < length (fold (with_kind max_size) (no_frames (vec_len out.old) self.old pending.old sent.old) kinds.now).frames) }
        ensures begins { take (vec_len out.old) out.new.items ≡ out.old.items }
        ensures stays { vec_len out.new ≤ max_size }
        ensures capacity { vec_capacity out.old ≤ vec_capacity out.new }
    {
        'kinds: for kind in kinds {
            self.write_kind(*kind, out, max_size, pending, sent)?;
        }
        Ok(())
    }

    /// Appends the control frames that are due and fit, so that `out` has at most `max_size` bytes;
    /// memory for these is there. They go in the order of HANDSHAKE_DONE, RESET_STREAM,
    /// STOP_SENDING, MAX_DATA, MAX_STREAM_DATA, MAX_STREAMS (two-way, one-way), DATA_BLOCKED,
    /// STREAM_DATA_BLOCKED, NEW_CONNECTION_ID and RETIRE_CONNECTION_ID (RFC 9000, section 19), no
    /// longer wait in `pending`, and stand in `sent`, which has to go again if the datagram is lost
    /// (section 13.3; quinn-proto's `write_control_frames`).
    ///
    /// # Errors
    ///
    /// - [`AllocError`]: an allocation fails, of room to note a frame that fits. What stood in
    ///   `out` stands there yet, behind which some of the frames may be; nothing is promised of the
    ///   rest, so that the connection has to fail.
    pub fn write_control_frames(
        &mut self,
        out: &mut Vec<u8>,
        max_size: usize,
        pending: &mut Retransmits,
        sent: &mut Retransmits,
    ) -> Result<(), AllocError>
        requires within { vec_len out.old ≤ max_size }
        requires room { max_size ≤ vec_capacity out.old }
        ensures items { OnOk result (out.new.items ≡ out.old.items ++ spelled_all (control_frames max_size (vec_len out.old) self.old pending.old sent.old).frames) }
        ensures state { OnOk result (self.new ≡ (control_frames max_size (vec_len out.old) self.old pending.old sent.old).state) }
        ensures pending { OnOk result (pending.new ≡ (control_frames max_size (vec_len out.old) self.old pending.old sent.old).pending) }
        ensures sent { OnOk result (sent.new ≡ (control_frames max_size (vec_len out.old) self.old pending.old sent.old).sent) }
        ensures lacking { OnErr result (0 < length (control_frames max_size (vec_len out.old) self.old pending.old sent.old).frames) }
        ensures begins { take (vec_len out.old) out.new.items ≡ out.old.items }
        ensures stays { vec_len out.new ≤ max_size }
        ensures capacity { vec_capacity out.old ≤ vec_capacity out.new }
    {
        self.write_kinds(&CONTROL_KINDS, out, max_size, pending, sent)
    }
}
