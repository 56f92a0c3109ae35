//! The STREAM frames that go into a datagram (RFC 9000, sections 2.2, 2.3 and 19.8).
ghost use Rattle.std.specs.Prelude.{◌≡◌, ◌+◌, ◌-◌, ◌<◌, ◌≤◌, ◌++◌, ℕ, length, take, map, IfOk, OnOk, OnErr, IfSome, IsSome, Some, None, vec_len, vec_capacity};
ghost use Rattle.std.specs.Option.{is_some};
ghost use Rattle.quic_wire.specs.Writing.{stream_spelling, width_of};
ghost use Rattle.quic_send_buffer.specs.Buffered.{writes_length};
ghost use Rattle.quic_streams_parts.specs.Table.{at};
ghost use Rattle.quic_streams_parts.specs.SendHalf.{frame_of, meta_of};
ghost use Rattle.quic_streams_halves.specs.Queued.{counting_at};
ghost use Rattle.quic_streams_state.specs.Sends.{sent_in, sent_if_counts_in};
ghost use Rattle.quic_streams_state.specs.Frames.{least_stream_room, stream_frames_in, first_in, going, noted_in};

use crate::state::StreamsState;
use quic_send_buffer::StreamMeta;
use quic_wire_core::{StreamId, VarInt};
use std::alloc::AllocError;

// How many bytes have to be left of a datagram at least, so that a frame of a stream goes: its
// type, and its id, offset and length in eight bytes each.
const LEAST_STREAM_ROOM: usize = 25;

impl StreamsState {
    // The stream that stands first in the queue, where a datagram has enough bytes left for a
    // frame.
    fn next_stream(&self, left: usize) -> Option<StreamId>
        ensures next { result ≡ first_in self.now left }
        ensures room { IsSome result → least_stream_room ≤ left }
    {
        if left < LEAST_STREAM_ROOM {
            return None;
        }
        self.sending.first()
    }

    // Appends the frame of a stream, if it brings a byte or the end, with `max_len` bytes of room
    // behind its type and id, and notes what it carries: whether it did. After an `Err` (want of
    // memory) the frame is taken, and its stream may stand nowhere in the queue.
    fn put_if_counts(
        &mut self,
        id: StreamId,
        fair: bool,
        max_len: usize,
        out: &mut Vec<u8>,
        sent: &mut Vec<StreamMeta>,
    ) -> Result<bool, AllocError>
        requires some { 16 ≤ max_len }
        requires room { vec_len out.old + (1 + width_of id) + max_len ≤ vec_capacity out.old }
        ensures answer { IfOk result (λ went. went ≡ is_some (counting_at (at self.old.sending.halves.live id) max_len)) }
        ensures items { IfSome (counting_at (at self.old.sending.halves.live id) max_len) (λ h. out.new.items ≡ out.old.items ++ stream_spelling (writes_length h.buffer max_len) (frame_of id h max_len)) }
        ensures nothing { counting_at (at self.old.sending.halves.live id) max_len ≡ None → out.new.items ≡ out.old.items }
        ensures len { vec_len out.new ≤ vec_len out.old + (1 + width_of id) + max_len }
        ensures capacity { vec_capacity out.old ≤ vec_capacity out.new }
        ensures state { OnOk result (self.new ≡ record self.old { sending = sent_if_counts_in fair (at self.old.sending.halves.live id) self.old.sending id max_len }) }
        ensures sent { OnOk result (sent.new.items ≡ noted_in (counting_at (at self.old.sending.halves.live id) max_len) id max_len sent.old.items) }
        ensures lacking { OnErr result (IsSome (counting_at (at self.old.sending.halves.live id) max_len)) }
    {
        let Some(frame) = self.sending.put_frame(id, fair, max_len, out)? else {
            return Ok(false);
        };
        sent.push(frame)?;
        Ok(true)
    }

    // Appends the frame that goes next, where so many bytes are left of a datagram, and notes what
    // it carries: of which stream it is. After an `Err` (want of memory) the frame is taken, and
    // its stream may stand nowhere in the queue.
    fn put_next(
        &mut self,
        left: usize,
        fair: bool,
        out: &mut Vec<u8>,
        sent: &mut Vec<StreamMeta>,
    ) -> Result<Option<StreamId>, AllocError>
        requires room { vec_len out.old + left ≤ vec_capacity out.old }
        ensures answer { IfOk result (λ id. id ≡ going self.old left) }
        ensures items { (id : ℕ) → going self.old left ≡ Some id → IfSome (at self.old.sending.halves.live id) (λ h. out.new.items ≡ out.old.items ++ stream_spelling (writes_length h.buffer (left - (1 + width_of id))) (frame_of id h (left - (1 + width_of id)))) }
        ensures nothing { going self.old left ≡ None → out.new.items ≡ out.old.items }
        ensures len { vec_len out.new ≤ vec_len out.old + left }
        ensures capacity { vec_capacity out.old ≤ vec_capacity out.new }
        ensures state { OnOk result ((id : ℕ) → going self.old left ≡ Some id → self.new ≡ record self.old { sending = sent_in fair (at self.old.sending.halves.live id) self.old.sending id (left - (1 + width_of id)) }) }
        ensures sent { OnOk result ((id : ℕ) → going self.old left ≡ Some id → sent.new.items ≡ noted_in (at self.old.sending.halves.live id) id (left - (1 + width_of id)) sent.old.items) }
        ensures same { OnOk result (going self.old left ≡ None → self.new ≡ self.old) }
        ensures kept { OnOk result (going self.old left ≡ None → sent.new.items ≡ sent.old.items) }
        ensures lacking { OnErr result (IsSome (going self.old left)) }
    {
        let Some(id) = self.next_stream(left) else {
            return Ok(None);
        };
        let room = left - (1 + VarInt::from(id).size());
        if self.put_if_counts(id, fair, room, out, sent)? {
            return Ok(Some(id));
        }
        Ok(None)
    }

    /// Appends STREAM frames of the streams with something to send, so that `out` has at most
    /// `max_size` bytes; memory for these is there. The highest priority goes first, and equal ones
    /// in the order in which they were queued; where streams take turns (`fair`), one of which a
    /// frame went goes behind its equals (RFC 9000, section 2.3). None goes where fewer than 25
    /// bytes are left, and none any more where the next would bring neither a byte nor the end.
    /// What each carries stands in `sent`, behind what stood there (quinn-proto's
    /// `StreamsState::write_stream_frames`).
    ///
    /// # Errors
    ///
    /// - [`AllocError`]: an allocation fails, of room to queue a stream of which a frame went, or
    ///   to note what it carries. What stood in `out` stands there yet, behind which some of the
    ///   frames may be; the stream may stand nowhere in the queue, and nothing is promised of the
    ///   rest, so that the connection has to fail.
    pub fn write_stream_frames(
        &mut self,
        out: &mut Vec<u8>,
        max_size: usize,
        fair: bool,
        sent: &mut Vec<StreamMeta>,
    ) -> Result<(), AllocError>
        requires within { vec_len out.old ≤ max_size }
        requires room { max_size ≤ vec_capacity out.old }
        ensures items { OnOk result (out.new.items ≡ out.old.items ++ (stream_frames_in fair (max_size - vec_len out.old) self.old).bytes) }
        ensures state { OnOk result (self.new ≡ (stream_frames_in fair (max_size - vec_len out.old) self.old).state) }
        ensures sent { OnOk result (sent.new.items ≡ sent.old.items ++ map meta_of (stream_frames_in fair (max_size - vec_len out.old) self.old).frames) }
        ensures lacking { OnErr result (0 < length (stream_frames_in fair (max_size - vec_len out.old) self.old).frames) }
        ensures begins { take (vec_len out.old) out.new.items ≡ out.old.items }
        ensures stays { vec_len out.new ≤ max_size }
        ensures capacity { vec_capacity out.old ≤ vec_capacity out.new }
    {
        'frames: while let Some(_) = self.put_next(max_size - out.len(), fair, out, sent)? {}
        Ok(())
    }
}
