//! The STREAM frames of what is sent.
ghost use Rattle.std.specs.Prelude.{◌≡◌, ◌+◌, ◌≤◌, ◌++◌, OnOk, OnErr, IsSome, IfOk, IfSome, None, vec_len, vec_capacity};
ghost use Rattle.std.specs.Option.{option_map};
ghost use Rattle.quic_wire.specs.Writing.{stream_spelling, width_of};
ghost use Rattle.quic_send_buffer.specs.Buffered.{writes_length};
ghost use Rattle.quic_streams_parts.specs.Table.{at};
ghost use Rattle.quic_streams_parts.specs.SendHalf.{frame_of, meta_of};
ghost use Rattle.quic_streams_halves.specs.Queued.{counting_at};
ghost use Rattle.quic_streams_state.specs.Sends.{sent_if_counts_in};

use super::Sending;
use quic_send_buffer::StreamMeta;
use quic_wire_core::StreamId;
use std::alloc::AllocError;

impl Sending {
    /// Appends the next frame of a half in use, if it brings a byte or the end, with `max_len`
    /// bytes of room, 16 at least, behind its type and id, and takes it: what it carries. Where
    /// streams take turns (`fair`) the half goes behind its equals. After an `Err` (want of memory)
    /// the frame is taken, and its half may stand nowhere in the queue.
    pub(crate) fn put_frame(
        &mut self,
        id: StreamId,
        fair: bool,
        max_len: usize,
        out: &mut Vec<u8>,
    ) -> Result<Option<StreamMeta>, AllocError>
        requires some { 16 ≤ max_len }
        requires room { vec_len out.old + (1 + width_of id) + max_len ≤ vec_capacity out.old }
        ensures items { IfSome (counting_at (at self.old.halves.live id) max_len) (λ h. out.new.items ≡ out.old.items ++ stream_spelling (writes_length h.buffer max_len) (frame_of id h max_len)) }
        ensures nothing { counting_at (at self.old.halves.live id) max_len ≡ None → out.new.items ≡ out.old.items }
        ensures len { vec_len out.new ≤ vec_len out.old + (1 + width_of id) + max_len }
        ensures capacity { vec_capacity out.old ≤ vec_capacity out.new }
        ensures new { OnOk result (self.new ≡ sent_if_counts_in fair (at self.old.halves.live id) self.old id max_len) }
        ensures lacking { OnErr result (IsSome (counting_at (at self.old.halves.live id) max_len)) }
        ensures meta { IfOk result (λ meta. meta ≡ option_map (λ h. meta_of (frame_of id h max_len)) (counting_at (at self.old.halves.live id) max_len)) }
    {
        self.send
            .put_frame(id, fair, max_len, out, &mut self.pending)
    }
}
