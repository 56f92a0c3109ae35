//! What limits, acknowledgements and losses change of what is sent.
ghost use Rattle.std.specs.Prelude.{◌≡◌, IfOk, OnOk, OnErr, IsSomeAnd, None};
ghost use Rattle.quic_streams_parts.specs.Table.{at};
ghost use Rattle.quic_streams_halves.specs.Halves.{changed};
ghost use Rattle.quic_streams_halves.specs.Queued.{is_ended_at};
ghost use Rattle.quic_streams_state.specs.Sends.{acked_in, acked_if_ready_in, lost_in, removed_in};
ghost use Rattle.quic_streams_state.specs.SendLacking.{FrameMayLack};

use super::Sending;
use quic_send_buffer::StreamMeta;
use quic_wire_core::{StreamId, VarInt};
use std::alloc::AllocError;

impl Sending {
    /// Sets how far the peer lets a half come that is in use.
    pub(crate) fn set_max_data(&mut self, id: StreamId, max_data: VarInt)
        ensures { self.new ≡ record self.old { halves = changed (λ h. record h { limit = max_data }) self.old.halves id } }
    {
        self.send.set_max_data(id, max_data);
    }

    /// Nothing is left to do on a half, which gives up its place in the queue.
    pub(crate) fn remove(&mut self, id: StreamId)
        ensures { self.new ≡ removed_in (at self.old.halves.live id) self.old id }
    {
        let place = match self.send.get(id) {
            Some(half) => half.place(),
            None => None,
        };
        if let Some(place) = place {
            self.pending.remove(place);
        }
        self.send.remove(id);
    }

    /// A frame of a half that is in use was acknowledged. An `Err` (want of memory) changes
    /// nothing.
    pub(crate) fn ack(&mut self, frame: &StreamMeta) -> Result<(), AllocError>
        ensures ok { OnOk result (self.new ≡ acked_in (at self.old.halves.live frame.now.id) self.old frame.now) }
        ensures err { OnErr result (self.new ≡ self.old) }
        ensures lacking { OnErr result (IsSomeAnd (at self.old.halves.live frame.now.id) (FrameMayLack frame.now)) }
    {
        self.send.ack(frame, &mut self.pending)
    }

    /// Like `ack`, but does nothing if the half was finished or reset. Returns whether it is in
    /// use, finished and not reset. An `Err` (out of memory) changes nothing.
    pub(crate) fn ack_if_ready(&mut self, frame: &StreamMeta) -> Result<bool, AllocError>
        ensures answer { IfOk result (λ ended. ended ≡ is_ended_at (at self.old.halves.live frame.now.id)) }
        ensures ok { OnOk result (self.new ≡ acked_if_ready_in (at self.old.halves.live frame.now.id) self.old frame.now) }
        ensures err { OnErr result (self.new ≡ self.old) }
        ensures lacking { OnErr result (IsSomeAnd (at self.old.halves.live frame.now.id) (λ h. (h.reset ≡ None) × FrameMayLack frame.now h)) }
    {
        self.send.ack_if_ready(frame, &mut self.pending)
    }

    /// A frame of a half that is in use was lost: what isn't acknowledged of it goes again. An
    /// `Err` (want of memory) changes nothing.
    pub(crate) fn retransmit(&mut self, frame: &StreamMeta) -> Result<(), AllocError>
        ensures ok { OnOk result (self.new ≡ lost_in (at self.old.halves.live frame.now.id) self.old frame.now) }
        ensures err { OnErr result (self.new ≡ self.old) }
        ensures lacking { OnErr result (IsSomeAnd (at self.old.halves.live frame.now.id) (FrameMayLack frame.now)) }
    {
        self.send.retransmit(frame, &mut self.pending)
    }
}
