//! What the peer is told of limits that are used up.
ghost use Rattle.std.specs.Prelude.{◌≡◌};
ghost use Rattle.quic_streams_state.specs.Control.{blocked_told, blocked_told_on};

use super::Sending;
use quic_wire_core::StreamId;

impl Sending {
    /// The peer is told that this limit on all streams is used up.
    pub(crate) fn tell_data_blocked(&mut self, limit: u64)
        ensures { self.new ≡ blocked_told self.old limit }
    {
        self.said_limit = Some(limit);
    }

    /// The peer is told that this limit on a stream is used up, whose sending half may be in use.
    pub(crate) fn tell_stream_data_blocked(&mut self, id: StreamId, limit: u64)
        ensures { self.new ≡ blocked_told_on self.old id limit }
    {
        self.send.set_said_limit(id, limit);
    }
}
