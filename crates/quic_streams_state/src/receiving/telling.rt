//! What the peer is told of how far it may come.
ghost use Rattle.std.specs.Prelude.{◌≡◌, ◌≤◌};
ghost use Rattle.quic_streams_parts.specs.RecvHalf.{greatest_offset};
ghost use Rattle.quic_streams_state.specs.Control.{data_told, limit_told};

use crate::receiving::Receiving;
use quic_wire_core::StreamId;

impl Receiving {
    /// How many bytes more than were read may come on one stream.
    pub(crate) fn stream_window(&self) -> u64
        ensures value { result ≡ self.now.stream_window }
        ensures small { result ≤ greatest_offset }
    {
        self.stream_receive_window
    }

    /// The peer is told how far it may come on a stream now, if its receiving half is in use.
    pub(crate) fn tell_max_stream_data(&mut self, id: StreamId)
        ensures { self.new ≡ limit_told self.old id }
    {
        let window = self.stream_receive_window;
        let Some(half) = self.recv.get(id) else {
            return;
        };
        let max_data = half.max_stream_data(window);
        self.recv.set_max_data(id, max_data);
    }

    /// The peer is told how far it may come on all streams now.
    pub(crate) fn tell_max_data(&mut self)
        ensures { self.new ≡ data_told self.old }
    {
        self.sent_max_data = self.max_data();
    }
}
