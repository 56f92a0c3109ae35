//! What is counted of a connection.
ghost use Rattle.std.specs.Prelude.{◌≡◌};
ghost use Rattle.quic_time.specs.Rtt.{best_rtt};
ghost use Rattle.quic_machine.specs.Parts.{current_mtu};

use crate::connection::Connection;
use quic_congestion::Controller;
use quic_connection_parts::statistics::{count, count_drop};
use quic_machine::Received;
use quic_stats::ConnectionStats;
use quic_wire::frame::Frame;

impl<H, K, R, C: Controller> Connection<H, K, R, C> {
    /// The endpoint's counters since it was made, and what it knows of its path (quinn-proto's
    /// `Connection::stats`). Each counter stays at the greatest number of its type.
    pub fn stats(&self) -> ConnectionStats
        ensures rtt { result.path.rtt ≡ best_rtt self.now.end.path.rtt }
        ensures min_rtt { result.path.min_rtt ≡ self.now.end.path.rtt.least }
        ensures size { result.path.current_mtu ≡ current_mtu self.now.end.path }
        ensures window { result.path.cwnd ≡ C.window_of self.now.control }
    {
        let mut stats = self.stats;
        stats.path.rtt = self.path.rtt.get();
        stats.path.min_rtt = self.path.rtt.min();
        stats.path.cwnd = self.path.congestion.window();
        stats.path.current_mtu = self.path.current_mtu();
        stats
    }

    /// Counts a datagram with this answer as dropped, if it was.
    pub(crate) fn count_drop(&mut self, received: &Received)
        ensures { self.new ≡ self.old }
    {
        if let Received::Dropped(reason) = received {
            count_drop(&mut self.stats.dropped, *reason);
        }
    }

    /// Counts a frame that came.
    pub(crate) fn count_frame(&mut self, frame: &Frame<'_>)
        ensures { self.new ≡ self.old }
    {
        self.stats.frame_rx.record(frame);
    }

    /// Counts a packet of so many bytes as sent.
    pub(crate) fn count_sent(&mut self, size: u16)
        ensures { self.new ≡ self.old }
    {
        self.stats.udp_tx.on_datagram(usize::from(size));
        count(&mut self.stats.path.sent_packets);
    }
}
