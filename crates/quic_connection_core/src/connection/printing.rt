//! How an endpoint is printed, for whoever looks for a fault.

use crate::connection::Connection;
use quic_congestion::Controller;
use quic_machine::LostReason;
use std::fmt::{self, Debug, Formatter};

/// Why an endpoint is lost, in words, with the code and the text where there are some.
#[derive(Clone, Copy)]
struct Lost<'a>(Option<&'a LostReason>);

impl Debug for Lost<'_> {
    fn fmt<W: fmt::Write>(&self, f: &mut Formatter<W>) -> fmt::Result {
        match self.0 {
            Some(reason) => write!(f, "{reason}"),
            None => f.write_str("no"),
        }
    }
}

/// Its side and its state, why it isn't open, where its peer is, and how many datagrams and packets
/// were counted: neither keys nor what was written.
impl<H, K, R, C: Controller> Debug for Connection<H, K, R, C> {
    fn fmt<W: fmt::Write>(&self, f: &mut Formatter<W>) -> fmt::Result {
        f.debug_struct("Connection")
            .field("side", &self.streams.state.side())
            .field("state", &self.closing.state())
            .field("lost", &Lost(self.closing.reason()))
            .field("remote", &self.path.remote)
            .field("validated", &self.path.validated)
            .field("handshake_confirmed", &self.handshake_confirmed)
            .field("own_ids", &self.ids.own_ids().len())
            .field("udp_tx_datagrams", &self.stats.udp_tx.datagrams)
            .field("udp_rx_datagrams", &self.stats.udp_rx.datagrams)
            .field("sent_packets", &self.stats.path.sent_packets)
            .field("lost_packets", &self.stats.path.lost_packets)
            .finish()
    }
}
