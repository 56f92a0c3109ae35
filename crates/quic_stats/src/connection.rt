//! Statistics of a connection.

use crate::drops::DropStats;
use crate::frames::FrameStats;
use crate::path::PathStats;
use crate::udp::UdpStats;

/// A connection (quinn-proto's `ConnectionStats`).
#[derive(Clone, Copy, Debug, Default, PartialEq, Eq)]
pub struct ConnectionStats {
    /// The datagrams that were sent.
    pub udp_tx: UdpStats,
    /// The datagrams that came.
    pub udp_rx: UdpStats,
    /// The frames that were sent.
    pub frame_tx: FrameStats,
    /// The frames that came.
    pub frame_rx: FrameStats,
    /// The path.
    pub path: PathStats,
    /// The datagrams that came and were dropped, which quinn-proto doesn't count.
    pub dropped: DropStats,
}
