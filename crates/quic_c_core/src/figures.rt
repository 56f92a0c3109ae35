//! What was counted of an endpoint, as numbers.

use quic_connection::{ConnectionStats, DropStats, PathStats};

/// How many bytes [`Stats`] have.
pub const STATS_SIZE: u64 = 200;

/// What was counted of an endpoint, and what it knows of its path: `fh_stats` of the header.
#[derive(Clone, Copy, Debug, Default, PartialEq, Eq)]
#[repr(C)]
pub struct Stats {
    /// The datagrams that were sent and came.
    pub udp: UdpFigures,
    /// The path.
    pub path: PathFigures,
    /// The datagrams that were dropped, by reason.
    pub dropped: DropFigures,
}

/// The datagrams that were sent and came.
#[derive(Clone, Copy, Debug, Default, PartialEq, Eq)]
#[repr(C)]
pub struct UdpFigures {
    /// Datagrams sent.
    pub tx_datagrams: u64,
    /// Their bytes.
    pub tx_bytes: u64,
    /// Datagrams that came.
    pub rx_datagrams: u64,
    /// Their bytes.
    pub rx_bytes: u64,
}

/// What is known of the path.
#[derive(Clone, Copy, Debug, Default, PartialEq, Eq)]
#[repr(C)]
pub struct PathFigures {
    /// The smoothed round-trip time, in nanoseconds.
    pub rtt: u64,
    /// The least sample, in nanoseconds.
    pub min_rtt: u64,
    /// The congestion window, in bytes.
    pub cwnd: u64,
    /// The bytes that a datagram has at most, but for an MTU probe.
    pub current_mtu: u64,
    /// Packets sent.
    pub sent_packets: u64,
    /// Packets lost.
    pub lost_packets: u64,
    /// Their bytes.
    pub lost_bytes: u64,
    /// How often the congestion controller was told of congestion.
    pub congestion_events: u64,
    /// MTU probes sent.
    pub sent_plpmtud_probes: u64,
    /// MTU probes lost.
    pub lost_plpmtud_probes: u64,
    /// Black holes found.
    pub black_holes_detected: u64,
}

/// The datagrams that were dropped, by reason.
#[derive(Clone, Copy, Debug, Default, PartialEq, Eq)]
#[repr(C)]
pub struct DropFigures {
    /// Those that are too short.
    pub too_short: u64,
    /// Those with a long header.
    pub not_short: u64,
    /// Those whose fixed bit is 0.
    pub fixed_bit: u64,
    /// Those for a connection ID that isn't in use.
    pub unknown_id: u64,
    /// Those that the key refuses.
    pub not_opened: u64,
    /// Those of another key phase.
    pub key_phase: u64,
    /// Those whose packet number came before.
    pub duplicate: u64,
    /// Those that opened while the endpoint was closing.
    pub closing: u64,
    /// Those that came while it was drained.
    pub drained: u64,
    /// Those that came when an allocation had failed.
    pub failed: u64,
}

/// The datagrams that were sent and came.
fn udp_figures(stats: &ConnectionStats) -> UdpFigures {
    UdpFigures {
        tx_datagrams: stats.udp_tx.datagrams,
        tx_bytes: stats.udp_tx.bytes,
        rx_datagrams: stats.udp_rx.datagrams,
        rx_bytes: stats.udp_rx.bytes,
    }
}

/// What is known of the path.
fn path_figures(path: &PathStats) -> PathFigures {
    PathFigures {
        rtt: path.rtt.as_nanos(),
        min_rtt: path.min_rtt.as_nanos(),
        cwnd: path.cwnd,
        current_mtu: path.current_mtu as u64,
        sent_packets: path.sent_packets,
        lost_packets: path.lost_packets,
        lost_bytes: path.lost_bytes,
        congestion_events: path.congestion_events,
        sent_plpmtud_probes: path.sent_plpmtud_probes,
        lost_plpmtud_probes: path.lost_plpmtud_probes,
        black_holes_detected: path.black_holes_detected,
    }
}

/// The datagrams that were dropped, by reason.
fn drop_figures(drops: &DropStats) -> DropFigures {
    DropFigures {
        too_short: drops.too_short,
        not_short: drops.not_short,
        fixed_bit: drops.fixed_bit,
        unknown_id: drops.unknown_id,
        not_opened: drops.not_opened,
        key_phase: drops.key_phase,
        duplicate: drops.duplicate,
        closing: drops.closing,
        drained: drops.drained,
        failed: drops.failed,
    }
}

impl Stats {
    /// What a connection counted, and knows of its path.
    pub(crate) fn of(stats: &ConnectionStats) -> Self {
        Stats {
            udp: udp_figures(stats),
            path: path_figures(&stats.path),
            dropped: drop_figures(&stats.dropped),
        }
    }
}
