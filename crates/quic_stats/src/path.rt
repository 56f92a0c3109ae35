//! Statistics of a path.
ghost use Rattle.std.specs.Prelude.{◌≡◌};

use quic_time::Duration;

/// A path of a connection (quinn-proto's `PathStats`).
#[derive(Clone, Copy, Debug, PartialEq, Eq)]
pub struct PathStats {
    /// How long a round trip takes, as estimated now (RFC 9002, section 5.3).
    pub rtt: Duration,
    /// The least sample of a round trip (RFC 9002, section 5.2).
    pub min_rtt: Duration,
    /// The congestion window, in bytes (RFC 9002, section 7).
    pub cwnd: u64,
    /// How many times the congestion controller was told of congestion.
    pub congestion_events: u64,
    /// How many packets were lost; open MTU probes don't count.
    pub lost_packets: u64,
    /// How many bytes the lost packets had; open MTU probes don't count.
    pub lost_bytes: u64,
    /// How many packets were sent, MTU probes too.
    pub sent_packets: u64,
    /// How many of them were MTU probes (RFC 9000, section 14.4).
    pub sent_plpmtud_probes: u64,
    /// How many MTU probes were lost while their search went on.
    pub lost_plpmtud_probes: u64,
    /// How many times a black hole was found (RFC 8899, section 4.3).
    pub black_holes_detected: u64,
    /// The bytes that a datagram has at most, but for an MTU probe.
    pub current_mtu: u16,
}

impl Default for PathStats {
    ghost use Rattle.quic_stats.specs.Stats.{no_path};

    ghost is_default = { λ s. s ≡ no_path };

    /// Zero throughout.
    fn default() -> PathStats {
        PathStats {
            rtt: Duration::ZERO,
            min_rtt: Duration::ZERO,
            cwnd: 0,
            congestion_events: 0,
            lost_packets: 0,
            lost_bytes: 0,
            sent_packets: 0,
            sent_plpmtud_probes: 0,
            lost_plpmtud_probes: 0,
            black_holes_detected: 0,
            current_mtu: 0,
        }
    }
}
