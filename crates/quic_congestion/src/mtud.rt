//! Looks for the greatest size of a datagram that a path carries.
ghost use Rattle.std.specs.Prelude.{◌≡◌, ◌≤◌, false};
ghost use Rattle.std.specs.Option.{is_some};
ghost use Rattle.quic_congestion.specs.Search.{new_discovery, disabled_discovery, after_reset, search_bound, search_of, is_searching, open_probe, after_limit, poll_names, after_poll, acknowledged_probe, after_ack, probe_acknowledged, packet_acknowledged, after_probe_lost, after_packet_lost, finds_black_hole, after_question};

mod black_hole;
mod enabled;
mod search_state;
mod suspects;

use black_hole::BlackHoleDetector;
use enabled::EnabledMtuDiscovery;
use quic_config::MtuDiscoveryConfig;
use quic_time::Instant;
use search_state::{SearchState, within_limit};
use std::marker::Model;

/// Looks for the greatest UDP payload, in bytes, that a path carries, by probes of sizes that it
/// may not carry (RFC 9000, section 14.3; RFC 8899; quinn-proto's `MtuDiscovery`).
///
/// A search begins at the first poll, and again some time after the last one ended. It halves the
/// sizes from the current one up to the configured bound, or the peer's limit where that is less.
/// One probe is open at a time. A lost size goes three times before it counts as too large, and an
/// acknowledged one is the size from then on.
///
/// Losses of other packets may show that the path carries less than before. Then the size falls
/// back to the least one.
///
/// Contracts see the size, the peer's limit, the searches and the losses (`specs/Search.antt`).
#[derive(Clone, Copy, Debug)]
pub struct MtuDiscovery {
    current_mtu: u16,
    /// The peer's limit, once it is known.
    peer_limit: Option<u16>,
    /// None where the search is disabled.
    state: Option<EnabledMtuDiscovery>,
    black_hole_detector: BlackHoleDetector,
}

impl Model for MtuDiscovery {
    ghost use Rattle.quic_congestion.specs.Search.{Discovery};

    ghost Value = { Discovery };

    ghost view = { λ d. record {
      size = d.current_mtu;
      limit = d.peer_limit;
      plan = d.state;
      bursts = d.black_hole_detector;
    } };

    ghost inverse = { λ d. record {
      current_mtu = d.size;
      peer_limit = d.limit;
      state = d.plan;
      black_hole_detector = d.bursts;
    } };
}

impl MtuDiscovery {
    /// Begins with a size, in bytes, which is cut to the peer's limit (its `max_udp_payload_size`)
    /// where that is known. Every path carries `min_mtu` bytes, which the size is not below.
    pub fn new(size: u16, min_mtu: u16, peer_limit: Option<u16>, config: MtuDiscoveryConfig) -> Self
        requires { min_mtu ≤ size }
        ensures { result ≡ new_discovery size min_mtu peer_limit config }
    {
        MtuDiscovery {
            current_mtu: within_limit(size, peer_limit),
            peer_limit,
            state: Some(EnabledMtuDiscovery::new(config)),
            black_hole_detector: BlackHoleDetector::new(min_mtu),
        }
    }

    /// Never probes: the size, in bytes, stays, but for the peer's limit and a path that carries
    /// less.
    pub fn disabled(size: u16, min_mtu: u16) -> Self
        ensures { result ≡ disabled_discovery size min_mtu }
    {
        MtuDiscovery {
            current_mtu: size,
            peer_limit: None,
            state: None,
            black_hole_detector: BlackHoleDetector::new(min_mtu),
        }
    }

    /// Begins anew with a size, in bytes, on another path. The configuration stays, and so does the
    /// peer's limit, which cuts the size. Losses are forgotten.
    pub fn reset(&mut self, size: u16, min_mtu: u16)
        ensures { self.new ≡ after_reset size min_mtu self.old }
    {
        self.current_mtu = within_limit(size, self.peer_limit);
        self.state = self.state.map(EnabledMtuDiscovery::anew);
        self.black_hole_detector = BlackHoleDetector::new(min_mtu);
    }

    /// The size that datagrams may have, in bytes.
    pub fn current_mtu(&self) -> u16
        ensures { result ≡ self.now.size }
    {
        self.current_mtu
    }

    /// The search that is under way.
    fn search(&self) -> Option<SearchState>
        ensures { result ≡ search_of self.now }
    {
        match self.state {
            Some(state) => state.search(),
            None => None,
        }
    }

    /// Whether a search is under way.
    pub fn is_searching(&self) -> bool
        ensures { result ≡ is_searching self.now }
    {
        self.search().is_some()
    }

    /// The greatest size that is looked at, in bytes: the configured one, or the peer's limit where
    /// that is less. None where the search is disabled.
    pub fn upper_bound(&self) -> Option<u16>
        ensures { result ≡ search_bound self.now }
    {
        let state = self.state?;
        Some(within_limit(state.upper_bound(), self.peer_limit))
    }

    /// The size of a probe, in bytes, that is to go now under the next packet number. It is open
    /// then, until it is acknowledged or lost. None while one is open, between two searches, and
    /// where the search is disabled.
    pub fn poll_transmit(&mut self, now: Instant, next_packet_number: u64) -> Option<u16>
        ensures size { result ≡ poll_names now self.old }
        ensures new { self.new ≡ after_poll now next_packet_number self.old }
    {
        let mut state = self.state?;
        let size = state.poll_transmit(now, self.current_mtu, self.peer_limit, next_packet_number);
        self.state = Some(state);
        size
    }

    /// The peer announced its limit (`max_udp_payload_size`, RFC 9000, section 18.2), in bytes. It
    /// cuts the size, also where the search is disabled. No search is under way:
    /// [`MtuDiscovery::is_searching`] tells.
    pub fn on_peer_max_udp_payload_size_received(&mut self, limit: u16)
        requires { is_searching self.old ≡ false }
        ensures { self.new ≡ after_limit limit self.old }
    {
        self.current_mtu = self.current_mtu.min(limit);
        self.peer_limit = Some(limit);
    }

    /// The size of the open probe, if it has this number.
    fn acknowledged_probe(&self, number: u64) -> Option<u16>
        ensures { result ≡ acknowledged_probe number self.now }
    {
        let search = self.search()?;
        if search.in_flight_probe() == Some(number) {
            Some(search.last_probed_mtu())
        } else {
            None
        }
    }

    /// The open probe was acknowledged.
    fn on_probe_acked(&mut self, size: u16, number: u64, len: u16)
        ensures { self.new ≡ probe_acknowledged size number len self.old }
    {
        self.current_mtu = size;
        self.state = self.state.map(EnabledMtuDiscovery::succeeded);
        self.black_hole_detector.on_probe_acked(number, len);
    }

    /// A packet that is no probe was acknowledged.
    fn on_non_probe_acked(&mut self, number: u64, len: u16)
        ensures { self.new ≡ packet_acknowledged number len self.old }
    {
        self.black_hole_detector.on_non_probe_acked(number, len);
    }

    /// The peer acknowledged a packet, which went in a datagram of `len` bytes. True where it is
    /// the open probe, whose size is the size from then on.
    pub fn on_acked(&mut self, number: u64, len: u16) -> bool
        ensures probe { result ≡ is_some (acknowledged_probe number self.old) }
        ensures new { self.new ≡ after_ack number len self.old }
    {
        match self.acknowledged_probe(number) {
            Some(size) => {
                self.on_probe_acked(size, number, len);
                true
            }
            None => {
                self.on_non_probe_acked(number, len);
                false
            }
        }
    }

    /// The number of the open probe.
    pub fn in_flight_mtu_probe(&self) -> Option<u64>
        ensures { result ≡ open_probe self.now }
    {
        self.search()?.in_flight_probe()
    }

    /// The open probe was lost. Its size goes again, up to three times. Nothing changes where none
    /// is open.
    pub fn on_probe_lost(&mut self)
        ensures { self.new ≡ after_probe_lost self.old }
    {
        self.state = self.state.map(EnabledMtuDiscovery::failed);
    }

    /// A packet that is no probe was lost; it went in a datagram of `len` bytes. After the losses,
    /// told in ascending order, ask [`MtuDiscovery::black_hole_detected`].
    pub fn on_non_probe_lost(&mut self, number: u64, len: u16)
        ensures { self.new ≡ after_packet_lost number len self.old }
    {
        self.black_hole_detector.on_non_probe_lost(number, len);
    }

    /// Whether losses show that the path carries less than before (RFC 8899, section 4.3): more
    /// than three suspicious bursts of consecutive numbers were lost. A burst is suspicious unless
    /// a packet of it had at most the least size, or a later one that arrived was at least as
    /// large. Then the size is the least one, and the next search begins after the configured time.
    pub fn black_hole_detected(&mut self, now: Instant) -> bool
        ensures found { result ≡ finds_black_hole self.old }
        ensures new { self.new ≡ after_question now self.old }
    {
        let found = self.black_hole_detector.black_hole_detected();
        if found {
            self.current_mtu = self.black_hole_detector.min_mtu();
            self.state = self.state.map(|state| state.cooled(now));
        }
        found
    }
}
