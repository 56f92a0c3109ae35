//! How path MTU discovery is configured.
ghost use Rattle.std.specs.Prelude.{◌≡◌, ◌≤◌, max, min};
ghost use Rattle.quic_config.specs.Configs.{default_search, max_udp_payload};

use quic_time::Duration;
use std::marker::Model;

/// The greatest size that a UDP payload may have here, in bytes.
pub const MAX_UDP_PAYLOAD: u16 = 65527;

/// How path MTU discovery probes for the greatest size of a datagram that the path carries (RFC
/// 8899; quinn-proto's `MtuDiscoveryConfig`).
#[derive(Clone, Copy, Debug)]
pub struct MtuDiscoveryConfig {
    interval: Duration,
    upper_bound: u16,
    black_hole_cooldown: Duration,
    minimum_change: u16,
}

impl Model for MtuDiscoveryConfig {
    ghost use Rattle.std.specs.Prelude.{◌≤◌};
    ghost use Rattle.quic_config.specs.Configs.{SearchSettings, max_udp_payload};

    ghost Value = { SearchSettings };

    ghost view = { λ c. record {
      interval = c.interval;
      upper_bound = c.upper_bound;
      cooldown = c.black_hole_cooldown;
      least_change = c.minimum_change;
    } };

    ghost invariant = { λ c. (c.upper_bound ≤ max_udp_payload) × (2 ≤ c.minimum_change) };

    ghost inverse = { λ s. record {
      interval = s.interval;
      upper_bound = s.upper_bound;
      black_hole_cooldown = s.cooldown;
      minimum_change = s.least_change;
    } };
}

impl MtuDiscoveryConfig {
    /// How long after a search is complete the next one begins.
    pub fn search_interval(&self) -> Duration
        ensures { result ≡ self.now.interval }
    {
        self.interval
    }

    /// The greatest size that is probed, in bytes.
    pub fn size_bound(&self) -> u16
        ensures value { result ≡ self.now.upper_bound }
        ensures bound { result ≤ max_udp_payload }
    {
        self.upper_bound
    }

    /// How long after a black hole the next search begins.
    pub fn cooldown(&self) -> Duration
        ensures { result ≡ self.now.cooldown }
    {
        self.black_hole_cooldown
    }

    /// The least difference of two sizes that is worth a probe, in bytes.
    pub fn least_change(&self) -> u16
        ensures value { result ≡ self.now.least_change }
        ensures bound { 2 ≤ result }
    {
        self.minimum_change
    }

    /// These settings, of which the prover sees that the least change is 2 bytes or more.
    pub(crate) fn stepped(self) -> Self
        ensures same { result ≡ self }
        ensures steps { 2 ≤ self.least_change }
    {
        self
    }

    /// How long after a search is complete the next one begins, a [`Duration`]. The default is 600
    /// seconds.
    pub fn interval(&mut self, value: Duration) -> &mut Self
        ensures same_reference { result.ghost_name ≡ self.entry.ghost_name }
        ensures value { result.now ≡ record self.old { interval = value } }
    {
        self.interval = value;
        self
    }

    /// The greatest size that is probed, in bytes. More than 65527 is cut to 65527. The default is
    /// 1452 bytes.
    pub fn upper_bound(&mut self, value: u16) -> &mut Self
        ensures same_reference { result.ghost_name ≡ self.entry.ghost_name }
        ensures value { result.now ≡ record self.old { upper_bound = min value max_udp_payload } }
    {
        self.upper_bound = value.min(MAX_UDP_PAYLOAD);
        self
    }

    /// How long after a black hole the next search begins, a [`Duration`]. The default is 60
    /// seconds.
    pub fn black_hole_cooldown(&mut self, value: Duration) -> &mut Self
        ensures same_reference { result.ghost_name ≡ self.entry.ghost_name }
        ensures value { result.now ≡ record self.old { cooldown = value } }
    {
        self.black_hole_cooldown = value;
        self
    }

    /// The least difference of two sizes that is worth a probe, in bytes. Less than 2 is raised to
    /// 2. The default is 20 bytes.
    pub fn minimum_change(&mut self, value: u16) -> &mut Self
        ensures same_reference { result.ghost_name ≡ self.entry.ghost_name }
        ensures value { result.now ≡ record self.old { least_change = max value 2 } }
    {
        self.minimum_change = value.max(2);
        self
    }
}

impl Default for MtuDiscoveryConfig {
    ghost is_default = { λ c. c ≡ default_search };

    /// Every 600 seconds up to 1452 bytes, 60 seconds after a black hole, in steps of 20 bytes at
    /// least.
    fn default() -> MtuDiscoveryConfig {
        MtuDiscoveryConfig {
            interval: Duration::from_nanos(600000000000),
            upper_bound: 1452,
            black_hole_cooldown: Duration::from_nanos(60000000000),
            minimum_change: 20,
        }
    }
}
