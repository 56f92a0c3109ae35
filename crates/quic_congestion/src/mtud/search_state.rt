//! One search for the greatest size that a path carries.
ghost use Rattle.std.specs.Prelude.{◌≡◌};
ghost use Rattle.quic_congestion.specs.Search.{within, begun, narrowed, halved, next_size, probing, succeeded, failed};

use std::marker::Model;

/// How often a size is probed before it counts as too large (RFC 8899, section 5.1.2,
/// `MAX_PROBES`).
const MAX_PROBES: u8 = 3;

/// A search by halving between two sizes (RFC 8899, section 5.3; quinn-proto's `SearchState`).
#[derive(Clone, Copy, Debug)]
pub(super) struct SearchState {
    lower_bound: u16,
    upper_bound: u16,
    /// The size probed last, at first the lower bound.
    last_probed_mtu: u16,
    /// The number of the open probe.
    in_flight_probe: Option<u64>,
    /// How often the last size was lost, up to three times.
    lost_probe_count: u8,
}

impl Model for SearchState {
    ghost use Rattle.quic_congestion.specs.Search.{Search};

    ghost Value = { Search };

    ghost view = { λ s. record {
      low = s.lower_bound;
      high = s.upper_bound;
      last = s.last_probed_mtu;
      probe = s.in_flight_probe;
      lost = s.lost_probe_count;
    } };

    ghost inverse = { λ s. record {
      lower_bound = s.low;
      upper_bound = s.high;
      last_probed_mtu = s.last;
      in_flight_probe = s.probe;
      lost_probe_count = s.lost;
    } };
}

/// A size cut to the peer's limit, where there is one.
pub(super) fn within_limit(size: u16, limit: Option<u16>) -> u16
    ensures { result ≡ within limit size }
{
    match limit {
        Some(limit) => size.min(limit),
        None => size,
    }
}

impl SearchState {
    /// A search from a size on up to a bound, both cut to the peer's limit.
    pub(super) fn new(size: u16, limit: Option<u16>, bound: u16) -> Self
        ensures { result ≡ begun size limit bound }
    {
        let lower_bound = within_limit(size, limit);
        SearchState {
            lower_bound,
            upper_bound: lower_bound.max(within_limit(bound, limit)),
            last_probed_mtu: lower_bound,
            in_flight_probe: None,
            lost_probe_count: 0,
        }
    }

    /// The number of the open probe.
    pub(super) fn in_flight_probe(&self) -> Option<u64>
        ensures { result ≡ self.now.probe }
    {
        self.in_flight_probe
    }

    /// The size probed last.
    pub(super) fn last_probed_mtu(&self) -> u16
        ensures { result ≡ self.now.last }
    {
        self.last_probed_mtu
    }

    /// The search once the last probe moved a bound: it came through, or was lost too often.
    pub(super) fn narrowed(self) -> Self
        ensures { result ≡ narrowed self }
    {
        let mut search = self;
        if search.lost_probe_count == 0 {
            search.lower_bound = search.last_probed_mtu;
        } else if search.lost_probe_count >= MAX_PROBES {
            search.upper_bound = search.last_probed_mtu.saturating_sub(1);
            search.lost_probe_count = 0;
        }
        search
    }

    /// The middle of the bounds, or else the upper one, where it differs enough from the size
    /// probed last.
    fn halved(&self, minimum_change: u16) -> Option<u16>
        ensures { result ≡ halved minimum_change self.now }
    {
        let middle = ((self.lower_bound as u32 + self.upper_bound as u32) / 2) as u16;
        if minimum_change <= middle.abs_diff(self.last_probed_mtu) {
            Some(middle)
        } else if minimum_change <= self.upper_bound.saturating_sub(self.last_probed_mtu) {
            Some(self.upper_bound)
        } else {
            None
        }
    }

    /// The size to probe next: a lost one again, or else one between the bounds. None ends the
    /// search.
    pub(super) fn next_mtu_to_probe(&self, minimum_change: u16) -> Option<u16>
        ensures { result ≡ next_size minimum_change self.now }
    {
        if self.lost_probe_count == 0 {
            self.halved(minimum_change)
        } else {
            Some(self.last_probed_mtu)
        }
    }

    /// The search with a probe of a size open under a number.
    pub(super) fn probing(self, size: u16, number: u64) -> Self
        ensures { result ≡ probing size number self }
    {
        SearchState {
            last_probed_mtu: size,
            in_flight_probe: Some(number),
            ..self
        }
    }

    /// The search once the open probe was acknowledged.
    pub(super) fn succeeded(self) -> Self
        ensures { result ≡ succeeded self }
    {
        SearchState {
            in_flight_probe: None,
            lost_probe_count: 0,
            ..self
        }
    }

    /// The search once the open probe, if there is one, was lost.
    pub(super) fn failed(self) -> Self
        ensures { result ≡ failed self }
    {
        match self.in_flight_probe {
            None => self,
            Some(_) => SearchState {
                in_flight_probe: None,
                lost_probe_count: self.lost_probe_count.saturating_add(1).min(MAX_PROBES),
                ..self
            },
        }
    }
}
