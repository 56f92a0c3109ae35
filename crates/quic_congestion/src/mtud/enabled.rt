//! One search after another.
ghost use Rattle.std.specs.Prelude.{◌≡◌};
ghost use Rattle.quic_congestion.specs.Search.{first_plan, resting, due, plan_names, plan_polled, plan_succeeded, plan_failed, plan_anew, plan_cooled};

use crate::mtud::search_state::SearchState;
use quic_config::MtuDiscoveryConfig;
use quic_time::{Duration, Instant};
use std::marker::Model;

/// The searches of a path, one after another (quinn-proto's `EnabledMtuDiscovery`).
#[derive(Clone, Copy, Debug)]
pub(super) struct EnabledMtuDiscovery {
    config: MtuDiscoveryConfig,
    /// The search that is under way.
    current: Option<SearchState>,
    /// The moment from which on the next begins, where none is under way.
    next_search: Instant,
}

impl Model for EnabledMtuDiscovery {
    ghost use Rattle.quic_congestion.specs.Search.{Plan};

    ghost Value = { Plan };

    ghost view = { λ e. record { settings = e.config; current = e.current; next = e.next_search } };

    ghost inverse = { λ p. record { config = p.settings; current = p.current; next_search = p.next } };
}

impl EnabledMtuDiscovery {
    /// The greatest size that is looked at.
    pub(super) fn upper_bound(&self) -> u16
        ensures { result ≡ self.now.settings.upper_bound }
    {
        self.config.size_bound()
    }

    /// Nothing was searched. The first poll begins, whatever its moment.
    pub(super) fn new(config: MtuDiscoveryConfig) -> Self
        ensures { result ≡ first_plan config }
    {
        EnabledMtuDiscovery {
            config,
            current: None,
            next_search: Instant::from_nanos(0),
        }
    }

    /// A discovery of this configuration that hasn't searched yet.
    pub(super) fn anew(self) -> Self
        ensures { result ≡ plan_anew self }
    {
        EnabledMtuDiscovery::new(self.config)
    }

    /// The search that is under way.
    pub(super) fn search(&self) -> Option<SearchState>
        ensures { result ≡ self.now.current }
    {
        self.current
    }

    /// The search under way, or one that begins now.
    fn due_search(&self, now: Instant, size: u16, limit: Option<u16>) -> Option<SearchState>
        ensures { result ≡ due now size limit self.now }
    {
        match self.current {
            Some(search) => Some(search),
            None if now.as_nanos() < self.next_search.as_nanos() => None,
            None => Some(SearchState::new(size, limit, self.config.size_bound())),
        }
    }

    /// Ends the search. The next begins after some time.
    fn rest(self, now: Instant, length: Duration) -> Self
        ensures { result ≡ resting now length self }
    {
        EnabledMtuDiscovery {
            current: None,
            next_search: Instant::from_nanos(now.as_nanos().saturating_add(length.as_nanos())),
            ..self
        }
    }

    /// The size of a probe that is to go now under a number, which is then open.
    pub(super) fn poll_transmit(
        &mut self,
        now: Instant,
        size: u16,
        limit: Option<u16>,
        number: u64,
    ) -> Option<u16>
        ensures size { result ≡ plan_names now size limit self.old }
        ensures new { self.new ≡ plan_polled now number size limit self.old }
    {
        let search = self.due_search(now, size, limit)?;
        if search.in_flight_probe().is_some() {
            return None;
        }
        let search = search.narrowed();
        let next = search.next_mtu_to_probe(self.config.least_change());
        match next {
            Some(size) => self.current = Some(search.probing(size, number)),
            None => *self = self.rest(now, self.config.search_interval()),
        }
        next
    }

    /// The open probe was acknowledged.
    pub(super) fn succeeded(self) -> Self
        ensures { result ≡ plan_succeeded self }
    {
        EnabledMtuDiscovery {
            current: self.current.map(SearchState::succeeded),
            ..self
        }
    }

    /// The open probe, if there is one, was lost.
    pub(super) fn failed(self) -> Self
        ensures { result ≡ plan_failed self }
    {
        EnabledMtuDiscovery {
            current: self.current.map(SearchState::failed),
            ..self
        }
    }

    /// The path carries less than before, so that the next search waits.
    pub(super) fn cooled(self, now: Instant) -> Self
        ensures { result ≡ plan_cooled now self }
    {
        self.rest(now, self.config.cooldown())
    }
}
