//! Persistent congestion (RFC 9002, section 7.6).
ghost use Rattle.std.specs.Prelude.{◌≡◌};
ghost use Rattle.quic_spaces.specs.PersistentSteps.{no_losses, is_far, is_sampled, earlier, since_before, after_loss};

use quic_time::{Duration, Instant};
use std::marker::Model;

/// Whether packets that are lost at once show persistent congestion: two that ask for an
/// acknowledgement went more than the period apart, each number between them is lost too, and a
/// round trip was measured before the first of them went (RFC 9002, section 7.6.2).
///
/// [`persistent_congestion_is_found`](crate::laws::persistent_congestion_is_found) says so of
/// whichever packets were named.
#[derive(Clone, Copy, Debug)]
pub struct PersistentCongestion {
    period: Duration,
    sampled: Option<u64>,
    last: Option<u64>,
    // When the earliest packet went of those that ask, count, and are lost with each up to `last`.
    since: Option<Instant>,
    found: bool,
}

impl Model for PersistentCongestion {
    ghost use Rattle.quic_spaces.specs.PersistentSteps.{Watch};

    ghost Value = { Watch };

    ghost view = { λ p. record { period = p.period; sampled = p.sampled; last = p.last; since = p.since; found = p.found } };

    ghost inverse = { λ w. record { period = w.period; sampled = w.sampled; last = w.last; since = w.since; found = w.found } };
}

impl PersistentCongestion {
    /// No packet is lost yet. `period` is how far apart two have to lie, and `sampled` the first
    /// number that was sent after a round trip was measured, if one was.
    pub fn new(period: Duration, sampled: Option<u64>) -> Self
        ensures { result ≡ no_losses period sampled }
    {
        PersistentCongestion {
            period,
            sampled,
            last: None,
            since: None,
            found: false,
        }
    }

    /// A packet is lost: its number, when it went, and whether it asks for an acknowledgement.
    /// Numbers are to ascend, since one that isn't one above the last begins anew.
    pub fn on_lost(&mut self, number: u64, time_sent: Instant, asks: bool)
        ensures { self.new ≡ after_loss self.old (record { number = number; time_sent = time_sent; asks = asks }) }
    {
        self.since = self.since_before(number);
        self.found = self.found || asks && self.is_far(time_sent);
        self.last = Some(number);
        if asks && self.is_sampled(number) {
            self.since = Some(self.earlier(time_sent));
        }
    }

    /// Whether the packets show persistent congestion.
    pub fn is_persistent(&self) -> bool
        ensures { result ≡ self.now.found }
    {
        self.found
    }

    /// When the earliest packet went that is lost with each up to this number.
    fn since_before(&self, number: u64) -> Option<Instant>
        ensures { result ≡ since_before self.now number }
    {
        match self.last {
            Some(last) if last < number && number - last == 1 => self.since,
            _ => None,
        }
    }

    /// Whether a number lies above the first that was sent after a round trip was measured.
    fn is_sampled(&self, number: u64) -> bool
        ensures { result ≡ is_sampled self.now.sampled number }
    {
        match self.sampled {
            Some(first) => first < number,
            None => false,
        }
    }

    /// Whether a moment lies more than the period behind that of the earliest packet.
    fn is_far(&self, time: Instant) -> bool
        ensures { result ≡ is_far self.now.period self.now.since time }
    {
        match self.since {
            Some(since) => time.saturating_duration_since(since) > self.period,
            None => false,
        }
    }

    /// A moment, or that of the earliest packet where it is before it.
    fn earlier(&self, time: Instant) -> Instant
        ensures { result ≡ earlier time self.now.since }
    {
        match self.since {
            Some(since) if since < time => since,
            _ => time,
        }
    }
}
