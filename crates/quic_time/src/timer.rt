//! The timers of a connection.
ghost use Rattle.std.specs.Prelude.{◌≡◌, ℕ, ◌≤◌, Some, None, IfSome, IsSomeAnd};
ghost use Rattle.std.specs.Array.Iter.{array_into_iter_items};
ghost use Rattle.quic_time.specs.Timers.{timer_at, with_timer, all_timers, earlier, next_timer, has_come};

use crate::instant::Instant;
use std::array;
use std::marker::Model;

/// What a timer is for (quinn-proto's `Timer`).
#[derive(Clone, Copy, Debug, PartialEq, Eq, PartialOrd, Ord)]
pub enum Timer {
    /// When to send a probe that asks for an acknowledgement, or to declare packets lost (RFC 9002,
    /// section 6).
    LossDetection = 0,
    /// When to close the connection because nothing came (RFC 9000, section 10.1).
    Idle = 1,
    /// When the end has been closing for long enough (RFC 9000, section 10.2).
    Close = 2,
    /// When to discard keys that no packet should need any more (RFC 9001, section 6.5).
    KeyDiscard = 3,
    /// When to give up a challenge of the path (RFC 9000, section 8.2.4).
    PathValidation = 4,
    /// When to send a PING so that the connection stays alive (RFC 9000, section 10.1.2).
    KeepAlive = 5,
    /// When the pacer lets the next packet go (RFC 9002, section 7.7).
    Pacing = 6,
    /// When to retire an old connection id and to issue a new one (RFC 9000, section 5.1.1).
    PushNewCid = 7,
    /// When to acknowledge what was held back (RFC 9000, section 13.2.1).
    MaxAckDelay = 8,
}

impl Timer {
    /// All nine, in the order in which timers that expire together are handled.
    pub const VALUES: [Timer; 9] = [
        Timer::LossDetection,
        Timer::Idle,
        Timer::Close,
        Timer::KeyDiscard,
        Timer::PathValidation,
        Timer::KeepAlive,
        Timer::Pacing,
        Timer::PushNewCid,
        Timer::MaxAckDelay,
    ];

    /// All nine, in the order of [`Timer::VALUES`].
    pub fn iter() -> array::IntoIter<Timer, 9>
        ensures { array_into_iter_items result ≡ all_timers }
    {
        Timer::VALUES.into_iter()
    }
}

/// The moment at which each timer expires, if it is set (quinn-proto's `TimerTable`).
///
/// Contracts see a map of the nine timers. Each call takes constant time.
#[derive(Clone, Copy, Debug)]
pub struct TimerTable {
    moments: [Option<Instant>; 9],
}

impl Model for TimerTable {
    ghost use Rattle.std.specs.Prelude.{◌≡◌, length};
    ghost use Rattle.std.proofs.Common.{ap};
    ghost use Rattle.quic_time.specs.Timers.{Timers, each_timer};
    ghost use Rattle.quic_time.specs.TimerSlots.{timers_of, back_again};

    ghost Value = { Timers };

    ghost view = { λ t. timers_of t.moments };

    ghost invariant = { λ t. length t.moments ≡ 9 };

    ghost inverse = { λ t. record { moments = each_timer t } };

    ghost inverse_ok = { λ t h. ap (λ moments. record { moments = moments }) (back_again t.moments h) };
}

impl Default for TimerTable {
    ghost use Rattle.quic_time.specs.Timers.{no_timers};

    ghost is_default = { λ t. t ≡ no_timers };

    /// No timer is set.
    fn default() -> TimerTable {
        TimerTable { moments: [None; 9] }
    }
}

impl TimerTable {
    /// Lets the timer expire at `time`, and not at any moment that it was set to before.
    pub fn set(&mut self, timer: Timer, time: Instant)
        ensures { self.new ≡ with_timer timer (Some time) self.old }
    {
        self.moments[timer as usize] = Some(time);
    }

    /// The moment at which the timer expires, or `None` if it isn't set.
    pub fn get(&self, timer: Timer) -> Option<Instant>
        ensures { result ≡ timer_at timer self.now }
    {
        self.moments[timer as usize]
    }

    /// Lets the timer not expire.
    pub fn stop(&mut self, timer: Timer)
        ensures { self.new ≡ with_timer timer None self.old }
    {
        self.moments[timer as usize] = None;
    }

    /// The earliest moment at which a timer expires, or `None` if none is set.
    pub fn next_timeout(&self) -> Option<Instant>
        ensures value { result ≡ next_timer self.now }
        ensures set { IfSome result (λ next. (timer : Timer) × (timer_at timer self.now ≡ Some next)) }
        ensures least { (timer : Timer) (moment : ℕ) → timer_at timer self.now ≡ Some moment
            → IsSomeAnd result (λ next. next ≤ moment) }
    {
        self.moments.iter().copied().fold(None, earlier)
    }

    /// Whether the timer is set to `after` or to a moment before it.
    pub fn is_expired(&self, timer: Timer, after: Instant) -> bool
        ensures { result ≡ has_come (timer_at timer self.now) after }
    {
        self.get(timer).is_some_and(|time| time <= after)
    }
}

/// The earlier of two moments, or the one that there is.
fn earlier(one: Option<Instant>, other: Option<Instant>) -> Option<Instant>
    ensures { result ≡ earlier one other }
{
    match (one, other) {
        (Some(one), Some(other)) => Some(one.min(other)),
        (one, None) => one,
        (None, other) => other,
    }
}
