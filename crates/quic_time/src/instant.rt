//! Moments, which the caller hands in, and lengths of time: the core has no clock of its own.
//!
//! Both are whole nanoseconds in 64 bits, which hold some 584 years. What would pass them
//! saturates: it is the greatest number of nanoseconds that fits.
ghost use Rattle.std.specs.Prelude.{◌≡◌, ◌+◌, ◌-◌, ◌*◌, ◌/◌, max};
ghost use Rattle.quic_time.specs.Clocks.{saturated, if_it_fits, moment_before};

use std::marker::Model;
use std::ops::Add;

/// Nanoseconds of a microsecond.
pub(crate) const MICROSECOND: u64 = 1_000;

/// Nanoseconds of a millisecond.
pub(crate) const MILLISECOND: u64 = 1_000_000;

/// Nanoseconds of a second.
pub(crate) const SECOND: u64 = 1_000_000_000;

/// The least length of time that timers tell apart: a millisecond (RFC 9002, section 6.1.2).
pub const TIMER_GRANULARITY: Duration = Duration(MILLISECOND);

/// A moment, in whole nanoseconds since one that the caller chooses. Contracts see the number.
/// `Display` and `Debug` print it in seconds, as `1.040000000s`.
#[derive(Clone, Copy, PartialEq, Eq, PartialOrd, Ord)]
pub struct Instant(u64);

impl Model for Instant {
    ghost use Rattle.std.specs.Prelude.{ℕ};

    ghost Value = { ℕ };

    ghost view = { λ moment. moment.0 };

    ghost inverse = { λ n. record { 0 = n } };
}

impl Instant {
    /// The moment so many nanoseconds after the first.
    pub fn from_nanos(nanos: u64) -> Self
        ensures { result ≡ nanos }
    {
        Instant(nanos)
    }

    /// Nanoseconds since the first moment.
    pub fn as_nanos(self) -> u64
        ensures { result ≡ self }
    {
        let Instant(nanos) = self;
        nanos
    }

    /// The later of two moments.
    pub fn later(self, other: Instant) -> Instant
        ensures { result ≡ max self other }
    {
        Instant(self.0.max(other.0))
    }

    /// How long after `earlier` the moment is; zero where it isn't later.
    pub fn saturating_duration_since(self, earlier: Instant) -> Duration
        ensures { result ≡ self - earlier }
    {
        Duration(self.0.saturating_sub(earlier.0))
    }

    /// The moment so long after this one, or `None` where its nanoseconds pass 64 bits.
    pub fn checked_add(self, length: Duration) -> Option<Instant>
        ensures { result ≡ if_it_fits (self + length) }
    {
        Some(Instant(self.0.checked_add(length.0)?))
    }

    /// The moment so long before this one, or `None` where that is before the first moment.
    pub fn checked_sub(self, length: Duration) -> Option<Instant>
        ensures { result ≡ moment_before self length }
    {
        Some(Instant(self.0.checked_sub(length.0)?))
    }
}

impl Add<Duration> for Instant {
    type Output = Instant;

    ghost add_gives = { λ moment length sum. sum ≡ saturated (moment + length) };

    /// The moment so long after this one; it saturates.
    fn add(self, length: Duration) -> Instant {
        Instant(self.0.saturating_add(length.0))
    }
}

/// A length of time, in whole nanoseconds. Contracts see the number. `Display` and `Debug` print it
/// with a unit, as `40ms`.
#[derive(Clone, Copy, PartialEq, Eq, PartialOrd, Ord)]
pub struct Duration(u64);

impl Model for Duration {
    ghost use Rattle.std.specs.Prelude.{ℕ};

    ghost Value = { ℕ };

    ghost view = { λ length. length.0 };

    ghost inverse = { λ n. record { 0 = n } };
}

impl Duration {
    /// No time at all.
    pub const ZERO: Duration = Duration(0);

    /// The greatest length of time, 2^64 - 1 nanoseconds.
    pub const MAX: Duration = Duration(u64::MAX);

    /// So many nanoseconds.
    pub const fn from_nanos(nanos: u64) -> Self
        ensures { result ≡ nanos }
    {
        Duration(nanos)
    }

    /// So many microseconds; it saturates.
    pub const fn from_micros(micros: u64) -> Self
        ensures { result ≡ saturated (micros * 1000) }
    {
        Duration(micros.saturating_mul(MICROSECOND))
    }

    /// So many milliseconds; it saturates.
    pub const fn from_millis(millis: u64) -> Self
        ensures { result ≡ saturated (millis * 1000000) }
    {
        Duration(millis.saturating_mul(MILLISECOND))
    }

    /// So many seconds; it saturates.
    pub const fn from_secs(secs: u64) -> Self
        ensures { result ≡ saturated (secs * 1000000000) }
    {
        Duration(secs.saturating_mul(SECOND))
    }

    /// The nanoseconds.
    pub fn as_nanos(self) -> u64
        ensures { result ≡ self }
    {
        let Duration(nanos) = self;
        nanos
    }

    /// The whole microseconds.
    pub fn as_micros(self) -> u64
        ensures { result ≡ self / 1000 }
    {
        self.0 / MICROSECOND
    }

    /// The whole milliseconds.
    pub fn as_millis(self) -> u64
        ensures { result ≡ self / 1000000 }
    {
        self.0 / MILLISECOND
    }

    /// Both lengths together; it saturates.
    pub fn saturating_add(self, other: Duration) -> Duration
        ensures { result ≡ saturated (self + other) }
    {
        Duration(self.0.saturating_add(other.0))
    }

    /// What is left of this length without the other; zero where that is longer.
    pub fn saturating_sub(self, other: Duration) -> Duration
        ensures { result ≡ self - other }
    {
        Duration(self.0.saturating_sub(other.0))
    }

    /// The length so many times; it saturates.
    pub fn saturating_mul(self, times: u64) -> Duration
        ensures { result ≡ saturated (self * times) }
    {
        Duration(self.0.saturating_mul(times))
    }
}

impl Add<Duration> for Duration {
    type Output = Duration;

    ghost add_gives = { λ length other sum. sum ≡ saturated (length + other) };

    /// Both lengths together, as [`Duration::saturating_add`].
    fn add(self, other: Duration) -> Duration {
        self.saturating_add(other)
    }
}
