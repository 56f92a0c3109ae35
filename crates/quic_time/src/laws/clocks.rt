//! Laws of moments, timers and round-trip times.
ghost use Rattle.std.specs.Prelude.{◌≡◌, ◌≢◌, ℕ, ◌+◌, ◌-◌, ◌/◌, ◌<◌, ◌≤◌, ◌^◌, List, ◌∷◌, length, fold, reverse, All, Any, Contains, Option, Some, None, IfSome, IsSomeAnd};
ghost use Rattle.quic_time.specs.Clocks.{saturated, granularity};
ghost use Rattle.quic_time.specs.Timers.{Timers, timer_at, with_timer, no_timers, all_timers, next_timer, timers_after, IsLast};
ghost use Rattle.quic_time.specs.Rtt.{Sample, assumed_rtt, told_rtt, with_sample, least_over, smoothed_over, var_over, estimate_over};
ghost use Rattle.quic_time.specs.declared.timer.Timer.{Timer};

use crate::instant::{Duration, TIMER_GRANULARITY};
use crate::timer::Timer;

/// A sum fits 64 bits and isn't earlier than the moment that it was made of. Where nothing is cut,
/// it is exactly so much later.
pub fn sums_saturate()
    ensures fits { (n : ℕ) → saturated n < 2 ^ 64 }
    ensures later { (moment length : ℕ) → moment < 2 ^ 64 → moment ≤ saturated (moment + length) }
    ensures exact { (moment length : ℕ) → moment + length < 2 ^ 64 → saturated (moment + length) - moment ≡ length }
{}

/// `Timer::VALUES` has the nine timers, each once.
pub fn timers_are_nine()
    ensures values { Timer.VALUES ≡ all_timers }
    ensures each { (timer : Timer) → Contains all_timers timer }
    ensures nine { length all_timers ≡ 9 }
{}

/// What is set or stopped at one timer shows there and at no other.
pub fn timers_are_apart()
    ensures same { (timer : Timer) (moment : Option ℕ) (t : Timers)
        → timer_at timer (with_timer timer moment t) ≡ moment }
    ensures others { (timer other : Timer) (moment : Option ℕ) (t : Timers) → timer ≢ other
        → timer_at other (with_timer timer moment t) ≡ timer_at other t }
    ensures unset { (timer : Timer) → timer_at timer no_timers ≡ None }
{}

/// After any history each timer shows what its last change made of it.
pub fn timers_show_their_last_change()
    ensures { (changes : List (Timer × Option ℕ)) (timer : Timer) → IsLast timer changes (timer_at timer (timers_after changes)) }
{}

/// Two tables with the same moment at each timer are the same table.
pub fn tables_are_their_moments()
    ensures { (t u : Timers) → ((timer : Timer) → timer_at timer t ≡ timer_at timer u) → t ≡ u }
{}

/// The next timeout is the moment of a timer, and no timer expires before it. There is one where
/// any timer is set.
pub fn next_timeout_is_least()
    ensures set { (t : Timers) → IfSome (next_timer t) (λ next. (timer : Timer) × (timer_at timer t ≡ Some next)) }
    ensures least { (t : Timers) (timer : Timer) (moment : ℕ) → timer_at timer t ≡ Some moment
        → IsSomeAnd (next_timer t) (λ next. next ≤ moment) }
{}

/// Samples taken one after the other leave the estimate that the formulas of RFC 9002, section 5,
/// give over all of them.
pub fn estimates_are_over_all_samples()
    ensures { (samples : List Sample) (initial : ℕ)
        → fold (λ r s. with_sample r s.delay s.rtt) (assumed_rtt initial) samples ≡ estimate_over (reverse samples) initial }
{}

/// A sample with which a path begins is what the first sample of a path makes of it, where half of it
/// is its variation (RFC 9002, section 5.3).
pub fn told_sample_is_the_first()
    ensures { (initial delay rtt : ℕ) → with_sample (assumed_rtt initial) delay rtt ≡ told_rtt rtt (rtt / 2) }
{}

/// What an estimate keeps as the least sample is one of the samples, and none is less.
pub fn least_is_least_sample()
    ensures one { (s : Sample) (before : List Sample) → Any (λ t. t.rtt ≡ least_over s before) (s ∷ before) }
    ensures least { (s : Sample) (before : List Sample) → All (λ t. least_over s before ≤ t.rtt) (s ∷ before) }
{}

/// The smoothed time is at least the least sample, and neither it nor its variation passes a bound
/// that all samples keep. So only sums of them can pass 64 bits.
pub fn smoothed_lies_among_samples()
    ensures least { (s : Sample) (before : List Sample) → least_over s before ≤ smoothed_over s before }
    ensures most { (n : ℕ) (s : Sample) (before : List Sample)
        → All (λ t. t.rtt ≤ n) (s ∷ before) → smoothed_over s before ≤ n }
    ensures varies { (n : ℕ) (s : Sample) (before : List Sample)
        → All (λ t. t.rtt ≤ n) (s ∷ before) → var_over s before ≤ n }
{}

/// [`TIMER_GRANULARITY`] is a millisecond (RFC 9002, section 6.1.2), and the definitions say the
/// same.
pub fn granularity_is_a_millisecond() -> Duration
    ensures value { result ≡ 1000000 }
    ensures in_definitions { granularity ≡ 1000000 }
{
    TIMER_GRANULARITY
}
