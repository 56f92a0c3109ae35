//! How long a round trip on a path takes (RFC 9002, section 5).
ghost use Rattle.std.specs.Prelude.{◌≡◌};
ghost use Rattle.quic_time.specs.Rtt.{assumed_rtt, told_rtt, best_rtt, conservative_rtt, probe_timeout, smoothed_with, var_with, adjusted_rtt, with_sample};

use crate::instant::{Duration, TIMER_GRANULARITY};
use std::marker::Model;

/// What the samples of a path tell about the time of a round trip (quinn-proto's `RttEstimator`).
#[derive(Clone, Copy, Debug)]
pub struct RttEstimator {
    latest: Duration,
    smoothed: Option<Duration>,
    var: Duration,
    min: Duration,
}

impl Model for RttEstimator {
    ghost use Rattle.quic_time.specs.Rtt.{Rtt};

    ghost Value = { Rtt };

    ghost view = { λ e. record { latest = e.latest; smoothed = e.smoothed; var = e.var; least = e.min } };

    ghost inverse = { λ r. record { latest = r.latest; smoothed = r.smoothed; var = r.var; min = r.least } };
}

impl RttEstimator {
    /// The time that is assumed before the first sample, with half of it as its variation.
    pub fn new(initial_rtt: Duration) -> Self
        ensures { result ≡ assumed_rtt initial_rtt }
    {
        RttEstimator {
            latest: initial_rtt,
            smoothed: None,
            var: Duration::from_nanos(initial_rtt.as_nanos() / 2),
            min: initial_rtt,
        }
    }

    /// The estimate that begins with a sample which was taken elsewhere, and its variation (RFC
    /// 9002, section 5.3).
    pub fn with_first_sample(rtt: Duration, variation: Duration) -> Self
        ensures { result ≡ told_rtt rtt variation }
    {
        RttEstimator {
            latest: rtt,
            smoothed: Some(rtt),
            var: variation,
            min: rtt,
        }
    }

    /// The best estimate: the smoothed time, and before the first sample the one that is assumed.
    pub fn get(&self) -> Duration
        ensures { result ≡ best_rtt self.now }
    {
        self.smoothed.unwrap_or(self.latest)
    }

    /// The greater of the best estimate and the latest sample (RFC 9002, section 6.1.2).
    pub fn conservative(&self) -> Duration
        ensures { result ≡ conservative_rtt self.now }
    {
        self.get().max(self.latest)
    }

    /// The least sample, and before the first one the time that is assumed.
    pub fn min(&self) -> Duration
        ensures { result ≡ self.now.least }
    {
        self.min
    }

    /// The probe timeout without the delay of the peer: the best estimate and four times its
    /// variation, or a millisecond where that is more. It saturates. (RFC 9002, section 6.2.1.)
    pub fn pto_base(&self) -> Duration
        ensures { result ≡ probe_timeout self.now }
    {
        self.get() + self.var.saturating_mul(4).max(TIMER_GRANULARITY)
    }

    /// Takes a sample: the round trip took `rtt`, of which the peer held its acknowledgement back
    /// for `ack_delay` (RFC 9002, section 5.3).
    pub fn update(&mut self, ack_delay: Duration, rtt: Duration)
        ensures { self.new ≡ with_sample self.old ack_delay rtt }
    {
        self.latest = rtt;
        match self.smoothed {
            Some(smoothed) => {
                self.min = self.min.min(rtt);
                let sample = without_delay(self.min, ack_delay, rtt);
                self.var = mean_variation(self.var, smoothed, sample);
                self.smoothed = Some(mean(smoothed, sample));
            }
            None => {
                self.smoothed = Some(rtt);
                self.var = Duration::from_nanos(rtt.as_nanos() / 2);
                self.min = rtt;
            }
        }
    }
}

/// The sample without the delay of the peer, unless that goes below the least sample.
fn without_delay(min: Duration, ack_delay: Duration, rtt: Duration) -> Duration
    ensures { result ≡ adjusted_rtt min ack_delay rtt }
{
    if u128::from(min.as_nanos()) + u128::from(ack_delay.as_nanos()) <= u128::from(rtt.as_nanos()) {
        rtt.saturating_sub(ack_delay)
    } else {
        rtt
    }
}

/// Seven eighths of the smoothed time, and an eighth of the sample.
fn mean(smoothed: Duration, sample: Duration) -> Duration
    ensures { result ≡ smoothed_with smoothed sample }
{
    let eighths = 7 * u128::from(smoothed.as_nanos()) + u128::from(sample.as_nanos());
    Duration::from_nanos((eighths / 8) as u64)
}

/// Three quarters of the variation, and a quarter of how far the sample is from the smoothed time.
fn mean_variation(var: Duration, smoothed: Duration, sample: Duration) -> Duration
    ensures { result ≡ var_with var smoothed sample }
{
    let distance = smoothed.as_nanos().abs_diff(sample.as_nanos());
    let quarters = 3 * u128::from(var.as_nanos()) + u128::from(distance);
    Duration::from_nanos((quarters / 4) as u64)
}
