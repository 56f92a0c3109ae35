//! Which packets count as lost, and when the loss timer expires (RFC 9002, sections 6.1 and 6.2).
ghost use Rattle.std.specs.Prelude.{◌≡◌, ◌<◌, ◌≤◌, ◌^◌, [], min, IfSome, IfNone};
ghost use Rattle.std.specs.Option.{option_map};
ghost use Rattle.quic_sent_packets.specs.Packets.{oldest, from};
ghost use Rattle.quic_spaces.specs.Loss.{loss_delay, verdict_at, is_by, is_lost, lost_by, lesser, loss_time_of, most_doublings, loss_moment};
ghost use Rattle.quic_spaces.specs.Walks.{StepsTo, up_to};

use crate::tracking::Tracking;
use quic_sent_packets::SentPacket;
use quic_time::{Duration, Instant, RttEstimator, TIMER_GRANULARITY};
use std::marker::Model;

/// The most doublings of the probe timeout.
const MOST_DOUBLINGS: u64 = 16;

/// By what a packet counts as lost at a moment (RFC 9002, section 6.1).
#[derive(Clone, Copy, Debug)]
pub struct Verdict {
    greatest: u64,
    threshold: u64,
    // What was sent at this moment or before it is lost by time.
    before: Option<Instant>,
    delay: Duration,
}

impl Model for Verdict {
    ghost use Rattle.quic_spaces.specs.Loss as words;

    ghost Value = { words.Verdict };

    ghost view = { λ v. record { greatest = v.greatest; threshold = v.threshold; before = v.before; delay = v.delay } };

    ghost inverse = { λ v. record { greatest = v.greatest; threshold = v.threshold; before = v.before; delay = v.delay } };
}

/// How long after it was sent a packet counts as lost, once a later one is acknowledged: this part
/// of a round trip, as numerator and denominator (RFC 9002, section 6.1.2).
fn loss_delay(part: (u64, u64), rtt: &RttEstimator) -> Duration
    requires { 0 < part.1 }
    ensures { result ≡ loss_delay part rtt.now }
{
    let product = u128::from(part.0) * u128::from(rtt.conservative().as_nanos());
    let nanos = (product / u128::from(part.1)).min(u128::from(u64::MAX)) as u64;
    Duration::from_nanos(nanos).max(TIMER_GRANULARITY)
}

impl Verdict {
    /// The verdict at a moment, where `largest_acked` is the greatest number that was acknowledged.
    /// A packet below it is lost where it lies `packet_threshold` below or farther, or went so long
    /// ago: `time_threshold`, numerator and denominator, of the greater of the estimate and the
    /// latest round trip, and a millisecond at least.
    pub fn new(
        largest_acked: u64,
        packet_threshold: u64,
        time_threshold: (u64, u64),
        rtt: &RttEstimator,
        now: Instant,
    ) -> Self
        requires { 0 < time_threshold.1 }
        ensures { result ≡ verdict_at largest_acked packet_threshold (loss_delay time_threshold rtt.now) now }
    {
        let delay = loss_delay(time_threshold, rtt);
        Verdict {
            greatest: largest_acked,
            threshold: packet_threshold,
            before: now.checked_sub(delay),
            delay,
        }
    }

    /// Whether a packet is lost that is tracked by this number.
    pub fn is_lost(&self, number: u64, packet: &SentPacket) -> bool
        ensures { result ≡ is_lost self.now (number, packet.now) }
    {
        number < self.greatest
            && (self.greatest - number >= self.threshold || self.is_by(packet.time_sent))
    }

    /// Whether what was sent at a moment is lost by time, once a later packet is acknowledged.
    fn is_by(&self, moment: Instant) -> bool
        ensures { result ≡ is_by self.now.before moment }
    {
        match self.before {
            Some(last) => moment <= last,
            None => false,
        }
    }
}

/// The earlier of two moments, where there is a second.
fn lesser(moment: Instant, other: Option<Instant>) -> Instant
    ensures { result ≡ lesser moment other }
{
    match other {
        Some(other) if other < moment => other,
        _ => moment,
    }
}

/// How many times the probe timeout is waited, after so many expiries of the loss timer.
fn backoff(timeouts: u64) -> u64
    ensures value { result ≡ 2 ^ min timeouts most_doublings }
    ensures most { result ≤ 65536 }
{
    2u64.pow(timeouts.min(MOST_DOUBLINGS) as u32)
}

impl Tracking {
    /// The least number of a lost packet from `low` on. Below the greatest acknowledged number it
    /// looks at no more packets than the packet threshold says.
    pub fn next_lost(&self, low: u64, verdict: &Verdict) -> Option<u64>
        ensures { result ≡ option_map (λ p. p.0) (oldest (lost_by verdict.now (from low self.now.packets))) }
    {
        let mut low = low;
        while let Some(number) = self.next_below(low, verdict.greatest) {
            if let Some(packet) = self.packets.get(number)
                && verdict.is_lost(number, packet)
            {
                return Some(number);
            }
            low = number + 1;
        }
        None
    }

    /// Once the lost packets were taken out: sets when the first of those that stay counts as lost
    /// by time, of those that ask and lie below the greatest acknowledged number. It looks at all
    /// that lie below it, whether they ask or don't.
    pub fn detected(&mut self, verdict: &Verdict)
        ensures { self.new ≡ record self.old { loss_time = loss_time_of verdict.now self.old.packets } }
    {
        self.loss_time = self.first_loss(verdict);
    }

    /// When the loss timer expires, if it runs: when a packet is lost by time, or else, where one
    /// that asks is tracked, a probe timeout after the last that asks went. Each expiry since an
    /// acknowledgement came doubles that (RFC 9002, section 6.2.1).
    pub fn loss_moment(&self, timeout: Duration) -> Option<Instant>
        ensures { result ≡ loss_moment timeout self.now }
    {
        if let Some(moment) = self.loss_time {
            return Some(moment);
        }
        if !self.has_asking() {
            return None;
        }
        // Mostly it never expired since.
        let wait = if self.timeouts == 0 {
            timeout
        } else {
            timeout.saturating_mul(backoff(self.timeouts))
        };
        Some(self.last_asking + wait)
    }

    /// When the first of the packets that ask and lie below the greatest acknowledged number counts
    /// as lost by time.
    fn first_loss(&self, verdict: &Verdict) -> Option<Instant>
        ensures { result ≡ loss_time_of verdict.now self.now.packets }
    {
        let mut low = 0;
        let mut first = None;
        while let Some(number) = self.next_below(low, verdict.greatest) {
            if let Some(packet) = self.packets.get(number)
                && packet.ack_eliciting
            {
                first = Some(lesser(packet.time_sent + verdict.delay, first));
            }
            low = number + 1;
        }
        first
    }

    /// The least number of a tracked packet from `low` on that lies below `high`.
    fn next_below(&self, low: u64, high: u64) -> Option<u64>
        ensures some { IfSome result (λ n. StepsTo low high self.now.packets n) }
        ensures room { IfSome result (λ n. n < u64.MAX) }
        ensures none { IfNone result (up_to high (from low self.now.packets) ≡ []) }
    {
        let number = self.packets.first_from(low)?;
        if number < high { Some(number) } else { None }
    }
}
