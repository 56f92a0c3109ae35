//! How sending is spread over time (RFC 9002, section 7.7; quinn-proto's `pacing`).
ghost use Rattle.std.specs.Prelude.{◌≡◌, ◌+◌, ◌-◌, ◌<◌, ◌≤◌, ◌^◌, min};
ghost use Rattle.quic_congestion.specs.Pacer.{capacity_of, new_pacing, after_datagram, after_resize, gained, after_refill, goes_at_once, time_for, next_send, after_delay, delay_of};

use quic_time::{Duration, Instant};
use std::marker::Model;

/// A full pacer lets go what the window gives in this time. Timers of the caller may be no finer
/// than 1 ms.
const BURST_INTERVAL_NANOS: u128 = 2_000_000;

/// The fewest datagrams that a full pacer lets go: bursts that are too short cost more than they
/// spread.
const MIN_BURST_SIZE: u128 = 10;

/// The most datagrams that a full pacer lets go.
const MAX_BURST_SIZE: u128 = 256;

/// Spreads what the window allows over the round trip (quinn-proto's `Pacer`). It holds tokens, one
/// for each byte that may go at once, and five quarters of a window come in each round trip.
#[derive(Debug, Drop)]
pub struct Pacer {
    capacity: u64,
    last_window: u64,
    last_mtu: u16,
    tokens: u64,
    prev: Instant,
}

impl Model for Pacer {
    ghost use Rattle.quic_congestion.specs.Pacer.{Pacing};

    ghost Value = { Pacing };

    ghost view = { λ p. record {
      capacity = p.capacity;
      window = p.last_window;
      size = p.last_mtu;
      tokens = p.tokens;
      refilled = p.prev;
    } };
}

impl Pacer {
    /// A full pacer for a round trip, a window in bytes and datagrams of at most `mtu` bytes.
    pub fn new(smoothed_rtt: Duration, window: u64, mtu: u16, now: Instant) -> Self
        ensures { result ≡ new_pacing smoothed_rtt window mtu now }
    {
        let capacity = optimal_capacity(smoothed_rtt, window, mtu);
        Self {
            capacity,
            last_window: window,
            last_mtu: mtu,
            tokens: capacity,
            prev: now,
        }
    }

    /// Takes the tokens of a datagram that goes, of so many bytes; all of them where there are
    /// fewer.
    pub fn on_transmit(&mut self, packet_length: u16)
        ensures { self.new ≡ after_datagram self.old packet_length }
    {
        self.tokens = self.tokens.saturating_sub(u64::from(packet_length));
    }

    /// The moment until which so many bytes have to wait, or `None` where they may go now. Windows
    /// above 2^32 - 1 bytes and a round trip of 0 aren't paced. No moment is earlier than `now`.
    ///
    /// The window has to be above 0.
    pub fn delay(
        &mut self,
        smoothed_rtt: Duration,
        bytes_to_send: u64,
        mtu: u16,
        window: u64,
        now: Instant,
    ) -> Option<Instant>
        requires { 0 < window }
        ensures after { self.new ≡ after_delay self.old smoothed_rtt bytes_to_send mtu window now }
        ensures answer { result ≡ delay_of self.old smoothed_rtt bytes_to_send mtu window now }
    {
        self.resize(smoothed_rtt, mtu, window);
        if self.goes_at_once(smoothed_rtt, bytes_to_send, window) {
            return None;
        }
        self.refill(smoothed_rtt, window, now);
        self.next_send(smoothed_rtt, bytes_to_send, window, now)
    }

    /// Takes over a window and a size of datagrams.
    fn resize(&mut self, smoothed_rtt: Duration, mtu: u16, window: u64)
        ensures { self.new ≡ after_resize self.old smoothed_rtt window mtu }
    {
        if self.last_window == window && self.last_mtu == mtu {
            return;
        }
        self.capacity = optimal_capacity(smoothed_rtt, window, mtu);
        self.tokens = self.tokens.min(self.capacity);
        self.last_window = window;
        self.last_mtu = mtu;
    }

    /// Whether the bytes may go without a look at the clock.
    fn goes_at_once(&self, smoothed_rtt: Duration, bytes_to_send: u64, window: u64) -> bool
        ensures { result ≡ goes_at_once self.now smoothed_rtt bytes_to_send window }
    {
        bytes_to_send <= self.tokens || window > u64::from(u32::MAX) || smoothed_rtt.as_nanos() == 0
    }

    /// Adds the tokens that came since the last did.
    fn refill(&mut self, smoothed_rtt: Duration, window: u64, now: Instant)
        requires paced { 0 < smoothed_rtt }
        requires bounded { window < 2 ^ 32 }
        ensures { self.new ≡ after_refill self.old smoothed_rtt window now }
    {
        let elapsed = now.saturating_duration_since(self.prev);
        let tokens = u128::from(self.tokens) + tokens_in(smoothed_rtt, window, elapsed);
        self.tokens = tokens.min(u128::from(self.capacity)) as u64;
        self.prev = now;
    }

    /// When the pacer is full, or has tokens for the bytes; `None` where it has them.
    fn next_send(
        &self,
        smoothed_rtt: Duration,
        bytes_to_send: u64,
        window: u64,
        now: Instant,
    ) -> Option<Instant>
        requires { 0 < window }
        ensures { result ≡ next_send self.now smoothed_rtt bytes_to_send window now }
    {
        if bytes_to_send <= self.tokens {
            return None;
        }
        let missing = bytes_to_send.max(self.capacity) - self.tokens;
        Some(later_by(now, wait_for(smoothed_rtt, missing, window)))
    }
}

/// What a pacer holds at most, in bytes.
fn optimal_capacity(smoothed_rtt: Duration, window: u64, mtu: u16) -> u64
    ensures { result ≡ capacity_of smoothed_rtt window mtu }
{
    let rtt = u128::from(smoothed_rtt.as_nanos().max(1));
    let mtu = u128::from(mtu);
    let capacity = u128::from(window) * BURST_INTERVAL_NANOS / rtt;
    capacity.clamp(MIN_BURST_SIZE * mtu, MAX_BURST_SIZE * mtu) as u64
}

/// The tokens that come in so long a time.
fn tokens_in(smoothed_rtt: Duration, window: u64, elapsed: Duration) -> u128
    requires paced { 0 < smoothed_rtt }
    requires bounded { window < 2 ^ 32 }
    ensures value { result ≡ gained smoothed_rtt window elapsed }
    ensures bound { result < 2 ^ 99 }
{
    let scaled = u128::from(window) * 5 * u128::from(elapsed.as_nanos());
    scaled / (4 * u128::from(smoothed_rtt.as_nanos()))
}

/// The nanoseconds in which so many tokens come.
fn wait_for(smoothed_rtt: Duration, missing: u64, window: u64) -> u128
    requires { 0 < window }
    ensures value { result ≡ time_for smoothed_rtt missing window }
    ensures bound { result ≤ 2 ^ 128 - 2 ^ 64 }
{
    let scaled = u128::from(smoothed_rtt.as_nanos()) * u128::from(missing);
    scaled / u128::from(window) / 5 * 4
}

/// The moment so many nanoseconds later, or else the greatest.
fn later_by(now: Instant, nanos: u128) -> Instant
    requires { nanos ≤ 2 ^ 128 - 2 ^ 64 }
    ensures { result ≡ min (now + nanos) (2 ^ 64 - 1) }
{
    let moment = u128::from(now.as_nanos()) + nanos;
    Instant::from_nanos(moment.min(u128::from(u64::MAX)) as u64)
}
