//! The controller of RFC 9002: slow start up to a threshold, one datagram a round trip above it,
//! and a smaller window after a loss.
ghost use Rattle.std.specs.Prelude.{◌≡◌, ◌*◌, ◌≤◌, ◌<◌, Some, nat_lt, IfOk, IsOk, refl};
ghost use Rattle.quic_congestion.specs.NewReno.{default_reno, loss_leaves, reno_made, bytes_sum, is_past, grown, recounted, reno_acked, reduced, collapsed, reno_congested, reno_resized};

use crate::congestion::{Controller, ControllerFactory, ControllerMetrics};
use quic_time::{Instant, RttEstimator};
use std::alloc::AllocError;
use std::marker::Model;

/// How a [`NewReno`] is configured, as quinn-proto's `NewRenoConfig`.
#[derive(Clone, Copy, Debug)]
pub struct NewRenoConfig {
    initial_window: u64,
    // What a loss leaves of the window, as a fraction of at most 1.
    numerator: u64,
    denominator: u64,
}

impl Model for NewRenoConfig {
    ghost use Rattle.std.specs.Prelude.{◌≤◌, ◌<◌};
    ghost use Rattle.quic_congestion.specs.NewReno.{RenoSettings};

    ghost Value = { RenoSettings };

    ghost view = { λ c. record {
      initial = c.initial_window;
      numerator = c.numerator;
      denominator = c.denominator;
    } };

    ghost invariant = { λ c. (c.numerator ≤ c.denominator) × (0 < c.denominator) };

    ghost inverse = { λ s. record {
      initial_window = s.initial;
      numerator = s.numerator;
      denominator = s.denominator;
    } };
}

impl NewRenoConfig {
    /// The window that a controller begins with, in bytes. The default is 12000 bytes. Where it
    /// doesn't hold two datagrams of the size that the path begins with, no connection is made
    /// (`ConfigError::Window`).
    pub fn initial_window(&mut self, value: u64) -> &mut Self
        ensures same_reference { result.ghost_name ≡ self.entry.ghost_name }
        ensures value { result.now ≡ record self.old { initial = value } }
    {
        self.initial_window = value;
        self
    }

    /// What a loss leaves of the window: `numerator / denominator` of it, but two datagrams at
    /// least. The numerator has to be at most the denominator, and the denominator above 0. The
    /// default is 1/2.
    pub fn loss_reduction_factor(&mut self, numerator: u64, denominator: u64) -> &mut Self
        requires at_most_one { numerator ≤ denominator }
        requires above_zero { 0 < denominator }
        ensures same_reference { result.ghost_name ≡ self.entry.ghost_name }
        ensures value { result.now ≡ record self.old { numerator = numerator; denominator = denominator } }
    {
        self.numerator = numerator;
        self.denominator = denominator;
        self
    }

    // What a loss leaves of a window.
    #[tactic(auto, using(crate::proofs::Fractions::product_fits, crate::proofs::Fractions::part_is_less))]
    fn after_loss(&self, window: u64) -> u64
        ensures { result ≡ loss_leaves self.now window }
    {
        let left = u128::from(window) * u128::from(self.numerator) / u128::from(self.denominator);
        left as u64
    }
}

impl Default for NewRenoConfig {
    ghost is_default = { λ c. c ≡ default_reno };

    /// A window of 12000 bytes, of which a loss leaves the half.
    fn default() -> NewRenoConfig {
        NewRenoConfig {
            initial_window: 12000,
            numerator: 1,
            denominator: 2,
        }
    }
}

/// The controller of RFC 9002, section 7, as quinn-proto's `NewReno`. It never takes memory.
#[derive(Clone, Copy, Debug)]
pub struct NewReno {
    config: NewRenoConfig,
    current_mtu: u16,
    window: u64,
    // Below it the window grows by what is acknowledged.
    ssthresh: u64,
    // Packets sent up to this moment change nothing.
    recovery_start_time: Instant,
    // Bytes acknowledged above the threshold since the window grew.
    bytes_acked: u64,
}

impl Model for NewReno {
    ghost use Rattle.quic_congestion.specs.NewReno.{Reno};

    ghost Value = { Reno };

    ghost view = { λ c. record {
      settings = c.config;
      size = c.current_mtu;
      window = c.window;
      threshold = c.ssthresh;
      recovery = c.recovery_start_time;
      counted = c.bytes_acked;
    } };

    ghost inverse = { λ r. record {
      config = r.settings;
      current_mtu = r.size;
      window = r.window;
      ssthresh = r.threshold;
      recovery_start_time = r.recovery;
      bytes_acked = r.counted;
    } };
}

impl NewReno {
    /// A controller made now, for datagrams of at most so many bytes. Its window is the configured
    /// one.
    pub fn new(config: NewRenoConfig, now: Instant, current_mtu: u16) -> Self
        ensures { result ≡ reno_made config now current_mtu }
    {
        let window = config.initial_window;
        NewReno {
            config,
            current_mtu,
            window,
            ssthresh: u64::MAX,
            recovery_start_time: now,
            bytes_acked: 0,
        }
    }

    // Two datagrams.
    fn minimum_window(&self) -> u64
        ensures { result ≡ 2 * self.now.size }
    {
        2 * u64::from(self.current_mtu)
    }

    // Whether a packet was sent before recovery began, or as it began.
    fn is_past(&self, sent: Instant) -> bool
        ensures { result ≡ is_past self.now sent }
    {
        sent <= self.recovery_start_time
    }

    // Below the threshold.
    fn slow_start(&mut self, bytes: u64)
        ensures { self.new ≡ grown self.old (bytes_sum self.old.window bytes) }
    {
        self.window = self.window.saturating_add(bytes);
        if self.ssthresh <= self.window {
            self.bytes_acked = self.window - self.ssthresh;
        }
    }

    // At or above the threshold.
    fn avoid_congestion(&mut self, bytes: u64)
        ensures { self.new ≡ recounted self.old (bytes_sum self.old.counted bytes) }
    {
        self.bytes_acked = self.bytes_acked.saturating_add(bytes);
        if self.window <= self.bytes_acked {
            self.bytes_acked -= self.window;
            self.window = self.window.saturating_add(u64::from(self.current_mtu));
        }
    }

    // Whether the window is below the threshold.
    fn is_slow_start(&self) -> bool
        ensures { result ≡ nat_lt self.now.window self.now.threshold }
    {
        self.window < self.ssthresh
    }

    // The window that a loss leaves.
    fn reduced_window(&self) -> u64
        ensures { result ≡ reduced self.now }
    {
        self.config
            .after_loss(self.window)
            .max(self.minimum_window())
    }

    // Recovery begins with this window.
    fn recover(&mut self, now: Instant, window: u64)
        ensures { self.new ≡ record self.old { recovery = now; window = window; threshold = window } }
    {
        self.recovery_start_time = now;
        self.window = window;
        self.ssthresh = window;
    }

    // The window is the least.
    fn collapse(&mut self)
        ensures { self.new ≡ collapsed self.old }
    {
        self.window = self.minimum_window();
    }
}

impl Controller for NewReno {
    ghost use Rattle.quic_congestion.specs.NewReno.{reno_steps};
    ghost use Rattle.quic_congestion.specs.NewRenoLaw.{stays, acked_keeps_room, congested_keeps_room, resized_takes_size};

    ghost window_of = { λ r. r.window };

    ghost steps = { reno_steps };

    ghost initial_of = { λ r. r.settings.initial };

    ghost size_of = { λ r. r.size };

    ghost threshold_of = { λ r. Some r.threshold };

    ghost after_ack = { λ r now sent bytes app_limited rtt. reno_acked r sent bytes app_limited };

    ghost after_congestion_event = { λ r now sent persistent lost. reno_congested r now sent persistent };

    ghost after_mtu_update = { reno_resized };

    /// Nothing changes.
    fn on_sent(&mut self, _now: Instant, _bytes: u64, _last_packet_number: u64) {}

    /// The window grows, unless the packet is of the time before recovery began or the window
    /// wasn't used up: by the bytes below the threshold, and above it by a datagram for each window
    /// of bytes.
    fn on_ack(
        &mut self,
        _now: Instant,
        sent: Instant,
        bytes: u64,
        app_limited: bool,
        _rtt: &RttEstimator,
    ) {
        if app_limited || self.is_past(sent) {
            return;
        }
        if self.is_slow_start() {
            self.slow_start(bytes);
        } else {
            self.avoid_congestion(bytes);
        }
    }

    /// Nothing changes.
    fn on_end_acks(
        &mut self,
        _now: Instant,
        _in_flight: u64,
        _app_limited: bool,
        _largest: Option<u64>,
    ) {}

    /// Recovery begins, unless the packet is of the time before the last one began, and the window
    /// falls.
    fn on_congestion_event(
        &mut self,
        now: Instant,
        sent: Instant,
        persistent: bool,
        _lost_bytes: u64,
    ) {
        if self.is_past(sent) {
            return;
        }
        let window = self.reduced_window();
        self.recover(now, window);
        if persistent {
            self.collapse();
        }
    }

    /// The window is raised to two datagrams at least.
    fn on_mtu_update(&mut self, new_mtu: u16) {
        self.current_mtu = new_mtu;
        self.window = self.window.max(2 * u64::from(new_mtu));
    }

    fn window(&self) -> u64 {
        self.window
    }

    fn metrics(&self) -> ControllerMetrics {
        ControllerMetrics {
            congestion_window: self.window,
            ssthresh: Some(self.ssthresh),
            pacing_rate: None,
        }
    }

    fn initial_window(&self) -> u64 {
        self.config.initial_window
    }

    /// It is never an `Err`.
    fn try_clone(&self) -> Result<Self, AllocError>
        ensures same { IfOk result (λ twin. twin ≡ self.now) }
        ensures made { IsOk result }
    {
        Ok(*self)
    }

    ghost steps_are = { refl };

    ghost sent_keeps_room = { λ r now bytes last. stays r };

    ghost ack_keeps_room = { λ r now sent bytes app_limited rtt. acked_keeps_room r sent bytes app_limited };

    ghost end_acks_keeps_room = { λ r now in_flight app_limited largest. stays r };

    ghost event_keeps_room = { λ r now sent persistent lost. congested_keeps_room r now sent persistent };

    ghost update_takes_size = { resized_takes_size };
}

impl ControllerFactory for NewRenoConfig {
    type Controller = NewReno;

    ghost built = { reno_made };

    fn build(&self, now: Instant, current_mtu: u16) -> NewReno {
        NewReno::new(*self, now, current_mtu)
    }

    ghost built_for_size = { λ s now size. refl };
}
