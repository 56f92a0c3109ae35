//! How many bytes may be in flight: controllers, and what makes them (RFC 9002, section 7).
ghost use Rattle.std.specs.Prelude.{◌≡◌, ℕ, Bool, Option, None, IfOk};
ghost use Rattle.quic_congestion.specs.Congestion.{KeepsRoom, TakesSize, Steps, steps_of};
ghost use Rattle.quic_time.specs.Rtt.{Rtt};

pub(crate) mod new_reno;

use quic_time::{Instant, RttEstimator};
use std::alloc::AllocError;

/// What a controller shows of itself, as quinn-proto's `ControllerMetrics`.
#[derive(Clone, Copy, Debug, Default, PartialEq, Eq)]
pub struct ControllerMetrics {
    /// The window, in bytes.
    pub congestion_window: u64,
    /// The threshold of slow start, in bytes, where there is one.
    pub ssthresh: Option<u64>,
    /// The rate of pacing, in bits a second, where there is one.
    pub pacing_rate: Option<u64>,
}

/// Says how many bytes may be in flight, as quinn-proto's `Controller`.
///
/// Contracts see what each call makes of the controller as a function of it. A controller keeps the
/// size of a datagram that was handed in last, and once two such datagrams fit the window, each
/// call leaves it so.
pub trait Controller: Drop {
    // The window, the window at the beginning, and the size handed in last.
    ghost window_of: { Self → ℕ };

    ghost initial_of: { Self → ℕ };

    ghost size_of: { Self → ℕ };

    // What is shown beside the window.
    ghost threshold_of: { Self → Option ℕ } = { λ c. None };

    ghost pacing_rate_of: { Self → Option ℕ } = { λ c. None };

    // What each call makes of the controller; by default it is left as it is by what is sent and
    // acknowledged.
    ghost after_sent: { Self → ℕ → ℕ → ℕ → Self } = { λ c now bytes last. c };

    ghost after_ack: { Self → ℕ → ℕ → ℕ → Bool → Rtt → Self } = { λ c now sent bytes app_limited rtt. c };

    ghost after_end_acks: { Self → ℕ → ℕ → Bool → Option ℕ → Self } = { λ c now in_flight app_limited largest. c };

    ghost after_congestion_event: { Self → ℕ → ℕ → Bool → ℕ → Self };

    ghost after_mtu_update: { Self → ℕ → Self };

    // All of these.
    ghost steps: { Steps Self };

    /// So many bytes were just sent in packets that ask for an acknowledgement, up to this packet
    /// number. A controller that has no use of it does nothing here.
    fn on_sent(&mut self, now: Instant, bytes: u64, last_packet_number: u64)
        ensures { self.new ≡ after_sent self.old now bytes last_packet_number };

    /// A packet of so many bytes, sent at that moment, is acknowledged now. A controller that has
    /// no use of it does nothing here.
    ///
    /// `app_limited`: what there was to send, and not the window, bounded what was in flight.
    /// `rtt`: the estimate of the round-trip time, this acknowledgement's sample not taken in yet.
    fn on_ack(
        &mut self,
        now: Instant,
        sent: Instant,
        bytes: u64,
        app_limited: bool,
        rtt: &RttEstimator,
    )
        ensures { self.new ≡ after_ack self.old now sent bytes app_limited rtt.now };

    /// The acknowledgements that came at this moment were all told, `in_flight` bytes are left in
    /// flight, and `largest` is the greatest number acknowledged, if there is one. A controller
    /// that has no use of it does nothing here.
    fn on_end_acks(&mut self, now: Instant, in_flight: u64, app_limited: bool, largest: Option<u64>)
        ensures { self.new ≡ after_end_acks self.old now in_flight app_limited largest };

    /// Packets were lost or marked as having met congestion; the newest of them was sent at that
    /// moment.
    ///
    /// `persistent`: all that was sent in a whole period is lost (RFC 9002, section 7.6).
    /// `lost_bytes`: how many bytes are lost, 0 where packets were marked.
    fn on_congestion_event(
        &mut self,
        now: Instant,
        sent: Instant,
        persistent: bool,
        lost_bytes: u64,
    )
        ensures { self.new ≡ after_congestion_event self.old now sent persistent lost_bytes };

    /// From now on a datagram has at most so many bytes.
    fn on_mtu_update(&mut self, new_mtu: u16)
        ensures { self.new ≡ after_mtu_update self.old new_mtu };

    /// How many bytes of packets that ask for an acknowledgement may be in flight.
    fn window(&self) -> u64
        ensures { result ≡ window_of self.now };

    /// What the controller shows of itself: its window, and the rest where it has it.
    fn metrics(&self) -> ControllerMetrics
        ensures window { result.congestion_window ≡ window_of self.now }
        ensures threshold { result.ssthresh ≡ threshold_of self.now }
        ensures pacing { result.pacing_rate ≡ pacing_rate_of self.now };

    /// The window that it begins with, in bytes.
    fn initial_window(&self) -> u64
        ensures { result ≡ initial_of self.now };

    /// A second controller in the same state.
    ///
    /// # Errors
    ///
    /// - [`AllocError`]: an allocation fails. Nothing changes.
    fn try_clone(&self) -> Result<Self, AllocError>
        ensures same { IfOk result (λ twin. twin ≡ self.now) };

    // The steps are these.
    ghost steps_are: { steps ≡ steps_of after_sent after_ack after_end_acks after_congestion_event after_mtu_update };

    // Each call keeps the size, or takes the one that is handed in, and the room for two datagrams
    // of it.
    ghost sent_keeps_room: { (c : Self) (now bytes last : ℕ)
        → KeepsRoom size_of window_of c (after_sent c now bytes last) };

    ghost ack_keeps_room: { (c : Self) (now sent bytes : ℕ) (app_limited : Bool) (rtt : Rtt)
        → KeepsRoom size_of window_of c (after_ack c now sent bytes app_limited rtt) };

    ghost end_acks_keeps_room: { (c : Self) (now in_flight : ℕ) (app_limited : Bool) (largest : Option ℕ)
        → KeepsRoom size_of window_of c (after_end_acks c now in_flight app_limited largest) };

    ghost event_keeps_room: { (c : Self) (now sent : ℕ) (persistent : Bool) (lost : ℕ)
        → KeepsRoom size_of window_of c (after_congestion_event c now sent persistent lost) };

    ghost update_takes_size: { (c : Self) (size : ℕ)
        → TakesSize size_of window_of c size (after_mtu_update c size) };
}

/// Makes a controller for each path, as quinn-proto's `ControllerFactory`.
pub trait ControllerFactory {
    /// What it makes.
    type Controller: Controller;

    // The controller made at a moment for a size.
    ghost built: { Self → ℕ → ℕ → Self.Controller };

    /// Makes a controller at this moment, for datagrams of at most so many bytes.
    fn build(&self, now: Instant, current_mtu: u16) -> Self::Controller
        ensures { result ≡ built self.now now current_mtu };

    // That size is the one handed in last.
    ghost built_for_size: { (f : Self) (now size : ℕ) → Self.Controller.size_of (built f now size) ≡ size };
}
