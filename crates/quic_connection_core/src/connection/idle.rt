//! How long a connection is without a packet (RFC 9000, section 10.1).
ghost use Rattle.std.specs.Prelude.{◌≡◌, if◌then◌else◌};
ghost use Rattle.quic_time.specs.Timers.{has_come};
ghost use Rattle.quic_machine.specs.declared.answers.LostReason.TheVariants as reasons;
ghost use Rattle.quic_machine.specs.End.{with_end, drained_by};
ghost use Rattle.quic_machine.specs.Idle.{idle_reset, keep_alive_reset, keep_alive_expired, packet_heard, packet_given};

use crate::connection::Connection;
use quic_congestion::Controller;
use quic_machine::{LostReason, Timer};
use quic_packet::crypto::{HeaderKey, PacketKey};
use rand_core::Rng;

/// How many probe timeouts an idle timeout has at least (RFC 9000, section 10.1).
const IDLE_TIMEOUTS: u64 = 3;

impl<H: HeaderKey + Drop, K: PacketKey + Drop, R: Rng + Drop, C: Controller> Connection<
    H,
    K,
    R,
    C,
> {
    /// Restarts the idle timeout now: it has three probe timeouts at least.
    fn reset_idle_timeout(&mut self)
        ensures { self.new ≡ with_end self.old (idle_reset self.old.end) }
    {
        if let Some(timeout) = self.idle_timeout {
            let least = self.probe_timeout().saturating_mul(IDLE_TIMEOUTS);
            let end = self.closing.clock() + timeout.max(least);
            self.timers.set(Timer::Idle, end);
        }
    }

    /// Restarts the keep-alive interval.
    fn reset_keep_alive(&mut self)
        ensures { self.new ≡ with_end self.old (keep_alive_reset self.old.end) }
    {
        if let Some(interval) = self.transport.get_keep_alive_interval() {
            self.timers
                .set(Timer::KeepAlive, self.closing.clock() + interval);
        }
    }

    /// Notes that a packet was received: the idle timeout restarts, and does so again with the next
    /// ack-eliciting packet that is sent.
    pub(crate) fn on_packet_taken(&mut self)
        ensures { self.new ≡ with_end self.old (packet_heard self.old.end) }
    {
        self.permit_idle_reset = true;
        self.reset_idle_timeout();
        self.reset_keep_alive();
    }

    /// Notes that a packet was sent that is no close. If it is ack-eliciting and the first such
    /// since one was received, or since the endpoint was made, the idle timeout restarts.
    pub(crate) fn on_packet_given(&mut self, asks: bool)
        ensures { self.new ≡ with_end self.old (packet_given asks self.old.end) }
    {
        if asks && self.permit_idle_reset {
            self.permit_idle_reset = false;
            self.reset_idle_timeout();
        }
        self.reset_keep_alive();
    }

    /// Drains the endpoint if nothing came for the idle timeout, without a word to the peer.
    /// Returns whether that is so.
    pub(crate) fn expire_idle_timer(&mut self) -> bool
        ensures expired { result ≡ has_come self.old.end.timers.idle self.old.end.closing.clock }
        ensures end { self.new ≡ with_end self.old (if has_come self.old.end.timers.idle self.old.end.closing.clock then drained_by reasons.Idle self.old.end else self.old.end) }
    {
        if !self.timers.is_expired(Timer::Idle, self.closing.clock()) {
            return false;
        }
        self.closing.drain(LostReason::Idle, LostReason::Idle);
        self.stop_timers();
        true
    }

    /// Queues a PING if no packet came or went for the keep-alive interval, and stops the timer
    /// until the PING is sent (RFC 9000, section 10.1.2).
    pub(crate) fn expire_keep_alive_timer(&mut self)
        ensures { self.new ≡ with_end self.old (keep_alive_expired (has_come self.old.end.timers.keep_alive self.old.end.closing.clock) self.old.end) }
    {
        let now = self.closing.clock();
        if self.timers.is_expired(Timer::KeepAlive, now) {
            self.timers.stop(Timer::KeepAlive);
            self.ping();
        }
    }
}
