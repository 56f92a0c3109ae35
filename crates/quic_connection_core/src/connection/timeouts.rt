//! Timers of an end, and what the application is told.
ghost use Rattle.std.specs.Prelude.{◌≡◌, ◌≢◌, OnOk, OnErr};
ghost use Rattle.quic_time.specs.Timers.{timer_at, next_timer, has_come, no_timers};
ghost use Rattle.quic_machine.specs.End.{with_end, policy_of, HasFailed, drawing};
ghost use Rattle.quic_machine.specs.Calls.{end_tells, end_after_event};
ghost use Rattle.quic_machine.specs.Lacking.{LosesOrHasFailed};
ghost use Rattle.quic_machine.specs.Timeouts.{timed_out, told_timed_out, expired, loss_expired, told_expired, acks_expired, pacing_expired};
ghost use Rattle.quic_connection_parts.specs.Drawn.{words_of, words_at, Draws};
ghost use Rattle.quic_connection_parts.specs.Telling.{telling, KeepsRest};
ghost use Rattle.quic_connection_parts.specs.Tracked.{LosesByTime};

use crate::connection::Connection;
use quic_congestion::Controller;
use quic_machine::{Event, Failed, Instant, State, Timer};
use quic_packet::crypto::{HeaderKey, PacketKey};
use rand_core::Rng;
use std::alloc::AllocError;

impl<H: HeaderKey + Drop, K: PacketKey + Drop, R: Rng + Drop, C: Controller> Connection<
    H,
    K,
    R,
    C,
> {
    /// Lets the timers expire that are set to this time or an earlier one.
    ///
    /// - The loss timer: packets are lost by time if it was set for one, else two PTO probes are
    ///   due (RFC 9002, section 6.2).
    /// - The ACK timer: an ACK is due (RFC 9000, section 13.2.1).
    /// - Path validation: another PATH_CHALLENGE, with fresh random data, is queued, and the timer
    ///   is set anew (section 8.2.4).
    /// - The pacer: the next poll consults it again (RFC 9002, section 7.7).
    /// - The idle timeout: the endpoint is drained, without a packet to its peer (RFC 9000, section
    ///   10.1).
    /// - Keep-alive: a PING is queued (section 10.1.2).
    /// - The close: a closing endpoint is drained (section 10.2).
    ///
    /// The loss timer is set anew then, perhaps to a time that has passed. A drained endpoint has
    /// no timers and ignores the time.
    ///
    /// # Errors
    ///
    /// - [`Failed`]: the endpoint had failed before. Nothing changes.
    /// - [`Failed`]: an allocation fails, where packets are lost. The endpoint fails for good and
    ///   has no timer.
    pub fn handle_timeout(&mut self, now: Instant) -> Result<(), Failed>
        ensures answer { OnOk result (result ≡ (timed_out (policy_of H.protection K.aead K.seal_limit K.refusal_limit (words_of R.stream) self.old) self.old.end now).answer) }
        ensures end { OnOk result (self.new ≡ drawing self.new.random (telling C.steps self.old (told_timed_out self.old.end now) (timed_out (policy_of H.protection K.aead K.seal_limit K.refusal_limit (words_of R.stream) self.old) self.old.end now).end)) }
        ensures random { OnOk result (Draws R.stream self.old self.new) }
        ensures failed { OnErr result (HasFailed self.old self.new) }
        ensures stopped { self.old.end.closing.state ≢ State.Failed → OnErr result (self.new.end.timers ≡ no_timers) }
        ensures lacking { OnErr result (LosesOrHasFailed self.old.end now) }
        ensures still { self.old.end.closing.state ≡ State.Failed → self.new ≡ self.old }
    {
        match self.state() {
            State::Failed => Err(Failed),
            State::Drained => Ok(()),
            State::Closing => {
                self.expire_close_timer(now);
                Ok(())
            }
            State::Open => self.take_timeout(now),
        }
    }

    /// Advances the time of an open endpoint, and lets its timers expire. If out of memory, the
    /// endpoint fails for good.
    fn take_timeout(&mut self, now: Instant) -> Result<(), Failed>
        requires { self.old.end.closing.state ≡ State.Open }
        ensures end { OnOk result (self.new ≡ drawing self.new.random (telling C.steps self.old (told_timed_out self.old.end now) (timed_out (policy_of H.protection K.aead K.seal_limit K.refusal_limit (words_of R.stream) self.old) self.old.end now).end)) }
        ensures random { OnOk result (Draws R.stream self.old self.new) }
        ensures failed { OnErr result (HasFailed self.old self.new) }
        ensures stopped { OnErr result (self.new.end.timers ≡ no_timers) }
        ensures lacking { OnErr result (LosesOrHasFailed self.old.end now) }
    {
        self.tick(now);
        if self.expire_timers().is_err() {
            self.fail();
            return Err(Failed);
        }
        Ok(())
    }

    /// Lets the timers expire that are due. Fails if out of memory; the endpoint is then unusable.
    fn expire_timers(&mut self) -> Result<(), AllocError>
        ensures ok { OnOk result (self.new ≡ drawing self.new.random (telling C.steps self.old (told_expired (has_come self.old.end.timers.loss_detection self.old.end.closing.clock) self.old.end) (expired (words_at R.stream self.old) self.old.end))) }
        ensures random { OnOk result (Draws R.stream self.old self.new) }
        ensures others { OnErr result (KeepsRest self.old self.new) }
        ensures lacking { OnErr result (LosesByTime self.old.end) }
    {
        self.expire_loss_timer()?;
        if self.expire_idle_timer() {
            return Ok(());
        }
        self.expire_path_timer();
        self.expire_keep_alive_timer();
        self.expire_pacing_timer();
        self.expire_ack_timer();
        self.set_loss_timer();
        Ok(())
    }

    /// If the loss timer has expired, packets are lost by time, if it was set for one, else two PTO
    /// probes are due. Fails if out of memory; the endpoint is then unusable.
    fn expire_loss_timer(&mut self) -> Result<(), AllocError>
        ensures ok { OnOk result (self.new ≡ telling C.steps self.old (told_expired (has_come self.old.end.timers.loss_detection self.old.end.closing.clock) self.old.end) (loss_expired (has_come self.old.end.timers.loss_detection self.old.end.closing.clock) self.old.end)) }
        ensures others { KeepsRest self.old self.new }
        ensures lacking { OnErr result (LosesByTime self.old.end) }
    {
        if !self
            .timers
            .is_expired(Timer::LossDetection, self.closing.clock())
        {
            return Ok(());
        }
        match self.space.tracking.loss_time() {
            Some(_) => self.detect_lost_packets(false),
            None => {
                self.space.tracking.expire();
                Ok(())
            }
        }
    }

    /// If the ACK timer has expired, an ACK is due, and the timer is stopped.
    fn expire_ack_timer(&mut self)
        ensures { self.new ≡ with_end self.old (acks_expired (has_come self.old.end.timers.max_ack_delay self.old.end.closing.clock) self.old.end) }
    {
        if self
            .timers
            .is_expired(Timer::MaxAckDelay, self.closing.clock())
        {
            self.timers.stop(Timer::MaxAckDelay);
            self.space.acknowledging.expire();
        }
    }

    /// If the pacing timer has expired, it is stopped: the next poll consults the pacer again.
    fn expire_pacing_timer(&mut self)
        ensures { self.new ≡ with_end self.old (pacing_expired (has_come self.old.end.timers.pacing self.old.end.closing.clock) self.old.end) }
    {
        if self.timers.is_expired(Timer::Pacing, self.closing.clock()) {
            self.timers.stop(Timer::Pacing);
        }
    }

    /// When a timer expires, if it is set, in nanoseconds.
    pub fn timer(&self, timer: Timer) -> Option<Instant>
        ensures { result ≡ timer_at timer self.now.end.timers }
    {
        self.timers.get(timer)
    }

    /// The earliest deadline of a timer, if one is set: when
    /// [`handle_timeout`](Self::handle_timeout) is to be called next.
    pub fn poll_timeout(&self) -> Option<Instant>
        ensures { result ≡ next_timer self.now.end.timers }
    {
        self.timers.next_timeout()
    }

    /// The next event for the application: that a message came while none was unread, once for each
    /// that did; then, once at a client, that the handshake is confirmed; then what happened to
    /// streams; and then that the connection is lost, once, and why.
    pub fn poll(&mut self) -> Option<Event>
        ensures answer { result ≡ end_tells self.old.end }
        ensures end { self.new ≡ with_end self.old (end_after_event self.old.end) }
    {
        if self.tell_message() {
            return Some(Event::Message);
        }
        if self.tell_confirmation() {
            return Some(Event::HandshakeConfirmed);
        }
        match self.streams.state.poll() {
            Some(event) => Some(Event::Stream(event)),
            None => self.closing.poll().map(Event::Lost),
        }
    }
}
