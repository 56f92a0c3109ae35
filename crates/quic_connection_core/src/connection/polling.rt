//! What goes at a poll, if something does.
ghost use Rattle.std.specs.Prelude.{◌≡◌, ◌≢◌, ◌-◌, ◌≤◌, ◌++◌, IfOk, IfSome, OnOk, OnErr, Ok, None, true, false};
ghost use Rattle.std.specs.Option.{is_some};
ghost use Rattle.quic_time.specs.Timers.{no_timers};
ghost use Rattle.quic_machine.specs.End.{with_end, hearing, policy_of, HasFailed, words_drawn};
ghost use Rattle.quic_machine.specs.Heard.{heard_sent, heard_given};
ghost use Rattle.quic_machine.specs.Poll.{IsSilent, polled, told_polled, is_gated, gated, asks_to_go, waits, leaves_at, leaves_if, mark_of, probed};
ghost use Rattle.quic_machine.specs.PollCases.{ready_at};
ghost use Rattle.quic_connection_parts.specs.Leaving.{Leaves, rested};
ghost use Rattle.quic_machine.specs.Control.{is_window_full, by_window};
ghost use Rattle.quic_machine.specs.Lacking.{PollTakes, MovesRecord};
ghost use Rattle.quic_connection_parts.specs.Given.{given_bytes};
ghost use Rattle.quic_connection_parts.specs.Drawn.{words_of, after_words};
ghost use Rattle.quic_connection_parts.specs.Telling.{reading};
ghost use Rattle.quic_congestion.specs.Congestion.{after_calls};

use crate::connection::Connection;
use quic_congestion::Controller;
use quic_connection_parts::leaving::Leaving;
use quic_connection_parts::polling::pacer_answer;
use quic_machine::{Failed, Instant, State, Timer, Transmit};
use quic_packet::crypto::{HeaderKey, PacketKey};
use quic_streams_handles::EndStreams;
use quic_wire_core::EcnCodepoint;
use rand_core::Rng;
use std::alloc::AllocError;

impl<H: HeaderKey + Drop, K: PacketKey + Drop, R: Rng + Drop, C: Controller> Connection<
    H,
    K,
    R,
    C,
> {
    /// Appends the next datagram to `out`, if there is something to send at this time: a due ACK,
    /// PATH_CHALLENGE, PATH_RESPONSE, PING, IMMEDIATE_ACK, ACK_FREQUENCY, control frames of streams
    /// and IDs, messages, or stream data (RFC 9000, sections 8.2, 13.2 and 13.3; RFC 9221, section
    /// 5). An ACK that isn't due goes along where it fits. The datagram is tracked until it is
    /// acknowledged, lost or forgotten, and sets the loss timer anew. If its number is the one
    /// after a skipped one, a random value says which is skipped next. Its bytes count as sent
    /// (section 8.1).
    ///
    /// If a PTO probe is pending and no control frame is, the control frames of the oldest tracked
    /// packet that has any are queued again; else a PING is (RFC 9002, section 6.2.4). To a peer
    /// that advertised min_ack_delay an IMMEDIATE_ACK goes with each PTO probe, and in place of
    /// that PING (QUIC Acknowledgement Frequency, section 5).
    ///
    /// Ack-eliciting packets are held back while the congestion window has no room for a full
    /// datagram, or until the pacer's deadline, for which [`Timer::Pacing`] is set. A due ACK is
    /// still sent, alone; PTO probes are exempt from both (RFC 9002, sections 7, 7.5 and 7.7).
    ///
    /// Nothing is sent while the peer's address isn't validated and one more datagram of the
    /// current size would come to more than three times the bytes that came (RFC 9000, section
    /// 8.1).
    ///
    /// If nothing is pending, a PING may be sent as an MTU probe, no smaller than the current size:
    /// if path MTU discovery is configured and names a size to probe, the peer's address is
    /// validated, and the congestion window has room for the greatest size that is probed (RFC
    /// 8899, section 5.3; RFC 9000, section 14.3).
    ///
    /// The datagram has at most [`Connection::current_mtu`] bytes, or is such an MTU probe, of the
    /// size that is probed; with PATH_CHALLENGE or PATH_RESPONSE it has at least 1200. While a PTO
    /// probe is pending it has no more than `min_mtu` bytes either, so that the probe arrives if
    /// the path carries less than it did (RFC 8899, section 4.3; RFC 9000, section 14.3).
    ///
    /// The answer says with which ECN codepoint it is to be sent: ECT(0), until an ACK shows that
    /// codepoints don't come through (section 13.4.2). An open endpoint that gives nothing has
    /// nothing left to send but what is held back.
    ///
    /// If something is to be sent and the packet numbers are used up, or the packets that the key
    /// may seal, the endpoint closes instead, and sends CONNECTION_CLOSE (section 12.3; RFC 9001,
    /// section 6.6). Sixteen numbers and eight seals are kept for that. A closing endpoint sends it
    /// once, and once more for each new packet that came (section 10.2.1), while numbers and seals
    /// last; a drained endpoint sends nothing.
    ///
    /// # Errors
    ///
    /// - [`Failed`]: the endpoint had failed before. Nothing changes, and nothing is appended to
    ///   `out`.
    /// - [`Failed`]: an allocation fails. The endpoint fails for good and has no timer, and nothing
    ///   is appended to `out`.
    #[tactic(auto, using(quic_connection_parts::proofs::Drawing::draws_same))]
    pub fn poll_transmit(
        &mut self,
        now: Instant,
        out: &mut Vec<u8>,
    ) -> Result<Option<Transmit>, Failed>
        ensures answer { OnOk result (result ≡ (polled (policy_of H.protection K.aead K.seal_limit K.refusal_limit (words_of R.stream) self.old) (reading C.window_of self.old) now).answer) }
        ensures end { OnOk result (self.new.end ≡ (polled (policy_of H.protection K.aead K.seal_limit K.refusal_limit (words_of R.stream) self.old) (reading C.window_of self.old) now).end) }
        ensures control { OnOk result (self.new.control ≡ after_calls C.steps self.old.control (told_polled (policy_of H.protection K.aead K.seal_limit K.refusal_limit (words_of R.stream) self.old) (reading C.window_of self.old) now)) }
        ensures keys { self.new.keys ≡ self.old.keys }
        ensures heard { IfOk result (λ given. self.new.heard ≡ heard_given given self.old.heard) }
        ensures random { OnOk result (R.stream self.new.random ≡ after_words (words_drawn self.new.end - words_drawn self.old.end) (R.stream self.old.random)) }
        ensures datagram { OnOk result (out.new.items ≡ out.old.items ++ given_bytes (polled (policy_of H.protection K.aead K.seal_limit K.refusal_limit (words_of R.stream) self.old) (reading C.window_of self.old) now).datagram) }
        ensures failed { OnErr result (HasFailed self.old self.new) }
        ensures stopped { self.old.end.closing.state ≢ State.Failed → OnErr result (self.new.end.timers ≡ no_timers) }
        ensures nothing { OnErr result (out.new.items ≡ out.old.items) }
        ensures lacking { OnErr result (PollTakes (policy_of H.protection K.aead K.seal_limit K.refusal_limit (words_of R.stream) self.old) (reading C.window_of self.old) now) }
        ensures still { self.old.end.closing.state ≡ State.Failed → self.new ≡ self.old }
        ensures size { IfOk result (λ given. IfSome given (λ transmit. transmit.size ≤ 65527)) }
        ensures silent { result ≡ Ok None → self.new.end.closing.state ≡ State.Open → IsSilent self.new.end }
    {
        match self.state() {
            State::Failed => return Err(Failed),
            State::Closing | State::Drained | State::Open => {
                self.read_window();
                self.read_blocked();
            }
        }
        match self.state() {
            State::Open => self.poll_open(now, out),
            State::Closing => self.poll_closing(now, out),
            State::Drained | State::Failed => Ok(None),
        }
    }

    /// Polls an open endpoint, whose window is stored.
    fn poll_open(&mut self, now: Instant, out: &mut Vec<u8>) -> Result<Option<Transmit>, Failed>
        requires { self.old.end.closing.state ≡ State.Open }
        ensures answer { OnOk result (result ≡ (polled (policy_of H.protection K.aead K.seal_limit K.refusal_limit (words_of R.stream) self.old) self.old.end now).answer) }
        ensures end { OnOk result (self.new.end ≡ (polled (policy_of H.protection K.aead K.seal_limit K.refusal_limit (words_of R.stream) self.old) self.old.end now).end) }
        ensures control { OnOk result (self.new.control ≡ after_calls C.steps self.old.control (told_polled (policy_of H.protection K.aead K.seal_limit K.refusal_limit (words_of R.stream) self.old) self.old.end now)) }
        ensures keys { self.new.keys ≡ self.old.keys }
        ensures heard { IfOk result (λ given. self.new.heard ≡ heard_given given self.old.heard) }
        ensures random { OnOk result (R.stream self.new.random ≡ after_words (words_drawn self.new.end - words_drawn self.old.end) (R.stream self.old.random)) }
        ensures datagram { OnOk result (out.new.items ≡ out.old.items ++ given_bytes (polled (policy_of H.protection K.aead K.seal_limit K.refusal_limit (words_of R.stream) self.old) self.old.end now).datagram) }
        ensures failed { OnErr result (HasFailed self.old self.new) }
        ensures stopped { OnErr result (self.new.end.timers ≡ no_timers) }
        ensures nothing { OnErr result (out.new.items ≡ out.old.items) }
        ensures lacking { OnErr result (PollTakes (policy_of H.protection K.aead K.seal_limit K.refusal_limit (words_of R.stream) self.old) self.old.end now) }
        ensures size { IfOk result (λ given. IfSome given (λ transmit. transmit.size ≤ 65527)) }
        ensures silent { result ≡ Ok None → self.new.end.closing.state ≡ State.Open → IsSilent self.new.end }
    {
        // The proof reads between which sizes the search stays.
        let _ = &self.path;
        let Some(leaving) = self.make_ready(now)? else {
            return Ok(None);
        };
        if let Some((reason, code)) = self.bound_reached() {
            self.close_by(reason, code);
            return self.give_close(out);
        }
        let size = self.give(leaving, out)?;
        self.count_bytes(size);
        Ok(Some(Transmit {
            size,
            ecn: self.mark(),
            remote: self.remote_address(),
        }))
    }

    /// Counts a datagram of so many bytes as sent on the path (RFC 9000, section 8.1).
    pub(crate) fn count_bytes(&mut self, size: usize)
        ensures { self.new ≡ hearing self.old (heard_sent size self.old.heard) }
    {
        self.path.on_datagram_sent(size as u64);
    }

    /// Advances the time, stops the pacing timer, sees that a pending PTO probe has something to
    /// send, and queues ACK_FREQUENCY if it is due. Returns the kind of datagram to send then, if
    /// there is one. If out of memory, the endpoint fails for good.
    fn make_ready(&mut self, now: Instant) -> Result<Option<Leaving>, Failed>
        ensures leaving { IfOk result (λ leaving. Leaves leaving (ready_at self.old.end now).leaving) }
        ensures end { OnOk result (self.new ≡ with_end self.old (rested (ready_at self.old.end now))) }
        ensures failed { OnErr result (HasFailed self.old self.new) }
        ensures stopped { OnErr result (self.new.end.timers ≡ no_timers) }
        ensures lacking { OnErr result (MovesRecord self.old.end) }
    {
        self.tick(now);
        self.timers.stop(Timer::Pacing);
        self.queue_probe()?;
        self.queue_ack_frequency();
        Ok(self.leaving())
    }

    /// The ECN codepoint of a datagram: ECT(0), while ECN is in use on the path (RFC 9000, section
    /// 13.4).
    pub(crate) fn mark(&self) -> Option<EcnCodepoint>
        ensures { result ≡ mark_of self.now.end.path.marking }
    {
        if self.path.sending_ecn {
            Some(EcnCodepoint::Ect0)
        } else {
            None
        }
    }

    /// The kind of datagram to send, if there is one: all that is pending, or a due ACK alone if
    /// congestion control or pacing hold back ack-eliciting packets. If nothing is pending, path
    /// MTU discovery may name a size to probe (RFC 8899, section 5.3). Nothing is sent once three
    /// times the bytes that came went to an address that isn't validated (RFC 9000, section 8.1).
    fn leaving(&mut self) -> Option<Leaving>
        ensures leaving { Leaves result (leaves_at self.old.end).leaving }
        ensures end { self.new ≡ with_end self.old (rested (leaves_at self.old.end)) }
    {
        if self.blocked {
            return self.rest();
        }
        let asks = self.asks_to_go();
        let goes = self.waits(asks);
        if self.is_held_back(asks) {
            return self.acks_alone();
        }
        if goes {
            return Some(Leaving::Whole);
        }
        self.search()
    }

    /// Whether something is pending: a due ACK, or something ack-eliciting, which `asks` says.
    fn waits(&self, asks: bool) -> bool
        requires { asks ≡ asks_to_go self.now.end }
        ensures { result ≡ waits self.now.end }
    {
        self.is_ack_due() || asks
    }

    /// A due ACK, which is sent alone while ack-eliciting packets are held back.
    fn acks_alone(&mut self) -> Option<Leaving>
        ensures leaving { Leaves result (leaves_if true self.old.end).leaving }
        ensures end { self.new ≡ with_end self.old (rested (leaves_if true self.old.end)) }
    {
        if self.is_ack_due() {
            return Some(Leaving::Alone);
        }
        self.app_limited = false;
        None
    }

    /// Sees that a pending PTO probe has something to send. If out of memory, the endpoint fails
    /// for good.
    fn queue_probe(&mut self) -> Result<(), Failed>
        ensures ok { OnOk result (self.new ≡ with_end self.old (probed self.old.end)) }
        ensures failed { OnErr result (HasFailed self.old self.new) }
        ensures stopped { OnErr result (self.new.end.timers ≡ no_timers) }
        ensures lacking { OnErr result (MovesRecord self.old.end) }
    {
        if self.fill_probe().is_err() {
            self.fail();
            return Err(Failed);
        }
        Ok(())
    }

    /// Sees that a pending PTO probe has something to send. Fails if out of memory.
    fn fill_probe(&mut self) -> Result<(), AllocError>
        ensures ok { OnOk result (self.new ≡ with_end self.old (probed self.old.end)) }
        ensures err { OnErr result (self.new ≡ self.old) }
        ensures lacking { OnErr result (MovesRecord self.old.end) }
    {
        let immediate = self.takes_immediate_ack();
        // The proof reads that the numbers ascend.
        let _packet = self.space.tracking.packets().get(0);
        let EndStreams { state, pending } = &mut self.streams;
        self.space.maybe_queue_probe(immediate, pending, state)
    }

    /// Whether the peer takes IMMEDIATE_ACK: it advertised min_ack_delay.
    fn takes_immediate_ack(&self) -> bool
        ensures { result ≡ is_some self.now.end.peer_params.min_ack_delay }
    {
        self.peer_params.min_ack_delay.is_some()
    }

    /// Whether ack-eliciting packets are held back: they would exceed the congestion window, or the
    /// pacer has a later deadline, for which its timer is set (RFC 9002, sections 7 and 7.7). PTO
    /// probes are exempt (section 7.5). `asks` says whether something ack-eliciting is pending.
    fn is_held_back(&mut self, asks: bool) -> bool
        requires { asks ≡ asks_to_go self.old.end }
        ensures held { result ≡ (gated self.old.end).held }
        ensures end { self.new ≡ with_end self.old (gated self.old.end).end }
    {
        if !self.is_gated(asks) {
            return false;
        }
        self.is_window_full() || self.is_paced()
    }

    /// Whether congestion control and pacing apply: something ack-eliciting is pending, and no PTO
    /// probe.
    #[tactic(auto, using(crate::proofs::Gates::none_waits))]
    fn is_gated(&self, asks: bool) -> bool
        requires { asks ≡ asks_to_go self.now.end }
        ensures { result ≡ is_gated self.now.end }
    {
        asks && !self.space.tracking.has_probes()
    }

    /// Whether the congestion window has no room for one more datagram.
    fn is_window_full(&self) -> bool
        ensures { result ≡ is_window_full self.now.end }
    {
        let size = u128::from(self.path.current_mtu());
        u128::from(self.window) <= self.bytes_in_flight().saturating_add(size)
    }

    /// Whether the pacer has a later deadline, for which its timer is set then.
    fn is_paced(&mut self) -> bool
        ensures held { result ≡ (by_window false self.old.end).held }
        ensures end { self.new ≡ with_end self.old (by_window false self.old.end).end }
    {
        let now = self.closing.clock();
        match pacer_answer(&mut self.path, self.window, now) {
            Some(moment) if now < moment => {
                self.timers.set(Timer::Pacing, moment);
                true
            }
            _ => false,
        }
    }
}
