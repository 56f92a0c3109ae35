//! Closing a connection: by the application, by an error, and by the peer (RFC 9000, section 10.2).
ghost use Rattle.std.specs.Prelude.{◌≡◌, ◌+◌, ◌-◌, ◌<◌, ◌≤◌, ◌^◌, ◌++◌, length, IfOk, IfSome, IsSome, OnOk, OnErr, vec_len, vec_capacity, true, false};
ghost use Rattle.quic_wire.specs.Value.{asks};
ghost use Rattle.quic_wire.specs.Writing.{spelling};
ghost use Rattle.quic_time.specs.Timers.{no_timers, has_come};
ghost use Rattle.quic_machine.specs.declared.answers.LostReason.TheVariants as reasons;
ghost use Rattle.quic_machine.specs.Reasons.{text_len, code_of};
ghost use Rattle.std.specs.Option.{is_some};
ghost use Rattle.quic_machine.specs.Closing.{ticked, close_owed, close_given};
ghost use Rattle.quic_machine.specs.Heard.{heard_given};
ghost use Rattle.quic_machine.specs.Parts.{current_mtu};
ghost use Rattle.quic_spaces.specs.Numbers.{may_give};
ghost use Rattle.quic_machine.specs.End.{number_of, with_end, with_closing, with_number_given, closing_by, closed_by, drained_by, policy_of, HasFailed, words_drawn};
ghost use Rattle.quic_machine.specs.Calls.{end_after_close};
ghost use Rattle.quic_machine.specs.Timeouts.{close_expired};
ghost use Rattle.quic_machine.specs.Receive.{plain_error};
ghost use Rattle.quic_machine.specs.Poll.{closing, draft_as, datagram_of, fitted, close_to_go, closes, close_room};
ghost use Rattle.quic_connection_parts.specs.Closes.{close_frame};
ghost use Rattle.quic_connection_parts.specs.Given.{given_bytes};
ghost use Rattle.quic_connection_parts.specs.Drawn.{words_of, after_words};

use crate::connection::Connection;
use bytes::Bytes;
use quic_congestion::Controller;
use quic_connection_parts::closes::{
    count_close_frame, put_application_close, put_transport_close,
};
use quic_connection_parts::closing::{CloseTold, OwnClose};
use quic_machine::{Failed, Instant, LostReason, Received, State, Timer, Transmit};
use quic_packet::crypto::{HeaderKey, PacketKey};
use quic_wire_core::{Code, Reason, TransportError, VarInt};
use rand_core::Rng;

/// How many probe timeouts an endpoint is closing (RFC 9000, section 10.2).
const CLOSING_TIMEOUTS: u64 = 3;

impl<H: HeaderKey + Drop, K: PacketKey + Drop, R: Rng + Drop, C: Controller> Connection<
    H,
    K,
    R,
    C,
> {
    /// Closes the connection at this time. The peer gets this code and this text, which is for
    /// people to read, as much of it as a datagram has room for (RFC 9000, sections 10.2 and
    /// 19.19).
    ///
    /// The endpoint is closing then: it sends CONNECTION_CLOSE at the next poll, and once more for
    /// each new packet that comes, reads no packet any more, and is drained after three probe
    /// timeouts ([`Timer::Close`]). An endpoint that isn't open stays as it is, and ignores the
    /// time.
    pub fn close(&mut self, now: Instant, error_code: VarInt, reason: Bytes)
        ensures { self.new ≡ with_end self.old (end_after_close now error_code reason self.old.end) }
    {
        match self.state() {
            State::Open => {}
            State::Closing | State::Drained | State::Failed => return,
        }
        self.tick(now);
        let close = OwnClose::Application(error_code, reason);
        self.begin_closing(LostReason::Application, close);
    }

    /// Closes for a reason, of which the peer gets this code alone.
    pub(crate) fn close_by(&mut self, reason: LostReason, code: Code)
        requires text { text_len reason ≡ 0 }
        requires code { code ≡ code_of reason }
        ensures { self.new ≡ with_end self.old (closed_by reason self.old.end) }
    {
        self.begin_closing(reason, OwnClose::Transport(code));
    }

    /// Closes for a reason, with this CONNECTION_CLOSE; no timer stays set but that of the close.
    fn begin_closing(&mut self, reason: LostReason, close: OwnClose)
        requires { text_len reason ≡ 0 }
        ensures { self.new ≡ with_end self.old (closing_by reason (close_frame close) self.old.end) }
    {
        let untold = reason.copied_into(Vec::new(self.alloc));
        self.closing.close(reason, untold, close);
        self.stop_timers();
        let timeout = self.probe_timeout().saturating_mul(CLOSING_TIMEOUTS);
        self.timers
            .set(Timer::Close, self.closing.clock() + timeout);
    }

    /// Closes for a protocol error of the peer.
    pub(crate) fn close_for_error(&mut self, error: TransportError) -> Received
        ensures answer { result ≡ Received.Closed error }
        ensures end { self.new ≡ with_end self.old (closed_by (reasons.Transport error) self.old.end) }
    {
        let answer = Received::Closed(error.copied());
        let code = error.code();
        self.close_by(LostReason::Transport(error), code);
        answer
    }

    /// Closes because a stream has too many separate ranges of unread bytes.
    pub(crate) fn close_for_pieces(&mut self) -> Received
        ensures answer { result ≡ Received.Closed (plain_error 1) }
        ensures end { self.new ≡ with_end self.old (closed_by reasons.Pieces self.old.end) }
    {
        let code = Code::INTERNAL_ERROR;
        self.close_by(LostReason::Pieces, code);
        Received::Closed(TransportError::new(code, None, Reason::TooManyPieces))
    }

    /// Notes that the peer closed: the endpoint is drained at once, and sends nothing more (section
    /// 10.2.2).
    pub(crate) fn close_by_peer(&mut self, close: CloseTold)
        ensures { self.new ≡ with_end self.old (drained_by (reasons.Peer close.kept) self.old.end) }
    {
        let CloseTold { kept, told } = close;
        self.closing
            .drain(LostReason::Peer(kept), LostReason::Peer(told));
        self.stop_timers();
    }

    /// Drains a closing endpoint if its timer has expired.
    pub(crate) fn expire_close_timer(&mut self, now: Instant)
        ensures { self.new ≡ with_end self.old (close_expired (has_come self.old.end.timers.close (ticked self.old.end.closing now).clock) (with_closing self.old.end (ticked self.old.end.closing now))) }
    {
        self.tick(now);
        if self.timers.is_expired(Timer::Close, self.closing.clock()) {
            self.closing.expire();
            self.stop_timers();
        }
    }

    /// What a closing endpoint gives at a poll: its CONNECTION_CLOSE, if that is due.
    pub(crate) fn poll_closing(
        &mut self,
        now: Instant,
        out: &mut Vec<u8>,
    ) -> Result<Option<Transmit>, Failed>
        ensures answer { OnOk result (result ≡ (closes (policy_of H.protection K.aead K.seal_limit K.refusal_limit (words_of R.stream) self.old) (with_closing self.old.end (ticked self.old.end.closing now))).answer) }
        ensures end { OnOk result (self.new.end ≡ (closes (policy_of H.protection K.aead K.seal_limit K.refusal_limit (words_of R.stream) self.old) (with_closing self.old.end (ticked self.old.end.closing now))).end) }
        ensures control { self.new.control ≡ self.old.control }
        ensures keys { self.new.keys ≡ self.old.keys }
        ensures heard { IfOk result (λ given. self.new.heard ≡ heard_given given self.old.heard) }
        ensures random { OnOk result (R.stream self.new.random ≡ after_words (words_drawn self.new.end - words_drawn self.old.end) (R.stream self.old.random)) }
        ensures datagram { OnOk result (out.new.items ≡ out.old.items ++ given_bytes (closes (policy_of H.protection K.aead K.seal_limit K.refusal_limit (words_of R.stream) self.old) (with_closing self.old.end (ticked self.old.end.closing now))).datagram) }
        ensures failed { OnErr result (HasFailed self.old self.new) }
        ensures stopped { OnErr result (self.new.end.timers ≡ no_timers) }
        ensures nothing { OnErr result (out.new.items ≡ out.old.items) }
        ensures lacking { OnErr result (IsSome (close_to_go (policy_of H.protection K.aead K.seal_limit K.refusal_limit (words_of R.stream) self.old) (with_closing self.old.end (ticked self.old.end.closing now)))) }
        ensures size { IfOk result (λ given. IfSome given (λ transmit. transmit.size ≤ 65527)) }
    {
        self.tick(now);
        self.give_close(out)
    }

    /// Appends the datagram of CONNECTION_CLOSE, if that is due and may be sent, and counts it as
    /// sent. If out of memory, nothing is appended, and the endpoint fails for good.
    #[tactic(auto, using(quic_connection_parts::proofs::Drawing::draws_same))]
    pub(crate) fn give_close(&mut self, out: &mut Vec<u8>) -> Result<Option<Transmit>, Failed>
        ensures answer { OnOk result (result ≡ (closes (policy_of H.protection K.aead K.seal_limit K.refusal_limit (words_of R.stream) self.old) self.old.end).answer) }
        ensures end { OnOk result (self.new.end ≡ (closes (policy_of H.protection K.aead K.seal_limit K.refusal_limit (words_of R.stream) self.old) self.old.end).end) }
        ensures control { self.new.control ≡ self.old.control }
        ensures keys { self.new.keys ≡ self.old.keys }
        ensures heard { IfOk result (λ given. self.new.heard ≡ heard_given given self.old.heard) }
        ensures random { OnOk result (R.stream self.new.random ≡ after_words (words_drawn self.new.end - words_drawn self.old.end) (R.stream self.old.random)) }
        ensures datagram { OnOk result (out.new.items ≡ out.old.items ++ given_bytes (closes (policy_of H.protection K.aead K.seal_limit K.refusal_limit (words_of R.stream) self.old) self.old.end).datagram) }
        ensures failed { OnErr result (HasFailed self.old self.new) }
        ensures stopped { OnErr result (self.new.end.timers ≡ no_timers) }
        ensures nothing { OnErr result (out.new.items ≡ out.old.items) }
        ensures lacking { OnErr result (IsSome (close_to_go (policy_of H.protection K.aead K.seal_limit K.refusal_limit (words_of R.stream) self.old) self.old.end)) }
        ensures size { IfOk result (λ given. IfSome given (λ transmit. transmit.size ≤ 65527)) }
    {
        if !self.close_goes() {
            return Ok(None);
        }
        if out.reserve(usize::from(self.path.current_mtu())).is_err() {
            self.fail();
            return Err(Failed);
        }
        let size = self.put_close(out);
        self.end_close();
        self.count_bytes(size);
        Ok(Some(Transmit {
            size,
            ecn: self.mark(),
            remote: self.remote_address(),
        }))
    }

    /// Whether CONNECTION_CLOSE is due and may be sent.
    fn close_goes(&self) -> bool
        ensures { result ≡ is_some (close_to_go (policy_of H.protection K.aead K.seal_limit K.refusal_limit (words_of R.stream) self.now) self.now.end) }
    {
        if self.blocked {
            return false;
        }
        if self.closing.owed().is_none() {
            return false;
        }
        self.can_close()
    }

    /// Notes that CONNECTION_CLOSE was sent.
    fn end_close(&mut self)
        ensures { self.new ≡ with_end self.old (with_closing self.old.end (close_given self.old.end.closing)) }
    {
        self.closing.told();
    }

    /// Appends the datagram of CONNECTION_CLOSE, for which there is room: the frame is alone in it.
    /// Its number is used up, and it isn't tracked. Returns its size.
    #[tactic(auto, unfolding(rand_core::specs::Stream::next_u64))]
    fn put_close(&mut self, out: &mut Vec<u8>) -> usize
        requires goes { IsSome (close_to_go (policy_of H.protection K.aead K.seal_limit K.refusal_limit (words_of R.stream) self.old) self.old.end) }
        requires room { vec_len out.old + current_mtu self.old.end.path ≤ vec_capacity out.old }
        ensures items { IfSome (close_to_go (policy_of H.protection K.aead K.seal_limit K.refusal_limit (words_of R.stream) self.old) self.old.end) (λ f.
            out.new.items ≡ out.old.items ++ datagram_of (policy_of H.protection K.aead K.seal_limit K.refusal_limit (words_of R.stream) self.old) (draft_as (closing f) self.old.end)) }
        ensures size { vec_len out.new ≡ vec_len out.old + result }
        ensures most { result ≤ current_mtu self.old.end.path }
        ensures end { self.new.end ≡ with_number_given (words_of R.stream self.old.random 0) self.old.end }
        ensures control { self.new.control ≡ self.old.control }
        ensures keys { self.new.keys ≡ self.old.keys }
        ensures heard { self.new.heard ≡ self.old.heard }
        ensures random { R.stream self.new.random ≡ after_words (words_drawn self.new.end - words_drawn self.old.end) (R.stream self.old.random) }
    {
        let start = out.len();
        let number = self.number();
        let _ = self.put_header(out);
        self.put_close_frame(out);
        self.seal(start, number, out);
        let _number = self
            .filter
            .allocate(&mut self.random, &mut self.space.numbers);
        let size = out.len() - start;
        self.count_close(size);
        size
    }

    /// Appends the CONNECTION_CLOSE frame, if it is due, for which there is room.
    fn put_close_frame(&self, out: &mut Vec<u8>)
        requires number { may_give self.now.end.numbers (number_of self.now.end) ≡ true }
        requires room { vec_len out.old + close_room self.now.end ≤ vec_capacity out.old }
        ensures items { IfSome (close_owed self.now.end.closing) (λ f. out.new.items ≡ out.old.items ++ spelling (fitted (close_room self.now.end) f)) }
        ensures form { IfSome (close_owed self.now.end.closing) (λ f. (asks (fitted (close_room self.now.end) f) ≡ false) × (vec_len out.old + 3 ≤ vec_len out.new) × (3 ≤ length (spelling (fitted (close_room self.now.end) f)))) }
        ensures within { vec_len out.new ≤ vec_len out.old + close_room self.now.end }
        ensures capacity { vec_capacity out.old ≤ vec_capacity out.new }
    {
        let room = self.close_room();
        match self.closing.owed() {
            Some(OwnClose::Transport(code)) => put_transport_close(out, *code),
            Some(OwnClose::Application(code, reason)) => {
                put_application_close(out, *code, reason, room)
            }
            None => {}
        }
    }

    /// How many bytes the datagram of CONNECTION_CLOSE has left for its frame: those of the current
    /// size, whether a PTO probe is pending or not.
    fn close_room(&self) -> usize
        requires number { may_give self.now.end.numbers (number_of self.now.end) ≡ true }
        ensures room { result ≡ close_room self.now.end }
        ensures some { 1159 ≤ result }
        ensures few { result < 2 ^ 16 }
    {
        usize::from(self.path.current_mtu()) - self.beside_frames()
    }

    /// Counts a CONNECTION_CLOSE datagram of so many bytes.
    fn count_close(&mut self, size: usize)
        requires { size < 2 ^ 16 }
        ensures { self.new ≡ self.old }
    {
        count_close_frame(&mut self.stats.frame_tx);
        self.count_sent(size as u16);
    }
}
