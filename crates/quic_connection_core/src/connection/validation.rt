//! Path validation: how much goes to a peer whose address isn't validated, and the frames that show
//! that it receives there (RFC 9000, sections 8.1 and 8.2).
ghost use Rattle.std.specs.Prelude.{◌≡◌, ◌+◌, ◌≤◌, ◌<◌, ◌^◌, ◌-◌, ◌++◌, nat_lt, length, vec_len, vec_capacity};
ghost use Rattle.std.specs.Int.{to_be_bytes, w64};
ghost use Rattle.quic_time.specs.Timers.{has_come};
ghost use Rattle.quic_machine.specs.End.{with_end, challenged, challenged_unless, drawing};
ghost use Rattle.quic_machine.specs.Validation.{is_blocked, with_blocked, path_waits, path_asked, path_answered, challenged_anew, most_challenges, path_expired};
ghost use Rattle.quic_connection_parts.specs.Drawn.{words_of, words_at, after_words, Draws};
ghost use Rattle.quic_connection_parts.specs.Frames.{challenge_list, response_list, path_bytes, paths_sent, challenge_gone, response_gone};
ghost use Rattle.quic_wire.specs.Writing.{spelled_all};

use crate::connection::Connection;
use quic_congestion::Controller;
use quic_connection_parts::statistics::count;
use quic_machine::Timer;
use quic_packet::crypto::{HeaderKey, PacketKey};
use quic_wire::frame::{Ack, Frame, Stream, put_frame};
use rand_core::Rng;

/// After how many probe timeouts without an answer a PATH_CHALLENGE is sent anew (RFC 9000, section
/// 8.2.4).
const VALIDATION_TIMEOUTS: u64 = 3;

/// The bytes of a datagram with PATH_CHALLENGE or PATH_RESPONSE at least, so that the path is known
/// to carry as many (RFC 9000, sections 8.2.1 and 8.2.2).
pub(crate) const PATH_FRAMES_SIZE: u16 = 1200;

impl<H: HeaderKey + Drop, K: PacketKey + Drop, R: Rng + Drop, C: Controller> Connection<
    H,
    K,
    R,
    C,
> {
    /// Stores whether anti-amplification holds sending back: the peer's address isn't validated and
    /// one more datagram would come to more than three times the bytes that came (RFC 9000, section
    /// 8.1).
    pub(crate) fn read_blocked(&mut self)
        ensures { self.new ≡ with_end self.old (with_blocked self.old.end (is_blocked self.old.end self.old.heard)) }
    {
        let size = u64::from(self.path.current_mtu());
        self.blocked = self.path.anti_amplification_blocked(size);
    }

    /// Asks the peer to show that it receives at its address: PATH_CHALLENGE, with fresh random
    /// data, is pending, and an earlier one no longer counts. If no answer comes within three probe
    /// timeouts, another is queued.
    #[tactic(auto, unfolding(rand_core::specs::Stream::next_u64))]
    fn challenge_path(&mut self)
        requires { self.old.end.validation.drawn < 2 ^ 64 - 1 }
        ensures end { self.new ≡ drawing self.new.random (with_end self.old (challenged (words_of R.stream self.old.random 0) self.old.end)) }
        ensures random { R.stream self.new.random ≡ after_words 1 (R.stream self.old.random) }
    {
        let token = self.random.next_u64();
        self.challenges += 1;
        self.path.challenge_with(token);
        let wait = self.probe_timeout().saturating_mul(VALIDATION_TIMEOUTS);
        self.timers
            .set(Timer::PathValidation, self.closing.clock() + wait);
    }

    /// Begins path validation, unless the peer's address is validated already.
    #[tactic(auto, using(quic_connection_parts::proofs::Drawing::draws_same))]
    pub(crate) fn validating(mut self) -> Self
        requires { self.end.validation.drawn ≡ 0 }
        ensures end { result ≡ drawing result.random (with_end self (challenged_unless self.end.path.validated (words_at R.stream self) self.end)) }
        ensures random { Draws R.stream self result }
    {
        if self.path.validated {
            return self;
        }
        self.challenge_path();
        self
    }

    /// If the path validation timer has expired, queues another PATH_CHALLENGE; but 2^64 - 1 times
    /// at most.
    #[tactic(auto, using(quic_connection_parts::proofs::Drawing::draws_same))]
    pub(crate) fn expire_path_timer(&mut self)
        ensures end { self.new ≡ drawing self.new.random (with_end self.old (path_expired (words_at R.stream self.old) (has_come self.old.end.timers.path_validation self.old.end.closing.clock) self.old.end)) }
        ensures random { Draws R.stream self.old self.new }
    {
        if !self
            .timers
            .is_expired(Timer::PathValidation, self.closing.clock())
        {
            return;
        }
        self.challenge_anew();
    }

    /// Asks the peer to show that it receives at its address, by another PATH_CHALLENGE; but 2^64 -
    /// 1 times at most.
    #[tactic(auto, using(quic_connection_parts::proofs::Drawing::draws_same))]
    pub(crate) fn challenge_anew(&mut self)
        ensures end { self.new ≡ drawing self.new.random (with_end self.old (challenged_anew (words_at R.stream self.old) (nat_lt self.old.end.validation.drawn most_challenges) self.old.end)) }
        ensures random { Draws R.stream self.old self.new }
    {
        if self.challenges < u64::MAX {
            self.challenge_path();
        } else {
            self.timers.stop(Timer::PathValidation);
        }
    }

    /// Takes PATH_CHALLENGE of the packet that opened last: PATH_RESPONSE with its data is pending,
    /// unless one to a newer packet is. It came from the peer's address.
    #[tactic(auto, using(quic_connection_parts::proofs::Drawing::token_back))]
    pub(crate) fn take_path_challenge(&mut self, token: u64)
        ensures { self.new ≡ with_end self.old (path_asked (to_be_bytes w64 token) self.old.end) }
    {
        let packet = self.space.numbers.last_opened();
        self.path_responses.push(packet, token);
    }

    /// Takes PATH_RESPONSE: where it answers the latest PATH_CHALLENGE, the peer's address is
    /// validated, and its timer stops. Any other does nothing.
    #[tactic(auto, using(quic_connection_parts::proofs::Drawing::token_back))]
    pub(crate) fn take_path_response(&mut self, token: u64)
        ensures { self.new ≡ with_end self.old (path_answered (to_be_bytes w64 token) self.old.end) }
    {
        if self.path.on_response(token) {
            self.timers.stop(Timer::PathValidation);
        }
    }

    /// Whether PATH_CHALLENGE or PATH_RESPONSE is pending.
    pub(crate) fn path_frames_wait(&self) -> bool
        ensures { result ≡ path_waits self.now.end }
    {
        self.path.waiting_challenge().is_some() || !self.path_responses.is_empty()
    }

    /// Appends PATH_CHALLENGE and PATH_RESPONSE, each if it is pending, for which there is room:
    /// whether one was.
    pub(crate) fn put_path_frames(&mut self, out: &mut Vec<u8>) -> bool
        requires { vec_len out.old + 18 ≤ vec_capacity out.old }
        ensures waited { result ≡ path_waits self.old.end }
        ensures items { out.new.items ≡ out.old.items ++ path_bytes self.old.end }
        ensures few { length (path_bytes self.old.end) ≤ 18 }
        ensures len { vec_len out.new ≡ vec_len out.old + length (path_bytes self.old.end) }
        ensures capacity { vec_capacity out.old ≤ vec_capacity out.new }
        ensures end { self.new ≡ with_end self.old (paths_sent self.old.end) }
    {
        let waited = self.path_frames_wait();
        self.put_challenge(out);
        self.put_response(out);
        waited
    }

    /// Appends PATH_CHALLENGE if it is pending, for which there is room.
    fn put_challenge(&mut self, out: &mut Vec<u8>)
        requires { vec_len out.old + 9 ≤ vec_capacity out.old }
        ensures items { out.new.items ≡ out.old.items ++ spelled_all (challenge_list self.old.end.waiting.signals.challenge) }
        ensures few { vec_len out.new ≤ vec_len out.old + 9 }
        ensures capacity { vec_capacity out.old ≤ vec_capacity out.new }
        ensures end { self.new ≡ with_end self.old (challenge_gone self.old.end.waiting.signals.challenge self.old.end) }
    {
        if let Some(token) = self.path.pop_challenge() {
            let _: Option<(Stream<'_>, Ack<'_>)> = None;
            put_frame(out, &Frame::PathChallenge(token));
            count(&mut self.stats.frame_tx.path_challenge);
        }
    }

    /// Appends PATH_RESPONSE if it is pending, for which there is room.
    fn put_response(&mut self, out: &mut Vec<u8>)
        requires { vec_len out.old + 9 ≤ vec_capacity out.old }
        ensures items { out.new.items ≡ out.old.items ++ spelled_all (response_list self.old.end.waiting.signals.response) }
        ensures few { vec_len out.new ≤ vec_len out.old + 9 }
        ensures capacity { vec_capacity out.old ≤ vec_capacity out.new }
        ensures end { self.new ≡ with_end self.old (response_gone self.old.end.waiting.signals.response self.old.end) }
    {
        if let Some(token) = self.path_responses.pop_on_path() {
            let _: Option<(Stream<'_>, Ack<'_>)> = None;
            put_frame(out, &Frame::PathResponse(token));
            count(&mut self.stats.frame_tx.path_response);
        }
    }
}
