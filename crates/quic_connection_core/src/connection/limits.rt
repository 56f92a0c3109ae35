//! How long numbers and keys last (RFC 9000, section 12.3; RFC 9001, section 6.6).
ghost use Rattle.std.specs.Prelude.{◌≡◌, MatchOption, Some, None, nat_le};
ghost use Rattle.quic_machine.specs.Reasons.{code_of};
ghost use Rattle.quic_machine.specs.Heard.{is_last, heard_answer, heard_failure};
ghost use Rattle.quic_machine.specs.End.{with_end, hearing, policy_of};
ghost use Rattle.quic_machine.specs.Arrival.{arriving};
ghost use Rattle.quic_machine.specs.Poll.{bounds, may_seal, can_close};
ghost use Rattle.quic_machine.specs.Receive.{unopened_in};
ghost use Rattle.quic_connection_parts.specs.Drawn.{words_of};

use crate::connection::Connection;
use quic_congestion::Controller;
use quic_machine::{DropReason, Instant, LostReason, Received};
use quic_packet::crypto::{HeaderKey, PacketKey};
use quic_wire_core::{Code, Reason, TransportError};
use rand_core::Rng;

/// How many packets that may be sealed are kept for closes.
const KEPT_SEALS: u64 = 8;

impl<H: HeaderKey + Drop, K: PacketKey + Drop, R: Rng + Drop, C: Controller> Connection<
    H,
    K,
    R,
    C,
> {
    /// Why no ordinary packet may be sent any more, if none may, and the code for the peer: the
    /// packet numbers are used up, or the packets that the key may seal. Some of both are kept for
    /// closes.
    pub(crate) fn bound_reached(&self) -> Option<(LostReason, Code)>
        ensures { MatchOption result
            (bounds (policy_of H.protection K.aead K.seal_limit K.refusal_limit (words_of R.stream) self.now) self.now.end ≡ None)
            (λ bound. (bounds (policy_of H.protection K.aead K.seal_limit K.refusal_limit (words_of R.stream) self.now) self.now.end ≡ Some bound.0) × (bound.1 ≡ code_of bound.0)) }
    {
        if !self.space.numbers.can_number() {
            return Some((LostReason::NumberLimit, Code::INTERNAL_ERROR));
        }
        if !self.may_seal() {
            return Some((LostReason::KeyLimit, Code::AEAD_LIMIT_REACHED));
        }
        None
    }

    /// Whether the key may seal one more ordinary packet.
    fn may_seal(&self) -> bool
        ensures { result ≡ may_seal (policy_of H.protection K.aead K.seal_limit K.refusal_limit (words_of R.stream) self.now) self.now.end }
    {
        // The proof reads how many numbers there are.
        let _next = self.space.numbers.next();
        let sealed = self.space.numbers.sealed();
        sealed + KEPT_SEALS < self.keys.packet.local.confidentiality_limit()
    }

    /// Whether one more close may be numbered and sealed.
    pub(crate) fn can_close(&self) -> bool
        ensures { result ≡ can_close (policy_of H.protection K.aead K.seal_limit K.refusal_limit (words_of R.stream) self.now) self.now.end }
    {
        let sealed = self.space.numbers.sealed();
        self.space.numbers.may_give(self.number())
            && sealed < self.keys.packet.local.confidentiality_limit()
    }

    /// Drops a packet that didn't open. An open endpoint closes if the peer's key refused as many
    /// as it may.
    pub(crate) fn refuse_packet(&mut self, now: Instant) -> Received
        ensures answer { result ≡ (unopened_in self.old.end.closing.state (is_last (K.refusal_limit self.old.keys.packet.remote) self.old.heard) (arriving now 0 None (is_last (K.refusal_limit self.old.keys.packet.remote) self.old.heard)) self.old.end).answer }
        ensures end { self.new ≡ with_end (hearing self.old (heard_answer result self.old.heard)) (unopened_in self.old.end.closing.state (is_last (K.refusal_limit self.old.keys.packet.remote) self.old.heard) (arriving now 0 None (is_last (K.refusal_limit self.old.keys.packet.remote) self.old.heard)) self.old.end).end }
    {
        self.authentication_failures = self.authentication_failures.saturating_add(1);
        let limit = self.keys.packet.remote.integrity_limit();
        if !self.is_open() || self.authentication_failures < limit {
            return Received::Dropped(DropReason::NotOpened);
        }
        self.tick(now);
        let code = Code::AEAD_LIMIT_REACHED;
        self.close_by(LostReason::KeyLimit, code);
        Received::Closed(TransportError::new(code, None, Reason::Unsaid))
    }
}
