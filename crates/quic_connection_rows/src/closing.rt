//! What a close of the peer leaves (RFC 9000, sections 10.2.2 and 19.19), and keep-alive (section
//! 10.1.2).
ghost use Rattle.std.specs.Prelude.{◌≡◌, [], ◌∷◌, take, true, false, Some, None};
ghost use Rattle.quic_machine.specs.declared.answers.Event.TheVariants as events;
ghost use Rattle.quic_machine.specs.declared.answers.LostReason.TheVariants as reasons;
ghost use Rattle.quic_machine.specs.declared.answers.Received.TheVariants as receives;
ghost use Rattle.quic_machine.specs.declared.answers.State.TheVariants as states;
ghost use Rattle.quic_machine.specs.Calls.{end_tells, end_after_event, end_after_ping};
ghost use Rattle.quic_worked.specs.Worked.{client_made, server_made, client_gives};
ghost use Rattle.quic_worked.specs.Acknowledged.{client_datagram};
ghost use Rattle.quic_connection_rows.specs.Coming.{came};
ghost use Rattle.quic_connection_rows.specs.Rows.{late_payload, late_close, bare_payload, bare_close, alive_made, alive_given, alive_served, alive_pinged, alive_closed};

/// An error of the peer is told with its code, its frame and its text, once, and drains the client.
/// What stands behind it isn't read.
#[tactic(auto, unfolding(crate::specs::Coming::came))]
pub fn error_of_the_peer_is_told()
    ensures taken { (came late_payload client_made).answer ≡ receives.Taken }
    ensures drained { (came late_payload client_made).end.closing.state ≡ states.Drained }
    ensures reason { (came late_payload client_made).end.closing.reason ≡ Some (reasons.Peer late_close) }
    ensures told { end_tells (came late_payload client_made).end ≡ Some (events.Lost (reasons.Peer late_close)) }
    ensures once { end_tells (end_after_event (came late_payload client_made).end) ≡ None }
    ensures unread { came late_payload client_made ≡ came (take 9 late_payload) client_made }
{}

/// So does a close of its application, which has no text here.
#[tactic(auto, unfolding(crate::specs::Coming::came))]
pub fn close_of_the_peer_is_told()
    ensures taken { (came bare_payload server_made).answer ≡ receives.Taken }
    ensures drained { (came bare_payload server_made).end.closing.state ≡ states.Drained }
    ensures reason { (came bare_payload server_made).end.closing.reason ≡ Some (reasons.Peer bare_close) }
    ensures told { end_tells (came bare_payload server_made).end ≡ Some (events.Lost (reasons.Peer bare_close)) }
    ensures once { end_tells (end_after_event (came bare_payload server_made).end) ≡ None }
    ensures unread { came bare_payload server_made ≡ came (take 5 bare_payload) server_made }
{}

/// A second behind the last datagram PING goes, and not before. No close is kept alive.
#[tactic(auto, unfolding(crate::specs::Rows::alive_pinged))]
pub fn datagrams_are_kept_alive()
    ensures new { alive_made.timers.keep_alive ≡ None }
    ensures given { alive_given.timers.keep_alive ≡ Some 1000000000 }
    ensures early { (client_gives (alive_served 999999999) 999999999).datagram ≡ None }
    ensures over { (alive_served 1000000000).timers.keep_alive ≡ None }
    ensures pings { (client_gives (alive_served 1000000000) 1000000000).datagram
        ≡ Some (client_datagram 1 0 (0x01 ∷ 0x00 ∷ 0x00 ∷ [])) }
    ensures again { alive_pinged.timers.keep_alive ≡ Some 2000000000 }
    ensures closed { alive_closed.timers.keep_alive ≡ None }
    ensures goes { (client_gives alive_closed 1500000000).datagram
        ≡ Some (client_datagram 2 0 (0x1d ∷ 0x00 ∷ 0x00 ∷ [])) }
    ensures behind { (client_gives alive_closed 1500000000).end.timers.keep_alive ≡ None }
{}
