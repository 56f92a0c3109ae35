//! The definitions computed on runs in which a message goes, and machines that give an application
//! more messages, or others. Each function does nothing: its contract is the law.
ghost use Rattle.std.specs.Prelude.{◌≡◌, [], ◌∷◌, None, Ok};
ghost use Rattle.quic_wire_core.specs.declared.stream_id.Side.TheVariants.{Client, Server};
ghost use Rattle.quic_wire.specs.Value.{datagram};
ghost use Rattle.quic_wire.specs.Writing.{spelling};
ghost use Rattle.quic_headline.specs.Runs.{until};
ghost use Rattle.quic_headline.specs.Observer.{took, sents_until};
ghost use Rattle.quic_headline.specs.Queue.{waiting_messages, MessagesGoInOrder};
ghost use Rattle.quic_headline.specs.Headline.{IsHonest, IsRun};
ghost use Rattle.quic_headline.specs.Messages.{sent_messages, received_messages, MessagesAtMostOnce};
ghost use Rattle.quic_worked.specs.Worked.{from_client, told_ids};
ghost use Rattle.quic_worked.specs.Broken.{IsNoRun};
ghost use Rattle.quic_worked.specs.Machines.{NeverGives};
ghost use Rattle.quic_worked.specs.Messages.{ping_message, message_payload, message_datagram, message_packet, message_end, message_run, message_twice, message_cut, message_made_up, message_back, message_refused, once_late, late_end, late_run, message_again, pong_message, once_two, two_run, two_sent};
ghost use Rattle.quic_worked.specs.Acknowledged.{ack_at_once};
ghost use Rattle.quic_machine.specs.PollCases.{draft_at};

/// A message goes in a frame of its own, with its length (RFC 9221, section 4), behind those that
/// tell the client's ids. Its datagram comes twice, and is taken once: the application is told once
/// that a message came, reads it once, and finds none behind it.
#[tactic(auto, unfolding(crate::specs::Worked::once_taken))]
pub fn message_comes_once()
    ensures spelling { spelling (datagram ping_message) ≡ message_payload }
    ensures bytes { from_client 0 (told_ids message_payload) ≡ message_datagram }
    ensures honest { IsHonest message_run }
    ensures run { IsRun message_run message_end }
    ensures took { took message_run Server 8 ≡ message_packet ∷ [] }
    ensures sent { sent_messages (until message_run Client 8) ≡ ping_message ∷ [] }
    ensures received { received_messages (until message_run Server 8) ≡ ping_message ∷ [] }
    ensures once { MessagesAtMostOnce message_run }
{}

/// A message whose datagram is lost doesn't go again (RFC 9221, section 5.2), and nothing is waited
/// for then: of what was in it the ids alone go again, with an acknowledgement. Where that datagram
/// comes late, the message is received once all the same.
pub fn late_message_comes_once()
    ensures honest { IsHonest late_run }
    ensures run { IsRun late_run late_end }
    ensures lost { (once_late 8).client.tracking.packets ≡ [] }
    ensures silent { (draft_at (once_late 8).client 110000000).bytes ≡ told_ids ack_at_once }
    ensures sent { sent_messages (until late_run Client 11) ≡ ping_message ∷ [] }
    ensures received { received_messages (until late_run Server 11) ≡ ping_message ∷ [] }
    ensures once { MessagesAtMostOnce late_run }
{}

/// Receiving: a duplicate is taken again, and its message is received twice.
pub fn message_is_taken_again()
    ensures once { MessagesAtMostOnce message_twice → ⊥ }
    ensures premises { IsHonest message_twice }
    ensures machine { IsNoRun message_twice }
{}

/// Receiving: a message is received without its last byte.
pub fn message_is_cut()
    ensures once { MessagesAtMostOnce message_cut → ⊥ }
    ensures premises { IsHonest message_cut }
    ensures machine { IsNoRun message_cut }
{}

/// Receiving: a message is received that nobody sent.
pub fn message_is_made_up()
    ensures once { MessagesAtMostOnce message_made_up → ⊥ }
    ensures premises { IsHonest message_made_up }
    ensures machine { IsNoRun message_made_up }
{}

/// Loss: a message whose datagram is lost goes again, and is received twice where both come.
pub fn lost_message_goes_again()
    ensures once { MessagesAtMostOnce message_again → ⊥ }
    ensures premises { IsHonest message_again }
    ensures machine { IsNoRun message_again }
{}

/// Application calls: an end receives the message that it sent.
pub fn own_message_is_received()
    ensures once { MessagesAtMostOnce message_back → ⊥ }
    ensures premises { IsHonest message_back }
    ensures machine { IsNoRun message_back }
{}

/// Sending: a message goes that is one byte too long, though its send was refused.
pub fn refused_message_goes()
    ensures once { MessagesAtMostOnce message_refused → ⊥ }
    ensures premises { IsHonest message_refused }
    ensures machine { IsNoRun message_refused }
{}

/// Of two messages that wait the older one goes first, both in one datagram.
pub fn messages_go_in_turn()
    ensures honest { IsHonest (two_run ping_message pong_message) }
    ensures run { IsRun (two_run ping_message pong_message) (once_two 3) }
    ensures waiting { waiting_messages (two_run ping_message pong_message) Client 2
        ≡ ping_message ∷ pong_message ∷ [] }
    ensures sent { sents_until (two_run ping_message pong_message) Client 3
        ≡ two_sent ping_message pong_message ∷ [] }
    ensures none { waiting_messages (two_run ping_message pong_message) Client 3 ≡ [] }
{}

/// Sending: of two messages that wait the later one goes first.
pub fn later_message_goes_first()
    ensures order { MessagesGoInOrder (two_run pong_message ping_message) → ⊥ }
    ensures premises { IsHonest (two_run pong_message ping_message) }
    ensures machine { NeverGives (two_run pong_message ping_message) }
{}
