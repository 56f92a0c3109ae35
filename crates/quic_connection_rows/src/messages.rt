//! Messages for which older ones go, where an endpoint queues eight bytes of them.
ghost use Rattle.std.specs.Prelude.{◌≡◌, [], ◌∷◌, ◌++◌, true, false, Some, Ok, Err};
ghost use Rattle.quic_messages.specs.Sending.{send_answer};
ghost use Rattle.quic_messages.specs.declared.errors.SendDatagramError.TheVariants as send_errors;
ghost use Rattle.quic_machine.specs.MessageCalls.{limits_of};
ghost use Rattle.quic_worked.specs.Worked.{told_ids, client_gives};
ghost use Rattle.quic_worked.specs.Acknowledged.{client_datagram};
ghost use Rattle.quic_connection_rows.specs.Rows.{narrow_client, letters, queued, filled_client, third_queued, messages_given, longest_queued};

/// Two messages fill the eight bytes, and one more is refused; then the first goes for it, and all
/// go for one that is longer than there is room.
#[tactic(auto, unfolding(crate::specs::Rows::messages_given))]
pub fn oldest_make_room()
    ensures first { send_answer (limits_of narrow_client) false (letters 4 0x61) narrow_client.messages.queues ≡ Ok tt }
    ensures second { send_answer (limits_of narrow_client) false (letters 4 0x62)
        (queued false (letters 4 0x61) narrow_client).messages.queues ≡ Ok tt }
    ensures refused { send_answer (limits_of filled_client) false (letters 2 0x63) filled_client.messages.queues
        ≡ Err send_errors.Blocked }
    ensures taken { send_answer (limits_of filled_client) true (letters 2 0x63) filled_client.messages.queues ≡ Ok tt }
    ensures waits { third_queued.messages.queues.outgoing ≡ letters 4 0x62 ∷ letters 2 0x63 ∷ [] }
    ensures goes { (client_gives third_queued 0).datagram
        ≡ Some (client_datagram 0 0 (told_ids ((0x31 ∷ 0x04 ∷ letters 4 0x62) ++ (0x31 ∷ 0x02 ∷ letters 2 0x63)))) }
    ensures longest { send_answer (limits_of filled_client) true (letters 9 0x66) filled_client.messages.queues ≡ Ok tt }
    ensures alone { longest_queued.messages.queues.outgoing ≡ letters 9 0x66 ∷ [] }
    ensures last { (client_gives longest_queued 0).datagram ≡ Some (client_datagram 1 0 (0x31 ∷ 0x09 ∷ letters 9 0x66)) }
{}
