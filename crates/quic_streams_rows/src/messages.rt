//! Messages that may be lost: what comes and what goes at an end that keeps 8 bytes of unread ones
//! and lets 8 bytes wait, whose peer takes frames of 15 bytes, in datagrams of 1200 bytes.
ghost use Rattle.std.specs.Prelude.{◌≡◌, ◌-◌, true, false, [], ◌∷◌, codes, length, Some, None, Ok, Err, is_some};
ghost use Rattle.quic_wire.specs.Value.{datagram};
ghost use Rattle.quic_wire.specs.Writing.{spelled_all};
ghost use Rattle.quic_messages.specs.declared.errors.ReceivedError.TheVariants as received_errors;
ghost use Rattle.quic_messages.specs.declared.errors.SendDatagramError.TheVariants as send_errors;
ghost use Rattle.quic_messages.specs.Messages.{no_messages, bytes_of, oldest, fitting, after_fitting, without_longer, received_answer};
ghost use Rattle.quic_messages.specs.Sending.{max_size, send_answer};
ghost use Rattle.quic_streams_rows.specs.Messages.{limits, not_open, takes_none, peer_takes_none, of_four, hello_queued, two_queued, here_queued, three_came, answers_of, came, read_each, sent_each, empty_queued};

/// A message waits, leaves 3 bytes of room behind it, and goes in a frame of 7 bytes, no smaller.
pub fn messages_are_sent()
    ensures nothing { is_some (oldest no_messages.outgoing) ≡ false }
    ensures answer { send_answer limits false (codes "hello") no_messages ≡ Ok tt }
    ensures room { 8 - bytes_of length hello_queued.outgoing ≡ 3 }
    ensures waits { is_some (oldest hello_queued.outgoing) ≡ true }
    ensures six { fitting 6 hello_queued.outgoing ≡ None }
    ensures seven { fitting 7 hello_queued.outgoing ≡ Some (codes "hello") }
    ensures written { spelled_all (datagram (codes "hello") ∷ []) ≡ 0x31 ∷ 0x05 ∷ codes "hello" }
    ensures sent { is_some (oldest (after_fitting 7 hello_queued).outgoing) ≡ false }
{}

/// A message is refused at an end that isn't open, that takes none itself, or whose peer takes
/// none, and where it is too long.
pub fn messages_are_refused()
    ensures not_open { send_answer not_open true (codes "hello") no_messages ≡ Err send_errors.Blocked }
    ensures disabled { send_answer takes_none true (codes "hello") no_messages ≡ Err send_errors.Disabled }
    ensures by_peer { send_answer peer_takes_none true (codes "hello") no_messages ≡ Err send_errors.UnsupportedByPeer }
    ensures too_long { send_answer of_four true (codes "hello") no_messages ≡ Err send_errors.TooLarge }
{}

/// 8 bytes wait in two messages: a third is refused, or the oldest goes for it. Those of more than
/// two bytes go where the path takes no longer ones.
pub fn oldest_go_for_a_message()
    ensures longest { max_size 15 1200 8 ≡ Some 6 }
    ensures second { send_answer limits false (codes "is") (sent_each (codes "oldest" ∷ [])) ≡ Ok tt }
    ensures refused { send_answer limits false (codes "here") two_queued ≡ Err send_errors.Blocked }
    ensures taken { send_answer limits true (codes "here") two_queued ≡ Ok tt }
    ensures room { 8 - bytes_of length here_queued.outgoing ≡ 2 }
    ensures left { (without_longer 2 here_queued).outgoing ≡ codes "is" ∷ [] }
    ensures more_room { 8 - bytes_of length (without_longer 2 here_queued).outgoing ≡ 6 }
    ensures goes { fitting 1200 (without_longer 2 here_queued).outgoing ≡ Some (codes "is") }
    ensures none_left { (after_fitting 1200 (without_longer 2 here_queued)).outgoing ≡ [] }
{}

/// A message that comes is refused where none is taken, or where it is longer than what is kept
/// unread. The oldest unread go for it.
pub fn messages_are_received()
    ensures none_taken { received_answer None (codes "hello") no_messages ≡ Err received_errors.Breach }
    ensures too_long { received_answer (Some 4) (codes "hello") no_messages ≡ Err received_errors.Breach }
    ensures answers { answers_of 8 (codes "hello" ∷ codes "abc" ∷ codes "defg" ∷ []) no_messages ≡ Ok true ∷ Ok false ∷ Ok false ∷ [] }
    ensures given { read_each 3 three_came ≡ Some (codes "abc") ∷ Some (codes "defg") ∷ None ∷ [] }
{}

/// Each message without a byte takes one of those that are kept, as one with a byte does: so from
/// the third on the oldest goes. An end that keeps no byte keeps one message without a byte.
pub fn empty_messages_take_a_byte()
    ensures answers { answers_of 2 ([] ∷ codes "a" ∷ [] ∷ [] ∷ []) no_messages ≡ Ok true ∷ Ok false ∷ Ok false ∷ Ok false ∷ [] }
    ensures given { read_each 3 (came 2 ([] ∷ codes "a" ∷ [] ∷ [] ∷ []) no_messages) ≡ Some [] ∷ Some [] ∷ None ∷ [] }
    ensures at_none { answers_of 0 ([] ∷ [] ∷ []) no_messages ≡ Ok true ∷ Ok false ∷ [] }
    ensures one_kept { read_each 2 (came 0 ([] ∷ [] ∷ []) no_messages) ≡ Some [] ∷ None ∷ [] }
{}

/// A message without a byte waits beside 8 bytes, which are all that may wait.
pub fn empty_messages_take_nothing_of_the_send_buffer()
    ensures answer { send_answer limits false [] two_queued ≡ Ok tt }
    ensures room { 8 - bytes_of length empty_queued.outgoing ≡ 0 }
    ensures first { fitting 8 empty_queued.outgoing ≡ Some (codes "oldest") }
    ensures second { fitting 4 (after_fitting 8 empty_queued).outgoing ≡ Some (codes "is") }
    ensures third { fitting 2 (after_fitting 4 (after_fitting 8 empty_queued)).outgoing ≡ Some [] }
    ensures none_left { (after_fitting 2 (after_fitting 4 (after_fitting 8 empty_queued))).outgoing ≡ [] }
{}
