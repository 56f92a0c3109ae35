//! What the calls on messages keep. Each function does nothing: its contract is the law.
ghost use Rattle.std.specs.Prelude.{◌≡◌, ℕ, ◌+◌, ◌≤◌, ◌<◌, max, true, List, [], ◌∷◌, ◌++◌, length, Some, IfSome};
ghost use Rattle.quic_messages.specs.Messages.{Messages, no_messages, weight, bytes_of, left_for, gone_for, with_message, frame_bytes, is_taken, after_received};
ghost use Rattle.quic_messages.specs.Sending.{max_size};
ghost use Rattle.quic_messages.specs.History.{Call, after_calls, over, came_by, given_by, incoming_dropped_by, queued_by, sent_by, outgoing_dropped_by, times};

/// Messages of 4, 3 and 2 bytes, and room for 10: one more byte fits beside all of them, and five
/// more fit once the oldest is gone. For eleven more all go, although they don't fit even so.
pub fn oldest_go_first()
    ensures all_stay { left_for length 10 1 ((1 ∷ 1 ∷ 1 ∷ 1 ∷ []) ∷ (2 ∷ 2 ∷ 2 ∷ []) ∷ (3 ∷ 3 ∷ []) ∷ []) ≡ (1 ∷ 1 ∷ 1 ∷ 1 ∷ []) ∷ (2 ∷ 2 ∷ 2 ∷ []) ∷ (3 ∷ 3 ∷ []) ∷ [] }
    ensures one_goes { left_for length 10 5 ((1 ∷ 1 ∷ 1 ∷ 1 ∷ []) ∷ (2 ∷ 2 ∷ 2 ∷ []) ∷ (3 ∷ 3 ∷ []) ∷ []) ≡ (2 ∷ 2 ∷ 2 ∷ []) ∷ (3 ∷ 3 ∷ []) ∷ [] }
    ensures none_is_left { left_for length 10 11 ((1 ∷ 1 ∷ 1 ∷ 1 ∷ []) ∷ (2 ∷ 2 ∷ 2 ∷ []) ∷ (3 ∷ 3 ∷ []) ∷ []) ≡ [] }
{}

/// Of the receive buffer a message takes its bytes, and an empty one takes one. Beside an empty
/// message and one of 2 bytes a third, empty one fits in 4 bytes; in 3 the oldest goes for it.
pub fn empty_messages_take_a_byte()
    ensures empty { weight [] ≡ 1 }
    ensures one { weight (7 ∷ []) ≡ 1 }
    ensures two { weight (7 ∷ 7 ∷ []) ≡ 2 }
    ensures all_stay { with_message weight 4 [] ([] ∷ (7 ∷ 7 ∷ []) ∷ []) ≡ [] ∷ (7 ∷ 7 ∷ []) ∷ [] ∷ [] }
    ensures one_goes { with_message weight 3 [] ([] ∷ (7 ∷ 7 ∷ []) ∷ []) ≡ (7 ∷ 7 ∷ []) ∷ [] ∷ [] }
{}

/// As a message that came is taken, those that are unread have at most as many bytes as the end
/// keeps, and are at most so many, or that one alone: whatever the peer sends, there is an end to
/// them.
pub fn unread_messages_are_bounded()
    ensures bytes { (window : ℕ) (m : List ℕ) (s : Messages) → is_taken (Some window) m ≡ true → bytes_of length (after_received (Some window) m s).incoming ≤ window }
    ensures count { (window : ℕ) (m : List ℕ) (s : Messages) → is_taken (Some window) m ≡ true → length (after_received (Some window) m s).incoming ≤ max window 1 }
{}

/// Those that go for one more message are the oldest, and all others are left. One more fits then,
/// if it fits at all, and did not fit beside the last that went: where there is room, none goes.
/// So it is whatever each message takes of the room.
pub fn no_more_go_than_have_to()
    ensures oldest { (size : List ℕ → ℕ) (room len : ℕ) (ms : List (List ℕ)) → gone_for size room len ms ++ left_for size room len ms ≡ ms }
    ensures fits { (size : List ℕ → ℕ) (room len : ℕ) (ms : List (List ℕ)) → len ≤ room → bytes_of size (left_for size room len ms) + len ≤ room }
    ensures fewest { (size : List ℕ → ℕ) (room len : ℕ) (ms front : List (List ℕ)) (m : List ℕ) → gone_for size room len ms ≡ front ++ m ∷ []
        → room < bytes_of size (m ∷ left_for size room len ms) + len }
    ensures within { (size : List ℕ → ℕ) (room : ℕ) (m : List ℕ) (ms : List (List ℕ)) → size m ≤ room → bytes_of size (with_message size room m ms) ≤ room }
    ensures spared { (size : List ℕ → ℕ) (room : ℕ) (m : List ℕ) (ms : List (List ℕ)) → bytes_of size ms + size m ≤ room → with_message size room m ms ≡ ms ++ m ∷ [] }
{}

/// A message of the longest size has a frame that the peer takes, where it takes frames of 9 bytes
/// at all, and that leaves 21 bytes of a datagram beside the id for the rest of the packet, where
/// the datagram is that long.
pub fn sendable_messages_fit()
    ensures peer { (frame size id : ℕ) (m : List ℕ) → 9 ≤ frame → IfSome (max_size frame size id) (λ most. length m ≤ most → frame_bytes m ≤ frame) }
    ensures packet { (frame size id : ℕ) (m : List ℕ) → id + 30 ≤ size → IfSome (max_size frame size id) (λ most. length m ≤ most → frame_bytes m + id + 21 ≤ size) }
{}

/// A message that came was read, dropped unread, or is unread still, as often as it came. So none
/// is read more often than it came.
pub fn messages_are_read_at_most_once()
    ensures each { (calls : List Call) (m : List ℕ) → times m (over given_by calls no_messages) + times m (over incoming_dropped_by calls no_messages) + times m (after_calls calls no_messages).incoming
        ≡ times m (over came_by calls no_messages) }
    ensures most { (calls : List Call) (m : List ℕ) → times m (over given_by calls no_messages) ≤ times m (over came_by calls no_messages) }
{}

/// A message that `send` took was sent, dropped unsent, or waits still, as often as `send` took it.
/// So none is sent more often than that.
pub fn messages_are_sent_at_most_once()
    ensures each { (calls : List Call) (m : List ℕ) → times m (over sent_by calls no_messages) + times m (over outgoing_dropped_by calls no_messages) + times m (after_calls calls no_messages).outgoing
        ≡ times m (over queued_by calls no_messages) }
    ensures most { (calls : List Call) (m : List ℕ) → times m (over sent_by calls no_messages) ≤ times m (over queued_by calls no_messages) }
{}
