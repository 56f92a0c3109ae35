//! What an end may keep of what its peer sends, what it may tell of it, and what it may seal and
//! acknowledge; and ends that keep, tell, seal or acknowledge more. Each function does nothing: its
//! contract is the law.
ghost use Rattle.std.specs.Prelude.{ℕ, List, [], ◌∷◌, ◌≡◌, ◌<◌, ◌≤◌, Some, None};
ghost use Rattle.quic_wire_core.specs.TransportError.{ErrorValue};
ghost use Rattle.quic_machine.specs.declared.answers.State.TheVariants.{Open, Closing, Drained};
ghost use Rattle.quic_machine.specs.declared.answers.LostReason.TheVariants.{Application, Transport};
ghost use Rattle.quic_machine.specs.declared.answers.Transmit.{Transmit};
ghost use Rattle.quic_machine.specs.declared.run.CloseCall.{CloseCall};
ghost use Rattle.quic_machine.specs.Policy.{Policy};
ghost use Rattle.quic_headline.specs.Alone.{Lone};
ghost use Rattle.quic_headline.specs.LoneCloses.{ClosedForCause, DrainedForCause};
ghost use Rattle.quic_headline.specs.FewCloses.{CloseFew};
ghost use Rattle.quic_headline.specs.Keeping.{KeepsWithin};
ghost use Rattle.quic_headline.specs.FewEvents.{TellFew, EventsAreFew};
ghost use Rattle.quic_headline.specs.Nonces.{SealedOnce};
ghost use Rattle.quic_headline.specs.LoneAcks.{AcksTaken};
ghost use Rattle.quic_headline.specs.LoneMessages.{TakesFit};
ghost use Rattle.quic_worked.specs.Worked.{worked_policies, hello_datagram};
ghost use Rattle.quic_worked.specs.Acknowledged.{ack_at_once, ack_of_third, ack_behind_challenge};
ghost use Rattle.quic_worked.specs.Settings.{plain_settings};
ghost use Rattle.quic_worked.specs.Kept.{took_five, four_on_a_stream, four_on_all, one_at_once, two_opened, came_apart, four_mebibytes, room_of_one, two_bytes, two_empty, too_many_runs, too_many_known, asks_once, told_once, hands_in_before, taken_before, dropped_before, asks_twice, finished_twice, lost_twice, sealed_in_turn, sealed_under_one, sealed_falling, two_seals, handles, handled, polls_once, gave_none, hands_one, one_dropped, closes_it, was_closed, polls_twice, gave_twice, polls_between, gave_between, shows_payload, shows_it, gave_one, hands_and_polls, taken_and_gave, dropped_and_gave, one_taken, with_message, with_message_behind};

/// An end that took five bytes keeps more than it may where four may come, of a stream or of all;
/// so does one whose peer has two streams open of which one may be (RFC 9000, sections 4.1 and
/// 4.6).
pub fn kept_streams_show()
    ensures stream { KeepsWithin four_on_a_stream took_five → ⊥ }
    ensures total { KeepsWithin four_on_all took_five → ⊥ }
    ensures streams { KeepsWithin one_at_once two_opened → ⊥ }
{}

/// Where as much may come on a stream as by default, an open end may keep 2048 bytes of one, each
/// behind a gap, and 2049 are one run more than it may. Where 4 MiB may come it may keep 4096, and
/// 4097 are one more (RFC 9000, section 21.7).
pub fn kept_runs_show()
    ensures kept { KeepsWithin plain_settings (came_apart 2048) }
    ensures more { KeepsWithin plain_settings (came_apart 2049) → ⊥ }
    ensures wide { KeepsWithin four_mebibytes (came_apart 4096) }
    ensures wider { KeepsWithin four_mebibytes (came_apart 4097) → ⊥ }
{}

/// An end with room for a byte of messages keeps more than it may where one of two bytes waits, or
/// two without a byte (RFC 9221, section 3).
pub fn kept_messages_show()
    ensures bytes { KeepsWithin room_of_one two_bytes → ⊥ }
    ensures empty { KeepsWithin room_of_one two_empty → ⊥ }
{}

/// 65 runs of numbers to be acknowledged are one more than an end may keep, and so are eight
/// connection IDs beside the one in use (RFC 9000, sections 5.1.1 and 13.2.3).
pub fn kept_numbers_show()
    ensures numbers { KeepsWithin plain_settings too_many_runs → ⊥ }
    ensures ids { KeepsWithin plain_settings too_many_known → ⊥ }
{}

/// An application to which nothing came is told once too often that a message did, and so is one to
/// which a datagram came that was dropped. Where one was taken before, of a byte or more, it may be
/// told so. That a stream is finished, or that the end is lost, isn't told twice (RFC 9000, section
/// 2.4).
pub fn told_too_often_shows()
    ensures nothing { EventsAreFew [] asks_once told_once → ⊥ }
    ensures came { (byte : ℕ) (bytes : List ℕ) → TellFew ((byte ∷ bytes) ∷ []) hands_in_before taken_before }
    ensures dropped { (byte : ℕ) (bytes : List ℕ) → EventsAreFew ((byte ∷ bytes) ∷ []) hands_in_before dropped_before → ⊥ }
    ensures again { EventsAreFew [] asks_twice finished_twice → ⊥ }
    ensures lost { EventsAreFew [] asks_twice lost_twice → ⊥ }
{}

/// Datagrams under numbers that rise were sealed as they may be, also where one is left out, and
/// where the peer said what they are cut against. Two that were sealed under one number weren't,
/// whatever is in them, nor were two of which the second has the lower number; nor was a third, by
/// a key that seals two (RFC 9000, section 12.3; RFC 9001, sections 5.3 and 6.6).
pub fn sealed_twice_shows()
    ensures in_turn { (first second third : List ℕ) → SealedOnce worked_policies.client (sealed_in_turn first second third) }
    ensures under_one { (first second : List ℕ) → SealedOnce worked_policies.client (sealed_under_one first second) → ⊥ }
    ensures falling { (first second : List ℕ) → SealedOnce worked_policies.client (sealed_falling first second) → ⊥ }
    ensures third { (first second third : List ℕ) → SealedOnce two_seals (sealed_in_turn first second third) → ⊥ }
{}

/// An open end closes for its application where that closes it. One that closes so at a moment, or
/// for a broken rule at a datagram that it dropped, has no cause (RFC 9000, section 10).
pub fn closed_without_cause_shows()
    ensures called { (p : Policy) (theirs : List (List ℕ)) (x left : Lone) (close : CloseCall) → x.end.closing.state ≡ Open → left.end.closing.state ≡ Closing → left.end.closing.reason ≡ Some Application → ClosedForCause p theirs x (closes_it close) was_closed left }
    ensures uncalled { (p : Policy) (theirs : List (List ℕ)) (x left : Lone) (now : ℕ) → left.end.closing.reason ≡ Some Application → ClosedForCause p theirs x (handles now) handled left → ⊥ }
    ensures dropped { (p : Policy) (theirs : List (List ℕ)) (x left : Lone) (error : ErrorValue) → left.end.closing.reason ≡ Some (Transport error) → ClosedForCause p theirs x hands_one one_dropped left → ⊥ }
{}

/// An open end may be drained at the moment of its idle timer. One that is drained before it, or at
/// a poll, has no cause (RFC 9000, section 10.1).
pub fn drained_without_cause_shows()
    ensures idle { (p : Policy) (theirs : List (List ℕ)) (x left : Lone) (moment now : ℕ) → x.end.closing.state ≡ Open → x.end.timers.idle ≡ Some moment → moment ≤ now → DrainedForCause p theirs x (handles now) handled left }
    ensures early { (p : Policy) (theirs : List (List ℕ)) (x left : Lone) (moment now : ℕ) → x.end.closing.state ≡ Open → x.end.timers.idle ≡ Some moment → x.end.closing.clock < moment → now < moment → left.end.closing.state ≡ Drained → DrainedForCause p theirs x (handles now) handled left → ⊥ }
    ensures polled { (p : Policy) (theirs : List (List ℕ)) (x left : Lone) (now : ℕ) → left.end.closing.state ≡ Drained → DrainedForCause p theirs x (polls_once now) gave_none left → ⊥ }
{}

/// A closing end gives its close once more for a datagram that opens; without one it may not (RFC
/// 9000, section 10.2.1).
pub fn closes_too_often_show()
    ensures once_more { (now : ℕ) (t : Transmit) → CloseFew (polls_between now) (gave_between t) }
    ensures unasked { (now : ℕ) (t : Transmit) → CloseFew (polls_twice now) (gave_twice t) → ⊥ }
{}

/// An end may acknowledge the number of a datagram that was handed in and taken. One that
/// acknowledges a number that it never took shows, also where the ACK stands behind the eight bytes
/// of a PATH_CHALLENGE, and so does one that acknowledges the number of a datagram that it dropped
/// (RFC 9000, section 13.1).
pub fn acknowledged_untaken_shows()
    ensures taken { (now : ℕ) (t : Transmit) → AcksTaken shows_payload (hello_datagram ∷ []) [] (hands_and_polls now) (taken_and_gave t) (shows_it ack_at_once) }
    ensures untaken { (now : ℕ) (t : Transmit) → AcksTaken shows_payload [] [] (polls_once now) (gave_one t) (shows_it ack_of_third) → ⊥ }
    ensures behind { (now : ℕ) (t : Transmit) → AcksTaken shows_payload [] [] (polls_once now) (gave_one t) (shows_it ack_behind_challenge) → ⊥ }
    ensures dropped { (now : ℕ) (t : Transmit) → AcksTaken shows_payload (hello_datagram ∷ []) [] (hands_and_polls now) (dropped_and_gave t) (shows_it ack_at_once) → ⊥ }
{}

/// An end with room for two bytes of messages may take one of two. One with room for a byte that
/// takes it shows, and so does one that has no such buffer. Behind a close nothing is read, so one
/// may stand there (RFC 9221, section 3).
pub fn taken_message_shows()
    ensures fits { TakesFit worked_policies.server (with_message ∷ []) (Some 2) [] hands_one one_taken }
    ensures long { TakesFit worked_policies.server (with_message ∷ []) (Some 1) [] hands_one one_taken → ⊥ }
    ensures unasked { TakesFit worked_policies.server (with_message ∷ []) None [] hands_one one_taken → ⊥ }
    ensures behind { TakesFit worked_policies.server (with_message_behind ∷ []) None [] hands_one one_taken }
    ensures dropped { TakesFit worked_policies.server (with_message ∷ []) None [] hands_one one_dropped }
{}
