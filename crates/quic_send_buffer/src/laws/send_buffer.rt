//! Where the offsets of a stream are that were written, and what each call of [`SendBuffer`] moves.
//!
//! [`SendBuffer`]: crate::SendBuffer
ghost use Rattle.std.specs.Prelude.{◌≡◌, ℕ, ◌+◌, ◌-◌, ◌<◌, ◌≤◌, ◌^◌, List, [], true, false, cond, ltb, not, ◌&&◌, ◌||◌, length, ◌++◌, ◌∷◌, drop, slice_range, IsSome};
ghost use Rattle.quic_send_buffer.specs.Buffered.{Buffered, IsBuffered, bytes_in, written, nothing_written, kept_byte, is_fully_acked, has_unsent, places, AreSamePlaces, is_acknowledged, is_lost, is_unsent, is_in_flight, after_write, after_ack, after_loss, after_poll, width, offset_width, next_start, writes_length, sent_end};
ghost use Rattle.quic_sets.specs.Parts.{byte_from};
ghost use Rattle.quic_send_buffer.specs.declared.send_buffer.TheConstants.{LENGTH_ROOM};
ghost use Rattle.quic_sets.specs.Offsets.{is_within};
ghost use Rattle.quic_send_buffer.specs.BufferedHistory.{Call, buffered_after, written_over, writes_of, goes, was_sent, was_acked, was_lost};
ghost use Rattle.std.specs.List.{slice_get};

/// Each offset that was written is in one place: acknowledged, lost, never sent or in flight.
/// Others are in none.
pub fn offsets_are_in_one_place()
    ensures { (b : Buffered) (o : ℕ) → IsBuffered b → places b o ≡ cond (ltb o (written b)) 1 0 }
{}

/// What is acknowledged stays so, whatever comes.
pub fn acknowledged_stays()
    ensures write { (b : Buffered) (bytes : List ℕ) (o : ℕ) → is_acknowledged (after_write b bytes) o ≡ is_acknowledged b o }
    ensures ack { (b : Buffered) (a z o : ℕ) → IsBuffered b → is_acknowledged b o ≡ true → is_acknowledged (after_ack b a z) o ≡ true }
    ensures loss { (b : Buffered) (a z o : ℕ) → is_acknowledged (after_loss b a z) o ≡ is_acknowledged b o }
    ensures poll { (b : Buffered) (most o : ℕ) → is_acknowledged (after_poll b most) o ≡ is_acknowledged b o }
{}

/// A write puts its bytes behind those that were written, never sent yet, and moves nothing.
pub fn writes_wait()
    ensures waits { (b : Buffered) (bytes : List ℕ) (o : ℕ) → IsBuffered b → is_unsent (after_write b bytes) o ≡ is_unsent b o || is_within (written b) (written b + length bytes) o }
    ensures written { (b : Buffered) (bytes : List ℕ) → written (after_write b bytes) ≡ written b + length bytes }
    ensures lost { (b : Buffered) (bytes : List ℕ) (o : ℕ) → is_lost (after_write b bytes) o ≡ is_lost b o }
    ensures in_flight { (b : Buffered) (bytes : List ℕ) (o : ℕ) → is_in_flight (after_write b bytes) o ≡ is_in_flight b o }
    ensures empty { (b : Buffered) → after_write b [] ≡ b }
    ensures lawful { (b : Buffered) (bytes : List ℕ) → IsBuffered b → written b + length bytes < 2 ^ 62 → IsBuffered (after_write b bytes) }
{}

/// What was sent of a range is acknowledged after `ack`, and not lost; all else stays where it was.
pub fn acks_acknowledge()
    ensures acknowledged { (b : Buffered) (a z o : ℕ) → IsBuffered b → is_acknowledged (after_ack b a z) o ≡ is_acknowledged b o || (is_within a z o && ltb o b.unsent) }
    ensures lost { (b : Buffered) (a z o : ℕ) → IsBuffered b → is_lost (after_ack b a z) o ≡ is_lost b o && not (is_within a z o) }
    ensures unsent { (b : Buffered) (a z o : ℕ) → IsBuffered b → is_unsent (after_ack b a z) o ≡ is_unsent b o }
    ensures in_flight { (b : Buffered) (a z o : ℕ) → IsBuffered b → is_in_flight (after_ack b a z) o ≡ is_in_flight b o && not (is_within a z o) }
    ensures written { (b : Buffered) (a z : ℕ) → IsBuffered b → written (after_ack b a z) ≡ written b }
    ensures lawful { (b : Buffered) (a z : ℕ) → IsBuffered b → IsBuffered (after_ack b a z) }
{}

/// What of a range is in flight is lost after `retransmit`; all else stays where it was.
pub fn losses_lose()
    ensures lost { (b : Buffered) (a z o : ℕ) → IsBuffered b → is_lost (after_loss b a z) o ≡ is_lost b o || (is_within a z o && is_in_flight b o) }
    ensures in_flight { (b : Buffered) (a z o : ℕ) → IsBuffered b → is_in_flight (after_loss b a z) o ≡ is_in_flight b o && not (is_within a z o) }
    ensures unsent { (b : Buffered) (a z o : ℕ) → is_unsent (after_loss b a z) o ≡ is_unsent b o }
    ensures lawful { (b : Buffered) (a z : ℕ) → IsBuffered b → IsBuffered (after_loss b a z) }
{}

/// What a poll gives was written, was lost or never sent, isn't acknowledged, and is in flight
/// then; all else stays where it was. Where something is lost only that goes, the least first.
pub fn polls_send_what_waits()
    ensures waits { (b : Buffered) (most o : ℕ) → IsBuffered b → is_within (next_start b) (sent_end b most) o ≡ true → (is_lost b o || is_unsent b o) ≡ true }
    ensures written { (b : Buffered) (most o : ℕ) → IsBuffered b → is_within (next_start b) (sent_end b most) o ≡ true → o < written b }
    ensures not_acknowledged { (b : Buffered) (most o : ℕ) → IsBuffered b → is_within (next_start b) (sent_end b most) o ≡ true → is_acknowledged b o ≡ false }
    ensures flies { (b : Buffered) (most o : ℕ) → IsBuffered b → is_within (next_start b) (sent_end b most) o ≡ true → is_in_flight (after_poll b most) o ≡ true }
    ensures stays { (b : Buffered) (most o : ℕ) → IsBuffered b → is_within (next_start b) (sent_end b most) o ≡ false → AreSamePlaces (after_poll b most) b o }
    ensures lost_first { (b : Buffered) (most o k : ℕ) → IsBuffered b → is_lost b k ≡ true → is_within (next_start b) (sent_end b most) o ≡ true → is_lost b o ≡ true }
    ensures least_first { (b : Buffered) (k : ℕ) → IsBuffered b → is_lost b k ≡ true → next_start b ≤ k }
    ensures lawful { (b : Buffered) (most : ℕ) → IsBuffered b → IsBuffered (after_poll b most) }
{}

/// The byte at an offset that was written and isn't acknowledged is kept, and stays the same.
pub fn unacknowledged_bytes_are_kept()
    ensures kept { (b : Buffered) (o : ℕ) → IsBuffered b → o < written b → is_acknowledged b o ≡ false → IsSome (kept_byte b o) }
    ensures write { (b : Buffered) (bytes : List ℕ) (o : ℕ) → o < written b → kept_byte (after_write b bytes) o ≡ kept_byte b o }
    ensures written { (b : Buffered) (bytes : List ℕ) (o : ℕ) → written b ≤ o → kept_byte (after_write b bytes) o ≡ byte_from (written b) bytes o }
    ensures ack { (b : Buffered) (a z o : ℕ) → IsBuffered b → is_acknowledged (after_ack b a z) o ≡ false → kept_byte (after_ack b a z) o ≡ kept_byte b o }
    ensures loss { (b : Buffered) (a z o : ℕ) → kept_byte (after_loss b a z) o ≡ kept_byte b o }
    ensures poll { (b : Buffered) (most o : ℕ) → kept_byte (after_poll b most) o ≡ kept_byte b o }
{}

/// A range of what is kept, as [`get`](crate::SendBuffer::get) and [`put`](crate::SendBuffer::put)
/// give it, has the kept bytes of its offsets, one after another.
pub fn ranges_have_kept_bytes()
    ensures bytes { (b : Buffered) (start end i : ℕ) → b.base ≤ start → end ≤ written b → start + i < end → slice_get (slice_range b.kept (start - b.base) (end - b.base)) i ≡ kept_byte b (start + i) }
    ensures count { (b : Buffered) (start end : ℕ) → b.base ≤ start → end ≤ written b → length (slice_range b.kept (start - b.base) (end - b.base)) ≡ end - start }
{}

/// All is acknowledged where each byte that was written is, and no byte is kept then.
pub fn fully_acked_is_each_acknowledged()
    ensures each { (b : Buffered) (o : ℕ) → IsBuffered b → is_fully_acked b ≡ true → o < written b → is_acknowledged b o ≡ true }
    ensures all { (b : Buffered) → IsBuffered b → ((o : ℕ) → o < written b → is_acknowledged b o ≡ true) → is_fully_acked b ≡ true }
    ensures none_kept { (b : Buffered) → IsBuffered b → is_fully_acked b ≡ true → b.kept ≡ [] }
{}

/// There is something to send where an offset is lost or was never sent: the one that goes next is.
pub fn what_waits_is_told()
    ensures some { (b : Buffered) → IsBuffered b → has_unsent b ≡ true → (is_lost b (next_start b) || is_unsent b (next_start b)) ≡ true }
    ensures none_waits { (b : Buffered) (o : ℕ) → has_unsent b ≡ false → (is_lost b o || is_unsent b o) ≡ false }
{}

/// In 16 bytes of room behind a frame's type and id or more, its offset, its length with 8 bytes,
/// and its bytes fit; no length takes more. A frame without length fills the room, where that has 8
/// bytes or more. With less room a frame may not fit, as an offset alone takes up to 8 bytes. In 17
/// bytes of room at least one byte goes, where there is one to go.
pub fn frames_fit_their_room()
    ensures with_length { (b : Buffered) (max : ℕ) → IsBuffered b → 16 ≤ max → writes_length b max ≡ true → offset_width (next_start b) + LENGTH_ROOM + (sent_end b max - next_start b) ≤ max }
    ensures without { (b : Buffered) (max : ℕ) → IsBuffered b → 8 ≤ max → writes_length b max ≡ false → offset_width (next_start b) + (sent_end b max - next_start b) ≡ max }
    ensures length { (n : ℕ) → width n ≤ LENGTH_ROOM }
    ensures eight { LENGTH_ROOM ≡ 8 }
    ensures some { (b : Buffered) (max : ℕ) → IsBuffered b → 17 ≤ max → has_unsent b ≡ true → next_start b < sent_end b max }
{}

/// Nothing is written at first.
pub fn nothing_is_written()
    ensures { IsBuffered nothing_written }
{}

/// After any calls each offset that was written is in one place, and no other is in any. It is
/// acknowledged where it was when it had been sent; lost where it was when it had been sent, and
/// neither acknowledged nor sent since; and never sent where no poll gave it.
pub fn history_tells_places()
    ensures lawful { (calls : List Call) → length (written_over calls) < 2 ^ 62 → IsBuffered (buffered_after calls) }
    ensures written { (calls : List Call) → length (written_over calls) < 2 ^ 62 → written (buffered_after calls) ≡ length (written_over calls) }
    ensures one_place { (calls : List Call) (o : ℕ) → length (written_over calls) < 2 ^ 62 → places (buffered_after calls) o ≡ cond (ltb o (length (written_over calls))) 1 0 }
    ensures acknowledged { (calls : List Call) (o : ℕ) → length (written_over calls) < 2 ^ 62 → is_acknowledged (buffered_after calls) o ≡ was_acked calls o }
    ensures lost { (calls : List Call) (o : ℕ) → length (written_over calls) < 2 ^ 62 → is_lost (buffered_after calls) o ≡ was_lost calls o }
    ensures unsent { (calls : List Call) (o : ℕ) → length (written_over calls) < 2 ^ 62 → is_unsent (buffered_after calls) o ≡ ltb o (length (written_over calls)) && not (was_sent calls o) }
{}

/// What goes out after any calls is bytes that were written: each offset is below their number, and
/// its byte is the one that was written there.
pub fn written_bytes_go()
    ensures written { (calls : List Call) (max o : ℕ) → length (written_over calls) < 2 ^ 62 → goes calls max o ≡ true → o < length (written_over calls) }
    ensures bytes { (calls : List Call) (max o : ℕ) → length (written_over calls) < 2 ^ 62 → goes calls max o ≡ true → kept_byte (buffered_after calls) o ≡ slice_get (written_over calls) o }
    ensures kept { (calls : List Call) (o : ℕ) → length (written_over calls) < 2 ^ 62 → was_acked calls o ≡ false → kept_byte (buffered_after calls) o ≡ slice_get (written_over calls) o }
{}

/// After any calls the pieces are the last of the writes that had bytes, each whole, and begin
/// behind the bytes of those before. Their bytes are kept, and no others: each offset before them
/// is acknowledged, and some offset of the first of them isn't.
pub fn whole_writes_are_kept()
    ensures pieces { (calls : List Call) → length (written_over calls) < 2 ^ 62 → (before : List ℕ) × (writes_of calls ≡ before ++ (buffered_after calls).pieces) × ((buffered_after calls).base ≡ bytes_in before) }
    ensures bytes { (calls : List Call) → length (written_over calls) < 2 ^ 62 → (buffered_after calls).kept ≡ drop (buffered_after calls).base (written_over calls) }
    ensures count { (calls : List Call) → length (written_over calls) < 2 ^ 62 → length (buffered_after calls).kept ≡ bytes_in (buffered_after calls).pieces }
    ensures acknowledged { (calls : List Call) (o : ℕ) → length (written_over calls) < 2 ^ 62 → o < (buffered_after calls).base → was_acked calls o ≡ true }
    ensures needed { (calls : List Call) (n : ℕ) (ns : List ℕ) → length (written_over calls) < 2 ^ 62 → (buffered_after calls).pieces ≡ n ∷ ns → (o : ℕ) × ((buffered_after calls).base ≤ o) × (o < (buffered_after calls).base + n) × (was_acked calls o ≡ false) }
{}

/// An offset that was acknowledged when it had been sent never goes again, whatever comes.
pub fn acknowledged_never_goes_again()
    ensures goes { (calls : List Call) (max o : ℕ) → length (written_over calls) < 2 ^ 62 → was_acked calls o ≡ true → goes calls max o ≡ false }
    ensures later { (later calls : List Call) (max o : ℕ) → length (written_over (later ++ calls)) < 2 ^ 62 → was_acked calls o ≡ true → goes (later ++ calls) max o ≡ false }
{}
