//! Packet numbers that come: which came before, which are missing, and which are to be
//! acknowledged, and when (RFC 9000, sections 12.3 and 13.2; the ACK frequency extension).
ghost use Rattle.std.specs.Prelude.{◌≡◌, true, false, [], ◌∷◌, length, replicate, Some, None};
ghost use Rattle.std.specs.List.{range_with_len};
ghost use Rattle.quic_wire.specs.AckSet.{ranges_of_set, greatest};
ghost use Rattle.quic_wire.specs.AckWriting.{ack_spelling, ack_size};
ghost use Rattle.quic_recovery_core.specs.Duplicates.{is_duplicate, smallest_missing};
ghost use Rattle.quic_recovery_core.specs.PendingAcks.{none_pending, can_send, is_filled, after_insert, after_subtract, after_acks_sent, delay_of};
ghost use Rattle.quic_spaces.specs.Acknowledging.{ack_at};
ghost use Rattle.quic_recovery_rows.specs.Arriving.{millis, seen, told, nothing_came, comes, comes_with, waits, with_numbers, with_thresholds, even_numbers, least_start};

/// Each number counts once.
#[tactic(auto, unfolding(crate::specs::Arriving::told))]
pub fn duplicates_are_told()
    ensures { told [] (0 ∷ 0 ∷ 1 ∷ 2 ∷ 4 ∷ 7 ∷ 4 ∷ 3 ∷ [])
        ≡ false ∷ true ∷ false ∷ false ∷ false ∷ false ∷ true ∷ false ∷ [] }
{}

/// 257 numbers are told apart, and one below them counts as one that came.
#[tactic(auto, unfolding(crate::specs::Arriving::told, crate::specs::Arriving::seen))]
pub fn window_has_257_numbers()
    ensures new { told [] (range_with_len 1 257) ≡ replicate 257 false }
    ensures least { is_duplicate (seen (range_with_len 1 257)) 1 ≡ true }
    ensures below { is_duplicate (seen (range_with_len 1 257)) 0 ≡ true }
    ensures far { is_duplicate (seen (257 ∷ [])) 1 ≡ false }
{}

/// The number 256 below the greatest is the last one told apart: it counts as one that came exactly
/// where it did, before the greatest or after it. The number below it counts as one in any case.
#[tactic(auto, unfolding(crate::specs::Arriving::told, crate::specs::Arriving::seen))]
pub fn last_number_of_the_window_is_told_apart()
    ensures came { is_duplicate (seen (1 ∷ 257 ∷ [])) 1 ≡ true }
    ensures lacks { is_duplicate (seen (2 ∷ 257 ∷ [])) 1 ≡ false }
    ensures late { told [] (2 ∷ 257 ∷ 1 ∷ 1 ∷ 2 ∷ 0 ∷ []) ≡ false ∷ false ∷ false ∷ true ∷ true ∷ true ∷ [] }
    ensures kept { seen (1 ∷ 257 ∷ []) ≡ 257 ∷ 1 ∷ [] }
    ensures kept_late { seen (2 ∷ 257 ∷ 1 ∷ []) ≡ 257 ∷ 2 ∷ 1 ∷ [] }
    ensures below { is_duplicate (seen (1 ∷ 257 ∷ [])) 0 ≡ true }
    ensures dropped { seen (1 ∷ 258 ∷ []) ≡ 258 ∷ [] }
{}

/// The least number is told that lacks between two others.
#[tactic(auto, unfolding(crate::specs::Arriving::seen))]
pub fn gap_is_told()
    ensures one { smallest_missing (seen (0 ∷ 1 ∷ 3 ∷ [])) 1 3 ≡ Some 2 }
    ensures none { smallest_missing (seen (0 ∷ 1 ∷ 3 ∷ 4 ∷ [])) 3 4 ≡ None }
    ensures whole { smallest_missing (seen (0 ∷ 1 ∷ 3 ∷ 4 ∷ [])) 0 4 ≡ Some 2 }
    ensures filled { smallest_missing (seen (0 ∷ 1 ∷ 3 ∷ 4 ∷ 2 ∷ [])) 0 4 ≡ None }
{}

/// Of several the least is told, but none that lies far below the greatest.
#[tactic(auto, unfolding(crate::specs::Arriving::told, crate::specs::Arriving::seen))]
pub fn least_gap_is_found()
    ensures new { told [] (0 ∷ 1 ∷ 5 ∷ 7 ∷ 2 ∷ 170 ∷ 172 ∷ 300 ∷ 500 ∷ []) ≡ replicate 9 false }
    ensures least { smallest_missing (seen (0 ∷ 1 ∷ 5 ∷ 7 ∷ [])) 0 7 ≡ Some 2 }
    ensures between { smallest_missing (seen (0 ∷ 1 ∷ 5 ∷ 7 ∷ [])) 5 7 ≡ Some 6 }
    ensures next { smallest_missing (seen (0 ∷ 1 ∷ 5 ∷ 7 ∷ 2 ∷ [])) 1 7 ≡ Some 3 }
    ensures late { smallest_missing (seen (0 ∷ 1 ∷ 5 ∷ 7 ∷ 2 ∷ 170 ∷ 172 ∷ 300 ∷ [])) 170 172 ≡ Some 171 }
    ensures far { smallest_missing (seen (0 ∷ 1 ∷ 5 ∷ 7 ∷ 2 ∷ 170 ∷ 172 ∷ 300 ∷ 500 ∷ [])) 170 172 ≡ None }
    ensures near { smallest_missing (seen (0 ∷ 1 ∷ 5 ∷ 7 ∷ 2 ∷ 170 ∷ 172 ∷ 300 ∷ 500 ∷ [])) 0 500 ≡ Some 244 }
    ensures nearer { smallest_missing (seen (0 ∷ 1 ∷ 5 ∷ 7 ∷ 2 ∷ 170 ∷ 172 ∷ 300 ∷ 500 ∷ [])) 0 373 ≡ Some 244 }
    ensures nearest { smallest_missing (seen (0 ∷ 1 ∷ 5 ∷ 7 ∷ 2 ∷ 170 ∷ 172 ∷ 300 ∷ 500 ∷ [])) 0 372 ≡ Some 244 }
    ensures last { smallest_missing (seen (0 ∷ 1 ∷ 5 ∷ 7 ∷ 2 ∷ 170 ∷ 172 ∷ 300 ∷ 500 ∷ [])) 0 245 ≡ Some 244 }
    ensures below { smallest_missing (seen (0 ∷ 1 ∷ 5 ∷ 7 ∷ 2 ∷ 170 ∷ 172 ∷ 300 ∷ 500 ∷ [])) 0 244 ≡ None }
{}

/// One packet that asks waits for its acknowledgement, which is due once it is required.
pub fn first_packet_waits()
    ensures waits { waits nothing_came 0 ≡ true }
    ensures due { can_send (comes nothing_came 0).pending ≡ false }
    ensures filled { is_filled (comes nothing_came 0).pending.runs ≡ true }
    ensures largest { greatest (ranges_of_set (comes nothing_came 0).pending.runs) ≡ 0 }
    ensures required { can_send (record (comes nothing_came 0).pending { due = true }) ≡ true }
{}

/// The second packet that asks is acknowledged at once. At 7 ms the delay is 875 units of 8
/// microseconds, in two bytes (section 19.3). Once the frame went, nothing is due.
pub fn second_packet_is_acknowledged()
    ensures waits { waits (comes nothing_came 0) 1 ≡ false }
    ensures due { can_send (comes (comes nothing_came 0) 1).pending ≡ true }
    ensures largest { greatest (ranges_of_set (comes (comes nothing_came 0) 1).pending.runs) ≡ 1 }
    ensures frame { ack_spelling (ack_at (comes (comes nothing_came 0) 1).pending (millis 7) None)
        ≡ 0x02 ∷ 0x01 ∷ 0x43 ∷ 0x6b ∷ 0x00 ∷ 0x01 ∷ [] }
    ensures size { ack_size (ack_at (comes (comes nothing_came 0) 1).pending (millis 7) None) ≡ 6 }
    ensures sent { can_send (after_acks_sent (comes (comes nothing_came 0) 1).pending) ≡ false }
    ensures kept { (after_acks_sent (comes (comes nothing_came 0) 1).pending).runs ≡ record { start = 0; end = 2 } ∷ [] }
{}

/// Each number is a range of its own.
pub fn ranges_are_acknowledged()
    ensures due { can_send (comes (comes (comes nothing_came 0) 2) 4).pending ≡ true }
    ensures largest { greatest (ranges_of_set (comes (comes (comes nothing_came 0) 2) 4).pending.runs) ≡ 4 }
    ensures frame { ack_spelling (ack_at (comes (comes (comes nothing_came 0) 2) 4).pending (millis 7) None)
        ≡ 0x02 ∷ 0x04 ∷ 0x43 ∷ 0x6b ∷ 0x02 ∷ 0x00 ∷ 0x00 ∷ 0x00 ∷ 0x00 ∷ 0x00 ∷ [] }
{}

/// One that asks and came with CE is acknowledged at once, and the frame has the counts.
pub fn congested_packet_is_acknowledged_at_once()
    ensures due { can_send (comes_with true nothing_came 0).pending ≡ true }
    ensures frame { ack_spelling (ack_at (comes_with true nothing_came 0).pending (millis 7) (Some (0, 0, 1)))
        ≡ 0x03 ∷ 0x00 ∷ 0x43 ∷ 0x6b ∷ 0x00 ∷ 0x00 ∷ 0x00 ∷ 0x00 ∷ 0x01 ∷ [] }
    ensures size { ack_size (ack_at (comes_with true nothing_came 0).pending (millis 7) (Some (0, 0, 1))) ≡ 9 }
    ensures sent { can_send (after_acks_sent (comes_with true nothing_came 0).pending) ≡ false }
{}

/// The delay is that of the greatest number, whichever came last.
pub fn delay_is_of_the_greatest_number()
    ensures first { delay_of (after_insert none_pending 0 0).newest (millis 7) ≡ millis 7 }
    ensures greater { delay_of (after_insert (after_insert none_pending 0 0) 3 (millis 2)).newest (millis 7) ≡ millis 5 }
    ensures less { delay_of (after_insert (after_insert (after_insert none_pending 0 0) 3 (millis 2)) 2 (millis 7)).newest (millis 7) ≡ millis 5 }
{}

/// Where the peer lets ten packets wait, and numbers be missing up to three below the greatest, 6
/// counts as lost once 9 came.
pub fn peer_sets_the_thresholds()
    ensures first { waits (with_thresholds 10 3 nothing_came) 4 ≡ true }
    ensures second { waits (comes (with_thresholds 10 3 nothing_came) 4) 5 ≡ false }
    ensures third { let c = comes (comes (with_thresholds 10 3 nothing_came) 4) 5 in
        let acked = record c { pending = after_acks_sent c.pending } in
        waits acked 7 ≡ true }
    ensures fourth { let c = comes (comes (with_thresholds 10 3 nothing_came) 4) 5 in
        let acked = record c { pending = after_acks_sent c.pending } in
        waits (comes acked 7) 8 ≡ false }
    ensures near { let c = comes (comes (with_thresholds 10 3 nothing_came) 4) 5 in
        let acked = record c { pending = after_acks_sent c.pending } in
        can_send (comes (comes acked 7) 8).pending ≡ false }
    ensures far { let c = comes (comes (with_thresholds 10 3 nothing_came) 4) 5 in
        let acked = record c { pending = after_acks_sent c.pending } in
        can_send (comes (comes (comes acked 7) 8) 9).pending ≡ true }
{}

/// Of 65 runs the one of the least number goes.
#[tactic(auto, unfolding(crate::specs::Arriving::with_numbers, crate::specs::Arriving::even_numbers))]
pub fn least_of_65_runs_goes()
    ensures count { length (with_numbers (millis 7) (even_numbers 65) none_pending).runs ≡ 64 }
    ensures starts { least_start (with_numbers (millis 7) (even_numbers 65) none_pending).runs ≡ Some 2 }
    ensures delay { delay_of (with_numbers (millis 7) (even_numbers 65) none_pending).newest (millis 7) ≡ 0 }
    ensures due { can_send (with_numbers (millis 7) (even_numbers 65) none_pending) ≡ false }
    ensures cut { length (after_subtract (with_numbers (millis 7) (even_numbers 65) none_pending) 4).runs ≡ 62 }
    ensures cut_starts { least_start (after_subtract (with_numbers (millis 7) (even_numbers 65) none_pending) 4).runs ≡ Some 6 }
{}
