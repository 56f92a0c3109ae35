//! What is lost, and when it is looked for (RFC 9002, sections 5 to 7).
ghost use Rattle.std.specs.Prelude.{◌≡◌, true, false, [], ◌∷◌, Some, None, Ok, Err};
ghost use Rattle.std.specs.Map.{keys_of};
ghost use Rattle.quic_time.specs.Rtt.{assumed_rtt, best_rtt, probe_timeout, with_sample};
ghost use Rattle.quic_congestion.specs.NewReno.{default_reno, reno_made, reno_congested};
ghost use Rattle.quic_spaces.specs.declared.space.EcnError.TheVariants.{Bleaching, CeRegression, Corruption, Ect0Regression, Ect1Regression};
ghost use Rattle.quic_spaces.specs.Tracking.{nothing_tracked, after_loss_timeout, after_answered};
ghost use Rattle.quic_spaces.specs.Loss.{lost_by, after_detection, loss_moment};
ghost use Rattle.quic_spaces.specs.PersistentSteps.{is_persistent_after};
ghost use Rattle.quic_recovery_rows.specs.Tracked.{micros, three_sent, judging, one_sent, lost_in_turn, lost_with_gap, judged_marks};

/// 7/8 of 100 ms and 1/8 of 60 ms; 95 ms and four times 3/4 of 50 ms and 1/4 of 40 ms.
pub fn samples_are_smoothed()
    ensures smoothed { best_rtt (with_sample (with_sample (assumed_rtt (micros 333000)) 0 (micros 100000)) 0 (micros 60000)) ≡ micros 95000 }
    ensures least { (with_sample (with_sample (assumed_rtt (micros 333000)) 0 (micros 100000)) 0 (micros 60000)).least ≡ micros 60000 }
    ensures probe { probe_timeout (with_sample (with_sample (assumed_rtt (micros 333000)) 0 (micros 100000)) 0 (micros 60000)) ≡ micros 285000 }
{}

/// 0 lies three below 3. 9/8 of 100 ms are 112.5 ms: then the two are lost that went at 1 ms, and
/// nothing is left to be judged by time.
pub fn packets_are_lost_by_number_and_time()
    ensures number { keys_of (lost_by (judging (micros 100000)) three_sent.packets) ≡ 0 ∷ [] }
    ensures time { (after_detection (judging (micros 100000)) three_sent).loss_time ≡ Some (micros 113500) }
    ensures moment { loss_moment 0 (after_detection (judging (micros 100000)) three_sent) ≡ Some (micros 113500) }
    ensures before { lost_by (judging (micros 113499)) (after_detection (judging (micros 100000)) three_sent).packets ≡ [] }
    ensures later { keys_of (lost_by (judging (micros 113500)) (after_detection (judging (micros 100000)) three_sent).packets) ≡ 1 ∷ 2 ∷ [] }
    ensures none { loss_moment 0 (after_detection (judging (micros 113500)) (after_detection (judging (micros 100000)) three_sent)) ≡ None }
{}

/// Each expiry doubles the time until a probe, and an answer takes that back.
pub fn probes_go_later_and_later()
    ensures none { loss_moment (micros 285000) (nothing_tracked 0) ≡ None }
    ensures first { loss_moment (micros 285000) one_sent ≡ Some (micros 286000) }
    ensures second { loss_moment (micros 285000) (after_loss_timeout one_sent) ≡ Some (micros 571000) }
    ensures third { loss_moment (micros 285000) (after_loss_timeout (after_loss_timeout one_sent)) ≡ Some (micros 1141000) }
    ensures answered { loss_moment (micros 285000) (after_answered (after_loss_timeout (after_loss_timeout one_sent))) ≡ Some (micros 286000) }
{}

/// Two packets that are lost show persistent congestion where they went more than the period
/// apart, all between them is lost too, and a round trip was measured before (RFC 9002, section
/// 7.6).
pub fn persistent_congestion_is_told()
    ensures shown { is_persistent_after 3000 (Some 4) lost_in_turn ≡ true }
    ensures unmeasured { is_persistent_after 3000 (Some 5) lost_in_turn ≡ false }
    ensures never_measured { is_persistent_after 3000 None lost_in_turn ≡ false }
    ensures gap { is_persistent_after 3000 (Some 4) lost_with_gap ≡ false }
    ensures short { is_persistent_after 3001 (Some 4) lost_in_turn ≡ false }
{}

/// A loss leaves the half of the first window.
pub fn loss_halves_the_window()
    ensures { (reno_congested (reno_made default_reno 0 1200) 5 1 false).window ≡ 6000 }
{}

/// Counts of marks that came with newly acknowledged packets, where 2 came with ECT(0), 1 with
/// ECT(1) and 1 with CE before. Of several counts that fall the first is named (RFC 9000, section
/// 13.4.2.1).
pub fn marks_are_judged()
    ensures ect0 { judged_marks 1 (1, 1, 3) ≡ Err Ect0Regression }
    ensures ect1 { judged_marks 1 (3, 0, 1) ≡ Err Ect1Regression }
    ensures ce { judged_marks 1 (3, 1, 0) ≡ Err CeRegression }
    ensures all { judged_marks 1 (1, 0, 0) ≡ Err Ect0Regression }
    ensures two { judged_marks 1 (4, 0, 0) ≡ Err Ect1Regression }
    ensures few { judged_marks 2 (3, 1, 1) ≡ Err Bleaching }
    ensures remarked { judged_marks 1 (2, 2, 1) ≡ Err Corruption }
    ensures more { judged_marks 1 (3, 2, 1) ≡ Err Corruption }
    ensures congested { judged_marks 1 (2, 1, 2) ≡ Ok true }
    ensures fine { judged_marks 1 (3, 1, 1) ≡ Ok false }
{}
