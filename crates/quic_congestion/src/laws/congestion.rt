//! Congestion control.
ghost use Rattle.std.specs.Prelude.{◌≡◌, ℕ, ◌+◌, ◌*◌, ◌<◌, ◌≤◌, ◌^◌, max, Bool, true, false, List, [], ◌∷◌, ◌++◌};
ghost use Rattle.quic_time.specs.Rtt.{Rtt};
ghost use Rattle.quic_congestion.specs.Congestion.{HasRoom, Told, Acked, Congested, AreSized, last_size, Steps, steps_of, after_call, after_calls};
ghost use Rattle.quic_congestion.specs.NewReno.{RenoSettings, default_reno, Reno, reno_made, reno_acked, reno_congested, reno_steps, window_after};
ghost use Rattle.quic_congestion.specs.RenoHistory.{Counts, AllCount, bytes_told, acked_bytes, AreWithin, windows_sum};

use crate::congestion::Controller;
use crate::congestion::new_reno::NewReno;

/// No controller keeps its history: after calls it is what the last of them makes of what the calls
/// before it left.
pub fn histories_are_folded<C>()
    ensures none { (steps : Steps C) (c : C) → after_calls steps c [] ≡ c }
    ensures next { (steps : Steps C) (c : C) (calls : List Told) (call : Told)
        → after_calls steps c (calls ++ call ∷ []) ≡ after_call steps call (after_calls steps c calls) }
    ensures parts { (steps : Steps C) (c : C) (before later : List Told)
        → after_calls steps c (before ++ later) ≡ after_calls steps (after_calls steps c before) later }
{}

/// After any calls a controller has the size of a datagram that was handed in last; and where two
/// datagrams fitted its window at the beginning, two of that size fit it then.
pub fn two_datagrams_have_room<C: Controller>()
    ensures size { let steps =
        steps_of C.after_sent C.after_ack C.after_end_acks C.after_congestion_event C.after_mtu_update in
        (c : C) (calls : List Told) → C.size_of (after_calls steps c calls) ≡ last_size (C.size_of c) calls }
    ensures room { let steps =
        steps_of C.after_sent C.after_ack C.after_end_acks C.after_congestion_event C.after_mtu_update in
        (c : C) (calls : List Told) → AreSized calls → HasRoom (C.size_of c) (C.window_of c)
        → HasRoom (last_size (C.size_of c) calls) (C.window_of (after_calls steps c calls)) }
{}

/// What the calls of a `NewReno` make of it are the steps whose fold is its window after a history.
pub fn new_reno_steps()
    ensures { steps_of ⟦<NewReno as Controller>⟧.after_sent ⟦<NewReno as Controller>⟧.after_ack
        ⟦<NewReno as Controller>⟧.after_end_acks ⟦<NewReno as Controller>⟧.after_congestion_event
        ⟦<NewReno as Controller>⟧.after_mtu_update ≡ reno_steps }
{}

/// Made for a size of which two fit the configured window, a `NewReno` has room for two datagrams
/// after any calls.
pub fn new_reno_keeps_room()
    ensures { (s : RenoSettings) (now size : ℕ) (calls : List Told) → size < 2 ^ 16 → 2 * size ≤ s.initial → AreSized calls
        → 2 * last_size size calls ≤ window_after (reno_made s now size) calls }
{}

/// A packet sent before recovery began, or as it began, changes nothing, nor does an
/// acknowledgement where the window wasn't used up.
pub fn past_packets_change_nothing()
    ensures acked { (r : Reno) (sent bytes : ℕ) (app_limited : Bool) → sent ≤ r.recovery
        → reno_acked r sent bytes app_limited ≡ r }
    ensures limited { (r : Reno) (sent bytes : ℕ) → reno_acked r sent bytes true ≡ r }
    ensures lost { (r : Reno) (now sent : ℕ) (persistent : Bool) → sent ≤ r.recovery
        → reno_congested r now sent persistent ≡ r }
{}

/// However many of the packets are lost that were sent before a loss was noticed, the window falls
/// once.
pub fn window_falls_once()
    ensures { (r : Reno) (now sent later other : ℕ) (persistent again : Bool) → r.recovery < sent → other ≤ now
        → reno_congested (reno_congested r now sent persistent) later other again ≡ reno_congested r now sent persistent }
{}

/// An acknowledgement takes nothing from the window, and adds no more than its bytes or one
/// datagram.
pub fn acknowledgements_raise_the_window()
    ensures least { (r : Reno) (sent bytes : ℕ) (app_limited : Bool) → r.window < 2 ^ 64
        → r.window ≤ (reno_acked r sent bytes app_limited).window }
    ensures most { (r : Reno) (sent bytes : ℕ) (app_limited : Bool)
        → (reno_acked r sent bytes app_limited).window ≤ r.window + max bytes r.size }
{}

/// While the window stays below the threshold, it is the first window and the bytes acknowledged
/// since, as long as each packet counts and 64 bits hold it (RFC 9002, section 7.3.1). So it is
/// after the acknowledgement that takes it to the threshold or past it.
pub fn slow_start_adds_what_is_acknowledged()
    ensures below { (r : Reno) (calls : List Told) → AllCount r calls → r.window + acked_bytes calls < r.threshold
        → r.window + acked_bytes calls < 2 ^ 64 → window_after r calls ≡ r.window + acked_bytes calls }
    ensures last { (r : Reno) (calls : List Told) (call : Told) → AllCount r calls → Counts r.recovery call
        → r.window + acked_bytes calls < r.threshold → r.window + acked_bytes calls + bytes_told call < 2 ^ 64
        → window_after r (calls ++ call ∷ []) ≡ r.window + acked_bytes calls + bytes_told call }
{}

/// At or above the threshold each window of bytes acknowledged adds one datagram, as long as each
/// packet counts and 64 bits hold the window and the bytes (RFC 9002, section 7.3.3). What is left
/// to count is less than a window where no acknowledgement has more bytes than the first one.
pub fn avoidance_adds_a_datagram_a_window()
    ensures each { (r : Reno) (calls : List Told) → AllCount r calls → r.threshold ≤ r.window → r.size ≤ r.window
        → r.window + r.counted + acked_bytes calls < 2 ^ 64
        → (k : ℕ) × (window_after r calls ≡ r.window + k * r.size)
        × (r.counted + acked_bytes calls ≡ (after_calls reno_steps r calls).counted + windows_sum k r.window r.size) }
    ensures left { (r : Reno) (calls : List Told) → AllCount r calls → AreWithin r.window calls → r.threshold ≤ r.window
        → r.size ≤ r.window → r.window + r.counted + acked_bytes calls < 2 ^ 64 → r.counted < r.window
        → (after_calls reno_steps r calls).counted < window_after r calls }
{}

/// A loss adds nothing to a window that two datagrams fit.
pub fn losses_lower_the_window()
    ensures { (r : Reno) (now sent : ℕ) (persistent : Bool) → r.settings.numerator ≤ r.settings.denominator
        → 2 * r.size ≤ r.window → (reno_congested r now sent persistent).window ≤ r.window }
{}

/// The window of a `NewReno` made at 0 for datagrams of 1200 bytes: the packet sent at 0 doesn't
/// count, 1200 bytes sent at 1 are added, a loss at 5 leaves the half, the packet sent at 5 doesn't
/// count, and a window of bytes sent at 6 adds a datagram.
pub fn worked_window()
    ensures past { (rtt : Rtt) → window_after (reno_made default_reno 0 1200) (Acked 2 0 1200 false rtt ∷ []) ≡ 12000 }
    ensures grown { (rtt : Rtt) → window_after (reno_made default_reno 0 1200)
        (Acked 2 0 1200 false rtt ∷ Acked 3 1 1200 false rtt ∷ []) ≡ 13200 }
    ensures lost { (rtt : Rtt) → window_after (reno_made default_reno 0 1200)
        (Acked 2 0 1200 false rtt ∷ Acked 3 1 1200 false rtt ∷ Congested 5 1 false 1200 ∷ []) ≡ 6600 }
    ensures recovers { (rtt : Rtt) → window_after (reno_made default_reno 0 1200)
        (Acked 2 0 1200 false rtt ∷ Acked 3 1 1200 false rtt ∷ Congested 5 1 false 1200 ∷ Acked 7 5 1200 false rtt ∷ []) ≡ 6600 }
    ensures avoids { (rtt : Rtt) → window_after (reno_made default_reno 0 1200)
        (Acked 2 0 1200 false rtt ∷ Acked 3 1 1200 false rtt ∷ Congested 5 1 false 1200 ∷ Acked 7 5 1200 false rtt
        ∷ Acked 8 6 6600 false rtt ∷ []) ≡ 7800 }
{}
