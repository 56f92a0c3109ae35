//! Numbers to acknowledge that come and go (RFC 9000, section 13.2).
ghost use Rattle.std.specs.Prelude.{◌≡◌, ℕ, ◌+◌, ◌-◌, ◌^◌, ◌<◌, ◌≤◌, ◌⊎◌, ◌↔◌, List, [], ◌∷◌, true, Some, unwrap_or, length, min, is_some, IsTrue, MatchOption};
ghost use Rattle.quic_sets.specs.Runs.{Has, AreRuns};
ghost use Rattle.quic_recovery_core.specs.Duplicates.{Seen};
ghost use Rattle.quic_recovery_core.specs.DuplicateRuns.{seen_after, Lacks};
ghost use Rattle.quic_recovery_core.specs.PendingAcks.{Pending, can_send, after_insert, shows_loss, after_packet, with_one, IsKept};
ghost use Rattle.quic_recovery_core.specs.AckRuns.{Change, runs_after, Waits, newest_after, IsNewest};
ghost use Rattle.quic_recovery_core.specs.AckSteps.{Step, packet, pending_after, asking_since, silent_since, greatest_asking, greatest_acked, threshold_told, reordering_told, AreUsual, changes_of, arrivals_of, IsDue, AskedSince};

use crate::spaces::pending_acks::MAX_ACK_RUNS;

/// The set has the numbers that were put in and neither taken out since nor dropped with the run of
/// the least number, as at most 64 maximal runs.
pub fn numbers_wait_until_they_go()
    ensures numbers { (changes : List Change) (k : ℕ) → Has (runs_after changes) k ↔ Waits changes k }
    ensures added { (changes : List Change) (n k : ℕ) → Has (with_one (runs_after changes) n) k ↔ (Has (runs_after changes) k ⊎ (k ≡ n)) }
    ensures runs { (changes : List Change) → AreRuns (runs_after changes) }
    ensures few { (changes : List Change) → length (runs_after changes) ≤ MAX_ACK_RUNS }
{}

/// A set that is kept is kept with one number more: it has no other number than those before and
/// that one.
pub fn kept_sets_stay_kept()
    ensures kept { (p : Pending) (n now : ℕ) → IsKept p.runs → n + 1 < 2 ^ 64 → IsKept (after_insert p n now).runs }
    ensures numbers { (p : Pending) (n now k : ℕ) → IsKept p.runs → Has (after_insert p n now).runs k → Has p.runs k ⊎ (k ≡ n) }
{}

/// The delay of an acknowledgement is that of the greatest number that ever came, at its first
/// coming.
pub fn delay_is_of_greatest()
    ensures { (arrivals : List (ℕ × ℕ)) → MatchOption (newest_after arrivals) (arrivals ≡ []) (IsNewest arrivals) }
{}

/// After a packet that asks an acknowledgement goes at once, or the timer for it runs.
pub fn asking_packets_are_answered()
    ensures { (p : Pending) (now n : ℕ) (s : Seen) → IsTrue (can_send (after_packet p now n true s)) ⊎ IsTrue (is_some (after_packet p now n true s).since) }
{}

/// Packets are counted since the last acknowledgement went; the greatest number that asked is kept,
/// and what it was then. The thresholds are those that the peer told last.
pub fn counts_are_since_last_acknowledgement()
    ensures asking { (steps : List Step) → (pending_after steps).asking ≡ min (asking_since steps) (2 ^ 64 - 1) }
    ensures silent { (steps : List Step) → (pending_after steps).silent ≡ min (silent_since steps) (2 ^ 64 - 1) }
    ensures greatest { (steps : List Step) → (pending_after steps).greatest ≡ greatest_asking steps }
    ensures acked { (steps : List Step) → (pending_after steps).acked ≡ greatest_acked steps }
    ensures threshold { (steps : List Step) → (pending_after steps).threshold ≡ threshold_told steps }
    ensures reordering { (steps : List Step) → (pending_after steps).reordering ≡ reordering_told steps }
{}

/// The set, and the greatest number with its moment, are those of the numbers that were put in and
/// taken out, whatever else happened.
pub fn sets_are_of_their_changes()
    ensures runs { (steps : List Step) → (pending_after steps).runs ≡ runs_after (changes_of steps) }
    ensures newest { (steps : List Step) → (pending_after steps).newest ≡ newest_after (arrivals_of steps) }
{}

/// An acknowledgement is due when a packet comes that asks, and more came than the threshold that
/// the peer told.
pub fn packets_above_the_threshold_are_due()
    ensures { (steps : List Step) (now n : ℕ) (s : Seen) → threshold_told steps < asking_since steps + 1 → asking_since steps + 1 < 2 ^ 64 → IsTrue (pending_after (packet now n true s ∷ steps)).due }
{}

/// While the thresholds are those of the beginning, an acknowledgement is due from the second
/// packet on that asks.
pub fn second_asking_packet_is_due()
    ensures { (steps : List Step) → AreUsual steps → 1 < asking_since steps → IsTrue (pending_after steps).due }
{}

/// Where the peer wants an acknowledgement at once of each packet out of order, as at first, one is
/// due where a packet that asks comes below one that asked, or where a number lacks between them
/// (RFC 9000, section 13.2.1).
pub fn packet_out_of_order_is_due()
    ensures below { (steps : List Step) (now n : ℕ) (s : Seen) → reordering_told steps ≡ 1 → n < unwrap_or (greatest_asking steps) 0 → IsTrue (pending_after (packet now n true s ∷ steps)).due }
    ensures gap { (steps : List Step) (now n k : ℕ) (ns : List ℕ) → reordering_told steps ≡ 1 → unwrap_or (greatest_asking steps) 0 < k → k < n → Lacks ns k → IsTrue (pending_after (packet now n true (seen_after ns) ∷ steps)).due }
{}

/// Where the greatest number at the last acknowledgement, `acked`, is at least the threshold on
/// reordering: a number that lacks above `acked - reordering + 1`, and lies the threshold or more
/// below the greatest now, makes `shows_loss` true.
pub fn missing_numbers_show()
    ensures { (ns : List ℕ) (acked reordering greatest k : ℕ) → reordering ≤ acked → acked - reordering + 1 < k → k < greatest → reordering ≤ greatest - k → Lacks ns k → IsTrue (shows_loss (Some acked) reordering greatest (seen_after ns)) }
{}

/// An acknowledgement is due exactly where something made it so since the last one went: it was
/// required, the timer expired last when packets were counted that ask, one that asks came and was
/// one too many or out of order, or a packet was made that goes anyway with too many that do not
/// ask.
pub fn acknowledgements_are_due_for_a_cause()
    ensures { (steps : List Step) → IsTrue (pending_after steps).due ↔ IsDue steps }
{}

/// The timer runs from a packet that asks and came since the last acknowledgement went.
pub fn waits_began_with_a_packet()
    ensures { (steps : List Step) (m : ℕ) → (pending_after steps).since ≡ Some m → AskedSince steps m }
{}
