//! Packet numbers that come one after another (RFC 9000, section 12.3).
ghost use Rattle.std.specs.Prelude.{◌≡◌, ℕ, ◌+◌, ◌<◌, ◌≤◌, ◌⊎◌, ◌↔◌, List, true, IsTrue, MatchOption};
ghost use Rattle.quic_recovery_core.specs.Duplicates.{is_duplicate, smallest_missing};
ghost use Rattle.quic_recovery_core.specs.DuplicateRuns.{seen_after, Came, IsFarBelow, Lacks, IsLeastLacking};

/// After any numbers came, `insert` answers that a number may have come before exactly where it is
/// one of them, or lies `DUPLICATE_SPAN` or more below one of them.
pub fn duplicates_came_before()
    ensures { (ns : List ℕ) (n : ℕ) → IsTrue (is_duplicate (seen_after ns) n) ↔ (Came ns n ⊎ IsFarBelow ns n) }
{}

/// After any numbers came, the missing number between two others is the least one that did not
/// come, that one of those that came lies above, and that lies less than `DUPLICATE_SPAN` below
/// each of them; and none where there is none such.
pub fn missing_did_not_come()
    ensures { (ns : List ℕ) (low high : ℕ) → MatchOption (smallest_missing (seen_after ns) low high) ((k : ℕ) → low < k → k < high → Lacks ns k → ⊥) (IsLeastLacking ns low high) }
{}
