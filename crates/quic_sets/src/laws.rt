//! What the definitions of this crate say together. Each function does nothing: its contract is the
//! law.
ghost use Rattle.std.specs.Prelude.{◌≡◌, List};
ghost use Rattle.std.specs.List.{Contains};
ghost use Rattle.quic_sets.specs.Runs.{Run, AreRuns, AreSame, IsMaximal};

/// Two lists of maximal runs that have the same numbers are the same list: a set has one.
pub fn runs_are_their_numbers()
    ensures { (a b : List Run) → AreRuns a → AreRuns b → AreSame a b → a ≡ b }
{}

/// The runs of a set are maximal: the numbers beside one aren't in the set.
pub fn runs_are_maximal()
    ensures { (runs : List Run) (run : Run) → AreRuns runs → Contains runs run → IsMaximal runs run }
{}
