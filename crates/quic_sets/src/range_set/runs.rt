//! Lists of maximal runs: where a number is, and what a call changes. Both sets are made of these.
ghost use Rattle.std.specs.Prelude.{◌≡◌, ℕ, ◌≤◌, ◌<◌, [], length, slice_get, slice_index_or, IsTrue, ◌↔◌, MatchOption};
ghost use Rattle.quic_sets.specs.Runs.{Run, Has, AreRuns, Adds, Drops, IsLeast, IsGreatest};
ghost use Rattle.quic_sets.specs.RunEdits.{AreMet, IsInsertion, IsRemoval};

use std::ops::Range;

/// How a call changes a list of runs.
#[derive(Drop)]
pub(super) enum Edit {
    /// A run goes in before the one at a place.
    Insert {
        place: usize,
        run: Range<u64>,
    },
    /// The run at the places, which is one, gives way to two.
    Split {
        places: Range<usize>,
        left: Range<u64>,
        right: Range<u64>,
    },
    /// The runs at the places, at least one, give way to one.
    Merge {
        places: Range<usize>,
        run: Range<u64>,
    },
    /// The runs at the places, at least two, give way to two.
    Trim {
        places: Range<usize>,
        left: Range<u64>,
        right: Range<u64>,
    },
    /// The runs at the places go.
    Remove {
        places: Range<usize>,
    },
}

/// How many runs end at a number or below it, by halving.
fn ending_by(runs: &[Range<u64>], n: u64) -> usize
    requires { AreRuns runs.now }
    ensures within { result ≤ length runs.now }
    ensures front { (k : ℕ) (d : Run) → k < result → (slice_index_or runs.now k d).end ≤ n }
    ensures back { (k : ℕ) (d : Run) → result ≤ k → k < length runs.now → n < (slice_index_or runs.now k d).end }
{
    runs.partition_point(|run| run.end <= n)
}

/// How many runs start at a number or below it, by halving.
fn starting_by(runs: &[Range<u64>], n: u64) -> usize
    requires { AreRuns runs.now }
    ensures within { result ≤ length runs.now }
    ensures front { (k : ℕ) (d : Run) → k < result → (slice_index_or runs.now k d).start ≤ n }
    ensures back { (k : ℕ) (d : Run) → result ≤ k → k < length runs.now → n < (slice_index_or runs.now k d).start }
{
    runs.partition_point(|run| run.start <= n)
}

/// The places of the runs that have a number from the first one to the last.
fn met(runs: &[Range<u64>], first: u64, last: u64) -> Range<usize>
    requires runs { AreRuns runs.now }
    requires ascend { first ≤ last }
    ensures { AreMet runs.now first last result.start result.end }
{
    ending_by(runs, first)..starting_by(runs, last)
}

/// Whether a number is in the set.
pub(super) fn contains(runs: &[Range<u64>], x: u64) -> bool
    requires { AreRuns runs.now }
    ensures { IsTrue result ↔ Has runs.now x }
{
    let place = ending_by(runs, x);
    place < runs.len() && runs[place].start <= x
}

/// The least number.
pub(super) fn least(runs: &[Range<u64>]) -> Option<u64>
    requires { AreRuns runs.now }
    ensures { MatchOption result (runs.now ≡ []) (IsLeast runs.now) }
{
    Some(runs.first()?.start)
}

/// The greatest number.
pub(super) fn greatest(runs: &[Range<u64>]) -> Option<u64>
    requires { AreRuns runs.now }
    ensures { MatchOption result (runs.now ≡ []) (IsGreatest runs.now) }
{
    Some(runs.last()?.end - 1)
}

/// The first run.
pub(super) fn first(runs: &[Range<u64>]) -> Option<Range<u64>>
    ensures { result ≡ slice_get runs.now 0 }
{
    let run = runs.first()?;
    Some(run.start..run.end)
}

/// What puts a range into the set. `None` where that changes nothing.
pub(super) fn insertion(runs: &[Range<u64>], x: &Range<u64>) -> Option<Edit>
    requires { AreRuns runs.now }
    ensures { MatchOption result (Adds runs.now runs.now x.now.start x.now.end) (IsInsertion runs.now x.now.start x.now.end) }
{
    if x.end <= x.start {
        return None;
    }
    // A run that ends where the range starts, or starts where it ends, comes to be one with it.
    let places = met(runs, x.start.saturating_sub(1), x.end);
    if places.start == places.end {
        return Some(Edit::Insert {
            place: places.start,
            run: x.start..x.end,
        });
    }
    let first = &runs[places.start];
    if first.start <= x.start && x.end <= first.end {
        return None;
    }
    let start = x.start.min(first.start);
    let end = x.end.max(runs[places.end - 1].end);
    Some(Edit::Merge {
        places,
        run: start..end,
    })
}

/// What takes a range out of the set. `None` where that changes nothing.
pub(super) fn removal(runs: &[Range<u64>], x: &Range<u64>) -> Option<Edit>
    requires { AreRuns runs.now }
    ensures { MatchOption result (Drops runs.now runs.now x.now.start x.now.end) (IsRemoval runs.now x.now.start x.now.end) }
{
    if x.end <= x.start {
        return None;
    }
    let places = met(runs, x.start, x.end - 1);
    if places.start == places.end {
        return None;
    }
    let left = runs[places.start].start..x.start;
    let right = x.end..runs[places.end - 1].end;
    Some(match (left.start < left.end, right.start < right.end) {
        (false, false) => Edit::Remove { places },
        (false, true) => Edit::Merge { places, run: right },
        (true, false) => Edit::Merge { places, run: left },
        (true, true) if places.end - places.start == 1 => Edit::Split {
            places,
            left,
            right,
        },
        (true, true) => Edit::Trim {
            places,
            left,
            right,
        },
    })
}
