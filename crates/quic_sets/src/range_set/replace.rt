//! Adding a range to a set, with the pieces that stood there before.
ghost use Rattle.std.specs.Prelude.{◌≡◌, ℕ, ◌≤◌, ◌<◌, ◌⊎◌, ◌↔◌, length, drop, vec_len, vec_capacity, IfOk, IsOk, OnErr, MatchBool};
ghost use Rattle.quic_sets.specs.Runs.{Has, AreRuns, Adds};
ghost use Rattle.quic_sets.specs.Pieces.{pieces, joined, with_range, count_below, count_up_to, count_started, count_met};
ghost use Rattle.std.specs.List.{remove_range};

use super::RangeSet;
use std::alloc::AllocError;
use std::ops::Range;

/// The pieces of a set that stood in a range, ascending; the set has the range once this is dropped
/// (quinn-proto's `range_set::Replace`).
pub struct Replace<'a> {
    set: &'a mut RangeSet,
    // What the drop joins to the runs that it meets or touches. It is empty where the range was
    // empty, or met no run and was put in at once: so the drop needs no memory.
    range: Range<u64>,
    // The place of the run that is cut next.
    at: usize,
}

impl Drop for Replace<'_> {
    ghost use Rattle.quic_sets.specs.Replacing.{left};

    fn drop(self)
        ensures set { self.exit.0.now ≡ left self.entry }
    {
        let Replace { set, range, at: _ } = self;
        set.join(range);
    }
}

impl Iterator for Replace<'_> {
    ghost use Rattle.std.specs.Iterator.{at_most};
    ghost use Rattle.quic_sets.specs.Replacing.{Steps, to_come};

    type Item = Range<u64>;

    ghost next_gives = { Steps };

    ghost remaining = { λ r. at_most (length (to_come r)) };

    fn next(&mut self) -> Option<Range<u64>> {
        let run = self.set.as_slice().get(self.at)?;
        if self.range.end <= run.start {
            return None;
        }
        self.at += 1;
        Some(self.range.start.max(run.start)..self.range.end.min(run.end))
    }
}

impl RangeSet {
    ghost use Rattle.std.specs.Borrow.{sem, follows_if, name_if_ok};
    ghost use Rattle.quic_sets.specs.contracts.range_set.RangeSet.{the_row as set_row};
    ghost use Rattle.quic_sets.specs.Replacing.{lender, left, to_come};

    /// Adds the numbers of a range, and gives the pieces of the set that stood in it: each run cut
    /// to the range, ascending (quinn-proto's `RangeSet::replace`). The range is in the set once
    /// the result is dropped, however early. Runs that only touch the range are joined to it and
    /// give no piece. An empty or reversed range gives nothing and adds nothing.
    ///
    /// # Errors
    ///
    /// - [`AllocError`]: an allocation fails, of room for one more run, where the range isn't empty
    ///   or reversed. Nothing changes.
    pub fn replace(&mut self, range: Range<u64>) -> Result<Replace<'_>, AllocError>
        ensures* unchanged_at_error { sem 𝓛 (follows_if set_row set_row self.entry.ghost_name (name_if_ok lender result) (λ set. set) self.old) }
        ensures same_reference { IfOk result (λ replace. lender replace ≡ self.entry.ghost_name) }
        ensures pieces { IfOk result (λ replace. to_come replace ≡ pieces range.start range.end self.old) }
        ensures numbers { (k : ℕ) → Has (pieces range.start range.end self.old) k ↔ (Has self.old k × ((range.start ≤ k) × (k < range.end))) }
        ensures ascending { AreRuns (pieces range.start range.end self.old) }
        ensures left { IfOk result (λ replace. Adds self.old (left replace) range.start range.end) }
        ensures runs { IfOk result (λ replace. AreRuns (left replace)) }
        ensures empty { range.end ≤ range.start → IsOk result }
    {
        match self.begin(range) {
            Ok(range) => {
                let at = self.place_behind(range.start);
                Ok(Replace {
                    set: self,
                    range,
                    at,
                })
            }
            Err(error) => Err(error),
        }
    }

    /// Makes room for one more run, and puts the range in where it meets and touches no run. Gives
    /// what is left to join.
    fn begin(&mut self, range: Range<u64>) -> Result<Range<u64>, AllocError>
        ensures pieces { IfOk result (λ rest. pieces rest.start rest.end self.new ≡ pieces range.start range.end self.old) }
        ensures rest { IfOk result (λ rest. (rest.start < rest.end) ⊎ (rest.end ≡ 0)) }
        ensures left { IfOk result (λ rest. Adds self.old (joined rest.start rest.end self.new) range.start range.end) }
        ensures runs { IfOk result (λ rest. AreRuns (joined rest.start rest.end self.new)) }
        ensures err { OnErr result (self.new ≡ self.old) }
        ensures empty { range.end ≤ range.start → IsOk result }
        ensures known { AreRuns self.old }
    {
        let _ = &self.runs;
        if range.end <= range.start {
            return Ok(0..0);
        }
        self.runs.reserve(1)?;
        if put_apart(&mut self.runs, &range) {
            return Ok(0..0);
        }
        Ok(range)
    }

    /// The place of the first run that ends behind a number.
    fn place_behind(&self, a: u64) -> usize
        ensures place { result ≡ count_up_to a self.now }
        ensures runs { AreRuns self.now }
    {
        ended_up_to(&self.runs, a)
    }

    /// Joins a range with the runs that it meets or touches. Where there is none, or the range is
    /// empty, the set stays.
    fn join(&mut self, range: Range<u64>)
        ensures { self.new ≡ joined range.start range.end self.old }
    {
        if range.start < range.end {
            join(&mut self.runs, range);
        }
    }
}

/// How many runs end below a number.
fn ended_below(runs: &[Range<u64>], a: u64) -> usize
    requires { AreRuns runs.now }
    ensures value { result ≡ count_below a runs.now }
    ensures bound { result ≤ length runs.now }
{
    runs.partition_point(|run| run.end < a)
}

/// How many runs end at a number or below.
fn ended_up_to(runs: &[Range<u64>], a: u64) -> usize
    requires { AreRuns runs.now }
    ensures value { result ≡ count_up_to a runs.now }
    ensures bound { result ≤ length runs.now }
{
    runs.partition_point(|run| run.end <= a)
}

/// How many of the runs from a place on start at a number or below.
fn started(runs: &[Range<u64>], front: usize, b: u64) -> usize
    requires runs { AreRuns runs.now }
    requires place { front ≤ length runs.now }
    ensures value { result ≡ count_started b (drop front runs.now) }
    ensures bound { result ≤ length (drop front runs.now) }
{
    runs[front..].partition_point(|run| run.start <= b)
}

/// Puts the range in as a run of its own where it meets and touches no run, in a place that there
/// is: whether it did.
fn put_apart(runs: &mut Vec<Range<u64>>, range: &Range<u64>) -> bool
    requires runs { AreRuns runs.old.items }
    requires range { range.now.start < range.now.end }
    requires room { vec_len runs.old < vec_capacity runs.old }
    ensures { MatchBool result
        ((count_met range.now.start range.now.end runs.old.items ≡ 0) × (runs.new.items ≡ with_range range.now.start range.now.end runs.old.items))
        ((0 < count_met range.now.start range.now.end runs.old.items) × (runs.new.items ≡ runs.old.items)) }
{
    let front = ended_below(runs, range.start);
    let apart = started(runs, front, range.end) == 0;
    if apart {
        runs.insert(front, range.start..range.end).unwrap();
    }
    apart
}

/// Joins a range with the runs that it meets or touches, if there is one.
fn join(runs: &mut Vec<Range<u64>>, range: Range<u64>)
    requires runs { AreRuns runs.old.items }
    requires range { range.start < range.end }
    ensures { runs.new.items ≡ joined range.start range.end runs.old.items }
{
    let front = ended_below(runs, range.start);
    let count = started(runs, front, range.end);
    if count > 0 {
        let start = range.start.min(runs[front].start);
        let end = range.end.max(runs[front + count - 1].end);
        runs[front] = start..end;
        remove(runs, front + 1, front + count);
    }
}

/// Takes runs out, from a place up to another.
fn remove(runs: &mut Vec<Range<u64>>, from: usize, to: usize)
    requires order { from ≤ to }
    requires place { to ≤ vec_len runs.old }
    ensures { runs.new.items ≡ remove_range runs.old.items from to }
{
    runs.drain(from..to);
}
