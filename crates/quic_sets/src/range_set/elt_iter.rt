//! The numbers of a set, one by one.
ghost use Rattle.std.specs.Prelude.{◌≡◌, ℕ, [], ◌∷◌, ◌++◌, ◌↔◌, MatchOption};
ghost use Rattle.std.specs.Iterator.{YieldsFirst, YieldsLast, item_count};
ghost use Rattle.quic_sets.specs.Runs.{Has};
ghost use Rattle.quic_sets.specs.Elements.{elements, run_elements, Lists, Ascend, AreFilled};

use super::{ArrayRangeSet, Iter, RangeSet};
use std::marker::Model;
use std::ops::Range;

/// The numbers of a set, ascending, each once, from both ends (quinn-proto's `range_set::EltIter`).
/// Contracts see the list of those that are left. Where both ends are taken in turn the order
/// stays.
#[derive(Drop)]
pub struct EltIter<'a> {
    front: Range<u64>,
    runs: Iter<'a>,
    back: Range<u64>,
}

impl<'a> Model for EltIter<'a> {
    ghost use Rattle.std.specs.Prelude.{ℕ, List, ◌++◌};
    ghost use Rattle.quic_sets.specs.Elements.{elements, run_elements, AreFilled};

    ghost Value = { List ℕ };

    ghost view = { λ it. run_elements it.front ++ (elements it.runs ++ run_elements it.back) };

    ghost invariant = { λ it. AreFilled it.runs };
}

impl<'a> EltIter<'a> {
    /// The numbers of runs.
    fn new(runs: Iter<'a>) -> Self
        requires { AreFilled runs }
        ensures { result ≡ elements runs.entry }
    {
        EltIter {
            front: 0..0,
            runs,
            back: 0..0,
        }
    }
}

/// Takes the first number of a run.
fn take_first(run: &mut Range<u64>) -> Option<u64>
    ensures { MatchOption result ((run_elements run.old ≡ []) × (run_elements run.new ≡ [])) (λ n. run_elements run.old ≡ n ∷ run_elements run.new) }
{
    run.next()
}

/// Takes the last number of a run.
fn take_last(run: &mut Range<u64>) -> Option<u64>
    ensures { MatchOption result ((run_elements run.old ≡ []) × (run_elements run.new ≡ [])) (λ n. run_elements run.old ≡ run_elements run.new ++ n ∷ []) }
{
    run.next_back()
}

impl<'a> Iterator for EltIter<'a> {
    type Item = u64;

    ghost next_gives = { YieldsFirst (λ numbers. numbers) };

    ghost remaining = { item_count (λ numbers. numbers) };

    fn next(&mut self) -> Option<u64> {
        if let Some(number) = take_first(&mut self.front) {
            return Some(number);
        }
        match self.runs.next() {
            Some(run) => {
                self.front = run;
                take_first(&mut self.front)
            }
            None => take_first(&mut self.back),
        }
    }
}

impl<'a> DoubleEndedIterator for EltIter<'a> {
    ghost next_back_gives = { YieldsLast (λ numbers. numbers) };

    fn next_back(&mut self) -> Option<u64> {
        if let Some(number) = take_last(&mut self.back) {
            return Some(number);
        }
        match self.runs.next_back() {
            Some(run) => {
                self.back = run;
                take_last(&mut self.back)
            }
            None => take_last(&mut self.front),
        }
    }
}

impl RangeSet {
    /// The numbers, ascending, each once (quinn-proto's `RangeSet::elts`).
    pub fn elts(&self) -> EltIter<'_>
        ensures value { result ≡ elements self.now }
        ensures members { (k : ℕ) → Lists (elements self.now) k ↔ Has self.now k }
        ensures ascending { Ascend (elements self.now) }
    {
        EltIter::new(self.iter())
    }
}

impl ArrayRangeSet {
    /// The numbers, ascending, each once (quinn-proto's `ArrayRangeSet::elts`).
    pub fn elts(&self) -> EltIter<'_>
        ensures value { result ≡ elements self.now }
        ensures members { (k : ℕ) → Lists (elements self.now) k ↔ Has self.now k }
        ensures ascending { Ascend (elements self.now) }
    {
        let runs = self.iter();
        EltIter::new(runs)
    }
}
