//! The runs of a set, one by one.
ghost use Rattle.std.specs.Prelude.{◌≡◌};
ghost use Rattle.std.specs.Iterator.{YieldsFirst, YieldsLast, item_count};
ghost use Rattle.quic_sets.specs.Runs.{AreRuns};

use super::{ArrayRangeSet, RangeSet};
use std::marker::Model;
use std::ops::Range;
use std::slice;

/// The runs of a set, ascending, from both ends (quinn-proto's `range_set::Iter`). Contracts see
/// the list of those that are left.
#[derive(Drop)]
pub struct Iter<'a> {
    runs: slice::Iter<'a, Range<u64>>,
}

impl<'a> Model for Iter<'a> {
    ghost use Rattle.std.specs.Prelude.{List};
    ghost use Rattle.std.specs.Slice.Iter.{iter_rest};
    ghost use Rattle.quic_sets.specs.Runs.{Run};

    ghost Value = { List Run };

    ghost view = { λ it. iter_rest it.runs };
}

impl<'a> Iter<'a> {
    /// The runs of a slice.
    pub(super) fn new(runs: &'a [Range<u64>]) -> Self
        ensures { result ≡ runs.now }
    {
        Iter { runs: runs.iter() }
    }
}

impl<'a> Iterator for Iter<'a> {
    type Item = Range<u64>;

    ghost next_gives = { YieldsFirst (λ runs. runs) };

    ghost remaining = { item_count (λ runs. runs) };

    fn next(&mut self) -> Option<Range<u64>> {
        let run = self.runs.next()?;
        Some(run.start..run.end)
    }
}

impl<'a> DoubleEndedIterator for Iter<'a> {
    ghost next_back_gives = { YieldsLast (λ runs. runs) };

    fn next_back(&mut self) -> Option<Range<u64>> {
        let run = self.runs.next_back()?;
        Some(run.start..run.end)
    }
}

impl RangeSet {
    /// The runs, ascending (quinn-proto's `RangeSet::iter`).
    pub fn iter(&self) -> Iter<'_>
        ensures value { result ≡ self.now }
        ensures runs { AreRuns self.now }
    {
        let runs = self.as_slice();
        Iter::new(runs)
    }
}

impl ArrayRangeSet {
    /// The runs, ascending (quinn-proto's `ArrayRangeSet::iter`).
    pub fn iter(&self) -> Iter<'_>
        ensures value { result ≡ self.now }
        ensures runs { AreRuns self.now }
    {
        Iter::new(self.as_slice())
    }
}

impl<'a> IntoIterator for &'a RangeSet {
    type Item = Range<u64>;

    type IntoIter = Iter<'a>;

    ghost into_iter_gives = { λ set it. (it ≡ set.now) × AreRuns set.now };

    fn into_iter(self) -> Iter<'a> {
        self.iter()
    }
}
