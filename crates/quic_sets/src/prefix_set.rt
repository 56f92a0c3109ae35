//! A set of offsets that mostly are one run from 0 on, as those of a stream that are acknowledged:
//! that run is kept as a number, so that a range that begins within it, or right behind it, needs
//! no look-up and no memory. The offsets above it are an [`OffsetSet`].
ghost use Rattle.std.specs.Prelude.{◌≡◌, ◌+◌, ◌<◌, ◌≤◌, ◌^◌, [], OnOk, OnErr};
ghost use Rattle.quic_sets.specs.Runs.{AreRuns, AreRunsFrom, Adds, Drops};
ghost use Rattle.quic_sets.specs.Lacking.{AddsLacking, HasLacking, HasMoving};
ghost use Rattle.quic_sets.specs.Offsets.{has, first_lacking, with_prefix};

use crate::offset_set::OffsetSet;
use std::alloc::{AllocError, Global};
use std::marker::Model;
use std::ops::Range;

/// A set of offsets of which most lie in one run from 0 on: that run is kept as the number behind
/// it, which needs no memory. Contracts see the list of its maximal runs.
#[derive(Drop)]
pub struct PrefixSet {
    // All offsets below it are in the set, and it isn't.
    first_lacking: u64,
    // The offsets above it.
    rest: OffsetSet,
}

impl Model for PrefixSet {
    ghost use Rattle.std.specs.Prelude.{List, ◌+◌};
    ghost use Rattle.quic_sets.specs.Runs.{Run, AreRunsFrom};
    ghost use Rattle.quic_sets.specs.Offsets.{with_prefix};

    ghost Value = { List Run };

    ghost view = { λ s. with_prefix s.first_lacking s.rest };

    ghost invariant = { λ s. AreRunsFrom (s.first_lacking + 1) s.rest };
}

// Takes out the runs that go on with the offsets below `first`: each that begins where those before
// it end, or earlier. Says where they end then. This needs no memory.
fn absorb(rest: &mut OffsetSet, first: u64) -> u64
    requires { AreRuns rest.old }
    ensures runs { AreRunsFrom (result + 1) rest.new }
    ensures ok { Adds rest.old (with_prefix result rest.new) 0 first }
{
    let mut end = first;
    while let Some(run) = rest.first() {
        if end < run.start {
            return end;
        }
        end = end.max(run.end);
        rest.remove_first(0..run.end);
    }
    end
}

impl PrefixSet {
    /// The empty set.
    pub fn new(alloc: Global) -> Self
        ensures { result ≡ [] }
    {
        PrefixSet {
            first_lacking: 0,
            rest: OffsetSet::new(alloc),
        }
    }

    /// The least offset that isn't in the set.
    pub fn first_lacking(&self) -> u64
        ensures { result ≡ first_lacking self.now }
    {
        self.first_lacking
    }

    /// Whether an offset is in the set.
    pub fn has(&self, offset: u64) -> bool
        requires { offset < 2 ^ 62 }
        ensures { result ≡ has self.now offset }
    {
        offset < self.first_lacking || self.rest.has(offset)
    }

    // Puts in the offsets below one. This needs no memory.
    fn grow(&mut self, end: u64)
        ensures ok { Adds self.old self.new 0 end }
        ensures runs { AreRuns self.new }
    {
        self.first_lacking = absorb(&mut self.rest, self.first_lacking.max(end));
    }

    /// Puts in the offsets of a range. This needs no memory where the range begins at
    /// [`Self::first_lacking`] or below it, nor where it is empty or reversed, which changes
    /// nothing.
    ///
    /// # Errors
    ///
    /// - [`AllocError`]: an allocation fails, where some offset of the range isn't in the set.
    ///   Nothing changes.
    pub fn insert(&mut self, x: Range<u64>) -> Result<(), AllocError>
        requires { x.end < 2 ^ 62 }
        ensures ok { OnOk result (Adds self.old self.new x.start x.end) }
        ensures runs { AreRuns self.new }
        ensures err { OnErr result (self.new ≡ self.old) }
        ensures lacking { OnErr result (x.start < x.end) }
        ensures free { OnErr result (HasLacking self.old [] x.start x.end) }
        ensures behind { OnErr result (first_lacking self.old < x.start) }
    {
        if self.first_lacking < x.start {
            return self.rest.insert(x);
        }
        // An empty or a reversed range ends within the run from 0 on.
        self.grow(x.end);
        Ok(())
    }

    /// Puts in the offsets of a range, and takes them out of another set. An empty or a reversed
    /// range changes nothing, and needs no memory.
    ///
    /// # Errors
    ///
    /// - [`AllocError`]: an allocation fails, where some offset of the range isn't in the set or is
    ///   in the other. Neither set changes.
    pub fn insert_from(&mut self, x: Range<u64>, other: &mut OffsetSet) -> Result<(), AllocError>
        requires { x.end < 2 ^ 62 }
        ensures ok { OnOk result (Adds self.old self.new x.start x.end) }
        ensures other { OnOk result (Drops other.old other.new x.start x.end) }
        ensures runs { AreRuns self.new }
        ensures other_runs { AreRuns other.new }
        ensures err { OnErr result (self.new ≡ self.old) }
        ensures other_err { OnErr result (other.new ≡ other.old) }
        ensures lacking { OnErr result (x.start < x.end) }
        ensures moving { OnErr result (HasMoving self.old other.old x.start x.end) }
    {
        if self.first_lacking < x.start {
            return self.rest.insert_from(x, other);
        }
        // What may lack memory comes first, so that an error changes nothing.
        other.remove(x.start..x.end)?;
        self.grow(x.end);
        Ok(())
    }

    /// Puts the offsets of a range that this set lacks into another. An empty or a reversed range
    /// changes nothing, and needs no memory.
    ///
    /// # Errors
    ///
    /// - [`AllocError`]: an allocation fails, where some offset of the range is in neither set.
    ///   Neither set changes.
    pub fn insert_lacking_into(&self, x: Range<u64>, set: &mut OffsetSet) -> Result<(), AllocError>
        requires { x.end < 2 ^ 62 }
        ensures ok { OnOk result (AddsLacking set.old self.now set.new x.start x.end) }
        ensures runs { AreRuns set.new }
        ensures err { OnErr result (set.new ≡ set.old) }
        ensures lacking { OnErr result (x.start < x.end) }
        ensures free { OnErr result (HasLacking set.old self.now x.start x.end) }
    {
        let start = x.start.max(self.first_lacking);
        set.insert_lacking(start..x.end, &self.rest)
    }
}
