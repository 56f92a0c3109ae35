//! A set of indices that come nearly in order: its latest run is kept as two numbers, and the
//! others are a [`PrefixSet`].
ghost use Rattle.std.specs.Prelude.{◌≡◌, ℕ, ◌+◌, ◌<◌, ◌≤◌, ◌^◌, [], OnOk, OnErr};
ghost use Rattle.quic_sets.specs.Runs.{Has, AreRuns, Adds};
ghost use Rattle.quic_sets.specs.Offsets.{has};

use crate::prefix_set::PrefixSet;
use std::alloc::{AllocError, Global};
use std::marker::Model;

/// A set of indices that come nearly in order: one that goes on with the latest run needs no
/// look-up and no memory, whatever lacks below that run. Contracts see the list of its maximal
/// runs.
#[derive(Drop)]
pub struct IndexSet {
    // The latest run, from its first index to the one behind its last.
    start: u64,
    end: u64,
    // The other indices.
    others: PrefixSet,
}

impl Model for IndexSet {
    ghost use Rattle.std.specs.Prelude.{List};
    ghost use Rattle.quic_sets.specs.Runs.{Run};
    ghost use Rattle.quic_sets.specs.Offsets.{with_offsets};
    ghost use Rattle.quic_sets.specs.Latest.{IsLatest};

    ghost Value = { List Run };

    ghost view = { λ s. with_offsets s.start s.end s.others };

    ghost invariant = { λ s. IsLatest s.start s.end s.others };
}

impl IndexSet {
    /// The empty set.
    pub fn new(alloc: Global) -> Self
        ensures { result ≡ [] }
    {
        IndexSet {
            start: 0,
            end: 0,
            others: PrefixSet::new(alloc),
        }
    }

    /// An index below which all are in the set: the least that isn't, but where one below the
    /// latest run came after it.
    pub fn first_lacking(&self) -> u64
        ensures { (k : ℕ) → k < result → Has self.now k }
    {
        let first = self.others.first_lacking();
        if first < self.start {
            return first;
        }
        first.max(self.end)
    }

    /// Whether an index is in the set.
    pub fn has(&self, index: u64) -> bool
        requires { index < 2 ^ 62 }
        ensures { result ≡ has self.now index }
    {
        if index < self.start {
            return self.others.has(index);
        }
        if index < self.end {
            return true;
        }
        self.others.has(index)
    }

    /// Puts in an index. This needs no memory where it is the one behind the latest run.
    ///
    /// # Errors
    ///
    /// - [`AllocError`]: an allocation fails. Nothing changes.
    pub fn insert(&mut self, index: u64) -> Result<(), AllocError>
        requires { index + 1 < 2 ^ 62 }
        ensures ok { OnOk result (Adds self.old self.new index (index + 1)) }
        ensures runs { AreRuns self.new }
        ensures err { OnErr result (self.new ≡ self.old) }
    {
        if index < self.end {
            return self.others.insert(index..index + 1);
        }
        if index == self.end {
            self.end += 1;
            return Ok(());
        }
        self.others.insert(self.start..self.end)?;
        self.start = index;
        self.end = index + 1;
        Ok(())
    }
}
