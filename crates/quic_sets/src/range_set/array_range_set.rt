//! A set of few runs, which stand in place.
ghost use Rattle.std.specs.Prelude.{◌≡◌, ◌≢◌, ℕ, ◌+◌, ◌≤◌, ◌<◌, [], ◌∷◌, length, IsTrue, ◌↔◌, OnOk, OnErr, IsOk, IfOk, MatchOption};
ghost use Rattle.smallvec.specs.SmallVec.{HasRoomFor, small_vec_len};
ghost use Rattle.quic_sets.specs.Runs.{Has, AreRuns, Adds, Drops, IsDifference, TellsChange, IsLeast, IsGreatest, IsApart, IsInside};
ghost use Rattle.quic_sets.specs.RunEdits.{edited, HasPlaces, Grows};

use super::runs::{self, Edit};
use smallvec::SmallVec;
use std::alloc::{AllocError, Global};
use std::marker::Model;
use std::ops::Range;

/// How many runs stand in place, without memory of their own (quinn-proto's
/// `ARRAY_RANGE_SET_INLINE_CAPACITY`).
pub const ARRAY_RANGE_SET_INLINE_CAPACITY: usize = 2;

/// The runs, as they are stored.
type Stored = SmallVec<Range<u64>, ARRAY_RANGE_SET_INLINE_CAPACITY>;

/// A finite set of numbers, of which two runs stand in place (quinn-proto's `ArrayRangeSet`).
/// Contracts see the list of its maximal runs: they ascend, none is empty, and no two touch.
#[derive(Drop)]
pub struct ArrayRangeSet {
    runs: Stored,
}

impl Model for ArrayRangeSet {
    ghost use Rattle.std.specs.Prelude.{List};
    ghost use Rattle.quic_sets.specs.Runs.{Run, AreRuns};

    ghost Value = { List Run };

    ghost view = { λ s. s.runs.items };

    ghost invariant = { λ s. AreRuns s.runs.items };
}

impl ArrayRangeSet {
    /// The empty set.
    pub fn new(alloc: Global) -> Self
        ensures { result ≡ [] }
    {
        ArrayRangeSet {
            runs: SmallVec::new(alloc),
        }
    }

    /// The number of runs.
    pub fn len(&self) -> usize
        ensures len { result ≡ length self.now }
        ensures runs { AreRuns self.now }
    {
        self.runs.len()
    }

    /// Whether there is no number in the set.
    pub fn is_empty(&self) -> bool
        ensures { IsTrue result ↔ self.now ≡ [] }
    {
        self.runs.is_empty()
    }

    /// Whether a number is in the set, by halving.
    pub fn contains(&self, x: u64) -> bool
        ensures { IsTrue result ↔ Has self.now x }
    {
        runs::contains(&self.runs, x)
    }

    /// Adds the numbers of a range, and tells whether one of them is new. An empty or a reversed
    /// range changes nothing. The runs behind the place move up or down once.
    ///
    /// # Errors
    ///
    /// - [`AllocError`]: an allocation fails, where the set has two runs or more and the range
    ///   meets and touches none of them. Nothing changes.
    pub fn insert(&mut self, x: Range<u64>) -> Result<bool, AllocError>
        ensures ok { OnOk result (Adds self.old self.new x.start x.end) }
        ensures runs { AreRuns self.new }
        ensures changed { IfOk result (λ changed. TellsChange changed self.old self.new) }
        ensures err { OnErr result (self.new ≡ self.old) }
        ensures lacking { OnErr result (IsApart self.old x.start x.end) }
        ensures inline { length self.old < 2 → IsOk result }
    {
        insert(&mut self.runs, x)
    }

    /// Adds a number below the greatest, and tells whether it is new.
    ///
    /// # Errors
    ///
    /// - [`AllocError`]: an allocation fails, where the set has two runs or more and the number
    ///   lies in none and touches none. Nothing changes.
    pub fn insert_one(&mut self, x: u64) -> Result<bool, AllocError>
        requires { x < u64.MAX }
        ensures ok { OnOk result (Adds self.old self.new x (x + 1)) }
        ensures runs { AreRuns self.new }
        ensures changed { IfOk result (λ changed. TellsChange changed self.old self.new) }
        ensures err { OnErr result (self.new ≡ self.old) }
        ensures lacking { OnErr result (IsApart self.old x (x + 1)) }
        ensures inline { length self.old < 2 → IsOk result }
    {
        insert(&mut self.runs, x..x + 1)
    }

    /// Takes the numbers of a range out, and tells whether one of them was in the set. An empty or
    /// a reversed range changes nothing. The runs behind the place move up or down once.
    ///
    /// # Errors
    ///
    /// - [`AllocError`]: an allocation fails, where the set has two runs or more and one of them
    ///   goes on at both ends of the range, so that it is split. Nothing changes.
    pub fn remove(&mut self, x: Range<u64>) -> Result<bool, AllocError>
        ensures ok { OnOk result (Drops self.old self.new x.start x.end) }
        ensures runs { AreRuns self.new }
        ensures changed { IfOk result (λ changed. TellsChange changed self.old self.new) }
        ensures err { OnErr result (self.new ≡ self.old) }
        ensures lacking { OnErr result (IsInside self.old x.start x.end) }
        ensures inline { length self.old < 2 → IsOk result }
    {
        remove(&mut self.runs, x)
    }

    /// Takes the numbers of another set out, run by run.
    ///
    /// # Errors
    ///
    /// - [`AllocError`]: an allocation fails, of room for as many more runs as the other set has,
    ///   unless that is empty. Nothing changes.
    pub fn subtract(&mut self, other: &ArrayRangeSet) -> Result<(), AllocError>
        ensures ok { OnOk result (IsDifference self.old other.now self.new) }
        ensures runs { AreRuns self.new }
        ensures err { OnErr result (self.new ≡ self.old) }
        ensures lacking { OnErr result (other.now ≢ []) }
    {
        subtract(&mut self.runs, &other.runs)
    }

    /// The least number.
    pub fn min(&self) -> Option<u64>
        ensures { MatchOption result (self.now ≡ []) (IsLeast self.now) }
    {
        runs::least(&self.runs)
    }

    /// The greatest number.
    pub fn max(&self) -> Option<u64>
        ensures { MatchOption result (self.now ≡ []) (IsGreatest self.now) }
    {
        runs::greatest(&self.runs)
    }

    /// Takes the run of the least number out. The others move down by one place, so this takes time
    /// for each of them.
    pub fn pop_min(&mut self) -> Option<Range<u64>>
        ensures taken { MatchOption result ((self.old ≡ []) × (self.new ≡ [])) (λ run. self.old ≡ run ∷ self.new) }
        ensures runs { AreRuns self.new }
    {
        if self.runs.is_empty() {
            None
        } else {
            Some(self.runs.remove(0))
        }
    }

    /// A second set of the same numbers.
    ///
    /// # Errors
    ///
    /// - [`AllocError`]: an allocation fails. Nothing changes.
    pub fn try_clone(&self) -> Result<Self, AllocError>
        ensures { IfOk result (λ copy. copy ≡ self.now) }
    {
        Ok(ArrayRangeSet {
            runs: self.runs.clone()?,
        })
    }

    /// The runs, ascending.
    pub fn as_slice(&self) -> &[Range<u64>]
        ensures value { result.now ≡ self.now }
        ensures runs { AreRuns self.now }
    {
        &self.runs
    }
}

/// Makes an edit. Only one that leaves a run more takes memory, and it does so first.
fn apply(runs: &mut Stored, edit: Edit) -> Result<(), AllocError>
    requires { HasPlaces edit (length runs.old.items) }
    ensures ok { OnOk result (runs.new.items ≡ edited edit runs.old.items) }
    ensures err { OnErr result (runs.new.items ≡ runs.old.items) }
    ensures lacking { OnErr result (Grows edit) }
    ensures room { HasRoomFor runs.old 1 → IsOk result }
    ensures inline { small_vec_len runs.old < 2 → IsOk result }
    ensures capacity { runs.old.capacity ≤ runs.new.capacity }
{
    // Its contract says that room never falls below the two places inline.
    let _ = runs.spilled();
    match edit {
        Edit::Insert { place, run } => runs.insert(place, run)?,
        Edit::Split {
            places,
            left,
            right,
        } => {
            runs.insert(places.end, right)?;
            runs[places.start] = left;
        }
        Edit::Merge { places, run } => {
            runs[places.start] = run;
            runs.drain(places.start + 1..places.end);
        }
        Edit::Trim {
            places,
            left,
            right,
        } => {
            runs[places.start] = left;
            runs[places.end - 1] = right;
            runs.drain(places.start + 1..places.end - 1);
        }
        Edit::Remove { places } => {
            runs.drain(places);
        }
    }
    Ok(())
}

/// Adds a range, and tells whether that changed the set.
fn insert(runs: &mut Stored, x: Range<u64>) -> Result<bool, AllocError>
    requires { AreRuns runs.old.items }
    ensures runs { AreRuns runs.new.items }
    ensures ok { OnOk result (Adds runs.old.items runs.new.items x.start x.end) }
    ensures changed { IfOk result (λ changed. TellsChange changed runs.old.items runs.new.items) }
    ensures err { OnErr result (runs.new.items ≡ runs.old.items) }
    ensures lacking { OnErr result (IsApart runs.old.items x.start x.end) }
    ensures room { HasRoomFor runs.old 1 → IsOk result }
    ensures inline { small_vec_len runs.old < 2 → IsOk result }
    ensures len { small_vec_len runs.new ≤ small_vec_len runs.old + 1 }
    ensures capacity { runs.old.capacity ≤ runs.new.capacity }
{
    match runs::insertion(runs, &x) {
        None => Ok(false),
        Some(edit) => {
            apply(runs, edit)?;
            Ok(true)
        }
    }
}

/// Takes a range out, and tells whether that changed the set.
fn remove(runs: &mut Stored, x: Range<u64>) -> Result<bool, AllocError>
    requires { AreRuns runs.old.items }
    ensures runs { AreRuns runs.new.items }
    ensures ok { OnOk result (Drops runs.old.items runs.new.items x.start x.end) }
    ensures changed { IfOk result (λ changed. TellsChange changed runs.old.items runs.new.items) }
    ensures err { OnErr result (runs.new.items ≡ runs.old.items) }
    ensures lacking { OnErr result (IsInside runs.old.items x.start x.end) }
    ensures room { HasRoomFor runs.old 1 → IsOk result }
    ensures inline { small_vec_len runs.old < 2 → IsOk result }
    ensures len { small_vec_len runs.new ≤ small_vec_len runs.old + 1 }
    ensures capacity { runs.old.capacity ≤ runs.new.capacity }
{
    match runs::removal(runs, &x) {
        None => Ok(false),
        Some(edit) => {
            apply(runs, edit)?;
            Ok(true)
        }
    }
}

/// Takes the numbers of other runs out, one run after another.
fn subtract(runs: &mut Stored, other: &[Range<u64>]) -> Result<(), AllocError>
    requires { AreRuns runs.old.items }
    ensures runs { AreRuns runs.new.items }
    ensures ok { OnOk result (IsDifference runs.old.items other.now runs.new.items) }
    ensures err { OnErr result (runs.new.items ≡ runs.old.items) }
    ensures lacking { OnErr result (other.now ≢ []) }
{
    if other.is_empty() {
        return Ok(());
    }
    // Each run of the other makes at most one run more.
    runs.reserve(other.len())?;
    for run in other {
        remove(runs, run.start..run.end).unwrap();
    }
    Ok(())
}
