//! A set of offsets as runs in an ordered map, from the offset behind a run to its first: so the
//! run that holds an offset, and those that touch one, are found by one look-up each.
ghost use Rattle.std.specs.Prelude.{◌≡◌, ℕ, ◌+◌, ◌<◌, ◌≤◌, ◌^◌, [], not, ◌&&◌, ◌||◌, ◌↔◌, None, true, false, IsTrue, IfOk, OnOk, OnErr, map, slice_get};
ghost use Rattle.std.specs.Map.{set_value};
ghost use Rattle.std.specs.BTreeMap.{is_at};
ghost use Rattle.std.specs.Ordering.{nat_cmp};
ghost use Rattle.quic_sets.specs.Runs.{Has, AreRuns, Adds, Drops};
ghost use Rattle.quic_sets.specs.Lacking.{AddsLacking, HasLacking, HasMoving};
ghost use Rattle.quic_sets.specs.Offsets.{has};
ghost use Rattle.quic_sets.specs.Spans.{in_span, in_spans, next_span, ends_of};
ghost use Rattle.quic_sets.specs.Loose.{AreLoose, AreMaximal, BothLack, IsCut, FitsRun, TouchWithin, inside_at, last_span, as_run, touches};
ghost use Rattle.quic_sets.specs.Parts.{undone};

use crate::spans::{begin_of, finish_of, keep, look, next_after, remove};
use std::alloc::{AllocError, Global};
use std::collections::BTreeMap;
use std::marker::Model;
use std::ops::Range;

/// A set of offsets of a stream. Contracts see the list of its maximal runs.
#[derive(Drop)]
pub struct OffsetSet {
    // Runs are joined by the call that makes them touch, and one that was cut in two before memory
    // lacked is joined again. So no two touch between calls.
    spans: BTreeMap<u64, u64>,
    alloc: Global,
}

impl Model for OffsetSet {
    ghost use Rattle.std.specs.Prelude.{List, map};
    ghost use Rattle.quic_sets.specs.Runs.{Run};
    ghost use Rattle.quic_sets.specs.Loose.{AreMaximal, as_run};

    ghost Value = { List Run };

    ghost view = { λ s. map as_run s.spans.entries };

    ghost invariant = { λ s. AreMaximal s.spans.entries };
}

// Lets the run that ends at `end` begin at `start`.
fn set_start(spans: &mut BTreeMap<u64, u64>, end: u64, start: u64)
    ensures { spans.new.entries ≡ set_value (is_at (nat_cmp end)) spans.old.entries start }
{
    if let Some(first) = spans.get_mut(&end) {
        *first = start;
    }
}

// Puts in a run where the set has no offset, and notes where it ends, so that it can be taken out
// again.
fn put_run(
    spans: &mut BTreeMap<u64, u64>,
    at: u64,
    end: u64,
    ends: &mut Vec<u64>,
) -> Result<(), AllocError>
    requires fits { FitsRun at end spans.old.entries }
    requires ordered { at ≤ end }
    ensures loose { OnOk result (AreLoose spans.new.entries) }
    ensures offsets { OnOk result ((o : ℕ) → in_spans spans.new.entries o ≡ in_spans spans.old.entries o || in_span o (end, at)) }
    ensures touch { OnOk result (TouchWithin spans.old.entries spans.new.entries at end) }
    ensures back { undone ends.new.items spans.new.entries ≡ undone ends.old.items spans.old.entries }
{
    ends.push(end)?;
    keep(spans, end, at)
}

// Puts in the offsets from `at` on that neither set has, or skips those that one has, and says how
// many these are.
fn put_lacking(
    spans: &mut BTreeMap<u64, u64>,
    others: &BTreeMap<u64, u64>,
    at: u64,
    len: u64,
    ends: &mut Vec<u64>,
) -> Result<u64, AllocError>
    requires loose { AreLoose spans.old.entries }
    requires others { AreLoose others.now.entries }
    requires some { 0 < len }
    requires small { at + len < 2 ^ 62 }
    ensures some { IfOk result (λ n. 0 < n) }
    ensures within { IfOk result (λ n. n ≤ len) }
    ensures loose { IfOk result (λ n. AreLoose spans.new.entries) }
    ensures offsets { IfOk result (λ n. (o : ℕ) → in_spans spans.new.entries o ≡ in_spans spans.old.entries o || (in_span o (at + n, at) && not (in_spans others.now.entries o))) }
    ensures touch { IfOk result (λ n. TouchWithin spans.old.entries spans.new.entries at (at + n)) }
    ensures back { undone ends.new.items spans.new.entries ≡ undone ends.old.items spans.old.entries }
    ensures free { OnErr result (BothLack spans.old.entries others.now.entries at (at + len)) }
{
    let (other, most) = look(others, at, len);
    let (held, count) = look(spans, at, most);
    if !(other | held) {
        put_run(spans, at, at + count, ends)?;
    }
    Ok(count)
}

// Puts in the offsets of a range that neither set has, and notes where the new runs end.
fn fill_lacking(
    spans: &mut BTreeMap<u64, u64>,
    others: &BTreeMap<u64, u64>,
    start: u64,
    end: u64,
    ends: &mut Vec<u64>,
) -> Result<(), AllocError>
    requires loose { AreLoose spans.old.entries }
    requires others { AreLoose others.now.entries }
    requires ordered { start ≤ end }
    requires small { end < 2 ^ 62 }
    ensures loose { OnOk result (AreLoose spans.new.entries) }
    ensures offsets { OnOk result ((o : ℕ) → in_spans spans.new.entries o ≡ in_spans spans.old.entries o || (in_span o (end, start) && not (in_spans others.now.entries o))) }
    ensures touch { OnOk result (TouchWithin spans.old.entries spans.new.entries start end) }
    ensures back { undone ends.new.items spans.new.entries ≡ undone ends.old.items spans.old.entries }
    ensures free { OnErr result (BothLack spans.old.entries others.now.entries start end) }
{
    let mut at = start;
    while at < end {
        at += put_lacking(spans, others, at, end - at, ends)?;
    }
    Ok(())
}

// Takes out the runs that end at some offsets, the last first.
fn remove_all(spans: &mut BTreeMap<u64, u64>, ends: &mut Vec<u64>)
    ensures { spans.new.entries ≡ undone ends.old.items spans.old.entries }
{
    while let Some(end) = ends.pop() {
        remove(spans, end);
    }
}

// Joins the run that ends at an offset with the one that begins there.
fn join_at(spans: &mut BTreeMap<u64, u64>, at: u64)
    requires loose { AreLoose spans.old.entries }
    requires small { at < 2 ^ 62 }
    ensures loose { AreLoose spans.new.entries }
    ensures offsets { (o : ℕ) → in_spans spans.new.entries o ≡ in_spans spans.old.entries o }
    ensures touch { (o : ℕ) → touches o spans.new.entries ≡ true → touches o spans.old.entries ≡ true }
    ensures apart { touches at spans.new.entries ≡ false }
{
    let first = begin_of(spans, at);
    let last = finish_of(spans, at);
    if first < at && at < last {
        set_start(spans, last, first);
        remove(spans, at);
    }
}

// Where the next run behind an offset ends, if it ends up to `end`.
fn next_inside(spans: &BTreeMap<u64, u64>, start: u64, end: u64) -> Option<u64>
    requires { start < 2 ^ 62 }
    ensures { result ≡ inside_at end (next_span start spans.now.entries) }
{
    match next_after(spans, start) {
        Some((_, last)) => { if last <= end { Some(last) } else { None } }
        None => None,
    }
}

// Joins the runs that touch, where these do so only from `start` up to `end`.
fn join_between(spans: &mut BTreeMap<u64, u64>, start: u64, end: u64)
    requires loose { AreLoose spans.old.entries }
    requires ordered { start ≤ end }
    requires small { end < 2 ^ 62 }
    requires touch { (o : ℕ) → touches o spans.old.entries ≡ true → (start ≤ o) × (o ≤ end) }
    ensures maximal { AreMaximal spans.new.entries }
    ensures offsets { (o : ℕ) → in_spans spans.new.entries o ≡ in_spans spans.old.entries o }
{
    join_at(spans, start);
    let mut at = start;
    while let Some(next) = next_inside(spans, at, end) {
        join_at(spans, next);
        at = next;
    }
}

// Where the last run begins and ends, or else 0 and 0.
fn last_run(spans: &BTreeMap<u64, u64>) -> (u64, u64)
    ensures { result ≡ ends_of (last_span (0, 0) spans.now.entries) }
{
    match spans.last_key_value() {
        Some((end, start)) => (*start, *end),
        None => (0, 0),
    }
}

// Puts in the offsets of a range that begins where the last run ends, or behind it: that run goes
// on then, or one follows it. Says whether the range is such, as each is that comes in order.
fn append(spans: &mut BTreeMap<u64, u64>, start: u64, end: u64) -> Result<bool, AllocError>
    requires maximal { AreMaximal spans.old.entries }
    requires some { start < end }
    requires small { end < 2 ^ 62 }
    ensures maximal { AreMaximal spans.new.entries }
    ensures done { IfOk result (λ b. b ≡ true → (o : ℕ) → in_spans spans.new.entries o ≡ in_spans spans.old.entries o || in_span o (end, start)) }
    ensures not_done { IfOk result (λ b. b ≡ false → spans.new.entries ≡ spans.old.entries) }
    ensures err { OnErr result (spans.new.entries ≡ spans.old.entries) }
    ensures free { OnErr result (in_spans spans.old.entries start ≡ false) }
{
    let (first, last) = last_run(spans);
    if start < last {
        return Ok(false);
    }
    if last < start {
        keep(spans, end, start)?;
    } else {
        keep(spans, end, first)?;
        remove(spans, start);
    }
    Ok(true)
}

// Puts in the offsets of a range that neither set has. The memory is taken before runs are joined.
fn add_lacking(
    spans: &mut BTreeMap<u64, u64>,
    others: &BTreeMap<u64, u64>,
    start: u64,
    end: u64,
    alloc: Global,
) -> Result<(), AllocError>
    requires maximal { AreMaximal spans.old.entries }
    requires others { AreLoose others.now.entries }
    requires some { start < end }
    requires small { end < 2 ^ 62 }
    ensures maximal { AreMaximal spans.new.entries }
    ensures ok { OnOk result ((o : ℕ) → in_spans spans.new.entries o ≡ in_spans spans.old.entries o || (in_span o (end, start) && not (in_spans others.now.entries o))) }
    ensures err { OnErr result (spans.new.entries ≡ spans.old.entries) }
    ensures free { OnErr result (BothLack spans.old.entries others.now.entries start end) }
{
    if others.is_empty() && append(spans, start, end)? {
        return Ok(());
    }
    let mut ends = Vec::new(alloc);
    let outcome = fill_lacking(spans, others, start, end, &mut ends);
    if outcome.is_ok() {
        join_between(spans, start, end);
    } else {
        remove_all(spans, &mut ends);
    }
    outcome
}

// Cuts the run in two that has offsets on both sides of one.
fn split(spans: &mut BTreeMap<u64, u64>, at: u64) -> Result<(), AllocError>
    requires loose { AreLoose spans.old.entries }
    requires small { at < 2 ^ 62 }
    ensures loose { AreLoose spans.new.entries }
    ensures offsets { (o : ℕ) → in_spans spans.new.entries o ≡ in_spans spans.old.entries o }
    ensures touch { TouchWithin spans.old.entries spans.new.entries at at }
    ensures cut { OnOk result (IsCut at (next_span at spans.new.entries)) }
    ensures err { OnErr result (spans.new.entries ≡ spans.old.entries) }
    ensures held { OnErr result (in_spans spans.old.entries at ≡ true) }
{
    if let Some((start, end)) = next_after(spans, at) {
        if start < at {
            keep(spans, at, start)?;
            set_start(spans, end, at);
        }
    }
    Ok(())
}

// Takes out the runs of a range, where none has offsets on both sides of its first.
fn drop_inside(spans: &mut BTreeMap<u64, u64>, start: u64, end: u64)
    requires loose { AreLoose spans.old.entries }
    requires cut { IsCut start (next_span start spans.old.entries) }
    requires small { start < 2 ^ 62 }
    ensures loose { AreLoose spans.new.entries }
    ensures cut { IsCut start (next_span start spans.new.entries) }
    ensures out { (o : ℕ) → in_span o (end, start) ≡ false → in_spans spans.new.entries o ≡ in_spans spans.old.entries o }
    ensures touch { (o : ℕ) → touches o spans.new.entries ≡ true → touches o spans.old.entries ≡ true }
    ensures none_inside { inside_at end (next_span start spans.new.entries) ≡ None }
{
    while let Some(last) = next_inside(spans, start, end) {
        remove(spans, last);
    }
}

// Takes out the offsets of a range, where no run has offsets on both sides of its first. This needs
// no memory.
fn take_out(spans: &mut BTreeMap<u64, u64>, start: u64, end: u64)
    requires loose { AreLoose spans.old.entries }
    requires cut { IsCut start (next_span start spans.old.entries) }
    requires small { start < 2 ^ 62 }
    ensures loose { AreLoose spans.new.entries }
    ensures offsets { (o : ℕ) → in_spans spans.new.entries o ≡ in_spans spans.old.entries o && not (in_span o (end, start)) }
    ensures touch { (o : ℕ) → touches o spans.new.entries ≡ true → touches o spans.old.entries ≡ true }
{
    drop_inside(spans, start, end);
    if let Some((first, last)) = next_after(spans, start) {
        if first < end {
            set_start(spans, last, end);
        }
    }
}

// Takes out the offsets of a range, which needs memory where it begins within a run.
fn remove_range(spans: &mut BTreeMap<u64, u64>, start: u64, end: u64) -> Result<(), AllocError>
    requires maximal { AreMaximal spans.old.entries }
    requires small { end < 2 ^ 62 }
    ensures maximal { AreMaximal spans.new.entries }
    ensures ok { OnOk result (Drops (map as_run spans.old.entries) (map as_run spans.new.entries) start end) }
    ensures err { OnErr result (map as_run spans.new.entries ≡ map as_run spans.old.entries) }
    ensures lacking { OnErr result (start < end) }
    ensures held { OnErr result (Has (map as_run spans.old.entries) start) }
{
    if end <= start || spans.is_empty() {
        return Ok(());
    }
    split(spans, start)?;
    take_out(spans, start, end);
    Ok(())
}

// Puts in the offsets of a range, and takes them out of another set. Where memory lacks, what was
// begun is undone, which needs none.
fn insert_from(
    spans: &mut BTreeMap<u64, u64>,
    x: Range<u64>,
    others: &mut BTreeMap<u64, u64>,
    alloc: Global,
) -> Result<(), AllocError>
    requires maximal { AreMaximal spans.old.entries }
    requires others { AreMaximal others.old.entries }
    requires small { x.end < 2 ^ 62 }
    ensures maximal { AreMaximal spans.new.entries }
    ensures others_maximal { AreMaximal others.new.entries }
    ensures ok { OnOk result (Adds (map as_run spans.old.entries) (map as_run spans.new.entries) x.start x.end) }
    ensures others { OnOk result (Drops (map as_run others.old.entries) (map as_run others.new.entries) x.start x.end) }
    ensures err { OnErr result (map as_run spans.new.entries ≡ map as_run spans.old.entries) }
    ensures others_err { OnErr result (map as_run others.new.entries ≡ map as_run others.old.entries) }
    ensures lacking { OnErr result (x.start < x.end) }
    ensures moving { OnErr result (HasMoving (map as_run spans.old.entries) (map as_run others.old.entries) x.start x.end) }
{
    if x.end <= x.start {
        return Ok(());
    }
    if others.is_empty() {
        return add_lacking(spans, others, x.start, x.end, alloc);
    }
    let nothing = BTreeMap::new(alloc);
    split(others, x.start)?;
    match add_lacking(spans, &nothing, x.start, x.end, alloc) {
        Ok(()) => {
            take_out(others, x.start, x.end);
            Ok(())
        }
        Err(e) => {
            join_at(others, x.start);
            Err(e)
        }
    }
}

// Puts in the offsets of a range that another set lacks.
fn insert_lacking(
    spans: &mut BTreeMap<u64, u64>,
    x: Range<u64>,
    others: &BTreeMap<u64, u64>,
    alloc: Global,
) -> Result<(), AllocError>
    requires maximal { AreMaximal spans.old.entries }
    requires others { AreMaximal others.now.entries }
    requires small { x.end < 2 ^ 62 }
    ensures maximal { AreMaximal spans.new.entries }
    ensures ok { OnOk result (AddsLacking (map as_run spans.old.entries) (map as_run others.now.entries) (map as_run spans.new.entries) x.start x.end) }
    ensures err { OnErr result (map as_run spans.new.entries ≡ map as_run spans.old.entries) }
    ensures lacking { OnErr result (x.start < x.end) }
    ensures free { OnErr result (HasLacking (map as_run spans.old.entries) (map as_run others.now.entries) x.start x.end) }
{
    if x.end <= x.start {
        return Ok(());
    }
    add_lacking(spans, others, x.start, x.end, alloc)
}

impl OffsetSet {
    /// The empty set.
    pub fn new(alloc: Global) -> Self
        ensures { result ≡ [] }
    {
        OffsetSet {
            spans: BTreeMap::new(alloc),
            alloc,
        }
    }

    /// Whether there is no offset in the set.
    pub fn is_empty(&self) -> bool
        ensures { IsTrue result ↔ self.now ≡ [] }
    {
        self.spans.is_empty()
    }

    /// The run of the least offset.
    pub fn first(&self) -> Option<Range<u64>>
        ensures { result ≡ slice_get self.now 0 }
    {
        match self.spans.first_key_value() {
            Some((end, start)) => Some(*start..*end),
            None => None,
        }
    }

    /// Puts in the offsets of a range, and takes them out of another set. An empty or a reversed
    /// range changes nothing, and needs no memory.
    ///
    /// # Errors
    ///
    /// - [`AllocError`]: an allocation fails, where some offset of the range isn't in the set or is
    ///   in the other. Neither set changes.
    pub fn insert_from(&mut self, x: Range<u64>, other: &mut OffsetSet) -> Result<(), AllocError>
        requires { x.end < 2 ^ 62 }
        ensures ok { OnOk result (Adds self.old self.new x.start x.end) }
        ensures other { OnOk result (Drops other.old other.new x.start x.end) }
        ensures runs { AreRuns self.new }
        ensures other_runs { AreRuns other.new }
        ensures err { OnErr result (self.new ≡ self.old) }
        ensures other_err { OnErr result (other.new ≡ other.old) }
        ensures lacking { OnErr result (x.start < x.end) }
        ensures moving { OnErr result (HasMoving self.old other.old x.start x.end) }
    {
        insert_from(&mut self.spans, x, &mut other.spans, self.alloc)
    }

    /// Puts in the offsets of a range that another set lacks. An empty or a reversed range changes
    /// nothing, and needs no memory. Takes time for the runs of both sets that have an offset of
    /// the range, and no others.
    ///
    /// # Errors
    ///
    /// - [`AllocError`]: an allocation fails, where some offset of the range is in neither set.
    ///   Nothing changes.
    pub fn insert_lacking(&mut self, x: Range<u64>, other: &OffsetSet) -> Result<(), AllocError>
        requires { x.end < 2 ^ 62 }
        ensures ok { OnOk result (AddsLacking self.old other.now self.new x.start x.end) }
        ensures runs { AreRuns self.new }
        ensures err { OnErr result (self.new ≡ self.old) }
        ensures lacking { OnErr result (x.start < x.end) }
        ensures free { OnErr result (HasLacking self.old other.now x.start x.end) }
    {
        insert_lacking(&mut self.spans, x, &other.spans, self.alloc)
    }

    /// Puts in the offsets of a range. An empty or a reversed range changes nothing, and needs no
    /// memory.
    ///
    /// # Errors
    ///
    /// - [`AllocError`]: an allocation fails, where some offset of the range isn't in the set.
    ///   Nothing changes.
    pub fn insert(&mut self, x: Range<u64>) -> Result<(), AllocError>
        requires { x.end < 2 ^ 62 }
        ensures ok { OnOk result (Adds self.old self.new x.start x.end) }
        ensures runs { AreRuns self.new }
        ensures err { OnErr result (self.new ≡ self.old) }
        ensures lacking { OnErr result (x.start < x.end) }
        ensures free { OnErr result (HasLacking self.old [] x.start x.end) }
    {
        let nothing = BTreeMap::new(self.alloc);
        insert_lacking(&mut self.spans, x, &nothing, self.alloc)
    }

    /// Whether an offset is in the set, and how many of `len` offsets from it on are as it is.
    pub fn look(&self, at: u64, len: u64) -> (bool, u64)
        requires some { 0 < len }
        requires small { at + len < 2 ^ 62 }
        ensures some { 0 < result.1 }
        ensures within { result.1 ≤ len }
        ensures alike { (o : ℕ) → at ≤ o → o < at + result.1 → (Has self.now o ↔ IsTrue result.0) }
        ensures most { result.1 < len → (Has self.now (at + result.1) ↔ IsTrue (not result.0)) }
    {
        look(&self.spans, at, len)
    }

    // Whether an offset is in the set.
    pub(crate) fn has(&self, offset: u64) -> bool
        requires { offset < 2 ^ 62 }
        ensures { result ≡ has self.now offset }
    {
        look(&self.spans, offset, 0).0
    }

    // Takes out the offsets of a range. An `Err` (want of memory, where the range begins within a
    // run) changes nothing; an empty or a reversed range never makes one.
    pub(crate) fn remove(&mut self, x: Range<u64>) -> Result<(), AllocError>
        requires { x.end < 2 ^ 62 }
        ensures ok { OnOk result (Drops self.old self.new x.start x.end) }
        ensures runs { AreRuns self.new }
        ensures err { OnErr result (self.new ≡ self.old) }
        ensures lacking { OnErr result (x.start < x.end) }
        ensures held { OnErr result (Has self.old x.start) }
    {
        remove_range(&mut self.spans, x.start, x.end)
    }

    /// Takes out the offsets of a range, where none is below it. This needs no memory.
    pub fn remove_first(&mut self, x: Range<u64>)
        requires least { (k : ℕ) → Has self.old k → x.start ≤ k }
        requires small { x.start < 2 ^ 62 }
        ensures ok { Drops self.old self.new x.start x.end }
        ensures runs { AreRuns self.new }
    {
        take_out(&mut self.spans, x.start, x.end);
    }

    /// Takes out all offsets.
    pub fn clear(&mut self)
        ensures { self.new ≡ [] }
    {
        self.spans.clear();
    }
}
