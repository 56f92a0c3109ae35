// The parts of a stream that wait to be read.
ghost use Rattle.std.specs.Prelude.{◌≡◌, ℕ, cond, drop, leb, ◌+◌, ◌*◌, ◌<◌, ◌≤◌, ◌∷◌, ◌^◌, ◌⊎◌, length, [], take, true, false, None, IfOk, IfSome, IsOk, OnOk, OnErr, is_some};
ghost use Rattle.std.specs.Option.{option_map};
ghost use Rattle.std.specs.Map.{lookup, remove_entry};
ghost use Rattle.std.specs.BTreeMap.{insert_entry, is_at};
ghost use Rattle.std.specs.Ordering.{nat_cmp};
ghost use Rattle.quic_assembler.specs.Arrived.{AreApart, runs_of, byte_at, with_gaps, with_free, is_next, is_some_part, first_given, left_front, cuts, in_front, joined, settled, is_crowded, waiting_bytes, waits};
ghost use Rattle.quic_sets.specs.Spans.{AreSpans};
ghost use Rattle.quic_assembler.specs.PartSteps.{first_bytes, rest_of, front_of, span_of, is_held, held_at, gap_at, begins_at, touching, Fits, touching_at, from_after, HasGap, HasFree, AreHere};
ghost use Rattle.quic_sets.specs.Parts.{after, undone};

use super::Chunk;
use super::part_map::PartMap;
use bytes::Bytes;
use quic_copies::Copies;
use quic_sets::{OffsetSet, spans};
use std::alloc::{AllocError, Global};
use std::collections::BTreeMap;
use std::marker::Model;

// Parts that touch are joined only where there are more parts than this.
const MOST_PARTS: usize = 2048;

// Parts are short where they have at most so many bytes for each: so joining them copies no more
// for each.
const SHORT_PART: usize = 64;

/// Parts of a stream that do not overlap, in the order of their offsets, and the numbers of their
/// runs and of their bytes.
#[derive(Drop)]
pub(crate) struct Parts {
    // By the offset behind a part's last byte: so the part that holds an offset is found by one
    // look-up, and stays where it is when a read takes its front.
    map: PartMap,
    // The number of runs, kept so that no insert has to count it.
    runs: usize,
    // The number of bytes that wait, kept so that no insert has to count them.
    bytes: u64,
    alloc: Global,
}

impl Model for Parts {
    ghost use Rattle.std.specs.Prelude.{List};
    ghost use Rattle.quic_sets.specs.Parts.{Part};

    ghost Value = { List Part };

    ghost use Rattle.quic_assembler.specs.Inside.{Counted};

    ghost view = { λ a. a.map };

    ghost invariant = { Counted };
}

// Where the first part that ends behind an offset begins and ends.
fn first_after(parts: &PartMap, at: u64) -> Option<(u64, u64)>
    requires { at < 2 ^ 62 }
    ensures { result ≡ option_map span_of (after at parts.now) }
{
    match parts.next(at) {
        Some((end, bytes)) => Some((end.saturating_sub(bytes.len() as u64), end)),
        None => None,
    }
}

// The part that begins at an offset, where all before end there.
fn next_touching(parts: &PartMap, at: u64) -> Option<(u64, &Bytes)>
    requires { at < 2 ^ 62 }
    ensures { option_map (λ p. (p.0, p.1.now)) result ≡ touching_at at (after at parts.now) }
{
    match parts.next(at) {
        Some((end, bytes)) => {
            if end.saturating_sub(bytes.len() as u64) == at {
                Some((end, bytes))
            } else {
                None
            }
        }
        None => None,
    }
}

// Whether an offset waits; how many of `len` bytes from it on wait in its part, or else in none;
// and whether a part begins behind these.
fn span(parts: &PartMap, at: u64, len: u64) -> (bool, u64, bool)
    requires { at + len < 2 ^ 62 }
    ensures held { result.0 ≡ is_held at (after at parts.now) }
    ensures count { result.1 ≡ cond result.0 (held_at at len (after at parts.now)) (gap_at at len (after at parts.now)) }
    ensures joins { result.2 ≡ begins_at (at + result.1) (after at parts.now) }
{
    match first_after(parts, at) {
        None => (false, len, false),
        Some((start, end)) => {
            if at < start {
                let count = (start - at).min(len);
                (false, count, start == at + count)
            } else {
                let count = end.saturating_sub(at).min(len);
                (true, count, start == at + count)
            }
        }
    }
}

// How many parts touch a gap: one may end where it begins, and `joins` says whether one begins
// behind it.
fn touches(parts: &PartMap, at: u64, joins: bool) -> usize
    ensures { result ≡ cond (is_some (lookup (is_at (nat_cmp at)) parts.now)) 1 0 + cond joins 1 0 }
{
    let before = if parts.contains(at) { 1 } else { 0 };
    if joins { before + 1 } else { before }
}

// Where no part ends behind an offset: how many parts end at it, one or none. The last part alone
// is looked up.
fn ends_at_last(parts: &PartMap, at: u64) -> Option<usize>
    requires { AreApart 0 parts.now }
    ensures behind { IfSome result (λ n. after at parts.now ≡ None) }
    ensures touching { IfSome result (λ n. n ≡ cond (is_some (lookup (is_at (nat_cmp at)) parts.now)) 1 0) }
{
    match parts.last() {
        Some((end, _)) => {
            if at < end {
                None
            } else if at == end {
                Some(1)
            } else {
                Some(0)
            }
        }
        None => Some(0),
    }
}

// Where the run ends that goes on at an offset.
fn run_end(parts: &PartMap, at: u64) -> u64
    requires small { at < 2 ^ 62 }
    requires apart { AreApart 0 parts.now }
    ensures above { at ≤ result }
    ensures small { result < 2 ^ 62 }
    ensures done { touching_at result (after result parts.now) ≡ None }
{
    let mut last = at;
    while let Some((next, _)) = next_touching(parts, last) {
        last = next;
    }
    last
}

// The first part of a run, with exactly the memory for all its bytes: so each is copied once.
fn begin_run(parts: &PartMap, end: u64, bytes: &[u8], alloc: Global) -> Result<Vec<u8>, AllocError>
    requires small { end < 2 ^ 62 }
    requires apart { AreApart 0 parts.now }
    ensures { IfOk result (λ run. run.items ≡ bytes.now) }
{
    let more = run_end(parts, end) - end;
    let mut run = Vec::with_capacity(alloc, bytes.len().saturating_add(more as usize))?;
    run.extend_from_slice(bytes)?;
    Ok(run)
}

// Joins a part with those that touch it: the run that begins with it, and where it ends.
fn run_from(
    parts: &PartMap,
    end: u64,
    bytes: &[u8],
    alloc: Global,
) -> Result<(u64, Bytes), AllocError>
    requires small { end < 2 ^ 62 }
    requires apart { AreApart 0 parts.now }
    ensures run { IfOk result (λ run. in_front (end, bytes.now) (joined (from_after end parts.now)) ≡ run ∷ joined (from_after run.0 parts.now)) }
    ensures above { IfOk result (λ run. end ≤ run.0) }
    ensures small { IfOk result (λ run. run.0 < 2 ^ 62) }
{
    let mut run = begin_run(parts, end, bytes, alloc)?;
    let mut last = end;
    while let Some((next, more)) = next_touching(parts, last) {
        run.extend_from_slice(more)?;
        last = next;
    }
    Ok((last, Bytes::from_vec(run)?))
}

// The run that begins with a part, and where it ends: the part itself where none touches it.
fn run_of(
    parts: &PartMap,
    end: u64,
    bytes: &Bytes,
    alloc: Global,
) -> Result<(u64, Bytes), AllocError>
    requires small { end < 2 ^ 62 }
    requires apart { AreApart 0 parts.now }
    ensures run { IfOk result (λ run. in_front (end, bytes.now) (joined (from_after end parts.now)) ≡ run ∷ joined (from_after run.0 parts.now)) }
    ensures above { IfOk result (λ run. end ≤ run.0) }
    ensures small { IfOk result (λ run. run.0 < 2 ^ 62) }
{
    match next_touching(parts, end) {
        Some(_) => run_from(parts, end, bytes, alloc),
        None => Ok((end, bytes.clone()?)),
    }
}

// The parts, those that touch joined into one.
fn join_all(parts: &PartMap, alloc: Global) -> Result<PartMap, AllocError>
    requires { AreApart 0 parts.now }
    ensures { IfOk result (λ new. new ≡ joined parts.now) }
{
    let mut new = PartMap::new(alloc);
    let mut at = 0;
    while let Some((end, bytes)) = parts.next(at) {
        let (last, run) = run_of(parts, end, bytes, alloc)?;
        new.keep(last, run)?;
        at = last;
    }
    Ok(new)
}

// Takes out the part that ends at `end`.
fn remove(parts: &mut PartMap, end: u64)
    ensures { parts.new ≡ remove_entry (is_at (nat_cmp end)) parts.old }
{
    parts.remove(end);
}

// Takes out the parts that end at some offsets, the last first.
fn remove_all(parts: &mut PartMap, ends: &mut Vec<u64>)
    ensures { parts.new ≡ undone ends.old.items parts.old }
{
    while let Some(end) = ends.pop() {
        remove(parts, end);
    }
}

// As `Parts::starts_at`, of the map alone: `pop` asks this while the counts don't fit the map yet.
fn starts_at(parts: &PartMap, at: u64) -> bool
    ensures { result ≡ is_next parts.now at }
{
    match parts.first() {
        Some((end, bytes)) => end.saturating_sub(bytes.len() as u64) == at,
        None => false,
    }
}

// Whether so many parts have few bytes for each.
fn are_short(parts: usize, bytes: u64) -> bool
    ensures { result ≡ leb bytes (SHORT_PART * parts) }
{
    bytes <= SHORT_PART.saturating_mul(parts) as u64
}

// At most `max` bytes from the beginning on.
fn front(bytes: &Bytes, max: usize) -> Result<Bytes, AllocError>
    requires { 0 < length bytes.now }
    ensures ok { IfOk result (λ front. front ≡ take max bytes.now) }
    ensures asked { OnErr result (0 < max) }
{
    if bytes.len() <= max {
        bytes.clone()
    } else {
        bytes.slice(0..max)
    }
}

impl Parts {
    /// No part.
    pub(crate) fn new(alloc: Global) -> Self
        ensures { result ≡ [] }
    {
        Parts {
            map: PartMap::new(alloc),
            runs: 0,
            bytes: 0,
            alloc,
        }
    }

    /// The number of maximal runs of offsets. Parts that touch are one run.
    pub(crate) fn runs(&self) -> usize
        ensures value { result ≡ runs_of self.now }
        ensures apart { AreApart 0 self.now }
    {
        self.runs
    }

    // The number of bytes that wait.
    fn waiting(&self) -> u64
        ensures { result ≡ waiting_bytes self.now }
    {
        self.bytes
    }

    /// Whether the first part begins at an offset.
    pub(crate) fn starts_at(&self, at: u64) -> bool
        ensures { result ≡ is_next self.now at }
    {
        starts_at(&self.map, at)
    }

    /// Whether there is a part, and the last ends elsewhere than at an offset.
    pub(crate) fn wait_apart(&self, at: u64) -> bool {
        match self.map.last() {
            Some((end, _)) => end != at,
            None => false,
        }
    }

    // Puts a part into a gap, where `touched` parts touch it.
    fn fill_gap(&mut self, at: u64, part: Bytes, touched: usize) -> Result<(), AllocError>
        requires some { 0 < length part }
        requires small { at + length part < 2 ^ 62 }
        requires fits { Fits (at + length part) (after at self.old) }
        requires touched { touched ≡ touching self.old at (at + length part) }
        ensures apart { AreApart 0 self.new }
        ensures ok { OnOk result (self.new ≡ insert_entry nat_cmp self.old (at + length part) part) }
        ensures err { OnErr result (self.new ≡ self.old) }
    {
        let len = part.len() as u64;
        self.map.keep(at + len, part)?;
        self.runs = self.runs + 1 - touched;
        self.bytes += len;
        Ok(())
    }

    // Skips what waits at an offset, or else keeps what fills the gap there, and says how many
    // bytes that were. It notes where the part ends first, so that it can be taken out again.
    fn put_next(&mut self, at: u64, bytes: &[u8], ends: &mut Vec<u64>) -> Result<usize, AllocError>
        requires some { 0 < length bytes.now }
        requires small { at + length bytes.now < 2 ^ 62 }
        ensures some { IfOk result (λ n. 0 < n) }
        ensures within { IfOk result (λ n. n ≤ length bytes.now) }
        ensures gaps { IfOk result (λ n. with_gaps self.old at bytes.now ≡ with_gaps self.new (at + n) (drop n bytes.now)) }
        ensures back { undone ends.new.items self.new ≡ undone ends.old.items self.old }
        ensures same { OnOk result ((self.new ≡ self.old) ⊎ (byte_at self.old at ≡ None)) }
        ensures lacking { OnErr result (byte_at self.old at ≡ None) }
    {
        let (held, count, joins) = span(&self.map, at, bytes.len() as u64);
        let len = count as usize;
        if !held {
            ends.push(at + count)?;
            let touched = touches(&self.map, at, joins);
            let part = Bytes::copy_from_slice(self.alloc, &bytes[..len])?;
            self.fill_gap(at, part, touched)?;
        }
        Ok(len)
    }

    // Fills the gaps of a frame, and notes where the new parts end.
    fn fill(&mut self, at: u64, bytes: &[u8], ends: &mut Vec<u64>) -> Result<(), AllocError>
        requires { at + length bytes.now < 2 ^ 62 }
        ensures ok { OnOk result (self.new ≡ with_gaps self.old at bytes.now) }
        ensures back { undone ends.new.items self.new ≡ undone ends.old.items self.old }
        ensures same { OnOk result ((self.new ≡ self.old) ⊎ HasGap self.old at (length bytes.now)) }
        ensures lacking { OnErr result (HasGap self.old at (length bytes.now)) }
    {
        let mut taken = 0;
        while taken < bytes.len() {
            taken += self.put_next(at + taken as u64, &bytes[taken..], ends)?;
        }
        Ok(())
    }

    // Skips what was given at an offset, or else fills the gaps up to what was given behind it, and
    // says how many bytes that were.
    fn put_free(
        &mut self,
        given: &BTreeMap<u64, u64>,
        at: u64,
        bytes: &[u8],
        ends: &mut Vec<u64>,
    ) -> Result<usize, AllocError>
        requires spans { AreSpans 0 given.now.entries }
        requires some { 0 < length bytes.now }
        requires small { at + length bytes.now < 2 ^ 62 }
        ensures some { IfOk result (λ n. 0 < n) }
        ensures within { IfOk result (λ n. n ≤ length bytes.now) }
        ensures free { IfOk result (λ n. with_free given.now.entries self.old at bytes.now ≡ with_free given.now.entries self.new (at + n) (drop n bytes.now)) }
        ensures back { undone ends.new.items self.new ≡ undone ends.old.items self.old }
        ensures same { OnOk result ((self.new ≡ self.old) ⊎ HasFree given.now.entries self.old at (length bytes.now)) }
        ensures lacking { OnErr result (HasFree given.now.entries self.old at (length bytes.now)) }
    {
        let (held, count) = spans::look(given, at, bytes.len() as u64);
        let len = count as usize;
        if !held {
            self.fill(at, &bytes[..len], ends)?;
        }
        Ok(len)
    }

    // Fills the gaps of a frame that were not given, and notes where the new parts end.
    fn fill_free(
        &mut self,
        given: &BTreeMap<u64, u64>,
        at: u64,
        bytes: &[u8],
        ends: &mut Vec<u64>,
    ) -> Result<(), AllocError>
        requires spans { AreSpans 0 given.now.entries }
        requires small { at + length bytes.now < 2 ^ 62 }
        ensures ok { OnOk result (self.new ≡ with_free given.now.entries self.old at bytes.now) }
        ensures back { undone ends.new.items self.new ≡ undone ends.old.items self.old }
        ensures same { OnOk result ((self.new ≡ self.old) ⊎ HasFree given.now.entries self.old at (length bytes.now)) }
        ensures lacking { OnErr result (HasFree given.now.entries self.old at (length bytes.now)) }
    {
        let mut taken = 0;
        while taken < bytes.len() {
            taken += self.put_free(given, at + taken as u64, &bytes[taken..], ends)?;
        }
        Ok(())
    }

    // Skips what has arrived at an offset, or else fills the gaps up to what has behind it, and
    // says how many bytes that were.
    fn put_new(
        &mut self,
        given: &BTreeMap<u64, u64>,
        arrived: &OffsetSet,
        at: u64,
        bytes: &[u8],
        ends: &mut Vec<u64>,
    ) -> Result<usize, AllocError>
        requires spans { AreSpans 0 given.now.entries }
        requires some { 0 < length bytes.now }
        requires small { at + length bytes.now < 2 ^ 62 }
        requires here { AreHere given.now.entries self.old arrived.now at (length bytes.now) }
        ensures some { IfOk result (λ n. 0 < n) }
        ensures within { IfOk result (λ n. n ≤ length bytes.now) }
        ensures free { IfOk result (λ n. with_free given.now.entries self.old at bytes.now ≡ with_free given.now.entries self.new (at + n) (drop n bytes.now)) }
        ensures kept { OnOk result ((o : ℕ) → waits self.old o ≡ true → waits self.new o ≡ true) }
        ensures back { undone ends.new.items self.new ≡ undone ends.old.items self.old }
        ensures same { OnOk result ((self.new ≡ self.old) ⊎ HasFree given.now.entries self.old at (length bytes.now)) }
        ensures lacking { OnErr result (HasFree given.now.entries self.old at (length bytes.now)) }
    {
        // The proof reads here that the parts lie apart.
        let _ = &self.map;
        let (held, count) = arrived.look(at, bytes.len() as u64);
        let len = count as usize;
        if !held {
            self.fill_free(given, at, &bytes[..len], ends)?;
        }
        Ok(len)
    }

    // Fills the gaps of a frame that were not given, and notes where the new parts end. What has
    // arrived is skipped a run at a time, however many parts of it wait or were given one by one.
    fn fill_new(
        &mut self,
        given: &BTreeMap<u64, u64>,
        arrived: &OffsetSet,
        at: u64,
        bytes: &[u8],
        ends: &mut Vec<u64>,
    ) -> Result<(), AllocError>
        requires spans { AreSpans 0 given.now.entries }
        requires small { at + length bytes.now < 2 ^ 62 }
        requires here { AreHere given.now.entries self.old arrived.now at (length bytes.now) }
        ensures ok { OnOk result (self.new ≡ with_free given.now.entries self.old at bytes.now) }
        ensures back { undone ends.new.items self.new ≡ undone ends.old.items self.old }
        ensures same { OnOk result ((self.new ≡ self.old) ⊎ HasFree given.now.entries self.old at (length bytes.now)) }
        ensures lacking { OnErr result (HasFree given.now.entries self.old at (length bytes.now)) }
    {
        let mut taken = 0;
        while taken < bytes.len() {
            taken += self.put_new(given, arrived, at + taken as u64, &bytes[taken..], ends)?;
        }
        Ok(())
    }

    // Takes out parts again that were put in, so that `runs` runs and `bytes` bytes are left.
    fn take_back(&mut self, ends: &mut Vec<u64>, runs: usize, bytes: u64)
        requires apart { AreApart 0 (undone ends.old.items self.old) }
        requires counted { runs ≡ runs_of (undone ends.old.items self.old) }
        requires bytes { bytes ≡ waiting_bytes (undone ends.old.items self.old) }
        ensures { self.new ≡ undone ends.old.items self.old }
    {
        remove_all(&mut self.map, ends);
        self.runs = runs;
        self.bytes = bytes;
    }

    // Whether the parts have to be joined.
    fn is_crowded(&self) -> bool
        ensures { result ≡ is_crowded self.now }
    {
        let len = self.map.len();
        len > MOST_PARTS && self.runs < len.saturating_sub(self.runs) && are_short(len, self.bytes)
    }

    // Joins the parts that touch. All memory is taken before anything changes.
    #[cold]
    fn join(&mut self) -> Result<(), AllocError>
        ensures ok { OnOk result (self.new ≡ joined self.old) }
        ensures err { OnErr result (self.new ≡ self.old) }
    {
        self.map = join_all(&self.map, self.alloc)?;
        Ok(())
    }

    // Joins the parts that touch where there are too many and they are short.
    fn settle(&mut self) -> Result<(), AllocError>
        ensures ok { OnOk result (self.new ≡ settled self.old) }
        ensures err { OnErr result (self.new ≡ self.old) }
        ensures lacking { OnErr result (is_crowded self.old ≡ true) }
    {
        if self.is_crowded() {
            self.join()
        } else {
            Ok(())
        }
    }

    // Fills the gaps of a frame, then joins the parts where there are too many and they are short.
    fn fill_and_settle(
        &mut self,
        given: &BTreeMap<u64, u64>,
        arrived: &OffsetSet,
        at: u64,
        bytes: &[u8],
        ends: &mut Vec<u64>,
    ) -> Result<(), AllocError>
        requires spans { AreSpans 0 given.now.entries }
        requires small { at + length bytes.now < 2 ^ 62 }
        requires here { AreHere given.now.entries self.old arrived.now at (length bytes.now) }
        ensures ok { OnOk result (self.new ≡ settled (with_free given.now.entries self.old at bytes.now)) }
        ensures back { OnErr result (undone ends.new.items self.new ≡ undone ends.old.items self.old) }
        ensures lacking { OnErr result (HasFree given.now.entries self.old at (length bytes.now) ⊎ (is_crowded self.old ≡ true)) }
    {
        self.fill_new(given, arrived, at, bytes, ends)?;
        self.settle()
    }

    // Fills the gaps of a frame, wherever they are, and takes the new parts out again where memory
    // lacks. It stands apart so that a frame in order costs less.
    #[inline(never)]
    fn fill_or_undo(
        &mut self,
        given: &BTreeMap<u64, u64>,
        arrived: &OffsetSet,
        at: u64,
        bytes: &[u8],
    ) -> Result<(), AllocError>
        requires spans { AreSpans 0 given.now.entries }
        requires small { at + length bytes.now < 2 ^ 62 }
        requires here { AreHere given.now.entries self.old arrived.now at (length bytes.now) }
        ensures ok { OnOk result (self.new ≡ settled (with_free given.now.entries self.old at bytes.now)) }
        ensures err { OnErr result (self.new ≡ self.old) }
        ensures lacking { OnErr result (HasFree given.now.entries self.old at (length bytes.now) ⊎ (is_crowded self.old ≡ true)) }
    {
        let runs = self.runs();
        let waiting = self.waiting();
        let mut ends = Vec::new(self.alloc);
        let outcome = self.fill_and_settle(given, arrived, at, bytes, &mut ends);
        if outcome.is_err() {
            self.take_back(&mut ends, runs, waiting);
        }
        outcome
    }

    // Where none were given and a frame has bytes behind all parts: how many parts end where it
    // begins.
    fn last_touched(&self, given: &BTreeMap<u64, u64>, at: u64, bytes: &[u8]) -> Option<usize>
        ensures given { IfSome result (λ n. given.now.entries ≡ []) }
        ensures some { IfSome result (λ n. 0 < length bytes.now) }
        ensures behind { IfSome result (λ n. after at self.now ≡ None) }
        ensures dry { IfSome result (λ n. byte_at self.now at ≡ None) }
        ensures touched { IfSome result (λ n. n ≡ touching self.now at (at + length bytes.now)) }
    {
        if bytes.is_empty() || !given.is_empty() {
            None
        } else {
            ends_at_last(&self.map, at)
        }
    }

    // Takes out the part that ends at `end`, so that `runs` runs and `bytes` bytes are left.
    fn take_out(&mut self, end: u64, runs: usize, bytes: u64)
        requires apart { AreApart 0 (remove_entry (is_at (nat_cmp end)) self.old) }
        requires counted { runs ≡ runs_of (remove_entry (is_at (nat_cmp end)) self.old) }
        requires bytes { bytes ≡ waiting_bytes (remove_entry (is_at (nat_cmp end)) self.old) }
        ensures { self.new ≡ remove_entry (is_at (nat_cmp end)) self.old }
    {
        remove(&mut self.map, end);
        self.runs = runs;
        self.bytes = bytes;
    }

    // Puts bytes behind all parts as one more, where `touched` parts end at the first of them. No
    // other part is looked up.
    fn append(
        &mut self,
        at: u64,
        bytes: &[u8],
        touched: usize,
        copies: &mut Copies,
    ) -> Result<(), AllocError>
        requires some { 0 < length bytes.now }
        requires small { at + length bytes.now < 2 ^ 62 }
        requires behind { after at self.old ≡ None }
        requires touched { touched ≡ touching self.old at (at + length bytes.now) }
        ensures ok { OnOk result (self.new ≡ settled (with_gaps self.old at bytes.now)) }
        ensures err { OnErr result (self.new ≡ self.old) }
    {
        let runs = self.runs();
        let waiting = self.waiting();
        self.fill_gap(at, copies.copy(bytes)?, touched)?;
        let outcome = self.settle();
        if outcome.is_err() {
            self.take_out(at + bytes.len() as u64, runs, waiting);
        }
        outcome
    }

    /// Puts in the bytes of a frame that were not given and do not wait yet, each gap as one more
    /// part. Parts that touch are joined where there are too many and they are short. What is known
    /// to have arrived, as it waits or was given, is skipped a run at a time. Where none were given
    /// and all parts end before the frame, as they do where it comes in order, only the last part
    /// is looked up, and its bytes may share memory with other copies.
    ///
    /// # Errors
    ///
    /// - [`AllocError`]: an allocation fails. Nothing changes.
    pub(crate) fn insert(
        &mut self,
        given: &BTreeMap<u64, u64>,
        arrived: &OffsetSet,
        at: u64,
        bytes: &[u8],
        copies: &mut Copies,
    ) -> Result<(), AllocError>
        requires spans { AreSpans 0 given.now.entries }
        requires small { at + length bytes.now < 2 ^ 62 }
        requires here { AreHere given.now.entries self.old arrived.now at (length bytes.now) }
        ensures ok { OnOk result (self.new ≡ settled (with_free given.now.entries self.old at bytes.now)) }
        ensures err { OnErr result (self.new ≡ self.old) }
        ensures lacking { OnErr result (HasFree given.now.entries self.old at (length bytes.now) ⊎ (is_crowded self.old ≡ true)) }
    {
        match self.last_touched(given, at, bytes) {
            Some(touched) => self.append(at, bytes, touched, copies),
            None => self.fill_or_undo(given, arrived, at, bytes),
        }
    }

    // Takes out the first part.
    #[inline(always)]
    fn pop(&mut self) -> Option<Bytes>
        ensures part { result ≡ first_bytes self.old }
        ensures rest { self.new ≡ rest_of self.old }
    {
        let (end, bytes) = self.map.pop_first()?;
        if !starts_at(&self.map, end) {
            self.runs -= 1;
        }
        self.bytes -= bytes.len() as u64;
        Some(bytes)
    }

    /// Takes out the first bytes of the first part, at most `max` of them, without a copy, where it
    /// begins at an offset.
    ///
    /// # Errors
    ///
    /// - [`AllocError`]: an allocation fails, where the part is cut. Nothing changes.
    pub(crate) fn take_front(&mut self, at: u64, max: usize) -> Result<Option<Bytes>, AllocError>
        ensures ok { IfOk result (λ bytes. bytes ≡ cond (is_next self.old at) (front_of self.old max) None) }
        ensures new { OnOk result (self.new ≡ cond (is_next self.old at) (left_front self.old max) self.old) }
        ensures err { OnErr result (self.new ≡ self.old) }
        ensures whole { cuts self.old at max ≡ false → IsOk result }
    {
        let Some((end, bytes)) = self.map.first() else {
            return Ok(None);
        };
        let len = bytes.len();
        if end.saturating_sub(len as u64) != at {
            return Ok(None);
        }
        if len <= max {
            return Ok(self.pop());
        }
        let front = self.map.split_front(max)?;
        self.bytes -= max as u64;
        Ok(front)
    }

    /// The first bytes of the first part, at most `max` of them, without a copy.
    ///
    /// # Errors
    ///
    /// - [`AllocError`]: an allocation fails.
    pub(crate) fn front(&self, max: usize) -> Result<Option<Chunk>, AllocError>
        ensures ok { IfOk result (λ chunk. chunk ≡ first_given self.now max) }
        ensures some { OnErr result (is_some_part self.now ≡ true) }
        ensures asked { OnErr result (0 < max) }
    {
        match self.map.first() {
            Some((end, bytes)) => {
                let offset = end.saturating_sub(bytes.len() as u64);
                let bytes = front(bytes, max)?;
                Ok(Some(Chunk { offset, bytes }))
            }
            None => Ok(None),
        }
    }

    /// Drops the first bytes of the first part, at most `max` of them.
    pub(crate) fn skip_front(&mut self, max: usize)
        ensures { self.new ≡ left_front self.old max }
    {
        let Some((_, bytes)) = self.map.first() else {
            return;
        };
        if bytes.len() <= max {
            let _ = self.pop();
            return;
        }
        self.map.skip_front(max);
        self.bytes -= max as u64;
    }

    /// Whether there is a part.
    pub(crate) fn is_some(&self) -> bool
        ensures { result ≡ is_some_part self.now }
    {
        !self.map.is_empty()
    }

    /// Drops the parts.
    pub(crate) fn clear(&mut self)
        ensures { self.new ≡ [] }
    {
        self.map.clear();
        self.runs = 0;
        self.bytes = 0;
    }
}
