//! A set of offsets as its maximal runs: a map from the offset behind a run's last to its first. So
//! the run that holds an offset, and those that touch a new one, are found by one look-up each.
ghost use Rattle.std.specs.Prelude.{◌≡◌, ℕ, false, cond, ◌+◌, ◌<◌, ◌≤◌, ◌^◌, OnOk, OnErr};
ghost use Rattle.std.specs.Option.{option_map};
ghost use Rattle.std.specs.Map.{remove_entry};
ghost use Rattle.std.specs.BTreeMap.{insert_entry, is_at};
ghost use Rattle.std.specs.Ordering.{nat_cmp};
ghost use Rattle.quic_sets.specs.Spans.{AreSpans, in_spans, next_span, ends_of, is_spanned, spanned_at, free_at, first_from, end_from, with_span, with_run};

use std::alloc::AllocError;
use std::collections::BTreeMap;

// Where the first run that ends behind an offset begins and ends.
pub(crate) fn next_after(spans: &BTreeMap<u64, u64>, at: u64) -> Option<(u64, u64)>
    requires { at < 2 ^ 62 }
    ensures { result ≡ option_map ends_of (next_span at spans.now.entries) }
{
    if spans.is_empty() {
        return None;
    }
    let first = at + 1;
    match spans.range(first..).next() {
        Some((end, start)) => Some((*start, *end)),
        None => None,
    }
}

/// Whether an offset is in the set, and how many of `len` offsets from it on are as it.
pub fn look(spans: &BTreeMap<u64, u64>, at: u64, len: u64) -> (bool, u64)
    requires { at + len < 2 ^ 62 }
    ensures held { result.0 ≡ is_spanned at (next_span at spans.now.entries) }
    ensures count { result.1 ≡ cond result.0 (spanned_at at len (next_span at spans.now.entries)) (free_at at len (next_span at spans.now.entries)) }
{
    match next_after(spans, at) {
        None => (false, len),
        Some((start, end)) => {
            if at < start {
                (false, (start - at).min(len))
            } else {
                (true, end.saturating_sub(at).min(len))
            }
        }
    }
}

// Where the run that ends at an offset begins, or else that offset.
pub(crate) fn begin_of(spans: &BTreeMap<u64, u64>, start: u64) -> u64
    ensures { result ≡ first_from start spans.now.entries }
{
    match spans.get(&start) {
        Some(first) => *first,
        None => start,
    }
}

// Where the run that begins at an offset ends, or else that offset.
pub(crate) fn finish_of(spans: &BTreeMap<u64, u64>, end: u64) -> u64
    requires { end < 2 ^ 62 }
    ensures { result ≡ end_from end (next_span end spans.now.entries) }
{
    match next_after(spans, end) {
        Some((start, last)) => { if start == end { last } else { end } }
        None => end,
    }
}

// Keeps a run that ends at `end`.
pub(crate) fn keep(spans: &mut BTreeMap<u64, u64>, end: u64, start: u64) -> Result<(), AllocError>
    ensures ok { OnOk result (spans.new.entries ≡ insert_entry nat_cmp spans.old.entries end start) }
    ensures err { OnErr result (spans.new.entries ≡ spans.old.entries) }
{
    let _ = spans.insert(end, start)?;
    Ok(())
}

// Takes out the run that ends at `end`.
pub(crate) fn remove(spans: &mut BTreeMap<u64, u64>, end: u64)
    ensures { spans.new.entries ≡ remove_entry (is_at (nat_cmp end)) spans.old.entries }
{
    let _ = spans.remove(&end);
}

// Puts in a run, joined with those that it touches.
fn add_run(spans: &mut BTreeMap<u64, u64>, start: u64, end: u64) -> Result<(), AllocError>
    requires some { start < end }
    requires small { end < 2 ^ 62 }
    requires spans { AreSpans 0 spans.old.entries }
    requires free { (o : ℕ) → start ≤ o → o < end → in_spans spans.old.entries o ≡ false }
    ensures ok { OnOk result (spans.new.entries ≡ with_span start end spans.old.entries) }
    ensures err { OnErr result (spans.new.entries ≡ spans.old.entries) }
{
    let first = begin_of(spans, start);
    let last = finish_of(spans, end);
    keep(spans, last, first)?;
    remove(spans, start);
    Ok(())
}

/// Puts in `len` offsets of which the set has none.
///
/// # Errors
///
/// - [`AllocError`]: an allocation fails, where `len` isn't 0. Nothing changes.
pub fn add(spans: &mut BTreeMap<u64, u64>, at: u64, len: u64) -> Result<(), AllocError>
    requires small { at + len < 2 ^ 62 }
    requires spans { AreSpans 0 spans.old.entries }
    requires free { (o : ℕ) → at ≤ o → o < at + len → in_spans spans.old.entries o ≡ false }
    ensures ok { OnOk result (spans.new.entries ≡ with_run at len spans.old.entries) }
    ensures lacking { OnErr result (0 < len) }
    ensures err { OnErr result (spans.new.entries ≡ spans.old.entries) }
{
    if len == 0 {
        return Ok(());
    }
    add_run(spans, at, at + len)
}
