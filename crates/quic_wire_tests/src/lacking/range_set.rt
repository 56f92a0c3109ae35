//! Sets of numbers.
ghost use Rattle.std.specs.Prelude.{◌≡◌, OnOk, OnErr};
ghost use Rattle.quic_wire.specs.Runs.{Adds};

use Act::{Drops, One, Puts};
use quic_wire::{ArrayRangeSet, RangeSet};
use std::alloc::{AllocError, Global};
use std::ops::Range;

/// A range is added, a number alone, or a range is taken out.
#[derive(Clone, Copy)]
pub(super) enum Act {
    Puts(u64, u64),
    One(u64),
    Drops(u64, u64),
}

/// What is done, and the runs that are then left.
pub(super) type Step<'a> = (Act, &'a [Range<u64>]);

// ---- sets in a vector

/// Whether that changed a set.
fn change(set: &mut RangeSet, act: Act) -> Result<bool, AllocError> {
    match act {
        Puts(start, end) => set.insert(start..end),
        One(number) if number < u64::MAX => set.insert_one(number),
        One(_) => Ok(false),
        Drops(start, end) => set.remove(start..end),
    }
}

/// Whether each step changes a set to its runs.
fn follows(set: &mut RangeSet, steps: &[Step<'_>]) -> bool {
    for (act, runs) in steps {
        let changed = match change(set, *act) {
            Ok(changed) => Ok(changed),
            Err(_) => change(set, *act),
        };
        if changed != Ok(true) || set.as_slice() != *runs {
            return false;
        }
    }
    true
}

/// A copy, which has no room to spare: a call that leaves one run more takes memory.
fn copy_of(set: &RangeSet) -> Result<RangeSet, AllocError> {
    match set.try_clone() {
        Ok(copy) => Ok(copy),
        Err(_) => set.try_clone(),
    }
}

/// A copy of a set behind these steps, or none where one isn't as it says.
fn copy_behind(alloc: Global, steps: &[Step<'_>]) -> Option<RangeSet> {
    let mut set = RangeSet::new(alloc);
    if follows(&mut set, steps) {
        copy_of(&set).ok()
    } else {
        None
    }
}

/// Whether an act with such a copy goes as it should: here alone it is let go.
fn with_copy<F: FnOnce(&mut RangeSet, Global) -> bool>(
    alloc: Global,
    steps: &[Step<'_>],
    act: F,
) -> bool
    requires { F.IsAlwaysCallable act }
{
    match copy_behind(alloc, steps) {
        Some(mut set) => act(&mut set, alloc),
        None => false,
    }
}

/// What a range that is replaced gives: its pieces, and then nothing.
type Pieces = [Option<Range<u64>>; 4];

/// Replaces a range, and tells whether these are its pieces.
fn gives(set: &mut RangeSet, start: u64, end: u64, pieces: &Pieces) -> Result<bool, AllocError> {
    let mut replace = set.replace(start..end)?;
    let given = [
        replace.next(),
        replace.next(),
        replace.next(),
        replace.next(),
    ];
    Ok(given == *pieces)
}

/// Whether a range is replaced, of which these are the pieces.
fn replaces(set: &mut RangeSet, start: u64, end: u64, pieces: &Pieces) -> bool {
    let given = match gives(set, start, end, pieces) {
        Ok(given) => Ok(given),
        Err(_) => gives(set, start, end, pieces),
    };
    given == Ok(true)
}

/// Replaces a range, and drops the pieces unseen: the set is the union.
fn replace_unseen(set: &mut RangeSet, x: Range<u64>) -> Result<(), AllocError>
    ensures ok { OnOk result (Adds set.old set.new x.start x.end) }
    ensures err { OnErr result (set.new ≡ set.old) }
{
    let _ = set.replace(x)?;
    Ok(())
}

/// Two runs, of which the first was joined from two.
const NEAR: [Step<'static>; 4] = [
    (Puts(1, 3), &[1..3]),
    (One(7), &[1..3, 7..8]),
    (Drops(7, 8), &[1..3]),
    (Puts(3, 5), &[1..5]),
];

/// Of these one is parted.
const NEAR_PARTED: [Step<'static>; 1] = [(Drops(2, 3), &[1..2, 3..5])];

/// A number comes behind them.
const NEAR_MORE: [Step<'static>; 1] = [(One(7), &[0..5, 7..8])];

/// What 0 to 3 have in common with them.
const NEAR_PIECES: Pieces = [Some(1..2), Some(3..4), None, None];

fn near(set: &mut RangeSet, _: Global) -> bool {
    follows(set, &NEAR_PARTED)
        && replaces(set, 0, 4, &NEAR_PIECES)
        && set.as_slice() == [0..5].as_slice()
        && follows(set, &NEAR_MORE)
}

#[test]
fn near_runs_join_and_part(rt: HostRuntime) {
    assert!(rt; with_copy(rt.alloc(), &NEAR, near));
}

/// Three runs.
const FAR: [Step<'static>; 3] = [
    (Puts(30, 32), &[30..32]),
    (Puts(10, 12), &[10..12, 30..32]),
    (Puts(20, 22), &[10..12, 20..22, 30..32]),
];

/// Joined, they are parted again.
const FAR_PARTED: [Step<'static>; 1] = [(Drops(12, 31), &[10..12, 31..32])];

/// What 11 to 30 have in common with them.
const FAR_PIECES: Pieces = [Some(11..12), Some(20..22), Some(30..31), None];

fn far(set: &mut RangeSet, _: Global) -> bool {
    replaces(set, 11, 31, &FAR_PIECES)
        && set.as_slice() == [10..32].as_slice()
        && follows(set, &FAR_PARTED)
        && (set.min(), set.max(), set.len()) == (Some(10), Some(31), 2)
}

#[test]
fn far_runs_join_and_part(rt: HostRuntime) {
    assert!(rt; with_copy(rt.alloc(), &FAR, far));
}

fn unseen(set: &mut RangeSet, _: Global) -> bool {
    (replace_unseen(set, 11..31).is_ok() || replace_unseen(set, 11..31).is_ok())
        && set.as_slice() == [10..32].as_slice()
}

#[test]
fn unseen_pieces_join_too(rt: HostRuntime) {
    assert!(rt; with_copy(rt.alloc(), &FAR, unseen));
}

/// One number.
const ALONE: [Step<'static>; 1] = [(Puts(7, 8), &[7..8])];

/// Five others.
const OTHERS: [Step<'static>; 1] = [(Puts(0, 5), &[0..5])];

/// The numbers of another set are added, and taken out again.
fn both(set: &mut RangeSet, other: &RangeSet) -> bool {
    (set.add(other).is_ok() || set.add(other).is_ok())
        && set.as_slice() == [0..5, 7..8].as_slice()
        && (set.subtract(other).is_ok() || set.subtract(other).is_ok())
        && set.as_slice() == [7..8].as_slice()
}

fn with_others(set: &mut RangeSet, alloc: Global) -> bool {
    match copy_behind(alloc, &OTHERS) {
        Some(other) => both(set, &other),
        None => false,
    }
}

#[test]
fn sets_are_added_and_subtracted(rt: HostRuntime) {
    assert!(rt; with_copy(rt.alloc(), &ALONE, with_others));
}

// ---- sets that keep two runs in place

/// Whether that changed a set.
fn change_few(set: &mut ArrayRangeSet, act: Act) -> Result<bool, AllocError> {
    match act {
        Puts(start, end) => set.insert(start..end),
        One(number) if number < u64::MAX => set.insert_one(number),
        One(_) => Ok(false),
        Drops(start, end) => set.remove(start..end),
    }
}

/// Whether each step changes a set to its runs.
pub(super) fn few_follow(set: &mut ArrayRangeSet, steps: &[Step<'_>]) -> bool {
    for (act, runs) in steps {
        let changed = match change_few(set, *act) {
            Ok(changed) => Ok(changed),
            Err(_) => change_few(set, *act),
        };
        if changed != Ok(true) || set.as_slice() != *runs {
            return false;
        }
    }
    true
}

/// Two runs, behind joining and parting.
const FEW_NEAR: [Step<'static>; 8] = [
    (Puts(1, 3), &[1..3]),
    (Puts(20, 22), &[1..3, 20..22]),
    (One(15), &[1..3, 15..16, 20..22]),
    (Drops(15, 22), &[1..3]),
    (Puts(3, 5), &[1..5]),
    (Drops(2, 3), &[1..2, 3..5]),
    (Puts(0, 4), &[0..5]),
    (Puts(7, 8), &[0..5, 7..8]),
];

/// The numbers of another set are taken out.
fn subtract_few(set: &mut ArrayRangeSet, other: &ArrayRangeSet) -> bool {
    (set.subtract(other).is_ok() || set.subtract(other).is_ok())
        && set.as_slice() == [7..8].as_slice()
}

/// Whether a set follows these steps, and others are then taken out.
fn few_are_subtracted(alloc: Global, steps: &[Step<'_>]) -> bool {
    let mut set = ArrayRangeSet::new(alloc);
    let mut other = ArrayRangeSet::new(alloc);
    few_follow(&mut set, steps) && few_follow(&mut other, &OTHERS) && subtract_few(&mut set, &other)
}

#[test]
fn few_near_runs_join_and_part(rt: HostRuntime) {
    assert!(rt; few_are_subtracted(rt.alloc(), &FEW_NEAR));
}

/// Two runs, of which one was joined from three and parted.
const FEW_FAR: [Step<'static>; 5] = [
    (Puts(10, 12), &[10..12]),
    (Puts(20, 22), &[10..12, 20..22]),
    (Puts(30, 32), &[10..12, 20..22, 30..32]),
    (Puts(11, 31), &[10..32]),
    (Drops(12, 31), &[10..12, 31..32]),
];

/// Whether these are the least and the largest number of a set, and how many runs it has.
fn few_span(set: &ArrayRangeSet, least: u64, largest: u64, runs: usize) -> bool {
    (set.min(), set.max(), set.len()) == (Some(least), Some(largest), runs)
}

/// Whether a set follows these steps, and then goes from 10 to 31.
fn few_are_far(alloc: Global, steps: &[Step<'_>]) -> bool {
    let mut set = ArrayRangeSet::new(alloc);
    few_follow(&mut set, steps) && few_span(&set, 10, 31, 2)
}

#[test]
fn few_far_runs_join_and_part(rt: HostRuntime) {
    assert!(rt; few_are_far(rt.alloc(), &FEW_FAR));
}

/// A copy.
fn few_copy_of(set: &ArrayRangeSet) -> Result<ArrayRangeSet, AllocError> {
    match set.try_clone() {
        Ok(copy) => Ok(copy),
        Err(_) => set.try_clone(),
    }
}

/// Three runs.
const FEW: [Step<'static>; 3] = [
    (Puts(1, 3), &[1..3]),
    (Puts(5, 9), &[1..3, 5..9]),
    (Puts(20, 22), &[1..3, 5..9, 20..22]),
];

/// Of these one is parted.
const FEW_PARTED: [Step<'static>; 1] = [(Drops(6, 7), &[1..3, 5..6, 7..9, 20..22])];

/// Whether a run of a copy is parted.
fn copy_is_parted(set: &ArrayRangeSet) -> bool {
    match few_copy_of(set) {
        Ok(mut copy) => few_follow(&mut copy, &FEW_PARTED),
        Err(_) => false,
    }
}

/// Whether a set follows these steps, and a run of its copy is parted.
fn few_are_copied(alloc: Global, steps: &[Step<'_>]) -> bool {
    let mut set = ArrayRangeSet::new(alloc);
    few_follow(&mut set, steps) && copy_is_parted(&set)
}

#[test]
fn few_runs_are_copied(rt: HostRuntime) {
    assert!(rt; few_are_copied(rt.alloc(), &FEW));
}
