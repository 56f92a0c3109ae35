use super::spent::{none_fails_behind, spend};
use quic_assembler::Assembler;
use quic_copies::Copies;
use std::alloc::{AllocError, Global};

// Whether an act with an assembler behind so many allocations goes as it should: here alone one is
// let go, since each function that owns one is proved to let it go wherever it ends.
fn with_assembler<F: FnOnce(&mut Assembler, Global) -> bool>(
    alloc: Global,
    allocations: u64,
    act: F,
) -> bool
    requires { F.IsAlwaysCallable act }
{
    spend(alloc, allocations);
    let mut assembler = Assembler::new(alloc);
    let is_right = act(&mut assembler, alloc) && none_fails_behind(alloc);
    drop(assembler);
    is_right
}

// Whether bytes come; their copy shares no memory with another.
fn insert(assembler: &mut Assembler, alloc: Global, offset: u64, bytes: &[u8]) -> bool {
    offset < 200_000
        && bytes.len() < 100
        && assembler
            .insert(offset, bytes, &mut Copies::new(alloc))
            .is_ok()
}

// The same. Where memory lacks they come again.
fn bring(assembler: &mut Assembler, alloc: Global, offset: u64, bytes: &[u8]) -> bool {
    insert(assembler, alloc, offset, bytes) || insert(assembler, alloc, offset, bytes)
}

// Whether these come where at most so many bytes are asked for.
fn reads(
    assembler: &mut Assembler,
    max: usize,
    offset: u64,
    bytes: &[u8],
) -> Result<bool, AllocError> {
    match assembler.read(max) {
        Ok(Some(chunk)) => Ok(chunk.offset == offset && chunk.bytes.as_slice() == bytes),
        Ok(None) => Ok(false),
        Err(error) => Err(error),
    }
}

// The same, and memory doesn't lack.
fn read(assembler: &mut Assembler, max: usize, offset: u64, bytes: &[u8]) -> bool {
    reads(assembler, max, offset, bytes) == Ok(true)
}

// The same. Where memory lacks they are asked for again.
fn give(assembler: &mut Assembler, max: usize, offset: u64, bytes: &[u8]) -> bool {
    match reads(assembler, max, offset, bytes) {
        Ok(are_these) => are_these,
        Err(_) => read(assembler, max, offset, bytes),
    }
}

// Reads in order and in none, of which some cut what waits; and two gaps are filled.
fn come_and_go(assembler: &mut Assembler, alloc: Global) -> bool {
    bring(assembler, alloc, 4, b"56")
        && !assembler.has_next()
        && bring(assembler, alloc, 0, b"12")
        && assembler.ensure_ordering(true).is_ok()
        && give(assembler, 1, 0, b"1")
        && assembler.ensure_ordering(false).is_ok()
        && bring(assembler, alloc, 0, b"xxxxxxx")
        && give(assembler, 9, 1, b"2")
        && give(assembler, 1, 2, b"x")
        && assembler.ensure_ordering(true).is_err()
}

// The same, and what waits is dropped.
fn each_call(assembler: &mut Assembler, alloc: Global) -> bool {
    let are_gone = come_and_go(assembler, alloc) && assembler.bytes_read() == 3;
    assembler.clear();
    are_gone && assembler.runs() == 0
}

#[test]
fn bytes_come_and_are_read(rt: HostRuntime) {
    assert!(rt; with_assembler(rt.alloc(), 0, each_call));
}

// Frames of one byte come, from one offset up to another.
fn come(assembler: &mut Assembler, alloc: Global, start: u64, end: u64, byte: &[u8]) -> bool {
    for offset in start..end {
        if !insert(assembler, alloc, offset, byte) {
            return false;
        }
    }
    true
}

// Frames of one byte come in order: they are kept as one run, and in no long time.
fn one_run(assembler: &mut Assembler, alloc: Global) -> bool {
    let is_one = come(assembler, alloc, 0, 100_000, b"x") && assembler.runs() == 1;
    for _ in 0..2048 {
        if assembler.read(100_000).is_err() {
            return false;
        }
    }
    is_one && assembler.bytes_read() == 100_000
}

#[test]
fn small_frames_in_order_are_one_run(rt: HostRuntime) {
    assert!(rt; with_assembler(rt.alloc(), 0, one_run));
}

// Two runs of one-byte frames, 2049 in all: the last one makes them too many, and each run is
// joined. What waits is in two parts then.
fn joined(assembler: &mut Assembler, alloc: Global) -> bool {
    come(assembler, alloc, 5000, 6025, b"y")
        && come(assembler, alloc, 0, 1023, b"x")
        && bring(assembler, alloc, 1023, b"x")
        && read(assembler, 9999, 0, &[b'x'; 1024])
        && assembler.ensure_ordering(false).is_ok()
        && read(assembler, 9999, 5000, &[b'y'; 1025])
}

// From the program's allocation 6450 on five are those of that join.
#[test]
fn a_join_lacks_memory(rt: HostRuntime) {
    assert!(rt; with_assembler(rt.alloc(), 13, joined));
}

// Of every two bytes the second comes.
fn come_apart(assembler: &mut Assembler, alloc: Global) -> bool {
    for place in 0..12u64 {
        if !insert(assembler, alloc, 2 * place + 1, b"a") {
            return false;
        }
    }
    true
}

// Of every two bytes these are read.
fn read_pairs(assembler: &mut Assembler) -> bool {
    for place in 0..12u64 {
        if !read(assembler, 9, 2 * place, b"x") || !read(assembler, 9, 2 * place + 1, b"a") {
            return false;
        }
    }
    true
}

// Bytes fill 13 gaps among 12 parts: with the fourth of these a full node is split, and with the
// fifth the list of what was put in grows.
fn filled(assembler: &mut Assembler, alloc: Global) -> bool {
    come_apart(assembler, alloc)
        && bring(assembler, alloc, 0, &[b'x'; 25])
        && read_pairs(assembler)
        && read(assembler, 9, 24, b"x")
}

#[test]
fn a_node_is_full_at_an_insert(rt: HostRuntime) {
    assert!(rt; with_assembler(rt.alloc(), 32, filled));
}

// Each second byte comes, and is read.
fn pick(assembler: &mut Assembler, alloc: Global) -> bool {
    for place in 0..15u64 {
        if !insert(assembler, alloc, 2 * place, b"a") || !read(assembler, 9, 2 * place, b"a") {
            return false;
        }
    }
    true
}

// The others are read.
fn read_others(assembler: &mut Assembler) -> bool {
    for place in 0..16u64 {
        if !read(assembler, 9, 2 * place + 1, b"x") {
            return false;
        }
    }
    true
}

// Each second byte is read out of order: with the 16th a full node is split. None comes again.
fn picked(assembler: &mut Assembler, alloc: Global) -> bool {
    assembler.ensure_ordering(false).is_ok()
        && pick(assembler, alloc)
        && insert(assembler, alloc, 30, b"a")
        && give(assembler, 9, 30, b"a")
        && insert(assembler, alloc, 0, &[b'x'; 32])
        && read_others(assembler)
}

#[test]
fn a_node_is_full_at_a_read(rt: HostRuntime) {
    assert!(rt; with_assembler(rt.alloc(), 19, picked));
}
