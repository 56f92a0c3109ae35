//! How many bytes acknowledgements take.
ghost use Rattle.std.specs.Prelude.{◌≡◌, ◌+◌, ◌*◌, ◌<◌, ◌≤◌, ◌^◌, [], length};
ghost use Rattle.quic_sets.specs.Runs.{AreRuns};
ghost use Rattle.quic_wire.specs.AckGrammar.{Below, AckFits, range_numbers, ecn_numbers};
ghost use Rattle.quic_wire.specs.AckSet.{ranges_of_set, ack_of_set, IsSmall};
ghost use Rattle.quic_wire.specs.AckView.{ecn_view};
ghost use Rattle.quic_wire.specs.AckWriting.{ack_size};
ghost use Rattle.quic_wire.specs.NumbersWritten.{AreNumbers, widths};

use crate::frame::ack::{Ack, AckIter, EcnCounts};
use crate::frame::writing::size_of_number;
use std::ops::Range;

/// How many bytes a few numbers take.
fn size_of_numbers(numbers: &[u64]) -> usize
    requires form { AreNumbers numbers.now }
    requires few { length numbers.now ≤ 5 }
    ensures size { result ≡ widths numbers.now }
    ensures bound { result ≤ 8 * length numbers.now }
{
    let mut size = 0;
    for number in numbers {
        size += size_of_number(*number);
    }
    size
}

/// How many bytes the counts of congestion marks take, where there are some.
fn size_of_ecn(ecn: Option<EcnCounts>) -> usize
    ensures size { result ≡ widths (ecn_numbers (ecn_view ecn)) }
    ensures bound { result ≤ 24 }
{
    match ecn {
        Some(counts) => size_of_numbers(&[counts.ect0, counts.ect1, counts.ce]),
        None => 0,
    }
}

/// How many bytes the runs of a set below a number take: at most 16 each.
fn size_of_runs(below: u64, runs: &[Range<u64>]) -> usize
    requires runs { AreRuns runs.now }
    requires down { Below below (ranges_of_set runs.now) }
    requires small { below < 2 ^ 62 }
    ensures size { result ≡ widths (range_numbers below (ranges_of_set runs.now)) }
    ensures bound { result ≤ 16 * length runs.now }
{
    let mut size = 0;
    let mut low = below;
    let mut left = runs;
    while let Some((run, lower)) = left.split_last() {
        let high = run.end - 1;
        size += size_of_numbers(&[low - (high + 2), high - run.start]);
        low = run.start;
        left = lower;
    }
    size
}

/// How many bytes the ACK frame of a set takes that isn't empty, given as its runs.
pub(crate) fn size_of_set(delay: u64, runs: &[Range<u64>], ecn: Option<EcnCounts>) -> usize
    requires runs { AreRuns runs.now }
    requires some { runs.now ≡ [] → ⊥ }
    requires small { IsSmall runs.now }
    requires delay { delay < 2 ^ 62 }
    ensures size { result ≡ ack_size (ack_of_set delay runs.now (ecn_view ecn)) }
    ensures bound { result + 16 ≤ 57 + 16 * length runs.now }
{
    let Some((last, lower)) = runs.split_last() else {
        unreachable!()
    };
    let largest = last.end - 1;
    let head = [largest, delay, lower.len() as u64, largest - last.start];
    1 + size_of_numbers(&head) + size_of_runs(last.start, lower) + size_of_ecn(ecn)
}

/// How many bytes ranges below a number take, which are no more than an integer can count.
fn size_of_ranges(below: u64, ranges: AckIter<'_>) -> usize
    requires down { Below below ranges }
    requires small { below < 2 ^ 62 }
    requires room { widths (range_numbers below ranges) < 2 ^ 63 }
    ensures { result ≡ widths (range_numbers below ranges.entry) }
{
    let mut size = 0;
    let mut low = below;
    for range in ranges {
        let (start, end) = (*range.start(), *range.end());
        size += size_of_numbers(&[low - (end + 2), end - start]);
        low = start;
    }
    size
}

/// How many bytes an ACK frame takes that was read.
pub(crate) fn size_of_ack(ack: &Ack<'_>) -> usize
    requires { AckFits ack.now }
    ensures { result ≡ ack_size ack.now }
{
    let largest = ack.largest();
    let mut ranges = ack.iter();
    let Some(first) = ranges.next() else {
        unreachable!()
    };
    let low = *first.start();
    let head = [largest, ack.delay(), ack.count(), largest - low];
    1 + size_of_numbers(&head) + size_of_ranges(low, ranges) + size_of_ecn(ack.ecn())
}
