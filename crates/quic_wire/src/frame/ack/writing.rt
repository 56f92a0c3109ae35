//! Acknowledgements to bytes: each number in its shortest form (RFC 9000, section 16).
ghost use Rattle.std.specs.Prelude.{◌≡◌, ◌<◌, ◌^◌, ◌++◌, [], OnOk, OnErr};
ghost use Rattle.quic_sets.specs.Runs.{AreRuns};
ghost use Rattle.quic_wire.specs.AckGrammar.{Below, AckFits, has_ecn, range_numbers, ecn_numbers};
ghost use Rattle.quic_wire.specs.AckSet.{ranges_of_set, ack_of_set, IsSmall};
ghost use Rattle.quic_wire.specs.AckView.{ecn_view};
ghost use Rattle.quic_wire.specs.FrameTypes.{is_ack, type_of};
ghost use Rattle.quic_wire.specs.NumbersWritten.{widths};
ghost use Rattle.quic_wire.specs.AckWriting.{ack_spelling, ack_size};
ghost use Rattle.quic_wire.specs.Writing.{written, BeginWith, SpendsSpare};

use crate::frame::ack::{Ack, AckIter, EcnCounts};
use crate::frame::writing::write_numbers;
use bytes::BufMut;
use std::alloc::AllocError;
use std::ops::Range;

/// Writes the counts of congestion marks, where there are some.
fn write_ecn<B: BufMut>(buf: &mut B, ecn: Option<EcnCounts>) -> Result<(), AllocError>
    ensures ok { OnOk result (B.written buf.new ≡ B.written buf.old ++ written (ecn_numbers (ecn_view ecn))) }
    ensures err { OnErr result (BeginWith (B.written buf.old) (B.written buf.new)) }
    ensures spare { SpendsSpare result (B.spare buf.old) (B.spare buf.new) (widths (ecn_numbers (ecn_view ecn))) }
{
    match ecn {
        Some(counts) => counts.encode(buf),
        None => Ok(()),
    }
}

/// Writes the runs of a set below a number, from the highest down: of each the gap above it, and
/// its length.
fn write_runs<B: BufMut>(buf: &mut B, below: u64, runs: &[Range<u64>]) -> Result<(), AllocError>
    requires runs { AreRuns runs.now }
    requires down { Below below (ranges_of_set runs.now) }
    requires small { below < 2 ^ 62 }
    ensures ok { OnOk result (B.written buf.new ≡ B.written buf.old ++ written (range_numbers below (ranges_of_set runs.now))) }
    ensures err { OnErr result (BeginWith (B.written buf.old) (B.written buf.new)) }
    ensures spare { SpendsSpare result (B.spare buf.old) (B.spare buf.new) (widths (range_numbers below (ranges_of_set runs.now))) }
{
    let mut low = below;
    let mut left = runs;
    while let Some((run, lower)) = left.split_last() {
        let high = run.end - 1;
        write_numbers(buf, &[low - (high + 2), high - run.start])?;
        low = run.start;
        left = lower;
    }
    Ok(())
}

/// Writes ranges below a number: of each the gap above it, and its length.
fn write_ranges<B: BufMut>(buf: &mut B, below: u64, ranges: AckIter<'_>) -> Result<(), AllocError>
    requires down { Below below ranges }
    requires small { below < 2 ^ 62 }
    ensures ok { OnOk result (B.written buf.new ≡ B.written buf.old ++ written (range_numbers below ranges.entry)) }
    ensures err { OnErr result (BeginWith (B.written buf.old) (B.written buf.new)) }
    ensures spare { SpendsSpare result (B.spare buf.old) (B.spare buf.new) (widths (range_numbers below ranges.entry)) }
{
    let mut low = below;
    for range in ranges {
        let (start, end) = (*range.start(), *range.end());
        write_numbers(buf, &[low - (end + 2), end - start])?;
        low = start;
    }
    Ok(())
}

/// The type of an ACK frame, with counts or without.
pub(crate) fn type_of_ack(ecn: Option<EcnCounts>) -> u64
    ensures { result ≡ type_of (is_ack (has_ecn (ecn_view ecn))) }
{
    match ecn {
        None => 0x02,
        Some(_) => 0x03,
    }
}

/// Writes the ACK frame of a set that isn't empty, given as its runs.
pub(crate) fn write_set<B: BufMut>(
    buf: &mut B,
    delay: u64,
    runs: &[Range<u64>],
    ecn: Option<EcnCounts>,
) -> Result<(), AllocError>
    requires runs { AreRuns runs.now }
    requires some { runs.now ≡ [] → ⊥ }
    requires small { IsSmall runs.now }
    requires delay { delay < 2 ^ 62 }
    ensures ok { OnOk result (B.written buf.new ≡ B.written buf.old ++ ack_spelling (ack_of_set delay runs.now (ecn_view ecn))) }
    ensures err { OnErr result (BeginWith (B.written buf.old) (B.written buf.new)) }
    ensures spare { SpendsSpare result (B.spare buf.old) (B.spare buf.new) (ack_size (ack_of_set delay runs.now (ecn_view ecn))) }
{
    let Some((last, lower)) = runs.split_last() else {
        unreachable!()
    };
    let largest = last.end - 1;
    let head = [
        type_of_ack(ecn),
        largest,
        delay,
        lower.len() as u64,
        largest - last.start,
    ];
    write_numbers(buf, &head)?;
    write_runs(buf, last.start, lower)?;
    write_ecn(buf, ecn)
}

/// Writes an ACK frame that was read.
pub(crate) fn write_ack<B: BufMut>(buf: &mut B, ack: &Ack<'_>) -> Result<(), AllocError>
    requires { AckFits ack.now }
    ensures ok { OnOk result (B.written buf.new ≡ B.written buf.old ++ ack_spelling ack.now) }
    ensures err { OnErr result (BeginWith (B.written buf.old) (B.written buf.new)) }
    ensures spare { SpendsSpare result (B.spare buf.old) (B.spare buf.new) (ack_size ack.now) }
{
    let ecn = ack.ecn();
    let largest = ack.largest();
    let mut ranges = ack.iter();
    let Some(first) = ranges.next() else {
        unreachable!()
    };
    let low = *first.start();
    let head = [
        type_of_ack(ecn),
        largest,
        ack.delay(),
        ack.count(),
        largest - low,
    ];
    write_numbers(buf, &head)?;
    write_ranges(buf, low, ranges)?;
    write_ecn(buf, ecn)
}
