//! Acknowledgements from bytes. As with other frames, each reader takes its field from the front of
//! the slice; where it refuses, the bytes left are of no use.
ghost use Rattle.std.specs.Prelude.{◌≡◌, ℕ, option_map};
ghost use Rattle.quic_wire_core.specs.Taking.{Reads};
ghost use Rattle.quic_wire.specs.AckReading.{range_at, ranges_at, behind, ecn_at, some_ecn_at, ack_at};
ghost use Rattle.quic_wire.specs.AckView.{counts_view, ecn_view};

use crate::frame::FrameError;
use crate::frame::ack::{Ack, EcnCounts};
use crate::frame::reading::number_of;

/// One more range, below the least number so far: its least and its greatest number.
#[tactic(auto, unfolding(crate::specs::AckReading::range_at))]
pub(crate) fn range_of(low: u64, bytes: &mut &[u8]) -> Result<(u64, u64), FrameError>
    ensures { Reads (λ x. x) result bytes.new.now (range_at low bytes.old.now) }
{
    let gap = number_of(bytes)? + 2;
    if low < gap {
        return Err(FrameError::Malformed);
    }
    let high = low - gap;
    let len = number_of(bytes)?;
    if high < len {
        return Err(FrameError::Malformed);
    }
    Ok((high - len, high))
}

/// Goes over so many ranges below a number.
fn skip_ranges(count: u64, below: u64, bytes: &mut &[u8]) -> Result<(), FrameError>
    ensures { Reads (λ _. 0) result bytes.new.now (behind (ranges_at count below bytes.old.now)) }
{
    let mut low = below;
    for _ in 0..count {
        low = range_of(low, bytes)?.0;
    }
    Ok(())
}

/// The counts of congestion marks.
#[tactic(auto, unfolding(crate::specs::AckReading::ecn_at))]
fn ecn_of(bytes: &mut &[u8]) -> Result<EcnCounts, FrameError>
    ensures { Reads counts_view result bytes.new.now (ecn_at bytes.old.now) }
{
    Ok(EcnCounts {
        ect0: number_of(bytes)?,
        ect1: number_of(bytes)?,
        ce: number_of(bytes)?,
    })
}

/// The counts of congestion marks, where they stand behind the ranges.
#[tactic(auto, unfolding(crate::specs::AckReading::some_ecn_at))]
fn some_ecn_of(ecn: bool, bytes: &mut &[u8]) -> Result<Option<EcnCounts>, FrameError>
    ensures { Reads ecn_view result bytes.new.now (some_ecn_at ecn bytes.old.now) }
{
    if ecn {
        Ok(Some(ecn_of(bytes)?))
    } else {
        Ok(None)
    }
}

/// An ACK frame behind its type.
#[tactic(auto, unfolding(crate::specs::AckReading::ack_at))]
pub(crate) fn ack_of<'a>(ecn: bool, bytes: &mut &'a [u8]) -> Result<Ack<'a>, FrameError>
    ensures { Reads (λ x. x) result bytes.new.now (ack_at ecn bytes.old.now) }
{
    let largest = number_of(bytes)?;
    let delay = number_of(bytes)?;
    let count = number_of(bytes)?;
    let first = number_of(bytes)?;
    if largest < first {
        return Err(FrameError::Malformed);
    }
    let blocks = *bytes;
    skip_ranges(count, largest - first, bytes)?;
    let ecn = some_ecn_of(ecn, bytes)?;
    Ok(Ack {
        largest,
        delay,
        first,
        count,
        blocks,
        ecn,
    })
}
