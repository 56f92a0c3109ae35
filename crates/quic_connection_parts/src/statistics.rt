//! Frames that are counted as they go, and datagrams as they are dropped.
ghost use Rattle.std.specs.Prelude.{◌≡◌};
ghost use Rattle.quic_stats.specs.Stats.{counted, raised};
ghost use Rattle.quic_connection_parts.specs.Drops.{after_drop};

use quic_machine::DropReason;
use quic_stats::{DropStats, FrameStats, PathStats};
use quic_wire::frame::Unpadded;

/// The frames in these bytes go: those of control, of which there are few.
pub(crate) fn count_frames(stats: &mut FrameStats, bytes: &[u8]) {
    for item in Unpadded::new(bytes) {
        if let Ok(frame) = item {
            stats.record(&frame);
        }
    }
}

/// So many STREAM frames go.
pub(crate) fn count_streams(stats: &mut FrameStats, frames: usize) {
    stats.stream = stats.stream.saturating_add(frames as u64);
}

/// One more.
pub fn count(counter: &mut u64)
    ensures { counter.new ≡ counted counter.old }
{
    *counter = counter.saturating_add(1);
}

/// A packet of so many bytes in flight is lost.
pub fn count_lost(path: &mut PathStats, size: u16)
    ensures { path.new ≡ record path.old { lost_packets = counted path.old.lost_packets; lost_bytes = raised path.old.lost_bytes size } }
{
    count(&mut path.lost_packets);
    path.lost_bytes = path.lost_bytes.saturating_add(u64::from(size));
}

/// A datagram is dropped for this reason. One from another address counts as one that came alone.
pub fn count_drop(stats: &mut DropStats, reason: DropReason)
    ensures { stats.new ≡ after_drop reason stats.old }
{
    match reason {
        DropReason::TooShort => count(&mut stats.too_short),
        DropReason::NotShort => count(&mut stats.not_short),
        DropReason::FixedBit => count(&mut stats.fixed_bit),
        DropReason::UnknownId => count(&mut stats.unknown_id),
        DropReason::NotOpened => count(&mut stats.not_opened),
        DropReason::KeyPhase => count(&mut stats.key_phase),
        DropReason::Duplicate => count(&mut stats.duplicate),
        DropReason::Closing => count(&mut stats.closing),
        DropReason::Drained => count(&mut stats.drained),
        DropReason::Failed => count(&mut stats.failed),
        DropReason::Address => {}
    }
}
