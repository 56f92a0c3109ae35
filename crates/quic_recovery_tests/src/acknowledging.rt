use quic_recovery_core::Dedup;
use quic_spaces::Acknowledging;
use quic_time::Instant;
use std::alloc::Global;

// Whether an acknowledgement is due, whether there is a number for it, and the greatest.
fn seen(acks: &Acknowledging) -> (bool, bool, u64) {
    (acks.is_due(), acks.is_filled(), acks.largest())
}

// Whether the packet of a number is taken, which asks. Where memory lacks, nothing has changed, and
// it comes again.
fn takes(acks: &mut Acknowledging, dedup: &mut Dedup, number: u64) -> bool {
    if number >= 1 << 60 || dedup.insert(number) {
        return false;
    }
    let now = Instant::from_nanos(0);
    let before = seen(acks);
    acks.take(number, now, true, false, dedup).is_ok()
        || seen(acks) == before && acks.take(number, now, true, false, dedup).is_ok()
}

// Whether the ACK frame is this at 7 ms: these are 875 units of 8 microseconds, which take two
// bytes.
fn puts(acks: &mut Acknowledging, out: &mut Vec<u8>, frame: &[u8]) -> bool {
    let now = Instant::from_nanos(7_000_000);
    if out.reserve(1065).is_err() && out.reserve(1065).is_err() {
        return false;
    }
    if !acks.is_filled() || acks.size(now, None) != frame.len() {
        return false;
    }
    acks.put(now, None, out);
    out.as_slice() == frame
}

// The ACK frame of 0, 2 and 4.
const THREE: [u8; 10] = [0x02, 0x04, 0x43, 0x6b, 0x02, 0x00, 0x00, 0x00, 0x00, 0x00];

fn three_are_acknowledged(acks: &mut Acknowledging, out: &mut Vec<u8>) -> bool {
    let mut dedup = Dedup::new();
    takes(acks, &mut dedup, 0)
        && takes(acks, &mut dedup, 2)
        && takes(acks, &mut dedup, 4)
        && seen(acks) == (true, true, 4)
        && puts(acks, out, &THREE)
}

// Each number is a range of its own, and the third one needs memory. They are let go here alone.
fn are_acknowledged(alloc: Global) -> bool {
    let mut acks = Acknowledging::new(alloc);
    let mut out = Vec::new(alloc);
    let is_right = three_are_acknowledged(&mut acks, &mut out);
    drop(acks);
    drop(out);
    is_right
}

#[test]
fn ranges_are_acknowledged(rt: HostRuntime) {
    assert!(rt; are_acknowledged(rt.alloc()));
}
