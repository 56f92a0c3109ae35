//! Frames to bytes. Where memory lacked, a part of the frame may be written.
use crate::lacking::range_set::Act::Puts;
use crate::lacking::range_set::{Step, few_follow};
use quic_wire::frame::{Ack, EcnCounts, Frame, Stream, write_frame};
use quic_wire::{ArrayRangeSet, StreamId, VarInt};
use std::alloc::Global;

/// The ACK frame of 1, 2, 3, 5, 10, 11 and 14, with delay 42 and counts of 42, 24 and 12.
const SAMPLE: [u8; 14] = [
    0x03, 0x0e, 0x2a, 0x03, 0x00, 0x01, 0x01, 0x03, 0x00, 0x00, 0x02, 0x2a, 0x18, 0x0c,
];

/// Its counts.
const COUNTS: EcnCounts = EcnCounts {
    ect0: 42,
    ect1: 24,
    ce: 12,
};

/// The set of its numbers.
const NUMBERS: [Step<'static>; 4] = [
    (Puts(1, 4), &[1..4]),
    (Puts(5, 6), &[1..4, 5..6]),
    (Puts(10, 12), &[1..4, 5..6, 10..12]),
    (Puts(14, 15), &[1..4, 5..6, 10..12, 14..15]),
];

/// Whether the ACK frame of a set is the sample.
fn is_sample(alloc: Global, set: &ArrayRangeSet) -> bool {
    let mut out = Vec::new(alloc);
    match set.max() {
        Some(max) if max < 1 << 62 => {
            let is_written = Ack::encode(42, set, Some(&COUNTS), &mut out).is_ok()
                || {
                    out.clear();
                    Ack::encode(42, set, Some(&COUNTS), &mut out).is_ok()
                };
            is_written && out.as_slice() == SAMPLE.as_slice()
        }
        _ => false,
    }
}

/// Whether the ACK frame of a set behind these steps is the sample.
fn ack_is_sample(alloc: Global, steps: &[Step<'_>]) -> bool {
    let mut set = ArrayRangeSet::new(alloc);
    few_follow(&mut set, steps) && is_sample(alloc, &set)
}

#[test]
fn an_ack_is_written(rt: HostRuntime) {
    assert!(rt; ack_is_sample(rt.alloc(), &NUMBERS));
}

/// Whether the counts are written.
fn are_written(alloc: Global) -> bool {
    let mut out = Vec::new(alloc);
    let is_written = COUNTS.encode(&mut out).is_ok()
        || {
            out.clear();
            COUNTS.encode(&mut out).is_ok()
        };
    is_written && out.as_slice() == [42, 24, 12].as_slice()
}

#[test]
fn counts_are_written(rt: HostRuntime) {
    assert!(rt; are_written(rt.alloc()));
}

/// The STREAM frame of stream 4 with `hello` at offset 64, and FIN.
const STREAM: [u8; 10] = [0x0f, 0x04, 0x40, 0x40, 0x05, 0x68, 0x65, 0x6c, 0x6c, 0x6f];

/// Whether that frame is written.
fn stream_is_written(alloc: Global) -> bool {
    let frame = Frame::Stream(Stream {
        id: StreamId::from(VarInt::from_u32(4)),
        offset: 64,
        fin: true,
        data: b"hello",
    });
    let mut out = Vec::new(alloc);
    let is_written = write_frame(&frame, &mut out).is_ok()
        || {
            out.clear();
            write_frame(&frame, &mut out).is_ok()
        };
    is_written && out.as_slice() == STREAM.as_slice()
}

#[test]
fn a_stream_frame_is_written(rt: HostRuntime) {
    let _: Option<Ack<'_>> = None;
    assert!(rt; stream_is_written(rt.alloc()));
}
