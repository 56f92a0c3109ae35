//! Integers, ids, types and codes to bytes.
use quic_wire::{Code, Codec, FrameType, StreamId, VarInt};
use std::alloc::Global;

/// Whether a value is written as these bytes.
fn is_spelled<T: Codec>(alloc: Global, value: &T, bytes: &[u8]) -> bool {
    let mut out = Vec::new(alloc);
    (value.encode(&mut out).is_ok() || value.encode(&mut out).is_ok()) && out.as_slice() == bytes
}

#[test]
fn widths_are_big_endian(rt: HostRuntime) {
    let alloc = rt.alloc();
    let wide = [8, 9, 10, 11, 12, 13, 14, 15];
    let are_spelled = is_spelled(alloc, &1u8, &[1])
        && is_spelled(alloc, &0x0203u16, &[2, 3])
        && is_spelled(alloc, &0x0405_0607u32, &[4, 5, 6, 7])
        && is_spelled(alloc, &0x0809_0a0b_0c0d_0e0fu64, &wide);
    assert!(rt; are_spelled);
}

#[test]
fn ids_types_and_codes_are_variable_integers(rt: HostRuntime) {
    let alloc = rt.alloc();
    let are_spelled = is_spelled(alloc, &VarInt::from_u32(16_384), &[0x80, 0x00, 0x40, 0x00])
        && is_spelled(alloc, &StreamId::from(VarInt::from_u32(64)), &[0x40, 0x40])
        && is_spelled(alloc, &FrameType::ACK_FREQUENCY, &[0x40, 0xaf])
        && is_spelled(alloc, &Code::PROTOCOL_VIOLATION, &[0x0a]);
    assert!(rt; are_spelled);
}
