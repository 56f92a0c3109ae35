//! Packet numbers and headers to bytes.
ghost use Rattle.std.specs.Prelude.{◌<◌, ◌^◌};

use quic_wire::{ConnectionId, PacketNumber, ShortHeader};
use std::alloc::Global;

/// Whether a number is written as these bytes where 0 is acknowledged.
fn is_cut_to(alloc: Global, n: u64, bytes: &[u8]) -> bool
    requires { n < 2 ^ 31 }
{
    let mut out = Vec::new(alloc);
    let number = PacketNumber::new(n, 0);
    (number.encode(&mut out).is_ok() || number.encode(&mut out).is_ok()) && out.as_slice() == bytes
}

#[test]
fn numbers_take_the_fewest_bytes(rt: HostRuntime) {
    let alloc = rt.alloc();
    let are_cut = is_cut_to(alloc, 0x10, &[0x10])
        && is_cut_to(alloc, 0x100, &[0x01, 0x00])
        && is_cut_to(alloc, 0x10000, &[0x01, 0x00, 0x00]);
    assert!(rt; are_cut);
}

/// A header of ID 1, 2, 3, 4, and number 0x100 behind 0.
const HEADER: [u8; 7] = [0x41, 1, 2, 3, 4, 0x01, 0x00];

/// Whether a header is written as these bytes.
fn is_spelled(alloc: Global, header: &ShortHeader, bytes: &[u8]) -> bool {
    let mut out = Vec::new(alloc);
    (header.encode(&mut out).is_ok() || header.encode(&mut out).is_ok()) && out.as_slice() == bytes
}

#[test]
fn a_header_is_written(rt: HostRuntime) {
    let header = ShortHeader {
        destination: ConnectionId::new(&[1, 2, 3, 4]),
        number: PacketNumber::new(0x100, 0),
    };
    assert!(rt; is_spelled(rt.alloc(), &header, &HEADER));
}
