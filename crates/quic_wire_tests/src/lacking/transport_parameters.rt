//! Transport parameters to bytes.
use quic_wire::{TransportParameters, VarInt};
use std::alloc::Global;

const ASCENDING: [u8; 13] = [0, 1, 2, 3, 4, 5, 6, 7, 8, 9, 10, 11, 12];

// Nothing stands for the defaults (RFC 9000, section 18.2).
#[test]
fn defaults_are_not_written(rt: HostRuntime) {
    let nothing = TransportParameters::default().write(rt.alloc(), &ASCENDING);
    assert!(rt; matches!(&nothing, Ok(bytes) if bytes.is_empty()));
}

/// Whether parameters are written as these bytes.
fn are_written(alloc: Global, parameters: &TransportParameters, bytes: &[u8]) -> bool {
    let written = match parameters.write(alloc, &ASCENDING) {
        Ok(written) => Ok(written),
        Err(_) => parameters.write(alloc, &ASCENDING),
    };
    matches!(&written, Ok(written) if written.as_slice() == bytes)
}

#[test]
fn others_are_written(rt: HostRuntime) {
    let mut parameters = TransportParameters::default();
    parameters.initial_max_data = VarInt::from_u32(1);
    parameters.initial_max_streams_uni = VarInt::from_u32(64);
    parameters.max_ack_delay = VarInt::from_u32(0);
    let wanted = [0x04, 0x01, 0x01, 0x09, 0x02, 0x40, 0x40, 0x0b, 0x01, 0x00];
    assert!(rt; are_written(rt.alloc(), &parameters, &wanted));
}
