//! Calls that take memory and that no script makes by themselves, made again and again where one
//! allocation fails, or none: one of them lacks memory then, at most, and says so.
use crate::ends::{Pair, asking, event, unset, with_pair};
use quic_connection::{Answer, Call, ConfigError, Instant, RunEvent, Side, TransportParameters};
use std::alloc::{AllocError, Global};
use std::process::Abort;

/// How often a call is made.
const TIMES: u8 = 12;

/// The transport parameters of an endpoint for which nothing is set (RFC 9000, section 18.2; RFC
/// 9221, section 3; QUIC Acknowledgement Frequency, section 3).
const DEFAULTS: [u8; 62] = [
    0x01, 0x04, 0x80, 0x00, 0x75, 0x30, // 30000
    0x04, 0x08, 0xff, 0xff, 0xff, 0xff, 0xff, 0xff, 0xff, 0xff, // 2^62 - 1
    0x05, 0x04, 0x80, 0x13, 0x12, 0xd0, // 1250000
    0x06, 0x04, 0x80, 0x13, 0x12, 0xd0, //
    0x07, 0x04, 0x80, 0x13, 0x12, 0xd0, //
    0x08, 0x02, 0x40, 0x64, // 100
    0x09, 0x02, 0x40, 0x64, //
    0x0e, 0x01, 0x08, // 8
    0x20, 0x04, 0x80, 0x00, 0xff, 0xff, // 65535
    0xc0, 0x00, 0x00, 0x00, 0xff, 0x04, 0xde, 0x1b, 0x02, 0x43, 0xe8, // 1000
];

#[test]
fn parameters(rt: HostRuntime) {
    let config = unset();
    let mut lacked = false;
    for _ in 0..TIMES {
        match config.write_parameters(rt.alloc(), &TransportParameters::ORDER) {
            Ok(bytes) => assert!(rt; bytes.as_slice() == DEFAULTS.as_slice()),
            Err(AllocError) => {
                assert!(rt; !lacked);
                lacked = true;
            }
        }
    }
}

/// Why no two endpoints are made, if they aren't.
fn refusal(alloc: Global) -> Option<ConfigError> {
    with_pair(alloc, unset(), unset(), true, |_pair| ()).err()
}

#[test]
fn both_ends(rt: HostRuntime) {
    let mut lacked = false;
    for _ in 0..TIMES {
        if let Some(error) = refusal(rt.alloc()) {
            assert!(rt; error == ConfigError::Memory && !lacked);
            lacked = true;
        }
    }
}

/// A PING goes, and at first a request of how often to acknowledge with it: whether the client
/// still serves. A step that lacked memory of its own changed nothing.
fn ping_goes<R: Abort>(rt: &R, pair: &mut Pair, poll: &RunEvent) -> bool {
    let before = pair.given.client.len();
    pair.ends.client.ping();
    let answer = pair.make(poll);
    let is_failed = pair.ends.client.is_failed();
    let gave = pair.given.client.len() > before;
    match answer {
        Ok(Answer::Poll(Ok(Some(_)))) => assert!(rt; gave && !is_failed),
        Ok(_) => assert!(rt; !gave && is_failed),
        Err(AllocError) => assert!(rt; !gave && !is_failed),
    }
    !is_failed
}

fn pings_go<R: Abort>(rt: &R, pair: &mut Pair) {
    let poll = event(Side::Client, Call::Poll(Instant::from_nanos(0)));
    for _ in 0..TIMES {
        if !ping_goes(rt, pair, &poll) {
            break;
        }
    }
}

#[test]
fn a_step(rt: HostRuntime) {
    let gone = with_pair(
        rt.alloc(),
        asking(),
        unset(),
        true,
        |pair| pings_go(&rt, pair),
    );
    assert!(rt; matches!(gone, Ok(()) | Err(ConfigError::Memory)));
}
