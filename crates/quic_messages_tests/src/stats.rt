use quic_stats::{ConnectionStats, FrameStats};
use quic_wire::frame::Frame;
use quic_wire_core::Dir;
use std::alloc::Global;
use std::fmt::Display;

// What is printed of five frames.
const FIVE: &str =
    "FrameStats { ACK: 0, ACK_FREQUENCY: 0, CONNECTION_CLOSE: 0, CRYPTO: 0, DATA_BLOCKED: \
    0, DATAGRAM: 0, HANDSHAKE_DONE: 1, IMMEDIATE_ACK: 0, MAX_DATA: 0, MAX_STREAM_DATA: 0, \
    MAX_STREAMS_BIDI: 0, MAX_STREAMS_UNI: 0, NEW_CONNECTION_ID: 0, NEW_TOKEN: 0, \
    PATH_CHALLENGE: 0, PATH_RESPONSE: 0, PING: 2, RESET_STREAM: 0, RETIRE_CONNECTION_ID: \
    0, STREAM_DATA_BLOCKED: 0, STREAMS_BLOCKED_BIDI: 0, STREAMS_BLOCKED_UNI: 1, \
    STOP_SENDING: 0, STREAM: 0 }";

// Whether something is printed so. Nothing is, where memory lacks.
fn prints<T: Display>(alloc: Global, it: &T, wanted: &str) -> bool {
    match format!(in alloc; "{it}") {
        Ok(text) => text.as_str() == wanted,
        Err(_) => false,
    }
}

#[test]
fn frames_are_printed_by_their_names(rt: HostRuntime) {
    let mut frames = FrameStats::default();
    frames.record(&Frame::Padding);
    frames.record(&Frame::Ping);
    frames.record(&Frame::Ping);
    frames.record(&Frame::HandshakeDone);
    frames.record(&Frame::StreamsBlocked {
        dir: Dir::Uni,
        limit: 7,
    });
    assert!(rt; prints(rt.alloc(), &format_args!("{frames:?}"), FIVE));
}

#[test]
fn datagrams_are_counted(rt: HostRuntime) {
    let mut stats = ConnectionStats::default();
    stats.udp_tx.on_datagram(1200);
    stats.udp_tx.on_datagram(300);
    let sent = stats.udp_tx;
    let wanted = "UdpStats { datagrams: 2, bytes: 1500, ios: 2 }";
    assert!(rt; prints(rt.alloc(), &format_args!("{sent:?}"), wanted));
    assert!(rt; prints(rt.alloc(), &sent, "datagrams 2\nbytes 1500\nios 2\n"));
}
