//! What an endpoint counts of frames, which no clause reads, and of its datagrams and its path.
use crate::ends::{PEER, Pair, arrives, asking, event, sealed_for, stream, unset, with_pair};
use bytes::Bytes;
use quic_connection::{
    Call, ConnectionStats, Dir, DropStats, Duration, FrameStats, Injection, Instant, PathStats,
    Received, RunEvent, Side, UdpStats, VarInt,
};
use std::alloc::AllocError;
use std::process::Abort;
use std::test::Fail;

/// A time, in milliseconds.
fn at(millis: u64) -> Instant {
    Instant::from_nanos(0) + Duration::from_millis(millis)
}

fn make_all(pair: &mut Pair, events: &[RunEvent]) -> Result<(), AllocError> {
    for event in events {
        pair.make(event)?;
    }
    Ok(())
}

/// One datagram of so many bytes.
fn one_datagram(bytes: u64) -> UdpStats {
    UdpStats {
        datagrams: 1,
        bytes,
        ios: 1,
    }
}

/// The IDs of an endpoint, of which it issues seven at once.
fn ids() -> FrameStats {
    let mut frames = FrameStats::default();
    frames.new_connection_id = 7;
    frames
}

/// They, and one STREAM frame.
fn ids_and_stream() -> FrameStats {
    let mut frames = ids();
    frames.stream = 1;
    frames
}

/// A path on which so many packets went, and no round trip was measured: one is taken to last 333
/// ms (RFC 9002, section 6.2.2), with the window that NewReno begins with.
fn fresh_path(sent_packets: u64) -> PathStats {
    let mut path = PathStats::default();
    path.rtt = Duration::from_millis(333);
    path.min_rtt = Duration::from_millis(333);
    path.cwnd = 12000;
    path.current_mtu = 1200;
    path.sent_packets = sent_packets;
    path
}

/// What the client counts that sent `hello`.
fn sent() -> ConnectionStats {
    ConnectionStats {
        udp_tx: one_datagram(230),
        udp_rx: UdpStats::default(),
        frame_tx: ids_and_stream(),
        frame_rx: FrameStats::default(),
        path: fresh_path(1),
        dropped: DropStats::default(),
    }
}

/// What the server counts to which it came.
fn came() -> ConnectionStats {
    ConnectionStats {
        udp_tx: UdpStats::default(),
        udp_rx: one_datagram(230),
        frame_tx: FrameStats::default(),
        frame_rx: ids_and_stream(),
        path: fresh_path(0),
        dropped: DropStats::default(),
    }
}

/// The client writes `hello` on its first stream.
fn writes() -> [RunEvent; 2] {
    [
        event(Side::Client, Call::Open(Dir::Bi)),
        event(
            Side::Client,
            Call::Write(stream(), Bytes::from_static(b"hello")),
        ),
    ]
}

/// The client ends the stream behind these bytes, and they come in one datagram.
fn assert_counted<R: Abort>(rt: &R, pair: &mut Pair) -> Result<(), Fail> {
    make_all(pair, &writes())?;
    make_all(
        pair,
        &[
            event(Side::Client, Call::Finish(stream())),
            event(Side::Client, Call::Poll(at(0))),
            event(Side::Server, arrives(0)),
        ],
    )?;
    assert!(rt; pair.ends.client.stats() == sent());
    assert!(rt; pair.ends.server.stats() == came());
    Ok(())
}

#[test]
fn a_datagram_is_counted(rt: HostRuntime) -> Result<(), Fail> {
    with_pair(rt.alloc(), unset(), unset(), true, |pair| {
        assert_counted(&rt, pair)
    })?
}

/// These frames went from either endpoint, and came to the other.
fn assert_frames<R: Abort>(rt: &R, pair: &Pair, client: FrameStats, server: FrameStats) {
    let (at_client, at_server) = (pair.ends.client.stats(), pair.ends.server.stats());
    assert!(rt; at_client.frame_tx == client);
    assert!(rt; at_server.frame_rx == client);
    assert!(rt; at_server.frame_tx == server);
    assert!(rt; at_client.frame_rx == server);
}

/// A datagram of the client with PING, a message and bytes of a stream; one of the server, which
/// acknowledges it and stops the stream; and the client's, which resets it and acknowledges that.
/// The first one of either has its IDs.
fn assert_each_counted<R: Abort>(rt: &R, pair: &mut Pair) -> Result<(), Fail> {
    let code = VarInt::from_u32(7);
    make_all(pair, &writes())?;
    make_all(
        pair,
        &[
            event(Side::Client, Call::Ping),
            event(
                Side::Client,
                Call::Send(Bytes::from_static(b"message"), false),
            ),
            event(Side::Client, Call::Poll(at(0))),
            event(Side::Server, arrives(0)),
            event(Side::Server, Call::Stop(stream(), code)),
            event(Side::Server, Call::Poll(at(0))),
            event(Side::Client, arrives(0)),
            event(Side::Client, Call::Reset(stream(), code)),
            event(Side::Client, Call::Poll(at(0))),
            event(Side::Server, arrives(1)),
        ],
    )?;
    let mut client = ids_and_stream();
    client.ping = 1;
    client.datagram = 1;
    client.reset_stream = 1;
    client.acks = 1;
    let mut server = ids();
    server.stop_sending = 1;
    server.acks = 1;
    assert_frames(rt, pair, client, server);
    Ok(())
}

#[test]
fn each_frame_is_counted(rt: HostRuntime) -> Result<(), Fail> {
    with_pair(rt.alloc(), unset(), unset(), true, |pair| {
        assert_each_counted(&rt, pair)
    })?
}

/// Bytes come that don't open, and the server challenges the client's address; the client answers,
/// and acknowledges the challenge with it (RFC 9000, section 8.2).
fn assert_path_counted<R: Abort>(rt: &R, pair: &mut Pair) -> Result<(), Fail> {
    let bytes = Injection {
        now: at(0),
        remote: PEER,
        ecn: None,
        bytes: Bytes::from_static(&[0; 400]),
    };
    make_all(
        pair,
        &[
            event(Side::Server, Call::Inject(bytes)),
            event(Side::Server, Call::Poll(at(0))),
            event(Side::Client, arrives(0)),
            event(Side::Client, Call::Poll(at(0))),
            event(Side::Server, arrives(0)),
        ],
    )?;
    let mut client = ids();
    client.path_response = 1;
    client.acks = 1;
    let mut server = ids();
    server.path_challenge = 1;
    assert_frames(rt, pair, client, server);
    Ok(())
}

#[test]
fn path_validation_is_counted(rt: HostRuntime) -> Result<(), Fail> {
    with_pair(rt.alloc(), unset(), unset(), false, |pair| {
        assert_path_counted(&rt, pair)
    })?
}

/// The first datagram, which asks how often to acknowledge, is lost: each of the two probes asks
/// anew, and for an acknowledgement at once. All have the IDs, and the probes come.
fn assert_requests_counted<R: Abort>(rt: &R, pair: &mut Pair) -> Result<(), Fail> {
    make_all(
        pair,
        &[
            event(Side::Client, Call::Poll(at(0))),
            event(Side::Client, Call::Timeout(at(1024))),
            event(Side::Client, Call::Poll(at(1024))),
            event(Side::Client, Call::Poll(at(1024))),
            event(Side::Server, arrives(1)),
            event(Side::Server, arrives(2)),
        ],
    )?;
    let (client, server) = (pair.ends.client.stats(), pair.ends.server.stats());
    assert_eq!(rt; client.frame_tx.ack_frequency, 3);
    assert_eq!(rt; client.frame_tx.immediate_ack, 2);
    assert_eq!(rt; client.frame_tx.new_connection_id, 21);
    assert_eq!(rt; server.frame_rx.ack_frequency, 2);
    assert_eq!(rt; server.frame_rx.immediate_ack, 2);
    assert_eq!(rt; server.frame_rx.new_connection_id, 14);
    Ok(())
}

#[test]
fn requests_are_counted(rt: HostRuntime) -> Result<(), Fail> {
    with_pair(rt.alloc(), asking(), unset(), true, |pair| {
        assert_requests_counted(&rt, pair)
    })?
}

/// A close comes to the client between two PINGs, of which the one behind isn't read; and a packet
/// that breaks a rule comes to the server, which closes for it.
fn assert_closes_counted<R: Abort + AllocGlobal>(rt: &R, pair: &mut Pair) -> Result<(), Fail> {
    let close = [0x01, 0x1c, 0x03, 0x08, 0x04, b'l', b'a', b't', b'e', 0x01];
    let mut datagram = sealed_for(rt.alloc(), Side::Client, 0x43, &close)?;
    assert!(rt; matches!(pair.receive(Side::Client, &mut datagram), Received::Taken));
    let heard = pair.ends.client.stats().frame_rx;
    assert_eq!(rt; heard.connection_close, 1);
    assert_eq!(rt; heard.ping, 1);
    let mut datagram = sealed_for(rt.alloc(), Side::Server, 0x43, &[0x0a, 0x00, 0x05, 0x68])?;
    assert!(rt;
        matches!(
            pair.receive(Side::Server, &mut datagram),
            Received::Closed(_)
        )
    );
    pair.make(&event(Side::Server, Call::Poll(at(0))))?;
    let stats = pair.ends.server.stats();
    assert_eq!(rt; stats.frame_tx.connection_close, 1);
    assert_eq!(rt; stats.udp_tx.datagrams, 1);
    Ok(())
}

#[test]
fn closes_are_counted(rt: HostRuntime) -> Result<(), Fail> {
    with_pair(rt.alloc(), unset(), unset(), true, |pair| {
        assert_closes_counted(&rt, pair)
    })?
}
