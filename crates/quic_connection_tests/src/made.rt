//! What an endpoint shows as it is made and ends: how it is printed, its own connection IDs, and
//! the round trip that it begins with.
use crate::ends::{Pair, arrives, config_of, event, unset, with_pair};
use bytes::Bytes;
use quic_connection::{
    Call, CloseCall, Config, ConfigError, Duration, EndpointEvent, FirstSample, HandshakeDoneError,
    Instant, NewRenoConfig, Side, TransportConfig, VarInt,
};
use std::alloc::{AllocError, Global};
use std::test::Fail;

/// The client closes, and the server hears so.
fn close(pair: &mut Pair) -> Result<(), AllocError> {
    let now = Instant::from_nanos(0);
    let close = CloseCall {
        now,
        error_code: VarInt::from_u32(7),
        reason: Bytes::from_static(b"bye"),
    };
    pair.make(&event(Side::Client, Call::Close(close)))?;
    pair.make(&event(Side::Client, Call::Poll(now)))?;
    pair.make(&event(Side::Server, arrives(0)))?;
    Ok(())
}

// What is printed says why a connection is lost, with the peer's code and text.
#[test]
fn it_is_printed(rt: HostRuntime) -> Result<(), Fail> {
    let rt = &rt;
    let alloc = rt.alloc();
    let texts = with_pair(alloc, unset(), unset(), true, |pair| {
        let first = format!(in alloc; "{:?}", pair.ends.client)?;
        close(pair)?;
        Ok((first, format!(in alloc; "{:?}", pair.ends.server)?))
    })?;
    let (first, last): (String, String) = texts.map_err(|_: AllocError| ConfigError::Memory)?;
    assert_eq!(rt;
        first.as_str(),
        "Connection { side: Client, state: Open, lost: no, remote: Address(0), validated: true, \
         handshake_confirmed: false, own_ids: 8, udp_tx_datagrams: 0, udp_rx_datagrams: 0, \
         sent_packets: 0, lost_packets: 0 }"
    );
    assert_eq!(rt;
        last.as_str(),
        "Connection { side: Server, state: Drained, lost: closed by the peer: bye (code 7), remote: \
         Address(0), validated: true, handshake_confirmed: false, own_ids: 8, udp_tx_datagrams: 0, \
         udp_rx_datagrams: 1, sent_packets: 0, lost_packets: 0 }"
    );
    Ok(())
}

// RFC 9000, section 5.1.1: eight IDs live, of which the first has no token, and it is told once
// that they are there. Section 19.20: only a server says that the handshake is done.
#[test]
fn its_ids_are_told(rt: HostRuntime) -> Result<(), Fail> {
    let rt = &rt;
    with_pair(rt.alloc(), unset(), unset(), true, |pair| {
        let client = &mut pair.ends.client;
        assert_eq!(rt;
            client.poll_endpoint_events(),
            Some(EndpointEvent::OwnIdsChanged)
        );
        assert_eq!(rt; client.poll_endpoint_events(), None);
        let own = client.own_ids();
        assert_eq!(rt; own.len(), 8);
        assert_eq!(rt; (own[0].sequence(), own[7].sequence()), (0, 7));
        assert_eq!(rt; own[0].id().as_slice(), &[0xc0u8; 8][..]);
        assert!(rt; own[0].reset_token().is_none() && own[7].reset_token().is_some());
        assert_eq!(rt; client.handshake_done(), Err(HandshakeDoneError::Client));
        assert_eq!(rt; pair.ends.server.handshake_done(), Ok(()));
        assert_eq!(rt;
            pair.ends.server.handshake_done(),
            Err(HandshakeDoneError::Again)
        );
    })?;
    Ok(())
}

/// The configuration of an endpoint with a first sample of these nanoseconds.
fn sampled(rtt: u64, variation: u64) -> Config<NewRenoConfig> {
    let mut transport = TransportConfig::default();
    transport.first_sample(Some(FirstSample {
        rtt: Duration::from_nanos(rtt),
        variation: Duration::from_nanos(variation),
    }));
    config_of(transport)
}

/// The round trip that a client with this configuration begins with.
fn first_rtt(alloc: Global, config: Config<NewRenoConfig>) -> Result<Duration, ConfigError> {
    with_pair(alloc, config, unset(), true, |pair| pair.ends.client.rtt())
}

// RFC 9002, section 5.3: a first sample is the smoothed round trip. The bounds are ours.
#[test]
fn a_first_sample_counts(rt: HostRuntime) -> Result<(), Fail> {
    let rt = &rt;
    let alloc = rt.alloc();
    let minute = 60_000_000_000;
    assert_eq!(rt; first_rtt(alloc, unset()), Ok(Duration::from_millis(333)));
    assert_eq!(rt;
        first_rtt(alloc, sampled(1, minute)),
        Ok(Duration::from_nanos(1))
    );
    assert_eq!(rt;
        first_rtt(alloc, sampled(minute, 1)),
        Ok(Duration::from_secs(60))
    );
    for (rtt, variation) in [(0, 1), (1, 0), (minute + 1, 1), (1, minute + 1)] {
        let refused = first_rtt(alloc, sampled(rtt, variation));
        assert_eq!(rt; refused, Err(ConfigError::FirstSample));
    }
    Ok(())
}
