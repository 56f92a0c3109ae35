//! The reasons of the errors with which endpoints close, which no clause reads: each payload comes
//! to a new endpoint.
use crate::ends::{Pair, config_of, sealed_for, with_pair};
use quic_connection::{Code, Reason, Received, Side, TransportConfig, VarInt};
use std::alloc::{AllocError, Global};
use std::process::Abort;
use std::test::Fail;

/// What comes of a packet: none where it is taken, else why its endpoint closes.
type Refusal = Option<(Code, Reason)>;

/// What an endpoint answers to a datagram.
fn answered<R: Abort>(
    rt: &R,
    pair: &mut Pair,
    side: Side,
    datagram: &mut [u8],
) -> Result<Refusal, Fail> {
    match pair.receive(side, datagram) {
        Received::Taken => Ok(None),
        Received::Closed(error) => Ok(Some((error.code(), error.reason()))),
        Received::Dropped(reason) => panic!(rt; "dropped: {reason:?}"),
        Received::Failed => panic!(rt; "failed"),
    }
}

/// A packet with this first byte and this payload comes to an endpoint of this side, which answers
/// so.
#[derive(Clone, Copy)]
struct Row<'a> {
    side: Side,
    first: u8,
    payload: &'a [u8],
    wanted: Refusal,
}

/// A row whose packet has no reserved bit.
fn plain_row(side: Side, payload: &[u8], wanted: Refusal) -> Row<'_> {
    Row {
        side,
        first: 0x43,
        payload,
        wanted,
    }
}

/// PROTOCOL_VIOLATION, for this reason.
fn violation(reason: Reason) -> Refusal {
    Some((Code::PROTOCOL_VIOLATION, reason))
}

/// Each row is answered as it says, where this is set.
fn assert_answered<R: Abort + AllocGlobal>(
    rt: &R,
    transport: TransportConfig,
    rows: &[Row],
) -> Result<(), Fail> {
    let config = config_of(transport);
    for row in rows {
        let mut datagram = sealed_for(rt.alloc(), row.side, row.first, row.payload)?;
        let refusal = with_pair(rt.alloc(), config, config, true, |pair| {
            answered(rt, pair, row.side, &mut datagram)
        })??;
        assert_eq!(rt; refusal, row.wanted, "{:?}", row.payload);
    }
    Ok(())
}

// RFC 9000, section 13.1: an ACK of the number 0 at an endpoint that gave none. Sections 19.7 and
// 19.20: NEW_TOKEN and HANDSHAKE_DONE. Section 12.4: a payload has a frame; a STREAM frame whose
// five bytes were cut to two; PADDING whose type has two bytes, and a PING. Section 17.3.1:
// reserved bits that aren't 0.
#[test]
fn of_packets(rt: HostRuntime) -> Result<(), Fail> {
    let cut = Some((Code::FRAME_ENCODING_ERROR, Reason::UnexpectedEnd));
    let reserved = Row {
        side: Side::Server,
        first: 0x4b,
        payload: &[0x01],
        wanted: violation(Reason::ReservedBits),
    };
    let rows = [
        plain_row(
            Side::Client,
            &[0x02, 0x00, 0x00, 0x00, 0x00],
            violation(Reason::NeverSent),
        ),
        plain_row(
            Side::Server,
            &[0x02, 0x00, 0x00, 0x00, 0x00],
            violation(Reason::NeverSent),
        ),
        plain_row(Side::Client, &[0x07, 0x01, 0xaa], None),
        plain_row(
            Side::Server,
            &[0x07, 0x01, 0xaa],
            violation(Reason::OfServers),
        ),
        plain_row(Side::Client, &[0x1e], None),
        plain_row(Side::Server, &[0x1e], violation(Reason::OfServers)),
        plain_row(Side::Server, &[], violation(Reason::NoFrame)),
        plain_row(Side::Server, &[0x0a, 0x00, 0x05, 0x68, 0x69], cut),
        plain_row(Side::Server, &[0x40, 0x00, 0x01], None),
        reserved,
    ];
    assert_answered(&rt, TransportConfig::default(), &rows)
}

// RFC 9000, sections 4.1, 4.5, 4.6 and 19.8: a byte at the offset 1250000, one behind the end, one
// on a stream that the client didn't open, and the first stream where none may be opened.
#[test]
fn of_streams(rt: HostRuntime) -> Result<(), Fail> {
    let window = Some((Code::FLOW_CONTROL_ERROR, Reason::TooManyBytes));
    let size = Some((Code::FINAL_SIZE_ERROR, Reason::FinalSize));
    let own = Some((Code::STREAM_STATE_ERROR, Reason::NotSendable));
    let beyond = [0x0e, 0x00, 0x80, 0x13, 0x12, 0xd0, 0x01, 0x78];
    let behind = [0x0b, 0x00, 0x01, 0x78, 0x0e, 0x00, 0x01, 0x01, 0x78];
    let opens = [0x0a, 0x00, 0x01, 0x78];
    let rows = [
        plain_row(Side::Server, &beyond, window),
        plain_row(Side::Server, &behind, size),
        plain_row(Side::Client, &opens, own),
    ];
    assert_answered(&rt, TransportConfig::default(), &rows)?;
    let mut no_streams = TransportConfig::default();
    no_streams.max_concurrent_bidi_streams(VarInt::from_u32(0));
    let limit = Some((Code::STREAM_LIMIT_ERROR, Reason::TooManyStreams));
    assert_answered(&rt, no_streams, &[plain_row(Side::Server, &opens, limit)])
}

/// Messages of two bytes, one of either type, at an endpoint that keeps so many bytes unread.
fn assert_messages<R: Abort + AllocGlobal>(
    rt: &R,
    size: Option<usize>,
    first: Refusal,
    second: Refusal,
) -> Result<(), Fail> {
    let mut transport = TransportConfig::default();
    transport.datagram_receive_buffer_size(size);
    let rows = [
        plain_row(Side::Client, &[0x31, 0x02, 0x68, 0x69], first),
        plain_row(Side::Client, &[0x30, 0x68, 0x69], second),
    ];
    assert_answered(rt, transport, &rows)
}

// RFC 9221, section 3: at an endpoint that keeps as many bytes unread, fewer, or none.
#[test]
fn of_messages(rt: HostRuntime) -> Result<(), Fail> {
    assert_messages(&rt, Some(2), None, None)?;
    let (first, second) = (
        violation(Reason::TooManyBytes),
        violation(Reason::TooManyBytes),
    );
    assert_messages(&rt, Some(1), first, second)?;
    let (first, second) = (
        violation(Reason::TooManyBytes),
        violation(Reason::TooManyBytes),
    );
    assert_messages(&rt, None, first, second)
}

/// 2048 STREAM frames, each of one byte behind a gap of one byte.
fn pieces(alloc: Global) -> Result<Vec<u8>, AllocError> {
    let mut payload = Vec::new(alloc);
    for high in 0x40..0x50u8 {
        for low in 0..128u8 {
            payload.extend_from_slice(&[0x0e, 0x00, high, low << 1 | 1, 0x01, 0x78])?;
        }
    }
    Ok(payload)
}

// RFC 9000, section 21.7: 2048 pieces in one datagram, and one more.
#[test]
fn of_pieces(rt: HostRuntime) -> Result<(), Fail> {
    let many = pieces(rt.alloc())?;
    let mut more = pieces(rt.alloc())?;
    more.extend_from_slice(&[0x0e, 0x00, 0x50, 0x01, 0x01, 0x78])?;
    let refused = Some((Code::INTERNAL_ERROR, Reason::TooManyPieces));
    let rows = [
        plain_row(Side::Server, &many, None),
        plain_row(Side::Server, &more, refused),
    ];
    assert_answered(&rt, TransportConfig::default(), &rows)
}
