use super::ends::{first_id, receives, with_streams};
use quic_streams_handles::{Chunks, EndStreams, RecvStream, Streams};
use quic_streams_parts::{ClosedStream, ReadError, ReadableError, UpdateError};
use quic_wire_core::{Dir, Side, VarInt};

// Whether a read begins, which is dropped then, and changes nothing. Where memory lacks, nothing
// has changed either, and it begins again.
fn begins(streams: &mut EndStreams, ordered: bool) -> bool {
    RecvStream::new(first_id(), streams).read(ordered).is_ok()
        || RecvStream::new(first_id(), streams).read(ordered).is_ok()
}

// Whether these bytes come next, from an offset on. Where memory lacks they are asked for again.
fn gives(chunks: &mut Chunks<'_>, max: usize, offset: u64, bytes: &[u8]) -> bool {
    let next = match chunks.next(max) {
        Err(ReadError::Memory) => chunks.next(max),
        answer => answer,
    };
    match next {
        Ok(Some(chunk)) => chunk.offset == offset && chunk.bytes.as_slice() == bytes,
        _ => false,
    }
}

// Whether a read is refused so.
fn refuses(streams: &mut EndStreams, ordered: bool, why: ReadableError) -> bool {
    match RecvStream::new(first_id(), streams).read(ordered) {
        Ok(_) => false,
        Err(error) => error == why,
    }
}

// Whether the one stream is accepted.
fn accepts(streams: &mut EndStreams) -> bool {
    let mut all = Streams::new(streams, true);
    all.accept(Dir::Bi) == Some(first_id())
        && all.accept(Dir::Bi) == None
        && all.remote_open_streams(Dir::Bi) == 1
        && all.send_streams() == 1
}

// Whether the first bytes are read in order, and the peer is to be told of limits.
fn reads_first(streams: &mut EndStreams) -> bool {
    match RecvStream::new(first_id(), streams).read(true) {
        Ok(mut chunks) => {
            let given = gives(&mut chunks, 3, 0, b"hel");
            chunks.finalize().should_transmit() && given
        }
        Err(_) => false,
    }
}

// Whether the others are read in any order. The read is dropped.
fn reads_others(streams: &mut EndStreams) -> bool {
    match RecvStream::new(first_id(), streams).read(false) {
        Ok(mut chunks) => gives(&mut chunks, 32, 3, b"lo"),
        Err(_) => false,
    }
}

// Whether this end stops the stream.
fn stops(streams: &mut EndStreams) -> bool {
    let mut stream = RecvStream::new(first_id(), streams);
    let code = VarInt::from_u32(7);
    stream.received_reset() == Ok(None)
        && (stream.stop(code).is_ok() || stream.stop(code).is_ok())
        && stream.stop(code) == Err(UpdateError::ClosedStream)
        && stream.received_reset() == Err(ClosedStream)
}

fn is_read_no_more(streams: &mut EndStreams) -> bool {
    receives(streams, b"hello")
        && accepts(streams)
        && begins(streams, true)
        && reads_first(streams)
        && begins(streams, false)
        && reads_others(streams)
        && refuses(streams, true, ReadableError::IllegalOrderedRead)
        && stops(streams)
        && refuses(streams, false, ReadableError::ClosedStream)
        && streams.pending.first_stop_sending().is_some()
}

#[test]
fn a_stopped_stream_is_read_no_more(rt: HostRuntime) {
    assert!(rt; with_streams(rt.alloc(), Side::Server, is_read_no_more));
}
