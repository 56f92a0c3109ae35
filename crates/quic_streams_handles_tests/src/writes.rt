use super::ends::{first_id, with_streams};
use bytes::Bytes;
use quic_streams_handles::{EndStreams, SendStream, Streams};
use quic_streams_parts::{UpdateError, WriteError, Written};
use quic_streams_state::{BlockedBy, StreamsState};
use quic_wire_core::{Dir, Side, VarInt};

// Whether the peer lets one stream be opened.
fn lets_open(state: &mut StreamsState) -> bool {
    state.received_max_streams(Dir::Bi, 1).is_ok() || state.received_max_streams(Dir::Bi, 1).is_ok()
}

// Whether the peer lets the stream come this far.
fn lets_write(state: &mut StreamsState, limit: VarInt) -> bool {
    state.received_max_stream_data(first_id(), limit).is_ok()
        || state.received_max_stream_data(first_id(), limit).is_ok()
}

// Whether this is the stream that the end opens next.
fn opens(streams: &mut EndStreams, is_open: bool, is_first: bool) -> bool {
    let opened = Streams::new(streams, is_open).open(Dir::Bi);
    opened == if is_first { Some(first_id()) } else { None }
}

// Whether the client's first stream is opened once the peer lets it, and the end is open.
fn is_opened(streams: &mut EndStreams, limit: VarInt) -> bool {
    let is_let = opens(streams, true, false) && lets_open(&mut streams.state);
    streams.state.received_max_data(limit);
    is_let
        && opens(streams, false, false)
        && opens(streams, true, true)
        && lets_write(&mut streams.state, limit)
}

// Whether so many of the bytes are taken.
fn writes(stream: &mut SendStream<'_>, data: &[u8], taken: usize) -> bool {
    let answer = match stream.write(data) {
        Err(WriteError::Memory) => stream.write(data),
        answer => answer,
    };
    answer == Ok(taken)
}

// Whether of two buffers the first is taken, and nothing of the other.
fn writes_chunks(stream: &mut SendStream<'_>) -> bool {
    let chunks = [Bytes::from_static(b"he"), Bytes::from_static(b"llo")];
    let answer = match stream.write_chunks(&chunks) {
        Err(WriteError::Memory) => stream.write_chunks(&chunks),
        answer => answer,
    };
    answer
        == Ok(Written {
            bytes: 2,
            chunks: 1,
        })
}

// Whether it takes nothing where the end isn't open.
fn blocks(streams: &mut EndStreams) -> bool {
    let mut stream = SendStream::new(first_id(), streams, false);
    stream.blocked_by() == Some(BlockedBy::Closed)
        && stream.write(b"hello") == Err(WriteError::Blocked)
}

// Whether the stream takes what it may at this end, which is open.
fn writes_all(streams: &mut EndStreams) -> bool {
    let mut stream = SendStream::new(first_id(), streams, true);
    (stream.set_priority(3).is_ok() || stream.set_priority(3).is_ok())
        && stream.priority() == Ok(3)
        && writes(&mut stream, b"hello", 5)
        && stream.blocked_by() == None
        && writes_chunks(&mut stream)
        && stream.blocked_by() == Some(BlockedBy::Connection)
        && stream.stopped() == Ok(None)
}

// Whether it is finished, and then reset.
fn ends(streams: &mut EndStreams) -> bool {
    let mut stream = SendStream::new(first_id(), streams, true);
    let code = VarInt::from_u32(7);
    (stream.finish().is_ok() || stream.finish().is_ok())
        && (stream.reset(code).is_ok() || stream.reset(code).is_ok())
        && stream.reset(code) == Err(UpdateError::ClosedStream)
}

fn is_written_and_finished(streams: &mut EndStreams) -> bool {
    is_opened(streams, VarInt::from_u32(7))
        && blocks(streams)
        && writes_all(streams)
        && ends(streams)
        && streams.pending.first_reset_stream().is_some()
}

#[test]
fn a_stream_is_written_and_finished(rt: HostRuntime) {
    assert!(rt; with_streams(rt.alloc(), Side::Client, is_written_and_finished));
}
