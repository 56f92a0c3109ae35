use super::spent::{none_fails_behind, spend};
use bytes::Bytes;
use quic_send_buffer::SendBuffer;
use std::alloc::Global;

// Whether an act with a send buffer behind so many allocations goes as it should: here alone one is
// let go, since each function that owns one is proved to let it go wherever it ends.
fn with_buffer<F: FnOnce(&mut SendBuffer, Global) -> bool>(
    alloc: Global,
    allocations: u64,
    act: F,
) -> bool
    requires { F.IsAlwaysCallable act }
{
    spend(alloc, allocations);
    let mut buffer = SendBuffer::new(alloc);
    let is_right = act(&mut buffer, alloc) && none_fails_behind(alloc);
    drop(buffer);
    is_right
}

// Whether bytes are written.
fn write(buffer: &mut SendBuffer, bytes: &[u8]) -> bool {
    buffer.offset() < 100 && bytes.len() < 100 && buffer.write(bytes).is_ok()
}

// The same. Where memory lacks they are written again.
fn put_in(buffer: &mut SendBuffer, bytes: &[u8]) -> bool {
    write(buffer, bytes) || write(buffer, bytes)
}

// Whether the next frame with so much room has these offsets, and a length or none.
fn goes(buffer: &mut SendBuffer, max_len: usize, start: u64, end: u64, has_length: bool) -> bool {
    buffer.poll_transmit(max_len) == (start..end, has_length)
}

// Whether the piece at an offset is this one, of what comes before another.
fn has(buffer: &SendBuffer, start: u64, end: u64, piece: &[u8]) -> bool {
    buffer.offset() - buffer.buffered() as u64 <= start
        && start <= end
        && end <= buffer.offset()
        && buffer.get(start..end) == piece
}

// Offsets are acknowledged. Where memory lacks they are once more.
fn ack(buffer: &mut SendBuffer, start: u64, end: u64) -> bool {
    buffer.ack(start..end).is_ok() || buffer.ack(start..end).is_ok()
}

// Offsets are lost. Where memory lacks they are once more.
fn lose(buffer: &mut SendBuffer, start: u64, end: u64) -> bool {
    buffer.retransmit(start..end).is_ok() || buffer.retransmit(start..end).is_ok()
}

// Two pieces go, are acknowledged in part, lost and sent again.
fn go_again(buffer: &mut SendBuffer) -> bool {
    put_in(buffer, b"Hello, ")
        && put_in(buffer, b"world and more")
        && goes(buffer, 16, 0, 16, false)
        && goes(buffer, 64, 16, 21, true)
        && ack(buffer, 9, 12)
        && lose(buffer, 0, 21)
        && goes(buffer, 8, 0, 8, false)
        && goes(buffer, 64, 8, 9, true)
}

// The same; the first is dropped once its last byte is acknowledged.
fn each_call(buffer: &mut SendBuffer, _: Global) -> bool {
    go_again(buffer)
        && ack(buffer, 0, 9)
        && buffer.buffered() == 14
        && buffer.has_unsent_data()
        && ack(buffer, 0, 64)
        && buffer.is_fully_acked()
        && buffer.unsent() == buffer.offset()
}

#[test]
fn bytes_are_written_and_sent(rt: HostRuntime) {
    assert!(rt; with_buffer(rt.alloc(), 0, each_call));
}

// Whether these offsets are appended as these bytes.
fn appends(buffer: &SendBuffer, alloc: Global, start: u64, end: u64, bytes: &[u8]) -> bool {
    if start < buffer.offset() - buffer.buffered() as u64 || end < start || buffer.offset() < end {
        return false;
    }
    match Vec::with_capacity(alloc, (end - start) as usize) {
        Ok(mut frame) => {
            buffer.put(start..end, &mut frame);
            frame.as_slice() == bytes
        }
        Err(_) => false,
    }
}

// Two writes are two pieces: a range over both is fetched piece by piece, and appended whole.
fn fetched(buffer: &mut SendBuffer, alloc: Global) -> bool {
    write(buffer, b"Hello, ")
        && write(buffer, b"world")
        && goes(buffer, 64, 0, 12, true)
        && has(buffer, 3, 12, b"lo, ")
        && appends(buffer, alloc, 3, 12, b"lo, world")
}

#[test]
fn a_range_goes_over_pieces(rt: HostRuntime) {
    assert!(rt; with_buffer(rt.alloc(), 0, fetched));
}

// The first of three writes of a byte stands by itself, the second begins a run, and the third
// makes its buffer grow: memory may lack for each.
fn run_written(buffer: &mut SendBuffer, _: Global) -> bool {
    put_in(buffer, b"x")
        && put_in(buffer, b"y")
        && put_in(buffer, b"z")
        && goes(buffer, 64, 0, 3, true)
        && has(buffer, 1, 3, b"y")
}

#[test]
fn a_run_begins_and_grows(rt: HostRuntime) {
    assert!(rt; with_buffer(rt.alloc(), 0, run_written));
}

// The byte that is written at an offset.
fn byte_at(place: u64) -> u8 {
    (place % 251) as u8
}

// So many writes of one byte.
fn write_bytes(buffer: &mut SendBuffer, count: u64) -> bool {
    for _ in 0..count {
        if buffer.offset() >= 10000 || buffer.write(&[byte_at(buffer.offset())]).is_err() {
            return false;
        }
    }
    true
}

// Whether the pieces from an offset on are those bytes.
fn are_pieces(buffer: &SendBuffer, start: u64, bytes: &[u8]) -> bool {
    let mut place = start;
    for byte in bytes {
        let wanted = [byte_at(place)];
        if !has(buffer, place, buffer.offset(), &wanted) || *byte != byte_at(place) {
            return false;
        }
        place = place.saturating_add(1);
    }
    true
}

// Whether each of these offsets is a piece of its byte, and all are appended together, too.
fn are_kept(buffer: &SendBuffer, alloc: Global, start: u64, end: u64) -> bool {
    if start < buffer.offset() - buffer.buffered() as u64 || end < start || buffer.offset() < end {
        return false;
    }
    match Vec::with_capacity(alloc, (end - start) as usize) {
        Ok(mut bytes) => {
            buffer.put(start..end, &mut bytes);
            bytes.len() as u64 == end - start && are_pieces(buffer, start, &bytes)
        }
        Err(_) => false,
    }
}

// So many bytes more are acknowledged, where all before them are, and dropped; those behind stay.
// That is where the next ones begin.
fn ack_more(buffer: &mut SendBuffer, alloc: Global, start: u64, count: u64) -> Option<u64> {
    if start >= 2900 || count >= 200 {
        return None;
    }
    let end = start + count;
    let is_dropped = buffer.ack(start..end).is_ok()
        && buffer.buffered() as u64 == 3000 - end.min(3000)
        && are_kept(buffer, alloc, end, end + 64);
    if is_dropped { Some(end) } else { None }
}

// The first 1, 3, 5, 7 and so on are acknowledged. That is where the next ones begin.
fn ack_many(buffer: &mut SendBuffer, alloc: Global) -> Option<u64> {
    let mut start = 0;
    for count in 0..53 {
        match ack_more(buffer, alloc, start, 2 * count + 1) {
            Some(end) => start = end,
            None => return None,
        }
    }
    Some(start)
}

// All bytes from an offset on are acknowledged, of which some are already.
fn ack_rest(buffer: &mut SendBuffer, alloc: Global, start: u64) -> bool {
    are_kept(buffer, alloc, start, 3000)
        && buffer.ack(start..2950).is_ok()
        && buffer.buffered() == 40
        && are_kept(buffer, alloc, 2960, 3000)
        && buffer.ack(2960..3000).is_ok()
        && buffer.is_fully_acked()
}

// Of many writes of a byte the first are acknowledged, behind others that are already: each is
// dropped by itself.
fn bytes_dropped(buffer: &mut SendBuffer, alloc: Global) -> bool {
    write_bytes(buffer, 3000)
        && goes(buffer, 4000, 0, 3000, true)
        && are_kept(buffer, alloc, 0, 3000)
        && buffer.ack(2950..2960).is_ok()
        && match ack_many(buffer, alloc) {
            Some(start) => ack_rest(buffer, alloc, start),
            None => false,
        }
}

#[test]
fn writes_of_a_byte_are_dropped_one_by_one(rt: HostRuntime) {
    assert!(rt; with_buffer(rt.alloc(), 0, bytes_dropped));
}

// More chunks than a queue has room for at first: all of them are taken, or none.
fn taken_or_none(buffer: &mut SendBuffer, _: Global) -> bool {
    let chunks = [
        Bytes::from_static(b"ab"),
        Bytes::new(),
        Bytes::from_static(b"cd"),
        Bytes::from_static(b"ef"),
        Bytes::from_static(b"gh"),
        Bytes::from_static(b"ij"),
        Bytes::from_static(b"kl"),
    ];
    buffer.offset() == 0
        && (buffer.write_all(&chunks, 11).is_ok() || buffer.write_all(&chunks, 11).is_ok())
        && goes(buffer, 64, 0, 11, true)
}

#[test]
fn chunks_are_taken_or_none(rt: HostRuntime) {
    assert!(rt; with_buffer(rt.alloc(), 0, taken_or_none));
}

// These bytes are in flight, and of every two the second is acknowledged, until so many are. Behind
// this and so many allocations before it, those of the test's next call are among 68 to 71:
// ./fail-alloc makes each of these fail. Where another call lacks memory, the test fails.
fn ack_apart(buffer: &mut SendBuffer, bytes: &[u8], acks: u64) -> bool {
    if acks >= 50 || !write(buffer, bytes) || !goes(buffer, 100, 0, bytes.len() as u64, true) {
        return false;
    }
    for place in 0..acks {
        if buffer.ack(2 * place + 1..2 * place + 2).is_err() {
            return false;
        }
    }
    true
}

// Of every two bytes the first goes, from place `first` up to `count`, then what lies behind them
// up to `end`, and then nothing.
fn go(buffer: &mut SendBuffer, first: u64, count: u64, end: u64) -> bool {
    if count >= 50 {
        return false;
    }
    for place in first..count {
        if !goes(buffer, 100, 2 * place, 2 * place + 1, true) {
            return false;
        }
    }
    goes(buffer, 100, 2 * count, end, true) && !buffer.has_unsent_data()
}

// The 16th run of those that are acknowledged is put into a full node.
fn acked_in_full_node(buffer: &mut SendBuffer, _: Global) -> bool {
    ack_apart(buffer, &[b'x'; 33], 15)
        && ack(buffer, 31, 32)
        && buffer.retransmit(0..33).is_ok()
        && go(buffer, 0, 16, 33)
}

#[test]
fn a_node_is_full_at_an_ack(rt: HostRuntime) {
    assert!(rt; with_buffer(rt.alloc(), 64, acked_in_full_node));
}

// An acknowledgement of bytes behind the first that lacks one fills seven gaps: memory may lack
// behind some of them, as the list of what was put in grows.
fn gaps_filled(buffer: &mut SendBuffer, _: Global) -> bool {
    ack_apart(buffer, &[b'x'; 15], 7)
        && ack(buffer, 2, 15)
        && buffer.retransmit(0..15).is_ok()
        && go(buffer, 0, 0, 1)
}

#[test]
fn an_ack_fills_all_gaps_or_none(rt: HostRuntime) {
    assert!(rt; with_buffer(rt.alloc(), 64, gaps_filled));
}

// An acknowledgement from the first byte on that lacks one fills seven gaps, all of them lost, and
// needs no memory: it makes no allocation that could fail before the next write's.
fn filled_without_memory(buffer: &mut SendBuffer, _: Global) -> bool {
    ack_apart(buffer, &[b'x'; 13], 6)
        && buffer.retransmit(0..13).is_ok()
        && buffer.ack(0..13).is_ok()
        && put_in(buffer, b"y")
        && goes(buffer, 100, 13, 14, true)
}

#[test]
fn an_ack_of_the_first_bytes_needs_no_memory(rt: HostRuntime) {
    assert!(rt; with_buffer(rt.alloc(), 61, filled_without_memory));
}

// The first piece stands by itself, and the sixth is put into a full queue: memory may lack for its
// bytes, and for the queue. None is as long as the one before it, so that each has a place there.
fn sixth_written(buffer: &mut SendBuffer, _: Global) -> bool {
    write(buffer, b"x")
        && write(buffer, b"xy")
        && write(buffer, b"x")
        && write(buffer, b"xy")
        && write(buffer, b"x")
        && put_in(buffer, b"yz")
        && goes(buffer, 100, 0, 9, true)
}

#[test]
fn a_queue_is_full_at_a_write(rt: HostRuntime) {
    assert!(rt; with_buffer(rt.alloc(), 55, sixth_written));
}

// A loss brings 17 runs beside one that was lost before: memory may lack behind some of them.
fn lost_in_full_node(buffer: &mut SendBuffer, _: Global) -> bool {
    ack_apart(buffer, &[b'x'; 35], 17)
        && buffer.retransmit(2..3).is_ok()
        && lose(buffer, 0, 35)
        && go(buffer, 0, 17, 35)
}

#[test]
fn a_node_is_full_at_a_loss(rt: HostRuntime) {
    assert!(rt; with_buffer(rt.alloc(), 58, lost_in_full_node));
}

// An acknowledgement cuts the last of 15 lost runs in two, in a full node, and is the 16th run of
// another full one: memory may lack also behind the cut.
fn cut_in_full_node(buffer: &mut SendBuffer, _: Global) -> bool {
    ack_apart(buffer, &[b'x'; 34], 15)
        && buffer.retransmit(2..34).is_ok()
        && ack(buffer, 31, 32)
        && go(buffer, 1, 16, 34)
}

#[test]
fn a_node_is_full_at_a_cut(rt: HostRuntime) {
    assert!(rt; with_buffer(rt.alloc(), 60, cut_in_full_node));
}
