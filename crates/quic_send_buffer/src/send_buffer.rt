// What was written to a stream and may have to be sent.
ghost use Rattle.std.specs.Prelude.{◌≡◌, ℕ, ◌+◌, ◌-◌, ◌≤◌, ◌<◌, ◌^◌, ◌++◌, [], length, min, max, slice_get, slice_range, OnOk, OnErr, vec_len, vec_capacity};
ghost use Rattle.quic_sets.specs.Offsets.{without_offsets};
ghost use Rattle.quic_sets.specs.Runs.{AreRuns, Drops, Has};
ghost use Rattle.quic_send_buffer.specs.Buffered.{Buffered, IsBuffered, HasUnacked, HasInFlight, nothing_written, written, kept_byte, is_fully_acked, has_unsent, after_write, after_writes, after_ack, after_loss, after_poll, offset_width, next_range, next_start, writes_length, sent_end, piece_end};
ghost use Rattle.quic_send_buffer.specs.Source.{cut_to};

mod pieces;
mod row;
mod run;
mod stretch;

use bytes::Bytes;
use pieces::Pieces;
use quic_sets::{OffsetSet, PrefixSet};
use quic_wire_core::VarInt;
use quic_wire_core::reserved::append;
use std::alloc::{AllocError, Global};
use std::marker::Model;
use std::ops::Range;

// The bytes of a frame that are kept for a length, if it is written: its greatest width.
const LENGTH_ROOM: usize = 8;

/// What was written to a stream and may have to be sent (RFC 9000, 2.2 and 13.3), as quinn-proto's
/// `SendBuffer`.
///
/// Each offset that was written is in one place: never sent, in flight, lost, or acknowledged.
/// Bytes are kept in the pieces that they were written in, until a whole piece lies below the first
/// offset that isn't acknowledged.
#[derive(Drop)]
pub struct SendBuffer {
    pieces: Pieces,
    // The first offset that was never sent.
    unsent: u64,
    acked: PrefixSet,
    lost: OffsetSet,
}

impl Model for SendBuffer {
    ghost use Rattle.quic_send_buffer.specs.Buffered.{Buffered, IsBuffered};

    ghost Value = { Buffered };

    ghost view = { λ s. record { base = s.pieces.base; kept = s.pieces.bytes; pieces = s.pieces.lengths; unsent = s.unsent; acked = s.acked; lost = s.lost } };

    ghost invariant = { λ s. IsBuffered (record { base = s.pieces.base; kept = s.pieces.bytes; pieces = s.pieces.lengths; unsent = s.unsent; acked = s.acked; lost = s.lost }) };
}

// The width of an offset in a STREAM frame, which isn't written where it is 0.
fn offset_size(offset: u64) -> usize
    requires { offset < 2 ^ 62 }
    ensures { result ≡ offset_width offset }
{
    if offset == 0 {
        0
    } else {
        VarInt::from_u64_unchecked(offset).size()
    }
}

// Takes the front of the least lost run out, as it goes again. This costs nothing where none is
// lost.
fn resend(lost: &mut OffsetSet, range: Range<u64>)
    requires least { (k : ℕ) → Has lost.old k → range.start ≤ k }
    requires small { range.start < 2 ^ 62 }
    ensures ok { Drops lost.old lost.new range.start range.end }
    ensures runs { AreRuns lost.new }
{
    if !lost.is_empty() {
        lost.remove_first(range);
    }
}

impl SendBuffer {
    /// Nothing is written.
    pub fn new(alloc: Global) -> Self
        ensures value { result ≡ nothing_written }
        ensures lawful { IsBuffered result }
    {
        SendBuffer {
            pieces: Pieces::new(alloc),
            unsent: 0,
            acked: PrefixSet::new(alloc),
            lost: OffsetSet::new(alloc),
        }
    }

    /// Takes over bytes that are written, as one piece; all together they end at 2^62 - 1 at most
    /// (RFC 9000, 19.8). An empty write changes nothing.
    ///
    /// # Errors
    ///
    /// - [`AllocError`]: an allocation fails, where there are bytes. Nothing changes.
    pub fn write(&mut self, bytes: &[u8]) -> Result<(), AllocError>
        requires { written self.old + length bytes.now < 2 ^ 62 }
        ensures ok { OnOk result (self.new ≡ after_write self.old bytes.now) }
        ensures err { OnErr result (self.new ≡ self.old) }
        ensures lacking { OnErr result (0 < length bytes.now) }
        ensures lawful { IsBuffered self.new }
    {
        self.pieces.push(bytes)
    }

    /// Takes over the first `len` bytes of chunks, each chunk as one piece, which shares its bytes,
    /// unless it comes alone and has few; all together they end at 2^62 - 1 at most (RFC 9000,
    /// 19.8). A chunk of which it takes no byte makes no piece.
    ///
    /// # Errors
    ///
    /// - [`AllocError`]: an allocation fails, where `len` isn't 0. Nothing changes.
    pub fn write_all(&mut self, chunks: &[Bytes], len: usize) -> Result<(), AllocError>
        requires { written self.old + len < 2 ^ 62 }
        ensures ok { OnOk result (self.new ≡ after_writes self.old (cut_to len chunks.now)) }
        ensures err { OnErr result (self.new ≡ self.old) }
        ensures lacking { OnErr result (0 < len) }
        ensures lawful { IsBuffered self.new }
    {
        self.pieces.push_all(chunks, len)
    }

    /// How many bytes were written in all: the offset of the next.
    pub fn offset(&self) -> u64
        ensures value { result ≡ written self.now }
        ensures lawful { IsBuffered self.now }
    {
        self.pieces.end()
    }

    /// The first offset that was never sent.
    pub fn unsent(&self) -> u64
        ensures value { result ≡ self.now.unsent }
        ensures lawful { IsBuffered self.now }
    {
        self.unsent
    }

    /// How many bytes are kept: those of each piece until its last offset lies below the first that
    /// isn't acknowledged.
    pub fn buffered(&self) -> usize
        ensures value { result ≡ length self.now.kept }
        ensures lawful { IsBuffered self.now }
    {
        self.pieces.len()
    }

    /// Whether each byte that was written is acknowledged.
    pub fn is_fully_acked(&self) -> bool
        ensures value { result ≡ is_fully_acked self.now }
        ensures lawful { IsBuffered self.now }
    {
        self.acked.first_lacking() == self.offset()
    }

    /// Whether there are bytes to send: lost ones, or some that were never sent.
    pub fn has_unsent_data(&self) -> bool
        ensures value { result ≡ has_unsent self.now }
        ensures lawful { IsBuffered self.now }
    {
        !self.lost.is_empty() || self.unsent < self.offset()
    }

    /// Offsets are acknowledged, those of the range that were sent (RFC 9000, 13.3): they never go
    /// again. Pieces that lie wholly below the first offset that isn't acknowledged are dropped.
    ///
    /// # Errors
    ///
    /// - [`AllocError`]: an allocation fails, where some offset of the range was sent and isn't
    ///   acknowledged. Nothing changes.
    pub fn ack(&mut self, range: Range<u64>) -> Result<(), AllocError>
        ensures ok { OnOk result (self.new ≡ after_ack self.old range.start range.end) }
        ensures err { OnErr result (self.new ≡ self.old) }
        ensures lacking { OnErr result (range.start < min range.end self.old.unsent) }
        ensures unacked { OnErr result (HasUnacked self.old range.start range.end) }
        ensures lawful { IsBuffered self.new }
    {
        let sent = range.start..range.end.min(self.unsent);
        self.acked.insert_from(sent, &mut self.lost)?;
        self.pieces.release(self.acked.first_lacking());
        Ok(())
    }

    /// Offsets are lost, those of the range that were sent and aren't acknowledged: they go again
    /// before new ones (RFC 9000, 13.3).
    ///
    /// # Errors
    ///
    /// - [`AllocError`]: an allocation fails, where some offset of the range is in flight. Nothing
    ///   changes.
    pub fn retransmit(&mut self, range: Range<u64>) -> Result<(), AllocError>
        ensures ok { OnOk result (self.new ≡ after_loss self.old range.start range.end) }
        ensures err { OnErr result (self.new ≡ self.old) }
        ensures lacking { OnErr result (range.start < min range.end self.old.unsent) }
        ensures in_flight { OnErr result (HasInFlight self.old range.start range.end) }
        ensures lawful { IsBuffered self.new }
    {
        let sent = range.start..range.end.min(self.unsent);
        self.acked.insert_lacking_into(sent, &mut self.lost)
    }

    // What goes next: the least lost run, or else all that was never sent.
    fn next_range(&self) -> Range<u64>
        ensures value { result ≡ next_range self.now }
        ensures lawful { IsBuffered self.now }
    {
        let unsent = self.unsent..self.offset();
        self.lost.first().unwrap_or(unsent)
    }

    // What goes was sent, and is lost no longer. The front of a lost run is taken out, which needs
    // no memory.
    fn mark_sent(&mut self, range: Range<u64>)
        requires start { range.start ≡ next_start self.old }
        requires bounded { range.end ≤ written self.old }
        ensures { self.new ≡ record self.old { unsent = max self.old.unsent range.end; lost = without_offsets range.start range.end self.old.lost } }
    {
        self.unsent = self.unsent.max(range.end);
        resend(&mut self.lost, range);
    }

    /// What `poll_transmit` would take with so much room: the offsets of the bytes, and whether the
    /// frame's length is to be written.
    pub fn next_transmit(&self, max_len: usize) -> (Range<u64>, bool)
        ensures start { result.0.start ≡ next_start self.now }
        ensures end { result.0.end ≡ sent_end self.now max_len }
        ensures length { result.1 ≡ writes_length self.now max_len }
        ensures kept { self.now.base ≤ result.0.start }
        ensures ordered { result.0.start ≤ result.0.end }
        ensures bounded { result.0.end ≤ written self.now }
        ensures lawful { IsBuffered self.now }
    {
        let next = self.next_range();
        let left = next.end - next.start;
        let room = max_len.saturating_sub(offset_size(next.start));
        let has_length = left < room as u64;
        let room = if has_length {
            room.saturating_sub(LENGTH_ROOM)
        } else {
            room
        };
        let end = next.start + left.min(room as u64);
        (next.start..end, has_length)
    }

    /// Takes the next bytes to send, of a STREAM frame (RFC 9000, 19.8) with `max_len` bytes of
    /// room behind its type and id: their offsets, and whether the frame's length is to be written.
    /// They are in flight then.
    ///
    /// The least lost run goes first, cut to the room; bytes that were never sent go where nothing
    /// is lost. The offset takes its width of the room, unless it is 0. Where what is left to go
    /// fills the room, the frame ends with it and has no length. Else it has one, and 8 bytes are
    /// kept for it. With fewer than 16 bytes of room a frame may not fit it: its offset and length
    /// are written all the same. With fewer than 17 no byte may go, although some wait; where
    /// nothing waits the range is empty (quinn-proto's `SendBuffer::poll_transmit`).
    pub fn poll_transmit(&mut self, max_len: usize) -> (Range<u64>, bool)
        ensures start { result.0.start ≡ next_start self.old }
        ensures end { result.0.end ≡ sent_end self.old max_len }
        ensures length { result.1 ≡ writes_length self.old max_len }
        ensures new { self.new ≡ after_poll self.old max_len }
        ensures kept { self.old.base ≤ result.0.start }
        ensures ordered { result.0.start ≤ result.0.end }
        ensures bounded { result.0.end ≤ written self.old }
        ensures first_time { self.old.lost ≡ [] → self.new ≡ record self.old { unsent = sent_end self.old max_len } }
        ensures lawful { IsBuffered self.new }
    {
        let (offsets, has_length) = self.next_transmit(max_len);
        self.mark_sent(offsets.start..offsets.end);
        (offsets, has_length)
    }

    /// The bytes at these offsets from the first on, up to the last or the end of the piece that
    /// the first was written in (quinn-proto's `SendBuffer::get`). The range isn't reversed, begins
    /// at the first offset that is kept, which is `offset() - buffered()`, or behind it, and ends
    /// at `offset()` at most. One that a poll gave is such a range until its first offset is
    /// acknowledged.
    pub fn get(&self, offsets: Range<u64>) -> &[u8]
        requires kept { self.now.base ≤ offsets.start }
        requires ordered { offsets.start ≤ offsets.end }
        requires bounded { offsets.end ≤ written self.now }
        ensures bytes { result.now ≡ slice_range self.now.kept (offsets.start - self.now.base) (offsets.start + length result.now - self.now.base) }
        ensures each { (i : ℕ) → i < length result.now → slice_get result.now i ≡ kept_byte self.now (offsets.start + i) }
        ensures end { offsets.start + length result.now ≡ min offsets.end (piece_end self.now.base self.now.pieces offsets.start) }
        ensures within { offsets.start + length result.now ≤ offsets.end }
        ensures some { offsets.start < offsets.end → 0 < length result.now }
        ensures lawful { IsBuffered self.now }
    {
        self.pieces.get(offsets)
    }

    /// Appends the bytes at these offsets, for which there is room. The range is one that `get`
    /// takes: it isn't reversed, and lies from the first offset that is kept up to `offset()`.
    pub fn put(&self, offsets: Range<u64>, out: &mut Vec<u8>)
        requires kept { self.now.base ≤ offsets.start }
        requires ordered { offsets.start ≤ offsets.end }
        requires bounded { offsets.end ≤ written self.now }
        requires room { vec_len out.old + (offsets.end - offsets.start) ≤ vec_capacity out.old }
        ensures items { out.new.items ≡ out.old.items ++ slice_range self.now.kept (offsets.start - self.now.base) (offsets.end - self.now.base) }
        ensures len { vec_len out.new ≡ vec_len out.old + (offsets.end - offsets.start) }
        ensures capacity { vec_capacity out.old ≤ vec_capacity out.new }
        ensures lawful { IsBuffered self.now }
    {
        // The proof reads the invariant here.
        let _ = &self.pieces;
        let mut at = offsets.start;
        while at < offsets.end {
            let bytes = self.pieces.get_joined(at..offsets.end);
            append(out, bytes);
            at += bytes.len() as u64;
        }
    }
}
