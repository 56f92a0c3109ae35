// The bytes of a stream that are kept, in the pieces that they were written in.
ghost use Rattle.std.specs.Prelude.{◌≡◌, ◌+◌, ◌-◌, ◌<◌, ◌≤◌, ◌^◌, [], ◌∷◌, ◌++◌, length, take, min, slice_range, IfOk, OnOk, OnErr};
ghost use Rattle.quic_send_buffer.specs.Buffered.{piece_end};
ghost use Rattle.quic_send_buffer.specs.Source.{bytes_of, cut_to};
ghost use Rattle.quic_send_buffer.specs.KeptBytes.{IsPut, ArePut, alone, end_of, last_of, first_behind, ending_behind, with_piece, with_each, released_to, parts_from};

use super::row::Row;
use super::stretch::is_small;
use bytes::Bytes;
use std::alloc::{AllocError, Global};
use std::marker::Model;
use std::ops::Range;

/// Bytes of a stream from one offset up to another, in pieces. No byte of a large piece is moved
/// while it is kept; small ones of one length share a buffer, which grows.
#[derive(Drop)]
pub(crate) struct Pieces {
    // Stretches of pieces. A queue, as pieces come behind the last and go in front alone, which
    // costs little there; since the offsets rise, halving finds one by its offset. A short stream
    // has one stretch, and a row no memory of its own for that.
    queue: Row,
    // The offset of the first byte, and the one behind the last.
    base: u64,
    end: u64,
    alloc: Global,
}

impl Model for Pieces {
    ghost use Rattle.std.specs.Prelude.{◌<◌, ◌^◌};
    ghost use Rattle.quic_send_buffer.specs.KeptBytes.{KeptBytes, AreInTurn, HavePieces, lengths_of, pieces_of};
    ghost use Rattle.quic_sets.specs.Parts.{bytes_of};

    ghost Value = { KeptBytes };

    ghost view = { λ p. record { base = p.base; bytes = bytes_of (pieces_of p.queue); lengths = lengths_of (pieces_of p.queue) } };

    ghost invariant = { λ p. AreInTurn p.base (pieces_of p.queue) p.end × HavePieces p.queue × (p.end < 2 ^ 62) };
}

// The bytes at these offsets of bytes that end at `end` and have the first of them.
fn cut(end: u64, bytes: &[u8], offsets: Range<u64>) -> &[u8]
    requires placed { length bytes.now ≤ end }
    requires begun { end - length bytes.now ≤ offsets.start }
    requires above { offsets.start < end }
    requires ordered { offsets.start ≤ offsets.end }
    ensures bytes { result.now ≡ slice_range bytes.now (offsets.start - (end - length bytes.now)) (min offsets.end end - (end - length bytes.now)) }
    ensures len { offsets.start + length result.now ≡ min offsets.end end }
{
    let start = end - bytes.len() as u64;
    let from = (offsets.start - start) as usize;
    let to = (offsets.end.min(end) - start) as usize;
    &bytes[from..to]
}

// Takes off the first pieces that end up to an offset: whole stretches, and then the beginning of
// one.
fn drop_up_to(stretches: &mut Row, up_to: u64)
    ensures { stretches.new ≡ first_behind up_to (ending_behind up_to stretches.old) }
{
    while stretches.is_past(up_to) {
        stretches.drop_front();
    }
    stretches.release_first(up_to);
}

// Puts the first bytes of a chunk, if there are any, behind pieces, from the offset `end` on. An
// `Err` changes nothing.
fn put_front(stretches: &mut Row, end: u64, chunk: &Bytes, len: usize) -> Result<(), AllocError>
    requires within { len ≤ length chunk.now }
    requires small { end + len < 2 ^ 62 }
    ensures ok { OnOk result (stretches.new ≡ stretches.old ++ alone (parts_from end (take len chunk.now ∷ []))) }
    ensures err { OnErr result (stretches.new ≡ stretches.old) }
    ensures lacking { OnErr result (0 < len) }
{
    if len == 0 {
        return Ok(());
    }
    let piece = chunk.slice(..len)?;
    stretches.push_back(end + len as u64, piece)
}

// Puts bytes behind pieces, from the offset `end` on, as one piece. An `Err` changes nothing.
fn put_copy(stretches: &mut Row, alloc: Global, end: u64, bytes: &[u8]) -> Result<(), AllocError>
    requires some { 0 < length bytes.now }
    requires small { end + length bytes.now < 2 ^ 62 }
    requires last { end_of (last_of stretches.old) ≤ end }
    ensures ok { OnOk result (IsPut bytes.now end stretches.old stretches.new) }
    ensures err { OnErr result (stretches.new ≡ stretches.old) }
{
    if is_small(bytes.len()) && stretches.push_small(alloc, end, bytes)? {
        return Ok(());
    }
    let piece = Bytes::copy_from_slice(alloc, bytes)?;
    stretches.push_back(end + bytes.len() as u64, piece)
}

// Puts the first `len` bytes of a chunk, if there are any, behind pieces, from the offset `end` on,
// as one piece, and says where it ends. It shares the chunk's bytes, unless it goes into a run: so
// many small writes don't keep a buffer each. An `Err` changes nothing.
fn put_one(
    stretches: &mut Row,
    alloc: Global,
    end: u64,
    chunk: &Bytes,
    len: usize,
) -> Result<u64, AllocError>
    requires small { end + len < 2 ^ 62 }
    requires last { end_of (last_of stretches.old) ≤ end }
    ensures end { IfOk result (λ last. last ≡ end + length (take len chunk.now)) }
    ensures ok { OnOk result (IsPut (take len chunk.now) end stretches.old stretches.new) }
    ensures err { OnErr result (stretches.new ≡ stretches.old) }
    ensures lacking { OnErr result (0 < len) }
{
    let taken = len.min(chunk.len());
    if taken == 0 {
        return Ok(end);
    }
    let last = end + taken as u64;
    if is_small(taken) && stretches.push_small(alloc, end, &chunk[..taken])? {
        return Ok(last);
    }
    let piece = chunk.slice(..taken)?;
    if stretches.is_empty() {
        stretches.put_first(last, piece);
    } else {
        stretches.push_back(last, piece)?;
    }
    Ok(last)
}

// Puts the first `len` bytes of chunks behind pieces, from the offset `end` on, each chunk as a
// piece, and says where the last ends then. An `Err` changes nothing.
fn put_each(stretches: &mut Row, end: u64, chunks: &[Bytes], len: usize) -> Result<u64, AllocError>
    requires small { end + len < 2 ^ 62 }
    ensures end { IfOk result (λ last. last ≡ end + bytes_of (cut_to len chunks.now)) }
    ensures ok { OnOk result (stretches.new ≡ stretches.old ++ alone (parts_from end (cut_to len chunks.now))) }
    ensures err { OnErr result (stretches.new ≡ stretches.old) }
    ensures lacking { OnErr result (0 < len) }
{
    let kept = stretches.len();
    let (mut rest, mut at, mut left) = (chunks, end, len);
    while let Some((chunk, others)) = rest.split_first() {
        let taken = left.min(chunk.len());
        if put_front(stretches, at, chunk, taken).is_err() {
            stretches.truncate(kept);
            return Err(AllocError);
        }
        at += taken as u64;
        left -= taken;
        rest = others;
    }
    Ok(at)
}

// Puts the first `len` bytes of chunks behind pieces, from the offset `end` on, each chunk as a
// piece, and says where the last ends then. One alone may go into a run, but of several, which may
// have to be taken off again, each stands by itself. An `Err` changes nothing.
fn put_all(
    stretches: &mut Row,
    alloc: Global,
    end: u64,
    chunks: &[Bytes],
    len: usize,
) -> Result<u64, AllocError>
    requires small { end + len < 2 ^ 62 }
    requires last { end_of (last_of stretches.old) ≤ end }
    ensures end { IfOk result (λ last. last ≡ end + bytes_of (cut_to len chunks.now)) }
    ensures ok { OnOk result (ArePut (cut_to len chunks.now) end stretches.old stretches.new) }
    ensures err { OnErr result (stretches.new ≡ stretches.old) }
    ensures lacking { OnErr result (0 < len) }
{
    if let [chunk] = chunks {
        return put_one(stretches, alloc, end, chunk, len);
    }
    put_each(stretches, end, chunks, len)
}

impl Pieces {
    /// Nothing is kept, and the first byte comes at offset 0.
    pub(crate) fn new(alloc: Global) -> Self
        ensures { result ≡ record { base = 0; bytes = []; lengths = [] } }
    {
        Pieces {
            queue: Row::new(alloc),
            base: 0,
            end: 0,
            alloc,
        }
    }

    /// The offset behind the last byte.
    pub(crate) fn end(&self) -> u64
        ensures value { result ≡ self.now.base + length self.now.bytes }
        ensures small { result < 2 ^ 62 }
    {
        self.end
    }

    /// How many bytes are kept.
    pub(crate) fn len(&self) -> usize
        ensures { result ≡ length self.now.bytes }
    {
        (self.end - self.base) as usize
    }

    /// Puts bytes behind the others, as one piece, if there are any.
    ///
    /// # Errors
    ///
    /// - [`AllocError`]: an allocation fails. Nothing changes.
    pub(crate) fn push(&mut self, bytes: &[u8]) -> Result<(), AllocError>
        requires { self.old.base + length self.old.bytes + length bytes.now < 2 ^ 62 }
        ensures ok { OnOk result (self.new ≡ with_piece bytes.now self.old) }
        ensures err { OnErr result (self.new ≡ self.old) }
        ensures lacking { OnErr result (0 < length bytes.now) }
    {
        if bytes.is_empty() {
            return Ok(());
        }
        let end = self.end() + bytes.len() as u64;
        put_copy(&mut self.queue, self.alloc, self.end, bytes)?;
        self.end = end;
        Ok(())
    }

    /// Puts the first `len` bytes of chunks behind the others, each chunk as one piece, if it has
    /// any of them. A piece shares its chunk's bytes; a small one of a single chunk may be copied.
    ///
    /// # Errors
    ///
    /// - [`AllocError`]: an allocation fails. Nothing changes.
    pub(crate) fn push_all(&mut self, chunks: &[Bytes], len: usize) -> Result<(), AllocError>
        requires { self.old.base + length self.old.bytes + len < 2 ^ 62 }
        ensures ok { OnOk result (self.new ≡ with_each (cut_to len chunks.now) self.old) }
        ensures err { OnErr result (self.new ≡ self.old) }
        ensures lacking { OnErr result (0 < len) }
    {
        self.end = put_all(&mut self.queue, self.alloc, self.end, chunks, len)?;
        Ok(())
    }

    /// Drops the pieces that end up to an offset.
    pub(crate) fn release(&mut self, up_to: u64)
        ensures { self.new ≡ released_to up_to self.old }
    {
        drop_up_to(&mut self.queue, up_to);
        self.base = self.queue.start(self.end);
    }

    /// The bytes at these offsets from the first on, up to the last or the end of the piece that
    /// has the first.
    pub(crate) fn get(&self, offsets: Range<u64>) -> &[u8]
        requires kept { self.now.base ≤ offsets.start }
        requires ordered { offsets.start ≤ offsets.end }
        requires bounded { offsets.end ≤ self.now.base + length self.now.bytes }
        ensures bytes { result.now ≡ slice_range self.now.bytes (offsets.start - self.now.base) (offsets.start + length result.now - self.now.base) }
        ensures end { offsets.start + length result.now ≡ min offsets.end (piece_end self.now.base self.now.lengths offsets.start) }
        ensures within { offsets.start + length result.now ≤ offsets.end }
        ensures some { offsets.start < offsets.end → 0 < length result.now }
    {
        // The proof reads the invariant here.
        let _kept = self.end();
        match self.queue.piece(offsets.start) {
            Some((end, piece)) => cut(end, piece, offsets),
            None => &[],
        }
    }

    /// The bytes at these offsets from the first on, as many as stand in one buffer.
    pub(crate) fn get_joined(&self, offsets: Range<u64>) -> &[u8]
        requires kept { self.now.base ≤ offsets.start }
        requires ordered { offsets.start ≤ offsets.end }
        requires bounded { offsets.end ≤ self.now.base + length self.now.bytes }
        ensures bytes { result.now ≡ slice_range self.now.bytes (offsets.start - self.now.base) (offsets.start + length result.now - self.now.base) }
        ensures within { offsets.start + length result.now ≤ offsets.end }
        ensures some { offsets.start < offsets.end → 0 < length result.now }
    {
        // The proof reads the invariant here.
        let _kept = self.end();
        match self.queue.joined(offsets.start) {
            Some((end, bytes)) => cut(end, bytes, offsets),
            None => &[],
        }
    }
}
