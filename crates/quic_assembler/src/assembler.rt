// What has arrived of a stream and is not read yet, in parts.
ghost use Rattle.std.specs.Prelude.{◌≡◌, ℕ, ◌+◌, ◌<◌, ◌≤◌, ◌^◌, ◌&&◌, ◌⊎◌, length, [], IfOk, IsOk, OnOk, OnErr, is_err, is_some, true, false};
ghost use Rattle.quic_assembler.specs.Arrived.{IsLawful, byte_at, bytes_read_of, runs_of, is_crowded, after_insert, is_next_in, given_in, given_by, after_read_in, after_read, after_ordering, cuts};
ghost use Rattle.quic_sets.specs.Runs.{Has, Drops};
ghost use Rattle.quic_assembler.specs.Waiting.{BringsNew, IsInserted, IsRead, IsLeft};

mod part_map;
mod parts;

use bytes::Bytes;
use parts::Parts;
use quic_copies::Copies;
use quic_sets::{OffsetSet, spans};
use std::alloc::{AllocError, Global};
use std::collections::BTreeMap;
use std::marker::Model;
use thiserror::Error;

/// How many runs of a stream may wait however small its window is; a wide one lets more wait. The
/// assembler itself takes any number, and tells it by [`Assembler::runs`]; who calls it refuses
/// more than may wait behind the insert, so that a peer can't make it keep many small ones (RFC
/// 9000, 21.7, which names no number). What unordered reads gave is kept as runs too, and isn't
/// counted here.
pub const MOST_PIECES: usize = 2048;

/// Bytes of a stream, with the offset of the first, as quinn-proto's `Chunk`.
#[derive(Debug, Drop)]
pub struct Chunk {
    /// The offset in the stream of the first byte.
    pub offset: u64,
    /// The bytes.
    pub bytes: Bytes,
}

/// An ordered read of a stream of which an unordered read was made, as quinn-proto's
/// `IllegalOrderedRead`.
#[derive(Clone, Copy, Debug, PartialEq, Eq, Error)]
#[error("ordered read after unordered read")]
pub struct IllegalOrderedRead;

/// What has arrived of a stream and is not read yet (RFC 9000, 2.2), as quinn-proto's `Assembler`.
///
/// Offsets wait with their bytes, in parts that do not overlap. Of bytes that come twice the
/// first stand. The byte at an offset is given once.
#[derive(Drop)]
pub struct Assembler {
    parts: Parts,
    // The offset up to which ordered reads have come.
    read: u64,
    // Whether an unordered read was made.
    unordered: bool,
    // The offsets that unordered reads gave.
    picked: BTreeMap<u64, u64>,
    // Offsets from `read` on that are known to have arrived: they wait, or were picked. An insert
    // skips them a run at a time, and needn't look each part up. Those lack that came while nothing
    // waited, or where the last part ended: most come in order, and noting them would be for
    // nothing. Some lack where memory did, or once parts were cleared. That costs time, and nothing
    // else.
    arrived: OffsetSet,
    // The number of bytes that were read, kept so that none has to be counted.
    total: u64,
}

impl Model for Assembler {
    ghost use Rattle.quic_assembler.specs.Arrived.{Arrived};

    ghost Value = { Arrived };

    ghost use Rattle.quic_assembler.specs.Inside.{Arranged};

    ghost view = { λ a. record { read = a.read; unordered = a.unordered; picked = a.picked.entries; parts = a.parts } };

    ghost invariant = { Arranged };
}

// Notes the offsets of a range as arrived, if parts waited apart from it before it came. Without
// memory for it, later inserts are as right.
fn note(arrived: &mut OffsetSet, apart: bool, start: u64, end: u64)
    requires { end < 2 ^ 62 }
    ensures { (o : ℕ) → Has arrived.new o → (Has arrived.old o ⊎ ((start ≤ o) × (o < end))) }
{
    if apart {
        let _ = arrived.insert(start..end);
    }
}

// Takes out the offsets below one. This costs nothing where none are noted.
fn forget(arrived: &mut OffsetSet, end: u64)
    ensures { Drops arrived.old arrived.new 0 end }
{
    if !arrived.is_empty() {
        arrived.remove_first(0..end);
    }
}

impl Assembler {
    /// Nothing has arrived, and nothing is read.
    pub fn new(alloc: Global) -> Self
        ensures value { result ≡ record { read = 0; unordered = false; picked = []; parts = [] } }
        ensures lawful { IsLawful result }
    {
        Assembler {
            parts: Parts::new(alloc),
            read: 0,
            unordered: false,
            picked: BTreeMap::new(alloc),
            arrived: OffsetSet::new(alloc),
            total: 0,
        }
    }

    /// The number of bytes that were read (quinn-proto's `Assembler::bytes_read`). While no read
    /// was unordered, it is the offset up to which they have come.
    pub fn bytes_read(&self) -> u64
        ensures value { result ≡ bytes_read_of self.now }
        ensures small { result ≤ 2 ^ 62 }
        ensures lawful { IsLawful self.now }
    {
        // The proof reads the invariant here.
        let _ = &self.parts;
        self.total
    }

    /// The number of maximal runs of offsets that wait. Parts that touch are one run.
    pub fn runs(&self) -> usize
        ensures value { result ≡ runs_of self.now.parts }
        ensures lawful { IsLawful self.now }
    {
        self.parts.runs()
    }

    /// Whether an unordered read was made.
    pub fn is_unordered(&self) -> bool
        ensures value { result ≡ self.now.unordered }
        ensures lawful { IsLawful self.now }
    {
        self.unordered
    }

    // Whether a byte waits that an ordered read gives.
    fn has_next_ordered(&self) -> bool
        ensures next { result ≡ is_next_in false self.now }
        ensures byte { result ≡ is_some (byte_at self.now.parts self.now.read) }
    {
        self.parts.starts_at(self.read)
    }

    // Whether a byte waits that an unordered read gives.
    fn has_any(&self) -> bool
        ensures { result ≡ is_next_in true self.now }
    {
        self.parts.is_some()
    }

    /// Whether a byte waits that the next read may give.
    pub fn has_next(&self) -> bool
        ensures next { result ≡ is_next_in self.now.unordered self.now }
        ensures byte { self.now.unordered ≡ false → result ≡ is_some (byte_at self.now.parts self.now.read) }
        ensures lawful { IsLawful self.now }
    {
        if self.is_unordered() {
            self.has_any()
        } else {
            self.has_next_ordered()
        }
    }

    /// Begins a read: after an unordered one all are unordered (quinn-proto's
    /// `Assembler::ensure_ordering`).
    ///
    /// # Errors
    ///
    /// - [`IllegalOrderedRead`]: the read is ordered, and came after an unordered one. Nothing
    ///   changes.
    pub fn ensure_ordering(&mut self, ordered: bool) -> Result<(), IllegalOrderedRead>
        ensures refused { is_err result ≡ (ordered && self.old.unordered) }
        ensures new { self.new ≡ after_ordering self.old ordered }
        ensures err { OnErr result (self.new ≡ self.old) }
        ensures lawful { IsLawful self.new }
    {
        if !ordered {
            self.unordered = true;
            return Ok(());
        }
        if self.unordered {
            Err(IllegalOrderedRead)
        } else {
            Ok(())
        }
    }

    /// Puts in bytes that came at an offset (RFC 9000, 19.8): those that were not read and do not
    /// wait yet. They end at 2^62 - 1 at most. Parts that touch are joined where there are more
    /// than 2048, more than two for each run, and no fewer than one for each 64 bytes that wait. So
    /// joining copies no more than 128 bytes for each part that goes, each byte once. The one
    /// insert that joins looks each part up, and holds both maps until it ends. Each other takes a
    /// few look-ups for each gap that it fills: what has arrived is skipped a run at a time, in
    /// however many parts it waits or was given. Bytes behind all that wait need only the last part
    /// looked up, where no unordered read gave any. A range that comes while nothing waits, or
    /// where the last part ends, isn't noted as arrived: the next insert that has offsets of it
    /// while something waits looks up each part and each run that was given there, and notes its
    /// own range. Bytes behind all that wait are copied by `copies`, where copies of many streams
    /// may share memory. quinn-proto's `Assembler::insert`.
    ///
    /// # Errors
    ///
    /// - [`AllocError`]: an allocation fails, where a byte is new or segments are to be joined.
    ///   Nothing changes.
    pub fn insert(
        &mut self,
        offset: u64,
        bytes: &[u8],
        copies: &mut Copies,
    ) -> Result<(), AllocError>
        requires { offset + length bytes.now < 2 ^ 62 }
        ensures ok { OnOk result (self.new ≡ after_insert self.old offset bytes.now) }
        ensures inserted { OnOk result (IsInserted self.old offset bytes.now self.new) }
        ensures err { OnErr result (self.new ≡ self.old) }
        ensures lacking { OnErr result (BringsNew self.old offset bytes.now ⊎ (is_crowded self.old.parts ≡ true)) }
        ensures lawful { IsLawful self.new }
    {
        let known = self.read.saturating_sub(offset).min(bytes.len() as u64);
        let at = offset + known;
        let apart = self.parts.wait_apart(at);
        let new = &bytes[known as usize..];
        self.parts
            .insert(&self.picked, &self.arrived, at, new, copies)?;
        note(&mut self.arrived, apart, at, offset + bytes.len() as u64);
        Ok(())
    }

    // An ordered read.
    fn read_next(&mut self, max: usize) -> Result<Option<Chunk>, AllocError>
        requires { self.old.unordered ≡ false }
        ensures lawful { IsLawful self.old }
        ensures ok { IfOk result (λ chunk. chunk ≡ given_in false self.old max) }
        ensures new { OnOk result (self.new ≡ after_read_in false self.old max) }
        ensures err { OnErr result (self.new ≡ self.old) }
        ensures whole { cuts self.old.parts self.old.read max ≡ false → IsOk result }
    {
        let offset = self.read;
        match self.parts.take_front(offset, max)? {
            Some(bytes) => {
                let len = bytes.len() as u64;
                self.read += len;
                self.total += len;
                forget(&mut self.arrived, self.read);
                Ok(Some(Chunk { offset, bytes }))
            }
            None => Ok(None),
        }
    }

    // An unordered read. The bytes are cut off only once they count as given.
    fn read_any(&mut self, max: usize) -> Result<Option<Chunk>, AllocError>
        requires { self.old.unordered ≡ true }
        ensures lawful { IsLawful self.old }
        ensures ok { IfOk result (λ chunk. chunk ≡ given_in true self.old max) }
        ensures new { OnOk result (self.new ≡ after_read_in true self.old max) }
        ensures err { OnErr result (self.new ≡ self.old) }
        ensures some { OnErr result (is_next_in true self.old ≡ true) }
        ensures asked { OnErr result (0 < max) }
    {
        match self.parts.front(max)? {
            Some(chunk) => {
                let len = chunk.bytes.len() as u64;
                spans::add(&mut self.picked, chunk.offset, len)?;
                self.parts.skip_front(max);
                self.total += len;
                Ok(Some(chunk))
            }
            None => Ok(None),
        }
    }

    /// Gives bytes that wait, at most `max` of them: an ordered read those where the stream is
    /// read next, an unordered one those at the least offset. `None` where there is no such byte.
    ///
    /// A chunk ends where a part ends, and is cut without a copy. With a `max` of 0 it is empty
    /// where there is such a byte.
    ///
    /// # Errors
    ///
    /// - [`AllocError`]: an allocation fails: in an ordered read only where it cuts a segment, in
    ///   an unordered one only where a byte waits, and in none with a `max` of 0. Nothing changes.
    pub fn read(&mut self, max: usize) -> Result<Option<Chunk>, AllocError>
        ensures ok { IfOk result (λ chunk. chunk ≡ given_by self.old max) }
        ensures new { OnOk result (self.new ≡ after_read self.old max) }
        ensures err { OnErr result (self.new ≡ self.old) }
        ensures chunk { IfOk result (λ chunk. IsRead self.old max chunk) }
        ensures taken { IfOk result (λ chunk. IsLeft self.old chunk self.new) }
        ensures whole { self.old.unordered ≡ false → cuts self.old.parts self.old.read max ≡ false → IsOk result }
        ensures some { self.old.unordered ≡ true → OnErr result (is_next_in true self.old ≡ true) }
        ensures asked { OnErr result (0 < max) }
        ensures lawful { IsLawful self.new }
    {
        if self.is_unordered() {
            self.read_any(max)
        } else {
            self.read_next(max)
        }
    }

    /// Drops what waits (quinn-proto's `Assembler::clear`).
    pub fn clear(&mut self)
        ensures value { self.new ≡ record self.old { parts = [] } }
        ensures lawful { IsLawful self.new }
    {
        self.parts.clear();
        self.arrived.clear();
    }
}
