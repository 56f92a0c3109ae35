// Pieces of a stream, one behind the other, that stand in one buffer.
ghost use Rattle.std.specs.Prelude.{◌≡◌, ◌+◌, ◌<◌, ◌≤◌, ◌^◌, [], ◌∷◌, length, cond, Some, IfOk, OnErr};
ghost use Rattle.quic_sets.specs.Parts.{after, bytes_of};
ghost use Rattle.quic_send_buffer.specs.KeptBytes.{behind, end_of, start_of, pushed, passed_of};
ghost use Rattle.quic_send_buffer.specs.Stretch.{IsGrown};

use super::run::Run;
use bytes::Bytes;
use std::alloc::{AllocError, Global};
use std::marker::Model;

/// Longer pieces stand in buffers of their own, as what is taken beside their bytes is little then.
const MOST_IN_RUN: usize = 64;

/// Whether a piece of so many bytes may stand in one buffer with others.
pub(crate) fn is_small(len: usize) -> bool {
    len <= MOST_IN_RUN
}

// The bytes of a stretch.
#[derive(Drop)]
enum Store {
    // Those of one piece, which may be shared.
    One(Bytes),
    Many(Run),
}

/// One piece or more, one behind the other.
#[derive(Drop)]
pub(crate) struct Stretch {
    // The offset behind the last.
    end: u64,
    store: Store,
}

impl Model for Stretch {
    ghost use Rattle.std.specs.Prelude.{ℕ, List};
    ghost use Rattle.quic_sets.specs.Parts.{Part};

    ghost Value = { List Part };

    ghost use Rattle.quic_send_buffer.specs.Stretch.{parts_in, IsStretch};

    ghost view = { λ s. parts_in s.end s.store };

    ghost invariant = { λ s. IsStretch s.end s.store };
}

impl Stretch {
    /// One piece that ends at `end`.
    pub(crate) fn one(end: u64, bytes: Bytes) -> Stretch
        requires some { 0 < length bytes }
        requires placed { length bytes ≤ end }
        ensures { result ≡ (end, bytes) ∷ [] }
    {
        Stretch {
            end,
            store: Store::One(bytes),
        }
    }

    /// A run of one piece that ends at `end`.
    pub(crate) fn many(end: u64, run: Run) -> Stretch
        requires some { 0 < length run.bytes }
        requires each { run.each ≡ length run.bytes }
        requires placed { length run.bytes ≤ end }
        ensures { result ≡ (end, run.bytes) ∷ [] }
    {
        Stretch {
            end,
            store: Store::Many(run),
        }
    }

    /// The offset behind the last byte.
    pub(crate) fn end(&self) -> u64
        ensures { result ≡ end_of self.now }
    {
        self.end
    }

    /// All bytes.
    pub(crate) fn bytes(&self) -> &[u8]
        ensures { result.now ≡ bytes_of self.now }
    {
        match &self.store {
            Store::One(bytes) => bytes,
            Store::Many(run) => run.bytes(),
        }
    }

    /// The offset of the first byte.
    pub(crate) fn start(&self) -> u64
        ensures { result ≡ start_of self.now }
    {
        self.end - self.bytes().len() as u64
    }

    /// The first piece that ends behind an offset, and where it ends.
    pub(crate) fn piece(&self, at: u64) -> (u64, &[u8])
        requires { at < end_of self.now }
        ensures { after at self.now ≡ Some (result.0, result.1.now) }
    {
        let bytes = self.bytes();
        match &self.store {
            Store::One(_) => (self.end, bytes),
            Store::Many(run) => {
                let from = passed(self.start(), run.each(), at);
                let to = from + run.each();
                (self.end - (bytes.len() - to) as u64, &bytes[from..to])
            }
        }
    }

    /// Puts one more piece behind the last, if all are as long as it is and there is room for it in
    /// one buffer. Says whether it did.
    ///
    /// # Errors
    ///
    /// - [`AllocError`]: an allocation fails. Nothing changes.
    pub(crate) fn try_push(&mut self, alloc: Global, piece: &[u8]) -> Result<bool, AllocError>
        requires { end_of self.old + length piece.now < 2 ^ 62 }
        ensures ok { IfOk result (λ taken. self.new ≡ cond taken (pushed piece.now self.old) self.old) }
        ensures err { OnErr result (self.new ≡ self.old) }
    {
        let end = self.end + piece.len() as u64;
        let taken = push_into(&mut self.store, alloc, piece)?;
        if taken {
            self.end = end;
        }
        Ok(taken)
    }

    /// Drops the pieces that end up to an offset, of which the last isn't one.
    pub(crate) fn release(&mut self, up_to: u64)
        requires { up_to < end_of self.old }
        ensures { self.new ≡ behind up_to self.old }
    {
        let start = self.start();
        let Store::Many(run) = &mut self.store else {
            return;
        };
        let count = passed(start, run.each(), up_to);
        run.pass(count);
    }
}

// Puts a piece behind the others, if all are as long as it is, and there is room for it in one
// buffer; says whether it did. An `Err` changes nothing.
fn push_into(store: &mut Store, alloc: Global, piece: &[u8]) -> Result<bool, AllocError>
    ensures ok { IfOk result (λ taken. cond taken (IsGrown piece.now store.old store.new) (store.new ≡ store.old)) }
    ensures err { OnErr result (store.new ≡ store.old) }
{
    let len = piece.len();
    match store {
        Store::One(first) => {
            if first.len() != len {
                return Ok(false);
            }
            let mut run = Run::of(alloc, first)?;
            run.push(piece)?;
            *store = Store::Many(run);
        }
        Store::Many(run) => {
            if run.each() != len || !run.has_room(len) {
                return Ok(false);
            }
            run.push(piece)?;
        }
    }
    Ok(true)
}

// How many bytes pieces of length `each`, from the offset `start` on, have that end up to an
// offset.
fn passed(start: u64, each: usize, up_to: u64) -> usize
    requires { 0 < each }
    ensures { result ≡ passed_of start each up_to }
{
    let below = up_to.saturating_sub(start) as usize;
    below - below % each
}
