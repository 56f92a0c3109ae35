//! What a write takes its bytes from.
ghost use Rattle.std.specs.Prelude.{◌≡◌, ℕ, ◌+◌, ◌==◌, ◌≤◌, List, [], length, take, drop};
ghost use Rattle.quic_send_buffer.specs.Source.{one_buffer, without_front, FitsFront, HasFront, IsBehind, next_piece, left_behind};

use bytes::Bytes;
use std::marker::Model;

/// Bytes that lie in buffers, and are taken from the front piece by piece (quinn-proto's
/// `BytesSource`).
pub trait BytesSource<'a> {
    ghost use Rattle.std.specs.Prelude.{ℕ, List};

    ghost buffers: { Self → List (List ℕ) };

    /// Takes the next piece, which lies in one buffer: the first that has bytes left gives at most
    /// `limit` of them. Says too how many buffers that used up; those without bytes count as well.
    fn pop_chunk(&mut self, limit: usize) -> (&'a [u8], usize)
        ensures piece { result.0.now ≡ next_piece (buffers self.old) limit }
        ensures rest { buffers self.new ≡ left_behind (buffers self.old) limit }
        ensures used_up { result.1 + length (buffers self.new) ≡ length (buffers self.old) };
}

/// The bytes of one slice (quinn-proto's `ByteSlice`).
#[derive(Drop)]
pub struct ByteSlice<'a> {
    data: &'a [u8],
}

impl<'a> Model for ByteSlice<'a> {
    ghost use Rattle.std.specs.Prelude.{ℕ, List};

    ghost Value = { List ℕ };

    ghost view = { λ s. s.data.now };
}

impl<'a> ByteSlice<'a> {
    /// All bytes of a slice.
    pub fn from_slice(bytes: &'a [u8]) -> Self
        ensures { result ≡ bytes.now }
    {
        ByteSlice { data: bytes }
    }

    // Takes the first bytes.
    fn take_front(&mut self, limit: usize) -> &'a [u8]
        ensures piece { result.now ≡ take limit self.old }
        ensures rest { self.new ≡ drop limit self.old }
    {
        let (piece, rest) = self.data.split_at(limit.min(self.data.len()));
        self.data = rest;
        piece
    }

    // Whether no byte is left.
    fn is_empty(&self) -> bool
        ensures { result ≡ (length self.now == 0) }
    {
        self.data.is_empty()
    }
}

impl<'a> BytesSource<'a> for ByteSlice<'a> {
    ghost buffers = { one_buffer };

    fn pop_chunk(&mut self, limit: usize) -> (&'a [u8], usize) {
        let was_empty = self.is_empty();
        let piece = self.take_front(limit);
        let used_up = if !was_empty && self.is_empty() { 1 } else { 0 };
        (piece, used_up)
    }
}

/// The bytes of several buffers (quinn-proto's `BytesArray`).
#[derive(Drop)]
pub struct BytesArray<'a> {
    chunks: &'a [Bytes],
    // How many bytes of the first are taken.
    taken: usize,
}

impl<'a> Model for BytesArray<'a> {
    ghost use Rattle.std.specs.Prelude.{ℕ, List};
    ghost use Rattle.quic_send_buffer.specs.Source.{without_front, FitsFront};

    ghost Value = { List (List ℕ) };

    ghost view = { λ s. without_front s.taken s.chunks.now };

    ghost invariant = { λ s. FitsFront s.taken s.chunks.now };
}

impl<'a> BytesArray<'a> {
    /// All bytes of some buffers.
    pub fn from_chunks(chunks: &'a [Bytes]) -> Self
        ensures { result ≡ chunks.now }
    {
        BytesArray { chunks, taken: 0 }
    }
}

// The buffers from the first one on that has bytes left, and how many bytes of it are taken.
fn skip_empty(chunks: &[Bytes], taken: usize) -> (&[Bytes], usize)
    requires { FitsFront taken chunks.now }
    ensures fits { FitsFront result.1 result.0.now }
    ensures filled { HasFront (without_front result.1 result.0.now) }
    ensures same { IsBehind (without_front taken chunks.now) (without_front result.1 result.0.now) }
    ensures fewer { length result.0.now ≤ length chunks.now }
{
    let mut rest = chunks;
    let mut used = taken;
    while let Some((first, others)) = rest.split_first() {
        if used < first.len() {
            break;
        }
        rest = others;
        used = 0;
    }
    (rest, used)
}

impl<'a> BytesArray<'a> {
    // How many buffers are left.
    fn len(&self) -> usize
        ensures { result ≡ length self.now }
    {
        self.chunks.len()
    }

    // Passes the buffers that have no bytes left.
    fn skip_empty(&mut self)
        ensures filled { HasFront self.new }
        ensures same { IsBehind self.old self.new }
        ensures fewer { length self.new ≤ length self.old }
    {
        let (chunks, taken) = skip_empty(self.chunks, self.taken);
        self.chunks = chunks;
        self.taken = taken;
    }

    // Takes the first bytes of the first buffer.
    fn take_front(&mut self, limit: usize) -> &'a [u8]
        requires { HasFront self.old }
        ensures piece { result.now ≡ next_piece self.old limit }
        ensures rest { self.new ≡ left_behind self.old limit }
        ensures fewer { length self.new ≤ length self.old }
    {
        let Some((first, rest)) = self.chunks.split_first() else {
            return &[];
        };
        let bytes = &first.as_slice()[self.taken..];
        if limit < bytes.len() {
            self.taken += limit;
            return &bytes[..limit];
        }
        self.chunks = rest;
        self.taken = 0;
        bytes
    }
}

impl<'a> BytesSource<'a> for BytesArray<'a> {
    ghost buffers = { λ left. left };

    fn pop_chunk(&mut self, limit: usize) -> (&'a [u8], usize) {
        let before = self.len();
        self.skip_empty();
        let piece = self.take_front(limit);
        (piece, before - self.len())
    }
}
