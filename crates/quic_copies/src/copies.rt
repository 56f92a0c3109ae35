//! Copies of bytes, of which many share a block of memory.
ghost use Rattle.std.specs.Prelude.{◌≡◌, IfOk};

use bytes::{Bytes, BytesMut};
use std::alloc::{AllocError, Global};
use std::marker::Model;

/// How many bytes a block has at most.
const BLOCK_SIZE: usize = 1024;

/// How often the bytes of a copy its block has at most, so that a copy that is kept holds no more
/// memory than that.
const COPIES_IN_BLOCK: usize = 16;

/// More bytes have memory of their own, as few of them would share a block.
const MOST_SHARED: usize = 256;

/// How many copies in a row have to be too short for a block until it is given up for a smaller
/// one. So short copies between longer ones don't take a new block each time.
const MOST_TOO_SHORT: usize = 16;

/// Copies bytes into blocks of memory, of which copies of 1 to 256 bytes share one: so few
/// allocations are made. A block is kept as long as a copy in it is, has at most 16 times the bytes
/// of each, and is used again where none is left. A copy that is too short for the block has memory
/// of its own, until 16 in a row are.
#[derive(Drop)]
pub struct Copies {
    // What is left of the last block; no byte waits in it.
    block: BytesMut,
    // How many bytes that block had.
    block_size: usize,
    // How many of the latest copies were too short for it.
    too_short: usize,
    alloc: Global,
}

impl Model for Copies {
    ghost use Rattle.std.specs.Prelude.{◌≡◌, []};

    ghost Value = { Unit {0} };

    ghost view = { λ c. tt };

    ghost invariant = { λ c. c.block.items ≡ [] };
}

// Whether so many bytes may share a block with others.
fn is_shared(len: usize) -> bool {
    0 < len && len <= MOST_SHARED
}

// How many bytes the block of a copy of so many has at most: at least so many.
fn most_of_block(len: usize) -> usize {
    if len < BLOCK_SIZE / COPIES_IN_BLOCK {
        len * COPIES_IN_BLOCK
    } else {
        BLOCK_SIZE.max(len)
    }
}

impl Copies {
    /// No block yet: this takes no memory.
    pub fn new(alloc: Global) -> Self {
        Copies {
            block: BytesMut::new(alloc),
            block_size: 0,
            too_short: 0,
            alloc,
        }
    }

    /// A copy of bytes.
    ///
    /// # Errors
    ///
    /// - [`AllocError`]: an allocation fails. No copy is made; earlier copies stay.
    pub fn copy(&mut self, bytes: &[u8]) -> Result<Bytes, AllocError>
        ensures { IfOk result (λ copied. copied ≡ bytes.now) }
    {
        if is_shared(bytes.len()) && !self.is_too_short(bytes.len()) {
            self.copy_into_block(bytes)
        } else {
            Bytes::copy_from_slice(self.alloc, bytes)
        }
    }

    // Whether a copy of so many bytes is too short for the block.
    fn is_too_short(&mut self, len: usize) -> bool {
        if self.block_size <= most_of_block(len) {
            self.too_short = 0;
            return false;
        }
        self.stays_too_short()
    }

    // The same of one for which the block is too large: once many in a row were, the block is given
    // up, so that this one isn't.
    #[inline(never)]
    fn stays_too_short(&mut self) -> bool {
        self.too_short = self.too_short.saturating_add(1);
        if self.too_short < MOST_TOO_SHORT {
            return true;
        }
        self.block = BytesMut::new(self.alloc);
        self.block_size = 0;
        self.too_short = 0;
        false
    }

    // Sees to it that the block has room for so many bytes. An `Err` is want of memory.
    fn make_room(&mut self, len: usize) -> Result<(), AllocError> {
        if len <= self.block.capacity() {
            return Ok(());
        }
        self.renew(len)
    }

    // The block has too little room for so many bytes: it is used again from its beginning where
    // none of its copies is left, and else another begins. An `Err` is want of memory.
    #[inline(never)]
    fn renew(&mut self, len: usize) -> Result<(), AllocError> {
        if self.block.try_reclaim(len) {
            return Ok(());
        }
        let size = most_of_block(len);
        self.block = BytesMut::with_capacity(self.alloc, size)?;
        self.block_size = size;
        Ok(())
    }

    // A copy in a block. An `Err` is want of memory.
    fn copy_into_block(&mut self, bytes: &[u8]) -> Result<Bytes, AllocError>
        ensures { IfOk result (λ copied. copied ≡ bytes.now) }
    {
        self.make_room(bytes.len())?;
        self.block.extend_from_slice(bytes)?;
        let copied = self.block.freeze_to(bytes.len());
        if copied.is_err() {
            self.block.clear();
        }
        copied
    }
}
