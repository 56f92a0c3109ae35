// Small pieces of one length, whose bytes lie one behind the other in one buffer.
ghost use Rattle.std.specs.Prelude.{◌≡◌, ◌≤◌, ◌++◌, length, drop, IfOk, OnOk, OnErr};

use std::alloc::{AllocError, Global};
use std::marker::Model;

/// How many bytes a buffer has at most: so many that little is taken beside them, and so few that
/// those which aren't kept any more, and go with the last, are little too.
const RUN_SIZE: usize = 1024;

/// Pieces of one length, so many that each takes little more memory than its bytes.
#[derive(Drop)]
pub(crate) struct Run {
    bytes: Vec<u8>,
    // How many bytes a piece has.
    each: usize,
    // How many bytes in front aren't kept any more.
    gone: usize,
}

impl Model for Run {
    ghost use Rattle.std.specs.Prelude.{◌≤◌, length, drop};
    ghost use Rattle.quic_send_buffer.specs.KeptBytes.{RunOf};

    ghost Value = { RunOf };

    ghost view = { λ r. record { each = r.each; bytes = drop r.gone r.bytes.items } };

    ghost invariant = { λ r. r.gone ≤ length r.bytes.items };
}

impl Run {
    /// One piece, with which a run begins.
    ///
    /// # Errors
    ///
    /// - [`AllocError`]: an allocation fails.
    pub(crate) fn of(alloc: Global, piece: &[u8]) -> Result<Run, AllocError>
        ensures { IfOk result (λ r. r ≡ record { each = length piece.now; bytes = piece.now }) }
    {
        let mut bytes = Vec::with_capacity(alloc, piece.len())?;
        bytes.extend_from_slice(piece)?;
        Ok(Run {
            bytes,
            each: piece.len(),
            gone: 0,
        })
    }

    /// How many bytes a piece has.
    pub(crate) fn each(&self) -> usize
        ensures { result ≡ self.now.each }
    {
        self.each
    }

    /// The bytes that are kept.
    pub(crate) fn bytes(&self) -> &[u8]
        ensures { result.now ≡ self.now.bytes }
    {
        &self.bytes[self.gone..]
    }

    /// Whether there is room for so many bytes more.
    pub(crate) fn has_room(&self, len: usize) -> bool {
        len <= RUN_SIZE.saturating_sub(self.bytes.len())
    }

    /// Puts a piece behind the others.
    ///
    /// # Errors
    ///
    /// - [`AllocError`]: an allocation fails. Nothing changes.
    pub(crate) fn push(&mut self, piece: &[u8]) -> Result<(), AllocError>
        ensures ok { OnOk result (self.new ≡ record self.old { bytes = self.old.bytes ++ piece.now }) }
        ensures err { OnErr result (self.new ≡ self.old) }
    {
        self.bytes.extend_from_slice(piece)
    }

    /// Lets go of so many bytes in front.
    pub(crate) fn pass(&mut self, count: usize)
        requires { count ≤ length self.old.bytes }
        ensures { self.new ≡ record self.old { bytes = drop count self.old.bytes } }
    {
        self.gone += count;
    }
}
