//! Messages in a row, with what they take of their buffer.
ghost use Rattle.std.specs.Prelude.{◌≡◌, ◌≤◌, ◌+◌, ◌==◌, [], All, length, nat_le, drop, filter, OnOk, OnErr};
ghost use Rattle.std.specs.Option.{option_copied};
ghost use Rattle.quic_messages.specs.Messages.{at_least, bytes_of, is_within, oldest, with_message};

use bytes::Bytes;
use std::alloc::{AllocError, Global};
use std::collections::VecDeque;
use std::marker::Model;

/// Messages, the oldest first, in a buffer of which each takes its bytes, and `LEAST` at least. No
/// call walks more of them than it drops, but [`drop_longer`](Self::drop_longer), which walks all
/// where one may be longer than its `size`: it drops one then, or one as long was taken out before.
#[derive(Drop)]
pub(crate) struct MessageQueue<const LEAST: usize> {
    messages: VecDeque<Bytes>,
    // How many bytes of the buffer they take together.
    total: usize,
    // None of them has more bytes. The longest has as many behind a walk, until it is taken out.
    longest: usize,
}

impl<const LEAST: usize> Model for MessageQueue<LEAST> {
    ghost use Rattle.std.specs.Prelude.{◌≡◌, ◌≤◌, ℕ, List, All, length};
    ghost use Rattle.quic_messages.specs.Messages.{at_least, bytes_of};

    ghost Value = { List (List ℕ) };

    ghost view = { λ q. q.messages.items };

    ghost invariant = { λ q. (q.total ≡ bytes_of (at_least LEAST) q.messages.items) × All (λ m. length m ≤ q.longest) q.messages.items };
}

/// Whether a message of `len` bytes fits in the room beside `total` bytes.
pub(crate) fn fits(total: usize, len: usize, room: usize) -> bool
    ensures { result ≡ nat_le (total + len) room }
{
    len <= room && total <= room - len
}

impl<const LEAST: usize> MessageQueue<LEAST> {
    /// How many bytes of the buffer a message takes.
    fn size(message: &Bytes) -> usize
        ensures { result ≡ at_least LEAST message.now }
    {
        message.len().max(LEAST)
    }

    /// No messages.
    pub(crate) fn new(alloc: Global) -> Self
        ensures { result ≡ [] }
    {
        MessageQueue {
            messages: VecDeque::new(alloc),
            total: 0,
            longest: 0,
        }
    }

    /// Whether there are none.
    pub(crate) fn is_empty(&self) -> bool
        ensures { result ≡ (length self.now == 0) }
    {
        self.messages.is_empty()
    }

    /// How many bytes of the buffer they take together.
    pub(crate) fn total(&self) -> usize
        ensures { result ≡ bytes_of (at_least LEAST) self.now }
    {
        self.total
    }

    /// The oldest.
    pub(crate) fn oldest(&self) -> Option<&Bytes>
        ensures { option_copied result ≡ oldest self.now }
    {
        self.messages.front()
    }

    /// Takes out the oldest.
    pub(crate) fn pop(&mut self) -> Option<Bytes>
        ensures oldest { result ≡ oldest self.old }
        ensures left { self.new ≡ drop 1 self.old }
    {
        let message = self.messages.pop_front()?;
        self.total -= Self::size(&message);
        Some(message)
    }

    /// Puts a message behind the others, of which the oldest go until it fits in the room beside
    /// those that are left, or none is left.
    ///
    /// # Errors
    ///
    /// - [`AllocError`]: an allocation fails. Nothing changes.
    pub(crate) fn push(&mut self, message: Bytes, room: usize) -> Result<(), AllocError>
        ensures ok { OnOk result (self.new ≡ with_message (at_least LEAST) room message self.old) }
        ensures err { OnErr result (self.new ≡ self.old) }
    {
        self.messages.reserve(1)?;
        self.longest = self.longest.max(message.len());
        let bytes = Self::size(&message);
        while !fits(self.total, bytes, room) {
            let Some(dropped) = self.messages.pop_front() else {
                break;
            };
            self.total -= Self::size(&dropped);
        }
        self.total += bytes;
        self.messages.push_back_reserved(message);
        Ok(())
    }

    /// Drops the messages of more than `size` bytes, in one walk over all where there may be one.
    pub(crate) fn drop_longer(&mut self, size: usize)
        ensures { self.new ≡ filter (is_within size) self.old }
    {
        if self.longest > size {
            self.longest = self.walk_out(size);
        }
    }

    /// Drops the messages of more than `size` bytes, in one walk over all: how many bytes the
    /// longest has of those that stay, 0 where none does.
    fn walk_out(&mut self, size: usize) -> usize
        ensures state { self.new ≡ filter (is_within size) self.old }
        ensures longest { All (λ m. length m ≤ result) self.new }
    {
        let mut longest = 0usize;
        for _ in 0..self.messages.len() {
            let Some(message) = self.messages.pop_front() else {
                break;
            };
            if message.len() <= size {
                longest = longest.max(message.len());
                self.messages.push_back_reserved(message);
            } else {
                self.total -= Self::size(&message);
            }
        }
        longest
    }
}
