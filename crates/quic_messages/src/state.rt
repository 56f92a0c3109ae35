//! The messages of an end.
ghost use Rattle.std.specs.Prelude.{◌≡◌, ◌≢◌, nat_le, ◌<◌, ◌≤◌, ◌-◌, ◌^◌, length, Ok, Err, true, is_some, IfSome};
ghost use Rattle.quic_wire.specs.Value.{datagram};
ghost use Rattle.quic_wire.specs.Writing.{Fits};
ghost use Rattle.quic_messages.specs.declared.errors.ReceivedError.TheVariants as received_errors;
ghost use Rattle.quic_messages.specs.declared.errors.SendDatagramError.TheVariants as send_errors;
ghost use Rattle.quic_messages.specs.Messages.{no_messages, bytes_of, is_taken, received_answer, after_received, oldest, after_recv, frame_bytes, fitting, after_fitting, without_longer};
ghost use Rattle.quic_messages.specs.Sending.{send_answer, after_send};

use crate::errors::{ReceivedError, SendDatagramError};
use crate::limits::DatagramLimits;
use crate::message_queue::{MessageQueue, fits};
use bytes::Bytes;
use quic_copies::Copies;
use quic_wire_core::VarInt;
use quic_wire_core::reserved::varint_size;
use std::alloc::Global;
use std::marker::Model;

/// The messages of an end that came and weren't read, and those that wait to be sent, each in the
/// order in which they came (quinn-proto's `DatagramState`). A call takes constant time, amortized,
/// beside that for the message and for those that it drops; only
/// [`drop_oversized`](Self::drop_oversized) walks all that wait, where one of them may be too long.
#[derive(Drop)]
pub struct DatagramState {
    copies: Copies,
    // One that came takes a byte of the receive buffer at least, so that there is an end to those
    // without a byte that a peer can have kept.
    incoming: MessageQueue<1>,
    outgoing: MessageQueue<0>,
}

impl Model for DatagramState {
    ghost use Rattle.quic_messages.specs.Messages.{Messages};

    ghost Value = { Messages };

    ghost view = { λ s. record { incoming = s.incoming; outgoing = s.outgoing } };
}

/// Whether the frame of a message fits in the room.
fn has_fitting_frame(message: &Bytes, room: usize) -> bool
    requires { room < 2 ^ 62 }
    ensures { result ≡ nat_le (frame_bytes message.now) room }
{
    let len = message.len();
    len <= room && 1 + varint_size(VarInt::from_u64_unchecked(len as u64)) + len <= room
}

impl DatagramState {
    /// No messages.
    pub fn new(alloc: Global) -> Self
        ensures { result ≡ no_messages }
    {
        DatagramState {
            copies: Copies::new(alloc),
            incoming: MessageQueue::new(alloc),
            outgoing: MessageQueue::new(alloc),
        }
    }

    /// A message came in a DATAGRAM frame (RFC 9221, section 4; quinn-proto's
    /// `DatagramState::received`). `window` is how many bytes of unread messages this end keeps,
    /// `None` where it takes no messages. A message without a byte takes one of them: quinn-proto
    /// counts none. The oldest unread go until the new one fits, or none is left: it is kept in
    /// both cases. Answers whether none was unread before, which is what the application is to be
    /// told.
    ///
    /// # Errors
    ///
    /// - [`ReceivedError::Breach`]: this endpoint takes no messages, or the message is longer than
    ///   the window. Nothing changes.
    /// - [`ReceivedError::Memory`]: an allocation fails. Nothing changes.
    pub fn received(&mut self, message: &[u8], window: Option<usize>) -> Result<bool, ReceivedError>
        ensures answer { result ≢ Err received_errors.Memory → result ≡ received_answer window message.now self.old }
        ensures state { result ≢ Err received_errors.Memory → self.new ≡ after_received window message.now self.old }
        ensures memory { result ≡ Err received_errors.Memory → self.new ≡ self.old }
        ensures lacking { result ≡ Err received_errors.Memory → is_taken window message.now ≡ true }
    {
        let Some(window) = window else {
            return Err(ReceivedError::Breach);
        };
        if message.len() > window {
            return Err(ReceivedError::Breach);
        }
        let was_empty = self.incoming.is_empty();
        let Ok(message) = self.copies.copy(message) else {
            return Err(ReceivedError::Memory);
        };
        match self.incoming.push(message, window) {
            Ok(()) => Ok(was_empty),
            Err(_) => Err(ReceivedError::Memory),
        }
    }

    /// Reads the oldest message that wasn't read (quinn-proto's `Datagrams::recv`). `None` where
    /// all were.
    pub fn recv(&mut self) -> Option<Bytes>
        ensures answer { result ≡ oldest self.old.incoming }
        ensures state { self.new ≡ after_recv self.old }
    {
        self.incoming.pop()
    }

    /// Why a message may not be sent, if anything refuses it.
    fn check_send(
        &self,
        message: &Bytes,
        drop: bool,
        limits: &DatagramLimits,
    ) -> Result<(), SendDatagramError>
        ensures answer { result ≡ send_answer limits.now drop message.now self.now }
        ensures no_want { result ≢ Err send_errors.Memory }
    {
        if !limits.is_open {
            return Err(SendDatagramError::Blocked);
        }
        if limits.receive_buffer_size.is_none() {
            return Err(SendDatagramError::Disabled);
        }
        let Some(max_size) = limits.max_size else {
            return Err(SendDatagramError::UnsupportedByPeer);
        };
        if message.len() > max_size {
            return Err(SendDatagramError::TooLarge);
        }
        let room = limits.send_buffer_size;
        if !drop && !fits(self.outgoing.total(), message.len(), room) {
            return Err(SendDatagramError::Blocked);
        }
        Ok(())
    }

    /// Queues a message to be sent (quinn-proto's `Datagrams::send`). Where the send buffer has no
    /// room for it and `drop` is set, the oldest that wait go until it fits, or none is left: it is
    /// queued in both cases.
    ///
    /// # Errors
    ///
    /// - [`SendDatagramError::Blocked`]: the endpoint isn't open. Nothing changes.
    /// - [`SendDatagramError::Disabled`]: this endpoint takes no messages itself. Nothing changes.
    /// - [`SendDatagramError::UnsupportedByPeer`]: the peer takes none. Nothing changes.
    /// - [`SendDatagramError::TooLarge`]: the message is longer than the longest that may be sent.
    ///   Nothing changes.
    /// - [`SendDatagramError::Blocked`]: the send buffer has no room for it, and `drop` isn't set.
    ///   Nothing changes.
    /// - [`SendDatagramError::Memory`]: an allocation fails. Nothing changes.
    pub fn send(
        &mut self,
        message: Bytes,
        drop: bool,
        limits: &DatagramLimits,
    ) -> Result<(), SendDatagramError>
        ensures answer { result ≢ Err send_errors.Memory → result ≡ send_answer limits.now drop message self.old }
        ensures state { result ≢ Err send_errors.Memory → self.new ≡ after_send limits.now drop message self.old }
        ensures memory { result ≡ Err send_errors.Memory → self.new ≡ self.old }
        ensures lacking { result ≡ Err send_errors.Memory → send_answer limits.now drop message self.old ≡ Ok tt }
    {
        self.check_send(&message, drop, limits)?;
        match self.outgoing.push(message, limits.send_buffer_size) {
            Ok(()) => Ok(()),
            Err(_) => Err(SendDatagramError::Memory),
        }
    }

    /// How many more bytes may wait to be sent, of `send_buffer_size` in all (quinn-proto's
    /// `Datagrams::send_buffer_space`).
    pub fn send_buffer_space(&self, send_buffer_size: usize) -> usize
        ensures { result ≡ send_buffer_size - bytes_of length self.now.outgoing }
    {
        send_buffer_size.saturating_sub(self.outgoing.total())
    }

    /// Drops the messages that wait to be sent and are longer than `size` bytes, as a path that
    /// takes less makes necessary (quinn-proto's `DatagramState::drop_oversized`). It walks all
    /// that wait where one may be longer, and takes constant time else: each walk drops one, or
    /// follows one as long that was sent. So nobody makes it walk more often than such ones were
    /// queued.
    pub fn drop_oversized(&mut self, size: usize)
        ensures { self.new ≡ without_longer size self.old }
    {
        self.outgoing.drop_longer(size);
    }

    /// Whether a message waits to be sent.
    pub fn is_waiting(&self) -> bool
        ensures { result ≡ is_some (oldest self.now.outgoing) }
    {
        !self.outgoing.is_empty()
    }

    /// Whether the oldest message that waits has a frame of at most `room` bytes.
    pub fn can_send(&self, room: usize) -> bool
        requires { room < 2 ^ 62 }
        ensures { result ≡ is_some (fitting room self.now.outgoing) }
    {
        match self.outgoing.oldest() {
            Some(message) => has_fitting_frame(message, room),
            None => false,
        }
    }

    /// Takes off the oldest message that waits to be sent, where its frame has at most `room`
    /// bytes: type, length and message (RFC 9221, section 4). It is to be written with its length.
    /// `None` where it doesn't fit, or none waits: no other goes before it.
    pub fn next_frame(&mut self, room: usize) -> Option<Bytes>
        requires { room < 2 ^ 62 }
        ensures answer { result ≡ fitting room self.old.outgoing }
        ensures state { self.new ≡ after_fitting room self.old }
        ensures size { IfSome result (λ m. frame_bytes m ≤ room) }
        ensures form { IfSome result (λ m. Fits (datagram m)) }
    {
        if !self.can_send(room) {
            return None;
        }
        self.outgoing.pop()
    }
}
