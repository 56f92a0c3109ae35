//! The messages of an end, as an application holds them.
ghost use Rattle.std.specs.Prelude.{◌≡◌, ◌≢◌, ◌-◌, length, Ok, Err};
ghost use Rattle.quic_messages.specs.declared.errors.SendDatagramError.TheVariants as send_errors;
ghost use Rattle.quic_messages.specs.Messages.{bytes_of, oldest, after_recv};
ghost use Rattle.quic_messages.specs.Sending.{send_answer, after_send};

use crate::errors::SendDatagramError;
use crate::limits::DatagramLimits;
use crate::state::DatagramState;
use bytes::Bytes;

/// The messages of an end (quinn-proto's `Datagrams`).
#[derive(Drop)]
pub struct Datagrams<'a> {
    /// The messages.
    pub datagrams: &'a mut DatagramState,
    /// What bounds them.
    pub limits: DatagramLimits,
}

impl<'a> Datagrams<'a> {
    /// Those of an end, of which these limits are known.
    pub fn new(datagrams: &'a mut DatagramState, limits: DatagramLimits) -> Datagrams<'a>
        ensures same_reference { result.datagrams.ghost_name ≡ datagrams.entry.ghost_name }
        ensures same_messages { result.datagrams.now ≡ datagrams.old }
        ensures same_limits { result.limits ≡ limits }
    {
        Datagrams { datagrams, limits }
    }

    /// Queues a message to be sent (RFC 9221, section 5; quinn-proto's `Datagrams::send`). Where
    /// the send buffer has no room for it and `drop` is set, the oldest that wait go until it fits,
    /// or none is left: it is queued in both cases.
    ///
    /// # Errors
    ///
    /// - [`SendDatagramError::Blocked`]: the endpoint isn't open. Nothing changes.
    /// - [`SendDatagramError::Disabled`]: this endpoint takes no messages itself. Nothing changes.
    /// - [`SendDatagramError::UnsupportedByPeer`]: the peer takes none. Nothing changes.
    /// - [`SendDatagramError::TooLarge`]: the message is longer than [`max_size`](Self::max_size).
    ///   Nothing changes.
    /// - [`SendDatagramError::Blocked`]: the send buffer has no room for it, and `drop` isn't set.
    ///   Nothing changes.
    /// - [`SendDatagramError::Memory`]: an allocation fails. Nothing changes.
    pub fn send(&mut self, message: Bytes, drop: bool) -> Result<(), SendDatagramError>
        ensures same_reference { self.new.datagrams.ghost_name ≡ self.old.datagrams.ghost_name }
        ensures same_limits { self.new.limits ≡ self.old.limits }
        ensures answer { result ≢ Err send_errors.Memory → result ≡ send_answer self.old.limits drop message self.old.datagrams.now }
        ensures state { result ≢ Err send_errors.Memory → self.new.datagrams.now ≡ after_send self.old.limits drop message self.old.datagrams.now }
        ensures memory { result ≡ Err send_errors.Memory → self.new.datagrams.now ≡ self.old.datagrams.now }
        ensures lacking { result ≡ Err send_errors.Memory → send_answer self.old.limits drop message self.old.datagrams.now ≡ Ok tt }
    {
        self.datagrams.send(message, drop, &self.limits)
    }

    /// Reads the oldest message that wasn't read, also where the end isn't open (quinn-proto's
    /// `Datagrams::recv`). `None` where all were.
    pub fn recv(&mut self) -> Option<Bytes>
        ensures same_reference { self.new.datagrams.ghost_name ≡ self.old.datagrams.ghost_name }
        ensures same_limits { self.new.limits ≡ self.old.limits }
        ensures answer { result ≡ oldest self.old.datagrams.now.incoming }
        ensures state { self.new.datagrams.now ≡ after_recv self.old.datagrams.now }
    {
        self.datagrams.recv()
    }

    /// The longest message that may be sent now, in bytes: the path may take longer or shorter ones
    /// later (quinn-proto's `Datagrams::max_size`). `None` where the peer takes none.
    pub fn max_size(&self) -> Option<usize>
        ensures { result ≡ self.now.limits.max_size }
    {
        self.limits.max_size
    }

    /// How many more bytes may wait to be sent (quinn-proto's `Datagrams::send_buffer_space`).
    pub fn send_buffer_space(&self) -> usize
        ensures { result ≡ self.now.limits.send_buffer_size - bytes_of length self.now.datagrams.now.outgoing }
    {
        self.datagrams
            .send_buffer_space(self.limits.send_buffer_size)
    }
}
