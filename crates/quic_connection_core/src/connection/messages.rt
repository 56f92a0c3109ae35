//! Messages that may be lost, and aren't sent again (RFC 9221).
ghost use Rattle.std.specs.Prelude.{◌≡◌, if◌then◌else◌};
ghost use Rattle.quic_machine.specs.End.{with_end};
ghost use Rattle.quic_machine.specs.Receive.{take_message};
ghost use Rattle.quic_machine.specs.Poll.{message_waits};
ghost use Rattle.quic_machine.specs.MessageCalls.{limits_of};
ghost use Rattle.quic_machine.specs.Calls.{tells_message, message_told};
ghost use Rattle.quic_connection_parts.specs.Faults.{TakesAs};

use crate::connection::Connection;
use quic_congestion::Controller;
use quic_connection_parts::receiving::{Trouble, violation};
use quic_messages::{DatagramLimits, DatagramState, Datagrams, ReceivedError, max_size};
use quic_packet::crypto::{HeaderKey, PacketKey, TAG_LEN};
use quic_wire_core::Reason;
use rand_core::Rng;

/// The most bytes that a packet number takes.
const MAX_NUMBER_LENGTH: usize = 4;

impl<H: HeaderKey + Drop, K: PacketKey + Drop, R: Rng + Drop, C: Controller> Connection<
    H,
    K,
    R,
    C,
> {
    /// Takes a message: it is queued to be read, for which the oldest unread may be dropped. If
    /// this endpoint advertised that it takes none so long, that is a protocol violation (RFC 9221,
    /// section 3).
    pub(crate) fn take_message(&mut self, message: &[u8]) -> Result<(), Trouble>
        ensures takes { TakesAs result (take_message message.now self.old.end) self.new.end }
        ensures others { self.new ≡ with_end self.old self.new.end }
    {
        let window = self.transport.get_datagram_receive_buffer_size();
        match self.datagrams.received(message, window) {
            Ok(first) => {
                if first {
                    self.messages_to_tell = self.messages_to_tell.saturating_add(1);
                }
                Ok(())
            }
            Err(ReceivedError::Breach) => Err(violation(Reason::TooManyBytes)),
            Err(ReceivedError::Memory) => Err(Trouble::Memory),
        }
    }

    /// Queues the event that a message came, if it is due: whether it was.
    pub(crate) fn tell_message(&mut self) -> bool
        ensures told { result ≡ tells_message self.old.end }
        ensures end { self.new ≡ with_end self.old (if tells_message self.old.end then message_told self.old.end else self.old.end) }
    {
        if self.messages_to_tell == 0 {
            return false;
        }
        self.messages_to_tell -= 1;
        true
    }

    /// Whether a message is pending that fits a datagram, whichever packet number that has.
    pub(crate) fn message_waits(&self) -> bool
        ensures { result ≡ message_waits self.now.end }
    {
        let header = 1 + self.ids.destination().len() + MAX_NUMBER_LENGTH;
        self.datagrams
            .can_send(usize::from(self.most_ordinary()) - (header + TAG_LEN))
    }
}

impl<H, K, R, C: Controller> Connection<H, K, R, C> {
    ghost use Rattle.std.specs.Borrow.{sem};
    ghost use denote.Follow.{follows};
    ghost use Rattle.quic_connection_core.specs.contracts.connection.Connection.{the_row as connection_row};
    ghost use Rattle.quic_messages.specs.contracts.state.DatagramState.{the_row as datagrams_row};
    ghost use Rattle.quic_connection_core.specs.Handed.{messages_back};

    /// What bounds the messages of the endpoint: its settings, what the peer takes, and the size of
    /// datagrams.
    pub fn datagram_limits(&self) -> DatagramLimits
        ensures { result ≡ limits_of self.now.end }
    {
        DatagramLimits {
            is_open: self.is_open(),
            receive_buffer_size: self.transport.get_datagram_receive_buffer_size(),
            send_buffer_size: self.transport.get_datagram_send_buffer_size(),
            max_size: max_size(
                self.peer_params.max_datagram_frame_size,
                self.path.current_mtu(),
                self.ids.destination().len(),
            ),
        }
    }

    /// The messages of the endpoint that are queued to be sent, and those that came and weren't
    /// read: what [`Datagrams`] borrows.
    pub fn datagrams_mut(&mut self) -> &mut DatagramState
        ensures* writes_back { sem 𝓛 (follows (connection_row H.row K.row R.row C.row C.Controller) datagrams_row self.entry.ghost_name result.ghost_name (messages_back self.old)) }
        ensures state { result.now ≡ self.old.end.messages.queues }
    {
        &mut self.datagrams
    }

    /// The messages of the endpoint (quinn-proto's `Connection::datagrams`).
    pub fn datagrams(&mut self) -> Datagrams<'_>
        ensures* writes_back { sem 𝓛 (follows (connection_row H.row K.row R.row C.row C.Controller) datagrams_row self.entry.ghost_name result.datagrams.ghost_name (messages_back self.old)) }
        ensures state { result.datagrams.now ≡ self.old.end.messages.queues }
        ensures limits { result.limits ≡ limits_of self.old.end }
    {
        let limits = self.datagram_limits();
        Datagrams::new(&mut self.datagrams, limits)
    }
}
