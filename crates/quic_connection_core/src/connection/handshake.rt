//! That the handshake is done, which a server's application says and a client's is told (RFC 9000,
//! section 19.20; RFC 9001, section 4.1.2). The handshake itself is elsewhere.
ghost use Rattle.std.specs.Prelude.{◌≡◌, if◌then◌else◌, OnOk, OnErr};
ghost use Rattle.quic_machine.specs.End.{side_of, with_end};
ghost use Rattle.quic_machine.specs.Handshake.{done_answer, after_done};
ghost use Rattle.quic_machine.specs.Receive.{done_taken};
ghost use Rattle.quic_machine.specs.Calls.{tells_done, confirmation_told};
ghost use Rattle.quic_connection_parts.specs.Faults.{TakesAs};

use crate::connection::Connection;
use quic_congestion::Controller;
use quic_connection_parts::receiving::Trouble;
use quic_connection_parts::stream_frames::take_of_server;
use quic_machine::HandshakeDoneError;
use quic_packet::crypto::{HeaderKey, PacketKey};
use rand_core::Rng;

impl<H: HeaderKey + Drop, K: PacketKey + Drop, R: Rng + Drop, C: Controller> Connection<
    H,
    K,
    R,
    C,
> {
    /// Says that the handshake is done, as a server's handshake layer finds: HANDSHAKE_DONE is
    /// pending, and goes until it is acknowledged (RFC 9000, section 13.3). The client gets
    /// [`Event::HandshakeConfirmed`] once it comes (RFC 9001, section 4.1.2). It is not to be said
    /// before TLS is complete (RFC 9000, section 19.20), which nothing here sees.
    ///
    /// # Errors
    ///
    /// - [`HandshakeDoneError::Client`]: the endpoint is a client. Nothing changes.
    /// - [`HandshakeDoneError::Again`]: it was said before. Nothing changes.
    /// - [`HandshakeDoneError::NotOpen`]: the endpoint isn't open. Nothing changes.
    ///
    /// [`Event::HandshakeConfirmed`]: quic_machine::Event::HandshakeConfirmed
    pub fn handshake_done(&mut self) -> Result<(), HandshakeDoneError>
        ensures answer { result ≡ done_answer self.old.end }
        ensures ok { OnOk result (self.new ≡ with_end self.old (after_done self.old.end)) }
        ensures err { OnErr result (self.new ≡ self.old) }
    {
        if self.side().is_client() {
            return Err(HandshakeDoneError::Client);
        }
        if self.handshake_confirmed {
            return Err(HandshakeDoneError::Again);
        }
        if !self.is_open() {
            return Err(HandshakeDoneError::NotOpen);
        }
        self.handshake_confirmed = true;
        self.confirmation_to_tell = false;
        self.streams.pending.set_handshake_done(true);
        Ok(())
    }

    /// Takes HANDSHAKE_DONE: a client's handshake is confirmed, of which its application is told at
    /// the first. A server gets none (RFC 9000, section 19.20).
    pub(crate) fn take_handshake_done(&mut self) -> Result<(), Trouble>
        ensures takes { TakesAs result (done_taken (side_of self.old.end) self.old.end) self.new.end }
        ensures others { self.new ≡ with_end self.old self.new.end }
    {
        take_of_server(self.side())?;
        self.confirmation_to_tell |= !self.handshake_confirmed;
        self.handshake_confirmed = true;
        Ok(())
    }

    /// Queues the event that the handshake is confirmed, if it is due: whether it was.
    pub(crate) fn tell_confirmation(&mut self) -> bool
        ensures told { result ≡ tells_done self.old.end }
        ensures end { self.new ≡ with_end self.old (if tells_done self.old.end then confirmation_told self.old.end else self.old.end) }
    {
        if !self.confirmation_to_tell {
            return false;
        }
        self.confirmation_to_tell = false;
        true
    }
}
