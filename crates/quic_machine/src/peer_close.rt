//! The close by which a peer ends a connection (RFC 9000, section 19.19).
ghost use Rattle.std.specs.Prelude.{◌≡◌, ◌≤◌, vec_len, vec_capacity, length, IfOk, OnErr, ◌<◌};
ghost use Rattle.quic_wire.specs.Close.{close_view, by_transport, by_application, transport_close, application_close_with};
ghost use Rattle.quic_machine.specs.Texts.{text_of};

use quic_wire::frame::{ApplicationClose, Close, ConnectionClose};
use quic_wire_core::reserved::append;
use quic_wire_core::{Code, FrameType, VarInt};
use std::alloc::{AllocError, Global};
use std::fmt;
use std::marker::Model;

/// What a peer said as it closed the connection (quinn-proto's `frame::Close`). Contracts see what
/// that is.
#[derive(Debug, Drop)]
pub struct PeerClose {
    close: Close,
}

impl Model for PeerClose {
    ghost use Rattle.quic_wire.specs.Close.{CloseValue, close_view};

    ghost Value = { CloseValue };

    ghost view = { λ c. close_view c.close };
}

impl PeerClose {
    /// A close by an error of QUIC, with this code, this frame at fault and a copy of this text.
    ///
    /// # Errors
    ///
    /// - [`AllocError`]: an allocation fails, of room for the text, where that isn't empty.
    pub fn by_transport(
        alloc: Global,
        error_code: Code,
        frame_type: Option<FrameType>,
        reason: &[u8],
    ) -> Result<Self, AllocError>
        ensures ok { IfOk result (λ close. close ≡ by_transport (transport_close error_code frame_type reason.now)) }
        ensures lacking { OnErr result (0 < length reason.now) }
    {
        let close = ConnectionClose::new(alloc, error_code, frame_type, reason)?;
        Ok(PeerClose {
            close: Close::Connection(close),
        })
    }

    /// The application's close, with this code and a copy of this text.
    ///
    /// # Errors
    ///
    /// - [`AllocError`]: an allocation fails, of room for the text, where that isn't empty.
    pub fn by_application(
        alloc: Global,
        error_code: VarInt,
        reason: &[u8],
    ) -> Result<Self, AllocError>
        ensures ok { IfOk result (λ close. close ≡ by_application (application_close_with error_code reason.now)) }
        ensures lacking { OnErr result (0 < length reason.now) }
    {
        let close = ApplicationClose::new(alloc, error_code, reason)?;
        Ok(PeerClose {
            close: Close::Application(close),
        })
    }

    /// The close.
    pub fn as_close(&self) -> &Close
        ensures { close_view result.now ≡ self.now }
    {
        &self.close
    }

    /// How many bytes its text has.
    pub fn text_len(&self) -> usize
        ensures { result ≡ length (text_of self.now) }
    {
        match &self.close {
            Close::Connection(close) => close.reason.len(),
            Close::Application(close) => close.reason.len(),
        }
    }

    /// The same close again, whose text goes into `room`: it is empty, and has room for it. So this
    /// takes no memory.
    pub fn copied_into(&self, mut room: Vec<u8>) -> PeerClose
        requires empty { vec_len room ≡ 0 }
        requires room { length (text_of self.now) ≤ vec_capacity room }
        ensures { result ≡ self.now }
    {
        let close = match &self.close {
            Close::Connection(close) => {
                append(&mut room, &close.reason);
                Close::Connection(ConnectionClose {
                    error_code: close.error_code,
                    frame_type: close.frame_type,
                    reason: room,
                })
            }
            Close::Application(close) => {
                append(&mut room, &close.reason);
                Close::Application(ApplicationClose {
                    error_code: close.error_code,
                    reason: room,
                })
            }
        };
        PeerClose { close }
    }
}

impl fmt::Display for PeerClose {
    fn fmt<W: fmt::Write>(&self, f: &mut fmt::Formatter<W>) -> fmt::Result {
        self.close.fmt(f)
    }
}
