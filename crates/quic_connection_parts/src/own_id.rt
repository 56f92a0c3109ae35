//! An own connection id (RFC 9000, section 5.1).
ghost use Rattle.std.specs.Prelude.{◌≡◌, Some, None};
ghost use Rattle.quic_machine.specs.Ids.{with_number};

use quic_packet::HasId;
use quic_wire_core::{ConnectionId, IssuedCid, ResetToken};
use std::marker::Model;

/// An own connection id that lives: a datagram with it is for its endpoint (RFC 9000, sections
/// 5.1.1 and 5.2).
#[derive(Clone, Copy, Debug)]
pub struct OwnId {
    sequence: u64,
    id: ConnectionId,
    reset_token: Option<ResetToken>,
}

impl Model for OwnId {
    ghost use Rattle.quic_machine.specs.Ids.{NumberedId};

    ghost Value = { NumberedId };

    ghost view = { λ own. record { number = own.sequence; id = own.id; token = own.reset_token } };

    ghost inverse = { λ own. record { sequence = own.number; id = own.id; reset_token = own.token } };
}

impl HasId for OwnId {
    ghost id_of = { λ own. own.id };

    fn connection_id(&self) -> &ConnectionId {
        &self.id
    }
}

impl OwnId {
    /// The first id of an endpoint, which the handshake told the peer.
    pub(crate) fn first(id: ConnectionId) -> Self
        ensures { result ≡ record { number = 0; id = id; token = None } }
    {
        OwnId {
            sequence: 0,
            id,
            reset_token: None,
        }
    }

    /// An id that is told by NEW_CONNECTION_ID.
    pub(crate) fn issued(cid: &IssuedCid) -> Self
        ensures { result ≡ with_number cid.now }
    {
        OwnId {
            sequence: cid.sequence,
            id: cid.id,
            reset_token: Some(cid.reset_token),
        }
    }

    /// The number under which it was issued; 0 of the first.
    pub fn sequence(&self) -> u64
        ensures { result ≡ self.now.number }
    {
        self.sequence
    }

    /// Its bytes.
    pub fn id(&self) -> ConnectionId
        ensures { result ≡ self.now.id }
    {
        self.id
    }

    /// The token by which a stateless reset of it is known (RFC 9000, section 10.3). The first has
    /// none here: a server's handshake may tell one as a transport parameter.
    pub fn reset_token(&self) -> Option<ResetToken>
        ensures { result ≡ self.now.token }
    {
        self.reset_token
    }
}
