//! Ids of connections, and the congestion marks of IP packets.
ghost use Rattle.std.specs.Prelude.{◌≡◌, ◌≤◌, length, take, drop, Some, IsTrue, ◌↔◌, [], nat_eq, refl};
ghost use Rattle.std.proofs.Common.{rules};
ghost use Rattle.std.specs.Cmp.{partial_equiv_from_equiv, partial_order_from_agreeing_total};
ghost use Rattle.std.specs.Cmp.Lexicographic.{pointwise, nat_list_eq_equiv};
ghost use Rattle.std.specs.Cmp.Rules.{hashing};
ghost use Rattle.std.specs.Fmt.{DisplaysOnOk};
ghost use Rattle.std.specs.Hash as fed;
ghost use Rattle.quic_wire_core.specs.ConnectionId.{id_cmp, id_cmp_total, id_ties, hex_text, hex_byte_text};
ghost use Rattle.quic_wire_core.specs.Ecn.{ecn_of};

use crate::token::ResetToken;
use bytes::Buf;
use std::cmp::Ordering;
use std::convert::AsSlice;
use std::fmt;
use std::hash::{Hash, Hasher};
use std::marker::Model;
use std::ops::DerefSlice;

/// The most bytes of an id in QUIC version 1 (RFC 9000, section 17.2; quinn-proto's
/// `MAX_CID_SIZE`).
pub const MAX_CID_SIZE: usize = 20;

/// An id of a connection: at most 20 bytes (RFC 9000, sections 5.1 and 17.2; quinn-proto's
/// `ConnectionId`).
///
/// Contracts see the list of the bytes. Two ids are equal exactly where these lists are; the order
/// is by length, and then by bytes.
#[derive(Clone, Copy, Debug)]
pub struct ConnectionId {
    len: u8,
    bytes: [u8; MAX_CID_SIZE],
}

impl Model for ConnectionId {
    ghost use Rattle.std.specs.Prelude.{List, ℕ};

    ghost Value = { List ℕ };

    ghost use Rattle.quic_wire_core.specs.ConnectionId.{id_view, IsPadded, id_fields, id_fields_view};

    ghost view = { id_view };

    // Behind the id stand zeros, so that equal ids have equal fields.
    ghost invariant = { IsPadded };

    ghost inverse = { id_fields };

    ghost inverse_ok = { id_fields_view };
}

impl ConnectionId {
    /// An id of these bytes, which are at most 20.
    pub fn new(bytes: &[u8]) -> Self
        requires { length bytes.now ≤ 20 }
        ensures { result ≡ bytes.now }
    {
        let mut padded = [0; MAX_CID_SIZE];
        padded[..bytes.len()].copy_from_slice(bytes);
        ConnectionId {
            len: bytes.len() as u8,
            bytes: padded,
        }
    }

    /// An id of the `len` bytes at the front of `buf`, which are at most 20, and are taken from it.
    pub fn from_buf<B: Buf>(buf: &mut B, len: usize) -> Self
        requires short { len ≤ 20 }
        requires there { len ≤ length (B.unread buf.old) }
        ensures id { result ≡ take len (B.unread buf.old) }
        ensures rest { B.unread buf.new ≡ drop len (B.unread buf.old) }
    {
        let mut padded = [0; MAX_CID_SIZE];
        buf.copy_to_slice(&mut padded[..len]);
        ConnectionId {
            len: len as u8,
            bytes: padded,
        }
    }

    /// The bytes of the id: at most 20.
    pub fn as_slice(&self) -> &[u8]
        ensures value { result.now ≡ self.now }
        ensures bound { length self.now ≤ 20 }
    {
        &self.bytes[..self.len()]
    }

    /// How many bytes the id has: at most 20.
    pub fn len(&self) -> usize
        ensures value { result ≡ length self.now }
        ensures bound { result ≤ 20 }
    {
        usize::from(self.len)
    }

    /// Whether the id has no bytes.
    pub fn is_empty(&self) -> bool
        ensures { IsTrue result ↔ self.now ≡ [] }
    {
        self.as_slice().is_empty()
    }
}

impl DerefSlice for ConnectionId {
    type Elem = u8;

    ghost deref_gives = { λ id bytes. bytes ≡ id };

    /// The bytes of the id.
    fn deref(&self) -> &[u8] {
        self.as_slice()
    }
}

impl AsSlice<u8> for ConnectionId {
    ghost items = { λ id. id };

    fn as_slice(&self) -> &[u8] {
        self.as_slice()
    }
}

impl PartialEq for ConnectionId {
    ghost eq = { pointwise nat_eq };

    ghost laws = { partial_equiv_from_equiv nat_list_eq_equiv };

    fn eq(&self, other: &ConnectionId) -> bool {
        self.as_slice() == other.as_slice()
    }
}

impl Eq for ConnectionId {
    ghost laws = { nat_list_eq_equiv };
}

impl PartialOrd for ConnectionId {
    ghost partial_cmp = { λ a b. Some (id_cmp a b) };

    ghost laws = { partial_order_from_agreeing_total id_cmp id_cmp_total (λ x y. refl) id_ties };

    fn partial_cmp(&self, other: &ConnectionId) -> Option<Ordering> {
        Some(self.cmp(other))
    }
}

impl Ord for ConnectionId {
    ghost cmp = { id_cmp };

    ghost total = { id_cmp_total };

    ghost matches_partial_cmp = { λ x y. refl };

    ghost matches_eq = { id_ties };

    fn cmp(&self, other: &ConnectionId) -> Ordering {
        self.len()
            .cmp(&other.len())
            .then(self.as_slice().cmp(other.as_slice()))
    }
}

impl Hash for ConnectionId {
    ghost hash_input = { fed.slice fed.u8 };

    ghost respects_eq = { Prim.search (hashing, rules) };

    fn hash<H: Hasher>(&self, state: &mut H) {
        self.as_slice().hash(state);
    }
}

/// Two hexadecimal digits a byte.
impl fmt::Display for ConnectionId {
    ghost output = { λ id. Some (hex_text id) };

    fn fmt<W: fmt::Write>(&self, f: &mut fmt::Formatter<W>) -> fmt::Result {
        write_hex(f, self.as_slice())
    }
}

/// A connection id that an end gave its peer, with what the peer is told of it (RFC 9000, section
/// 19.15; quinn-proto's `IssuedCid`).
#[derive(Clone, Copy, Debug, PartialEq, Eq)]
pub struct IssuedCid {
    /// The number of the id, counted from 0 for the first one.
    pub sequence: u64,
    /// The id.
    pub id: ConnectionId,
    /// The token by which a stateless reset of packets to the id is known.
    pub reset_token: ResetToken,
}

/// Writes the two hexadecimal digits of each byte.
pub(crate) fn write_hex<W: fmt::Write>(f: &mut fmt::Formatter<W>, bytes: &[u8]) -> fmt::Result
    ensures { DisplaysOnOk W.write_str_gives f.old result (Some (hex_text bytes.now)) f.new }
{
    for byte in bytes {
        write_hex_byte(f, *byte)?;
    }
    Ok(())
}

/// Writes the two hexadecimal digits of a byte.
#[tactic(auto, using(std::proofs::lemmas::Fmt::hex_byte))]
fn write_hex_byte<W: fmt::Write>(f: &mut fmt::Formatter<W>, byte: u8) -> fmt::Result
    ensures { DisplaysOnOk W.write_str_gives f.old result (Some (hex_byte_text byte)) f.new }
{
    write!(f, "{byte:02x}")
}

/// The congestion mark of an IP packet, where it has one (RFC 3168, section 5; quinn-proto's
/// `EcnCodepoint`).
#[derive(Clone, Copy, Debug, PartialEq, Eq)]
pub enum EcnCodepoint {
    /// The transport takes marks, codepoint ECT(0).
    Ect0 = 0b10,
    /// The transport takes marks, codepoint ECT(1).
    Ect1 = 0b01,
    /// Congestion was met.
    Ce = 0b11,
}

impl EcnCodepoint {
    /// The codepoint that the two low bits of the traffic class name; `None` where these are 00.
    pub fn from_bits(x: u8) -> Option<Self>
        ensures { result ≡ ecn_of x }
    {
        match x & 0b11 {
            0b10 => Some(EcnCodepoint::Ect0),
            0b01 => Some(EcnCodepoint::Ect1),
            0b11 => Some(EcnCodepoint::Ce),
            _ => None,
        }
    }

    /// Whether it says that congestion was met.
    pub fn is_ce(self) -> bool
        ensures { IsTrue result ↔ self ≡ EcnCodepoint.Ce }
    {
        match self {
            EcnCodepoint::Ce => true,
            EcnCodepoint::Ect0 | EcnCodepoint::Ect1 => false,
        }
    }
}
