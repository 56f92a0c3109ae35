//! Sides, directions and stream ids (RFC 9000, section 2.1).
ghost use Rattle.std.specs.Prelude.{◌≡◌, ◌<◌, ◌^◌, ◌==◌, IsTrue, ◌↔◌, Some};
ghost use Rattle.std.specs.Array.Iter.{array_into_iter_items};
ghost use Rattle.quic_wire_core.specs.StreamId.{side_bit, dir_bit, stream_id, initiator_of, dir_of, index_of, other_side, other_dir, all_sides, all_dirs, side_text, dir_text, stream_text};

use crate::varint::VarInt;
use std::marker::Model;
use std::ops::Not;
use std::{array, fmt};

/// An end of a connection (quinn-proto's `Side`).
#[derive(Clone, Copy, Debug, PartialEq, Eq, PartialOrd, Ord, Hash)]
pub enum Side {
    /// The end that opened the connection.
    Client,
    /// The end that accepted it.
    Server,
}

impl Side {
    /// Both, the client first.
    pub fn iter() -> array::IntoIter<Side, 2>
        ensures { array_into_iter_items result ≡ all_sides }
    {
        [Side::Client, Side::Server].into_iter()
    }

    /// Whether it is the client.
    pub fn is_client(self) -> bool
        ensures { IsTrue result ↔ self ≡ Side.Client }
    {
        match self {
            Side::Client => true,
            Side::Server => false,
        }
    }

    /// Whether it is the server.
    pub fn is_server(self) -> bool
        ensures { IsTrue result ↔ self ≡ Side.Server }
    {
        match self {
            Side::Client => false,
            Side::Server => true,
        }
    }

    /// The lowest bit of the ids of streams that this side opens.
    fn bit(self) -> u64
        ensures { result ≡ side_bit self }
    {
        match self {
            Side::Client => 0,
            Side::Server => 1,
        }
    }
}

impl Not for Side {
    type Output = Side;

    ghost not_gives = { λ side other. other ≡ other_side side };

    /// The other side.
    fn not(self) -> Side {
        match self {
            Side::Client => Side::Server,
            Side::Server => Side::Client,
        }
    }
}

impl fmt::Display for Side {
    ghost output = { λ side. Some (side_text side) };

    fn fmt<W: fmt::Write>(&self, f: &mut fmt::Formatter<W>) -> fmt::Result {
        match self {
            Side::Client => f.write_str("client"),
            Side::Server => f.write_str("server"),
        }
    }
}

/// Whether a stream carries data both ways or one way (quinn-proto's `Dir`).
#[derive(Clone, Copy, Debug, PartialEq, Eq, PartialOrd, Ord, Hash)]
pub enum Dir {
    /// Both ends send.
    Bi,
    /// Only the end that opened the stream sends.
    Uni,
}

impl Dir {
    /// Both, `Bi` first.
    pub fn iter() -> array::IntoIter<Dir, 2>
        ensures { array_into_iter_items result ≡ all_dirs }
    {
        [Dir::Bi, Dir::Uni].into_iter()
    }

    /// The second bit of the ids of such streams.
    fn bit(self) -> u64
        ensures { result ≡ dir_bit self }
    {
        match self {
            Dir::Bi => 0,
            Dir::Uni => 1,
        }
    }
}

impl Not for Dir {
    type Output = Dir;

    ghost not_gives = { λ dir other. other ≡ other_dir dir };

    /// The other kind.
    fn not(self) -> Dir {
        match self {
            Dir::Bi => Dir::Uni,
            Dir::Uni => Dir::Bi,
        }
    }
}

impl fmt::Display for Dir {
    ghost output = { λ dir. Some (dir_text dir) };

    fn fmt<W: fmt::Write>(&self, f: &mut fmt::Formatter<W>) -> fmt::Result {
        match self {
            Dir::Bi => f.write_str("bidirectional"),
            Dir::Uni => f.write_str("unidirectional"),
        }
    }
}

/// The id of a stream, below 2^62 (quinn-proto's `StreamId`).
///
/// Contracts see the number: four times the place of the stream among those of its kind, plus 2
/// where it runs one way, plus 1 where the server opens it.
#[derive(Clone, Copy, Debug, PartialEq, Eq, PartialOrd, Ord, Hash)]
pub struct StreamId(u64);

impl Model for StreamId {
    ghost use Rattle.std.specs.Prelude.{ℕ, ◌^◌, ◌<◌};

    ghost Value = { ℕ };

    ghost view = { λ id. id.0 };

    ghost invariant = { λ id. id.0 < 2 ^ 62 };

    ghost inverse = { λ n. record { 0 = n } };
}

impl StreamId {
    /// The id of the stream that `initiator` opens in the directions `dir`, as its `index`th from
    /// 0.
    pub fn new(initiator: Side, dir: Dir, index: u64) -> Self
        requires { index < 2 ^ 60 }
        ensures { result ≡ stream_id initiator dir index }
    {
        StreamId(4 * index + 2 * dir.bit() + initiator.bit())
    }

    /// The side that opens the stream.
    pub fn initiator(self) -> Side
        ensures { result ≡ initiator_of self }
    {
        if self.0 & 0x1 == 0 {
            Side::Client
        } else {
            Side::Server
        }
    }

    /// Which directions data flows in.
    pub fn dir(self) -> Dir
        ensures { result ≡ dir_of self }
    {
        if (self.0 >> 1) & 0x1 == 0 {
            Dir::Bi
        } else {
            Dir::Uni
        }
    }

    /// The place of the stream, from 0, among those of its side and directions: below 2^60.
    pub fn index(self) -> u64
        ensures value { result ≡ index_of self }
        ensures bound { result < 2 ^ 60 }
    {
        self.0 >> 2
    }
}

impl fmt::Display for StreamId {
    ghost output = { λ id. Some (stream_text id) };

    fn fmt<W: fmt::Write>(&self, f: &mut fmt::Formatter<W>) -> fmt::Result {
        let initiator = self.initiator();
        let dir = self.dir();
        let index = self.index();
        write!(f, "{initiator} {dir} stream {index}")
    }
}

impl From<VarInt> for StreamId {
    ghost from_gives = { λ v id. id ≡ v };

    fn from(v: VarInt) -> StreamId {
        StreamId(v.into_inner())
    }
}

impl From<StreamId> for VarInt {
    ghost from_gives = { λ id v. v ≡ id };

    fn from(id: StreamId) -> VarInt {
        VarInt::from_u64_unchecked(id.0)
    }
}

impl From<StreamId> for u64 {
    ghost from_gives = { λ id x. x ≡ id };

    fn from(id: StreamId) -> u64 {
        id.0
    }
}
