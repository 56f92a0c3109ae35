//! Variable-length integers (RFC 9000, section 16).
ghost use Rattle.std.specs.Prelude.{◌≡◌, ◌-◌, ◌<◌, ◌^◌, ◌≤◌, [], MatchResult, MatchOption, length, slice_index};
ghost use Rattle.quic_wire_core.specs.Varint.{varint_size, shortest};

use crate::coding::{Codec, UnexpectedEnd, u8_of, u16_of, u32_of, u64_of};
use bytes::{Buf, BufMut};
use std::alloc::AllocError;
use std::fmt;
use std::marker::Model;
use thiserror::Error;

/// A number below 2^62, which QUIC writes in one, two, four or eight bytes (quinn-proto's
/// `VarInt`).
///
/// Contracts see the number itself.
#[derive(Clone, Copy, Debug, Default, PartialEq, Eq, PartialOrd, Ord, Hash)]
pub struct VarInt(u64);

impl Model for VarInt {
    ghost use Rattle.std.specs.Prelude.{ℕ, ◌^◌, ◌<◌};

    ghost Value = { ℕ };

    ghost view = { λ v. v.0 };

    ghost invariant = { λ v. v.0 < 2 ^ 62 };

    ghost inverse = { λ n. record { 0 = n } };
}

/// The number is 2^62 or above, and has no form as a variable-length integer.
#[derive(Clone, Copy, Debug, PartialEq, Eq, Error)]
#[error("value too large for varint encoding")]
pub struct VarIntBoundsExceeded;

impl VarInt {
    /// The greatest number, 2^62 - 1.
    pub const MAX: VarInt = VarInt((1 << 62) - 1);

    /// The most bytes that a number takes.
    pub const MAX_SIZE: usize = 8;

    /// The greatest number, as [`VarInt::MAX`].
    pub fn max_value() -> Self
        ensures { result ≡ 2 ^ 62 - 1 }
    {
        VarInt::MAX
    }

    /// The number, which always fits.
    pub fn from_u32(x: u32) -> Self
        ensures { result ≡ x }
    {
        VarInt(u64::from(x))
    }

    /// The number, which is below 2^62.
    ///
    /// # Errors
    ///
    /// - [`VarIntBoundsExceeded`]: the number is 2^62 or greater.
    pub fn from_u64(x: u64) -> Result<Self, VarIntBoundsExceeded>
        ensures { MatchResult result (λ v. v ≡ x) (λ _. 2 ^ 62 ≤ x) }
    {
        if x < 1 << 62 {
            Ok(VarInt(x))
        } else {
            Err(VarIntBoundsExceeded)
        }
    }

    /// The number, which the caller knows to be below 2^62.
    pub fn from_u64_unchecked(x: u64) -> Self
        requires { x < 2 ^ 62 }
        ensures { result ≡ x }
    {
        Self(x)
    }

    /// How many bytes the number takes when it is written: 1, 2, 4 or 8.
    pub fn size(self) -> usize
        ensures size { result ≡ varint_size self }
        ensures spelled { result ≡ length (shortest self) }
        ensures some { 1 ≤ result }
        ensures most { result ≤ 8 }
    {
        let n = self.into_inner();
        if n < 1 << 6 {
            1
        } else if n < 1 << 14 {
            2
        } else if n < 1 << 30 {
            4
        } else {
            8
        }
    }

    /// The number as an integer, which is below 2^62.
    pub fn into_inner(self) -> u64
        ensures value { result ≡ self }
        ensures bound { result < 2 ^ 62 }
    {
        self.0
    }
}

/// The byte at the front.
fn peek<B: Buf>(buf: &B) -> Option<u8>
    ensures { MatchOption result (B.unread buf.now ≡ []) (λ b. (0 < length (B.unread buf.now)) × (b ≡ slice_index (B.unread buf.now) 0)) }
{
    buf.chunk().first().copied()
}

impl Codec for VarInt {
    ghost use Rattle.std.specs.Prelude.{◌<◌, ◌^◌};
    ghost use Rattle.quic_wire_core.specs.Varint.{varint_at, shortest};
    ghost use Rattle.quic_wire_core.specs.Law.{shortest_again};

    ghost reads = { varint_at };

    ghost spelling = { shortest };

    ghost fits = { λ v. v < 2 ^ 62 };

    ghost again = { shortest_again };

    fn decode<B: Buf>(buf: &mut B) -> Result<VarInt, UnexpectedEnd> {
        let Some(first) = peek(buf) else {
            return Err(UnexpectedEnd);
        };
        // The two top bits of the first byte tell the width.
        let x = match first >> 6 {
            0 => u64::from(u8_of(buf)?),
            1 => u64::from(u16_of(buf)? & 0x3fff),
            2 => u64::from(u32_of(buf)? & 0x3fff_ffff),
            _ => u64_of(buf)? & 0x3fff_ffff_ffff_ffff,
        };
        Ok(VarInt(x))
    }

    fn encode<B: BufMut>(&self, buf: &mut B) -> Result<(), AllocError> {
        let x = self.into_inner();
        if x < 1 << 6 {
            buf.put_u8(x as u8)
        } else if x < 1 << 14 {
            buf.put_u16(0b01 << 14 | x as u16)
        } else if x < 1 << 30 {
            buf.put_u32(0b10 << 30 | x as u32)
        } else {
            buf.put_u64(0b11 << 62 | x)
        }
    }
}

impl fmt::Display for VarInt {
    ghost use Rattle.std.specs.Prelude.{Some, decimal};

    ghost output = { λ v. Some (decimal v) };

    fn fmt<W: fmt::Write>(&self, f: &mut fmt::Formatter<W>) -> fmt::Result {
        self.into_inner().fmt(f)
    }
}

impl From<u8> for VarInt {
    ghost from_gives = { λ x v. v ≡ x };

    fn from(x: u8) -> VarInt {
        VarInt::from_u32(u32::from(x))
    }
}

impl From<u16> for VarInt {
    ghost from_gives = { λ x v. v ≡ x };

    fn from(x: u16) -> VarInt {
        VarInt::from_u32(u32::from(x))
    }
}

impl From<u32> for VarInt {
    ghost from_gives = { λ x v. v ≡ x };

    fn from(x: u32) -> VarInt {
        VarInt::from_u32(x)
    }
}

impl From<VarInt> for u64 {
    ghost from_gives = { λ v x. x ≡ v };

    fn from(v: VarInt) -> u64 {
        v.0
    }
}

impl TryFrom<u64> for VarInt {
    type Error = VarIntBoundsExceeded;

    ghost use Rattle.quic_wire_core.specs.Varint.{BoundedBy};

    ghost try_from_gives = { BoundedBy };

    /// The number, which is below 2^62.
    ///
    /// # Errors
    ///
    /// - [`VarIntBoundsExceeded`]: the number is 2^62 or greater.
    fn try_from(x: u64) -> Result<VarInt, VarIntBoundsExceeded> {
        VarInt::from_u64(x)
    }
}

impl TryFrom<usize> for VarInt {
    type Error = VarIntBoundsExceeded;

    ghost use Rattle.quic_wire_core.specs.Varint.{BoundedBy};

    ghost try_from_gives = { BoundedBy };

    /// The number, which is below 2^62.
    ///
    /// # Errors
    ///
    /// - [`VarIntBoundsExceeded`]: the number is 2^62 or greater.
    fn try_from(x: usize) -> Result<VarInt, VarIntBoundsExceeded> {
        VarInt::from_u64(x as u64)
    }
}

impl TryFrom<u128> for VarInt {
    type Error = VarIntBoundsExceeded;

    ghost use Rattle.quic_wire_core.specs.Varint.{BoundedBy};

    ghost try_from_gives = { BoundedBy };

    /// The number, which is below 2^62.
    ///
    /// # Errors
    ///
    /// - [`VarIntBoundsExceeded`]: the number is 2^62 or greater.
    fn try_from(x: u128) -> Result<VarInt, VarIntBoundsExceeded> {
        match u64::try_from(x) {
            Ok(x) => VarInt::from_u64(x),
            Err(_) => Err(VarIntBoundsExceeded),
        }
    }
}
