//! Values that are read from bytes and written to them.
ghost use Rattle.std.specs.Prelude.{◌≡◌, ℕ, ◌++◌, List, length, Option, Some, None, OnOk, OnErr};
ghost use Rattle.std.specs.Int.{w8, w16, w32, w64};
ghost use Rattle.bytes.specs.Filled.{UsesSpare, UsesMaxSpare};
ghost use Rattle.quic_wire_core.specs.Coding.{Decodes, Takes};

use crate::frame_type::FrameType;
use crate::stream_id::StreamId;
use crate::transport_error::Code;
use crate::varint::VarInt;
use bytes::{Buf, BufMut};
use std::alloc::AllocError;
use thiserror::Error;

/// The bytes end before the value does (quinn-proto's `coding::UnexpectedEnd`).
#[derive(Clone, Copy, Debug, PartialEq, Eq, Error)]
#[error("unexpected end of buffer")]
pub struct UnexpectedEnd;

/// A value with a form in bytes (quinn-proto's `coding::Codec`).
pub trait Codec: Sized {
    // The value that the bytes begin with, and the bytes after it.
    ghost reads: { List ℕ → Option (Self × List ℕ) };

    // The bytes that are written for a value.
    ghost spelling: { Self → List ℕ };

    // What has a spelling: every value of the type.
    ghost fits: { Self → Type 0 };

    /// Reads the value at the front, and leaves what follows it.
    ///
    /// # Errors
    ///
    /// - [`UnexpectedEnd`]: the bytes end within the value. None is taken.
    fn decode<B: Buf>(buf: &mut B) -> Result<Self, UnexpectedEnd>
        ensures { Decodes reads result (B.unread buf.old) (B.unread buf.new) };

    /// Writes the value behind what is written.
    ///
    /// # Errors
    ///
    /// - [`AllocError`]: an allocation fails, or the buffer can't grow, where it has no spare room
    ///   for the value. Nothing is written.
    fn encode<B: BufMut>(&self, buf: &mut B) -> Result<(), AllocError>
        ensures ok { OnOk result (B.written buf.new ≡ B.written buf.old ++ spelling self.now) }
        ensures err { OnErr result (B.written buf.new ≡ B.written buf.old) }
        ensures spare { UsesSpare result (B.spare buf.old) (B.spare buf.new) (length (spelling self.now)) }
        ensures max_spare { UsesMaxSpare result (B.max_spare buf.old) (B.max_spare buf.new) (length (spelling self.now)) };

    // What was written is read again, whatever follows it.
    ghost again: { (x : Self) (rest : List ℕ) → fits x → reads (spelling x ++ rest) ≡ Some (x, rest) };
}

/// The big-endian number of 1 byte at the front.
pub(crate) fn u8_of<B: Buf>(buf: &mut B) -> Result<u8, UnexpectedEnd>
    ensures { Takes w8 result (B.unread buf.old) (B.unread buf.new) }
{
    buf.try_get_u8().map_err(|_| UnexpectedEnd)
}

/// The big-endian number of 2 bytes at the front.
pub(crate) fn u16_of<B: Buf>(buf: &mut B) -> Result<u16, UnexpectedEnd>
    ensures { Takes w16 result (B.unread buf.old) (B.unread buf.new) }
{
    buf.try_get_u16().map_err(|_| UnexpectedEnd)
}

/// The big-endian number of 4 bytes at the front.
pub(crate) fn u32_of<B: Buf>(buf: &mut B) -> Result<u32, UnexpectedEnd>
    ensures { Takes w32 result (B.unread buf.old) (B.unread buf.new) }
{
    buf.try_get_u32().map_err(|_| UnexpectedEnd)
}

/// The big-endian number of 8 bytes at the front.
pub(crate) fn u64_of<B: Buf>(buf: &mut B) -> Result<u64, UnexpectedEnd>
    ensures { Takes w64 result (B.unread buf.old) (B.unread buf.new) }
{
    buf.try_get_u64().map_err(|_| UnexpectedEnd)
}

/// A single byte.
impl Codec for u8 {
    ghost use Rattle.std.specs.Prelude.{◌<◌, ◌^◌};
    ghost use Rattle.std.specs.Int.{w8, to_be_bytes};
    ghost use Rattle.quic_wire_core.specs.Coding.{fixed_at};
    ghost use Rattle.quic_wire_core.specs.Law.{fixed_again_8};

    ghost reads = { fixed_at w8 };

    ghost spelling = { to_be_bytes w8 };

    ghost fits = { λ n. n < 2 ^ 8 };

    ghost again = { fixed_again_8 };

    fn decode<B: Buf>(buf: &mut B) -> Result<u8, UnexpectedEnd> {
        u8_of(buf)
    }

    fn encode<B: BufMut>(&self, buf: &mut B) -> Result<(), AllocError> {
        buf.put_u8(*self)
    }
}

/// 2 bytes, the most significant first.
impl Codec for u16 {
    ghost use Rattle.std.specs.Prelude.{◌<◌, ◌^◌};
    ghost use Rattle.std.specs.Int.{w16, to_be_bytes};
    ghost use Rattle.quic_wire_core.specs.Coding.{fixed_at};
    ghost use Rattle.quic_wire_core.specs.Law.{fixed_again_16};

    ghost reads = { fixed_at w16 };

    ghost spelling = { to_be_bytes w16 };

    ghost fits = { λ n. n < 2 ^ 16 };

    ghost again = { fixed_again_16 };

    fn decode<B: Buf>(buf: &mut B) -> Result<u16, UnexpectedEnd> {
        u16_of(buf)
    }

    fn encode<B: BufMut>(&self, buf: &mut B) -> Result<(), AllocError> {
        buf.put_u16(*self)
    }
}

/// 4 bytes, the most significant first.
impl Codec for u32 {
    ghost use Rattle.std.specs.Prelude.{◌<◌, ◌^◌};
    ghost use Rattle.std.specs.Int.{w32, to_be_bytes};
    ghost use Rattle.quic_wire_core.specs.Coding.{fixed_at};
    ghost use Rattle.quic_wire_core.specs.Law.{fixed_again_32};

    ghost reads = { fixed_at w32 };

    ghost spelling = { to_be_bytes w32 };

    ghost fits = { λ n. n < 2 ^ 32 };

    ghost again = { fixed_again_32 };

    fn decode<B: Buf>(buf: &mut B) -> Result<u32, UnexpectedEnd> {
        u32_of(buf)
    }

    fn encode<B: BufMut>(&self, buf: &mut B) -> Result<(), AllocError> {
        buf.put_u32(*self)
    }
}

/// 8 bytes, the most significant first.
impl Codec for u64 {
    ghost use Rattle.std.specs.Prelude.{◌<◌, ◌^◌};
    ghost use Rattle.std.specs.Int.{w64, to_be_bytes};
    ghost use Rattle.quic_wire_core.specs.Coding.{fixed_at};
    ghost use Rattle.quic_wire_core.specs.Law.{fixed_again_64};

    ghost reads = { fixed_at w64 };

    ghost spelling = { to_be_bytes w64 };

    ghost fits = { λ n. n < 2 ^ 64 };

    ghost again = { fixed_again_64 };

    fn decode<B: Buf>(buf: &mut B) -> Result<u64, UnexpectedEnd> {
        u64_of(buf)
    }

    fn encode<B: BufMut>(&self, buf: &mut B) -> Result<(), AllocError> {
        buf.put_u64(*self)
    }
}

/// A stream id, as a variable-length integer.
impl Codec for StreamId {
    ghost use Rattle.std.specs.Prelude.{◌<◌, ◌^◌};
    ghost use Rattle.quic_wire_core.specs.Varint.{varint_at, shortest};
    ghost use Rattle.quic_wire_core.specs.Law.{shortest_again};

    ghost reads = { varint_at };

    ghost spelling = { shortest };

    ghost fits = { λ v. v < 2 ^ 62 };

    ghost again = { shortest_again };

    fn decode<B: Buf>(buf: &mut B) -> Result<StreamId, UnexpectedEnd> {
        let v = VarInt::decode(buf)?;
        Ok(StreamId::from(v))
    }

    fn encode<B: BufMut>(&self, buf: &mut B) -> Result<(), AllocError> {
        let id = VarInt::from(*self);
        id.encode(buf)
    }
}

/// The type of a frame, as a variable-length integer.
impl Codec for FrameType {
    ghost use Rattle.std.specs.Prelude.{◌<◌, ◌^◌};
    ghost use Rattle.quic_wire_core.specs.Varint.{varint_at, shortest};
    ghost use Rattle.quic_wire_core.specs.Law.{shortest_again};

    ghost reads = { varint_at };

    ghost spelling = { shortest };

    ghost fits = { λ v. v < 2 ^ 62 };

    ghost again = { shortest_again };

    fn decode<B: Buf>(buf: &mut B) -> Result<FrameType, UnexpectedEnd> {
        let v = VarInt::decode(buf)?;
        Ok(FrameType::from(v))
    }

    fn encode<B: BufMut>(&self, buf: &mut B) -> Result<(), AllocError> {
        let ty = VarInt::from(*self);
        ty.encode(buf)
    }
}

/// The code of an error, as a variable-length integer.
impl Codec for Code {
    ghost use Rattle.std.specs.Prelude.{◌<◌, ◌^◌};
    ghost use Rattle.quic_wire_core.specs.Varint.{varint_at, shortest};
    ghost use Rattle.quic_wire_core.specs.Law.{shortest_again};

    ghost reads = { varint_at };

    ghost spelling = { shortest };

    ghost fits = { λ v. v < 2 ^ 62 };

    ghost again = { shortest_again };

    fn decode<B: Buf>(buf: &mut B) -> Result<Code, UnexpectedEnd> {
        let v = VarInt::decode(buf)?;
        Ok(Code::from(v))
    }

    fn encode<B: BufMut>(&self, buf: &mut B) -> Result<(), AllocError> {
        let code = VarInt::from(*self);
        code.encode(buf)
    }
}
