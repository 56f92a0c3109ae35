//! The frames of a payload but for PADDING.
ghost use Rattle.std.specs.Prelude.{◌≡◌, ◌<◌, ◌≤◌, ◌∷◌, length, Ok, IfSome, IfNone};
ghost use Rattle.quic_wire.specs.Value.{stream, datagram};
ghost use Rattle.quic_wire.specs.FrameView.{stream_view};
ghost use Rattle.quic_wire.specs.Items.{items, without_padding, BeginsUnpadded};

use crate::frame::reading::{data_of, frame_of, stream_of, var_of};
use crate::frame::{Frame, InvalidFrame, Stream};
use std::marker::Model;

/// The bytes behind the zeros at the front, each of which is PADDING (RFC 9000, section 19.1).
fn behind_zeros<'a>(bytes: &'a [u8]) -> &'a [u8]
    ensures same { without_padding (items bytes.now) ≡ without_padding (items result.now) }
    ensures few { length result.now ≤ length bytes.now }
{
    let mut rest = bytes;
    while let Some((0, behind)) = rest.split_first() {
        rest = behind;
    }
    rest
}

/// The bytes behind PADDING whose type may have more than a byte, where one stands at the front.
fn behind_wide<'a>(bytes: &'a [u8]) -> Option<&'a [u8]>
    ensures same { IfSome result (λ behind. without_padding (items bytes.now) ≡ without_padding (items behind.now)) }
    ensures fewer { IfSome result (λ behind. length behind.now < length bytes.now) }
    ensures none { IfNone result (BeginsUnpadded (items bytes.now)) }
{
    if bytes.is_empty() {
        return None;
    }
    let first = bytes[0];
    if first % 0x40 != 0 {
        return None;
    }
    let mut behind = bytes;
    match var_of(&mut behind) {
        Ok(ty) => {
            if ty.into_inner() == 0 {
                Some(behind)
            } else {
                None
            }
        }
        Err(_) => None,
    }
}

/// The bytes behind all PADDING at the front.
fn behind_padding<'a>(bytes: &'a [u8]) -> &'a [u8]
    ensures same { without_padding (items bytes.now) ≡ without_padding (items result.now) }
    ensures begins { BeginsUnpadded (items result.now) }
{
    let mut rest = behind_zeros(bytes);
    while let Some(behind) = behind_wide(rest) {
        rest = behind_zeros(behind);
    }
    rest
}

/// The frames of a payload as [`Iter`] gives them, but for PADDING: each byte of that costs a few
/// instructions, and no frame is made of it.
///
/// [`Iter`]: crate::frame::Iter
#[derive(Drop)]
pub struct Unpadded<'a> {
    bytes: &'a [u8],
}

impl<'a> Model for Unpadded<'a> {
    ghost use Rattle.std.specs.Prelude.{ℕ, List};

    ghost Value = { List ℕ };

    ghost view = { λ u. u.bytes.now };
}

impl<'a> Unpadded<'a> {
    /// The frames of this payload but for PADDING.
    pub fn new(payload: &'a [u8]) -> Self
        ensures { result ≡ payload.now }
    {
        Unpadded { bytes: payload }
    }

    /// Takes the STREAM frame that stands next, and makes no [`Frame`] of it, which is larger.
    /// `None` where another item stands there, PADDING or no frame that can be read, or where the
    /// type is written in more than one byte: nothing changes then, and [`next`](Self::next) tells.
    pub fn next_stream(&mut self) -> Option<Stream<'a>>
        ensures some { IfSome result (λ s. without_padding (items self.old) ≡ Ok (stream (stream_view s)) ∷ without_padding (items self.new)) }
        ensures none { IfNone result (self.new ≡ self.old) }
    {
        let (first, behind) = self.bytes.split_first()?;
        let ty = *first;
        if ty < 0x08 || 0x0f < ty {
            return None;
        }
        let mut rest = behind;
        match stream_of(ty.into(), &mut rest) {
            Ok(frame) => {
                self.bytes = rest;
                Some(frame)
            }
            Err(_) => None,
        }
    }

    /// Takes the message of the DATAGRAM frame that stands next, as
    /// [`next_stream`](Self::next_stream) takes a STREAM frame.
    pub fn next_message(&mut self) -> Option<&'a [u8]>
        ensures some { IfSome result (λ m. without_padding (items self.old) ≡ Ok (datagram m.now) ∷ without_padding (items self.new)) }
        ensures none { IfNone result (self.new ≡ self.old) }
    {
        let (first, behind) = self.bytes.split_first()?;
        let ty = *first;
        if ty < 0x30 || 0x31 < ty {
            return None;
        }
        let mut rest = behind;
        match data_of(ty == 0x31, &mut rest) {
            Ok(message) => {
                self.bytes = rest;
                Some(message)
            }
            Err(_) => None,
        }
    }
}

impl<'a> Iterator for Unpadded<'a> {
    type Item = Result<Frame<'a>, InvalidFrame>;

    ghost use Rattle.std.specs.Iterator.{YieldsFirstBy, item_count};
    ghost use Rattle.quic_wire.specs.FrameView.{item_view};

    ghost next_gives = { YieldsFirstBy item_view (λ u. without_padding (items u)) };

    ghost remaining = { item_count (λ u. without_padding (items u)) };

    /// The next frame that isn't PADDING, or `None` behind the last (RFC 9000, section 19).
    /// Nothing follows an error.
    ///
    /// # Errors
    ///
    /// As those of [`Iter`](crate::frame::Iter).
    fn next(&mut self) -> Option<Result<Frame<'a>, InvalidFrame>> {
        let mut rest = behind_padding(self.bytes);
        if rest.is_empty() {
            return None;
        }
        match frame_of(&mut rest) {
            Ok(frame) => {
                self.bytes = rest;
                Some(Ok(frame))
            }
            Err(invalid) => {
                self.bytes = &[];
                Some(Err(invalid))
            }
        }
    }
}
