//! The frames of a payload.
use crate::frame::reading::frame_of;
use crate::frame::{Frame, InvalidFrame};
use std::marker::Model;

/// The frames of a payload in turn, and the refusal where the bytes are no frame; nothing comes
/// behind a refusal (quinn-proto's `frame::Iter`). Contracts see it as the bytes that are left.
#[derive(Drop)]
pub struct Iter<'a> {
    bytes: &'a [u8],
}

impl<'a> Model for Iter<'a> {
    ghost use Rattle.std.specs.Prelude.{ℕ, List};

    ghost Value = { List ℕ };

    ghost view = { λ i. i.bytes.now };
}

impl<'a> Iter<'a> {
    ghost use Rattle.std.specs.Prelude.{◌≡◌, List, map, Ok};
    ghost use Rattle.quic_wire.specs.Value.{FrameValue};
    ghost use Rattle.quic_wire.specs.Items.{items};
    ghost use Rattle.quic_wire.specs.Grammar.{Payload};

    /// The frames of this payload. They come without a refusal exactly where the payload is the
    /// bytes of frames (RFC 9000, section 19), and are then those frames.
    pub fn new(payload: &'a [u8]) -> Self
        ensures payload { result ≡ payload.now }
        ensures found { (fs : List FrameValue) → items payload.now ≡ map Ok fs → Payload fs payload.now }
        ensures only { (fs : List FrameValue) → Payload fs payload.now → items payload.now ≡ map Ok fs }
    {
        Iter { bytes: payload }
    }
}

impl<'a> Iterator for Iter<'a> {
    type Item = Result<Frame<'a>, InvalidFrame>;

    ghost use Rattle.std.specs.Iterator.{YieldsFirstBy, item_count};
    ghost use Rattle.quic_wire.specs.Items.{items};
    ghost use Rattle.quic_wire.specs.FrameView.{item_view};

    ghost next_gives = { YieldsFirstBy item_view (λ i. items i) };

    ghost remaining = { item_count (λ i. items i) };

    /// The next frame, or `None` behind the last (RFC 9000, section 19). Nothing follows an error.
    ///
    /// # Errors
    ///
    /// - [`InvalidFrame`] with `UnexpectedEnd`: the type or a field passes the end of the payload.
    /// - [`InvalidFrame`] with `InvalidId`: the type names no frame.
    /// - [`InvalidFrame`] with `Malformed`: a field has a value that its frame doesn't allow.
    fn next(&mut self) -> Option<Result<Frame<'a>, InvalidFrame>> {
        if self.bytes.is_empty() {
            return None;
        }
        let mut rest = self.bytes;
        match frame_of(&mut rest) {
            Ok(frame) => {
                self.bytes = rest;
                Some(Ok(frame))
            }
            Err(invalid) => {
                self.bytes = &[];
                Some(Err(invalid))
            }
        }
    }
}
