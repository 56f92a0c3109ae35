//! Why a datagram isn't taken (RFC 9000, sections 5.2, 11 and 12).
ghost use Rattle.std.specs.Prelude.{◌≡◌, true, false, Some};
ghost use Rattle.std.specs.List.{list_any};
ghost use Rattle.quic_wire.specs.FrameView.{frame_view, item_view};
ghost use Rattle.quic_wire.specs.Items.{items};
ghost use Rattle.quic_wire.specs.Value.{padding};
ghost use Rattle.quic_machine.specs.Migration.{as_elsewhere, is_probing, is_telling};
ghost use Rattle.quic_machine.specs.Receive.{is_above, fault_of_breach, plain_error, item_asks, drop_of, violation, is_read, is_taken};
ghost use Rattle.quic_connection_parts.specs.Faults.{fault_view};
ghost use Rattle.quic_spaces.specs.Marks.{is_congested};

use crate::closing::CloseTold;
use quic_machine::{DropReason, Received};
use quic_packet::HeaderError;
use quic_streams_parts::{Breach, ReceivedError};
use quic_wire::frame::{Frame, InvalidFrame, Unpadded};
use quic_wire_core::{Code, EcnCodepoint, Reason, TransportError};
use std::alloc::AllocError;

/// Why the frames of a packet weren't all taken.
#[derive(Debug, Drop)]
pub enum Trouble {
    /// A rule was broken.
    Broke(TransportError),
    /// Too many runs of a stream wait.
    TooManyPieces,
    /// The peer closed: what it said. It lies in a box, so that the answer of each frame is small.
    Closed(Box<CloseTold>),
    /// Out of memory: an allocation failed.
    Memory,
}

/// What the frames of a packet ask for.
#[derive(Clone, Copy, Debug)]
pub struct AckDemand {
    /// Whether the packet is to be acknowledged: it is ack-eliciting (RFC 9000, section 13.2).
    pub asks: bool,
    /// Whether an acknowledgement becomes due at once, as the packet came with CE (section 13.2.1).
    pub urged: bool,
}

impl AckDemand {
    ghost use Rattle.std.specs.Prelude.{◌≡◌, ◌||◌, true};

    /// The same with one more frame, which is ack-eliciting, of a packet that came with this ECN
    /// codepoint.
    pub fn with_asking(self, ecn: Option<EcnCodepoint>) -> Self
        ensures asks { result.asks ≡ true }
        ensures urged { result.urged ≡ (self.urged || is_congested ecn) }
    {
        AckDemand {
            asks: true,
            urged: self.urged || is_congested(ecn),
        }
    }
}

impl From<AllocError> for Trouble {
    ghost use Rattle.std.specs.Prelude.{◌≡◌};
    ghost use Rattle.quic_connection_parts.specs.declared.receiving.Trouble.TheVariants as troubles;

    ghost from_gives = { λ error trouble. trouble ≡ troubles.Memory };

    fn from(_: AllocError) -> Trouble {
        Trouble::Memory
    }
}

impl From<ReceivedError> for Trouble {
    ghost use Rattle.quic_connection_parts.specs.Faults.{Becomes};

    ghost from_gives = { Becomes };

    fn from(error: ReceivedError) -> Trouble {
        match error {
            ReceivedError::Breach(breach) => trouble_of(breach),
            ReceivedError::Memory => Trouble::Memory,
        }
    }
}

/// An error that names no frame.
fn plain_error(code: Code, reason: Reason) -> TransportError
    ensures { result ≡ plain_error code }
{
    TransportError::new(code, None, reason)
}

/// What a broken rule of streams comes to.
pub(crate) fn trouble_of(breach: Breach) -> Trouble
    ensures { fault_view result ≡ Some (fault_of_breach breach) }
{
    let error = match breach {
        Breach::FlowControl => plain_error(Code::FLOW_CONTROL_ERROR, Reason::TooManyBytes),
        Breach::StreamLimit => plain_error(Code::STREAM_LIMIT_ERROR, Reason::TooManyStreams),
        Breach::StreamState => plain_error(Code::STREAM_STATE_ERROR, Reason::NotSendable),
        Breach::FinalSize => plain_error(Code::FINAL_SIZE_ERROR, Reason::FinalSize),
        Breach::FrameEncoding => plain_error(Code::FRAME_ENCODING_ERROR, Reason::TooManyStreams),
        Breach::Pieces => return Trouble::TooManyPieces,
    };
    Trouble::Broke(error)
}

/// Why a datagram with this header is dropped.
pub fn drop_reason(error: HeaderError) -> DropReason
    ensures { result ≡ drop_of error }
{
    match error {
        HeaderError::TooShort => DropReason::TooShort,
        HeaderError::NotShort => DropReason::NotShort,
        HeaderError::FixedBit => DropReason::FixedBit,
        HeaderError::UnknownId => DropReason::UnknownId,
    }
}

/// Whether the frames of a datagram were taken, all of them or those before the first at fault.
pub fn is_read(received: &Received) -> bool
    ensures { result ≡ is_read received.now }
{
    match received {
        Received::Taken | Received::Closed(_) => true,
        Received::Dropped(_) | Received::Failed => false,
    }
}

/// Whether all frames of a datagram were taken, or those before a close.
pub fn is_taken(received: &Received) -> bool
    ensures { result ≡ is_taken received.now }
{
    match received {
        Received::Taken => true,
        Received::Closed(_) | Received::Dropped(_) | Received::Failed => false,
    }
}

/// Whether a frame is of path validation (RFC 9000, sections 8.2.1 and 8.2.2).
pub fn is_of_path(frame: &Frame<'_>) -> bool
    ensures path { result ≡ true → as_elsewhere (frame_view frame.now) ≡ padding }
    ensures other { result ≡ false → as_elsewhere (frame_view frame.now) ≡ frame_view frame.now }
{
    matches!(frame, Frame::PathChallenge(_) | Frame::PathResponse(_))
}

/// Whether a frame may go to find out whether a path carries packets, and so doesn't say that the
/// peer has moved there (RFC 9000, section 9.1).
fn is_probing(frame: &Frame<'_>) -> bool
    ensures { result ≡ is_probing (frame_view frame.now) }
{
    matches!(
        frame,
        Frame::Padding
            | Frame::PathChallenge(_)
            | Frame::PathResponse(_)
            | Frame::NewConnectionId(_)
    )
}

/// Whether an item of a payload is a frame that says that the peer has moved.
fn is_telling(item: &Result<Frame<'_>, InvalidFrame>) -> bool
    ensures { result ≡ is_telling (item_view item.now) }
{
    match item {
        Ok(frame) => !is_probing(frame),
        Err(_) => false,
    }
}

/// Whether a frame that says that the peer has moved stands in a payload.
pub fn tells_address(payload: &[u8]) -> bool
    ensures { result ≡ list_any is_telling (items payload.now) }
{
    for item in Unpadded::new(payload) {
        if is_telling(&item) {
            return true;
        }
    }
    false
}

/// Whether a number lies above the greatest that was named before, if one was.
pub fn is_above(largest_acked: Option<u64>, number: u64) -> bool
    ensures { result ≡ is_above largest_acked number }
{
    match largest_acked {
        None => true,
        Some(largest) => largest < number,
    }
}

/// Whether a frame asks for an acknowledgement; what can't be read as one doesn't.
pub fn item_asks(item: &Result<Frame<'_>, InvalidFrame>) -> bool
    ensures { result ≡ item_asks (item_view item.now) }
{
    match item {
        Ok(frame) => frame.is_ack_eliciting(),
        Err(_) => false,
    }
}

/// PROTOCOL_VIOLATION.
pub fn violation(reason: Reason) -> Trouble
    ensures { fault_view result ≡ Some violation }
{
    Trouble::Broke(plain_error(Code::PROTOCOL_VIOLATION, reason))
}

/// Whether a packet came with the mark CE: a router on the path had too much to carry.
pub fn is_congested(ecn: Option<EcnCodepoint>) -> bool
    ensures { result ≡ is_congested ecn }
{
    match ecn {
        Some(EcnCodepoint::Ce) => true,
        Some(EcnCodepoint::Ect0 | EcnCodepoint::Ect1) | None => false,
    }
}
