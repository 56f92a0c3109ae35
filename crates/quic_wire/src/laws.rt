//! What the definitions say together, for the crates above.
ghost use Rattle.std.specs.Prelude.{◌≡◌};
ghost use Rattle.quic_wire.specs.Arriving.{FramesArrive};

use crate::frame::{
    ApplicationClose, ConnectionClose, Datagram, NewConnectionId, ResetStream, StopSending, Stream,
};

/// Frames that were sent are the frames that a mate reads, where the expected number lies from the
/// greatest acknowledged up to less than half a window above the datagram's.
pub fn frames_arrive()
    ensures { FramesArrive }
{}

/// The most bytes of a frame, or of what stands in it before its bytes, where its type takes one
/// byte and each number eight (RFC 9000, section 19; RFC 9221, section 4).
pub fn constants_are_these()
    ensures reset_stream { ResetStream.SIZE_BOUND ≡ 25 }
    ensures stop_sending { StopSending.SIZE_BOUND ≡ 17 }
    ensures stream { Stream.SIZE_BOUND ≡ 25 }
    ensures new_connection_id { NewConnectionId.SIZE_BOUND ≡ 54 }
    ensures connection_close { ConnectionClose.SIZE_BOUND ≡ 25 }
    ensures application_close { ApplicationClose.SIZE_BOUND ≡ 17 }
    ensures datagram { Datagram.SIZE_BOUND ≡ 9 }
{}
