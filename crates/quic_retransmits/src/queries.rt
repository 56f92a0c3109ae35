//! What has to be known of streams to tell whether something goes.
ghost use Rattle.std.specs.Prelude.{◌≡◌, ℕ, Bool};

use crate::retransmits::ControlKind;
use quic_wire_core::StreamId;

/// Which of the frames that wait may be sent now (quinn-proto has a query on `StreamsState` for
/// each kind of which not all may).
pub trait LimitQueries {
    ghost use Rattle.quic_retransmits.specs.declared.retransmits.ControlKind.{ControlKind};

    ghost gate: { Self → ControlKind → Bool };

    ghost gate_on: { Self → ControlKind → ℕ → Bool };

    /// Whether a frame of a kind may be sent that names no stream.
    fn counts(&self, kind: ControlKind) -> bool
        ensures { result ≡ gate self.now kind };

    /// Whether a frame of a kind may be sent that names this stream.
    fn counts_on(&self, kind: ControlKind, id: StreamId) -> bool
        ensures { result ≡ gate_on self.now kind id };
}
