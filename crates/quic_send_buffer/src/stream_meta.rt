//! What a frame of a stream carries, and whether a call left something to send.
ghost use Rattle.std.specs.Prelude.{◌≡◌, false};
ghost use Rattle.quic_wire_core.specs.StreamId.{stream_id};
ghost use Rattle.quic_wire_core.specs.declared.stream_id.Side.TheVariants.{Client};
ghost use Rattle.quic_wire_core.specs.declared.stream_id.Dir.TheVariants.{Bi};

use quic_wire_core::{Dir, Side, StreamId};
use std::ops::Range;

/// What a STREAM frame carries, but for its bytes (RFC 9000, 19.8), as quinn-proto's `StreamMeta`.
#[derive(Debug, Drop)]
pub struct StreamMeta {
    /// The stream.
    pub id: StreamId,
    /// The offsets of the bytes.
    pub offsets: Range<u64>,
    /// Whether the stream ends behind them.
    pub fin: bool,
}

impl Default for StreamMeta {
    ghost is_default = { λ meta. meta ≡ record { id = stream_id Client Bi 0; offsets = record { start = 0; end = 0 }; fin = false } };

    /// No offsets and no end, of the first stream that the client opens for both directions.
    fn default() -> StreamMeta {
        StreamMeta {
            id: StreamId::new(Side::Client, Dir::Bi, 0),
            offsets: 0..0,
            fin: false,
        }
    }
}

/// Whether a call left something to send, as quinn-proto's `ShouldTransmit`.
#[must_use]
#[derive(Clone, Copy, Debug, PartialEq, Eq)]
pub struct ShouldTransmit(bool);

impl ShouldTransmit {
    /// Something is to be sent, or nothing.
    pub fn new(transmits: bool) -> Self
        ensures { result ≡ record { 0 = transmits } }
    {
        ShouldTransmit(transmits)
    }

    /// Whether a poll may have something to send.
    pub fn should_transmit(self) -> bool
        ensures { result ≡ self.0 }
    {
        self.0
    }
}
