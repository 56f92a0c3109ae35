//! What a write takes its bytes from, and the stream that a frame is of by default.
ghost use Rattle.std.specs.Prelude.{◌≡◌, [], ◌∷◌, codes};
ghost use Rattle.quic_wire_core.specs.StreamId.{stream_id};
ghost use Rattle.quic_wire_core.specs.declared.stream_id.Side.TheVariants.{Client};
ghost use Rattle.quic_wire_core.specs.declared.stream_id.Dir.TheVariants.{Bi};
ghost use Rattle.quic_send_buffer.specs.Source.{one_buffer};
ghost use Rattle.quic_streams_rows.specs.Sources.{pops};

/// A slice is one buffer, used up with its last byte.
pub fn a_slice_is_one_buffer()
    ensures { pops 3 (one_buffer (codes "abc")) ≡ (codes "ab", 0) ∷ (codes "c", 1) ∷ ([], 0) ∷ [] }
{}

/// Buffers without a byte are passed, and count as used up.
pub fn empty_buffers_are_passed()
    ensures { pops 3 ([] ∷ codes "abc" ∷ [] ∷ []) ≡ (codes "ab", 1) ∷ (codes "c", 1) ∷ ([], 1) ∷ [] }
{}

/// The stream that what a frame carries names by default, the first that the client opens both
/// ways, has the ID 0.
pub fn first_stream_is_0()
    ensures { stream_id Client Bi 0 ≡ 0 }
{}
