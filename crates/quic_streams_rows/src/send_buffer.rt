//! What was written to a stream, what goes of it, and what of it is kept.
ghost use Rattle.std.specs.Prelude.{◌≡◌, true, false, [], ◌∷◌, codes, length};
ghost use Rattle.quic_send_buffer.specs.Buffered.{nothing_written, written, is_fully_acked, has_unsent};
ghost use Rattle.quic_send_buffer.specs.BufferedHistory.{polled};
ghost use Rattle.quic_streams_rows.specs.SendBuffer.{frames_of, kept_over, told_over, after_calls, fetched, put_out, lost_calls, whole_calls, cut_calls, joined_calls, many_calls, all_acked, hello_written, chunks_written, many_chunks_written, two_pieces};

/// Lost bytes go again before new ones: 29 bytes, in frames with 16 bytes of room.
#[tactic(auto, unfolding(quic_sets::specs::Offsets::without_offsets, quic_sets::specs::Offsets::with_offsets, quic_sets::specs::Offsets::parts_from, quic_sets::specs::Pieces::pieces, quic_sets::specs::Pieces::joining, quic_sets::specs::Pieces::with_range))]
pub fn lost_bytes_go_again()
    ensures kept { length hello_written.kept ≡ 29 }
    ensures frames { frames_of nothing_written lost_calls ≡ (0, 16, false) ∷ (16, 23, true) ∷ (0, 16, false) ∷ (23, 29, true) ∷ (16, 23, true) ∷ [] }
{}

/// Pieces of 7 and 8 bytes: each is dropped when its last byte is acknowledged, and not before.
#[tactic(auto, unfolding(quic_sets::specs::Offsets::without_offsets, quic_sets::specs::Offsets::with_offsets, quic_sets::specs::Offsets::parts_from, quic_sets::specs::Pieces::pieces, quic_sets::specs::Pieces::joining, quic_sets::specs::Pieces::with_range))]
pub fn whole_pieces_are_dropped()
    ensures frames { frames_of nothing_written whole_calls ≡ (0, 8, true) ∷ (8, 15, true) ∷ (14, 15, true) ∷ [] }
    ensures kept { kept_over nothing_written whole_calls ≡ 7 ∷ 15 ∷ 15 ∷ 15 ∷ 15 ∷ 8 ∷ 8 ∷ 8 ∷ 8 ∷ 0 ∷ [] }
    ensures none_written { is_fully_acked nothing_written ≡ true }
    ensures none_waits { has_unsent nothing_written ≡ false }
    ensures told { told_over nothing_written whole_calls ≡ (false, true) ∷ (false, true) ∷ (false, true) ∷ (false, false) ∷ (false, false) ∷ (false, false) ∷ (false, false) ∷ (false, true) ∷ (false, false) ∷ (true, false) ∷ [] }
{}

/// 60 bytes are acknowledged and lost here and there: runs come to be two, and two come to be one.
#[tactic(auto, unfolding(quic_sets::specs::Offsets::without_offsets, quic_sets::specs::Offsets::with_offsets, quic_sets::specs::Offsets::parts_from, quic_sets::specs::Pieces::pieces, quic_sets::specs::Pieces::joining, quic_sets::specs::Pieces::with_range))]
pub fn runs_are_cut_and_joined()
    ensures first { frames_of nothing_written cut_calls ≡ (0, 16, false) ∷ (16, 31, false) ∷ (31, 46, false) ∷ (46, 53, true) ∷ (53, 60, true) ∷ (0, 16, false) ∷ (16, 20, true) ∷ (25, 30, true) ∷ (35, 40, true) ∷ (50, 57, true) ∷ [] }
    ensures then { frames_of (after_calls nothing_written cut_calls) joined_calls ≡ (16, 20, true) ∷ (25, 27, true) ∷ (57, 60, true) ∷ [] }
    ensures kept { kept_over (after_calls nothing_written cut_calls) joined_calls ≡ 60 ∷ 60 ∷ 60 ∷ 60 ∷ 60 ∷ 60 ∷ 0 ∷ [] }
{}

/// Of 90 bytes in flight every second is acknowledged, 44 in all. What is left of them is lost and
/// goes again, and in the end one run has all.
#[tactic(auto, unfolding(quic_sets::specs::Offsets::without_offsets, quic_sets::specs::Offsets::with_offsets, quic_sets::specs::Offsets::parts_from, quic_sets::specs::Pieces::pieces, quic_sets::specs::Pieces::joining, quic_sets::specs::Pieces::with_range))]
pub fn many_runs_come_to_be_one()
    ensures frames { frames_of nothing_written many_calls ≡ (0, 90, true) ∷ (0, 1, true) ∷ (2, 3, true) ∷ [] }
    ensures kept { length (after_calls nothing_written many_calls).kept ≡ 90 }
    ensures one { length (after_calls (after_calls nothing_written many_calls) all_acked).kept ≡ 0 }
{}

/// The bytes of a frame are fetched at its offsets.
pub fn bytes_are_fetched_at_their_offsets()
    ensures first { fetched hello_written 0 16 ≡ codes "Hello, world wit" }
    ensures second { fetched hello_written 16 23 ≡ codes "h extra" }
{}

/// Of four chunks 12 bytes are taken: each chunk is a piece, the last one cut, and one without a
/// byte is none.
pub fn chunks_are_pieces()
    ensures pieces { chunks_written.pieces ≡ 7 ∷ 5 ∷ [] }
    ensures written { written chunks_written ≡ 12 }
    ensures unsent { chunks_written.unsent ≡ 0 }
    ensures kept { length chunks_written.kept ≡ 12 }
    ensures acked { is_fully_acked chunks_written ≡ false }
    ensures waits { has_unsent chunks_written ≡ true }
    ensures frames { frames_of chunks_written (polled 64 ∷ []) ≡ (0, 12, true) ∷ [] }
    ensures first { fetched chunks_written 0 12 ≡ codes "Hello, " }
    ensures second { fetched chunks_written 7 12 ≡ codes "world" }
{}

/// Of 24 chunks of two bytes all but the last byte are taken.
pub fn many_chunks_are_pieces()
    ensures written { written many_chunks_written ≡ 47 }
    ensures unsent { many_chunks_written.unsent ≡ 0 }
    ensures kept { length many_chunks_written.kept ≡ 47 }
    ensures acked { is_fully_acked many_chunks_written ≡ false }
    ensures waits { has_unsent many_chunks_written ≡ true }
    ensures frames { frames_of many_chunks_written (polled 64 ∷ []) ≡ (0, 47, true) ∷ [] }
    ensures whole { fetched many_chunks_written 44 47 ≡ codes "ab" }
    ensures cut { fetched many_chunks_written 46 47 ≡ codes "a" }
{}

/// Two writes are two pieces: a range over both is fetched piece by piece, and appended whole.
pub fn ranges_go_over_pieces()
    ensures frames { frames_of two_pieces (polled 64 ∷ []) ≡ (0, 12, true) ∷ [] }
    ensures first { fetched two_pieces 3 12 ≡ codes "lo, " }
    ensures whole { put_out two_pieces 3 12 ≡ codes "lo, world" }
{}
