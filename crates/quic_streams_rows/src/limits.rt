//! What the peer is told of limits that are used up, and how many pieces of a stream may wait.
ghost use Rattle.std.specs.Prelude.{◌≡◌, [], ◌∷◌};
ghost use Rattle.quic_wire.specs.Value.{data_blocked, stream_data_blocked};
ghost use Rattle.quic_streams_parts.specs.RecvHalf.{most_pieces};
ghost use Rattle.quic_streams_rows.specs.Limits.{opened, seven_taken, start, told, written, often, lost, let_all, let_own};

/// Seven bytes of a stream are taken, as its limit lets. Of five more writes the first makes
/// STREAM_DATA_BLOCKED go, and none behind it does; nor do five that come before it goes make more
/// than one go. Once eight bytes may come one more is taken, and one more such frame goes. One that
/// is lost goes again.
#[tactic(auto, unfolding(quic_sets::specs::Offsets::without_offsets, quic_sets::specs::Offsets::with_offsets, quic_sets::specs::Offsets::parts_from, quic_sets::specs::Pieces::pieces, quic_sets::specs::Pieces::joining, quic_sets::specs::Pieces::with_range))]
pub fn a_limit_of_a_stream_is_said_once()
    ensures once { (often 5 (start (seven_taken (opened 100 7)))).frames ≡ stream_data_blocked (record { id = 0; limit = 7 }) ∷ [] }
    ensures together { (told (written (written (written (start (seven_taken (opened 100 7))))))).frames ≡ stream_data_blocked (record { id = 0; limit = 7 }) ∷ [] }
    ensures raised { (often 5 (let_own 8 (often 5 (start (seven_taken (opened 100 7)))))).frames ≡ stream_data_blocked (record { id = 0; limit = 7 }) ∷ stream_data_blocked (record { id = 0; limit = 8 }) ∷ [] }
    ensures again { (often 5 (lost (often 5 (start (seven_taken (opened 100 7)))))).frames ≡ stream_data_blocked (record { id = 0; limit = 7 }) ∷ stream_data_blocked (record { id = 0; limit = 7 }) ∷ [] }
{}

/// The same of DATA_BLOCKED, where all streams together may bring seven bytes, and then eight.
#[tactic(auto, unfolding(quic_sets::specs::Offsets::without_offsets, quic_sets::specs::Offsets::with_offsets, quic_sets::specs::Offsets::parts_from, quic_sets::specs::Pieces::pieces, quic_sets::specs::Pieces::joining, quic_sets::specs::Pieces::with_range))]
pub fn the_limit_on_all_streams_is_said_once()
    ensures once { (often 5 (start (seven_taken (opened 7 100)))).frames ≡ data_blocked 7 ∷ [] }
    ensures together { (told (written (written (written (start (seven_taken (opened 7 100))))))).frames ≡ data_blocked 7 ∷ [] }
    ensures raised { (often 5 (let_all 8 (often 5 (start (seven_taken (opened 7 100)))))).frames ≡ data_blocked 7 ∷ data_blocked 8 ∷ [] }
    ensures again { (often 5 (lost (often 5 (start (seven_taken (opened 7 100)))))).frames ≡ data_blocked 7 ∷ data_blocked 7 ∷ [] }
{}

/// 2048 pieces of a stream may wait, and one for each 1,024 bytes of a window of more than 2 MiB.
pub fn a_window_bounds_its_pieces()
    ensures none { most_pieces 0 ≡ 2048 }
    ensures small { most_pieces 1048576 ≡ 2048 }
    ensures bound { most_pieces 2097152 ≡ 2048 }
    ensures large { most_pieces 16777216 ≡ 16384 }
{}
