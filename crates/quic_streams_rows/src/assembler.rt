//! What has come of a stream, and what reads of it give.
ghost use Rattle.std.specs.Prelude.{◌≡◌, true, false, [], ◌∷◌, codes, replicate, None};
ghost use Rattle.quic_assembler.specs.Arrived.{bytes_read_of, runs_of, given_by};
ghost use Rattle.quic_streams_rows.specs.Assembler.{chunk, gives, left_after, is_waiting, is_refused, twice_come, gap_come, gap_filled, begun_unordered, picked_first, picked_filled, half_cleared, come_again, runs_apart, one_more_apart, come_apart, chunks_apart, forty_apart};

/// Of bytes that come twice the first stand: `123` comes at offset 0, and `234` at 1.
pub fn first_bytes_stand()
    ensures given { gives twice_come (32 ∷ 32 ∷ 32 ∷ []) ≡ chunk 0 (codes "123") ∷ chunk 3 (codes "4") ∷ None ∷ [] }
    ensures first { is_waiting twice_come ≡ true }
    ensures second { is_waiting (left_after twice_come (32 ∷ [])) ≡ true }
    ensures last { is_waiting (left_after twice_come (32 ∷ 32 ∷ [])) ≡ false }
{}

/// `34` comes at offset 2, and then five bytes from 0 on: these fill the gaps before and behind it.
pub fn both_gaps_are_filled()
    ensures blocked { is_waiting gap_come ≡ false }
    ensures nothing { given_by gap_come 32 ≡ None }
    ensures one_run { runs_of gap_filled.parts ≡ 1 }
    ensures unread { bytes_read_of gap_filled ≡ 0 }
    ensures given { gives gap_filled (9 ∷ 1 ∷ 9 ∷ 9 ∷ []) ≡ chunk 0 (codes "xx") ∷ chunk 2 (codes "3") ∷ chunk 3 (codes "4") ∷ chunk 4 (codes "x") ∷ [] }
{}

/// `56` comes at offset 4, and a read in no order gives its first byte. From then on none is in
/// order. Seven bytes that come from offset 0 on don't bring that byte again.
pub fn unordered_reads_give_each_byte_once()
    ensures ordered { is_refused true picked_first ≡ true }
    ensures unordered { is_refused false picked_first ≡ false }
    ensures first { given_by begun_unordered 1 ≡ chunk 4 (codes "5") }
    ensures given { gives picked_filled (9 ∷ 9 ∷ 9 ∷ []) ≡ chunk 0 (codes "1234") ∷ chunk 5 (codes "6") ∷ chunk 6 (codes "z") ∷ [] }
    ensures read { bytes_read_of (left_after picked_filled (9 ∷ 9 ∷ 9 ∷ [])) ≡ 7 }
    ensures no_runs { runs_of (left_after picked_filled (9 ∷ 9 ∷ 9 ∷ [])).parts ≡ 0 }
{}

/// What waits is dropped behind a read of two bytes, and may come again; what was read stays so.
pub fn cleared_bytes_are_gone()
    ensures read { bytes_read_of half_cleared ≡ 2 }
    ensures no_runs { runs_of half_cleared.parts ≡ 0 }
    ensures nothing { given_by half_cleared 32 ≡ None }
    ensures waits { is_waiting half_cleared ≡ false }
    ensures given { given_by come_again 9 ≡ chunk 2 (codes "yz") }
{}

/// A byte at each of 2048 odd offsets makes as many runs, and one more is kept as any other. Of 40
/// that come one behind another each is read in no order, the least first.
pub fn runs_are_counted()
    ensures most { runs_of (runs_apart 2048).parts ≡ 2048 }
    ensures more { runs_of (one_more_apart 2048).parts ≡ 2049 }
    ensures kept { one_more_apart 2048 ≡ runs_apart 2049 }
    ensures come { come_apart 40 ≡ runs_apart 40 }
    ensures given { gives forty_apart (replicate 40 9) ≡ chunks_apart 0 40 }
    ensures read { bytes_read_of (left_after forty_apart (replicate 40 9)) ≡ 40 }
    ensures no_runs { runs_of (left_after forty_apart (replicate 40 9)).parts ≡ 0 }
{}
