//! Paths: what is in flight, and challenges (RFC 9000, sections 8.2 and 9).
ghost use Rattle.std.specs.Prelude.{◌≡◌, true, false, Some, None, is_none};
ghost use Rattle.quic_time.specs.Rtt.{best_rtt};
ghost use Rattle.quic_paths.specs.Paths.{next_path, path_with, path_without, path_challenged, challenge_to_send, path_after_challenge, answers, path_answered, is_blocked};
ghost use Rattle.quic_paths.specs.Responses.{newest};
ghost use Rattle.quic_recovery_rows.specs.UsedPaths.{millis, fresh_path, used_path};

/// A path in place of another keeps what was measured, and has nothing in flight.
pub fn next_path_keeps_the_round_trip()
    ensures address { (next_path 9 used_path 1 7 12000).remote ≡ 9 }
    ensures generation { (next_path 9 used_path 1 7 12000).generation ≡ 1 }
    ensures size { (next_path 9 used_path 1 7 12000).discovery.size ≡ 1200 }
    ensures trip { best_rtt (next_path 9 used_path 1 7 12000).rtt ≡ millis 40 }
    ensures flight { (next_path 9 used_path 1 7 12000).in_flight.bytes ≡ 0 }
    ensures blocked { is_blocked (next_path 9 used_path 1 7 12000) 1 ≡ true }
{}

/// Packets of another generation leave flight as it is.
pub fn other_paths_change_nothing_in_flight()
    ensures other { (path_without (path_with (path_with (fresh_path 3) 1200 true) 40 false) 2 1200 true).in_flight
        ≡ record { bytes = 1240; asking = 1 } }
    ensures own { (path_without (path_with (path_with (fresh_path 3) 1200 true) 40 false) 3 1200 true).in_flight
        ≡ record { bytes = 40; asking = 0 } }
{}

/// The latest challenge is to be answered, and it is sent once. The answer validates the path.
pub fn latest_challenge_is_answered()
    ensures none { challenge_to_send (fresh_path 0) ≡ None }
    ensures latest { challenge_to_send (path_challenged (path_challenged (fresh_path 0) 7) 9) ≡ Some 9 }
    ensures once { challenge_to_send (path_after_challenge (Some 9) (path_challenged (path_challenged (fresh_path 0) 7) 9)) ≡ None }
    ensures earlier { answers (path_after_challenge (Some 9) (path_challenged (path_challenged (fresh_path 0) 7) 9)) 7 ≡ false }
    ensures blocked { is_blocked (path_answered (path_after_challenge (Some 9) (path_challenged (path_challenged (fresh_path 0) 7) 9)) 7) 1 ≡ true }
    ensures answered { answers (path_after_challenge (Some 9) (path_challenged (path_challenged (fresh_path 0) 7) 9)) 9 ≡ true }
    ensures validated { is_blocked (path_answered (path_after_challenge (Some 9) (path_challenged (path_challenged (fresh_path 0) 7) 9)) 9) 1 ≡ false }
    ensures again { answers (path_answered (path_after_challenge (Some 9) (path_challenged (path_challenged (fresh_path 0) 7) 9)) 9) 9 ≡ false }
{}

/// The answer that waits is that to the newest packet, of two challenges in one the later.
pub fn newest_challenge_is_answered()
    ensures first { newest None (record { packet = 4; token = 40 }) ≡ Some (record { packet = 4; token = 40 }) }
    ensures older { newest (Some (record { packet = 4; token = 40 })) (record { packet = 3; token = 30 }) ≡ Some (record { packet = 4; token = 40 }) }
    ensures behind { newest None (record { packet = 3; token = 30 }) ≡ Some (record { packet = 3; token = 30 }) }
    ensures later { newest (Some (record { packet = 3; token = 30 })) (record { packet = 3; token = 31 }) ≡ Some (record { packet = 3; token = 31 }) }
{}
