//! Pacing (RFC 9002, section 7.7).
ghost use Rattle.std.specs.Prelude.{◌≡◌, true, Some, None};
ghost use Rattle.quic_congestion.specs.Pacer.{new_pacing, delay_of, after_ask, answer_of};
ghost use Rattle.quic_recovery_rows.specs.Bursts.{trip, asks, asks_at, go_at_once, behind};

/// Where 2,000,000 bytes go in 50 ms, 80 datagrams of 1000 bytes go at once. The next one waits
/// for a full pacer, 1.6 ms; after the half of that time 40 go.
#[tactic(auto, unfolding(crate::specs::Bursts::go_at_once, crate::specs::Bursts::behind))]
pub fn bursts_are_of_eighty_datagrams()
    ensures eighty { go_at_once 80 0 (new_pacing trip 2000000 1000 0) ≡ true }
    ensures waits { answer_of (behind 80 0 (new_pacing trip 2000000 1000 0)) (asks_at 0) ≡ Some 1600000 }
    ensures forty { go_at_once 40 800000 (behind 80 0 (new_pacing trip 2000000 1000 0)) ≡ true }
    ensures waits_again { answer_of (behind 40 800000 (behind 80 0 (new_pacing trip 2000000 1000 0))) (asks_at 800000) ≡ Some 2400000 }
    ensures eighty_again { go_at_once 80 2400000 (behind 40 800000 (behind 80 0 (new_pacing trip 2000000 1000 0))) ≡ true }
    ensures waits_at_last { answer_of (behind 80 2400000 (behind 40 800000 (behind 80 0 (new_pacing trip 2000000 1000 0)))) (asks_at 2400000) ≡ Some 4000000 }
{}

/// A pacer that was just made is full. Without a round trip its capacity is the greatest, of 256
/// datagrams, and where the window is small the least, of ten.
pub fn capacity_follows_window_and_size()
    ensures all { answer_of (new_pacing trip 2000000 1500 0) (asks 80000 1500 2000000) ≡ None }
    ensures one_more { answer_of (after_ask (new_pacing trip 2000000 1500 0) (asks 80000 1500 2000000)) (asks 80001 1500 2000000) ≡ Some 20 }
    ensures most { answer_of (new_pacing 0 2000000 1500 0) (asks 384000 1500 2000000) ≡ None }
    ensures above_most { answer_of (after_ask (new_pacing 0 2000000 1500 0) (asks 384000 1500 2000000)) (asks 384001 1500 2000000) ≡ Some 20 }
    ensures least { answer_of (new_pacing trip 1 1500 0) (asks 15000 1500 1) ≡ None }
    ensures above_least { answer_of (after_ask (new_pacing trip 1 1500 0) (asks 15000 1500 1)) (asks 15001 1500 1) ≡ Some 40000000 }
{}

/// Another window or size gives another capacity: 160000, 40000, 80000 and 200000 bytes, one after
/// another. What is waited for are the bytes that a full pacer lacks, or one byte.
pub fn capacity_changes()
    ensures wide { answer_of (new_pacing trip 2000000 1500 0) (asks 80000 1500 4000000) ≡ None }
    ensures wide_waits { answer_of (after_ask (new_pacing trip 2000000 1500 0) (asks 80000 1500 4000000)) (asks 80001 1500 4000000) ≡ Some 800000 }
    ensures narrow { let p = after_ask (new_pacing trip 2000000 1500 0) (asks 80001 1500 4000000) in
        answer_of p (asks 40000 1500 1000000) ≡ None }
    ensures narrow_waits { let p = after_ask (new_pacing trip 2000000 1500 0) (asks 80001 1500 4000000) in
        answer_of (after_ask p (asks 40000 1500 1000000)) (asks 40001 1500 1000000) ≡ Some 40 }
    ensures long { let p = after_ask (after_ask (new_pacing trip 2000000 1500 0) (asks 80001 1500 4000000)) (asks 40001 1500 1000000) in
        answer_of p (asks 40000 3000 2000000) ≡ None }
    ensures long_waits { let p = after_ask (after_ask (new_pacing trip 2000000 1500 0) (asks 80001 1500 4000000)) (asks 40001 1500 1000000) in
        answer_of (after_ask p (asks 40000 3000 2000000)) (asks 40001 3000 2000000) ≡ Some 800000 }
    ensures longer { let p = after_ask (after_ask (after_ask (new_pacing trip 2000000 1500 0) (asks 80001 1500 4000000)) (asks 40001 1500 1000000)) (asks 40001 3000 2000000) in
        answer_of p (asks 40000 20000 2000000) ≡ None }
    ensures longer_waits { let p = after_ask (after_ask (after_ask (new_pacing trip 2000000 1500 0) (asks 80001 1500 4000000)) (asks 40001 1500 1000000)) (asks 40001 3000 2000000) in
        answer_of (after_ask p (asks 40000 20000 2000000)) (asks 40001 20000 2000000) ≡ Some 3200000 }
{}

/// A round trip of 0 isn't paced, and a moment may be earlier than the last.
pub fn nothing_waits_without_a_round_trip()
    ensures { delay_of (new_pacing 400000 30000 1500 15000) 0 1600 1500 1 0 ≡ None }
{}
