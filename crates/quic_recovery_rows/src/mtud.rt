//! Path MTU discovery (RFC 8899, section 5.3).
ghost use Rattle.std.specs.Prelude.{◌≡◌, true, false, [], ◌∷◌, ◌++◌, replicate, Some, None};
ghost use Rattle.quic_config.specs.Configs.{default_search};
ghost use Rattle.quic_congestion.specs.Search.{new_discovery, disabled_discovery, poll_names, after_poll, open_probe, acknowledged_probe, is_searching, after_ack, after_reset, after_limit, finds_black_hole, after_question};
ghost use Rattle.quic_recovery_rows.specs.Searches.{seconds, up_to, carries, each_second, probed, lost};

/// While a probe is open nothing else is probed. Once it is acknowledged, its size is the path's.
pub fn one_probe_is_open()
    ensures named { poll_names 0 (up_to 1452) ≡ Some 1326 }
    ensures open { open_probe (after_poll 0 0 (up_to 1452)) ≡ Some 0 }
    ensures none { poll_names 0 (after_poll 0 0 (up_to 1452)) ≡ None }
    ensures probe { acknowledged_probe 0 (after_poll 0 0 (up_to 1452)) ≡ Some 1326 }
    ensures size { (after_ack 0 1326 (after_poll 0 0 (up_to 1452))).size ≡ 1326 }
{}

/// Each probe halves what is left. One that is lost goes three times.
#[tactic(auto, unfolding(crate::specs::Searches::probed))]
pub fn searches_halve()
    ensures sizes { (probed 4 (carries 1500) (up_to 1452)).sizes ≡ 1326 ∷ 1389 ∷ 1420 ∷ 1452 ∷ [] }
    ensures none { poll_names 0 (probed 4 (carries 1500) (up_to 1452)).left ≡ None }
    ensures size { (probed 4 (carries 1500) (up_to 1452)).left.size ≡ 1452 }
    ensures lost { (probed 4 (carries 1300) (up_to 1452)).sizes ≡ replicate 3 1326 ++ 1262 ∷ [] }
{}

/// Of greater bounds all sizes are lost that the path doesn't carry.
#[tactic(auto, unfolding(crate::specs::Searches::probed))]
pub fn greater_sizes_are_lost()
    ensures sizes { (probed 22 (carries 1500) (up_to 10000)).sizes
        ≡ replicate 3 5600 ++ (replicate 3 3399 ++ (replicate 3 2299 ++ (replicate 3 1749
        ++ (1474 ∷ (replicate 3 1611 ++ (replicate 3 1542 ++ replicate 3 1507)))))) }
    ensures none { poll_names 0 (probed 22 (carries 1500) (up_to 10000)).left ≡ None }
    ensures size { (probed 22 (carries 1500) (up_to 10000)).left.size ≡ 1474 }
{}

/// The search behind one that has ended begins 600 seconds later.
#[tactic(auto, unfolding(crate::specs::Searches::probed))]
pub fn next_search_waits()
    ensures sizes { (probed 23 (carries 1500) (up_to 9000)).sizes
        ≡ replicate 3 5100 ++ (replicate 3 3149 ++ (replicate 3 2174 ++ (replicate 3 1686
        ++ (1442 ∷ (replicate 3 1563 ++ (replicate 3 1502 ++ (1471 ∷ replicate 3 1501))))))) }
    ensures none { poll_names 0 (probed 23 (carries 1500) (up_to 9000)).left ≡ None }
    ensures size { (probed 23 (carries 1500) (up_to 9000)).left.size ≡ 1471 }
    ensures waits { let d = after_poll 0 7 (probed 23 (carries 1500) (up_to 9000)).left in
        poll_names (seconds 599) d ≡ None }
    ensures begins { let d = after_poll 0 7 (probed 23 (carries 1500) (up_to 9000)).left in
        poll_names (seconds 600) (after_poll (seconds 599) 7 d) ≡ Some 5235 }
{}

/// No size is above the limit that the peer set, whether it was known at first, is kept by a reset,
/// or comes where nothing is looked for (RFC 9000, section 18.2, max_udp_payload_size).
#[tactic(auto, unfolding(crate::specs::Searches::probed))]
pub fn peer_limits_sizes()
    ensures sizes { (probed 3 (carries 1500) (new_discovery 1200 1200 (Some 1300) default_search)).sizes
        ≡ 1250 ∷ 1275 ∷ 1300 ∷ [] }
    ensures none { poll_names 0 (probed 3 (carries 1500) (new_discovery 1200 1200 (Some 1300) default_search)).left ≡ None }
    ensures size { (probed 3 (carries 1500) (new_discovery 1200 1200 (Some 1300) default_search)).left.size ≡ 1300 }
    ensures cut { (new_discovery 1500 1200 (Some 1400) default_search).size ≡ 1400 }
    ensures cut_none { poll_names 0 (new_discovery 1500 1200 (Some 1400) default_search) ≡ None }
    ensures reset { (after_reset 1450 1200 (new_discovery 1500 1200 (Some 1400) default_search)).size ≡ 1400 }
    ensures reset_none { poll_names 0 (after_reset 1450 1200 (new_discovery 1500 1200 (Some 1400) default_search)) ≡ None }
    ensures disabled { (disabled_discovery 1400 1250).size ≡ 1400 }
    ensures disabled_none { poll_names 0 (disabled_discovery 1400 1250) ≡ None }
    ensures disabled_rests { is_searching (disabled_discovery 1400 1250) ≡ false }
    ensures limited { (after_limit 1300 (disabled_discovery 1400 1250)).size ≡ 1300 }
    ensures limited_none { poll_names 0 (after_limit 1300 (disabled_discovery 1400 1250)) ≡ None }
{}

/// Where of the probes each second one is lost, the greatest size of a payload is found with the
/// 24th.
#[tactic(auto, unfolding(crate::specs::Searches::probed))]
pub fn greatest_size_is_found()
    ensures none { poll_names 0 (probed 24 each_second (up_to 65527)).left ≡ None }
    ensures size { (probed 24 each_second (up_to 65527)).left.size ≡ 65527 }
    ensures open { open_probe (probed 23 each_second (up_to 65527)).left ≡ None }
{}

/// Four bursts of losses show that the path carries less, once: the size is the least one, and the
/// next search begins 60 seconds later (RFC 8899, section 4.3).
pub fn black_hole_is_found()
    ensures found { finds_black_hole (lost (0 ∷ 2 ∷ 4 ∷ 6 ∷ []) 1300 (up_to 1452)) ≡ true }
    ensures size { (after_question 0 (lost (0 ∷ 2 ∷ 4 ∷ 6 ∷ []) 1300 (up_to 1452))).size ≡ 1200 }
    ensures none { poll_names 0 (after_question 0 (lost (0 ∷ 2 ∷ 4 ∷ 6 ∷ []) 1300 (up_to 1452))) ≡ None }
    ensures once { finds_black_hole (after_question 0 (lost (0 ∷ 2 ∷ 4 ∷ 6 ∷ []) 1300 (up_to 1452))) ≡ false }
    ensures waits { poll_names (seconds 59) (after_question 0 (lost (0 ∷ 2 ∷ 4 ∷ 6 ∷ []) 1300 (up_to 1452))) ≡ None }
    ensures begins { poll_names (seconds 60) (after_question 0 (lost (0 ∷ 2 ∷ 4 ∷ 6 ∷ []) 1300 (up_to 1452))) ≡ Some 1326 }
    ensures disabled { finds_black_hole (lost (0 ∷ 2 ∷ 4 ∷ 6 ∷ []) 1300 (disabled_discovery 1400 1250)) ≡ true }
    ensures disabled_size { (after_question 0 (lost (0 ∷ 2 ∷ 4 ∷ 6 ∷ []) 1300 (disabled_discovery 1400 1250))).size ≡ 1250 }
    ensures disabled_none { poll_names 0 (after_question 0 (lost (0 ∷ 2 ∷ 4 ∷ 6 ∷ []) 1300 (disabled_discovery 1400 1250))) ≡ None }
{}

/// Losses that follow one another are one burst, those of sizes that each path carries count for
/// none, and neither do those of a size of which a later packet arrived, or as great a one.
pub fn other_losses_are_no_black_hole()
    ensures small { finds_black_hole (lost (4 ∷ []) 800 (lost (2 ∷ 3 ∷ []) 1300 (up_to 1452))) ≡ false }
    ensures no_probe { acknowledged_probe 8 (up_to 1452) ≡ None }
    ensures greater { finds_black_hole (lost (0 ∷ 2 ∷ 4 ∷ 6 ∷ []) 1400 (after_ack 8 1500 (up_to 1452))) ≡ false }
    ensures between { finds_black_hole (lost (7 ∷ []) 1400 (after_ack 6 1400 (lost (0 ∷ 2 ∷ 4 ∷ []) 1400 (up_to 1452)))) ≡ false }
{}

/// A packet that went before the losses explains none of them, and one that went behind them does.
pub fn later_packets_explain_losses()
    ensures before { finds_black_hole (lost (0 ∷ 2 ∷ 4 ∷ 6 ∷ []) 1400 (after_ack 0 1500 (up_to 1452))) ≡ true }
    ensures around { finds_black_hole (lost (1 ∷ 3 ∷ 5 ∷ 7 ∷ []) 1400
        (after_ack 8 1400 (after_ack 0 1400 (up_to 1452)))) ≡ false }
    ensures behind { finds_black_hole (lost (9 ∷ 11 ∷ 13 ∷ 15 ∷ []) 1400 (after_question 0 (lost (1 ∷ 3 ∷ 5 ∷ 7 ∷ []) 1400
        (after_ack 8 1400 (after_ack 0 1400 (up_to 1452)))))) ≡ true }
{}
