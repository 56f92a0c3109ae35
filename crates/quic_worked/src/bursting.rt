//! The size of a client's datagrams as its observer reckons it, and machines that reckon otherwise.
//! Each function does nothing: its contract is the law.
ghost use Rattle.std.specs.Prelude.{◌≡◌, true, [], ◌∷◌, Some, None};
ghost use Rattle.quic_wire_core.specs.declared.stream_id.Side.TheVariants.{Client};
ghost use Rattle.quic_config.specs.Configs.{default_search};
ghost use Rattle.quic_machine.specs.Machine.{World};
ghost use Rattle.quic_headline.specs.Headline.{IsHonest, IsRun};
ghost use Rattle.quic_headline.specs.PathSizes.{is_probe, sought, with_lost, sizing, SizesFollow, SearchesRest};
ghost use Rattle.quic_worked.specs.Searched.{size_sent, searched_run};
ghost use Rattle.quic_worked.specs.Bursting.{long_ones, searching, long_path, lost_run, one_step, restless_run};

/// A client whose datagram of PING and PADDING alone is larger than its size, and is acknowledged,
/// has datagrams of 1326 bytes from then on, and looks for 1389 next, of 1452 (RFC 8899, section
/// 5.3).
pub fn sizes_are_reckoned()
    ensures follows { SizesFollow searched_run }
    ensures rests { SearchesRest searched_run }
    ensures before { (sizing searched_run Client 1).size ≡ 1200 }
    ensures probe { is_probe (sizing searched_run Client 1).size size_sent ≡ true }
    ensures behind { (sizing searched_run Client 6).size ≡ 1326 }
    ensures next { sought default_search 1326 (sizing searched_run Client 6).seeks ≡ Some 1389 }
{}

/// On a path whose datagrams have 1326 bytes, four are lost at once that have 1300 and lie apart:
/// the size falls to 1200. Where two of them have numbers one behind another, there are three
/// bursts, and it stays (RFC 8899, section 4.3).
pub fn four_bursts_fall()
    ensures four { (with_lost searching 7 (long_ones (0 ∷ 2 ∷ 4 ∷ 6 ∷ [])) long_path).size ≡ 1200 }
    ensures three { (with_lost searching 7 (long_ones (0 ∷ 1 ∷ 3 ∷ 5 ∷ [])) long_path).size ≡ 1326 }
{}

/// A client whose size falls as one datagram is lost.
pub fn fallen_for_one_shows()
    ensures stays { (sizing (lost_run 1200) Client 7).size ≡ 1326 }
    ensures clause { SizesFollow (lost_run 1200) → ⊥ }
    ensures premises { IsHonest (lost_run 1200) }
    ensures machine { (end : World) → IsRun (lost_run 1200) end → ⊥ }
{}

/// A client whose search goes on with a larger size a millisecond behind its end, where it is
/// configured to rest for ten minutes.
pub fn restless_search_shows()
    ensures over { sought one_step 1326 (sizing restless_run Client 6).seeks ≡ None }
    ensures rests { (sizing restless_run Client 6).seeks.rests ≡ 600040000000 }
    ensures clause { SearchesRest restless_run → ⊥ }
    ensures premises { IsHonest restless_run }
    ensures machine { (end : World) → IsRun restless_run end → ⊥ }
{}
