//! What path MTU discovery promises over whole histories.
ghost use Rattle.std.specs.Prelude.{◌≡◌, ℕ, ◌≤◌, eqb, List, ◌∷◌, length, Option, Some, None, IfSome, true};
ghost use Rattle.std.specs.List.{count_by};
ghost use Rattle.quic_congestion.specs.Bursts.{Sign, placed, no_bursts, bursts_over};
ghost use Rattle.quic_congestion.specs.BurstsLaw.{AreDescending};
ghost use Rattle.quic_config.specs.Configs.{SearchSettings};
ghost use Rattle.quic_config.specs.Transport.{TransportSettings, first_mtu};
ghost use Rattle.quic_congestion.specs.Search.{SearchCall, new_discovery, disabled_discovery, Discovery, search_after, search_over, acknowledged_probe, poll_names, search_bound, after_ack, after_limit, first_discovery};
ghost use Rattle.quic_congestion.specs.SearchBounds.{IsAbove, IsBelow, StaysBetween, HandsInNoLess, IsSized, HandsInWithin};
ghost use Rattle.quic_congestion.specs.SearchLaw.{BeginsWith, IsKnown, WasNamed};

/// After any calls the size is one that was handed in, as size or as least size, the peer's limit,
/// or that of an acknowledged probe.
pub fn sizes_are_known()
    ensures searched { (size least : ℕ) (limit : Option ℕ) (settings : SearchSettings) (calls : List SearchCall) → IsKnown (BeginsWith size least limit) (new_discovery size least limit settings) calls (search_over (new_discovery size least limit settings) calls).size }
    ensures disabled { (size least : ℕ) (calls : List SearchCall) → IsKnown (BeginsWith size least None) (disabled_discovery size least) calls (search_over (disabled_discovery size least) calls).size }
{}

/// The open probe has the size that a poll named under its number.
pub fn probes_were_named()
    ensures { (size least : ℕ) (limit : Option ℕ) (settings : SearchSettings) (calls : List SearchCall) (number n : ℕ) → acknowledged_probe number (search_over (new_discovery size least limit settings) calls) ≡ Some n → WasNamed (new_discovery size least limit settings) calls number n }
{}

/// Where nothing below a least size is handed in, and the peer's limit comes while no search is
/// under way, neither the size nor a probe is ever below the least size, and no probe above the
/// peer's limit.
pub fn sizes_stay_between()
    ensures begins { (least size floor : ℕ) (limit : Option ℕ) (settings : SearchSettings) → least ≤ size → least ≤ floor → IsAbove least limit → 2 ≤ settings.least_change → StaysBetween least (new_discovery size floor limit settings) }
    ensures keeps { (least : ℕ) (call : SearchCall) (d : Discovery) → HandsInNoLess least call d → StaysBetween least d → StaysBetween least (search_after call d) }
    ensures named { (least : ℕ) (d : Discovery) (now n : ℕ) → StaysBetween least d → poll_names now d ≡ Some n → (least ≤ n) × IsBelow d.limit n }
{}

/// On a path of which the peer's limit is known from the beginning, and no call hands in less than
/// a least size or more than the limit, the size stays between both, and so does the one to which
/// it falls. No probe is smaller than the size or above the greatest size that is looked at, and an
/// acknowledged packet never lowers the size.
pub fn sizes_stay_within_limits()
    ensures first { (least most : ℕ) (t : TransportSettings) → least ≤ first_mtu t → least ≤ t.min_mtu → t.min_mtu ≤ most → IfSome t.mtu_discovery_config (λ s. 2 ≤ s.least_change) → IsSized least most (after_limit most (first_discovery true None t)) }
    ensures keeps { (least most : ℕ) (call : SearchCall) (d : Discovery) → HandsInWithin least most call d → IsSized least most d → IsSized least most (search_after call d) }
    ensures named { (least most : ℕ) (d : Discovery) (now n : ℕ) → IsSized least most d → poll_names now d ≡ Some n → (d.size ≤ n) × (n ≤ most) }
    ensures bounded { (least most : ℕ) (d : Discovery) (now n bound : ℕ) → IsSized least most d → poll_names now d ≡ Some n → search_bound d ≡ Some bound → n ≤ bound }
    ensures grows { (least most number length : ℕ) (d : Discovery) → IsSized least most d → d.size ≤ (after_ack number length d).size }
{}

/// Where the search is disabled, nothing is probed.
pub fn nothing_is_probed()
    ensures { (size least : ℕ) (calls : List SearchCall) (now : ℕ) → poll_names now (search_over (disabled_discovery size least) calls) ≡ None }
{}

/// Four suspicious bursts are kept at most. One more is put in its place among them, so that of
/// five the last, which goes, is the least.
pub fn greatest_bursts_are_kept()
    ensures four { (least : ℕ) (signs : List Sign) → length (bursts_over (no_bursts least) signs).kept ≤ 4 }
    ensures order { (least : ℕ) (signs : List Sign) → AreDescending (bursts_over (no_bursts least) signs).kept }
    ensures placed { (size : ℕ) (kept : List ℕ) → AreDescending kept → AreDescending (placed size kept) }
    ensures sizes { (size n : ℕ) (kept : List ℕ) → count_by (eqb n) (placed size kept) ≡ count_by (eqb n) (size ∷ kept) }
{}
