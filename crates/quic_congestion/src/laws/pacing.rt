//! What the definitions of pacing say together.
ghost use Rattle.std.specs.Prelude.{◌≡◌, ℕ, ◌+◌, ◌-◌, ◌*◌, ◌/◌, ◌<◌, ◌≤◌, ◌^◌, List, None, fold, is_none, IfSome};
ghost use Rattle.quic_congestion.specs.declared.pacing.TheConstants.{BURST_INTERVAL_NANOS, MIN_BURST_SIZE, MAX_BURST_SIZE};
ghost use Rattle.quic_congestion.specs.Pacer.{burst_interval, least_burst, most_burst, Pacing, IsPacing, capacity_of, new_pacing, after_datagram, tokens_after, after_delay, delay_of, goes_at_once, gained, time_for, Ask, Call, after_ask, answer_of, pacing_after, covered_bytes, AreAsked};

/// Datagrams take as many tokens as they have bytes together, and all of them where they have more.
pub fn tokens_are_bytes()
    ensures { (p : Pacing) (lengths : List ℕ) → fold after_datagram p lengths ≡ record p { tokens = tokens_after p.tokens lengths } }
{}

/// A pacer never holds more than its capacity, which is from 10 datagrams to 256: at first, after
/// each call, and after any calls. Another window or size than before gives it anew.
pub fn bursts_are_bounded()
    ensures made { (rtt window size moment : ℕ) → IsPacing (new_pacing rtt window size moment) }
    ensures sent { (p : Pacing) (len : ℕ) → IsPacing p → IsPacing (after_datagram p len) }
    ensures asked { (p : Pacing) (rtt bytes size window moment : ℕ) → IsPacing p → IsPacing (after_delay p rtt bytes size window moment) }
    ensures bounds { (calls : List Call) (p : Pacing) → IsPacing p → IsPacing (pacing_after calls p) }
    ensures last { (p : Pacing) (ask : Ask) → (p.window ≡ ask.window → p.size ≡ ask.size → ⊥) → (after_ask p ask).capacity ≡ capacity_of ask.rtt ask.window ask.size }
{}

/// Bytes wait exactly where they're paced and the pacer then lacks a token for one of them, and
/// never until a moment that is earlier.
pub fn bytes_wait_for_tokens()
    ensures waits { (p : Pacing) (rtt bytes size window moment : ℕ) → is_none (delay_of p rtt bytes size window moment) ≡ goes_at_once (after_delay p rtt bytes size window moment) rtt bytes window }
    ensures later { (p : Pacing) (rtt bytes size window moment : ℕ) → moment < 2 ^ 64 → IfSome (delay_of p rtt bytes size window moment) (λ until. moment ≤ until) }
{}

/// In the time that is waited for tokens no more than these come, and besides what comes in 4 ns
/// all but one.
pub fn waits_are_for_what_lacks()
    ensures most { (rtt missing window : ℕ) → 0 < rtt → 0 < window → gained rtt window (time_for rtt missing window) ≤ missing }
    ensures least { (rtt missing window : ℕ) → 0 < rtt → 0 < window → missing ≤ gained rtt window (time_for rtt missing window) + window * 5 / rtt + 1 }
{}

/// However window, round trip and size change: datagrams that have their tokens go no faster than
/// the tokens at first and five quarters of the greatest window in each shortest round trip; and
/// what a pacer lets go has its tokens, where it's paced.
pub fn bytes_go_at_five_quarters()
    ensures rate { (calls : List Call) (p : Pacing) (rtt window until : ℕ) → 0 < rtt → AreAsked calls rtt window p.refilled until → covered_bytes calls p + (pacing_after calls p).tokens ≤ p.tokens + gained rtt window (until - p.refilled) }
    ensures let_go { (p : Pacing) (ask : Ask) → 0 < ask.rtt → ask.window < 2 ^ 32 → answer_of p ask ≡ None → ask.bytes ≤ (after_ask p ask).tokens }
{}

/// A full pacer lets go what the window gives in 2 ms, but at least 10 datagrams and at most 256:
/// our choice, as RFC 9002, section 7.7, names no numbers.
pub fn constants_are_these()
    ensures interval { BURST_INTERVAL_NANOS ≡ burst_interval }
    ensures least { MIN_BURST_SIZE ≡ least_burst }
    ensures most { MAX_BURST_SIZE ≡ most_burst }
{}
