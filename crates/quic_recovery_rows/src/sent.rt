//! Packets that were sent, by number (RFC 9002, section A.1.1), and those that an ACK frame names.
ghost use Rattle.std.specs.Prelude.{◌≡◌, ◌^◌, ◌-◌, true, false, [], ◌∷◌, Some, None, option_map, is_some};
ghost use Rattle.std.specs.Map.{keys_of};
ghost use Rattle.quic_streams_parts.specs.Table.{at, without};
ghost use Rattle.quic_sent_packets.specs.Packets.{asks_any, has_in_flight, oldest, newest, from, within};
ghost use Rattle.quic_recovery_rows.specs.Sent.{three_apart};

/// 0, 5000 and 3 go, of which the last asks.
pub fn far_numbers_stand_together()
    ensures nothing { oldest (from 0 []) ≡ None }
    ensures numbers { keys_of three_apart ≡ 0 ∷ 3 ∷ 5000 ∷ [] }
    ensures first { option_map (λ p. p.0) (oldest (from 0 three_apart)) ≡ Some 0 }
    ensures second { option_map (λ p. p.0) (oldest (from 1 three_apart)) ≡ Some 3 }
    ensures third { option_map (λ p. p.0) (oldest (from 4 three_apart)) ≡ Some 5000 }
    ensures last { option_map (λ p. p.0) (newest (within 0 (2 ^ 64 - 1) three_apart)) ≡ Some 5000 }
    ensures below { option_map (λ p. p.0) (newest (within 0 4999 three_apart)) ≡ Some 3 }
    ensures asking { asks_any three_apart ≡ true }
    ensures there { is_some (at three_apart 3) ≡ true }
    ensures gone { at (without three_apart 3) 3 ≡ None }
    ensures silent { asks_any (without three_apart 3) ≡ false }
    ensures flight { has_in_flight (without three_apart 3) ≡ true }
    ensures left { keys_of (without three_apart 3) ≡ 0 ∷ 5000 ∷ [] }
{}
