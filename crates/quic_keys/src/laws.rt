//! What stand-in keys have to do with the promises on runs. Each function does nothing: its
//! contract is the law.
ghost use Rattle.std.specs.Prelude.{ℕ};
ghost use Rattle.quic_machine.specs.End.{KeyLimits};
ghost use Rattle.quic_machine.specs.Start.{AreKeys};
ghost use Rattle.quic_keys.specs.Policies.{plain_policies};

/// Stand-in keys meet what the promises on runs ask of keys, whatever their limits and the words
/// that the endpoints draw: they are lawful, and mates in both directions.
pub fn keys_meet_the_premises()
    ensures { (limits peer_limits : KeyLimits) (client server : ℕ → ℕ) → AreKeys (plain_policies limits peer_limits client server) }
{}
