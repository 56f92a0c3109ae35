//! What the keys of scripts have to do with the run that the reference machine is computed on. The
//! function does nothing: its contract is the law.
ghost use Rattle.std.specs.Prelude.{◌≡◌};
ghost use Rattle.quic_wire_core.specs.declared.stream_id.Side.TheVariants.{Client, Server};
ghost use Rattle.quic_congestion.specs.NewReno.{Reno};
ghost use Rattle.quic_machine.specs.End.{ConnectionValue, policy_of};
ghost use Rattle.quic_connection_parts.specs.Drawn.{words_of};
ghost use Rattle.quic_connection.specs.Ends.{Serves};
ghost use Rattle.quic_worked.specs.Worked.{worked_policies};
ghost use Rattle.quic_keys.specs.KeysOf.{keys_of};
ghost use Rattle.quic_keys.specs.Words.{GivesForEver};
ghost use Rattle.quic_keys.specs.declared.key.PlainHeaderKey.{PlainHeaderKey};
ghost use Rattle.quic_keys.specs.declared.key.PlainKey.{PlainKey};
ghost use Rattle.quic_keys.specs.declared.words.Words.{Words};

use quic_keys::{PlainHeaderKey, PlainKey, Words};
use quic_packet::crypto::{HeaderKey, PacketKey};
use rand_core::Rng;

/// In the worked run each end's keys do what the keys of scripts do, and its random source answers
/// 63 for ever.
pub fn worked_run_has_these_keys()
    ensures client { (w : ConnectionValue PlainHeaderKey PlainKey Words Reno) → w.keys ≡ keys_of Client
        → GivesForEver 63 (⟦<Words as Rng>⟧.stream w.random)
        → Serves worked_policies.client
        (policy_of ⟦<PlainHeaderKey as HeaderKey>⟧.protection ⟦<PlainKey as PacketKey>⟧.aead
        ⟦<PlainKey as PacketKey>⟧.seal_limit ⟦<PlainKey as PacketKey>⟧.refusal_limit
        (words_of ⟦<Words as Rng>⟧.stream) w) w.end }
    ensures server { (w : ConnectionValue PlainHeaderKey PlainKey Words Reno) → w.keys ≡ keys_of Server
        → GivesForEver 63 (⟦<Words as Rng>⟧.stream w.random)
        → Serves worked_policies.server
        (policy_of ⟦<PlainHeaderKey as HeaderKey>⟧.protection ⟦<PlainKey as PacketKey>⟧.aead
        ⟦<PlainKey as PacketKey>⟧.seal_limit ⟦<PlainKey as PacketKey>⟧.refusal_limit
        (words_of ⟦<Words as Rng>⟧.stream) w) w.end }
{}
