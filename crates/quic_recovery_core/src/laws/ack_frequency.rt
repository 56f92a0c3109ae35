//! What is asked of acknowledgements.
ghost use Rattle.std.specs.Prelude.{◌≡◌, ℕ, ◌≤◌, true};
ghost use Rattle.quic_parameters.specs.Parameters.{ParameterValues};
ghost use Rattle.quic_wire.specs.declared.frame.AckFrequency.{AckFrequency};
ghost use Rattle.quic_config.specs.Configs.{FrequencySettings};
ghost use Rattle.quic_recovery_core.specs.AckFrequency.{Frequency, least_delay, candidate, longest_delay, is_stale, after_received};
ghost use Rattle.quic_time.specs.Clocks.{granularity};

/// The peer is never asked for less than it allows.
pub fn peers_least_delay_is_kept()
    ensures { (f : Frequency) (rtt : ℕ) (config : FrequencySettings) (peer : ParameterValues) → least_delay peer.min_ack_delay ≤ candidate f rtt config peer }
{}

/// A frame that came is old from then on, and where it comes again, it changes nothing.
pub fn frames_count_once()
    ensures old { (f : Frequency) (a : AckFrequency) → is_stale (after_received f a).last a.sequence ≡ true }
    ensures again { (f : Frequency) (a : AckFrequency) → after_received (after_received f a) a ≡ after_received f a }
{}

/// The delay that this end keeps to never falls below the granularity of its timers.
pub fn own_delay_can_be_kept()
    ensures { (f : Frequency) (a : AckFrequency) → granularity ≤ f.own_delay → granularity ≤ (after_received f a).own_delay }
{}
