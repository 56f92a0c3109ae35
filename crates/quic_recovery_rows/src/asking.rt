//! What the peer is asked of acknowledgements (the ACK frequency extension).
ghost use Rattle.std.specs.Prelude.{◌≡◌, Some};
ghost use Rattle.quic_config.specs.Configs.{default_frequency};
ghost use Rattle.quic_wire.specs.Worked.{no_limits};
ghost use Rattle.quic_recovery_core.specs.AckFrequency.{initial_frequency, candidate};

/// The peer keeps to 100 ms, and can keep to no less: that is asked for, though a round trip takes
/// 5 ms.
pub fn peers_least_delay_is_asked_for()
    ensures { candidate (initial_frequency 100000000) 5000000 default_frequency (record no_limits { min_ack_delay = Some 100000 }) ≡ 100000000 }
{}
