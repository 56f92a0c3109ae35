//! How the peer is asked to acknowledge.
ghost use Rattle.std.specs.Prelude.{◌≡◌};
ghost use Rattle.quic_config.specs.Configs.{default_frequency};

use quic_time::Duration;
use quic_wire_core::VarInt;
use std::marker::Model;

/// What an endpoint requests of its peer's acknowledgements (QUIC Acknowledgement Frequency;
/// quinn-proto's `AckFrequencyConfig`).
#[derive(Clone, Copy, Debug)]
pub struct AckFrequencyConfig {
    ack_eliciting_threshold: VarInt,
    max_ack_delay: Option<Duration>,
    reordering_threshold: VarInt,
}

impl Model for AckFrequencyConfig {
    ghost use Rattle.quic_config.specs.Configs.{FrequencySettings};

    ghost Value = { FrequencySettings };

    ghost view = { λ c. record {
      threshold = c.ack_eliciting_threshold;
      max_delay = c.max_ack_delay;
      reordering = c.reordering_threshold;
    } };

    ghost inverse = { λ s. record {
      ack_eliciting_threshold = s.threshold;
      max_ack_delay = s.max_delay;
      reordering_threshold = s.reordering;
    } };
}

impl AckFrequencyConfig {
    /// How many ack-eliciting packets the peer may take before it sends an acknowledgement: with
    /// one more it sends one at once, and with 0 for each (QUIC Acknowledgement Frequency, section
    /// 4). The default is 1 packet.
    pub fn ack_eliciting_threshold(&mut self, value: VarInt) -> &mut Self
        ensures same_reference { result.ghost_name ≡ self.entry.ghost_name }
        ensures value { result.now ≡ record self.old { threshold = value } }
    {
        self.ack_eliciting_threshold = value;
        self
    }

    /// How long the peer may hold an acknowledgement back, a [`Duration`], of which whole
    /// microseconds count; `None` leaves it its own delay. Either is cut to the round-trip time, or
    /// to 25 ms where that is less, and raised to the peer's min_ack_delay. The default is `None`.
    pub fn max_ack_delay(&mut self, value: Option<Duration>) -> &mut Self
        ensures same_reference { result.ghost_name ≡ self.entry.ghost_name }
        ensures value { result.now ≡ record self.old { max_delay = value } }
    {
        self.max_ack_delay = value;
        self
    }

    /// How far out of order a packet may come before the peer acknowledges at once, in packets:
    /// with 0 as far as it likes, with 1 not at all (QUIC Acknowledgement Frequency, section 6.2).
    /// The default is 2 packets.
    pub fn reordering_threshold(&mut self, value: VarInt) -> &mut Self
        ensures same_reference { result.ghost_name ≡ self.entry.ghost_name }
        ensures value { result.now ≡ record self.old { reordering = value } }
    {
        self.reordering_threshold = value;
        self
    }

    /// How many ack-eliciting packets the peer may take before it sends an acknowledgement.
    pub fn threshold(&self) -> VarInt
        ensures { result ≡ self.now.threshold }
    {
        self.ack_eliciting_threshold
    }

    /// How long the peer may hold an acknowledgement back; `None` where it keeps its own delay.
    pub fn max_delay(&self) -> Option<Duration>
        ensures { result ≡ self.now.max_delay }
    {
        self.max_ack_delay
    }

    /// How far out of order a packet may come before the peer acknowledges at once.
    pub fn reordering(&self) -> VarInt
        ensures { result ≡ self.now.reordering }
    {
        self.reordering_threshold
    }
}

impl Default for AckFrequencyConfig {
    ghost is_default = { λ c. c ≡ default_frequency };

    /// More than one ack-eliciting packet, the peer's own delay, two packets out of order.
    fn default() -> AckFrequencyConfig {
        AckFrequencyConfig {
            ack_eliciting_threshold: VarInt::from_u32(1),
            max_ack_delay: None,
            reordering_threshold: VarInt::from_u32(2),
        }
    }
}
