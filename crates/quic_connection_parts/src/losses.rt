//! Packets that are lost at once, as a congestion controller hears of them (RFC 9002, sections
//! 7.3.2 and 7.6).
ghost use Rattle.std.specs.Prelude.{ℕ, ◌≡◌, ◌&&◌, not};
ghost use Rattle.quic_machine.specs.Control.{flies};
ghost use Rattle.quic_connection_parts.specs.Losses.{none_lost, one_lost};

use crate::acked::last_sent;
use quic_machine::Instant;
use quic_sent_packets::SentPacket;
use quic_spaces::PersistentCongestion;
use quic_time::Duration;
use std::marker::Model;

/// Whether a packet is in flight on the path of this generation: it asks for an acknowledgement,
/// and went there.
fn flies(generation: u64, packet: &SentPacket) -> bool
    ensures { (number : ℕ) → result ≡ flies generation (number, packet.now) }
{
    packet.ack_eliciting && packet.path_generation == generation
}

/// Whether the loss of a packet may show congestion: it asks for an acknowledgement, and is no
/// probe of a size.
fn shows(packet: &SentPacket, is_probe: bool) -> bool
    ensures { result ≡ packet.now.asks && not is_probe }
{
    packet.ack_eliciting && !is_probe
}

/// Packets that are lost at once.
#[derive(Debug, Drop)]
pub struct Losses {
    /// Whether one is no probe of a size. Of a probe nothing else counts.
    pub others: bool,
    /// Whether one of the others was in flight on the path.
    pub flew: bool,
    /// When the last of them went.
    pub last_sent: Instant,
    /// How many bytes they had.
    pub bytes: u64,
    pub persistent: PersistentCongestion,
}

impl Model for Losses {
    ghost use Rattle.quic_connection_parts.specs.Losses.{Lost};

    ghost Value = { Lost };

    ghost view = { λ l. record {
      others = l.others;
      flew = l.flew;
      last = l.last_sent;
      bytes = l.bytes;
      watch = l.persistent;
    } };
}

impl Losses {
    /// None is lost yet. Losses this far apart are persistent congestion, where a round trip was
    /// measured before this number was sent.
    pub fn new(period: Duration, first_after_rtt: Option<u64>) -> Self
        ensures { result ≡ none_lost period first_after_rtt }
    {
        Losses {
            others: false,
            flew: false,
            last_sent: Instant::from_nanos(0),
            bytes: 0,
            persistent: PersistentCongestion::new(period, first_after_rtt),
        }
    }

    /// One more is lost, where packets fly on the path of this generation. As a probe of a size it
    /// shows no congestion, but lies between others (RFC 9000, section 14.4).
    pub fn add(&mut self, generation: u64, number: u64, packet: &SentPacket, is_probe: bool)
        ensures { self.new ≡ one_lost generation is_probe self.old (number, packet.now) }
    {
        let asks = shows(packet, is_probe);
        self.persistent.on_lost(number, packet.time_sent, asks);
        if is_probe {
            return;
        }
        self.others = true;
        self.flew = self.flew || flies(generation, packet);
        self.last_sent = packet.time_sent;
        self.bytes = self.bytes.saturating_add(u64::from(packet.size));
    }
}
