//! What is remembered of a packet that was sent (RFC 9002, section A.1.1).
ghost use Rattle.std.specs.Prelude.{◌≡◌};
ghost use Rattle.quic_retransmits.specs.Kept.{made};
ghost use Rattle.quic_sent_packets.specs.Packets.{without_record};

use quic_retransmits::ThinRetransmits;
use quic_send_buffer::StreamMeta;
use quic_time::Instant;
use std::marker::Model;
use std::mem;

/// A packet that was sent and is neither acknowledged nor lost (quinn-proto's `SentPacket`).
#[derive(Drop)]
pub struct SentPacket {
    /// The path generation in which it went.
    pub path_generation: u64,
    /// When it went.
    pub time_sent: Instant,
    /// Its size in bytes, or 0 unless it counts against the congestion window (RFC 9002, section
    /// 2).
    pub size: u16,
    /// Whether it asks for an acknowledgement (RFC 9002, section 2).
    pub ack_eliciting: bool,
    /// The greatest packet number that its ACK frame named, if it had one.
    pub largest_acked: Option<u64>,
    /// What has to be sent again besides if it is lost (RFC 9000, section 13.3).
    pub retransmits: ThinRetransmits,
    /// The offsets and the ends of its STREAM frames.
    pub stream_frames: Vec<StreamMeta>,
}

impl Model for SentPacket {
    ghost use Rattle.quic_sent_packets.specs.Packets.{TrackedPacket};
    ghost use Rattle.quic_retransmits.specs.Kept.{made};

    ghost Value = { TrackedPacket };

    ghost view = { λ p. record {
      generation = p.path_generation;
      time_sent = p.time_sent;
      size = p.size;
      asks = p.ack_eliciting;
      carried = record {
        largest_acked = p.largest_acked;
        stream_frames = p.stream_frames.items;
        retransmits = made p.retransmits;
      };
    } };
}

impl SentPacket {
    /// Takes what has to be sent again.
    pub(crate) fn take_retransmits(&mut self) -> ThinRetransmits
        ensures taken { made result ≡ self.old.carried.retransmits }
        ensures left { self.new ≡ without_record self.old }
    {
        mem::replace(&mut self.retransmits, ThinRetransmits::new())
    }
}
