//! What a datagram carried, and what it makes of its path.
ghost use Rattle.std.specs.Prelude.{◌≡◌, ◌<◌, ◌^◌, IfSome, IfOk, Some, None, true, false, []};
ghost use Rattle.quic_retransmits.specs.Kept.{made};
ghost use Rattle.quic_retransmits.specs.Retransmits.{nothing_waits};
ghost use Rattle.quic_congestion.specs.Pacer.{after_datagram};
ghost use Rattle.quic_paths.specs.InFlight.{CanJoin, CanLeave};
ghost use Rattle.quic_connection_parts.specs.Flying.{is_flying, flight_left_any, flight_joined};

use crate::acked::leave_flight;
use quic_paths::PathData;
use quic_retransmits::{Retransmits, ThinRetransmits};
use quic_send_buffer::StreamMeta;
use quic_sent_packets::SentPacket;
use std::alloc::{AllocError, Global};
use std::marker::Model;

/// What a datagram carried that matters once it is acknowledged or lost.
#[derive(Drop)]
pub struct Carried {
    /// The greatest number that its ACK frame named, if it had one.
    pub largest_acked: Option<u64>,
    /// The offsets and the ends of its STREAM frames.
    pub stream_frames: Vec<StreamMeta>,
    /// What has to be sent again besides if it is lost (RFC 9000, section 13.3).
    pub retransmits: ThinRetransmits,
}

impl Model for Carried {
    ghost use Rattle.quic_machine.specs.Tracking as words;
    ghost use Rattle.quic_retransmits.specs.Kept.{made};

    ghost Value = { words.Carried };

    ghost view = { λ c. record {
      largest_acked = c.largest_acked;
      stream_frames = c.stream_frames.items;
      retransmits = made c.retransmits;
    } };
}

/// What went into a datagram (quinn-proto's `SentFrames`).
#[derive(Drop)]
pub struct SentFrames {
    /// Whether it asks for an acknowledgement.
    pub asks: bool,
    /// Whether PATH_CHALLENGE or PATH_RESPONSE stands in it, so that it has 1200 bytes at least
    /// (RFC 9000, sections 8.2.1 and 8.2.2).
    pub requires_padding: bool,
    pub carried: Carried,
}

impl SentFrames {
    /// An ACK frame went alone that names numbers up to this one.
    pub fn acks(alloc: Global, largest_acked: u64) -> Self
        ensures asks { result.asks ≡ false }
        ensures pads { result.requires_padding ≡ false }
        ensures carried { result.carried ≡ record { largest_acked = Some largest_acked; stream_frames = []; retransmits = nothing_waits } }
    {
        SentFrames {
            asks: false,
            requires_padding: false,
            carried: Carried {
                largest_acked: Some(largest_acked),
                stream_frames: Vec::new(alloc),
                retransmits: ThinRetransmits::new(),
            },
        }
    }

    /// PING went alone, as a probe of a size.
    pub fn probe(alloc: Global) -> Self
        ensures asks { result.asks ≡ true }
        ensures pads { result.requires_padding ≡ false }
        ensures carried { result.carried ≡ record { largest_acked = None; stream_frames = []; retransmits = nothing_waits } }
    {
        SentFrames {
            asks: true,
            requires_padding: false,
            carried: Carried {
                largest_acked: None,
                stream_frames: Vec::new(alloc),
                retransmits: ThinRetransmits::new(),
            },
        }
    }

    /// An ACK frame that names numbers up to this one went besides, or none did.
    pub fn with_ack(self, largest_acked: Option<u64>) -> Self
        ensures asks { result.asks ≡ self.asks }
        ensures pads { result.requires_padding ≡ self.requires_padding }
        ensures carried { result.carried ≡ record self.carried { largest_acked = largest_acked } }
    {
        let SentFrames {
            asks,
            requires_padding,
            carried,
        } = self;
        SentFrames {
            asks,
            requires_padding,
            carried: Carried {
                largest_acked,
                stream_frames: carried.stream_frames,
                retransmits: carried.retransmits,
            },
        }
    }
}

/// What has to be sent again of a datagram in which ACK_FREQUENCY went, or nothing did: where it is
/// lost, another goes. An error is want of memory.
pub(crate) fn kept_request(alloc: Global, requests: bool) -> Result<ThinRetransmits, AllocError>
    ensures { IfOk result (λ kept. made kept ≡ record nothing_waits { ack_frequency = requests }) }
{
    if !requests {
        return Ok(ThinRetransmits::new());
    }
    let mut sent = Retransmits::new(alloc);
    sent.set_ack_frequency(true);
    ThinRetransmits::of(alloc, sent)
}

/// A datagram of so many bytes takes tokens of the pacer of a path.
pub fn pay<C>(path: &mut PathData<C>, size: u16)
    ensures { path.new ≡ record path.old { pacing = after_datagram path.old.pacing size } }
{
    path.pacing.on_transmit(size);
}

/// A packet of so many bytes is in flight, if it asks for an acknowledgement.
pub fn enter_flight<C>(path: &mut PathData<C>, size: u16, asks: bool)
    requires { asks ≡ true → size < 2 ^ 16 → CanJoin path.old.in_flight size true }
    ensures path { path.new ≡ record path.old { in_flight = flight_joined path.old.in_flight size asks } }
    ensures fits { size < 2 ^ 16 }
{
    if asks {
        path.sent(size, true);
    }
}

/// A packet that is forgotten, if one is, is no longer in flight.
pub fn leave_forgotten<C>(path: &mut PathData<C>, forgotten: &Option<SentPacket>)
    requires { IfSome forgotten.now (λ p. is_flying path.old.generation p ≡ true → CanLeave path.old.in_flight p.size true) }
    ensures { path.new ≡ record path.old { in_flight = flight_left_any path.old.generation path.old.in_flight forgotten.now } }
{
    if let Some(packet) = forgotten {
        leave_flight(path, packet);
    }
}
