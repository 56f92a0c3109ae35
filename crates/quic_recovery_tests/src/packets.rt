// Packets that go, and packet number spaces that track them. Moments are in microseconds.
use quic_retransmits::ThinRetransmits;
use quic_sent_packets::SentPacket;
use quic_spaces::PacketSpace;
use quic_time::Instant;
use std::alloc::{AllocError, Global};

pub(crate) fn at(micros: u64) -> Instant {
    Instant::from_nanos(micros.saturating_mul(1000))
}

// Whether an act with a new space goes as it should: here alone it is let go, since each function
// that owns one is proved to let it go wherever it ends.
pub(crate) fn with_space<F: FnOnce(&mut PacketSpace, Global) -> bool>(alloc: Global, act: F) -> bool
    requires { F.IsAlwaysCallable act }
{
    let mut space = PacketSpace::new(alloc, at(0));
    let is_right = act(&mut space, alloc);
    drop(space);
    is_right
}

// A packet that carried nothing that has to be sent again.
pub(crate) fn packet(alloc: Global, micros: u64, asks: bool) -> SentPacket {
    SentPacket {
        path_generation: 0,
        time_sent: at(micros),
        size: 1200,
        ack_eliciting: asks,
        largest_acked: None,
        retransmits: ThinRetransmits::new(),
        stream_frames: Vec::new(alloc),
    }
}

// When the packet went that is forgotten, if one is.
pub(crate) fn sent(
    space: &mut PacketSpace,
    number: u64,
    packet: SentPacket,
) -> Result<Option<Instant>, AllocError> {
    match space.sent(number, packet)? {
        Some(forgotten) => Ok(Some(forgotten.time_sent)),
        None => Ok(None),
    }
}

// Where memory lacks, no packet is tracked yet, and it goes again.
pub(crate) fn send(
    space: &mut PacketSpace,
    alloc: Global,
    number: u64,
    micros: u64,
    asks: bool,
) -> Result<Option<Instant>, AllocError> {
    match sent(space, number, packet(alloc, micros, asks)) {
        Ok(forgotten) => Ok(forgotten),
        Err(_) => sent(space, number, packet(alloc, micros, asks)),
    }
}
