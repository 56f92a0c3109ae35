use super::packets::{at, packet, send, sent, with_space};
use quic_spaces::{PacketSpace, Tracking};
use quic_wire::frame::{Ack, Frame, Iter};
use std::alloc::{AllocError, Global};

// The packets with these numbers go, which don't ask, each at the moment of its number. From 1002
// on the one 1001 below is forgotten.
fn send_tail(space: &mut PacketSpace, alloc: Global, numbers: u64) -> bool {
    for number in 1..=numbers {
        let wanted = if number > 1001 {
            Some(at(number - 1001))
        } else {
            None
        };
        if send(space, alloc, number, number, false) != Ok(wanted) {
            return false;
        }
    }
    true
}

// When the packet of this number went, if it is tracked.
fn taken(space: &mut PacketSpace, number: u64) -> Option<u64> {
    let packet = space.take(number)?;
    Some(packet.time_sent.as_nanos() / 1000)
}

fn oldest_is_forgotten(space: &mut PacketSpace, alloc: Global) -> bool {
    send(space, alloc, 0, 0, true) == Ok(None)
        && send_tail(space, alloc, 5000)
        && taken(space, 3999) == None
        && taken(space, 0) == Some(0)
        && taken(space, 4000) == Some(4000)
        && taken(space, 5000) == Some(5000)
        && space.has_in_flight()
}

#[test]
fn oldest_of_a_long_tail_is_forgotten(rt: HostRuntime) {
    assert!(rt; with_space(rt.alloc(), oldest_is_forgotten));
}

// An ACK frame in some bytes.
fn ack_in(bytes: &[u8]) -> Option<Ack<'_>> {
    match Iter::new(bytes).next() {
        Some(Ok(Frame::Ack(ack))) => Some(ack),
        _ => None,
    }
}

// How many packets an ACK frame names: they are gone.
fn take_named(tracking: &mut Tracking, alloc: Global, ack: &Ack<'_>) -> Result<usize, AllocError> {
    let mut acked = Vec::new(alloc);
    tracking.take_named(ack, &mut acked)?;
    Ok(acked.len())
}

// The ACK frame of 4 to 5, and 2.
const NAMED: [u8; 7] = [0x02, 0x05, 0x00, 0x01, 0x01, 0x00, 0x00];

// Whether three packets that the frame names are gone. Where memory lacks, it is taken again, and
// some are gone.
fn takes_named(tracking: &mut Tracking, alloc: Global) -> bool {
    match ack_in(&NAMED) {
        Some(ack) => match take_named(tracking, alloc, &ack) {
            Ok(count) => count == 3,
            Err(_) => take_named(tracking, alloc, &ack).is_ok(),
        },
        None => false,
    }
}

// Whether 0, 1 and 3 are left.
fn leaves_others(tracking: &Tracking) -> bool {
    let left = tracking.packets();
    left.first_from(0) == Some(0)
        && left.first_from(1) == Some(1)
        && left.first_from(2) == Some(3)
        && left.first_from(4) == None
}

// Six packets go before the frame comes.
fn named_are_taken(space: &mut PacketSpace, alloc: Global) -> bool {
    for number in 0..6u64 {
        if send(space, alloc, number, number, true) != Ok(None) {
            return false;
        }
    }
    takes_named(&mut space.tracking, alloc) && leaves_others(&space.tracking)
}

#[test]
fn named_packets_are_taken(rt: HostRuntime) {
    assert!(rt; with_space(rt.alloc(), named_are_taken));
}

// The least number and the greatest, and whether packets ask and are in flight.
fn seen(space: &PacketSpace) -> (Option<u64>, Option<u64>, bool, bool) {
    let packets = space.tracking.packets();
    (
        packets.first_from(0),
        packets.last_within(0, u64::MAX),
        packets.has_asking(),
        packets.has_in_flight(),
    )
}

// Whether a packet goes. Where memory lacks, nothing has changed, and it goes again.
fn puts(space: &mut PacketSpace, alloc: Global, number: u64, asks: bool) -> bool {
    let before = seen(space);
    sent(space, number, packet(alloc, number, asks)).is_ok()
        || seen(space) == before && sent(space, number, packet(alloc, number, asks)).is_ok()
}

// 5000 leaves no place for 0 in the ring, and none for 3, which goes then.
fn far_stand_together(space: &mut PacketSpace, alloc: Global) -> bool {
    puts(space, alloc, 0, false)
        && puts(space, alloc, 5000, false)
        && puts(space, alloc, 3, true)
        && seen(space) == (Some(0), Some(5000), true, true)
        && space.tracking.packets().first_from(1) == Some(3)
        && space.tracking.packets().last_within(0, 4999) == Some(3)
        && taken(space, 3) == Some(3)
        && seen(space) == (Some(0), Some(5000), false, true)
}

#[test]
fn far_numbers_stand_together(rt: HostRuntime) {
    assert!(rt; with_space(rt.alloc(), far_stand_together));
}
