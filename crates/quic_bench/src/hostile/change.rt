//! A datagram is opened, changed in one byte of its payload, and sealed again.
ghost use Rattle.std.specs.Prelude.{◌≤◌, ◌<◌, ◌^◌, IfSome, length};

use crate::hostile::victim::number_of;
use quic_keys::keys_for;
use quic_packet::{Opened, open_packet, seal_packet};
use quic_wire_core::Side;
use std::alloc::AllocError;

/// Where the number starts behind the first byte and an id of eight bytes.
const NUMBER_AT: usize = 9;

/// The least bytes of a datagram that can be opened: a header, a sample and what lies between them.
const LEAST: usize = NUMBER_AT + 20;

/// How many of the first bytes of a payload are changed more often: most frames begin there.
const FRONT: usize = 40;

/// Opens a datagram of an end of this side in place.
fn opened(datagram: &mut [u8], side: Side) -> Option<Opened>
    ensures number { IfSome result (λ o. o.number < 2 ^ 62) }
    ensures start { IfSome result (λ o. o.start ≤ o.end) }
    ensures end { IfSome result (λ o. o.end ≤ length datagram.new) }
{
    let number = number_of(datagram)?;
    if datagram.len() < LEAST || number >= 1 << 62 {
        return None;
    }
    let keys = keys_for(!side);
    let header_key = &keys.header.remote;
    match open_packet(datagram, NUMBER_AT, number, header_key, &keys.packet.remote) {
        Ok(packet) => Some(packet),
        Err(_) => None,
    }
}

/// Changes a byte, each to another value; every second time one of the first bytes.
fn change_byte(payload: &mut [u8], word: u64) {
    let reach = if word >> 32 & 1 == 0 {
        payload.len()
    } else {
        payload.len().min(FRONT)
    };
    if let Some(at) = ((word >> 33) as usize).checked_rem(reach)
        && let Some(byte) = payload.get_mut(at)
    {
        *byte ^= ((word >> 24) % 256).max(1) as u8;
    }
}

/// Changes a byte of the payload of a datagram, as a word says, which an end of this side sealed:
/// whether it could be opened for that. Else it stays as it was.
///
/// # Errors
///
/// - [`AllocError`]: an allocation fails. The datagram may be cut short.
pub fn change(
    datagram: &mut Vec<u8>,
    copy: &mut Vec<u8>,
    side: Side,
    word: u64,
) -> Result<bool, AllocError> {
    copy.clear();
    copy.extend_from_slice(datagram)?;
    let Some(packet) = opened(copy, side) else {
        return Ok(false);
    };
    if packet.end < NUMBER_AT + 4 {
        return Ok(false);
    }
    change_byte(&mut copy[packet.start..packet.end], word);
    datagram.clear();
    datagram.extend_from_slice(&copy[..packet.end])?;
    let keys = keys_for(side);
    seal_packet(
        datagram,
        0,
        NUMBER_AT,
        packet.number,
        &keys.header.local,
        &keys.packet.local,
    )?;
    Ok(true)
}
