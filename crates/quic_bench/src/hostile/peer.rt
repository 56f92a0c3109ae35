//! A peer that seals what it likes.
use crate::hostile::attack::{Attack, Plan};
use crate::hostile::frames::{put_ack, put_item};
use quic_keys::{PlainHeaderKey, PlainKey, keys_for};
use quic_packet::crypto::Keys;
use quic_packet::seal_packet;
use quic_wire_core::Side;
use std::alloc::{AllocError, Global};

/// The bytes of a datagram beside its payload: the first one, an id, a number of four bytes, and
/// the tag.
const AROUND: usize = 29;

/// The first packet number of the attack, above those that the client gave before.
const FIRST_NUMBER: u32 = 1000;

/// The id of the server.
const SERVER_ID: [u8; 8] = [0x50; 8];

/// A client that attacks.
#[derive(Drop)]
pub struct Peer {
    keys: Keys<PlainHeaderKey, PlainKey>,
    // The number of the next packet.
    number: u32,
    /// How many items it sent.
    pub items: u64,
    /// The numbers of packets that it got and is to acknowledge.
    pub owed: Vec<u64>,
    payload: Vec<u8>,
    /// The datagram that it sends.
    pub datagram: Vec<u8>,
}

/// Seals a payload.
fn seal(
    out: &mut Vec<u8>,
    keys: &Keys<PlainHeaderKey, PlainKey>,
    number: u32,
    payload: &[u8],
) -> Result<(), AllocError> {
    out.clear();
    out.push(0x43)?;
    out.extend_from_slice(&SERVER_ID)?;
    out.extend_from_slice(&number.to_be_bytes())?;
    out.extend_from_slice(payload)?;
    seal_packet(
        out,
        0,
        9,
        u64::from(number),
        &keys.header.local,
        &keys.packet.local,
    )
}

/// Appends an ACK frame for each of these numbers.
fn put_acks(out: &mut Vec<u8>, numbers: &[u64]) -> Result<(), AllocError> {
    for number in numbers {
        put_ack(out, *number)?;
    }
    Ok(())
}

/// Appends items of an attack as long as they leave a payload below so many bytes, but one at
/// least: how many were sent then, of which there were so many before.
fn put_items(out: &mut Vec<u8>, plan: &Plan, room: usize, before: u64) -> Result<u64, AllocError> {
    let mut items = before;
    for _ in 0..u64::MAX {
        let len = out.len();
        let count = put_item(out, plan, items, room)?;
        if out.len() > room && items > before {
            out.truncate(len);
            break;
        }
        items = items.saturating_add(count);
        if out.len() >= room {
            break;
        }
    }
    Ok(items)
}

impl Peer {
    /// One that has sent nothing.
    pub fn new(alloc: Global) -> Self {
        Peer {
            keys: keys_for(Side::Client),
            number: FIRST_NUMBER,
            items: 0,
            owed: Vec::new(alloc),
            payload: Vec::new(alloc),
            datagram: Vec::new(alloc),
        }
    }

    /// Makes the next datagram.
    ///
    /// # Errors
    ///
    /// - [`AllocError`]: an allocation fails. There is no datagram then.
    pub fn compose(&mut self, plan: &Plan) -> Result<(), AllocError> {
        self.payload.clear();
        put_acks(&mut self.payload, &self.owed)?;
        self.owed.clear();
        let room = (plan.size as usize).saturating_sub(AROUND);
        self.items = put_items(&mut self.payload, plan, room, self.items)?;
        seal(&mut self.datagram, &self.keys, self.number, &self.payload)?;
        if plan.attack == Attack::Unopened
            && let Some(last) = self.datagram.last_mut()
        {
            *last ^= 1;
        }
        self.number = self.number.wrapping_add(step(plan.attack));
        Ok(())
    }
}

/// How far the next packet number lies from the last.
fn step(attack: Attack) -> u32 {
    match attack {
        Attack::Repeated => 0,
        Attack::Gaps => 2,
        _ => 1,
    }
}
