//! Packets by number: the latest in a ring, and those that fell out of it in an ordered map.
ghost use Rattle.std.specs.Prelude.{◌≡◌, ◌+◌, ◌<◌, ◌≤◌, ◌^◌, [], length, IfOk, IfSome, IfNone, OnOk, OnErr, None};
ghost use Rattle.std.specs.Option.{option_copied, option_map};
ghost use Rattle.std.specs.Map.{keys_of};
ghost use Rattle.quic_retransmits.specs.Kept.{made};
ghost use Rattle.quic_streams_parts.specs.Table.{at, added, put, without};
ghost use Rattle.quic_sent_packets.specs.Packets.{without_record, oldest, newest, from, within};

use crate::ring::Ring;
use crate::sent_packet::SentPacket;
use quic_retransmits::ThinRetransmits;
use std::alloc::{AllocError, Global};
use std::collections::BTreeMap;
use std::marker::Model;

/// Packets by number. One in the ring is found, kept and taken out in constant time, amortized, and
/// an earlier one in the logarithm of how many there are.
#[derive(Drop)]
pub(crate) struct PacketMap {
    // Those whose numbers lie below the ring's.
    earlier: BTreeMap<u64, SentPacket>,
    ring: Ring,
}

impl Model for PacketMap {
    ghost use Rattle.std.specs.Prelude.{◌++◌};
    ghost use Rattle.quic_streams_parts.specs.Table.{Table};
    ghost use Rattle.quic_sent_packets.specs.Packets.{TrackedPacket};
    ghost use Rattle.quic_sent_packets.specs.Places.{held, AllBelow};

    ghost Value = { Table TrackedPacket };

    ghost view = { λ m. m.earlier.entries ++ held m.ring };

    ghost invariant = { λ m. AllBelow m.ring.base m.earlier.entries };
}

/// Takes what has to be sent again of a packet in an ordered map, if it is there.
fn take_retransmits(packets: &mut BTreeMap<u64, SentPacket>, number: u64) -> ThinRetransmits
    ensures taken { IfSome (at packets.old.entries number) (λ p. made result ≡ p.carried.retransmits) }
    ensures left { IfSome (at packets.old.entries number) (λ p. packets.new.entries ≡ put packets.old.entries number (without_record p)) }
    ensures none { IfNone (at packets.old.entries number) (result ≡ None) }
    ensures unchanged { IfNone (at packets.old.entries number) (packets.new.entries ≡ packets.old.entries) }
    ensures numbers { keys_of packets.new.entries ≡ keys_of packets.old.entries }
{
    let Some(packet) = packets.get_mut(&number) else {
        return ThinRetransmits::new();
    };
    packet.take_retransmits()
}

impl PacketMap {
    /// No packets.
    pub(crate) fn new(alloc: Global) -> Self
        ensures { result ≡ [] }
    {
        PacketMap {
            earlier: BTreeMap::new(alloc),
            ring: Ring::new(alloc),
        }
    }

    /// How many packets there are at most: each place of the ring counts.
    pub(crate) fn most(&self) -> usize
        ensures most { length self.now ≤ result }
        ensures small { result < 2 ^ 63 + 4097 }
    {
        self.earlier.len() + self.ring.len()
    }

    /// Keeps a packet: the one that had its number, if any.
    ///
    /// # Errors
    ///
    /// - [`AllocError`]: an allocation fails. Nothing changes.
    pub(crate) fn insert(
        &mut self,
        number: u64,
        packet: SentPacket,
    ) -> Result<Option<SentPacket>, AllocError>
        ensures replaced { IfOk result (λ replaced. replaced ≡ at self.old number) }
        ensures ok { OnOk result (self.new ≡ added self.old number packet) }
        ensures err { OnErr result (self.new ≡ self.old) }
    {
        if number < self.ring.base() {
            return Ok(self.earlier.insert(number, packet)?);
        }
        self.ring.reach(number, &mut self.earlier)?;
        self.ring.insert(number, packet)
    }

    /// The packet of a number, if it is there.
    pub(crate) fn get(&self, number: u64) -> Option<&SentPacket>
        ensures { option_copied result ≡ at self.now number }
    {
        if number < self.ring.base() {
            return self.earlier.get(&number);
        }
        self.ring.get(number)
    }

    /// Takes out the packet of a number, if it is there.
    pub(crate) fn remove(&mut self, number: u64) -> Option<SentPacket>
        ensures taken { result ≡ at self.old number }
        ensures left { self.new ≡ without self.old number }
    {
        if number < self.ring.base() {
            return self.earlier.remove(&number);
        }
        self.ring.remove(number)
    }

    /// Takes what has to be sent again of a packet, which stays; nothing where the packet isn't
    /// there.
    pub(crate) fn take_retransmits(&mut self, number: u64) -> ThinRetransmits
        ensures taken { IfSome (at self.old number) (λ p. made result ≡ p.carried.retransmits) }
        ensures left { IfSome (at self.old number) (λ p. self.new ≡ put self.old number (without_record p)) }
        ensures none { IfNone (at self.old number) (result ≡ None) }
        ensures unchanged { IfNone (at self.old number) (self.new ≡ self.old) }
    {
        if number < self.ring.base() {
            return take_retransmits(&mut self.earlier, number);
        }
        self.ring.take_retransmits(number)
    }

    /// The least number of a packet at or above `low`.
    pub(crate) fn first_from(&self, low: u64) -> Option<u64>
        ensures { result ≡ option_map (λ p. p.0) (oldest (from low self.now)) }
    {
        match self.earlier.range(low..).next() {
            Some((number, _)) => Some(*number),
            None => self.ring.first_from(low),
        }
    }

    /// The greatest number of a packet between two numbers, both ends too.
    pub(crate) fn last_within(&self, low: u64, high: u64) -> Option<u64>
        ensures { result ≡ option_map (λ p. p.0) (newest (within low high self.now)) }
    {
        if high < low {
            return None;
        }
        if let Some(number) = self.ring.last_within(low, high) {
            return Some(number);
        }
        match self.earlier.range(low..=high).next_back() {
            Some((number, _)) => Some(*number),
            None => None,
        }
    }
}
