//! The packets of a packet number space that were sent, by number.
ghost use Rattle.std.specs.Prelude.{◌≡◌, [], IfOk, IfSome, IfNone, OnOk, OnErr, None};
ghost use Rattle.std.specs.Option.{option_copied, option_map};
ghost use Rattle.quic_retransmits.specs.Kept.{made};
ghost use Rattle.quic_streams_parts.specs.Table.{at, added, put, without};
ghost use Rattle.quic_sent_packets.specs.Packets.{Ascends, without_record, asks_any, has_in_flight, oldest, newest, from, within};

use crate::counts::Counts;
use crate::packet_map::PacketMap;
use crate::sent_packet::SentPacket;
use quic_retransmits::ThinRetransmits;
use std::alloc::{AllocError, Global};
use std::marker::Model;

/// The packets that were sent and are neither acknowledged nor lost, by number (RFC 9002, section
/// A.1).
#[derive(Drop)]
pub struct SentPackets {
    packets: PacketMap,
    counts: Counts,
}

impl Model for SentPackets {
    ghost use Rattle.quic_streams_parts.specs.Table.{Table};
    ghost use Rattle.quic_sent_packets.specs.Packets.{TrackedPacket};
    ghost use Rattle.quic_sent_packets.specs.Counts.{Counted};

    ghost Value = { Table TrackedPacket };

    ghost view = { λ s. s.packets };

    ghost invariant = { λ s. Counted s.counts s.packets };
}

impl SentPackets {
    /// None.
    pub fn new(alloc: Global) -> Self
        ensures { result ≡ [] }
    {
        SentPackets {
            packets: PacketMap::new(alloc),
            counts: Counts::new(),
        }
    }

    /// A packet of this number was sent: the one that had the number, if any, is given back.
    ///
    /// # Errors
    ///
    /// - [`AllocError`]: an allocation fails. Nothing changes.
    pub fn insert(
        &mut self,
        number: u64,
        packet: SentPacket,
    ) -> Result<Option<SentPacket>, AllocError>
        ensures replaced { IfOk result (λ replaced. replaced ≡ at self.old number) }
        ensures ok { OnOk result (self.new ≡ added self.old number packet) }
        ensures err { OnErr result (self.new ≡ self.old) }
        ensures ascends { Ascends self.old }
        ensures still { Ascends self.new }
    {
        // The proof reads how many packets there may be.
        let _most = self.packets.most();
        let counts = Counts::of(&packet);
        let replaced = self.packets.insert(number, packet)?;
        self.counts.take(replaced.as_ref());
        self.counts.add(counts);
        Ok(replaced)
    }

    /// The packet of this number, if it is there.
    pub fn get(&self, number: u64) -> Option<&SentPacket>
        ensures value { option_copied result ≡ at self.now number }
        ensures ascends { Ascends self.now }
    {
        self.packets.get(number)
    }

    /// Takes out the packet of this number, if it is there. Needs no memory.
    pub fn remove(&mut self, number: u64) -> Option<SentPacket>
        ensures taken { result ≡ at self.old number }
        ensures left { self.new ≡ without self.old number }
        ensures ascends { Ascends self.old }
        ensures still { Ascends self.new }
    {
        let packet = self.packets.remove(number);
        self.counts.take(packet.as_ref());
        packet
    }

    /// Takes what has to be sent again of a packet, which stays; nothing where the packet isn't
    /// there.
    pub fn take_retransmits(&mut self, number: u64) -> ThinRetransmits
        ensures taken { IfSome (at self.old number) (λ p. made result ≡ p.carried.retransmits) }
        ensures left { IfSome (at self.old number) (λ p. self.new ≡ put self.old number (without_record p)) }
        ensures none { IfNone (at self.old number) (result ≡ None) }
        ensures unchanged { IfNone (at self.old number) (self.new ≡ self.old) }
        ensures ascends { Ascends self.old }
        ensures still { Ascends self.new }
    {
        self.packets.take_retransmits(number)
    }

    /// The least number of a packet at or above `low`.
    pub fn first_from(&self, low: u64) -> Option<u64>
        ensures value { result ≡ option_map (λ p. p.0) (oldest (from low self.now)) }
        ensures ascends { Ascends self.now }
    {
        self.packets.first_from(low)
    }

    /// The greatest number of a packet between two numbers, both ends too.
    pub fn last_within(&self, low: u64, high: u64) -> Option<u64>
        ensures value { result ≡ option_map (λ p. p.0) (newest (within low high self.now)) }
        ensures ascends { Ascends self.now }
    {
        self.packets.last_within(low, high)
    }

    /// Whether a packet is there that asks for an acknowledgement. Takes constant time.
    pub fn has_asking(&self) -> bool
        ensures { result ≡ asks_any self.now }
    {
        self.counts.asking > 0
    }

    /// Whether a packet is there that counts against the congestion window. Takes constant time.
    pub fn has_in_flight(&self) -> bool
        ensures { result ≡ has_in_flight self.now }
    {
        self.counts.in_flight > 0
    }
}
