//! The latest packets, in a ring that is addressed by number.
ghost use Rattle.std.specs.Prelude.{◌≡◌, ◌+◌, ◌-◌, ◌<◌, ◌≤◌, ◌^◌, ℕ, ◌++◌, [], length, max, min, IfOk, IfErr, IfSome, IfNone, OnOk, OnErr, None, Some};
ghost use Rattle.std.specs.Option.{option_copied, option_map};
ghost use Rattle.quic_retransmits.specs.Kept.{made};
ghost use Rattle.quic_streams_parts.specs.Table.{at, added, put, without};
ghost use Rattle.quic_sent_packets.specs.Packets.{without_record, oldest, newest, from, within};
ghost use Rattle.quic_sent_packets.specs.Places.{held, in_place, numbered, AllBelow};

use crate::sent_packet::SentPacket;
use quic_retransmits::ThinRetransmits;
use std::alloc::{AllocError, Global};
use std::collections::{BTreeMap, VecDeque};
use std::marker::Model;
use std::mem;

/// How many numbers the ring goes over at most.
const SPAN: u64 = 4096;

/// The latest packets in places, one for each number from `base` on. A place is empty where its
/// number was skipped, or where its packet was taken out.
#[derive(Drop)]
pub(crate) struct Ring {
    base: u64,
    places: VecDeque<Option<SentPacket>>,
}

impl Model for Ring {
    ghost use Rattle.quic_sent_packets.specs.Places.{Places, IsShort};

    ghost Value = { Places };

    ghost view = { λ r. record { base = r.base; places = r.places.items } };

    ghost invariant = { λ r. IsShort (record { base = r.base; places = r.places.items }) };
}

/// Appends empty places until there are `len`, or more if there were more.
fn widen(places: &mut VecDeque<Option<SentPacket>>, len: usize) -> Result<(), AllocError>
    ensures held { (n : ℕ) → numbered n places.new.items ≡ numbered n places.old.items }
    ensures ok { OnOk result (length places.new.items ≡ max len (length places.old.items)) }
    ensures err { OnErr result (places.new.items ≡ places.old.items) }
{
    places.reserve(len.saturating_sub(places.len()))?;
    while places.len() < len {
        places.push_back_reserved(None);
    }
    Ok(())
}

/// Takes what has to be sent again of the packet in a place, if it holds one.
fn take_retransmits(place: &mut Option<SentPacket>) -> ThinRetransmits
    ensures taken { IfSome place.old (λ p. made result ≡ p.carried.retransmits) }
    ensures left { IfSome place.old (λ p. place.new ≡ Some (without_record p)) }
    ensures none { IfNone place.old (result ≡ None) }
    ensures unchanged { IfNone place.old (place.new ≡ None) }
{
    match place {
        Some(packet) => packet.take_retransmits(),
        None => ThinRetransmits::new(),
    }
}

/// Keeps the packet of a place, if it holds one, behind all others. An error is want of memory, and
/// gives back what the place held.
fn keep(
    earlier: &mut BTreeMap<u64, SentPacket>,
    number: u64,
    place: Option<SentPacket>,
) -> Result<(), Option<SentPacket>>
    requires { AllBelow number earlier.old.entries }
    ensures ok { OnOk result (earlier.new.entries ≡ earlier.old.entries ++ in_place number place []) }
    ensures err { OnErr result (earlier.new.entries ≡ earlier.old.entries) }
    ensures given_back { IfErr result (λ back. back ≡ place) }
{
    let Some(packet) = place else {
        return Ok(());
    };
    match earlier.insert(number, packet) {
        Ok(_) => Ok(()),
        Err(failed) => {
            let (_, packet) = failed.value;
            Err(Some(packet))
        }
    }
}

impl Ring {
    /// No packets.
    pub(crate) fn new(alloc: Global) -> Self
        ensures { result ≡ record { base = 0; places = [] } }
    {
        Ring {
            base: 0,
            places: VecDeque::new(alloc),
        }
    }

    /// The number of the first place. Packets with lesser numbers have no place here.
    pub(crate) fn base(&self) -> u64
        ensures { result ≡ self.now.base }
    {
        self.base
    }

    /// How many places there are.
    pub(crate) fn len(&self) -> usize
        ensures places { result ≡ length self.now.places }
        ensures span { result ≤ 4096 }
    {
        self.places.len()
    }

    /// The packet of a number from the first place on, if it is there.
    pub(crate) fn get(&self, number: u64) -> Option<&SentPacket>
        requires { self.now.base ≤ number }
        ensures { option_copied result ≡ at (held self.now) number }
    {
        let index = (number - self.base) as usize;
        match self.places.get(index) {
            Some(place) => place.as_ref(),
            None => None,
        }
    }

    /// The first place gets this number where there is none yet.
    fn start_at(&mut self, number: u64)
        requires from { self.old.base ≤ number }
        requires near { 0 < length self.old.places → number < self.old.base + 4096 }
        ensures held { held self.new ≡ held self.old }
        ensures base { self.old.base ≤ self.new.base }
        ensures from { self.new.base ≤ number }
        ensures near { number < self.new.base + 4096 }
    {
        if self.places.is_empty() {
            self.base = number;
        }
    }

    /// A packet gets its place, which has to be near: the one that was there, if any.
    ///
    /// # Errors
    ///
    /// - [`AllocError`]: an allocation fails. No packet changes.
    pub(crate) fn insert(
        &mut self,
        number: u64,
        packet: SentPacket,
    ) -> Result<Option<SentPacket>, AllocError>
        requires from { self.old.base ≤ number }
        requires near { 0 < length self.old.places → number < self.old.base + 4096 }
        ensures replaced { IfOk result (λ replaced. replaced ≡ at (held self.old) number) }
        ensures ok { OnOk result (held self.new ≡ added (held self.old) number packet) }
        ensures err { OnErr result (held self.new ≡ held self.old) }
        ensures base { self.old.base ≤ self.new.base }
    {
        self.start_at(number);
        let index = (number - self.base) as usize;
        widen(&mut self.places, index + 1)?;
        Ok(mem::replace(&mut self.places[index], Some(packet)))
    }

    /// Takes out the packet of a number from the first place on, if it is there.
    pub(crate) fn remove(&mut self, number: u64) -> Option<SentPacket>
        requires { self.old.base ≤ number }
        ensures taken { result ≡ at (held self.old) number }
        ensures left { held self.new ≡ without (held self.old) number }
        ensures base { self.old.base ≤ self.new.base }
    {
        let index = (number - self.base) as usize;
        let Some(place) = self.places.get_mut(index) else {
            return None;
        };
        let packet = place.take();
        self.trim();
        packet
    }

    /// Gives up empty places before the first packet.
    fn trim(&mut self)
        ensures held { held self.new ≡ held self.old }
        ensures base { self.old.base ≤ self.new.base }
        ensures fewer { length self.new.places ≤ length self.old.places }
        ensures end { self.new.base ≤ self.old.base + length self.old.places }
    {
        while let Some(None) = self.places.front() {
            let _ = self.places.pop_front();
            if self.places.is_empty() {
                return;
            }
            self.base += 1;
        }
    }

    /// Takes what has to be sent again of a packet whose number is one from the first place on;
    /// nothing where the packet isn't there.
    pub(crate) fn take_retransmits(&mut self, number: u64) -> ThinRetransmits
        requires { self.old.base ≤ number }
        ensures taken { IfSome (at (held self.old) number) (λ p. made result ≡ p.carried.retransmits) }
        ensures left { IfSome (at (held self.old) number) (λ p. held self.new ≡ put (held self.old) number (without_record p)) }
        ensures none { IfNone (at (held self.old) number) (result ≡ None) }
        ensures unchanged { IfNone (at (held self.old) number) (held self.new ≡ held self.old) }
        ensures base { self.new.base ≡ self.old.base }
    {
        let index = (number - self.base) as usize;
        let Some(place) = self.places.get_mut(index) else {
            return ThinRetransmits::new();
        };
        take_retransmits(place)
    }

    /// Moves packets to `earlier`, the first one first, until the place of a number is near.
    ///
    /// # Errors
    ///
    /// - [`AllocError`]: an allocation fails. Some may have moved, and none is lost.
    pub(crate) fn reach(
        &mut self,
        number: u64,
        earlier: &mut BTreeMap<u64, SentPacket>,
    ) -> Result<(), AllocError>
        requires from { self.old.base ≤ number }
        requires below { AllBelow self.old.base earlier.old.entries }
        ensures both { earlier.new.entries ++ held self.new ≡ earlier.old.entries ++ held self.old }
        ensures below { AllBelow self.new.base earlier.new.entries }
        ensures from { self.new.base ≤ number }
        ensures near { OnOk result (0 < length self.new.places → number < self.new.base + 4096) }
    {
        while !self.places.is_empty() && number - self.base >= SPAN {
            self.retire(earlier)?;
        }
        Ok(())
    }

    /// Moves the packet in the first place to `earlier`, if there is one, and gives up the place,
    /// with empty ones behind it.
    ///
    /// # Errors
    ///
    /// - [`AllocError`]: an allocation fails. Nothing changes.
    fn retire(&mut self, earlier: &mut BTreeMap<u64, SentPacket>) -> Result<(), AllocError>
        requires some { 0 < length self.old.places }
        requires next { self.old.base + 1 < 2 ^ 64 }
        requires below { AllBelow self.old.base earlier.old.entries }
        ensures both { earlier.new.entries ++ held self.new ≡ earlier.old.entries ++ held self.old }
        ensures below { AllBelow self.new.base earlier.new.entries }
        ensures end { self.new.base ≤ self.old.base + length self.old.places }
        ensures fewer { OnOk result (length self.new.places < length self.old.places) }
    {
        let Some(place) = self.places.pop_front() else {
            return Ok(());
        };
        if let Err(place) = keep(earlier, self.base, place) {
            self.places.push_front_reserved(place);
            return Err(AllocError);
        }
        self.base += 1;
        self.trim();
        Ok(())
    }

    /// The least number of a packet at or above `low`.
    pub(crate) fn first_from(&self, low: u64) -> Option<u64>
        ensures { result ≡ option_map (λ p. p.0) (oldest (from low (held self.now))) }
    {
        let start = low.saturating_sub(self.base) as usize;
        for index in start..self.places.len() {
            if self.places[index].is_some() {
                return Some(self.base + index as u64);
            }
        }
        None
    }

    /// How many places have numbers up to `high`.
    fn places_up_to(&self, high: u64) -> usize
        ensures { result ≡ min (high + 1 - self.now.base) (length self.now.places) }
    {
        match high.checked_sub(self.base) {
            Some(last) => (last as usize).saturating_add(1).min(self.places.len()),
            None => 0,
        }
    }

    /// The greatest number of a packet between two numbers, both ends too.
    pub(crate) fn last_within(&self, low: u64, high: u64) -> Option<u64>
        ensures { result ≡ option_map (λ p. p.0) (newest (within low high (held self.now))) }
    {
        let start = low.saturating_sub(self.base) as usize;
        let end = self.places_up_to(high);
        for index in (start..end).rev() {
            if self.places[index].is_some() {
                return Some(self.base + index as u64);
            }
        }
        None
    }
}
