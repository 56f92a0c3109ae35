//! What a space tracks of what it sent (RFC 9002, sections 2, 6.2 and A.1).
ghost use Rattle.std.specs.Prelude.{◌≡◌, ◌+◌, ◌-◌, ◌≤◌, ◌<◌, ◌^◌, ◌++◌, ◌∷◌, [], ◌&&◌, not, nat_lt, true, false, is_some, length, reverse, All, IfSome, IfNone, IfOk, OnOk, OnErr, IsNone};
ghost use Rattle.std.specs.Option.{option_map};
ghost use Rattle.quic_streams_parts.specs.Table.{at, added, without};
ghost use Rattle.quic_sent_packets.specs.Packets.{Ascends, asks_any, has_in_flight, from, oldest, within};
ghost use Rattle.quic_spaces.specs.Tracking.{nothing_tracked, is_behind, forgotten, after_sent, after_loss_timeout, after_answered, acked_by, not_acked_by};
ghost use Rattle.quic_spaces.specs.Tail.{tail_start, at_if, without_if, one_if};
ghost use Rattle.quic_spaces.specs.Walks.{StepsTo};
ghost use Rattle.quic_spaces.specs.Named.{asks_at, outside, among, apart_from, Descends};

use quic_sent_packets::{SentPacket, SentPackets};
use quic_time::Instant;
use quic_wire::frame::{Ack, AckIter};
use std::alloc::{AllocError, Global};
use std::marker::Model;

/// How many packets that don't ask for an acknowledgement may have been sent since one that does,
/// before the oldest is forgotten (quinn-proto's `MAX_UNACKED_NON_ACK_ELICTING_TAIL`).
const MOST_TAIL: u64 = 1000;

/// The packets that were sent and are neither acknowledged, lost nor forgotten, by number, and what
/// the loss timer needs to know of them.
#[derive(Drop)]
pub struct Tracking {
    pub(crate) packets: SentPackets,
    pub(crate) largest_ack_eliciting_sent: Option<u64>,
    // When the last packet went that asks, or the space was made.
    pub(crate) last_asking: Instant,
    pub(crate) loss_time: Option<Instant>,
    // How often the loss timer expired since an acknowledgement came.
    pub(crate) timeouts: u64,
    // How many probes wait to go.
    pub(crate) probes: u64,
    // How many packets are tracked above the last that asks.
    pub(crate) unacked_non_ack_eliciting_tail: u64,
    // None of them has a number below this one, so that those that were forgotten aren't walked.
    pub(crate) tail_from: u64,
}

impl Model for Tracking {
    ghost use Rattle.std.specs.Prelude.{◌≡◌, ◌<◌, ◌≤◌, ◌^◌, length, All};
    ghost use Rattle.quic_spaces.specs.Tracking as words;
    ghost use Rattle.quic_spaces.specs.Tail.{IsBehindFrom};
    ghost use Rattle.quic_spaces.specs.Views.{tracking_of};

    ghost Value = { words.Tracking };

    ghost view = { tracking_of };

    // The tail is counted. Numbers have 64 bits. The tail begins at `tail_from` or behind it.
    ghost invariant = { λ t. (t.unacked_non_ack_eliciting_tail ≡ length (words.tail_of (tracking_of t))) × All (λ p. p.0 < 2 ^ 64) t.packets × All (λ p. IsBehindFrom t.largest_ack_eliciting_sent t.tail_from p.0) t.packets };
}

/// Whether a number lies above the greatest that asks, if one does.
fn is_behind(greatest: Option<u64>, number: u64) -> bool
    ensures { result ≡ is_behind greatest number }
{
    match greatest {
        Some(greatest) => greatest < number,
        None => true,
    }
}

/// The first number above the greatest that asks, if one does.
fn tail_start(greatest: Option<u64>) -> u64
    ensures { result ≡ tail_start greatest }
{
    match greatest {
        Some(greatest) => greatest.saturating_add(1),
        None => 0,
    }
}

/// Keeps a packet, in the place of the one that had its number, and takes out that of another
/// number, if there is one. On an error nothing changes.
fn exchange(
    packets: &mut SentPackets,
    number: u64,
    packet: SentPacket,
    other: Option<u64>,
) -> Result<Option<SentPacket>, AllocError>
    ensures taken { IfOk result (λ r. r ≡ at_if other packets.old) }
    ensures left { OnOk result (packets.new ≡ added (without_if other packets.old) number packet) }
    ensures err { OnErr result (packets.new ≡ packets.old) }
    ensures ascends { Ascends packets.old }
{
    let replaced = packets.insert(number, packet)?;
    let Some(other) = other else {
        return Ok(None);
    };
    if other == number {
        return Ok(replaced);
    }
    Ok(packets.remove(other))
}

/// Whether a packet has this number.
fn is_there(packets: &SentPackets, number: u64) -> bool
    ensures there { result ≡ is_some (at packets.now number) }
    ensures ascends { Ascends packets.now }
{
    match packets.get(number) {
        Some(_) => true,
        None => false,
    }
}

/// Whether a packet has this number and asks.
fn is_asking(packets: &SentPackets, number: u64) -> bool
    ensures { result ≡ asks_at packets.now number }
{
    match packets.get(number) {
        Some(packet) => packet.ack_eliciting,
        None => false,
    }
}

/// Whether a packet has this number, once that of another number is gone, if there is one.
fn is_left(packets: &SentPackets, number: u64, other: Option<u64>) -> bool
    ensures { result ≡ is_some (at (without_if other packets.now) number) }
{
    let there = is_there(packets, number);
    match other {
        Some(other) => there && other != number,
        None => there,
    }
}

/// The least number of a packet above another number.
fn next_above(packets: &SentPackets, number: u64) -> Option<u64>
    requires { All (λ p. p.0 < 2 ^ 64) packets.now }
    ensures some { IfSome result (λ n. StepsTo (number + 1) (2 ^ 64) packets.now n) }
    ensures none { IfNone result (from (number + 1) packets.now ≡ []) }
{
    if number == u64::MAX {
        return None;
    }
    packets.first_from(number + 1)
}

/// How many packets lie above a number: no step where none does.
fn count_above(packets: &SentPackets, number: u64) -> u64
    requires { All (λ p. p.0 < 2 ^ 64) packets.now }
    ensures { result ≡ length (from (number + 1) packets.now) }
{
    let mut count = 0;
    let mut last = number;
    while let Some(next) = next_above(packets, last) {
        count += 1;
        last = next;
    }
    count
}

/// How long the tail is once a packet of it went, or didn't, and one came into it, or didn't.
fn tail_after(tail: u64, goes: bool, comes: bool) -> u64
    requires most { goes ≡ false → tail ≤ 1000 }
    requires some { goes ≡ true → 0 < tail }
    ensures { result ≡ tail - one_if goes + one_if comes }
{
    let left = if goes { tail - 1 } else { tail };
    if comes { left + 1 } else { left }
}

impl Tracking {
    /// Nothing was sent since this moment.
    pub fn new(alloc: Global, now: Instant) -> Self
        ensures { result ≡ nothing_tracked now }
    {
        Tracking {
            packets: SentPackets::new(alloc),
            largest_ack_eliciting_sent: None,
            last_asking: now,
            loss_time: None,
            timeouts: 0,
            probes: 0,
            unacked_non_ack_eliciting_tail: 0,
            tail_from: 0,
        }
    }

    /// The tracked packets.
    pub fn packets(&self) -> &SentPackets
        ensures { result.now ≡ self.now.packets }
    {
        &self.packets
    }

    /// When a packet that lies below the greatest acknowledged counts as lost by time, if one may.
    pub fn loss_time(&self) -> Option<Instant>
        ensures { result ≡ self.now.loss_time }
    {
        self.loss_time
    }

    /// Whether a packet that asks for an acknowledgement is tracked. Takes constant time.
    pub fn has_asking(&self) -> bool
        ensures { result ≡ asks_any self.now.packets }
    {
        self.packets.has_asking()
    }

    /// Whether a packet is tracked that counts against the congestion window. Takes constant time.
    pub fn has_in_flight(&self) -> bool
        ensures { result ≡ has_in_flight self.now.packets }
    {
        self.packets.has_in_flight()
    }

    /// How often the loss timer expired since an acknowledgement came (quinn-proto's `pto_count`).
    pub fn timeouts(&self) -> u64
        ensures { result ≡ self.now.timeouts }
    {
        self.timeouts
    }

    /// Whether probes wait to go.
    pub fn has_probes(&self) -> bool
        ensures { result ≡ nat_lt 0 self.now.probes }
    {
        self.probes > 0
    }

    /// The number of the packet that is forgotten where this one goes.
    fn to_forget(&self, packet: &SentPacket) -> Option<u64>
        ensures { result ≡ option_map (λ p. p.0) (forgotten self.now packet.now) }
    {
        if packet.ack_eliciting || self.unacked_non_ack_eliciting_tail <= MOST_TAIL {
            return None;
        }
        let start = tail_start(self.largest_ack_eliciting_sent);
        self.packets.first_from(start.max(self.tail_from))
    }

    /// Whether a packet of this number makes the tail longer, once that of another number is gone,
    /// if there is one.
    fn lengthens(&self, number: u64, other: Option<u64>) -> bool
        ensures { result ≡ (is_behind self.now.greatest_asking number && not (is_some (at (without_if other self.now.packets) number))) }
    {
        is_behind(self.largest_ack_eliciting_sent, number) && !is_left(&self.packets, number, other)
    }

    /// A packet goes. One that asks for an acknowledgement takes away a probe that waits; one that
    /// doesn't lets the oldest of a long tail of such packets be forgotten, which is given back: no
    /// acknowledgement may ever come for them (quinn-proto's `PacketSpace::sent`). Only where its
    /// number lies below one that is tracked are packets walked.
    ///
    /// # Errors
    ///
    /// - [`AllocError`]: an allocation fails. Nothing changes.
    pub fn sent(
        &mut self,
        number: u64,
        packet: SentPacket,
    ) -> Result<Option<SentPacket>, AllocError>
        ensures forgotten { IfOk result (λ r. r ≡ option_map (λ p. p.1) (forgotten self.old packet)) }
        ensures ok { OnOk result (self.new ≡ after_sent self.old number packet) }
        ensures err { OnErr result (self.new ≡ self.old) }
    {
        let oldest = self.to_forget(&packet);
        let asks = packet.ack_eliciting;
        let time_sent = packet.time_sent;
        let comes = self.lengthens(number, oldest);
        let forgotten = exchange(&mut self.packets, number, packet, oldest)?;
        if asks {
            self.largest_ack_eliciting_sent = Some(number);
            self.last_asking = time_sent;
            self.probes = self.probes.saturating_sub(1);
            self.unacked_non_ack_eliciting_tail = count_above(&self.packets, number);
            self.tail_from = 0;
            return Ok(None);
        }
        self.tail_from = oldest.unwrap_or(self.tail_from).min(number);
        self.unacked_non_ack_eliciting_tail = tail_after(
            self.unacked_non_ack_eliciting_tail,
            forgotten.is_some(),
            comes,
        );
        Ok(forgotten)
    }

    /// Takes out the packet of this number, if it is tracked.
    pub fn take(&mut self, number: u64) -> Option<SentPacket>
        ensures taken { result ≡ at self.old.packets number }
        ensures left { self.new ≡ record self.old { packets = without self.old.packets number } }
    {
        let packet = self.packets.remove(number)?;
        if is_behind(self.largest_ack_eliciting_sent, number) {
            self.unacked_non_ack_eliciting_tail -= 1;
        }
        Some(packet)
    }

    /// The loss timer expired, and no packet was to be judged by time: two probes go (RFC 9002,
    /// section 6.2.4).
    pub fn expire(&mut self)
        ensures { self.new ≡ after_loss_timeout self.old }
    {
        self.timeouts = self.timeouts.saturating_add(1);
        self.probes = self.probes.saturating_add(2);
    }

    /// The peer acknowledged a tracked packet: it answers, so no probe has to go.
    pub fn answered(&mut self)
        ensures { self.new ≡ after_answered self.old }
    {
        self.timeouts = 0;
        self.probes = 0;
    }

    /// Whether an ACK frame names a tracked packet that asks for an acknowledgement. Nothing is
    /// taken out.
    pub fn names_asking(&self, frame: &Ack<'_>) -> bool
        ensures { result ≡ asks_any (acked_by frame.now self.now.packets) }
    {
        for range in frame.iter() {
            if self.asks_within(*range.start(), *range.end()) {
                return true;
            }
        }
        false
    }

    /// Whether a packet asks that has a number of a range. It looks at the greatest first, and at
    /// none below one that asks.
    fn asks_within(&self, low: u64, high: u64) -> bool
        ensures { result ≡ asks_any (within low high self.now.packets) }
    {
        let mut last = high;
        while let Some(number) = self.packets.last_within(low, last) {
            if is_asking(&self.packets, number) {
                return true;
            }
            if number == low {
                return false;
            }
            last = number - 1;
        }
        false
    }

    /// Takes out the packets that an ACK frame names, and appends them to `acked` with their
    /// numbers, the greatest first. Ranges below all that is tracked aren't looked at.
    ///
    /// # Errors
    ///
    /// - [`AllocError`]: an allocation fails. Some of the packets are gone then, and nothing else
    ///   changes.
    pub fn take_named(
        &mut self,
        frame: &Ack<'_>,
        acked: &mut Vec<(u64, SentPacket)>,
    ) -> Result<(), AllocError>
        ensures left { OnOk result (self.new ≡ record self.old { packets = not_acked_by frame.now self.old.packets }) }
        ensures acked { OnOk result (reverse acked.new.items ≡ acked_by frame.now self.old.packets ++ reverse acked.old.items) }
        ensures others { self.new ≡ record self.old { packets = self.new.packets } }
    {
        // The proof reads that the frame's ranges descend.
        let _largest = frame.largest();
        self.take_ranges(frame.iter(), acked)
    }

    /// Takes out the packets with numbers of these ranges, the greatest number first. An error is
    /// want of memory.
    fn take_ranges(
        &mut self,
        ranges: AckIter<'_>,
        taken: &mut Vec<(u64, SentPacket)>,
    ) -> Result<(), AllocError>
        requires { Descends ranges }
        ensures left { OnOk result (self.new ≡ record self.old { packets = apart_from ranges.entry self.old.packets }) }
        ensures taken { OnOk result (reverse taken.new.items ≡ among ranges.entry self.old.packets ++ reverse taken.old.items) }
        ensures others { self.new ≡ record self.old { packets = self.new.packets } }
    {
        let Some(first) = self.packets.first_from(0) else {
            return Ok(());
        };
        for range in ranges {
            if *range.end() < first {
                return Ok(());
            }
            self.take_range(*range.start(), *range.end(), taken)?;
        }
        Ok(())
    }

    /// Takes out the packets with numbers of a range, the greatest number first. An error is want
    /// of memory.
    fn take_range(
        &mut self,
        low: u64,
        high: u64,
        taken: &mut Vec<(u64, SentPacket)>,
    ) -> Result<(), AllocError>
        ensures left { OnOk result (self.new ≡ record self.old { packets = outside low high self.old.packets }) }
        ensures taken { OnOk result (reverse taken.new.items ≡ within low high self.old.packets ++ reverse taken.old.items) }
        ensures others { self.new ≡ record self.old { packets = self.new.packets } }
    {
        let mut high = high;
        while let Some((number, packet)) = self.take_last(low, high) {
            taken.push((number, packet))?;
            high = number.saturating_sub(1);
        }
        Ok(())
    }

    /// Takes out the packet with the greatest number of a range, if there is one.
    fn take_last(&mut self, low: u64, high: u64) -> Option<(u64, SentPacket)>
        ensures taken { IfSome result (λ p. within low high self.old.packets ≡ within low (p.0 - 1) self.new.packets ++ p ∷ []) }
        ensures outside { IfSome result (λ p. outside low (p.0 - 1) self.new.packets ≡ outside low high self.old.packets) }
        ensures others { self.new ≡ record self.old { packets = self.new.packets } }
        ensures none { IfNone result ((within low high self.old.packets ≡ []) × (self.new ≡ self.old)) }
    {
        let number = self.packets.last_within(low, high)?;
        let packet = self.take(number)?;
        Some((number, packet))
    }
}
