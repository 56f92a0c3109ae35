//! A packet number space (RFC 9000, section 12.3; quinn-proto's `connection::spaces::PacketSpace`).
ghost use Rattle.std.specs.Prelude.{◌≡◌, ◌<◌, ◌^◌, ◌&&◌, not, nat_lt, true, false, IfOk, IfSome, IsSome, OnOk, OnErr};
ghost use Rattle.std.specs.Option.{option_map};
ghost use Rattle.quic_retransmits.specs.Kept.{made};
ghost use Rattle.quic_retransmits.specs.Retransmits.{merged};
ghost use Rattle.quic_recovery_core.specs.PendingAcks.{can_send};
ghost use Rattle.quic_streams_parts.specs.Table.{at, put, without};
ghost use Rattle.quic_sent_packets.specs.Packets.{has_in_flight, without_record};
ghost use Rattle.quic_streams_state.specs.Waiting.{is_empty};
ghost use Rattle.quic_spaces.specs.Numbers.{number_given};
ghost use Rattle.quic_spaces.specs.Tracking.{forgotten, after_sent};
ghost use Rattle.quic_spaces.specs.Records.{first_record, has_record};
ghost use Rattle.quic_spaces.specs.Probes.{probe_filled_for};
ghost use Rattle.quic_spaces.specs.Space.{new_space, other_waits, after_probe_queued};
ghost use Rattle.quic_spaces.specs.Marks.{after_mark, told_counts, marks_refused, marks_judged};
ghost use Rattle.quic_wire.specs.AckView.{counts_view, ecn_view};

use crate::acknowledging::Acknowledging;
use crate::numbers::Numbers;
use crate::tracking::Tracking;
use quic_retransmits::{Retransmits, ThinRetransmits};
use quic_sent_packets::SentPacket;
use quic_streams_state::StreamsState;
use quic_time::Instant;
use quic_wire::frame::EcnCounts;
use quic_wire_core::EcnCodepoint;
use std::alloc::{AllocError, Global};
use thiserror::Error;

/// What an end keeps of one packet number space.
///
/// What waits to be sent beside the bytes of streams stands beside the streams, and not here, as in
/// quinn-proto, where it is the field `pending`: what an application holds of streams borrows both.
/// So calls that read or change it take it.
#[derive(Drop)]
pub struct PacketSpace {
    /// The numbers that it gives, and those that it opened.
    pub numbers: Numbers,
    /// What is to be acknowledged, and when.
    pub acknowledging: Acknowledging,
    /// What was sent and is neither acknowledged nor lost.
    pub tracking: Tracking,
    /// Whether PING waits.
    pub ping_pending: bool,
    /// Whether IMMEDIATE_ACK waits (the ACK frequency extension).
    pub immediate_ack_pending: bool,
    /// How many packets came with each congestion mark (RFC 9000, section 13.4.1).
    pub ecn_counters: EcnCounts,
    /// How many packets the peer last said that came with each congestion mark.
    pub ecn_feedback: EcnCounts,
}

/// What a space may send (quinn-proto's `SendableFrames`).
#[derive(Clone, Copy, Debug, PartialEq, Eq)]
pub struct SendableFrames {
    /// Whether an acknowledgement is due.
    pub acks: bool,
    /// Whether something else waits, but for the bytes of streams.
    pub other: bool,
}

impl SendableFrames {
    /// Nothing.
    pub fn empty() -> Self
        ensures { result ≡ record { acks = false; other = false } }
    {
        SendableFrames {
            acks: false,
            other: false,
        }
    }

    /// Whether nothing may be sent.
    pub fn is_empty(&self) -> bool
        ensures { result ≡ not self.now.acks && not self.now.other }
    {
        !self.acks && !self.other
    }
}

/// What is wrong with the counts of congestion marks that the peer sent (RFC 9000, section
/// 13.4.2.1).
#[derive(Clone, Copy, Debug, PartialEq, Eq, Error)]
pub enum EcnError {
    /// The count of ECT(0) fell.
    #[error("the count of ECT(0) fell")]
    Ect0Regression,
    /// The count of ECT(1) fell.
    #[error("the count of ECT(1) fell")]
    Ect1Regression,
    /// The count of CE fell.
    #[error("the count of CE fell")]
    CeRegression,
    /// Fewer marks were counted than packets newly acknowledged: some lost theirs on the way.
    #[error("marks were removed")]
    Bleaching,
    /// Marks were counted that no packet had.
    #[error("marks were changed")]
    Corruption,
}

impl PacketSpace {
    /// Nothing was given, opened or sent since this moment.
    pub fn new(alloc: Global, now: Instant) -> Self
        ensures { result ≡ new_space now }
    {
        PacketSpace {
            numbers: Numbers::new(),
            acknowledging: Acknowledging::new(alloc),
            tracking: Tracking::new(alloc, now),
            ping_pending: false,
            immediate_ack_pending: false,
            ecn_counters: EcnCounts::ZERO,
            ecn_feedback: EcnCounts::ZERO,
        }
    }

    /// Gives the next number: none is left out.
    pub fn get_tx_number(&mut self) -> u64
        requires { self.old.numbers.next < 2 ^ 62 }
        ensures value { result ≡ self.old.numbers.next }
        ensures new { self.new ≡ record self.old { numbers = number_given self.old.numbers self.old.numbers.next } }
    {
        let number = self.numbers.next();
        self.numbers.give(number);
        number
    }

    /// A packet goes, by [`Tracking::sent`].
    ///
    /// # Errors
    ///
    /// - [`AllocError`]: an allocation fails. Nothing changes.
    pub fn sent(
        &mut self,
        number: u64,
        packet: SentPacket,
    ) -> Result<Option<SentPacket>, AllocError>
        ensures forgotten { IfOk result (λ r. r ≡ option_map (λ p. p.1) (forgotten self.old.tracking packet)) }
        ensures ok { OnOk result (self.new ≡ record self.old { tracking = after_sent self.old.tracking number packet }) }
        ensures err { OnErr result (self.new ≡ self.old) }
    {
        self.tracking.sent(number, packet)
    }

    /// Takes out the packet of this number, if it is tracked.
    pub fn take(&mut self, number: u64) -> Option<SentPacket>
        ensures taken { result ≡ at self.old.tracking.packets number }
        ensures left { self.new ≡ record self.old { tracking = record self.old.tracking { packets = without self.old.tracking.packets number } } }
    {
        self.tracking.take(number)
    }

    /// Whether a packet is tracked that counts against the congestion window. Takes constant time.
    pub fn has_in_flight(&self) -> bool
        ensures { result ≡ has_in_flight self.now.tracking.packets }
    {
        self.tracking.has_in_flight()
    }

    /// What may be sent, with `pending` beside the bytes of `streams`.
    pub fn can_send(&self, pending: &Retransmits, streams: &StreamsState) -> SendableFrames
        ensures acks { result.acks ≡ can_send self.now.acknowledging }
        ensures other { result.other ≡ other_waits self.now pending.now streams.now }
    {
        let acks = self.acknowledging.is_due();
        let other = !pending.is_empty(streams) || self.ping_pending || self.immediate_ack_pending;
        SendableFrames { acks, other }
    }

    /// Where probes wait, sees that something goes with one: IMMEDIATE_ACK if it is asked for, and,
    /// where nothing waits in `pending`, what the first packet carried of it that has something, or
    /// PING, unless IMMEDIATE_ACK waits (RFC 9002, section 6.2.4). That packet stays tracked.
    ///
    /// # Errors
    ///
    /// - [`AllocError`]: an allocation fails, where a probe waits, nothing waits in `pending`, and
    ///   a tracked packet carried something. Nothing changes.
    pub fn maybe_queue_probe(
        &mut self,
        request_immediate_ack: bool,
        pending: &mut Retransmits,
        streams: &StreamsState,
    ) -> Result<(), AllocError>
        ensures ok { OnOk result (record { space = self.new; pending = pending.new } ≡ after_probe_queued request_immediate_ack self.old pending.old streams.now) }
        ensures err { OnErr result (self.new ≡ self.old) }
        ensures pending { OnErr result (pending.new ≡ pending.old) }
        ensures probes { OnErr result (nat_lt 0 self.old.tracking.probes ≡ true) }
        ensures nothing { OnErr result (is_empty pending.old streams.now ≡ true) }
        ensures moves { OnErr result (IsSome (first_record streams.now self.old.tracking.packets)) }
    {
        if !self.tracking.has_probes() {
            return Ok(());
        }
        if pending.is_empty(streams) {
            self.fill_probe(request_immediate_ack, pending, streams)?;
        }
        self.immediate_ack_pending = self.immediate_ack_pending || request_immediate_ack;
        Ok(())
    }

    /// Something waits: what a packet carried, or else PING, unless IMMEDIATE_ACK does.
    fn fill_probe(
        &mut self,
        request_immediate_ack: bool,
        pending: &mut Retransmits,
        streams: &StreamsState,
    ) -> Result<(), AllocError>
        ensures ok { OnOk result (record { space = self.new; pending = pending.new } ≡ probe_filled_for request_immediate_ack self.old pending.old streams.now) }
        ensures err { OnErr result (self.new ≡ self.old) }
        ensures pending { OnErr result (pending.new ≡ pending.old) }
        ensures moves { OnErr result (IsSome (first_record streams.now self.old.tracking.packets)) }
    {
        match self.tracking.first_record(streams) {
            Some(number) => self.tracking.move_record(number, pending),
            None => {
                self.ping_pending = self.ping_pending
                    || !(self.immediate_ack_pending || request_immediate_ack);
                Ok(())
            }
        }
    }

    /// One packet more came, with this mark or with none (RFC 9000, section 13.4.1).
    pub fn on_mark(&mut self, ecn: Option<EcnCodepoint>)
        ensures counted { counts_view self.new.ecn_counters ≡ after_mark ecn (counts_view self.old.ecn_counters) }
        ensures others { self.new ≡ record self.old { ecn_counters = self.new.ecn_counters } }
    {
        if let Some(mark) = ecn {
            self.ecn_counters += mark;
        }
    }

    /// The counts that an ACK frame tells: none before a packet came with a mark.
    pub fn told_counts(&self) -> Option<EcnCounts>
        ensures { ecn_view result ≡ told_counts (counts_view self.now.ecn_counters) }
    {
        let EcnCounts { ect0, ect1, ce } = self.ecn_counters;
        if ect0 == 0 && ect1 == 0 && ce == 0 {
            return None;
        }
        Some(self.ecn_counters)
    }

    /// Takes over the counts of marks that came with so many packets newly acknowledged, and
    /// answers whether that of CE grew, which congestion makes.
    ///
    /// # Errors
    ///
    /// - [`EcnError::Ect0Regression`]: the count of ECT(0) fell. Nothing changes.
    /// - [`EcnError::Ect1Regression`]: the count of ECT(1) fell. Nothing changes.
    /// - [`EcnError::CeRegression`]: the count of CE fell. Nothing changes.
    /// - [`EcnError::Bleaching`]: all counts grew by less than `newly_acked`. Nothing changes.
    /// - [`EcnError::Corruption`]: those of ECT(0) and CE grew by less than `newly_acked`, or that
    ///   of ECT(1) grew. Nothing changes.
    pub fn detect_ecn(&mut self, newly_acked: u64, counts: &EcnCounts) -> Result<bool, EcnError>
        ensures answer { let last = counts_view self.old.ecn_feedback in
            let now = counts_view counts.now in
            result ≡ marks_judged (marks_refused newly_acked last now) last now }
        ensures ok { OnOk result (self.new ≡ record self.old { ecn_feedback = counts.now }) }
        ensures err { OnErr result (self.new ≡ self.old) }
    {
        if let Some(error) = refused(newly_acked, &self.ecn_feedback, counts) {
            return Err(error);
        }
        let congested = self.ecn_feedback.ce < counts.ce;
        self.ecn_feedback = *counts;
        Ok(congested)
    }
}

/// What is wrong with counts after others, where so many packets were newly acknowledged.
fn refused(newly: u64, last: &EcnCounts, counts: &EcnCounts) -> Option<EcnError>
    ensures { result ≡ marks_refused newly (counts_view last.now) (counts_view counts.now) }
{
    if counts.ect0 < last.ect0 {
        return Some(EcnError::Ect0Regression);
    }
    if counts.ect1 < last.ect1 {
        return Some(EcnError::Ect1Regression);
    }
    if counts.ce < last.ce {
        return Some(EcnError::CeRegression);
    }
    let newly = u128::from(newly);
    let ect0 = u128::from(counts.ect0 - last.ect0);
    let ect1 = u128::from(counts.ect1 - last.ect1);
    let ce = u128::from(counts.ce - last.ce);
    if ect0 + ect1 + ce < newly {
        return Some(EcnError::Bleaching);
    }
    if ect0 + ce < newly || ect1 > 0 {
        return Some(EcnError::Corruption);
    }
    None
}

/// What a packet carried waits again. On an error nothing changes.
fn merge_kept(pending: &mut Retransmits, kept: &ThinRetransmits) -> Result<(), AllocError>
    ensures ok { OnOk result (pending.new ≡ merged pending.old (made kept.now)) }
    ensures err { OnErr result (pending.new ≡ pending.old) }
{
    match kept.get() {
        Some(retransmits) => pending.merge(retransmits),
        None => Ok(()),
    }
}

impl Tracking {
    /// The least number of a packet whose record has something that would be written.
    fn first_record(&self, streams: &StreamsState) -> Option<u64>
        ensures value { result ≡ option_map (λ p. p.0) (first_record streams.now self.now.packets) }
        ensures there { IfSome result (λ n. first_record streams.now self.now.packets ≡ option_map (λ p. (n, p)) (at self.now.packets n)) }
    {
        let mut low = 0;
        while let Some(number) = self.packets.first_from(low) {
            if self.has_record(number, streams) {
                return Some(number);
            }
            if number == u64::MAX {
                return None;
            }
            low = number + 1;
        }
        None
    }

    /// Whether the record of a packet has something that would be written.
    fn has_record(&self, number: u64, streams: &StreamsState) -> bool
        ensures { result ≡ has_record streams.now (at self.now.packets number) }
    {
        match self.packets.get(number) {
            Some(packet) => !packet.retransmits.is_empty(streams),
            None => false,
        }
    }

    /// What a packet carried waits again, and it has no record any more, but stays tracked. An
    /// error is want of memory, and nothing has changed.
    fn move_record(&mut self, number: u64, pending: &mut Retransmits) -> Result<(), AllocError>
        ensures ok { IfSome (at self.old.packets number) (λ p. OnOk result ((self.new ≡ record self.old { packets = put self.old.packets number (without_record p) }) × (pending.new ≡ merged pending.old p.carried.retransmits))) }
        ensures err { OnErr result (self.new ≡ self.old) }
        ensures pending { OnErr result (pending.new ≡ pending.old) }
    {
        let Some(packet) = self.packets.get(number) else {
            return Ok(());
        };
        merge_kept(pending, &packet.retransmits)?;
        let _ = self.packets.take_retransmits(number);
        Ok(())
    }
}
