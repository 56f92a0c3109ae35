//! What an ACK frame makes of an end: packets are acknowledged, a round trip is measured, and other
//! packets are lost (RFC 9000, section 13.1; RFC 9002, sections 5 and 6.1).
ghost use Rattle.std.specs.Prelude.{ℕ, ◌≡◌, ◌≢◌, [], reverse, IfOk, OnOk, OnErr};
ghost use Rattle.std.specs.Option.{option_map};
ghost use Rattle.quic_streams_parts.specs.Table.{at};
ghost use Rattle.quic_machine.specs.End.{with_end, with_tracking, with_rtt};
ghost use Rattle.quic_machine.specs.Sizes.{told_packets};
ghost use Rattle.quic_congestion.specs.Search.{open_probe};
ghost use Rattle.quic_wire.specs.AckView.{counts_view};
ghost use Rattle.quic_machine.specs.Control.{bytes_in_flight, persistent_period, told_packet, told_acks_ended};
ghost use Rattle.quic_machine.specs.Tracking.{lost_by, acked_by, not_acked_by};
ghost use Rattle.quic_machine.specs.Acked.{without_known, carried_acked, carried_lost, packets_acked, verdict, losses_detected, told_delay, first_measured, counts_answer, counts_judged, marks_seen, told_grown, told_seen, after_acked, told_detected, told_acked};
ghost use Rattle.quic_connection_parts.specs.Losses.{none_lost, all_lost, told_lost};
ghost use Rattle.quic_connection_parts.specs.Telling.{telling, KeepsRest};
ghost use Rattle.quic_connection_parts.specs.Tracked.{acked_taken, acked_told, acked_count, sampled_at, after_losses};

use crate::connection::Connection;
use quic_congestion::Controller;
use quic_connection_parts::acked::{
    clear_flight, if_measured, is_number, last_sent, leave_all, leave_flight, on_carried_acked,
    on_carried_lost, saturated, take_lost,
};
use quic_connection_parts::losses::Losses;
use quic_connection_parts::spare::{keep_list, keep_spare, take_spare};
use quic_connection_parts::statistics::count;
use quic_connection_parts::telling::{tell_ack, tell_acks_ended, tell_congested};
use quic_machine::Instant;
use quic_packet::crypto::{HeaderKey, PacketKey};
use quic_sent_packets::SentPacket;
use quic_spaces::{Tracking, Verdict};
use quic_time::Duration;
use quic_wire::frame::{Ack, EcnCounts};
use rand_core::Rng;
use std::alloc::AllocError;

impl<H: HeaderKey + Drop, K: PacketKey + Drop, R: Rng + Drop, C: Controller> Connection<
    H,
    K,
    R,
    C,
> {
    /// Takes an ACK frame whose greatest number is noted already; `rises` says whether it is above
    /// all that were acknowledged before. The tracked packets that it names are acknowledged, the
    /// round trip is sampled where it can be, packets that are late by number or by time are lost,
    /// and its ECN counts are validated. A frame that names no tracked packet changes nothing.
    /// Fails if out of memory; the endpoint is then unusable.
    pub(crate) fn on_ack_received(&mut self, frame: &Ack<'_>, rises: bool) -> Result<(), AllocError>
        ensures ok { OnOk result (self.new ≡ telling C.steps self.old (told_acked rises frame.now self.old.end) (after_acked rises frame.now self.old.end)) }
        ensures others { KeepsRest self.old self.new }
    {
        if let Some(acked) = self.take_acked(frame, rises)? {
            let (newly, last) = acked;
            self.see_marks(frame, rises, newly, last);
        }
        Ok(())
    }

    /// Takes an ACK frame but for its ECN counts. Returns how many packets are newly acknowledged,
    /// and when the last of them was sent, if there are some.
    fn take_acked(
        &mut self,
        frame: &Ack<'_>,
        rises: bool,
    ) -> Result<Option<(u64, Instant)>, AllocError>
        ensures ok { let named = acked_by frame.now self.old.end.tracking.packets in
            OnOk result (self.new ≡ telling C.steps self.old (acked_told named rises frame.now self.old.end) (acked_taken named rises frame.now self.old.end)) }
        ensures count { IfOk result (λ count. count ≡ acked_count (acked_by frame.now self.old.end.tracking.packets)) }
        ensures others { KeepsRest self.old self.new }
    {
        let sent = self.sent_at(frame.largest());
        let acked = self.take_named(frame)?;
        if acked.is_empty() {
            self.keep_acked(acked);
            return Ok(None);
        }
        let sent = if_measured(rises, sent, &acked);
        let newly = acked.len() as u64;
        let last = last_sent(&acked);
        self.on_packets_acked(acked)?;
        self.end_acks();
        self.update_rtt(frame, sent);
        self.detect_lost_packets(true)?;
        self.space.tracking.answered();
        Ok(Some((newly, last)))
    }

    /// Validates the ECN counts of an ACK frame, while datagrams carry a codepoint. It newly
    /// acknowledged so many packets, the last of which was sent at `last`. Counts are validated if
    /// the frame's greatest number is above all that were acknowledged before. If there are none,
    /// or they can't be right, no later datagram carries a codepoint; if the CE count grew, the
    /// path is congested (RFC 9000, section 13.4.2; RFC 9002, section 7.1).
    fn see_marks(&mut self, frame: &Ack<'_>, rises: bool, newly: u64, last: Instant)
        ensures { self.new ≡ telling C.steps self.old (told_seen self.old.end.path.marking rises newly frame.now.ecn last self.old.end) (marks_seen rises newly frame.now self.old.end) }
    {
        if !self.path.sending_ecn {
            return;
        }
        match frame.ecn() {
            None => self.path.sending_ecn = false,
            Some(counts) if rises => self.judge_marks(&counts, newly, last),
            Some(_) => {}
        }
    }

    /// Validates these ECN counts, which the frame has and which are to be validated.
    fn judge_marks(&mut self, counts: &EcnCounts, newly: u64, last: Instant)
        ensures { let answer = counts_answer self.old.end newly (counts_view counts.now) in
            self.new ≡ telling C.steps self.old (told_grown answer self.old.end.closing.clock last) (counts_judged answer (counts_view counts.now) self.old.end) }
    {
        match self.space.detect_ecn(newly, counts) {
            Ok(false) => {}
            Ok(true) => {
                count(&mut self.stats.path.congestion_events);
                let now = self.closing.clock();
                tell_congested(&mut self.path, now, last, false, 0);
            }
            Err(_) => self.path.sending_ecn = false,
        }
    }

    /// Takes out the tracked packets that an ACK frame names, the greatest number first: they are
    /// no longer in flight. Fails if out of memory; nothing is tracked then.
    fn take_named(&mut self, frame: &Ack<'_>) -> Result<Vec<(u64, SentPacket)>, AllocError>
        ensures acked { IfOk result (λ acked. reverse acked.items ≡ acked_by frame.now self.old.end.tracking.packets) }
        ensures ok { OnOk result (self.new ≡ with_end self.old (with_tracking self.old.end (record self.old.end.tracking { packets = not_acked_by frame.now self.old.end.tracking.packets }))) }
        ensures others { self.new ≡ with_end self.old self.new.end }
    {
        let mut acked = take_spare(&mut self.spare_acked, self.alloc);
        if let Err(error) = self.space.tracking.take_named(frame, &mut acked) {
            // Some packets are gone, it isn't known which.
            self.space.tracking = Tracking::new(self.alloc, self.closing.clock());
            clear_flight(&mut self.path);
            return Err(error);
        }
        leave_all(&mut self.path, &acked);
        Ok(acked)
    }

    /// When the tracked packet of this number was sent, if there is one.
    fn sent_at(&self, number: u64) -> Option<Instant>
        ensures { result ≡ option_map (λ p. p.time_sent) (at self.now.end.tracking.packets number) }
    {
        Some(self.space.tracking.packets().get(number)?.time_sent)
    }

    /// Acknowledges these packets, the last of the list first: they came with the greatest number
    /// first.
    fn on_packets_acked(&mut self, mut acked: Vec<(u64, SentPacket)>) -> Result<(), AllocError>
        ensures ok { OnOk result (self.new ≡ telling C.steps self.old (told_packets self.old.end (reverse acked.items)) (packets_acked (reverse acked.items) self.old.end)) }
        ensures others { KeepsRest self.old self.new }
    {
        while let Some((number, packet)) = acked.pop() {
            self.tell_acked(&packet);
            self.search_acked(number, packet.size);
            self.ack_frequency.on_acked(number);
            self.on_packet_acked(packet)?;
        }
        self.keep_acked(acked);
        Ok(())
    }

    /// Keeps the memory of a list of acknowledged packets for those of the next ACK frame, if it
    /// leaves packets in flight.
    fn keep_acked(&mut self, acked: Vec<(u64, SentPacket)>)
        ensures { self.new ≡ self.old }
    {
        if self.space.tracking.has_in_flight() {
            keep_spare(&mut self.spare_acked, acked);
        }
    }

    /// Notifies the congestion controller of an acknowledged packet, if that is ack-eliciting; but
    /// not while the peer has a PATH_CHALLENGE to answer.
    fn tell_acked(&mut self, packet: &SentPacket)
        ensures { (number : ℕ) → self.new ≡ telling C.steps self.old (told_packet self.old.end (number, packet.now)) self.old.end }
    {
        if !packet.ack_eliciting || self.path.challenge.is_some() {
            return;
        }
        let now = self.closing.clock();
        tell_ack(&mut self.path, now, packet, self.app_limited);
    }

    /// Notifies the congestion controller that all packets are acknowledged that an ACK frame
    /// named.
    fn end_acks(&mut self)
        ensures { self.new ≡ telling C.steps self.old (told_acks_ended self.old.end) self.old.end }
    {
        let now = self.closing.clock();
        let in_flight = saturated(self.bytes_in_flight());
        let largest = self.space.numbers.largest_acked();
        tell_acks_ended(&mut self.path, now, in_flight, self.app_limited, largest);
    }

    /// The bytes in flight on the path: the sizes of the ack-eliciting datagrams that are neither
    /// acknowledged, lost nor forgotten (RFC 9002, section 2; quinn-proto's `bytes_in_flight`).
    pub fn bytes_in_flight(&self) -> u128
        ensures { result ≡ bytes_in_flight self.now.end }
    {
        self.path.in_flight.bytes()
    }

    /// Drops the numbers up to this one, if there is one, from those to acknowledge: the peer knows
    /// that they came, as it acknowledged a packet that said so.
    fn forget_known(&mut self, largest_acked: Option<u64>)
        ensures { self.new ≡ with_end self.old (without_known largest_acked self.old.end) }
    {
        if let Some(largest) = largest_acked {
            self.space.acknowledging.forget(largest);
        }
    }

    /// Acknowledges a packet: the numbers that its ACK frame named need no more acknowledgement,
    /// and its stream data and control frames are never sent again.
    fn on_packet_acked(&mut self, packet: SentPacket) -> Result<(), AllocError>
        ensures ok { OnOk result (self.new ≡ with_end self.old (carried_acked packet.carried self.old.end)) }
        ensures others { self.new ≡ with_end self.old self.new.end }
    {
        self.forget_known(packet.largest_acked);
        let frames = on_carried_acked(&mut self.streams, packet)?;
        keep_list(&mut self.spare_frames, frames);
        Ok(())
    }

    /// Takes the round trip of a packet that was sent at this time as a sample, if there is one
    /// (RFC 9002, section 5).
    fn update_rtt(&mut self, frame: &Ack<'_>, sent: Option<Instant>)
        ensures { self.new ≡ with_end self.old (sampled_at sent frame.now self.old.end) }
    {
        if let Some(sent) = sent {
            let delay = self.told_delay(frame);
            let rtt = self.closing.clock().saturating_duration_since(sent);
            self.path.rtt.update(delay, rtt);
            if self.path.first_packet_after_rtt_sample.is_none() {
                self.path.first_packet_after_rtt_sample = Some(self.space.numbers.next());
            }
        }
    }

    /// The ACK delay that the peer reports, cut to its max_ack_delay (RFC 9002, section 5.3; RFC
    /// 9000, section 19.3).
    fn told_delay(&self, frame: &Ack<'_>) -> Duration
        ensures { result ≡ told_delay self.now.end frame.now }
    {
        let exponent = self.peer_params.ack_delay_exponent.into_inner();
        let micros = frame.delay().saturating_mul(1 << exponent);
        Duration::from_micros(micros).min(self.peer_delay())
    }

    /// Which packets count as lost now (RFC 9002, section 6.1).
    fn verdict(&self) -> Verdict
        ensures { result ≡ verdict self.now.end }
    {
        let (numerator, denominator) = self.transport.get_time_threshold();
        Verdict::new(
            self.space.numbers.reference(),
            u64::from(self.transport.get_packet_threshold()),
            (u64::from(numerator), u64::from(denominator)),
            &self.path.rtt,
            self.closing.clock(),
        )
    }

    /// Declares packets lost that are late by number or by time: what they carried is queued again
    /// (RFC 9002, section 6.1), and the path is congested if one was in flight. `by_ack` says
    /// whether an ACK shows it, as only that can show persistent congestion. Fails if out of
    /// memory; the endpoint is then unusable.
    pub(crate) fn detect_lost_packets(&mut self, by_ack: bool) -> Result<(), AllocError>
        ensures ok { OnOk result (self.new ≡ telling C.steps self.old (told_detected by_ack self.old.end) (losses_detected self.old.end)) }
        ensures others { KeepsRest self.old self.new }
        ensures lacking { OnErr result (lost_by (verdict self.old.end) self.old.end.tracking.packets ≢ []) }
    {
        let verdict = self.verdict();
        let mut losses = self.no_losses();
        self.on_packets_lost(&verdict, &mut losses)?;
        self.space.tracking.detected(&verdict);
        self.judge_size(&losses);
        self.tell_lost(by_ack, &losses);
        Ok(())
    }

    /// No packet is lost yet.
    fn no_losses(&self) -> Losses
        ensures { result ≡ none_lost (persistent_period self.now.end) self.now.end.path.first_after_rtt }
    {
        let timeouts = self.transport.get_persistent_congestion_threshold();
        let period = self.probe_timeout().saturating_mul(u64::from(timeouts));
        Losses::new(period, self.path.first_packet_after_rtt_sample)
    }

    /// Declares the packets lost that this verdict finds: what they carried is queued again, and
    /// they count among these losses.
    fn on_packets_lost(&mut self, verdict: &Verdict, losses: &mut Losses) -> Result<(), AllocError>
        ensures ok { OnOk result (self.new ≡ with_end self.old (after_losses (open_probe self.old.end.path.discovery) verdict.now self.old.end)) }
        ensures losses { OnOk result (losses.new ≡ all_lost self.old.end.path.generation (open_probe self.old.end.path.discovery) losses.old (lost_by verdict.now self.old.end.tracking.packets)) }
        ensures others { self.new ≡ with_end self.old self.new.end }
        ensures lacking { OnErr result (lost_by verdict.now self.old.end.tracking.packets ≢ []) }
    {
        let probe = self.open_probe();
        let mut low = 0;
        while let Some((number, packet)) = take_lost(&mut self.space.tracking, low, verdict) {
            leave_flight(&mut self.path, &packet);
            let is_probe = is_number(number, probe);
            losses.add(self.path.generation(), number, &packet, is_probe);
            self.on_packet_lost(&packet)?;
            self.search_lost(number, packet.size, is_probe);
            low = number;
        }
        Ok(())
    }

    /// Notifies the congestion controller of lost packets, if one was in flight.
    fn tell_lost(&mut self, by_ack: bool, losses: &Losses)
        ensures { self.new ≡ telling C.steps self.old (told_lost by_ack self.old.end.closing.clock losses.now) self.old.end }
    {
        if losses.flew {
            count(&mut self.stats.path.congestion_events);
            let now = self.closing.clock();
            let persistent = by_ack && losses.persistent.is_persistent();
            tell_congested(
                &mut self.path,
                now,
                losses.last_sent,
                persistent,
                losses.bytes,
            );
        }
    }

    /// Declares a packet lost: what it carried is queued again.
    fn on_packet_lost(&mut self, packet: &SentPacket) -> Result<(), AllocError>
        ensures ok { OnOk result (self.new ≡ with_end self.old (carried_lost packet.now.carried self.old.end)) }
        ensures others { self.new ≡ with_end self.old self.new.end }
    {
        on_carried_lost(&mut self.streams, packet)?;
        Ok(())
    }
}
