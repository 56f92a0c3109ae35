//! What a datagram carried, and what becomes of the endpoint once it goes.
ghost use Rattle.std.specs.Prelude.{◌≡◌, ◌-◌, OnOk, OnErr, true};
ghost use Rattle.quic_machine.specs.End.{with_tracking, with_number_given, number_of, words_drawn};
ghost use Rattle.quic_spaces.specs.Numbers.{can_number};
ghost use Rattle.quic_machine.specs.Tracking.{after_sent};
ghost use Rattle.quic_machine.specs.Poll.{paid_if};
ghost use Rattle.quic_machine.specs.Idle.{packet_given};
ghost use Rattle.quic_machine.specs.Control.{told_sent};
ghost use Rattle.quic_connection_parts.specs.Frames.{tracked_as};
ghost use Rattle.quic_connection_parts.specs.Drawn.{words_of, after_words};
ghost use Rattle.quic_connection_parts.specs.Telling.{telling};
ghost use Rattle.quic_congestion.specs.Congestion.{after_calls};

use crate::connection::Connection;
use quic_congestion::Controller;
use quic_connection_parts::sent::{SentFrames, enter_flight, leave_forgotten, pay};
use quic_connection_parts::telling::tell_sent;
use quic_packet::crypto::{HeaderKey, PacketKey};
use quic_sent_packets::SentPacket;
use rand_core::Rng;
use std::alloc::AllocError;

impl<H: HeaderKey + Drop, K: PacketKey + Drop, R: Rng + Drop, C: Controller> Connection<
    H,
    K,
    R,
    C,
> {
    /// Tracks the next datagram, of so many bytes and these frames; its number counts as used. If
    /// it is ack-eliciting, it is in flight, takes tokens of the pacer, and the congestion
    /// controller is notified (RFC 9002, sections 2, 7 and 7.7). Fails if out of memory; nothing
    /// has changed then.
    pub(crate) fn track(&mut self, size: u16, sent: SentFrames) -> Result<(), AllocError>
        requires { can_number self.old.end.numbers ≡ true }
        ensures end { OnOk result (self.new.end ≡ packet_given sent.asks (paid_if sent.asks (with_number_given (words_of R.stream self.old.random 0) (tracked_as sent.asks size sent.carried self.old.end)) size)) }
        ensures control { OnOk result (self.new.control ≡ after_calls C.steps self.old.control (told_sent sent.asks self.old.end size (number_of self.old.end))) }
        ensures keys { self.new.keys ≡ self.old.keys }
        ensures heard { OnOk result (self.new.heard ≡ self.old.heard) }
        ensures random { OnOk result (R.stream self.new.random ≡ after_words (words_drawn self.new.end - words_drawn self.old.end) (R.stream self.old.random)) }
        ensures err { OnErr result (self.new ≡ self.old) }
    {
        let number = self.number();
        let SentFrames { asks, carried, .. } = sent;
        let packet = SentPacket {
            path_generation: self.path.generation(),
            time_sent: self.closing.clock(),
            size: if asks { size } else { 0 },
            ack_eliciting: asks,
            largest_acked: carried.largest_acked,
            retransmits: carried.retransmits,
            stream_frames: carried.stream_frames,
        };
        self.keep(packet)?;
        if asks {
            self.tell_sent(number, size);
        }
        self.on_packet_given(asks);
        self.count_sent(size);
        Ok(())
    }

    /// Tracks a packet as the next on the path, in flight if it is ack-eliciting. Its number is
    /// used up; if one is skipped before it, a random value says which is skipped next. Fails if
    /// out of memory; nothing has changed then.
    #[tactic(auto, unfolding(rand_core::specs::Stream::next_u64))]
    fn keep(&mut self, packet: SentPacket) -> Result<(), AllocError>
        requires number { can_number self.old.end.numbers ≡ true }
        requires generation { packet.generation ≡ self.old.end.path.generation }
        ensures end { OnOk result (self.new.end ≡ with_number_given (words_of R.stream self.old.random 0) (with_tracking self.old.end (after_sent self.old.end.tracking (number_of self.old.end) packet))) }
        ensures control { self.new.control ≡ self.old.control }
        ensures keys { self.new.keys ≡ self.old.keys }
        ensures heard { self.new.heard ≡ self.old.heard }
        ensures random { OnOk result (R.stream self.new.random ≡ after_words (words_drawn self.new.end - words_drawn self.old.end) (R.stream self.old.random)) }
        ensures err { OnErr result (self.new ≡ self.old) }
    {
        let number = self.number();
        // The proof reads that the numbers ascend.
        let _packet = self.space.tracking.packets().get(number);
        let asks = packet.ack_eliciting;
        let size = packet.size;
        let forgotten = self.space.tracking.sent(number, packet)?;
        enter_flight(&mut self.path, size, asks);
        leave_forgotten(&mut self.path, &forgotten);
        let _number = self
            .filter
            .allocate(&mut self.random, &mut self.space.numbers);
        Ok(())
    }

    /// Notifies pacer and congestion controller of an ack-eliciting packet of this number and so
    /// many bytes.
    fn tell_sent(&mut self, number: u64, size: u16)
        ensures { self.new ≡ telling C.steps self.old (told_sent true self.old.end size number) (paid_if true self.old.end size) }
    {
        let now = self.closing.clock();
        pay(&mut self.path, size);
        tell_sent(&mut self.path, now, size, number);
    }
}
