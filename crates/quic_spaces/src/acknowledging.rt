//! What is to be acknowledged, and when (RFC 9000, section 13.2).
ghost use Rattle.std.specs.Prelude.{◌≡◌, ◌+◌, ◌≤◌, ◌<◌, ◌^◌, ◌++◌, [], true, length, vec_len, vec_capacity, IfOk, OnOk, OnErr};
ghost use Rattle.quic_wire.specs.AckSet.{ack_of_set, ranges_of_set, greatest, IsSmall};
ghost use Rattle.quic_wire.specs.AckView.{shown_ecn};
ghost use Rattle.quic_wire.specs.AckWriting.{ack_spelling, ack_size};
ghost use Rattle.quic_recovery_core.specs.declared.spaces.pending_acks.TheConstants.{MAX_ACK_RUNS};
ghost use Rattle.quic_recovery_core.specs.PendingAcks.{none_pending, after_insert, after_packet, packet_starts_wait, after_subtract, after_timeout, after_lazy, can_send, is_filled, after_acks_sent};
ghost use Rattle.quic_spaces.specs.Acknowledging.{ack_due, with_due, delay_at, ack_at, most_ack_bytes};

use quic_recovery_core::{Dedup, PendingAcks};
use quic_sets::ArrayRangeSet;
use quic_time::{Duration, Instant};
use quic_wire::frame::{Ack, AckFrequency, EcnCounts};
use std::alloc::{AllocError, Global};
use std::marker::Model;

/// Microseconds of one unit in which ACK frames tell their delay: the default exponent is 3 (RFC
/// 9000, section 18.2).
const ACK_DELAY_UNIT: u64 = 8;

/// The greatest number that a frame can tell (RFC 9000, section 16).
const MAX_DELAY: u64 = (1 << 62) - 1;

/// The moment at which an acknowledgement is due that waits from this one on, for so long at most
/// (RFC 9000, section 13.2.1).
pub fn ack_due(delay: Duration, now: Instant) -> Instant
    ensures { result ≡ ack_due delay now }
{
    Instant::from_nanos(now.as_nanos().saturating_add(delay.as_nanos()))
}

/// The numbers of packets that were taken and are to be acknowledged, and when that is due (over
/// quinn-proto's `PendingAcks`). Moments and waits are nanoseconds.
#[derive(Drop)]
pub struct Acknowledging {
    pending: PendingAcks,
}

impl Model for Acknowledging {
    ghost use Rattle.quic_wire.specs.AckSet.{IsSmall};
    ghost use Rattle.quic_recovery_core.specs.PendingAcks.{Pending};

    ghost Value = { Pending };

    ghost view = { λ a. a.pending };

    ghost invariant = { λ a. IsSmall a.pending.runs };
}

impl Acknowledging {
    /// No packet was taken. An acknowledgement is due with the second packet that asks, or where
    /// one comes out of order.
    pub fn new(alloc: Global) -> Self
        ensures { result ≡ none_pending }
    {
        Acknowledging {
            pending: PendingAcks::new(alloc),
        }
    }

    /// A packet of this number was taken at this moment, which asks for an acknowledgement or
    /// doesn't: whether the timer of acknowledgements is to be set. One that is `urged` is to be
    /// acknowledged at once (RFC 9000, section 13.2.1). `dedup` has the numbers opened, this one
    /// too.
    ///
    /// # Errors
    ///
    /// - [`AllocError`]: an allocation fails. Nothing changes.
    pub fn take(
        &mut self,
        number: u64,
        now: Instant,
        asks: bool,
        urged: bool,
        dedup: &Dedup,
    ) -> Result<bool, AllocError>
        requires { number < 2 ^ 62 }
        ensures waits { IfOk result (λ waits. waits ≡ packet_starts_wait (with_due urged (after_insert self.old number now)) number asks dedup.now) }
        ensures ok { OnOk result (self.new ≡ after_packet (with_due urged (after_insert self.old number now)) now number asks dedup.now) }
        ensures err { OnErr result (self.new ≡ self.old) }
    {
        self.pending.insert_one(number, now)?;
        if urged {
            self.pending.set_immediate_ack_required();
        }
        Ok(self.pending.packet_received(now, number, asks, dedup))
    }

    /// The timer of acknowledgements expired.
    pub fn expire(&mut self)
        ensures { self.new ≡ after_timeout self.old }
    {
        self.pending.on_max_ack_delay_timeout();
    }

    /// A packet is made that goes anyway: an acknowledgement is due where many packets came that
    /// don't ask.
    pub fn lazy(&mut self)
        ensures { self.new ≡ after_lazy self.old }
    {
        self.pending.maybe_ack_non_eliciting();
    }

    /// The peer wants an acknowledgement at once.
    pub fn require(&mut self)
        ensures { self.new ≡ record self.old { due = true } }
    {
        self.pending.set_immediate_ack_required();
    }

    /// From now on an acknowledgement is due with more than so many ack-eliciting packets, and
    /// where one comes as far out of order as the frame says (QUIC Acknowledgement Frequency,
    /// section 4; quinn-proto's `set_ack_frequency_params`).
    pub fn set_ack_frequency_params(&mut self, frame: &AckFrequency)
        ensures { self.new ≡ record self.old { threshold = frame.now.ack_eliciting_threshold; reordering = frame.now.reordering_threshold } }
    {
        self.pending.set_ack_frequency_params(frame);
    }

    /// The peer knows that the numbers up to one came: they need no more acknowledgement.
    pub fn forget(&mut self, largest: u64)
        ensures { self.new ≡ after_subtract self.old largest }
    {
        self.pending.subtract_below(largest);
    }

    /// Whether an acknowledgement is due.
    pub fn is_due(&self) -> bool
        ensures { result ≡ can_send self.now }
    {
        self.pending.can_send()
    }

    /// Whether there is a number to acknowledge.
    pub fn is_filled(&self) -> bool
        ensures { result ≡ is_filled self.now.runs }
    {
        self.pending.can_send_with_other_frames()
    }

    /// The greatest number to acknowledge, 0 where there is none.
    pub fn largest(&self) -> u64
        ensures { result ≡ greatest (ranges_of_set self.now.runs) }
    {
        self.pending.ranges().max().unwrap_or(0)
    }

    /// The delay that an ACK frame tells at this moment.
    fn delay(&self, now: Instant) -> u64
        ensures value { result ≡ delay_at self.now now }
        ensures small { result < 2 ^ 62 }
    {
        (self.pending.ack_delay(now).as_micros() / ACK_DELAY_UNIT).min(MAX_DELAY)
    }

    /// How many bytes the ACK frame of this moment takes with these counts of marks, where there is
    /// a number to acknowledge.
    pub fn size(&self, now: Instant, ecn: Option<&EcnCounts>) -> usize
        requires { is_filled self.now.runs ≡ true }
        ensures size { result ≡ ack_size (ack_at self.now now (shown_ecn ecn.entry)) }
        ensures most { result ≤ most_ack_bytes }
    {
        Ack::size_of(self.delay(now), self.pending.ranges(), ecn)
    }

    /// Appends the ACK frame of this moment with these counts of marks, for which there is room:
    /// 1065 bytes are enough. There is a number to acknowledge. No acknowledgement is due then
    /// until more packets come.
    pub fn put(&mut self, now: Instant, ecn: Option<&EcnCounts>, out: &mut Vec<u8>)
        requires some { is_filled self.old.runs ≡ true }
        requires room { length self.old.runs ≤ MAX_ACK_RUNS → vec_len out.old + ack_size (ack_at self.old now (shown_ecn ecn)) ≤ vec_capacity out.old }
        ensures items { out.new.items ≡ out.old.items ++ ack_spelling (ack_at self.old now (shown_ecn ecn.entry)) }
        ensures len { vec_len out.new ≡ vec_len out.old + ack_size (ack_at self.old now (shown_ecn ecn.entry)) }
        ensures most { ack_size (ack_at self.old now (shown_ecn ecn.entry)) ≤ most_ack_bytes }
        ensures capacity { vec_capacity out.old ≤ vec_capacity out.new }
        ensures next { self.new ≡ after_acks_sent self.old }
    {
        let delay = self.delay(now);
        put_ack(out, delay, self.pending.ranges(), ecn);
        self.pending.acks_sent();
    }
}

/// Appends the ACK frame of numbers with these counts of marks, for which there is room.
fn put_ack(out: &mut Vec<u8>, delay: u64, ranges: &ArrayRangeSet, ecn: Option<&EcnCounts>)
    requires some { ranges.now ≡ [] → ⊥ }
    requires small { IsSmall ranges.now }
    requires delay { delay < 2 ^ 62 }
    requires room { vec_len out.old + ack_size (ack_of_set delay ranges.now (shown_ecn ecn)) ≤ vec_capacity out.old }
    ensures items { out.new.items ≡ out.old.items ++ ack_spelling (ack_of_set delay ranges.now (shown_ecn ecn.entry)) }
    ensures len { vec_len out.new ≡ vec_len out.old + ack_size (ack_of_set delay ranges.now (shown_ecn ecn.entry)) }
    ensures capacity { vec_capacity out.old ≤ vec_capacity out.new }
{
    Ack::encode(delay, ranges, ecn, out).unwrap()
}
