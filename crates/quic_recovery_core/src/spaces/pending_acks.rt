//! Which packets are to be acknowledged, and when (RFC 9000, section 13.2).
ghost use Rattle.std.specs.Prelude.{◌≡◌, ◌+◌, ◌-◌, ◌^◌, ◌≤◌, ◌<◌, ◌||◌, ◌⊎◌, ℕ, length, min, nat_lt, true, IfOk, OnOk, OnErr};
ghost use Rattle.std.specs.Option.{option_map};
ghost use Rattle.quic_sets.specs.Runs.{Has, AreRuns, IsApart};
ghost use Rattle.quic_recovery_core.specs.PendingAcks.{none_pending, after_insert, after_subtract, delay_of, can_send, is_filled, shows_loss, is_out_of_order, asking_counted, starts_wait, with_wait, after_packet, packet_starts_wait, after_acks_sent, after_timeout, after_lazy, count_up, newer, with_one, at_most, above, IsKept};

use crate::spaces::dedup::Dedup;
use quic_sets::ArrayRangeSet;
use quic_time::{Duration, Instant};
use quic_wire::frame::AckFrequency;
use std::alloc::{AllocError, Global};
use std::marker::Model;

/// The most runs of numbers that are kept to be acknowledged (quinn-proto's `MAX_ACK_BLOCKS`).
pub const MAX_ACK_RUNS: usize = 64;

/// With more packets than this that do not ask, an acknowledgement goes along with the next packet.
pub const LAZY_ACK_THRESHOLD: u64 = 10;

/// The numbers of packets that came and are to be acknowledged, and whether that is due
/// (quinn-proto's `PendingAcks`).
///
/// A packet asks for an acknowledgement if it has a frame other than ACK, PADDING and
/// CONNECTION_CLOSE (RFC 9000, section 13.2).
#[derive(Drop)]
pub struct PendingAcks {
    immediate_ack_required: bool,
    ack_eliciting_since_last_ack_sent: u64,
    non_ack_eliciting_since_last_ack_sent: u64,
    ack_eliciting_threshold: u64,
    reordering_threshold: u64,
    earliest_ack_eliciting_since_last_ack_sent: Option<Instant>,
    ranges: ArrayRangeSet,
    largest_packet: Option<(u64, Instant)>,
    largest_ack_eliciting_packet: Option<u64>,
    largest_acked: Option<u64>,
}

impl Model for PendingAcks {
    ghost use Rattle.quic_recovery_core.specs.PendingAcks.{Pending, IsKept};

    ghost Value = { Pending };

    ghost view = { λ a. record {
      due = a.immediate_ack_required;
      asking = a.ack_eliciting_since_last_ack_sent;
      silent = a.non_ack_eliciting_since_last_ack_sent;
      threshold = a.ack_eliciting_threshold;
      reordering = a.reordering_threshold;
      since = a.earliest_ack_eliciting_since_last_ack_sent;
      runs = a.ranges;
      newest = a.largest_packet;
      greatest = a.largest_ack_eliciting_packet;
      acked = a.largest_acked;
    } };

    ghost invariant = { λ a. IsKept a.ranges };
}

// Whether a number that is missing and that no acknowledgement has shown as lost yet would be shown
// so by the next one.
fn shows_loss(acked: Option<u64>, reordering: u64, greatest: u64, dedup: &Dedup) -> bool
    requires { 1 < reordering }
    ensures { result ≡ shows_loss acked reordering greatest dedup.now }
{
    let Some(acked) = acked else {
        return false;
    };
    if reordering > acked {
        return false;
    }
    match dedup.smallest_missing_in_interval(acked - reordering + 1, greatest) {
        Some(missing) => greatest.saturating_sub(missing) >= reordering,
        None => false,
    }
}

// The greatest number that came, and when, after one more.
fn newer(held: Option<(u64, Instant)>, number: u64, now: Instant) -> Option<(u64, Instant)>
    ensures { result ≡ newer held number now }
{
    match held {
        Some((greatest, received)) if greatest >= number => Some((greatest, received)),
        _ => Some((number, now)),
    }
}

// Puts a number into the set. Where that makes a run too many, the one of the least number goes.
fn put(ranges: &mut ArrayRangeSet, number: u64) -> Result<(), AllocError>
    requires small { number < u64.MAX }
    requires kept { IsKept ranges.old }
    ensures kept { IsKept ranges.new }
    ensures ok { OnOk result (ranges.new ≡ at_most (with_one ranges.old number)) }
    ensures numbers { (k : ℕ) → Has ranges.new k → Has ranges.old k ⊎ (k ≡ number) }
    ensures err { OnErr result (ranges.new ≡ ranges.old) }
    ensures lacking { OnErr result (IsApart ranges.old number (number + 1)) }
{
    ranges.insert_one(number)?;
    if ranges.len() > MAX_ACK_RUNS {
        ranges.pop_min();
    }
    Ok(())
}

// Takes the numbers up to `max` out of the set.
fn cut(ranges: &mut ArrayRangeSet, max: u64)
    requires { IsKept ranges.old }
    ensures kept { IsKept ranges.new }
    ensures cut { ranges.new ≡ above ranges.old max }
{
    // What takes a front out makes no run more, and so takes no memory.
    ranges.remove(0..max.saturating_add(1)).unwrap();
}

impl PendingAcks {
    /// No packet came. An acknowledgement is due with the second packet that asks, or where one
    /// comes out of order.
    pub fn new(alloc: Global) -> Self
        ensures { result ≡ none_pending }
    {
        PendingAcks {
            immediate_ack_required: false,
            ack_eliciting_since_last_ack_sent: 0,
            non_ack_eliciting_since_last_ack_sent: 0,
            ack_eliciting_threshold: 1,
            reordering_threshold: 1,
            earliest_ack_eliciting_since_last_ack_sent: None,
            ranges: ArrayRangeSet::new(alloc),
            largest_packet: None,
            largest_ack_eliciting_packet: None,
            largest_acked: None,
        }
    }

    /// Takes over after how many ack-eliciting packets, and how far out of order, in packets, the
    /// peer wants an acknowledgement at once. Both are 1 until then.
    pub fn set_ack_frequency_params(&mut self, frame: &AckFrequency)
        ensures { self.new ≡ record self.old { threshold = frame.now.ack_eliciting_threshold; reordering = frame.now.reordering_threshold } }
    {
        self.ack_eliciting_threshold = frame.ack_eliciting_threshold.into_inner();
        self.reordering_threshold = frame.reordering_threshold.into_inner();
    }

    /// Makes an acknowledgement due.
    pub fn set_immediate_ack_required(&mut self)
        ensures { self.new ≡ record self.old { due = true } }
    {
        self.immediate_ack_required = true;
    }

    /// Makes an acknowledgement due exactly where packets that ask came since the last one.
    pub fn on_max_ack_delay_timeout(&mut self)
        ensures { self.new ≡ after_timeout self.old }
    {
        self.immediate_ack_required = self.ack_eliciting_since_last_ack_sent > 0;
    }

    /// The moment up to which the acknowledgement of the packet may wait that the timer was set
    /// for; it saturates. `None` where no packet set the timer since the last acknowledgement went.
    pub fn max_ack_delay_timeout(&self, max_ack_delay: Duration) -> Option<Instant>
        ensures { result ≡ option_map (λ since. min (since + max_ack_delay) (2 ^ 64 - 1)) self.now.since }
    {
        Some(self.earliest_ack_eliciting_since_last_ack_sent? + max_ack_delay)
    }

    /// Whether an acknowledgement is to go even where nothing else does.
    pub fn can_send(&self) -> bool
        ensures { result ≡ can_send self.now }
    {
        self.immediate_ack_required && self.can_send_with_other_frames()
    }

    /// Whether an acknowledgement can go along with other frames.
    pub fn can_send_with_other_frames(&self) -> bool
        ensures { result ≡ is_filled self.now.runs }
    {
        !self.ranges.is_empty()
    }

    /// How long ago the packet with the greatest number came, zero where none did.
    pub fn ack_delay(&self, now: Instant) -> Duration
        ensures { result ≡ delay_of self.now.newest now }
    {
        match self.largest_packet {
            Some((_, received)) => now.saturating_duration_since(received),
            None => Duration::ZERO,
        }
    }

    /// Counts a packet that came, and answers whether the timer of
    /// [`max_ack_delay_timeout`](Self::max_ack_delay_timeout) is to be set, which then runs from
    /// `now`. `dedup` has the numbers that came, this one too.
    ///
    /// A packet that asks makes an acknowledgement due where it is one more than the threshold, or
    /// comes farther out of order than it may: with a reordering threshold of 1 where its number is
    /// below one that asked or one lacks between them (RFC 9000, section 13.2.1), with a greater
    /// one where the peer would then take a missing number for lost that the last acknowledgement
    /// did not show as lost, with 0 never.
    pub fn packet_received(
        &mut self,
        now: Instant,
        number: u64,
        ack_eliciting: bool,
        dedup: &Dedup,
    ) -> bool
        ensures answer { result ≡ packet_starts_wait self.old number ack_eliciting dedup.now }
        ensures next { self.new ≡ after_packet self.old now number ack_eliciting dedup.now }
    {
        if !ack_eliciting {
            self.count_silent();
            return false;
        }
        self.count_asking(number, dedup);
        self.start_wait(now)
    }

    // Counts a packet that does not ask.
    fn count_silent(&mut self)
        ensures { self.new ≡ record self.old { silent = count_up self.old.silent } }
    {
        self.non_ack_eliciting_since_last_ack_sent = self
            .non_ack_eliciting_since_last_ack_sent
            .saturating_add(1);
    }

    // Counts a packet that asks, and makes an acknowledgement due where it is one too many or out
    // of order.
    fn count_asking(&mut self, number: u64, dedup: &Dedup)
        ensures { self.new ≡ asking_counted self.old number dedup.now }
    {
        let before = self.largest_ack_eliciting_packet.unwrap_or(0);
        let greatest = before.max(number);
        let out_of_order = self.is_out_of_order(before, greatest, number, dedup);
        let count = self.ack_eliciting_since_last_ack_sent.saturating_add(1);
        self.ack_eliciting_since_last_ack_sent = count;
        self.largest_ack_eliciting_packet = Some(greatest);
        self.immediate_ack_required = self.immediate_ack_required
            || count > self.ack_eliciting_threshold
            || out_of_order;
    }

    // Whether a packet comes farther out of order than it may: 0 lets it come as it likes, 1 is the
    // rule of RFC 9000, section 13.2.1, and more that of the ACK frequency extension.
    fn is_out_of_order(&self, before: u64, greatest: u64, number: u64, dedup: &Dedup) -> bool
        ensures { result ≡ is_out_of_order self.now before greatest number dedup.now }
    {
        match self.reordering_threshold {
            0 => false,
            1 => number < before || dedup.missing_in_interval(before, number),
            reordering => shows_loss(self.largest_acked, reordering, greatest, dedup),
        }
    }

    // Keeps the moment that the timer runs from, where it does not run and is needed, and answers
    // whether it did.
    fn start_wait(&mut self, now: Instant) -> bool
        ensures answer { result ≡ starts_wait self.old }
        ensures next { self.new ≡ with_wait self.old now }
    {
        if self.earliest_ack_eliciting_since_last_ack_sent.is_none() && !self.can_send() {
            self.earliest_ack_eliciting_since_last_ack_sent = Some(now);
            return true;
        }
        false
    }

    /// Notes that an acknowledgement went: none is due until more packets come. It counts as one of
    /// all numbers.
    pub fn acks_sent(&mut self)
        ensures { self.new ≡ after_acks_sent self.old }
    {
        self.immediate_ack_required = false;
        self.ack_eliciting_since_last_ack_sent = 0;
        self.non_ack_eliciting_since_last_ack_sent = 0;
        self.earliest_ack_eliciting_since_last_ack_sent = None;
        self.largest_acked = self.largest_ack_eliciting_packet;
    }

    /// Puts the number of a packet that came, which lies below the greatest u64, into the set.
    /// Where that makes more than [`MAX_ACK_RUNS`] runs, the one of the least number goes.
    ///
    /// # Errors
    ///
    /// - [`AllocError`]: an allocation fails, where the number lies in no run of the set and
    ///   touches none. Nothing changes.
    pub fn insert_one(&mut self, number: u64, now: Instant) -> Result<(), AllocError>
        requires { number < u64.MAX }
        ensures ok { OnOk result (self.new ≡ after_insert self.old number now) }
        ensures numbers { (k : ℕ) → Has self.new.runs k → Has self.old.runs k ⊎ (k ≡ number) }
        ensures err { OnErr result (self.new ≡ self.old) }
        ensures lacking { OnErr result (IsApart self.old.runs number (number + 1)) }
    {
        put(&mut self.ranges, number)?;
        self.largest_packet = newer(self.largest_packet, number, now);
        Ok(())
    }

    /// Takes the numbers up to `max` out of the set: the peer knows that they came.
    pub fn subtract_below(&mut self, max: u64)
        ensures { self.new ≡ after_subtract self.old max }
    {
        cut(&mut self.ranges, max);
    }

    /// The numbers to acknowledge.
    pub fn ranges(&self) -> &ArrayRangeSet
        ensures value { result.now ≡ self.now.runs }
        ensures runs { AreRuns self.now.runs }
        ensures few { length self.now.runs ≤ MAX_ACK_RUNS }
    {
        &self.ranges
    }

    /// Makes an acknowledgement due where more than [`LAZY_ACK_THRESHOLD`] packets came that do not
    /// ask since the last one. It is called before a packet is made that goes anyway.
    pub fn maybe_ack_non_eliciting(&mut self)
        ensures { self.new ≡ after_lazy self.old }
    {
        if self.non_ack_eliciting_since_last_ack_sent > LAZY_ACK_THRESHOLD {
            self.set_immediate_ack_required();
        }
    }
}
