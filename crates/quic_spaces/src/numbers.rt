//! Packet numbers of a space: those that it gives and those that it opened (RFC 9000, section
//! 12.3).
ghost use Rattle.std.specs.Prelude.{◌≡◌, ◌-◌, ◌<◌, ◌≤◌, ◌^◌, if◌then◌else◌};
ghost use Rattle.quic_packet.specs.Number.{truncated};
ghost use Rattle.quic_recovery_core.specs.Duplicates.{is_duplicate};
ghost use Rattle.quic_spaces.specs.Numbers.{no_numbers, expected, cut_against, can_number, may_give, number_given, number_opened, number_taken, number_named};

use quic_packet::PacketNumber;
use quic_recovery_core::Dedup;
use std::marker::Model;

/// How many numbers are kept for closes.
const KEPT_NUMBERS: u64 = 16;

/// The next number to give, how many were given, the greatest that the peer named, the numbers
/// opened and the last of them, and the greatest whose whole payload was taken.
#[derive(Drop)]
pub struct Numbers {
    next: u64,
    // How many were given: those that are left out aren't.
    sealed: u64,
    largest_acked: Option<u64>,
    dedup: Dedup,
    last_opened: u64,
    largest_taken: Option<u64>,
}

impl Model for Numbers {
    ghost use Rattle.std.specs.Prelude.{◌<◌, ◌≤◌, ◌^◌, IfSome};
    ghost use Rattle.quic_spaces.specs.Numbers as words;

    ghost Value = { words.Numbers };

    ghost view = { λ n. record { next = n.next; sealed = n.sealed; largest_acked = n.largest_acked; opened = n.dedup; present = n.last_opened; taken = n.largest_taken } };

    // All numbers lie below 2^62, no more were given, and the peer named none that wasn't given.
    ghost invariant = { λ n. (n.next ≤ 2 ^ 62) × (n.sealed ≤ n.next) × IfSome n.largest_acked (λ a. a < n.next) × IfSome n.largest_taken (λ t. t < 2 ^ 62) };
}

impl Numbers {
    /// No number was given or opened.
    pub fn new() -> Self
        ensures { result ≡ no_numbers }
    {
        Numbers {
            next: 0,
            sealed: 0,
            largest_acked: None,
            dedup: Dedup::new(),
            last_opened: 0,
            largest_taken: None,
        }
    }

    /// The number that a packet is expected to have (RFC 9000, A.3).
    pub fn expected(&self) -> u64
        ensures value { result ≡ expected self.now }
        ensures bound { result ≤ 2 ^ 62 }
    {
        match self.largest_taken {
            None => 0,
            Some(number) => number + 1,
        }
    }

    /// Whether an ordinary packet may still be numbered: sixteen numbers are kept for closes, and
    /// one that is written lies less than 2^31 above the greatest that the peer named.
    pub fn can_number(&self) -> bool
        ensures { result ≡ can_number self.now }
    {
        self.next + KEPT_NUMBERS < 1 << 62
            && self.next.saturating_sub(self.reference()) + KEPT_NUMBERS < 1 << 31
    }

    /// Whether a packet may be given this number, the next or one above it: it lies below 2^62, and
    /// less than 2^31 above the greatest that the peer named.
    pub fn may_give(&self, number: u64) -> bool
        requires { self.now.next ≤ number }
        ensures { result ≡ may_give self.now number }
    {
        number < 1 << 62 && number.saturating_sub(self.reference()) < 1 << 31
    }

    /// How many numbers were given: so many packets were sealed (RFC 9001, section 6.6).
    pub fn sealed(&self) -> u64
        ensures value { result ≡ self.now.sealed }
        ensures bound { result ≤ self.now.next }
    {
        self.sealed
    }

    /// The next number to give.
    pub fn next(&self) -> u64
        ensures value { result ≡ self.now.next }
        ensures bound { result ≤ 2 ^ 62 }
    {
        self.next
    }

    /// The greatest own number that the peer named, if it named one.
    pub fn largest_acked(&self) -> Option<u64>
        ensures { result ≡ self.now.largest_acked }
    {
        self.largest_acked
    }

    /// What numbers are cut against: the greatest that the peer named, 0 if there is none (RFC
    /// 9000, A.2).
    pub fn reference(&self) -> u64
        ensures value { result ≡ cut_against self.now }
        ensures bound { result ≤ self.now.next }
    {
        self.largest_acked.unwrap_or(0)
    }

    /// A number as it is written, cut against the greatest that the peer named, near which it lies.
    pub fn packet_number(&self, number: u64) -> PacketNumber
        requires above { cut_against self.now ≤ number }
        requires near { number - cut_against self.now < 2 ^ 31 }
        ensures value { result ≡ truncated number (cut_against self.now) }
        ensures some { 1 ≤ result.width }
        ensures four { result.width ≤ 4 }
    {
        PacketNumber::new(number, self.reference())
    }

    /// A number is given: the next one, or one above it, where those between are left out.
    pub fn give(&mut self, number: u64)
        requires above { self.old.next ≤ number }
        requires small { number < 2 ^ 62 }
        ensures { self.new ≡ number_given self.old number }
    {
        self.next = number + 1;
        self.sealed += 1;
    }

    /// The peer named own numbers up to this one.
    pub fn name(&mut self, number: u64)
        requires { number < self.old.next }
        ensures { self.new ≡ number_named self.old number }
    {
        self.largest_acked = Some(match self.largest_acked {
            None => number,
            Some(largest) => largest.max(number),
        });
    }

    /// The numbers opened.
    pub fn dedup(&self) -> &Dedup
        ensures { result.now ≡ self.now.opened }
    {
        &self.dedup
    }

    /// A packet of this number opened: whether it came before, which changes nothing.
    pub fn open(&mut self, number: u64) -> bool
        requires { number < 2 ^ 62 }
        ensures answer { result ≡ is_duplicate self.old.opened number }
        ensures next { self.new ≡ (if is_duplicate self.old.opened number then self.old else number_opened self.old number) }
    {
        let came = self.dedup.insert(number);
        if !came {
            self.last_opened = number;
        }
        came
    }

    /// The number of the packet that opened last, of those that didn't come before: 0 where none
    /// opened.
    pub fn last_opened(&self) -> u64
        ensures { result ≡ self.now.present }
    {
        self.last_opened
    }

    /// The whole payload of a packet of this number was taken.
    pub fn take(&mut self, number: u64)
        requires { number < 2 ^ 62 }
        ensures { self.new ≡ number_taken self.old number }
    {
        self.largest_taken = Some(match self.largest_taken {
            None => number,
            Some(largest) => largest.max(number),
        });
    }
}
