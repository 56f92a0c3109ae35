//! Packet numbers that are left out, so that a peer that acknowledges what it never got gives
//! itself away (RFC 9000, section 21.4).
ghost use Rattle.std.specs.Prelude.{◌≡◌, ◌+◌, ◌<◌, ◌^◌, true, false, IsOk, IsErrOf};
ghost use Rattle.std.specs.Range.{range_inclusive_start, range_inclusive_end};
ghost use Rattle.rand_core.specs.Stream.{next_u64};
ghost use Rattle.quic_wire_core.specs.TransportError.{plain_error, protocol_violation};
ghost use Rattle.quic_spaces.specs.Numbers.{number_given};
ghost use Rattle.quic_spaces.specs.Filter.{first_filter, is_skipped, allocated, after_allocated, after_skipped, names_skipped};

use crate::numbers::Numbers;
use quic_wire_core::{Code, Reason, TransportError};
use rand_core::Rng;
use std::marker::Model;
use std::ops::RangeInclusive;

/// The power of two below which the first number that is left out lies.
const FIRST_EXPONENT: u32 = 6;

/// The greatest power of two that numbers which are left out are drawn from.
const MOST_EXPONENT: u32 = 62;

/// Which packet numbers are left out: one is drawn among the first 64, and each further one from
/// twice as many (quinn-proto's `PacketNumberFilter`; RFC 9000, section 21.4).
#[derive(Drop)]
pub struct PacketNumberFilter {
    next_skipped: u64,
    prev_skipped: Option<u64>,
    exponent: u32,
    // How many words of the random source were drawn.
    drawn: u64,
}

impl Model for PacketNumberFilter {
    ghost use Rattle.std.specs.Prelude.{◌+◌, ◌<◌, ◌≤◌, ◌^◌};
    ghost use Rattle.quic_spaces.specs.Filter.{Filter};

    ghost Value = { Filter };

    ghost view = { λ f. record { next = f.next_skipped; last = f.prev_skipped; exponent = f.exponent; drawn = f.drawn } };

    // While a number may still be left out, each that was took the next power of two.
    ghost invariant = { λ f. (f.exponent ≤ 62) × (f.next_skipped < 2 ^ 62 → f.drawn + 5 ≤ f.exponent) };
}

impl PacketNumberFilter {
    /// No number was left out yet: the next word of the source says which of the first 64 is.
    pub fn new<R: Rng>(rng: &mut R) -> Self
        ensures value { result ≡ first_filter (next_u64 (R.stream rng.old)).0 }
        ensures rng { R.stream rng.new ≡ (next_u64 (R.stream rng.old)).1 }
    {
        PacketNumberFilter {
            next_skipped: rng.next_u64() % (1 << FIRST_EXPONENT),
            prev_skipped: None,
            exponent: FIRST_EXPONENT,
            drawn: 1,
        }
    }

    /// The number that [`allocate`](Self::allocate) gives next.
    pub fn peek(&self, numbers: &Numbers) -> u64
        ensures { result ≡ allocated self.now numbers.now.next }
    {
        let number = numbers.next();
        if number == self.next_skipped {
            number + 1
        } else {
            number
        }
    }

    /// Gives a number below 2^62: the next one, or the one above it where that is to be left out.
    /// Then a word of the source says which is left out next.
    pub fn allocate<R: Rng>(&mut self, rng: &mut R, numbers: &mut Numbers) -> u64
        requires { allocated self.old numbers.old.next < 2 ^ 62 }
        ensures value { result ≡ allocated self.old numbers.old.next }
        ensures numbers { numbers.new ≡ number_given numbers.old (allocated self.old numbers.old.next) }
        ensures filter { self.new ≡ after_allocated self.old numbers.old.next (next_u64 (R.stream rng.old)).0 }
        ensures drawn { is_skipped self.old numbers.old.next ≡ true → R.stream rng.new ≡ (next_u64 (R.stream rng.old)).1 }
        ensures kept { is_skipped self.old numbers.old.next ≡ false → R.stream rng.new ≡ R.stream rng.old }
    {
        let number = self.peek(numbers);
        if number != numbers.next() {
            self.skip(rng);
        }
        numbers.give(number);
        number
    }

    /// Leaves a number out, and draws the next one that will be.
    fn skip<R: Rng>(&mut self, rng: &mut R)
        requires { self.old.next < 2 ^ 62 }
        ensures filter { self.new ≡ after_skipped self.old (next_u64 (R.stream rng.old)).0 }
        ensures rng { R.stream rng.new ≡ (next_u64 (R.stream rng.old)).1 }
    {
        let least = 1 << self.exponent;
        self.prev_skipped = Some(self.next_skipped);
        self.next_skipped = least + rng.next_u64() % least;
        self.exponent = (self.exponent + 1).min(MOST_EXPONENT);
        self.drawn += 1;
    }

    /// Sees that the peer doesn't acknowledge the number that was left out last.
    ///
    /// # Errors
    ///
    /// - [`TransportError`] of PROTOCOL_VIOLATION: the range has that number (RFC 9000, section
    ///   21.4).
    pub fn check_ack(&self, range: RangeInclusive<u64>) -> Result<(), TransportError>
        ensures ok { names_skipped self.now.last (range_inclusive_start range) (range_inclusive_end range) ≡ false → IsOk result }
        ensures err { names_skipped self.now.last (range_inclusive_start range) (range_inclusive_end range) ≡ true → IsErrOf result (plain_error protocol_violation) }
    {
        match self.prev_skipped {
            Some(number) if *range.start() <= number && number <= *range.end() => Err(
                TransportError::new(Code::PROTOCOL_VIOLATION, None, Reason::NeverSent),
            ),
            _ => Ok(()),
        }
    }
}
