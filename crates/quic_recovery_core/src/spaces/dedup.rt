//! Which packet numbers came before (RFC 9000, section 12.3).
ghost use Rattle.std.specs.Prelude.{◌≡◌, false, [], ◌-◌, ◌<◌, is_some, not};
ghost use Rattle.std.specs.List.{find, range_with_len};
ghost use Rattle.quic_recovery_core.specs.Duplicates.{is_in, is_duplicate, with_number, after_insert, smallest_missing};

use crate::spaces::window::Window;
use std::marker::Model;

/// A number that lies this far below the greatest, or farther, counts as one that came.
pub const DUPLICATE_SPAN: u64 = 257;

/// How many numbers below the greatest are told apart: one fewer than [`DUPLICATE_SPAN`].
pub(crate) const WINDOW_BITS: u64 = DUPLICATE_SPAN - 1;

/// The packet numbers that came, as far as they are told apart: a window below the greatest
/// (quinn-proto's `Dedup`). Contracts see the list of those numbers, the greatest first.
#[derive(Drop)]
pub struct Dedup {
    // Whether the numbers below the greatest came, the nearest in the lowest bit.
    window: Window,
    // One above the greatest, 0 where no number came.
    next: u64,
}

// The window has a bit for each number that is told apart.
const _: () = prove!(WINDOW_BITS <= 2 * u128::BITS as u64);

impl Model for Dedup {
    ghost use Rattle.quic_recovery_core.specs.Duplicates.{Seen};

    ghost Value = { Seen };

    ghost use Rattle.quic_recovery_core.specs.DuplicateBits.{seen};

    ghost view = { λ d. seen d.next d.window };
}

impl Dedup {
    /// No number came.
    pub fn new() -> Self
        ensures { result ≡ [] }
    {
        Dedup {
            window: Window::new(),
            next: 0,
        }
    }

    // Whether a number is among those that are told apart.
    fn has(&self, number: u64) -> bool
        ensures { result ≡ is_in self.now number }
    {
        if number >= self.next {
            return false;
        }
        let below = self.next - 1 - number;
        below == 0 || (below < DUPLICATE_SPAN && self.window.is_set(below - 1))
    }

    // Whether a number may have come before.
    fn is_duplicate(&self, number: u64) -> bool
        ensures { result ≡ is_duplicate self.now number }
    {
        self.has(number) || number < self.next.saturating_sub(DUPLICATE_SPAN)
    }

    // Keeps a number that did not come.
    fn keep(&mut self, number: u64)
        requires small { number < u64.MAX }
        requires new { is_duplicate self.old number ≡ false }
        ensures { self.new ≡ with_number self.old number }
    {
        if number >= self.next {
            self.window = self.window.moved(number - self.next);
            self.next = number + 1;
        } else {
            self.window = self.window.with_bit(self.next - 2 - number);
        }
    }

    /// Takes a number in that lies below the greatest u64, and answers whether it may have come
    /// before: it did, or it lies [`DUPLICATE_SPAN`] or more below the greatest. Such a number
    /// changes nothing.
    pub fn insert(&mut self, number: u64) -> bool
        requires { number < u64.MAX }
        ensures answer { result ≡ is_duplicate self.old number }
        ensures next { self.new ≡ after_insert self.old number }
    {
        if self.is_duplicate(number) {
            return true;
        }
        self.keep(number);
        false
    }

    /// The least number above `low` and below `high` that did not come. Only the numbers below the
    /// greatest that lie nearer to it than [`DUPLICATE_SPAN`] count; so this looks at fewer numbers
    /// than that. `None` where each of them came.
    pub fn smallest_missing_in_interval(&self, low: u64, high: u64) -> Option<u64>
        ensures { result ≡ smallest_missing self.now low high }
    {
        let first = low
            .saturating_add(1)
            .max(self.next.saturating_sub(DUPLICATE_SPAN));
        let end = high.min(self.next);
        self.first_lacking(first, end)
    }

    // The first number of a range that is not among those told apart.
    fn first_lacking(&self, first: u64, end: u64) -> Option<u64>
        ensures { result ≡ find (λ k. not (is_in self.now k)) (range_with_len first (end - first)) }
    {
        (first..end).find(|number| !self.has(*number))
    }

    /// Whether a number above `low` and below `high` did not come, as
    /// [`smallest_missing_in_interval`](Self::smallest_missing_in_interval) has it.
    pub fn missing_in_interval(&self, low: u64, high: u64) -> bool
        ensures { result ≡ is_some (smallest_missing self.now low high) }
    {
        self.smallest_missing_in_interval(low, high).is_some()
    }
}
