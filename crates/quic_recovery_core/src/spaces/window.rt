//! The bits of a window of packet numbers, in two words.
ghost use Rattle.std.specs.Prelude.{◌≡◌, ◌≢◌, ℕ, ◌+◌, ◌-◌, ◌*◌, ◌%◌, ◌^◌, ◌<◌, ◌==◌};
ghost use Rattle.std.specs.Int.{bit_at};

use crate::spaces::dedup::WINDOW_BITS;
use std::marker::Model;

// How many bits a word has.
const WORD_BITS: u64 = u128::BITS as u64;

// The bits of a window of packet numbers, the nearest number's the lowest. Contracts see the two
// words as one number.
#[derive(Drop)]
pub(crate) struct Window {
    low: u128,
    high: u128,
}

impl Model for Window {
    ghost use Rattle.std.specs.Prelude.{ℕ, ◌+◌, ◌*◌, ◌^◌, ◌<◌};

    ghost Value = { ℕ };

    ghost view = { λ w. w.high * 2 ^ 128 + w.low };

    ghost invariant = { λ w. w.low < 2 ^ 128 };
}

impl Window {
    // No bit is set.
    pub(crate) fn new() -> Window
        ensures { result ≡ 0 }
    {
        Window { low: 0, high: 0 }
    }

    // Whether a bit is set.
    pub(crate) fn is_set(&self, place: u64) -> bool
        requires { place < WINDOW_BITS }
        ensures { result ≡ (bit_at self.now place == 1) }
    {
        if place < WORD_BITS {
            self.low >> place & 1 == 1
        } else {
            self.high >> (place - WORD_BITS) & 1 == 1
        }
    }

    // The window with a bit set.
    #[tactic(auto, using(crate::proofs::DuplicateWords::set_fits))]
    pub(crate) fn with_bit(&self, place: u64) -> Window
        requires { place < WINDOW_BITS }
        ensures same { bit_at result place ≡ 1 }
        ensures other { (i : ℕ) → i ≢ place → bit_at result i ≡ bit_at self.now i }
    {
        if place < WORD_BITS {
            Window {
                low: self.low | 1 << place,
                high: self.high,
            }
        } else {
            Window {
                low: self.low,
                high: self.high | 1 << (place - WORD_BITS),
            }
        }
    }

    // The window with each bit so many places higher. The bits that leave the high word are lost.
    fn shl(&self, n: u64) -> Window
        requires { n < WINDOW_BITS }
        ensures { result ≡ self.now * 2 ^ n % 2 ^ 256 }
    {
        if n < WORD_BITS {
            // Two shifts to the right: at 0 one would be by a whole word.
            Window {
                low: self.low << n,
                high: (self.high << n) + (self.low >> 1 >> (WORD_BITS - 1 - n)),
            }
        } else {
            Window {
                low: 0,
                high: self.low << (n - WORD_BITS),
            }
        }
    }

    // The window as a number sees it that lies one place above the greatest and these steps
    // farther.
    pub(crate) fn moved(&self, steps: u64) -> Window
        ensures near { (i : ℕ) → i < WINDOW_BITS → i < steps → bit_at result i ≡ 0 }
        ensures greatest { steps < WINDOW_BITS → bit_at result steps ≡ 1 }
        ensures far { (i : ℕ) → i < WINDOW_BITS → steps < i → bit_at result i ≡ bit_at self.now (i - (steps + 1)) }
    {
        if steps == 0 {
            // So are packets that come in order.
            return self.shl(1).with_bit(0);
        }
        if steps >= WINDOW_BITS {
            return Window::new();
        }
        self.shl(1).shl(steps).with_bit(steps)
    }
}
