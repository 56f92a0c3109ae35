//! Stand-in random sources: who knows the word, or the seed, knows each word that is given.
ghost use Rattle.std.specs.Prelude.{◌≡◌};
ghost use Rattle.quic_keys.specs.Words.{stream_from, source_stream, GivesForEver};

use rand_core::utils::{self, NextWord};
use rand_core::{Rng, SeedableRng};
use rand_pcg::Lcg128Xsl64;
use std::marker::Model;

/// Where an endpoint's random words come from.
#[derive(Clone, Copy, Debug)]
pub enum Source {
    /// Each is this word.
    Word(u64),
    /// They are those of the generator that is seeded by this number.
    Pcg(u64),
}

/// A random source.
#[derive(Debug, Drop)]
pub enum Words {
    /// Gives this word for ever.
    Constant(u64),
    /// Gives the words of a generator.
    Generator(Lcg128Xsl64),
}

impl Words {
    /// The source whose every word is this one.
    pub fn word(word: u64) -> Self
        ensures word { result ≡ Words.Constant word }
        ensures for_ever { GivesForEver word (⟦<Words as Rng>⟧.stream result) }
    {
        Words::Constant(word)
    }

    /// The source whose words are those of the generator that is seeded by this number.
    pub fn pcg(seed: u64) -> Self
        ensures { ⟦<Words as Rng>⟧.stream result ≡ ⟦<Lcg128Xsl64 as Rng>⟧.stream (⟦<Lcg128Xsl64 as SeedableRng>⟧.of_seed (⟦<Lcg128Xsl64 as SeedableRng>⟧.seed_of_u64 seed)) }
    {
        Words::Generator(Lcg128Xsl64::seed_from_u64(seed))
    }

    /// The random source that gives the words of this one, from the first on.
    pub fn of(source: Source) -> Self
        ensures { ⟦<Words as Rng>⟧.stream result ≡ source_stream source }
    {
        match source {
            Source::Word(word) => Words::word(word),
            Source::Pcg(seed) => Words::pcg(seed),
        }
    }
}

impl Rng for Words {
    ghost stream = { stream_from };

    fn next_u32(&mut self) -> u32 {
        match self {
            Words::Constant(word) => (*word % (1 << 32)) as u32,
            Words::Generator(generator) => generator.next_u32(),
        }
    }

    fn next_u64(&mut self) -> u64 {
        match self {
            Words::Constant(word) => *word,
            Words::Generator(generator) => generator.next_u64(),
        }
    }

    fn fill_bytes(&mut self, dst: &mut [u8]) {
        match self {
            Words::Constant(word) => utils::fill_bytes_via_u64(&mut OneWord { word: *word }, dst),
            Words::Generator(generator) => generator.fill_bytes(dst),
        }
    }
}

/// A word that is given again and again. Contracts see the word.
#[derive(Drop)]
struct OneWord {
    word: u64,
}

impl Model for OneWord {
    ghost use Rattle.std.specs.Prelude.{ℕ};

    ghost Value = { ℕ };

    ghost view = { λ w. w.word };
}

impl NextWord<u64> for OneWord {
    ghost step = { λ w. (w, w) };

    fn next_word(&mut self) -> u64 {
        self.word
    }
}
