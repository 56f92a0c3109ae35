//! Numbers at random, and settings of them.

use quic_c_core::Settings;
use rand_core::{Rng, SeedableRng};
use rand_pcg::Lcg128Xsl64;

/// A source of numbers.
#[derive(Drop)]
pub(crate) struct Draws {
    source: Lcg128Xsl64,
}

impl Draws {
    /// The source of this seed.
    pub(crate) fn new(seed: u64) -> Self {
        Draws {
            source: Lcg128Xsl64::seed_from_u64(seed),
        }
    }

    /// A number below a bound; 0 where that is 0.
    pub(crate) fn below(&mut self, bound: u64) -> u64 {
        self.source.next_u64().checked_rem(bound).unwrap_or(0)
    }

    /// A small number below a bound.
    pub(crate) fn small(&mut self, bound: u64) -> u32 {
        u32::try_from(self.below(bound)).unwrap_or(0)
    }

    /// A length, up to 1499.
    pub(crate) fn length(&mut self) -> usize {
        let most = match self.below(3) {
            0 => 4,
            1 => 100,
            _ => 1500,
        };
        usize::try_from(self.below(most)).unwrap_or(0)
    }

    /// A number: small, about a bound of QUIC, or any.
    pub(crate) fn number(&mut self) -> u64 {
        match self.below(4) {
            0 => self.below(20),
            1 => u64::MAX.saturating_sub(self.below(3)),
            2 => ((1u64 << 62) - 2).saturating_add(self.below(4)),
            _ => self.source.next_u64(),
        }
    }

    /// The ID of a stream, mostly one that there may be.
    pub(crate) fn stream(&mut self) -> u64 {
        if self.below(4) == 0 {
            self.number()
        } else {
            self.below(24)
        }
    }

    /// Bytes at random.
    pub(crate) fn fill(&mut self, bytes: &mut [u8]) {
        self.source.fill_bytes(bytes);
    }

    /// Settings with which an endpoint is made.
    pub(crate) fn settings(&mut self) -> Settings {
        Settings {
            stream_receive_window: self.below(100_000),
            send_window: self.below(100_000),
            max_concurrent_bidi_streams: self.below(20),
            max_concurrent_uni_streams: self.below(20),
            send_fairness: self.below(2),
            datagram_receive_buffer_size: self.below(5000),
            datagram_send_buffer_size: self.below(5000),
            mtu_discovery: self.below(2),
            pad_to_mtu: self.below(2),
            ack_frequency: self.below(2),
            ..Settings::default()
        }
    }
}
