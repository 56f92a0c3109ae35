//! What is in flight on a path (RFC 9002, section 2; quinn-proto's `InFlight`).
ghost use Rattle.std.specs.Prelude.{◌≡◌};
ghost use Rattle.quic_paths.specs.InFlight.{no_flight, flight_with, flight_without, CanJoin, CanLeave};

use std::marker::Model;

/// The sums over the packets that were sent on a path and are neither acknowledged nor lost
/// (quinn-proto's `InFlight`).
///
/// 128 bits hold the bytes of 2^64 packets, whose sizes have 16 bits.
#[derive(Clone, Copy, Debug)]
pub struct InFlight {
    bytes: u128,
    ack_eliciting: u64,
}

impl Model for InFlight {
    ghost use Rattle.quic_paths.specs.InFlight.{Flight};

    ghost Value = { Flight };

    ghost view = { λ f. record { bytes = f.bytes; asking = f.ack_eliciting } };

    ghost inverse = { λ f. record { bytes = f.bytes; ack_eliciting = f.asking } };
}

impl InFlight {
    /// Nothing is in flight.
    pub fn new() -> Self
        ensures { result ≡ no_flight }
    {
        InFlight {
            bytes: 0,
            ack_eliciting: 0,
        }
    }

    /// The sum of the sizes in bytes.
    pub fn bytes(&self) -> u128
        ensures { result ≡ self.now.bytes }
    {
        self.bytes
    }

    /// How many of the packets ask for an acknowledgement.
    pub fn ack_eliciting(&self) -> u64
        ensures { result ≡ self.now.asking }
    {
        self.ack_eliciting
    }

    /// A packet goes into flight: its size in bytes, and whether it asks for an acknowledgement.
    ///
    /// Both sums have to hold it, as they do while fewer than 2^64 - 1 packets are in flight.
    pub fn insert(&mut self, size: u16, ack_eliciting: bool)
        requires { CanJoin self.old size ack_eliciting }
        ensures { self.new ≡ flight_with self.old size ack_eliciting }
    {
        self.bytes += u128::from(size);
        self.ack_eliciting += u64::from(ack_eliciting);
    }

    /// A packet leaves flight, acknowledged, lost or forgotten.
    ///
    /// It has to be one that went into flight, so that both sums have it.
    pub fn remove(&mut self, size: u16, ack_eliciting: bool)
        requires { CanLeave self.old size ack_eliciting }
        ensures { self.new ≡ flight_without self.old size ack_eliciting }
    {
        self.bytes -= u128::from(size);
        self.ack_eliciting -= u64::from(ack_eliciting);
    }
}

impl Default for InFlight {
    ghost is_default = { λ f. f ≡ no_flight };

    /// Nothing is in flight.
    fn default() -> InFlight {
        InFlight::new()
    }
}
