//! The address of a peer, as its caller tells it from others.

use std::marker::Model;

/// An address from which datagrams come and to which they go: a number that the caller gives each
/// remote address, as the core knows no sockets. Contracts see the number.
#[derive(Clone, Copy, Debug, PartialEq, Eq)]
pub struct Address(pub u64);

impl Model for Address {
    ghost use Rattle.std.specs.Prelude.{ℕ};

    ghost Value = { ℕ };

    ghost view = { λ address. address.0 };

    ghost inverse = { λ n. record { 0 = n } };
}
