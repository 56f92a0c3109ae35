//! Where a new endpoint is put.
ghost use Rattle.std.specs.Prelude.{◌≡◌, Option, Some};
ghost use Rattle.quic_c_core.specs.declared.endpoint.Endpoint.{Endpoint};
ghost use Rattle.quic_c.specs.Owned.{owned};

use crate::held::Held;
use std::marker::Model;

/// Where the pointer of a new endpoint is put. In C it is a struct of a pointer, and nothing is
/// owned by it yet; what stood there isn't let go.
#[repr(C)]
#[derive(Drop)]
pub struct Slot {
    pub(crate) at: *mut u8,
    pub ghost value: { Option Endpoint },
}

impl Model for Slot {
    ghost also_owns = { λ s. owned s.at s.value };
}

impl Slot {
    /// With this endpoint in it.
    pub(crate) fn full(held: Held) -> Slot
        ensures { result.value ≡ Some held.value }
    {
        let Held { at, alloc: _ } = held;
        Slot { at }
    }
}
