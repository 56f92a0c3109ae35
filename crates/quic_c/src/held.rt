//! An endpoint on the heap, as its pointer.
ghost use Rattle.std.specs.Prelude.{◌≡◌};
ghost use Rattle.std_alloc.specs.Box.Ownership.{box_owns};
ghost use Rattle.std.specs.contracts.impls.GlobalAllocator.TheImpl.{ghosts};
ghost use Rattle.quic_c_core.specs.declared.endpoint.Endpoint.{Endpoint};
ghost use Rattle.quic_c_core.specs.contracts.endpoint.Endpoint.{the_row};

use crate::loose::Loose;
use quic_c_core::Endpoint;
use std::alloc::Global;
use std::marker::Model;

/// An endpoint on the heap. In C it is a struct of its pointer, which owns the endpoint.
#[repr(C)]
pub struct Held {
    // Where the endpoint is. That it is one is said by what is owned: a type with references or
    // vectors in it doesn't stand in what crosses to C.
    pub(crate) at: *mut u8,
    // It takes no bytes.
    pub(crate) alloc: Global,
    pub ghost value: { Endpoint },
}

impl Model for Held {
    ghost also_owns = { λ h. box_owns (ghosts.dealloc_token h.alloc) the_row h.at h.value };
}

impl Held {
    /// The same endpoint.
    pub(crate) fn of(loose: Loose<Endpoint, Global>) -> Held
        ensures { result.value ≡ loose.value }
    {
        let Loose { at, alloc } = loose;
        Held {
            at: at as *mut u8,
            alloc,
        }
    }

    /// The same endpoint.
    pub(crate) fn into_loose(self) -> Loose<Endpoint, Global>
        ensures { result.value ≡ self.value }
    {
        let Held { at, alloc } = self;
        Loose {
            at: at as *mut Endpoint,
            alloc,
        }
    }
}
