//! An endpoint that is held, lent to be called.
ghost use Rattle.std.specs.Prelude.{◌≡◌};
ghost use Rattle.std.specs.Borrow.{sem};
ghost use Rattle.quic_c.specs.Lending.{LendsHeld};

use crate::held::Held;
use quic_c_core::Endpoint;

impl Held {
    /// The endpoint.
    pub(crate) fn as_mut(&mut self) -> &mut Endpoint
        ensures* writes_back { sem 𝓛 (LendsHeld self.entry result) }
        ensures value { result.now ≡ self.old.value }
    {
        unsafe { &mut *(self.at as *mut Endpoint) }
    }
}
