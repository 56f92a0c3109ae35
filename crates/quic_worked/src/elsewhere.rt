//! The run of a server to which an address is validated by an answer from another one. Each
//! function does nothing: its contract is the law.
ghost use Rattle.quic_headline.specs.Headline.{IsHonest, IsRun};
ghost use Rattle.quic_headline.specs.Validated.{ValidatedByAnswer};
ghost use Rattle.quic_machine.specs.Machine.{World};
ghost use Rattle.quic_worked.specs.Elsewhere.{elsewhere_run};

/// Receiving: to a server that followed its peer, and didn't ask at the new address yet, that
/// becomes validated by the answer to what it had asked at the old one, which comes from there.
pub fn old_address_validates_new_one()
    ensures validated { ValidatedByAnswer elsewhere_run → ⊥ }
    ensures premises { IsHonest elsewhere_run }
    ensures machine { (end : World) → IsRun elsewhere_run end → ⊥ }
{}
