//! What the definitions of this crate say together. Each function does nothing: its contract is the
//! law.
ghost use Rattle.quic_spaces.specs.PersistentSteps.{FindsPersistent};

/// After any packets were lost, one after another, a
/// [`PersistentCongestion`](crate::PersistentCongestion) has found persistent congestion exactly
/// where they show it (RFC 9002, section 7.6).
pub fn persistent_congestion_is_found()
    ensures { FindsPersistent }
{}
