//! What the constants of this crate are. The function does nothing: its contract is the law.
ghost use Rattle.std.specs.Prelude.{◌≡◌};
ghost use Rattle.quic_retransmits.specs.Retransmits.{control_kinds, most_retirements};

use crate::retransmits::{CONTROL_KINDS, MAX_PENDING_RETIRED_CIDS};

/// The order in which control frames go into a datagram, and how many retirements may wait: our
/// choices, as RFC 9000, sections 13 and 5.1.2, name none.
pub fn constants_are_these()
    ensures order { CONTROL_KINDS ≡ control_kinds }
    ensures retirements { MAX_PENDING_RETIRED_CIDS ≡ most_retirements }
    ensures in_definitions { most_retirements ≡ 80 }
{}
