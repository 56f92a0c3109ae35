//! What the definitions of this crate say together. Each function does nothing: its contract is the
//! law.
ghost use Rattle.std.specs.Prelude.{◌≡◌};
ghost use Rattle.quic_ids.specs.CidQueue.{kept_ids};

pub mod cid_queue;
pub mod cid_state;

use crate::cid_queue::CidQueue;

/// How many ids of the peer are kept (RFC 9000, section 5.1.1, which names no number: this is our
/// choice).
pub fn constants_are_these()
    ensures ids { CidQueue.LEN ≡ kept_ids }
    ensures in_definitions { kept_ids ≡ 8 }
{}
