//! What the definitions of this crate say together. Each function does nothing: its contract is the
//! law.
ghost use Rattle.std.specs.Prelude.{◌≡◌};
ghost use Rattle.quic_recovery_core.specs.declared.spaces.dedup.TheConstants.{WINDOW_BITS};
ghost use Rattle.quic_recovery_core.specs.DuplicateBits.{window_bits};
ghost use Rattle.quic_recovery_core.specs.Duplicates.{duplicate_span};
ghost use Rattle.quic_recovery_core.specs.PendingAcks.{most_ack_runs, lazy_threshold};

pub mod ack_frequency;
pub mod dedup;
pub mod pending_acks;

use crate::spaces::dedup::DUPLICATE_SPAN;
use crate::spaces::pending_acks::{LAZY_ACK_THRESHOLD, MAX_ACK_RUNS};

/// The constants: ranges per ACK frame (RFC 9000, section 13.2.3), non-ack-eliciting packets before
/// an ACK is bundled (section 13.2.1), span and bits of the duplicate window (section 12.3). The
/// sections name no numbers: these are our choice.
pub fn constants_are_these()
    ensures runs { MAX_ACK_RUNS ≡ most_ack_runs }
    ensures silent { LAZY_ACK_THRESHOLD ≡ lazy_threshold }
    ensures span { DUPLICATE_SPAN ≡ duplicate_span }
    ensures window { WINDOW_BITS ≡ window_bits }
{}
