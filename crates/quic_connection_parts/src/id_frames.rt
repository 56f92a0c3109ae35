//! What is wrong with a frame about connection IDs (RFC 9000, sections 5.1.1 and 5.1.2).
ghost use Rattle.std.specs.Prelude.{◌≡◌, Some};
ghost use Rattle.quic_machine.specs.Receive.{too_many_ids};
ghost use Rattle.quic_connection_parts.specs.Faults.{fault_view, IsRetiring, next_refusal};

use crate::receiving::Trouble;
use quic_machine::NextIdError;
use quic_retransmits::RetireError;
use quic_wire_core::{Code, TransportError};

/// CONNECTION_ID_LIMIT_ERROR.
pub fn too_many_ids() -> Trouble
    ensures { fault_view result ≡ Some too_many_ids }
{
    Trouble::Broke(TransportError::from(Code::CONNECTION_ID_LIMIT_ERROR))
}

/// What it comes to that ids of the peer aren't retired.
pub fn trouble_of_retiring(error: RetireError) -> Trouble
    ensures { IsRetiring error result }
{
    match error {
        RetireError::LimitExceeded => too_many_ids(),
        RetireError::Memory => Trouble::Memory,
    }
}

/// Why the next id isn't used where those before it aren't retired.
pub fn next_id_error(error: RetireError) -> NextIdError
    ensures { result ≡ next_refusal error }
{
    match error {
        RetireError::LimitExceeded => NextIdError::TooManyPending,
        RetireError::Memory => NextIdError::Memory,
    }
}
