//! Paths to the peer (RFC 9000, sections 8 and 9): what was measured of them, what is in flight,
//! and how much may go before the peer's address is validated.
#![tactic(auto)]

mod address;
mod in_flight;
pub mod laws;
mod paths;
mod responses;

pub use address::Address;
pub use in_flight::InFlight;
pub use paths::PathData;
pub use responses::PathResponses;
