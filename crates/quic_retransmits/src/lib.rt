//! What waits to be sent beside the bytes of streams, and what a packet carried of it, which goes
//! again where the packet is lost (RFC 9000, section 13.3; quinn-proto's `connection::spaces`).
#![tactic(auto)]

mod ids;
pub mod laws;
mod lists;
mod queries;
mod retransmits;
mod thin_retransmits;

pub use ids::StreamIds;
pub use queries::LimitQueries;
pub use retransmits::{
    CONTROL_KINDS, ControlKind, MAX_PENDING_RETIRED_CIDS, RetireError, Retransmits,
};
pub use thin_retransmits::ThinRetransmits;
