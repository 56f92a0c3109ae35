//! The connection IDs of both endpoints (RFC 9000, sections 5.1.1 and 5.1.2): which of those that
//! an endpoint (an *end*) issued live, and which of the peer's it knows and uses.
#![tactic(auto)]

mod cid_queue;
mod cid_state;
pub mod laws;

pub use cid_queue::{CidQueue, InsertError};
pub use cid_state::CidState;
