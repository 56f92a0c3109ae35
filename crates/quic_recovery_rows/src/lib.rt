//! Rows of recovery and of connection IDs, computed on their definitions. What they are to give is
//! worked out by hand, by the rule that each law names. Each function does nothing: its contract is
//! the law.
#![tactic(auto)]

pub mod arriving;
pub mod asking;
pub mod given;
pub mod losses;
pub mod mtud;
pub mod own_ids;
pub mod pacing;
pub mod paths;
pub mod peer_ids;
pub mod probing;
pub mod sent;
