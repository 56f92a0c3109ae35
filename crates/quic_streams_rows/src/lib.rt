//! Worked rows of streams and of messages, computed on the definitions that the contracts of their
//! crates name: what was worked out by hand for a few calls, one behind another. Each function does
//! nothing: its contract is the law.
#![tactic(auto)]

pub mod assembler;
pub mod handles;
pub mod limits;
pub mod messages;
pub mod send_buffer;
pub mod sources;
