//! Copies of bytes that share memory.
#![tactic(auto)]

mod copies;

pub use copies::Copies;
