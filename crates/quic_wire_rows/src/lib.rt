//! Rows of the wire layer, computed on its definitions: the bytes that they give, and the values.
//! Each function does nothing: its contract is the law. Bytes are laid out by hand.
#![tactic(auto)]

pub mod frames;
pub mod integers;
pub mod parameters;
pub mod refusals;
