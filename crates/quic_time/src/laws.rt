//! What the definitions of this crate say together. Each function does nothing: its contract is the
//! law.

pub mod clocks;
