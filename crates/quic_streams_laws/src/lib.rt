//! What is true of all streams of one end (RFC 9000, sections 2 to 4), kept by each call and frame.
#![tactic(auto)]

pub mod laws;
