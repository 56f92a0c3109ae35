//! Tests of the wire layer, by the names of `quic_wire` alone: values from outside, texts that no
//! clause says, sets of numbers, and each call that takes memory where memory lacks (`lacking`).
//! What its definitions give of worked values is computed in `quic_wire_rows`.
#![tactic(auto)]

#[cfg(test)]
mod errors;
#[cfg(test)]
mod frame;
#[cfg(test)]
mod lacking;
