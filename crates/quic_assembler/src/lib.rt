//! The receive side of a QUIC stream: what has arrived and is not read yet ([`Assembler`]), and the
//! chunks that reads give ([`Chunk`]).
#![tactic(auto)]

mod assembler;
pub mod laws;

pub use assembler::{Assembler, Chunk, IllegalOrderedRead, MOST_PIECES};
