//! Tests of the two buffers of a stream, and of what goes with them: each public call once, and
//! each that takes memory where an allocation fails.
#![tactic(auto)]

#[cfg(test)]
mod assembler;
#[cfg(test)]
mod bytes_source;
#[cfg(test)]
mod send_buffer;
#[cfg(test)]
mod spent;
