//! The send side of a QUIC stream: what was written and may have to be sent ([`SendBuffer`]), what
//! a write takes its bytes from ([`BytesSource`]), what a frame of a stream carries
//! ([`StreamMeta`]), and whether a call left something to send ([`ShouldTransmit`]).
#![tactic(auto)]

mod bytes_source;
pub mod laws;
mod send_buffer;
mod stream_meta;

pub use bytes_source::{ByteSlice, BytesArray, BytesSource};
pub use send_buffer::SendBuffer;
pub use stream_meta::{ShouldTransmit, StreamMeta};
