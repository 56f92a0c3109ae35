//! What an application holds of the streams of an end (quinn-proto's `connection::streams`): all of
//! them ([`Streams`]), one on which it writes ([`SendStream`]), one that it reads ([`RecvStream`]),
//! and a read of that ([`Chunks`]). Each borrows them while it lives.
#![tactic(auto)]

mod end_streams;
mod recv_stream;
mod send_stream;
mod streams;
mod told;

pub use end_streams::EndStreams;
pub use recv_stream::{Chunks, RecvStream};
pub use send_stream::SendStream;
pub use streams::Streams;
pub use told::Told;
