//! The parts of the streams of one end, below the calls on them all: what calls answer, what is
//! told of streams, what has to be sent again, the queue of streams with something to send
//! (quinn-proto's `connection::streams`, `connection::spaces`), and values by number.
#![tactic(auto)]

mod answers;
mod by_dir;
mod by_number;
mod by_place;
mod events;
mod kept;
mod numbered;
mod pending_queue;
mod recv;
mod ring;
mod send;

pub use answers::{
    Breach, ClosedStream, FinishError, ReadError, ReadableError, ReceivedError, StreamEvent,
    UpdateError, WriteError, Written,
};
pub use by_dir::ByDir;
pub use events::Events;
pub use kept::Kept;
pub use numbered::Numbered;
pub use pending_queue::{PendingStreamsQueue, Place};
pub use recv::{GREATEST_OFFSET, Recv, least_growth};
pub use send::{FrameMeta, Send, rank_of};
