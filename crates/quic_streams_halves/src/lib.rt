//! The parts of all streams that run one way at one end, by id (quinn-proto's maps `send` and
//! `recv` of `StreamsState`): those that are in use, and which ever were.
#![tactic(auto)]

mod pending_streams;
mod places;
mod queued;
mod recv_halves;
mod send_halves;

pub use pending_streams::PendingStreams;
pub use places::{Indices, Places, is_own};
pub use queued::written_to;
pub use recv_halves::RecvHalves;
pub use send_halves::SendHalves;
