//! All streams of one end (quinn-proto's `connection::streams::state`).
#![tactic(auto)]

mod acked;
mod blocked;
mod chunks;
mod control;
mod limits;
mod opening;
mod reading;
mod reads;
mod receiving;
mod reset;
mod sending;
mod state;
mod stream_frames;
mod taking;
pub mod worked;

pub use blocked::BlockedBy;
pub use opening::Opening;
pub use quic_retransmits::{CONTROL_KINDS, ControlKind};
pub use receiving::Receiving;
pub use sending::Sending;
pub use state::StreamsState;
pub use taking::IdRule;
