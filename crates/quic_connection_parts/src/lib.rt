//! What one endpoint (an *end*) of a QUIC connection is made of, below the calls on it: its
//! configuration, its connection IDs, why it is closed, packets that are lost at once; and what
//! frames, losses and sizes make of its streams, its messages and its path.
#![tactic(auto)]

pub mod acked;
pub mod closes;
pub mod closing;
mod config;
pub mod id_frames;
pub mod idle;
pub mod ids;
pub mod leaving;
pub mod losses;
pub mod making;
mod messages;
mod own_id;
pub mod packet;
pub mod polling;
pub mod receiving;
pub mod searching;
pub mod sent;
pub mod spare;
pub mod statistics;
pub mod stream_frames;
pub mod telling;

pub use config::Config;
pub use own_id::OwnId;
