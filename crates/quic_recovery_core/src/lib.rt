//! What an endpoint (an *end*) keeps of a packet number space: the numbers that came, what is to be
//! acknowledged, and when the peer is asked to acknowledge ack-eliciting packets (RFC 9000, section
//! 13.2).
#![tactic(auto)]

mod ack_frequency;
pub mod laws;
mod spaces;

pub use ack_frequency::AckFrequencyState;
pub use spaces::dedup::{DUPLICATE_SPAN, Dedup};
pub use spaces::pending_acks::{LAZY_ACK_THRESHOLD, MAX_ACK_RUNS, PendingAcks};
