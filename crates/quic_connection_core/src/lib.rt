//! One endpoint (an *end*) of a QUIC connection as a deterministic state machine: datagrams,
//! moments and application calls in, datagrams and read bytes out. A packet or a frame that is
//! ack-eliciting (RFC 9000, section 13.2) *asks* for an acknowledgement. Datagrams are tracked
//! until they are acknowledged, lost or forgotten; one that asks is in flight meanwhile (RFC 9002,
//! section 2).
#![tactic(auto)]

mod connection;

pub use connection::Connection;
pub use quic_connection_parts::{Config, OwnId};
