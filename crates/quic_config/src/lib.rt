//! What an endpoint (an *end*) of a connection is configured with, and what its peer is told of it
//! (RFC 9000, section 18.2).
#![tactic(auto)]

mod ack_frequency;
mod first_sample;
pub mod laws;
mod mtu_discovery;
mod transport;

pub use ack_frequency::AckFrequencyConfig;
pub use first_sample::{FirstSample, MAX_FIRST_SAMPLE_NANOS};
pub use mtu_discovery::{MAX_UDP_PAYLOAD, MtuDiscoveryConfig};
pub use transport::{IDS_KEPT, IdleTimeout, TransportConfig};
