//! How much an endpoint may have in flight, how fast it sends, and how large its datagrams are: the
//! congestion window and what controls it, pacing, and path MTU discovery (RFC 9002, section 7; RFC
//! 8899).
#![tactic(auto)]

mod congestion;
pub mod laws;
mod mtud;
mod pacing;

pub use congestion::new_reno::{NewReno, NewRenoConfig};
pub use congestion::{Controller, ControllerFactory, ControllerMetrics};
pub use mtud::MtuDiscovery;
pub use pacing::Pacer;
