//! Moments, lengths of time, timers and the round-trip time (RFC 9002, section 5).
#![tactic(auto)]

mod instant;
pub mod laws;
mod printing;
mod rtt;
mod timer;

pub use instant::{Duration, Instant, TIMER_GRANULARITY};
pub use rtt::RttEstimator;
pub use timer::{Timer, TimerTable};
