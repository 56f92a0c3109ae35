//! Statistics of a connection: what it sent, received and dropped, and its path (quinn-proto's
//! `connection::stats`). No count passes the greatest number of its type, where it stays.
#![tactic(auto)]

mod connection;
mod drops;
mod frames;
pub mod laws;
mod path;
mod printing;
mod udp;

pub use connection::ConnectionStats;
pub use drops::DropStats;
pub use frames::FrameStats;
pub use path::PathStats;
pub use udp::UdpStats;
