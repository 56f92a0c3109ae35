//! Messages that may be lost, and aren't sent again (RFC 9221; quinn-proto's
//! `connection::datagrams`): those of an end that came and weren't read, and those that wait to be
//! sent ([`DatagramState`]), and what an application holds of them ([`Datagrams`]).
#![tactic(auto)]

mod datagrams;
mod errors;
pub mod laws;
mod limits;
mod message_queue;
mod state;

pub use datagrams::Datagrams;
pub use errors::{ReceivedError, SendDatagramError};
pub use limits::{DatagramLimits, max_size};
pub use state::DatagramState;
