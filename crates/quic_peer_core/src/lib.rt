//! One end of a connection, driven by lines: its peer is elsewhere.
#![tactic(auto)]

mod command;
mod end;
mod figures;
mod runner;

pub use quic_lines::ScriptError;
pub use runner::{NOTICE, run_peer};
