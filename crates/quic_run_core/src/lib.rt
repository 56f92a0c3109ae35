//! Scripts over two endpoints (*ends*) of a connection.
#![tactic(auto)]

mod erasing;
mod runner;
mod session;
mod show;

pub use erasing::erase;
pub use quic_lines::ScriptError;
pub use runner::{run_script, run_script_within};
