//! Runs a script of calls at two endpoints of a connection, from standard input, and prints its
//! lines less those that change nothing: what was injected, and what was delivered and didn't open,
//! or came before.
#![tactic(auto)]

use quic_run_core::{ScriptError, erase};
use std::io;
use std::io::Write;
use std::process::ExitCode;

fn main(rt: HostRuntime) -> ExitCode {
    match erase(rt.alloc(), rt.stdin()) {
        Ok(kept) => match write(&mut io::writer(&rt), &kept) {
            Ok(()) => ExitCode::SUCCESS,
            Err(fault) => failed(&rt, fault),
        },
        Err(fault) => failed(&rt, fault),
    }
}

/// Writes all bytes.
fn write<W: Write>(writer: &mut W, bytes: &[u8]) -> Result<(), ScriptError> {
    if writer.write_all(bytes).is_err() {
        return Err(ScriptError::WriteFault);
    }
    writer.flush().map_err(|_| ScriptError::WriteFault)
}

/// Says why the script ended early.
fn failed(rt: &HostRuntime, fault: ScriptError) -> ExitCode {
    let _ = eprintln!(rt; "{fault}");
    ExitCode::from(fault.exit_status())
}
