//! Drives one end of a connection: reads its lines from standard input, and prints what each
//! answers.
#![tactic(auto)]

use quic_peer_core::run_peer;
use std::io;
use std::process::ExitCode;

fn main(rt: HostRuntime) -> ExitCode {
    match run_peer(rt.alloc(), rt.stdin(), &mut io::writer(&rt)) {
        Ok(()) => ExitCode::SUCCESS,
        Err(fault) => {
            let _ = eprintln!(rt; "{fault}");
            ExitCode::from(fault.exit_status())
        }
    }
}
