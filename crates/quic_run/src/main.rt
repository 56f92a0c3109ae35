//! Runs a script of calls at two endpoints of a connection: reads it from standard input, and
//! prints what each line answers.
#![tactic(auto)]

use quic_run_core::run_script;
use std::io;
use std::process::ExitCode;

fn main(rt: HostRuntime) -> ExitCode {
    match run_script(rt.alloc(), rt.stdin(), &mut io::writer(&rt)) {
        Ok(()) => ExitCode::SUCCESS,
        Err(fault) => {
            let _ = eprintln!(rt; "{fault}");
            ExitCode::from(fault.exit_status())
        }
    }
}
