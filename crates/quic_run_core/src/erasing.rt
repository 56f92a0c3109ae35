//! A script less the lines that change nothing.
ghost use Rattle.std.specs.Prelude.{◌≡◌, ◌++◌, IfOk, IfErr, OnOk, None};
ghost use Rattle.quic_run_core.specs.Erased.{is_left_out, is_shut_out, line_kept, ErasedAll};
ghost use Rattle.quic_run_core.specs.Outcomes.{Stopped};
ghost use Rattle.quic_lines.specs.Reading.{left_of, KnowsEnd};
ghost use Rattle.quic_run_core.specs.Scripts.{first_stage};
ghost use Rattle.quic_run_core.specs.Stages.{stage_of};

use crate::runner::Runner;
use quic_lines::{Lines, MOST_TURNS, RunsLines, ScriptError};
use std::alloc::{AllocError, Global};
use std::io::Read;

/// Runs a script as [`run_script`](crate::run_script) does, prints nothing, and answers its lines
/// less those that change nothing: `inject` lines, and `deliver` lines that are answered `dropped`
/// with `tooshort`, `notshort`, `fixedbit`, `unknownid`, `notopened`, `keyphase`, `duplicate` or
/// `address`. Each line that stays is ended by a line feed, also the last. It returns on any
/// script.
///
/// # Errors
///
/// - [`ScriptError::OutOfMemory`]: an allocation fails. Nothing is answered.
/// - [`ScriptError::ReadFault`]: the reader failed, or gave no end within 2^32 calls. Nothing is
///   answered.
/// - [`ScriptError::BadCommand`]: a line isn't in the language, or sets an option when the
///   endpoints are made. Nothing is answered.
pub fn erase<R: Read + Drop>(alloc: Global, reader: R) -> Result<Vec<u8>, ScriptError>
    ensures ok { IfOk result (λ kept. ErasedAll (R.remaining reader) kept.items) }
    ensures err { IfErr result (λ e. Stopped e (R.remaining reader) None None) }
{
    let mut lines = Lines::new(alloc, reader, MOST_TURNS)?;
    let mut runner = Runner::new(alloc);
    erase_lines(alloc, &mut runner, &mut lines)
}

/// Runs the lines of a script in turn, of which none was run.
fn erase_lines<R: Read + Drop>(
    alloc: Global,
    runner: &mut Runner,
    lines: &mut Lines<R>,
) -> Result<Vec<u8>, ScriptError>
    requires first { stage_of runner.old ≡ first_stage }
    requires known { KnowsEnd R.remaining lines.old }
    ensures ok { IfOk result (λ kept. ErasedAll (left_of R.remaining lines.old) kept.items) }
    ensures err { IfErr result (λ e. Stopped e (left_of R.remaining lines.old) None None) }
{
    let mut kept = Vec::new(alloc);
    let mut line = Vec::new(alloc);
    for number in 1..u64::MAX {
        if !lines.next(&mut line)? {
            return Ok(kept);
        }
        match runner.run_line(&line) {
            Ok(answer) => keep(&mut kept, &line, answer.as_str())?,
            Err(error) => return Err(error.at(number)),
        }
    }
    Err(ScriptError::ReadFault)
}

/// Appends a line that printed this, unless it is left out.
fn keep(kept: &mut Vec<u8>, line: &[u8], text: &str) -> Result<(), AllocError>
    ensures { OnOk result (kept.new.items ≡ kept.old.items ++ line_kept text.now line.now) }
{
    if is_left_out(text) {
        return Ok(());
    }
    kept.extend_from_slice(line)?;
    kept.push(b'\n')?;
    Ok(())
}

/// Whether a line that printed this changed nothing.
fn is_left_out(text: &str) -> bool
    ensures { result ≡ is_left_out text.now }
{
    let text = text.as_bytes();
    text.starts_with(b"c inject ") || text.starts_with(b"s inject ") || is_shut_out(text)
}

/// Whether a line that printed this delivered what didn't open, came before, or came to a client
/// from elsewhere.
fn is_shut_out(text: &[u8]) -> bool
    ensures { result ≡ is_shut_out text.now }
{
    text.ends_with(b" deliver dropped tooshort\n")
        || text.ends_with(b" deliver dropped notshort\n")
        || text.ends_with(b" deliver dropped fixedbit\n")
        || text.ends_with(b" deliver dropped unknownid\n")
        || text.ends_with(b" deliver dropped notopened\n")
        || text.ends_with(b" deliver dropped keyphase\n")
        || text.ends_with(b" deliver dropped duplicate\n")
        || text.ends_with(b" deliver dropped address\n")
}
