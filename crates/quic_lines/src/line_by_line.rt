//! Runs lines in turn, whatever language they are in, and prints what each answers.
ghost use Rattle.std.specs.Prelude.{◌≡◌, ◌⊎◌, [], MatchResult, IfErr, OnOk, string_bytes};
ghost use Rattle.std.specs.Io.KnownBytes.{Appends};
ghost use Rattle.quic_lines.specs.LineByLine.{LineRules, RefusesLong, RanAll, Stopped};
ghost use Rattle.quic_lines.specs.Reading.{left_of, KnowsEnd};

use crate::error::ScriptError;
use crate::lines::Lines;
use crate::script::LineError;
use std::alloc::Global;
use std::io::{Read, Write};

/// What runs lines, each as its language says.
pub trait RunsLines {
    // How far it is.
    ghost Stage: { Type 0 };

    ghost stage_of: { Self → Self.Stage };

    // What its language says of lines.
    ghost line_rules: { LineRules Self.Stage };

    /// Runs one line, and gives what is printed of it.
    ///
    /// # Errors
    ///
    /// - [`LineError::BadCommand`]: the line can't be run now. Nothing is said of what is left.
    /// - [`LineError::OutOfMemory`]: an allocation fails. Nothing is said of what is left.
    fn run_line(&mut self, line: &[u8]) -> Result<String, LineError>
        ensures { MatchResult result
            (λ text. line_rules.Does line.now (stage_of self.old) (string_bytes text) (stage_of self.new))
            (λ e. (e ≡ LineError.OutOfMemory) ⊎ ((e ≡ LineError.BadCommand) × line_rules.IsRefused line.now (stage_of self.old))) };

    // A line of more than 2^20 bytes can't be run.
    ghost refuses_long: { RefusesLong line_rules };
}

/// Runs lines in turn, and prints each answer before the next line is read.
///
/// # Errors
///
/// - [`ScriptError::OutOfMemory`]: an allocation fails. What was printed before stands.
/// - [`ScriptError::ReadFault`]: the reader failed, or was called too often. What was printed
///   before stands.
/// - [`ScriptError::BadCommand`]: a line can't be run; lines count from 1. What was printed before
///   stands.
/// - [`ScriptError::WriteFault`]: the writer failed, or took nothing. What was printed before
///   stands.
pub fn run_lines<T: RunsLines, R: Read + Drop, W: Write>(
    alloc: Global,
    runner: &mut T,
    lines: &mut Lines<R>,
    writer: &mut W,
) -> Result<(), ScriptError>
    requires { KnowsEnd R.remaining lines.old }
    ensures ok { OnOk result (RanAll T.line_rules (T.stage_of runner.old) [] (left_of R.remaining lines.old) (W.contents writer.old) (W.contents writer.new)) }
    ensures err { IfErr result (λ e. Stopped T.line_rules e (T.stage_of runner.old) [] (left_of R.remaining lines.old) (W.contents writer.old) (W.contents writer.new)) }
{
    let mut line = Vec::new(alloc);
    for number in 1..u64::MAX {
        if !lines.next(&mut line)? {
            return Ok(());
        }
        match runner.run_line(&line) {
            Ok(answer) => print(writer, answer.as_str())?,
            Err(error) => return Err(error.at(number)),
        }
    }
    Err(ScriptError::ReadFault)
}

/// Prints an answer, where there is one.
///
/// # Errors
///
/// - [`ScriptError::WriteFault`]: the writer failed, or took nothing. Some of the answer may be
///   written.
pub fn print<W: Write>(writer: &mut W, answer: &str) -> Result<(), ScriptError>
    ensures printed { OnOk result (Appends (W.contents writer.old) (W.contents writer.new) answer.now) }
    ensures fault { IfErr result (λ e. e ≡ ScriptError.WriteFault) }
{
    if answer.is_empty() {
        return Ok(());
    }
    match writer.write_all(answer.as_bytes()) {
        Ok(()) => {}
        Err(_) => return Err(ScriptError::WriteFault),
    }
    writer.flush().map_err(|_| ScriptError::WriteFault)
}
