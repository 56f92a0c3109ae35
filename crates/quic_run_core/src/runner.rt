//! Runs a script: what each of its lines does, and answers.
ghost use Rattle.std.specs.Prelude.{◌≡◌, ◌⊎◌, true, false, MatchResult, IfErr, IfOk, OnOk, IsSome, string_bytes};
ghost use Rattle.quic_lines.specs.Language.{sets, asks, shows, hears_from, settles, asked_of};
ghost use Rattle.quic_run_core.specs.Scripts.{first_stage, with_made, made_at, has_no_ends, IsDone, heading as heading_of};
ghost use Rattle.quic_run_core.specs.Stages.{stage_of};
ghost use Rattle.quic_run_core.specs.Outcomes.{RanAll, Stopped};

use crate::session::Session;
use quic_connection::{Address, Instant, RunEvent};
use quic_lines::{
    Line, LineError, Lines, MOST_TURNS, Options, RunsLines, ScriptError, Setting, call_name,
    from_address, parse_line, run_lines,
};
use quic_wire_core::Side;
use std::alloc::{AllocError, Global};
use std::io::{Read, Write};

/// A session on the heap. An `Err` is want of memory.
fn boxed(alloc: Global, session: Session) -> Result<Box<Session>, AllocError>
    ensures { IfOk result (λ b. b.value ≡ session) }
{
    Ok(Box::new(alloc, session)?)
}

/// A script as far as it was run.
#[derive(Drop)]
pub(crate) struct Runner {
    alloc: Global,
    client: Options,
    server: Options,
    // From where comes what comes to each end.
    client_hears: Address,
    server_hears: Address,
    // None until the first line that isn't a setting. It lies on the heap, so that a runner is
    // small.
    session: Option<Box<Session>>,
}

impl Runner {
    /// No line was run.
    pub(crate) fn new(alloc: Global) -> Self
        ensures { stage_of result ≡ first_stage }
    {
        Runner {
            alloc,
            client: Options::new(),
            server: Options::new(),
            client_hears: Address(0),
            server_hears: Address(0),
            session: None,
        }
    }

    /// Sets an option, unless the ends are made.
    fn set(&mut self, side: Side, setting: Setting) -> Result<String, LineError>
        ensures { MatchResult result
            (λ text. IsDone (sets side setting) (stage_of self.old) (string_bytes text) (stage_of self.new))
            (λ e. (e ≡ LineError.OutOfMemory) ⊎ ((e ≡ LineError.BadCommand) × IsSome (stage_of self.old).made)) }
    {
        if self.session.is_some() {
            return Err(LineError::BadCommand);
        }
        match side {
            Side::Client => self.client.set(setting),
            Side::Server => self.server.set(setting),
        }
        let mut out = heading(self.alloc, side, "set")?;
        out.push_str("ok\n")?;
        Ok(out)
    }

    /// What comes to an end comes from this address from now on.
    fn hear_from(&mut self, side: Side, remote: Address) -> Result<String, LineError>
        ensures { MatchResult result
            (λ text. IsDone (hears_from side remote) (stage_of self.old) (string_bytes text) (stage_of self.new))
            (λ e. (e ≡ LineError.OutOfMemory) ⊎ ((e ≡ LineError.BadCommand) × (has_no_ends (stage_of self.old) ≡ true))) }
    {
        self.begin()?;
        match side {
            Side::Client => self.client_hears = remote,
            Side::Server => self.server_hears = remote,
        }
        let mut out = heading(self.alloc, side, "from")?;
        out.push_str("ok\n")?;
        Ok(out)
    }

    /// Makes a call at an end.
    fn call(&mut self, mut event: RunEvent) -> Result<String, LineError>
        ensures { MatchResult result
            (λ text. IsDone (asks event.side (asked_of event.call)) (stage_of self.old) (string_bytes text) (stage_of self.new))
            (λ e. (e ≡ LineError.OutOfMemory) ⊎ ((e ≡ LineError.BadCommand) × (has_no_ends (stage_of self.old) ≡ true))) }
    {
        self.begin()?;
        let remote = match event.side {
            Side::Client => self.client_hears,
            Side::Server => self.server_hears,
        };
        from_address(&mut event.call, remote);
        let mut out = heading(self.alloc, event.side, call_name(&event.call))?;
        match &mut self.session {
            Some(session) => session.as_mut().call(&event, &mut out)?,
            None => unreachable!(),
        }
        out.push_str("\n")?;
        Ok(out)
    }

    /// Shows a datagram that an end gave out.
    fn show(&mut self, side: Side, index: usize) -> Result<String, LineError>
        ensures { MatchResult result
            (λ text. IsDone (shows side index) (stage_of self.old) (string_bytes text) (stage_of self.new))
            (λ e. (e ≡ LineError.OutOfMemory) ⊎ ((e ≡ LineError.BadCommand) × (has_no_ends (stage_of self.old) ≡ true))) }
    {
        self.begin()?;
        let mut out = heading(self.alloc, side, "show")?;
        match &mut self.session {
            Some(session) => session.as_mut().show(side, index, &mut out)?,
            None => unreachable!(),
        }
        out.push_str("\n")?;
        Ok(out)
    }

    /// Lets both ends talk until they rest.
    fn settle(&mut self, now: Instant) -> Result<String, LineError>
        ensures { MatchResult result
            (λ text. IsDone (settles now) (stage_of self.old) (string_bytes text) (stage_of self.new))
            (λ e. (e ≡ LineError.OutOfMemory) ⊎ ((e ≡ LineError.BadCommand) × (has_no_ends (stage_of self.old) ≡ true))) }
    {
        self.begin()?;
        let mut out = String::new(self.alloc);
        out.push_str("settle ")?;
        match &mut self.session {
            Some(session) => session.as_mut().settle(now, &mut out)?,
            None => unreachable!(),
        }
        out.push_str("\n")?;
        Ok(out)
    }

    /// Makes the ends, unless they are made. A bad command: a key lasts too short.
    fn begin(&mut self) -> Result<(), LineError>
        ensures stage { OnOk result (stage_of self.new ≡ with_made (made_at (stage_of self.old)) (stage_of self.old)) }
        ensures lasts { OnOk result (has_no_ends (stage_of self.old) ≡ false) }
        ensures refusal { IfErr result (λ e. (e ≡ LineError.OutOfMemory) ⊎ ((e ≡ LineError.BadCommand) × (has_no_ends (stage_of self.old) ≡ true))) }
    {
        if self.session.is_none() {
            let session = Session::new(self.alloc, &self.client, &self.server)?;
            self.session = Some(boxed(self.alloc, session)?);
        }
        Ok(())
    }
}

impl RunsLines for Runner {
    ghost use Rattle.quic_run_core.specs.LongLines.{refuses_long as no_long_line};
    ghost use Rattle.quic_run_core.specs.Scripts.{Stage as ScriptStage, script_rules};
    ghost use Rattle.quic_run_core.specs.Stages.{stage_of as stage_at};

    ghost Stage = { ScriptStage };

    ghost stage_of = { stage_at };

    ghost line_rules = { script_rules };

    fn run_line(&mut self, line: &[u8]) -> Result<String, LineError> {
        match parse_line(self.alloc, line)? {
            Line::Empty => Ok(String::new(self.alloc)),
            Line::Set(side, setting) => self.set(side, setting),
            Line::Call(event) => self.call(event),
            Line::Show(side, index) => self.show(side, index),
            Line::From(side, remote) => self.hear_from(side, remote),
            Line::Settle(now) => self.settle(now),
        }
    }

    ghost refuses_long = { no_long_line };
}

/// The first two words of a line, and a blank.
fn heading(alloc: Global, side: Side, name: &str) -> Result<String, AllocError>
    ensures { IfOk result (λ text. string_bytes text ≡ heading_of side name.now) }
{
    let end = match side {
        Side::Client => "c",
        Side::Server => "s",
    };
    format!(in alloc; "{end} {name} ")
}

/// Runs a script, each of whose lines is a call at one of two ends, or lets both settle: prints
/// each answer before the next line is run. The ends are made at the first line that isn't a
/// setting.
///
/// # Errors
///
/// - [`ScriptError::OutOfMemory`]: an allocation fails. What was printed before stands.
/// - [`ScriptError::ReadFault`]: the reader failed, or gave no end within 2^32 calls. What was
///   printed before stands.
/// - [`ScriptError::BadCommand`]: a line isn't in the language, sets an option when the endpoints
///   are made, or needs endpoints where a key lasts too short. What was printed before stands.
/// - [`ScriptError::WriteFault`]: the writer failed, or took nothing. What was printed before
///   stands.
pub fn run_script<R: Read + Drop, W: Write>(
    alloc: Global,
    reader: R,
    writer: &mut W,
) -> Result<(), ScriptError>
    ensures ok { OnOk result (RanAll (R.remaining reader) (W.contents writer.old) (W.contents writer.new)) }
    ensures err { IfErr result (λ e. Stopped e (R.remaining reader) (W.contents writer.old) (W.contents writer.new)) }
{
    run_script_within(alloc, reader, writer, MOST_TURNS)
}

/// As [`run_script`], where the reader is called at most `turns` times.
///
/// # Errors
///
/// - [`ScriptError::OutOfMemory`]: an allocation fails. What was printed before stands.
/// - [`ScriptError::ReadFault`]: the reader failed, or gave no end within `turns` calls. What was
///   printed before stands.
/// - [`ScriptError::BadCommand`]: a line isn't in the language, sets an option when the endpoints
///   are made, or needs endpoints where a key lasts too short. What was printed before stands.
/// - [`ScriptError::WriteFault`]: the writer failed, or took nothing. What was printed before
///   stands.
pub fn run_script_within<R: Read + Drop, W: Write>(
    alloc: Global,
    reader: R,
    writer: &mut W,
    turns: u64,
) -> Result<(), ScriptError>
    ensures ok { OnOk result (RanAll (R.remaining reader) (W.contents writer.old) (W.contents writer.new)) }
    ensures err { IfErr result (λ e. Stopped e (R.remaining reader) (W.contents writer.old) (W.contents writer.new)) }
{
    let mut lines = Lines::new(alloc, reader, turns)?;
    let mut runner = Runner::new(alloc);
    run_lines(alloc, &mut runner, &mut lines, writer)
}
