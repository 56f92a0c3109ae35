//! Runs the lines of one end: what each of them does, and answers.
ghost use Rattle.std.specs.Prelude.{◌≡◌, ◌⊎◌, Some, MatchResult, IfErr, OnOk, string_bytes};
ghost use Rattle.quic_peer_core.specs.Language.{sets, makes, hears_from, receives, tells_window, tells_stats, asks};
ghost use Rattle.quic_lines.specs.Language.{asked_of};
ghost use Rattle.quic_peer_core.specs.Peer.{first_stage, IsDone, IsRefused};
ghost use Rattle.quic_peer_core.specs.Stages.{stage_of};
ghost use Rattle.quic_peer_core.specs.Outcomes.{RanAll, Stopped};

use crate::command::{Line, NewEnd, parse_line};
use crate::end::{End, ask, make_end, refusal_name, take, tell_params};
use crate::figures::{tell_stats, tell_window};
use quic_connection::{Address, Call, Injection};
use quic_lines::{
    LineError, Lines, MOST_TURNS, Options, RunsLines, ScriptError, Setting, print, run_lines,
};
use std::alloc::Global;
use std::io::{Read, Write};

/// What is printed before a line is read.
pub const NOTICE: &str = "# The keys are stand-ins that hide nothing.\n";

/// One end, as far as its lines were run.
#[derive(Drop)]
struct Peer {
    alloc: Global,
    options: Options,
    // From where datagrams come.
    hears: Address,
    // None until a line has made it. It lies on the heap, so that a peer is small.
    end: Option<Box<End>>,
}

impl Peer {
    /// No line was run.
    fn new(alloc: Global) -> Self
        ensures { stage_of result ≡ first_stage }
    {
        Peer {
            alloc,
            options: Options::new(),
            hears: Address(0),
            end: None,
        }
    }

    /// Sets an option, unless the end is made.
    fn set(&mut self, setting: Setting) -> Result<String, LineError>
        ensures { MatchResult result
            (λ text. IsDone (sets setting) (stage_of self.old) (string_bytes text) (stage_of self.new))
            (λ e. (e ≡ LineError.OutOfMemory) ⊎ ((e ≡ LineError.BadCommand) × IsRefused (Some (sets setting)) (stage_of self.old))) }
    {
        if self.end.is_some() {
            return Err(LineError::BadCommand);
        }
        self.options.set(setting);
        Ok(String::from_str(self.alloc, "set ok\n")?)
    }

    /// Makes the end, unless it is made; or tells why it can't be made.
    fn make(&mut self, new: &NewEnd) -> Result<String, LineError>
        ensures { MatchResult result
            (λ text. IsDone (makes new.entry.now) (stage_of self.old) (string_bytes text) (stage_of self.new))
            (λ e. (e ≡ LineError.OutOfMemory) ⊎ ((e ≡ LineError.BadCommand) × IsRefused (Some (makes new.entry.now)) (stage_of self.old))) }
    {
        if self.end.is_some() {
            return Err(LineError::BadCommand);
        }
        let name = match make_end(self.alloc, &self.options, new) {
            Ok(end) => {
                self.end = Some(end);
                "ok"
            }
            Err(error) => refusal_name(error)?,
        };
        Ok(format!(in self.alloc; "new {name}\n")?)
    }

    /// Datagrams come from this address from now on.
    fn hear_from(&mut self, remote: Address) -> Result<String, LineError>
        ensures { MatchResult result
            (λ text. IsDone (hears_from remote) (stage_of self.old) (string_bytes text) (stage_of self.new))
            (λ e. e ≡ LineError.OutOfMemory) }
    {
        self.hears = remote;
        Ok(String::from_str(self.alloc, "from ok\n")?)
    }

    /// Hands a datagram in, if the end is made.
    fn receive(&mut self, datagram: &Injection) -> Result<String, LineError>
        ensures { MatchResult result
            (λ text. IsDone (receives datagram.entry.now.now datagram.entry.now.ecn datagram.entry.now.bytes) (stage_of self.old) (string_bytes text) (stage_of self.new))
            (λ e. (e ≡ LineError.OutOfMemory) ⊎ ((e ≡ LineError.BadCommand) × IsRefused (Some (receives datagram.entry.now.now datagram.entry.now.ecn datagram.entry.now.bytes)) (stage_of self.old))) }
    {
        match &mut self.end {
            Some(end) => Ok(take(self.alloc, end.as_mut(), self.hears, datagram)?),
            None => Err(LineError::BadCommand),
        }
    }

    /// Tells how many bytes may be in flight, if the end is made.
    fn window(&self) -> Result<String, LineError>
        ensures { MatchResult result
            (λ text. IsDone tells_window (stage_of self.now) (string_bytes text) (stage_of self.now))
            (λ e. (e ≡ LineError.OutOfMemory) ⊎ ((e ≡ LineError.BadCommand) × IsRefused (Some tells_window) (stage_of self.now))) }
    {
        match &self.end {
            Some(end) => Ok(tell_window(self.alloc, end.as_ref())?),
            None => Err(LineError::BadCommand),
        }
    }

    /// Tells what was counted of the end, if it is made.
    fn stats(&self) -> Result<String, LineError>
        ensures { MatchResult result
            (λ text. IsDone tells_stats (stage_of self.now) (string_bytes text) (stage_of self.now))
            (λ e. (e ≡ LineError.OutOfMemory) ⊎ ((e ≡ LineError.BadCommand) × IsRefused (Some tells_stats) (stage_of self.now))) }
    {
        match &self.end {
            Some(end) => Ok(tell_stats(self.alloc, end.as_ref())?),
            None => Err(LineError::BadCommand),
        }
    }

    /// Makes a call, if the end is made.
    fn call(&mut self, call: &Call) -> Result<String, LineError>
        ensures { MatchResult result
            (λ text. IsDone (asks (asked_of call.now)) (stage_of self.old) (string_bytes text) (stage_of self.new))
            (λ e. (e ≡ LineError.OutOfMemory) ⊎ ((e ≡ LineError.BadCommand) × IsRefused (Some (asks (asked_of call.now))) (stage_of self.old))) }
    {
        match &mut self.end {
            Some(end) => Ok(ask(self.alloc, end.as_mut(), call)?),
            None => Err(LineError::BadCommand),
        }
    }
}

impl RunsLines for Peer {
    ghost use Rattle.quic_peer_core.specs.LongLines.{refuses_long as no_long_line};
    ghost use Rattle.quic_peer_core.specs.Peer.{Stage as PeerStage, peer_rules};
    ghost use Rattle.quic_peer_core.specs.Stages.{stage_of as stage_at};

    ghost Stage = { PeerStage };

    ghost stage_of = { stage_at };

    ghost line_rules = { peer_rules };

    fn run_line(&mut self, line: &[u8]) -> Result<String, LineError> {
        match parse_line(self.alloc, line)? {
            Line::Empty => Ok(String::new(self.alloc)),
            Line::Set(setting) => self.set(setting),
            Line::Params => Ok(tell_params(self.alloc, &self.options)?),
            Line::New(new) => self.make(&new),
            Line::From(remote) => self.hear_from(remote),
            Line::Receive(datagram) => self.receive(&datagram),
            Line::Window => self.window(),
            Line::Stats => self.stats(),
            Line::Call(call) => self.call(&call),
        }
    }

    ghost refuses_long = { no_long_line };
}

/// Drives one end of a connection by lines, each of which sets an option, makes the end, hands a
/// datagram in, asks for figures or is a call: prints that the keys hide nothing, and then each
/// answer before the next line is read.
///
/// # Errors
///
/// - [`ScriptError::WriteFault`]: the writer failed, or took nothing. What was printed before
///   stands.
/// - [`ScriptError::OutOfMemory`]: an allocation fails. What was printed before stands.
/// - [`ScriptError::ReadFault`]: the reader failed, or gave no end within 2^32 calls. What was
///   printed before stands.
/// - [`ScriptError::BadCommand`]: a line isn't in the language; or it sets an option or makes the
///   endpoint when that is made, or needs the endpoint before that. What was printed before stands.
pub fn run_peer<R: Read + Drop, W: Write>(
    alloc: Global,
    reader: R,
    writer: &mut W,
) -> Result<(), ScriptError>
    ensures ok { OnOk result (RanAll NOTICE.now (R.remaining reader) (W.contents writer.old) (W.contents writer.new)) }
    ensures err { IfErr result (λ e. Stopped e NOTICE.now (R.remaining reader) (W.contents writer.old) (W.contents writer.new)) }
{
    print(writer, NOTICE)?;
    let mut lines = Lines::new(alloc, reader, MOST_TURNS)?;
    let mut peer = Peer::new(alloc);
    run_lines(alloc, &mut peer, &mut lines, writer)
}
