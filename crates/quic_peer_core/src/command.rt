//! The language of one end: a line sets an option of it, makes it, hands a datagram in, asks for
//! figures of it, or is a call.
ghost use Rattle.std.specs.Prelude.{◌≡◌, ◌⊎◌, Some, None, MatchResult, drop, ok_or};
ghost use Rattle.quic_lines.specs.Named.{side_named, bytes_named};
ghost use Rattle.quic_lines.specs.Language.{number_named, first, words_left, Reads, words as words_of};
ghost use Rattle.quic_peer_core.specs.Language.{id_named, five, new_end as new_end_of, command_said, words_said, said, command_of};

use bytes::Bytes;
use quic_connection::{Address, Call, Injection, Instant};
use quic_lines::{LineError, LineWords, MAX_LINE, Setting, call_of, is_skipped, side};
use quic_wire_core::{ConnectionId, MAX_CID_SIZE, Side};
use std::alloc::Global;
use std::str;

/// One line.
#[derive(Debug, Drop)]
pub enum Line {
    /// An empty line or a comment: nothing is done.
    Empty,
    /// An option of the end is set.
    Set(Setting),
    /// The end's own transport parameters are told.
    Params,
    /// The end is made.
    New(NewEnd),
    /// Datagrams come from this address from now on.
    From(Address),
    /// A datagram came.
    Receive(Injection),
    /// It is told how many bytes may be in flight.
    Window,
    /// It is told what was counted of the end.
    Stats,
    /// A call of the end.
    Call(Call),
}

/// What an end is made from, beside its options.
#[derive(Debug, Drop)]
pub struct NewEnd {
    /// Which end it is.
    pub side: Side,
    /// Its first id.
    pub id: ConnectionId,
    /// The peer's first id.
    pub peer_id: ConnectionId,
    /// The moment at which it is made.
    pub now: Instant,
    /// The peer's transport parameters, as the peer wrote them.
    pub parameters: Bytes,
}

/// The end that the next word names.
fn end(words: &mut LineWords) -> Result<Side, LineError>
    ensures answer { result ≡ ok_or (first side_named (words_left words.old.rest)) LineError.BadCommand }
    ensures rest { words_left words.new.rest ≡ drop 1 (words_left words.old.rest) }
{
    side(words.next()?).ok_or(LineError::BadCommand)
}

/// The id that the next word names: at most 20 bytes.
fn id(alloc: Global, words: &mut LineWords) -> Result<ConnectionId, LineError>
    ensures answer { MatchResult result
        (λ id. first id_named (words_left words.old.rest) ≡ Some id)
        (λ e. (e ≡ LineError.OutOfMemory) ⊎ ((e ≡ LineError.BadCommand) × (first id_named (words_left words.old.rest) ≡ None))) }
    ensures rest { words_left words.new.rest ≡ drop 1 (words_left words.old.rest) }
{
    let bytes = words.bytes(alloc)?;
    if bytes.len() > MAX_CID_SIZE {
        return Err(LineError::BadCommand);
    }
    Ok(ConnectionId::new(&bytes))
}

/// What an end is made from: which one it is, both ids, a moment and the peer's parameters.
fn new_end(alloc: Global, words: &mut LineWords) -> Result<NewEnd, LineError>
    ensures { Reads result (λ new. new) (five new_end_of side_named id_named id_named number_named bytes_named (words_left words.old.rest)) (words_left words.new.rest) }
{
    Ok(NewEnd {
        side: end(words)?,
        id: id(alloc, words)?,
        peer_id: id(alloc, words)?,
        now: words.moment()?,
        parameters: words.bytes(alloc)?,
    })
}

/// What the words behind this name ask for. The calls of scripts that reach for what the other end
/// gave, `deliver` and `inject`, aren't among them.
fn command(alloc: Global, name: &str, words: &mut LineWords) -> Result<Line, LineError>
    ensures { Reads result command_of (command_said name.now (words_left words.old.rest)) (words_left words.new.rest) }
{
    match name {
        "set" => Ok(Line::Set(words.setting()?)),
        "params" => Ok(Line::Params),
        "new" => Ok(Line::New(new_end(alloc, words)?)),
        "from" => Ok(Line::From(words.address()?)),
        "receive" => Ok(Line::Receive(words.injection(alloc)?)),
        "window" => Ok(Line::Window),
        "stats" => Ok(Line::Stats),
        "deliver" | "inject" => Err(LineError::BadCommand),
        _ => Ok(Line::Call(call_of(alloc, name, words)?)),
    }
}

/// What a line's words ask for.
fn parse_words(alloc: Global, words: &mut LineWords) -> Result<Line, LineError>
    ensures { Reads result command_of (words_said (words_left words.old.rest)) (words_left words.new.rest) }
{
    let name = words.next()?;
    command(alloc, name, words)
}

/// What a line's text asks for: nothing stands behind the words that are read.
fn parse_text(alloc: Global, text: &str) -> Result<Line, LineError>
    ensures { MatchResult result
        (λ command. words_said (words_of text.now) ≡ Some (command_of command))
        (λ e. (e ≡ LineError.OutOfMemory) ⊎ ((e ≡ LineError.BadCommand) × (words_said (words_of text.now) ≡ None))) }
{
    let mut words = LineWords { rest: Some(text) };
    let parsed = parse_words(alloc, &mut words)?;
    match words.rest {
        None => Ok(parsed),
        Some(_) => Err(LineError::BadCommand),
    }
}

/// Reads one line, which has no line break.
///
/// # Errors
///
/// - [`LineError::BadCommand`]: the line isn't in the language, or is too long.
/// - [`LineError::OutOfMemory`]: an allocation fails.
pub fn parse_line(alloc: Global, line: &[u8]) -> Result<Line, LineError>
    ensures { MatchResult result
        (λ command. said line.now ≡ Some (command_of command))
        (λ e. (e ≡ LineError.OutOfMemory) ⊎ ((e ≡ LineError.BadCommand) × (said line.now ≡ None))) }
{
    if line.len() > MAX_LINE {
        return Err(LineError::BadCommand);
    }
    if is_skipped(line) {
        return Ok(Line::Empty);
    }
    match str::from_utf8(line) {
        Ok(text) => parse_text(alloc, text),
        Err(_) => Err(LineError::BadCommand),
    }
}
