//! The language of scripts: a line is a call at one end, or both settle.
ghost use Rattle.std.specs.Prelude.{◌≡◌, ◌<◌, ◌≤◌, ◌^◌, ◌⊎◌, ◌∷◌, [], Some, None, Ok, Err, MatchResult, true, length, drop, ok_or};
ghost use Rattle.std.specs.Char.{is_ascii_uppercase};
ghost use Rattle.std.specs.List.{list_any};
ghost use Rattle.std.specs.Option.{SomeIff};
ghost use Rattle.std.specs.Str.Parse.{IsNumeral, digits_value};
ghost use Rattle.quic_lines.specs.Refusals.{line_error, script_error};
ghost use Rattle.quic_lines.specs.Named.{side_named, dir_named, mark_named, timer_named, bytes_named};
ghost use Rattle.quic_lines.specs.Language.{number_named, varint_named, switch_in, priority_named, first, two, three, reading, resets, stops, closes, delivers, injects, words_left, setting_with, setting_said, settings_said, call_named, asked_by, call_said, from_address, command_said, end_said, words_said, is_skipped, said, command_of, asked_of, asked_read, Reads, words as words_of};

use crate::error::ScriptError;
use bytes::Bytes;
use hex::FromHexError;
use quic_machine::{
    Address, Call, CloseCall, ConfigError, Delivery, Injection, ReadCall, RunEvent,
};
use quic_time::{Instant, Timer};
use quic_wire_core::{Dir, EcnCodepoint, Side, StreamId, VarInt};
use std::alloc::{AllocError, Global};
use std::str;

/// The most bytes of a line.
pub const MAX_LINE: usize = 1 << 20;

/// One line of a script.
#[derive(Debug, Drop)]
pub enum Line {
    /// An empty line or a comment: nothing is done.
    Empty,
    /// An option of an end is set.
    Set(Side, Setting),
    /// A call of an end.
    Call(RunEvent),
    /// The datagram of this index that the end gave out is shown.
    Show(Side, usize),
    /// What comes to an end from now on comes from this address.
    From(Side, Address),
    /// Both ends talk from this moment on until they rest.
    Settle(Instant),
}

/// An option of an end.
#[derive(Clone, Copy, Debug)]
pub enum Setting {
    /// How many bytes the peer may send on all streams before any is read.
    ReceiveWindow(VarInt),
    /// How many bytes the peer may send on one stream before any is read.
    StreamWindow(VarInt),
    /// How many bytes may be written that the peer hasn't acknowledged.
    SendWindow(u64),
    /// How many two-way streams the peer may have open at a time. It is cut to 2^60.
    Bidi(VarInt),
    /// How many one-way streams the peer may have open at a time. It is cut to 2^60.
    Uni(VarInt),
    /// How many milliseconds the connection may be without a packet: 0 is without end.
    Idle(VarInt),
    /// How many bytes of messages are kept unread: 0 where the end takes none.
    Messages(usize),
    /// Whether a greater size of datagrams is looked for.
    Search(bool),
    /// How many packets the end's key may seal.
    SealLimit(u64),
    /// How many packets the peer's key may fail to open at the end.
    OpenLimit(u64),
    /// Whether the peer's address is validated from the start.
    Validated(bool),
    /// The random word that the end is given each time.
    Word(u64),
    /// The seed of the generator whose words the end is given.
    Pcg(u64),
}

/// Which call a line is of, by its name.
#[derive(Clone, Copy)]
enum CallName {
    Open,
    Accept,
    Write,
    Finish,
    Reset,
    Priority,
    Read,
    Pick,
    Stop,
    Send,
    Recv,
    Ping,
    Close,
    UseNextId,
    HandshakeDone,
    Poll,
    Timeout,
    Deliver,
    Inject,
    Event,
    Timer,
    Next,
    State,
}

/// Why a line can't be run.
#[derive(Clone, Copy, Debug, PartialEq, Eq)]
pub enum LineError {
    /// It isn't in the language.
    BadCommand,
    /// Out of memory: an allocation failed.
    OutOfMemory,
}

impl LineError {
    /// How lines end where the one of this number, counted from 1, can't be run for this reason.
    pub fn at(self, number: u64) -> ScriptError
        ensures { result ≡ script_error number self }
    {
        match self {
            LineError::BadCommand => ScriptError::BadCommand(number),
            LineError::OutOfMemory => ScriptError::OutOfMemory,
        }
    }
}

impl From<AllocError> for LineError {
    ghost use Rattle.quic_lines.specs.declared.script.LineError.TheVariants.{OutOfMemory};

    ghost from_gives = { λ _ e. e ≡ OutOfMemory };

    fn from(_e: AllocError) -> LineError {
        LineError::OutOfMemory
    }
}

/// Ends that can't be made are a bad command, but for want of memory.
impl From<ConfigError> for LineError {
    ghost from_gives = { λ error e. e ≡ line_error error };

    fn from(error: ConfigError) -> LineError {
        match error {
            ConfigError::Memory => LineError::OutOfMemory,
            ConfigError::Parameters
            | ConfigError::IdLength
            | ConfigError::Size
            | ConfigError::Window
            | ConfigError::KeyLimit
            | ConfigError::FirstSample => { LineError::BadCommand }
        }
    }
}

/// The words of a line that are still to be read, with one space between two.
#[derive(Drop)]
pub struct LineWords<'a> {
    /// The text that is left, if any is.
    pub rest: Option<&'a str>,
}

impl<'a> LineWords<'a> {
    /// The next word.
    ///
    /// # Errors
    ///
    /// - [`LineError::BadCommand`]: no word is left. Nothing changes.
    pub fn next(&mut self) -> Result<&'a str, LineError>
        ensures word { MatchResult result (λ w. words_left self.old.rest ≡ w.now ∷ words_left self.new.rest) (λ e. (e ≡ LineError.BadCommand) × (words_left self.old.rest ≡ [])) }
        ensures rest { words_left self.new.rest ≡ drop 1 (words_left self.old.rest) }
    {
        let Some(text) = self.rest else {
            return Err(LineError::BadCommand);
        };
        match text.split_once(' ') {
            Some((word, rest)) => {
                self.rest = Some(rest);
                Ok(word)
            }
            None => {
                self.rest = None;
                Ok(text)
            }
        }
    }

    fn number(&mut self) -> Result<u64, LineError>
        ensures answer { result ≡ ok_or (first number_named (words_left self.old.rest)) LineError.BadCommand }
        ensures rest { words_left self.new.rest ≡ drop 1 (words_left self.old.rest) }
    {
        number(self.next()?).ok_or(LineError::BadCommand)
    }

    fn varint(&mut self) -> Result<VarInt, LineError>
        ensures answer { result ≡ ok_or (first varint_named (words_left self.old.rest)) LineError.BadCommand }
        ensures rest { words_left self.new.rest ≡ drop 1 (words_left self.old.rest) }
    {
        VarInt::from_u64(self.number()?).map_err(|_| LineError::BadCommand)
    }

    fn priority(&mut self) -> Result<i32, LineError>
        ensures answer { result ≡ ok_or (first priority_named (words_left self.old.rest)) LineError.BadCommand }
        ensures rest { words_left self.new.rest ≡ drop 1 (words_left self.old.rest) }
    {
        i32::try_from(self.number()?).map_err(|_| LineError::BadCommand)
    }

    fn stream_id(&mut self) -> Result<StreamId, LineError>
        ensures answer { result ≡ ok_or (first varint_named (words_left self.old.rest)) LineError.BadCommand }
        ensures rest { words_left self.new.rest ≡ drop 1 (words_left self.old.rest) }
    {
        Ok(StreamId::from(self.varint()?))
    }

    /// The moment that the next word names, in nanoseconds.
    ///
    /// # Errors
    ///
    /// - [`LineError::BadCommand`]: no word is left, or it is no number below 2^64.
    pub fn moment(&mut self) -> Result<Instant, LineError>
        ensures answer { result ≡ ok_or (first number_named (words_left self.old.rest)) LineError.BadCommand }
        ensures rest { words_left self.new.rest ≡ drop 1 (words_left self.old.rest) }
    {
        Ok(Instant::from_nanos(self.number()?))
    }

    /// The address that the next word names.
    ///
    /// # Errors
    ///
    /// - [`LineError::BadCommand`]: no word is left, or it is no number below 2^64.
    pub fn address(&mut self) -> Result<Address, LineError>
        ensures answer { result ≡ ok_or (first number_named (words_left self.old.rest)) LineError.BadCommand }
        ensures rest { words_left self.new.rest ≡ drop 1 (words_left self.old.rest) }
    {
        Ok(Address(self.number()?))
    }

    fn index(&mut self) -> Result<usize, LineError>
        ensures answer { result ≡ ok_or (first number_named (words_left self.old.rest)) LineError.BadCommand }
        ensures rest { words_left self.new.rest ≡ drop 1 (words_left self.old.rest) }
    {
        Ok(self.number()? as usize)
    }

    fn dir(&mut self) -> Result<Dir, LineError>
        ensures answer { result ≡ ok_or (first dir_named (words_left self.old.rest)) LineError.BadCommand }
        ensures rest { words_left self.new.rest ≡ drop 1 (words_left self.old.rest) }
    {
        dir(self.next()?).ok_or(LineError::BadCommand)
    }

    fn mark(&mut self) -> Result<Option<EcnCodepoint>, LineError>
        ensures answer { result ≡ ok_or (first mark_named (words_left self.old.rest)) LineError.BadCommand }
        ensures rest { words_left self.new.rest ≡ drop 1 (words_left self.old.rest) }
    {
        mark(self.next()?).ok_or(LineError::BadCommand)
    }

    fn timer(&mut self) -> Result<Timer, LineError>
        ensures answer { result ≡ ok_or (first timer_named (words_left self.old.rest)) LineError.BadCommand }
        ensures rest { words_left self.new.rest ≡ drop 1 (words_left self.old.rest) }
    {
        timer(self.next()?).ok_or(LineError::BadCommand)
    }

    /// The bytes that the next word names.
    ///
    /// # Errors
    ///
    /// - [`LineError::BadCommand`]: no word is left, or it names no bytes.
    /// - [`LineError::OutOfMemory`]: an allocation fails.
    pub fn bytes(&mut self, alloc: Global) -> Result<Bytes, LineError>
        ensures answer { MatchResult result
            (λ bytes. first bytes_named (words_left self.old.rest) ≡ Some bytes)
            (λ e. (e ≡ LineError.OutOfMemory) ⊎ ((e ≡ LineError.BadCommand) × (first bytes_named (words_left self.old.rest) ≡ None))) }
        ensures rest { words_left self.new.rest ≡ drop 1 (words_left self.old.rest) }
    {
        let bytes = bytes_of(alloc, self.next()?)?;
        Ok(Bytes::copy_from_slice(alloc, &bytes)?)
    }

    /// The option that the next word names, and the value behind it.
    ///
    /// # Errors
    ///
    /// - [`LineError::BadCommand`]: the words name no option and value of it.
    pub fn setting(&mut self) -> Result<Setting, LineError>
        ensures { Reads result (λ setting. setting) (settings_said (words_left self.old.rest)) (words_left self.new.rest) }
    {
        let name = self.next()?;
        setting_of(name, self)
    }

    fn read_call(&mut self, alloc: Global, ordered: bool) -> Result<ReadCall, LineError>
        ensures { Reads result (λ read. asked_read read.id read.ordered read.nexts.items read.finalize) (two (reading ordered) varint_named number_named (words_left self.old.rest)) (words_left self.new.rest) }
    {
        let id = self.stream_id()?;
        let max = self.index()?;
        Ok(ReadCall {
            id,
            ordered,
            nexts: Vec::from_slice(alloc, &[max])?,
            finalize: true,
        })
    }

    fn close_call(&mut self, alloc: Global) -> Result<CloseCall, LineError>
        ensures { Reads result (λ close. closes close.now close.error_code close.reason) (three closes number_named varint_named bytes_named (words_left self.old.rest)) (words_left self.new.rest) }
    {
        Ok(CloseCall {
            now: self.moment()?,
            error_code: self.varint()?,
            reason: self.bytes(alloc)?,
        })
    }

    fn delivery(&mut self) -> Result<Delivery, LineError>
        ensures { Reads result (λ delivery. delivers delivery.now delivery.ecn delivery.index) (three delivers number_named mark_named number_named (words_left self.old.rest)) (words_left self.new.rest) }
    {
        Ok(Delivery {
            now: self.moment()?,
            remote: Address(0),
            ecn: self.mark()?,
            index: self.index()?,
        })
    }

    /// A moment, a mark and bytes, which come from address 0.
    ///
    /// # Errors
    ///
    /// - [`LineError::BadCommand`]: the words don't name these.
    /// - [`LineError::OutOfMemory`]: an allocation fails.
    pub fn injection(&mut self, alloc: Global) -> Result<Injection, LineError>
        ensures { Reads result (λ injection. injects injection.now injection.ecn injection.bytes) (three injects number_named mark_named bytes_named (words_left self.old.rest)) (words_left self.new.rest) }
    {
        Ok(Injection {
            now: self.moment()?,
            remote: Address(0),
            ecn: self.mark()?,
            bytes: self.bytes(alloc)?,
        })
    }
}

/// A decimal number: digits alone, and at most the greatest 64-bit number.
fn number(word: &str) -> Option<u64>
    ensures numeral { SomeIff result (IsNumeral 10 word.now × (digits_value 10 word.now < 2 ^ 64)) (digits_value 10 word.now) }
    ensures value { result ≡ number_named word.now }
{
    match word.as_bytes() {
        [b'+', ..] => None,
        _ => word.parse().ok(),
    }
}

/// Whether something is on: 1, or 0 where it is off.
fn switch_of(number: u64) -> Option<bool>
    ensures { result ≡ switch_in (Some number) }
{
    match number {
        0 => Some(false),
        1 => Some(true),
        _ => None,
    }
}

/// An end: `c` for the client, `s` for the server.
pub fn side(word: &str) -> Option<Side>
    ensures { result ≡ side_named word.now }
{
    match word {
        "c" => Some(Side::Client),
        "s" => Some(Side::Server),
        _ => None,
    }
}

/// A kind of stream.
fn dir(word: &str) -> Option<Dir>
    ensures { result ≡ dir_named word.now }
{
    match word {
        "bi" => Some(Dir::Bi),
        "uni" => Some(Dir::Uni),
        _ => None,
    }
}

/// A mark of congestion, where `-` stands for none.
fn mark(word: &str) -> Option<Option<EcnCodepoint>>
    ensures { result ≡ mark_named word.now }
{
    match word {
        "-" => Some(None),
        "ect0" => Some(Some(EcnCodepoint::Ect0)),
        "ect1" => Some(Some(EcnCodepoint::Ect1)),
        "ce" => Some(Some(EcnCodepoint::Ce)),
        _ => None,
    }
}

/// A timer: its name in lower case, without a break between its words.
fn timer(word: &str) -> Option<Timer>
    ensures { result ≡ timer_named word.now }
{
    match word {
        "lossdetection" => Some(Timer::LossDetection),
        "idle" => Some(Timer::Idle),
        "close" => Some(Timer::Close),
        "keydiscard" => Some(Timer::KeyDiscard),
        "pathvalidation" => Some(Timer::PathValidation),
        "keepalive" => Some(Timer::KeepAlive),
        "pacing" => Some(Timer::Pacing),
        "pushnewcid" => Some(Timer::PushNewCid),
        "maxackdelay" => Some(Timer::MaxAckDelay),
        _ => None,
    }
}

/// Whether some byte is an upper-case letter.
fn has_uppercase(word: &[u8]) -> bool
    ensures { result ≡ list_any is_ascii_uppercase word.now }
{
    word.iter().any(|b| b.is_ascii_uppercase())
}

/// Bytes in lower-case hexadecimal, where `-` stands for none.
fn bytes_of(alloc: Global, word: &str) -> Result<Vec<u8>, LineError>
    ensures { MatchResult result
        (λ v. bytes_named word.now ≡ Some v.items)
        (λ e. (e ≡ LineError.OutOfMemory) ⊎ ((e ≡ LineError.BadCommand) × (bytes_named word.now ≡ None))) }
{
    if word == "-" {
        return Ok(Vec::new(alloc));
    }
    if word.is_empty() || has_uppercase(word.as_bytes()) {
        return Err(LineError::BadCommand);
    }
    match hex::decode(alloc, word) {
        Ok(bytes) => Ok(bytes),
        Err(FromHexError::OutOfMemory) => Err(LineError::OutOfMemory),
        Err(_) => Err(LineError::BadCommand),
    }
}

/// The option of this name, set to what the next word names.
fn setting_of(name: &str, words: &mut LineWords) -> Result<Setting, LineError>
    ensures { Reads result (λ setting. setting) (setting_said name.now (words_left words.old.rest)) (words_left words.new.rest) }
{
    let value = words.number()?;
    setting_with(name, value).ok_or(LineError::BadCommand)
}

/// The option of this name, set to this number.
fn setting_with(name: &str, value: u64) -> Option<Setting>
    ensures { result ≡ setting_with name.now value }
{
    match name {
        "receive_window" => VarInt::from_u64(value).ok().map(Setting::ReceiveWindow),
        "stream_window" => VarInt::from_u64(value).ok().map(Setting::StreamWindow),
        "send_window" => Some(Setting::SendWindow(value)),
        "bidi" => VarInt::from_u64(value).ok().map(Setting::Bidi),
        "uni" => VarInt::from_u64(value).ok().map(Setting::Uni),
        "idle" => VarInt::from_u64(value).ok().map(Setting::Idle),
        "messages" => Some(Setting::Messages(value as usize)),
        "search" => switch_of(value).map(Setting::Search),
        "seal_limit" => Some(Setting::SealLimit(value)),
        "open_limit" => Some(Setting::OpenLimit(value)),
        "validated" => switch_of(value).map(Setting::Validated),
        "word" => Some(Setting::Word(value)),
        "pcg" => Some(Setting::Pcg(value)),
        _ => None,
    }
}

/// Which call has this name.
fn call_named(name: &str) -> Option<CallName>
    ensures { result ≡ call_named name.now }
{
    match name {
        "open" => Some(CallName::Open),
        "accept" => Some(CallName::Accept),
        "write" => Some(CallName::Write),
        "finish" => Some(CallName::Finish),
        "reset" => Some(CallName::Reset),
        "priority" => Some(CallName::Priority),
        "read" => Some(CallName::Read),
        "pick" => Some(CallName::Pick),
        "stop" => Some(CallName::Stop),
        "send" => Some(CallName::Send),
        "recv" => Some(CallName::Recv),
        "ping" => Some(CallName::Ping),
        "close" => Some(CallName::Close),
        "use_next_id" => Some(CallName::UseNextId),
        "handshake_done" => Some(CallName::HandshakeDone),
        "poll" => Some(CallName::Poll),
        "timeout" => Some(CallName::Timeout),
        "deliver" => Some(CallName::Deliver),
        "inject" => Some(CallName::Inject),
        "event" => Some(CallName::Event),
        "timer" => Some(CallName::Timer),
        "next" => Some(CallName::Next),
        "state" => Some(CallName::State),
        _ => None,
    }
}

/// The call of this name, with what the words behind it name.
fn call_by(alloc: Global, name: CallName, words: &mut LineWords) -> Result<Call, LineError>
    ensures { Reads result asked_of (asked_by name (words_left words.old.rest)) (words_left words.new.rest) }
{
    match name {
        CallName::Open => words.dir().map(Call::Open),
        CallName::Accept => words.dir().map(Call::Accept),
        CallName::Write => Ok(Call::Write(words.stream_id()?, words.bytes(alloc)?)),
        CallName::Finish => words.stream_id().map(Call::Finish),
        CallName::Reset => Ok(Call::Reset(words.stream_id()?, words.varint()?)),
        CallName::Priority => Ok(Call::SetPriority(words.stream_id()?, words.priority()?)),
        CallName::Read => words.read_call(alloc, true).map(Call::Read),
        CallName::Pick => words.read_call(alloc, false).map(Call::Read),
        CallName::Stop => Ok(Call::Stop(words.stream_id()?, words.varint()?)),
        CallName::Send => Ok(Call::Send(words.bytes(alloc)?, false)),
        CallName::Recv => Ok(Call::Recv),
        CallName::Ping => Ok(Call::Ping),
        CallName::Close => words.close_call(alloc).map(Call::Close),
        CallName::UseNextId => Ok(Call::UseNextId),
        CallName::HandshakeDone => Ok(Call::HandshakeDone),
        CallName::Poll => words.moment().map(Call::Poll),
        CallName::Timeout => words.moment().map(Call::Timeout),
        CallName::Deliver => words.delivery().map(Call::Deliver),
        CallName::Inject => words.injection(alloc).map(Call::Inject),
        CallName::Event => Ok(Call::Event),
        CallName::Timer => Ok(Call::Timer(words.timer()?)),
        CallName::Next => Ok(Call::NextTimeout),
        CallName::State => Ok(Call::State),
    }
}

/// The call that these words name.
///
/// # Errors
///
/// - [`LineError::BadCommand`]: the words name no call.
/// - [`LineError::OutOfMemory`]: an allocation fails.
pub fn call_of(alloc: Global, name: &str, words: &mut LineWords) -> Result<Call, LineError>
    ensures { Reads result asked_of (call_said name.now (words_left words.old.rest)) (words_left words.new.rest) }
{
    match call_named(name) {
        Some(name) => call_by(alloc, name, words),
        None => Err(LineError::BadCommand),
    }
}

/// What comes to an end by this call comes from this address.
pub fn from_address(call: &mut Call, remote: Address)
    ensures { call.new ≡ from_address remote call.old }
{
    match call {
        Call::Deliver(delivery) => delivery.remote = remote,
        Call::Inject(injection) => injection.remote = remote,
        _ => {}
    }
}

/// What the words behind this name ask of an end.
fn command(alloc: Global, side: Side, name: &str, words: &mut LineWords) -> Result<Line, LineError>
    ensures { Reads result command_of (command_said side name.now (words_left words.old.rest)) (words_left words.new.rest) }
{
    match name {
        "set" => Ok(Line::Set(side, words.setting()?)),
        "show" => Ok(Line::Show(side, words.index()?)),
        "from" => Ok(Line::From(side, words.address()?)),
        _ => Ok(Line::Call(RunEvent {
            side,
            call: call_of(alloc, name, words)?,
        })),
    }
}

/// What the words behind this name of an end ask for.
fn parse_end(alloc: Global, end: &str, words: &mut LineWords) -> Result<Line, LineError>
    ensures { Reads result command_of (end_said (side_named end.now) (words_left words.old.rest)) (words_left words.new.rest) }
{
    let side = side(end).ok_or(LineError::BadCommand)?;
    let name = words.next()?;
    command(alloc, side, name, words)
}

/// What a line's words ask for.
fn parse_words(alloc: Global, words: &mut LineWords) -> Result<Line, LineError>
    ensures { Reads result command_of (words_said (words_left words.old.rest)) (words_left words.new.rest) }
{
    match words.next()? {
        "settle" => Ok(Line::Settle(words.moment()?)),
        end => parse_end(alloc, end, words),
    }
}

/// What a line's text asks for: nothing stands behind the words that are read.
fn parse_text(alloc: Global, text: &str) -> Result<Line, LineError>
    ensures { MatchResult result
        (λ command. words_said (words_of text.now) ≡ Some (command_of command))
        (λ e. (e ≡ LineError.OutOfMemory) ⊎ ((e ≡ LineError.BadCommand) × (words_said (words_of text.now) ≡ None))) }
{
    let mut words = LineWords { rest: Some(text) };
    let parsed = parse_words(alloc, &mut words)?;
    match words.rest {
        None => Ok(parsed),
        Some(_) => Err(LineError::BadCommand),
    }
}

/// Whether a line is empty or a comment.
pub fn is_skipped(line: &[u8]) -> bool
    ensures { result ≡ is_skipped line.now }
{
    line.is_empty() || line[0] == b'#'
}

/// Reads one line, which has no line break.
///
/// # Errors
///
/// - [`LineError::BadCommand`]: the line isn't in the language, or is too long.
/// - [`LineError::OutOfMemory`]: an allocation fails.
pub fn parse_line(alloc: Global, line: &[u8]) -> Result<Line, LineError>
    ensures too_long { MAX_LINE < length line.now → result ≡ Err LineError.BadCommand }
    ensures skipped { length line.now ≤ MAX_LINE → is_skipped line.now ≡ true → result ≡ Ok Line.Empty }
    ensures meaning { MatchResult result
        (λ command. said line.now ≡ Some (command_of command))
        (λ e. (e ≡ LineError.OutOfMemory) ⊎ ((e ≡ LineError.BadCommand) × (said line.now ≡ None))) }
{
    if line.len() > MAX_LINE {
        return Err(LineError::BadCommand);
    }
    if is_skipped(line) {
        return Ok(Line::Empty);
    }
    match str::from_utf8(line) {
        Ok(text) => parse_text(alloc, text),
        Err(_) => Err(LineError::BadCommand),
    }
}
