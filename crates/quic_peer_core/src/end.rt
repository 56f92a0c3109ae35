//! An end, and what is printed of what it answers.
ghost use Rattle.std.specs.Prelude.{◌≡◌, ◌≢◌, ◌++◌, IfOk, IfErr, OnOk, MatchResult, Some, None, codes, string_bytes};
ghost use Rattle.quic_lines.specs.Language.{asked_of};
ghost use Rattle.quic_peer_core.specs.Printed.{refusal_text, datagram_text, close_text, peer_close_text, told_text, parameters_text, line_text};
ghost use Rattle.quic_peer_core.specs.Peer.{refusal, IsNew, IsCall, Receives};

use crate::command::NewEnd;
use quic_connection::{
    Address, Answer, Call, Close, ConfigError, Connection, Datagram, Event, Injection, LostReason,
    NewReno, PeerClose, Transmit, VarInt, call_at,
};
use quic_keys::{PlainHeaderKey, PlainKey, Words};
use quic_lines::{
    LineError, Options, call_name, mark_name, put_address, put_answer, put_bytes, put_received,
};
use quic_parameters::TransportParameters;
use std::alloc::{AllocError, Global};

/// An end with stand-in keys.
pub(crate) type End = Connection<PlainHeaderKey, PlainKey, Words, NewReno>;

/// An end with these options, on the heap. An error is a refusal, or want of memory.
pub(crate) fn make_end(
    alloc: Global,
    options: &Options,
    new: &NewEnd,
) -> Result<Box<End>, ConfigError>
    ensures made { IfOk result (λ made. IsNew options.now new.entry.now made.value) }
    ensures lawful { OnOk result (refusal options.now new.entry.now ≡ None) }
    ensures refusal { IfErr result (λ e. e ≢ ConfigError.Memory → refusal options.now new.entry.now ≡ Some e) }
{
    let end = Connection::new(
        alloc,
        new.side,
        &options.config(),
        &new.parameters,
        new.id,
        new.peer_id,
        Address(0),
        options.keys(new.side),
        new.now,
        Words::of(options.source),
        options.validated,
    )?;
    boxed(alloc, end)
}

/// An end on the heap.
fn boxed(alloc: Global, end: End) -> Result<Box<End>, ConfigError>
    ensures boxed { IfOk result (λ b. b.value ≡ end) }
    ensures memory { IfErr result (λ e. e ≡ ConfigError.Memory) }
{
    match Box::new(alloc, end) {
        Ok(end) => Ok(end),
        Err(_) => Err(ConfigError::Memory),
    }
}

/// How it is printed why an end isn't made. Want of memory isn't printed.
pub(crate) fn refusal_name(error: ConfigError) -> Result<&'static str, LineError>
    ensures { MatchResult result
        (λ name. refusal_text error ≡ Some name.now)
        (λ e. (e ≡ LineError.OutOfMemory) × (refusal_text error ≡ None)) }
{
    match error {
        ConfigError::Parameters => Ok("parameters"),
        ConfigError::IdLength => Ok("idlength"),
        ConfigError::Size => Ok("size"),
        ConfigError::Window => Ok("window"),
        ConfigError::KeyLimit => Ok("keylimit"),
        ConfigError::FirstSample => Ok("firstsample"),
        ConfigError::Memory => Err(LineError::OutOfMemory),
    }
}

/// The line that tells the transport parameters of an end with these options.
pub(crate) fn tell_params(alloc: Global, options: &Options) -> Result<String, AllocError>
    ensures { IfOk result (λ text. string_bytes text ≡ line_text (codes "params") (parameters_text options.now)) }
{
    let parameters = options
        .config()
        .write_parameters(alloc, &TransportParameters::ORDER)?;
    let mut out = String::from_str(alloc, "params ")?;
    put_bytes(alloc, &mut out, &parameters)?;
    out.push_str("\n")?;
    Ok(out)
}

/// Hands a datagram in that came from this address, and gives the line that tells what comes of it.
/// An error is want of memory.
pub(crate) fn take(
    alloc: Global,
    end: &mut End,
    remote: Address,
    datagram: &Injection,
) -> Result<String, AllocError>
    ensures { IfOk result (λ text. Receives remote datagram.entry.now.now datagram.entry.now.ecn datagram.entry.now.bytes end.old
        (string_bytes text)
        end.new) }
{
    let mut bytes = Vec::from_slice(alloc, datagram.bytes.as_slice())?;
    let received = end.receive(datagram.now, remote, datagram.ecn, &mut bytes);
    let mut out = String::from_str(alloc, "receive ")?;
    put_received(&mut out, &received)?;
    out.push_str("\n")?;
    Ok(out)
}

/// Makes a call, and gives the line that tells its answer. An error is want of memory.
pub(crate) fn ask(alloc: Global, end: &mut End, call: &Call) -> Result<String, AllocError>
    ensures { IfOk result (λ text. IsCall (asked_of call.now) end.old (string_bytes text) end.new) }
{
    let mut given = Vec::new(alloc);
    let answer = call_at(alloc, end, &mut given, call)?;
    let name = call_name(call);
    let mut out = format!(in alloc; "{name} ")?;
    put_told(alloc, &mut out, &answer, &given)?;
    out.push_str("\n")?;
    Ok(out)
}

/// Appends an answer: of a poll that gave a datagram its mark, its bytes and its address, and of an
/// event by which the peer closed all that it said.
fn put_told(
    alloc: Global,
    out: &mut String,
    answer: &Answer,
    given: &[Datagram],
) -> Result<(), AllocError>
    ensures { OnOk result (string_bytes out.new ≡ string_bytes out.old ++ told_text given.now answer.now) }
{
    match (answer, given) {
        (Answer::Poll(Ok(Some(transmit))), [datagram, ..]) => {
            put_datagram(alloc, out, transmit, datagram)
        }
        (Answer::Event(Some(Event::Lost(LostReason::Peer(close)))), _) => {
            put_peer_close(alloc, out, close)
        }
        _ => put_answer(alloc, out, answer, 0),
    }
}

/// Appends that the peer closed the connection, and what it said.
fn put_peer_close(alloc: Global, out: &mut String, close: &PeerClose) -> Result<(), AllocError>
    ensures { OnOk result (string_bytes out.new ≡ string_bytes out.old ++ peer_close_text close.now) }
{
    match close.as_close() {
        Close::Connection(close) => {
            let code = VarInt::from(close.error_code);
            put_close(alloc, out, "transport", code, &close.reason)
        }
        Close::Application(close) => {
            put_close(alloc, out, "application", close.error_code, &close.reason)
        }
    }
}

/// Appends that the peer closed the connection by this kind of close, its code and its text.
fn put_close(
    alloc: Global,
    out: &mut String,
    kind: &str,
    code: VarInt,
    reason: &[u8],
) -> Result<(), AllocError>
    ensures { OnOk result (string_bytes out.new ≡ string_bytes out.old ++ close_text kind.now code reason.now) }
{
    let code = code.into_inner();
    write!(out, "lost peer {kind} {code} ")?;
    put_bytes(alloc, out, reason)
}

/// Appends the mark and the bytes of a datagram, and the address to which it goes, where that isn't
/// 0.
fn put_datagram(
    alloc: Global,
    out: &mut String,
    transmit: &Transmit,
    datagram: &Datagram,
) -> Result<(), AllocError>
    ensures { OnOk result (string_bytes out.new ≡ string_bytes out.old ++ datagram_text transmit.now datagram.now) }
{
    let mark = mark_name(transmit.ecn);
    write!(out, "{mark} ")?;
    put_bytes(alloc, out, datagram.as_slice())?;
    put_address(out, transmit.remote)
}
