//! Answers as numbers.
ghost use Rattle.std.specs.Prelude.{◌≡◌};
ghost use Rattle.quic_c.specs.Says.{small_number, counted_answer, done_answer, switch_number};

use quic_c_core::{CallError, Piece};

/// The answer of a call that gives a number: the number, or that of the error.
pub(crate) fn counted(answer: Result<u64, CallError>) -> i64
    ensures { result ≡ counted_answer answer }
{
    match answer {
        Ok(count) => i64::try_from(count).unwrap_or(i64::MAX),
        Err(error) => error.code() as i64,
    }
}

/// The answer of a call that gives a length.
pub(crate) fn measured(answer: Result<usize, CallError>) -> i64
    ensures { result ≡ counted_answer answer }
{
    match answer {
        Ok(length) => counted(Ok(length as u64)),
        Err(error) => error.code() as i64,
    }
}

/// The answer of a call that gives nothing.
pub(crate) fn done(answer: Result<(), CallError>) -> i32
    ensures { result ≡ done_answer answer }
{
    match answer {
        Ok(()) => 0,
        Err(error) => error.code(),
    }
}

/// The number of what is so or isn't.
pub(crate) fn switched(on: bool) -> i32
    ensures { result ≡ switch_number on }
{
    if on { 1 } else { 0 }
}

/// A number of few digits.
pub(crate) fn small(number: u32) -> i32
    ensures { result ≡ small_number number }
{
    i32::try_from(number).unwrap_or(i32::MAX)
}

/// Tells the code that the peer gave with an error, if it did.
fn tell_code<T>(answer: &Result<T, CallError>, error_code: &mut u64) {
    if let Err(error) = answer
        && let Some(code) = error.peer_code()
    {
        *error_code = code.into_inner();
    }
}

/// The answer of a write, with the code that came from the peer.
pub(crate) fn written(answer: Result<usize, CallError>, error_code: &mut u64) -> i64
    ensures { result ≡ counted_answer answer }
{
    tell_code(&answer, error_code);
    measured(answer)
}

/// The answer of a call that gives nothing, with the code that came from the peer.
pub(crate) fn ended(answer: Result<(), CallError>, error_code: &mut u64) -> i32
    ensures { result ≡ done_answer answer }
{
    tell_code(&answer, error_code);
    done(answer)
}

/// The answer of a read: where its bytes stand, and whether the stream ends behind them.
pub(crate) fn read(
    answer: Result<Piece, CallError>,
    offset: &mut u64,
    fin: &mut u32,
    error_code: &mut u64,
) -> i64 {
    tell_code(&answer, error_code);
    if let Ok(piece) = &answer {
        *offset = piece.offset;
        *fin = if piece.fin { 1 } else { 0 };
    }
    measured(answer.map(|piece| piece.len))
}
