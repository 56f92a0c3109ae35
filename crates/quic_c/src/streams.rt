//! Streams.
ghost use Rattle.std.specs.Prelude.{◌≡◌, ◌≢◌, ◌≤◌, ◌<◌, ◌^◌, None, IfSome, length, ok_or};
ghost use Rattle.quic_streams_state.specs.Opening.{open_answer, after_open, accept_answer, after_accept};
ghost use Rattle.quic_streams_state.specs.Writing.{write_answer, finish_answer, after_finish, reset_answer, after_reset, set_priority_answer, after_set_priority};
ghost use Rattle.quic_streams_state.specs.Reading.{stop_answer, after_stop};
ghost use Rattle.quic_c_core.specs.Answers.{error_number, dir_numbered, named, of_write, of_finish, of_update};
ghost use Rattle.quic_c_core.specs.Conn.{with_streams_at, opened};
ghost use Rattle.quic_c.specs.Says.{counted_answer, done_answer};

use crate::answers::{counted, done, ended, read, written};
use crate::held::Held;
use quic_c_core::{CallError, Calls};

/// `fh_open`.
#[unsafe(no_mangle)]
pub extern "C" fn quic_c_open(conn: &mut Held, dir: u32) -> i64
    ensures invalid { dir_numbered dir ≡ None → (result ≡ error_number CallError.Invalid) × (conn.new.value ≡ conn.old.value) }
    ensures answer { IfSome (dir_numbered dir) (λ d. result ≡ counted_answer (ok_or (open_answer (opened conn.old.value.conn) d conn.old.value.conn.end.streams) CallError.Blocked)) }
    ensures conn { IfSome (dir_numbered dir) (λ d. conn.new.value.conn ≡ with_streams_at conn.old.value.conn (after_open (opened conn.old.value.conn) d conn.old.value.conn.end.streams) conn.old.value.conn.end.waiting.frames) }
{
    counted(conn.as_mut().open(dir))
}

/// `fh_accept`.
#[unsafe(no_mangle)]
pub extern "C" fn quic_c_accept(conn: &mut Held, dir: u32) -> i64
    ensures invalid { dir_numbered dir ≡ None → (result ≡ error_number CallError.Invalid) × (conn.new.value ≡ conn.old.value) }
    ensures answer { IfSome (dir_numbered dir) (λ d. result ≡ counted_answer (ok_or (accept_answer d conn.old.value.conn.end.streams) CallError.Absent)) }
    ensures conn { IfSome (dir_numbered dir) (λ d. conn.new.value.conn ≡ with_streams_at conn.old.value.conn (after_accept d conn.old.value.conn.end.streams) conn.old.value.conn.end.waiting.frames) }
{
    counted(conn.as_mut().accept(dir))
}

/// `fh_write`; `fh_writev` for each of its buffers.
#[unsafe(no_mangle)]
pub extern "C" fn quic_c_write(
    conn: &mut Held,
    stream: u64,
    bytes: &[u8],
    error_code: &mut u64,
) -> i64
    ensures invalid { 2 ^ 62 ≤ stream → (result ≡ error_number CallError.Invalid) × (conn.new.value ≡ conn.old.value) }
    ensures answer { stream < 2 ^ 62 → result ≢ error_number CallError.Memory → result ≡ counted_answer (named of_write (write_answer (opened conn.old.value.conn) conn.old.value.conn.end.streams stream (length bytes.now))) }
{
    written(conn.as_mut().write(stream, bytes), error_code)
}

/// `fh_finish`.
#[unsafe(no_mangle)]
pub extern "C" fn quic_c_finish(conn: &mut Held, stream: u64, error_code: &mut u64) -> i32
    ensures invalid { 2 ^ 62 ≤ stream → (result ≡ error_number CallError.Invalid) × (conn.new.value ≡ conn.old.value) }
    ensures answer { stream < 2 ^ 62 → result ≢ error_number CallError.Memory → result ≡ done_answer (named of_finish (finish_answer conn.old.value.conn.end.streams stream)) }
    ensures conn { stream < 2 ^ 62 → result ≢ error_number CallError.Memory → conn.new.value.conn ≡ with_streams_at conn.old.value.conn (after_finish conn.old.value.conn.end.streams stream) conn.old.value.conn.end.waiting.frames }
{
    ended(conn.as_mut().finish(stream), error_code)
}

/// `fh_reset`.
#[unsafe(no_mangle)]
pub extern "C" fn quic_c_reset(conn: &mut Held, stream: u64, error_code: u64) -> i32
    ensures invalid { 2 ^ 62 ≤ stream → (result ≡ error_number CallError.Invalid) × (conn.new.value ≡ conn.old.value) }
    ensures invalid_code { 2 ^ 62 ≤ error_code → (result ≡ error_number CallError.Invalid) × (conn.new.value ≡ conn.old.value) }
    ensures answer { stream < 2 ^ 62 → error_code < 2 ^ 62 → result ≢ error_number CallError.Memory → result ≡ done_answer (named of_update (reset_answer conn.old.value.conn.end.streams stream)) }
    ensures conn { stream < 2 ^ 62 → error_code < 2 ^ 62 → result ≢ error_number CallError.Memory → let after = after_reset conn.old.value.conn.end.streams conn.old.value.conn.end.waiting.frames stream error_code in conn.new.value.conn ≡ with_streams_at conn.old.value.conn after.state after.pending }
{
    done(conn.as_mut().reset(stream, error_code))
}

/// `fh_stop`.
#[unsafe(no_mangle)]
pub extern "C" fn quic_c_stop(conn: &mut Held, stream: u64, error_code: u64) -> i32
    ensures invalid { 2 ^ 62 ≤ stream → (result ≡ error_number CallError.Invalid) × (conn.new.value ≡ conn.old.value) }
    ensures invalid_code { 2 ^ 62 ≤ error_code → (result ≡ error_number CallError.Invalid) × (conn.new.value ≡ conn.old.value) }
    ensures answer { stream < 2 ^ 62 → error_code < 2 ^ 62 → result ≢ error_number CallError.Memory → result ≡ done_answer (named of_update (stop_answer conn.old.value.conn.end.streams stream)) }
    ensures conn { stream < 2 ^ 62 → error_code < 2 ^ 62 → result ≢ error_number CallError.Memory → let after = after_stop conn.old.value.conn.end.streams conn.old.value.conn.end.waiting.frames stream error_code in conn.new.value.conn ≡ with_streams_at conn.old.value.conn after.state after.pending }
{
    done(conn.as_mut().stop(stream, error_code))
}

/// `fh_set_priority`.
#[unsafe(no_mangle)]
pub extern "C" fn quic_c_set_priority(conn: &mut Held, stream: u64, priority: i32) -> i32
    ensures invalid { 2 ^ 62 ≤ stream → (result ≡ error_number CallError.Invalid) × (conn.new.value ≡ conn.old.value) }
    ensures answer { stream < 2 ^ 62 → result ≢ error_number CallError.Memory → result ≡ done_answer (named of_update (set_priority_answer conn.old.value.conn.end.streams stream)) }
    ensures conn { stream < 2 ^ 62 → result ≢ error_number CallError.Memory → conn.new.value.conn ≡ with_streams_at conn.old.value.conn (after_set_priority conn.old.value.conn.end.streams stream priority) conn.old.value.conn.end.waiting.frames }
{
    done(conn.as_mut().set_priority(stream, priority))
}

/// `fh_read` where `ordered` is 1, and else `fh_read_unordered`.
#[unsafe(no_mangle)]
pub extern "C" fn quic_c_read(
    conn: &mut Held,
    stream: u64,
    ordered: u32,
    out: &mut [u8],
    offset: &mut u64,
    fin: &mut u32,
    error_code: &mut u64,
) -> i64 {
    let answer = conn.as_mut().read(stream, ordered == 1, out);
    read(answer, offset, fin, error_code)
}
