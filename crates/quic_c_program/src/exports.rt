//! The functions of `native/fennelhammer.h`: each is called as a C function of its parameters, and
//! says what `quic_c_core` answers. A handle, a pointer there, is a reference to an endpoint here,
//! to any that answers [`Calls`], or a box of one where it is made or let go.

use quic_c_core::{
    CallError, Calls, EventRecord, FirstIds, IdRecord, Peer, Piece, SETTINGS_SIZE, STATS_SIZE,
    Settings, Stats, error_text, parameters,
};
use std::alloc::Global;
use std::mem::ManuallyDrop;

/// The answer of a call that gives a number: the number, or that of the error.
fn counted(answer: Result<u64, CallError>) -> i64 {
    match answer {
        Ok(count) => i64::try_from(count).unwrap_or(i64::MAX),
        Err(error) => error.code() as i64,
    }
}

/// The answer of a call that gives nothing.
fn done(answer: Result<(), CallError>) -> i32 {
    match answer {
        Ok(()) => 0,
        Err(error) => error.code(),
    }
}

/// Tells the code that the peer gave with an error, if it did.
fn tell_code<T>(answer: &Result<T, CallError>, error_code: &mut u64) {
    if let Err(error) = answer
        && let Some(code) = error.peer_code()
    {
        *error_code = code.into_inner();
    }
}

pub(crate) fn fh_error_text(error: i64) -> &'static u8 {
    &error_text(error)[0]
}

pub(crate) fn fh_settings_default(settings: &mut Settings, size: usize) -> i32 {
    if size as u64 != SETTINGS_SIZE {
        return CallError::Size.code();
    }
    *settings = Settings::default();
    0
}

pub(crate) fn fh_wrong_setting(settings: &Settings) -> i64 {
    match settings.wrong() {
        None => 0,
        Some(0) => CallError::Size.code() as i64,
        Some(offset) => offset as i64,
    }
}

pub(crate) fn fh_parameters(alloc: Global, settings: &Settings, out: &mut [u8]) -> i64 {
    counted(parameters(alloc, settings, out).map(|length| length as u64))
}

// What stands where the handle goes isn't let go: in C it needn't be a handle.
pub(crate) fn fh_new<E: Calls>(
    alloc: Global,
    settings: &Settings,
    side: u32,
    own_id: &[u8],
    peer_id: &[u8],
    peer_parameters: &[u8],
    peer_address: u64,
    seed: &[u8],
    now: u64,
    conn: &mut ManuallyDrop<Box<E>>,
) -> i32 {
    let peer = Peer {
        side,
        ids: FirstIds {
            own: own_id,
            peer: peer_id,
        },
        parameters: peer_parameters,
        address: peer_address,
    };
    match E::new(alloc, settings, &peer, seed, now) {
        Ok(endpoint) => {
            *conn = ManuallyDrop::new(endpoint);
            0
        }
        Err(error) => error.code(),
    }
}

pub(crate) fn fh_free(conn: Box<impl Calls>) {
    drop(conn);
}

pub(crate) fn fh_receive(
    conn: &mut impl Calls,
    now: u64,
    peer_address: u64,
    ecn: u32,
    datagram: &mut [u8],
) -> i32 {
    match conn.receive(now, peer_address, ecn, datagram) {
        Ok(reason) => i32::try_from(reason).unwrap_or(i32::MAX),
        Err(error) => error.code(),
    }
}

pub(crate) fn fh_poll(
    conn: &mut impl Calls,
    now: u64,
    out: &mut [u8],
    peer_address: &mut u64,
    ecn: &mut u32,
) -> i64 {
    match conn.poll(now, out) {
        Ok(Some((length, bits))) => {
            *peer_address = conn.address();
            *ecn = bits;
            counted(Ok(length as u64))
        }
        Ok(None) => 0,
        Err(error) => error.code() as i64,
    }
}

pub(crate) fn fh_max_datagram_size(conn: &impl Calls) -> usize {
    conn.room()
}

pub(crate) fn fh_timeout(conn: &mut impl Calls, now: u64) -> i32 {
    done(conn.timeout(now))
}

pub(crate) fn fh_next_timeout(conn: &impl Calls) -> u64 {
    conn.next_timeout()
}

pub(crate) fn fh_would_open(conn: &impl Calls, peer_address: u64, scratch: &mut [u8]) -> i32 {
    if conn.would_open(peer_address, scratch) {
        1
    } else {
        0
    }
}

pub(crate) fn fh_next_event(conn: &mut impl Calls, event: &mut EventRecord) -> i32 {
    match conn.next_event() {
        Some(record) => {
            *event = record;
            1
        }
        None => 0,
    }
}

pub(crate) fn fh_ids_changed(conn: &mut impl Calls) -> i32 {
    if conn.ids_changed() { 1 } else { 0 }
}

pub(crate) fn fh_own_ids(conn: &impl Calls, out: &mut [IdRecord]) -> i64 {
    counted(conn.put_own_ids(out).map(|count| count as u64))
}

pub(crate) fn fh_lost_text(conn: &impl Calls, out: &mut [u8]) -> i64 {
    counted(conn.put_lost_text(out).map(|length| length as u64))
}

pub(crate) fn fh_open(conn: &mut impl Calls, dir: u32) -> i64 {
    counted(conn.open(dir))
}

pub(crate) fn fh_accept(conn: &mut impl Calls, dir: u32) -> i64 {
    counted(conn.accept(dir))
}

pub(crate) fn fh_write(
    conn: &mut impl Calls,
    stream: u64,
    data: &[u8],
    error_code: &mut u64,
) -> i64 {
    let answer = conn.write(stream, data);
    tell_code(&answer, error_code);
    counted(answer.map(|length| length as u64))
}

pub(crate) fn fh_writev(
    conn: &mut impl Calls,
    stream: u64,
    iov: &[&[u8]],
    error_code: &mut u64,
) -> i64 {
    let answer = conn.write_vectored(stream, iov);
    tell_code(&answer, error_code);
    counted(answer.map(|length| length as u64))
}

pub(crate) fn fh_finish(conn: &mut impl Calls, stream: u64, error_code: &mut u64) -> i32 {
    let answer = conn.finish(stream);
    tell_code(&answer, error_code);
    done(answer)
}

pub(crate) fn fh_reset(conn: &mut impl Calls, stream: u64, error_code: u64) -> i32 {
    done(conn.reset(stream, error_code))
}

pub(crate) fn fh_stop(conn: &mut impl Calls, stream: u64, error_code: u64) -> i32 {
    done(conn.stop(stream, error_code))
}

pub(crate) fn fh_set_priority(conn: &mut impl Calls, stream: u64, priority: i32) -> i32 {
    done(conn.set_priority(stream, priority))
}

/// Tells where the bytes of a read stand and whether the stream ends behind them: how many they
/// are.
fn tell_piece(
    answer: Result<Piece, CallError>,
    offset: &mut u64,
    fin: &mut u32,
    error_code: &mut u64,
) -> i64 {
    tell_code(&answer, error_code);
    if let Ok(piece) = &answer {
        *offset = piece.offset;
        *fin = if piece.fin { 1 } else { 0 };
    }
    counted(answer.map(|piece| piece.len as u64))
}

pub(crate) fn fh_read(
    conn: &mut impl Calls,
    stream: u64,
    out: &mut [u8],
    offset: &mut u64,
    fin: &mut u32,
    error_code: &mut u64,
) -> i64 {
    tell_piece(conn.read(stream, true, out), offset, fin, error_code)
}

pub(crate) fn fh_read_unordered(
    conn: &mut impl Calls,
    stream: u64,
    out: &mut [u8],
    offset: &mut u64,
    fin: &mut u32,
    error_code: &mut u64,
) -> i64 {
    tell_piece(conn.read(stream, false, out), offset, fin, error_code)
}

pub(crate) fn fh_send_message(conn: &mut impl Calls, message: &[u8], drop_older: u32) -> i32 {
    done(conn.send_message(message, drop_older))
}

pub(crate) fn fh_receive_message(conn: &mut impl Calls, out: &mut [u8]) -> i64 {
    counted(conn.receive_message(out).map(|length| length as u64))
}

pub(crate) fn fh_max_message(conn: &impl Calls) -> i64 {
    counted(conn.max_message().map(|length| length as u64))
}

pub(crate) fn fh_ping(conn: &mut impl Calls) {
    conn.ping();
}

pub(crate) fn fh_handshake_done(conn: &mut impl Calls) -> i32 {
    done(conn.handshake_done())
}

pub(crate) fn fh_use_next_id(conn: &mut impl Calls) -> i32 {
    done(conn.use_next_id())
}

pub(crate) fn fh_close(conn: &mut impl Calls, now: u64, error_code: u64, text: &[u8]) -> i32 {
    done(conn.close(now, error_code, text))
}

pub(crate) fn fh_get_state(conn: &impl Calls) -> i32 {
    i32::try_from(conn.state()).unwrap_or(i32::MAX)
}

pub(crate) fn fh_is_validated(conn: &impl Calls) -> i32 {
    if conn.is_validated() { 1 } else { 0 }
}

pub(crate) fn fh_current_mtu(conn: &impl Calls) -> usize {
    conn.current_mtu()
}

pub(crate) fn fh_rtt(conn: &impl Calls) -> u64 {
    conn.rtt()
}

pub(crate) fn fh_congestion_window(conn: &impl Calls) -> u64 {
    conn.congestion_window()
}

pub(crate) fn fh_get_stats(conn: &impl Calls, stats: &mut Stats, size: usize) -> i32 {
    if size as u64 != STATS_SIZE {
        return CallError::Size.code();
    }
    *stats = conn.stats();
    0
}
