//! Each function called once.

use crate::exports::{
    fh_accept, fh_close, fh_congestion_window, fh_current_mtu, fh_error_text, fh_finish,
    fh_get_state, fh_get_stats, fh_handshake_done, fh_ids_changed, fh_is_validated, fh_lost_text,
    fh_max_datagram_size, fh_max_message, fh_new, fh_next_event, fh_next_timeout, fh_open,
    fh_own_ids, fh_parameters, fh_ping, fh_poll, fh_read, fh_read_unordered, fh_receive,
    fh_receive_message, fh_reset, fh_rtt, fh_send_message, fh_set_priority, fh_settings_default,
    fh_stop, fh_timeout, fh_use_next_id, fh_would_open, fh_write, fh_writev, fh_wrong_setting,
};
use quic_c_core::{Calls, EventRecord, IdRecord, Settings, Stats};
use std::io;
use std::mem::ManuallyDrop;

/// Calls of streams, each once.
pub(crate) fn call_streams(rt: &impl Print, conn: &mut impl Calls) -> io::Result<()> {
    let (mut code, mut offset, mut fin) = (0u64, 0u64, 0u32);
    let mut bytes = [0u8; 100];
    println!(rt; "open {} {}", fh_open(conn, 0), fh_open(conn, 2))?;
    println!(rt; "accept {}", fh_accept(conn, 1))?;
    println!(rt; "write {}", fh_write(conn, 0, b"hello", &mut code))?;
    println!(rt;
        "writev {}",
        fh_writev(conn, 0, &[b", ", b"world"], &mut code)
    )?;
    println!(rt; "priority {}", fh_set_priority(conn, 0, 1))?;
    println!(rt; "finish {}", fh_finish(conn, 0, &mut code))?;
    let read = fh_read(conn, 0, &mut bytes, &mut offset, &mut fin, &mut code);
    let pick = fh_read_unordered(conn, 1, &mut bytes, &mut offset, &mut fin, &mut code);
    println!(rt; "read {read} {pick}")?;
    println!(rt; "stop {}", fh_stop(conn, 0, u64::MAX))?;
    println!(rt; "reset {}", fh_reset(conn, 4, 9))
}

/// Calls of messages and of the connection, each once.
pub(crate) fn call_rest(rt: &impl Print, conn: &mut impl Calls) -> io::Result<()> {
    let mut bytes = [0u8; 100];
    println!(rt; "message {}", fh_send_message(conn, b"hi", 0))?;
    println!(rt; "receive_message {}", fh_receive_message(conn, &mut bytes))?;
    println!(rt; "max_message {}", fh_max_message(conn))?;
    fh_ping(conn);
    println!(rt; "state {} {}", fh_get_state(conn), fh_is_validated(conn))?;
    println!(rt;
        "mtu {} {}",
        fh_current_mtu(conn),
        fh_max_datagram_size(conn)
    )?;
    println!(rt; "rtt {} {}", fh_rtt(conn), fh_congestion_window(conn))?;
    let mut stats = Stats::default();
    let answer = fh_get_stats(conn, &mut stats, 200);
    println!(rt; "stats {answer} {}", stats.path.sent_packets)?;
    println!(rt;
        "done {} next id {}",
        fh_handshake_done(conn),
        fh_use_next_id(conn)
    )?;
    call_ids(rt, conn)
}

/// Calls about own connection IDs, each once, and one that finds too little room.
fn call_ids(rt: &impl Print, conn: &mut impl Calls) -> io::Result<()> {
    let mut ids = [IdRecord::default(); 8];
    let short = fh_own_ids(conn, &mut ids[..1]);
    let count = fh_own_ids(conn, &mut ids);
    let (first, second) = (ids[0], ids[1]);
    println!(rt; "own_ids {short} {count} {}", fh_ids_changed(conn))?;
    println!(rt;
        "first {} {} {:?}",
        first.sequence, first.has_reset_token, first.id
    )?;
    println!(rt; "second {} {}", second.sequence, second.has_reset_token)
}

/// Lets a datagram go from one endpoint to another.
pub(crate) fn carry(rt: &impl Print, from: &mut impl Calls, to: &mut impl Calls) -> io::Result<()> {
    let mut bytes = [0u8; 1500];
    let (mut address, mut ecn) = (0u64, 0u32);
    let length = fh_poll(from, 1000, &mut bytes, &mut address, &mut ecn);
    let size = usize::try_from(length).unwrap_or(0);
    let mut copy = bytes;
    let opens = fh_would_open(to, address, &mut copy[..size.min(1500)]);
    let datagram = &mut bytes[..size.min(1500)];
    let answer = fh_receive(to, 2000, address, ecn, datagram);
    println!(rt; "carried {length} {address} {ecn} {opens} {answer}")?;
    println!(rt;
        "timeout {} {}",
        fh_timeout(to, 3000),
        fh_next_timeout(to) > 0
    )
}

/// Ends the connection, and tells each event of the peer.
pub(crate) fn end(rt: &impl Print, conn: &mut impl Calls, peer: &mut impl Calls) -> io::Result<()> {
    println!(rt; "close {}", fh_close(conn, 4000, 3, b"bye"))?;
    carry(rt, conn, peer)?;
    let mut event = EventRecord::default();
    for _ in 0..10 {
        if fh_next_event(peer, &mut event) == 0 {
            break;
        }
        println!(rt; "event {event:?}")?;
    }
    let mut text = [0u8; 100];
    println!(rt; "lost_text {}", fh_lost_text(peer, &mut text))
}

/// Calls that need no endpoint, and such as make none: what stands where one would go stays.
pub(crate) fn call_first<E: Calls>(
    rt: &(impl Print + AllocGlobal),
    settings: &mut Settings,
    conn: &mut ManuallyDrop<Box<E>>,
) -> io::Result<()> {
    println!(rt; "default {}", fh_settings_default(settings, 296))?;
    println!(rt; "wrong {}", fh_wrong_setting(settings))?;
    let mut bytes = [0u8; 256];
    let length = fh_parameters(rt.alloc(), settings, &mut bytes);
    println!(rt; "parameters {length}")?;
    let seed = [0u8; 32];
    let answer = fh_new(
        rt.alloc(),
        settings,
        2,
        b"client-1",
        b"server-1",
        &[],
        7,
        &seed,
        0,
        conn,
    );
    println!(rt; "new {answer} {}", fh_error_text(answer as i64))
}
