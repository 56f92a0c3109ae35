//! What the program is told, and calls of the whole connection.
ghost use Rattle.std.specs.Prelude.{ℕ, ◌≡◌, ◌≢◌, ◌≤◌, ◌<◌, ◌^◌, List, pos, None, IfSome, length, is_some};
ghost use Rattle.quic_machine.specs.End.{with_end};
ghost use Rattle.quic_machine.specs.Calls.{end_tells, end_after_event, end_after_ping, end_after_close};
ghost use Rattle.quic_machine.specs.IdFrames.{end_routes, end_after_routed, next_id_answer, after_next_id};
ghost use Rattle.quic_machine.specs.Handshake.{done_answer as handshake_answer, after_done};
ghost use Rattle.quic_c_core.specs.Answers.{error_number, named, of_done, of_next_id, put_answer, put_into};
ghost use Rattle.quic_c_core.specs.Events.{IsLostText, IsTold};
ghost use Rattle.quic_c.specs.Says.{counted_answer, done_answer, switch_number};

use crate::answers::{done, measured, switched};
use crate::held::Held;
use quic_c_core::{CallError, Calls, EventRecord, IdRecord};

/// `fh_next_event`.
#[unsafe(no_mangle)]
pub extern "C" fn quic_c_next_event(conn: &mut Held, event: &mut EventRecord) -> i32
    ensures answer { result ≡ switch_number (is_some (end_tells conn.old.value.conn.end)) }
    ensures told { IfSome (end_tells conn.old.value.conn.end) (λ told. IsTold told event.new) }
    ensures nothing { end_tells conn.old.value.conn.end ≡ None → event.new ≡ event.old }
    ensures conn { conn.new.value.conn ≡ with_end conn.old.value.conn (end_after_event conn.old.value.conn.end) }
{
    match conn.as_mut().next_event() {
        Some(record) => {
            *event = record;
            1
        }
        None => 0,
    }
}

/// `fh_ids_changed`.
#[unsafe(no_mangle)]
pub extern "C" fn quic_c_ids_changed(conn: &mut Held) -> i32
    ensures answer { result ≡ switch_number (is_some (end_routes conn.old.value.conn.end)) }
    ensures conn { conn.new.value.conn ≡ with_end conn.old.value.conn (end_after_routed conn.old.value.conn.end) }
{
    switched(conn.as_mut().ids_changed())
}

/// `fh_own_ids`.
#[unsafe(no_mangle)]
pub extern "C" fn quic_c_own_ids(conn: &mut Held, out: &mut [IdRecord]) -> i64
    ensures same { conn.new.value ≡ conn.old.value }
{
    measured(conn.as_mut().put_own_ids(out))
}

/// `fh_lost_text`.
#[unsafe(no_mangle)]
pub extern "C" fn quic_c_lost_text(conn: &mut Held, out: &mut [u8]) -> i64
    ensures text { (text : List ℕ) × IsLostText conn.old.value.conn.end.closing.reason text × (result ≡ counted_answer (put_answer text (length out.old))) × (out.new ≡ put_into text out.old) }
    ensures same { conn.new.value ≡ conn.old.value }
{
    measured(conn.as_mut().put_lost_text(out))
}

/// `fh_ping`.
#[unsafe(no_mangle)]
pub extern "C" fn quic_c_ping(conn: &mut Held)
    ensures { conn.new.value.conn ≡ with_end conn.old.value.conn (end_after_ping conn.old.value.conn.end) }
{
    conn.as_mut().ping();
}

/// `fh_handshake_done`.
#[unsafe(no_mangle)]
pub extern "C" fn quic_c_handshake_done(conn: &mut Held) -> i32
    ensures answer { result ≡ done_answer (named of_done (handshake_answer conn.old.value.conn.end)) }
    ensures done { result ≡ pos 0 → conn.new.value.conn ≡ with_end conn.old.value.conn (after_done conn.old.value.conn.end) }
    ensures refused { result ≢ pos 0 → (conn.new.value ≡ conn.old.value) }
{
    done(conn.as_mut().handshake_done())
}

/// `fh_use_next_id`.
#[unsafe(no_mangle)]
pub extern "C" fn quic_c_use_next_id(conn: &mut Held) -> i32
    ensures answer { result ≢ error_number CallError.Memory → result ≡ done_answer (named of_next_id (next_id_answer conn.old.value.conn.end)) }
    ensures done { result ≡ pos 0 → conn.new.value.conn ≡ with_end conn.old.value.conn (after_next_id conn.old.value.conn.end) }
    ensures refused { result ≢ pos 0 → (conn.new.value ≡ conn.old.value) }
{
    done(conn.as_mut().use_next_id())
}

/// `fh_close`.
#[unsafe(no_mangle)]
pub extern "C" fn quic_c_close(conn: &mut Held, now: u64, error_code: u64, text: &[u8]) -> i32
    ensures invalid { 2 ^ 62 ≤ error_code → (result ≡ error_number CallError.Invalid) × (conn.new.value ≡ conn.old.value) }
    ensures done { result ≡ pos 0 → conn.new.value.conn ≡ with_end conn.old.value.conn (end_after_close now error_code text.now conn.old.value.conn.end) }
    ensures refused { result ≢ pos 0 → (conn.new.value ≡ conn.old.value) }
{
    done(conn.as_mut().close(now, error_code, text))
}
