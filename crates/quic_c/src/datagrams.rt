//! Datagrams and time.
ghost use Rattle.std.specs.Prelude.{◌≡◌, ◌≢◌, ◌<◌, ◌++◌, pos, None, IfSome, length, drop};
ghost use Rattle.quic_time.specs.Timers.{next_timer};
ghost use Rattle.quic_machine.specs.End.{HasFailed};
ghost use Rattle.quic_machine.specs.Opens.{would_open};
ghost use Rattle.quic_c_core.specs.Answers.{mark_of, error_number, received_number};
ghost use Rattle.quic_c_core.specs.Conn.{policy_at, received_at, received_end, polled_at, datagram_at, given_of, timed_out_at, next_or_never};
ghost use Rattle.quic_c.specs.Says.{small_answer, switch_number, IfCount, given_length};

use crate::answers::{done, measured, small, switched};
use crate::held::Held;
use quic_c_core::{CallError, Calls};

/// `fh_receive`.
#[unsafe(no_mangle)]
pub extern "C" fn quic_c_receive(
    conn: &mut Held,
    now: u64,
    peer_address: u64,
    ecn: u32,
    datagram: &mut [u8],
) -> i32
    ensures invalid { mark_of ecn ≡ None → (result ≡ error_number CallError.Invalid) × (conn.new.value ≡ conn.old.value) }
    ensures answer { IfSome (mark_of ecn) (λ mark. result ≢ error_number CallError.Failed → result ≡ small_answer (received_number (received_at conn.old.value.conn now peer_address mark datagram.old).answer)) }
    ensures end { IfSome (mark_of ecn) (λ mark. result ≢ error_number CallError.Failed → conn.new.value.conn.end ≡ received_end conn.old.value.conn now peer_address mark datagram.old) }
{
    match conn.as_mut().receive(now, peer_address, ecn, datagram) {
        Ok(reason) => small(reason),
        Err(error) => error.code(),
    }
}

/// `fh_poll`.
#[unsafe(no_mangle)]
pub extern "C" fn quic_c_poll(
    conn: &mut Held,
    now: u64,
    out: &mut [u8],
    peer_address: &mut u64,
    ecn: &mut u32,
) -> i64
    ensures room { length out.old < conn.old.value.room → (result ≡ error_number CallError.Room) × (conn.new.value ≡ conn.old.value) × (out.new ≡ out.old) }
    ensures given { IfCount result (λ n. n ≡ given_length (given_of (polled_at conn.old.value.conn now).answer (length (datagram_at conn.old.value.conn now)))) }
    ensures datagram { IfCount result (λ n. 0 < n → out.new ≡ datagram_at conn.old.value.conn now ++ drop (length (datagram_at conn.old.value.conn now)) out.old) }
    ensures address { IfCount result (λ n. 0 < n → peer_address.new ≡ conn.new.value.conn.end.path.remote) }
    ensures end { IfCount result (λ _. conn.new.value.conn.end ≡ (polled_at conn.old.value.conn now).end) }
{
    let endpoint = conn.as_mut();
    match endpoint.poll(now, out) {
        Ok(Some((length, bits))) => {
            *peer_address = endpoint.address();
            *ecn = bits;
            measured(Ok(length))
        }
        Ok(None) => 0,
        Err(error) => error.code() as i64,
    }
}

/// `fh_max_datagram_size`.
#[unsafe(no_mangle)]
pub extern "C" fn quic_c_max_datagram_size(conn: &mut Held) -> usize
    ensures answer { result ≡ conn.old.value.room }
    ensures same { conn.new.value ≡ conn.old.value }
{
    conn.as_mut().room()
}

/// `fh_timeout`.
#[unsafe(no_mangle)]
pub extern "C" fn quic_c_timeout(conn: &mut Held, now: u64) -> i32
    ensures ok { result ≡ pos 0 → conn.new.value.conn.end ≡ (timed_out_at conn.old.value.conn now).end }
    ensures failed { result ≢ pos 0 → (result ≡ error_number CallError.Failed) × HasFailed conn.old.value.conn conn.new.value.conn }
{
    done(conn.as_mut().timeout(now))
}

/// `fh_next_timeout`.
#[unsafe(no_mangle)]
pub extern "C" fn quic_c_next_timeout(conn: &mut Held) -> u64
    ensures answer { result ≡ next_or_never (next_timer conn.old.value.conn.end.timers) }
    ensures same { conn.new.value ≡ conn.old.value }
{
    conn.as_mut().next_timeout()
}

/// `fh_would_open`.
#[unsafe(no_mangle)]
pub extern "C" fn quic_c_would_open(conn: &mut Held, peer_address: u64, scratch: &mut [u8]) -> i32
    ensures answer { result ≡ switch_number (would_open (policy_at conn.old.value.conn) conn.old.value.conn.end peer_address scratch.old) }
    ensures same { conn.new.value ≡ conn.old.value }
{
    switched(conn.as_mut().would_open(peer_address, scratch))
}
