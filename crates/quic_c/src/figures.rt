//! What an endpoint shows of itself.
ghost use Rattle.std.specs.Prelude.{◌≡◌, ◌≢◌};
ghost use Rattle.quic_time.specs.Rtt.{best_rtt};
ghost use Rattle.quic_machine.specs.Parts.{current_mtu};
ghost use Rattle.quic_c_core.specs.Answers.{error_number, state_number};
ghost use Rattle.quic_c.specs.Says.{small_number, switch_number};

use crate::answers::{small, switched};
use crate::held::Held;
use quic_c_core::{CallError, Calls, STATS_SIZE, Stats};

/// `fh_get_state`.
#[unsafe(no_mangle)]
pub extern "C" fn quic_c_get_state(conn: &mut Held) -> i32
    ensures answer { result ≡ small_number (state_number conn.old.value.conn.end.closing.state) }
    ensures same { conn.new.value ≡ conn.old.value }
{
    small(conn.as_mut().state())
}

/// `fh_is_validated`.
#[unsafe(no_mangle)]
pub extern "C" fn quic_c_is_validated(conn: &mut Held) -> i32
    ensures answer { result ≡ switch_number conn.old.value.conn.end.path.validated }
    ensures same { conn.new.value ≡ conn.old.value }
{
    switched(conn.as_mut().is_validated())
}

/// `fh_current_mtu`.
#[unsafe(no_mangle)]
pub extern "C" fn quic_c_current_mtu(conn: &mut Held) -> usize
    ensures answer { result ≡ current_mtu conn.old.value.conn.end.path }
    ensures same { conn.new.value ≡ conn.old.value }
{
    conn.as_mut().current_mtu()
}

/// `fh_rtt`.
#[unsafe(no_mangle)]
pub extern "C" fn quic_c_rtt(conn: &mut Held) -> u64
    ensures answer { result ≡ best_rtt conn.old.value.conn.end.path.rtt }
    ensures same { conn.new.value ≡ conn.old.value }
{
    conn.as_mut().rtt()
}

/// `fh_congestion_window`.
#[unsafe(no_mangle)]
pub extern "C" fn quic_c_congestion_window(conn: &mut Held) -> u64
    ensures answer { result ≡ conn.old.value.conn.control.window }
    ensures same { conn.new.value ≡ conn.old.value }
{
    conn.as_mut().congestion_window()
}

/// `fh_get_stats`.
#[unsafe(no_mangle)]
pub extern "C" fn quic_c_get_stats(conn: &mut Held, stats: &mut Stats, size: usize) -> i32
    ensures same { conn.new.value ≡ conn.old.value }
{
    if size as u64 != STATS_SIZE {
        return CallError::Size.code();
    }
    *stats = conn.as_mut().stats();
    0
}
