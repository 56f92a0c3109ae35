//! Messages.
ghost use Rattle.std.specs.Prelude.{◌≡◌, ◌≢◌, ◌≤◌, ◌<◌, ◌==◌, pos, length, ok_or};
ghost use Rattle.quic_messages.specs.Sending.{send_answer, after_send};
ghost use Rattle.quic_machine.specs.MessageCalls.{limits_of, most_message};
ghost use Rattle.quic_connection_core.specs.Handed.{messages_back};
ghost use Rattle.quic_c_core.specs.Answers.{error_number, named, of_send};
ghost use Rattle.quic_c_core.specs.Unread.{next_message, left_there, read_answer, filled_with, kept_of};
ghost use Rattle.quic_c.specs.Says.{counted_answer, done_answer};

use crate::answers::{done, measured};
use crate::held::Held;
use quic_c_core::{CallError, Calls};

/// `fh_send_message`.
#[unsafe(no_mangle)]
pub extern "C" fn quic_c_send_message(conn: &mut Held, message: &[u8], drop_older: u32) -> i32
    ensures invalid { 1 < drop_older → (result ≡ error_number CallError.Invalid) × (conn.new.value ≡ conn.old.value) }
    ensures answer { drop_older ≤ 1 → result ≢ error_number CallError.Memory → result ≡ done_answer (named of_send (send_answer (limits_of conn.old.value.conn.end) (drop_older == 1) message.now conn.old.value.conn.end.messages.queues)) }
    ensures done { result ≡ pos 0 → conn.new.value.conn ≡ messages_back conn.old.value.conn (after_send (limits_of conn.old.value.conn.end) (drop_older == 1) message.now conn.old.value.conn.end.messages.queues) }
    ensures refused { result ≢ pos 0 → conn.new.value ≡ conn.old.value }
{
    done(conn.as_mut().send_message(message, drop_older))
}

/// `fh_receive_message`.
#[unsafe(no_mangle)]
pub extern "C" fn quic_c_receive_message(conn: &mut Held, out: &mut [u8]) -> i64
    ensures answer { result ≡ counted_answer (read_answer (next_message conn.old.value.unread conn.old.value.conn.end.messages.queues) (length out.old)) }
    ensures filled { out.new ≡ filled_with (next_message conn.old.value.unread conn.old.value.conn.end.messages.queues) out.old }
    ensures conn { conn.new.value.conn ≡ messages_back conn.old.value.conn (left_there conn.old.value.unread conn.old.value.conn.end.messages.queues) }
    ensures kept { conn.new.value.unread ≡ kept_of (next_message conn.old.value.unread conn.old.value.conn.end.messages.queues) (length out.old) }
{
    measured(conn.as_mut().receive_message(out))
}

/// `fh_max_message`.
#[unsafe(no_mangle)]
pub extern "C" fn quic_c_max_message(conn: &mut Held) -> i64
    ensures answer { result ≡ counted_answer (ok_or (most_message conn.old.value.conn.end) CallError.Unsupported) }
    ensures same { conn.new.value ≡ conn.old.value }
{
    measured(conn.as_mut().max_message())
}
