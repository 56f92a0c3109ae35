//! The messages of an endpoint.
ghost use Rattle.std.specs.Prelude.{◌≡◌, ◌≢◌, Err, OnOk, OnErr, length};
ghost use Rattle.quic_messages.specs.Sending.{send_answer, after_send};
ghost use Rattle.quic_c_core.specs.Answers.{named, of_send};
ghost use Rattle.quic_c_core.specs.Unread.{next_message, left_there, read_answer, filled_with, kept_of};

use crate::call_error::CallError;
use crate::endpoint::put;
use quic_connection::{Bytes, DatagramLimits, DatagramState};
use std::alloc::Global;

/// Queues a copy of a message to be sent.
pub(crate) fn send(
    alloc: Global,
    messages: &mut DatagramState,
    limits: &DatagramLimits,
    message: &[u8],
    drop: bool,
) -> Result<(), CallError>
    ensures answer { result ≢ Err CallError.Memory → result ≡ named of_send (send_answer limits.now drop message.now messages.old) }
    ensures ok { OnOk result (messages.new ≡ after_send limits.now drop message.now messages.old) }
    ensures err { OnErr result (messages.new ≡ messages.old) }
{
    let message = Bytes::copy_from_slice(alloc, message)?;
    Ok(messages.send(message, drop, limits)?)
}

/// Takes the oldest unread message off the connection, unless one that was taken off is there.
pub(crate) fn take_oldest(messages: &mut DatagramState, unread: &mut Option<Bytes>)
    ensures taken { unread.new ≡ next_message unread.old messages.old }
    ensures left { messages.new ≡ left_there unread.old messages.old }
{
    if unread.is_none() {
        *unread = messages.recv();
    }
}

/// Puts the message that was taken off to the front of a room, if it fits: how many bytes it has.
pub(crate) fn give(unread: &mut Option<Bytes>, out: &mut [u8]) -> Result<usize, CallError>
    ensures answer { result ≡ read_answer unread.old (length out.old) }
    ensures filled { out.new ≡ filled_with unread.old out.old }
    ensures kept { unread.new ≡ kept_of unread.old (length out.old) }
{
    let Some(message) = &*unread else {
        return Err(CallError::Absent);
    };
    let length = put(out, message.as_slice())?;
    *unread = None;
    Ok(length)
}
