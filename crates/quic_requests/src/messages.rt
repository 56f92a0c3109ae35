//! Messages, which may be lost and aren't sent again (RFC 9221).

use crate::MANY;
use crate::endpoint::{Calls, millis};
use anyhow::Result;
use quic_connection::{Bytes, Instant, Side};

/// Queues a message. Where there is no room for it, older ones go for it.
pub(crate) fn send(endpoint: &mut impl Calls, text: &'static [u8]) -> Result<()> {
    Ok(endpoint.datagrams().send(Bytes::from_static(text), true)?)
}

/// Prints all messages that came.
pub(crate) fn receive(
    rt: &impl Print,
    side: Side,
    endpoint: &mut impl Calls,
    now: Instant,
) -> Result<()> {
    for _ in 0..MANY {
        let Some(message) = endpoint.datagrams().recv() else {
            break;
        };
        println!(rt; "{} ms: a message for the {side}: {message:?}", millis(now))?;
    }
    Ok(())
}
