//! Calls of the application on messages, each made on the messages of an end alone.
ghost use Rattle.quic_connection.specs.OnMessages.{IsCallOn};

use bytes::Bytes;
use quic_machine::{Answer, Call};
use quic_messages::{DatagramLimits, DatagramState, Datagrams};

/// Sends a message, for which older pending ones may be dropped or not.
pub(crate) fn send(
    datagrams: &mut DatagramState,
    limits: DatagramLimits,
    message: Bytes,
    makes_room: bool,
) -> Answer
    ensures { IsCallOn limits datagrams.old (Call.Send message makes_room) result datagrams.new }
{
    Answer::Send(Datagrams::new(datagrams, limits).send(message, makes_room))
}

/// Reads a message, whether the endpoint is open or not.
pub(crate) fn recv(datagrams: &mut DatagramState, limits: DatagramLimits) -> Answer
    ensures { IsCallOn limits datagrams.old Call.Recv result datagrams.new }
{
    Answer::Recv(Datagrams::new(datagrams, limits).recv())
}
