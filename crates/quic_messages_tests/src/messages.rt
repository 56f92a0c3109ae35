use bytes::Bytes;
use quic_messages::{
    DatagramLimits, DatagramState, Datagrams, ReceivedError, SendDatagramError, max_size,
};
use quic_wire_core::VarInt;
use std::alloc::Global;

// Whether an act with the messages of an end goes as it should: here alone some are let go.
fn with_messages<F: FnOnce(&mut DatagramState) -> bool>(alloc: Global, act: F) -> bool
    requires { F.IsAlwaysCallable act }
{
    let mut state = DatagramState::new(alloc);
    let is_right = act(&mut state);
    drop(state);
    is_right
}

// An open end that keeps 8 bytes of unread messages, and lets 8 bytes wait. Its peer takes frames
// of 15 bytes.
fn limits() -> DatagramLimits {
    DatagramLimits {
        is_open: true,
        receive_buffer_size: Some(8),
        send_buffer_size: 8,
        max_size: max_size(VarInt::from_u32(15), 1200, 8),
    }
}

// Sends, and once more where memory lacked, which changed nothing.
fn send(
    state: &mut DatagramState,
    message: &'static [u8],
    drop: bool,
) -> Result<(), SendDatagramError> {
    let mut datagrams = Datagrams::new(state, limits());
    let room = datagrams.send_buffer_space();
    let answer = datagrams.send(Bytes::from_static(message), drop);
    if answer == Err(SendDatagramError::Memory) && datagrams.send_buffer_space() == room {
        return datagrams.send(Bytes::from_static(message), drop);
    }
    answer
}

// A message comes, and once more where memory lacked.
fn receive(state: &mut DatagramState, message: &[u8]) -> Result<bool, ReceivedError> {
    let answer = state.received(message, Some(8));
    if answer == Err(ReceivedError::Memory) {
        return state.received(message, Some(8));
    }
    answer
}

// Whether three messages are sent, of which the oldest goes for the last one.
fn sends(state: &mut DatagramState) -> bool {
    Datagrams::new(state, limits()).max_size() == Some(6)
        && send(state, b"oldest", false) == Ok(())
        && send(state, b"is", false) == Ok(())
        && send(state, b"here", false) == Err(SendDatagramError::Blocked)
        && send(state, b"here", true) == Ok(())
}

// Whether one goes of these, where the other is too long for the path.
fn sends_one(state: &mut DatagramState) -> bool {
    let are_sent = sends(state);
    state.drop_oversized(2);
    are_sent
        && state.is_waiting()
        && state.can_send(4)
        && state.send_buffer_space(8) == 6
        && state.next_frame(3).is_none()
        && state.next_frame(4).is_some()
}

// Whether three messages come, and one that is too long doesn't.
fn takes(state: &mut DatagramState) -> bool {
    receive(state, b"too long!") == Err(ReceivedError::Breach)
        && receive(state, b"hello") == Ok(true)
        && receive(state, b"abc") == Ok(false)
        && receive(state, b"defg") == Ok(false)
}

// Whether this message is read next.
fn reads(datagrams: &mut Datagrams<'_>, message: &[u8]) -> bool {
    match datagrams.recv() {
        Some(read) => read.as_slice() == message,
        None => false,
    }
}

// Whether of three messages that came the oldest went for the last one.
fn takes_last(state: &mut DatagramState) -> bool {
    let are_taken = takes(state);
    let mut datagrams = Datagrams::new(state, limits());
    are_taken
        && reads(&mut datagrams, b"abc")
        && datagrams.recv().is_some()
        && datagrams.recv().is_none()
}

#[test]
fn messages_are_sent(rt: HostRuntime) {
    assert!(rt; with_messages(rt.alloc(), sends_one));
}

#[test]
fn messages_are_received(rt: HostRuntime) {
    assert!(rt; with_messages(rt.alloc(), takes_last));
}
