//! Closes and messages, which own their bytes.
use quic_wire::frame::{ApplicationClose, Close, ConnectionClose, Datagram};
use quic_wire::{Code, Reason, TransportError, VarInt};
use std::alloc::{AllocError, Global};

/// A close by PROTOCOL_VIOLATION, of no frame.
fn close_of(alloc: Global, reason: &[u8]) -> Result<ConnectionClose, AllocError> {
    let code = Code::PROTOCOL_VIOLATION;
    match ConnectionClose::new(alloc, code, None, reason) {
        Ok(close) => Ok(close),
        Err(_) => ConnectionClose::new(alloc, code, None, reason),
    }
}

/// The close of an error.
fn of_error(alloc: Global, error: &TransportError) -> Result<Close, AllocError> {
    match Close::of_error(alloc, error) {
        Ok(close) => Ok(close),
        Err(_) => Close::of_error(alloc, error),
    }
}

/// Whether a close is that of PROTOCOL_VIOLATION for this reason.
fn is_violation(alloc: Global, close: &Close, reason: &[u8]) -> bool {
    match close_of(alloc, reason) {
        Ok(wanted) => {
            let is_made = u64::from(wanted.error_code) == 0x0a
                && wanted.reason.as_slice() == reason;
            Close::from(wanted) == *close && is_made
        }
        Err(_) => false,
    }
}

#[test]
fn errors_close_connections(rt: HostRuntime) {
    let error = TransportError::new(Code::PROTOCOL_VIOLATION, None, Reason::NoFrame);
    let close = of_error(rt.alloc(), &error).expect(&rt, "memory");
    assert!(rt; is_violation(rt.alloc(), &close, b"no frame"));
}

/// A copy of a close.
fn copy_of(close: &Close) -> Result<Close, AllocError> {
    match close.clone() {
        Ok(copy) => Ok(copy),
        Err(_) => close.clone(),
    }
}

/// Whether a copy of a close equals it.
fn is_copied(close: &Close) -> bool {
    match copy_of(close) {
        Ok(copy) => copy == *close,
        Err(_) => false,
    }
}

/// Whether a close of a connection is copied.
fn connection_is_copied(alloc: Global) -> bool {
    match close_of(alloc, b"x") {
        Ok(close) => is_copied(&Close::from(close)),
        Err(_) => false,
    }
}

#[test]
fn closes_are_copied(rt: HostRuntime) {
    assert!(rt; connection_is_copied(rt.alloc()));
}

/// A close of an application.
fn application_close(
    alloc: Global,
    code: VarInt,
    reason: &[u8],
) -> Result<ApplicationClose, AllocError> {
    match ApplicationClose::new(alloc, code, reason) {
        Ok(close) => Ok(close),
        Err(_) => ApplicationClose::new(alloc, code, reason),
    }
}

/// Whether an application's close has its code and its reason, and is copied.
fn application_closes(alloc: Global, code: VarInt, reason: &[u8]) -> bool {
    match application_close(alloc, code, reason) {
        Ok(close) => {
            let is_made = close.error_code == code && close.reason.as_slice() == reason;
            is_copied(&Close::from(close)) && is_made
        }
        Err(_) => false,
    }
}

#[test]
fn applications_close_connections(rt: HostRuntime) {
    assert!(rt; application_closes(rt.alloc(), VarInt::from_u32(7), b"bye"));
}

/// A copy of a message.
fn copy_of_message(message: &Datagram) -> Result<Datagram, AllocError> {
    match message.clone() {
        Ok(copy) => Ok(copy),
        Err(_) => message.clone(),
    }
}

/// Whether a copy of a message has its bytes.
fn message_is_copied(alloc: Global, bytes: &[u8]) -> bool {
    let message = match close_of(alloc, bytes) {
        Ok(close) => Datagram { data: close.reason },
        Err(_) => return false,
    };
    match copy_of_message(&message) {
        Ok(copy) => copy.data.as_slice() == bytes,
        Err(_) => false,
    }
}

#[test]
fn messages_are_copied(rt: HostRuntime) {
    assert!(rt; message_is_copied(rt.alloc(), b"hi"));
}
