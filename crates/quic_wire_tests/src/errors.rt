//! What errors print, and which reason they give: no clause says it.
use quic_wire::crypto::NotOpened;
use quic_wire::frame::{FrameError, InvalidFrame};
use quic_wire::{
    Code, FrameType, HeaderError, Reason, TooShort, TransportError, TransportParametersError,
    UnexpectedEnd, VarIntBoundsExceeded,
};
use std::alloc::Global;
use std::fmt::Display;

/// Whether an error is printed so. Nothing is, where memory lacks.
fn prints<E: Display>(alloc: Global, error: &E, wanted: &str) -> bool {
    match format!(in alloc; "{error}") {
        Ok(text) => text.as_str() == wanted,
        Err(_) => false,
    }
}

#[test]
fn errors_of_bytes_are_printed(rt: HostRuntime) {
    let alloc = rt.alloc();
    let are_printed = prints(
        alloc,
        &VarIntBoundsExceeded,
        "value too large for varint encoding",
    ) && prints(alloc, &UnexpectedEnd, "unexpected end of buffer")
        && prints(alloc, &TooShort, "too few bytes for a connection id")
        && prints(alloc, &NotOpened, "the packet does not open");
    assert!(rt; are_printed);
}

#[test]
fn errors_of_headers_are_printed(rt: HostRuntime) {
    let alloc = rt.alloc();
    let are_printed = prints(alloc, &HeaderError::TooShort, "the datagram is too short")
        && prints(alloc, &HeaderError::NotShort, "not a short header")
        && prints(alloc, &HeaderError::FixedBit, "the fixed bit is 0")
        && prints(alloc, &HeaderError::UnknownId, "unknown connection id");
    assert!(rt; are_printed);
}

/// Whether a frame that is refused so is printed so, and gives that reason.
fn refuses(alloc: Global, reason: FrameError, wanted: &str, told: Reason) -> bool {
    let error = TransportError::from(InvalidFrame { ty: None, reason });
    prints(alloc, &reason, wanted) && error.reason() == told
}

/// A frame that is refused.
const INVALID: InvalidFrame = InvalidFrame {
    ty: None,
    reason: FrameError::Malformed,
};

#[test]
fn refused_frames_say_why(rt: HostRuntime) {
    let alloc = rt.alloc();
    let (end, id) = (Reason::UnexpectedEnd, Reason::InvalidFrameId);
    let say_why = refuses(alloc, FrameError::UnexpectedEnd, "unexpected end", end)
        && refuses(alloc, FrameError::Malformed, "malformed", Reason::Malformed)
        && refuses(alloc, FrameError::InvalidId, "invalid frame ID", id)
        && prints(alloc, &INVALID, "invalid frame: malformed");
    assert!(rt; say_why);
}

/// Whether parameters that are refused so are told so, and give that reason.
fn are_unfit(alloc: Global, error: TransportParametersError, wanted: &str, told: Reason) -> bool {
    prints(alloc, &error, wanted) && TransportError::from(error).reason() == told
}

#[test]
fn refused_parameters_say_why(rt: HostRuntime) {
    let alloc = rt.alloc();
    let malformed = TransportParametersError::Malformed;
    let illegal = TransportParametersError::IllegalValue;
    let (text, why) = ("parameter had illegal value", Reason::IllegalValue);
    let say_why = are_unfit(
        alloc,
        malformed,
        "parameters are malformed",
        Reason::Malformed,
    ) && are_unfit(alloc, illegal, text, why);
    assert!(rt; say_why);
}

/// Whether an error of that code says all that it is told.
fn stays(alloc: Global, code: Code) -> bool {
    let error = TransportError::new(code, Some(FrameType::STREAM), Reason::TooManyBytes);
    let wanted = "FLOW_CONTROL_ERROR in STREAM: past a limit on bytes";
    prints(alloc, &error, wanted)
        && error.copied().reason() == Reason::TooManyBytes
        && TransportError::from(code).reason() == Reason::Unsaid
}

#[test]
fn reasons_stay(rt: HostRuntime) {
    assert!(rt; stays(rt.alloc(), Code::FLOW_CONTROL_ERROR));
}
