//! A frame that is read and printed.
use quic_wire::frame::{Frame, Iter, NewConnectionId};
use quic_wire::{ConnectionId, ResetToken};
use std::alloc::{AllocError, Global};

/// NEW_CONNECTION_ID of number 2, with the id of RFC 9001, appendix A.
const ISSUED: [u8; 28] = [
    0x18, 0x02, 0x01, 0x08, 0x83, 0x94, 0xc8, 0xf0, 0x3e, 0x51, 0x57, 0x08, 0, 1, 2, 3, 4, 5, 6, 7,
    8, 9, 10, 11, 12, 13, 14, 15,
];

/// That id.
const ID: [u8; 8] = [0x83, 0x94, 0xc8, 0xf0, 0x3e, 0x51, 0x57, 0x08];

/// Its token.
const TOKEN: [u8; 16] = [0, 1, 2, 3, 4, 5, 6, 7, 8, 9, 10, 11, 12, 13, 14, 15];

/// Whether the frame of these bytes gives the ID.
fn is_read(bytes: &[u8], issued: &NewConnectionId) -> bool {
    match Iter::new(bytes).next() {
        Some(Ok(Frame::NewConnectionId(read))) => read == *issued,
        _ => false,
    }
}

#[test]
fn an_id_is_read(rt: HostRuntime) {
    let issued = NewConnectionId {
        sequence: 2,
        retire_prior_to: 1,
        id: ConnectionId::new(&ID),
        reset_token: ResetToken::from(TOKEN),
    };
    assert!(rt; is_read(&ISSUED, &issued));
}

/// What is printed of the first frame of these bytes.
fn printed(alloc: Global, bytes: &[u8]) -> Option<Result<String, AllocError>> {
    match Iter::new(bytes).next() {
        Some(frame) => Some(format!(in alloc; "{frame:?}")),
        None => None,
    }
}

#[test]
fn a_frame_is_printed(rt: HostRuntime) {
    let text = printed(rt.alloc(), &[0x05, 0x08, 0x3f]);
    let wanted = "Ok(StopSending(StopSending { id: StreamId(8), error_code: VarInt(63) }))";
    assert!(rt; matches!(&text, Some(Ok(text)) if text.as_str() == wanted));
}
