//! Why messages aren't sent or taken.

use thiserror::Error;

/// Why a message isn't sent (quinn-proto's `SendDatagramError`).
#[derive(Clone, Copy, Debug, PartialEq, Eq, Error)]
pub enum SendDatagramError {
    /// The peer takes no messages.
    #[error("datagrams not supported by peer")]
    UnsupportedByPeer,
    /// This end takes no messages, so it sends none either.
    #[error("datagram support disabled")]
    Disabled,
    /// The message is longer than the peer, or a packet on the path, takes.
    #[error("datagram too large")]
    TooLarge,
    /// The send buffer has no room for it, or the end isn't open.
    #[error("datagram send blocked")]
    Blocked,
    /// Out of memory: an allocation failed. Nothing has changed.
    #[error("out of memory")]
    Memory,
}

/// Why a message that came wasn't taken.
#[derive(Clone, Copy, Debug, PartialEq, Eq, Error)]
pub enum ReceivedError {
    /// It came although this end takes no messages, or it is longer than this end takes: the peer
    /// broke the protocol (RFC 9221, section 3), and the connection closes by PROTOCOL_VIOLATION.
    #[error("a message that this end doesn't take")]
    Breach,
    /// Out of memory: an allocation failed. Nothing has changed.
    #[error("out of memory")]
    Memory,
}
