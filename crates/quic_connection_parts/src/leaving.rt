//! What leaves in a datagram.

/// What leaves in the next datagram: all that waits; where what asks for an acknowledgement is held
/// back, a due acknowledgement alone; or PING as a probe of a size in bytes (RFC 8899, section
/// 4.1).
#[derive(Clone, Copy, Debug, Drop)]
pub enum Leaving {
    Whole,
    Alone,
    Probe(u16),
}
