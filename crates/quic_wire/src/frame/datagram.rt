//! Messages of the application, in values that own their bytes (RFC 9221).

/// A message that may be lost, and isn't sent again (RFC 9221, section 4; quinn-proto's
/// `frame::Datagram`).
#[derive(Clone, Debug, PartialEq, Eq, Drop)]
pub struct Datagram {
    /// The message.
    pub data: Vec<u8>,
}

impl Datagram {
    /// The most bytes that stand before the message in a frame: type and length.
    pub const SIZE_BOUND: usize = 1 + 8;
}
