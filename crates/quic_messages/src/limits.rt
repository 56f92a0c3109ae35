//! What bounds the messages of an end.
ghost use Rattle.std.specs.Prelude.{◌≡◌};
ghost use Rattle.quic_messages.specs.Sending.{max_size};

use quic_wire::frame::Datagram;
use quic_wire_core::VarInt;

/// The bytes of a packet that a message leaves to others than the connection id: the first byte,
/// the packet number, the tag, and the frame's type and length at their longest.
const PACKET_OVERHEAD: usize = 1 + 4 + 16 + Datagram::SIZE_BOUND;

/// What an end knows of its connection that bounds its messages.
#[derive(Clone, Copy, Debug, PartialEq, Eq)]
pub struct DatagramLimits {
    /// Whether the end is open: nothing is sent at any other.
    pub is_open: bool,
    /// How many bytes of unread messages this end keeps, and the longest message that it takes.
    /// `None` where it takes none. A message without a byte takes one of them.
    pub receive_buffer_size: Option<usize>,
    /// How many bytes of messages may wait to be sent.
    pub send_buffer_size: usize,
    /// The longest message that may be sent, in bytes, as [`max_size`] tells. `None` where the peer
    /// takes no messages.
    pub max_size: Option<usize>,
}

/// The longest message that may be sent, in bytes: its frame is one that the peer takes, and fits
/// in a packet of the path's current size (quinn-proto's `Datagrams::max_size`). `None` where the
/// peer takes no messages: its `max_datagram_frame_size` (RFC 9221, section 3) is 0. `current_size`
/// is that of a UDP payload in bytes, and `id_length` that of the peer's connection id.
pub fn max_size(
    max_datagram_frame_size: VarInt,
    current_size: u16,
    id_length: usize,
) -> Option<usize>
    ensures { result ≡ max_size max_datagram_frame_size current_size id_length }
{
    let frame_size = max_datagram_frame_size.into_inner() as usize;
    if frame_size == 0 {
        return None;
    }
    let by_peer = frame_size.saturating_sub(Datagram::SIZE_BOUND);
    let by_path = usize::from(current_size)
        .saturating_sub(id_length)
        .saturating_sub(PACKET_OVERHEAD);
    Some(by_peer.min(by_path))
}
