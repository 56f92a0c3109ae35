//! Messages that go (RFC 9221).
ghost use Rattle.std.specs.Prelude.{◌≡◌, ◌-◌, ◌+◌, ◌≤◌, ◌<◌, ◌^◌, ◌++◌, map, take, vec_len, vec_capacity};
ghost use Rattle.quic_wire.specs.Value.{datagram};
ghost use Rattle.quic_wire.specs.Writing.{Fits, spelling, spelled_all, frame_size};
ghost use Rattle.quic_connection_parts.specs.Frames.{message_part, messages_left};

use quic_messages::DatagramState;
use quic_stats::FrameStats;
use quic_wire_core::VarInt;
use quic_wire_core::reserved::{append, put_varint};

/// The type of a DATAGRAM frame that has its length (RFC 9221, section 4).
const DATAGRAM_WITH_LENGTH: u8 = 0x31;

/// Appends messages that wait, the oldest first, up to the first that doesn't fit, behind the
/// frames of a packet whose payload begins at `body` and may have `most` bytes, for which there is
/// room.
pub(crate) fn put_messages(
    datagrams: &mut DatagramState,
    stats: &mut FrameStats,
    body: usize,
    most: usize,
    out: &mut Vec<u8>,
)
    requires body { body ≤ vec_len out.old }
    requires within { vec_len out.old ≤ body + most }
    requires room { body + most ≤ vec_capacity out.old }
    requires few { most < 2 ^ 62 }
    ensures items { out.new.items ≡ out.old.items ++ spelled_all (map datagram (message_part most (vec_len out.old - body) datagrams.old.outgoing)) }
    ensures left { datagrams.new ≡ record datagrams.old { outgoing = messages_left most (vec_len out.old - body) datagrams.old.outgoing } }
    ensures within { vec_len out.new ≤ body + most }
    ensures grows { vec_len out.old ≤ vec_len out.new }
    ensures capacity { vec_capacity out.old ≤ vec_capacity out.new }
    ensures front { take (vec_len out.old) out.new.items ≡ out.old.items }
{
    while let Some(message) = datagrams.next_frame(body + most - out.len()) {
        put_message(out, &message);
        stats.datagram = stats.datagram.saturating_add(1);
    }
}

/// Appends the frame of a message, for which there is room.
fn put_message(out: &mut Vec<u8>, message: &[u8])
    requires form { Fits (datagram message.now) }
    requires room { vec_len out.old + frame_size (datagram message.now) ≤ vec_capacity out.old }
    ensures items { out.new.items ≡ out.old.items ++ spelling (datagram message.now) }
    ensures len { vec_len out.new ≡ vec_len out.old + frame_size (datagram message.now) }
    ensures capacity { vec_capacity out.old ≤ vec_capacity out.new }
{
    append(out, &[DATAGRAM_WITH_LENGTH]);
    put_varint(out, VarInt::from_u64_unchecked(message.len() as u64));
    append(out, message);
}
