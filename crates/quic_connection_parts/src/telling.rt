//! What the congestion controller of a path is told (RFC 9002, section 7).
ghost use Rattle.std.specs.Prelude.{◌≡◌, ◌≤◌, ◌==◌, not, Option};
ghost use Rattle.quic_congestion.specs.Congestion.{HasRoom, KeepsRoom, Sent, Acked, AcksEnded, Congested, after_call, after_calls};
ghost use Rattle.quic_machine.specs.Sizes.{told_if_resized};
ghost use Rattle.quic_connection_parts.specs.Telling.{IsTold};

use quic_congestion::Controller;
use quic_machine::Instant;
use quic_paths::PathData;
use quic_sent_packets::SentPacket;

/// A packet of this number and so many bytes goes, which asks for an acknowledgement.
pub fn tell_sent<C: Controller>(path: &mut PathData<C>, now: Instant, size: u16, number: u64)
    ensures told { path.new ≡ record path.old { congestion = after_call C.steps (Sent now size number) path.old.congestion } }
    ensures room { KeepsRoom C.size_of C.window_of path.old.congestion path.new.congestion }
{
    path.congestion.on_sent(now, u64::from(size), number);
}

/// A packet is acknowledged. `limited` says that what there was to send bounded what was in flight.
pub fn tell_ack<C: Controller>(
    path: &mut PathData<C>,
    now: Instant,
    packet: &SentPacket,
    limited: bool,
)
    ensures told { path.new ≡ record path.old { congestion = after_call C.steps (Acked now packet.now.time_sent packet.now.size limited path.old.rtt) path.old.congestion } }
    ensures room { KeepsRoom C.size_of C.window_of path.old.congestion path.new.congestion }
{
    let size = u64::from(packet.size);
    let PathData {
        congestion,
        rtt,
        ..
    } = path;
    congestion.on_ack(now, packet.time_sent, size, limited, rtt);
}

/// All packets are acknowledged that an ACK frame named: so many bytes are left in flight, and this
/// is the greatest number that the peer named.
pub fn tell_acks_ended<C: Controller>(
    path: &mut PathData<C>,
    now: Instant,
    in_flight: u64,
    limited: bool,
    largest: Option<u64>,
)
    ensures told { path.new ≡ record path.old { congestion = after_call C.steps (AcksEnded now in_flight limited largest) path.old.congestion } }
    ensures room { KeepsRoom C.size_of C.window_of path.old.congestion path.new.congestion }
{
    path.congestion
        .on_end_acks(now, in_flight, limited, largest);
}

/// Packets of so many bytes are lost, the last of which went at a moment, and congestion persists
/// or doesn't.
pub fn tell_congested<C: Controller>(
    path: &mut PathData<C>,
    now: Instant,
    sent: Instant,
    persistent: bool,
    lost: u64,
)
    ensures told { path.new ≡ record path.old { congestion = after_call C.steps (Congested now sent persistent lost) path.old.congestion } }
    ensures room { KeepsRoom C.size_of C.window_of path.old.congestion path.new.congestion }
{
    path.congestion
        .on_congestion_event(now, sent, persistent, lost);
}

/// The size of datagrams on the path was this before. It is told where it changed.
pub(crate) fn tell_resized<C: Controller>(path: &mut PathData<C>, before: u16)
    ensures told { path.new ≡ record path.old { congestion = after_calls C.steps path.old.congestion (told_if_resized (not (before == path.old.discovery.size)) path.old.discovery.size) } }
    ensures sizes { before ≤ C.size_of path.old.congestion → HasRoom (C.size_of path.old.congestion) (C.window_of path.old.congestion) → IsTold C.size_of C.window_of path.old.discovery.size path.new.congestion }
{
    let size = path.current_mtu();
    if size != before {
        path.congestion.on_mtu_update(size);
    }
}
