//! What the search for a greater size of datagrams hears of a path (RFC 8899; RFC 9000, section
//! 14.3).
ghost use Rattle.std.specs.Prelude.{◌≡◌, ◌≤◌};
ghost use Rattle.quic_congestion.specs.Congestion.{HasRoom, after_calls};
ghost use Rattle.quic_congestion.specs.Search.{poll_names, after_poll, after_ack, after_probe_lost, after_packet_lost, after_question};
ghost use Rattle.quic_machine.specs.Sizes.{told_size};
ghost use Rattle.quic_connection_parts.specs.Telling.{IsTold};

use crate::telling::tell_resized;
use quic_congestion::Controller;
use quic_machine::Instant;
use quic_paths::PathData;

/// The search on a path is asked for a size to probe under a number, which it answers.
pub fn poll_search<C>(path: &mut PathData<C>, now: Instant, number: u64) -> Option<u16>
    ensures named { result ≡ poll_names now path.old.discovery }
    ensures path { path.new ≡ record path.old { discovery = after_poll now number path.old.discovery } }
{
    path.mtud.poll_transmit(now, number)
}

/// It hears that a packet of so many bytes is acknowledged.
fn hear_acked<C>(path: &mut PathData<C>, number: u64, size: u16)
    ensures { path.new ≡ record path.old { discovery = after_ack number size path.old.discovery } }
{
    path.mtud.on_acked(number, size);
}

/// It hears that its open probe is lost.
pub fn hear_probe_lost<C>(path: &mut PathData<C>)
    ensures { path.new ≡ record path.old { discovery = after_probe_lost path.old.discovery } }
{
    path.mtud.on_probe_lost();
}

/// It hears that another packet of so many bytes is lost.
pub fn hear_lost<C>(path: &mut PathData<C>, number: u64, size: u16)
    ensures { path.new ≡ record path.old { discovery = after_packet_lost number size path.old.discovery } }
{
    path.mtud.on_non_probe_lost(number, size);
}

/// It is asked whether the path carries less than before, which it answers.
fn hear_question<C>(path: &mut PathData<C>, now: Instant) -> bool
    ensures { path.new ≡ record path.old { discovery = after_question now path.old.discovery } }
{
    path.mtud.black_hole_detected(now)
}

/// It hears that a packet of so many bytes is acknowledged, and the controller is told of a size
/// that changed.
pub fn path_acked<C: Controller>(path: &mut PathData<C>, number: u64, size: u16)
    ensures told { let discovery = after_ack number size path.old.discovery in
        path.new ≡ record path.old { discovery = discovery; congestion = after_calls C.steps path.old.congestion (told_size path.old.discovery discovery) } }
    ensures sizes { path.old.discovery.size ≤ C.size_of path.old.congestion → HasRoom (C.size_of path.old.congestion) (C.window_of path.old.congestion)
        → IsTold C.size_of C.window_of (after_ack number size path.old.discovery).size path.new.congestion }
{
    let before = path.current_mtu();
    hear_acked(path, number, size);
    tell_resized(path, before);
}

/// It is asked whether the path carries less than before, which it answers, and the controller is
/// told of a size that fell.
pub fn path_asked<C: Controller>(path: &mut PathData<C>, now: Instant) -> bool
    ensures told { let discovery = after_question now path.old.discovery in
        path.new ≡ record path.old { discovery = discovery; congestion = after_calls C.steps path.old.congestion (told_size path.old.discovery discovery) } }
    ensures sizes { path.old.discovery.size ≤ C.size_of path.old.congestion → HasRoom (C.size_of path.old.congestion) (C.window_of path.old.congestion)
        → IsTold C.size_of C.window_of (after_question now path.old.discovery).size path.new.congestion }
{
    let before = path.current_mtu();
    let fell = hear_question(path, now);
    tell_resized(path, before);
    fell
}
