//! When the pacer of a path lets a datagram go (RFC 9002, section 7.7).
ghost use Rattle.std.specs.Prelude.{◌≡◌, ◌<◌, max};
ghost use Rattle.quic_congestion.specs.Pacer.{after_delay, delay_of};
ghost use Rattle.quic_time.specs.Rtt.{best_rtt};

use quic_machine::Instant;
use quic_paths::PathData;
use quic_time::Duration;

/// The moment until which one more datagram has to wait at this moment, if the pacer of a path
/// holds it back, whose window this is.
pub fn pacer_answer<C>(path: &mut PathData<C>, window: u64, now: Instant) -> Option<Instant>
    requires { 0 < window }
    ensures answer { result ≡ delay_of path.old.pacing (max (best_rtt path.old.rtt) 1) path.old.discovery.size path.old.discovery.size window now }
    ensures path { path.new ≡ record path.old { pacing = after_delay path.old.pacing (max (best_rtt path.old.rtt) 1) path.old.discovery.size path.old.discovery.size window now } }
{
    let size = path.current_mtu();
    let rtt = path.rtt.get().max(Duration::from_nanos(1));
    path.pacing.delay(rtt, u64::from(size), size, window, now)
}
