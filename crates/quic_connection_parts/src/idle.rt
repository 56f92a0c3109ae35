//! How long a connection may be without a packet (RFC 9000, section 10.1).
ghost use Rattle.std.specs.Prelude.{◌≡◌};
ghost use Rattle.quic_parameters.specs.Parameters.{AreInRange};
ghost use Rattle.quic_machine.specs.Idle.{lesser_timeout, agreed_timeout};

use quic_machine::TransportConfig;
use quic_parameters::TransportParameters;
use quic_time::Duration;

/// The lesser of both ends' idle timeouts; `None` where neither has one. One of 0 milliseconds is
/// none (RFC 9000, section 18.2; quinn-proto's `negotiate_max_idle_timeout`).
pub fn negotiate_max_idle_timeout(
    transport: &TransportConfig,
    theirs: &TransportParameters,
) -> Option<Duration>
    requires { AreInRange theirs.now }
    ensures { result ≡ agreed_timeout transport.now theirs.now }
{
    let own = transport
        .transport_parameters()
        .max_idle_timeout
        .into_inner();
    let peer = theirs.max_idle_timeout.into_inner();
    match lesser_timeout(own, peer) {
        0 => None,
        millis => Some(Duration::from_millis(millis)),
    }
}

/// The lesser of two timeouts, of which 0 is none.
fn lesser_timeout(own: u64, peer: u64) -> u64
    ensures { result ≡ lesser_timeout own peer }
{
    if own == 0 || peer == 0 {
        own.max(peer)
    } else {
        own.min(peer)
    }
}
