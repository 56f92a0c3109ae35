//! A round trip that was measured before the connection begins.

use quic_time::Duration;

/// The most nanoseconds that the round trip of a first sample takes, and that it varies: a minute,
/// past which no handshake is waited for.
pub const MAX_FIRST_SAMPLE_NANOS: u64 = 60_000_000_000;

/// A round trip that was measured before the connection begins, as by the handshake (RFC 9002,
/// section 5): the path begins with it as with its first sample.
#[derive(Clone, Copy, Debug, PartialEq, Eq)]
pub struct FirstSample {
    /// How long it took: from 1 ns to [`MAX_FIRST_SAMPLE_NANOS`].
    pub rtt: Duration,
    /// How far round trips vary, by what was measured (RFC 9002, section 5.3, rttvar): from 1 ns to
    /// [`MAX_FIRST_SAMPLE_NANOS`]. Of a single one that is half of it.
    pub variation: Duration,
}
