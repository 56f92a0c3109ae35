//! What statistics say at first. The functions say in contracts what a derive says of its own.
ghost use Rattle.std.specs.Prelude.{◌≡◌};
ghost use Rattle.quic_stats.specs.Stats.{no_stats};

use crate::connection::ConnectionStats;

/// Nothing was counted: all statistics are zero.
pub fn statistics_begin_at_zero() -> ConnectionStats
    ensures { result ≡ no_stats }
{
    ConnectionStats::default()
}
