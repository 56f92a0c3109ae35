//! A run in which two round trips are measured, computed, and the same run as machines with a bug
//! show it. Each function does nothing: its contract is the law.
ghost use Rattle.std.specs.Prelude.{◌≡◌, Some, None, ℕ};
ghost use Rattle.quic_wire_core.specs.declared.stream_id.Side.TheVariants.{Client};
ghost use Rattle.quic_headline.specs.Observer.{watch};
ghost use Rattle.quic_headline.specs.Headline.{IsHonest, IsRun};
ghost use Rattle.quic_headline.specs.Moments.{LossMoments};
ghost use Rattle.quic_worked.specs.Timed.{due_at, NeverShows};
ghost use Rattle.quic_worked.specs.Smoothed.{once_smoothed, smoothed_run, undelayed_run, hasty_rtt, shortened_rtt};

/// Where 100 ms are assumed, the first datagram is waited for during 325 ms. It is acknowledged
/// after 50 ms, the first sample, of which the peer's delay isn't taken off; so the second one is
/// waited for during 175 ms. That is acknowledged after 100 ms, of which 75 ms are left without the
/// delay: the third one is waited for during 178.125 ms (RFC 9002, sections 5.3 and 6.2.1).
pub fn round_trips_are_smoothed()
    ensures honest { IsHonest smoothed_run }
    ensures run { IsRun smoothed_run (once_smoothed 14) }
    ensures assumed { (watch smoothed_run Client 5).flight.rtt
        ≡ record {
          latest = 100000000;
          smoothed = None;
          var = 50000000;
          least = 100000000;
        } }
    ensures first { (watch smoothed_run Client 6).flight.rtt
        ≡ record {
          latest = 50000000;
          smoothed = Some 50000000;
          var = 25000000;
          least = 50000000;
        } }
    ensures second { (watch smoothed_run Client 12).flight.rtt
        ≡ record {
          latest = 100000000;
          smoothed = Some 53125000;
          var = 25000000;
          least = 50000000;
        } }
    ensures due_first { due_at smoothed_run Client 2 ≡ Some 325000000 }
    ensures due_second { due_at smoothed_run Client 8 ≡ Some 235000000 }
    ensures due_third { due_at smoothed_run Client 14 ≡ Some 338125000 }
    ensures moments { LossMoments smoothed_run }
{}

/// A client that never takes the peer's delay off, which shows another moment behind its third
/// datagram.
pub fn kept_delay_shows()
    ensures honest { IsHonest undelayed_run }
    ensures moments { LossMoments undelayed_run → ⊥ }
    ensures machine { NeverShows undelayed_run }
{}

/// A client that takes a quarter of a sample, and not an eighth, which shows another moment there.
pub fn quick_smoothing_shows()
    ensures honest { IsHonest hasty_rtt }
    ensures moments { LossMoments hasty_rtt → ⊥ }
    ensures machine { NeverShows hasty_rtt }
{}

/// A client that takes the peer's delay off the first sample too, which shows another moment behind
/// its second datagram.
pub fn first_delay_shows()
    ensures honest { IsHonest shortened_rtt }
    ensures moments { LossMoments shortened_rtt → ⊥ }
    ensures machine { NeverShows shortened_rtt }
{}
