//! A run in which PTO probes have the least size, as a path may carry less than it did, computed;
//! and a machine whose probe has the current size. Each function does nothing: its contract is the
//! law.
ghost use Rattle.std.specs.Prelude.{◌≡◌};
ghost use Rattle.quic_wire_core.specs.declared.stream_id.Side.TheVariants.{Client};
ghost use Rattle.quic_headline.specs.Runs.{In};
ghost use Rattle.quic_headline.specs.Observer.{watch, acked_until};
ghost use Rattle.quic_headline.specs.Headline.{IsHonest, IsRun};
ghost use Rattle.quic_headline.specs.Polls.{mtu_in, GaveAsking};
ghost use Rattle.quic_headline.specs.Sizes.{DatagramsAreSized};
ghost use Rattle.quic_worked.specs.Broken.{IsNoRun};
ghost use Rattle.quic_worked.specs.Shortened.{once_shortened, larger_with, shortened_run, full_sent, probe_sent, long_probe_run};

/// A client that fills up its datagrams and found a size of 1326 bytes gives one of as many while
/// no PTO probe is queued. That isn't acknowledged; once the loss timer expired, two probes are
/// queued, and what goes then is filled up to 1200 bytes, the least size. Once the first of these
/// is acknowledged, no probe is queued, and the size is 1326 still (RFC 8899, section 4.3; RFC
/// 9000, section 14.3; RFC 9002, section 6.2.4).
pub fn probes_are_short()
    ensures honest { IsHonest shortened_run }
    ensures run { IsRun shortened_run (once_shortened 14) }
    ensures none_queued { (watch shortened_run Client 7).flight.probes ≡ 0 }
    ensures full { (gave : GaveAsking shortened_run Client 7 20000000)
        × (gave.one.sent ≡ full_sent) }
    ensures queued { (watch shortened_run Client 9).flight.probes ≡ 2 }
    ensures first { (gave : GaveAsking shortened_run Client 9 105000000)
        × (gave.one.sent ≡ probe_sent 3) }
    ensures second { (gave : GaveAsking shortened_run Client 10 105000000)
        × (gave.one.sent ≡ probe_sent 4) }
    ensures acknowledged { In (probe_sent 3) (acked_until shortened_run Client 14) }
    ensures none_left { (watch shortened_run Client 14).flight.probes ≡ 0 }
    ensures size { mtu_in (larger_with None) Client ≡ 1326 }
    ensures sized { DatagramsAreSized shortened_run }
{}

/// A client that fills a probe up to the current size.
pub fn long_probe_shows()
    ensures sized { DatagramsAreSized long_probe_run → ⊥ }
    ensures premises { IsHonest long_probe_run }
    ensures machine { IsNoRun long_probe_run }
{}
