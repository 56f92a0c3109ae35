//! A run in which a client looks for a larger size of datagrams and finds one, computed. Each
//! function does nothing: its contract is the law.
ghost use Rattle.std.specs.Prelude.{◌≡◌, ◌≤◌};
ghost use Rattle.quic_wire_core.specs.declared.stream_id.Side.TheVariants.{Client, Server};
ghost use Rattle.quic_congestion.specs.Congestion.{last_size};
ghost use Rattle.quic_headline.specs.Observer.{watch};
ghost use Rattle.quic_headline.specs.Headline.{IsHonest, IsRun};
ghost use Rattle.quic_headline.specs.Polls.{mtu_in, seen_at, GaveOne, GaveAsking, IsSizeProbe, IsHistory};
ghost use Rattle.quic_headline.specs.Sizes.{WasProbed};
ghost use Rattle.quic_worked.specs.Timed.{seen_with};
ghost use Rattle.quic_worked.specs.Searched.{once_searched, told_of_size, found_view, searched_run};

/// Where nothing waits, as its ids are told, a client whose size is 1200 gives a datagram of 1326
/// bytes, which is an MTU probe, while no PTO probe is queued; the server's acknowledgement has no
/// more bytes than its size. Once that came, the client's size is that of the probe, which was in
/// flight before and is acknowledged behind; and its controller was told so (RFC 8899, sections 5.2
/// and 5.3; RFC 9000, section 14.3).
pub fn larger_size_is_found()
    ensures honest { IsHonest searched_run }
    ensures run { IsRun searched_run (once_searched 6) }
    ensures probe { (gave : GaveAsking searched_run Client 1 0) × IsSizeProbe searched_run Client 1 gave.one.sent }
    ensures queued { (watch searched_run Client 1).flight.probes ≡ 0 }
    ensures size { (seen_at searched_run Client 1).current_mtu ≡ 1200 }
    ensures ordinary { (gave : GaveOne searched_run Server 4 35000000) × (gave.sent.size ≤ (seen_at searched_run Server 4).current_mtu) }
    ensures before { mtu_in (seen_with (Some 1024000000) None) Client ≡ 1200 }
    ensures behind { mtu_in found_view Client ≡ 1326 }
    ensures probed { WasProbed searched_run Client 5 1326 }
    ensures history { IsHistory searched_run Client 6 (once_searched 6) told_of_size }
    ensures last { last_size 1200 told_of_size ≡ 1326 }
{}
