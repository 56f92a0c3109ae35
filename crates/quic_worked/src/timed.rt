//! A run in which timers expire, computed, and the same run as machines with a bug show it. Each
//! function does nothing: its contract is the law.
ghost use Rattle.std.specs.Prelude.{◌≡◌, ◌∷◌, [], Some, None};
ghost use Rattle.quic_wire_core.specs.declared.stream_id.Side.TheVariants.{Client, Server};
ghost use Rattle.quic_headline.specs.Headline.{IsHonest, IsRun};
ghost use Rattle.quic_headline.specs.Moments.{debt, LossMoments, AckMoments};
ghost use Rattle.quic_headline.specs.Views.{ViewsTell};
ghost use Rattle.quic_worked.specs.Worked.{once_sent};
ghost use Rattle.quic_worked.specs.Broken.{IsNoRun};
ghost use Rattle.quic_worked.specs.Timed.{once_later, asking_run, timed_run, never_backs_off, never_resets, never_measures, waits_twice, once_sampled, sampled_run, unsampled_run, due_at, NeverShows};

/// An acknowledgement is waited for 1024 ms after the datagram that asks, twice as long once the
/// timer expired, and from the probe on; once a datagram in flight is acknowledged after 1060 ms,
/// 3205 ms after the probe, which is still in flight: the 1060 ms that were measured, four times
/// half of that, and 25 ms. The machine's timer is set so.
pub fn wait_doubles()
    ensures before { due_at timed_run Client 3 ≡ None }
    ensures sent { due_at timed_run Client 4 ≡ Some 1024000000 }
    ensures expired { due_at timed_run Client 5 ≡ Some 2048000000 }
    ensures probed { due_at timed_run Client 6 ≡ Some 3072000000 }
    ensures answered { due_at timed_run Client 10 ≡ Some 4229000000 }
    ensures server { due_at timed_run Server 10 ≡ None }
    ensures run { IsRun timed_run (once_later 6) }
    ensures moments { LossMoments timed_run }
{}

/// A client that never waits longer shows another moment; so does one that waits twice as long also
/// behind an acknowledgement, and one that never measures a round trip. The machine shows none of
/// these.
pub fn wrong_waits_show()
    ensures backs_off { LossMoments never_backs_off → ⊥ }
    ensures resets { LossMoments never_resets → ⊥ }
    ensures measures { LossMoments never_measures → ⊥ }
    ensures machine_backs_off { NeverShows never_backs_off }
    ensures machine_resets { NeverShows never_resets }
    ensures machine_measures { NeverShows never_measures }
{}

/// An acknowledgement waits for 25 ms behind the moment at which the packet that asks came, or
/// until an ACK frame goes. The machine's timer is set so.
pub fn acknowledgement_waits()
    ensures before { (debt timed_run Server 6).deadlines ≡ [] }
    ensures came { (debt timed_run Server 7).deadlines ≡ 1055000000 ∷ [] }
    ensures due { (debt timed_run Server 8).deadlines ≡ 1055000000 ∷ [] }
    ensures went { (debt timed_run Server 9).deadlines ≡ [] }
    ensures client { (debt timed_run Client 10).deadlines ≡ [] }
    ensures moments { AckMoments timed_run }
{}

/// A server that waits 25 ms twice shows another moment, which the machine doesn't.
pub fn second_delay_shows()
    ensures moments { AckMoments waits_twice → ⊥ }
    ensures machine { NeverShows waits_twice }
{}

/// Where the client is asked when its timer of losses expires, and when its next timer does, it
/// answers what its view shows: 1024 ms behind its datagram. One that answers that no timer is set
/// is none of the machine's.
pub fn timers_are_told()
    ensures run { IsRun (asking_run (Some 1024000000) (Some 1024000000)) once_sent }
    ensures told { ViewsTell (asking_run (Some 1024000000) (Some 1024000000)) }
    ensures timer { ViewsTell (asking_run None (Some 1024000000)) → ⊥ }
    ensures next { ViewsTell (asking_run (Some 1024000000) None) → ⊥ }
    ensures timer_machine { IsNoRun (asking_run None (Some 1024000000)) }
    ensures next_machine { IsNoRun (asking_run (Some 1024000000) None) }
{}

/// Where a round trip of 100 ms was measured before the connection begins, which varies by 20 ms,
/// the first datagram is waited for during 205 ms: that time, four times its variation, and 25 ms
/// (RFC 9002, sections 5.3 and 6.2.1). A client that assumes a round trip all the same shows
/// another moment, which the machine doesn't.
pub fn first_sample_counts()
    ensures honest { IsHonest sampled_run }
    ensures run { IsRun sampled_run once_sampled }
    ensures due { due_at sampled_run Client 1 ≡ Some 205000000 }
    ensures moments { LossMoments sampled_run }
    ensures wrong { LossMoments unsampled_run → ⊥ }
    ensures wrong_honest { IsHonest unsampled_run }
    ensures machine { NeverShows unsampled_run }
{}
