//! Runs in which the timers of path validation, of keep-alive and of being idle are set and expire,
//! computed, and machines that set them wrongly. Each function does nothing: its contract is the
//! law.
ghost use Rattle.std.specs.Prelude.{◌≡◌, None, Some};
ghost use Rattle.quic_wire_core.specs.declared.stream_id.Side.TheVariants.{Client, Server};
ghost use Rattle.quic_headline.specs.Expiring.{silence, IdleMoments, AliveMoments, questions, PathMoments};
ghost use Rattle.quic_headline.specs.Headline.{IsHonest, IsRun};
ghost use Rattle.quic_headline.specs.Waited.{wants};
ghost use Rattle.quic_worked.specs.Broken.{IsNoRun};
ghost use Rattle.quic_worked.specs.Ended.{idle_run};
ghost use Rattle.quic_worked.specs.Expiring.{once_renewed, renewed_run, never_renews, renews_early, renews_answered, once_alive, alive_run, alive_anew};
ghost use Rattle.quic_worked.specs.Isolated.{idle_anew};
ghost use Rattle.quic_worked.specs.Timed.{NeverShows};

/// A server whose peer's address isn't validated waits for an answer during three probe timeouts of
/// 1024 ms, and as long again once it asked anew. The machine's timer is set so.
pub fn challenge_is_renewed()
    ensures honest { IsHonest renewed_run }
    ensures run { IsRun renewed_run (once_renewed 2) }
    ensures asked { (questions renewed_run Server 1).due ≡ Some 3072000000 }
    ensures renewed { (questions renewed_run Server 2).due ≡ Some 6144000000 }
    ensures moments { PathMoments renewed_run }
{}

/// A server that asks once shows no such timer, one that waits for one probe timeout when it asks
/// anew another moment, and one whose peer answered a timer that isn't to be set. The machine shows
/// none of these.
pub fn wrong_renewals_show()
    ensures never { PathMoments never_renews → ⊥ }
    ensures early { PathMoments renews_early → ⊥ }
    ensures answered { PathMoments renews_answered → ⊥ }
    ensures machine_never { NeverShows never_renews }
    ensures machine_early { NeverShows renews_early }
    ensures machine_answered { NeverShows renews_answered }
{}

/// A client that is to be without a packet for ten seconds at most waits so long from its datagram
/// on, and once that time is over no more. The machine's timer is set so.
pub fn keep_alive_expires()
    ensures honest { IsHonest alive_run }
    ensures run { IsRun alive_run (once_alive 2) }
    ensures sent { (wants alive_run Client 1).alive ≡ Some 10000000000 }
    ensures over { (wants alive_run Client 2).alive ≡ None }
    ensures moments { AliveMoments alive_run }
{}

/// A client that waits for ten seconds more before a datagram went shows another moment, which the
/// machine doesn't.
pub fn keep_alive_anew_shows()
    ensures moments { AliveMoments alive_anew → ⊥ }
    ensures machine { NeverShows alive_anew }
{}

/// A client may be idle for 30 seconds from its datagram on.
pub fn idle_time_runs()
    ensures sent { (silence idle_run Client 1).over ≡ Some 30000000000 }
    ensures moments { IdleMoments idle_run }
{}

/// Timers: the idle timer begins anew with bytes that are dropped (RFC 9000, section 10.1).
pub fn idle_time_anew_shows()
    ensures moments { IdleMoments idle_anew → ⊥ }
    ensures premises { IsHonest idle_anew }
    ensures machine { IsNoRun idle_anew }
{}
