//! Runs in which a client whose application closes it says so, and is drained, computed, and
//! machines whose closes go wrong. Each function does nothing: its contract is the law.
ghost use Rattle.std.specs.Prelude.{◌≡◌, true, false, ◌∷◌, [], Some, None};
ghost use Rattle.quic_wire_core.specs.declared.stream_id.Side.TheVariants.{Client, Server};
ghost use Rattle.quic_wire.specs.Close.{by_application};
ghost use Rattle.quic_wire.specs.Value.{application_close};
ghost use Rattle.quic_machine.specs.declared.answers.LostReason.TheVariants as reasons;
ghost use Rattle.quic_headline.specs.Runs.{until};
ghost use Rattle.quic_headline.specs.Observer.{sents_until};
ghost use Rattle.quic_headline.specs.Headline.{IsHonest, IsRun};
ghost use Rattle.quic_headline.specs.Polls.{GaveOne, seen_at};
ghost use Rattle.quic_headline.specs.Causes.{Shows};
ghost use Rattle.quic_headline.specs.Reasons.{NeverFails};
ghost use Rattle.quic_headline.specs.Expiring.{ClosedTimers, CloseMoments, CloseMomentsStay, DrainsInTime};
ghost use Rattle.quic_headline.specs.Closes.{SaysWhy, ClosesSayWhy, GaveClose, IsToldAs, PeerClosesCome, owed, ClosesAreOwed, MayClose, OwedClosesGo, DrainedAreSilent};
ghost use Rattle.quic_worked.specs.Broken.{IsNoRun};
ghost use Rattle.quic_worked.specs.Machines.{NeverGives};
ghost use Rattle.quic_worked.specs.Renamed.{ids_sent};
ghost use Rattle.quic_worked.specs.Timed.{NeverShows};
ghost use Rattle.quic_worked.specs.Ending.{once_silent, ending_run, close_said, close_sent, keeps_loss_timer, closes_briefly, closes_from_before, closes_anew, drains_at_once, never_drains, other_code, other_text, other_peer, names_frame, told_frame, closes_twice, closes_once, closes_drained};

/// A client whose application closes gives its close once, and once more behind a datagram that
/// came. The server takes it, and the client is drained three probe timeouts behind (RFC 9000,
/// section 10.2). The view shows the timer of its close alone until then. Neither end has failed.
pub fn close_runs_out()
    ensures honest { IsHonest ending_run }
    ensures run { IsRun ending_run once_silent }
    ensures timers { ClosedTimers ending_run }
    ensures moments { CloseMoments ending_run }
    ensures stay { CloseMomentsStay ending_run }
    ensures drains { DrainsInTime ending_run }
    ensures unfailed { NeverFails ending_run }
{}

/// The close says what the application said, both times; and the server shows what came.
pub fn close_says_why()
    ensures sent { sents_until ending_run Client 6
        ≡ ids_sent ∷ close_sent 1 ∷ close_sent 2 ∷ [] }
    ensures why { SaysWhy (seen_at ending_run Client 6).reason (until ending_run Client 6)
        (application_close close_said) }
    ensures shows { Shows ending_run Server 6 (Some (reasons.Peer (by_application close_said))) }
    ensures came { GaveClose ending_run Client 6 (by_application close_said) }
{}

/// The client owes its close until it went, and again once the server's datagram came; then it
/// goes. Once the client is drained, nothing does.
pub fn close_is_owed()
    ensures first { owed ending_run Client 3 ≡ true }
    ensures gone { owed ending_run Client 4 ≡ false }
    ensures again { owed ending_run Client 5 ≡ true }
    ensures over { owed ending_run Client 6 ≡ false }
    ensures may { MayClose ending_run Client 5 }
    ensures gave { GaveOne ending_run Client 5 2000000000 }
    ensures owed { ClosesAreOwed ending_run }
    ensures go { OwedClosesGo ending_run }
    ensures silent { DrainedAreSilent ending_run }
{}

/// Timers: a closing client goes on waiting for an acknowledgement.
pub fn kept_loss_timer_shows()
    ensures timers { ClosedTimers keeps_loss_timer → ⊥ }
    ensures premises { IsHonest keeps_loss_timer }
    ensures machine { NeverShows keeps_loss_timer }
{}

/// Timers: a client is to be closing for two probe timeouts, or for three behind the moment of the
/// call before.
pub fn wrong_close_times_show()
    ensures brief { CloseMoments closes_briefly → ⊥ }
    ensures before { CloseMoments closes_from_before → ⊥ }
    ensures brief_premises { IsHonest closes_briefly }
    ensures before_premises { IsHonest closes_from_before }
    ensures machine_brief { NeverShows closes_briefly }
    ensures machine_before { NeverShows closes_from_before }
{}

/// Timers: the time for which a client is closing begins anew where its close goes again.
pub fn close_time_anew_shows()
    ensures stay { CloseMomentsStay closes_anew → ⊥ }
    ensures premises { IsHonest closes_anew }
    ensures machine { NeverShows closes_anew }
{}

/// Closing: a client is drained once its close went, or never.
pub fn wrong_drains_show()
    ensures early { DrainsInTime drains_at_once → ⊥ }
    ensures never { DrainsInTime never_drains → ⊥ }
    ensures early_premises { IsHonest drains_at_once }
    ensures never_premises { IsHonest never_drains }
    ensures machine_early { NeverShows drains_at_once }
    ensures machine_never { NeverShows never_drains }
{}

/// Closing: a close says another code than the application, or another text.
pub fn wrong_closes_show()
    ensures code { ClosesSayWhy other_code → ⊥ }
    ensures text { ClosesSayWhy other_text → ⊥ }
    ensures code_premises { IsHonest other_code }
    ensures text_premises { IsHonest other_text }
    ensures machine_code { NeverGives other_code }
    ensures machine_text { NeverGives other_text }
{}

/// Closing: a server shows that its peer closed with another code than came.
pub fn wrong_peer_close_shows()
    ensures came { PeerClosesCome other_peer → ⊥ }
    ensures premises { IsHonest other_peer }
    ensures machine { NeverShows other_peer }
{}

/// Of a close that names no frame at fault none is told, and of one that does that one: no other,
/// and not none (RFC 9000, section 19.19).
pub fn frame_at_fault_is_told()
    ensures none { IsToldAs (names_frame 0) (told_frame None) }
    ensures named { IsToldAs (names_frame 8) (told_frame (Some 8)) }
    ensures other { IsToldAs (names_frame 8) (told_frame (Some 9)) → ⊥ }
    ensures made_up { IsToldAs (names_frame 0) (told_frame (Some 8)) → ⊥ }
    ensures left_out { IsToldAs (names_frame 8) (told_frame None) → ⊥ }
{}

/// Closing: a client gives its close at each poll.
pub fn close_at_each_poll_shows()
    ensures owed { ClosesAreOwed closes_twice → ⊥ }
    ensures premises { IsHonest closes_twice }
    ensures machine { IsNoRun closes_twice }
{}

/// Closing: a client gives its close once, and not again though a datagram came.
pub fn single_close_shows()
    ensures go { OwedClosesGo closes_once → ⊥ }
    ensures premises { IsHonest closes_once }
    ensures machine { IsNoRun closes_once }
{}

/// Closing: a drained client gives its close.
pub fn close_of_drained_shows()
    ensures silent { DrainedAreSilent closes_drained → ⊥ }
    ensures premises { IsHonest closes_drained }
    ensures machine { IsNoRun closes_drained }
{}
