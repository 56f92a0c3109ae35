//! A run in which a round trip is measured and datagrams are lost by number and by time, and one in
//! which a number is left out, computed; and machines with a bug there. Each function does nothing:
//! its contract is the law.
ghost use Rattle.std.specs.Prelude.{◌≡◌, List, ◌∷◌, [], Some, None, map};
ghost use Rattle.quic_wire_core.specs.TransportError.{plain_error};
ghost use Rattle.quic_wire_core.specs.declared.stream_id.Side.TheVariants.{Client, Server};
ghost use Rattle.quic_time.specs.Timers.{timer_at};
ghost use Rattle.quic_time.specs.declared.timer.Timer.TheVariants.{LossDetection};
ghost use Rattle.quic_machine.specs.declared.run.RunEvent.{RunEvent};
ghost use Rattle.quic_machine.specs.declared.run.Answer.{Answer};
ghost use Rattle.quic_machine.specs.declared.answers.Received.TheVariants as receives;
ghost use Rattle.quic_machine.specs.End.{number_of};
ghost use Rattle.quic_machine.specs.Start.{AreStarted};
ghost use Rattle.quic_machine.specs.Machine.{policy_at, end_at};
ghost use Rattle.quic_headline.specs.Observer.{sents_until};
ghost use Rattle.quic_headline.specs.LeftOut.{left_out, AreLeftOut, NumbersAreDrawn};
ghost use Rattle.quic_headline.specs.InFlight.{in_flight, TracksAt};
ghost use Rattle.quic_headline.specs.Causes.{NoBlame};
ghost use Rattle.quic_headline.specs.Moments.{LossMoments};
ghost use Rattle.quic_headline.specs.Headline.{IsHonest, IsRun, LossTimersFollow};
ghost use Rattle.quic_worked.specs.Broken.{IsNoRun, NeverLeads};
ghost use Rattle.quic_worked.specs.Worked.{client_made, numbered_from, worked_policies};
ghost use Rattle.quic_worked.specs.Acknowledged.{client_takes};
ghost use Rattle.quic_worked.specs.Losses.{wide_payload};
ghost use Rattle.quic_worked.specs.Machines.{NeverGives};
ghost use Rattle.quic_worked.specs.Timed.{due_at, NeverShows};
ghost use Rattle.quic_worked.specs.Measured.{measured_events, measured_answers, once_measured, measured_run, never_late, late_kept, timer_cleared, cleared, leaving_out, once_skipped, skipping_run, left_out_sent, left_out_given, other_left_out};

/// Of four datagrams that the client gave at once the last comes alone, and is acknowledged at
/// once. That acknowledgement comes after 100 ms: that is the round trip, and half of it its
/// variation. The first counts as lost by its number, the two between once nine eighths of the
/// round trip have passed since they went; the timer of losses expires then. The observer waits for
/// the same datagrams as the client.
pub fn datagrams_are_late()
    ensures run { IsRun measured_run (once_measured 12) }
    ensures rtt { (once_measured 11).client.path.rtt
        ≡ record {
          latest = 100000000;
          smoothed = Some 100000000;
          var = 50000000;
          least = 100000000;
        } }
    ensures sent { map (λ p. p.0) (once_measured 10).client.tracking.packets
        ≡ 0 ∷ 1 ∷ 2 ∷ 3 ∷ [] }
    ensures by_number { map (λ p. p.0) (once_measured 11).client.tracking.packets ≡ 1 ∷ 2 ∷ [] }
    ensures timer { timer_at LossDetection (once_measured 11).client.timers ≡ Some 112500000 }
    ensures by_time { (once_measured 12).client.tracking.packets ≡ [] }
    ensures flies { (once_measured 11).client.tracking.packets ≡ in_flight measured_run Client 11 }
    ensures flies_no_more { in_flight measured_run Client 12 ≡ [] }
    ensures due_before { due_at measured_run Client 10 ≡ Some 1024000000 }
    ensures due { due_at measured_run Client 11 ≡ Some 112500000 }
    ensures due_no_more { due_at measured_run Client 12 ≡ None }
    ensures moments { LossMoments measured_run }
{}

/// A client by which no datagram is ever late shows another moment, and waits for two datagrams
/// that are lost.
pub fn never_late_shows()
    ensures moments { LossMoments never_late → ⊥ }
    ensures machine { NeverShows never_late }
    ensures tracks { TracksAt measured_run 12 late_kept → ⊥ }
    ensures leads { NeverLeads measured_events measured_answers late_kept }
{}

/// A client whose loss timer stops at each acknowledgement shows no moment where two datagrams are
/// waited for.
pub fn cleared_timer_shows()
    ensures moments { LossMoments timer_cleared → ⊥ }
    ensures machine { NeverShows timer_cleared }
    ensures follows { LossTimersFollow cleared → ⊥ }
    ensures leads { (events : List RunEvent) (told : List Answer)
        → NeverLeads events told cleared }
{}

/// A client whose random source answered 0 first leaves out number 0: its first datagram has number
/// 1, and is acknowledged. One that is told of both numbers closes (RFC 9000, section 21.4). The
/// client of the worked runs leaves out 63.
pub fn number_is_left_out()
    ensures start { AreStarted leaving_out }
    ensures honest { IsHonest skipping_run }
    ensures run { IsRun skipping_run (once_skipped 6) }
    ensures next { (once_skipped 6).client.filter.next ≡ 127 }
    ensures last { (once_skipped 6).client.filter.last ≡ Some 0 }
    ensures named { (client_takes (once_skipped 2).client 25000000 wide_payload).answer
        ≡ receives.Closed (plain_error 10) }
    ensures below { number_of (numbered_from 62 client_made) ≡ 62 }
    ensures worked { number_of (numbered_from 63 client_made) ≡ 64 }
{}

/// A client that gives the number that it leaves out blames its peer for acknowledging it. The
/// machine gives another number.
pub fn left_out_number_shows()
    ensures honest { IsHonest left_out_given }
    ensures blame { NoBlame left_out_given → ⊥ }
    ensures machine { IsNoRun left_out_given }
    ensures gives { NeverGives left_out_sent }
{}

/// In that run 0 is left out, the number with which the client was made (RFC 9000, section 21.4).
pub fn number_is_drawn()
    ensures out { left_out 0 (sents_until skipping_run Client 6) ≡ 0 ∷ [] }
    ensures drawn { AreLeftOut (policy_at Client worked_policies).words (end_at Client leaving_out).filter.next (left_out 0 (sents_until skipping_run Client 6)) }
{}

/// Sending: a client leaves out 0, though its random source says 63.
pub fn other_number_shows()
    ensures drawn { NumbersAreDrawn other_left_out → ⊥ }
    ensures premises { IsHonest other_left_out }
    ensures machine { IsNoRun other_left_out }
{}
