//! A run in which a datagram comes with CE, computed, and a client whose controller isn't told.
//! Each function does nothing: its contract is the law.
ghost use Rattle.std.specs.Prelude.{◌≡◌};
ghost use Rattle.quic_wire_core.specs.declared.stream_id.Side.TheVariants.{Client};
ghost use Rattle.quic_headline.specs.Headline.{IsHonest, IsRun};
ghost use Rattle.quic_headline.specs.Telling.{ControllersAreTold};
ghost use Rattle.quic_worked.specs.Worked.{worked_policies, told_in};
ghost use Rattle.quic_worked.specs.Timed.{NeverShows};
ghost use Rattle.quic_worked.specs.Halved.{halving};
ghost use Rattle.quic_worked.specs.Congested.{congested_events, congested_answers, once_congested, congested_run, congested_told, unheard_run};

/// A datagram comes with CE, and the server counts it. Where that count comes, the client's
/// controller is told of congestion, though nothing is lost, and its window is half (RFC 9002,
/// section 7.1).
pub fn counted_mark_congests()
    ensures honest { IsHonest congested_run }
    ensures run { IsRun congested_run (once_congested 5) }
    ensures told { told_in Client worked_policies halving congested_events congested_answers
        ≡ congested_told }
    ensures clause { ControllersAreTold congested_run }
{}

/// A client whose controller isn't told of the count shows its whole window behind it.
pub fn unheard_mark_shows()
    ensures clause { ControllersAreTold unheard_run → ⊥ }
    ensures premises { IsHonest unheard_run }
    ensures machine { NeverShows unheard_run }
{}
