//! A run in which a window grows at a server whose peer's address becomes validated, computed, and
//! a machine whose controller is told of no acknowledgement then. Each function does nothing: its
//! contract is the law.
ghost use Rattle.std.specs.Prelude.{◌≡◌, true, false};
ghost use Rattle.quic_wire_core.specs.declared.stream_id.Side.TheVariants.{Server};
ghost use Rattle.quic_headline.specs.Headline.{IsHonest, IsRun};
ghost use Rattle.quic_headline.specs.Polls.{seen_at};
ghost use Rattle.quic_headline.specs.Telling.{ControllersAreTold};
ghost use Rattle.quic_worked.specs.Worked.{worked_policies, told_in};
ghost use Rattle.quic_worked.specs.Timed.{NeverShows};
ghost use Rattle.quic_worked.specs.Widened.{widening, widening_events, widening_answers, once_widening, widening_run, widening_told, unwidened_run};

/// A server whose peer's address isn't validated asks for an answer. With that an acknowledgement
/// comes, of which its controller is told, and of the next one too: its window grows (RFC 9002,
/// section 7.3.1).
pub fn window_is_widened()
    ensures honest { IsHonest widening_run }
    ensures run { IsRun widening_run (once_widening 14) }
    ensures before { (seen_at widening_run Server 7).validated ≡ false }
    ensures behind { (seen_at widening_run Server 8).validated ≡ true }
    ensures told { told_in Server worked_policies widening widening_events widening_answers
        ≡ widening_told }
    ensures clause { ControllersAreTold widening_run }
{}

/// A server whose controller is told of no acknowledgement, though the address of its peer is
/// validated, shows the same window behind one.
pub fn untold_acknowledgement_shows()
    ensures clause { ControllersAreTold unwidened_run → ⊥ }
    ensures premises { IsHonest unwidened_run }
    ensures machine { NeverShows unwidened_run }
{}
