//! A run in which a window is halved as datagrams are lost, computed, and a machine whose
//! controller is told of no loss. Each function does nothing: its contract is the law.
ghost use Rattle.std.specs.Prelude.{◌≡◌};
ghost use Rattle.quic_wire_core.specs.declared.stream_id.Side.TheVariants.{Client};
ghost use Rattle.quic_headline.specs.Headline.{IsHonest, IsRun};
ghost use Rattle.quic_headline.specs.Telling.{ControllersAreTold};
ghost use Rattle.quic_worked.specs.Worked.{worked_policies, told_in};
ghost use Rattle.quic_worked.specs.Timed.{NeverShows};
ghost use Rattle.quic_worked.specs.Measured.{measured_events, measured_answers};
ghost use Rattle.quic_worked.specs.Halved.{halving, once_halving, halving_run, halving_told, untold_run};

/// A controller that halves its window is told of each datagram that goes, of the one that is
/// acknowledged, and of the losses by number and by time; and its window is seen to be half from
/// the first of these on (RFC 9002, section 7.3.2).
pub fn window_is_halved()
    ensures honest { IsHonest halving_run }
    ensures run { IsRun halving_run (once_halving 12) }
    ensures told { told_in Client worked_policies halving measured_events measured_answers
        ≡ halving_told }
    ensures clause { ControllersAreTold halving_run }
{}

/// A client whose controller is told of no loss shows its whole window behind one.
pub fn untold_loss_shows()
    ensures clause { ControllersAreTold untold_run → ⊥ }
    ensures premises { IsHonest untold_run }
    ensures machine { NeverShows untold_run }
{}
