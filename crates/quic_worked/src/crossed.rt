//! A run in which one acknowledgement names datagrams of both paths of a server that followed its
//! peer, computed. The function does nothing: its contract is the law.
ghost use Rattle.std.specs.Prelude.{◌≡◌, [], ◌∷◌, Some};
ghost use Rattle.quic_wire_core.specs.declared.stream_id.Side.TheVariants.{Server};
ghost use Rattle.quic_headline.specs.Observer.{loss_due, watch};
ghost use Rattle.quic_headline.specs.Polls.{flying, bytes_flying};
ghost use Rattle.quic_headline.specs.Headline.{IsHonest, IsRun};
ghost use Rattle.quic_worked.specs.Worked.{worked_policies, both_steady, told_in};
ghost use Rattle.quic_worked.specs.Crossed.{crossed_events, crossed_answers, once_crossed, pinged_there, crossed_run, crossed_told};

/// A server gave two datagrams to the old address and four to the new one, of which the second and
/// the last are acknowledged. The first of each path are lost then, and two stay in flight. Only
/// what went to the new address counts against the window, and the controller is told of all that
/// is lost.
pub fn both_paths_are_acknowledged()
    ensures honest { IsHonest crossed_run }
    ensures run { IsRun crossed_run (once_crossed 19) }
    ensures before { bytes_flying crossed_run Server 18 ≡ 1296 }
    ensures behind { flying crossed_run Server 19 ≡ pinged_there 3 ∷ pinged_there 4 ∷ [] }
    ensures due { loss_due (watch crossed_run Server 19).flight ≡ Some 1000000 }
    ensures told { told_in Server worked_policies both_steady crossed_events crossed_answers
        ≡ crossed_told }
{}
