//! Runs in which something closes an end, computed, and machines that go on though it did. Each
//! function does nothing: its contract is the law.
ghost use Rattle.std.specs.Prelude.{◌≡◌, Some};
ghost use Rattle.quic_wire_core.specs.declared.stream_id.Side.TheVariants.{Client, Server};
ghost use Rattle.quic_headline.specs.Runs.{until};
ghost use Rattle.quic_headline.specs.Headline.{IsHonest, IsRun};
ghost use Rattle.quic_headline.specs.Causes.{unopened};
ghost use Rattle.quic_headline.specs.Events.{losses_told, LossIsTold};
ghost use Rattle.quic_headline.specs.Shut.{IdlesOut, ClosesForPeer, ClosesForApplication, RefusalsClose};
ghost use Rattle.quic_worked.specs.Ended.{idle_run, closing_run};
ghost use Rattle.quic_worked.specs.Ending.{other_peer};
ghost use Rattle.quic_worked.specs.Machines.{NeverGives};
ghost use Rattle.quic_worked.specs.Timed.{NeverShows};
ghost use Rattle.quic_worked.specs.Broken.{IsNoRun};
ghost use Rattle.quic_worked.specs.Shut.{once_refused, refusing_run, refuses_on, idles_on, stays_open, ignores_close, once_lost, losing_run, lost_untold, lost_twice, lost_otherwise};

/// A client to which nothing came for its idle timeout is drained for it.
pub fn idle_client_is_drained()
    ensures { IdlesOut idle_run }
{}

/// A client whose application closes it is closing, and the server that takes its close is drained,
/// for that close.
pub fn close_is_heeded()
    ensures application { ClosesForApplication closing_run }
    ensures peer { ClosesForPeer closing_run }
{}

/// A server whose peer's key may refuse two packets stays open behind the first that it refuses,
/// and closes at the second.
pub fn last_refusal_closes()
    ensures run { IsRun refusing_run (once_refused 2) }
    ensures honest { IsHonest refusing_run }
    ensures first { unopened (until refusing_run Server 1) ≡ 1 }
    ensures second { unopened (until refusing_run Server 2) ≡ 2 }
    ensures closes { RefusalsClose refusing_run }
{}

/// Timers: a client stays open though its idle timer expired.
pub fn kept_idle_client_shows()
    ensures idle { IdlesOut idles_on → ⊥ }
    ensures premises { IsHonest idles_on }
    ensures machine { NeverShows idles_on }
{}

/// Closing: a client stays open though its application closed it.
pub fn unheeded_application_shows()
    ensures application { ClosesForApplication stays_open → ⊥ }
    ensures premises { IsHonest stays_open }
    ensures machine { NeverShows stays_open }
{}

/// Closing: a server takes the close of its peer, and stays open; or it is drained for another
/// code.
pub fn ignored_close_shows()
    ensures peer { ClosesForPeer ignores_close → ⊥ }
    ensures other { ClosesForPeer other_peer → ⊥ }
    ensures premises { IsHonest ignores_close }
    ensures machine { NeverShows ignores_close }
{}

/// Receiving: a server stays open though its peer's key refused as many packets as it may.
pub fn endless_refusals_show()
    ensures closes { RefusalsClose refuses_on → ⊥ }
    ensures premises { IsHonest refuses_on }
    ensures machine { NeverGives refuses_on }
{}

/// An application that closes its connection is told once that it is lost, with that reason.
pub fn loss_is_told_once()
    ensures honest { IsHonest losing_run }
    ensures run { IsRun losing_run (once_lost 3) }
    ensures first { losses_told (until losing_run Client 1) ≡ 0 }
    ensures second { losses_told (until losing_run Client 3) ≡ 1 }
    ensures told { LossIsTold losing_run }
{}

/// Events: an application is told nothing of the loss of its connection, or twice, or another
/// reason.
pub fn wrong_losses_show()
    ensures untold { LossIsTold lost_untold → ⊥ }
    ensures twice { LossIsTold lost_twice → ⊥ }
    ensures other { LossIsTold lost_otherwise → ⊥ }
    ensures untold_premises { IsHonest lost_untold }
    ensures twice_premises { IsHonest lost_twice }
    ensures other_premises { IsHonest lost_otherwise }
    ensures untold_machine { IsNoRun lost_untold }
    ensures twice_machine { IsNoRun lost_twice }
    ensures other_machine { IsNoRun lost_otherwise }
{}
