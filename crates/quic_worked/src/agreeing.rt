//! Runs of one start over the same events come to the same: computed on the run with noise and the
//! one without it, and on runs of machines with a bug. Each function does nothing: its contract is
//! the law.
ghost use Rattle.std.specs.Prelude.{◌≡◌};
ghost use Rattle.quic_machine.specs.Machine.{World};
ghost use Rattle.quic_headline.specs.Headline.{IsHonest};
ghost use Rattle.quic_headline.specs.Isolated.{answered_idle, without};
ghost use Rattle.quic_headline.specs.Memory.{FindsMemory};
ghost use Rattle.quic_headline.specs.TwoRuns.{BeganSo, CameTo, RunsAgree, IdleRunsAgree};
ghost use Rattle.quic_worked.specs.Broken.{IsNoRun};
ghost use Rattle.quic_worked.specs.Isolated.{noisy_run, quiet_run, ticked_early};
ghost use Rattle.quic_worked.specs.Agreeing.{drawn_wait};

/// The run without forged and repeated datagrams began as the one with them, over its events less
/// these, and came to its answers, views and datagrams. Memory lacks in neither.
pub fn quiet_run_agrees()
    ensures finds { FindsMemory noisy_run }
    ensures began { BeganSo noisy_run quiet_run (without (answered_idle noisy_run) noisy_run.events) 6 }
    ensures came { CameTo noisy_run quiet_run (without (answered_idle noisy_run) noisy_run.answers) (without (answered_idle noisy_run) noisy_run.views) }
{}

/// Timers: how long an acknowledgement waits is drawn, so that two runs of the same events differ.
pub fn drawn_wait_shows()
    ensures agree { (end : World) → RunsAgree drawn_wait end → ⊥ }
    ensures premises { IsHonest drawn_wait }
    ensures machine { IsNoRun drawn_wait }
{}

/// Receiving: the moment at which a datagram came is taken over before the key opened it, so that
/// what is computed without a forged one differs.
pub fn forged_moment_differs()
    ensures idle { (end : World) → IdleRunsAgree ticked_early end → ⊥ }
    ensures premises { IsHonest ticked_early }
    ensures machine { IsNoRun ticked_early }
{}
