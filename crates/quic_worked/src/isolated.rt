//! Datagrams that don't open, and repeated ones, change nothing: computed on one run, and on runs
//! of machines with a bug. Each function does nothing: its contract is the law.
ghost use Rattle.std.specs.Prelude.{◌≡◌};
ghost use Rattle.quic_machine.specs.Machine.{World};
ghost use Rattle.quic_headline.specs.Headline.{IsHonest, IsRun};
ghost use Rattle.quic_headline.specs.Isolated.{answered_idle, erased, SameButCounts, Isolated, IsolatedByAnswers, IsolatedByLists};
ghost use Rattle.quic_worked.specs.Broken.{IsNoRun};
ghost use Rattle.quic_worked.specs.Isolated.{noisy_run, quiet_run, noisy_left, quiet_left, noted_early, ticked_early, idle_anew};

/// A forged datagram is refused before and behind the client's own, which comes twice. Less the
/// forged ones and the second copy it is the run in which the datagram comes once, and both lead to
/// the same ends, which have counted four datagrams or one: 230 bytes each, of which two didn't
/// open.
pub fn noise_changes_nothing()
    ensures noisy { IsRun noisy_run noisy_left }
    ensures quiet { IsRun quiet_run quiet_left }
    ensures erased { erased (answered_idle noisy_run) noisy_run ≡ quiet_run }
    ensures same { SameButCounts noisy_left quiet_left }
    ensures sent { noisy_left.client_heard ≡ record { received = 0; sent = 230; failures = 0 } }
    ensures counted { noisy_left.server_heard ≡ record { received = 920; sent = 0; failures = 2 } }
    ensures fewer { quiet_left.server_heard ≡ record { received = 230; sent = 0; failures = 0 } }
{}

/// Receiving: the number of a datagram counts as seen before the key opened it, so a forged one
/// makes the datagram of that number a duplicate. By the answers that one may be left out as well;
/// the lists say that it is new.
pub fn refused_number_is_noted()
    ensures isolated { (end : World) → Isolated noted_early end → ⊥ }
    ensures by_lists { IsolatedByLists noted_early → ⊥ }
    ensures machine { IsNoRun noted_early }
{}

/// Receiving: the moment at which a datagram came is taken over before the key opened it, so a
/// forged one puts off the acknowledgement of the next.
pub fn refused_moment_is_taken()
    ensures isolated { (end : World) → Isolated ticked_early end → ⊥ }
    ensures by_answers { (end : World) → IsolatedByAnswers ticked_early end → ⊥ }
    ensures machine { IsNoRun ticked_early }
{}

/// Timers: the idle timer begins anew with bytes that are dropped (RFC 9000, section 10.1).
pub fn dropped_bytes_restart_idle()
    ensures isolated { (end : World) → Isolated idle_anew end → ⊥ }
    ensures by_answers { (end : World) → IsolatedByAnswers idle_anew end → ⊥ }
    ensures by_lists { IsolatedByLists idle_anew → ⊥ }
    ensures premises { IsHonest idle_anew }
    ensures machine { IsNoRun idle_anew }
{}
