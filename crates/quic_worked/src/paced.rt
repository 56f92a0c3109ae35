//! A run in which a pacer holds a datagram back, computed, and clients that go wrong there. Each
//! function does nothing: its contract is the law.
ghost use Rattle.std.specs.Prelude.{◌≡◌, None, Some};
ghost use Rattle.quic_wire_core.specs.declared.stream_id.Side.TheVariants.{Client};
ghost use Rattle.quic_machine.specs.declared.run.Call.TheVariants as calls;
ghost use Rattle.quic_machine.specs.Machine.{World, IsStep};
ghost use Rattle.quic_headline.specs.Headline.{IsRun};
ghost use Rattle.quic_headline.specs.Observer.{watch};
ghost use Rattle.quic_headline.specs.Polls.{GaveNothing, GaveAsking, IsByteToGo, IsPaced, PacingBehind, pacer_names, pacing_at};
ghost use Rattle.quic_headline.specs.Spread.{pacer_at, named_at, PacerIsOfHistory};
ghost use Rattle.quic_worked.specs.Broken.{IsNoRun};
ghost use Rattle.quic_worked.specs.Worked.{worked_policies, once_written, gives_bytes};
ghost use Rattle.quic_worked.specs.Timed.{asks_at, NeverShows};
ghost use Rattle.quic_worked.specs.Held.{gives_nothing, held_run};
ghost use Rattle.quic_worked.specs.Paced.{full_again, once_paced, paced_view, paced_run, needlessly_paced, unheld_run, hurried_run, unfilled_run, uncharged_run};

/// A client whose pacer has no token gives nothing, though a byte waits, and sets the timer of its
/// pacer to the moment that this names: then it is full, and the datagram goes (RFC 9002, section
/// 7.7). It is a run of the machine, but from no new ends, whose pacers let ten datagrams go first.
pub fn pacer_holds_back()
    ensures run { IsRun paced_run (once_paced 4) }
    ensures names { pacer_names Client (once_paced 2) 0 ≡ Some full_again }
    ensures sets { pacing_at Client (once_paced 3) ≡ Some full_again }
    ensures gave { GaveNothing paced_run Client 2 0 paced_view }
    ensures waits { IsByteToGo paced_run Client 3 0 0 }
    ensures held { IsPaced paced_run Client 3 paced_view }
    ensures goes { GaveAsking paced_run Client 3 full_again }
    ensures names_none { pacer_names Client (once_paced 3) full_again ≡ None }
    ensures stops { pacing_at Client (once_paced 4) ≡ None }
{}

/// A client gives its datagram all the same. The machine doesn't.
pub fn token_is_never_asked_for()
    ensures { (next : World)
        → IsStep worked_policies (once_paced 2) (asks_at Client 0) (gives_bytes 230) next → ⊥ }
{}

/// A client whose pacer has tokens sets the timer of its pacer all the same, and gives nothing. The
/// machine gives the datagram.
pub fn needless_pacing_shows()
    ensures names { pacer_names Client once_written 0 ≡ None }
    ensures step { PacingBehind Client (calls.Poll 0) once_written needlessly_paced → ⊥ }
    ensures machine { (next : World)
        → IsStep worked_policies once_written (asks_at Client 0) gives_nothing next → ⊥ }
{}

/// By the lists the pacer has the tokens that it has: none before it is full, and then those that
/// the datagram leaves. It names the same moment. Of a full one of 12000 tokens a datagram of 1200
/// bytes takes as many, and so do two probes of that size.
pub fn pacer_is_reckoned()
    ensures held { (pacer_at paced_run Client 3).tokens ≡ 0 }
    ensures names { named_at paced_run Client 2 0 ≡ Some full_again }
    ensures names_none { named_at paced_run Client 3 full_again ≡ None }
    ensures left { (pacer_at paced_run Client 4).tokens ≡ 11770 }
    ensures paid { (pacer_at held_run Client 3).tokens ≡ 10800 }
    ensures probes { (pacer_at held_run Client 8).tokens ≡ 8400 }
    ensures clause { PacerIsOfHistory held_run }
{}

/// A client that never asks its pacer, and gives its datagram though that names a later moment.
pub fn unheld_datagram_shows()
    ensures names { named_at unheld_run Client 2 0 ≡ Some full_again }
    ensures clause { PacerIsOfHistory unheld_run → ⊥ }
    ensures machine { IsNoRun unheld_run }
{}

/// A client to whose pacer tokens come twice as fast: it is to be full after 133.2 ms, and not
/// after 266.4 ms.
pub fn hurried_tokens_show()
    ensures clause { PacerIsOfHistory hurried_run → ⊥ }
    ensures machine { NeverShows hurried_run }
{}

/// A client to whose pacer no tokens come: it gives nothing when that is full by the lists.
pub fn missing_tokens_show()
    ensures names_none { named_at unfilled_run Client 3 full_again ≡ None }
    ensures clause { PacerIsOfHistory unfilled_run → ⊥ }
    ensures machine { IsNoRun unfilled_run }
{}

/// A client whose probes take no tokens, and that gives a datagram right behind them, for which it
/// has too few.
pub fn uncharged_probes_show()
    ensures probes { (watch uncharged_run Client 4).flight.probes ≡ 2 }
    ensures before { (pacer_at uncharged_run Client 4).tokens ≡ 1200 }
    ensures behind { (pacer_at uncharged_run Client 7).tokens ≡ 756 }
    ensures clause { PacerIsOfHistory uncharged_run → ⊥ }
    ensures machine { IsNoRun uncharged_run }
{}
