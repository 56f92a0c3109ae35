//! A probe of losses with IMMEDIATE_ACK, computed on a worked run, and the same run as a machine
//! with a bug makes it. Each function does nothing: its contract is the law.
ghost use Rattle.std.specs.Prelude.{◌≡◌};
ghost use Rattle.quic_wire_core.specs.declared.stream_id.Side.TheVariants.{Client};
ghost use Rattle.quic_headline.specs.Headline.{IsHonest};
ghost use Rattle.quic_headline.specs.Observer.{watch};
ghost use Rattle.quic_headline.specs.Pings.{ProbesHasten};
ghost use Rattle.quic_worked.specs.Broken.{IsNoRun};
ghost use Rattle.quic_worked.specs.Obeying.{probing_run};
ghost use Rattle.quic_worked.specs.Hastened.{unhastened_run};

/// Two probes wait once the loss timer is over, and the datagram that goes then has IMMEDIATE_ACK.
/// The machine keeps the clause.
pub fn probe_hastens()
    ensures waiting { (watch probing_run Client 2).flight.probes ≡ 2 }
    ensures hastens { ProbesHasten probing_run }
{}

/// A client whose probe has no IMMEDIATE_ACK, though its peer told that it takes it, breaks the
/// clause. The machine gives another.
pub fn unhastened_probe_shows()
    ensures hastens { ProbesHasten unhastened_run → ⊥ }
    ensures honest { IsHonest unhastened_run }
    ensures machine { IsNoRun unhastened_run }
{}
