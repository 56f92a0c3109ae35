//! A run in which a probe takes what has to be sent again of a datagram, computed, and machines
//! with a bug there. Each function does nothing: its contract is the law.
ghost use Rattle.std.specs.Prelude.{◌≡◌, ◌++◌, Some};
ghost use Rattle.quic_wire_core.specs.declared.stream_id.Side.TheVariants.{Client};
ghost use Rattle.quic_retransmits.specs.Retransmits.{nothing_waits};
ghost use Rattle.quic_headline.specs.Duties.{DutiesAt};
ghost use Rattle.quic_headline.specs.InFlight.{in_flight, TracksAt};
ghost use Rattle.quic_headline.specs.Moments.{LossMoments};
ghost use Rattle.quic_headline.specs.Headline.{IsHonest, IsRun};
ghost use Rattle.quic_worked.specs.Broken.{NeverLeadsFrom};
ghost use Rattle.quic_worked.specs.Timed.{due_at};
ghost use Rattle.quic_worked.specs.Paired.{giving_events, giving_answers};
ghost use Rattle.quic_worked.specs.Probed.{later_events, later_answers, once_probed, probed_run, the_reset, both_with, record_dropped, datagram_dropped};
ghost use Rattle.quic_worked.specs.Worked.{both_steady};

/// A reset whose datagram came to nobody goes again with the first probe, and the ids that were
/// told with it; nothing else does: the datagram stays in flight, and what has to be sent again of
/// it is with the probe alone. So the client waits for both, as the observer does, but for that.
pub fn reset_is_probed()
    ensures honest { IsHonest probed_run }
    ensures run { IsRun probed_run (once_probed 2) }
    ensures probes { (once_probed 1).client.tracking.probes ≡ 2 }
    ensures one_left { (once_probed 2).client.tracking.probes ≡ 1 }
    ensures waits { (once_probed 2).client.tracking.packets ≡ both_with nothing_waits }
    ensures flies { in_flight probed_run Client 8 ≡ both_with the_reset }
    ensures tracks { TracksAt probed_run 8 (once_probed 2) }
    ensures expired { due_at probed_run Client 7 ≡ Some 2048000000 }
    ensures due { due_at probed_run Client 8 ≡ Some 3072000000 }
    ensures moments { LossMoments probed_run }
{}

/// Probes: the reset is taken from its datagram, and is nowhere then.
pub fn probed_reset_is_dropped()
    ensures duties { DutiesAt probed_run 8 record_dropped → ⊥ }
    ensures machine { NeverLeadsFrom both_steady (giving_events ++ later_events) (giving_answers ++ later_answers)
        record_dropped }
{}

/// Probes: the datagram whose reset was taken isn't waited for any more.
pub fn probed_datagram_is_dropped()
    ensures tracks { TracksAt probed_run 8 datagram_dropped → ⊥ }
    ensures machine { NeverLeadsFrom both_steady (giving_events ++ later_events) (giving_answers ++ later_answers)
        datagram_dropped }
{}
