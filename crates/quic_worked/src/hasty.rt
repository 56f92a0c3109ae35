//! A run in which an ACK frame is due and goes, computed, and runs of servers that let one wait.
//! Each function does nothing: its contract is the law.
ghost use Rattle.std.specs.Prelude.{◌≡◌, false, true, [], ◌∷◌};
ghost use Rattle.quic_wire_core.specs.declared.stream_id.Side.TheVariants.{Client, Server};
ghost use Rattle.quic_headline.specs.Observer.{watch};
ghost use Rattle.quic_headline.specs.Headline.{IsHonest, IsRun};
ghost use Rattle.quic_headline.specs.Moments.{acknowledges, went};
ghost use Rattle.quic_headline.specs.Rest.{unanswered};
ghost use Rattle.quic_headline.specs.AcksDue.{is_due, AcksAreDue};
ghost use Rattle.quic_worked.specs.Broken.{IsNoRun};
ghost use Rattle.quic_worked.specs.Timed.{timed_run};
ghost use Rattle.quic_worked.specs.Measured.{measured_run};
ghost use Rattle.quic_worked.specs.Hasty.{hasty_run, once_hasty, ping_packet, once_marked, marked_run, many_wait, gap_waits, mark_waits, late_waits, first_packet};

/// One packet that asks may wait for 25 ms, and with the second an ACK frame is due: the server's
/// next datagram has one.
pub fn second_packet_hastens()
    ensures honest { IsHonest hasty_run }
    ensures run { IsRun hasty_run (once_hasty 7) }
    ensures first { is_due hasty_run Server 5 ≡ false }
    ensures second { is_due hasty_run Server 6 ≡ true }
    ensures waiting { unanswered hasty_run Server 6 ≡ ping_packet 1 ∷ first_packet ∷ [] }
    ensures went { acknowledges (went (watch hasty_run Server 6) (watch hasty_run Server 7)) ≡ true }
    ensures answered { is_due hasty_run Server 7 ≡ false }
    ensures client { is_due hasty_run Client 7 ≡ false }
{}

/// So it is with one packet that comes above a gap, with one that bears the mark of congestion, and
/// with one behind which 25 ms have passed.
pub fn each_cause_hastens()
    ensures gap_before { is_due measured_run Server 8 ≡ false }
    ensures gap { is_due measured_run Server 9 ≡ true }
    ensures gap_answered { is_due measured_run Server 10 ≡ false }
    ensures marked { IsRun marked_run (once_marked 4) }
    ensures mark { is_due marked_run Server 3 ≡ true }
    ensures mark_answered { acknowledges (went (watch marked_run Server 3) (watch marked_run Server 4)) ≡ true }
    ensures late_before { is_due timed_run Server 7 ≡ false }
    ensures late { is_due timed_run Server 8 ≡ true }
    ensures late_answered { is_due timed_run Server 9 ≡ false }
{}

/// A server whose ACK frame waits for more packets breaks the clause; so does one to which a gap is
/// nothing, one to which the mark of congestion is nothing, and one that doesn't give it after
/// 25 ms. The machine gives it.
pub fn waiting_acks_show()
    ensures many { AcksAreDue many_wait → ⊥ }
    ensures gap { AcksAreDue gap_waits → ⊥ }
    ensures mark { AcksAreDue mark_waits → ⊥ }
    ensures late { AcksAreDue late_waits → ⊥ }
    ensures many_honest { IsHonest many_wait }
    ensures gap_honest { IsHonest gap_waits }
    ensures mark_honest { IsHonest mark_waits }
    ensures late_honest { IsHonest late_waits }
    ensures machine_many { IsNoRun many_wait }
    ensures machine_gap { IsNoRun gap_waits }
    ensures machine_mark { IsNoRun mark_waits }
    ensures machine_late { IsNoRun late_waits }
{}
