//! Marks that are counted, PING that goes, and a timer that is set for the first packet, computed
//! on worked runs; and runs of machines that break it. Each function does nothing: its contract is
//! the law.
ghost use Rattle.std.specs.Prelude.{◌≡◌, ◌∷◌, [], false, true, Some, None};
ghost use Rattle.quic_wire_core.specs.declared.stream_id.Side.TheVariants.{Client, Server};
ghost use Rattle.quic_headline.specs.Runs.{until};
ghost use Rattle.quic_headline.specs.Headline.{IsHonest, IsRun};
ghost use Rattle.quic_headline.specs.Moments.{debt, AckMoments};
ghost use Rattle.quic_headline.specs.Waited.{wants, wants_ack, AckTimersAreSet};
ghost use Rattle.quic_headline.specs.Pings.{PingsGo};
ghost use Rattle.quic_headline.specs.AckFrames.{counts_told, AcksCountMarks};
ghost use Rattle.quic_worked.specs.Broken.{IsNoRun};
ghost use Rattle.quic_worked.specs.Timed.{NeverShows};
ghost use Rattle.quic_worked.specs.Hasty.{marked_run};
ghost use Rattle.quic_worked.specs.Counted.{mark_uncounted, ping_left, ping_withheld, timer_moved, once_single, timer_set, timer_unset};

/// A packet that comes with CE is counted once it was taken, and so says the ACK frame. The machine
/// keeps the clause.
pub fn marks_are_counted()
    ensures before { counts_told (until marked_run Server 2) ≡ None }
    ensures came { counts_told (until marked_run Server 3) ≡ Some (0, 0, 1) }
    ensures counted { AcksCountMarks marked_run }
{}

/// A server whose ACK frame has no counts though a packet came with CE breaks the clause. The
/// machine gives another.
pub fn uncounted_mark_shows()
    ensures counts { AcksCountMarks mark_uncounted → ⊥ }
    ensures honest { IsHonest mark_uncounted }
    ensures machine { IsNoRun mark_uncounted }
{}

/// PING goes with the datagram that asks, where it was asked for. The machine keeps the clause.
pub fn asked_ping_goes()
    ensures asked { (wants marked_run Client 1).pinged ≡ true }
    ensures went { (wants marked_run Client 2).pinged ≡ false }
    ensures pings { PingsGo marked_run }
{}

/// A client that was asked for PING, and gives its ids without it, breaks the clause; so does one
/// that gives nothing, though its window has room. The machine gives both.
pub fn withheld_pings_show()
    ensures left { PingsGo ping_left → ⊥ }
    ensures withheld { PingsGo ping_withheld → ⊥ }
    ensures left_honest { IsHonest ping_left }
    ensures withheld_honest { IsHonest ping_withheld }
    ensures machine_left { IsNoRun ping_left }
    ensures machine_withheld { IsNoRun ping_withheld }
{}

/// A server whose timer of acknowledgements is set anew by a second packet shows another moment
/// than 25 ms behind the first, which the machine doesn't.
pub fn moved_timer_shows()
    ensures deadlines { (debt timer_moved Server 6).deadlines ≡ 26000000 ∷ 25000000 ∷ [] }
    ensures moments { AckMoments timer_moved → ⊥ }
    ensures honest { IsHonest timer_moved }
    ensures machine { NeverShows timer_moved }
{}

/// A server that took one packet that asks owes an acknowledgement, and no ACK frame is wanted of
/// it: its timer is set 25 ms behind that packet. The machine keeps the clause.
pub fn owed_timer_is_set()
    ensures owed { (debt timer_set Server 3).deadlines ≡ 25000000 ∷ [] }
    ensures unwanted { wants_ack timer_set Server 3 ≡ false }
    ensures timers { AckTimersAreSet timer_set }
    ensures honest { IsHonest timer_set }
    ensures run { IsRun timer_set once_single }
{}

/// A server that owes the same, and whose timer isn't set, breaks the clause. The machine never
/// shows that.
pub fn unset_timer_shows()
    ensures owed { (debt timer_unset Server 3).deadlines ≡ 25000000 ∷ [] }
    ensures unwanted { wants_ack timer_unset Server 3 ≡ false }
    ensures timers { AckTimersAreSet timer_unset → ⊥ }
    ensures honest { IsHonest timer_unset }
    ensures machine { NeverShows timer_unset }
{}
