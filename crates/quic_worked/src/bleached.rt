//! A run on a path that takes a mark away, computed, and a client that goes on marking. Each
//! function does nothing: its contract is the law.
ghost use Rattle.std.specs.Prelude.{◌≡◌, true, false};
ghost use Rattle.quic_wire_core.specs.declared.stream_id.Side.TheVariants.{Client};
ghost use Rattle.quic_headline.specs.Headline.{IsHonest, IsRun};
ghost use Rattle.quic_headline.specs.Marking.{marking, MarksGo};
ghost use Rattle.quic_worked.specs.Broken.{IsNoRun};
ghost use Rattle.quic_worked.specs.Bleached.{once_bleached, bleached_run, marking_on};

/// Of two datagrams with ECT(0) one comes without it, and the server counts one. Once the client
/// took that, it marks none any more (RFC 9000, section 13.4.2.1).
pub fn bleached_marks_end()
    ensures honest { IsHonest bleached_run }
    ensures run { IsRun bleached_run (once_bleached 10) }
    ensures before { (marking bleached_run Client 7).marks ≡ true }
    ensures behind { (marking bleached_run Client 8).marks ≡ false }
    ensures clause { MarksGo bleached_run }
{}

/// A client that marks the next one too breaks the clause. The machine gives it unmarked.
pub fn bleached_mark_shows()
    ensures clause { MarksGo marking_on → ⊥ }
    ensures premises { IsHonest marking_on }
    ensures machine { IsNoRun marking_on }
{}
