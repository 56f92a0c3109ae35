//! A run in which a client may open more streams than before, and is told so, computed, and a
//! machine that doesn't tell it. Each function does nothing: its contract is the law.
ghost use Rattle.quic_machine.specs.declared.run.ReadCall.{ReadCall};
ghost use Rattle.quic_headline.specs.Headline.{IsHonest, IsRun};
ghost use Rattle.quic_headline.specs.Events.{AvailableIsTold};
ghost use Rattle.quic_worked.specs.Broken.{IsNoRun};
ghost use Rattle.quic_worked.specs.Credit.{ReadsOneWay};
ghost use Rattle.quic_worked.specs.Available.{available_run, unavailable_run, none_told};

/// A client whose one-way stream is done takes the count that lets it open another, and is told so,
/// and then of nothing.
pub fn more_may_be_opened()
    ensures run { (read : ReadCall) → ReadsOneWay read → IsRun (available_run read) none_told }
    ensures told { (read : ReadCall) → ReadsOneWay read → AvailableIsTold (available_run read) }
{}

/// Events: an application is told nothing next, though a count came that lets it open more streams,
/// and it wasn't told of that.
pub fn untold_count_shows()
    ensures told { (read : ReadCall) → AvailableIsTold (unavailable_run read) → ⊥ }
    ensures premises { (read : ReadCall) → ReadsOneWay read → IsHonest (unavailable_run read) }
    ensures machine { (read : ReadCall) → ReadsOneWay read → IsNoRun (unavailable_run read) }
{}
