//! Streams that aren't done at their reader where both ends rest, computed, and machines at which
//! none can be opened there though all that were opened are done. Each function does nothing: its
//! contract is the law.
ghost use Rattle.std.specs.Prelude.{◌≡◌};
ghost use Rattle.quic_wire_core.specs.declared.stream_id.Side.TheVariants.{Client, Server};
ghost use Rattle.quic_wire_core.specs.declared.stream_id.Dir.TheVariants.{Bi};
ghost use Rattle.quic_machine.specs.declared.run.ReadCall.{ReadCall};
ghost use Rattle.quic_headline.specs.Runs.{until};
ghost use Rattle.quic_headline.specs.Observer.{took};
ghost use Rattle.quic_headline.specs.Headline.{IsHonest};
ghost use Rattle.quic_headline.specs.Rest.{Rests};
ghost use Rattle.quic_headline.specs.Unread.{least_left};
ghost use Rattle.quic_headline.specs.Undone.{HasUndone, NoneOpenedOnlyForUndone};
ghost use Rattle.quic_worked.specs.Broken.{IsNoRun};
ghost use Rattle.quic_worked.specs.Rested.{rested_run};
ghost use Rattle.quic_worked.specs.Undone.{shut_run, ReadsLone, kept_back_run};

/// A server that reads nothing isn't done with the stream that the client opened and ended; and
/// where a hundred may be open at once, so many aren't done at least.
pub fn stream_is_left()
    ensures undone { HasUndone (until rested_run Client 13) (took rested_run Server 13) (until rested_run Server 13) Bi 1 }
    ensures hundred { least_left 100 ≡ 89 }
{}

/// A client that can open no stream while both ends rest, though it opened none. The machine opens
/// one.
pub fn shut_at_rest_shows()
    ensures client { Rests shut_run Client 2 }
    ensures server { Rests shut_run Server 2 }
    ensures undone { NoneOpenedOnlyForUndone shut_run → ⊥ }
    ensures honest { IsHonest shut_run }
    ensures machine { IsNoRun shut_run }
{}

/// Limits: a client that can open no second one-way stream while both ends rest, though the one
/// that may be open was read to its end at the server: streams that are done are never given back.
pub fn kept_back_at_rest_shows()
    ensures client { (read : ReadCall) → ReadsLone read → Rests (kept_back_run read) Client 6 }
    ensures server { (read : ReadCall) → ReadsLone read → Rests (kept_back_run read) Server 6 }
    ensures undone { (read : ReadCall) → ReadsLone read → NoneOpenedOnlyForUndone (kept_back_run read) → ⊥ }
    ensures honest { (read : ReadCall) → ReadsLone read → IsHonest (kept_back_run read) }
    ensures machine { (read : ReadCall) → ReadsLone read → IsNoRun (kept_back_run read) }
{}
