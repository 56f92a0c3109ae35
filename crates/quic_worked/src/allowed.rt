//! Calls that are answered that their stream is closed, where the application stopped, finished or
//! reset it, or all of it was acknowledged, and machines that say so of a stream that was just
//! opened; and one that keeps a message that waits by the lists. Each function does nothing: its
//! contract is the law.
ghost use Rattle.std.specs.Prelude.{◌≡◌, [], ◌∷◌, true, Err, None};
ghost use Rattle.quic_wire_core.specs.declared.stream_id.Side.TheVariants.{Client, Server};
ghost use Rattle.std.specs.Option.{IsSome};
ghost use Rattle.quic_streams_parts.specs.declared.answers.ReadableError.TheVariants as readable_errors;
ghost use Rattle.quic_streams_parts.specs.declared.answers.UpdateError.TheVariants as update_errors;
ghost use Rattle.quic_streams_parts.specs.declared.answers.FinishError.TheVariants as finish_errors;
ghost use Rattle.quic_machine.specs.declared.run.ReadCall.{ReadCall};
ghost use Rattle.quic_machine.specs.declared.run.Call.TheVariants as calls;
ghost use Rattle.quic_machine.specs.declared.run.Answer.TheVariants as answers;
ghost use Rattle.quic_headline.specs.Runs.{until, reset};
ghost use Rattle.quic_headline.specs.Headline.{IsHonest, IsRun, AllArrived};
ghost use Rattle.quic_headline.specs.Observer.{took};
ghost use Rattle.quic_headline.specs.Undone.{IsSentOff};
ghost use Rattle.quic_headline.specs.Allowed.{IsReadOff, ReadsAreAllowed, ReadsAreOver, WritesAreAllowed, ResetsAreAllowed};
ghost use Rattle.quic_headline.specs.Lacking.{LacksWhereTaken};
ghost use Rattle.quic_headline.specs.Queue.{waiting_messages, MessagesGo};
ghost use Rattle.quic_worked.specs.Broken.{IsNoRun};
ghost use Rattle.quic_worked.specs.Worked.{ReadsBy};
ghost use Rattle.quic_worked.specs.Messages.{ping_message};
ghost use Rattle.quic_worked.specs.Faults.{silent_message, message_waits};
ghost use Rattle.quic_worked.specs.Allowed.{opened_then, stopped_twice, stopped_again, stop_finds_none, finished_twice, reset_twice, reset_late, late_end};

/// A client that stopped a stream is kept from reading it, one that finished a stream from writing
/// on it, and one that reset it from resetting it again.
pub fn closed_is_allowed()
    ensures stopped { IsReadOff (until stopped_twice Client 2) 0 }
    ensures finished { IsSentOff (until finished_twice Client 2) 0 }
    ensures reset { IsSome (reset 0 (until reset_twice Client 2)) }
{}

/// A client that finished a stream can't reset it once all of it was acknowledged: all that it
/// wrote, and the end, came to the other end, and it didn't reset the stream before.
pub fn late_reset_is_allowed()
    ensures honest { IsHonest reset_late }
    ensures run { IsRun reset_late late_end }
    ensures arrived { AllArrived (took reset_late Server 13) 0 (until reset_late Client 13) }
    ensures kept { reset 0 (until reset_late Client 13) ≡ None }
{}

/// Reading: a client that opened a stream can't read it. The machine lets it.
pub fn closed_for_reads_shows()
    ensures reads { (read : ReadCall) → ReadsBy (32 ∷ []) read → ReadsAreAllowed (opened_then (calls.Read read) (answers.Read (Err readable_errors.ClosedStream))) → ⊥ }
    ensures honest { (read : ReadCall) → ReadsBy (32 ∷ []) read → IsHonest (opened_then (calls.Read read) (answers.Read (Err readable_errors.ClosedStream))) }
    ensures machine { (read : ReadCall) → ReadsBy (32 ∷ []) read → IsNoRun (opened_then (calls.Read read) (answers.Read (Err readable_errors.ClosedStream))) }
{}

/// Reading: nor can it stop it.
pub fn closed_for_stops_shows()
    ensures reads { ReadsAreAllowed (opened_then (calls.Stop 0 7) (answers.Stop (Err update_errors.ClosedStream))) → ⊥ }
    ensures honest { IsHonest (opened_then (calls.Stop 0 7) (answers.Stop (Err update_errors.ClosedStream))) }
    ensures machine { IsNoRun (opened_then (calls.Stop 0 7) (answers.Stop (Err update_errors.ClosedStream))) }
{}

/// Reading: a client stops a stream that it stopped, and is told that it did.
pub fn stopped_again_shows()
    ensures over { ReadsAreOver stopped_again → ⊥ }
    ensures honest { IsHonest stopped_again }
    ensures machine { IsNoRun stopped_again }
{}

/// Reading: or it finds no memory for that.
pub fn stop_without_memory_shows()
    ensures over { ReadsAreOver stop_finds_none → ⊥ }
    ensures lacks { LacksWhereTaken stop_finds_none → ⊥ }
    ensures honest { IsHonest stop_finds_none }
    ensures machine { IsNoRun stop_finds_none }
{}

/// Writing: a client that opened a stream can't finish it. The machine lets it.
pub fn closed_for_writes_shows()
    ensures writes { WritesAreAllowed (opened_then (calls.Finish 0) (answers.Finish (Err finish_errors.ClosedStream))) → ⊥ }
    ensures honest { IsHonest (opened_then (calls.Finish 0) (answers.Finish (Err finish_errors.ClosedStream))) }
    ensures machine { IsNoRun (opened_then (calls.Finish 0) (answers.Finish (Err finish_errors.ClosedStream))) }
{}

/// Writing: nor can it reset it.
pub fn closed_for_resets_shows()
    ensures resets { ResetsAreAllowed (opened_then (calls.Reset 0 7) (answers.Reset (Err update_errors.ClosedStream))) → ⊥ }
    ensures honest { IsHonest (opened_then (calls.Reset 0 7) (answers.Reset (Err update_errors.ClosedStream))) }
    ensures machine { IsNoRun (opened_then (calls.Reset 0 7) (answers.Reset (Err update_errors.ClosedStream))) }
{}

/// A message that was sent behind a full datagram in flight waits by the lists.
pub fn message_is_waited_for()
    ensures waits { waiting_messages message_waits Client 5 ≡ ping_message ∷ [] }
{}

/// Sending: a poll gives nothing though by the lists a message waits, and neither window nor pacer
/// hold it back.
pub fn message_is_dropped_shows()
    ensures waits { waiting_messages silent_message Client 2 ≡ ping_message ∷ [] }
    ensures goes { MessagesGo silent_message → ⊥ }
    ensures honest { IsHonest silent_message }
    ensures machine { IsNoRun silent_message }
{}
