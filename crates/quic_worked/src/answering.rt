//! What calls are answered that end or bring nothing, and what goes behind a close, computed, and
//! machines that answer otherwise. Each function does nothing: its contract is the law.
ghost use Rattle.std.specs.Prelude.{◌≡◌, true, [], ◌∷◌, Some, None};
ghost use Rattle.quic_wire_core.specs.declared.stream_id.Side.TheVariants.{Server};
ghost use Rattle.quic_machine.specs.declared.run.ReadCall.{ReadCall};
ghost use Rattle.quic_machine.specs.declared.run.Answer.TheVariants as answers;
ghost use Rattle.quic_headline.specs.Observer.{took};
ghost use Rattle.quic_headline.specs.Headline.{IsHonest, IsRun};
ghost use Rattle.quic_headline.specs.Credit.{was_reset};
ghost use Rattle.quic_headline.specs.Chunks.{AnswersEach, ReadsAnswer};
ghost use Rattle.quic_headline.specs.Resets.{ResetsAreHeeded};
ghost use Rattle.quic_headline.specs.Stopped.{StoppedOnlyWhereAsked, ClosedTakeNothing};
ghost use Rattle.quic_headline.specs.Closes.{ClosesGoAlone};
ghost use Rattle.quic_headline.specs.SendAnswers.{SendsAreLet};
ghost use Rattle.quic_worked.specs.Broken.{IsNoRun};
ghost use Rattle.quic_worked.specs.Worked.{ReadsBy};
ghost use Rattle.quic_worked.specs.Reordered.{abc, def};
ghost use Rattle.quic_worked.specs.Picked.{Picks, picks_at, picked_bounds, picked_run};
ghost use Rattle.quic_worked.specs.Messages.{message_run};
ghost use Rattle.quic_worked.specs.Paired.{ReadsSecond, second_bounds, paired_run};
ghost use Rattle.quic_worked.specs.Ended.{closing_run};
ghost use Rattle.quic_worked.specs.Answering.{reads_as, no_byte, reads_refused, reset_denied, stopped_by_none, opens_behind, opened_none, once_none, ids_for_close, short_refused};

/// Each of two reads of two chunks answers twice, and the chunks have three bytes of the 32 that
/// were asked for.
pub fn reads_are_answered()
    ensures first { AnswersEach picked_bounds (picks_at 3 def) }
    ensures second { AnswersEach picked_bounds (picks_at 0 abc) }
    ensures right { (first second : ReadCall) → Picks first → Picks second → ReadsAnswer (picked_run first second) }
{}

/// Reading: a client asks for a chunk, and gets no answer; or a chunk without a byte; or it is
/// refused for its order, though it is the first read of its stream.
pub fn empty_reads_show()
    ensures none { (read : ReadCall) → ReadsBy (32 ∷ []) read → ReadsAnswer (reads_as read []) → ⊥ }
    ensures empty { (read : ReadCall) → ReadsBy (32 ∷ []) read → ReadsAnswer (reads_as read no_byte) → ⊥ }
    ensures refused { (read : ReadCall) → ReadsBy (32 ∷ []) read → ReadsAnswer (reads_refused read) → ⊥ }
    ensures none_premises { (read : ReadCall) → ReadsBy (32 ∷ []) read → IsHonest (reads_as read []) }
    ensures empty_premises { (read : ReadCall) → ReadsBy (32 ∷ []) read → IsHonest (reads_as read no_byte) }
    ensures refused_premises { (read : ReadCall) → ReadsBy (32 ∷ []) read → IsHonest (reads_refused read) }
    ensures none_machine { (read : ReadCall) → ReadsBy (32 ∷ []) read → IsNoRun (reads_as read []) }
    ensures empty_machine { (read : ReadCall) → ReadsBy (32 ∷ []) read → IsNoRun (reads_as read no_byte) }
    ensures refused_machine { (read : ReadCall) → ReadsBy (32 ∷ []) read → IsNoRun (reads_refused read) }
{}

/// The reset of the client's first stream came to the server, which is told of it as it asks.
pub fn resets_are_shown()
    ensures came { (read : ReadCall) → was_reset 0 (took (paired_run read) Server 9) ≡ true }
    ensures right { (read : ReadCall) → ReadsSecond second_bounds read → ResetsAreHeeded (paired_run read) }
{}

/// Reading: a server is told that a stream wasn't reset, whose reset came (RFC 9000, section 3.2).
pub fn denied_reset_shows()
    ensures heeded { (read : ReadCall) → ResetsAreHeeded (reset_denied read) → ⊥ }
    ensures premises { (read : ReadCall) → IsHonest (reset_denied read) }
    ensures machine { (read : ReadCall) → IsNoRun (reset_denied read) }
{}

/// The client is told that its second stream was stopped, of which STOP_SENDING came.
pub fn stops_are_asked_for()
    ensures right { (read : ReadCall) → ReadsSecond second_bounds read → StoppedOnlyWhereAsked (paired_run read) }
{}

/// Writing: a client can't finish a stream, as if the server had stopped it.
pub fn needless_stop_shows()
    ensures asked { StoppedOnlyWhereAsked stopped_by_none → ⊥ }
    ensures premises { IsHonest stopped_by_none }
    ensures machine { IsNoRun stopped_by_none }
{}

/// A client whose application closed it opens no stream.
pub fn closed_client_opens_none()
    ensures honest { IsHonest opened_none }
    ensures run { IsRun opened_none once_none }
    ensures right { ClosedTakeNothing opened_none }
{}

/// Closing: a client whose application closed it opens a stream.
pub fn closed_client_opens_one()
    ensures takes { ClosedTakeNothing (opens_behind (answers.Open (Some 0))) → ⊥ }
    ensures premises { IsHonest (opens_behind (answers.Open (Some 0))) }
    ensures machine { IsNoRun (opens_behind (answers.Open (Some 0))) }
{}

/// A client whose application closed it gives its close, and nothing beside it.
pub fn close_goes_alone()
    ensures right { ClosesGoAlone closing_run }
{}

/// Closing: a client whose application closed it tells its ids in place of its close (RFC 9000,
/// section 10.2.1).
pub fn ids_for_close_show()
    ensures alone { ClosesGoAlone ids_for_close → ⊥ }
    ensures premises { IsHonest ids_for_close }
    ensures machine { IsNoRun ids_for_close }
{}

/// A client sends a message of four bytes, which is taken.
pub fn short_message_is_taken()
    ensures right { SendsAreLet message_run }
{}

/// Messages: a client is told that a message of four bytes is too long.
pub fn needless_refusal_shows()
    ensures refused { SendsAreLet short_refused → ⊥ }
    ensures premises { IsHonest short_refused }
    ensures machine { IsNoRun short_refused }
{}
