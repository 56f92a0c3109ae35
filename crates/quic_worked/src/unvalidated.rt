//! Runs in which a server gives a datagram to an address that isn't validated, and its peer
//! answers, computed, and machines that give more than three times what came, or take an answer
//! wrongly. Each function does nothing: its contract is the law.
ghost use Rattle.std.specs.Prelude.{◌≡◌, false, true};
ghost use Rattle.quic_wire_core.specs.declared.stream_id.Side.TheVariants.{Server};
ghost use Rattle.quic_headline.specs.Allowance.{bytes_handed, bytes_given};
ghost use Rattle.quic_headline.specs.Polls.{seen_at};
ghost use Rattle.quic_headline.specs.Threefold.{Threefold};
ghost use Rattle.quic_headline.specs.Headline.{IsHonest, IsRun};
ghost use Rattle.quic_headline.specs.Validated.{asking, IsLatest, AnswerCame, WasAnswered, ValidatedByAnswer, AreWords, AnswersValidate};
ghost use Rattle.quic_worked.specs.Broken.{IsNoRun};
ghost use Rattle.quic_worked.specs.Unvalidated.{once_far, far_run, unasked_run, once_near, near_run, payload_counted, close_skipped, state_told, answered_run, ignored_run, unanswered_run, old_answer_run, late_answer_run, early_answer_run};
ghost use Rattle.quic_worked.specs.Worked.{id_word};

/// A server whose peer's address isn't validated gives a datagram of 1200 bytes once as many came:
/// three times these may go (RFC 9000, section 8.1).
pub fn much_came()
    ensures honest { IsHonest far_run }
    ensures run { IsRun far_run (once_far 5) }
    ensures validated { (seen_at far_run Server 5).validated ≡ false }
    ensures given { bytes_given far_run Server 5 ≡ 1200 }
    ensures handed { bytes_handed far_run Server 5 ≡ 1200 }
{}

/// Sending: a server gives a datagram to such an address before anything came.
pub fn nothing_came_yet()
    ensures threefold { Threefold unasked_run → ⊥ }
    ensures premises { IsHonest unasked_run }
    ensures machine { IsNoRun unasked_run }
{}

/// Once as much went as may, a poll gives nothing, though PING waits.
pub fn as_much_went()
    ensures honest { IsHonest near_run }
    ensures run { IsRun near_run (once_near 7) }
    ensures validated { (seen_at near_run Server 7).validated ≡ false }
    ensures given { bytes_given near_run Server 7 ≡ 1200 }
    ensures handed { bytes_handed near_run Server 7 ≡ 400 }
{}

/// Sending: a server counts the payloads of what it gives, without headers, numbers and tags.
pub fn threefold_counts_payload()
    ensures threefold { Threefold payload_counted → ⊥ }
    ensures premises { IsHonest payload_counted }
    ensures machine { IsNoRun payload_counted }
{}

/// Sending: a server gives its close whatever went before.
pub fn threefold_skips_closes()
    ensures threefold { Threefold close_skipped → ⊥ }
    ensures premises { IsHonest close_skipped }
    ensures machine { IsNoRun close_skipped }
{}

/// The client answers what the server asked it last, and its address becomes validated
/// (RFC 9000, section 8.2.3).
pub fn answer_validates()
    ensures honest { IsHonest answered_run }
    ensures run { IsRun answered_run state_told }
    ensures before { (seen_at answered_run Server 7).validated ≡ false }
    ensures behind { (seen_at answered_run Server 8).validated ≡ true }
    ensures answered { WasAnswered answered_run Server 7 }
    ensures words { AreWords answered_run }
    ensures kept { (asking answered_run Server 7).renewed ≡ false }
    ensures came { AnswerCame answered_run Server 7 id_word }
    ensures latest { IsLatest (asking answered_run Server 7).latest id_word }
{}

/// Receiving: to a server the address of its peer becomes validated though no answer came; and to
/// one that asked anew, by the answer to what it asked before, also where a moment came at which
/// no timer expires.
pub fn old_answer_validates()
    ensures none { ValidatedByAnswer unanswered_run → ⊥ }
    ensures old { ValidatedByAnswer old_answer_run → ⊥ }
    ensures late { ValidatedByAnswer late_answer_run → ⊥ }
    ensures none_premises { IsHonest unanswered_run }
    ensures old_premises { IsHonest old_answer_run }
    ensures late_premises { IsHonest late_answer_run }
    ensures machine_none { IsNoRun unanswered_run }
    ensures machine_old { IsNoRun old_answer_run }
    ensures machine_late { IsNoRun late_answer_run }
{}

/// Receiving: to a server that asked nothing yet the address of its peer becomes validated by data
/// that it never drew.
pub fn early_answer_validates()
    ensures early { ValidatedByAnswer early_answer_run → ⊥ }
    ensures premises { IsHonest early_answer_run }
    ensures machine { IsNoRun early_answer_run }
{}

/// Receiving: to a server the address of its peer stays as it was, though the right answer came.
pub fn answer_is_ignored()
    ensures validates { AnswersValidate ignored_run → ⊥ }
    ensures premises { IsHonest ignored_run }
    ensures machine { IsNoRun ignored_run }
{}
