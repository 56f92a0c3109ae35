//! A run in which the handshake is said to be done, computed, and machines that go wrong there.
//! Each function does nothing: its contract is the law.
ghost use Rattle.std.specs.Prelude.{◌≡◌, ℕ, true, take};
ghost use Rattle.quic_wire_core.specs.declared.stream_id.Side.TheVariants.{Client, Server};
ghost use Rattle.quic_headline.specs.Runs.{until, was_said_done, DoneHasArrived};
ghost use Rattle.quic_headline.specs.Observer.{took, sents_until};
ghost use Rattle.quic_headline.specs.Headline.{IsHonest, IsRun};
ghost use Rattle.quic_headline.specs.Duties as duty;
ghost use Rattle.quic_headline.specs.Duties.{IsOwed, Waits, IsCarried, DutiesAt};
ghost use Rattle.quic_headline.specs.Begins.{Frame, Done, HasCause};
ghost use Rattle.quic_headline.specs.Waited.{wants, EachWaited};
ghost use Rattle.quic_headline.specs.Rest.{Rests, HaveRoom, DoneAtRest};
ghost use Rattle.quic_headline.specs.Confirmed.{DoneIsExact, ConfirmationIsTold};
ghost use Rattle.quic_worked.specs.Broken.{IsNoRun, NeverLeadsFrom};
ghost use Rattle.quic_worked.specs.Rested.{rested_start};
ghost use Rattle.quic_worked.specs.Confirmed.{confirmed_events, confirmed_answers, once_confirmed, confirmed_run, saying_seen, again_at_once, told_of_nothing, told_twice, never_told, forgotten_done, forgetting, given_unsaid, given_again};

/// A client's application says in vain that the handshake is done; a server's is let, once.
/// HANDSHAKE_DONE goes (RFC 9000, section 19.20), the client's application is told that the
/// handshake is confirmed (RFC 9001, section 4.1.2), and no more. Once it was acknowledged the
/// server rests: HANDSHAKE_DONE has arrived.
pub fn handshake_is_confirmed()
    ensures honest { IsHonest confirmed_run }
    ensures run { IsRun confirmed_run (once_confirmed 13) }
    ensures exact { DoneIsExact confirmed_run }
    ensures told { ConfirmationIsTold confirmed_run }
    ensures room { HaveRoom rested_start }
    ensures server { Rests confirmed_run Server 13 }
    ensures said { was_said_done (until confirmed_run Server 13) ≡ true }
    ensures arrived { DoneHasArrived (took confirmed_run Client 13) }
{}

/// That the handshake is done is owed from the call on: HANDSHAKE_DONE waits behind it, for which
/// the call is the cause, and is wanted; it is under way once it went, and then it has come.
pub fn done_is_owed()
    ensures owed { (used : ℕ) → IsOwed used (once_confirmed 2).server (sents_until confirmed_run Server 2) (until confirmed_run Server 2) duty.Done }
    ensures waits { Waits (once_confirmed 2).server duty.Done }
    ensures cause { HasCause saying_seen (Frame Done) }
    ensures wanted { (wants confirmed_run Server 3).done ≡ true }
    ensures flies { IsCarried (once_confirmed 4).server.tracking.packets duty.Done }
    ensures came { DoneHasArrived (took confirmed_run Client 5) }
{}

/// Application calls: a server answers that it was said before that the handshake is done, though
/// nobody said so.
pub fn first_is_again()
    ensures exact { DoneIsExact again_at_once → ⊥ }
    ensures premises { IsHonest again_at_once }
    ensures machine { IsNoRun again_at_once }
{}

/// Events: an application is told that the handshake is confirmed, though nothing came, or twice;
/// or it isn't told so, though HANDSHAKE_DONE came.
pub fn wrong_confirmations_show()
    ensures nothing { ConfirmationIsTold told_of_nothing → ⊥ }
    ensures twice { ConfirmationIsTold told_twice → ⊥ }
    ensures never { ConfirmationIsTold never_told → ⊥ }
    ensures nothing_premises { IsHonest told_of_nothing }
    ensures twice_premises { IsHonest told_twice }
    ensures never_premises { IsHonest never_told }
    ensures machine_nothing { IsNoRun told_of_nothing }
    ensures machine_twice { IsNoRun told_twice }
    ensures machine_never { IsNoRun never_told }
{}

/// Sending: HANDSHAKE_DONE is forgotten. A server whose application said that the handshake is done
/// comes to rest, and it hasn't arrived; and behind the call it is nowhere.
pub fn forgotten_done_shows()
    ensures rest { DoneAtRest forgotten_done → ⊥ }
    ensures duties { DutiesAt confirmed_run 2 forgetting → ⊥ }
    ensures premises { IsHonest forgotten_done }
    ensures machine { IsNoRun forgotten_done }
    ensures machine_duties { NeverLeadsFrom rested_start (take 2 confirmed_events) (take 2 confirmed_answers) forgetting }
{}

/// Sending: a server gives HANDSHAKE_DONE, though its application never said that the handshake is
/// done; and one gives it again in the next poll.
pub fn needless_done_shows()
    ensures unsaid { EachWaited given_unsaid → ⊥ }
    ensures again { EachWaited given_again → ⊥ }
    ensures unsaid_premises { IsHonest given_unsaid }
    ensures again_premises { IsHonest given_again }
    ensures machine_unsaid { IsNoRun given_unsaid }
    ensures machine_again { IsNoRun given_again }
{}
