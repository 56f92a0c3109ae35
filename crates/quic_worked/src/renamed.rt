//! A run in which an end uses the next id of its peer, computed, and machines that take one id for
//! another. Each function does nothing: its contract is the law.
ghost use Rattle.std.specs.Prelude.{◌≡◌, ℕ, Bool, [], ◌∷◌, None, false};
ghost use Rattle.quic_wire_core.specs.TransportError.{plain_error};
ghost use Rattle.quic_wire_core.specs.declared.stream_id.Side.TheVariants.{Client, Server};
ghost use Rattle.quic_machine.specs.declared.answers.Received.TheVariants as receives;
ghost use Rattle.quic_machine.specs.Arrival.{arriving};
ghost use Rattle.quic_machine.specs.Receive.{received};
ghost use Rattle.quic_headline.specs.Runs.{first_id_of_peer};
ghost use Rattle.quic_headline.specs.Causes.{NoBlame};
ghost use Rattle.quic_headline.specs.Observer.{took, came_in, sents_until};
ghost use Rattle.quic_headline.specs.Duties.{WasRetired};
ghost use Rattle.quic_headline.specs.Headline.{IsHonest, IsRun};
ghost use Rattle.quic_headline.specs.ConnectionIds.{IsToldId, IsIssued, IdsAreIssued, UnknownOnlyWhereRetired, IdsAreInUse};
ghost use Rattle.quic_headline.specs.InUse.{in_use};
ghost use Rattle.quic_worked.specs.Worked.{worked_policies, id_word};
ghost use Rattle.quic_worked.specs.Acknowledged.{from_server};
ghost use Rattle.quic_worked.specs.Broken.{IsNoRun};
ghost use Rattle.quic_worked.specs.Machines.{NeverGives};
ghost use Rattle.quic_worked.specs.Renamed.{once_renamed, renaming_run, ids_sent, second_sent, ids_packet, retired_used, old_used, forgets_early, two_payload, two_issued};

/// The client takes the ids of the server, and uses the first of them: its second datagram goes to
/// that, which was told under a number that it hasn't retired. What it had sent to the id with
/// which the server began comes late, and is dropped, since the server took that this one was
/// retired (RFC 9000, sections 5.1.2 and 5.2).
pub fn next_id_is_used()
    ensures honest { IsHonest renaming_run }
    ensures run { IsRun renaming_run (once_renamed 7) }
    ensures sent { sents_until renaming_run Client 7 ≡ ids_sent ∷ second_sent id_word ∷ [] }
    ensures took { took renaming_run Client 7 ≡ ids_packet ∷ [] }
    ensures issued { IsIssued (first_id_of_peer renaming_run Client)
        (came_in renaming_run Client 7) (ids_sent ∷ []) (second_sent id_word) }
    ensures retired { WasRetired (took renaming_run Server 6) 0 }
    ensures before { (stays : ℕ → Bool) → in_use renaming_run stays Client 3 ≡ 0 }
    ensures behind { (stays : ℕ → Bool) → in_use renaming_run stays Client 4 ≡ 1 }
    ensures used { (stays : ℕ → Bool) → IsToldId (first_id_of_peer renaming_run Client)
        (took renaming_run Client 4) (in_use renaming_run stays Client 4) id_word }
{}

/// Sending: a client says that it uses an id no more, and sends that to this very id.
pub fn retired_id_is_used()
    ensures issued { IdsAreIssued retired_used → ⊥ }
    ensures premises { IsHonest retired_used }
    ensures machine { NeverGives retired_used }
{}

/// Sending: a client is told to use the next id, and sends to the one before it all the same. It
/// doesn't say that this is retired, so each datagram goes to an id that its peer issued.
pub fn old_id_stays_in_use()
    ensures in_use { IdsAreInUse old_used → ⊥ }
    ensures issued { IdsAreIssued old_used }
    ensures premises { IsHonest old_used }
    ensures machine { IsNoRun old_used }
{}

/// Receiving: a server that told its ids forgets the one with which it began, which nobody retired.
pub fn id_is_forgotten()
    ensures unknown { UnknownOnlyWhereRetired forgets_early → ⊥ }
    ensures premises { IsHonest forgets_early }
    ensures machine { IsNoRun forgets_early }
{}

/// Receiving: a server issues two ids for the one that its peer retires. So the client is told of
/// one more than it takes, and closes (RFC 9000, section 5.1.1).
pub fn two_ids_are_issued()
    ensures blame { NoBlame two_issued → ⊥ }
    ensures closes { (received worked_policies.client (once_renamed 6).client
        (arriving 0 0 None false) (from_server 1 two_payload)).answer
        ≡ receives.Closed (plain_error 9) }
    ensures premises { IsHonest two_issued }
    ensures machine { IsNoRun two_issued }
{}
