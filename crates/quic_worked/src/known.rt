//! Runs in which an end asks for the next id of its peer, computed, and machines that refuse one
//! that is there, or forget an id that they told. Each function does nothing: its contract is the
//! law.
ghost use Rattle.std.specs.Prelude.{◌≡◌, ℕ, Bool, [], ◌∷◌, Some, None};
ghost use Rattle.quic_wire_core.specs.declared.stream_id.Side.TheVariants.{Client};
ghost use Rattle.quic_machine.specs.Ids.{known};
ghost use Rattle.quic_headline.specs.Runs.{In};
ghost use Rattle.quic_headline.specs.Observer.{sents_until};
ghost use Rattle.quic_headline.specs.Headline.{IsHonest, IsRun, OpensAs};
ghost use Rattle.quic_headline.specs.ConnectionIds.{ToldIdsAreKnown, NewestOpensAtEnd, opened_at_end, NoIdIsExact, IsPastLimit, TooManyIsExact};
ghost use Rattle.quic_headline.specs.InUse.{in_use, next_id};
ghost use Rattle.quic_worked.specs.Worked.{both_steady, id_word};
ghost use Rattle.quic_worked.specs.Broken.{IsNoRun, NeverLeadsFrom};
ghost use Rattle.quic_worked.specs.Known.{naming_events, naming_answers, is_used, has_none, has_too_many, once_named, naming_datagram, naming_sent, naming_run, asking_run, asking_early, asked_early, made_up, eighty_wait, forgetful};

/// The client takes the ids of the server, asks for the next one, of number 1, and sends to it. The
/// server knows it, and the datagram opens there as it was sent (RFC 9000, sections 5.1.2 and 5.2).
pub fn told_id_is_known()
    ensures honest { IsHonest (naming_run both_steady) }
    ensures run { IsRun (naming_run both_steady) (once_named both_steady is_used 4) }
    ensures used { (stays : ℕ → Bool) → in_use (naming_run both_steady) stays Client 2 ≡ 0 }
    ensures next { (stays : ℕ → Bool) → next_id (naming_run both_steady) stays Client 2 ≡ Some 1 }
    ensures room { IsPastLimit (once_named both_steady is_used 2).client 0 1 → ⊥ }
    ensures sent { sents_until (naming_run both_steady) Client 4 ≡ naming_sent ∷ [] }
    ensures known { In id_word (known (once_named both_steady is_used 4).server.ids) }
    ensures opens { OpensAs naming_sent (opened_at_end (naming_run both_steady)
        (once_named both_steady is_used 4) Client 4 naming_datagram) }
{}

/// A client that asks before it was told of an id has no next one.
pub fn no_id_is_told()
    ensures honest { IsHonest asking_early }
    ensures run { IsRun asking_early asked_early }
    ensures next { (stays : ℕ → Bool) → next_id asking_early stays Client 0 ≡ None }
{}

/// Where eighty retirements wait at the client already, the next id is refused. It is a run of the
/// machine, but from no new ends.
pub fn retirements_wait()
    ensures run { IsRun (asking_run eighty_wait has_too_many) (once_named eighty_wait has_too_many 3) }
    ensures used { (stays : ℕ → Bool)
        → in_use (asking_run eighty_wait has_too_many) stays Client 2 ≡ 0 }
    ensures next { (stays : ℕ → Bool)
        → next_id (asking_run eighty_wait has_too_many) stays Client 2 ≡ Some 1 }
    ensures past { IsPastLimit (once_named eighty_wait has_too_many 2).client 0 1 }
{}

/// Application calls: there is never a next id, whatever the peer told.
pub fn never_has_next_id()
    ensures exact { NoIdIsExact (asking_run both_steady has_none) → ⊥ }
    ensures premises { IsHonest (asking_run both_steady has_none) }
    ensures machine { IsNoRun (asking_run both_steady has_none) }
{}

/// Application calls: there is a next id before the peer told of one.
pub fn next_id_is_made_up()
    ensures exact { NoIdIsExact made_up → ⊥ }
    ensures premises { IsHonest made_up }
    ensures machine { IsNoRun made_up }
{}

/// Application calls: one retirement is too many.
pub fn one_retirement_is_too_many()
    ensures exact { TooManyIsExact (asking_run both_steady has_too_many) → ⊥ }
    ensures premises { IsHonest (asking_run both_steady has_too_many) }
    ensures machine { IsNoRun (asking_run both_steady has_too_many) }
{}

/// Application calls: the next id is used though eighty retirements wait. The run begins at ends
/// that aren't new.
pub fn retirements_are_not_counted()
    ensures exact { TooManyIsExact (asking_run eighty_wait is_used) → ⊥ }
    ensures machine { IsNoRun (asking_run eighty_wait is_used) }
{}

/// Receiving: of the ids that it tells a server knows none, so that what is sent to one of them
/// doesn't open.
pub fn forgets_a_told_id()
    ensures run { IsRun (naming_run forgetful) (once_named forgetful is_used 4) }
    ensures known { ToldIdsAreKnown (naming_run forgetful) → ⊥ }
    ensures opens { NewestOpensAtEnd (naming_run forgetful) → ⊥ }
    ensures machine { NeverLeadsFrom both_steady naming_events (naming_answers is_used)
        (once_named forgetful is_used 4) }
{}
