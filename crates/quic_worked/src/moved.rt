//! More runs in which a server follows its peer, computed, and machines that keep at the new
//! address what was of the old one. Each function does nothing: its contract is the law.
ghost use Rattle.std.specs.Prelude.{◌≡◌, [], ◌∷◌, false, true, Some, None};
ghost use Rattle.quic_wire_core.specs.declared.stream_id.Side.TheVariants.{Server};
ghost use Rattle.quic_machine.specs.Machine.{World};
ghost use Rattle.quic_headline.specs.Observer.{sents_until, peer_address, generation_at, path_changes};
ghost use Rattle.quic_headline.specs.Allowance.{bytes_handed};
ghost use Rattle.quic_headline.specs.InUse.{in_use, next_id, TellsStays};
ghost use Rattle.quic_headline.specs.ConnectionIds.{StaysForAReason};
ghost use Rattle.quic_headline.specs.Polls.{seen_at, PollsSendWhatWaits};
ghost use Rattle.quic_headline.specs.Spread.{PacerIsOfHistory};
ghost use Rattle.quic_headline.specs.Headline.{IsHonest, IsRun};
ghost use Rattle.quic_headline.specs.Validated.{asking, WasAnswered, ValidatedByAnswer};
ghost use Rattle.quic_worked.specs.Broken.{IsNoRun, NeverLeadsFrom};
ghost use Rattle.quic_worked.specs.Worked.{both_steady, id_word};
ghost use Rattle.quic_worked.specs.Moved.{once_twice, twice_sent, twice_run, once_kept, kept_sent, kept_run, keeps_old_flight, keeps_old_pacer, old_answer_validates, once_early, early_run, uses_last, passing_events, passing_answers, once_passed, passes_over};

/// The peer moves to address 9 and back to address 0: on the third path what came on the first
/// counts no more, the address is to be validated anew, and the third id of the peer is used.
pub fn peer_moves_back()
    ensures honest { IsHonest twice_run }
    ensures run { IsRun twice_run (once_twice 13) }
    ensures there { peer_address twice_run Server 6 ≡ 9 }
    ensures back { peer_address twice_run Server 9 ≡ 0 }
    ensures third { generation_at twice_run Server 9 ≡ 2 }
    ensures unvalidated { (seen_at twice_run Server 9).validated ≡ false }
    ensures handed { bytes_handed twice_run Server 9 ≡ 29 }
    ensures used { in_use twice_run (λ n. false) Server 9 ≡ 2 }
    ensures sent { sents_until twice_run Server 13 ≡ twice_sent ∷ [] }
{}

/// Where the datagram with which its peer told its ids didn't come, a server that follows its peer
/// goes on with the id that it has (RFC 9000, section 9.5).
pub fn id_stays()
    ensures honest { IsHonest kept_run }
    ensures run { IsRun kept_run (once_kept 7) }
    ensures changes { path_changes kept_run Server 4 ≡ true }
    ensures none { next_id kept_run (λ n. true) Server 5 ≡ None }
    ensures used { in_use kept_run (λ n. true) Server 7 ≡ 0 }
    ensures sent { sents_until kept_run Server 7 ≡ kept_sent ∷ [] }
    ensures reason { StaysForAReason kept_run }
{}

/// Sending: a server that follows its peer gives nothing to the new address, since what it gave to
/// the old one counts against the window.
pub fn old_flight_is_kept()
    ensures polls { PollsSendWhatWaits keeps_old_flight → ⊥ }
    ensures premises { IsHonest keeps_old_flight }
    ensures machine { IsNoRun keeps_old_flight }
{}

/// Sending: such a server waits for the pacer of the old path.
pub fn old_pacer_is_kept()
    ensures paces { PacerIsOfHistory keeps_old_pacer → ⊥ }
    ensures premises { IsHonest keeps_old_pacer }
    ensures machine { IsNoRun keeps_old_pacer }
{}

/// Receiving: to a server that asked its peer at the new address for another word the address
/// becomes validated by the answer to what it had asked at the old one.
pub fn old_answer_validates_new_address()
    ensures validated { ValidatedByAnswer old_answer_validates → ⊥ }
    ensures premises { IsHonest old_answer_validates }
    ensures machine { (end : World) → IsRun old_answer_validates end → ⊥ }
{}

/// Sending: a server goes on with the id that it has, though its peer told others, of which it
/// knows none as a next one. The run begins at an end that isn't new.
pub fn next_id_is_passed_over()
    ensures run { IsRun passes_over (once_passed uses_last 3) }
    ensures told { TellsStays passes_over Server (λ n. true) }
    ensures stays { StaysForAReason passes_over → ⊥ }
    ensures machine { NeverLeadsFrom both_steady passing_events passing_answers
        (once_passed uses_last 3) }
{}

/// Where the answer to what was asked at the old address comes from the new one before the server
/// asks there, the clause lets it validate the address: by the lists other data may be asked for.
/// The machine takes it only since its random source answers the same word again.
pub fn early_answer_is_let()
    ensures honest { IsHonest early_run }
    ensures run { IsRun early_run (once_early 11) }
    ensures changes { path_changes early_run Server 9 ≡ true }
    ensures renewed { (asking early_run Server 10).renewed ≡ true }
    ensures latest { (asking early_run Server 10).latest ≡ Some id_word }
    ensures answered { WasAnswered early_run Server 10 }
    ensures before { (seen_at early_run Server 10).validated ≡ false }
    ensures behind { (seen_at early_run Server 11).validated ≡ true }
{}
