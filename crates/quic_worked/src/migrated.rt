//! A run in which a server follows its peer to another address, computed, and machines that don't
//! follow it, follow it only in part, or give more than may go there. Each function does nothing:
//! its contract is the law.
ghost use Rattle.std.specs.Prelude.{◌≡◌, [], ◌∷◌, false, true};
ghost use Rattle.quic_wire_core.specs.declared.stream_id.Side.TheVariants.{Server};
ghost use Rattle.quic_machine.specs.Machine.{World};
ghost use Rattle.quic_headline.specs.Observer.{sents_until, peer_address, generation_at, path_changes};
ghost use Rattle.quic_headline.specs.Allowance.{bytes_handed, bytes_given};
ghost use Rattle.quic_headline.specs.InUse.{in_use, TellsStays};
ghost use Rattle.quic_headline.specs.ConnectionIds.{IdsAreInUse};
ghost use Rattle.quic_headline.specs.Spread.{pacer_at, pacer_anew};
ghost use Rattle.quic_headline.specs.Polls.{seen_at, bytes_flying};
ghost use Rattle.quic_headline.specs.Threefold.{Threefold};
ghost use Rattle.quic_headline.specs.Moves.{GoesToPath, PathChangesExactly};
ghost use Rattle.quic_headline.specs.Headline.{IsHonest, IsRun};
ghost use Rattle.quic_headline.specs.Validated.{asking, WasAnswered};
ghost use Rattle.quic_worked.specs.Broken.{IsNoRun};
ghost use Rattle.quic_worked.specs.Migrated.{once_migrated, moved_sent, migrated_run, inherits_received, counts_strays, never_migrates, answers_old_address, closes_to_old_address, keeps_id};

/// The word comes to the server from address 0, and PING from address 9. So the server takes its
/// peer to be there, on another path, whose address isn't validated; 29 bytes came on it, none
/// went, and it has a pacer of its own. Once 371 bytes more came from there, three times what came
/// lets one datagram go: it goes to the next id, and asks the peer to answer. The answer comes
/// from there, and the address is validated (RFC 9000, sections 8.1, 8.2, 9.3 and 9.5).
pub fn peer_is_followed()
    ensures honest { IsHonest migrated_run }
    ensures run { IsRun migrated_run (once_migrated 17) }
    ensures old { peer_address migrated_run Server 6 ≡ 0 }
    ensures address { peer_address migrated_run Server 7 ≡ 9 }
    ensures first { generation_at migrated_run Server 6 ≡ 0 }
    ensures second { generation_at migrated_run Server 17 ≡ 1 }
    ensures changes { path_changes migrated_run Server 6 ≡ true }
    ensures stays { path_changes migrated_run Server 15 ≡ false }
    ensures before { (seen_at migrated_run Server 6).validated ≡ true }
    ensures behind { (seen_at migrated_run Server 7).validated ≡ false }
    ensures handed { bytes_handed migrated_run Server 7 ≡ 29 }
    ensures given { bytes_given migrated_run Server 7 ≡ 0 }
    ensures more { bytes_handed migrated_run Server 11 ≡ 400 }
    ensures one { bytes_given migrated_run Server 12 ≡ 1200 }
    ensures flying { bytes_flying migrated_run Server 12 ≡ 1200 }
    ensures all { bytes_handed migrated_run Server 17 ≡ 1600 }
    ensures sent { sents_until migrated_run Server 17 ≡ moved_sent ∷ [] }
    ensures paced { pacer_at migrated_run Server 7 ≡ pacer_anew migrated_run Server 7 }
    ensures used { in_use migrated_run (λ n. false) Server 6 ≡ 0 }
    ensures next { in_use migrated_run (λ n. false) Server 7 ≡ 1 }
    ensures renewed { (asking migrated_run Server 7).renewed ≡ true }
    ensures asked { (asking migrated_run Server 15).renewed ≡ false }
    ensures answered { WasAnswered migrated_run Server 15 }
    ensures validated { (seen_at migrated_run Server 16).validated ≡ true }
    ensures goes { GoesToPath migrated_run }
    ensures exactly { PathChangesExactly migrated_run }
{}

/// Sending: a server that follows its peer counts the bytes that came from the old address for the
/// new one.
pub fn old_bytes_are_inherited()
    ensures threefold { Threefold inherits_received → ⊥ }
    ensures premises { IsHonest inherits_received }
    ensures machine { IsNoRun inherits_received }
{}

/// Sending: such a server counts bytes that come from the old address for the new one, once it
/// follows its peer.
pub fn strays_are_counted()
    ensures threefold { Threefold counts_strays → ⊥ }
    ensures premises { IsHonest counts_strays }
    ensures machine { IsNoRun counts_strays }
{}

/// Receiving: a server takes its peer to be where it was, though PING came from elsewhere under a
/// number above all others.
pub fn peer_is_not_followed()
    ensures changes { PathChangesExactly never_migrates → ⊥ }
    ensures premises { IsHonest never_migrates }
    ensures machine { IsNoRun never_migrates }
{}

/// Sending: a server gives the datagram by which it asks its peer at the new address to the old
/// one.
pub fn old_address_is_answered()
    ensures goes { GoesToPath answers_old_address → ⊥ }
    ensures premises { IsHonest answers_old_address }
    ensures machine { IsNoRun answers_old_address }
{}

/// Closing: a server gives its close to the old address.
pub fn close_goes_to_old_address()
    ensures goes { GoesToPath closes_to_old_address → ⊥ }
    ensures premises { IsHonest closes_to_old_address }
    ensures machine { IsNoRun closes_to_old_address }
{}

/// Sending: a server that follows its peer goes on with the id that it used at the old address,
/// though it knows another one. The reference machine uses that wherever the run comes to there,
/// so that the lists say that the id doesn't stay: what is false is that the datagram went to the
/// id in use.
pub fn old_id_is_kept()
    ensures moves { TellsStays keeps_id Server (λ n. false) }
    ensures in_use { IdsAreInUse keeps_id → ⊥ }
    ensures premises { IsHonest keeps_id }
    ensures machine { (end : World) → IsRun keeps_id end → ⊥ }
{}
