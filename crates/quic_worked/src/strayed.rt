//! Runs in which datagrams come from elsewhere though no peer moved, computed, and machines that go
//! wrong there. Each function does nothing: its contract is the law.
ghost use Rattle.std.specs.Prelude.{◌≡◌, [], ◌∷◌, false, true};
ghost use Rattle.quic_wire_core.specs.declared.stream_id.Side.TheVariants.{Client, Server};
ghost use Rattle.quic_headline.specs.Observer.{watch, news, peer_address, path_changes};
ghost use Rattle.quic_headline.specs.Headline.{IsHonest, IsRun, takes_nothing_from};
ghost use Rattle.quic_headline.specs.Moves.{PathChangesExactly, DropsOtherAddresses};
ghost use Rattle.quic_headline.specs.Polls.{seen_at};
ghost use Rattle.quic_worked.specs.Broken.{IsNoRun};
ghost use Rattle.quic_worked.specs.Timed.{NeverShows};
ghost use Rattle.quic_worked.specs.Strayed.{once_foreign, foreign_run, client_follows, once_strayed, strayed_run, migrates_back, once_probing, probing_packet, probing_run, migrates_for_a_probe};

/// A client drops what comes from another address than its peer's, and takes the same datagram from
/// there (RFC 9000, section 9).
pub fn client_takes_nothing_from_elsewhere()
    ensures honest { IsHonest foreign_run }
    ensures run { IsRun foreign_run (once_foreign 3) }
    ensures elsewhere { takes_nothing_from foreign_run Client 5 ≡ true }
    ensures home { takes_nothing_from foreign_run Client 0 ≡ false }
    ensures stays { peer_address foreign_run Client 3 ≡ 0 }
    ensures drops { DropsOtherAddresses foreign_run }
{}

/// Receiving: a client takes what comes from another address.
pub fn client_follows_its_peer()
    ensures drops { DropsOtherAddresses client_follows → ⊥ }
    ensures premises { IsHonest client_follows }
    ensures machine { IsNoRun client_follows }
{}

/// A server takes PING with number 1 from another address behind that with number 2 from the old
/// one, where its peer stays (RFC 9000, section 9.3).
pub fn old_packet_tells_nothing()
    ensures honest { IsHonest strayed_run }
    ensures run { IsRun strayed_run (once_strayed 8) }
    ensures stays { path_changes strayed_run Server 7 ≡ false }
    ensures address { peer_address strayed_run Server 8 ≡ 0 }
    ensures validated { (seen_at strayed_run Server 8).validated ≡ true }
{}

/// Receiving: a server takes its peer to be where such an old packet came from.
pub fn old_packet_is_followed()
    ensures changes { PathChangesExactly migrates_back → ⊥ }
    ensures premises { IsHonest migrates_back }
    ensures machine { NeverShows migrates_back }
{}

/// A server takes a packet from another address that has PATH_CHALLENGE, NEW_CONNECTION_ID and
/// PADDING alone. Its peer stays where it was, and gets no answer (RFC 9000, section 9.1).
pub fn probe_tells_nothing()
    ensures honest { IsHonest probing_run }
    ensures run { IsRun probing_run (once_probing 4) }
    ensures came { news (watch probing_run Server 2).intake (watch probing_run Server 3).intake
        ≡ probing_packet ∷ [] }
    ensures stays { path_changes probing_run Server 2 ≡ false }
    ensures address { peer_address probing_run Server 3 ≡ 0 }
{}

/// Receiving: a server takes its peer to be where such a packet came from.
pub fn probe_is_followed()
    ensures changes { PathChangesExactly migrates_for_a_probe → ⊥ }
    ensures premises { IsHonest migrates_for_a_probe }
    ensures machine { NeverShows migrates_for_a_probe }
{}
