//! The messages that wait to be received, computed on a run in which more come than a server keeps,
//! and machines that give its application others. Each function does nothing: its contract is the
//! law.
ghost use Rattle.std.specs.Prelude.{◌≡◌, [], ◌∷◌};
ghost use Rattle.quic_wire_core.specs.declared.stream_id.Side.TheVariants.{Server};
ghost use Rattle.quic_headline.specs.Headline.{IsHonest, IsRun};
ghost use Rattle.quic_headline.specs.Inbox.{inbox, ReceivesOldest};
ghost use Rattle.quic_worked.specs.Broken.{IsNoRun};
ghost use Rattle.quic_worked.specs.Received.{four_of, crowded_end, crowded_run, none_given, latest_given, dropped_given};

/// Four messages of four bytes come in one datagram, where 14 bytes wait at most: the first goes
/// for the last (RFC 9221, section 5). The others are received in their order, and then none is.
pub fn latest_three_are_received()
    ensures honest { IsHonest crowded_run }
    ensures run { IsRun crowded_run crowded_end }
    ensures waiting { inbox crowded_run Server 0 6
        ≡ four_of 0x62 ∷ four_of 0x63 ∷ four_of 0x64 ∷ [] }
    ensures left { inbox crowded_run Server 0 7 ≡ four_of 0x63 ∷ four_of 0x64 ∷ [] }
    ensures none { inbox crowded_run Server 0 9 ≡ [] }
    ensures oldest { ReceivesOldest crowded_run }
{}

/// Receiving: no message is ever received.
pub fn no_message_is_received()
    ensures oldest { ReceivesOldest none_given → ⊥ }
    ensures premises { IsHonest none_given }
    ensures machine { IsNoRun none_given }
{}

/// Receiving: of the messages that wait the latest is received first.
pub fn latest_is_received()
    ensures oldest { ReceivesOldest latest_given → ⊥ }
    ensures premises { IsHonest latest_given }
    ensures machine { IsNoRun latest_given }
{}

/// Receiving: a message is received that was dropped for a later one.
pub fn dropped_message_is_received()
    ensures oldest { ReceivesOldest dropped_given → ⊥ }
    ensures premises { IsHonest dropped_given }
    ensures machine { IsNoRun dropped_given }
{}
