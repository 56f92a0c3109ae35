//! A run in which congestion persists, computed, and a machine whose window falls to one datagram.
//! Each function does nothing: its contract is the law.
ghost use Rattle.std.specs.Prelude.{◌≡◌};
ghost use Rattle.quic_wire_core.specs.declared.stream_id.Side.TheVariants.{Client};
ghost use Rattle.quic_headline.specs.Headline.{IsHonest, IsRun};
ghost use Rattle.quic_headline.specs.Reno.{first_window, window_behind, RenoWindows};
ghost use Rattle.quic_worked.specs.Worked.{worked_policies, told_in};
ghost use Rattle.quic_worked.specs.Timed.{NeverShows};
ghost use Rattle.quic_worked.specs.Collapsed.{collapsing, collapsed_events, collapsed_answers, once_collapsed, collapsed_run, collapsed_told, single_run, avoiding_told};

/// Two datagrams that went a second apart are lost, and an acknowledgement is waited for during 185
/// ms: congestion persists, and the window falls to two datagrams (RFC 9002, section 7.6.2). That
/// below which it grows by what is acknowledged is half of the 12029 bytes that it had.
pub fn congestion_persists()
    ensures honest { IsHonest collapsed_run }
    ensures run { IsRun collapsed_run (once_collapsed 11) }
    ensures told { told_in Client worked_policies collapsing collapsed_events collapsed_answers
        ≡ collapsed_told }
    ensures reckoned { window_behind (1, 2) collapsed_told (first_window 12000 0 1200)
        ≡ record {
          bytes = 2400;
          threshold = 6014;
          recovery = 1300000000;
          counted = 0;
          size = 1200;
        } }
    ensures clause { RenoWindows collapsed_run }
{}

/// A loss leaves half of 12000 bytes; what went before recovery began changes nothing, and 6000
/// acknowledged bytes that went since make the window one datagram greater (RFC 9002, sections
/// 7.3.2 and 7.3.3).
pub fn congestion_is_avoided()
    ensures { window_behind (1, 2) avoiding_told (first_window 12000 0 1200)
        ≡ record {
          bytes = 7200;
          threshold = 6000;
          recovery = 10;
          counted = 0;
          size = 1200;
        } }
{}

/// A client whose window falls to one datagram, where two have to have room.
pub fn single_datagram_shows()
    ensures clause { RenoWindows single_run → ⊥ }
    ensures premises { IsHonest single_run }
    ensures machine { NeverShows single_run }
{}
