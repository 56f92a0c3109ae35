//! A run in which a congestion window holds datagrams back, computed, and machines that hold back
//! what the window lets go, or a probe, don't ask the window, or let a third probe pass. Each
//! function does nothing: its contract is the law.
ghost use Rattle.std.specs.Prelude.{◌≡◌, ◌∷◌, [], true, false};
ghost use Rattle.quic_congestion.specs.Congestion.{Sent};
ghost use Rattle.quic_machine.specs.Control.{bytes_in_flight, is_window_full};
ghost use Rattle.quic_wire_core.specs.declared.stream_id.Side.TheVariants.{Client};
ghost use Rattle.quic_headline.specs.Headline.{IsHonest, IsRun};
ghost use Rattle.quic_headline.specs.Observer.{watch};
ghost use Rattle.quic_headline.specs.Polls.{GaveNothing, IsFull, IsByteToGo, PollsSendWhatWaits, AskingGoesWhereLet, ProbesPass, WindowIsOfHistory};
ghost use Rattle.quic_worked.specs.Broken.{IsNoRun};
ghost use Rattle.quic_worked.specs.Worked.{worked_policies, told_in, client_gives, once_sent};
ghost use Rattle.quic_worked.specs.Held.{held_start, held_events, held_answers, once_held, full_view, held_run, silent_run, shrunk_view, shrunk_run, resized_run, grown_run, overfull_run, unprobed_run, third_probe_run};
ghost use Rattle.quic_headline.specs.Sizes.{SizeIsOfHistory, SizesMove};

/// A datagram goes only while the window has room for one more of its size beside the bytes in
/// flight (RFC 9002, section 7). Of 4000 bytes that wait at a window of 2400, one datagram of 1200
/// goes, and then none, though the client isn't short of anything to send (section 7.8). Once the
/// loss timer expired, two probes pass all the same (section 7.5), and then none. The controller is
/// told of each datagram, and of no loss.
pub fn window_holds_back()
    ensures honest { IsHonest held_run }
    ensures run { IsRun held_run (once_held 8) }
    ensures flies { bytes_in_flight (once_held 3).client ≡ 1200 }
    ensures full { is_window_full (once_held 3).client ≡ true }
    ensures held { (once_held 4).client.path.app_limited ≡ false }
    ensures idle { (client_gives once_sent.client 0).end.path.app_limited ≡ true }
    ensures probes { (once_held 5).client.tracking.probes ≡ 2 }
    ensures none_left { (once_held 7).client.tracking.probes ≡ 0 }
    ensures all_fly { bytes_in_flight (once_held 8).client ≡ 3600 }
    ensures told { told_in Client worked_policies held_start held_events held_answers
        ≡ Sent 0 1200 0 ∷ Sent 1024000000 1200 1 ∷ Sent 1024000000 1200 2 ∷ [] }
{}

/// Where that poll gives nothing, a byte waits: that at offset 976 was written, and is in no
/// datagram. It is held back, since the window that is seen there has no room.
pub fn waiting_byte_is_held()
    ensures gave { GaveNothing held_run Client 3 0 full_view }
    ensures waits { IsByteToGo held_run Client 4 0 976 }
    ensures full { IsFull held_run Client 4 full_view }
{}

/// A client that gives a datagram more, though its window is full and no probe waits.
pub fn overfull_shows()
    ensures asking { AskingGoesWhereLet overfull_run → ⊥ }
    ensures premises { IsHonest overfull_run }
    ensures machine { IsNoRun overfull_run }
{}

/// A client that keeps what it wrote: its poll gives nothing, though the window has room and no
/// timer is set.
pub fn silent_shows()
    ensures polls { PollsSendWhatWaits silent_run → ⊥ }
    ensures premises { IsHonest silent_run }
    ensures machine { IsNoRun silent_run }
{}

/// A client that keeps what it wrote, and shows another window than its controller does, one that
/// is full whatever is in flight.
pub fn shrunk_shows()
    ensures full { IsFull shrunk_run Client 3 shrunk_view }
    ensures window { WindowIsOfHistory shrunk_run → ⊥ }
    ensures premises { IsHonest shrunk_run }
    ensures machine { IsNoRun shrunk_run }
{}

/// A client whose loss timer expires, and that holds back the probe which waits since its window is
/// full.
pub fn unprobed_shows()
    ensures waits { (watch unprobed_run Client 5).flight.probes ≡ 2 }
    ensures probes { ProbesPass unprobed_run → ⊥ }
    ensures premises { IsHonest unprobed_run }
    ensures machine { IsNoRun unprobed_run }
{}

/// A client whose loss timer expires once, and that lets three probes pass a full window, though
/// two wait.
pub fn third_probe_shows()
    ensures none_waits { (watch third_probe_run Client 7).flight.probes ≡ 0 }
    ensures asking { AskingGoesWhereLet third_probe_run → ⊥ }
    ensures premises { IsHonest third_probe_run }
    ensures machine { IsNoRun third_probe_run }
{}

/// A client that shows a larger size of datagrams than its controller was told of.
pub fn resized_shows()
    ensures size { SizeIsOfHistory resized_run → ⊥ }
    ensures premises { IsHonest resized_run }
    ensures machine { IsNoRun resized_run }
{}

/// A client whose size of datagrams grows though no MTU probe was acknowledged.
pub fn grown_shows()
    ensures size { SizesMove grown_run → ⊥ }
    ensures premises { IsHonest grown_run }
    ensures machine { IsNoRun grown_run }
{}
