//! A run in which both ends come to rest, computed, and runs of machines that rest too early, or
//! not at all. Each function does nothing: its contract is the law.
ghost use Rattle.std.specs.Prelude.{◌≡◌, [], ◌∷◌};
ghost use Rattle.quic_wire_core.specs.declared.stream_id.Side.TheVariants.{Client, Server};
ghost use Rattle.quic_headline.specs.Runs.{HasArrived, EndHasArrived};
ghost use Rattle.quic_headline.specs.Observer.{took};
ghost use Rattle.quic_headline.specs.Moments.{LossTimerQuiet};
ghost use Rattle.quic_headline.specs.Polls.{IsPaced};
ghost use Rattle.quic_headline.specs.Headline.{IsHonest, IsRun};
ghost use Rattle.quic_headline.specs.Spread.{PacerIsOfHistory};
ghost use Rattle.quic_headline.specs.Rest.{Rests, HaveRoom, unanswered, IsUnacknowledged, DeliveredAtRest, NothingOwedAtRest};
ghost use Rattle.quic_worked.specs.Broken.{IsNoRun};
ghost use Rattle.quic_worked.specs.Timed.{NeverShows};
ghost use Rattle.quic_worked.specs.Rested.{rested_start, once_rested, rested_run, hello_packet, kept_run, forgotten_run, unanswered_run, timed_on, paced_view, paced_run};

/// Behind the last two polls both ends rest, the client while the server is called once more. All
/// that the client wrote has arrived, and its end; and the server owed an acknowledgement of the
/// packet until it gave one.
pub fn both_ends_rest()
    ensures honest { IsHonest rested_run }
    ensures run { IsRun rested_run (once_rested 13) }
    ensures room { HaveRoom rested_start }
    ensures client { Rests rested_run Client 13 }
    ensures client_before { Rests rested_run Client 12 }
    ensures server { Rests rested_run Server 13 }
    ensures first { HasArrived (took rested_run Server 13) 0 0 }
    ensures last { HasArrived (took rested_run Server 13) 0 4 }
    ensures end { EndHasArrived (took rested_run Server 13) 0 5 }
    ensures owed { unanswered rested_run Server 6 ≡ hello_packet ∷ [] }
    ensures owed_no_more { unanswered rested_run Server 13 ≡ [] }
    ensures owed_never { unanswered rested_run Client 13 ≡ [] }
{}

/// A client that keeps what it wrote, and one that forgets what a lost datagram carried, come to
/// rest before it arrived. The machine gives it.
pub fn undelivered_rest_shows()
    ensures kept { DeliveredAtRest kept_run → ⊥ }
    ensures forgotten { DeliveredAtRest forgotten_run → ⊥ }
    ensures kept_honest { IsHonest kept_run }
    ensures forgotten_honest { IsHonest forgotten_run }
    ensures machine_kept { IsNoRun kept_run }
    ensures machine_forgotten { IsNoRun forgotten_run }
{}

/// A server that neither acknowledges what asks nor waits to do so comes to rest and owes an
/// acknowledgement. The machine's timer is set.
pub fn unanswered_rest_shows()
    ensures owes { IsUnacknowledged unanswered_run Server 6 hello_packet }
    ensures owed { NothingOwedAtRest unanswered_run → ⊥ }
    ensures honest { IsHonest unanswered_run }
    ensures machine { NeverShows unanswered_run }
{}

/// A client whose loss timer stays set once all that it gave was acknowledged, and one that shows
/// the timer of its pacer set and gives nothing, don't rest. The machine's loss timer stops, and
/// its pacer lets the datagram go: by the lists it names no later moment.
pub fn restless_shows()
    ensures quiet { LossTimerQuiet timed_on → ⊥ }
    ensures timed { Rests timed_on Client 13 → ⊥ }
    ensures paced { IsPaced paced_run Client 3 paced_view }
    ensures pacing { Rests paced_run Client 3 → ⊥ }
    ensures pacer { PacerIsOfHistory paced_run → ⊥ }
    ensures timed_honest { IsHonest timed_on }
    ensures paced_honest { IsHonest paced_run }
    ensures machine_timed { NeverShows timed_on }
    ensures machine_paced { IsNoRun paced_run }
{}
