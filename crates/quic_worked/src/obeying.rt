//! Runs in which an endpoint keeps to what its peer asks of how often to acknowledge, computed, and
//! the same runs as machines with a bug make them. Each function does nothing: its contract is the
//! law.
ghost use Rattle.std.specs.Prelude.{◌≡◌, ◌∷◌, [], false, true};
ghost use Rattle.quic_wire_core.specs.declared.stream_id.Side.TheVariants.{Client, Server};
ghost use Rattle.quic_headline.specs.Headline.{IsHonest, IsRun};
ghost use Rattle.quic_headline.specs.Moments.{acknowledges, went, debt, AckMoments};
ghost use Rattle.quic_headline.specs.Observer.{watch};
ghost use Rattle.quic_headline.specs.Requested.{requested};
ghost use Rattle.quic_headline.specs.Requests.{asking_at, requests_in, request_said, wants_anew};
ghost use Rattle.quic_headline.specs.Rest.{unanswered};
ghost use Rattle.quic_headline.specs.AcksDue.{is_due, AcksAreDue};
ghost use Rattle.quic_headline.specs.Waited.{wants_ack, EachWaited};
ghost use Rattle.quic_worked.specs.Broken.{IsNoRun};
ghost use Rattle.quic_worked.specs.Timed.{NeverShows};
ghost use Rattle.quic_worked.specs.Asking.{asks_within, request};
ghost use Rattle.quic_worked.specs.Obeying.{once_stale, stale_run, obeys_stale, once_probing, probe_packet, probing_run, probe_waits, once_early, early_run, acks_early, acks_first};

/// A client that asks for 100 ms asks for 45 ms once a round trip takes no longer, under the next
/// number. Where the first request comes behind the second, the second counts still: what comes
/// with it is to be acknowledged 45 ms later.
pub fn stale_request_is_passed()
    ensures honest { IsHonest stale_run }
    ensures run { IsRun stale_run (once_stale 12) }
    ensures anew { wants_anew (asking_at stale_run Client) (watch stale_run Client 7).own (watch stale_run Client 7).flight ≡ true }
    ensures said { request_said (asks_within 100000000) 1000 (requests_in (watch stale_run Client 7).own) (watch stale_run Client 7).flight
        ≡ request 1 45000 }
    ensures delay { (requested (watch stale_run Server 12).intake.took).delay ≡ 45000000 }
    ensures deadline { (debt stale_run Server 12).deadlines ≡ 145000000 ∷ [] }
{}

/// A server that waits for the 100 ms of that request from then on shows another moment, which the
/// machine doesn't.
pub fn stale_request_shows()
    ensures moments { AckMoments obeys_stale → ⊥ }
    ensures honest { IsHonest obeys_stale }
    ensures machine { NeverShows obeys_stale }
{}

/// A probe of a client whose peer can be asked has IMMEDIATE_ACK, and the request goes again with
/// it, under the next number. It is acknowledged at once.
pub fn immediate_ack_hastens()
    ensures honest { IsHonest probing_run }
    ensures run { IsRun probing_run (once_probing 5) }
    ensures said { request_said (asks_within 10000000) 1000 (requests_in (watch probing_run Client 2).own) (watch probing_run Client 2).flight
        ≡ request 1 10000 }
    ensures before { is_due probing_run Server 3 ≡ false }
    ensures due { is_due probing_run Server 4 ≡ true }
    ensures waiting { unanswered probing_run Server 4 ≡ probe_packet ∷ [] }
    ensures went { acknowledges (went (watch probing_run Server 4) (watch probing_run Server 5)) ≡ true }
{}

/// A server that lets the acknowledgement of IMMEDIATE_ACK wait breaks the clause. The machine
/// gives it.
pub fn waiting_immediate_ack_shows()
    ensures due { AcksAreDue probe_waits → ⊥ }
    ensures honest { IsHonest probe_waits }
    ensures machine { IsNoRun probe_waits }
{}

/// A packet that comes out of order makes no ACK frame due where the request lets two numbers be
/// missing, and none is wanted. A server that gives one at once breaks the clause. The machine
/// gives nothing there.
pub fn reordered_packet_waits()
    ensures honest { IsHonest early_run }
    ensures run { IsRun early_run (once_early 4) }
    ensures due { is_due early_run Server 10 ≡ false }
    ensures wanted { wants_ack early_run Server 10 ≡ false }
    ensures waited { EachWaited acks_early → ⊥ }
    ensures early_honest { IsHonest acks_early }
    ensures machine { IsNoRun acks_early }
{}

/// The first packet that asks makes no ACK frame due, since another may wait with it. A server that
/// gives one at once breaks the clause. The machine gives nothing there.
pub fn first_packet_waits()
    ensures due { is_due acks_first Server 5 ≡ false }
    ensures waited { EachWaited acks_first → ⊥ }
    ensures honest { IsHonest acks_first }
    ensures machine { IsNoRun acks_first }
{}
