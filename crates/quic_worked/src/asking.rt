//! A run in which a client asks its peer how often to acknowledge, computed, and the same run as
//! machines with a bug make it. Each function does nothing: its contract is the law.
ghost use Rattle.std.specs.Prelude.{◌≡◌, ◌∷◌, [], false, true, Some};
ghost use Rattle.quic_wire_core.specs.declared.stream_id.Side.TheVariants.{Client, Server};
ghost use Rattle.quic_headline.specs.Headline.{IsHonest, IsRun};
ghost use Rattle.quic_headline.specs.Moments.{debt, AckMoments, LossMoments};
ghost use Rattle.quic_headline.specs.Observer.{watch};
ghost use Rattle.quic_headline.specs.Requests.{asking_at, requests_in, request_said, RequestsGo, RequestsSay, wants_anew};
ghost use Rattle.quic_headline.specs.Waited.{EachWaited};
ghost use Rattle.quic_worked.specs.Broken.{IsNoRun};
ghost use Rattle.quic_worked.specs.Machines.{NeverGives};
ghost use Rattle.quic_worked.specs.Timed.{due_at, NeverShows};
ghost use Rattle.quic_worked.specs.Asking.{asks_within, request, once_asked, asked_run, counts_from_one, asks_for_twenty, asks_unasked, asks_again, leaves_request, withholds_request, waits_as_before, once_patient, patient_run, impatient_run};

/// A client that is configured to asks its peer, which told that it can be asked, in the first
/// datagram, and not again while it wants nothing else.
pub fn request_goes_once()
    ensures honest { IsHonest asked_run }
    ensures run { IsRun asked_run (once_asked 8) }
    ensures first { wants_anew (asking_at asked_run Client) (watch asked_run Client 0).own (watch asked_run Client 0).flight ≡ true }
    ensures then { wants_anew (asking_at asked_run Client) (watch asked_run Client 1).own (watch asked_run Client 1).flight ≡ false }
    ensures later { wants_anew (asking_at asked_run Client) (watch asked_run Client 6).own (watch asked_run Client 6).flight ≡ false }
    ensures said { request_said (asks_within 10000000) 1000 (requests_in (watch asked_run Client 0).own) (watch asked_run Client 0).flight
        ≡ request 0 10000 }
    ensures say { RequestsSay asked_run }
    ensures goes { RequestsGo asked_run }
    ensures waited { EachWaited asked_run }
{}

/// The peer acknowledges within 10 ms what asks, from the datagram with the request on. Once that
/// is acknowledged the client counts on it: it waits for 70 ms behind PING, which goes at 20 ms.
/// That is one round trip of 20 ms, four times its variation of 10 ms, and 10 ms.
pub fn request_is_obeyed()
    ensures first { (debt asked_run Server 2).deadlines ≡ 15000000 ∷ [] }
    ensures went { (debt asked_run Server 4).deadlines ≡ [] }
    ensures second { (debt asked_run Server 8).deadlines ≡ 35000000 ∷ [] }
    ensures acks { AckMoments asked_run }
    ensures due { due_at asked_run Client 7 ≡ Some 90000000 }
    ensures losses { LossMoments asked_run }
{}

/// A client whose first request has number 1 breaks the clause; so do one that asks for 20 ms
/// though 10 ms are configured, and one that asks though it isn't configured to. The machine gives
/// none of these.
pub fn wrong_requests_show()
    ensures number { RequestsSay counts_from_one → ⊥ }
    ensures delay { RequestsSay asks_for_twenty → ⊥ }
    ensures unasked { RequestsSay asks_unasked → ⊥ }
    ensures number_honest { IsHonest counts_from_one }
    ensures delay_honest { IsHonest asks_for_twenty }
    ensures unasked_honest { IsHonest asks_unasked }
    ensures machine_number { NeverGives counts_from_one }
    ensures machine_delay { IsNoRun asks_for_twenty }
    ensures machine_unasked { IsNoRun asks_unasked }
{}

/// A client that asks again in the next poll, though nothing has changed, breaks the clause. The
/// machine gives nothing there.
pub fn repeated_request_shows()
    ensures waited { EachWaited asks_again → ⊥ }
    ensures honest { IsHonest asks_again }
    ensures machine { IsNoRun asks_again }
{}

/// A client that is configured to ask, and gives its ids without asking, breaks the clause; so does
/// one that gives nothing, though its window has room. The machine gives both at once.
pub fn missing_requests_show()
    ensures left { RequestsGo leaves_request → ⊥ }
    ensures withheld { RequestsGo withholds_request → ⊥ }
    ensures left_honest { IsHonest leaves_request }
    ensures withheld_honest { IsHonest withholds_request }
    ensures machine_left { IsNoRun leaves_request }
    ensures machine_withheld { IsNoRun withholds_request }
{}

/// A server that was asked for 10 ms and waits for 25 ms all the same shows another moment, which
/// the machine doesn't.
pub fn unheeded_request_shows()
    ensures moments { AckMoments waits_as_before → ⊥ }
    ensures honest { IsHonest waits_as_before }
    ensures machine { NeverShows waits_as_before }
{}

/// A client that asks for 100 ms counts on them at once: it waits for 1099 ms behind its datagram.
/// One that waits for 1024 ms shows another moment, which the machine doesn't.
pub fn longer_delay_is_waited_for()
    ensures run { IsRun patient_run once_patient }
    ensures due { due_at patient_run Client 1 ≡ Some 1099000000 }
    ensures moments { LossMoments patient_run }
    ensures wrong { LossMoments impatient_run → ⊥ }
    ensures wrong_honest { IsHonest impatient_run }
    ensures machine { NeverShows impatient_run }
{}
