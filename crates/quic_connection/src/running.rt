//! Runs of two ends over a network.
ghost use Rattle.std.specs.Prelude.{◌≡◌, [], length, ◌<◌, ◌≤◌, vec_len, vec_capacity, OnOk, OnErr, true, false};
ghost use Rattle.quic_machine.specs.Machine.{Follows};
ghost use Rattle.quic_machine.specs.Start.{AreStarted};
ghost use Rattle.quic_headline.specs.Headline.{CodeIsSmall, AreCodes, LossTimersFollow, AckTimersFollow};
ghost use Rattle.quic_headline.specs.Promises.{Promises, Isolates};
ghost use Rattle.quic_connection_parts.specs.Telling.{windows_of};
ghost use Rattle.quic_connection.specs.Stopping.{StopsFor};
ghost use Rattle.quic_connection.specs.Ends.{first_world, world_left, policies_of, GoOn, OnHonest, OnRun, AtEachPlace};

use crate::stepping::step;
use crate::views::{rooms_behind, view};
use quic_congestion::Controller;
use quic_connection_core::Connection;
use quic_headline::headline;
use quic_machine::{Answer, Call, CloseCall, Datagram, RunEvent, View};
use quic_packet::crypto::{HeaderKey, PacketKey};
use rand_core::Rng;
use std::alloc::{AllocError, Global};

/// Two endpoints of a connection.
#[derive(Drop)]
pub struct Ends<H, K, R, C: Controller> {
    /// The client.
    pub client: Connection<H, K, R, C>,
    /// The server.
    pub server: Connection<H, K, R, C>,
}

/// The datagrams that each endpoint gave out, in their order.
#[derive(Drop)]
pub struct Given {
    /// Those of the client.
    pub client: Vec<Datagram>,
    /// Those of the server.
    pub server: Vec<Datagram>,
}

impl Given {
    /// No datagram yet.
    pub fn new(alloc: Global) -> Given
        ensures client { result.client.items ≡ [] }
        ensures server { result.server.items ≡ [] }
    {
        Given {
            client: Vec::new(alloc),
            server: Vec::new(alloc),
        }
    }
}

/// What comes of a run.
#[derive(Drop)]
pub struct Outcome<H, K, R, C: Controller> {
    /// The answer to each event.
    pub answers: Vec<Answer>,
    /// What was seen of both endpoints after each event.
    pub views: Vec<View>,
    /// The datagrams that the endpoints gave out.
    pub given: Given,
    /// The endpoints.
    pub ends: Ends<H, K, R, C>,
    /// Whether memory ran out in the run itself: the next event then has no answer and no view, and
    /// no call was made.
    pub cut_short: bool,
}

/// Makes each event's call in turn, once: one answer and one view for each, until memory runs out
/// in the run itself. The endpoints keep their keys, and draw from their random sources in turn.
///
/// Memory is asked for beside the endpoints' own before the first event, for all answers and views,
/// and then only where the call of an event takes some, as [`step`] says, or a view copies the text
/// with which an endpoint was closed by the other one.
///
/// The contract holds the promises on two endpoints. Most are one clause: a record of families,
/// whose fields are their clauses (`Promises` in `specs/` of `quic_headline`). They hold where a
/// client and a server were made for one another, with keys that are mates, and applications use
/// their own streams (`IsHonest`), up to where a delivery, a poll or a timeout first ran out of
/// memory.
/// docs/THEOREM.md says them in plain sentences, and docs/PROMISES.md what each doesn't say.
pub fn run<H: HeaderKey + Drop, K: PacketKey + Drop, R: Rng + Drop, C: Controller>(
    alloc: Global,
    ends: Ends<H, K, R, C>,
    events: &[RunEvent],
) -> Outcome<H, K, R, C>
    ensures follows { Follows (policies_of H.protection K.aead K.seal_limit K.refusal_limit R.stream ends) (first_world (windows_of C.steps C.window_of) ends)
        events.now
        result.answers.items result.views.items (world_left (windows_of C.steps C.window_of) result) }
    ensures whole { result.cut_short ≡ false → length result.answers.items ≡ length events.now }
    ensures stopped { result.cut_short ≡ true → length result.answers.items < length events.now }
    ensures why { result.cut_short ≡ true → StopsFor events.now result.answers.items (world_left (windows_of C.steps C.window_of) result) }
    ensures goes_on { GoOn R.stream ends result.ends }
    ensures promises { OnHonest H.protection K.aead K.seal_limit K.refusal_limit R.stream (windows_of C.steps C.window_of) ends events.now result Promises }
    ensures loss_timers_follow { AtEachPlace H.protection K.aead K.seal_limit K.refusal_limit R.stream (windows_of C.steps C.window_of) ends events.now result
        AreStarted LossTimersFollow }
    ensures ack_timers_follow { AtEachPlace H.protection K.aead K.seal_limit K.refusal_limit R.stream (windows_of C.steps C.window_of) ends events.now result
        AckTimersFollow AckTimersFollow }
    ensures isolates { OnRun H.protection K.aead K.seal_limit K.refusal_limit R.stream (windows_of C.steps C.window_of) ends events.now result Isolates }
{
    // What every run of the machine keeps: laws, which do nothing.
    headline::honest_runs_keep_promises();
    headline::loss_timers_follow();
    headline::ack_timers_follow();
    headline::isolated();
    headline::isolated_by_answers();
    headline::isolated_by_lists();
    headline::runs_agree();
    headline::idle_runs_agree();
    show_codes(events);
    run_events(alloc, ends, events)
}

/// Shows the prover that the codes of events are below 2^62: their type says so.
fn show_codes(events: &[RunEvent])
    ensures { AreCodes events.now }
{
    for one in events {
        show_code(&one.call);
    }
}

/// Shows the prover that the code of a call, if it has one, is below 2^62.
pub(crate) fn show_code(call: &Call)
    ensures { CodeIsSmall call.now }
{
    if let Call::Reset(_, code)
    | Call::Stop(_, code)
    | Call::Close(
        CloseCall {
            error_code: code,
            ..
        },
    ) = call
    {
        let _ = code.into_inner();
    }
}

/// Makes room for the answers to so many events, and for the views behind them. Fails if out of
/// memory.
fn make_room(
    answers: &mut Vec<Answer>,
    views: &mut Vec<View>,
    count: usize,
) -> Result<(), AllocError>
    requires no_answer { vec_len answers.old ≡ 0 }
    requires no_view { vec_len views.old ≡ 0 }
    ensures answers { answers.new.items ≡ answers.old.items }
    ensures views { views.new.items ≡ views.old.items }
    ensures answers_len { vec_len answers.new ≡ 0 }
    ensures views_len { vec_len views.new ≡ 0 }
    ensures answer_room { OnOk result (count ≤ vec_capacity answers.new) }
    ensures view_room { OnOk result (count ≤ vec_capacity views.new) }
    ensures lacking { OnErr result (0 < count) }
{
    answers.reserve(count)?;
    views.reserve(count)
}

/// Makes each event's call in turn.
fn run_events<H: HeaderKey + Drop, K: PacketKey + Drop, R: Rng + Drop, C: Controller>(
    alloc: Global,
    mut ends: Ends<H, K, R, C>,
    events: &[RunEvent],
) -> Outcome<H, K, R, C>
    ensures follows { Follows (policies_of H.protection K.aead K.seal_limit K.refusal_limit R.stream ends) (first_world (windows_of C.steps C.window_of) ends)
        events.now
        result.answers.items result.views.items (world_left (windows_of C.steps C.window_of) result) }
    ensures whole { result.cut_short ≡ false → length result.answers.items ≡ length events.now }
    ensures stopped { result.cut_short ≡ true → length result.answers.items < length events.now }
    ensures why { result.cut_short ≡ true → StopsFor events.now result.answers.items (world_left (windows_of C.steps C.window_of) result) }
    ensures goes_on { GoOn R.stream ends result.ends }
{
    let mut given = Given::new(alloc);
    let mut answers = Vec::new(alloc);
    let mut views = Vec::new(alloc);
    if make_room(&mut answers, &mut views, events.len()).is_err() {
        return Outcome {
            answers,
            views,
            given,
            ends,
            cut_short: true,
        };
    }
    let mut cut_short = false;
    for event in events {
        let Ok(rooms) = rooms_behind(alloc, &ends, &given, event) else {
            cut_short = true;
            break;
        };
        let Ok(answer) = step(alloc, &mut ends, &mut given, event) else {
            cut_short = true;
            break;
        };
        answers.push_reserved(answer);
        views.push_reserved(view(&ends, rooms));
    }
    Outcome {
        answers,
        views,
        given,
        ends,
        cut_short,
    }
}
