//! Two ends that talk until both rest.
ghost use Rattle.std.specs.Prelude.{◌≡◌, ◌≤◌, ◌<◌, ◌+◌, ◌⊎◌, ◌||◌, Bool, true, false, Ok, None, length, IfOk, OnOk, OnErr, IfSome, IfNone};
ghost use Rattle.quic_wire_core.specs.declared.stream_id.Side.TheVariants.{Client, Server};
ghost use Rattle.quic_time.specs.Timers.{earlier};
ghost use Rattle.quic_machine.specs.End.{End};
ghost use Rattle.quic_machine.specs.Machine.{Policies, end_at, given_by, gave};
ghost use Rattle.quic_machine.specs.Control.{Control};
ghost use Rattle.quic_machine.specs.Heard.{Heard};
ghost use Rattle.quic_connection_parts.specs.Telling.{windows_of};
ghost use Rattle.quic_connection.specs.Ends.{world_of, AreOf, GoOn};
ghost use Rattle.quic_connection.specs.Settled.{Talks, Leads, asks, quiet, polled_on, IsPolled, IsHandled, IsHalfHandled, IsHalfPolled, IsCutOff, AreOpen, AreAtRest, HasClosed, Settles, end_wakes, wakes};
ghost use Rattle.quic_connection.specs.declared.running.Given.{Given};

use crate::running::{Ends, Given};
use crate::stepping::step;
use quic_congestion::Controller;
use quic_connection_core::Connection;
use quic_machine::{Address, Answer, Call, Delivery, Instant, RunEvent, Timer};
use quic_packet::crypto::{HeaderKey, PacketKey};
use quic_wire_core::Side;
use rand_core::Rng;
use std::alloc::{AllocError, Global};

/// The most polls that [`settle`] makes.
const MOST_POLLS: u64 = 10_000;

/// Lets two endpoints talk until both rest, from this time on. Each is polled until it gives
/// nothing, the client first, and each datagram is delivered to the other at once, from the address
/// at which that one has its peer and without an ECN codepoint, until a round of both gives no
/// datagram. If a loss, acknowledgement or pacing timer is set then, time goes on to the earliest
/// of them, or stays if that has passed, both endpoints handle it, and they go on.
///
/// The answer is the time at which both rest: they are open, the last call at each was a poll that
/// answered `None`, and none of these timers is set. Whether their paths are validated isn't
/// checked. `None` says that it gave up: an endpoint isn't open, or 10000 polls were made. All
/// datagrams stand in `given`.
///
/// # Errors
///
/// - [`AllocError`]: an allocation of this call's own fails. The calls that were made before stay
///   made.
pub fn settle<H: HeaderKey + Drop, K: PacketKey + Drop, R: Rng + Drop, C: Controller>(
    alloc: Global,
    ends: &mut Ends<H, K, R, C>,
    given: &mut Given,
    now: Instant,
) -> Result<Option<Instant>, AllocError>
    ensures settles { (k : Policies) → AreOf k H.protection K.aead K.seal_limit K.refusal_limit R.stream ends.old
        → Settles k now (world_of (windows_of C.steps C.window_of) ends.old given.old) result (world_of (windows_of C.steps C.window_of) ends.new given.new) }
    ensures goes_on { GoOn R.stream ends.old ends.new }
    ensures rest { IfOk result (λ moment. IfSome moment (λ moment.
        (k : Policies) → AreOf k H.protection K.aead K.seal_limit K.refusal_limit R.stream ends.old
        → AreAtRest k now (world_of (windows_of C.steps C.window_of) ends.old given.old) moment (world_of (windows_of C.steps C.window_of) ends.new given.new))) }
    ensures later { IfOk result (λ moment. IfSome moment (λ moment. now ≤ moment)) }
{
    let mut moment = now;
    let mut left = MOST_POLLS;
    loop {
        if !talk(alloc, ends, given, moment, &mut left)? {
            return Ok(None);
        }
        let Some(next) = wakes(ends) else {
            return Ok(Some(moment));
        };
        moment = moment.later(next);
        time_out(alloc, ends, given, moment)?;
    }
}

/// Makes rounds at one time until one gives no datagram. Returns whether both endpoints are open
/// then, and `false` if no poll is left.
fn talk<H: HeaderKey + Drop, K: PacketKey + Drop, R: Rng + Drop, C: Controller>(
    alloc: Global,
    ends: &mut Ends<H, K, R, C>,
    given: &mut Given,
    now: Instant,
    left: &mut u64,
) -> Result<bool, AllocError>
    ensures talks { result ≡ Ok true
        → (k : Policies) → AreOf k H.protection K.aead K.seal_limit K.refusal_limit R.stream ends.old
        → Talks k now now (asks Client false) quiet
        left.old left.new (world_of (windows_of C.steps C.window_of) ends.old given.old) (world_of (windows_of C.steps C.window_of) ends.new given.new) }
    ensures stops { result ≡ Ok false
        → (k : Policies) → AreOf k H.protection K.aead K.seal_limit K.refusal_limit R.stream ends.old
        → Leads k now now (asks Client false) left.old
        left.new (world_of (windows_of C.steps C.window_of) ends.old given.old) (world_of (windows_of C.steps C.window_of) ends.new given.new) }
    ensures cut { OnErr result (
        (k : Policies) → AreOf k H.protection K.aead K.seal_limit K.refusal_limit R.stream ends.old
        → IsCutOff k now (asks Client false) left.old
        (world_of (windows_of C.steps C.window_of) ends.old given.old) (world_of (windows_of C.steps C.window_of) ends.new given.new)) }
    ensures goes_on { GoOn R.stream ends.old ends.new }
    ensures less { result ≡ Ok true → left.new < left.old }
    ensures opened { result ≡ Ok true → AreOpen (world_of (windows_of C.steps C.window_of) ends.new given.new) }
    ensures gave_up { result ≡ Ok false → HasClosed (world_of (windows_of C.steps C.window_of) ends.new given.new) ⊎ (left.new ≡ 0) }
{
    loop {
        match round(alloc, ends, given, now, left)? {
            None => return Ok(false),
            Some(true) => {}
            Some(false) => return Ok(are_open(ends)),
        }
    }
}

/// Polls the client until it gives nothing, and then the server: whether one gave a datagram.
/// `None` if an endpoint isn't open before a poll, or no poll is left.
fn round<H: HeaderKey + Drop, K: PacketKey + Drop, R: Rng + Drop, C: Controller>(
    alloc: Global,
    ends: &mut Ends<H, K, R, C>,
    given: &mut Given,
    now: Instant,
    left: &mut u64,
) -> Result<Option<bool>, AllocError>
    ensures talks { IfOk result (λ gave. IfSome gave (λ gave.
        (k : Policies) → AreOf k H.protection K.aead K.seal_limit K.refusal_limit R.stream ends.old
        → Talks k now now (asks Client false)
        (polled_on Server gave false) left.old left.new (world_of (windows_of C.steps C.window_of) ends.old given.old)
        (world_of (windows_of C.steps C.window_of) ends.new given.new))) }
    ensures stops { IfOk result (λ gave.
        IfNone gave (
        (k : Policies) → AreOf k H.protection K.aead K.seal_limit K.refusal_limit R.stream ends.old
        → Leads k now now (asks Client false) left.old
        left.new (world_of (windows_of C.steps C.window_of) ends.old given.old) (world_of (windows_of C.steps C.window_of) ends.new given.new))) }
    ensures cut { OnErr result (
        (k : Policies) → AreOf k H.protection K.aead K.seal_limit K.refusal_limit R.stream ends.old
        → IsCutOff k now (asks Client false) left.old
        (world_of (windows_of C.steps C.window_of) ends.old given.old) (world_of (windows_of C.steps C.window_of) ends.new given.new)) }
    ensures goes_on { GoOn R.stream ends.old ends.new }
    ensures less { IfOk result (λ gave. IfSome gave (λ _. left.new < left.old)) }
    ensures gave_up { IfOk result (λ gave.
        IfNone gave (HasClosed (world_of (windows_of C.steps C.window_of) ends.new given.new) ⊎ (left.new ≡ 0))) }
{
    let Some(client) = poll_all(alloc, ends, given, Side::Client, now, left)? else {
        return Ok(None);
    };
    let Some(server) = poll_all(alloc, ends, given, Side::Server, now, left)? else {
        return Ok(None);
    };
    Ok(Some(client || server))
}

/// Polls an endpoint until it gives nothing: whether it gave a datagram. `None` if the endpoint
/// isn't open before a poll, or no poll is left.
fn poll_all<H: HeaderKey + Drop, K: PacketKey + Drop, R: Rng + Drop, C: Controller>(
    alloc: Global,
    ends: &mut Ends<H, K, R, C>,
    given: &mut Given,
    side: Side,
    now: Instant,
    left: &mut u64,
) -> Result<Option<bool>, AllocError>
    ensures talks { IfOk result (λ gave. IfSome gave (λ gave.
        (before : Bool)
        → (k : Policies) → AreOf k H.protection K.aead K.seal_limit K.refusal_limit R.stream ends.old
        → Talks k now now (asks side before)
        (polled_on side (before || gave) false) left.old left.new (world_of (windows_of C.steps C.window_of) ends.old given.old)
        (world_of (windows_of C.steps C.window_of) ends.new given.new))) }
    ensures stops { IfOk result (λ gave.
        IfNone gave (
        (before : Bool)
        → (k : Policies) → AreOf k H.protection K.aead K.seal_limit K.refusal_limit R.stream ends.old
        → Leads k now now (asks side before) left.old
        left.new (world_of (windows_of C.steps C.window_of) ends.old given.old) (world_of (windows_of C.steps C.window_of) ends.new given.new))) }
    ensures cut { OnErr result (
        (before : Bool)
        → (k : Policies) → AreOf k H.protection K.aead K.seal_limit K.refusal_limit R.stream ends.old
        → IsCutOff k now (asks side before) left.old
        (world_of (windows_of C.steps C.window_of) ends.old given.old) (world_of (windows_of C.steps C.window_of) ends.new given.new)) }
    ensures goes_on { GoOn R.stream ends.old ends.new }
    ensures less { IfOk result (λ gave. IfSome gave (λ _. left.new < left.old)) }
    ensures gave_up { IfOk result (λ gave.
        IfNone gave (HasClosed (world_of (windows_of C.steps C.window_of) ends.new given.new) ⊎ (left.new ≡ 0))) }
{
    let mut gave = false;
    while *left > 0 && are_open(ends) {
        if !poll_once(alloc, ends, given, side, now, left)? {
            return Ok(Some(gave));
        }
        gave = true;
    }
    Ok(None)
}

/// Polls an endpoint, and delivers the datagram that it gives to the other one: whether it gave
/// one.
fn poll_once<H: HeaderKey + Drop, K: PacketKey + Drop, R: Rng + Drop, C: Controller>(
    alloc: Global,
    ends: &mut Ends<H, K, R, C>,
    given: &mut Given,
    side: Side,
    now: Instant,
    left: &mut u64,
) -> Result<bool, AllocError>
    requires some_left { 0 < left.old }
    requires opened { AreOpen (world_of (windows_of C.steps C.window_of) ends.old given.old) }
    ensures polled { IfOk result (λ gave.
        (k : Policies) → AreOf k H.protection K.aead K.seal_limit K.refusal_limit R.stream ends.old
        → IsPolled k side now gave
        (world_of (windows_of C.steps C.window_of) ends.old given.old) (world_of (windows_of C.steps C.window_of) ends.new given.new)) }
    ensures cut { OnErr result (
        (k : Policies) → AreOf k H.protection K.aead K.seal_limit K.refusal_limit R.stream ends.old
        → (world_of (windows_of C.steps C.window_of) ends.new given.new ≡ world_of (windows_of C.steps C.window_of) ends.old given.old)
        ⊎ IsHalfPolled k side now (world_of (windows_of C.steps C.window_of) ends.old given.old) (world_of (windows_of C.steps C.window_of) ends.new given.new)) }
    ensures goes_on { GoOn R.stream ends.old ends.new }
    ensures less { IfOk result (λ _. left.new + 1 ≡ left.old) }
{
    let index = count_given(given, side);
    let poll = RunEvent {
        side,
        call: Call::Poll(now),
    };
    let answer = step(alloc, ends, given, &poll)?;
    *left -= 1;
    if !gave(&answer) {
        return Ok(false);
    }
    let arrival = Delivery {
        now,
        remote: peer_address(ends, !side),
        ecn: None,
        index,
    };
    let delivery = RunEvent {
        side: !side,
        call: Call::Deliver(arrival),
    };
    step(alloc, ends, given, &delivery)?;
    Ok(true)
}

/// The address at which an endpoint has its peer.
fn peer_address<H: HeaderKey + Drop, K: PacketKey + Drop, R: Rng + Drop, C: Controller>(
    ends: &Ends<H, K, R, C>,
    side: Side,
) -> Address
    ensures { (given : Given) → result ≡ (end_at side (world_of (windows_of C.steps C.window_of) ends.now given)).path.remote }
{
    match side {
        Side::Client => ends.client.remote_address(),
        Side::Server => ends.server.remote_address(),
    }
}

/// Whether an answer is a datagram.
fn gave(answer: &Answer) -> bool
    ensures { result ≡ gave answer.now }
{
    matches!(answer, Answer::Poll(Ok(Some(_))))
}

/// Both endpoints handle this time, the client first.
fn time_out<H: HeaderKey + Drop, K: PacketKey + Drop, R: Rng + Drop, C: Controller>(
    alloc: Global,
    ends: &mut Ends<H, K, R, C>,
    given: &mut Given,
    now: Instant,
) -> Result<(), AllocError>
    ensures handled { OnOk result (
        (k : Policies) → AreOf k H.protection K.aead K.seal_limit K.refusal_limit R.stream ends.old
        → IsHandled k now (world_of (windows_of C.steps C.window_of) ends.old given.old)
        (world_of (windows_of C.steps C.window_of) ends.new given.new)) }
    ensures cut { OnErr result (
        (k : Policies) → AreOf k H.protection K.aead K.seal_limit K.refusal_limit R.stream ends.old
        → (world_of (windows_of C.steps C.window_of) ends.new given.new ≡ world_of (windows_of C.steps C.window_of) ends.old given.old)
        ⊎ IsHalfHandled k now (world_of (windows_of C.steps C.window_of) ends.old given.old) (world_of (windows_of C.steps C.window_of) ends.new given.new)) }
    ensures goes_on { GoOn R.stream ends.old ends.new }
{
    let client = RunEvent {
        side: Side::Client,
        call: Call::Timeout(now),
    };
    let server = RunEvent {
        side: Side::Server,
        call: Call::Timeout(now),
    };
    step(alloc, ends, given, &client)?;
    step(alloc, ends, given, &server)?;
    Ok(())
}

/// How many datagrams an endpoint gave.
fn count_given(given: &Given, side: Side) -> usize
    ensures { (client server : End) (of_client of_server : Control) (client_heard server_heard : Heard) → result ≡ length (given_by side (record {
      client = client;
      server = server;
      from_client = given.now.client.items;
      from_server = given.now.server.items;
      client_control = of_client;
      server_control = of_server;
      client_heard = client_heard;
      server_heard = server_heard;
    })) }
{
    match side {
        Side::Client => given.client.len(),
        Side::Server => given.server.len(),
    }
}

/// Whether both endpoints are open.
fn are_open<H: HeaderKey + Drop, K: PacketKey + Drop, R: Rng + Drop, C: Controller>(
    ends: &Ends<H, K, R, C>,
) -> bool
    ensures opened { result ≡ true → (given : Given) → AreOpen (world_of (windows_of C.steps C.window_of) ends.now given) }
    ensures closed { result ≡ false → (given : Given) → HasClosed (world_of (windows_of C.steps C.window_of) ends.now given) }
{
    !ends.client.is_closed() && !ends.server.is_closed()
}

/// The earliest deadline of either endpoint.
fn wakes<H: HeaderKey + Drop, K: PacketKey + Drop, R: Rng + Drop, C: Controller>(
    ends: &Ends<H, K, R, C>,
) -> Option<Instant>
    ensures { (given : Given) → result ≡ wakes (world_of (windows_of C.steps C.window_of) ends.now given) }
{
    earlier(end_wakes(&ends.client), end_wakes(&ends.server))
}

/// The earliest deadline of an endpoint.
fn end_wakes<H: HeaderKey + Drop, K: PacketKey + Drop, R: Rng + Drop, C: Controller>(
    end: &Connection<H, K, R, C>,
) -> Option<Instant>
    ensures { result ≡ end_wakes end.now.end.timers }
{
    let acks_or_pacing = earlier(end.timer(Timer::MaxAckDelay), end.timer(Timer::Pacing));
    earlier(end.timer(Timer::LossDetection), acks_or_pacing)
}

/// The earlier of two instants, or the one that there is.
fn earlier(one: Option<Instant>, other: Option<Instant>) -> Option<Instant>
    ensures { result ≡ earlier one other }
{
    match (one, other) {
        (Some(one), Some(other)) => Some(one.min(other)),
        (one, None) => one,
        (None, other) => other,
    }
}
