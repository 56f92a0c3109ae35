//! What is seen of both ends behind an event, and the room for it.
ghost use Rattle.std.specs.Prelude.{◌≡◌, ◌≤◌, ◌<◌, ◌⊎◌, vec_len, vec_capacity, IfOk, OnErr};
ghost use Rattle.quic_wire_core.specs.declared.stream_id.Side.TheVariants.{Client, Server};
ghost use Rattle.quic_time.specs.Timers.{each_timer};
ghost use Rattle.quic_machine.specs.Machine.{view_of, end_view};
ghost use Rattle.quic_connection_parts.specs.Telling.{windows_of};
ghost use Rattle.quic_connection.specs.Rooms.{told_len, handed_len, HasRoomBehind};
ghost use Rattle.quic_connection.specs.Stopping.{TakesMemory};
ghost use Rattle.quic_connection.specs.Ends.{world_of};
ghost use Rattle.quic_connection.specs.declared.running.Given.{Given};

use crate::running::{Ends, Given};
use quic_congestion::Controller;
use quic_connection_core::Connection;
use quic_machine::{Call, Datagram, EndView, Instant, LostReason, RunEvent, Timer, View};
use quic_packet::crypto::{HeaderKey, PacketKey};
use quic_wire_core::Side;
use rand_core::Rng;
use std::alloc::{AllocError, Global};

/// When each timer of an endpoint expires, if it is set.
fn timers<H: HeaderKey + Drop, K: PacketKey + Drop, R: Rng + Drop, C: Controller>(
    end: &Connection<H, K, R, C>,
) -> [Option<Instant>; 9]
    ensures { result ≡ each_timer end.now.end.timers }
{
    [
        end.timer(Timer::LossDetection),
        end.timer(Timer::Idle),
        end.timer(Timer::Close),
        end.timer(Timer::KeyDiscard),
        end.timer(Timer::PathValidation),
        end.timer(Timer::KeepAlive),
        end.timer(Timer::Pacing),
        end.timer(Timer::PushNewCid),
        end.timer(Timer::MaxAckDelay),
    ]
}

/// Room for the view of both endpoints after an event: for the texts with which each was closed by
/// the other.
#[derive(Drop)]
pub(crate) struct Rooms {
    client: Vec<u8>,
    server: Vec<u8>,
}

/// Makes room for the view of both endpoints after this event. Fails if out of memory.
pub(crate) fn rooms_behind<H: HeaderKey + Drop, K: PacketKey + Drop, R: Rng + Drop, C: Controller>(
    alloc: Global,
    ends: &Ends<H, K, R, C>,
    given: &Given,
    event: &RunEvent,
) -> Result<Rooms, AllocError>
    ensures client_empty { IfOk result (λ rooms. vec_len rooms.client ≡ 0) }
    ensures server_empty { IfOk result (λ rooms. vec_len rooms.server ≡ 0) }
    ensures client_room { IfOk result (λ rooms. HasRoomBehind Client (world_of (windows_of C.steps C.window_of) ends.now given.now) event.now
        (vec_capacity rooms.client)) }
    ensures server_room { IfOk result (λ rooms. HasRoomBehind Server (world_of (windows_of C.steps C.window_of) ends.now given.now) event.now
        (vec_capacity rooms.server)) }
    ensures lacking { OnErr result (TakesMemory (world_of (windows_of C.steps C.window_of) ends.now given.now) event.now) }
{
    let client = room_behind(
        alloc,
        &ends.client,
        Side::Client,
        given.server.as_slice(),
        event,
    )?;
    let server = room_behind(
        alloc,
        &ends.server,
        Side::Server,
        given.client.as_slice(),
        event,
    )?;
    Ok(Rooms { client, server })
}

/// Makes room for the text with which an endpoint may be closed by the other one, of which these
/// are the datagrams, after this event. Fails if out of memory.
fn room_behind<H: HeaderKey + Drop, K: PacketKey + Drop, R: Rng + Drop, C: Controller>(
    alloc: Global,
    end: &Connection<H, K, R, C>,
    side: Side,
    theirs: &[Datagram],
    event: &RunEvent,
) -> Result<Vec<u8>, AllocError>
    ensures empty { IfOk result (λ room. vec_len room ≡ 0) }
    ensures standing { IfOk result (λ room. told_len end.now.end.closing.reason ≤ vec_capacity room) }
    ensures coming { IfOk result (λ room. event.now.side ≡ side → handed_len theirs.now event.now.call ≤ vec_capacity room) }
    ensures lacking { OnErr result (
        (0 < told_len end.now.end.closing.reason) ⊎ ((event.now.side ≡ side) × (0 < handed_len theirs.now event.now.call))) }
{
    Vec::with_capacity(alloc, text_len(end).max(coming_len(side, theirs, event)))
}

/// How many bytes come to this endpoint in the datagram that an event delivers, of these of the
/// other one; 0 if it delivers none to this one.
fn coming_len(side: Side, theirs: &[Datagram], event: &RunEvent) -> usize
    ensures here { event.now.side ≡ side → result ≡ handed_len theirs.now event.now.call }
    ensures elsewhere { 0 < result → event.now.side ≡ side }
{
    if event.side == side {
        delivered_len(&event.call, theirs)
    } else {
        0
    }
}

/// How many bytes the datagram has that a call delivers, of these of the other endpoint: no text
/// with which that closes has more. 0 if it delivers none.
fn delivered_len(call: &Call, theirs: &[Datagram]) -> usize
    ensures { result ≡ handed_len theirs.now call.now }
{
    match call {
        Call::Deliver(delivery) => theirs
            .get(delivery.index)
            .map_or(0, |datagram| datagram.as_slice().len()),
        _ => 0,
    }
}

/// How many bytes the text has with which the peer closed an endpoint; 0 if it didn't.
fn text_len<H: HeaderKey + Drop, K: PacketKey + Drop, R: Rng + Drop, C: Controller>(
    end: &Connection<H, K, R, C>,
) -> usize
    ensures { result ≡ told_len end.now.end.closing.reason }
{
    end.lost().map_or(0, LostReason::text_len)
}

/// The view of an endpoint, if `room` is empty, and there is room in it for the text with which the
/// peer closed the endpoint.
fn end_view<H: HeaderKey + Drop, K: PacketKey + Drop, R: Rng + Drop, C: Controller>(
    end: &Connection<H, K, R, C>,
    room: Vec<u8>,
) -> EndView
    requires empty { vec_len room ≡ 0 }
    requires room { told_len end.now.end.closing.reason ≤ vec_capacity room }
    ensures { result ≡ end_view (windows_of C.steps C.window_of end.now.control) end.now.end }
{
    EndView {
        state: end.state(),
        reason: match end.lost() {
            Some(reason) => Some(reason.copied_into(room)),
            None => None,
        },
        validated: end.is_validated(),
        timers: timers(end),
        window: end.window(),
        current_mtu: end.current_mtu(),
    }
}

/// The view of both endpoints, whatever they gave, if there is room for it.
pub(crate) fn view<H: HeaderKey + Drop, K: PacketKey + Drop, R: Rng + Drop, C: Controller>(
    ends: &Ends<H, K, R, C>,
    rooms: Rooms,
) -> View
    requires client_empty { vec_len rooms.client ≡ 0 }
    requires server_empty { vec_len rooms.server ≡ 0 }
    requires client_room { told_len ends.now.client.end.closing.reason ≤ vec_capacity rooms.client }
    requires server_room { told_len ends.now.server.end.closing.reason ≤ vec_capacity rooms.server }
    ensures { (given : Given) → result ≡ view_of (world_of (windows_of C.steps C.window_of) ends.now given) }
{
    let Rooms { client, server } = rooms;
    View {
        client: end_view(&ends.client, client),
        server: end_view(&ends.server, server),
    }
}
