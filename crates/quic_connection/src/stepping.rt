//! One call at one of two ends, or at one whose peer is elsewhere.
ghost use Rattle.std.specs.Prelude.{◌≡◌, ◌++◌, [], ◌<◌, vec_len, vec_capacity, slice_get, IsSome, IfOk, OnErr, true, false};
ghost use Rattle.quic_wire_core.specs.StreamId.{other_side};
ghost use Rattle.quic_machine.specs.End.{policy_of};
ghost use Rattle.quic_machine.specs.Machine.{Policies, IsAnswer, reads_window, IsLeft, IsTold, IsHeard, CountsOpenings, fails, gives, given_by, IsStep};
ghost use Rattle.quic_machine.specs.Lacking.{LacksWhere, TakesOfItsOwn};
ghost use Rattle.quic_connection_parts.specs.Telling.{windows_of, KeepsKeys};
ghost use Rattle.quic_connection.specs.Ends.{world_of, policies_of, kept, AreOf, GoesOn, GoOn, may_move};
ghost use Rattle.quic_connection_parts.specs.Drawn.{words_of};

use crate::running::{Ends, Given};
use crate::{on_messages, on_streams};
use bytes::Bytes;
use quic_congestion::Controller;
use quic_connection_core::Connection;
use quic_machine::{
    Answer, Call, CloseCall, Datagram, Delivery, Failed, Injection, Instant, RunEvent, Transmit,
};
use quic_packet::crypto::{HeaderKey, PacketKey};
use quic_wire_core::Side;
use rand_core::Rng;
use std::alloc::{AllocError, Global};

/// Makes the call of one event, and appends a datagram that it gives. The endpoints keep their
/// keys, and draw from their random sources: policies that do what both did before (`AreOf`) do so
/// still. The call answers that it is out of memory only where it allocates.
///
/// # Errors
///
/// - [`AllocError`]: an allocation of this call's own fails. No call is made, and nothing changes.
///   It allocates at each poll, whether that gives a datagram or not, where it keeps the answers of
///   a read, and where it copies what comes or a close's text.
pub fn step<H: HeaderKey + Drop, K: PacketKey + Drop, R: Rng + Drop, C: Controller>(
    alloc: Global,
    ends: &mut Ends<H, K, R, C>,
    given: &mut Given,
    event: &RunEvent,
) -> Result<Answer, AllocError>
    ensures step { IfOk result (λ a.
        (k : Policies) → AreOf k H.protection K.aead K.seal_limit K.refusal_limit R.stream ends.old
        → IsStep k (world_of (windows_of C.steps C.window_of) ends.old given.old) event.now a (world_of (windows_of C.steps C.window_of) ends.new given.new)) }
    ensures goes_on { GoOn R.stream ends.old ends.new }
    ensures err { OnErr result (ends.new ≡ ends.old) }
    ensures err_given { OnErr result (
        world_of (windows_of C.steps C.window_of) ends.new given.new ≡ world_of (windows_of C.steps C.window_of) ends.old given.old) }
    ensures own { OnErr result (
        TakesOfItsOwn (given_by (other_side event.now.side) (world_of (windows_of C.steps C.window_of) ends.old given.old))
        event.now.call) }
{
    make(alloc, ends, given, event)
}

/// Makes the call of one event, for policies that are what the keys and the random sources of both
/// endpoints do.
fn make<H: HeaderKey + Drop, K: PacketKey + Drop, R: Rng + Drop, C: Controller>(
    alloc: Global,
    ends: &mut Ends<H, K, R, C>,
    given: &mut Given,
    event: &RunEvent,
) -> Result<Answer, AllocError>
    ensures step { IfOk result (λ a.
        IsStep (policies_of H.protection K.aead K.seal_limit K.refusal_limit R.stream ends.old) (world_of (windows_of C.steps C.window_of) ends.old given.old)
        event.now a (world_of (windows_of C.steps C.window_of) ends.new given.new)) }
    ensures goes_on { GoOn R.stream ends.old ends.new }
    ensures err { OnErr result (ends.new ≡ ends.old) }
    ensures err_given { OnErr result (
        world_of (windows_of C.steps C.window_of) ends.new given.new ≡ world_of (windows_of C.steps C.window_of) ends.old given.old) }
    ensures own { OnErr result (
        TakesOfItsOwn (given_by (other_side event.now.side) (world_of (windows_of C.steps C.window_of) ends.old given.old))
        event.now.call) }
{
    match event.side {
        Side::Client => at_end(
            alloc,
            &mut ends.client,
            &mut given.client,
            given.server.as_slice(),
            &event.call,
        ),
        Side::Server => at_end(
            alloc,
            &mut ends.server,
            &mut given.server,
            given.client.as_slice(),
            &event.call,
        ),
    }
}

/// Makes one call at one endpoint whose peer is elsewhere, and appends a datagram that it gives.
/// The endpoint keeps its keys, and draws from its random source only at a poll, at a timeout or
/// where a datagram comes. A datagram of the peer is handed in by [`Connection::receive`]:
/// [`Call::Deliver`] finds none here.
///
/// The call answers that it is out of memory only where it allocates.
///
/// # Errors
///
/// - [`AllocError`]: an allocation of this call's own fails. No call is made, and nothing changes.
///   It allocates at each poll, whether that gives a datagram or not, where it keeps the answers of
///   a read, and where it copies what comes or a close's text.
pub fn call_at<H: HeaderKey + Drop, K: PacketKey + Drop, R: Rng + Drop, C: Controller>(
    alloc: Global,
    end: &mut Connection<H, K, R, C>,
    given: &mut Vec<Datagram>,
    call: &Call,
) -> Result<Answer, AllocError>
    ensures answer { IfOk result (λ a.
        IsAnswer (policy_of H.protection K.aead K.seal_limit K.refusal_limit (words_of R.stream) end.old)
        (reads_window (windows_of C.steps C.window_of end.old.control) end.old.heard call.now end.old.end) [] call.now a) }
    ensures lacking { IfOk result (λ a.
        LacksWhere (policy_of H.protection K.aead K.seal_limit K.refusal_limit (words_of R.stream) end.old)
        (reads_window (windows_of C.steps C.window_of end.old.control) end.old.heard call.now end.old.end) [] call.now a) }
    ensures end { IfOk result (λ a.
        IsLeft (fails a) (policy_of H.protection K.aead K.seal_limit K.refusal_limit (words_of R.stream) end.old)
        (windows_of C.steps C.window_of end.old.control) end.old.heard end.old.end [] call.now a end.new.end) }
    ensures control { IfOk result (λ a.
        IsTold (fails a) (policy_of H.protection K.aead K.seal_limit K.refusal_limit (words_of R.stream) end.old)
        (windows_of C.steps C.window_of end.old.control) end.old.heard end.old.end [] call.now
        (windows_of C.steps C.window_of end.new.control)) }
    ensures heard { IfOk result (λ a.
        IsHeard (fails a) end.old.end end.new.end [] call.now a end.old.heard end.new.heard) }
    ensures openings { IfOk result (λ a.
        CountsOpenings (K.refusal_limit end.old.keys.packet.remote) end.old.end.closing.state end.old.heard a) }
    ensures appended { IfOk result (λ a.
        given.new.items
        ≡ given.old.items ++ gives (policy_of H.protection K.aead K.seal_limit K.refusal_limit (words_of R.stream) end.old)
        (reads_window (windows_of C.steps C.window_of end.old.control) end.old.heard call.now end.old.end) call.now a) }
    ensures keys { may_move call.now ≡ false → KeepsKeys end.old end.new }
    ensures draws { may_move call.now ≡ true → GoesOn R.stream end.old end.new }
    ensures err { OnErr result (end.new ≡ end.old) }
    ensures err_given { OnErr result (given.new.items ≡ given.old.items) }
    ensures own { OnErr result (TakesOfItsOwn [] call.now) }
{
    at_end(alloc, end, given, &[], call)
}

/// Makes one call at one endpoint; `theirs` are the datagrams of the other one.
pub(crate) fn at_end<H: HeaderKey + Drop, K: PacketKey + Drop, R: Rng + Drop, C: Controller>(
    alloc: Global,
    end: &mut Connection<H, K, R, C>,
    mine: &mut Vec<Datagram>,
    theirs: &[Datagram],
    call: &Call,
) -> Result<Answer, AllocError>
    ensures answer { IfOk result (λ a.
        IsAnswer (policy_of H.protection K.aead K.seal_limit K.refusal_limit (words_of R.stream) end.old)
        (reads_window (windows_of C.steps C.window_of end.old.control) end.old.heard call.now end.old.end) theirs.now call.now a) }
    ensures lacking { IfOk result (λ a.
        LacksWhere (policy_of H.protection K.aead K.seal_limit K.refusal_limit (words_of R.stream) end.old)
        (reads_window (windows_of C.steps C.window_of end.old.control) end.old.heard call.now end.old.end) theirs.now call.now a) }
    ensures end { IfOk result (λ a.
        IsLeft (fails a) (policy_of H.protection K.aead K.seal_limit K.refusal_limit (words_of R.stream) end.old)
        (windows_of C.steps C.window_of end.old.control) end.old.heard end.old.end theirs.now call.now a end.new.end) }
    ensures control { IfOk result (λ a.
        IsTold (fails a) (policy_of H.protection K.aead K.seal_limit K.refusal_limit (words_of R.stream) end.old)
        (windows_of C.steps C.window_of end.old.control) end.old.heard end.old.end theirs.now call.now
        (windows_of C.steps C.window_of end.new.control)) }
    ensures heard { IfOk result (λ a.
        IsHeard (fails a) end.old.end end.new.end theirs.now call.now a end.old.heard end.new.heard) }
    ensures openings { IfOk result (λ a.
        CountsOpenings (K.refusal_limit end.old.keys.packet.remote) end.old.end.closing.state end.old.heard a) }
    ensures given { IfOk result (λ a.
        mine.new.items
        ≡ mine.old.items ++ gives (policy_of H.protection K.aead K.seal_limit K.refusal_limit (words_of R.stream) end.old)
        (reads_window (windows_of C.steps C.window_of end.old.control) end.old.heard call.now end.old.end) call.now a) }
    ensures keys { may_move call.now ≡ false → KeepsKeys end.old end.new }
    ensures draws { may_move call.now ≡ true → GoesOn R.stream end.old end.new }
    ensures err { OnErr result (end.new ≡ end.old) }
    ensures err_given { OnErr result (mine.new.items ≡ mine.old.items) }
    ensures own { OnErr result (TakesOfItsOwn theirs.now call.now) }
{
    let is_open = end.is_open();
    match call {
        Call::Open(dir) => Ok(on_streams::open(end.streams_mut(), is_open, *dir)),
        Call::Accept(dir) => Ok(on_streams::accept(end.streams_mut(), is_open, *dir)),
        Call::Write(id, data) => {
            Ok(on_streams::write(end.streams_mut(), is_open, *id, data.as_slice()))
        }
        Call::WriteChunks(id, chunks) => {
            Ok(on_streams::write_chunks(end.streams_mut(), is_open, *id, chunks))
        }
        Call::Finish(id) => Ok(on_streams::finish(end.streams_mut(), is_open, *id)),
        Call::Reset(id, code) => Ok(on_streams::reset(end.streams_mut(), is_open, *id, *code)),
        Call::SetPriority(id, priority) => {
            Ok(on_streams::set_priority(end.streams_mut(), is_open, *id, *priority))
        }
        Call::Read(read) => {
            let items = Vec::with_capacity(alloc, read.nexts.len())?;
            Ok(on_streams::read(end.streams_mut(), read, items))
        }
        Call::Stop(id, code) => Ok(on_streams::stop(end.streams_mut(), *id, *code)),
        Call::ReceivedReset(id) => Ok(on_streams::received_reset(end.streams_mut(), *id)),
        Call::Send(message, makes_room) => send_at(alloc, end, message, *makes_room),
        Call::Recv => Ok(recv_at(end)),
        Call::Ping => Ok(ping_at(end)),
        Call::Close(close) => close_at(alloc, end, close),
        Call::UseNextId => Ok(use_next_id_at(end)),
        Call::HandshakeDone => Ok(handshake_done_at(end)),
        Call::Poll(now) => poll_at(alloc, end, mine, *now),
        Call::Timeout(now) => Ok(timeout_at(end, *now)),
        Call::Deliver(delivery) => deliver_at(alloc, end, theirs, delivery),
        Call::Inject(injection) => inject_at(alloc, end, injection),
        Call::Event => Ok(Answer::Event(end.poll())),
        Call::Timer(timer) => Ok(Answer::Timer(end.timer(*timer))),
        Call::NextTimeout => Ok(Answer::NextTimeout(end.poll_timeout())),
        Call::State => Ok(Answer::State(end.state(), end.is_validated())),
    }
}

/// Sends a copy of a message.
fn send_at<H: HeaderKey + Drop, K: PacketKey + Drop, R: Rng + Drop, C: Controller>(
    alloc: Global,
    end: &mut Connection<H, K, R, C>,
    message: &[u8],
    makes_room: bool,
) -> Result<Answer, AllocError>
    ensures answer { IfOk result (λ a.
        IsAnswer (policy_of H.protection K.aead K.seal_limit K.refusal_limit (words_of R.stream) end.old)
        (reads_window (windows_of C.steps C.window_of end.old.control) end.old.heard (Call.Send message.now makes_room) end.old.end) [] (Call.Send message.now makes_room) a) }
    ensures lacking { IfOk result (λ a.
        LacksWhere (policy_of H.protection K.aead K.seal_limit K.refusal_limit (words_of R.stream) end.old)
        (reads_window (windows_of C.steps C.window_of end.old.control) end.old.heard (Call.Send message.now makes_room) end.old.end) [] (Call.Send message.now makes_room) a) }
    ensures end { IfOk result (λ a.
        IsLeft (fails a) (policy_of H.protection K.aead K.seal_limit K.refusal_limit (words_of R.stream) end.old)
        (windows_of C.steps C.window_of end.old.control) end.old.heard end.old.end [] (Call.Send message.now makes_room) a end.new.end) }
    ensures control { IfOk result (λ a.
        IsTold (fails a) (policy_of H.protection K.aead K.seal_limit K.refusal_limit (words_of R.stream) end.old)
        (windows_of C.steps C.window_of end.old.control) end.old.heard end.old.end [] (Call.Send message.now makes_room)
        (windows_of C.steps C.window_of end.new.control)) }
    ensures heard { IfOk result (λ a.
        IsHeard (fails a) end.old.end end.new.end [] (Call.Send message.now makes_room) a end.old.heard end.new.heard) }
    ensures given { IfOk result (λ a.
        gives (policy_of H.protection K.aead K.seal_limit K.refusal_limit (words_of R.stream) end.old)
        (reads_window (windows_of C.steps C.window_of end.old.control) end.old.heard (Call.Send message.now makes_room) end.old.end) (Call.Send message.now makes_room) a ≡ []) }
    ensures keys { KeepsKeys end.old end.new }
    ensures err { OnErr result (end.new ≡ end.old) }
{
    let copy = Bytes::copy_from_slice(alloc, message)?;
    let limits = end.datagram_limits();
    Ok(on_messages::send(end.datagrams_mut(), limits, copy, makes_room))
}

/// Reads a message.
fn recv_at<H: HeaderKey + Drop, K: PacketKey + Drop, R: Rng + Drop, C: Controller>(
    end: &mut Connection<H, K, R, C>,
) -> Answer
    ensures answer { IsAnswer (policy_of H.protection K.aead K.seal_limit K.refusal_limit (words_of R.stream) end.old)
        (reads_window (windows_of C.steps C.window_of end.old.control) end.old.heard Call.Recv end.old.end) [] Call.Recv
        result }
    ensures lacking { LacksWhere (policy_of H.protection K.aead K.seal_limit K.refusal_limit (words_of R.stream) end.old)
        (reads_window (windows_of C.steps C.window_of end.old.control) end.old.heard Call.Recv end.old.end) [] Call.Recv
        result }
    ensures end { IsLeft (fails result) (policy_of H.protection K.aead K.seal_limit K.refusal_limit (words_of R.stream) end.old)
        (windows_of C.steps C.window_of end.old.control) end.old.heard end.old.end [] Call.Recv result end.new.end }
    ensures control { IsTold (fails result) (policy_of H.protection K.aead K.seal_limit K.refusal_limit (words_of R.stream) end.old)
        (windows_of C.steps C.window_of end.old.control) end.old.heard end.old.end [] Call.Recv
        (windows_of C.steps C.window_of end.new.control) }
    ensures heard { IsHeard (fails result) end.old.end end.new.end [] Call.Recv result end.old.heard end.new.heard }
    ensures given { gives (policy_of H.protection K.aead K.seal_limit K.refusal_limit (words_of R.stream) end.old)
        (reads_window (windows_of C.steps C.window_of end.old.control) end.old.heard Call.Recv end.old.end) Call.Recv result
        ≡ [] }
    ensures keys { KeepsKeys end.old end.new }
{
    let limits = end.datagram_limits();
    on_messages::recv(end.datagrams_mut(), limits)
}

/// Queues a PING.
fn ping_at<H: HeaderKey + Drop, K: PacketKey + Drop, R: Rng + Drop, C: Controller>(
    end: &mut Connection<H, K, R, C>,
) -> Answer
    ensures answer { IsAnswer (policy_of H.protection K.aead K.seal_limit K.refusal_limit (words_of R.stream) end.old)
        (reads_window (windows_of C.steps C.window_of end.old.control) end.old.heard Call.Ping end.old.end) [] Call.Ping
        result }
    ensures lacking { LacksWhere (policy_of H.protection K.aead K.seal_limit K.refusal_limit (words_of R.stream) end.old)
        (reads_window (windows_of C.steps C.window_of end.old.control) end.old.heard Call.Ping end.old.end) [] Call.Ping
        result }
    ensures end { IsLeft (fails result) (policy_of H.protection K.aead K.seal_limit K.refusal_limit (words_of R.stream) end.old)
        (windows_of C.steps C.window_of end.old.control) end.old.heard end.old.end [] Call.Ping result end.new.end }
    ensures control { IsTold (fails result) (policy_of H.protection K.aead K.seal_limit K.refusal_limit (words_of R.stream) end.old)
        (windows_of C.steps C.window_of end.old.control) end.old.heard end.old.end [] Call.Ping
        (windows_of C.steps C.window_of end.new.control) }
    ensures heard { IsHeard (fails result) end.old.end end.new.end [] Call.Ping result end.old.heard end.new.heard }
    ensures given { gives (policy_of H.protection K.aead K.seal_limit K.refusal_limit (words_of R.stream) end.old)
        (reads_window (windows_of C.steps C.window_of end.old.control) end.old.heard Call.Ping end.old.end) Call.Ping result
        ≡ [] }
    ensures keys { KeepsKeys end.old end.new }
{
    end.ping();
    Answer::Ping
}

/// Closes for the application, with a copy of its text.
fn close_at<H: HeaderKey + Drop, K: PacketKey + Drop, R: Rng + Drop, C: Controller>(
    alloc: Global,
    end: &mut Connection<H, K, R, C>,
    close: &CloseCall,
) -> Result<Answer, AllocError>
    ensures answer { IfOk result (λ a.
        IsAnswer (policy_of H.protection K.aead K.seal_limit K.refusal_limit (words_of R.stream) end.old)
        (reads_window (windows_of C.steps C.window_of end.old.control) end.old.heard (Call.Close close.entry.now) end.old.end) [] (Call.Close close.entry.now) a) }
    ensures lacking { IfOk result (λ a.
        LacksWhere (policy_of H.protection K.aead K.seal_limit K.refusal_limit (words_of R.stream) end.old)
        (reads_window (windows_of C.steps C.window_of end.old.control) end.old.heard (Call.Close close.entry.now) end.old.end) [] (Call.Close close.entry.now) a) }
    ensures end { IfOk result (λ a.
        IsLeft (fails a) (policy_of H.protection K.aead K.seal_limit K.refusal_limit (words_of R.stream) end.old)
        (windows_of C.steps C.window_of end.old.control) end.old.heard end.old.end [] (Call.Close close.entry.now) a end.new.end) }
    ensures control { IfOk result (λ a.
        IsTold (fails a) (policy_of H.protection K.aead K.seal_limit K.refusal_limit (words_of R.stream) end.old)
        (windows_of C.steps C.window_of end.old.control) end.old.heard end.old.end [] (Call.Close close.entry.now)
        (windows_of C.steps C.window_of end.new.control)) }
    ensures heard { IfOk result (λ a.
        IsHeard (fails a) end.old.end end.new.end [] (Call.Close close.entry.now) a end.old.heard end.new.heard) }
    ensures given { IfOk result (λ a.
        gives (policy_of H.protection K.aead K.seal_limit K.refusal_limit (words_of R.stream) end.old)
        (reads_window (windows_of C.steps C.window_of end.old.control) end.old.heard (Call.Close close.entry.now) end.old.end) (Call.Close close.entry.now) a ≡ []) }
    ensures keys { KeepsKeys end.old end.new }
    ensures err { OnErr result (end.new ≡ end.old) }
{
    let reason = Bytes::copy_from_slice(alloc, close.reason.as_slice())?;
    end.close(close.now, close.error_code, reason);
    Ok(Answer::Close)
}

/// Switches to the next connection ID of the peer.
fn use_next_id_at<H: HeaderKey + Drop, K: PacketKey + Drop, R: Rng + Drop, C: Controller>(
    end: &mut Connection<H, K, R, C>,
) -> Answer
    ensures answer { IsAnswer (policy_of H.protection K.aead K.seal_limit K.refusal_limit (words_of R.stream) end.old)
        (reads_window (windows_of C.steps C.window_of end.old.control) end.old.heard Call.UseNextId end.old.end) [] Call.UseNextId
        result }
    ensures lacking { LacksWhere (policy_of H.protection K.aead K.seal_limit K.refusal_limit (words_of R.stream) end.old)
        (reads_window (windows_of C.steps C.window_of end.old.control) end.old.heard Call.UseNextId end.old.end) [] Call.UseNextId
        result }
    ensures end { IsLeft (fails result) (policy_of H.protection K.aead K.seal_limit K.refusal_limit (words_of R.stream) end.old)
        (windows_of C.steps C.window_of end.old.control) end.old.heard end.old.end [] Call.UseNextId result end.new.end }
    ensures control { IsTold (fails result) (policy_of H.protection K.aead K.seal_limit K.refusal_limit (words_of R.stream) end.old)
        (windows_of C.steps C.window_of end.old.control) end.old.heard end.old.end [] Call.UseNextId
        (windows_of C.steps C.window_of end.new.control) }
    ensures heard { IsHeard (fails result) end.old.end end.new.end [] Call.UseNextId result end.old.heard end.new.heard }
    ensures given { gives (policy_of H.protection K.aead K.seal_limit K.refusal_limit (words_of R.stream) end.old)
        (reads_window (windows_of C.steps C.window_of end.old.control) end.old.heard Call.UseNextId end.old.end) Call.UseNextId result
        ≡ [] }
    ensures keys { KeepsKeys end.old end.new }
{
    Answer::UseNextId(end.use_next_id())
}

/// Says that the handshake is done.
fn handshake_done_at<H: HeaderKey + Drop, K: PacketKey + Drop, R: Rng + Drop, C: Controller>(
    end: &mut Connection<H, K, R, C>,
) -> Answer
    ensures answer { IsAnswer (policy_of H.protection K.aead K.seal_limit K.refusal_limit (words_of R.stream) end.old)
        (reads_window (windows_of C.steps C.window_of end.old.control) end.old.heard Call.HandshakeDone end.old.end) [] Call.HandshakeDone
        result }
    ensures lacking { LacksWhere (policy_of H.protection K.aead K.seal_limit K.refusal_limit (words_of R.stream) end.old)
        (reads_window (windows_of C.steps C.window_of end.old.control) end.old.heard Call.HandshakeDone end.old.end) [] Call.HandshakeDone
        result }
    ensures end { IsLeft (fails result) (policy_of H.protection K.aead K.seal_limit K.refusal_limit (words_of R.stream) end.old)
        (windows_of C.steps C.window_of end.old.control) end.old.heard end.old.end [] Call.HandshakeDone result end.new.end }
    ensures control { IsTold (fails result) (policy_of H.protection K.aead K.seal_limit K.refusal_limit (words_of R.stream) end.old)
        (windows_of C.steps C.window_of end.old.control) end.old.heard end.old.end [] Call.HandshakeDone
        (windows_of C.steps C.window_of end.new.control) }
    ensures heard { IsHeard (fails result) end.old.end end.new.end [] Call.HandshakeDone result end.old.heard end.new.heard }
    ensures given { gives (policy_of H.protection K.aead K.seal_limit K.refusal_limit (words_of R.stream) end.old)
        (reads_window (windows_of C.steps C.window_of end.old.control) end.old.heard Call.HandshakeDone end.old.end) Call.HandshakeDone result
        ≡ [] }
    ensures keys { KeepsKeys end.old end.new }
{
    Answer::HandshakeDone(end.handshake_done())
}

/// Polls, and keeps the datagram.
fn poll_at<H: HeaderKey + Drop, K: PacketKey + Drop, R: Rng + Drop, C: Controller>(
    alloc: Global,
    end: &mut Connection<H, K, R, C>,
    mine: &mut Vec<Datagram>,
    now: Instant,
) -> Result<Answer, AllocError>
    ensures answer { IfOk result (λ a.
        IsAnswer (policy_of H.protection K.aead K.seal_limit K.refusal_limit (words_of R.stream) end.old)
        (reads_window (windows_of C.steps C.window_of end.old.control) end.old.heard (Call.Poll now) end.old.end) [] (Call.Poll now) a) }
    ensures lacking { IfOk result (λ a.
        LacksWhere (policy_of H.protection K.aead K.seal_limit K.refusal_limit (words_of R.stream) end.old)
        (reads_window (windows_of C.steps C.window_of end.old.control) end.old.heard (Call.Poll now) end.old.end) [] (Call.Poll now) a) }
    ensures end { IfOk result (λ a.
        IsLeft (fails a) (policy_of H.protection K.aead K.seal_limit K.refusal_limit (words_of R.stream) end.old)
        (windows_of C.steps C.window_of end.old.control) end.old.heard end.old.end [] (Call.Poll now) a end.new.end) }
    ensures control { IfOk result (λ a.
        IsTold (fails a) (policy_of H.protection K.aead K.seal_limit K.refusal_limit (words_of R.stream) end.old)
        (windows_of C.steps C.window_of end.old.control) end.old.heard end.old.end [] (Call.Poll now)
        (windows_of C.steps C.window_of end.new.control)) }
    ensures heard { IfOk result (λ a.
        IsHeard (fails a) end.old.end end.new.end [] (Call.Poll now) a end.old.heard end.new.heard) }
    ensures given { IfOk result (λ a.
        mine.new.items
        ≡ mine.old.items ++ gives (policy_of H.protection K.aead K.seal_limit K.refusal_limit (words_of R.stream) end.old)
        (reads_window (windows_of C.steps C.window_of end.old.control) end.old.heard (Call.Poll now) end.old.end) (Call.Poll now) a) }
    ensures goes_on { GoesOn R.stream end.old end.new }
    ensures err { OnErr result (end.new ≡ end.old) }
    ensures err_given { OnErr result (mine.new.items ≡ mine.old.items) }
{
    mine.reserve(1)?;
    let mut out = Vec::new(alloc);
    let polled = end.poll_transmit(now, &mut out);
    keep(mine, &polled, out);
    Ok(Answer::Poll(polled))
}

/// Keeps the bytes that a poll gave, if it gave a datagram. There is room for it.
fn keep(mine: &mut Vec<Datagram>, polled: &Result<Option<Transmit>, Failed>, bytes: Vec<u8>)
    requires { vec_len mine.old < vec_capacity mine.old }
    ensures { mine.new.items ≡ mine.old.items ++ kept polled.now bytes.items }
{
    match polled {
        Ok(Some(_)) => mine.push_reserved(Datagram::new(bytes)),
        Ok(None) | Err(Failed) => {}
    }
}

/// Lets the timers up to this time expire.
fn timeout_at<H: HeaderKey + Drop, K: PacketKey + Drop, R: Rng + Drop, C: Controller>(
    end: &mut Connection<H, K, R, C>,
    now: Instant,
) -> Answer
    ensures answer { IsAnswer (policy_of H.protection K.aead K.seal_limit K.refusal_limit (words_of R.stream) end.old)
        (reads_window (windows_of C.steps C.window_of end.old.control) end.old.heard (Call.Timeout now) end.old.end) [] (Call.Timeout now) result }
    ensures lacking { LacksWhere (policy_of H.protection K.aead K.seal_limit K.refusal_limit (words_of R.stream) end.old)
        (reads_window (windows_of C.steps C.window_of end.old.control) end.old.heard (Call.Timeout now) end.old.end) [] (Call.Timeout now) result }
    ensures end { IsLeft (fails result) (policy_of H.protection K.aead K.seal_limit K.refusal_limit (words_of R.stream) end.old)
        (windows_of C.steps C.window_of end.old.control) end.old.heard end.old.end [] (Call.Timeout now) result end.new.end }
    ensures control { IsTold (fails result) (policy_of H.protection K.aead K.seal_limit K.refusal_limit (words_of R.stream) end.old)
        (windows_of C.steps C.window_of end.old.control) end.old.heard end.old.end [] (Call.Timeout now)
        (windows_of C.steps C.window_of end.new.control) }
    ensures heard { IsHeard (fails result) end.old.end end.new.end [] (Call.Timeout now) result end.old.heard end.new.heard }
    ensures given { gives (policy_of H.protection K.aead K.seal_limit K.refusal_limit (words_of R.stream) end.old)
        (reads_window (windows_of C.steps C.window_of end.old.control) end.old.heard (Call.Timeout now) end.old.end) (Call.Timeout now) result
        ≡ [] }
    ensures draws { GoesOn R.stream end.old end.new }
{
    Answer::Timeout(end.handle_timeout(now))
}

/// Delivers a datagram of the other endpoint.
fn deliver_at<H: HeaderKey + Drop, K: PacketKey + Drop, R: Rng + Drop, C: Controller>(
    alloc: Global,
    end: &mut Connection<H, K, R, C>,
    theirs: &[Datagram],
    delivery: &Delivery,
) -> Result<Answer, AllocError>
    ensures answer { IfOk result (λ a.
        IsAnswer (policy_of H.protection K.aead K.seal_limit K.refusal_limit (words_of R.stream) end.old)
        (reads_window (windows_of C.steps C.window_of end.old.control) end.old.heard (Call.Deliver delivery.entry.now) end.old.end) theirs.now (Call.Deliver delivery.entry.now) a) }
    ensures lacking { IfOk result (λ a.
        LacksWhere (policy_of H.protection K.aead K.seal_limit K.refusal_limit (words_of R.stream) end.old)
        (reads_window (windows_of C.steps C.window_of end.old.control) end.old.heard (Call.Deliver delivery.entry.now) end.old.end) theirs.now (Call.Deliver delivery.entry.now) a) }
    ensures end { IfOk result (λ a.
        IsLeft (fails a) (policy_of H.protection K.aead K.seal_limit K.refusal_limit (words_of R.stream) end.old)
        (windows_of C.steps C.window_of end.old.control) end.old.heard end.old.end theirs.now (Call.Deliver delivery.entry.now) a end.new.end) }
    ensures control { IfOk result (λ a.
        IsTold (fails a) (policy_of H.protection K.aead K.seal_limit K.refusal_limit (words_of R.stream) end.old)
        (windows_of C.steps C.window_of end.old.control) end.old.heard end.old.end theirs.now (Call.Deliver delivery.entry.now)
        (windows_of C.steps C.window_of end.new.control)) }
    ensures heard { IfOk result (λ a.
        IsHeard (fails a) end.old.end end.new.end theirs.now (Call.Deliver delivery.entry.now) a end.old.heard end.new.heard) }
    ensures openings { IfOk result (λ a.
        CountsOpenings (K.refusal_limit end.old.keys.packet.remote) end.old.end.closing.state end.old.heard a) }
    ensures draws { GoesOn R.stream end.old end.new }
    ensures err { OnErr result (end.new ≡ end.old) }
    ensures own { OnErr result (IsSome (slice_get theirs.now delivery.entry.now.index)) }
{
    match theirs.get(delivery.index) {
        None => Ok(Answer::NoDatagram),
        Some(datagram) => {
            let mut copy = Vec::from_slice(alloc, datagram.as_slice())?;
            Ok(Answer::Deliver(end.receive(delivery.now, delivery.remote, delivery.ecn, &mut copy)))
        }
    }
}

/// Hands in any bytes. If they would open, no call is made.
fn inject_at<H: HeaderKey + Drop, K: PacketKey + Drop, R: Rng + Drop, C: Controller>(
    alloc: Global,
    end: &mut Connection<H, K, R, C>,
    injection: &Injection,
) -> Result<Answer, AllocError>
    ensures answer { IfOk result (λ a.
        IsAnswer (policy_of H.protection K.aead K.seal_limit K.refusal_limit (words_of R.stream) end.old)
        (reads_window (windows_of C.steps C.window_of end.old.control) end.old.heard (Call.Inject injection.entry.now) end.old.end) [] (Call.Inject injection.entry.now) a) }
    ensures end { IfOk result (λ a.
        IsLeft (fails a) (policy_of H.protection K.aead K.seal_limit K.refusal_limit (words_of R.stream) end.old)
        (windows_of C.steps C.window_of end.old.control) end.old.heard end.old.end [] (Call.Inject injection.entry.now) a end.new.end) }
    ensures control { IfOk result (λ a.
        IsTold (fails a) (policy_of H.protection K.aead K.seal_limit K.refusal_limit (words_of R.stream) end.old)
        (windows_of C.steps C.window_of end.old.control) end.old.heard end.old.end [] (Call.Inject injection.entry.now)
        (windows_of C.steps C.window_of end.new.control)) }
    ensures heard { IfOk result (λ a.
        IsHeard (fails a) end.old.end end.new.end [] (Call.Inject injection.entry.now) a end.old.heard end.new.heard) }
    ensures openings { IfOk result (λ a.
        CountsOpenings (K.refusal_limit end.old.keys.packet.remote) end.old.end.closing.state end.old.heard a) }
    ensures draws { GoesOn R.stream end.old end.new }
    ensures err { OnErr result (end.new ≡ end.old) }
{
    let mut scratch = Vec::from_slice(alloc, injection.bytes.as_slice())?;
    if end.would_open(injection.remote, &mut scratch) {
        return Ok(Answer::Opens);
    }
    let mut copy = Vec::from_slice(alloc, injection.bytes.as_slice())?;
    Ok(Answer::Inject(end.receive(injection.now, injection.remote, injection.ecn, &mut copy)))
}
