//! Frames for streams that come (RFC 9000, sections 19.4, 19.5, 19.8 to 19.11, 19.13 and 19.14).
ghost use Rattle.std.specs.Prelude.{◌≡◌, ◌<◌, ◌^◌, Option, Some, None};
ghost use Rattle.quic_wire.specs.Value.{stream, reset_stream, stop_sending, max_stream_data, max_streams};
ghost use Rattle.quic_wire.specs.FrameView.{frame_view, stream_view, reset_stream_view, stop_sending_view, is_one_way};
ghost use Rattle.quic_streams_parts.specs.declared.answers.Breach.{Breach};
ghost use Rattle.quic_machine.specs.End.{End};
ghost use Rattle.quic_machine.specs.Receive.{fault_of, fault_at};
ghost use Rattle.quic_connection_parts.specs.Faults.{TakesAs, TakesOn, HasForm, IsOther};

use crate::receiving::{Trouble, trouble_of, violation};
use quic_streams_handles::EndStreams;
use quic_streams_parts::Breach;
use quic_streams_state::IdRule;
use quic_wire::frame::{Frame, ResetStream, StopSending, Stream};
use quic_wire_core::{Dir, Reason, Side, StreamId, VarInt};

/// Takes a frame that is neither ACK nor DATAGRAM, nor HANDSHAKE_DONE, nor one of path validation,
/// of ACK frequency or about connection IDs: one for streams changes these, NEW_TOKEN is refused by
/// a server, and one of another kind does nothing yet but that it may break a rule of ids and
/// counts.
///
/// # Errors
///
/// - [`Trouble::Broke`]: the frame breaks a rule. Nothing changes.
/// - [`Trouble::Memory`]: an allocation fails. The frame's stream may be open by then, and nothing
///   else changed.
/// - [`Trouble::TooManyPieces`]: more ranges of a stream wait than may. The frame is kept.
pub fn take_other(streams: &mut EndStreams, frame: &Frame<'_>) -> Result<(), Trouble>
    requires other { IsOther (frame_view frame.now) }
    requires form { HasForm (frame_view frame.now) }
    ensures { TakesOn result (frame_view frame.now) streams.old streams.new }
{
    match frame {
        Frame::Stream(frame) => take_stream(streams, frame),
        Frame::ResetStream(frame) => take_reset_stream(streams, *frame),
        Frame::StopSending(frame) => take_stop_sending(streams, *frame),
        Frame::MaxData(limit) => {
            streams.state.received_max_data(*limit);
            Ok(())
        }
        Frame::MaxStreamData { id, offset } => take_max_stream_data(streams, *id, *offset),
        Frame::MaxStreams { dir, count } => take_max_streams(streams, *dir, *count),
        Frame::NewToken { .. } => take_of_server(streams.state.side()),
        _ => refuse(streams.state.breach(IdRule::of(frame))),
    }
}

/// Takes a STREAM frame.
///
/// # Errors
///
/// - [`Trouble::Broke`]: the frame breaks a rule. Nothing changes.
/// - [`Trouble::Memory`]: an allocation fails. The frame's stream may be open by then, and nothing
///   else changed.
/// - [`Trouble::TooManyPieces`]: more ranges of the stream wait than may. The frame is kept.
pub fn take_stream(streams: &mut EndStreams, frame: &Stream<'_>) -> Result<(), Trouble>
    ensures { TakesOn result (stream (stream_view frame.now)) streams.old streams.new }
{
    let EndStreams { state, pending } = streams;
    state.received(frame, pending)?;
    Ok(())
}

/// Takes a RESET_STREAM frame.
fn take_reset_stream(streams: &mut EndStreams, frame: ResetStream) -> Result<(), Trouble>
    ensures { TakesOn result (reset_stream (reset_stream_view frame)) streams.old streams.new }
{
    let EndStreams { state, pending } = streams;
    state.received_reset(frame, pending)?;
    Ok(())
}

/// Takes a STOP_SENDING frame.
fn take_stop_sending(streams: &mut EndStreams, frame: StopSending) -> Result<(), Trouble>
    ensures { TakesOn result (stop_sending (stop_sending_view frame)) streams.old streams.new }
{
    streams.state.received_stop_sending(frame)?;
    Ok(())
}

/// Takes a MAX_STREAM_DATA frame.
fn take_max_stream_data(streams: &mut EndStreams, id: StreamId, limit: u64) -> Result<(), Trouble>
    requires { limit < 2 ^ 62 }
    ensures { TakesOn result (max_stream_data (record { id = id; limit = limit })) streams.old streams.new }
{
    let limit = VarInt::from_u64_unchecked(limit);
    streams.state.received_max_stream_data(id, limit)?;
    Ok(())
}

/// Takes a MAX_STREAMS frame.
fn take_max_streams(streams: &mut EndStreams, dir: Dir, count: u64) -> Result<(), Trouble>
    ensures { TakesOn result (max_streams (record { one_way = is_one_way dir; count = count })) streams.old streams.new }
{
    streams.state.received_max_streams(dir, count)?;
    Ok(())
}

/// Refuses a frame that breaks a rule, if it breaks one.
fn refuse(breach: Option<Breach>) -> Result<(), Trouble>
    ensures { (e : End) → TakesAs result (record { end = e; fault = fault_of breach }) e }
{
    match breach {
        None => Ok(()),
        Some(breach) => Err(trouble_of(breach)),
    }
}

/// Takes a frame that only servers send, and does nothing with it: a server gets none (RFC 9000,
/// sections 19.7 and 19.20).
///
/// # Errors
///
/// - [`Trouble::Broke`]: a server got it. Nothing changes.
pub fn take_of_server(side: Side) -> Result<(), Trouble>
    ensures { (e : End) → TakesAs result (record { end = e; fault = fault_at side }) e }
{
    match side {
        Side::Client => Ok(()),
        Side::Server => Err(violation(Reason::OfServers)),
    }
}
