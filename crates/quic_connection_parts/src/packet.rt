//! What stands in a packet: messages, frames about streams, PING, IMMEDIATE_ACK, ACK_FREQUENCY
//! and PADDING.
ghost use Rattle.std.specs.Prelude.{◌≡◌, ◌+◌, ◌-◌, ◌<◌, ◌≤◌, ◌^◌, ◌++◌, [], replicate, take, IfOk, OnOk, vec_len, vec_capacity, max};
ghost use Rattle.quic_wire.specs.Value.{ping, immediate_ack, ack_frequency};
ghost use Rattle.quic_wire.specs.FrameView.{ack_frequency_view};
ghost use Rattle.quic_wire.specs.Writing.{spelling, spelled_all, frame_size, Fits};
ghost use Rattle.quic_retransmits.specs.Kept.{made};
ghost use Rattle.quic_streams_state.specs.State.{streams_of};
ghost use Rattle.quic_machine.specs.Tracking.{carried_in, retransmits_in};
ghost use Rattle.quic_connection_parts.specs.Frames.{control_part, content, with_request};

use crate::messages::put_messages;
use crate::sent::{Carried, kept_request};
use crate::statistics::{count_frames, count_streams};
use quic_messages::DatagramState;
use quic_retransmits::{Retransmits, ThinRetransmits};
use quic_send_buffer::StreamMeta;
use quic_stats::FrameStats;
use quic_streams_handles::EndStreams;
use quic_wire::frame::{Ack, AckFrequency, Frame, Stream, put_frame};
use quic_wire_core::reserved::append_zeros;
use std::alloc::{AllocError, Global};

/// Appends messages and frames about streams behind the frames of a packet whose payload begins at
/// `body` and may have `most` bytes, for which there is room: frames of control, DATAGRAM frames
/// behind them, and STREAM frames behind these. This answers what they carry, with ACK_FREQUENCY
/// where `requests` says that it went before them; the list of STREAM frames is `stream_frames`,
/// which is empty.
///
/// # Errors
///
/// - [`AllocError`]: an allocation fails. What stood in `out` stands there yet, behind which some
///   of the frames may be; the streams are of no more use then.
pub fn put_content(
    streams: &mut EndStreams,
    datagrams: &mut DatagramState,
    stats: &mut FrameStats,
    fair: bool,
    alloc: Global,
    requests: bool,
    body: usize,
    most: usize,
    mut stream_frames: Vec<StreamMeta>,
    out: &mut Vec<u8>,
) -> Result<Carried, AllocError>
    requires unused { stream_frames.items ≡ [] }
    requires body { body ≤ vec_len out.old }
    requires within { vec_len out.old ≤ body + most }
    requires room { body + most ≤ vec_capacity out.old }
    requires few { most < 2 ^ 62 }
    ensures items { OnOk result (out.new.items ≡ out.old.items ++ (content fair most (vec_len out.old - body) streams.old.state streams.old.pending datagrams.old.outgoing).bytes) }
    ensures within { vec_len out.new ≤ body + most }
    ensures grows { vec_len out.old ≤ vec_len out.new }
    ensures capacity { vec_capacity out.old ≤ vec_capacity out.new }
    ensures streams { OnOk result (streams_of streams.new.state streams.new.pending ≡ (content fair most (vec_len out.old - body) streams.old.state streams.old.pending datagrams.old.outgoing).streams) }
    ensures messages { OnOk result (datagrams.new ≡ record datagrams.old { outgoing = (content fair most (vec_len out.old - body) streams.old.state streams.old.pending datagrams.old.outgoing).outgoing }) }
    ensures carried { IfOk result (λ carried. carried ≡ with_request requests (carried_in (content fair most (vec_len out.old - body) streams.old.state streams.old.pending datagrams.old.outgoing).frames)) }
    ensures front { take (vec_len out.old) out.new.items ≡ out.old.items }
{
    let retransmits = put_control_frames(streams, stats, alloc, requests, body, most, out)?;
    put_messages(datagrams, stats, body, most, out);
    streams
        .state
        .write_stream_frames(out, body + most, fair, &mut stream_frames)?;
    count_streams(stats, stream_frames.len());
    Ok(Carried {
        largest_acked: None,
        stream_frames,
        retransmits,
    })
}

/// Appends frames about streams but for STREAM behind the frames of a packet whose payload begins
/// at `body` and may have `most` bytes, for which there is room. This answers what has to be sent
/// again if the datagram is lost, with ACK_FREQUENCY where that went before them. An error is want
/// of memory; the streams are of no more use then.
fn put_control_frames(
    streams: &mut EndStreams,
    stats: &mut FrameStats,
    alloc: Global,
    requests: bool,
    body: usize,
    most: usize,
    out: &mut Vec<u8>,
) -> Result<ThinRetransmits, AllocError>
    requires body { body ≤ vec_len out.old }
    requires within { vec_len out.old ≤ body + most }
    requires room { body + most ≤ vec_capacity out.old }
    ensures items { OnOk result (out.new.items ≡ out.old.items ++ spelled_all (control_part most (vec_len out.old - body) streams.old.state streams.old.pending).frames) }
    ensures within { vec_len out.new ≤ body + most }
    ensures grows { vec_len out.old ≤ vec_len out.new }
    ensures capacity { vec_capacity out.old ≤ vec_capacity out.new }
    ensures state { OnOk result (streams.new.state ≡ (control_part most (vec_len out.old - body) streams.old.state streams.old.pending).state) }
    ensures pending { OnOk result (streams.new.pending ≡ (control_part most (vec_len out.old - body) streams.old.state streams.old.pending).pending) }
    ensures carried { IfOk result (λ kept. made kept ≡ record (retransmits_in (control_part most (vec_len out.old - body) streams.old.state streams.old.pending).frames) { ack_frequency = requests }) }
    ensures front { take (vec_len out.old) out.new.items ≡ out.old.items }
{
    // Mostly nothing waits, and the walk over the kinds is spared.
    if streams.pending.is_idle() {
        return kept_request(alloc, requests);
    }
    put_waiting_frames(streams, stats, alloc, requests, body, most, out)
}

/// The same, where some of these frames wait.
fn put_waiting_frames(
    streams: &mut EndStreams,
    stats: &mut FrameStats,
    alloc: Global,
    requests: bool,
    body: usize,
    most: usize,
    out: &mut Vec<u8>,
) -> Result<ThinRetransmits, AllocError>
    requires body { body ≤ vec_len out.old }
    requires within { vec_len out.old ≤ body + most }
    requires room { body + most ≤ vec_capacity out.old }
    ensures items { OnOk result (out.new.items ≡ out.old.items ++ spelled_all (control_part most (vec_len out.old - body) streams.old.state streams.old.pending).frames) }
    ensures within { vec_len out.new ≤ body + most }
    ensures grows { vec_len out.old ≤ vec_len out.new }
    ensures capacity { vec_capacity out.old ≤ vec_capacity out.new }
    ensures state { OnOk result (streams.new.state ≡ (control_part most (vec_len out.old - body) streams.old.state streams.old.pending).state) }
    ensures pending { OnOk result (streams.new.pending ≡ (control_part most (vec_len out.old - body) streams.old.state streams.old.pending).pending) }
    ensures carried { IfOk result (λ kept. made kept ≡ record (retransmits_in (control_part most (vec_len out.old - body) streams.old.state streams.old.pending).frames) { ack_frequency = requests }) }
    ensures front { take (vec_len out.old) out.new.items ≡ out.old.items }
{
    let before = out.len();
    let mut sent = Retransmits::new(alloc);
    streams
        .state
        .write_control_frames(out, body + most, &mut streams.pending, &mut sent)?;
    if out.len() == before {
        return kept_request(alloc, requests);
    }
    count_frames(stats, &out[before..]);
    sent.set_ack_frequency(requests);
    ThinRetransmits::of(alloc, sent)
}

/// Appends a PING frame, for which there is room.
pub fn put_ping(out: &mut Vec<u8>)
    requires { vec_len out.old + 1 ≤ vec_capacity out.old }
    ensures items { out.new.items ≡ out.old.items ++ spelling ping }
    ensures len { vec_len out.new ≡ vec_len out.old + 1 }
    ensures capacity { vec_capacity out.old ≤ vec_capacity out.new }
{
    let _: Option<(Stream<'_>, Ack<'_>)> = None;
    put_frame(out, &Frame::Ping);
}

/// Appends an IMMEDIATE_ACK frame, for which there is room.
pub fn put_immediate_ack(out: &mut Vec<u8>)
    requires { vec_len out.old + 1 ≤ vec_capacity out.old }
    ensures items { out.new.items ≡ out.old.items ++ spelling immediate_ack }
    ensures len { vec_len out.new ≡ vec_len out.old + 1 }
    ensures capacity { vec_capacity out.old ≤ vec_capacity out.new }
{
    let _: Option<(Stream<'_>, Ack<'_>)> = None;
    put_frame(out, &Frame::ImmediateAck);
}

/// Appends an ACK_FREQUENCY frame, for which there is room: it has 34 bytes at most.
#[tactic(auto, using(quic_wire::proofs::FrameRange::size_most))]
pub fn put_ack_frequency(frame: AckFrequency, out: &mut Vec<u8>)
    requires form { Fits (ack_frequency (ack_frequency_view frame)) }
    requires room { vec_len out.old + 34 ≤ vec_capacity out.old }
    ensures few { frame_size (ack_frequency (ack_frequency_view frame)) ≤ 34 }
    ensures items { out.new.items ≡ out.old.items ++ spelling (ack_frequency (ack_frequency_view frame)) }
    ensures len { vec_len out.new ≡ vec_len out.old + frame_size (ack_frequency (ack_frequency_view frame)) }
    ensures capacity { vec_capacity out.old ≤ vec_capacity out.new }
{
    let _: Option<(Stream<'_>, Ack<'_>)> = None;
    put_frame(out, &Frame::AckFrequency(frame));
}

/// Pads the payload that begins there, so that it has four bytes with its number (RFC 9001, section
/// 5.4.2), and so many by itself at least.
pub fn pad(out: &mut Vec<u8>, width: usize, body: usize, least: usize)
    requires width { width ≤ 4 }
    requires body { body ≤ vec_len out.old }
    requires room { vec_len out.old + max (4 - (width + (vec_len out.old - body))) (least - (vec_len out.old - body)) ≤ vec_capacity out.old }
    ensures items { out.new.items ≡ out.old.items ++ replicate (max (4 - (width + (vec_len out.old - body))) (least - (vec_len out.old - body))) 0 }
    ensures len { vec_len out.new ≡ vec_len out.old + max (4 - (width + (vec_len out.old - body))) (least - (vec_len out.old - body)) }
    ensures capacity { vec_capacity out.old ≤ vec_capacity out.new }
{
    let used = out.len() - body;
    let zeros = 4usize.saturating_sub(width + used);
    append_zeros(out, zeros.max(least.saturating_sub(used)));
}
