//! Frames to bytes: each number in its shortest form (RFC 9000, section 16).
ghost use Rattle.std.specs.Prelude.{◌≡◌, ◌+◌, ◌<◌, ◌≤◌, ◌^◌, ◌++◌, [], ◌∷◌, length, OnOk, OnErr, vec_len, vec_capacity, IfSome, true};
ghost use Rattle.bytes.specs.Filled.{UsesSpare};
ghost use Rattle.quic_wire_core.specs.Varint.{shortest};
ghost use Rattle.quic_wire.specs.FrameView.{is_one_way, reset_stream_view, stop_sending_view, stream_view, new_connection_id_view, ack_frequency_view, frame_view};
ghost use Rattle.quic_wire.specs.FrameTypes.{bit_if};
ghost use Rattle.quic_wire.specs.Value.{reset_stream, stop_sending, new_connection_id, ack_frequency};
ghost use Rattle.quic_wire.specs.Grammar.{offset_numbers, number_if};
ghost use Rattle.quic_wire.specs.Writing.{written, widths, AreNumbers, has_offset, stream_header, stream_spelling, spelling, StreamFits, Fits, width_of, offset_width, length_width, some_if, header_of, stream_header_size, stream_size, frame_size, BeginWith, SpendsSpare};

use crate::frame::ack::size::size_of_ack;
use crate::frame::ack::writing::write_ack;
use crate::frame::{AckFrequency, Frame, NewConnectionId, ResetStream, StopSending, Stream};
use bytes::BufMut;
use quic_wire_core::reserved::append;
use quic_wire_core::{Codec, Dir, RESET_TOKEN_SIZE, StreamId, VarInt};
use std::alloc::AllocError;

/// Writes a number.
fn write_number<B: BufMut>(buf: &mut B, n: u64) -> Result<(), AllocError>
    requires { n < 2 ^ 62 }
    ensures ok { OnOk result (B.written buf.new ≡ B.written buf.old ++ shortest n) }
    ensures err { OnErr result (B.written buf.new ≡ B.written buf.old) }
    ensures spare { UsesSpare result (B.spare buf.old) (B.spare buf.new) (width_of n) }
{
    VarInt::from_u64_unchecked(n).encode(buf)
}

/// Writes the offset of a STREAM frame, where it isn't 0.
fn write_offset<B: BufMut>(buf: &mut B, offset: u64) -> Result<(), AllocError>
    requires { offset < 2 ^ 62 }
    ensures ok { OnOk result (B.written buf.new ≡ B.written buf.old ++ written (offset_numbers (has_offset offset) offset)) }
    ensures err { OnErr result (B.written buf.new ≡ B.written buf.old) }
    ensures spare { UsesSpare result (B.spare buf.old) (B.spare buf.new) (offset_width offset) }
{
    if offset == 0 {
        Ok(())
    } else {
        write_number(buf, offset)
    }
}

/// Writes the length of the data of a STREAM frame, where it is written.
fn write_length<B: BufMut>(buf: &mut B, length: u64, with_length: bool) -> Result<(), AllocError>
    requires { length < 2 ^ 62 }
    ensures ok { OnOk result (B.written buf.new ≡ B.written buf.old ++ written (number_if with_length length)) }
    ensures err { OnErr result (B.written buf.new ≡ B.written buf.old) }
    ensures spare { UsesSpare result (B.spare buf.old) (B.spare buf.new) (length_width (some_if with_length length)) }
{
    if with_length {
        write_number(buf, length)
    } else {
        Ok(())
    }
}

/// Writes the header of a STREAM frame of so many bytes, with its length or without.
#[tactic(auto, using(crate::proofs::FrameWritten::stands_0, crate::proofs::FrameWritten::stands_1, crate::proofs::FrameWritten::stands_2, crate::proofs::FrameWritten::stands_3))]
fn write_stream_header<B: BufMut>(
    buf: &mut B,
    stream: &Stream<'_>,
    length: usize,
    with_length: bool,
) -> Result<(), AllocError>
    requires offset { stream.now.offset < 2 ^ 62 }
    requires id { stream.now.id < 2 ^ 62 }
    requires form { length < 2 ^ 62 }
    ensures ok { OnOk result (B.written buf.new ≡ B.written buf.old ++ header_of with_length (stream_view stream.now) length) }
    ensures err { OnErr result (BeginWith (B.written buf.old) (B.written buf.new)) }
    ensures spare { SpendsSpare result (B.spare buf.old) (B.spare buf.new) (stream_header_size stream.now.id stream.now.offset (some_if with_length length)) }
{
    write_number(buf, stream.ty(with_length).into())?;
    write_number(buf, stream.id.into())?;
    write_offset(buf, stream.offset)?;
    write_length(buf, length as u64, with_length)
}

/// Writes a STREAM frame with its length.
#[tactic(auto, using(crate::proofs::FrameWritten::stands_0, crate::proofs::FrameWritten::stands_1), unfolding(crate::specs::Writing::stream_spelling))]
fn write_stream<B: BufMut>(buf: &mut B, stream: &Stream<'_>) -> Result<(), AllocError>
    requires { StreamFits (stream_view stream.now) }
    ensures ok { OnOk result (B.written buf.new ≡ B.written buf.old ++ stream_spelling true (stream_view stream.now)) }
    ensures err { OnErr result (BeginWith (B.written buf.old) (B.written buf.new)) }
    ensures spare { SpendsSpare result (B.spare buf.old) (B.spare buf.new) (stream_size true (stream_view stream.now)) }
{
    write_stream_header(buf, stream, stream.data.len(), true)?;
    buf.put_slice(stream.data)
}

/// Writes numbers, one after another.
pub(crate) fn write_numbers<B: BufMut>(buf: &mut B, numbers: &[u64]) -> Result<(), AllocError>
    requires { AreNumbers numbers.now }
    ensures ok { OnOk result (B.written buf.new ≡ B.written buf.old ++ written numbers.now) }
    ensures err { OnErr result (BeginWith (B.written buf.old) (B.written buf.new)) }
    ensures spare { SpendsSpare result (B.spare buf.old) (B.spare buf.new) (widths numbers.now) }
{
    for n in numbers {
        write_number(buf, *n)?;
    }
    Ok(())
}

/// Writes numbers, and a text behind them.
#[tactic(auto, using(crate::proofs::FrameWritten::stands_0, crate::proofs::FrameWritten::stands_1))]
fn write_parts<B: BufMut>(buf: &mut B, numbers: &[u64], text: &[u8]) -> Result<(), AllocError>
    requires { AreNumbers numbers.now }
    ensures ok { OnOk result (B.written buf.new ≡ B.written buf.old ++ (written numbers.now ++ text.now)) }
    ensures err { OnErr result (BeginWith (B.written buf.old) (B.written buf.new)) }
    ensures spare { SpendsSpare result (B.spare buf.old) (B.spare buf.new) (widths numbers.now + length text.now) }
{
    write_numbers(buf, numbers)?;
    buf.put_slice(text)
}

/// Writes a type and a number.
fn write_one<B: BufMut>(buf: &mut B, ty: u64, n: u64) -> Result<(), AllocError>
    requires { AreNumbers (ty ∷ n ∷ []) }
    ensures ok { OnOk result (B.written buf.new ≡ B.written buf.old ++ (written (ty ∷ n ∷ []) ++ [])) }
    ensures err { OnErr result (BeginWith (B.written buf.old) (B.written buf.new)) }
    ensures spare { SpendsSpare result (B.spare buf.old) (B.spare buf.new) (widths (ty ∷ n ∷ []) + 0) }
{
    write_parts(buf, &[ty, n], &[])
}

/// Writes a type, one greater for one-way streams, and how many of them there are.
fn write_count<B: BufMut>(buf: &mut B, ty: u64, dir: Dir, count: u64) -> Result<(), AllocError>
    requires ty { ty < 64 }
    requires count { count < 2 ^ 62 }
    ensures ok { OnOk result (B.written buf.new ≡ B.written buf.old ++ (written ((ty + bit_if (is_one_way dir) 1) ∷ count ∷ []) ++ [])) }
    ensures err { OnErr result (BeginWith (B.written buf.old) (B.written buf.new)) }
    ensures spare { SpendsSpare result (B.spare buf.old) (B.spare buf.new) (widths ((ty + bit_if (is_one_way dir) 1) ∷ count ∷ []) + 0) }
{
    match dir {
        Dir::Bi => write_one(buf, ty, count),
        Dir::Uni => write_one(buf, ty + 1, count),
    }
}

/// Writes a type, a stream's id and a number.
fn write_limit<B: BufMut>(buf: &mut B, ty: u64, id: StreamId, limit: u64) -> Result<(), AllocError>
    requires { AreNumbers (ty ∷ id ∷ limit ∷ []) }
    ensures ok { OnOk result (B.written buf.new ≡ B.written buf.old ++ (written (ty ∷ id ∷ limit ∷ []) ++ [])) }
    ensures err { OnErr result (BeginWith (B.written buf.old) (B.written buf.new)) }
    ensures spare { SpendsSpare result (B.spare buf.old) (B.spare buf.new) (widths (ty ∷ id ∷ limit ∷ []) + 0) }
{
    write_parts(buf, &[ty, id.into(), limit], &[])
}

/// Writes a type and a text with its length.
fn write_sized<B: BufMut>(buf: &mut B, ty: u64, text: &[u8]) -> Result<(), AllocError>
    requires { AreNumbers (ty ∷ length text.now ∷ []) }
    ensures ok { OnOk result (B.written buf.new ≡ B.written buf.old ++ (written (ty ∷ length text.now ∷ []) ++ text.now)) }
    ensures err { OnErr result (BeginWith (B.written buf.old) (B.written buf.new)) }
    ensures spare { SpendsSpare result (B.spare buf.old) (B.spare buf.new) (widths (ty ∷ length text.now ∷ []) + length text.now) }
{
    write_parts(buf, &[ty, text.len() as u64], text)
}

/// Writes a RESET_STREAM frame.
fn write_reset_stream<B: BufMut>(buf: &mut B, frame: &ResetStream) -> Result<(), AllocError>
    requires { Fits (reset_stream (reset_stream_view frame.now)) }
    ensures ok { OnOk result (B.written buf.new ≡ B.written buf.old ++ spelling (reset_stream (reset_stream_view frame.now))) }
    ensures err { OnErr result (BeginWith (B.written buf.old) (B.written buf.new)) }
    ensures spare { SpendsSpare result (B.spare buf.old) (B.spare buf.new) (frame_size (reset_stream (reset_stream_view frame.now))) }
{
    let code = frame.error_code.into_inner();
    let size = frame.final_offset.into_inner();
    write_parts(buf, &[0x04, frame.id.into(), code, size], &[])
}

/// Writes a STOP_SENDING frame.
fn write_stop_sending<B: BufMut>(buf: &mut B, frame: &StopSending) -> Result<(), AllocError>
    requires { Fits (stop_sending (stop_sending_view frame.now)) }
    ensures ok { OnOk result (B.written buf.new ≡ B.written buf.old ++ spelling (stop_sending (stop_sending_view frame.now))) }
    ensures err { OnErr result (BeginWith (B.written buf.old) (B.written buf.new)) }
    ensures spare { SpendsSpare result (B.spare buf.old) (B.spare buf.new) (frame_size (stop_sending (stop_sending_view frame.now))) }
{
    write_limit(buf, 0x05, frame.id, frame.error_code.into_inner())
}

/// Writes a NEW_CONNECTION_ID frame.
#[tactic(auto, using(crate::proofs::FrameWritten::stands_0, crate::proofs::FrameWritten::stands_1, crate::proofs::FrameWritten::stands_2, crate::proofs::FrameWritten::stands_3, crate::proofs::FrameWritten::id_written, crate::proofs::FrameWritten::id_length))]
fn write_new_connection_id<B: BufMut>(
    buf: &mut B,
    frame: &NewConnectionId,
) -> Result<(), AllocError>
    requires { Fits (new_connection_id (new_connection_id_view frame.now)) }
    ensures ok { OnOk result (B.written buf.new ≡ B.written buf.old ++ spelling (new_connection_id (new_connection_id_view frame.now))) }
    ensures err { OnErr result (BeginWith (B.written buf.old) (B.written buf.new)) }
    ensures spare { SpendsSpare result (B.spare buf.old) (B.spare buf.new) (frame_size (new_connection_id (new_connection_id_view frame.now))) }
{
    write_numbers(buf, &[0x18, frame.sequence, frame.retire_prior_to])?;
    buf.put_u8(frame.id.len() as u8)?;
    buf.put_slice(frame.id.as_slice())?;
    buf.put_slice(frame.reset_token.as_slice())
}

/// Writes a CONNECTION_CLOSE frame of type 1c.
fn write_close<B: BufMut>(
    buf: &mut B,
    error_code: u64,
    frame_type: u64,
    reason: &[u8],
) -> Result<(), AllocError>
    requires { AreNumbers (0x1c ∷ error_code ∷ frame_type ∷ length reason.now ∷ []) }
    ensures ok { OnOk result (B.written buf.new ≡ B.written buf.old ++ (written (0x1c ∷ error_code ∷ frame_type ∷ length reason.now ∷ []) ++ reason.now)) }
    ensures err { OnErr result (BeginWith (B.written buf.old) (B.written buf.new)) }
    ensures spare { SpendsSpare result (B.spare buf.old) (B.spare buf.new) (widths (0x1c ∷ error_code ∷ frame_type ∷ length reason.now ∷ []) + length reason.now) }
{
    let len = reason.len() as u64;
    write_parts(buf, &[0x1c, error_code, frame_type, len], reason)
}

/// Writes an ACK_FREQUENCY frame.
fn write_ack_frequency<B: BufMut>(buf: &mut B, frame: &AckFrequency) -> Result<(), AllocError>
    requires { Fits (ack_frequency (ack_frequency_view frame.now)) }
    ensures ok { OnOk result (B.written buf.new ≡ B.written buf.old ++ spelling (ack_frequency (ack_frequency_view frame.now))) }
    ensures err { OnErr result (BeginWith (B.written buf.old) (B.written buf.new)) }
    ensures spare { SpendsSpare result (B.spare buf.old) (B.spare buf.new) (frame_size (ack_frequency (ack_frequency_view frame.now))) }
{
    let sequence = frame.sequence.into_inner();
    let threshold = frame.ack_eliciting_threshold.into_inner();
    let delay = frame.request_max_ack_delay.into_inner();
    let reordering = frame.reordering_threshold.into_inner();
    write_parts(buf, &[0xaf, sequence, threshold, delay, reordering], &[])
}

/// Writes a frame, each number in its shortest form, STREAM and DATAGRAM frames with their length.
///
/// # Errors
///
/// - [`AllocError`]: an allocation fails, or the buffer can't grow, where it has no spare room for
///   the frame. A part of it may be written behind what was there.
#[tactic(auto, using(crate::proofs::FrameWritten::stands_0))]
pub fn write_frame<B: BufMut>(frame: &Frame<'_>, buf: &mut B) -> Result<(), AllocError>
    requires { Fits (frame_view frame.now) }
    ensures ok { OnOk result (B.written buf.new ≡ B.written buf.old ++ spelling (frame_view frame.now)) }
    ensures err { OnErr result (BeginWith (B.written buf.old) (B.written buf.new)) }
    ensures spare { SpendsSpare result (B.spare buf.old) (B.spare buf.new) (frame_size (frame_view frame.now)) }
{
    match frame {
        Frame::Padding => write_number(buf, 0x00),
        Frame::Ping => write_number(buf, 0x01),
        Frame::Ack(ack) => write_ack(buf, ack),
        Frame::ResetStream(frame) => write_reset_stream(buf, frame),
        Frame::StopSending(frame) => write_stop_sending(buf, frame),
        Frame::Crypto { offset, data } => write_parts(
            buf,
            &[0x06, *offset, data.len() as u64],
            data,
        ),
        Frame::NewToken { token } => write_sized(buf, 0x07, token),
        Frame::Stream(stream) => write_stream(buf, stream),
        Frame::MaxData(limit) => write_one(buf, 0x10, limit.into_inner()),
        Frame::MaxStreamData { id, offset } => write_limit(buf, 0x11, *id, *offset),
        Frame::MaxStreams { dir, count } => write_count(buf, 0x12, *dir, *count),
        Frame::DataBlocked { offset } => write_one(buf, 0x14, *offset),
        Frame::StreamDataBlocked { id, offset } => write_limit(buf, 0x15, *id, *offset),
        Frame::StreamsBlocked { dir, limit } => write_count(buf, 0x16, *dir, *limit),
        Frame::NewConnectionId(frame) => write_new_connection_id(buf, frame),
        Frame::RetireConnectionId { sequence } => write_one(buf, 0x19, *sequence),
        Frame::PathChallenge(token) => write_parts(buf, &[0x1a], &token.to_be_bytes()),
        Frame::PathResponse(token) => write_parts(buf, &[0x1b], &token.to_be_bytes()),
        Frame::ConnectionClose {
            error_code,
            frame_type,
            reason,
        } => write_close(buf, *error_code, *frame_type, reason),
        Frame::ApplicationClose { error_code, reason } => {
            write_parts(buf, &[0x1d, *error_code, reason.len() as u64], reason)
        }
        Frame::HandshakeDone => write_parts(buf, &[0x1e], &[]),
        Frame::ImmediateAck => write_parts(buf, &[0x1f], &[]),
        Frame::Datagram { data } => write_sized(buf, 0x31, data),
        Frame::AckFrequency(frame) => write_ack_frequency(buf, frame),
    }
}

/// How many bytes a number takes.
pub(crate) fn size_of_number(n: u64) -> usize
    requires { n < 2 ^ 62 }
    ensures size { result ≡ width_of n }
    ensures bound { result ≤ 8 }
{
    VarInt::from_u64_unchecked(n).size()
}

/// How many bytes the offset of a STREAM frame takes: none where it is 0.
fn size_of_offset(offset: u64) -> usize
    requires { offset < 2 ^ 62 }
    ensures size { result ≡ offset_width offset }
    ensures bound { result ≤ 8 }
{
    if offset == 0 {
        0
    } else {
        size_of_number(offset)
    }
}

/// How many bytes the length of a STREAM frame takes: none where it isn't written.
fn size_of_length(length: Option<u64>) -> usize
    requires { IfSome length (λ n. n < 2 ^ 62) }
    ensures size { result ≡ length_width length }
    ensures bound { result ≤ 8 }
{
    match length {
        Some(length) => size_of_number(length),
        None => 0,
    }
}

/// How many bytes stand before the data of a STREAM frame: its type, the id, the offset where it
/// isn't 0, and the length where one is written; at most [`Stream::SIZE_BOUND`].
pub fn size_of_stream_header(id: StreamId, offset: u64, length: Option<u64>) -> usize
    requires offset { offset < 2 ^ 62 }
    requires length { IfSome length (λ n. n < 2 ^ 62) }
    ensures size { result ≡ stream_header_size id offset length }
    ensures bound { result ≤ 25 }
{
    1 + size_of_number(id.into()) + size_of_offset(offset) + size_of_length(length)
}

/// How many bytes two numbers take.
fn size_of_pair(a: u64, b: u64) -> usize
    requires first { a < 2 ^ 62 }
    requires second { b < 2 ^ 62 }
    ensures size { result ≡ width_of a + width_of b }
    ensures bound { result ≤ 16 }
{
    size_of_number(a) + size_of_number(b)
}

/// How many bytes a text takes with its length.
fn size_of_text(text: &[u8]) -> usize
    requires { length text.now < 2 ^ 62 }
    ensures size { result ≡ width_of (length text.now) + length text.now }
    ensures bound { result ≤ 8 + length text.now }
{
    size_of_number(text.len() as u64) + text.len()
}

/// How many bytes a RESET_STREAM frame takes.
fn size_of_reset_stream(frame: &ResetStream) -> usize
    requires { Fits (reset_stream (reset_stream_view frame.now)) }
    ensures { result ≡ frame_size (reset_stream (reset_stream_view frame.now)) }
{
    let code = frame.error_code.into_inner();
    let size = frame.final_offset.into_inner();
    1 + size_of_number(frame.id.into()) + size_of_pair(code, size)
}

/// How many bytes a NEW_CONNECTION_ID frame takes.
#[tactic(auto, using(crate::proofs::FrameWritten::id_length))]
fn size_of_new_connection_id(frame: &NewConnectionId) -> usize
    requires { Fits (new_connection_id (new_connection_id_view frame.now)) }
    ensures { result ≡ frame_size (new_connection_id (new_connection_id_view frame.now)) }
{
    let numbers = size_of_pair(frame.sequence, frame.retire_prior_to);
    1 + numbers + 1 + frame.id.len() + RESET_TOKEN_SIZE
}

/// How many bytes an ACK_FREQUENCY frame takes.
fn size_of_ack_frequency(frame: &AckFrequency) -> usize
    requires { Fits (ack_frequency (ack_frequency_view frame.now)) }
    ensures { result ≡ frame_size (ack_frequency (ack_frequency_view frame.now)) }
{
    let threshold = frame.ack_eliciting_threshold.into_inner();
    let delay = frame.request_max_ack_delay.into_inner();
    let reordering = frame.reordering_threshold.into_inner();
    2 + size_of_pair(frame.sequence.into_inner(), threshold) + size_of_pair(delay, reordering)
}

/// How many bytes a frame takes; STREAM and DATAGRAM are counted with their length.
pub fn size_of_frame(frame: &Frame<'_>) -> usize
    requires { Fits (frame_view frame.now) }
    ensures { result ≡ frame_size (frame_view frame.now) }
{
    match frame {
        Frame::Padding | Frame::Ping | Frame::HandshakeDone | Frame::ImmediateAck => 1,
        Frame::Ack(ack) => size_of_ack(ack),
        Frame::ResetStream(frame) => size_of_reset_stream(frame),
        Frame::StopSending(frame) => 1
            + size_of_pair(frame.id.into(), frame.error_code.into_inner()),
        Frame::Crypto { offset, data } => 1 + size_of_number(*offset) + size_of_text(data),
        Frame::NewToken { token } => 1 + size_of_text(token),
        Frame::Stream(stream) => {
            let length = stream.data.len();
            size_of_stream_header(stream.id, stream.offset, Some(length as u64)) + length
        }
        Frame::MaxData(limit) => 1 + size_of_number(limit.into_inner()),
        Frame::MaxStreamData { id, offset } => 1 + size_of_pair(u64::from(*id), *offset),
        Frame::StreamDataBlocked { id, offset } => 1 + size_of_pair(u64::from(*id), *offset),
        Frame::MaxStreams { count, .. } => 1 + size_of_number(*count),
        Frame::StreamsBlocked { limit, .. } => 1 + size_of_number(*limit),
        Frame::DataBlocked { offset } => 1 + size_of_number(*offset),
        Frame::NewConnectionId(frame) => size_of_new_connection_id(frame),
        Frame::RetireConnectionId { sequence } => 1 + size_of_number(*sequence),
        Frame::PathChallenge(_) | Frame::PathResponse(_) => 1 + 8,
        Frame::ConnectionClose {
            error_code,
            frame_type,
            reason,
        } => 1 + size_of_pair(*error_code, *frame_type) + size_of_text(reason),
        Frame::ApplicationClose { error_code, reason } => 1
            + size_of_number(*error_code)
            + size_of_text(reason),
        Frame::Datagram { data } => 1 + size_of_text(data),
        Frame::AckFrequency(frame) => size_of_ack_frequency(frame),
    }
}

/// Appends what stands before the bytes of a STREAM frame, for which there is room: its type, id
/// and offset, and its length, if that is written. So many bytes are to follow, whatever bytes
/// `stream` has (RFC 9000, section 19.8; quinn-proto's `StreamMeta::encode`).
pub fn put_stream_header(out: &mut Vec<u8>, stream: &Stream<'_>, length: usize, with_length: bool)
    requires offset { stream.now.offset < 2 ^ 62 }
    requires id { stream.now.id < 2 ^ 62 }
    requires form { length < 2 ^ 62 }
    requires room { vec_len out.old + stream_header_size stream.now.id stream.now.offset (some_if with_length length) ≤ vec_capacity out.old }
    ensures items { out.new.items ≡ out.old.items ++ header_of with_length (stream_view stream.now) length }
    ensures len { vec_len out.new ≡ vec_len out.old + stream_header_size stream.now.id stream.now.offset (some_if with_length length) }
    ensures capacity { vec_capacity out.old ≤ vec_capacity out.new }
{
    write_stream_header(out, stream, length, with_length).unwrap()
}

/// Appends a STREAM frame, with its length or without, for which there is room. One without its
/// length has to be the last of its packet (RFC 9000, section 19.8; quinn-proto's
/// `StreamMeta::encode`).
pub fn put_stream(out: &mut Vec<u8>, stream: &Stream<'_>, with_length: bool)
    requires form { StreamFits (stream_view stream.now) }
    requires room { vec_len out.old + stream_size with_length (stream_view stream.now) ≤ vec_capacity out.old }
    ensures items { out.new.items ≡ out.old.items ++ stream_spelling with_length (stream_view stream.now) }
    ensures len { vec_len out.new ≡ vec_len out.old + stream_size with_length (stream_view stream.now) }
    ensures capacity { vec_capacity out.old ≤ vec_capacity out.new }
{
    put_stream_header(out, stream, stream.data.len(), with_length);
    append(out, stream.data);
}

/// Appends a frame, STREAM and DATAGRAM with their length, for which there is room.
pub fn put_frame(out: &mut Vec<u8>, frame: &Frame<'_>)
    requires form { Fits (frame_view frame.now) }
    requires room { vec_len out.old + frame_size (frame_view frame.now) ≤ vec_capacity out.old }
    ensures items { out.new.items ≡ out.old.items ++ spelling (frame_view frame.now) }
    ensures len { vec_len out.new ≡ vec_len out.old + frame_size (frame_view frame.now) }
    ensures capacity { vec_capacity out.old ≤ vec_capacity out.new }
{
    write_frame(frame, out).unwrap()
}
