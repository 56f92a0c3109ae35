//! Frames from bytes. Each reader takes its field from the front of the slice; where it refuses,
//! the bytes left are of no use.
ghost use Rattle.std.specs.Prelude.{◌≡◌, ◌<◌, ◌^◌, length, IfOk};
ghost use Rattle.std.specs.Int.{w64, to_be_bytes};
ghost use Rattle.quic_wire_core.specs.Taking.{Reads};
ghost use Rattle.quic_wire.specs.Reading.{var_at, block_at, sized_at, offset_at, data_at, stream_at, byte_at, connection_id_at, of_kind_at, body_at};
ghost use Rattle.quic_wire.specs.FrameTypes.{is_ack, is_reset_stream, is_stop_sending, is_crypto, is_new_token, is_stream, is_max_data, is_max_stream_data, is_max_streams, is_data_blocked, is_stream_data_blocked, is_streams_blocked, is_new_connection_id, is_retire_connection_id, is_path_challenge, is_path_response, is_connection_close, is_application_close, is_datagram, is_ack_frequency, has_bit};
ghost use Rattle.quic_wire.specs.Items.{frame_at};
ghost use Rattle.quic_wire.specs.FrameView.{is_one_way, frame_view, stream_view};

use crate::frame::ack::reading::ack_of;
use crate::frame::{
    AckFrequency, Frame, FrameError, InvalidFrame, NewConnectionId, ResetStream, StopSending,
    Stream,
};
use quic_wire_core::{
    Codec, ConnectionId, Dir, FrameType, MAX_CID_SIZE, RESET_TOKEN_SIZE, ResetToken, StreamId,
    VarInt,
};

/// A variable-length integer.
pub(crate) fn var_of(bytes: &mut &[u8]) -> Result<VarInt, FrameError>
    ensures { Reads (λ x. x) result bytes.new.now (var_at bytes.old.now) }
{
    VarInt::decode(bytes).map_err(|_| FrameError::UnexpectedEnd)
}

/// The number of a variable-length integer.
pub(crate) fn number_of(bytes: &mut &[u8]) -> Result<u64, FrameError>
    ensures value { Reads (λ x. x) result bytes.new.now (var_at bytes.old.now) }
    ensures bound { IfOk result (λ x. x < 2 ^ 62) }
{
    Ok(var_of(bytes)?.into_inner())
}

/// So many bytes.
#[tactic(auto, unfolding(crate::specs::Reading::block_at))]
fn block_of<'a>(len: u64, bytes: &mut &'a [u8]) -> Result<&'a [u8], FrameError>
    ensures value { Reads (λ x. x.now) result bytes.new.now (block_at len bytes.old.now) }
    ensures len { IfOk result (λ x. length x.now ≡ len) }
{
    let all = *bytes;
    if (all.len() as u64) < len {
        return Err(FrameError::UnexpectedEnd);
    }
    let (front, rest) = all.split_at(len as usize);
    *bytes = rest;
    Ok(front)
}

/// A length, and so many bytes.
#[tactic(auto, unfolding(crate::specs::Reading::sized_at))]
fn sized_of<'a>(bytes: &mut &'a [u8]) -> Result<&'a [u8], FrameError>
    ensures { Reads (λ x. x.now) result bytes.new.now (sized_at bytes.old.now) }
{
    let len = number_of(bytes)?;
    block_of(len, bytes)
}

/// The offset of a STREAM frame, 0 where none is written.
#[tactic(auto, unfolding(crate::specs::Reading::offset_at))]
fn offset_of(written: bool, bytes: &mut &[u8]) -> Result<u64, FrameError>
    ensures value { Reads (λ x. x) result bytes.new.now (offset_at written bytes.old.now) }
    ensures bound { IfOk result (λ x. x < 2 ^ 62) }
{
    if written { number_of(bytes) } else { Ok(0) }
}

/// The bytes behind their length, or, where no length is written, all that are left.
#[tactic(auto, unfolding(crate::specs::Reading::data_at))]
pub(crate) fn data_of<'a>(sized: bool, bytes: &mut &'a [u8]) -> Result<&'a [u8], FrameError>
    ensures { Reads (λ x. x.now) result bytes.new.now (data_at sized bytes.old.now) }
{
    if sized {
        sized_of(bytes)
    } else {
        let all = *bytes;
        *bytes = &[];
        Ok(all)
    }
}

/// An ACK frame behind its type.
fn ack_frame_of<'a>(ecn: bool, bytes: &mut &'a [u8]) -> Result<Frame<'a>, FrameError>
    ensures { Reads frame_view result bytes.new.now (of_kind_at (is_ack ecn) bytes.old.now) }
{
    match ack_of(ecn, bytes) {
        Ok(ack) => Ok(Frame::Ack(ack)),
        Err(reason) => Err(reason),
    }
}

/// A RESET_STREAM frame behind its type.
#[tactic(auto, unfolding(crate::specs::Reading::reset_stream_at))]
fn reset_stream_of<'a>(bytes: &mut &'a [u8]) -> Result<Frame<'a>, FrameError>
    ensures { Reads frame_view result bytes.new.now (of_kind_at is_reset_stream bytes.old.now) }
{
    Ok(Frame::ResetStream(ResetStream {
        id: StreamId::from(var_of(bytes)?),
        error_code: var_of(bytes)?,
        final_offset: var_of(bytes)?,
    }))
}

/// A STOP_SENDING frame behind its type.
#[tactic(auto, unfolding(crate::specs::Reading::stop_sending_at))]
fn stop_sending_of<'a>(bytes: &mut &'a [u8]) -> Result<Frame<'a>, FrameError>
    ensures { Reads frame_view result bytes.new.now (of_kind_at is_stop_sending bytes.old.now) }
{
    Ok(Frame::StopSending(StopSending {
        id: StreamId::from(var_of(bytes)?),
        error_code: var_of(bytes)?,
    }))
}

/// A CRYPTO frame behind its type.
#[tactic(auto, unfolding(crate::specs::Reading::crypto_at))]
fn crypto_of<'a>(bytes: &mut &'a [u8]) -> Result<Frame<'a>, FrameError>
    ensures { Reads frame_view result bytes.new.now (of_kind_at is_crypto bytes.old.now) }
{
    let offset = number_of(bytes)?;
    let data = sized_of(bytes)?;
    Ok(Frame::Crypto { offset, data })
}

/// A NEW_TOKEN frame behind its type.
fn new_token_of<'a>(bytes: &mut &'a [u8]) -> Result<Frame<'a>, FrameError>
    ensures { Reads frame_view result bytes.new.now (of_kind_at is_new_token bytes.old.now) }
{
    let token = sized_of(bytes)?;
    Ok(Frame::NewToken { token })
}

/// The fields of a STREAM frame behind its type.
#[tactic(auto, unfolding(crate::specs::Reading::stream_at))]
pub(crate) fn stream_of<'a>(ty: u64, bytes: &mut &'a [u8]) -> Result<Stream<'a>, FrameError>
    ensures { Reads stream_view result bytes.new.now (stream_at (has_bit ty 4) (has_bit ty 2) (has_bit ty 1) bytes.old.now) }
{
    let id = StreamId::from(var_of(bytes)?);
    let offset = offset_of(ty & 4 != 0, bytes)?;
    let data = data_of(ty & 2 != 0, bytes)?;
    Ok(Stream {
        id,
        offset,
        fin: ty & 1 != 0,
        data,
    })
}

/// A STREAM frame behind its type.
fn stream_frame_of<'a>(ty: u64, bytes: &mut &'a [u8]) -> Result<Frame<'a>, FrameError>
    ensures { Reads frame_view result bytes.new.now (of_kind_at (is_stream (has_bit ty 4) (has_bit ty 2) (has_bit ty 1)) bytes.old.now) }
{
    match stream_of(ty, bytes) {
        Ok(stream) => Ok(Frame::Stream(stream)),
        Err(reason) => Err(reason),
    }
}

/// A MAX_DATA frame behind its type.
fn max_data_of<'a>(bytes: &mut &'a [u8]) -> Result<Frame<'a>, FrameError>
    ensures { Reads frame_view result bytes.new.now (of_kind_at is_max_data bytes.old.now) }
{
    Ok(Frame::MaxData(var_of(bytes)?))
}

/// A MAX_STREAM_DATA frame behind its type.
#[tactic(auto, unfolding(crate::specs::Reading::stream_limit_at))]
fn max_stream_data_of<'a>(bytes: &mut &'a [u8]) -> Result<Frame<'a>, FrameError>
    ensures { Reads frame_view result bytes.new.now (of_kind_at is_max_stream_data bytes.old.now) }
{
    Ok(Frame::MaxStreamData {
        id: StreamId::from(var_of(bytes)?),
        offset: number_of(bytes)?,
    })
}

/// A MAX_STREAMS frame behind its type.
fn max_streams_of<'a>(dir: Dir, bytes: &mut &'a [u8]) -> Result<Frame<'a>, FrameError>
    ensures { Reads frame_view result bytes.new.now (of_kind_at (is_max_streams (is_one_way dir)) bytes.old.now) }
{
    Ok(Frame::MaxStreams {
        dir,
        count: number_of(bytes)?,
    })
}

/// A DATA_BLOCKED frame behind its type.
fn data_blocked_of<'a>(bytes: &mut &'a [u8]) -> Result<Frame<'a>, FrameError>
    ensures { Reads frame_view result bytes.new.now (of_kind_at is_data_blocked bytes.old.now) }
{
    Ok(Frame::DataBlocked {
        offset: number_of(bytes)?,
    })
}

/// A STREAM_DATA_BLOCKED frame behind its type.
#[tactic(auto, unfolding(crate::specs::Reading::stream_limit_at))]
fn stream_data_blocked_of<'a>(bytes: &mut &'a [u8]) -> Result<Frame<'a>, FrameError>
    ensures { Reads frame_view result bytes.new.now (of_kind_at is_stream_data_blocked bytes.old.now) }
{
    Ok(Frame::StreamDataBlocked {
        id: StreamId::from(var_of(bytes)?),
        offset: number_of(bytes)?,
    })
}

/// A STREAMS_BLOCKED frame behind its type.
fn streams_blocked_of<'a>(dir: Dir, bytes: &mut &'a [u8]) -> Result<Frame<'a>, FrameError>
    ensures { Reads frame_view result bytes.new.now (of_kind_at (is_streams_blocked (is_one_way dir)) bytes.old.now) }
{
    Ok(Frame::StreamsBlocked {
        dir,
        limit: number_of(bytes)?,
    })
}

/// One byte.
#[tactic(auto, unfolding(crate::specs::Reading::byte_at))]
fn byte_of(bytes: &mut &[u8]) -> Result<u8, FrameError>
    ensures { Reads (λ x. x) result bytes.new.now (byte_at bytes.old.now) }
{
    let all = *bytes;
    match all.split_first() {
        Some((first, rest)) => {
            *bytes = rest;
            Ok(*first)
        }
        None => Err(FrameError::UnexpectedEnd),
    }
}

/// A length in one byte, and an id of so many, 1 to 20.
#[tactic(auto, unfolding(crate::specs::Reading::connection_id_at, crate::specs::Reading::id_at))]
fn connection_id_of(bytes: &mut &[u8]) -> Result<ConnectionId, FrameError>
    ensures { Reads (λ x. x) result bytes.new.now (connection_id_at bytes.old.now) }
{
    let len = byte_of(bytes)?;
    if len == 0 || usize::from(len) > MAX_CID_SIZE {
        return Err(FrameError::Malformed);
    }
    Ok(ConnectionId::new(block_of(len.into(), bytes)?))
}

/// The token of a stateless reset.
fn reset_token_of(bytes: &mut &[u8]) -> Result<ResetToken, FrameError>
    ensures { Reads (λ x. x) result bytes.new.now (block_at 16 bytes.old.now) }
{
    let mut token = [0; RESET_TOKEN_SIZE];
    token.copy_from_slice(block_of(RESET_TOKEN_SIZE as u64, bytes)?);
    Ok(ResetToken::from(token))
}

/// A NEW_CONNECTION_ID frame behind its type. Its numbers are judged before its id is read.
#[tactic(auto, unfolding(crate::specs::Reading::new_connection_id_at, crate::specs::Reading::issued_at, crate::specs::Reading::id_and_token_at))]
fn new_connection_id_of<'a>(bytes: &mut &'a [u8]) -> Result<Frame<'a>, FrameError>
    ensures { Reads frame_view result bytes.new.now (of_kind_at is_new_connection_id bytes.old.now) }
{
    let sequence = number_of(bytes)?;
    let retire_prior_to = number_of(bytes)?;
    if retire_prior_to > sequence {
        return Err(FrameError::Malformed);
    }
    Ok(Frame::NewConnectionId(NewConnectionId {
        sequence,
        retire_prior_to,
        id: connection_id_of(bytes)?,
        reset_token: reset_token_of(bytes)?,
    }))
}

/// A RETIRE_CONNECTION_ID frame behind its type.
fn retire_connection_id_of<'a>(bytes: &mut &'a [u8]) -> Result<Frame<'a>, FrameError>
    ensures { Reads frame_view result bytes.new.now (of_kind_at is_retire_connection_id bytes.old.now) }
{
    Ok(Frame::RetireConnectionId {
        sequence: number_of(bytes)?,
    })
}

/// The number whose eight bytes these are, the most significant first.
fn number_in(text: &[u8]) -> u64
    requires { length text.now ≡ 8 }
    ensures { to_be_bytes w64 result ≡ text.now }
{
    let mut bytes = [0; 8];
    bytes.copy_from_slice(text);
    u64::from_be_bytes(bytes)
}

/// The eight bytes of a PATH_CHALLENGE or PATH_RESPONSE frame, as a number.
fn path_data_of(bytes: &mut &[u8]) -> Result<u64, FrameError>
    ensures { Reads (to_be_bytes w64) result bytes.new.now (block_at 8 bytes.old.now) }
{
    Ok(number_in(block_of(8, bytes)?))
}

/// A PATH_CHALLENGE frame behind its type.
fn path_challenge_of<'a>(bytes: &mut &'a [u8]) -> Result<Frame<'a>, FrameError>
    ensures { Reads frame_view result bytes.new.now (of_kind_at is_path_challenge bytes.old.now) }
{
    Ok(Frame::PathChallenge(path_data_of(bytes)?))
}

/// A PATH_RESPONSE frame behind its type.
fn path_response_of<'a>(bytes: &mut &'a [u8]) -> Result<Frame<'a>, FrameError>
    ensures { Reads frame_view result bytes.new.now (of_kind_at is_path_response bytes.old.now) }
{
    Ok(Frame::PathResponse(path_data_of(bytes)?))
}

/// A CONNECTION_CLOSE frame of type 1c behind its type.
#[tactic(auto, unfolding(crate::specs::Reading::connection_close_at))]
fn connection_close_of<'a>(bytes: &mut &'a [u8]) -> Result<Frame<'a>, FrameError>
    ensures { Reads frame_view result bytes.new.now (of_kind_at is_connection_close bytes.old.now) }
{
    let error_code = number_of(bytes)?;
    let frame_type = number_of(bytes)?;
    let reason = sized_of(bytes)?;
    Ok(Frame::ConnectionClose {
        error_code,
        frame_type,
        reason,
    })
}

/// A CONNECTION_CLOSE frame of type 1d behind its type.
#[tactic(auto, unfolding(crate::specs::Reading::application_close_at))]
fn application_close_of<'a>(bytes: &mut &'a [u8]) -> Result<Frame<'a>, FrameError>
    ensures { Reads frame_view result bytes.new.now (of_kind_at is_application_close bytes.old.now) }
{
    let error_code = number_of(bytes)?;
    let reason = sized_of(bytes)?;
    Ok(Frame::ApplicationClose { error_code, reason })
}

/// A DATAGRAM frame behind its type.
fn datagram_of<'a>(sized: bool, bytes: &mut &'a [u8]) -> Result<Frame<'a>, FrameError>
    ensures { Reads frame_view result bytes.new.now (of_kind_at (is_datagram sized) bytes.old.now) }
{
    let data = data_of(sized, bytes)?;
    Ok(Frame::Datagram { data })
}

/// An ACK_FREQUENCY frame behind its type.
#[tactic(auto, unfolding(crate::specs::Reading::ack_frequency_at))]
fn ack_frequency_of<'a>(bytes: &mut &'a [u8]) -> Result<Frame<'a>, FrameError>
    ensures { Reads frame_view result bytes.new.now (of_kind_at is_ack_frequency bytes.old.now) }
{
    Ok(Frame::AckFrequency(AckFrequency {
        sequence: var_of(bytes)?,
        ack_eliciting_threshold: var_of(bytes)?,
        request_max_ack_delay: var_of(bytes)?,
        reordering_threshold: var_of(bytes)?,
    }))
}

/// A frame behind its type.
fn body_of<'a>(ty: u64, bytes: &mut &'a [u8]) -> Result<Frame<'a>, FrameError>
    ensures { Reads frame_view result bytes.new.now (body_at ty bytes.old.now) }
{
    match ty {
        0x00 => Ok(Frame::Padding),
        0x01 => Ok(Frame::Ping),
        0x02 => ack_frame_of(false, bytes),
        0x03 => ack_frame_of(true, bytes),
        0x04 => reset_stream_of(bytes),
        0x05 => stop_sending_of(bytes),
        0x06 => crypto_of(bytes),
        0x07 => new_token_of(bytes),
        0x08..=0x0f => stream_frame_of(ty, bytes),
        0x10 => max_data_of(bytes),
        0x11 => max_stream_data_of(bytes),
        0x12 => max_streams_of(Dir::Bi, bytes),
        0x13 => max_streams_of(Dir::Uni, bytes),
        0x14 => data_blocked_of(bytes),
        0x15 => stream_data_blocked_of(bytes),
        0x16 => streams_blocked_of(Dir::Bi, bytes),
        0x17 => streams_blocked_of(Dir::Uni, bytes),
        0x18 => new_connection_id_of(bytes),
        0x19 => retire_connection_id_of(bytes),
        0x1a => path_challenge_of(bytes),
        0x1b => path_response_of(bytes),
        0x1c => connection_close_of(bytes),
        0x1d => application_close_of(bytes),
        0x1e => Ok(Frame::HandshakeDone),
        0x1f => Ok(Frame::ImmediateAck),
        0x30 => datagram_of(false, bytes),
        0x31 => datagram_of(true, bytes),
        0xaf => ack_frequency_of(bytes),
        _ => Err(FrameError::InvalidId),
    }
}

/// The frame at the front.
#[tactic(auto, unfolding(crate::specs::Items::frame_at))]
pub(crate) fn frame_of<'a>(bytes: &mut &'a [u8]) -> Result<Frame<'a>, InvalidFrame>
    ensures { Reads frame_view result bytes.new.now (frame_at bytes.old.now) }
{
    let ty = match var_of(bytes) {
        Ok(ty) => FrameType::from(ty),
        Err(reason) => return Err(InvalidFrame { ty: None, reason }),
    };
    match body_of(ty.into(), bytes) {
        Ok(frame) => Ok(frame),
        Err(reason) => Err(InvalidFrame {
            ty: Some(ty),
            reason,
        }),
    }
}
