//! The streams of an endpoint.
ghost use Rattle.std.specs.Prelude.{◌≡◌, ◌≢◌, ◌≤◌, ◌<◌, ◌^◌, Ok, Err, IfOk, MatchResult, length, ok_or};
ghost use Rattle.quic_streams_state.specs.Opening.{open_answer, after_open, accept_answer, after_accept};
ghost use Rattle.quic_streams_state.specs.Writing.{write_answer, after_write, finish_answer, after_finish, reset_answer, after_reset, set_priority_answer, after_set_priority};
ghost use Rattle.quic_streams_state.specs.Reading.{stop_answer, after_stop};
ghost use Rattle.quic_c_core.specs.Answers.{dir_numbered, named, of_write, of_finish, of_update};

use crate::call_error::CallError;
use crate::endpoint::put;
use quic_connection::{
    Chunk, Chunks, Dir, EndStreams, RecvStream, SendStream, StreamId, Streams, VarInt,
};

/// What a read gave.
#[derive(Clone, Copy, Debug, PartialEq, Eq)]
pub struct Piece {
    /// The offset in the stream of the first byte; 0 where there is none.
    pub offset: u64,
    /// How many bytes.
    pub len: usize,
    /// Whether the stream ends behind them. `false` says nothing where the room was filled.
    pub fin: bool,
}

/// The stream of this ID.
pub(crate) fn stream_of(id: u64) -> Result<StreamId, CallError>
    ensures { MatchResult result (λ stream. (stream ≡ id) × (id < 2 ^ 62)) (λ e. (e ≡ CallError.Invalid) × (2 ^ 62 ≤ id)) }
{
    let id = VarInt::from_u64(id)?;
    Ok(StreamId::from(id))
}

/// The code of this number.
pub(crate) fn code_of(code: u64) -> Result<VarInt, CallError>
    ensures { MatchResult result (λ v. (v ≡ code) × (code < 2 ^ 62)) (λ e. (e ≡ CallError.Invalid) × (2 ^ 62 ≤ code)) }
{
    Ok(VarInt::from_u64(code)?)
}

/// The kind of streams of this number: 0 bidirectional, 1 unidirectional.
pub(crate) fn dir_of(dir: u32) -> Result<Dir, CallError>
    ensures { result ≡ ok_or (dir_numbered dir) CallError.Invalid }
{
    match dir {
        0 => Ok(Dir::Bi),
        1 => Ok(Dir::Uni),
        _ => Err(CallError::Invalid),
    }
}

/// Opens the next stream of a kind: its ID.
pub(crate) fn open(streams: &mut EndStreams, is_open: bool, dir: Dir) -> Result<u64, CallError>
    ensures answer { result ≡ ok_or (open_answer is_open dir streams.old.state) CallError.Blocked }
    ensures state { streams.new.state ≡ after_open is_open dir streams.old.state }
    ensures pending { streams.new.pending ≡ streams.old.pending }
{
    match Streams::new(streams, is_open).open(dir) {
        Some(id) => Ok(VarInt::from(id).into_inner()),
        None => Err(CallError::Blocked),
    }
}

/// Accepts the first stream of a kind that the peer opened and that wasn't accepted: its ID.
pub(crate) fn accept(streams: &mut EndStreams, is_open: bool, dir: Dir) -> Result<u64, CallError>
    ensures answer { result ≡ ok_or (accept_answer dir streams.old.state) CallError.Absent }
    ensures state { streams.new.state ≡ after_accept dir streams.old.state }
    ensures pending { streams.new.pending ≡ streams.old.pending }
{
    match Streams::new(streams, is_open).accept(dir) {
        Some(id) => Ok(VarInt::from(id).into_inner()),
        None => Err(CallError::Absent),
    }
}

/// Writes as many of the bytes as fit on a stream: how many.
pub(crate) fn write(
    streams: &mut EndStreams,
    is_open: bool,
    id: StreamId,
    bytes: &[u8],
) -> Result<usize, CallError>
    ensures answer { result ≢ Err CallError.Memory → result ≡ named of_write (write_answer is_open streams.old.state id (length bytes.now)) }
    ensures state { IfOk result (λ taken. streams.new.state ≡ (after_write is_open (Ok taken) streams.old.state streams.old.pending id bytes.now).state) }
    ensures pending { IfOk result (λ taken. streams.new.pending ≡ (after_write is_open (Ok taken) streams.old.state streams.old.pending id bytes.now).pending) }
{
    Ok(SendStream::new(id, streams, is_open).write(bytes)?)
}

/// Finishes a stream.
pub(crate) fn finish(streams: &mut EndStreams, is_open: bool, id: StreamId) -> Result<(), CallError>
    ensures answer { result ≢ Err CallError.Memory → result ≡ named of_finish (finish_answer streams.old.state id) }
    ensures state { result ≢ Err CallError.Memory → streams.new.state ≡ after_finish streams.old.state id }
    ensures pending { streams.new.pending ≡ streams.old.pending }
    ensures memory { result ≡ Err CallError.Memory → streams.new.state ≡ streams.old.state }
{
    Ok(SendStream::new(id, streams, is_open).finish()?)
}

/// Resets a stream with a code.
pub(crate) fn reset(
    streams: &mut EndStreams,
    is_open: bool,
    id: StreamId,
    code: VarInt,
) -> Result<(), CallError>
    ensures answer { result ≢ Err CallError.Memory → result ≡ named of_update (reset_answer streams.old.state id) }
    ensures state { result ≢ Err CallError.Memory → streams.new.state ≡ (after_reset streams.old.state streams.old.pending id code).state }
    ensures pending { result ≢ Err CallError.Memory → streams.new.pending ≡ (after_reset streams.old.state streams.old.pending id code).pending }
    ensures memory { result ≡ Err CallError.Memory → streams.new ≡ streams.old }
{
    Ok(SendStream::new(id, streams, is_open).reset(code)?)
}

/// Asks the peer to send no more on a stream, with a code.
pub(crate) fn stop(streams: &mut EndStreams, id: StreamId, code: VarInt) -> Result<(), CallError>
    ensures answer { result ≢ Err CallError.Memory → result ≡ named of_update (stop_answer streams.old.state id) }
    ensures state { result ≢ Err CallError.Memory → streams.new.state ≡ (after_stop streams.old.state streams.old.pending id code).state }
    ensures pending { result ≢ Err CallError.Memory → streams.new.pending ≡ (after_stop streams.old.state streams.old.pending id code).pending }
    ensures memory { result ≡ Err CallError.Memory → streams.new ≡ streams.old }
{
    Ok(RecvStream::new(id, streams).stop(code)?)
}

/// Sets the priority of a stream.
pub(crate) fn set_priority(
    streams: &mut EndStreams,
    is_open: bool,
    id: StreamId,
    priority: i32,
) -> Result<(), CallError>
    ensures answer { result ≢ Err CallError.Memory → result ≡ named of_update (set_priority_answer streams.old.state id) }
    ensures state { result ≢ Err CallError.Memory → streams.new.state ≡ after_set_priority streams.old.state id priority }
    ensures pending { streams.new.pending ≡ streams.old.pending }
    ensures memory { result ≡ Err CallError.Memory → streams.new.state ≡ streams.old.state }
{
    Ok(SendStream::new(id, streams, is_open).set_priority(priority)?)
}

impl Piece {
    /// No byte, and no FIN.
    fn empty() -> Self {
        Piece {
            offset: 0,
            len: 0,
            fin: false,
        }
    }

    /// Puts the bytes of a chunk behind those that are there.
    fn push(&mut self, chunk: &Chunk, out: &mut [u8]) -> Result<(), CallError> {
        if self.len == 0 {
            self.offset = chunk.offset;
        }
        if self.len > out.len() {
            return Err(CallError::Room);
        }
        let length = put(&mut out[self.len..], chunk.bytes.as_slice())?;
        self.len = self.len.saturating_add(length);
        Ok(())
    }
}

/// Reads the bytes that come next, until the room is full or none waits. A reset comes with no
/// bytes before it, so that it is never met behind some.
pub(crate) fn read_all(chunks: &mut Chunks<'_>, out: &mut [u8]) -> Result<Piece, CallError> {
    let mut piece = Piece::empty();
    for _ in 0..out.len() {
        let room = out.len().saturating_sub(piece.len);
        if room == 0 {
            break;
        }
        match chunks.next(room) {
            Ok(Some(chunk)) => piece.push(&chunk, out)?,
            Ok(None) => {
                piece.fin = true;
                break;
            }
            Err(error) if piece.len == 0 => return Err(error.into()),
            Err(_) => break,
        }
    }
    Ok(piece)
}

/// Reads bytes that came, wherever they stand.
pub(crate) fn read_one(chunks: &mut Chunks<'_>, out: &mut [u8]) -> Result<Piece, CallError> {
    let mut piece = Piece::empty();
    match chunks.next(out.len())? {
        Some(chunk) => piece.push(&chunk, out)?,
        None => piece.fin = true,
    }
    Ok(piece)
}

/// Writes buffers, one behind the other, until one doesn't fit whole: how many bytes.
pub(crate) fn write_each(
    stream: &mut SendStream<'_>,
    buffers: &[&[u8]],
) -> Result<usize, CallError> {
    let mut taken = 0usize;
    for buffer in buffers {
        match stream.write(buffer) {
            Ok(length) => {
                taken = taken.saturating_add(length);
                if length < buffer.len() {
                    break;
                }
            }
            Err(error) if taken == 0 => return Err(error.into()),
            Err(_) => break,
        }
    }
    Ok(taken)
}
