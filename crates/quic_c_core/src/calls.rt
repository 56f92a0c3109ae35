//! What a program in another language may ask of an endpoint.

use crate::call_error::CallError;
use crate::endpoint::Peer;
use crate::events::EventRecord;
use crate::figures::Stats;
use crate::own_ids::IdRecord;
use crate::settings::Settings;
use crate::streams::{Piece, read_all, read_one, stream_of, write_each};
use quic_connection::{RecvStream, SendStream, StreamId};
use std::alloc::Global;

/// What may be asked of an endpoint; [`Endpoint`](crate::Endpoint) is the one that answers.
///
/// A function that calls any endpoint by this trait is proved without a look at what a connection
/// holds, and so in far less time than one over [`Endpoint`](crate::Endpoint) itself. That is why
/// a read, and a write of several buffers, have their bodies here, over the handles of streams.
pub trait Calls: Drop {
    /// Makes an endpoint at this time, of the random source that the seed comes to.
    ///
    /// # Errors
    ///
    /// - [`CallError::Size`], [`CallError::Setting`]: as of [`Settings::config`].
    /// - [`CallError::Invalid`]: the side is neither.
    /// - [`CallError::Seed`]: the seed hasn't 32 bytes.
    /// - [`CallError::IdLength`]: the own connection ID hasn't eight bytes, or the peer's hasn't 1
    ///   to 20.
    /// - [`CallError::Parameters`], [`CallError::DatagramSize`], [`CallError::Window`],
    ///   [`CallError::KeyLimit`]: the connection isn't made, as `ConfigError` says.
    /// - [`CallError::Memory`]: an allocation fails.
    fn new(
        alloc: Global,
        settings: &Settings,
        peer: &Peer<'_>,
        seed: &[u8],
        now: u64,
    ) -> Result<Box<Self>, CallError>;

    /// Hands in a datagram that came at this time from this address with this ECN codepoint, and
    /// opens it in place: 0 where it was taken, and else a number that says why it was dropped.
    ///
    /// # Errors
    ///
    /// - [`CallError::Invalid`]: an ECN codepoint above 3; nothing has changed.
    /// - [`CallError::Closed`]: it broke a rule, and the endpoint is closing.
    /// - [`CallError::Failed`]: an allocation failed, now or before.
    fn receive(
        &mut self,
        now: u64,
        address: u64,
        ecn: u32,
        datagram: &mut [u8],
    ) -> Result<u32, CallError>;

    /// Makes the next datagram that is to be sent at this time, and copies it to the front of a
    /// room: its length and its ECN codepoint, or `None` where there is nothing to send.
    ///
    /// # Errors
    ///
    /// - [`CallError::Room`]: the room is below [`room`](Self::room); nothing has changed.
    /// - [`CallError::Failed`]: an allocation failed, now or before.
    fn poll(&mut self, now: u64, out: &mut [u8]) -> Result<Option<(usize, u32)>, CallError>;

    /// The room in bytes that [`poll`](Self::poll) asks for: no datagram is longer.
    fn room(&self) -> usize;

    /// The number by which the host knows the address to which datagrams go.
    fn address(&self) -> u64;

    /// Lets the timers expire that are set to this time or an earlier one.
    ///
    /// # Errors
    ///
    /// - [`CallError::Failed`]: an allocation failed, now or before.
    fn timeout(&mut self, now: u64) -> Result<(), CallError>;

    /// The earliest deadline, in nanoseconds; [`NEVER`](crate::NEVER) where none is set.
    fn next_timeout(&self) -> u64;

    /// Whether a datagram from this address would open here. Its bytes are opened in place.
    fn would_open(&self, address: u64, scratch: &mut [u8]) -> bool;

    /// Takes the next event; `None` where there is none.
    fn next_event(&mut self) -> Option<EventRecord>;

    /// Whether own connection IDs were issued or retired since this was asked last, or since the
    /// endpoint was made.
    fn ids_changed(&mut self) -> bool;

    /// Copies the own connection IDs that live to the front of a room, by ascending number: how
    /// many they are.
    ///
    /// # Errors
    ///
    /// - [`CallError::Room`]: the room is smaller; nothing is copied.
    fn put_own_ids(&self, out: &mut [IdRecord]) -> Result<usize, CallError>;

    /// Copies the text that says more of why the connection is lost to the front of a room: how
    /// many bytes it has. They are none where the connection isn't lost, or where there is no more
    /// to say.
    ///
    /// # Errors
    ///
    /// - [`CallError::Room`]: the room is smaller; nothing is copied.
    fn put_lost_text(&self, out: &mut [u8]) -> Result<usize, CallError>;

    /// The sending half of a stream.
    fn send_stream(&mut self, id: StreamId) -> SendStream<'_>;

    /// The receiving half of a stream.
    fn recv_stream(&mut self, id: StreamId) -> RecvStream<'_>;

    /// Opens the next stream of a kind: its ID.
    ///
    /// # Errors
    ///
    /// - [`CallError::Invalid`]: neither kind.
    /// - [`CallError::Blocked`]: the peer lets no more be opened, or the endpoint isn't open.
    fn open(&mut self, dir: u32) -> Result<u64, CallError>;

    /// Accepts the first stream of a kind that the peer opened and that wasn't accepted: its ID.
    ///
    /// # Errors
    ///
    /// - [`CallError::Invalid`]: neither kind.
    /// - [`CallError::Absent`]: no stream waits.
    fn accept(&mut self, dir: u32) -> Result<u64, CallError>;

    /// Writes as many of the bytes as fit on a stream: how many.
    ///
    /// # Errors
    ///
    /// - [`CallError::Invalid`]: an ID of 2^62 or above.
    /// - [`CallError::Blocked`], [`CallError::Stopped`], [`CallError::ClosedStream`],
    ///   [`CallError::Memory`]: as `WriteError` says.
    fn write(&mut self, id: u64, data: &[u8]) -> Result<usize, CallError>;

    /// Writes several buffers, one behind the other, until one doesn't fit whole: how many bytes.
    ///
    /// # Errors
    ///
    /// As of [`write`](Self::write), where no byte was taken before.
    final fn write_vectored(&mut self, id: u64, buffers: &[&[u8]]) -> Result<usize, CallError> {
        let id = stream_of(id)?;
        write_each(&mut self.send_stream(id), buffers)
    }

    /// Finishes a stream.
    ///
    /// # Errors
    ///
    /// - [`CallError::Invalid`]: an ID of 2^62 or above.
    /// - [`CallError::Stopped`], [`CallError::ClosedStream`], [`CallError::Memory`]: as
    ///   `FinishError` says.
    fn finish(&mut self, id: u64) -> Result<(), CallError>;

    /// Resets a stream with a code.
    ///
    /// # Errors
    ///
    /// - [`CallError::Invalid`]: an ID or a code of 2^62 or above.
    /// - [`CallError::ClosedStream`], [`CallError::Memory`]: as `UpdateError` says.
    fn reset(&mut self, id: u64, code: u64) -> Result<(), CallError>;

    /// Asks the peer to send no more on a stream, with a code.
    ///
    /// # Errors
    ///
    /// - [`CallError::Invalid`]: an ID or a code of 2^62 or above.
    /// - [`CallError::ClosedStream`], [`CallError::Memory`]: as `UpdateError` says.
    fn stop(&mut self, id: u64, code: u64) -> Result<(), CallError>;

    /// Sets the priority of a stream.
    ///
    /// # Errors
    ///
    /// - [`CallError::Invalid`]: an ID of 2^62 or above.
    /// - [`CallError::ClosedStream`], [`CallError::Memory`]: as `UpdateError` says.
    fn set_priority(&mut self, id: u64, priority: i32) -> Result<(), CallError>;

    /// Reads bytes of a stream, in order or not, to the front of a room: where they stand, how many
    /// they are, and whether the stream ends behind them.
    ///
    /// # Errors
    ///
    /// - [`CallError::Invalid`]: an ID of 2^62 or above.
    /// - [`CallError::Room`]: there is no room for a byte.
    /// - [`CallError::ClosedStream`], [`CallError::Order`], [`CallError::Memory`]: as
    ///   `ReadableError` says.
    /// - [`CallError::Blocked`], [`CallError::Reset`]: as `ReadError` says.
    final fn read(&mut self, id: u64, ordered: bool, out: &mut [u8]) -> Result<Piece, CallError> {
        let id = stream_of(id)?;
        if out.is_empty() {
            return Err(CallError::Room);
        }
        let mut chunks = self.recv_stream(id).read(ordered)?;
        let answer = if ordered {
            read_all(&mut chunks, out)
        } else {
            read_one(&mut chunks, out)
        };
        // As when it is dropped, limits that were raised by the read are pending now.
        let _ = chunks.finalize();
        answer
    }

    /// Queues a copy of a message to be sent, for which older ones that wait go where `drop` is 1.
    ///
    /// # Errors
    ///
    /// - [`CallError::Invalid`]: `drop` is neither 0 nor 1.
    /// - [`CallError::Unsupported`], [`CallError::Disabled`], [`CallError::TooLarge`],
    ///   [`CallError::Blocked`], [`CallError::Memory`]: as `SendDatagramError` says.
    fn send_message(&mut self, message: &[u8], drop: u32) -> Result<(), CallError>;

    /// Reads the oldest unread message, to the front of a room: how many bytes it has.
    ///
    /// # Errors
    ///
    /// - [`CallError::Absent`]: there is none.
    /// - [`CallError::Room`]: the room is too small; the message stays unread.
    fn receive_message(&mut self, out: &mut [u8]) -> Result<usize, CallError>;

    /// The longest message that may be sent now, in bytes.
    ///
    /// # Errors
    ///
    /// - [`CallError::Unsupported`]: the peer takes none.
    fn max_message(&self) -> Result<usize, CallError>;

    /// Queues a PING.
    fn ping(&mut self);

    /// Says that the handshake is done: HANDSHAKE_DONE is queued.
    ///
    /// # Errors
    ///
    /// - [`CallError::Client`], [`CallError::Again`], [`CallError::NotOpen`]: as
    ///   `HandshakeDoneError` says; nothing has changed.
    fn handshake_done(&mut self) -> Result<(), CallError>;

    /// Sends to the next connection ID that the peer gave, and retires those before it.
    ///
    /// # Errors
    ///
    /// - [`CallError::Absent`], [`CallError::Blocked`], [`CallError::Memory`]: as `NextIdError`
    ///   says; nothing has changed.
    fn use_next_id(&mut self) -> Result<(), CallError>;

    /// Closes the connection at this time, with this code and a copy of this text.
    ///
    /// # Errors
    ///
    /// - [`CallError::Invalid`]: a code of 2^62 or above; nothing has changed.
    /// - [`CallError::Memory`]: an allocation fails; nothing has changed.
    fn close(&mut self, now: u64, code: u64, text: &[u8]) -> Result<(), CallError>;

    /// Which state the endpoint is in: 0 open, 1 closing, 2 drained, 3 failed.
    fn state(&self) -> u32;

    /// Whether the peer's address is validated.
    fn is_validated(&self) -> bool;

    /// The bytes that a datagram has at most now, but for an MTU probe.
    fn current_mtu(&self) -> usize;

    /// How long a round trip takes, as estimated now, in nanoseconds.
    fn rtt(&self) -> u64;

    /// How many bytes may be in flight.
    fn congestion_window(&self) -> u64;

    /// What was counted of the endpoint, and what it knows of its path.
    fn stats(&self) -> Stats;
}
