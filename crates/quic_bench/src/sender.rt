//! Writes one stream from a buffer.
use crate::application::{PATTERN, finish, open, write};
use crate::endpoint::Endpoint;
use crate::fault::Fault;
use quic_connection::{Dir, StreamId};

/// Writes so many bytes on a stream.
#[derive(Drop)]
pub struct Sender {
    id: StreamId,
    bytes: u64,
    // How many bytes a write has at most.
    piece: usize,
    sent: u64,
    // Whether a write was blocked, and the stream doesn't take bytes again yet: each write that is
    // blocked tells the peer so.
    is_blocked: bool,
    is_finished: bool,
}

impl Sender {
    /// Opens a one-way stream for so many bytes, of which a write has so many at most.
    ///
    /// # Errors
    ///
    /// - [`Fault::NoStream`]: the peer's limit is reached. No stream is opened.
    pub fn open(end: &mut impl Endpoint, bytes: u64, piece: usize) -> Result<Self, Fault> {
        Ok(Sender {
            id: open(end, Dir::Uni).ok_or(Fault::NoStream)?,
            bytes,
            piece,
            sent: 0,
            is_blocked: false,
            is_finished: false,
        })
    }

    /// The stream takes bytes again.
    pub fn unblock(&mut self) {
        self.is_blocked = false;
    }

    /// Writes what the stream takes of what is left, from twice the pattern, and ends it behind the
    /// last.
    ///
    /// # Errors
    ///
    /// - [`Fault::ClosedStream`]: the stream was finished or reset.
    /// - [`Fault::Stopped`]: the peer sent STOP_SENDING for the stream.
    /// - [`Fault::Memory`]: an allocation fails. What was written before stays written.
    pub fn send(&mut self, end: &mut impl Endpoint, source: &[u8]) -> Result<(), Fault> {
        for _ in 0..u64::MAX {
            if self.is_finished || self.is_blocked {
                break;
            }
            self.is_blocked = self.write_piece(end, source)? == 0;
            if self.sent >= self.bytes {
                finish(end, self.id)?;
                self.is_finished = true;
            }
        }
        Ok(())
    }

    /// Writes what may be written at once of what is left: how many bytes.
    fn write_piece(&mut self, end: &mut impl Endpoint, source: &[u8]) -> Result<u64, Fault> {
        let at = (self.sent % PATTERN as u64) as usize;
        let left = self.bytes.saturating_sub(self.sent);
        let piece = left.min(self.piece as u64) as usize;
        let data = source.get(at..at.saturating_add(piece)).unwrap_or(&[]);
        let count = write(end, self.id, data)? as u64;
        self.sent = self.sent.saturating_add(count);
        Ok(count)
    }
}
