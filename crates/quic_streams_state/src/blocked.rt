//! Which limit lets a write take nothing.
ghost use Rattle.std.specs.Prelude.{◌≡◌, ◌≢◌, ℕ, Err, None, IsSome};
ghost use Rattle.quic_streams_parts.specs.declared.answers.WriteError.TheVariants as write_errors;
ghost use Rattle.quic_streams_state.specs.Writing.{write_answer};
ghost use Rattle.quic_streams_state.specs.Blocking.{half_blocked_by, blocked_by};

use crate::state::StreamsState;
use quic_streams_parts::Send;
use quic_wire_core::StreamId;

/// What lets a write take nothing now: the reason of `WriteError::Blocked`.
#[derive(Clone, Copy, Debug, PartialEq, Eq)]
pub enum BlockedBy {
    /// The end isn't open: no write on it takes anything any more.
    Closed,
    /// The peer's limit on the bytes of all streams (RFC 9000, section 4.1): MAX_DATA raises it.
    Connection,
    /// The send window: so many bytes of all streams wait to be acknowledged as this end keeps. An
    /// acknowledgement makes room.
    SendWindow,
    /// The peer's limit on the bytes of this stream (RFC 9000, section 4.1): MAX_STREAM_DATA raises
    /// it.
    Stream,
}

// What blocks a write on a half, by what blocks one on any.
fn half_blocked_by(all: Option<BlockedBy>, half: &Send) -> Option<BlockedBy>
    ensures { result ≡ half_blocked_by all half.now }
{
    if all.is_some() {
        return all;
    }
    if half.is_ready() && half.stop_reason().is_none() && half.room() == 0 {
        Some(BlockedBy::Stream)
    } else {
        None
    }
}

impl StreamsState {
    // What blocks a write on a stream of an end, which is open or isn't.
    fn limit_on(&self, is_open: bool, id: StreamId) -> Option<BlockedBy>
        ensures { result ≡ blocked_by is_open self.now id }
    {
        if !is_open {
            return Some(BlockedBy::Closed);
        }
        let all = self.sending.blocked_by();
        match self.sending.get(id) {
            Some(half) => half_blocked_by(all, half),
            None => match self.fresh_send(id) {
                Some(half) => half_blocked_by(all, &half),
                None => None,
            },
        }
    }

    /// Which limit lets a write on a stream take nothing now, in the order in which `write` tests
    /// them: [`BlockedBy::Closed`] where the end isn't open, `Connection`, `SendWindow`, `Stream`.
    /// `None` where a write would take bytes, or be refused for another reason than
    /// [`WriteError::Blocked`](quic_streams_parts::WriteError::Blocked). Nothing changes.
    pub fn blocked_by(&self, is_open: bool, id: StreamId) -> Option<BlockedBy>
        ensures value { result ≡ blocked_by is_open self.now id }
        ensures some { (len : ℕ) → IsSome result → write_answer is_open self.now id len ≡ Err write_errors.Blocked }
        ensures none { (len : ℕ) → result ≡ None → write_answer is_open self.now id len ≢ Err write_errors.Blocked }
    {
        self.limit_on(is_open, id)
    }
}
