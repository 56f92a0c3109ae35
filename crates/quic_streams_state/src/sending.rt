//! What is sent on all streams.
ghost use Rattle.std.specs.Prelude.{◌≡◌, ◌≢◌, ◌<◌, ◌≤◌, [], take, Err, length, max, nat_le, false, IsSome, IsSomeAnd, IfSome, IfOk, IsOkAnd, OnOk, OnErr, Some, None, MatchOption, ◌∷◌};
ghost use Rattle.std.specs.Option.{option_copied};
ghost use Rattle.quic_send_buffer.specs.Source.{bytes_of};
ghost use Rattle.quic_streams_parts.specs.Table.{at};
ghost use Rattle.quic_streams_parts.specs.SendHalf.{new_send_half, room_on, was_said, written_to};
ghost use Rattle.quic_streams_parts.specs.declared.answers.WriteError.TheVariants as write_errors;
ghost use Rattle.quic_streams_state.specs.Blocking.{all_blocked_by};
ghost use Rattle.quic_streams_state.specs.Parts.{first_limit_in, room};
ghost use Rattle.quic_streams_state.specs.Telling.{is_writable, unblocked_at, passed, after_passed};
ghost use Rattle.quic_streams_state.specs.Sends.{blocked_in, blocked_fresh, accepted_in, chunks_grown_in, chunks_grown_half, finished_in, finished_half, reset_in};
ghost use Rattle.quic_streams_parts.specs.Dirs.{no_count};
ghost use Rattle.quic_streams_parts.specs.Queue.{no_queue, is_waiting, first_queued};
ghost use Rattle.quic_streams_halves.specs.Halves.{no_halves, has_place, with_half, changed};

mod frames;
mod renewed;
mod telling;

use crate::blocked::BlockedBy;
use bytes::Bytes;
use quic_streams_halves::{PendingStreams, SendHalves, is_own};
use quic_streams_parts::{ByDir, Send, WriteError, rank_of};
use quic_wire_core::{Dir, Side, StreamId, VarInt};
use std::alloc::{AllocError, Global};
use std::collections::VecDeque;
use std::marker::Model;

/// What is sent on all streams of one end (the sending side of quinn-proto's `StreamsState`).
#[derive(Drop)]
pub struct Sending {
    send: SendHalves,
    // What was accepted on all streams, and how far it may come.
    data_sent: u64,
    max_data: VarInt,
    // How much may be buffered on all streams.
    send_window: u64,
    // How far each kind of stream may come at first.
    initial_max_own: ByDir<VarInt>,
    initial_max_remote: VarInt,
    pending: PendingStreams,
    connection_blocked: VecDeque<StreamId>,
    // The limit that DATA_BLOCKED said last.
    said_limit: Option<u64>,
    alloc: Global,
}

impl Model for Sending {
    ghost use Rattle.quic_streams_state.specs.Parts as parts;

    ghost Value = { parts.Sending };

    ghost view = { λ s. record { halves = s.send; accepted = s.data_sent; limit = s.max_data; window = s.send_window; first_own = s.initial_max_own; first_remote = s.initial_max_remote; queue = s.pending; blocked = s.connection_blocked.items; said = s.said_limit } };
}

// Whether a half takes bytes, as far as its own limit goes.
fn takes_bytes(half: &Send) -> bool
    ensures { result ≡ is_writable (Some half.now) }
{
    half.is_ready() && half.offset() < half.max_data().into_inner()
}

impl Sending {
    /// Nothing was sent, nothing may be, and at most `send_window` bytes are buffered on all
    /// streams.
    pub fn new(alloc: Global, send_window: u64) -> Self
        ensures { result ≡ record { halves = no_halves; accepted = 0; limit = 0; window = send_window; first_own = no_count; first_remote = 0; queue = no_queue; blocked = []; said = None } }
    {
        Sending {
            send: SendHalves::new(alloc),
            data_sent: 0,
            max_data: VarInt::from_u32(0),
            send_window,
            initial_max_own: ByDir {
                bi: VarInt::from_u32(0),
                uni: VarInt::from_u32(0),
            },
            initial_max_remote: VarInt::from_u32(0),
            pending: PendingStreams::new(alloc),
            connection_blocked: VecDeque::new(alloc),
            said_limit: None,
            alloc,
        }
    }

    /// The peer's first limits: on the bytes of all streams, of each kind of stream that this end
    /// opens, and of two-way ones that the peer opens.
    pub fn set_limits(&mut self, max_data: VarInt, own: ByDir<VarInt>, remote: VarInt)
        ensures { self.new ≡ record self.old { limit = max_data; first_own = own; first_remote = remote } }
    {
        self.max_data = max_data;
        self.initial_max_own = own;
        self.initial_max_remote = remote;
    }

    /// The peer lets all streams come further.
    pub fn raise_max_data(&mut self, max_data: VarInt)
        ensures { self.new ≡ record self.old { limit = max self.old.limit max_data } }
    {
        if max_data.into_inner() > self.max_data.into_inner() {
            self.max_data = max_data;
        }
    }

    /// How far the peer lets all streams come.
    pub fn max_data(&self) -> VarInt
        ensures { result ≡ self.now.limit }
    {
        self.max_data
    }

    /// Whether all bytes that the peer lets come were accepted.
    pub fn is_used_up(&self) -> bool
        ensures { result ≡ nat_le self.now.limit self.now.accepted }
    {
        self.max_data.into_inner() <= self.data_sent
    }

    /// Whether how far the peer lets all streams come is the limit that DATA_BLOCKED said last.
    pub fn was_limit_said(&self) -> bool
        ensures { result ≡ was_said self.now.said self.now.limit }
    {
        match self.said_limit {
            Some(said) => said == self.max_data.into_inner(),
            None => false,
        }
    }

    /// Whether a stream has something to send.
    pub fn is_waiting(&self) -> bool
        ensures { result ≡ is_waiting self.now.queue }
    {
        self.pending.is_waiting()
    }

    /// The stream that stands first in the queue.
    pub fn first(&self) -> Option<StreamId>
        ensures { result ≡ first_queued self.now.queue }
    {
        self.pending.first()
    }

    /// The sending half of a stream, if it is in use.
    pub fn get(&self, id: StreamId) -> Option<&Send>
        ensures { option_copied result ≡ at self.now.halves.live id }
    {
        self.send.get(id)
    }

    /// Whether the sending half of a stream was ever in use.
    pub fn was_used(&self, side: Side, id: StreamId) -> bool
        ensures { result ≡ has_place side self.now.halves.places id }
    {
        self.send.was_used(side, id)
    }

    /// A sending half on which nothing was done, of a stream such as this one.
    pub fn fresh(&self, side: Side, id: StreamId) -> Send
        ensures { result ≡ new_send_half (first_limit_in self.now side id) }
    {
        let limit = if !is_own(side, id) {
            self.initial_max_remote
        } else {
            match id.dir() {
                Dir::Bi => self.initial_max_own.bi,
                Dir::Uni => self.initial_max_own.uni,
            }
        };
        Send::new(self.alloc, limit)
    }

    /// What limits and send window leave for all streams.
    pub fn room(&self) -> u64
        ensures { result ≡ room self.now }
    {
        let limited = self.max_data.into_inner().saturating_sub(self.data_sent);
        limited.min(self.send_window.saturating_sub(self.send.buffered()))
    }

    /// What blocks a write on any stream: the peer's limit, or else the send window.
    pub fn blocked_by(&self) -> Option<BlockedBy>
        ensures { result ≡ all_blocked_by self.now }
    {
        if self.max_data.into_inner() <= self.data_sent {
            Some(BlockedBy::Connection)
        } else if self.send_window <= self.send.buffered() {
            Some(BlockedBy::SendWindow)
        } else {
            None
        }
    }

    /// The end of a half that is in use has to go.
    ///
    /// # Errors
    ///
    /// - [`AllocError`]: an allocation fails, where the half stands nowhere in the queue. Nothing
    ///   changes.
    pub fn finish(&mut self, id: StreamId) -> Result<(), AllocError>
        ensures ok { OnOk result (self.new ≡ finished_in (at self.old.halves.live id) self.old id) }
        ensures err { OnErr result (self.new ≡ self.old) }
        ensures lacking { OnErr result (IsSomeAnd (at self.old.halves.live id) (λ h. h.place ≡ None)) }
    {
        self.send.finish(id, &mut self.pending)
    }

    /// Nothing more of a half that is in use goes.
    pub fn reset(&mut self, id: StreamId)
        ensures { self.new ≡ reset_in (at self.old.halves.live id) self.old id }
    {
        self.send.reset(id, &mut self.pending);
    }

    /// A half that isn't in use comes into use.
    ///
    /// # Errors
    ///
    /// - [`AllocError`]: an allocation fails. Nothing changes, and the half is dropped.
    pub fn add(&mut self, side: Side, id: StreamId, half: Send) -> Result<(), AllocError>
        requires none { at self.old.halves.live id ≡ None }
        requires empty { half.buffer.kept ≡ [] }
        ensures ok { OnOk result (self.new ≡ record self.old { halves = with_half side self.old.halves id half }) }
        ensures err { OnErr result (self.new ≡ self.old) }
    {
        // The proof reads that it is below 2^64.
        let _buffered = self.send.buffered();
        self.send.add(side, id, half)
    }

    /// The end of a half that isn't in use, and on which nothing was written, has to go.
    ///
    /// # Errors
    ///
    /// - [`AllocError`]: an allocation fails. Nothing changes, and the half is dropped.
    pub fn finish_fresh(&mut self, side: Side, id: StreamId, half: Send) -> Result<(), AllocError>
        requires none { at self.old.halves.live id ≡ None }
        requires empty { half.buffer.kept ≡ [] }
        requires place { half.place ≡ None }
        ensures ok { OnOk result (self.new ≡ finished_half half self.old side id) }
        ensures err { OnErr result (self.new ≡ self.old) }
    {
        let _buffered = self.send.buffered();
        let mut half = half;
        let place = self.pending.push(rank_of(half.priority()), id)?;
        half.finish();
        half.set_place(Some(place));
        if self.send.add(side, id, half).is_err() {
            self.pending.take_back(place);
            return Err(AllocError);
        }
        Ok(())
    }

    /// Sets the priority of a half that is in use.
    pub fn set_priority(&mut self, id: StreamId, priority: i32)
        ensures { self.new ≡ record self.old { halves = changed (λ h. record h { priority = priority }) self.old.halves id } }
    {
        self.send.set_priority(id, priority);
    }

    /// A copy of bytes, to be a piece.
    ///
    /// # Errors
    ///
    /// - [`AllocError`]: an allocation fails. No piece is made.
    pub fn piece(&mut self, bytes: &[u8]) -> Result<Bytes, AllocError>
        ensures piece { IfOk result (λ piece. piece ≡ bytes.now) }
        ensures same { self.new ≡ self.old }
    {
        self.send.piece(bytes)
    }

    /// The first `len` bytes of chunks go behind those that were written on a half that is in use,
    /// and wait to go.
    ///
    /// # Errors
    ///
    /// - [`AllocError`]: an allocation fails. Nothing changes.
    pub fn write_all(
        &mut self,
        id: StreamId,
        chunks: &[Bytes],
        len: usize,
    ) -> Result<(), AllocError>
        requires found { IsSome (at self.old.halves.live id) }
        requires reset { IfSome (at self.old.halves.live id) (λ h. h.reset ≡ None) }
        requires half { IfSome (at self.old.halves.live id) (λ h. len ≤ room_on h) }
        requires room { len ≤ room self.old }
        requires whole { len ≤ bytes_of chunks.now }
        ensures ok { OnOk result (self.new ≡ chunks_grown_in (at self.old.halves.live id) self.old id len chunks.now) }
        ensures err { OnErr result (self.new ≡ self.old) }
    {
        // The proof reads that all are below 2^64.
        let _bounds = (self.send.buffered(), self.max_data.into_inner());
        let _window = self.send_window;
        self.send.write_all(id, chunks, len, &mut self.pending)?;
        self.data_sent += len as u64;
        Ok(())
    }

    /// Writes as many of the bytes to a half as fit, where the end is open: how many.
    ///
    /// # Errors
    ///
    /// - [`WriteError::ClosedStream`]: the half isn't in use. Nothing changes.
    /// - [`WriteError::Blocked`]: the connection's limit or the send window leaves no room. Nothing
    ///   changes.
    /// - [`WriteError::ClosedStream`]: the half was finished or reset. Nothing changes.
    /// - [`WriteError::Stopped`]: the peer sent STOP_SENDING for the stream. Nothing changes.
    /// - [`WriteError::Blocked`]: the half's own limit leaves no room. Nothing changes.
    /// - [`WriteError::Memory`]: an allocation fails, where some byte fits. Nothing changes.
    pub fn write(&mut self, id: StreamId, bytes: &[u8]) -> Result<usize, WriteError>
        ensures answer { result ≢ Err write_errors.Memory → result ≡ written_to (at self.old.halves.live id) (room self.old) (length bytes.now) }
        ensures ok { IfOk result (λ n. self.new ≡ accepted_in (at self.old.halves.live id) self.old id (take n bytes.now)) }
        ensures err { OnErr result (self.new ≡ self.old) }
        ensures lacking { result ≡ Err write_errors.Memory → IsOkAnd (written_to (at self.old.halves.live id) (room self.old) (length bytes.now)) (λ n. 0 < n) }
    {
        // The proof reads that all are below 2^64.
        let _bounds = (self.send.buffered(), self.max_data.into_inner());
        let _window = self.send_window;
        let room = self.room();
        let taken = self.send.write(id, bytes, room, &mut self.pending)?;
        self.data_sent += taken as u64;
        Ok(taken)
    }

    /// The first `len` bytes of chunks go behind those on a half that isn't in use, and on which
    /// nothing was written, and wait to go.
    ///
    /// # Errors
    ///
    /// - [`AllocError`]: an allocation fails. Nothing changes, and the half is dropped.
    pub fn write_fresh(
        &mut self,
        side: Side,
        id: StreamId,
        half: Send,
        chunks: &[Bytes],
        len: usize,
    ) -> Result<(), AllocError>
        requires none { at self.old.halves.live id ≡ None }
        requires empty { half.buffer.kept ≡ [] }
        requires place { half.place ≡ None }
        requires reset { half.reset ≡ None }
        requires half { len ≤ room_on half }
        requires room { len ≤ room self.old }
        requires whole { len ≤ bytes_of chunks.now }
        ensures ok { OnOk result (self.new ≡ chunks_grown_half half self.old side id len chunks.now) }
        ensures err { OnErr result (self.new ≡ self.old) }
    {
        // The proof reads that all are below 2^64.
        let _bounds = (self.send.buffered(), self.max_data.into_inner());
        let _window = self.send_window;
        let mut half = half;
        half.write_all(chunks, len)?;
        let place = self.pending.push(rank_of(half.priority()), id)?;
        half.set_place(Some(place));
        if self.send.add(side, id, half).is_err() {
            self.pending.take_back(place);
            return Err(AllocError);
        }
        self.data_sent += len as u64;
        Ok(())
    }

    /// A half that is in use is among those whose write the connection blocked.
    ///
    /// # Errors
    ///
    /// - [`AllocError`]: an allocation fails, where the half isn't among them yet. Nothing changes.
    pub fn block(&mut self, id: StreamId) -> Result<(), AllocError>
        ensures ok { OnOk result (self.new ≡ blocked_in (at self.old.halves.live id) self.old id) }
        ensures err { OnErr result (self.new ≡ self.old) }
        ensures lacking { OnErr result (IsSomeAnd (at self.old.halves.live id) (λ h. h.blocked ≡ false)) }
    {
        let Some(half) = self.send.get(id) else {
            return Ok(());
        };
        if half.is_blocked() {
            return Ok(());
        }
        self.connection_blocked.push_front(id)?;
        self.send.set_blocked(id, true);
        Ok(())
    }

    /// A half that isn't in use, and on which nothing was written, is among those whose write the
    /// connection blocked.
    ///
    /// # Errors
    ///
    /// - [`AllocError`]: an allocation fails. Nothing changes, and the half is dropped.
    pub fn block_fresh(&mut self, side: Side, id: StreamId, half: Send) -> Result<(), AllocError>
        requires none { at self.old.halves.live id ≡ None }
        requires empty { half.buffer.kept ≡ [] }
        ensures ok { OnOk result (self.new ≡ blocked_fresh half self.old side id) }
        ensures err { OnErr result (self.new ≡ self.old) }
    {
        let _buffered = self.send.buffered();
        let mut half = half;
        half.set_blocked(true);
        self.connection_blocked.push_front(id)?;
        if self.send.add(side, id, half).is_err() {
            let _ = self.connection_blocked.pop_front();
            return Err(AllocError);
        }
        Ok(())
    }

    /// The peer stopped a half that is in use.
    pub fn set_stop_reason(&mut self, id: StreamId, code: VarInt)
        ensures { self.new ≡ record self.old { halves = changed (λ h. record h { stopped = Some code }) self.old.halves id } }
    {
        self.send.set_stop_reason(id, code);
    }

    // The stream whose write the connection blocked last, which is no longer among them, and
    // whether it takes bytes.
    fn pop_blocked(&mut self) -> Option<(StreamId, bool)>
        ensures { MatchOption result ((self.old.blocked ≡ []) × (self.new ≡ self.old)) (λ e. (self.old.blocked ≡ e.0 ∷ self.new.blocked) × (e.1 ≡ is_writable (at self.old.halves.live e.0)) × (self.new ≡ record self.old { blocked = self.new.blocked; halves = record self.old.halves { live = unblocked_at (at self.old.halves.live e.0) self.old.halves.live e.0 } })) }
    {
        let id = self.connection_blocked.pop_front()?;
        let writable = match self.send.get(id) {
            Some(half) => takes_bytes(half),
            None => false,
        };
        self.send.set_blocked(id, false);
        Some((id, writable))
    }

    /// The stream that takes bytes again, of those whose write the connection blocked the latest;
    /// those that were blocked later, and take none, are no longer among them.
    pub fn pop_writable(&mut self) -> Option<StreamId>
        ensures answer { result ≡ (passed self.old.blocked self.old.halves.live).found }
        ensures new { self.new ≡ after_passed self.old (passed self.old.blocked self.old.halves.live) }
    {
        'blocked: while let Some((id, writable)) = self.pop_blocked() {
            if writable {
                return Some(id);
            }
        }
        None
    }
}
