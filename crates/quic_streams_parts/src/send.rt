//! The sending part of a stream.
ghost use Rattle.std.specs.Prelude.{◌≡◌, ◌+◌, ◌<◌, ◌≤◌, ◌-◌, ◌++◌, ◌^◌, length, false, Some, None, OnOk, OnErr, pos, vec_len, vec_capacity};
ghost use Rattle.std.specs.Option.{is_some};
ghost use Rattle.quic_wire.specs.Writing.{stream_spelling, width_of};
ghost use Rattle.quic_send_buffer.specs.Buffered.{writes_length};
ghost use Rattle.quic_send_buffer.specs.Source.{cut_to};
ghost use Rattle.quic_streams_parts.specs.Queue.{rank_of};
ghost use Rattle.quic_streams_parts.specs.SendHalf.{new_send_half, written_on, room_on, is_ready, has_pending, is_acked, grown_all, ended, reset_now, reaches_end, frame_of, frame_counts, frame_meta, HasFrame, HasSent, meta_of, half_after, half_acked, half_lost, was_said};

use crate::pending_queue::Place;
use bytes::Bytes;
use quic_send_buffer::{SendBuffer, StreamMeta};
use quic_wire::frame::{Stream, put_stream_header};
use quic_wire_core::{StreamId, VarInt};
use std::alloc::{AllocError, Global};
use std::marker::Model;
use std::ops::Range;

/// What a STREAM frame says of its bytes.
#[derive(Drop)]
pub struct FrameMeta {
    /// The offsets of the bytes.
    pub offsets: Range<u64>,
    /// Whether the stream ends behind them.
    pub fin: bool,
    /// Whether their length is written.
    pub has_length: bool,
}

/// The rank of a priority: the lowest rank goes first.
pub fn rank_of(priority: i32) -> u64
    ensures { result ≡ rank_of priority }
{
    (i64::from(i32::MAX) - i64::from(priority)) as u64
}

/// The sending part of a stream (quinn-proto's `Send`).
#[derive(Drop)]
pub struct Send {
    pending: SendBuffer,
    // How far the peer lets it come.
    max_data: VarInt,
    priority: i32,
    finished: bool,
    // Whether the end has to go yet, and whether it is acknowledged.
    fin_pending: bool,
    fin_acked: bool,
    // The final size that a reset told.
    reset: Option<u64>,
    // The code with which the peer stopped it.
    stop_reason: Option<VarInt>,
    // Whether it is among those whose write the connection blocked.
    connection_blocked: bool,
    // The limit that STREAM_DATA_BLOCKED said last.
    said_limit: Option<u64>,
    place: Option<Place>,
    alloc: Global,
}

impl Model for Send {
    ghost use Rattle.quic_streams_parts.specs.SendHalf.{SendHalf, is_size};
    ghost use Rattle.std.specs.Prelude.{IsTrue, ◌≡◌, true};

    ghost Value = { SendHalf };

    ghost view = { λ h. record { buffer = h.pending; limit = h.max_data; priority = h.priority; finished = h.finished; end_waits = h.fin_pending; end_acked = h.fin_acked; reset = h.reset; stopped = h.stop_reason; blocked = h.connection_blocked; said = h.said_limit; place = h.place } };

    // A final size is below 2^62.
    ghost invariant = { λ h. is_size h.reset ≡ true };
}

impl Send {
    /// Nothing is written.
    pub fn new(alloc: Global, max_data: VarInt) -> Self
        ensures { result ≡ new_send_half max_data }
    {
        Send {
            pending: SendBuffer::new(alloc),
            max_data,
            priority: 0,
            finished: false,
            fin_pending: false,
            fin_acked: false,
            reset: None,
            stop_reason: None,
            connection_blocked: false,
            said_limit: None,
            place: None,
            alloc,
        }
    }

    /// How many bytes were written.
    pub fn offset(&self) -> u64
        ensures value { result ≡ written_on self.now }
        ensures small { result < 2 ^ 62 }
    {
        match self.reset {
            Some(size) => size,
            None => self.pending.offset(),
        }
    }

    /// How far the peer lets it come.
    pub fn max_data(&self) -> VarInt
        ensures { result ≡ self.now.limit }
    {
        self.max_data
    }

    /// How many bytes the peer still lets come.
    pub fn room(&self) -> u64
        ensures { result ≡ room_on self.now }
    {
        self.max_data.into_inner().saturating_sub(self.offset())
    }

    /// Whether more may be written: neither its end nor a reset was told.
    pub fn is_ready(&self) -> bool
        ensures { result ≡ is_ready self.now }
    {
        !self.finished && self.reset.is_none()
    }

    /// Whether it has something to send: bytes that are lost or were never sent, or its end.
    pub fn has_pending(&self) -> bool
        ensures { result ≡ has_pending self.now }
    {
        self.pending.has_unsent_data() || self.fin_pending
    }

    /// Whether all of it is acknowledged, its end too.
    pub fn is_acked(&self) -> bool
        ensures { result ≡ is_acked self.now }
    {
        self.reset.is_none() && self.finished && self.fin_acked && self.pending.is_fully_acked()
    }

    /// How many bytes are kept until they are acknowledged.
    pub fn buffered(&self) -> u64
        ensures value { result ≡ length self.now.buffer.kept }
        ensures small { result < 2 ^ 62 }
    {
        let _written = self.pending.offset();
        self.pending.buffered() as u64
    }

    /// The final size that a reset told.
    pub fn reset_size(&self) -> Option<u64>
        ensures { result ≡ self.now.reset }
    {
        self.reset
    }

    /// The code with which the peer stopped it.
    pub fn stop_reason(&self) -> Option<VarInt>
        ensures { result ≡ self.now.stopped }
    {
        self.stop_reason
    }

    /// Its priority.
    pub fn priority(&self) -> i32
        ensures { result ≡ self.now.priority }
    {
        self.priority
    }

    /// Where it stands in the queue.
    pub fn place(&self) -> Option<Place>
        ensures { result ≡ self.now.place }
    {
        self.place
    }

    /// Whether it is among those whose write the connection blocked.
    pub fn is_blocked(&self) -> bool
        ensures { result ≡ self.now.blocked }
    {
        self.connection_blocked
    }

    /// Whether its limit is the one that STREAM_DATA_BLOCKED said last.
    pub fn was_limit_said(&self) -> bool
        ensures { result ≡ was_said self.now.said self.now.limit }
    {
        match self.said_limit {
            Some(said) => said == self.max_data.into_inner(),
            None => false,
        }
    }

    /// Sets how far the peer lets it come.
    pub fn set_max_data(&mut self, max_data: VarInt)
        ensures { self.new ≡ record self.old { limit = max_data } }
    {
        self.max_data = max_data;
    }

    /// Sets its priority.
    pub fn set_priority(&mut self, priority: i32)
        ensures { self.new ≡ record self.old { priority = priority } }
    {
        self.priority = priority;
    }

    /// The peer stopped it.
    pub fn set_stop_reason(&mut self, code: VarInt)
        ensures { self.new ≡ record self.old { stopped = Some code } }
    {
        self.stop_reason = Some(code);
    }

    /// Sets whether it is among those whose write the connection blocked.
    pub fn set_blocked(&mut self, blocked: bool)
        ensures { self.new ≡ record self.old { blocked = blocked } }
    {
        self.connection_blocked = blocked;
    }

    /// STREAM_DATA_BLOCKED says this limit.
    pub fn set_said_limit(&mut self, limit: u64)
        ensures { self.new ≡ record self.old { said = Some limit } }
    {
        self.said_limit = Some(limit);
    }

    /// Sets where it stands in the queue.
    pub fn set_place(&mut self, place: Option<Place>)
        ensures { self.new ≡ record self.old { place = place } }
    {
        self.place = place;
    }

    /// Takes over the first `len` bytes of chunks, each chunk as a piece that shares its bytes.
    ///
    /// # Errors
    ///
    /// - [`AllocError`]: an allocation fails, where `len` isn't 0. Nothing changes.
    // Inline, so that a new half needn't lie in memory for it.
    #[inline(always)]
    pub fn write_all(&mut self, chunks: &[Bytes], len: usize) -> Result<(), AllocError>
        requires reset { self.old.reset ≡ None }
        requires room { len ≤ room_on self.old }
        ensures ok { OnOk result (self.new ≡ grown_all self.old (cut_to len chunks.now)) }
        ensures err { OnErr result (self.new ≡ self.old) }
        ensures lacking { OnErr result (0 < len) }
    {
        // The proof reads that both are below 2^62.
        let _bounds = (self.pending.offset(), self.max_data.into_inner());
        self.pending.write_all(chunks, len)
    }

    /// Nothing more is written, and the end has to go.
    pub fn finish(&mut self)
        ensures { self.new ≡ ended self.old }
    {
        self.finished = true;
        self.fin_pending = true;
    }

    /// Nothing more of it goes, and nothing of it is kept.
    pub fn reset(&mut self)
        ensures { self.new ≡ reset_now self.old }
    {
        let size = self.offset();
        self.pending = SendBuffer::new(self.alloc);
        self.fin_pending = false;
        self.reset = Some(size);
    }

    /// A frame of it was acknowledged: its bytes never go again.
    ///
    /// # Errors
    ///
    /// - [`AllocError`]: an allocation fails, where some of the frame was sent. Nothing changes.
    // Inline, as each STREAM frame that is acknowledged comes here.
    #[inline(always)]
    pub fn ack(&mut self, frame: &StreamMeta) -> Result<(), AllocError>
        ensures ok { OnOk result (self.new ≡ half_acked self.old frame.now) }
        ensures err { OnErr result (self.new ≡ self.old) }
        ensures lacking { OnErr result (HasSent self.old frame.now) }
        ensures idle { has_pending self.old ≡ false → has_pending (half_acked self.old frame.now) ≡ false }
    {
        // The proof reads that what is kept is lawful.
        let _written = self.pending.offset();
        self.pending.ack(frame.offsets.start..frame.offsets.end)?;
        self.fin_acked = self.fin_acked || frame.fin;
        Ok(())
    }

    /// A frame of it was lost: what isn't acknowledged of it goes again (RFC 9000, section 13.3),
    /// and its end even where another frame brought it.
    ///
    /// # Errors
    ///
    /// - [`AllocError`]: an allocation fails, where some of the frame was sent. Nothing changes.
    pub fn retransmit(&mut self, frame: &StreamMeta) -> Result<(), AllocError>
        ensures ok { OnOk result (self.new ≡ half_lost self.old frame.now) }
        ensures err { OnErr result (self.new ≡ self.old) }
        ensures lacking { OnErr result (HasSent self.old frame.now) }
    {
        self.pending
            .retransmit(frame.offsets.start..frame.offsets.end)?;
        self.fin_pending = self.fin_pending || frame.fin;
        Ok(())
    }

    // Whether a frame up to an offset has the end.
    fn reaches_end(&self, end: u64) -> bool
        ensures { result ≡ reaches_end self.now end }
    {
        self.reset.is_none() && self.finished && end == self.pending.offset()
    }

    /// Whether the next frame brings something, with so much room behind its type and id: a byte,
    /// or the end.
    pub fn frame_counts(&self, max_len: usize) -> bool
        ensures { result ≡ frame_counts self.now max_len }
    {
        let (offsets, _) = self.pending.next_transmit(max_len);
        offsets.start < offsets.end || self.reaches_end(offsets.end)
    }

    // Takes what the next frame says, with so much room behind its type and id.
    fn poll(&mut self, max_len: usize) -> FrameMeta
        ensures meta { result ≡ frame_meta self.old max_len }
        ensures within { HasFrame self.old max_len }
        ensures new { self.new ≡ half_after self.old max_len }
    {
        // The proof reads that it is below 2^62.
        let _written = self.pending.offset();
        let (offsets, has_length) = self.pending.poll_transmit(max_len);
        let fin = self.reaches_end(offsets.end);
        self.fin_pending = self.fin_pending && !fin;
        FrameMeta {
            offsets,
            fin,
            has_length,
        }
    }

    /// Appends the next frame, with so much room behind its type and id, 16 bytes at least, and
    /// takes it: what it carries.
    pub fn put_frame(&mut self, id: StreamId, max_len: usize, out: &mut Vec<u8>) -> StreamMeta
        requires some { 16 ≤ max_len }
        requires room { vec_len out.old + (1 + width_of id) + max_len ≤ vec_capacity out.old }
        ensures items { out.new.items ≡ out.old.items ++ stream_spelling (writes_length self.old.buffer max_len) (frame_of id self.old max_len) }
        ensures len { vec_len out.new ≤ vec_len out.old + (1 + width_of id) + max_len }
        ensures capacity { vec_capacity out.old ≤ vec_capacity out.new }
        ensures new { self.new ≡ half_after self.old max_len }
        ensures meta { result ≡ meta_of (frame_of id self.old max_len) }
    {
        let meta = self.poll(max_len);
        let (start, end) = (meta.offsets.start, meta.offsets.end);
        let frame = Stream {
            id,
            offset: start,
            fin: meta.fin,
            data: &[],
        };
        put_stream_header(out, &frame, (end - start) as usize, meta.has_length);
        self.pending.put(start..end, out);
        StreamMeta {
            id,
            offsets: start..end,
            fin: meta.fin,
        }
    }
}
