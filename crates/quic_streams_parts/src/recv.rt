//! The receiving part of a stream.
ghost use Rattle.std.specs.Prelude.{◌≡◌, ◌≢◌, ◌<◌, ◌≤◌, ◌^◌, ◌+◌, ◌-◌, nat_le, nat_lt, true, false, length, Some, None, IfOk, OnOk, OnErr, Ok, Err, ◌⊎◌, if◌then◌else◌};
ghost use Rattle.std.specs.Option.{is_some};
ghost use Rattle.std.specs.Result.{is_err};
ghost use Rattle.quic_wire.specs.FrameView.{stream_view};
ghost use Rattle.quic_assembler.specs.Arrived.{given_by, bytes_read_of, after_read, is_next_in, cuts};
ghost use Rattle.quic_streams_parts.specs.Lacking.{FrameMayLack, read_may_lack};
ghost use Rattle.quic_streams_parts.specs.RecvHalf.{new_recv_half, credit, raised_on, limit_grew, takes_limits, greatest_offset, least_growth, end_of, breaks_final, with_frame, with_offsets_of, seen_to, reset_by, stopped_now, most_pieces, has_too_many, is_illegal, begun, next_of, read_on, half_after_next, is_read_up};
ghost use Rattle.quic_streams_parts.specs.declared.answers.ReadError.TheVariants as read_errors;

use crate::answers::ReadError;
use quic_assembler::{Assembler, Chunk, IllegalOrderedRead, MOST_PIECES};
use quic_copies::Copies;
use quic_wire::frame::Stream;
use quic_wire_core::VarInt;
use std::alloc::{AllocError, Global};
use std::marker::Model;

/// The greatest offset of a stream, and the greatest limit on bytes (RFC 9000, section 4.1).
pub const GREATEST_OFFSET: u64 = (1 << 62) - 1;

/// By how much the limit of a window or of a count has to grow so that the peer is told.
pub fn least_growth(window: u64) -> u64
    ensures value { result ≡ least_growth window }
    ensures some { 0 < result }
{
    (window / 8).max(1)
}

// How many pieces of a stream may wait where so many bytes more than were read may come on it: one
// for each 1,024 of them, and `MOST_PIECES` at least.
fn most_pieces(stream_receive_window: u64) -> u64
    ensures { result ≡ most_pieces stream_receive_window }
{
    (MOST_PIECES as u64).max(stream_receive_window / 1024)
}

// The final size that is known behind bytes up to an offset, with the end or without.
fn final_after(known: Option<u64>, end: u64, fin: bool) -> Option<u64>
    ensures { result ≡ (if fin then Some end else known) }
{
    if fin { Some(end) } else { known }
}

/// The receiving part of a stream (quinn-proto's `Recv`).
#[derive(Drop)]
pub struct Recv {
    assembler: Assembler,
    // The offset behind the greatest that arrived.
    end: u64,
    final_offset: Option<u64>,
    // How far the peer was told that it may come.
    sent_max_stream_data: u64,
    stopped: bool,
    // The code with which the peer reset it.
    reset: Option<VarInt>,
}

impl Model for Recv {
    ghost use Rattle.quic_streams_parts.specs.RecvHalf.{RecvHalf};
    ghost use Rattle.quic_streams_parts.specs.RecvBounds.{IsWithin};

    ghost Value = { RecvHalf };

    ghost view = { λ h. record { arrived = h.assembler; seen = h.end; final = h.final_offset; announced = h.sent_max_stream_data; stopped = h.stopped; reset = h.reset } };

    ghost invariant = { λ h. IsWithin h.assembler h.end h.final_offset h.sent_max_stream_data };
}

impl Recv {
    /// Nothing has come.
    pub fn new(alloc: Global, max_data: u64) -> Self
        requires { max_data ≤ greatest_offset }
        ensures { result ≡ new_recv_half max_data }
    {
        Recv {
            assembler: Assembler::new(alloc),
            end: 0,
            final_offset: None,
            sent_max_stream_data: max_data,
            stopped: false,
            reset: None,
        }
    }

    /// The offset behind the greatest that arrived.
    pub fn end(&self) -> u64
        ensures value { result ≡ self.now.seen }
        ensures small { result ≤ greatest_offset }
    {
        self.end
    }

    /// The final size, where it is known.
    pub fn final_offset(&self) -> Option<u64>
        ensures { result ≡ self.now.final }
    {
        self.final_offset
    }

    /// How far the peer was told that it may come.
    pub fn max_data(&self) -> u64
        ensures value { result ≡ self.now.announced }
        ensures small { result ≤ greatest_offset }
    {
        self.sent_max_stream_data
    }

    /// Whether this end stopped it.
    pub fn is_stopped(&self) -> bool
        ensures { result ≡ self.now.stopped }
    {
        self.stopped
    }

    /// The code with which the peer reset it.
    pub fn reset_code(&self) -> Option<VarInt>
        ensures { result ≡ self.now.reset }
    {
        self.reset
    }

    /// How many bytes count as consumed.
    pub fn credit(&self) -> u64
        ensures value { result ≡ credit self.now }
        ensures small { result ≤ 2 ^ 62 }
        ensures within { result ≤ self.now.seen }
    {
        if self.stopped || self.reset.is_some() {
            self.end
        } else {
            self.assembler.bytes_read()
        }
    }

    /// Whether the peer may still be told how far it may come.
    pub fn can_send_flow_control(&self) -> bool
        ensures { result ≡ takes_limits self.now }
    {
        !(self.stopped || self.final_offset.is_some())
    }

    /// How far the peer may come with such a window.
    pub fn max_stream_data(&self, window: u64) -> u64
        requires { window ≤ greatest_offset }
        ensures value { result ≡ raised_on window self.now }
        ensures small { result ≤ greatest_offset }
    {
        (self.assembler.bytes_read() + window).min(GREATEST_OFFSET)
    }

    /// Whether its limit grew so far that the peer is told.
    pub fn limit_grew(&self, window: u64) -> bool
        requires { window ≤ greatest_offset }
        ensures { result ≡ limit_grew window self.now }
    {
        self.can_send_flow_control()
            && self.sent_max_stream_data + least_growth(window) <= self.max_stream_data(window)
    }

    /// The peer is told how far it may come.
    pub fn set_max_data(&mut self, max_data: u64)
        requires { max_data ≤ greatest_offset }
        ensures { self.new ≡ record self.old { announced = max_data } }
    {
        self.sent_max_stream_data = max_data;
    }

    /// Whether bytes up to an offset, with the end or without, go past a known final size, name
    /// another one, or one below an offset that arrived (RFC 9000, section 4.5).
    pub fn breaks_final(&self, end: u64, fin: bool) -> bool
        ensures value { result ≡ breaks_final self.now.final self.now.seen end fin }
        ensures behind { result ≡ false → fin ≡ true → self.now.seen ≤ end }
    {
        match self.final_offset {
            Some(size) => size < end || fin && end != size,
            None => fin && end < self.end,
        }
    }

    /// Keeps a frame's bytes, which break no rule on its final size, copied by `copies` where they
    /// come in order.
    ///
    /// # Errors
    ///
    /// - [`AllocError`]: an allocation fails, where the frame brings a byte that is new or segments
    ///   are to be joined. Nothing changes.
    // Inline, as each STREAM frame that comes goes here.
    #[inline(always)]
    pub fn insert(&mut self, frame: &Stream<'_>, copies: &mut Copies) -> Result<(), AllocError>
        requires end { end_of (stream_view frame.now) < 2 ^ 62 }
        requires size { breaks_final self.old.final self.old.seen (end_of (stream_view frame.now)) frame.now.fin ≡ false }
        ensures ok { OnOk result (self.new ≡ with_frame self.old (stream_view frame.now)) }
        ensures err { OnErr result (self.new ≡ self.old) }
        ensures lacking { OnErr result (FrameMayLack self.old.arrived (stream_view frame.now)) }
    {
        let end = frame.offset + frame.data.len() as u64;
        self.assembler.insert(frame.offset, frame.data, copies)?;
        self.end = self.end.max(end);
        self.final_offset = final_after(self.final_offset, end, frame.fin);
        Ok(())
    }

    /// Takes a frame's offsets alone, which break no rule on its final size.
    pub fn skip(&mut self, frame: &Stream<'_>)
        requires end { end_of (stream_view frame.now) < 2 ^ 62 }
        requires size { breaks_final self.old.final self.old.seen (end_of (stream_view frame.now)) frame.now.fin ≡ false }
        ensures { self.new ≡ with_offsets_of self.old (stream_view frame.now) }
    {
        let end = frame.offset + frame.data.len() as u64;
        self.end = self.end.max(end);
        self.final_offset = final_after(self.final_offset, end, frame.fin);
    }

    /// The peer reset it with this code and final size.
    pub fn reset(&mut self, code: VarInt, size: u64)
        requires small { size ≤ greatest_offset }
        requires behind { self.old.seen ≤ size }
        ensures { self.new ≡ reset_by self.old code size }
    {
        self.assembler.clear();
        self.end = size;
        self.final_offset = Some(size);
        self.reset = Some(code);
    }

    /// The peer reset it where this end stopped it.
    pub fn end_at(&mut self, size: u64)
        requires small { size ≤ greatest_offset }
        requires behind { self.old.seen ≤ size }
        ensures { self.new ≡ record self.old { seen = size; final = Some size } }
    {
        self.end = size;
        self.final_offset = Some(size);
    }

    /// This end stops it.
    pub fn stop(&mut self)
        ensures { self.new ≡ stopped_now self.old }
    {
        self.assembler.clear();
        self.stopped = true;
    }

    /// Whether more pieces wait than may, where so many bytes more than were read may come on the
    /// stream.
    pub fn has_too_many_pieces(&self, stream_receive_window: u64) -> bool
        ensures { result ≡ has_too_many stream_receive_window self.now }
    {
        self.assembler.runs() as u64 > most_pieces(stream_receive_window)
    }

    /// Whether a read may not begin, in order or not: one in order, behind one that wasn't.
    pub fn refuses_read(&self, ordered: bool) -> bool
        ensures { result ≡ is_illegal self.now ordered }
    {
        ordered && self.assembler.is_unordered()
    }

    /// A read begins, in order or not.
    ///
    /// # Errors
    ///
    /// - [`IllegalOrderedRead`]: the read is in order, and came after one that wasn't. Nothing
    ///   changes.
    pub fn begin(&mut self, ordered: bool) -> Result<(), IllegalOrderedRead>
        ensures refused { is_err result ≡ is_illegal self.old ordered }
        ensures new { self.new ≡ begun self.old ordered }
        ensures err { OnErr result (self.new ≡ self.old) }
    {
        self.assembler.ensure_ordering(ordered)
    }

    // Whether all bytes up to the final size are read.
    fn is_read_up(&self) -> bool
        ensures { result ≡ is_read_up self.now.final (bytes_read_of self.now.arrived) }
    {
        match self.final_offset {
            Some(size) => size == self.assembler.bytes_read(),
            None => false,
        }
    }

    // Reads what waits.
    fn read(&mut self, max: usize) -> Result<Option<Chunk>, AllocError>
        ensures chunk { IfOk result (λ chunk. chunk ≡ given_by self.old.arrived max) }
        ensures ok { OnOk result (self.new ≡ record self.old { arrived = after_read self.old.arrived max }) }
        ensures err { OnErr result (self.new ≡ self.old) }
        ensures lacking { OnErr result (read_may_lack self.old.arrived max ≡ true) }
    {
        self.assembler.read(max)
    }

    /// Reads on, unless the peer reset it. An answer without bytes changes nothing.
    ///
    /// # Errors
    ///
    /// - [`ReadError::Reset`]: the peer reset it. Nothing changes.
    /// - [`ReadError::Blocked`]: no byte waits that may be given, and not all up to the final size
    ///   were read. Nothing changes.
    /// - [`ReadError::Memory`]: an allocation fails. Nothing changes.
    pub fn next(&mut self, max: usize) -> Result<Option<Chunk>, ReadError>
        ensures answer { result ≢ Err read_errors.Memory → result ≡ next_of self.old max }
        ensures new { self.new ≡ half_after_next result self.old max }
        ensures lacking { result ≡ Err read_errors.Memory → read_may_lack self.old.arrived max ≡ true }
    {
        if let Some(code) = self.reset {
            return Err(ReadError::Reset(code));
        }
        match self.read(max) {
            Ok(Some(chunk)) => Ok(Some(chunk)),
            Ok(None) => {
                if self.is_read_up() {
                    Ok(None)
                } else {
                    Err(ReadError::Blocked)
                }
            }
            Err(_) => Err(ReadError::Memory),
        }
    }
}
