//! How far the peer lets this end's streams come.
ghost use Rattle.std.specs.Prelude.{◌≡◌, [], false, true, OnOk, OnErr, IsSome, IsSomeAnd, None};
ghost use Rattle.quic_streams_parts.specs.Table.{at};
ghost use Rattle.quic_streams_parts.specs.Answered.{AnswersBreach, UnlessMemory, OnMemory};
ghost use Rattle.quic_streams_state.specs.State.{sending_half, with_send};
ghost use Rattle.quic_streams_state.specs.Opening.{opened_by, sending_refusal};
ghost use Rattle.quic_streams_state.specs.Taking.{after_max_stream_data, limit_at, is_used_up, writable_again, noted_at, sending_for};
ghost use Rattle.quic_streams_state.specs.SendLacking.{limit_may_lack};

use crate::state::StreamsState;
use quic_streams_parts::{ReceivedError, Send, StreamEvent};
use quic_wire_core::{StreamId, VarInt};
use std::alloc::AllocError;

// Whether the limit of a half is used up, on which more may be written.
fn is_used_up(half: &Send) -> bool
    ensures { result ≡ is_used_up half.now }
{
    half.is_ready() && half.offset() == half.max_data().into_inner()
}

impl StreamsState {
    /// Takes MAX_STREAM_DATA (RFC 9000, section 19.10), which never lowers a limit: a stream whose
    /// limit was used up takes bytes again, of which the application is told at once, or once the
    /// connection has room.
    ///
    /// # Errors
    ///
    /// - [`ReceivedError::Breach`] with `StreamState`: only the peer sends on the stream, or it is
    ///   one of this endpoint that isn't opened. Nothing changes.
    /// - [`ReceivedError::Breach`] with `StreamLimit`: the stream lies beyond the count that the
    ///   peer may open. Nothing changes.
    /// - [`ReceivedError::Memory`]: an allocation fails, of room to note a stream that takes bytes
    ///   again, or to bring its sending half into use. The stream is open by then, and nothing else
    ///   changed.
    pub fn received_max_stream_data(
        &mut self,
        id: StreamId,
        limit: VarInt,
    ) -> Result<(), ReceivedError>
        ensures answer { AnswersBreach result (sending_refusal self.old id) }
        ensures new { UnlessMemory result (self.new ≡ after_max_stream_data self.old id limit) }
        ensures memory { OnMemory result (self.new ≡ opened_by self.old id) }
        ensures lacking { OnMemory result (IsSomeAnd (sending_for self.old id) (λ h. limit_may_lack self.old id limit h ≡ true)) }
    {
        if let Some(breach) = self.sending_refusal(id) {
            return Err(ReceivedError::Breach(breach));
        }
        self.open_by(id);
        match self.raise_limit(id, limit) {
            Ok(()) => Ok(()),
            Err(_) => Err(ReceivedError::Memory),
        }
    }

    // The peer lets a stream come so far.
    fn raise_limit(&mut self, id: StreamId, limit: VarInt) -> Result<(), AllocError>
        ensures ok { OnOk result (self.new ≡ limit_at (sending_half self.old id) self.old id limit) }
        ensures err { OnErr result (self.new ≡ self.old) }
        ensures lacking { OnErr result (IsSomeAnd (sending_half self.old id) (λ h. limit_may_lack self.old id limit h ≡ true)) }
    {
        if let Some(half) = self.sending.get(id) {
            if limit.into_inner() <= half.max_data().into_inner() {
                return Ok(());
            }
            if is_used_up(half) {
                self.note_writable(id)?;
            }
            self.sending.set_max_data(id, limit);
            return Ok(());
        }
        let Some(mut half) = self.fresh_send(id) else {
            return Ok(());
        };
        if limit.into_inner() <= half.max_data().into_inner() {
            return Ok(());
        }
        let used_up = is_used_up(&half);
        half.set_max_data(limit);
        if used_up {
            return self.add_writable(id, half);
        }
        self.sending.add(self.side, id, half)
    }

    // A stream whose sending half is in use takes bytes again: the application is told so at once,
    // or once the connection has room.
    fn note_writable(&mut self, id: StreamId) -> Result<(), AllocError>
        requires { IsSome (at self.old.sending.halves.live id) }
        ensures ok { OnOk result (self.new ≡ noted_at (at self.old.sending.halves.live id) self.old id) }
        ensures err { OnErr result (self.new ≡ self.old) }
    {
        if self.sending.room() == 0 {
            return self.sending.block(id);
        }
        self.events.push(StreamEvent::Writable { id })
    }

    // The same of a sending half that comes into use by this.
    fn add_writable(&mut self, id: StreamId, half: Send) -> Result<(), AllocError>
        requires none { at self.old.sending.halves.live id ≡ None }
        requires empty { half.buffer.kept ≡ [] }
        requires blocked { half.blocked ≡ false }
        ensures ok { OnOk result (self.new ≡ writable_again (with_send self.old id half) id half) }
        ensures err { OnErr result (self.new ≡ self.old) }
    {
        if self.sending.room() == 0 {
            return self.sending.block_fresh(self.side, id, half);
        }
        self.events.push(StreamEvent::Writable { id })?;
        if self.sending.add(self.side, id, half).is_err() {
            self.events.take_back();
            return Err(AllocError);
        }
        Ok(())
    }
}
