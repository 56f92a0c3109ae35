//! Resets of what this end sends.
ghost use Rattle.std.specs.Prelude.{◌≡◌, ◌≢◌, Ok, Err};
ghost use Rattle.quic_streams_state.specs.Writing.{reset_answer, after_reset};
ghost use Rattle.quic_streams_parts.specs.declared.answers.UpdateError.TheVariants as update_errors;

use crate::state::StreamsState;
use quic_retransmits::Retransmits;
use quic_streams_parts::UpdateError;
use quic_wire_core::{StreamId, VarInt};

impl StreamsState {
    /// Resets a stream with a code (RFC 9000, section 3.1; quinn-proto's `SendStream::reset`):
    /// RESET_STREAM waits, and nothing else of the stream goes.
    ///
    /// # Errors
    ///
    /// - [`UpdateError::ClosedStream`]: there is no such stream, its sending half is done, or it
    ///   was reset. Nothing changes.
    /// - [`UpdateError::Memory`]: an allocation fails. Nothing changes.
    pub fn reset(
        &mut self,
        id: StreamId,
        code: VarInt,
        pending: &mut Retransmits,
    ) -> Result<(), UpdateError>
        ensures answer { result ≢ Err update_errors.Memory → result ≡ reset_answer self.old id }
        ensures new { result ≢ Err update_errors.Memory → self.new ≡ (after_reset self.old pending.old id code).state }
        ensures pending { result ≢ Err update_errors.Memory → pending.new ≡ (after_reset self.old pending.old id code).pending }
        ensures memory { result ≡ Err update_errors.Memory → self.new ≡ self.old }
        ensures kept { result ≡ Err update_errors.Memory → pending.new ≡ pending.old }
        ensures lacking { result ≡ Err update_errors.Memory → reset_answer self.old id ≡ Ok tt }
    {
        if let Some(half) = self.sending.get(id) {
            if half.reset_size().is_some() {
                return Err(UpdateError::ClosedStream);
            }
            if pending.push_reset_stream(id, code).is_err() {
                return Err(UpdateError::Memory);
            }
            self.sending.reset(id);
            return Ok(());
        }
        let Some(mut half) = self.fresh_send(id) else {
            return Err(UpdateError::ClosedStream);
        };
        half.reset();
        if pending.push_reset_stream(id, code).is_err() {
            return Err(UpdateError::Memory);
        }
        if self.sending.add(self.side, id, half).is_err() {
            pending.take_back_reset_stream();
            return Err(UpdateError::Memory);
        }
        Ok(())
    }
}
