//! What the reads of a stream have told.
ghost use Rattle.std.specs.Prelude.{◌≡◌, ◌≢◌, ℕ, true, Option, Err};
ghost use Rattle.quic_streams_parts.specs.declared.answers.ReadError.TheVariants as read_errors;
ghost use Rattle.quic_streams_parts.specs.RecvHalf.{RecvHalf};
ghost use Rattle.quic_streams_state.specs.declared.state.StreamsState.{StreamsState};
ghost use Rattle.quic_streams_state.specs.Reading.{told_by, next_at, after_next};

use quic_assembler::Chunk;
use quic_streams_parts::ReadError;
use quic_wire_core::VarInt;

/// What a read of a stream has answered beside bytes, which it answers again (quinn-proto's
/// `ChunksState`).
#[derive(Clone, Copy, Debug, PartialEq, Eq)]
pub enum Told {
    /// Nothing yet but bytes.
    Bytes,
    /// That the stream has ended: all bytes up to FIN were given.
    End,
    /// That the peer reset it, with this code (RFC 9000, section 3.2).
    Reset(VarInt),
}

impl Told {
    ghost use Rattle.quic_streams_handles.specs.Told.{told_of, is_over};

    // Whether more than bytes was told.
    pub(crate) fn is_over(&self) -> bool
        ensures { result ≡ is_over (told_of self.now) }
    {
        match self {
            Told::Bytes => false,
            Told::End | Told::Reset(_) => true,
        }
    }

    // What is told again, where more than bytes was told.
    pub(crate) fn again(&self) -> Result<Option<Chunk>, ReadError>
        requires { is_over (told_of self.now) ≡ true }
        ensures answer { (h : Option RecvHalf) (most : ℕ) → result ≡ next_at (told_of self.now) h most }
        ensures told { told_by result (told_of self.now) ≡ told_of self.now }
        ensures no_want { result ≢ Err read_errors.Memory }
        ensures same { (s : StreamsState) (id most : ℕ) → after_next (told_of self.now) result s id most ≡ s }
    {
        match self {
            Told::Reset(code) => Err(ReadError::Reset(*code)),
            Told::Bytes | Told::End => Ok(None),
        }
    }

    // What is told after an answer.
    pub(crate) fn after(&self, answer: &Result<Option<Chunk>, ReadError>) -> Told
        ensures { told_of result ≡ told_by answer.now (told_of self.now) }
    {
        match answer {
            Ok(Some(_)) => *self,
            Ok(None) => Told::End,
            Err(error) => match error {
                ReadError::Reset(code) => Told::Reset(*code),
                ReadError::Blocked | ReadError::Memory => *self,
            },
        }
    }
}
