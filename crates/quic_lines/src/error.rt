//! Why a script ends early.
ghost use Rattle.std.specs.Prelude.{◌≡◌};
ghost use Rattle.quic_lines.specs.ExitStatus.{exit_status};

use std::alloc::AllocError;
use thiserror::Error;

/// Why a script ends before its last line is run. What was written till then stands.
#[derive(Clone, Copy, Debug, PartialEq, Eq, Error)]
pub enum ScriptError {
    /// This line, counted from 1, isn't in the language, or sets an option when the ends are made.
    #[error("line {0}: bad command")]
    BadCommand(u64),
    /// The script can't be read on.
    #[error("read fault")]
    ReadFault,
    /// The answers can't be written.
    #[error("write fault")]
    WriteFault,
    /// Out of memory: an allocation failed.
    #[error("out of memory")]
    OutOfMemory,
}

impl ScriptError {
    /// The exit status of a program that ends by this error: 2 for a bad command, 1 for a fault.
    pub fn exit_status(&self) -> u8
        ensures { result ≡ exit_status self.now }
    {
        match self {
            ScriptError::BadCommand(_) => 2,
            ScriptError::ReadFault | ScriptError::WriteFault | ScriptError::OutOfMemory => 1,
        }
    }
}

impl From<AllocError> for ScriptError {
    ghost use Rattle.quic_lines.specs.declared.error.ScriptError.TheVariants.{OutOfMemory};

    ghost from_gives = { λ _ e. e ≡ OutOfMemory };

    fn from(_e: AllocError) -> ScriptError {
        ScriptError::OutOfMemory
    }
}
