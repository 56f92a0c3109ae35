//! The lines of a script, read from anywhere.
ghost use Rattle.std.specs.Prelude.{◌≡◌, ◌-◌, ◌<◌, ◌≤◌, ◌==◌, [], true, false, Err, IfOk, IfErr, OnOk, MatchBool, position, vec_len};

use crate::error::ScriptError;
use crate::script::MAX_LINE;
use std::alloc::{AllocError, Global};
use std::io::{ErrorKind, Read};

/// How often the reader of a script is called at most.
pub const MOST_TURNS: u64 = 1 << 32;

/// How many bytes one call of the reader may give.
const CHUNK: usize = 4096;

/// Reads lines, each ended by a line feed, which the last may lack.
#[derive(Drop)]
pub struct Lines<R: Drop> {
    reader: R,
    chunk: Vec<u8>,
    start: usize,
    end: usize,
    // How many calls of the reader are left.
    turns: u64,
    // The reader has said that there is no more.
    ended: bool,
    ghost ordered: { start ≤ end },
    ghost filled: { end ≤ vec_len chunk },
    ghost room: { 0 < vec_len chunk },
}

impl<R: Read + Drop> Lines<R> {
    ghost use Rattle.std.specs.Io.KnownBytes.{Keeps, IsAtEnd};
    ghost use Rattle.quic_lines.specs.Reading.{unread_of, left_of, KnowsEnd, Moves, IsNextLine, IsOver, IsUnread};

    /// The lines that a reader gives in so many calls.
    ///
    /// # Errors
    ///
    /// - [`AllocError`]: an allocation fails. The reader is dropped unread.
    pub fn new(alloc: Global, reader: R, turns: u64) -> Result<Self, AllocError>
        ensures left { IfOk result (λ lines. Keeps (R.remaining reader) (left_of R.remaining lines)) }
        ensures known { IfOk result (λ lines. KnowsEnd R.remaining lines) }
        ensures turns { IfOk result (λ lines. lines.turns ≡ turns) }
    {
        Ok(Lines {
            reader,
            chunk: vec![in alloc; 0; CHUNK]?,
            start: 0,
            end: 0,
            turns,
            ended: false,
        })
    }

    /// Puts the next line into the buffer, in place of what was there, and says whether there is
    /// one. Of a line that is too long only so much is read that this can be told.
    ///
    /// # Errors
    ///
    /// - [`ScriptError::OutOfMemory`]: an allocation fails. Nothing is said of the lines then.
    /// - [`ScriptError::ReadFault`]: the reader failed, or was called too often. Nothing is said of
    ///   the lines then.
    pub fn next(&mut self, line: &mut Vec<u8>) -> Result<bool, ScriptError>
        requires { KnowsEnd R.remaining self.old }
        ensures known { KnowsEnd R.remaining self.new }
        ensures line { IfOk result (λ more. MatchBool more (IsNextLine (left_of R.remaining self.old) line.new.items (left_of R.remaining self.new)) (IsOver (left_of R.remaining self.old))) }
        ensures fault { IfErr result IsUnread }
    {
        line.clear();
        for _ in 0..u64::MAX {
            if self.take_piece(line)? {
                return Ok(true);
            }
            if line.len() > MAX_LINE {
                return Ok(true);
            }
            if !self.fill()? {
                return Ok(!line.is_empty());
            }
        }
        Err(ScriptError::ReadFault)
    }

    /// Moves what was read of the line into the buffer, and says whether that is all of it.
    fn take_piece(&mut self, line: &mut Vec<u8>) -> Result<bool, AllocError>
        ensures moved { IfOk result (λ whole. Moves whole (left_of R.remaining self.old) line.old.items (left_of R.remaining self.new) line.new.items) }
        ensures all { IfOk result (λ whole. whole ≡ false → unread_of self.new ≡ []) }
        ensures reader { self.new.reader ≡ self.old.reader }
        ensures ended { self.new.ended ≡ self.old.ended }
    {
        let unread = &self.chunk[self.start..self.end];
        match feed_at(unread) {
            Some(length) => {
                line.extend_from_slice(&unread[..length])?;
                self.start += length + 1;
                Ok(true)
            }
            None => {
                line.extend_from_slice(unread)?;
                self.start = self.end;
                Ok(false)
            }
        }
    }

    /// Reads on, and says whether there was more.
    fn fill(&mut self) -> Result<bool, ScriptError>
        requires known { KnowsEnd R.remaining self.old }
        requires empty { unread_of self.old ≡ [] }
        ensures known { KnowsEnd R.remaining self.new }
        ensures left { OnOk result (Keeps (left_of R.remaining self.old) (left_of R.remaining self.new)) }
        ensures end { IfOk result (λ more. more ≡ false → IsAtEnd (left_of R.remaining self.old)) }
        ensures turns { self.old.ended ≡ false → self.new.turns ≡ self.old.turns - 1 }
        ensures exhausted { self.old.ended ≡ false → self.old.turns ≡ 0 → result ≡ Err ScriptError.ReadFault }
        ensures fault { IfErr result IsUnread }
    {
        if self.ended {
            return Ok(false);
        }
        if self.turns == 0 {
            return Err(ScriptError::ReadFault);
        }
        self.turns -= 1;
        match self.reader.read(&mut self.chunk) {
            Ok(count) => {
                self.start = 0;
                self.end = count;
                self.ended = count == 0;
                Ok(count != 0)
            }
            Err(e) if e.kind() == ErrorKind::Interrupted => {
                self.start = 0;
                self.end = 0;
                Ok(true)
            }
            Err(_) => Err(ScriptError::ReadFault),
        }
    }
}

/// Where the first line feed stands.
fn feed_at(bytes: &[u8]) -> Option<usize>
    ensures { result ≡ position (λ b. b == 10) bytes.now }
{
    bytes.iter().position(|b| *b == b'\n')
}
