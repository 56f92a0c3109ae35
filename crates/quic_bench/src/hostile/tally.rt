//! What becomes of datagrams of which many were changed.
use crate::fault::Fault;
use quic_connection::{DropReason, Received};
use quic_wire_core::Code;
use std::io;

/// Why a datagram may be dropped that the right key sealed: an id was changed as it was told, in
/// its length or in a byte, and is in use.
const REASONS: [DropReason; 3] = [
    DropReason::TooShort,
    DropReason::UnknownId,
    DropReason::NotOpened,
];

/// Where a reason stands among these.
fn place_of(reason: DropReason) -> Option<usize> {
    match reason {
        DropReason::TooShort => Some(0),
        DropReason::UnknownId => Some(1),
        DropReason::NotOpened => Some(2),
        _ => None,
    }
}

/// How many datagrams came to what.
#[derive(Drop)]
pub struct Tally {
    /// How many were changed.
    pub changed: u64,
    /// How many were taken.
    taken: u64,
    /// How many were dropped, for each reason of [`REASONS`].
    dropped: [u64; 3],
    /// How many closed the end that they came to, by the code of its error.
    refused: [u64; 17],
    /// How many came.
    pub came: u64,
}

impl Tally {
    /// None came yet.
    pub fn new() -> Self {
        Tally {
            changed: 0,
            taken: 0,
            dropped: [0; 3],
            refused: [0; 17],
            came: 0,
        }
    }

    /// Counts a datagram by its answer.
    ///
    /// # Errors
    ///
    /// - [`Fault::Failed`]: the endpoint failed. The datagram is counted as one that came.
    /// - [`Fault::Closed`]: the error that closed the endpoint has no name. The datagram is counted
    ///   as one that came.
    /// - [`Fault::Dropped`]: the datagram was dropped for none of [`REASONS`]. It is counted as one
    ///   that came.
    pub fn note(&mut self, answer: &Received) -> Result<(), Fault> {
        self.came = self.came.wrapping_add(1);
        match answer {
            Received::Taken => self.taken = self.taken.wrapping_add(1),
            Received::Dropped(reason) => return self.note_drop(*reason),
            Received::Closed(error) => return self.note_code(error.code()),
            Received::Failed => return Err(Fault::Failed),
        }
        Ok(())
    }

    /// Counts a datagram that was dropped.
    fn note_drop(&mut self, reason: DropReason) -> Result<(), Fault> {
        if let Some(place) = place_of(reason)
            && let Some(count) = self.dropped.get_mut(place)
        {
            *count = count.wrapping_add(1);
            Ok(())
        } else {
            Err(Fault::Dropped(reason))
        }
    }

    /// Counts a datagram that closed its end with this code.
    fn note_code(&mut self, code: Code) -> Result<(), Fault> {
        match self.refused.get_mut(u64::from(code) as usize) {
            Some(count) => *count = count.wrapping_add(1),
            None => return Err(Fault::Closed),
        }
        Ok(())
    }

    /// How many closed their end with this code.
    fn refused_by(&self, code: Code) -> u64 {
        let count = self.refused.get(u64::from(code) as usize);
        count.copied().unwrap_or(0)
    }

    /// Prints the counts: a line for what was taken, one for each reason for which some were
    /// dropped, and one for each code that closed ends.
    ///
    /// # Errors
    ///
    /// - [`io::Error`]: a line can't be printed. Some may be.
    pub fn print<R: Print>(&self, rt: &R) -> io::Result<()> {
        let Tally {
            changed,
            taken,
            came,
            ..
        } = *self;
        println!(rt; "came={came} changed={changed} taken={taken}")?;
        self.print_drops(rt)?;
        self.print_codes(rt)
    }

    /// Prints how many were dropped for each reason.
    fn print_drops<R: Print>(&self, rt: &R) -> io::Result<()> {
        for reason in REASONS {
            let place = place_of(reason).unwrap_or(0);
            let count = self.dropped.get(place).copied().unwrap_or(0);
            if count > 0 {
                println!(rt; "dropped, {reason}: {count}")?;
            }
        }
        Ok(())
    }

    /// Prints how many ends each code closed.
    fn print_codes<R: Print>(&self, rt: &R) -> io::Result<()> {
        for code in Code::all() {
            let count = self.refused_by(code);
            if count > 0 {
                println!(rt; "closed, {code}: {count}")?;
            }
        }
        Ok(())
    }
}
