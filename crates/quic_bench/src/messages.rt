//! Messages go, of which so many at most are under way.
use crate::application::{PATTERN, pattern, take_events};
use crate::endpoint::Endpoint;
use crate::fault::Fault;
use crate::figures::Figures;
use crate::pair::{Pair, Work};
use quic_connection::{Copies, SendDatagramError};
use std::rt::Clock;
use std::time::CpuClock;

/// So many messages go.
#[derive(Drop)]
struct Messages {
    copies: Copies,
    count: u64,
    ahead: u64,
    data: Vec<u8>,
    sent: u64,
    received: u64,
    checksum: u64,
}

impl Messages {
    /// Sends a message: whether there was room for it.
    fn send_one(&mut self, end: &mut impl Endpoint) -> Result<bool, Fault> {
        let data = self.data.as_slice();
        let mut datagrams = end.datagrams();
        if datagrams.send_buffer_space() < data.len() {
            return Ok(false);
        }
        let message = self.copies.copy(data)?;
        match datagrams.send(message, false) {
            Ok(()) => {
                self.sent = self.sent.wrapping_add(1);
                Ok(true)
            }
            Err(SendDatagramError::Blocked) => Ok(false),
            Err(error) => Err(error.into()),
        }
    }

    /// A message was received.
    fn take(&mut self, message: &[u8]) {
        let mixed = self.checksum.wrapping_mul(31);
        self.checksum = mixed.wrapping_add(message.len() as u64);
        self.received = self.received.wrapping_add(1);
    }
}

impl Work for Messages {
    fn client(&mut self, end: &mut impl Endpoint) -> Result<(), Fault> {
        take_events(end)?;
        let most = self.received.saturating_add(self.ahead).min(self.count);
        for _ in self.sent..most {
            if !self.send_one(end)? {
                break;
            }
        }
        Ok(())
    }

    fn server(&mut self, end: &mut impl Endpoint) -> Result<bool, Fault> {
        take_events(end)?;
        for _ in 0..u64::MAX {
            let Some(message) = end.datagrams().recv() else {
                break;
            };
            self.take(&message);
        }
        Ok(self.received == self.count)
    }

    fn units(&self) -> u64 {
        self.received
    }

    fn checksum(&self) -> u64 {
        self.checksum
    }
}

/// So many messages of so many bytes go, of which so many at most are under way.
///
/// # Errors
///
/// - [`Fault::Memory`]: an allocation fails.
/// - [`Fault`]: as [`Pair::measure`] answers.
pub fn run<R: Clock + CpuClock + AllocGlobal>(
    rt: &R,
    pair: &mut Pair<impl Endpoint>,
    count: u64,
    size: u64,
    ahead: u64,
) -> Result<Figures, Fault> {
    let mut data = pattern(rt.alloc())?;
    data.truncate(size.min(PATTERN as u64) as usize);
    let mut work = Messages {
        copies: Copies::new(rt.alloc()),
        count,
        ahead,
        data,
        sent: 0,
        received: 0,
        checksum: 0,
    };
    pair.measure(rt, &mut work)
}
