//! Each end writes a stream and reads that of the other, both at the same time.
use crate::application::{Events, PATTERN, Reader, pattern};
use crate::endpoint::Endpoint;
use crate::fault::Fault;
use crate::figures::Figures;
use crate::pair::{Pair, Work};
use crate::sender::Sender;
use std::rt::Clock;
use std::time::CpuClock;

/// What one end does.
#[derive(Drop)]
struct Party {
    sender: Sender,
    events: Events,
    reader: Reader,
}

impl Party {
    /// One that writes so many bytes.
    fn new(end: &mut impl Endpoint, bytes: u64) -> Result<Self, Fault> {
        Ok(Party {
            sender: Sender::open(end, bytes, PATTERN)?,
            events: Events::new(),
            reader: Reader::new(),
        })
    }

    /// Reads what came, and writes what may be written.
    fn act(&mut self, end: &mut impl Endpoint, source: &[u8]) -> Result<(), Fault> {
        self.reader.read_all(end, &mut self.events)?;
        if self.events.take_writable() {
            self.sender.unblock();
        }
        self.sender.send(end, source)
    }
}

/// Bytes go both ways.
#[derive(Drop)]
struct Duplex {
    source: Vec<u8>,
    client: Party,
    server: Party,
}

impl Work for Duplex {
    fn client(&mut self, end: &mut impl Endpoint) -> Result<(), Fault> {
        self.client.act(end, &self.source)
    }

    fn server(&mut self, end: &mut impl Endpoint) -> Result<bool, Fault> {
        self.server.act(end, &self.source)?;
        Ok(self.client.reader.ended > 0 && self.server.reader.ended > 0)
    }

    fn units(&self) -> u64 {
        self.client
            .reader
            .bytes
            .wrapping_add(self.server.reader.bytes)
    }

    fn checksum(&self) -> u64 {
        self.client
            .reader
            .checksum
            .wrapping_add(self.server.reader.checksum)
    }
}

/// So many bytes go each way.
///
/// # Errors
///
/// - [`Fault::Memory`]: an allocation fails.
/// - [`Fault::NoStream`]: a stream can't be opened, as the peer's limit is reached.
/// - [`Fault`]: as [`Pair::measure`] answers.
pub fn run<R: Clock + CpuClock + AllocGlobal>(
    rt: &R,
    pair: &mut Pair<impl Endpoint>,
    bytes: u64,
) -> Result<Figures, Fault> {
    let mut work = Duplex {
        source: pattern(rt.alloc())?,
        client: Party::new(pair.client.as_mut(), bytes)?,
        server: Party::new(pair.server.as_mut(), bytes)?,
    };
    pair.measure(rt, &mut work)
}
