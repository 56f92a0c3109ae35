//! One stream is written from a buffer, and read whenever it is readable, or once all has come.
use crate::application::{Events, PATTERN, Reader, pattern};
use crate::endpoint::Endpoint;
use crate::fault::Fault;
use crate::figures::Figures;
use crate::pair::{Pair, Work};
use crate::sender::Sender;
use crate::streams::hold_open;
use std::rt::Clock;
use std::time::CpuClock;

/// How one stream is written and read.
#[derive(Clone, Copy)]
pub struct Plan {
    /// How many bytes go.
    pub bytes: u64,
    /// Whether they are compared.
    pub is_verified: bool,
    /// How many bytes a write has at most.
    pub write: usize,
    /// How many bytes a read takes at most.
    pub read: usize,
    /// Whether nothing is read before the client knows that all has come.
    pub waits: bool,
    /// How many other streams are held open.
    pub idle: u64,
}

impl Plan {
    /// So many bytes are written and read as they may be.
    pub fn of(bytes: u64) -> Self {
        Plan {
            bytes,
            is_verified: false,
            write: PATTERN,
            read: usize::MAX,
            waits: false,
            idle: 0,
        }
    }

    /// Whether it has an end with a window of so many bytes.
    pub fn can_be_done(&self, window: u64) -> bool {
        self.write > 0 && self.read > 0 && (!self.waits || self.bytes <= window)
    }
}

/// Bytes go on one stream.
#[derive(Drop)]
struct Bulk {
    waits: bool,
    source: Vec<u8>,
    sender: Sender,
    client: Events,
    server: Events,
    reader: Reader,
}

impl Work for Bulk {
    fn client(&mut self, end: &mut impl Endpoint) -> Result<(), Fault> {
        let _ = self.client.next(end)?;
        if self.client.take_writable() {
            self.sender.unblock();
        }
        self.sender.send(end, &self.source)
    }

    fn server(&mut self, end: &mut impl Endpoint) -> Result<bool, Fault> {
        if self.waits && self.client.finished == 0 {
            return Ok(false);
        }
        self.reader.read_all(end, &mut self.server)
    }

    fn units(&self) -> u64 {
        self.reader.bytes
    }

    fn checksum(&self) -> u64 {
        self.reader.checksum
    }
}

/// What is to come, if it is compared.
fn expected<R: AllocGlobal>(rt: &R, plan: &Plan) -> Result<Option<Vec<u8>>, Fault> {
    if plan.is_verified {
        Ok(Some(pattern(rt.alloc())?))
    } else {
        Ok(None)
    }
}

/// One stream is written and read.
///
/// # Errors
///
/// - [`Fault`]: as [`hold_open`] answers.
/// - [`Fault::Memory`]: an allocation fails.
/// - [`Fault::NoStream`]: the stream can't be opened, as the peer's limit is reached.
/// - [`Fault`]: as [`Pair::measure`] answers.
pub fn run<R: Clock + CpuClock + AllocGlobal>(
    rt: &R,
    pair: &mut Pair<impl Endpoint>,
    plan: &Plan,
) -> Result<Figures, Fault> {
    hold_open(pair, plan.idle)?;
    let mut work = Bulk {
        waits: plan.waits,
        source: pattern(rt.alloc())?,
        sender: Sender::open(pair.client.as_mut(), plan.bytes, plan.write)?,
        client: Events::new(),
        server: Events::new(),
        reader: Reader::of_pieces(expected(rt, plan)?, plan.read),
    };
    pair.measure(rt, &mut work)
}
