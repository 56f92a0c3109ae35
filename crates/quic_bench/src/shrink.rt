//! One stream is written and read on a path that carries less once half of its bytes have arrived.
use crate::application::{Events, PATTERN, Reader, pattern};
use crate::endpoint::Endpoint;
use crate::fault::Fault;
use crate::figures::{Figures, Watch};
use crate::pair::{Pair, Work};
use crate::sender::Sender;
use std::io;
use std::rt::Clock;
use std::time::CpuClock;

/// How the path shrinks.
#[derive(Clone, Copy)]
pub struct Plan {
    /// How many bytes go.
    pub bytes: u64,
    /// Whether they go from the server to the client.
    pub goes_back: bool,
    /// How many bytes of a datagram the path carries at first.
    pub first: u16,
    /// How many it carries once half of the bytes have arrived.
    pub then: u16,
}

/// Bytes go on one stream, from one end to the other.
#[derive(Drop)]
struct Flow {
    source: Vec<u8>,
    goes_back: bool,
    sender: Sender,
    sending: Events,
    reading: Events,
    reader: Reader,
    /// How many bytes are awaited.
    awaited: u64,
}

impl Flow {
    /// The end that writes has a turn.
    fn write(&mut self, end: &mut impl Endpoint) -> Result<(), Fault> {
        let _ = self.sending.next(end)?;
        if self.sending.take_writable() {
            self.sender.unblock();
        }
        self.sender.send(end, &self.source)
    }

    /// The end that reads has a turn.
    fn read(&mut self, end: &mut impl Endpoint) -> Result<(), Fault> {
        self.reader.read_all(end, &mut self.reading)?;
        Ok(())
    }
}

impl Work for Flow {
    fn client(&mut self, end: &mut impl Endpoint) -> Result<(), Fault> {
        if self.goes_back {
            self.read(end)
        } else {
            self.write(end)
        }
    }

    fn server(&mut self, end: &mut impl Endpoint) -> Result<bool, Fault> {
        if self.goes_back {
            self.write(end)?;
        } else {
            self.read(end)?;
        }
        Ok(self.reader.bytes >= self.awaited)
    }

    fn units(&self) -> u64 {
        self.reader.bytes
    }

    fn checksum(&self) -> u64 {
        self.reader.checksum
    }
}

/// The end from which the bytes go.
fn writer<'a, E: Endpoint>(pair: &'a mut Pair<E>, plan: &Plan) -> &'a mut E {
    if plan.goes_back {
        pair.server.as_mut()
    } else {
        pair.client.as_mut()
    }
}

/// Prints the size of datagrams at the end that wrote, and how many black holes it found.
fn print_path<R: Print>(rt: &R, end: &impl Endpoint) -> io::Result<()> {
    let path = end.stats().path;
    let (size, holes) = (path.current_mtu, path.black_holes_detected);
    println!(rt; "current_mtu={size} black_holes_detected={holes}")
}

/// One stream is written and read, and the path shrinks. Prints the size of datagrams at the end
/// that wrote, and how many black holes it found.
///
/// # Errors
///
/// - [`Fault::Memory`]: an allocation fails.
/// - [`Fault::NoStream`]: the stream can't be opened, as the peer's limit is reached.
/// - [`Fault`]: as [`Pair::run`] and [`Pair::figures`] answer.
/// - [`Fault::Print`]: what is found of the path can't be printed.
pub fn run<R: Clock + CpuClock + Print + AllocGlobal>(
    rt: &R,
    pair: &mut Pair<impl Endpoint>,
    plan: &Plan,
) -> Result<Figures, Fault> {
    let mut flow = Flow {
        source: pattern(rt.alloc())?,
        goes_back: plan.goes_back,
        sender: Sender::open(writer(pair, plan), plan.bytes, PATTERN)?,
        sending: Events::new(),
        reading: Events::new(),
        reader: Reader::new(),
        awaited: plan.bytes / 2,
    };
    pair.begin();
    let watch = Watch::start(rt)?;
    pair.run(&mut flow)?;
    pair.shrink(plan.then);
    flow.awaited = plan.bytes;
    pair.run(&mut flow)?;
    if let Err(error) = print_path(rt, writer(pair, plan)) {
        return Err(Fault::Print(error.kind()));
    }
    pair.figures(rt, &watch, flow.units(), flow.checksum())
}
