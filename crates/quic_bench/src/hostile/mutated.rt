//! Both ends have the keys, and exchange data; half of the payloads are changed in one byte before
//! they are sealed.
use crate::application::{finish, open, pattern, write};
use crate::endpoint::Endpoint;
use crate::fault::Fault;
use crate::figures::{Figures, Watch};
use crate::hostile::change::change;
use crate::hostile::tally::Tally;
use crate::hostile::victim::Victim;
use crate::pair::{Pair, expire};
use quic_connection::{Copies, Dir, Instant, StreamId, VarInt};
use quic_wire_core::Side;
use std::alloc::{AllocError, Global};
use std::rt::Clock;
use std::time::CpuClock;

/// How many turns the ends of a pair have at most.
const TURNS: u64 = 200;

/// How many datagrams an end sends in a turn at most.
const AT_ONCE: u64 = 4;

/// What goes on between ends, one pair after another.
#[derive(Drop)]
struct Exchange {
    tally: Tally,
    applications: Victim,
    copies: Copies,
    /// What is written.
    data: Vec<u8>,
    datagram: Vec<u8>,
    copy: Vec<u8>,
}

/// One of the first streams of each kind, as a word says.
fn stream_in(word: u64) -> StreamId {
    let side = if word & 1 == 0 {
        Side::Client
    } else {
        Side::Server
    };
    let dir = if word & 2 == 0 { Dir::Bi } else { Dir::Uni };
    StreamId::new(side, dir, (word >> 2) % 4)
}

/// What comes of a call which may be refused, as on a stream that isn't open.
fn allowed(answer: Result<(), Fault>) -> Result<(), Fault> {
    match answer {
        Err(Fault::ClosedStream | Fault::Stopped | Fault::WriteBlocked | Fault::Lost) => Ok(()),
        answer => answer,
    }
}

impl Exchange {
    /// Nothing went on yet.
    fn new(alloc: Global) -> Result<Self, AllocError> {
        Ok(Exchange {
            tally: Tally::new(),
            applications: Victim::new(alloc),
            copies: Copies::new(alloc),
            data: pattern(alloc)?,
            datagram: Vec::new(alloc),
            copy: Vec::new(alloc),
        })
    }

    /// Writes on a stream some bytes.
    fn write(&self, end: &mut impl Endpoint, id: StreamId, len: usize) -> Result<(), Fault> {
        let data = self.data.as_slice();
        write(end, id, &data[..len.min(data.len())])?;
        Ok(())
    }

    /// Sends a message of some bytes.
    fn send(&mut self, end: &mut impl Endpoint, len: usize) -> Result<(), Fault> {
        let data = self.data.as_slice();
        let message = self.copies.copy(&data[..len.min(data.len())])?;
        match end.datagrams().send(message, true) {
            Ok(()) | Err(_) => Ok(()),
        }
    }

    /// An application does one thing, as a word says.
    fn act(&mut self, end: &mut impl Endpoint, word: u64) -> Result<(), Fault> {
        let id = stream_in(word >> 8);
        let code = VarInt::from_u32(7);
        let len = (word >> 16) as usize % 3000;
        match word >> 4 & 15 {
            0 | 1 => {
                let _ = open(end, id.dir());
            }
            2 => return finish(end, id),
            3 => {
                let _ = end.send_stream(id).reset(code);
            }
            4 => {
                let _ = end.recv_stream(id).stop(code);
            }
            5 | 6 => return self.send(end, len % 1100),
            7 => end.ping(),
            8 => {
                let _ = end.use_next_id();
            }
            _ => return self.write(end, id, len),
        }
        Ok(())
    }

    /// An end of this side sends a datagram, if it has one, and the other end takes it, changed or
    /// not: whether it had one.
    fn pass(
        &mut self,
        side: Side,
        from: &mut impl Endpoint,
        to: &mut impl Endpoint,
        now: Instant,
        word: u64,
    ) -> Result<bool, Fault> {
        self.datagram.clear();
        if from.poll_transmit(now, &mut self.datagram)?.is_none() {
            return Ok(false);
        }
        if word & 1 == 0 && change(&mut self.datagram, &mut self.copy, side, word)? {
            self.tally.changed = self.tally.changed.wrapping_add(1);
        }
        let answer = to.receive(now, None, &mut self.datagram);
        self.tally.note(&answer)?;
        allowed(self.applications.act(to, true))?;
        Ok(true)
    }

    /// An end of this side has a turn: its application does something, and it sends.
    fn turn(
        &mut self,
        side: Side,
        from: &mut impl Endpoint,
        to: &mut impl Endpoint,
        now: u64,
        word: u64,
    ) -> Result<(), Fault> {
        expire(from, now)?;
        allowed(self.act(from, word))?;
        let mut word = word;
        for _ in 0..AT_ONCE {
            word = word.rotate_left(23);
            if to.is_closed() || !self.pass(side, from, to, Instant::from_nanos(now), word)? {
                break;
            }
        }
        Ok(())
    }

    /// Each end has a turn.
    fn round(&mut self, pair: &mut Pair<impl Endpoint>) -> Result<(), Fault> {
        let (word, other) = (pair.up.draw(), pair.up.draw());
        // Up to 16 ms go by.
        pair.now = pair.now.saturating_add(word >> 40);
        let (client, server) = (pair.client.as_mut(), pair.server.as_mut());
        self.turn(Side::Client, client, server, pair.now, word)?;
        self.turn(Side::Server, server, client, pair.now, other)
    }

    /// A pair of ends lives: until one of them is closed, or each had so many turns.
    fn live(&mut self, pair: &mut Pair<impl Endpoint>) -> Result<(), Fault> {
        for _ in 0..TURNS {
            self.round(pair)?;
            if pair.client.as_ref().is_closed() || pair.server.as_ref().is_closed() {
                break;
            }
        }
        Ok(())
    }

    /// One pair lives after another until so many datagrams came: how many pairs these are.
    fn live_on(
        &mut self,
        alloc: Global,
        pair: &mut Pair<impl Endpoint>,
        count: u64,
    ) -> Result<u64, Fault> {
        for pairs in 0..u64::MAX {
            if self.tally.came >= count {
                return Ok(pairs);
            }
            self.live(pair)?;
            pair.renew(alloc)?;
        }
        Ok(u64::MAX)
    }
}

/// Both ends exchange data, half of it changed, and each goes on or is closed with a named error;
/// where one is closed a new pair begins. Prints how many datagrams were taken and dropped, and how
/// many closed an end, by the code of the error. The units are the datagrams that were changed; the
/// checksum is how many pairs began.
///
/// # Errors
///
/// - [`Fault::Memory`], [`Fault::Failed`]: an allocation fails, or an endpoint failed.
/// - [`Fault::Closed`]: an endpoint was closed with an error that has no name.
/// - [`Fault::Dropped`]: a datagram was dropped for a reason that no change of a payload gives.
/// - [`Fault`]: an application got an answer that no peer can cause, for example
///   [`Fault::IllegalOrderedRead`].
/// - [`Fault::Clock`]: a clock can't be read.
/// - [`Fault::Print`]: the counts can't be printed.
pub fn run<R: Clock + CpuClock + Print + AllocGlobal>(
    rt: &R,
    pair: &mut Pair<impl Endpoint>,
    count: u64,
) -> Result<Figures, Fault> {
    let mut exchange = Exchange::new(rt.alloc())?;
    pair.begin();
    let watch = Watch::start(rt)?;
    let pairs = exchange.live_on(rt.alloc(), pair, count)?;
    if let Err(error) = exchange.tally.print(rt) {
        return Err(Fault::Print(error.kind()));
    }
    pair.up.sent = exchange.tally.came;
    pair.figures(rt, &watch, exchange.tally.changed, pairs)
}
