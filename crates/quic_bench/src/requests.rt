//! Requests go on two-way streams, and each is answered on its own.
use crate::application::{Events, PATTERN, Reader, open, pattern, write_all};
use crate::endpoint::Endpoint;
use crate::fault::Fault;
use crate::figures::Figures;
use crate::pair::{Pair, Work};
use quic_connection::Dir;
use std::alloc::{AllocError, Global};
use std::rt::Clock;
use std::time::CpuClock;

/// So many requests, so many at once.
#[derive(Drop)]
struct Requests {
    count: u64,
    at_once: u64,
    request: Vec<u8>,
    answer: Vec<u8>,
    asked: u64,
    client: Events,
    server: Events,
    answers: Reader,
    requests: Reader,
}

impl Requests {
    /// Sends a request: whether a stream may be opened.
    fn ask(&mut self, end: &mut impl Endpoint) -> Result<bool, Fault> {
        let Some(id) = open(end, Dir::Bi) else {
            return Ok(false);
        };
        write_all(end, id, &self.request)?;
        self.asked = self.asked.wrapping_add(1);
        Ok(true)
    }

    /// Takes what came of one request, and answers it once it has come: whether one came.
    fn serve(&mut self, end: &mut impl Endpoint) -> Result<bool, Fault> {
        let Some(id) = self.server.next(end)? else {
            return Ok(false);
        };
        if self.requests.read(end, id)? {
            write_all(end, id, &self.answer)?;
        }
        Ok(true)
    }
}

impl Work for Requests {
    fn client(&mut self, end: &mut impl Endpoint) -> Result<(), Fault> {
        self.answers.read_all(end, &mut self.client)?;
        let most = self
            .answers
            .ended
            .saturating_add(self.at_once)
            .min(self.count);
        for _ in self.asked..most {
            if !self.ask(end)? {
                break;
            }
        }
        Ok(())
    }

    fn server(&mut self, end: &mut impl Endpoint) -> Result<bool, Fault> {
        for _ in 0..u64::MAX {
            if !self.serve(end)? {
                break;
            }
        }
        Ok(self.answers.ended == self.count)
    }

    fn units(&self) -> u64 {
        self.answers.ended
    }

    fn checksum(&self) -> u64 {
        self.answers.checksum.wrapping_add(self.requests.checksum)
    }
}

/// So many bytes of the pattern: a task has no size above that of the pattern.
fn data(alloc: Global, size: u64) -> Result<Vec<u8>, AllocError> {
    let mut data = pattern(alloc)?;
    data.truncate(size.min(PATTERN as u64) as usize);
    Ok(data)
}

/// So many requests of so many bytes, so many at once, each with an answer of so many.
///
/// # Errors
///
/// - [`Fault::Memory`]: an allocation fails.
/// - [`Fault`]: as [`Pair::measure`] answers.
pub fn run<R: Clock + CpuClock + AllocGlobal>(
    rt: &R,
    pair: &mut Pair<impl Endpoint>,
    count: u64,
    size: u64,
    answer: u64,
    at_once: u64,
) -> Result<Figures, Fault> {
    let mut work = Requests {
        count,
        at_once,
        request: data(rt.alloc(), size)?,
        answer: data(rt.alloc(), answer)?,
        asked: 0,
        client: Events::new(),
        server: Events::new(),
        answers: Reader::new(),
        requests: Reader::new(),
    };
    pair.measure(rt, &mut work)
}
