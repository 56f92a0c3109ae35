//! The application of the client, which asks.

use crate::endpoint::{Application, Calls, Reading, millis, read};
use crate::{answer, messages};
use anyhow::{Result, bail};
use quic_connection::{
    Bytes, Dir, Event, Instant, LostReason, Side, StreamEvent, StreamId, UpdateError, VarInt,
};
use std::alloc::Global;
use std::collections::BTreeMap;

/// How many requests are made.
const REQUESTS: u64 = 25;

/// The index of the request that is reset.
const RESET: u64 = 8;

/// The index of the request whose answer is stopped.
const STOPPED: u64 = 16;

/// The application of the client.
#[derive(Drop)]
pub(crate) struct Client {
    // How many requests were made, and how many of them are done.
    made: u64,
    done: u64,
    // The answers that aren't done, as far as they came, by the index of their stream.
    answers: BTreeMap<u64, Vec<u8>>,
}

impl Client {
    pub(crate) fn new(alloc: Global) -> Self {
        Client {
            made: 0,
            done: 0,
            answers: BTreeMap::new(alloc),
        }
    }

    /// Makes the first requests, for which no event asks.
    pub(crate) fn begin(
        &mut self,
        rt: &(impl Print + AllocGlobal),
        endpoint: &mut impl Calls,
    ) -> Result<()> {
        self.ask_all(rt, endpoint, Instant::from_nanos(0))
    }

    /// Makes requests until all are made, or the server lets no more streams be opened: then
    /// `StreamEvent::Available` tells when to go on.
    fn ask_all(
        &mut self,
        rt: &(impl Print + AllocGlobal),
        endpoint: &mut impl Calls,
        now: Instant,
    ) -> Result<()> {
        for _ in self.made..REQUESTS {
            let Some(id) = endpoint.streams().open(Dir::Bi) else {
                break;
            };
            self.answers.insert(id.index(), Vec::new(rt.alloc()))?;
            self.made = self.made.saturating_add(1);
            ask(rt.alloc(), endpoint, id)?;
            println!(rt; "{} ms: request {} is made", millis(now), id.index())?;
        }
        Ok(())
    }

    /// Reads what has come of an answer.
    fn read(
        &mut self,
        rt: &(impl Print + AllocGlobal),
        endpoint: &mut impl Calls,
        now: Instant,
        id: StreamId,
    ) -> Result<()> {
        let index = id.index();
        let Some(answer) = self.answers.get_mut(&index) else {
            // An event that came behind the end of the answer.
            return Ok(());
        };
        let reading = read(endpoint, id, answer)?;
        let length = answer.len();
        match reading {
            Reading::Blocked if index == STOPPED => {
                println!(rt; "{} ms: answer {index} is stopped", millis(now))?;
                stop(endpoint, id)?;
            }
            Reading::Blocked | Reading::Closed => return Ok(()),
            Reading::Finished => check(rt.alloc(), index, answer)?,
            Reading::Reset => println!(rt; "{} ms: answer {index} was reset", millis(now))?,
        }
        println!(rt;
            "{} ms: request {index} is done: {length} bytes",
            millis(now)
        )?;
        self.answers.remove(&index);
        self.on_done(endpoint, now)
    }

    /// One request more is done: a message for every fifth, and a close behind the last.
    fn on_done(&mut self, endpoint: &mut impl Calls, now: Instant) -> Result<()> {
        self.done = self.done.saturating_add(1);
        if self.done.is_multiple_of(5) {
            messages::send(endpoint, b"five more are done")?;
        }
        if self.done == REQUESTS {
            let text = Bytes::from_static(b"all is answered");
            endpoint.close(now, VarInt::from_u32(0), text);
        }
        Ok(())
    }
}

impl Application for Client {
    fn on_event(
        &mut self,
        rt: &(impl Print + AllocGlobal),
        endpoint: &mut impl Calls,
        now: Instant,
        event: &Event,
    ) -> Result<()> {
        match event {
            Event::Stream(StreamEvent::Readable { id }) => self.read(rt, endpoint, now, *id),
            Event::Stream(StreamEvent::Available { .. }) => self.ask_all(rt, endpoint, now),
            Event::Message => messages::receive(rt, Side::Client, endpoint, now),
            Event::Lost(LostReason::Application) => {
                println!(rt; "{} ms: the client closes", millis(now))?;
                Ok(())
            }
            Event::Lost(reason) => bail!("the client lost the connection: {reason}"),
            // The server opens no streams, stops none, and no request is ever blocked; and no
            // handshake is made.
            Event::Stream(_) | Event::HandshakeConfirmed => Ok(()),
        }
    }
}

/// How many bytes the request of this index asks for.
fn wanted(index: u64) -> usize {
    match index {
        // This answer is stopped before it is over.
        STOPPED => answer::LONGEST,
        _ => (40 + 37 * (index % 11)) as usize,
    }
}

/// Writes a request on a new stream, which the windows hold.
fn ask(alloc: Global, endpoint: &mut impl Calls, id: StreamId) -> Result<()> {
    let request = format!(in alloc; "{}", wanted(id.index()))?;
    let mut stream = endpoint.send_stream(id);
    if stream.write(request.as_bytes())? < request.len() {
        bail!("a request that the windows don't hold");
    }
    if id.index() == RESET {
        // Nothing else of the stream is sent then.
        return Ok(stream.reset(VarInt::from_u32(1))?);
    }
    Ok(stream.finish()?)
}

/// An error unless an answer has the bytes that its request asks for.
fn check(alloc: Global, index: u64, answer: &[u8]) -> Result<()> {
    let right = answer::of_length(alloc, wanted(index))?;
    if right.as_slice() != answer {
        bail!("request {index} has another answer");
    }
    Ok(())
}

/// Stops an answer: nothing more of it is read, and no event tells of it.
fn stop(endpoint: &mut impl Calls, id: StreamId) -> Result<()> {
    match endpoint.recv_stream(id).stop(VarInt::from_u32(2)) {
        Ok(()) | Err(UpdateError::ClosedStream) => Ok(()),
        Err(error) => Err(error.into()),
    }
}
