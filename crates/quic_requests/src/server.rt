//! The application of the server, which answers.

use crate::endpoint::{Application, Calls, Reading, millis, read};
use crate::{MANY, answer, messages};
use anyhow::{Result, bail};
use quic_connection::{
    Dir, Event, FinishError, Instant, LostReason, SendStream, Side, StreamEvent, StreamId,
    UpdateError, VarInt, WriteError,
};
use std::alloc::Global;
use std::collections::BTreeMap;

/// A request, and its answer, of which so many bytes are written.
#[derive(Drop)]
struct Task {
    request: Vec<u8>,
    answer: Vec<u8>,
    written: usize,
}

/// The application of the server.
#[derive(Drop)]
pub(crate) struct Server {
    // The requests whose answers aren't finished, by the index of their stream.
    tasks: BTreeMap<u64, Task>,
    // How many answers the client has, to their FINs.
    answered: u64,
}

impl Server {
    pub(crate) fn new(alloc: Global) -> Self {
        Server {
            tasks: BTreeMap::new(alloc),
            answered: 0,
        }
    }

    /// Accepts all streams that were opened, and reads them: that bytes came with a new stream
    /// isn't told besides.
    fn accept_all(
        &mut self,
        rt: &(impl Print + AllocGlobal),
        endpoint: &mut impl Calls,
        now: Instant,
    ) -> Result<()> {
        for _ in 0..MANY {
            let Some(id) = endpoint.streams().accept(Dir::Bi) else {
                break;
            };
            let task = Task {
                request: Vec::new(rt.alloc()),
                answer: Vec::new(rt.alloc()),
                written: 0,
            };
            self.tasks.insert(id.index(), task)?;
            self.read(rt, endpoint, now, id)?;
        }
        Ok(())
    }

    /// Reads what has come of a request, and begins to answer once it was read to its FIN.
    fn read(
        &mut self,
        rt: &(impl Print + AllocGlobal),
        endpoint: &mut impl Calls,
        now: Instant,
        id: StreamId,
    ) -> Result<()> {
        let Some(task) = self.tasks.get_mut(&id.index()) else {
            // An event that came behind the end of the request.
            return Ok(());
        };
        match read(endpoint, id, &mut task.request)? {
            Reading::Blocked | Reading::Closed => Ok(()),
            Reading::Finished => {
                task.answer = answer::of_length(rt.alloc(), answer::parse(&task.request)?)?;
                self.write(endpoint, id)
            }
            Reading::Reset => {
                println!(rt; "{} ms: request {} was reset", millis(now), id.index())?;
                self.give_up(endpoint, id, VarInt::from_u32(0))
            }
        }
    }

    /// Writes what is left of an answer, as far as limits let it, and finishes it.
    fn write(&mut self, endpoint: &mut impl Calls, id: StreamId) -> Result<()> {
        let Some(task) = self.tasks.get_mut(&id.index()) else {
            return Ok(());
        };
        if write_rest(endpoint, id, task)? {
            self.tasks.remove(&id.index());
        }
        Ok(())
    }

    /// Answers nothing more of a request: what is left of its answer is reset with this code.
    fn give_up(&mut self, endpoint: &mut impl Calls, id: StreamId, code: VarInt) -> Result<()> {
        self.tasks.remove(&id.index());
        match endpoint.send_stream(id).reset(code) {
            // All of it may have arrived before.
            Ok(()) | Err(UpdateError::ClosedStream) => Ok(()),
            Err(error) => Err(error.into()),
        }
    }

    /// The client has an answer: a message for every fifth.
    fn on_answered(&mut self, endpoint: &mut impl Calls) -> Result<()> {
        self.answered = self.answered.saturating_add(1);
        if self.answered.is_multiple_of(5) {
            messages::send(endpoint, b"five more have arrived")?;
        }
        Ok(())
    }
}

impl Application for Server {
    fn on_event(
        &mut self,
        rt: &(impl Print + AllocGlobal),
        endpoint: &mut impl Calls,
        now: Instant,
        event: &Event,
    ) -> Result<()> {
        match event {
            Event::Stream(StreamEvent::Opened { .. }) => self.accept_all(rt, endpoint, now),
            Event::Stream(StreamEvent::Readable { id }) => self.read(rt, endpoint, now, *id),
            Event::Stream(StreamEvent::Writable { id }) => self.write(endpoint, *id),
            Event::Stream(StreamEvent::Finished { .. }) => self.on_answered(endpoint),
            Event::Stream(StreamEvent::Stopped { id, error_code }) => {
                let index = id.index();
                println!(rt;
                    "{} ms: answer {index} was stopped: code {error_code}",
                    millis(now)
                )?;
                self.give_up(endpoint, *id, *error_code)
            }
            // It opens no streams, and only clients are told of a handshake.
            Event::Stream(StreamEvent::Available { .. }) | Event::HandshakeConfirmed => Ok(()),
            Event::Message => messages::receive(rt, Side::Server, endpoint, now),
            Event::Lost(LostReason::Peer(close)) => {
                println!(rt;
                    "{} ms: the server is told of the close: {close}",
                    millis(now)
                )?;
                Ok(())
            }
            Event::Lost(reason) => bail!("the server lost the connection: {reason}"),
        }
    }
}

/// Writes what is left of an answer: whether it is finished. Where a limit leaves no room,
/// `StreamEvent::Writable` tells when to write on; behind a write that took a part nothing does, so
/// the rest is written at once.
fn write_rest(endpoint: &mut impl Calls, id: StreamId, task: &mut Task) -> Result<bool> {
    let mut stream = endpoint.send_stream(id);
    for _ in 0..MANY {
        let rest = task.answer.get(task.written..).unwrap_or(&[]);
        if rest.is_empty() {
            return finish(&mut stream);
        }
        match stream.write(rest) {
            Ok(count) => task.written = task.written.saturating_add(count),
            // `StreamEvent::Stopped` tells of a stop.
            Err(WriteError::Blocked | WriteError::Stopped(_)) => break,
            Err(error) => return Err(error.into()),
        }
    }
    Ok(false)
}

/// Finishes an answer: whether the client didn't stop it before, of which an event tells.
fn finish(stream: &mut SendStream<'_>) -> Result<bool> {
    match stream.finish() {
        Ok(()) => Ok(true),
        Err(FinishError::Stopped(_)) => Ok(false),
        Err(error) => Err(error.into()),
    }
}
