//! What the end does that is attacked, and its application.
use crate::application::{Reader, accept, pattern, take_events};
use crate::endpoint::Endpoint;
use crate::fault::Fault;
use quic_connection::{Copies, Dir, Event, Instant, StreamEvent, StreamId, VarInt};
use std::alloc::Global;

/// What goes on at the end that is attacked.
#[derive(Drop)]
pub struct Victim {
    reader: Reader,
    out: Vec<u8>,
    /// How many datagrams it sent.
    pub sent: u64,
    /// How many bytes these have.
    pub bytes: u64,
}

/// The number of a datagram, which its tag shows.
pub fn number_of(datagram: &[u8]) -> Option<u64> {
    let at = datagram.len().checked_sub(16)?;
    let mut number = 0u64;
    for byte in datagram.get(at..at.saturating_add(8))? {
        number = number.wrapping_mul(256).wrapping_add(u64::from(*byte));
    }
    Some(number)
}

/// Reads all messages.
fn take_messages(end: &mut impl Endpoint) {
    for _ in 0..u64::MAX {
        if end.datagrams().recv().is_none() {
            break;
        }
    }
}

/// Resets a stream on which nothing more is to be sent.
fn reset(end: &mut impl Endpoint, id: StreamId, code: VarInt) -> Result<(), Fault> {
    match end.send_stream(id).reset(code) {
        Ok(()) => Ok(()),
        Err(_) => Err(Fault::ClosedStream),
    }
}

/// Queues so many messages of so many bytes, but no more than one may have.
///
/// # Errors
///
/// - [`Fault::Memory`]: an allocation fails. Those before are queued.
/// - [`Fault`]: as the endpoint answers.
pub fn queue_messages(
    end: &mut impl Endpoint,
    alloc: Global,
    count: u64,
    size: usize,
) -> Result<(), Fault> {
    let mut copies = Copies::new(alloc);
    let mut data = pattern(alloc)?;
    data.truncate(end.datagrams().max_size().unwrap_or(0).min(size));
    for _ in 0..count {
        let message = copies.copy(&data)?;
        end.datagrams().send(message, false)?;
    }
    Ok(())
}

impl Victim {
    /// Nothing went on yet.
    pub fn new(alloc: Global) -> Self {
        Victim {
            reader: Reader::new(),
            out: Vec::new(alloc),
            sent: 0,
            bytes: 0,
        }
    }

    /// Reads a stream, which may have been reset.
    fn read(&mut self, end: &mut impl Endpoint, id: StreamId) -> Result<(), Fault> {
        match self.reader.read(end, id) {
            Ok(_) | Err(Fault::Reset) => Ok(()),
            Err(fault) => Err(fault),
        }
    }

    /// Accepts all streams of a kind, and reads each.
    fn accept_all(&mut self, end: &mut impl Endpoint, dir: Dir) -> Result<(), Fault> {
        for _ in 0..u64::MAX {
            let Some(id) = accept(end, dir) else {
                break;
            };
            self.read(end, id)?;
        }
        Ok(())
    }

    /// Does what an event of a stream asks for.
    fn answer_stream(&mut self, end: &mut impl Endpoint, event: &StreamEvent) -> Result<(), Fault> {
        match event {
            StreamEvent::Opened { dir } => self.accept_all(end, *dir),
            StreamEvent::Readable { id } => self.read(end, *id),
            StreamEvent::Stopped { id, error_code } => reset(end, *id, *error_code),
            StreamEvent::Writable { .. }
            | StreamEvent::Finished { .. }
            | StreamEvent::Available { .. } => Ok(()),
        }
    }

    /// Does what an event asks for.
    fn answer(&mut self, end: &mut impl Endpoint, event: &Event) -> Result<(), Fault> {
        match event {
            Event::Stream(event) => self.answer_stream(end, event),
            Event::Message => {
                take_messages(end);
                Ok(())
            }
            Event::HandshakeConfirmed => Ok(()),
            Event::Lost(_) => Err(Fault::Lost),
        }
    }

    /// Takes all events, and does what they ask for.
    fn answer_all(&mut self, end: &mut impl Endpoint) -> Result<(), Fault> {
        for _ in 0..u64::MAX {
            let Some(event) = end.poll() else {
                break;
            };
            self.answer(end, &event)?;
        }
        Ok(())
    }

    /// The application's turn: it reads what came, or only takes the events.
    ///
    /// # Errors
    ///
    /// - [`Fault::Lost`]: the connection was lost. The events before that are taken.
    /// - [`Fault::IllegalOrderedRead`]: a stream was read out of order before.
    /// - [`Fault::ClosedStream`]: a stream can't be reset that the peer stopped.
    /// - [`Fault::Memory`]: an allocation fails.
    pub fn act(&mut self, end: &mut impl Endpoint, reads: bool) -> Result<(), Fault> {
        if reads {
            self.answer_all(end)
        } else {
            take_events(end)
        }
    }

    /// Sends until there is nothing to send, and adds the numbers of what was sent.
    ///
    /// # Errors
    ///
    /// - [`Fault::Failed`]: an allocation fails within the endpoint, or did before. What was sent
    ///   before stays sent.
    /// - [`Fault::Memory`]: an allocation fails beside it. What was sent before stays sent.
    pub fn transmit(
        &mut self,
        end: &mut impl Endpoint,
        now: u64,
        numbers: &mut Vec<u64>,
    ) -> Result<(), Fault> {
        for _ in 0..u64::MAX {
            self.out.clear();
            if end
                .poll_transmit(Instant::from_nanos(now), &mut self.out)?
                .is_none()
            {
                break;
            }
            self.sent = self.sent.wrapping_add(1);
            self.bytes = self.bytes.wrapping_add(self.out.len() as u64);
            if let Some(number) = number_of(&self.out)
                && numbers.push(number).is_err()
            {
                return Err(Fault::Memory);
            }
        }
        Ok(())
    }
}
