//! What a program does for an endpoint, whatever its application does.

use crate::network::Lane;
use crate::{Endpoint, MANY, PEER};
use anyhow::{Result, bail};
use quic_connection::{
    Bytes, Chunks, Connection, Datagrams, Event, Instant, ReadError, ReadableError, Received,
    RecvStream, SendStream, StreamId, Streams, VarInt,
};
use std::alloc::Global;

/// What an application may ask of its endpoint. Its calls are those of a connection: an application
/// names neither the keys of one nor its congestion controller, and is proved without a look at
/// what one holds.
pub(crate) trait Calls {
    /// All streams, by which one is opened or accepted.
    fn streams(&mut self) -> Streams<'_>;

    /// The sending half of a stream.
    fn send_stream(&mut self, id: StreamId) -> SendStream<'_>;

    /// The receiving half of a stream.
    fn recv_stream(&mut self, id: StreamId) -> RecvStream<'_>;

    /// The messages that wait, in and out.
    fn datagrams(&mut self) -> Datagrams<'_>;

    /// Closes the connection at this time, with a code and a text.
    fn close(&mut self, now: Instant, code: VarInt, text: Bytes);
}

impl Calls for Endpoint {
    fn streams(&mut self) -> Streams<'_> {
        Connection::streams(self)
    }

    fn send_stream(&mut self, id: StreamId) -> SendStream<'_> {
        Connection::send_stream(self, id)
    }

    fn recv_stream(&mut self, id: StreamId) -> RecvStream<'_> {
        Connection::recv_stream(self, id)
    }

    fn datagrams(&mut self) -> Datagrams<'_> {
        Connection::datagrams(self)
    }

    fn close(&mut self, now: Instant, code: VarInt, text: Bytes) {
        Connection::close(self, now, code, text);
    }
}

/// What an application does.
pub(crate) trait Application {
    /// Does what an event asks for.
    fn on_event(
        &mut self,
        rt: &(impl Print + AllocGlobal),
        endpoint: &mut impl Calls,
        now: Instant,
        event: &Event,
    ) -> Result<()>;
}

/// What is done whenever something was handed in: sends all datagrams, and tells all events.
pub(crate) fn serve(
    rt: &(impl Print + AllocGlobal),
    endpoint: &mut Endpoint,
    application: &mut impl Application,
    lane: &mut Lane,
    now: Instant,
) -> Result<()> {
    for _ in 0..MANY {
        send(rt.alloc(), endpoint, lane, now)?;
        let Some(event) = endpoint.poll() else {
            break;
        };
        // The application may call the endpoint, so datagrams are asked for again.
        application.on_event(rt, endpoint, now, &event)?;
    }
    Ok(())
}

/// Sends datagrams until the endpoint gives none.
fn send(alloc: Global, endpoint: &mut Endpoint, lane: &mut Lane, now: Instant) -> Result<()> {
    for _ in 0..MANY {
        let mut bytes = Vec::new(alloc);
        let Some(transmit) = endpoint.poll_transmit(now, &mut bytes)? else {
            break;
        };
        lane.push(now, transmit.ecn, bytes)?;
    }
    Ok(())
}

/// When something is to be done next for the endpoint: a datagram arrives, or a timer expires.
pub(crate) fn next_time(endpoint: &Endpoint, lane: &Lane) -> Option<Instant> {
    let times = [endpoint.poll_timeout(), lane.next_arrival()];
    times.iter().copied().flatten().min()
}

/// Hands in the datagrams that have arrived, and the time, by which timers expire.
pub(crate) fn take(endpoint: &mut Endpoint, lane: &mut Lane, now: Instant) -> Result<()> {
    for _ in 0..MANY {
        let Some(mut flight) = lane.pop_due(now) else {
            break;
        };
        // It is opened in place.
        match endpoint.receive(now, PEER, flight.ecn, &mut flight.bytes) {
            // Why a datagram is dropped is for logs: a closed endpoint drops each.
            Received::Taken | Received::Dropped(_) => {}
            Received::Closed(error) => bail!("the peer broke a rule: {error}"),
            Received::Failed => bail!("out of memory"),
        }
    }
    Ok(endpoint.handle_timeout(now)?)
}

/// What a read came to.
#[derive(Drop)]
pub(crate) enum Reading {
    /// More is to come: `StreamEvent::Readable` tells when to read on.
    Blocked,
    /// The stream was read to its FIN.
    Finished,
    /// The peer reset the stream.
    Reset,
    /// There was nothing more to read: the FIN or a reset was met before.
    Closed,
}

/// Reads what has come on a stream, and appends it.
pub(crate) fn read(
    endpoint: &mut impl Calls,
    id: StreamId,
    bytes: &mut Vec<u8>,
) -> Result<Reading> {
    match endpoint.recv_stream(id).read(true) {
        Ok(mut chunks) => {
            let reading = take_chunks(&mut chunks, bytes)?;
            // The limits that grew by the read are to be told: `serve` asks for datagrams next.
            let _ = chunks.finalize();
            Ok(reading)
        }
        // `StreamEvent::Readable` may come behind the read that met the FIN.
        Err(ReadableError::ClosedStream) => Ok(Reading::Closed),
        Err(error) => Err(error.into()),
    }
}

/// Appends all bytes that have come.
fn take_chunks(chunks: &mut Chunks<'_>, bytes: &mut Vec<u8>) -> Result<Reading> {
    for _ in 0..MANY {
        match chunks.next(1200) {
            Ok(Some(chunk)) => bytes.extend_from_slice(chunk.bytes.as_slice())?,
            Ok(None) => return Ok(Reading::Finished),
            Err(ReadError::Blocked) => break,
            Err(ReadError::Reset(_)) => return Ok(Reading::Reset),
            Err(error) => return Err(error.into()),
        }
    }
    Ok(Reading::Blocked)
}

/// A time in milliseconds, as it is printed.
pub(crate) fn millis(now: Instant) -> u64 {
    now.as_nanos() / 1_000_000
}
