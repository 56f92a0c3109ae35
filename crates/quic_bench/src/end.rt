//! An end, as a connection with null keys.
use crate::endpoint::Endpoint;
use crate::fault::Fault;
use crate::lane::LEAST_MTU;
use crate::pair::Limits;
use quic_connection::{
    AckFrequencyConfig, Address, Config, Connection, ConnectionStats, Datagrams, EcnCodepoint,
    Event, Failed, Instant, Making, NewReno, NewRenoConfig, NextIdError, Received, RecvStream,
    SendStream, StreamId, Streams, Transmit, TransportConfig, TransportParameters,
};
use quic_keys::{PlainHeaderKey, PlainKey, Words, keys_for};
use quic_wire_core::{ConnectionId, Side};
use std::alloc::{AllocError, Global};

/// One end, with null keys.
pub type End = Connection<PlainHeaderKey, PlainKey, Words, NewReno>;

/// Every random word of an end.
const RANDOM_WORD: u64 = 63;

/// By which number an end knows the address of its peer, which stays.
const PEER: Address = Address(0);

/// The first id of an end.
fn id_of(side: Side) -> ConnectionId {
    match side {
        Side::Client => ConnectionId::new(&[0xc0; 8]),
        Side::Server => ConnectionId::new(&[0x50; 8]),
    }
}

/// The settings of an end. Datagrams keep the size that every lane carries, unless a larger one is
/// looked for, and no idle timeout runs, so that both ends can rest.
fn transport(limits: &Limits) -> TransportConfig {
    let mut transport = TransportConfig::default();
    transport.initial_mtu(LEAST_MTU);
    transport.min_mtu(LEAST_MTU);
    if !limits.searches {
        transport.mtu_discovery_config(None);
    }
    transport.max_idle_timeout(None);
    transport.max_concurrent_uni_streams(limits.streams);
    transport.max_concurrent_bidi_streams(limits.streams);
    transport.stream_receive_window(limits.window);
    transport.send_window(limits.window.into_inner().saturating_mul(8));
    if let Some(threshold) = limits.threshold {
        let mut frequency = AckFrequencyConfig::default();
        frequency.ack_eliciting_threshold(threshold);
        transport.ack_frequency_config(Some(frequency));
    }
    transport
}

/// What an end with these limits is made of.
fn making(side: Side, limits: &Limits) -> Making<NewRenoConfig, PlainHeaderKey, PlainKey, Words> {
    Making {
        config: Config::new(transport(limits), NewRenoConfig::default()),
        id: id_of(side),
        keys: keys_for(side),
        random: Words::word(RANDOM_WORD),
        remote: PEER,
        validated: true,
    }
}

/// An end on the heap. An `Err` is want of memory.
fn boxed(alloc: Global, end: End) -> Result<Box<End>, AllocError> {
    Ok(Box::new(alloc, end)?)
}

// Each call but `new` is inlined, so that what a connection does is counted under the names of its
// own functions.
impl Endpoint for End {
    fn new(alloc: Global, side: Side, limits: &Limits) -> Result<Box<End>, Fault> {
        let making = making(side, limits);
        // The peer is made of the same settings.
        let told = making
            .config
            .write_parameters(alloc, &TransportParameters::ORDER)?;
        let now = Instant::from_nanos(0);
        let end = making.connection(alloc, side, now, &told, id_of(!side))?;
        Ok(boxed(alloc, end)?)
    }

    #[inline(always)]
    fn receive(
        &mut self,
        now: Instant,
        ecn: Option<EcnCodepoint>,
        datagram: &mut [u8],
    ) -> Received {
        Connection::receive(self, now, PEER, ecn, datagram)
    }

    #[inline(always)]
    fn poll_transmit(
        &mut self,
        now: Instant,
        out: &mut Vec<u8>,
    ) -> Result<Option<Transmit>, Failed> {
        Connection::poll_transmit(self, now, out)
    }

    #[inline(always)]
    fn poll_timeout(&self) -> Option<Instant> {
        Connection::poll_timeout(self)
    }

    #[inline(always)]
    fn handle_timeout(&mut self, now: Instant) -> Result<(), Failed> {
        Connection::handle_timeout(self, now)
    }

    #[inline(always)]
    fn poll(&mut self) -> Option<Event> {
        Connection::poll(self)
    }

    #[inline(always)]
    fn streams(&mut self) -> Streams<'_> {
        Connection::streams(self)
    }

    #[inline(always)]
    fn send_stream(&mut self, id: StreamId) -> SendStream<'_> {
        Connection::send_stream(self, id)
    }

    #[inline(always)]
    fn recv_stream(&mut self, id: StreamId) -> RecvStream<'_> {
        Connection::recv_stream(self, id)
    }

    #[inline(always)]
    fn datagrams(&mut self) -> Datagrams<'_> {
        Connection::datagrams(self)
    }

    #[inline(always)]
    fn ping(&mut self) {
        Connection::ping(self);
    }

    #[inline(always)]
    fn use_next_id(&mut self) -> Result<(), NextIdError> {
        Connection::use_next_id(self)
    }

    #[inline(always)]
    fn is_closed(&self) -> bool {
        Connection::is_closed(self)
    }

    #[inline(always)]
    fn stats(&self) -> ConnectionStats {
        Connection::stats(self)
    }
}
