//! What the program asks of an end.
use crate::fault::Fault;
use crate::pair::Limits;
use quic_connection::{
    ConnectionStats, Datagrams, EcnCodepoint, Event, Failed, Instant, NextIdError, Received,
    RecvStream, SendStream, StreamId, Streams, Transmit,
};
use quic_wire_core::Side;
use std::alloc::Global;

/// What may be asked of an end; [`End`](crate::end::End) is the one that answers. Its calls are
/// those of a connection.
///
/// A function over any end is proved without a look at what a connection holds, and so in far less
/// time than one over [`End`](crate::end::End) itself.
pub trait Endpoint: Drop {
    /// Makes the end of this side at the moment 0, for a peer with the same limits.
    ///
    /// # Errors
    ///
    /// - [`Fault::Config`]: it can't be made.
    /// - [`Fault::Memory`]: an allocation fails.
    fn new(alloc: Global, side: Side, limits: &Limits) -> Result<Box<Self>, Fault>;

    /// Takes a datagram that came at this time with this ECN codepoint, and opens it in place: what
    /// becomes of it.
    fn receive(&mut self, now: Instant, ecn: Option<EcnCodepoint>, datagram: &mut [u8]) -> Received;

    /// Appends the next datagram that is to be sent at this time: its size and how it is marked;
    /// none where there is nothing to send.
    ///
    /// # Errors
    ///
    /// - [`Failed`]: an allocation failed, now or before.
    fn poll_transmit(
        &mut self,
        now: Instant,
        out: &mut Vec<u8>,
    ) -> Result<Option<Transmit>, Failed>;

    /// The moment at which its next timer expires, if one is set.
    fn poll_timeout(&self) -> Option<Instant>;

    /// Lets the timers expire that are set to this time or an earlier one.
    ///
    /// # Errors
    ///
    /// - [`Failed`]: an allocation failed, now or before.
    fn handle_timeout(&mut self, now: Instant) -> Result<(), Failed>;

    /// Takes the next event, if there is one.
    fn poll(&mut self) -> Option<Event>;

    /// All streams.
    fn streams(&mut self) -> Streams<'_>;

    /// The sending half of a stream.
    fn send_stream(&mut self, id: StreamId) -> SendStream<'_>;

    /// The receiving half of a stream.
    fn recv_stream(&mut self, id: StreamId) -> RecvStream<'_>;

    /// The messages that wait, in and out.
    fn datagrams(&mut self) -> Datagrams<'_>;

    /// Queues a PING.
    fn ping(&mut self);

    /// Sends to the next id that the peer gave, from now on.
    ///
    /// # Errors
    ///
    /// - [`NextIdError`]: no later id is known, too many retirements would wait, or an allocation
    ///   fails. Nothing changes.
    fn use_next_id(&mut self) -> Result<(), NextIdError>;

    /// Whether it is no longer open: it is closing, drained or failed.
    fn is_closed(&self) -> bool;

    /// What was counted, and what is known of the path.
    fn stats(&self) -> ConnectionStats;
}
