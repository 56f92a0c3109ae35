//! The queue of streams with something to send.
ghost use Rattle.std.specs.Prelude.{◌≡◌, IfOk, OnOk, OnErr};
ghost use Rattle.quic_streams_parts.specs.Queue.{IsLast, taken_back, after_push, after_remove, first_queued, is_waiting, no_queue};

use quic_streams_parts::{PendingStreamsQueue, Place};
use quic_wire_core::{StreamId, VarInt};
use std::alloc::{AllocError, Global};
use std::marker::Model;

/// The streams with something to send: what is queued is the id of a stream.
#[derive(Drop)]
pub struct PendingStreams {
    queue: PendingStreamsQueue,
}

impl Model for PendingStreams {
    ghost use Rattle.quic_streams_parts.specs.Queue.{Queue};
    ghost use Rattle.quic_streams_halves.specs.Queued.{AreQueuedIds};

    ghost Value = { Queue };

    ghost view = { λ p. p.queue };

    ghost invariant = { λ p. AreQueuedIds p.queue.entries };
}

impl PendingStreams {
    /// No stream is queued.
    pub fn new(alloc: Global) -> Self
        ensures { result ≡ no_queue }
    {
        PendingStreams {
            queue: PendingStreamsQueue::new(alloc),
        }
    }

    /// Queues a stream behind those of its rank, and says where it stands.
    ///
    /// # Errors
    ///
    /// - [`AllocError`]: 2^64 - 1 streams were queued before, or an allocation fails. Nothing
    ///   changes.
    pub fn push(&mut self, rank: u64, id: StreamId) -> Result<Place, AllocError>
        ensures place { IfOk result (λ place. place ≡ (rank, self.old.next)) }
        ensures new { OnOk result (self.new ≡ after_push self.old rank id) }
        ensures back { IfOk result (λ place. taken_back self.new place ≡ self.old) }
        ensures last { IfOk result (λ place. IsLast self.new place) }
        ensures err { OnErr result (self.new ≡ self.old) }
    {
        let place = self.queue.push(rank, VarInt::from(id).into_inner())?;
        Ok(place)
    }

    /// Takes back the stream that was queued last.
    pub fn take_back(&mut self, place: Place)
        requires { IsLast self.old place }
        ensures { self.new ≡ taken_back self.old place }
    {
        self.queue.take_back(place);
    }

    /// Gives up the place of a stream.
    pub fn remove(&mut self, place: Place)
        ensures { self.new ≡ after_remove self.old place }
    {
        self.queue.remove(place);
    }

    /// The stream that goes next.
    pub fn first(&self) -> Option<StreamId>
        ensures { result ≡ first_queued self.now }
    {
        match self.queue.first() {
            Some(id) => Some(StreamId::from(VarInt::from_u64_unchecked(id))),
            None => None,
        }
    }

    /// Whether a stream is queued.
    pub fn is_waiting(&self) -> bool
        ensures { result ≡ is_waiting self.now }
    {
        self.queue.is_waiting()
    }
}
