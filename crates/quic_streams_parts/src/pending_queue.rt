//! The queue of streams with something to send.
ghost use Rattle.std.specs.Prelude.{◌≡◌, ◌+◌, ◌<◌, IfOk, OnOk, OnErr, ◌∷◌, []};
ghost use Rattle.quic_streams_parts.specs.Queue.{IsLast, taken_back, after_push, after_remove, first_queued, is_waiting, no_queue, order, pushed};

use crate::by_place::ByPlace;
use std::alloc::{AllocError, Global};
use std::marker::Model;

/// Where a stream stands in the queue: its rank, and the turn at which it was queued.
pub type Place = (u64, u64);

/// The streams with something to send, the lowest rank first, equal ones in the order in which they
/// were queued (quinn-proto's `PendingStreamsQueue`).
#[derive(Drop)]
pub struct PendingStreamsQueue {
    streams: ByPlace,
    // The turn of the next stream that is queued.
    next: u64,
}

impl Model for PendingStreamsQueue {
    ghost use Rattle.quic_streams_parts.specs.Queue.{Queue, IsQueue};

    ghost Value = { Queue };

    ghost view = { λ q. record { entries = q.streams; next = q.next } };

    ghost invariant = { λ q. IsQueue q.streams q.next };
}

impl PendingStreamsQueue {
    /// No stream is queued.
    pub fn new(alloc: Global) -> Self
        ensures { result ≡ no_queue }
    {
        PendingStreamsQueue {
            streams: ByPlace::new(alloc),
            next: 0,
        }
    }

    /// Queues a stream behind those of its rank, and says where it stands.
    ///
    /// # Errors
    ///
    /// - [`AllocError`]: 2^64 - 1 streams were queued before, or an allocation fails. Nothing
    ///   changes.
    pub fn push(&mut self, rank: u64, id: u64) -> Result<Place, AllocError>
        ensures place { IfOk result (λ place. place ≡ (rank, self.old.next)) }
        ensures new { OnOk result (self.new ≡ after_push self.old rank id) }
        ensures order { OnOk result (order self.new.entries ≡ pushed (order self.old.entries) rank id) }
        ensures back { IfOk result (λ place. taken_back self.new place ≡ self.old) }
        ensures last { IfOk result (λ place. IsLast self.new place) }
        ensures err { OnErr result (self.new ≡ self.old) }
    {
        let turn = self.next;
        let Some(next) = turn.checked_add(1) else {
            return Err(AllocError);
        };
        self.streams.insert((rank, turn), id)?;
        self.next = next;
        Ok((rank, turn))
    }

    /// Takes back the stream that was queued last.
    pub fn take_back(&mut self, place: Place)
        requires { IsLast self.old place }
        ensures { self.new ≡ taken_back self.old place }
    {
        self.streams.remove(place);
        self.next = place.1;
    }

    /// Gives up the place of a stream.
    pub fn remove(&mut self, place: Place)
        ensures { self.new ≡ after_remove self.old place }
    {
        self.streams.remove(place);
    }

    /// The stream that goes next.
    pub fn first(&self) -> Option<u64>
        ensures { result ≡ first_queued self.now }
    {
        self.streams.first()
    }

    /// Whether a stream is queued.
    pub fn is_waiting(&self) -> bool
        ensures { result ≡ is_waiting self.now }
    {
        self.first().is_some()
    }
}
