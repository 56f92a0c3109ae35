//! The streams that are queued, by the places where they stand.
ghost use Rattle.std.specs.Prelude.{◌≡◌, OnOk, OnErr, [], IsTrue};
ghost use Rattle.std.specs.BTreeMap.{insert_entry, is_at};
ghost use Rattle.std.specs.Map.{remove_entry};
ghost use Rattle.quic_streams_parts.specs.Queue.{first_of, place_cmp, IsParted};

use crate::by_number::ByNumber;
use crate::pending_queue::Place;
use std::alloc::{AllocError, Global};
use std::collections::BTreeMap;
use std::marker::Model;

/// Ids of streams by place. Nearly all streams have one rank: those of the usual rank stand by
/// turn, most of them in a ring, so that a place is given and given up in constant time, amortized,
/// with no allocation for each. Those of other ranks stand in ordered maps.
#[derive(Drop)]
pub(crate) struct ByPlace {
    // Those of ranks below the usual one.
    low: BTreeMap<(u64, u64), u64>,
    rank: u64,
    // Those of the usual rank, by turn.
    usual: ByNumber<u64>,
    // Those of ranks above it.
    high: BTreeMap<(u64, u64), u64>,
}

impl Model for ByPlace {
    ghost use Rattle.std.specs.Prelude.{List, ℕ};
    ghost use Rattle.quic_streams_parts.specs.Queue.{Place, IsParted, parted};

    ghost Value = { List (Place × ℕ) };

    ghost view = { λ q. parted q.low.entries q.rank q.usual q.high.entries };

    ghost invariant = { λ q. IsParted q.low.entries q.rank q.high.entries };
}

/// Whether a rank parts streams as another does: those of `low` lie below it, and those of `high`
/// above.
fn may_part(
    low: &BTreeMap<(u64, u64), u64>,
    parting: u64,
    high: &BTreeMap<(u64, u64), u64>,
    rank: u64,
) -> bool
    requires { IsParted low.now.entries parting high.now.entries }
    ensures { IsTrue result → IsParted low.now.entries rank high.now.entries }
{
    if rank < parting {
        match low.last_key_value() {
            Some((place, _)) => place.0 < rank,
            None => true,
        }
    } else {
        match high.first_key_value() {
            Some((place, _)) => rank < place.0,
            None => true,
        }
    }
}

impl ByPlace {
    /// No streams.
    pub(crate) fn new(alloc: Global) -> Self
        ensures { result ≡ [] }
    {
        ByPlace {
            low: BTreeMap::new(alloc),
            rank: 0,
            usual: ByNumber::new(alloc),
            high: BTreeMap::new(alloc),
        }
    }

    /// A stream gets a place.
    ///
    /// # Errors
    ///
    /// - [`AllocError`]: an allocation fails. Nothing changes.
    pub(crate) fn insert(&mut self, place: Place, id: u64) -> Result<(), AllocError>
        ensures ok { OnOk result (self.new ≡ insert_entry place_cmp self.old place id) }
        ensures err { OnErr result (self.new ≡ self.old) }
    {
        self.settle(place.0);
        self.put(place, id)
    }

    /// A rank becomes the usual one where no stream has that, and none stands between the two.
    fn settle(&mut self, rank: u64)
        ensures { self.new ≡ self.old }
    {
        if rank == self.rank || self.usual.first().is_some() {
            return;
        }
        if may_part(&self.low, self.rank, &self.high, rank) {
            self.rank = rank;
        }
    }

    /// A stream gets a place, among those of its rank.
    ///
    /// # Errors
    ///
    /// - [`AllocError`]: an allocation fails. Nothing changes.
    fn put(&mut self, place: Place, id: u64) -> Result<(), AllocError>
        ensures ok { OnOk result (self.new ≡ insert_entry place_cmp self.old place id) }
        ensures err { OnErr result (self.new ≡ self.old) }
    {
        let (rank, turn) = place;
        if rank == self.rank {
            let _ = self.usual.insert(turn, id, u64::MAX)?;
        } else if rank < self.rank {
            let _ = self.low.insert(place, id)?;
        } else {
            let _ = self.high.insert(place, id)?;
        }
        Ok(())
    }

    /// A place is given up.
    pub(crate) fn remove(&mut self, place: Place)
        ensures { self.new ≡ remove_entry (is_at (place_cmp place)) self.old }
    {
        let (rank, turn) = place;
        if rank == self.rank {
            let _ = self.usual.remove(turn);
        } else if rank < self.rank {
            let _ = self.low.remove(&place);
        } else {
            let _ = self.high.remove(&place);
        }
    }

    /// The stream at the first place.
    pub(crate) fn first(&self) -> Option<u64>
        ensures { result ≡ first_of self.now }
    {
        if let Some((_, id)) = self.low.first_key_value() {
            return Some(*id);
        }
        if let Some(id) = self.usual.first() {
            return Some(*id);
        }
        match self.high.first_key_value() {
            Some((_, id)) => Some(*id),
            None => None,
        }
    }
}
