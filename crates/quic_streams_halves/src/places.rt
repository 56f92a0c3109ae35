//! Which streams were ever in use, by their places.
ghost use Rattle.std.specs.Prelude.{◌≡◌, ℕ, ◌<◌, ◌+◌, ◌^◌, [], OnOk, OnErr};
ghost use Rattle.quic_sets.specs.Runs.{Has};
ghost use Rattle.quic_sets.specs.Offsets.{has, with_offsets};
ghost use Rattle.quic_wire_core.specs.StreamId.{index_of, dir_of};
ghost use Rattle.quic_streams_parts.specs.Dirs.{of, is_own};
ghost use Rattle.quic_streams_halves.specs.Halves.{no_places, places_of, has_place, with_place, with_index};

use quic_sets::IndexSet;
use quic_streams_parts::ByDir;
use quic_wire_core::{Dir, Side, StreamId};
use std::alloc::{AllocError, Global};
use std::marker::Model;

/// Places of streams among those of their kind and opener: a set of runs, which contracts see as
/// the list of them.
#[derive(Drop)]
pub struct Indices(IndexSet);

impl Model for Indices {
    ghost use Rattle.std.specs.Prelude.{List};
    ghost use Rattle.quic_sets.specs.Runs.{Run, AreRuns};

    ghost Value = { List Run };

    ghost view = { λ s. s.0 };

    ghost invariant = { λ s. AreRuns s.0 };
}

impl Indices {
    // None.
    fn new(alloc: Global) -> Self
        ensures { result ≡ [] }
    {
        Indices(IndexSet::new(alloc))
    }

    // Whether an index is among them.
    fn has(&self, index: u64) -> bool
        requires { index < 2 ^ 60 }
        ensures { result ≡ has self.now index }
    {
        self.0.has(index)
    }

    // An index below which all are among them.
    fn first_lacking(&self) -> u64
        ensures { (k : ℕ) → k < result → Has self.now k }
    {
        self.0.first_lacking()
    }

    // An index comes among them.
    fn add(&mut self, index: u64) -> Result<(), AllocError>
        requires { index < 2 ^ 60 }
        ensures ok { OnOk result (self.new ≡ with_offsets index (index + 1) self.old) }
        ensures err { OnErr result (self.new ≡ self.old) }
    {
        self.0.insert(index)
    }
}

/// The places of streams among those of their kind: of streams that this end opened, and of those
/// that the peer opened.
#[derive(Drop)]
pub struct Places {
    /// Of streams that this end opened.
    pub own: ByDir<Indices>,
    /// Of streams that the peer opened.
    pub remote: ByDir<Indices>,
}

// The set of a direction.
fn of(sets: &ByDir<Indices>, dir: Dir) -> &Indices
    ensures { result.now ≡ of dir sets.now }
{
    match dir {
        Dir::Bi => &sets.bi,
        Dir::Uni => &sets.uni,
    }
}

// An index comes into the set of a direction.
fn add_of(sets: &mut ByDir<Indices>, dir: Dir, index: u64) -> Result<(), AllocError>
    requires { index < 2 ^ 60 }
    ensures ok { OnOk result (sets.new ≡ with_index dir index sets.old) }
    ensures err { OnErr result (sets.new ≡ sets.old) }
{
    match dir {
        Dir::Bi => sets.bi.add(index),
        Dir::Uni => sets.uni.add(index),
    }
}

/// Whether this end opens a stream.
pub fn is_own(side: Side, id: StreamId) -> bool
    ensures { result ≡ is_own side id }
{
    match (side, id.initiator()) {
        (Side::Client, Side::Client) | (Side::Server, Side::Server) => true,
        _ => false,
    }
}

impl Places {
    /// None.
    pub fn new(alloc: Global) -> Self
        ensures { result ≡ no_places }
    {
        Places {
            own: ByDir {
                bi: Indices::new(alloc),
                uni: Indices::new(alloc),
            },
            remote: ByDir {
                bi: Indices::new(alloc),
                uni: Indices::new(alloc),
            },
        }
    }

    /// Whether the place of a stream is among them.
    pub fn has(&self, side: Side, id: StreamId) -> bool
        ensures { result ≡ has_place side self.now id }
    {
        if is_own(side, id) {
            of(&self.own, id.dir()).has(id.index())
        } else {
            of(&self.remote, id.dir()).has(id.index())
        }
    }

    /// An index below which all streams of the same direction and opener are among them: the least
    /// of one that isn't, mostly.
    pub fn first_lacking(&self, side: Side, id: StreamId) -> u64
        ensures { (k : ℕ) → k < result → Has (places_of side self.now id) k }
    {
        if is_own(side, id) {
            of(&self.own, id.dir()).first_lacking()
        } else {
            of(&self.remote, id.dir()).first_lacking()
        }
    }

    /// The place of a stream comes among them.
    ///
    /// # Errors
    ///
    /// - [`AllocError`]: an allocation fails. Nothing changes.
    pub fn add(&mut self, side: Side, id: StreamId) -> Result<(), AllocError>
        ensures ok { OnOk result (self.new ≡ with_place side id self.old) }
        ensures err { OnErr result (self.new ≡ self.old) }
    {
        if is_own(side, id) {
            add_of(&mut self.own, id.dir(), id.index())
        } else {
            add_of(&mut self.remote, id.dir(), id.index())
        }
    }
}
