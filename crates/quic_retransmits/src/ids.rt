//! Sets of stream ids.
ghost use Rattle.std.specs.Prelude.{◌≡◌, ◌<◌, ◌^◌, ℕ, List, [], not, true, false, None, IfOk, OnOk, OnErr};
ghost use Rattle.std.specs.List.{list_any};
ghost use Rattle.std.specs.Option.{is_some};
ghost use Rattle.quic_retransmits.specs.Retransmits.{AreIds, with_id, without_id, with_ids, without_ids, has_id, first_of, others_of, is_any};
ghost use Rattle.quic_retransmits.specs.Lone.{all_ids, AreAllIds};

use crate::queries::LimitQueries;
use crate::retransmits::ControlKind;
use quic_wire_core::{StreamId, VarInt};
use std::alloc::{AllocError, Global};
use std::collections::BTreeSet;
use std::marker::Model;

/// A set of stream ids. Contracts see them, ascending. An id that is put into an empty set takes no
/// memory.
#[derive(Drop)]
pub struct StreamIds {
    // The only id, where it came into an empty set: `ids` has none then.
    lone: Option<u64>,
    ids: BTreeSet<u64>,
}

impl Model for StreamIds {
    ghost use Rattle.std.specs.Prelude.{List, ℕ};
    ghost use Rattle.quic_retransmits.specs.Lone.{all_ids, AreAllIds};

    ghost Value = { List ℕ };

    ghost view = { λ s. all_ids s.lone s.ids.keys };

    ghost invariant = { λ s. AreAllIds s.lone s.ids.keys };
}

// Whether an id is the only one.
fn is_lone(lone: Option<u64>, id: u64) -> bool
    ensures { result ≡ has_id id (all_ids lone []) }
{
    match lone {
        Some(only) => only == id,
        None => false,
    }
}

// The only id comes among the others. An `Err` (want of memory) changes nothing.
fn spread(lone: &mut Option<u64>, ids: &mut BTreeSet<u64>) -> Result<(), AllocError>
    requires { AreAllIds lone.old ids.old.keys }
    ensures none { OnOk result (lone.new ≡ None) }
    ensures ok { OnOk result (ids.new.keys ≡ all_ids lone.old ids.old.keys) }
    ensures err { OnErr result (lone.new ≡ lone.old) }
    ensures same { OnErr result (ids.new.keys ≡ ids.old.keys) }
    ensures lacking { OnErr result (is_some lone.old ≡ true) }
{
    if let Some(id) = *lone {
        ids.insert(id)?;
        *lone = None;
    }
    Ok(())
}

// The stream of a number.
fn id_of(number: u64) -> StreamId
    requires { number < 2 ^ 62 }
    ensures { result ≡ number }
{
    StreamId::from(VarInt::from_u64_unchecked(number))
}

// Puts an id in, and notes it where it is new.
fn insert_noted(ids: &mut BTreeSet<u64>, id: u64, added: &mut Vec<u64>) -> Result<(), AllocError>
    ensures ok { OnOk result (ids.new.keys ≡ with_id id ids.old.keys) }
    ensures back { without_ids added.new.items ids.new.keys ≡ without_ids added.old.items ids.old.keys }
    ensures err { OnErr result (ids.new.keys ≡ ids.old.keys) }
{
    added.reserve(1)?;
    if ids.insert(id)? {
        added.push_reserved(id);
    }
    Ok(())
}

// Takes ids out, the last of them first.
fn remove_all(ids: &mut BTreeSet<u64>, added: &mut Vec<u64>)
    ensures { ids.new.keys ≡ without_ids added.old.items ids.old.keys }
{
    while let Some(id) = added.pop() {
        ids.remove(&id);
    }
}

// Puts the ids of another set in, and notes those that are new. Where memory lacks, these come out
// again.
fn insert_all(
    ids: &mut BTreeSet<u64>,
    more: &BTreeSet<u64>,
    added: &mut Vec<u64>,
) -> Result<(), AllocError>
    requires { added.old.items ≡ [] }
    ensures ok { OnOk result (ids.new.keys ≡ with_ids more.now.keys ids.old.keys) }
    ensures back { OnOk result (without_ids added.new.items ids.new.keys ≡ ids.old.keys) }
    ensures err { OnErr result (ids.new.keys ≡ ids.old.keys) }
{
    for id in more.iter() {
        if insert_noted(ids, *id, added).is_err() {
            remove_all(ids, added);
            return Err(AllocError);
        }
    }
    Ok(())
}

// Whether a frame of a kind may be sent on one of the streams.
fn any_counts<S: LimitQueries>(kind: ControlKind, ids: &BTreeSet<u64>, streams: &S) -> bool
    requires { AreIds ids.now.keys }
    ensures { result ≡ list_any (λ id. S.gate_on streams.now kind id) ids.now.keys }
{
    for id in ids.iter() {
        if streams.counts_on(kind, id_of(*id)) {
            return true;
        }
    }
    false
}

impl StreamIds {
    /// No id.
    pub fn new(alloc: Global) -> Self
        ensures { result ≡ [] }
    {
        StreamIds {
            lone: None,
            ids: BTreeSet::new(alloc),
        }
    }

    /// Whether it has an id.
    pub fn contains(&self, id: StreamId) -> bool
        ensures { result ≡ has_id id self.now }
    {
        let id = u64::from(id);
        is_lone(self.lone, id) || self.ids.contains(&id)
    }

    /// Puts an id in, and says whether it is new.
    ///
    /// # Errors
    ///
    /// - [`AllocError`]: an allocation fails, where the id is new. Nothing changes.
    pub fn insert(&mut self, id: StreamId) -> Result<bool, AllocError>
        ensures new { OnOk result (self.new ≡ with_id id self.old) }
        ensures answer { IfOk result (λ is_new. is_new ≡ not (has_id id self.old)) }
        ensures err { OnErr result (self.new ≡ self.old) }
        ensures lacking { OnErr result (has_id id self.old ≡ false) }
    {
        let id = VarInt::from(id).into_inner();
        if is_lone(self.lone, id) {
            return Ok(false);
        }
        if self.lone.is_none() && self.ids.is_empty() {
            self.lone = Some(id);
            return Ok(true);
        }
        spread(&mut self.lone, &mut self.ids)?;
        let is_new = self.ids.insert(id)?;
        Ok(is_new)
    }

    /// Takes an id out, if it has it, and says whether it had.
    pub fn remove(&mut self, id: StreamId) -> bool
        ensures new { self.new ≡ without_id id self.old }
        ensures answer { result ≡ has_id id self.old }
    {
        self.remove_number(u64::from(id))
    }

    // Takes the id of this number out, if it has it, and says whether it had.
    fn remove_number(&mut self, id: u64) -> bool
        ensures new { self.new ≡ without_id id self.old }
        ensures answer { result ≡ has_id id self.old }
    {
        if is_lone(self.lone, id) {
            self.lone = None;
            return true;
        }
        self.ids.remove(&id)
    }

    /// Takes an id back that was put in, which was new then or wasn't.
    pub fn take_back(&mut self, id: StreamId, was_new: bool)
        ensures { (before : List ℕ) → self.old ≡ with_id id before → was_new ≡ not (has_id id before) → self.new ≡ before }
    {
        // The proof reads that the ids ascend.
        let _count = self.ids.len();
        if was_new {
            let _ = self.remove_number(u64::from(id));
        }
    }

    /// The least id.
    pub fn first(&self) -> Option<StreamId>
        ensures { result ≡ first_of self.now }
    {
        if let Some(id) = self.lone {
            return Some(id_of(id));
        }
        match self.ids.first() {
            Some(id) => Some(id_of(*id)),
            None => None,
        }
    }

    /// Takes the least id out.
    pub fn pop_first(&mut self) -> Option<StreamId>
        ensures answer { result ≡ first_of self.old }
        ensures new { self.new ≡ others_of self.old }
    {
        if let Some(id) = self.lone {
            self.lone = None;
            return Some(id_of(id));
        }
        match self.ids.pop_first() {
            Some(id) => Some(id_of(id)),
            None => None,
        }
    }

    /// Whether it has no id.
    pub fn is_empty(&self) -> bool
        ensures { result ≡ not (is_any self.now) }
    {
        self.lone.is_none() && self.ids.is_empty()
    }

    /// Puts the ids of another set in, and gives those that are new, by which the call can be taken
    /// back.
    ///
    /// # Errors
    ///
    /// - [`AllocError`]: an allocation fails, where the other set isn't empty. Nothing changes.
    pub fn extend(&mut self, alloc: Global, more: &StreamIds) -> Result<Vec<u64>, AllocError>
        ensures ok { OnOk result (self.new ≡ with_ids more.now self.old) }
        ensures back { IfOk result (λ added. without_ids added.items self.new ≡ self.old) }
        ensures err { OnErr result (self.new ≡ self.old) }
        ensures lacking { OnErr result (is_any more.now ≡ true) }
    {
        let mut added = Vec::new(alloc);
        if more.is_empty() {
            return Ok(added);
        }
        spread(&mut self.lone, &mut self.ids)?;
        match more.lone {
            Some(id) => insert_noted(&mut self.ids, id, &mut added)?,
            None => insert_all(&mut self.ids, &more.ids, &mut added)?,
        }
        Ok(added)
    }

    /// Takes ids out.
    pub fn remove_all(&mut self, mut ids: Vec<u64>)
        ensures { self.new ≡ without_ids ids.items self.old }
    {
        while let Some(id) = ids.pop() {
            let _ = self.remove_number(id);
        }
    }

    /// Whether a frame of a kind may be sent on one of the streams.
    pub fn any_counts<S: LimitQueries>(&self, kind: ControlKind, streams: &S) -> bool
        ensures { result ≡ list_any (λ id. S.gate_on streams.now kind id) self.now }
    {
        match self.lone {
            Some(id) => streams.counts_on(kind, id_of(id)),
            None => any_counts(kind, &self.ids, streams),
        }
    }
}
