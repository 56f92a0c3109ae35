// Parts of a stream by the offset behind a part's last byte, of which the first stands in the
// struct itself.
ghost use Rattle.std.specs.Prelude.{◌≡◌, ◌↔◌, ◌-◌, ◌<◌, ◌≤◌, ◌^◌, [], ◌∷◌, length, take, drop, not, cond, is_some, slice_get, None, IsSome, IfSome, IfOk, OnOk, OnErr, IsOk};
ghost use Rattle.std.specs.Option.{option_map};
ghost use Rattle.std.specs.Ordering.{nat_cmp};
ghost use Rattle.std.specs.Map.{lookup, remove_entry};
ghost use Rattle.std.specs.BTreeMap.{insert_entry, is_at};
ghost use Rattle.quic_sets.specs.Parts.{after};
ghost use Rattle.quic_assembler.specs.Arrived.{is_some_part, left_front};
ghost use Rattle.quic_assembler.specs.PartSteps.{first_bytes, rest_of, front_of};

use bytes::Bytes;
use quic_sets::by_end;
use std::alloc::{AllocError, Global};
use std::collections::BTreeMap;
use std::marker::Model;
use std::mem;

/// Parts in the order of their ends. Most come in order and are read at once: so a lone part takes
/// no memory but its bytes.
#[derive(Drop)]
pub(crate) struct PartMap {
    // It ends before the others, of which there are none where there is none.
    first: Option<(u64, Bytes)>,
    others: BTreeMap<u64, Bytes>,
}

impl Model for PartMap {
    ghost use Rattle.std.specs.Prelude.{List};
    ghost use Rattle.quic_sets.specs.Parts.{Part};
    ghost use Rattle.quic_assembler.specs.PartRow.{part_row, IsPartRow};

    ghost Value = { List Part };

    ghost view = { λ m. part_row m.first m.others.entries };

    ghost invariant = { λ m. IsPartRow m.first m.others.entries };
}

impl PartMap {
    /// No part.
    pub(crate) fn new(alloc: Global) -> Self
        ensures { result ≡ [] }
    {
        PartMap {
            first: None,
            others: BTreeMap::new(alloc),
        }
    }

    /// Whether there is none.
    pub(crate) fn is_empty(&self) -> bool
        ensures { result ≡ not (is_some_part self.now) }
    {
        self.first.is_none()
    }

    /// How many there are.
    pub(crate) fn len(&self) -> usize
        ensures { result ≡ length self.now }
    {
        match &self.first {
            Some(_) => self.others.len() + 1,
            None => 0,
        }
    }

    /// The first.
    pub(crate) fn first(&self) -> Option<(u64, &Bytes)>
        ensures variant { IsSome result ↔ (0 < length self.now) }
        ensures first { IfSome result (λ p. slice_get self.now 0 ≡ Some (p.0, p.1.now)) }
    {
        match &self.first {
            Some((end, bytes)) => Some((*end, bytes)),
            None => None,
        }
    }

    /// The last.
    pub(crate) fn last(&self) -> Option<(u64, &Bytes)>
        ensures variant { IsSome result ↔ (0 < length self.now) }
        ensures last { IfSome result (λ p. slice_get self.now (length self.now - 1) ≡ Some (p.0, p.1.now)) }
    {
        match self.others.last_key_value() {
            Some((end, bytes)) => Some((*end, bytes)),
            None => self.first(),
        }
    }

    /// Whether one ends at an offset.
    pub(crate) fn contains(&self, end: u64) -> bool
        ensures { result ≡ is_some (lookup (is_at (nat_cmp end)) self.now) }
    {
        match &self.first {
            Some((first, _)) => *first == end || self.others.contains_key(&end),
            None => false,
        }
    }

    /// The first that ends behind an offset.
    pub(crate) fn next(&self, at: u64) -> Option<(u64, &Bytes)>
        requires { at < 2 ^ 62 }
        ensures { option_map (λ p. (p.0, p.1.now)) result ≡ after at self.now }
    {
        if let Some((end, bytes)) = &self.first
            && at < *end
        {
            return Some((*end, bytes));
        }
        by_end::next_part(&self.others, at)
    }

    /// Keeps a part that ends at `end`.
    ///
    /// # Errors
    ///
    /// - [`AllocError`]: an allocation fails. Nothing changes.
    pub(crate) fn keep(&mut self, end: u64, part: Bytes) -> Result<(), AllocError>
        ensures ok { OnOk result (self.new ≡ insert_entry nat_cmp self.old end part) }
        ensures err { OnErr result (self.new ≡ self.old) }
    {
        if self.first.is_none() {
            self.first = Some((end, part));
            return Ok(());
        }
        self.keep_beside(end, part)
    }

    // The same where there may be others. It stands apart so that a lone part, as most are, is kept
    // without a call.
    #[inline(never)]
    fn keep_beside(&mut self, end: u64, part: Bytes) -> Result<(), AllocError>
        ensures ok { OnOk result (self.new ≡ insert_entry nat_cmp self.old end part) }
        ensures err { OnErr result (self.new ≡ self.old) }
    {
        let Some(first) = &mut self.first else {
            self.first = Some((end, part));
            return Ok(());
        };
        if first.0 < end {
            return by_end::keep(&mut self.others, end, part);
        }
        if first.0 == end {
            first.1 = part;
            return Ok(());
        }
        let (behind, bytes) = mem::replace(first, (end, part));
        if let Err(failed) = self.others.insert(behind, bytes) {
            *first = failed.value;
            return Err(AllocError);
        }
        Ok(())
    }

    /// Takes out the part that ends at `end`, if there is one.
    pub(crate) fn remove(&mut self, end: u64)
        ensures { self.new ≡ remove_entry (is_at (nat_cmp end)) self.old }
    {
        let Some((first, _)) = &self.first else {
            return;
        };
        if *first == end {
            self.first = self.others.pop_first();
            return;
        }
        let _ = self.others.remove(&end);
    }

    /// Takes out the first.
    pub(crate) fn pop_first(&mut self) -> Option<(u64, Bytes)>
        ensures removal { IfSome result (λ p. self.old ≡ p ∷ self.new) }
        ensures none { result ≡ None → self.old ≡ [] }
        ensures same { result ≡ None → self.new ≡ self.old }
    {
        let next = self.others.pop_first();
        mem::replace(&mut self.first, next)
    }

    /// Takes out the first bytes of the first, which has more than `max`.
    ///
    /// # Errors
    ///
    /// - [`AllocError`]: an allocation fails, where `max` isn't 0. Nothing changes.
    pub(crate) fn split_front(&mut self, max: usize) -> Result<Option<Bytes>, AllocError>
        requires { IfSome (first_bytes self.old) (λ b. max < length b) }
        ensures ok { IfOk result (λ b. b ≡ front_of self.old max) }
        ensures new { OnOk result (self.new ≡ left_front self.old max) }
        ensures err { OnErr result (self.new ≡ self.old) }
        ensures none { max ≡ 0 → IsOk result }
    {
        match &mut self.first {
            Some((_, bytes)) => Ok(Some(bytes.split_to(max)?)),
            None => Ok(None),
        }
    }

    /// Drops the first bytes of the first, which has more than `max`.
    pub(crate) fn skip_front(&mut self, max: usize)
        requires { IfSome (first_bytes self.old) (λ b. max < length b) }
        ensures { self.new ≡ left_front self.old max }
    {
        if let Some((_, bytes)) = &mut self.first {
            bytes.advance(max);
        }
    }

    /// Drops all.
    pub(crate) fn clear(&mut self)
        ensures { self.new ≡ [] }
    {
        self.first = None;
        self.others.clear();
    }
}
