//! Values by number: the latest in a ring, and those that fell out of it in an ordered map.
ghost use Rattle.std.specs.Prelude.{◌≡◌, [], true, None, IfOk, OnOk, OnErr};
ghost use Rattle.std.specs.Option.{option_copied, option_copied_mut};
ghost use Rattle.std.specs.Borrow.{sem};
ghost use Rattle.std.specs.List.Sorted.{IsStrictlySortedBy};
ghost use Rattle.std.specs.Map.{keys_of};
ghost use Rattle.std.specs.Ordering.{nat_cmp};
ghost use Rattle.quic_streams_parts.specs.Slots.{first_value};
ghost use Rattle.quic_streams_parts.specs.Table.{at, added, without};

use crate::ring::Ring;
use std::alloc::{AllocError, Global};
use std::collections::BTreeMap;
use std::marker::Model;

/// Values by number, for numbers that come nearly in order. One of the latest 65536 numbers is
/// found, kept and taken out in constant time, amortized, and an earlier one in the logarithm of
/// how many of those there are.
#[derive(Drop)]
pub(crate) struct ByNumber<T> {
    // Those whose numbers lie below the ring's.
    earlier: BTreeMap<u64, T>,
    ring: Ring<T>,
}

impl<T> Model for ByNumber<T> {
    ghost use Rattle.std.specs.Prelude.{◌++◌};
    ghost use Rattle.quic_streams_parts.specs.Table.{Table};
    ghost use Rattle.quic_streams_parts.specs.Slots.{held, IsSplit};

    ghost Value = { Table T };

    ghost view = { λ m. m.earlier.entries ++ held m.ring };

    ghost invariant = { λ m. IsSplit m.earlier.entries m.ring };
}

/// Whether a number lies behind all that a map has: so it is with most that are asked for once
/// their value was taken out, and a look-up among many others is spared.
fn is_behind<T>(values: &BTreeMap<u64, T>, number: u64) -> bool
    ensures { result ≡ true → at values.now.entries number ≡ None }
{
    match values.last_key_value() {
        Some((last, _)) => *last < number,
        None => true,
    }
}

impl<T> ByNumber<T> {
    ghost use Rattle.quic_streams_parts.specs.Lends.{lends_by_number};

    /// No values.
    pub(crate) fn new(alloc: Global) -> Self
        ensures { result ≡ [] }
    {
        ByNumber {
            earlier: BTreeMap::new(alloc),
            ring: Ring::new(alloc),
        }
    }

    /// Numbers are in order, with none twice.
    pub(crate) fn are_ordered(&self)
        ensures { IsStrictlySortedBy nat_cmp (keys_of self.now) }
    {
        let _ = &self.earlier;
    }

    /// The value of the least number, if there is one.
    pub(crate) fn first(&self) -> Option<&T>
        ensures { option_copied result ≡ first_value self.now }
    {
        match self.earlier.first_key_value() {
            Some((_, value)) => Some(value),
            None => self.ring.first(),
        }
    }

    /// The value of a number, if it is there.
    pub(crate) fn get(&self, number: u64) -> Option<&T>
        ensures { option_copied result ≡ at self.now number }
    {
        if number >= self.ring.base() {
            return self.ring.get(number);
        }
        if is_behind(&self.earlier, number) {
            return None;
        }
        self.earlier.get(&number)
    }

    /// The value of a number, to be changed, if it is there.
    pub(crate) fn get_mut(&mut self, number: u64) -> Option<&mut T>
        ensures* writes_back { sem 𝓛 (lends_by_number T.row self.entry number result) }
        ensures value { option_copied_mut result ≡ at self.old number }
    {
        if number >= self.ring.base() {
            return self.ring.get_mut(number);
        }
        match self.earlier.get_mut(&number) {
            Some(value) => Some(value),
            None => None,
        }
    }

    /// Keeps a value: the one that had its number, if any. The ring keeps slots for numbers from
    /// `low` on that were skipped, as far as it goes; any `low` will do.
    ///
    /// # Errors
    ///
    /// - [`AllocError`]: an allocation fails. Nothing changes.
    pub(crate) fn insert(
        &mut self,
        number: u64,
        value: T,
        low: u64,
    ) -> Result<Option<T>, AllocError>
    where
        T: Drop,
        ensures replaced { IfOk result (λ replaced. replaced ≡ at self.old number) }
        ensures ok { OnOk result (self.new ≡ added self.old number value) }
        ensures err { OnErr result (self.new ≡ self.old) }
        ensures was_ordered { IsStrictlySortedBy nat_cmp (keys_of self.old) }
    {
        if number < self.ring.base() {
            return Ok(self.earlier.insert(number, value)?);
        }
        self.ring.reach(number, &mut self.earlier)?;
        self.ring.start_at(number, low);
        self.ring.insert(number, value)
    }

    /// Takes out the value of a number, if it is there.
    pub(crate) fn remove(&mut self, number: u64) -> Option<T>
    where
        T: Drop,
        ensures taken { result ≡ at self.old number }
        ensures left { self.new ≡ without self.old number }
        ensures gone { at self.new number ≡ None }
    {
        if number < self.ring.base() {
            return self.earlier.remove(&number);
        }
        self.ring.remove(number)
    }
}
