//! The latest values, in a ring that is addressed by number.
ghost use Rattle.std.specs.Prelude.{◌≡◌, ◌+◌, ◌-◌, ◌<◌, ◌≤◌, ◌^◌, ℕ, ◌++◌, [], length, max, IfOk, IfErr, OnOk, OnErr};
ghost use Rattle.std.specs.Option.{option_copied, option_copied_mut};
ghost use Rattle.std.specs.Borrow.{sem};
ghost use Rattle.quic_streams_parts.specs.Table.{at, added, without};
ghost use Rattle.quic_streams_parts.specs.Lends.{lends_slot};
ghost use Rattle.quic_streams_parts.specs.Slots.{held, in_slot, numbered, first_value, AllBelow};

use std::alloc::{AllocError, Global};
use std::collections::{BTreeMap, VecDeque};
use std::marker::Model;
use std::mem;

/// How many numbers a ring goes over at most.
const SPAN: u64 = 65_536;

/// The latest values in slots, one for each number from `base` on. A slot is empty where its number
/// was skipped, or where its value was taken out.
#[derive(Drop)]
pub(crate) struct Ring<T> {
    base: u64,
    // Empty slots of numbers below this one are given up before the first value, and others wait.
    low: u64,
    slots: VecDeque<Option<T>>,
}

impl<T> Model for Ring<T> {
    ghost use Rattle.quic_streams_parts.specs.Slots.{Slots, IsShort};

    ghost Value = { Slots T };

    ghost view = { λ r. record { base = r.base; slots = r.slots.items } };

    ghost invariant = { λ r. IsShort (record { base = r.base; slots = r.slots.items }) };
}

/// The value that is kept in a slot, if there is one.
fn value_in<T>(slot: &Option<T>) -> Option<&T>
    ensures { option_copied result ≡ slot.now }
{
    match slot {
        Some(value) => Some(value),
        None => None,
    }
}

/// The value that is kept in a slot, to be changed, if there is one.
fn value_mut_in<T>(slot: &mut Option<T>) -> Option<&mut T>
    ensures* writes_back { sem 𝓛 (lends_slot T.row slot.entry result) }
    ensures value { option_copied_mut result ≡ slot.old }
{
    match slot {
        Some(value) => Some(value),
        None => None,
    }
}

/// Appends empty slots until there are `len`, or more if there were more.
fn widen<T>(slots: &mut VecDeque<Option<T>>, len: usize) -> Result<(), AllocError>
    ensures held { (n : ℕ) → numbered n slots.new.items ≡ numbered n slots.old.items }
    ensures ok { OnOk result (length slots.new.items ≡ max len (length slots.old.items)) }
    ensures err { OnErr result (slots.new.items ≡ slots.old.items) }
{
    slots.reserve(len.saturating_sub(slots.len()))?;
    while slots.len() < len {
        slots.push_back_reserved(None);
    }
    Ok(())
}

/// Keeps the value of a slot, if it holds one, behind all others. An error is want of memory, and
/// gives back what the slot held.
fn keep<T: Drop>(
    earlier: &mut BTreeMap<u64, T>,
    number: u64,
    slot: Option<T>,
) -> Result<(), Option<T>>
    requires { AllBelow number earlier.old.entries }
    ensures ok { OnOk result (earlier.new.entries ≡ earlier.old.entries ++ in_slot number slot []) }
    ensures err { OnErr result (earlier.new.entries ≡ earlier.old.entries) }
    ensures given_back { IfErr result (λ back. back ≡ slot) }
{
    let Some(value) = slot else {
        return Ok(());
    };
    match earlier.insert(number, value) {
        Ok(_) => Ok(()),
        Err(failed) => {
            let (_, value) = failed.value;
            Err(Some(value))
        }
    }
}

impl<T> Ring<T> {
    ghost use Rattle.quic_streams_parts.specs.Lends.{lends_ring};

    /// No values.
    pub(crate) fn new(alloc: Global) -> Self
        ensures { result ≡ record { base = 0; slots = [] } }
    {
        Ring {
            base: 0,
            low: 0,
            slots: VecDeque::new(alloc),
        }
    }

    /// The number of the first slot. Values with lesser numbers have no slot here.
    pub(crate) fn base(&self) -> u64
        ensures { result ≡ self.now.base }
    {
        self.base
    }

    /// The value of a number from the first slot on, if it is there.
    pub(crate) fn get(&self, number: u64) -> Option<&T>
        requires { self.now.base ≤ number }
        ensures { option_copied result ≡ at (held self.now) number }
    {
        let index = (number - self.base) as usize;
        match self.slots.get(index) {
            Some(slot) => value_in(slot),
            None => None,
        }
    }

    /// The value of a number from the first slot on, to be changed, if it is there.
    pub(crate) fn get_mut(&mut self, number: u64) -> Option<&mut T>
        requires { self.old.base ≤ number }
        ensures* writes_back { sem 𝓛 (lends_ring T.row self.entry number result) }
        ensures value { option_copied_mut result ≡ at (held self.old) number }
    {
        let index = (number - self.base) as usize;
        match self.slots.get_mut(index) {
            Some(slot) => value_mut_in(slot),
            None => None,
        }
    }

    /// The first value. The first slot holds it, but where slots of skipped numbers wait before it.
    pub(crate) fn first(&self) -> Option<&T>
        ensures { option_copied result ≡ first_value (held self.now) }
    {
        for index in 0..self.slots.len() {
            if let Some(value) = &self.slots[index] {
                return Some(value);
            }
        }
        None
    }

    /// From now on slots of skipped numbers wait from `low` on. Where there is no slot yet the
    /// first gets that number, or a later one from which on `number` is near.
    pub(crate) fn start_at(&mut self, number: u64, low: u64)
        requires from { self.old.base ≤ number }
        requires near { 0 < length self.old.slots → number < self.old.base + 65536 }
        ensures held { held self.new ≡ held self.old }
        ensures base { self.old.base ≤ self.new.base }
        ensures from { self.new.base ≤ number }
        ensures near { number < self.new.base + 65536 }
    {
        self.low = low;
        if self.slots.is_empty() {
            let near = number.saturating_sub(SPAN - 1);
            self.base = low.max(near).max(self.base).min(number);
        }
    }
}

impl<T: Drop> Ring<T> {
    /// A value gets its slot, which has to be near: the one that was there, if any.
    ///
    /// # Errors
    ///
    /// - [`AllocError`]: an allocation fails. No value changes.
    pub(crate) fn insert(&mut self, number: u64, value: T) -> Result<Option<T>, AllocError>
        requires from { self.old.base ≤ number }
        requires near { number < self.old.base + 65536 }
        ensures replaced { IfOk result (λ replaced. replaced ≡ at (held self.old) number) }
        ensures ok { OnOk result (held self.new ≡ added (held self.old) number value) }
        ensures err { OnErr result (held self.new ≡ held self.old) }
        ensures base { self.new.base ≡ self.old.base }
    {
        let index = (number - self.base) as usize;
        widen(&mut self.slots, index + 1)?;
        Ok(mem::replace(&mut self.slots[index], Some(value)))
    }

    /// Takes out the value of a number from the first slot on, if it is there.
    pub(crate) fn remove(&mut self, number: u64) -> Option<T>
        requires { self.old.base ≤ number }
        ensures taken { result ≡ at (held self.old) number }
        ensures left { held self.new ≡ without (held self.old) number }
        ensures base { self.old.base ≤ self.new.base }
    {
        let index = (number - self.base) as usize;
        let Some(slot) = self.slots.get_mut(index) else {
            return None;
        };
        let value = slot.take();
        self.trim();
        value
    }

    /// Gives up empty slots before the first value, where they don't wait.
    fn trim(&mut self)
        ensures held { held self.new ≡ held self.old }
        ensures base { self.old.base ≤ self.new.base }
        ensures fewer { length self.new.slots ≤ length self.old.slots }
        ensures end { self.new.base ≤ self.old.base + length self.old.slots }
    {
        while self.base < self.low {
            let Some(None) = self.slots.front() else {
                return;
            };
            let _ = self.slots.pop_front();
            if self.slots.is_empty() {
                return;
            }
            self.base += 1;
        }
    }

    /// Moves values to `earlier`, the first one first, until the slot of a number is near.
    ///
    /// # Errors
    ///
    /// - [`AllocError`]: an allocation fails. Some may have moved, and none is lost.
    pub(crate) fn reach(
        &mut self,
        number: u64,
        earlier: &mut BTreeMap<u64, T>,
    ) -> Result<(), AllocError>
        requires from { self.old.base ≤ number }
        requires below { AllBelow self.old.base earlier.old.entries }
        ensures both { earlier.new.entries ++ held self.new ≡ earlier.old.entries ++ held self.old }
        ensures below { AllBelow self.new.base earlier.new.entries }
        ensures from { self.new.base ≤ number }
        ensures near { OnOk result (0 < length self.new.slots → number < self.new.base + 65536) }
    {
        while !self.slots.is_empty() && number - self.base >= SPAN {
            self.retire(earlier)?;
        }
        Ok(())
    }

    /// Moves the value in the first slot to `earlier`, if there is one, and gives up the slot, with
    /// empty ones behind it that don't wait.
    ///
    /// # Errors
    ///
    /// - [`AllocError`]: an allocation fails. Nothing changes.
    fn retire(&mut self, earlier: &mut BTreeMap<u64, T>) -> Result<(), AllocError>
        requires some { 0 < length self.old.slots }
        requires next { self.old.base + 1 < 2 ^ 64 }
        requires below { AllBelow self.old.base earlier.old.entries }
        ensures both { earlier.new.entries ++ held self.new ≡ earlier.old.entries ++ held self.old }
        ensures below { AllBelow self.new.base earlier.new.entries }
        ensures end { self.new.base ≤ self.old.base + length self.old.slots }
        ensures fewer { OnOk result (length self.new.slots < length self.old.slots) }
    {
        let Some(slot) = self.slots.pop_front() else {
            return Ok(());
        };
        if let Err(slot) = keep(earlier, self.base, slot) {
            self.slots.push_front_reserved(slot);
            return Err(AllocError);
        }
        self.base += 1;
        self.trim();
        Ok(())
    }
}
