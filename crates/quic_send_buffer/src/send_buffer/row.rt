// A queue of stretches, of which the first may stand in the struct itself.
ghost use Rattle.std.specs.Prelude.{◌≡◌, ◌+◌, ◌<◌, ◌≤◌, ◌^◌, [], ◌∷◌, ◌++◌, cond, leb, ◌==◌, length, take, IfOk, IfSome, OnOk, OnErr};
ghost use Rattle.std.specs.Option.{option_copied, option_map};
ghost use Rattle.std.specs.List.Sorted.{IsPartitionedBy};
ghost use Rattle.quic_send_buffer.specs.KeptBytes.{IsPut, end_of, first_behind, first_start, is_past, last_of, part_of, piece_with, stretch_with};
ghost use Rattle.quic_send_buffer.specs.Row.{first_of, others_of};

use super::run::Run;
use super::stretch::Stretch;
use bytes::Bytes;
use std::alloc::{AllocError, Global};
use std::collections::VecDeque;
use std::marker::Model;

/// Stretches that come behind the last and go in front. One piece alone takes no memory but the
/// struct's and that of its bytes.
#[derive(Drop)]
pub(crate) struct Row {
    // One piece, and the offset behind it. None is put here while there are others.
    first: Option<(u64, Bytes)>,
    others: VecDeque<Stretch>,
}

impl Model for Row {
    ghost use Rattle.std.specs.Prelude.{List};
    ghost use Rattle.quic_sets.specs.Parts.{Part};
    ghost use Rattle.quic_send_buffer.specs.Row.{row};

    ghost Value = { List (List Part) };

    ghost view = { λ r. row r.first r.others.items };
}

// The first stretch that ends behind an offset, found by halving.
fn next_among(stretches: &VecDeque<Stretch>, at: u64) -> Option<&Stretch>
    requires { IsPartitionedBy (λ s. leb (end_of s) at) stretches.now.items }
    ensures { option_copied result ≡ stretch_with at stretches.now.items }
{
    let index = stretches.partition_point(
        |s: &Stretch| -> bool
            ensures { result ≡ leb (end_of s.now) at }
        { s.end() <= at },
    );
    Some(stretches.get(index)?)
}

// The same, of those that a row has behind its first. It often is the first of them.
fn next_stretch(stretches: &VecDeque<Stretch>, at: u64) -> Option<&Stretch>
    requires { IsPartitionedBy (λ s. leb (end_of s) at) stretches.now.items }
    ensures { option_copied result ≡ stretch_with at stretches.now.items }
{
    let first = stretches.front()?;
    if at < first.end() {
        return Some(first);
    }
    next_among(stretches, at)
}

// The first piece of theirs that does.
fn piece_among(stretches: &VecDeque<Stretch>, at: u64) -> Option<(u64, &[u8])>
    requires { IsPartitionedBy (λ s. leb (end_of s) at) stretches.now.items }
    ensures { option_map (λ p. (p.0, p.1.now)) result ≡ piece_with at stretches.now.items }
{
    let stretch = next_stretch(stretches, at)?;
    Some(stretch.piece(at))
}

impl Row {
    /// No stretches.
    pub(crate) fn new(alloc: Global) -> Self
        ensures { result ≡ [] }
    {
        Row {
            first: None,
            others: VecDeque::new(alloc),
        }
    }

    /// How many there are.
    pub(crate) fn len(&self) -> usize
        ensures { result ≡ length self.now }
    {
        match &self.first {
            Some(_) => self.others.len() + 1,
            None => self.others.len(),
        }
    }

    /// Whether there is none.
    pub(crate) fn is_empty(&self) -> bool
        ensures { result ≡ (length self.now == 0) }
    {
        self.first.is_none() && self.others.is_empty()
    }

    /// Whether the first ends up to an offset.
    pub(crate) fn is_past(&self, up_to: u64) -> bool
        ensures { result ≡ is_past up_to self.now }
    {
        if let Some((end, _)) = &self.first {
            return *end <= up_to;
        }
        match self.others.front() {
            Some(stretch) => stretch.end() <= up_to,
            None => false,
        }
    }

    /// Where the first begins, or else `end`.
    pub(crate) fn start(&self, end: u64) -> u64
        ensures { result ≡ first_start end self.now }
    {
        if let Some((end, piece)) = &self.first {
            return end.saturating_sub(piece.len() as u64);
        }
        match self.others.front() {
            Some(stretch) => stretch.start(),
            None => end,
        }
    }

    /// The first piece that ends behind an offset, and where it ends.
    pub(crate) fn piece(&self, at: u64) -> Option<(u64, &[u8])>
        requires { IsPartitionedBy (λ s. leb (end_of s) at) self.now }
        ensures { option_map (λ p. (p.0, p.1.now)) result ≡ piece_with at self.now }
    {
        if let Some((end, piece)) = &self.first
            && at < *end
        {
            return Some((*end, piece));
        }
        piece_among(&self.others, at)
    }

    /// All bytes of the first stretch that ends behind an offset, and where it ends.
    pub(crate) fn joined(&self, at: u64) -> Option<(u64, &[u8])>
        requires { IsPartitionedBy (λ s. leb (end_of s) at) self.now }
        ensures { option_map (λ p. (p.0, p.1.now)) result ≡ option_map part_of (stretch_with at self.now) }
    {
        if let Some((end, piece)) = &self.first
            && at < *end
        {
            return Some((*end, piece));
        }
        let stretch = next_stretch(&self.others, at)?;
        Some((stretch.end(), stretch.bytes()))
    }

    /// A piece that ends at `end` comes, where there is no stretch. This needs no memory.
    pub(crate) fn put_first(&mut self, end: u64, piece: Bytes)
        requires { self.old ≡ [] }
        ensures { self.new ≡ ((end, piece) ∷ []) ∷ [] }
    {
        self.first = Some((end, piece));
    }

    /// One more piece comes behind the last, which ends at `end`.
    ///
    /// # Errors
    ///
    /// - [`AllocError`]: an allocation fails. Nothing changes.
    pub(crate) fn push_back(&mut self, end: u64, piece: Bytes) -> Result<(), AllocError>
        requires some { 0 < length piece }
        requires placed { length piece ≤ end }
        ensures ok { OnOk result (self.new ≡ self.old ++ ((end, piece) ∷ []) ∷ []) }
        ensures err { OnErr result (self.new ≡ self.old) }
    {
        if self.is_empty() {
            self.put_first(end, piece);
            return Ok(());
        }
        self.others.push_back(Stretch::one(end, piece))?;
        Ok(())
    }

    /// One more small piece comes behind the last, at `end`, if that is as long as it is and there
    /// is room for it in the same buffer. Says whether it did.
    ///
    /// # Errors
    ///
    /// - [`AllocError`]: an allocation fails. Nothing changes.
    pub(crate) fn push_small(
        &mut self,
        alloc: Global,
        end: u64,
        piece: &[u8],
    ) -> Result<bool, AllocError>
        requires some { 0 < length piece.now }
        requires small { end + length piece.now < 2 ^ 62 }
        requires last { end_of (last_of self.old) ≤ end }
        ensures ok { IfOk result (λ taken. cond taken (IsPut piece.now end self.old self.new) (self.new ≡ self.old)) }
        ensures err { OnErr result (self.new ≡ self.old) }
    {
        if let Some(last) = self.others.back_mut() {
            return last.try_push(alloc, piece);
        }
        let Some((_, first)) = &self.first else {
            return Ok(false);
        };
        if first.len() != piece.len() {
            return Ok(false);
        }
        let run = Run::of(alloc, piece)?;
        self.others
            .push_back(Stretch::many(end + piece.len() as u64, run))?;
        Ok(true)
    }

    /// Takes off the first.
    pub(crate) fn drop_front(&mut self)
        ensures { self.new ≡ others_of self.old }
    {
        if self.first.is_some() {
            self.first = None;
            return;
        }
        let _ = self.others.pop_front();
    }

    /// Drops the pieces of the first stretch that end up to an offset, of which its last isn't one.
    pub(crate) fn release_first(&mut self, up_to: u64)
        requires { IfSome (first_of self.old) (λ s. up_to < end_of s) }
        ensures { self.new ≡ first_behind up_to self.old }
    {
        if self.first.is_some() {
            return;
        }
        if let Some(stretch) = self.others.front_mut() {
            stretch.release(up_to);
        }
    }

    /// Keeps the first `len`, and takes off those behind them.
    pub(crate) fn truncate(&mut self, len: usize)
        ensures { self.new ≡ take len self.old }
    {
        if self.first.is_none() {
            self.others.truncate(len);
            return;
        }
        if len == 0 {
            self.first = None;
        }
        self.others.truncate(len.saturating_sub(1));
    }
}
