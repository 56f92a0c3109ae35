//! The ids of the peer that this end knows.
ghost use Rattle.std.specs.Prelude.{◌≡◌, ◌+◌, ◌<◌, ◌≤◌, [], ◌++◌, drop, replicate, length, None, Some, IfSome, OnErr};
ghost use Rattle.quic_ids.specs.CidQueue.{IsWindow, kept_ids, known_in, least_from, known_with, known_from, used_from, switched_to, retired_for, retired_up_to, after_insert, insert_answer, next_after, after_next, next_answer};

use quic_config::IDS_KEPT;
use quic_wire::frame::NewConnectionId;
use quic_wire_core::{ConnectionId, IssuedCid, ResetToken};
use std::marker::Model;
use std::ops::Range;
use thiserror::Error;

/// How many numbers above the one in use are kept.
const LATER: usize = CidQueue::LEN - 1;

/// The ids that the peer gave this end, from the one in use on (RFC 9000, section 5.1;
/// quinn-proto's `CidQueue`): at most [`CidQueue::LEN`], with consecutive numbers, of which some
/// may not have come yet.
///
/// Contracts see the number in use with its id, and the known ids above it, ascending by their
/// numbers.
#[derive(Debug, Drop)]
pub struct CidQueue {
    active: ConnectionId,
    // Its number.
    offset: u64,
    // The ids with the numbers behind it, each at its place.
    later: [Option<IssuedCid>; LATER],
}

impl Model for CidQueue {
    ghost use Rattle.std.specs.Prelude.{◌+◌, ◌≡◌, length};
    ghost use Rattle.quic_ids.specs.CidQueue.{PeerIds, kept_ids, known_in, AreAtNumbers};

    ghost Value = { PeerIds };

    ghost view = { λ q. record { active = q.offset; id = q.active; later = known_in q.later } };

    ghost invariant = { λ q. (length q.later + 1 ≡ kept_ids) × AreAtNumbers q.later (q.offset + 1) };
}

/// Why an id is not taken up (quinn-proto's `InsertError`).
#[derive(Clone, Copy, Debug, PartialEq, Eq, Error)]
pub enum InsertError {
    /// Its number lies below the one in use: it was retired already.
    #[error("the id was retired already")]
    Retired,
    /// Its number lies too far above those in use: the peer gives more ids than it may.
    #[error("more ids than are allowed")]
    ExceedsLimit,
}

/// Drops what stands at the first places; as many empty ones come up behind.
fn shift(later: &mut [Option<IssuedCid>; LATER], places: usize)
    requires { places < kept_ids }
    ensures { later.new ≡ drop places later.old ++ replicate places None }
{
    let mut shifted = [None; LATER];
    let slots = &later[..];
    shifted[..LATER - places].copy_from_slice(&slots[places..]);
    *later = shifted;
}

/// The least of the kept ids with a number from `least` on.
fn first_from(slots: &[Option<IssuedCid>], least: u64) -> Option<IssuedCid>
    ensures found { result ≡ least_from least (known_in slots.now) }
    ensures least { IfSome result (λ cid. least ≤ cid.sequence) }
{
    for slot in slots {
        let Some(cid) = slot else { continue };
        if least <= cid.sequence {
            return Some(*cid);
        }
    }
    None
}

impl CidQueue {
    /// How many ids with consecutive numbers are kept: the one in use, and those behind it.
    pub const LEN: usize = IDS_KEPT as usize;

    /// Only the first id is known, under the number 0, and in use.
    pub fn new(cid: ConnectionId) -> Self
        ensures { result ≡ record { active = 0; id = cid; later = [] } }
    {
        CidQueue {
            active: cid,
            offset: 0,
            later: [None; LATER],
        }
    }

    /// The least known id with a number from `least` on, above the one in use.
    fn least_from(&self, least: u64) -> Option<IssuedCid>
        ensures found { result ≡ least_from least self.now.later }
        ensures least { IfSome result (λ cid. least ≤ cid.sequence) }
        ensures window { IsWindow self.now }
    {
        first_from(&self.later, least)
    }

    /// Keeps an id that isn't below the one in use.
    fn keep(&mut self, cid: IssuedCid)
        requires low { self.old.active ≤ cid.sequence }
        requires high { cid.sequence < self.old.active + kept_ids }
        ensures { self.new ≡ known_with self.old cid }
    {
        if cid.sequence == self.offset {
            self.active = cid.id;
        } else {
            let place = (cid.sequence - self.offset - 1) as usize;
            self.later[place] = Some(cid);
        }
    }

    /// Uses an id above the one in use, and forgets those below it.
    fn switch_to(&mut self, cid: IssuedCid)
        requires { self.old.active < cid.sequence }
        ensures { self.new ≡ switched_to cid self.old }
    {
        let passed = (cid.sequence - self.offset).min(LATER as u64);
        shift(&mut self.later, passed as usize);
        self.offset = cid.sequence;
        self.active = cid.id;
    }

    /// Uses the least id from `least` on, of those known and this one, which becomes known too.
    /// Gives its token.
    fn retire_below(&mut self, least: u64, cid: IssuedCid) -> ResetToken
        requires above { self.old.active < least }
        requires low { least ≤ cid.sequence }
        requires high { cid.sequence < least + kept_ids }
        ensures new { self.new ≡ used_from least cid self.old }
        ensures token { retired_for (known_from least cid self.old) self.old.active ≡ Some (retired_up_to self.new.active self.old.active, result) }
    {
        match self.least_from(least) {
            Some(first) if first.sequence < cid.sequence => {
                let token = first.reset_token;
                self.switch_to(first);
                self.keep(cid);
                token
            }
            _ => {
                let token = cid.reset_token;
                self.switch_to(cid);
                token
            }
        }
    }

    /// Takes up an id that a NEW_CONNECTION_ID frame brings (RFC 9000, section 19.15). A frame for
    /// a known number puts its id in the place of the old one. Where the frame asks for the id in
    /// use to be retired, the least known one that is to stay is used from now on: then the answer
    /// has the numbers to retire, from the one that was in use up to the one that is, at most
    /// [`CidQueue::LEN`], and the token of the id that is in use now.
    ///
    /// # Errors
    ///
    /// - [`InsertError::Retired`]: the number lies below the one in use. Nothing changes.
    /// - [`InsertError::ExceedsLimit`]: the number lies [`CidQueue::LEN`] or more above the least
    ///   number that stays. Nothing changes.
    pub fn insert(
        &mut self,
        cid: NewConnectionId,
    ) -> Result<Option<(Range<u64>, ResetToken)>, InsertError>
        requires { cid.retire_prior_to ≤ cid.sequence }
        ensures answer { result ≡ insert_answer self.old cid }
        ensures new { self.new ≡ after_insert self.old cid }
        ensures err { OnErr result (self.new ≡ self.old) }
    {
        let start = self.active_seq();
        if cid.sequence < start {
            return Err(InsertError::Retired);
        }
        if cid.sequence - start.max(cid.retire_prior_to) >= Self::LEN as u64 {
            return Err(InsertError::ExceedsLimit);
        }
        let issued = IssuedCid {
            sequence: cid.sequence,
            id: cid.id,
            reset_token: cid.reset_token,
        };
        if cid.retire_prior_to <= start {
            self.keep(issued);
            return Ok(None);
        }
        let token = self.retire_below(cid.retire_prior_to, issued);
        let kept = start.saturating_add(Self::LEN as u64);
        Ok(Some((start..kept.min(self.active_seq()), token)))
    }

    /// The number of the least known id above the one in use; `None` where no other is known.
    pub fn next_seq(&self) -> Option<u64>
        ensures { result ≡ next_after self.now }
    {
        let start = self.active_seq();
        let next = self.least_from(start)?;
        Some(next.sequence)
    }

    /// Uses the least known id above the one in use: its token, and the numbers to retire, from the
    /// one that was in use up to its own. `None` where no other is known; then nothing changes.
    pub fn next(&mut self) -> Option<(ResetToken, Range<u64>)>
        ensures answer { result ≡ next_answer self.old.later self.old.active }
        ensures new { self.new ≡ after_next self.old }
    {
        let start = self.active_seq();
        let next = self.least_from(start)?;
        let (token, end) = (next.reset_token, next.sequence);
        self.switch_to(next);
        Some((token, start..end))
    }

    /// Puts an id in the place of the first one, which is in use.
    pub fn update_initial_cid(&mut self, cid: ConnectionId)
        requires { self.old.active ≡ 0 }
        ensures { self.new ≡ record self.old { id = cid } }
    {
        self.active = cid;
    }

    /// The id in use.
    pub fn active(&self) -> ConnectionId
        ensures { result ≡ self.now.id }
    {
        self.active
    }

    /// The number of the id in use.
    pub fn active_seq(&self) -> u64
        ensures value { result ≡ self.now.active }
        ensures window { IsWindow self.now }
    {
        let _ = &self.later;
        self.offset
    }
}
