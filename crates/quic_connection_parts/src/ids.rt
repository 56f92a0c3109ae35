//! The connection ids of both ends (RFC 9000, section 5.1).
ghost use Rattle.std.specs.Prelude.{◌≡◌, ◌==◌, ◌+◌, ◌*◌, ◌-◌, ◌≤◌, ◌<◌, ◌^◌, ◌++◌, [], ◌∷◌, map, length, slice_get, IfOk, IfSome, OnOk, OnErr};
ghost use Rattle.std.specs.List.{position};
ghost use Rattle.quic_packet.specs.Destination.{decoded, fixed_length_id};
ghost use Rattle.quic_ids.specs.CidState.{retirement_answer, after_new, Rise};
ghost use Rattle.quic_ids.specs.CidQueue.{insert_answer};
ghost use Rattle.quic_machine.specs.Ids.{own_id_length, words_of_id, most_ids, later_numbers, first_ids, drawn_ids, drawn_id, undrawn_id, known, destination, retired, may_issue, retired_as, issued_one, with_number, with_id, drawn_one, drawn_places, ids_drawn, routes_told, taken_up, retires_for, retires_for_next, next_used};
ghost use Rattle.quic_connection_parts.specs.Drawn.{words_of, after_words};

use crate::own_id::OwnId;
use quic_config::IDS_KEPT;
use quic_ids::{CidQueue, CidState, InsertError};
use quic_packet::{FixedLengthConnectionIdParser, HeaderError, ShortHeader};
use quic_retransmits::Retransmits;
use quic_time::Instant;
use quic_wire::frame::NewConnectionId;
use quic_wire_core::{
    ConnectionId, IssuedCid, RESET_TOKEN_SIZE, ResetToken, TransportError, VarInt,
};
use rand_core::Rng;
use std::alloc::{AllocError, Global};
use std::marker::Model;
use std::ops::Range;

/// How many bytes an own id has.
pub const OWN_ID_LENGTH: usize = 8;

/// The ids that this end issued and the peer hasn't retired, and those of the peer that it knows,
/// of which one is in use.
#[derive(Drop)]
pub struct Ids {
    // How many numbers were issued, and which of them live.
    own: CidState,
    // The ids of those, by ascending number.
    living: Vec<OwnId>,
    // Whether one was issued or retired since whoever routes datagrams was told.
    changed: bool,
    // Behind how many others the ids wait to be told that were issued and are still to be drawn.
    undrawn: Vec<usize>,
    // How many may live at once: what the peer takes, and no more than are kept of its own.
    limit: u64,
    peer: CidQueue,
}

impl Model for Ids {
    ghost use Rattle.std.specs.Prelude.{◌≡◌, ◌+◌, ◌≤◌, length, map};
    ghost use Rattle.quic_machine.specs.Ids as words;
    ghost use Rattle.quic_connection_parts.specs.Living.{RiseBelow, HaveNumbers};

    ghost Value = { words.Ids };

    ghost view = { λ ids. record {
      own = ids.own;
      living = ids.living.items;
      changed = ids.changed;
      undrawn = ids.undrawn.items;
      limit = ids.limit;
      peer = ids.peer;
    } };

    // The ids are those of the living numbers, which ascend below the next one; the peer's numbers
    // have a form as variable-length integers; and the first id is never drawn.
    ghost invariant = { λ ids. (map (λ i. i.number) ids.living.items ≡ ids.own.living) × RiseBelow ids.own.living 0 ids.own.issued × HaveNumbers ids.peer × (length ids.undrawn.items + 1 ≤ ids.own.issued) };
}

/// An id of this number: a word of the random source is the id, and the next two are the token by
/// which a stateless reset is known, each with its greatest byte first (RFC 9000, sections 5.1 and
/// 10.3).
#[tactic(auto, unfolding(rand_core::specs::Stream::next_u64))]
fn random_id<R: Rng>(random: &mut R, sequence: u64) -> IssuedCid
    ensures id { result ≡ drawn_id (words_of R.stream random.old) sequence }
    ensures random { R.stream random.new ≡ after_words 3 (R.stream random.old) }
{
    let id = random.next_u64().to_be_bytes();
    let mut token = [0; RESET_TOKEN_SIZE];
    token[..8].copy_from_slice(&random.next_u64().to_be_bytes());
    token[8..].copy_from_slice(&random.next_u64().to_be_bytes());
    IssuedCid {
        sequence,
        id: ConnectionId::new(&id),
        reset_token: ResetToken::from(token),
    }
}

/// An id of this number that is still to be drawn.
fn undrawn_id(sequence: u64) -> IssuedCid
    ensures { result ≡ undrawn_id sequence }
{
    IssuedCid {
        sequence,
        id: ConnectionId::new(&[0; OWN_ID_LENGTH]),
        reset_token: ResetToken::from([0; RESET_TOKEN_SIZE]),
    }
}

/// At which place the id of a number stands first, if it does.
fn place_of(living: &[OwnId], number: u64) -> Option<usize>
    ensures { result ≡ position (λ i. i.number == number) living.now }
{
    living.iter().position(|own| own.sequence() == number)
}

/// The id of a number that lives is this one.
fn set_id(living: &mut Vec<OwnId>, cid: &IssuedCid)
    requires rise { Rise (map (λ i. i.number) living.old.items) 0 }
    ensures living { living.new.items ≡ with_id cid.now living.old.items }
{
    if let Some(at) = place_of(living, cid.sequence) {
        living[at] = OwnId::issued(cid);
    }
}

/// The id that waits behind so many others is drawn, if one does: three words of the random source
/// are drawn in any case.
fn draw_one<R: Rng>(
    living: &mut Vec<OwnId>,
    random: &mut R,
    pending: &mut Retransmits,
    place: usize,
)
    requires rise { Rise (map (λ i. i.number) living.old.items) 0 }
    ensures living { living.new.items ≡ (drawn_one (slice_get pending.old.new_cids place) place (words_of R.stream random.old) (record { living = living.old.items; waiting = pending.old.new_cids })).living }
    ensures rise { Rise (map (λ i. i.number) living.new.items) 0 }
    ensures waits { pending.new ≡ record pending.old { new_cids = (drawn_one (slice_get pending.old.new_cids place) place (words_of R.stream random.old) (record { living = living.old.items; waiting = pending.old.new_cids })).waiting } }
    ensures random { R.stream random.new ≡ after_words words_of_id (R.stream random.old) }
{
    match pending.new_cid(place) {
        Some(cid) => {
            let drawn = random_id(random, cid.sequence);
            set_id(living, &drawn);
            pending.set_new_cid(place, drawn);
        }
        None => {
            let _ = random_id(random, 0);
        }
    }
}

/// The ids that wait at these places are drawn, one after another (`draw_one`).
fn draw_all<R: Rng>(
    living: &mut Vec<OwnId>,
    places: &[usize],
    random: &mut R,
    pending: &mut Retransmits,
)
    requires rise { Rise (map (λ i. i.number) living.old.items) 0 }
    ensures living { living.new.items ≡ (drawn_places places.now (words_of R.stream random.old) (record { living = living.old.items; waiting = pending.old.new_cids })).living }
    ensures waits { pending.new ≡ record pending.old { new_cids = (drawn_places places.now (words_of R.stream random.old) (record { living = living.old.items; waiting = pending.old.new_cids })).waiting } }
    ensures random { R.stream random.new ≡ after_words (words_of_id * length places.now) (R.stream random.old) }
{
    for place in places {
        draw_one(living, random, pending, *place);
    }
}

/// The next own ids up to `limit` are issued, of which the peer has to be told. Each draws three
/// words of the random source. An error is want of memory.
fn issue_later<R: Rng>(
    limit: u64,
    living: &mut Vec<OwnId>,
    random: &mut R,
    pending: &mut Retransmits,
) -> Result<(), AllocError>
    requires some { 1 ≤ limit }
    requires few { limit < 2 ^ 62 }
    ensures living { OnOk result (living.new.items ≡ living.old.items ++ map with_number (drawn_ids (words_of R.stream random.old) (later_numbers limit))) }
    ensures waits { OnOk result (pending.new ≡ record pending.old { new_cids = pending.old.new_cids ++ drawn_ids (words_of R.stream random.old) (later_numbers limit) }) }
    ensures random { OnOk result (R.stream random.new ≡ after_words (words_of_id * (limit - 1)) (R.stream random.old)) }
{
    for sequence in 1..limit {
        let cid = random_id(random, sequence);
        living.push(OwnId::issued(&cid))?;
        pending.push_new_cid(cid)?;
    }
    Ok(())
}

/// An own id is issued now (`CidState::new_cids`).
fn add_one(own: &mut CidState, cid: IssuedCid, now: Instant) -> Result<(), AllocError>
    ensures ok { OnOk result (own.new ≡ after_new own.old (cid ∷ []) now) }
    ensures err { OnErr result (own.new ≡ own.old) }
{
    let issued = [cid];
    own.new_cids(&issued, now)
}

impl Ids {
    /// The ids with which a connection begins: the first ones of both ends, and as many more own
    /// ones as may live, of which the peer has to be told (RFC 9000, section 5.1.1). Each draws
    /// three words of the random source.
    ///
    /// # Errors
    ///
    /// - [`AllocError`]: an allocation fails. No IDs are kept, but some may wait in `pending`.
    pub fn new<R: Rng>(
        alloc: Global,
        now: Instant,
        own: ConnectionId,
        peer: ConnectionId,
        peer_limit: VarInt,
        random: &mut R,
        pending: &mut Retransmits,
    ) -> Result<Self, AllocError>
        requires { 2 ≤ peer_limit }
        ensures ids { IfOk result (λ ids. ids ≡ first_ids own peer (most_ids peer_limit) now (words_of R.stream random.old)) }
        ensures waits { OnOk result (pending.new ≡ record pending.old { new_cids = pending.old.new_cids ++ drawn_ids (words_of R.stream random.old) (later_numbers (most_ids peer_limit)) }) }
        ensures random { OnOk result (R.stream random.new ≡ after_words (words_of_id * (most_ids peer_limit - 1)) (R.stream random.old)) }
    {
        let limit = peer_limit.into_inner().min(u64::from(IDS_KEPT));
        let mut living = Vec::with_capacity(alloc, CidQueue::LEN)?;
        living.push_reserved(OwnId::first(own));
        let own_ids = CidState::new(alloc, OWN_ID_LENGTH, None, now, limit)?;
        issue_later(limit, &mut living, random, pending)?;
        Ok(Ids {
            own: own_ids,
            living,
            changed: true,
            undrawn: Vec::new(alloc),
            limit,
            peer: CidQueue::new(peer),
        })
    }

    /// The own ids that live, by ascending number.
    pub fn own_ids(&self) -> &[OwnId]
        ensures { result.now ≡ self.now.living }
    {
        &self.living
    }

    /// Whether an own id was issued or retired since this was asked last.
    pub fn take_change(&mut self) -> bool
        ensures answer { result ≡ self.old.changed }
        ensures ids { self.new ≡ routes_told self.old }
    {
        let changed = self.changed;
        self.changed = false;
        changed
    }

    /// The id that datagrams are sent to.
    pub fn destination(&self) -> ConnectionId
        ensures id { result ≡ destination self.now }
        ensures bound { length result ≤ 20 }
    {
        self.peer.active()
    }

    /// The own id that a datagram is for, or why it is for none.
    ///
    /// # Errors
    ///
    /// - [`HeaderError::TooShort`]: the bytes end within the first byte or the ID, or fewer than 20
    ///   bytes stand behind the ID.
    /// - [`HeaderError::NotShort`]: the header is a long one.
    /// - [`HeaderError::FixedBit`]: the header is a short one, and its fixed bit is 0.
    /// - [`HeaderError::UnknownId`]: the ID isn't one of this endpoint's that live.
    pub fn decode(&self, datagram: &[u8]) -> Result<ConnectionId, HeaderError>
        ensures decoded { result ≡ decoded (fixed_length_id own_id_length) (known self.now) datagram.now }
        ensures room { OnOk result (own_id_length + 21 ≤ length datagram.now) }
    {
        let parser = FixedLengthConnectionIdParser::new(OWN_ID_LENGTH);
        ShortHeader::decode(datagram, &parser, &self.living)
    }

    /// The peer retires an own id (RFC 9000, section 19.16), which lives no more. Answers whether
    /// the next one is to be issued: fewer live than may, and a number is left.
    ///
    /// # Errors
    ///
    /// - [`TransportError`] of PROTOCOL_VIOLATION: the number was never issued. Nothing changes.
    pub fn retire(&mut self, sequence: u64) -> Result<bool, TransportError>
        ensures answer { result ≡ retired_as (retirement_answer self.old.own sequence self.old.limit) (may_issue self.old sequence) }
        ensures ids { OnOk result (self.new ≡ retired sequence self.old) }
        ensures err { OnErr result (self.new ≡ self.old) }
    {
        let fewer = self.own.on_cid_retirement(sequence, self.limit)?;
        if let Some(place) = place_of(&self.living, sequence) {
            self.living.remove(place);
            self.changed = true;
        }
        Ok(fewer && self.own.issued() <= VarInt::MAX.into_inner())
    }

    /// The next own id is issued, behind so many others that wait to be told. It is still to be
    /// drawn.
    ///
    /// # Errors
    ///
    /// - [`AllocError`]: an allocation fails. No ID is issued.
    pub fn issue(&mut self, behind: usize, now: Instant) -> Result<IssuedCid, AllocError>
        requires { self.old.own.issued < 2 ^ 62 }
        ensures id { IfOk result (λ cid. cid ≡ undrawn_id self.old.own.issued) }
        ensures ids { OnOk result (self.new ≡ issued_one behind now self.old) }
    {
        let sequence = self.own.issued();
        let cid = undrawn_id(sequence);
        self.living.reserve(1)?;
        self.undrawn.reserve(1)?;
        add_one(&mut self.own, cid, now)?;
        self.living.push_reserved(OwnId::issued(&cid));
        self.undrawn.push_reserved(behind);
        self.changed = true;
        Ok(cid)
    }

    /// The ids that are still to be drawn are, in the order in which they were issued, and told so:
    /// each draws three words of the random source.
    pub fn draw<R: Rng>(&mut self, random: &mut R, pending: &mut Retransmits)
        ensures ids { self.new ≡ ids_drawn (drawn_places self.old.undrawn (words_of R.stream random.old) (record { living = self.old.living; waiting = pending.old.new_cids })) self.old }
        ensures waits { pending.new ≡ record pending.old { new_cids = (drawn_places self.old.undrawn (words_of R.stream random.old) (record { living = self.old.living; waiting = pending.old.new_cids })).waiting } }
        ensures random { R.stream random.new ≡ after_words (words_of_id * length self.old.undrawn) (R.stream random.old) }
        ensures few { length self.old.undrawn + 1 ≤ self.old.own.issued }
    {
        draw_all(&mut self.living, &self.undrawn, random, pending);
        self.undrawn.clear();
    }

    /// Takes up an id of the peer (`CidQueue::insert`): which numbers are to be retired for it, if
    /// any are.
    ///
    /// # Errors
    ///
    /// - [`InsertError::Retired`]: the number lies below the one in use. Nothing changes.
    /// - [`InsertError::ExceedsLimit`]: the number lies [`CidQueue::LEN`] or more above the least
    ///   number that stays. Nothing changes.
    pub fn insert(&mut self, frame: NewConnectionId) -> Result<Option<Range<u64>>, InsertError>
        requires number { frame.sequence < 2 ^ 62 }
        requires prior { frame.retire_prior_to ≤ frame.sequence }
        ensures answer { result ≡ retires_for (insert_answer self.old.peer frame) }
        ensures form { IfOk result (λ retired. IfSome retired (λ range. range.end ≤ 2 ^ 62)) }
        ensures ids { self.new ≡ taken_up frame self.old }
        ensures err { OnErr result (self.new ≡ self.old) }
    {
        match self.peer.insert(frame)? {
            Some((retired, _)) => Ok(Some(retired)),
            None => Ok(None),
        }
    }

    /// Which numbers of the peer are to be retired where its next known id is to be used: from the
    /// one in use on, and below that. `None` where no other is known.
    pub fn next_retires(&self) -> Option<Range<u64>>
        ensures numbers { result ≡ retires_for_next self.now }
        ensures form { IfSome result (λ range. range.end ≤ 2 ^ 62) }
    {
        let next = self.peer.next_seq()?;
        Some(self.peer.active_seq()..next)
    }

    /// Uses the next known id of the peer, if one is known.
    pub fn use_next(&mut self)
        ensures { self.new ≡ next_used self.old }
    {
        let _ = self.peer.next();
    }
}
