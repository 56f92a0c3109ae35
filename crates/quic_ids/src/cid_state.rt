//! The ids that this end gave its peer.
ghost use Rattle.std.specs.Prelude.{◌≡◌, ◌<◌, OnOk, OnErr, IfOk};
ghost use Rattle.std.specs.VecDeque.{deque_len, deque_capacity};
ghost use Rattle.quic_ids.specs.CidState.{expiry, with_batch, below, first_batches, initial_ids, living_with, some_within, behind, after_new, after_retirement, retirement_answer, first_expiry, after_timeout, timeout_answer, is_in};

use quic_time::{Duration, Instant};
use quic_wire_core::{Code, IssuedCid, Reason, TransportError};
use std::alloc::{AllocError, Global};
use std::collections::{BTreeSet, VecDeque};
use std::marker::Model;

/// Ids that were issued together, by the greatest of their numbers, and the moment when they are to
/// be retired.
#[derive(Clone, Copy, Debug, Drop)]
struct CidTimestamp {
    sequence: u64,
    timestamp: Instant,
}

/// Which of the ids that this end issued live, and when they expire (RFC 9000, sections 5.1.1 and
/// 5.1.2; quinn-proto's `CidState`). An id lives from its issue until the peer retires it.
///
/// Contracts see how many were issued, the living numbers, ascending, the batches that are to
/// expire, the last two values of retire_prior_to, the length of an id and its lifetime.
#[derive(Drop)]
pub struct CidState {
    retire_timestamp: VecDeque<CidTimestamp>,
    issued: u64,
    active_seq: BTreeSet<u64>,
    // The value of retire_prior_to before the present one.
    prev_retire_seq: u64,
    retire_seq: u64,
    cid_len: usize,
    cid_lifetime: Option<Duration>,
}

impl Model for CidState {
    ghost use Rattle.quic_ids.specs.CidState.{OwnIds};

    ghost Value = { OwnIds };

    ghost view = { λ s. record {
      issued = s.issued;
      living = s.active_seq.keys;
      batches = s.retire_timestamp.items;
      previous = s.prev_retire_seq;
      retire_prior_to = s.retire_seq;
      id_len = s.cid_len;
      lifetime = s.cid_lifetime;
    } };
}

/// When ids that are issued now expire; `None` without a lifetime, or past the last moment that can
/// be said.
fn expiry(lifetime: Option<Duration>, now: Instant) -> Option<Instant>
    ensures { result ≡ expiry lifetime now }
{
    let lifetime = lifetime?.as_nanos();
    let nanos = now.as_nanos().checked_add(lifetime)?;
    Some(Instant::from_nanos(nanos))
}

/// Puts a batch behind the others. It takes the place of the last one where that has the same
/// moment.
fn track(batches: &mut VecDeque<CidTimestamp>, batch: CidTimestamp)
    requires { deque_len batches.old < deque_capacity batches.old }
    ensures { batches.new.items ≡ with_batch batches.old.items batch }
{
    let Some(last) = batches.pop_back() else {
        batches.push_back_reserved(batch);
        return;
    };
    if last.timestamp != batch.timestamp {
        batches.push_back_reserved(last);
    }
    batches.push_back_reserved(batch);
}

/// The batches of the first ids, which are issued together.
fn first_batches(
    alloc: Global,
    issued: u64,
    timestamp: Option<Instant>,
) -> Result<VecDeque<CidTimestamp>, AllocError>
    ensures { IfOk result (λ batches. batches.items ≡ first_batches issued timestamp) }
{
    let mut batches = VecDeque::new(alloc);
    if issued == 0 {
        return Ok(batches);
    }
    if let Some(timestamp) = timestamp {
        let sequence = issued - 1;
        batches.push_back(CidTimestamp {
            sequence,
            timestamp,
        })?;
    }
    Ok(batches)
}

/// The numbers below `end`.
fn numbers_below(alloc: Global, end: u64) -> Result<BTreeSet<u64>, AllocError>
    ensures { IfOk result (λ numbers. numbers.keys ≡ below end) }
{
    let mut numbers = BTreeSet::new(alloc);
    for n in 0..end {
        numbers.insert(n)?;
    }
    Ok(numbers)
}

/// Puts in the numbers of these ids, of which a call has few. Where memory lacks, those that were
/// new come out again: so each is put in by a call of its own, which knows whether it was.
fn insert_all(living: &mut BTreeSet<u64>, ids: &[IssuedCid]) -> Result<(), AllocError>
    ensures ok { OnOk result (living.new.keys ≡ living_with ids.now living.old.keys) }
    ensures err { OnErr result (living.new.keys ≡ living.old.keys) }
{
    let [first, rest @ ..] = ids else {
        return Ok(());
    };
    let sequence = first.sequence;
    let is_new = living.insert(sequence)?;
    if insert_all(living, rest).is_ok() {
        return Ok(());
    }
    if is_new {
        living.remove(&sequence);
    }
    Err(AllocError)
}

/// Whether a number from `start` on and below `end` lives.
fn any_within(living: &BTreeSet<u64>, start: u64, end: u64) -> bool
    ensures { result ≡ some_within start end living.now.keys }
{
    if end <= start {
        return false;
    }
    match living.range(start..end).next() {
        Some(_) => true,
        None => false,
    }
}

/// The value of retire_prior_to that retires a batch; the present one without a batch.
fn behind(batch: Option<CidTimestamp>, present: u64) -> u64
    ensures { result ≡ behind batch present }
{
    match batch {
        Some(batch) => batch.sequence.saturating_add(1),
        None => present,
    }
}

impl CidState {
    /// The numbers below `issued` were issued now, and none is retired. An id has `cid_len` bytes,
    /// and is to be retired once it lived for `cid_lifetime`, where there is one.
    ///
    /// # Errors
    ///
    /// - [`AllocError`]: an allocation fails. No state is made.
    pub fn new(
        alloc: Global,
        cid_len: usize,
        cid_lifetime: Option<Duration>,
        now: Instant,
        issued: u64,
    ) -> Result<Self, AllocError>
        ensures { IfOk result (λ state. state ≡ initial_ids cid_len cid_lifetime now issued) }
    {
        let active_seq = numbers_below(alloc, issued)?;
        let mut state = CidState {
            retire_timestamp: VecDeque::new(alloc),
            issued,
            active_seq,
            prev_retire_seq: 0,
            retire_seq: 0,
            cid_len,
            cid_lifetime,
        };
        state.retire_timestamp = first_batches(alloc, issued, expiry(state.cid_lifetime, now))?;
        Ok(state)
    }

    /// These ids, whose numbers follow those that were issued, are issued now (RFC 9000, section
    /// 19.15). They live, and with a lifetime they expire together, unless that lies past the last
    /// moment.
    ///
    /// # Errors
    ///
    /// - [`AllocError`]: an allocation fails. Nothing changes.
    pub fn new_cids(&mut self, ids: &[IssuedCid], now: Instant) -> Result<(), AllocError>
        ensures ok { OnOk result (self.new ≡ after_new self.old ids.now now) }
        ensures err { OnErr result (self.new ≡ self.old) }
    {
        let Some(last) = ids.last() else {
            return Ok(());
        };
        let sequence = last.sequence;
        let moment = expiry(self.cid_lifetime, now);
        self.retire_timestamp.reserve(1)?;
        insert_all(&mut self.active_seq, ids)?;
        self.issued = self.issued.saturating_add(ids.len() as u64);
        if let Some(timestamp) = moment {
            track(
                &mut self.retire_timestamp,
                CidTimestamp {
                    sequence,
                    timestamp,
                },
            );
        }
        Ok(())
    }

    /// The peer retires the id with a number (RFC 9000, section 19.16), which lives no more.
    /// Answers whether fewer than `limit` live then, so that another may be issued.
    ///
    /// # Errors
    ///
    /// - [`TransportError`] of PROTOCOL_VIOLATION: IDs have no bytes, or the number was never
    ///   issued. Nothing changes.
    pub fn on_cid_retirement(&mut self, sequence: u64, limit: u64) -> Result<bool, TransportError>
        ensures answer { result ≡ retirement_answer self.old sequence limit }
        ensures new { self.new ≡ after_retirement self.old sequence }
        ensures err { OnErr result (self.new ≡ self.old) }
    {
        if self.cid_len == 0 || sequence >= self.issued {
            return Err(TransportError::new(Code::PROTOCOL_VIOLATION, None, Reason::IllegalValue));
        }
        self.active_seq.remove(&sequence);
        Ok((self.active_seq.len() as u64) < limit)
    }

    /// When the first of the batches expires; `None` where none does.
    pub fn next_timeout(&self) -> Option<Instant>
        ensures { result ≡ first_expiry self.now }
    {
        match self.retire_timestamp.front() {
            Some(batch) => Some(batch.timestamp),
            None => None,
        }
    }

    /// The first of the batches expires. Where the peer retired all that it was asked to by the
    /// last two values of retire_prior_to, the next value lies behind the batch (RFC 9000, section
    /// 5.1.2). Answers whether an id lives that the next value retires and the last did not: then
    /// the peer is to be told.
    pub fn on_cid_timeout(&mut self) -> bool
        ensures answer { result ≡ timeout_answer self.old }
        ensures new { self.new ≡ after_timeout self.old }
    {
        let batch = self.retire_timestamp.pop_front();
        let present = self.retire_seq;
        if any_within(&self.active_seq, self.prev_retire_seq, present) {
            return false;
        }
        self.prev_retire_seq = present;
        self.retire_seq = behind(batch, present);
        any_within(&self.active_seq, present, self.retire_seq)
    }

    /// How many numbers were issued: the next one, as they are counted from 0.
    pub fn issued(&self) -> u64
        ensures { result ≡ self.now.issued }
    {
        self.issued
    }

    /// Whether the id with a number was issued and isn't retired.
    pub fn is_active(&self, sequence: u64) -> bool
        ensures { result ≡ is_in sequence self.now.living }
    {
        self.active_seq.contains(&sequence)
    }

    /// The value that NEW_CONNECTION_ID frames have for retire_prior_to.
    pub fn retire_prior_to(&self) -> u64
        ensures { result ≡ self.now.retire_prior_to }
    {
        self.retire_seq
    }

    /// How many bytes an id has.
    pub fn cid_len(&self) -> usize
        ensures { result ≡ self.now.id_len }
    {
        self.cid_len
    }
}
