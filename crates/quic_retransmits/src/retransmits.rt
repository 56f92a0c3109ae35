//! What waits to be sent beside the bytes of streams.
ghost use Rattle.std.specs.Prelude.{◌≡◌, ◌<◌, ◌≤◌, ◌^◌, ℕ, ◌∷◌, [], ◌++◌, length, set, IsTrue, IfOk, IfSome, OnOk, OnErr, IsErrOf, ◌↔◌, false, not};
ghost use Rattle.std.specs.List.{slice_get};
ghost use Rattle.std.specs.Option.{option_map};
ghost use Rattle.quic_wire.specs.FrameView.{stop_sending_view};
ghost use Rattle.quic_wire.specs.Value.{StopSendingValue};
ghost use Rattle.quic_streams_parts.specs.Dirs.{of, with_of};
ghost use Rattle.quic_retransmits.specs.declared.retransmits.RetireError.TheVariants as errors;
ghost use Rattle.quic_retransmits.specs.RetireCode.{retire_code};
ghost use Rattle.quic_retransmits.specs.Retransmits.{Retransmits as Waiting, nothing_waits, CanBeTold, has_id, merged, can_retire, after_retire, after_late, is_empty_where, first_of, others_of, with_id, without_id, with_ids};

use crate::ids::StreamIds;
use crate::lists::{append, append_range, first};
use crate::queries::LimitQueries;
use quic_streams_parts::ByDir;
use quic_wire::frame::StopSending;
use quic_wire_core::{Code, Dir, IssuedCid, StreamId, VarInt};
use std::alloc::{AllocError, Global};
use std::collections::VecDeque;
use std::marker::Model;
use std::ops::Range;
use thiserror::Error;

/// Why ids were not retired.
#[derive(Clone, Copy, Debug, PartialEq, Eq, Error)]
pub enum RetireError {
    /// More than 80 retirements would wait: CONNECTION_ID_LIMIT_ERROR (RFC 9000, section 5.1.2).
    #[error("queued too many retired CIDs")]
    LimitExceeded,
    /// Out of memory: an allocation failed.
    #[error("out of memory")]
    Memory,
}

impl RetireError {
    /// The error with which the connection closes.
    pub fn code(self) -> Code
        ensures { result ≡ retire_code self }
    {
        match self {
            RetireError::LimitExceeded => Code::CONNECTION_ID_LIMIT_ERROR,
            RetireError::Memory => Code::INTERNAL_ERROR,
        }
    }
}

impl From<AllocError> for RetireError {
    ghost use Rattle.std.specs.Prelude.{◌≡◌};
    ghost use Rattle.quic_retransmits.specs.declared.retransmits.RetireError.TheVariants as errors;

    ghost from_gives = { λ _ e. e ≡ errors.Memory };

    fn from(_: AllocError) -> RetireError {
        RetireError::Memory
    }
}

/// A kind of control frame that waits in [`Retransmits`] (RFC 9000, section 19).
#[derive(Clone, Copy)]
pub enum ControlKind {
    /// HANDSHAKE_DONE.
    HandshakeDone,
    /// RESET_STREAM.
    ResetStream,
    /// STOP_SENDING.
    StopSending,
    /// MAX_DATA.
    MaxData,
    /// MAX_STREAM_DATA.
    MaxStreamData,
    /// MAX_STREAMS of two-way or of one-way streams.
    MaxStreams(Dir),
    /// DATA_BLOCKED.
    DataBlocked,
    /// STREAM_DATA_BLOCKED.
    StreamDataBlocked,
    /// NEW_CONNECTION_ID.
    NewConnectionId,
    /// RETIRE_CONNECTION_ID.
    RetireConnectionId,
}

/// The kinds, in the order in which their frames go into a datagram.
pub const CONTROL_KINDS: [ControlKind; 11] = [
    ControlKind::HandshakeDone,
    ControlKind::ResetStream,
    ControlKind::StopSending,
    ControlKind::MaxData,
    ControlKind::MaxStreamData,
    ControlKind::MaxStreams(Dir::Bi),
    ControlKind::MaxStreams(Dir::Uni),
    ControlKind::DataBlocked,
    ControlKind::StreamDataBlocked,
    ControlKind::NewConnectionId,
    ControlKind::RetireConnectionId,
];

/// The most retirements of the peer's ids that wait, but for those of lost packets: ten for each id
/// that is kept of the peer's (RFC 9000, section 5.1.2; quinn-proto's constant of that name).
pub const MAX_PENDING_RETIRED_CIDS: u64 = 80;

/// What waits to be sent, or what a packet carried that goes again where the packet is lost
/// (quinn-proto's `Retransmits`).
#[derive(Drop)]
pub struct Retransmits {
    handshake_done: bool,
    max_data: bool,
    data_blocked: bool,
    max_stream_id: ByDir<bool>,
    reset_stream: VecDeque<(StreamId, VarInt)>,
    stop_sending: VecDeque<StopSending>,
    max_stream_data: StreamIds,
    stream_data_blocked: StreamIds,
    new_cids: VecDeque<IssuedCid>,
    retire_cids: VecDeque<u64>,
    ack_frequency: bool,
    alloc: Global,
}

impl Model for Retransmits {
    ghost use Rattle.std.specs.Prelude.{map};
    ghost use Rattle.quic_wire.specs.FrameView.{stop_sending_view};
    ghost use Rattle.quic_retransmits.specs.Retransmits.{Retransmits, HaveForm};

    ghost Value = { Retransmits };

    ghost view = { λ r. record {
      handshake_done = r.handshake_done;
      max_data = r.max_data;
      data_blocked = r.data_blocked;
      max_stream_id = r.max_stream_id;
      reset_stream = r.reset_stream.items;
      stop_sending = map stop_sending_view r.stop_sending.items;
      max_stream_data = r.max_stream_data;
      stream_data_blocked = r.stream_data_blocked;
      new_cids = r.new_cids.items;
      retire_cids = r.retire_cids.items;
      ack_frequency = r.ack_frequency;
    } };

    ghost invariant = { λ r. HaveForm r.new_cids.items r.retire_cids.items };
}

// Joins two sets with two others, or neither.
fn merge_ids(
    alloc: Global,
    limits: &mut StreamIds,
    blocked: &mut StreamIds,
    more_limits: &StreamIds,
    more_blocked: &StreamIds,
) -> Result<(), AllocError>
    ensures limits { OnOk result (limits.new ≡ with_ids more_limits.now limits.old) }
    ensures blocked { OnOk result (blocked.new ≡ with_ids more_blocked.now blocked.old) }
    ensures no_limits { OnErr result (limits.new ≡ limits.old) }
    ensures no_blocked { OnErr result (blocked.new ≡ blocked.old) }
{
    let added = limits.extend(alloc, more_limits)?;
    if blocked.extend(alloc, more_blocked).is_err() {
        limits.remove_all(added);
        return Err(AllocError);
    }
    Ok(())
}

impl Retransmits {
    /// Nothing.
    pub fn new(alloc: Global) -> Self
        ensures { result ≡ nothing_waits }
    {
        Retransmits {
            handshake_done: false,
            max_data: false,
            data_blocked: false,
            max_stream_id: ByDir {
                bi: false,
                uni: false,
            },
            reset_stream: VecDeque::new(alloc),
            stop_sending: VecDeque::new(alloc),
            max_stream_data: StreamIds::new(alloc),
            stream_data_blocked: StreamIds::new(alloc),
            new_cids: VecDeque::new(alloc),
            retire_cids: VecDeque::new(alloc),
            ack_frequency: false,
            alloc,
        }
    }

    /// Whether HANDSHAKE_DONE waits (RFC 9000, section 19.20).
    pub fn handshake_done(&self) -> bool
        ensures { result ≡ self.now.handshake_done }
    {
        self.handshake_done
    }

    /// Says whether HANDSHAKE_DONE waits.
    pub fn set_handshake_done(&mut self, waits: bool)
        ensures { self.new ≡ record self.old { handshake_done = waits } }
    {
        self.handshake_done = waits;
    }

    /// Whether MAX_DATA waits (RFC 9000, section 19.9).
    pub fn max_data(&self) -> bool
        ensures { result ≡ self.now.max_data }
    {
        self.max_data
    }

    /// Says whether MAX_DATA waits.
    pub fn set_max_data(&mut self, waits: bool)
        ensures { self.new ≡ record self.old { max_data = waits } }
    {
        self.max_data = waits;
    }

    /// Whether DATA_BLOCKED waits (RFC 9000, section 19.12).
    pub fn data_blocked(&self) -> bool
        ensures { result ≡ self.now.data_blocked }
    {
        self.data_blocked
    }

    /// Says whether DATA_BLOCKED waits.
    pub fn set_data_blocked(&mut self, waits: bool)
        ensures { self.new ≡ record self.old { data_blocked = waits } }
    {
        self.data_blocked = waits;
    }

    /// Whether MAX_STREAMS of a kind waits (RFC 9000, section 19.11).
    pub fn max_stream_id(&self, dir: Dir) -> bool
        ensures { result ≡ of dir self.now.max_stream_id }
    {
        match dir {
            Dir::Bi => self.max_stream_id.bi,
            Dir::Uni => self.max_stream_id.uni,
        }
    }

    /// Says whether MAX_STREAMS of a kind waits.
    pub fn set_max_stream_id(&mut self, dir: Dir, waits: bool)
        ensures { self.new ≡ record self.old { max_stream_id = with_of dir waits self.old.max_stream_id } }
    {
        match dir {
            Dir::Bi => self.max_stream_id.bi = waits,
            Dir::Uni => self.max_stream_id.uni = waits,
        }
    }

    /// Whether ACK_FREQUENCY waits (draft-ietf-quic-ack-frequency, section 4).
    pub fn ack_frequency(&self) -> bool
        ensures { result ≡ self.now.ack_frequency }
    {
        self.ack_frequency
    }

    /// Says whether ACK_FREQUENCY waits.
    pub fn set_ack_frequency(&mut self, waits: bool)
        ensures { self.new ≡ record self.old { ack_frequency = waits } }
    {
        self.ack_frequency = waits;
    }

    /// RESET_STREAM of a stream, with its code, waits behind the others (RFC 9000, section 19.4).
    ///
    /// # Errors
    ///
    /// - [`AllocError`]: an allocation fails. Nothing changes.
    pub fn push_reset_stream(&mut self, id: StreamId, code: VarInt) -> Result<(), AllocError>
        ensures ok { OnOk result (self.new ≡ record self.old { reset_stream = self.old.reset_stream ++ (id, code) ∷ [] }) }
        ensures err { OnErr result (self.new ≡ self.old) }
    {
        self.reset_stream.push_back((id, code))?;
        Ok(())
    }

    /// Takes back the RESET_STREAM that came last.
    pub fn take_back_reset_stream(&mut self)
        ensures { (before : Waiting) (entry : ℕ × ℕ) → self.old ≡ record before { reset_stream = before.reset_stream ++ entry ∷ [] } → self.new ≡ before }
    {
        let _ = self.reset_stream.pop_back();
    }

    /// The first RESET_STREAM that waits: its stream and its code.
    pub fn first_reset_stream(&self) -> Option<(StreamId, VarInt)>
        ensures { result ≡ first_of self.now.reset_stream }
    {
        first(&self.reset_stream)
    }

    /// Takes off the first RESET_STREAM that waits.
    pub fn pop_reset_stream(&mut self) -> Option<(StreamId, VarInt)>
        ensures answer { result ≡ first_of self.old.reset_stream }
        ensures new { self.new ≡ record self.old { reset_stream = others_of self.old.reset_stream } }
    {
        self.reset_stream.pop_front()
    }

    /// STOP_SENDING waits behind the others (RFC 9000, section 19.5).
    ///
    /// # Errors
    ///
    /// - [`AllocError`]: an allocation fails. Nothing changes.
    pub fn push_stop_sending(&mut self, stop: StopSending) -> Result<(), AllocError>
        ensures ok { OnOk result (self.new ≡ record self.old { stop_sending = self.old.stop_sending ++ stop_sending_view stop ∷ [] }) }
        ensures err { OnErr result (self.new ≡ self.old) }
    {
        self.stop_sending.push_back(stop)?;
        Ok(())
    }

    /// STOP_SENDING that came last waits no more.
    pub fn take_back_stop_sending(&mut self)
        ensures { (r : Waiting) (stop : StopSendingValue) → self.old ≡ record r { stop_sending = r.stop_sending ++ stop ∷ [] } → self.new ≡ r }
    {
        let _ = self.stop_sending.pop_back();
    }

    /// The first STOP_SENDING that waits.
    pub fn first_stop_sending(&self) -> Option<StopSending>
        ensures { option_map stop_sending_view result ≡ first_of self.now.stop_sending }
    {
        first(&self.stop_sending)
    }

    /// Takes off the first STOP_SENDING that waits.
    pub fn pop_stop_sending(&mut self) -> Option<StopSending>
        ensures answer { option_map stop_sending_view result ≡ first_of self.old.stop_sending }
        ensures new { self.new ≡ record self.old { stop_sending = others_of self.old.stop_sending } }
    {
        self.stop_sending.pop_front()
    }

    /// MAX_STREAM_DATA of a stream waits (RFC 9000, section 19.10). The answer is whether it didn't
    /// before.
    ///
    /// # Errors
    ///
    /// - [`AllocError`]: an allocation fails, where the stream's didn't wait before. Nothing
    ///   changes.
    pub fn insert_max_stream_data(&mut self, id: StreamId) -> Result<bool, AllocError>
        ensures ok { OnOk result (self.new ≡ record self.old { max_stream_data = with_id id self.old.max_stream_data }) }
        ensures answer { IfOk result (λ is_new. is_new ≡ not (has_id id self.old.max_stream_data)) }
        ensures err { OnErr result (self.new ≡ self.old) }
        ensures lacking { OnErr result (has_id id self.old.max_stream_data ≡ false) }
    {
        let is_new = self.max_stream_data.insert(id)?;
        Ok(is_new)
    }

    /// Takes back the MAX_STREAM_DATA of a stream that was made to wait, and hadn't waited before
    /// or had.
    pub fn take_back_max_stream_data(&mut self, id: StreamId, was_new: bool)
        ensures { (before : Waiting) → self.old ≡ record before { max_stream_data = with_id id before.max_stream_data } → was_new ≡ not (has_id id before.max_stream_data) → self.new ≡ before }
    {
        self.max_stream_data.take_back(id, was_new);
    }

    /// Whether MAX_STREAM_DATA of a stream waits.
    pub fn has_max_stream_data(&self, id: StreamId) -> bool
        ensures { result ≡ has_id id self.now.max_stream_data }
    {
        self.max_stream_data.contains(id)
    }

    /// MAX_STREAM_DATA of a stream waits no more.
    pub fn remove_max_stream_data(&mut self, id: StreamId)
        ensures { self.new ≡ record self.old { max_stream_data = without_id id self.old.max_stream_data } }
    {
        self.max_stream_data.remove(id);
    }

    /// The least of the streams whose MAX_STREAM_DATA waits.
    pub fn first_max_stream_data(&self) -> Option<StreamId>
        ensures { result ≡ first_of self.now.max_stream_data }
    {
        self.max_stream_data.first()
    }

    /// Takes off the least of the streams whose MAX_STREAM_DATA waits.
    pub fn pop_max_stream_data(&mut self) -> Option<StreamId>
        ensures answer { result ≡ first_of self.old.max_stream_data }
        ensures new { self.new ≡ record self.old { max_stream_data = others_of self.old.max_stream_data } }
    {
        self.max_stream_data.pop_first()
    }

    /// STREAM_DATA_BLOCKED of a stream waits (RFC 9000, section 19.13). The answer is whether it
    /// didn't before.
    ///
    /// # Errors
    ///
    /// - [`AllocError`]: an allocation fails, where the stream's didn't wait before. Nothing
    ///   changes.
    pub fn insert_stream_data_blocked(&mut self, id: StreamId) -> Result<bool, AllocError>
        ensures ok { OnOk result (self.new ≡ record self.old { stream_data_blocked = with_id id self.old.stream_data_blocked }) }
        ensures answer { IfOk result (λ is_new. is_new ≡ not (has_id id self.old.stream_data_blocked)) }
        ensures err { OnErr result (self.new ≡ self.old) }
        ensures lacking { OnErr result (has_id id self.old.stream_data_blocked ≡ false) }
    {
        let is_new = self.stream_data_blocked.insert(id)?;
        Ok(is_new)
    }

    /// Takes back the STREAM_DATA_BLOCKED of a stream that was made to wait, and hadn't waited
    /// before or had.
    pub fn take_back_stream_data_blocked(&mut self, id: StreamId, was_new: bool)
        ensures { (before : Waiting) → self.old ≡ record before { stream_data_blocked = with_id id before.stream_data_blocked } → was_new ≡ not (has_id id before.stream_data_blocked) → self.new ≡ before }
    {
        self.stream_data_blocked.take_back(id, was_new);
    }

    /// STREAM_DATA_BLOCKED of a stream waits no more.
    pub fn remove_stream_data_blocked(&mut self, id: StreamId)
        ensures { self.new ≡ record self.old { stream_data_blocked = without_id id self.old.stream_data_blocked } }
    {
        self.stream_data_blocked.remove(id);
    }

    /// The least of the streams whose STREAM_DATA_BLOCKED waits.
    pub fn first_stream_data_blocked(&self) -> Option<StreamId>
        ensures { result ≡ first_of self.now.stream_data_blocked }
    {
        self.stream_data_blocked.first()
    }

    /// Takes off the least of the streams whose STREAM_DATA_BLOCKED waits.
    pub fn pop_stream_data_blocked(&mut self) -> Option<StreamId>
        ensures answer { result ≡ first_of self.old.stream_data_blocked }
        ensures new { self.new ≡ record self.old { stream_data_blocked = others_of self.old.stream_data_blocked } }
    {
        self.stream_data_blocked.pop_first()
    }

    /// NEW_CONNECTION_ID waits behind the others (RFC 9000, section 19.15).
    ///
    /// # Errors
    ///
    /// - [`AllocError`]: an allocation fails. Nothing changes.
    pub fn push_new_cid(&mut self, cid: IssuedCid) -> Result<(), AllocError>
        requires { CanBeTold cid }
        ensures ok { OnOk result (self.new ≡ record self.old { new_cids = self.old.new_cids ++ cid ∷ [] }) }
        ensures err { OnErr result (self.new ≡ self.old) }
    {
        self.new_cids.push_back(cid)?;
        Ok(())
    }

    /// The first NEW_CONNECTION_ID that waits.
    pub fn first_new_cid(&self) -> Option<IssuedCid>
        ensures first { result ≡ first_of self.now.new_cids }
        ensures form { IfSome result CanBeTold }
    {
        first(&self.new_cids)
    }

    /// Takes off the first NEW_CONNECTION_ID that waits.
    pub fn pop_new_cid(&mut self) -> Option<IssuedCid>
        ensures answer { result ≡ first_of self.old.new_cids }
        ensures new { self.new ≡ record self.old { new_cids = others_of self.old.new_cids } }
    {
        self.new_cids.pop_front()
    }

    /// How many NEW_CONNECTION_ID wait.
    pub fn new_cids(&self) -> usize
        ensures { result ≡ length self.now.new_cids }
    {
        self.new_cids.len()
    }

    /// The id whose NEW_CONNECTION_ID waits behind so many others.
    pub fn new_cid(&self, place: usize) -> Option<IssuedCid>
        ensures id { result ≡ slice_get self.now.new_cids place }
        ensures form { IfSome result CanBeTold }
    {
        match self.new_cids.get(place) {
            Some(cid) => Some(*cid),
            None => None,
        }
    }

    /// Puts an id in the place of the one whose NEW_CONNECTION_ID waits behind so many others, if
    /// one does.
    pub fn set_new_cid(&mut self, place: usize, cid: IssuedCid)
        requires { CanBeTold cid }
        ensures { self.new ≡ record self.old { new_cids = set self.old.new_cids place cid } }
    {
        if let Some(slot) = self.new_cids.get_mut(place) {
            *slot = cid;
        }
    }

    /// The ids with these numbers are to be retired: RETIRE_CONNECTION_ID of each waits behind the
    /// others (RFC 9000, sections 5.1.2 and 19.16).
    ///
    /// # Errors
    ///
    /// - [`RetireError::LimitExceeded`]: more than 80 would wait. Nothing changes.
    /// - [`RetireError::Memory`]: an allocation fails. Nothing changes.
    pub fn retire_cids(&mut self, cids: Range<u64>) -> Result<(), RetireError>
        requires { cids.end ≤ 2 ^ 62 }
        ensures ok { OnOk result (self.new ≡ after_retire self.old cids.start cids.end) }
        ensures few { OnOk result (IsTrue (can_retire self.old cids.start cids.end)) }
        ensures many { IsErrOf result errors.LimitExceeded ↔ (can_retire self.old cids.start cids.end ≡ false) }
        ensures err { OnErr result (self.new ≡ self.old) }
    {
        let count = cids.end.saturating_sub(cids.start);
        if (self.retire_cids.len() as u64).saturating_add(count) > MAX_PENDING_RETIRED_CIDS {
            return Err(RetireError::LimitExceeded);
        }
        self.retire_cids.reserve(count as usize)?;
        append_range(&mut self.retire_cids, cids.start, count as usize);
        Ok(())
    }

    /// An id came late whose number was retired before: RETIRE_CONNECTION_ID of that waits once
    /// more behind the others, unless it does already, or as many wait as may (RFC 9000, sections
    /// 5.1.2 and 19.15).
    ///
    /// # Errors
    ///
    /// - [`AllocError`]: an allocation fails. Nothing changes.
    pub fn retire_late_cid(&mut self, sequence: u64) -> Result<(), AllocError>
        requires { sequence < 2 ^ 62 }
        ensures ok { OnOk result (self.new ≡ after_late self.old sequence) }
        ensures err { OnErr result (self.new ≡ self.old) }
    {
        let count = self.retire_cids.len() as u64;
        if count >= MAX_PENDING_RETIRED_CIDS || self.retire_cids.contains(&sequence) {
            return Ok(());
        }
        self.push_retire_cid(sequence)
    }

    /// RETIRE_CONNECTION_ID of a number waits behind the others, however many wait (RFC 9000,
    /// section 19.16).
    ///
    /// # Errors
    ///
    /// - [`AllocError`]: an allocation fails. Nothing changes.
    pub fn push_retire_cid(&mut self, sequence: u64) -> Result<(), AllocError>
        requires { sequence < 2 ^ 62 }
        ensures ok { OnOk result (self.new ≡ record self.old { retire_cids = self.old.retire_cids ++ sequence ∷ [] }) }
        ensures err { OnErr result (self.new ≡ self.old) }
    {
        self.retire_cids.push_back(sequence)?;
        Ok(())
    }

    /// The first number whose RETIRE_CONNECTION_ID waits.
    pub fn first_retire_cid(&self) -> Option<u64>
        ensures first { result ≡ first_of self.now.retire_cids }
        ensures form { IfSome result (λ n. n < 2 ^ 62) }
    {
        first(&self.retire_cids)
    }

    /// Takes off the first number whose RETIRE_CONNECTION_ID waits.
    pub fn pop_retire_cid(&mut self) -> Option<u64>
        ensures answer { result ≡ first_of self.old.retire_cids }
        ensures new { self.new ≡ record self.old { retire_cids = others_of self.old.retire_cids } }
    {
        self.retire_cids.pop_front()
    }

    /// What other waits as well: flags and sets are joined, and the other's lists go behind. It
    /// takes the logarithm of a set for each id of the other, and what the other's lists hold.
    ///
    /// # Errors
    ///
    /// - [`AllocError`]: an allocation fails. Nothing changes.
    pub fn merge(&mut self, other: &Retransmits) -> Result<(), AllocError>
        ensures ok { OnOk result (self.new ≡ merged self.old other.now) }
        ensures err { OnErr result (self.new ≡ self.old) }
    {
        self.reset_stream.reserve(other.reset_stream.len())?;
        self.stop_sending.reserve(other.stop_sending.len())?;
        self.new_cids.reserve(other.new_cids.len())?;
        self.retire_cids.reserve(other.retire_cids.len())?;
        merge_ids(
            self.alloc,
            &mut self.max_stream_data,
            &mut self.stream_data_blocked,
            &other.max_stream_data,
            &other.stream_data_blocked,
        )?;
        append(&mut self.reset_stream, &other.reset_stream);
        append(&mut self.stop_sending, &other.stop_sending);
        append(&mut self.new_cids, &other.new_cids);
        append(&mut self.retire_cids, &other.retire_cids);
        self.handshake_done |= other.handshake_done;
        self.max_data |= other.max_data;
        self.data_blocked |= other.data_blocked;
        self.max_stream_id.bi |= other.max_stream_id.bi;
        self.max_stream_id.uni |= other.max_stream_id.uni;
        self.ack_frequency |= other.ack_frequency;
        Ok(())
    }

    /// Whether nothing waits, whether it may go or not.
    pub fn is_idle(&self) -> bool
        ensures { IsTrue result ↔ (self.now ≡ nothing_waits) }
    {
        let flags = self.handshake_done
            || self.max_data
            || self.data_blocked
            || self.max_stream_id.bi
            || self.max_stream_id.uni
            || self.ack_frequency;
        !flags
            && self.reset_stream.is_empty()
            && self.stop_sending.is_empty()
            && self.max_stream_data.is_empty()
            && self.stream_data_blocked.is_empty()
            && self.new_cids.is_empty()
            && self.retire_cids.is_empty()
    }

    /// Whether nothing waits that may go: DATA_BLOCKED, MAX_STREAM_DATA and STREAM_DATA_BLOCKED
    /// count only where `streams` says that they may.
    pub fn is_empty<S: LimitQueries>(&self, streams: &S) -> bool
        ensures { result ≡ is_empty_where (λ kind. S.gate streams.now kind) (λ kind id. S.gate_on streams.now kind id) self.now }
    {
        // As it is mostly, which is soon told.
        if self.is_idle() {
            return true;
        }
        if self.handshake_done || self.max_data {
            return false;
        }
        if self.data_blocked && streams.counts(ControlKind::DataBlocked) {
            return false;
        }
        if self.max_stream_id.bi || self.max_stream_id.uni {
            return false;
        }
        if !self.reset_stream.is_empty() || !self.stop_sending.is_empty() {
            return false;
        }
        if self
            .max_stream_data
            .any_counts(ControlKind::MaxStreamData, streams)
            || self
                .stream_data_blocked
                .any_counts(ControlKind::StreamDataBlocked, streams)
        {
            return false;
        }
        self.new_cids.is_empty() && self.retire_cids.is_empty() && !self.ack_frequency
    }
}
