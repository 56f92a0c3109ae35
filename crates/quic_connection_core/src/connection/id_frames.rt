//! Frames about connection ids that come, and the change to another id of the peer (RFC 9000,
//! sections 5.1.1, 5.1.2, 19.15 and 19.16).
ghost use Rattle.std.specs.Prelude.{◌≡◌, ◌≢◌, ◌-◌, ◌<◌, ◌≤◌, ◌^◌, length, nat_lt, Ok, Err, IfErr, OnOk, OnErr};
ghost use Rattle.quic_wire.specs.FrameView.{new_connection_id_view};
ghost use Rattle.quic_machine.specs.declared.answers.NextIdError.TheVariants as next_errors;
ghost use Rattle.quic_machine.specs.Ids.{destination};
ghost use Rattle.quic_machine.specs.End.{with_end, drawing, words_drawn, policy_of};
ghost use Rattle.quic_machine.specs.Sizes.{shortened};
ghost use Rattle.quic_machine.specs.IdFrames.{issued, drawn, end_routes, end_after_routed, next_id_answer, after_next_id};
ghost use Rattle.quic_machine.specs.Receive.{take_new_id, take_retirement};
ghost use Rattle.quic_connection_parts.specs.Faults.{TakesAs};
ghost use Rattle.quic_connection_parts.specs.Drawn.{words_of, after_words};

use crate::connection::Connection;
use quic_congestion::Controller;
use quic_connection_parts::OwnId;
use quic_connection_parts::id_frames::{next_id_error, too_many_ids, trouble_of_retiring};
use quic_connection_parts::receiving::Trouble;
use quic_ids::InsertError;
use quic_machine::{EndpointEvent, NextIdError};
use quic_packet::crypto::{HeaderKey, PacketKey};
use quic_retransmits::MAX_PENDING_RETIRED_CIDS;
use quic_wire::frame::NewConnectionId;
use rand_core::Rng;
use std::alloc::AllocError;

/// Where so many own ids wait to be told, no other is issued (RFC 9000, section 5.1.1, which names
/// no number).
const MAX_UNTOLD_IDS: usize = MAX_PENDING_RETIRED_CIDS as usize;

impl<H: HeaderKey + Drop, K: PacketKey + Drop, R: Rng + Drop, C: Controller> Connection<
    H,
    K,
    R,
    C,
> {
    /// Takes a NEW_CONNECTION_ID frame (RFC 9000, section 19.15): an id of the peer is known. IDs
    /// below `retire_prior_to` are retired, switching away from the active one if it is among them.
    /// Too many pending retirements, or more IDs than the limit, is an error that closes the
    /// connection (sections 5.1.1 and 5.1.2). One that comes late, for a number that was retired,
    /// is to be retired once more.
    pub(crate) fn take_new_id(&mut self, frame: NewConnectionId) -> Result<(), Trouble>
        requires number { frame.sequence < 2 ^ 62 }
        requires prior { frame.retire_prior_to ≤ frame.sequence }
        ensures takes { TakesAs result (take_new_id (new_connection_id_view frame) self.old.end) self.new.end }
        ensures others { self.new ≡ with_end self.old self.new.end }
    {
        let before = self.ids.destination().len();
        let sequence = frame.sequence;
        match self.ids.insert(frame) {
            Ok(None) => {}
            Ok(Some(retired)) => match self.streams.pending.retire_cids(retired) {
                Ok(()) => {}
                Err(error) => return Err(trouble_of_retiring(error)),
            },
            Err(InsertError::Retired) => self.streams.pending.retire_late_cid(sequence)?,
            Err(InsertError::ExceedsLimit) => return Err(too_many_ids()),
        }
        self.fit_messages(before);
        Ok(())
    }

    /// Takes a RETIRE_CONNECTION_ID frame (RFC 9000, section 19.16): an own id lives no more, and
    /// the next one is issued in its place, of which the peer has to be told (section 5.1.1),
    /// unless 80 wait to be told. It is drawn behind the frames of the packet.
    pub(crate) fn take_retirement(&mut self, sequence: u64) -> Result<(), Trouble>
        ensures takes { TakesAs result (take_retirement sequence self.old.end) self.new.end }
        ensures others { self.new ≡ with_end self.old self.new.end }
    {
        let may_issue = match self.ids.retire(sequence) {
            Ok(may_issue) => may_issue,
            Err(error) => return Err(Trouble::Broke(error)),
        };
        if may_issue && self.streams.pending.new_cids() < MAX_UNTOLD_IDS {
            self.issue_id()?;
        }
        Ok(())
    }

    /// The next own id is issued, and has to be told. An error is want of memory; the end is of no
    /// more use then.
    fn issue_id(&mut self) -> Result<(), AllocError>
        requires { self.old.end.ids.own.issued < 2 ^ 62 }
        ensures end { OnOk result (self.new ≡ with_end self.old (issued self.old.end)) }
        ensures others { self.new ≡ with_end self.old self.new.end }
    {
        let now = self.closing.clock();
        let waiting = &mut self.streams.pending;
        let cid = self.ids.issue(waiting.new_cids(), now)?;
        waiting.push_new_cid(cid)
    }

    /// The ids that were issued for a packet are drawn.
    pub(crate) fn draw_ids(&mut self)
        ensures end { self.new ≡ drawing self.new.random (with_end self.old (drawn (policy_of H.protection K.aead K.seal_limit K.refusal_limit (words_of R.stream) self.old).words self.old.end)) }
        ensures random { R.stream self.new.random ≡ after_words (words_drawn self.new.end - words_drawn self.old.end) (R.stream self.old.random) }
    {
        self.ids.draw(&mut self.random, &mut self.streams.pending);
    }

    /// Messages are dropped that are too long now, where the id in use had so many bytes before and
    /// has more.
    fn fit_messages(&mut self, before: usize)
        ensures { self.new ≡ with_end self.old (shortened (nat_lt before (length (destination self.old.end.ids))) self.old.end) }
    {
        if before < self.ids.destination().len() {
            self.drop_oversized();
        }
    }

    /// The own connection IDs that live, by ascending number: a datagram with one of them is for
    /// this endpoint (RFC 9000, sections 5.1.1 and 5.2). They are there as soon as they are issued,
    /// before the peer is told. [`poll_endpoint_events`](Self::poll_endpoint_events) says when they
    /// are others. Of an endpoint that has failed they say nothing: who keeps them takes them out.
    pub fn own_ids(&self) -> &[OwnId]
        ensures { result.now ≡ self.now.end.ids.living }
    {
        self.ids.own_ids()
    }

    /// The next event for whoever routes datagrams to connections: that own IDs were issued or
    /// retired, once for all since it was told last. The first tells of those with which the
    /// endpoint begins (quinn-proto's `Connection::poll_endpoint_events`).
    pub fn poll_endpoint_events(&mut self) -> Option<EndpointEvent>
        ensures answer { result ≡ end_routes self.old.end }
        ensures end { self.new ≡ with_end self.old (end_after_routed self.old.end) }
    {
        if self.ids.take_change() {
            Some(EndpointEvent::OwnIdsChanged)
        } else {
            None
        }
    }

    /// Sends to the next id that the peer gave, from now on, and retires those before it (RFC 9000,
    /// section 5.1.2): the peer is told so by RETIRE_CONNECTION_ID. Messages that wait and are too
    /// long with that id are dropped. It answers alike whether the end is open or not.
    ///
    /// # Errors
    ///
    /// - [`NextIdError::NoId`]: no later ID is known. Nothing changes.
    /// - [`NextIdError::TooManyPending`]: more than 80 retirements would wait. Nothing changes.
    /// - [`NextIdError::Memory`]: an allocation fails. Nothing changes.
    pub fn use_next_id(&mut self) -> Result<(), NextIdError>
        ensures ok { OnOk result (self.new ≡ with_end self.old (after_next_id self.old.end)) }
        ensures allowed { OnOk result (next_id_answer self.old.end ≡ Ok tt) }
        ensures refusal { IfErr result (λ e. e ≢ next_errors.Memory → next_id_answer self.old.end ≡ Err e) }
        ensures lacking { IfErr result (λ e. e ≡ next_errors.Memory → next_id_answer self.old.end ≡ Ok tt) }
        ensures err { OnErr result (self.new ≡ self.old) }
    {
        let Some(retired) = self.ids.next_retires() else {
            return Err(NextIdError::NoId);
        };
        let before = self.ids.destination().len();
        if let Err(error) = self.streams.pending.retire_cids(retired) {
            return Err(next_id_error(error));
        }
        self.ids.use_next();
        self.fit_messages(before);
        Ok(())
    }
}
