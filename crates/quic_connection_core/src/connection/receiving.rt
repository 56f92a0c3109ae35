//! Taking a datagram (RFC 9000, sections 5.2, 12 and 13.1).
ghost use Rattle.std.specs.Prelude.{◌≡◌, ◌≢◌, ◌+◌, ◌-◌, ◌≤◌, ◌<◌, ◌^◌, ◌&&◌, ◌||◌, length, slice_range, true, false, Some, None, Ok, IfSome, IfNone, IfOk, IfErr, OnOk, MatchResult};
ghost use Rattle.quic_wire.specs.Items.{items};
ghost use Rattle.quic_wire.specs.Value.{stream, datagram};
ghost use Rattle.quic_time.specs.Timers.{no_timers};
ghost use Rattle.quic_wire.specs.FrameView.{frame_view, stream_view, item_view};
ghost use Rattle.quic_machine.specs.End.{with_end, hearing, policy_of, HasFailed, drawing, words_drawn};
ghost use Rattle.quic_machine.specs.Heard.{is_last, received_if, heard_datagram, heard_moved, heard_answer};
ghost use Rattle.quic_machine.specs.Opens.{own_id_length, head, would_open};
ghost use Rattle.quic_machine.specs.Arrival.{arriving};
ghost use Rattle.quic_machine.specs.Migration.{is_there, as_elsewhere, item_elsewhere, item_at, items_at, has_moved};
ghost use Rattle.quic_machine.specs.Receive.{names_ungiven, received, opened_to, processed, take_ack, take_frame, take_item, take_items, take_payload, told_received, told_opened, told_processed, told_payload, told_items, told_item, told_ack, item_asks, acks_asking, item_answers, asks_in, is_urged, opening, ends_as, violation};
ghost use Rattle.quic_spaces.specs.Marks.{is_congested};
ghost use Rattle.quic_connection_parts.specs.Drawn.{words_of, after_words};
ghost use Rattle.quic_connection_parts.specs.Telling.{telling, taking, KeepsRest};
ghost use Rattle.quic_connection_parts.specs.Faults.{fault_view, TellsAs, TakesAs, TakesAllAs, TakesPacketAs, HasForm, ItemHasForm};
ghost use Rattle.quic_machine.specs.Lacking.{TakesFrames};

use crate::connection::Connection;
use quic_congestion::Controller;
use quic_connection_parts::closes::{take_application_close, take_connection_close};
use quic_connection_parts::ids::OWN_ID_LENGTH;
use quic_connection_parts::receiving::{
    AckDemand, Trouble, drop_reason, is_above, is_congested, is_of_path, is_read, item_asks,
    violation,
};
use quic_connection_parts::statistics::count;
use quic_connection_parts::stream_frames::{take_other, take_stream};
use quic_machine::{DropReason, Instant, Received, State};
use quic_packet::crypto::{HeaderKey, NotOpened, PacketKey};
use quic_packet::{Opened, open_packet};
use quic_paths::Address;
use quic_wire::frame::{Ack, Frame, InvalidFrame, Stream, Unpadded};
use quic_wire_core::{ConnectionId, EcnCodepoint, Reason, TransportError};
use rand_core::Rng;

impl<H: HeaderKey + Drop, K: PacketKey + Drop, R: Rng + Drop, C: Controller> Connection<
    H,
    K,
    R,
    C,
> {
    /// Takes a datagram that came at this time from this address with this ECN codepoint, opening
    /// it in place (RFC 9000, sections 5.2 and 12).
    ///
    /// Its bytes count as received on the path if it came from the peer's address, whatever is made
    /// of it (section 8.1). A client drops what comes from another. At a server the peer has moved
    /// to the other address if the packet's frames were all taken, its number is above all that
    /// were taken before, and it doesn't only probe (sections 9.1 and 9.3): the path is another one
    /// then, on which the datagram counts, whose address isn't validated and is challenged, and
    /// which begins with the next ID of the peer, if that is known and 80 retirements at most would
    /// wait (section 9.5). Round trip, congestion controller and path MTU discovery go on. Frames
    /// of path validation from elsewhere do nothing, unless such a packet has them.
    ///
    /// It counts as a failure if its packet doesn't open: with the last that the peer's key may
    /// refuse, an open endpoint closes for [`LostReason::KeyLimit`] (RFC 9001, section 6.6). A
    /// datagram that is dropped changes nothing else but what [`stats`](Self::stats) counts. The
    /// exception is a new packet that a closing endpoint opened: its number counts as seen, and
    /// CONNECTION_CLOSE may be sent once more (section 10.2.1).
    ///
    /// If it breaks a rule, the endpoint closes; the frames before keep their effect, and its
    /// number isn't acknowledged. If the peer closes, the number counts, the endpoint is drained at
    /// once, and the frames behind aren't taken (section 10.2.2). If out of memory, the endpoint
    /// fails for good.
    ///
    /// Its number is to be acknowledged once all its frames were taken, and its codepoint is
    /// counted (section 13.4.1). An ACK becomes due at once if it came with CE, and is
    /// ack-eliciting or newly acknowledges an ack-eliciting packet (section 13.2.1). Each
    /// connection ID that is issued for it draws three random values after its frames (section
    /// 5.1.1). The datagram's bytes may be changed; to what isn't said.
    ///
    /// [`LostReason::KeyLimit`]: quic_machine::LostReason::KeyLimit
    pub fn receive(
        &mut self,
        now: Instant,
        remote: Address,
        ecn: Option<EcnCodepoint>,
        datagram: &mut [u8],
    ) -> Received
        ensures answer { result ≢ Received.Failed → result ≡ (received (policy_of H.protection K.aead K.seal_limit K.refusal_limit (words_of R.stream) self.old) self.old.end (arriving now remote ecn (is_last (K.refusal_limit self.old.keys.packet.remote) self.old.heard)) datagram.old).answer }
        ensures end { result ≢ Received.Failed → let after = (received (policy_of H.protection K.aead K.seal_limit K.refusal_limit (words_of R.stream) self.old) self.old.end (arriving now remote ecn (is_last (K.refusal_limit self.old.keys.packet.remote) self.old.heard)) datagram.old).end in
            self.new ≡ drawing self.new.random (taking C.steps C.window_of self.old (heard_datagram (is_there remote self.old.end) (has_moved self.old.end after) datagram.old result self.old.heard)
            (told_received (policy_of H.protection K.aead K.seal_limit K.refusal_limit (words_of R.stream) self.old) self.old.end (arriving now remote ecn false) datagram.old) after) }
        ensures random { result ≢ Received.Failed → R.stream self.new.random ≡ after_words (words_drawn self.new.end - words_drawn self.old.end) (R.stream self.old.random) }
        ensures failed { result ≡ Received.Failed → HasFailed self.old self.new }
        ensures before { result ≡ Received.Failed → self.old.end.closing.state ≢ State.Failed }
        ensures stopped { result ≡ Received.Failed → self.new.end.timers ≡ no_timers }
        ensures lacking { result ≡ Received.Failed → TakesFrames (received (policy_of H.protection K.aead K.seal_limit K.refusal_limit (words_of R.stream) self.old) self.old.end (arriving now remote ecn false) datagram.old).answer }
    {
        let len = datagram.len();
        self.stats.udp_rx.on_datagram(len);
        self.count_received(remote, len as u64);
        let received = self.take_datagram(now, remote, ecn, datagram);
        self.count_drop(&received);
        received
    }

    /// Counts the bytes of a datagram as received on the path, if it came from the peer's address.
    fn count_received(&mut self, remote: Address, len: u64)
        ensures { self.new ≡ hearing self.old (received_if (is_there remote self.old.end) len self.old.heard) }
    {
        if self.is_at(remote) {
            self.path.on_datagram_received(len);
        }
    }

    /// Takes a datagram that came at this time from this address with this ECN codepoint, opening
    /// it in place.
    #[tactic(auto, using(quic_connection_parts::proofs::Drawing::draws_same))]
    fn take_datagram(
        &mut self,
        now: Instant,
        remote: Address,
        ecn: Option<EcnCodepoint>,
        datagram: &mut [u8],
    ) -> Received
        ensures answer { result ≢ Received.Failed → result ≡ (received (policy_of H.protection K.aead K.seal_limit K.refusal_limit (words_of R.stream) self.old) self.old.end (arriving now remote ecn (is_last (K.refusal_limit self.old.keys.packet.remote) self.old.heard)) datagram.old).answer }
        ensures end { result ≢ Received.Failed → let after = (received (policy_of H.protection K.aead K.seal_limit K.refusal_limit (words_of R.stream) self.old) self.old.end (arriving now remote ecn (is_last (K.refusal_limit self.old.keys.packet.remote) self.old.heard)) datagram.old).end in
            self.new ≡ drawing self.new.random (taking C.steps C.window_of self.old (heard_answer result (heard_moved (has_moved self.old.end after) (length datagram.old) self.old.heard))
            (told_received (policy_of H.protection K.aead K.seal_limit K.refusal_limit (words_of R.stream) self.old) self.old.end (arriving now remote ecn false) datagram.old) after) }
        ensures random { result ≢ Received.Failed → R.stream self.new.random ≡ after_words (words_drawn self.new.end - words_drawn self.old.end) (R.stream self.old.random) }
        ensures failed { result ≡ Received.Failed → HasFailed self.old self.new }
        ensures before { result ≡ Received.Failed → self.old.end.closing.state ≢ State.Failed }
        ensures stopped { result ≡ Received.Failed → self.new.end.timers ≡ no_timers }
        ensures lacking { result ≡ Received.Failed → TakesFrames (received (policy_of H.protection K.aead K.seal_limit K.refusal_limit (words_of R.stream) self.old) self.old.end (arriving now remote ecn false) datagram.old).answer }
    {
        match self.state() {
            State::Failed => return Received::Dropped(DropReason::Failed),
            State::Drained => return Received::Dropped(DropReason::Drained),
            State::Open | State::Closing => {}
        }
        if let Err(reason) = self.destination_of(remote, datagram) {
            return Received::Dropped(reason);
        }
        let len = datagram.len() as u64;
        let Ok(opened) = self.unprotect(datagram) else {
            return self.refuse_packet(now);
        };
        let payload = &datagram[opened.start..opened.end];
        let migrates = self.migrates(remote, &opened, payload);
        let received = self.take_opened(now, remote, ecn, &opened, payload);
        if !is_read(&received) {
            return received;
        }
        if self.has_moved(migrates, &received) {
            return self.migrate(remote, len, payload);
        }
        self.draw_ids();
        received
    }

    /// The own ID that a datagram from this address is for, or why it is dropped.
    fn destination_of(&self, remote: Address, datagram: &[u8]) -> Result<ConnectionId, DropReason>
        ensures head { result ≡ head self.now.end remote datagram.now }
        ensures room { OnOk result (own_id_length + 21 ≤ length datagram.now) }
    {
        if self.is_foreign(remote) {
            return Err(DropReason::Address);
        }
        match self.ids.decode(datagram) {
            Ok(id) => Ok(id),
            Err(error) => Err(drop_reason(error)),
        }
    }

    /// Whether a datagram from this address would open here, whatever the state of the endpoint,
    /// and also if it came before: it has a short header with an own ID, its packet opens under its
    /// number, and its key phase is 0. It is opened in place, so `scratch` is a copy of it, whose
    /// bytes may be changed; the endpoint stays as it is.
    pub fn would_open(&self, remote: Address, scratch: &mut [u8]) -> bool
        ensures { result ≡ would_open (policy_of H.protection K.aead K.seal_limit K.refusal_limit (words_of R.stream) self.now) self.now.end remote scratch.old }
    {
        if self.destination_of(remote, scratch).is_err() {
            return false;
        }
        match self.unprotect(scratch) {
            Ok(opened) => !opened.key_phase(),
            Err(NotOpened) => false,
        }
    }

    /// Opens a datagram in place, whose destination ID is an own one.
    fn unprotect(&self, datagram: &mut [u8]) -> Result<Opened, NotOpened>
        requires { own_id_length + 21 ≤ length datagram.old }
        ensures opened { MatchResult result
            (λ o. opening (policy_of H.protection K.aead K.seal_limit K.refusal_limit (words_of R.stream) self.now) self.now.end datagram.old ≡ Some (record { first = o.first; number = o.number; payload = slice_range datagram.new o.start o.end }))
            (λ _. opening (policy_of H.protection K.aead K.seal_limit K.refusal_limit (words_of R.stream) self.now) self.now.end datagram.old ≡ None) }
        ensures number { IfOk result (λ o. o.number < 2 ^ 62) }
        ensures start { IfOk result (λ o. o.start ≤ o.end) }
        ensures end { IfOk result (λ o. o.end ≤ length datagram.new) }
    {
        let expected = self.space.numbers.expected();
        open_packet(
            datagram,
            1 + OWN_ID_LENGTH,
            expected,
            &self.keys.header.remote,
            &self.keys.packet.remote,
        )
    }

    /// Takes a packet that opened.
    fn take_opened(
        &mut self,
        now: Instant,
        remote: Address,
        ecn: Option<EcnCodepoint>,
        opened: &Opened,
        payload: &[u8],
    ) -> Received
        requires { opened.now.number < 2 ^ 62 }
        ensures answer { result ≢ Received.Failed → result ≡ (opened_to (record { first = opened.now.first; number = opened.now.number; payload = payload.now }) (arriving now remote ecn false) self.old.end).answer }
        ensures end { result ≢ Received.Failed → self.new ≡ telling C.steps self.old (told_opened (record { first = opened.now.first; number = opened.now.number; payload = payload.now }) (arriving now remote ecn false) self.old.end) (opened_to (record { first = opened.now.first; number = opened.now.number; payload = payload.now }) (arriving now remote ecn false) self.old.end).end }
        ensures failed { result ≡ Received.Failed → HasFailed self.old self.new }
        ensures stopped { result ≡ Received.Failed → self.new.end.timers ≡ no_timers }
        ensures lacking { result ≡ Received.Failed → TakesFrames (opened_to (record { first = opened.now.first; number = opened.now.number; payload = payload.now }) (arriving now remote ecn false) self.old.end).answer }
    {
        if opened.key_phase() {
            return Received::Dropped(DropReason::KeyPhase);
        }
        if self.open_number(opened.number) {
            return Received::Dropped(DropReason::Duplicate);
        }
        match self.state() {
            State::Open => self.process(now, remote, ecn, opened, payload),
            State::Closing => {
                self.closing.ask();
                Received::Dropped(DropReason::Closing)
            }
            State::Drained => Received::Dropped(DropReason::Drained),
            State::Failed => Received::Dropped(DropReason::Failed),
        }
    }

    /// Takes the packet of a number that is new.
    fn process(
        &mut self,
        now: Instant,
        remote: Address,
        ecn: Option<EcnCodepoint>,
        opened: &Opened,
        payload: &[u8],
    ) -> Received
        requires { opened.now.number < 2 ^ 62 }
        ensures answer { result ≢ Received.Failed → result ≡ (processed (record { first = opened.now.first; number = opened.now.number; payload = payload.now }) (arriving now remote ecn false) self.old.end).answer }
        ensures end { result ≢ Received.Failed → self.new ≡ telling C.steps self.old (told_processed (record { first = opened.now.first; number = opened.now.number; payload = payload.now }) (arriving now remote ecn false) self.old.end) (processed (record { first = opened.now.first; number = opened.now.number; payload = payload.now }) (arriving now remote ecn false) self.old.end).end }
        ensures failed { result ≡ Received.Failed → HasFailed self.old self.new }
        ensures stopped { result ≡ Received.Failed → self.new.end.timers ≡ no_timers }
        ensures lacking { result ≡ Received.Failed → TakesFrames (processed (record { first = opened.now.first; number = opened.now.number; payload = payload.now }) (arriving now remote ecn false) self.old.end).answer }
    {
        self.tick(now);
        match self.take_packet(remote, ecn, opened, payload) {
            Ok(()) => Received::Taken,
            Err(trouble) => self.close_for(trouble, opened.number),
        }
    }

    /// Takes the frames of a packet that came from this address, and then its number and its ECN
    /// codepoint.
    fn take_packet(
        &mut self,
        remote: Address,
        ecn: Option<EcnCodepoint>,
        opened: &Opened,
        payload: &[u8],
    ) -> Result<(), Trouble>
        requires { opened.now.number < 2 ^ 62 }
        ensures takes { TakesPacketAs result (take_payload opened.now.first (items_at (is_there remote self.old.end) (items payload.now)) self.old.end) (asks_in (items payload.now)) (is_urged ecn (asks_in (items payload.now)) (items_at (is_there remote self.old.end) (items payload.now)) self.old.end) opened.now.number ecn self.new.end }
        ensures told { TellsAs result C.steps self.old (told_payload opened.now.first (items_at (is_there remote self.old.end) (items payload.now)) self.old.end) self.new }
        ensures others { KeepsRest self.old self.new }
    {
        let demand = self.take_payload(remote, ecn, opened, payload)?;
        self.take_number(opened.number, demand, ecn)?;
        Ok(())
    }

    /// Takes the frames of a packet that came from this address with this ECN codepoint, one after
    /// another: what they ask for.
    fn take_payload(
        &mut self,
        remote: Address,
        ecn: Option<EcnCodepoint>,
        opened: &Opened,
        payload: &[u8],
    ) -> Result<AckDemand, Trouble>
        ensures takes { TakesAllAs result (take_payload opened.now.first (items_at (is_there remote self.old.end) (items payload.now)) self.old.end) (asks_in (items payload.now)) (is_urged ecn (asks_in (items payload.now)) (items_at (is_there remote self.old.end) (items payload.now)) self.old.end) self.new.end }
        ensures told { TellsAs result C.steps self.old (told_payload opened.now.first (items_at (is_there remote self.old.end) (items payload.now)) self.old.end) self.new }
        ensures others { KeepsRest self.old self.new }
    {
        if opened.reserved_bits() != 0 {
            return Err(violation(Reason::ReservedBits));
        }
        if payload.is_empty() {
            return Err(violation(Reason::NoFrame));
        }
        self.take_frames(remote, ecn, payload)
    }

    /// Takes frames that came from this address, up to the first that is at fault: what they ask
    /// for.
    fn take_frames(
        &mut self,
        remote: Address,
        ecn: Option<EcnCodepoint>,
        payload: &[u8],
    ) -> Result<AckDemand, Trouble>
        ensures takes { TakesAllAs result (take_items (items_at (is_there remote self.old.end) (items payload.now)) self.old.end) (asks_in (items payload.now)) (is_urged ecn (asks_in (items payload.now)) (items_at (is_there remote self.old.end) (items payload.now)) self.old.end) self.new.end }
        ensures told { TellsAs result C.steps self.old (told_items (items_at (is_there remote self.old.end) (items payload.now)) self.old.end) self.new }
        ensures others { KeepsRest self.old self.new }
    {
        let here = self.is_at(remote);
        self.take_frames_at(here, ecn, payload)
    }

    /// Whether the peer is at this address.
    fn is_at(&self, remote: Address) -> bool
        ensures { result ≡ is_there remote self.now.end }
    {
        remote == self.path.remote
    }

    /// Takes frames that came from the peer's address or from elsewhere, up to the first that is at
    /// fault: what they ask for.
    fn take_frames_at(
        &mut self,
        here: bool,
        ecn: Option<EcnCodepoint>,
        payload: &[u8],
    ) -> Result<AckDemand, Trouble>
        ensures takes { TakesAllAs result (take_items (items_at here (items payload.now)) self.old.end) (asks_in (items payload.now)) (is_urged ecn (asks_in (items payload.now)) (items_at here (items payload.now)) self.old.end) self.new.end }
        ensures told { TellsAs result C.steps self.old (told_items (items_at here (items payload.now)) self.old.end) self.new }
        ensures others { KeepsRest self.old self.new }
    {
        let mut demand = AckDemand {
            asks: false,
            urged: false,
        };
        let mut frames = Unpadded::new(payload);
        loop {
            if let Some(frame) = frames.next_stream() {
                demand = demand.with_asking(ecn);
                self.take_stream_frame(&frame)?;
                continue;
            }
            if let Some(message) = frames.next_message() {
                demand = demand.with_asking(ecn);
                self.take_datagram_frame(message)?;
                continue;
            }
            let Some(item) = frames.next() else {
                return Ok(demand);
            };
            demand = self.demand_with(&item, ecn, demand);
            self.take_item(here, &item)?;
        }
    }

    /// Takes a STREAM frame, from wherever it came.
    #[tactic(auto, using(crate::proofs::Items::tells_nothing))]
    fn take_stream_frame(&mut self, frame: &Stream<'_>) -> Result<(), Trouble>
        ensures takes { TakesAs result (take_frame (stream (stream_view frame.now)) self.old.end) self.new.end }
        ensures told { TellsAs result C.steps self.old (told_item (Ok (stream (stream_view frame.now))) self.old.end) self.new }
        ensures others { KeepsRest self.old self.new }
    {
        count(&mut self.stats.frame_rx.stream);
        take_stream(&mut self.streams, frame)
    }

    /// Takes the message of a DATAGRAM frame, from wherever it came.
    #[tactic(auto, using(crate::proofs::Items::tells_nothing))]
    fn take_datagram_frame(&mut self, message: &[u8]) -> Result<(), Trouble>
        ensures takes { TakesAs result (take_frame (datagram message.now) self.old.end) self.new.end }
        ensures told { TellsAs result C.steps self.old (told_item (Ok (datagram message.now)) self.old.end) self.new }
        ensures others { KeepsRest self.old self.new }
    {
        count(&mut self.stats.frame_rx.datagram);
        self.take_message(message)
    }

    /// What the frames of a packet ask for, with one more of them, which isn't taken yet.
    fn demand_with(
        &self,
        item: &Result<Frame<'_>, InvalidFrame>,
        ecn: Option<EcnCodepoint>,
        demand: AckDemand,
    ) -> AckDemand
        ensures asks { result.asks ≡ (demand.asks || item_asks (item_view item.now)) }
        ensures urged { result.urged ≡ (demand.urged || (is_congested ecn && (item_asks (item_view item.now) || item_answers (item_view item.now) self.now.end))) }
    {
        let asks = item_asks(item);
        let urges = is_congested(ecn) && (asks || self.answers(item));
        AckDemand {
            asks: demand.asks || asks,
            urged: demand.urged || urges,
        }
    }

    /// Whether an item of a payload is an ACK frame that newly acknowledges an ack-eliciting
    /// packet.
    fn answers(&self, item: &Result<Frame<'_>, InvalidFrame>) -> bool
        ensures { result ≡ item_answers (item_view item.now) self.now.end }
    {
        match item {
            Ok(Frame::Ack(frame)) => {
                self.check_ack(frame).is_ok() && self.space.tracking.names_asking(frame)
            }
            _ => false,
        }
    }

    /// Takes a frame that came from the peer's address or from elsewhere, or what can't be read as
    /// one.
    fn take_item(
        &mut self,
        here: bool,
        item: &Result<Frame<'_>, InvalidFrame>,
    ) -> Result<(), Trouble>
        requires { ItemHasForm (item_view item.now) }
        ensures takes { TakesAs result (take_item (item_at here (item_view item.now)) self.old.end) self.new.end }
        ensures told { TellsAs result C.steps self.old (told_item (item_at here (item_view item.now)) self.old.end) self.new }
        ensures others { KeepsRest self.old self.new }
    {
        if here {
            return self.take_item_here(item);
        }
        self.take_item_elsewhere(item)
    }

    /// Takes a frame that came from the peer's address, or what can't be read as one.
    fn take_item_here(&mut self, item: &Result<Frame<'_>, InvalidFrame>) -> Result<(), Trouble>
        requires { ItemHasForm (item_view item.now) }
        ensures takes { TakesAs result (take_item (item_view item.now) self.old.end) self.new.end }
        ensures told { TellsAs result C.steps self.old (told_item (item_view item.now) self.old.end) self.new }
        ensures others { KeepsRest self.old self.new }
    {
        match item {
            Ok(frame) => {
                self.stats.frame_rx.record(frame);
                self.take_frame(frame)
            }
            Err(invalid) => Err(Trouble::Broke(TransportError::from(*invalid))),
        }
    }

    /// Takes a frame that came from elsewhere, or what can't be read as one.
    fn take_item_elsewhere(&mut self, item: &Result<Frame<'_>, InvalidFrame>) -> Result<(), Trouble>
        requires { ItemHasForm (item_view item.now) }
        ensures takes { TakesAs result (take_item (item_elsewhere (item_view item.now)) self.old.end) self.new.end }
        ensures told { TellsAs result C.steps self.old (told_item (item_elsewhere (item_view item.now)) self.old.end) self.new }
        ensures others { KeepsRest self.old self.new }
    {
        match item {
            Ok(frame) => self.take_frame_elsewhere(frame),
            Err(invalid) => Err(Trouble::Broke(TransportError::from(*invalid))),
        }
    }

    /// Takes a frame that came from elsewhere: one of path validation does nothing.
    fn take_frame_elsewhere(&mut self, frame: &Frame<'_>) -> Result<(), Trouble>
        requires { HasForm (frame_view frame.now) }
        ensures takes { TakesAs result (take_frame (as_elsewhere (frame_view frame.now)) self.old.end) self.new.end }
        ensures told { TellsAs result C.steps self.old (told_item (Ok (as_elsewhere (frame_view frame.now))) self.old.end) self.new }
        ensures others { KeepsRest self.old self.new }
    {
        self.count_frame(frame);
        if is_of_path(frame) {
            return Ok(());
        }
        self.take_frame(frame)
    }

    /// Takes a frame. Those about neither packets and their acknowledgements, streams, messages,
    /// IDs, the path, the end of the handshake nor a close do nothing yet.
    #[tactic(auto, using(crate::proofs::Items::tells_nothing))]
    fn take_frame(&mut self, frame: &Frame<'_>) -> Result<(), Trouble>
        requires { HasForm (frame_view frame.now) }
        ensures takes { TakesAs result (take_frame (frame_view frame.now) self.old.end) self.new.end }
        ensures told { TellsAs result C.steps self.old (told_item (Ok (frame_view frame.now)) self.old.end) self.new }
        ensures others { KeepsRest self.old self.new }
    {
        match frame {
            Frame::Ack(frame) => self.take_ack(frame),
            Frame::Datagram { data } => self.take_message(data),
            Frame::ConnectionClose {
                error_code,
                frame_type,
                reason,
            } => take_connection_close(self.alloc, *error_code, *frame_type, reason),
            Frame::ApplicationClose { error_code, reason } => {
                take_application_close(self.alloc, *error_code, reason)
            }
            Frame::PathChallenge(token) => {
                self.take_path_challenge(*token);
                Ok(())
            }
            Frame::PathResponse(token) => {
                self.take_path_response(*token);
                Ok(())
            }
            Frame::NewConnectionId(frame) => self.take_new_id(*frame),
            Frame::RetireConnectionId { sequence } => self.take_retirement(*sequence),
            Frame::ImmediateAck => {
                self.take_immediate_ack_frame();
                Ok(())
            }
            Frame::AckFrequency(frame) => self.take_ack_frequency(frame),
            Frame::HandshakeDone => self.take_handshake_done(),
            _ => take_other(&mut self.streams, frame),
        }
    }

    /// Takes an ACK frame: the greatest number that it names is noted, and the tracked packets that
    /// it names are acknowledged. A number that was never sent is a protocol violation (RFC 9000,
    /// section 13.1).
    fn take_ack(&mut self, frame: &Ack<'_>) -> Result<(), Trouble>
        ensures takes { TakesAs result (take_ack frame.now self.old.end) self.new.end }
        ensures told { TellsAs result C.steps self.old (told_ack frame.now self.old.end) self.new }
        ensures others { KeepsRest self.old self.new }
    {
        self.check_ack(frame)?;
        let largest = frame.largest();
        let rises = is_above(self.space.numbers.largest_acked(), largest);
        self.space.numbers.name(largest);
        self.on_ack_received(frame, rises)?;
        Ok(())
    }

    /// Sees that an ACK frame names no number that was never sent, and not the one that was skipped
    /// last (RFC 9000, sections 13.1 and 21.4).
    fn check_ack(&self, frame: &Ack<'_>) -> Result<(), Trouble>
        ensures ok { OnOk result (names_ungiven frame.now self.now.end ≡ false) }
        ensures below { OnOk result (frame.now.largest < self.now.end.numbers.next) }
        ensures err { IfErr result (λ trouble. (names_ungiven frame.now self.now.end ≡ true) × (fault_view trouble ≡ Some violation)) }
    {
        if self.space.numbers.next() <= frame.largest() {
            return Err(violation(Reason::NeverSent));
        }
        for range in frame.iter() {
            if self.filter.check_ack(range).is_err() {
                return Err(violation(Reason::NeverSent));
            }
        }
        Ok(())
    }

    /// Closes for what was wrong with the packet of a number, or fails; or the peer closed in it.
    fn close_for(&mut self, trouble: Trouble, number: u64) -> Received
        requires { number < 2 ^ 62 }
        ensures answer { IfSome (fault_view trouble) (λ fault. result ≡ (ends_as (Some fault) false false number None self.old.end).answer) }
        ensures end { IfSome (fault_view trouble) (λ fault. self.new ≡ with_end self.old (ends_as (Some fault) false false number None self.old.end).end) }
        ensures memory { IfNone (fault_view trouble) (result ≡ Received.Failed) }
        ensures failed { IfNone (fault_view trouble) (HasFailed self.old self.new) }
        ensures stopped { IfNone (fault_view trouble) (self.new.end.timers ≡ no_timers) }
    {
        match trouble {
            Trouble::Broke(error) => self.close_for_error(error),
            Trouble::TooManyPieces => self.close_for_pieces(),
            Trouble::Closed(close) => {
                self.space.numbers.take(number);
                self.close_by_peer(Box::into_inner(close));
                Received::Taken
            }
            Trouble::Memory => {
                self.fail();
                Received::Failed
            }
        }
    }
}
