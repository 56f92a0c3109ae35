//! A peer that moves to another address (RFC 9000, section 9): a client's doesn't, and a server
//! follows it there.
ghost use Rattle.std.specs.Prelude.{◌≡◌, ◌≢◌, ◌≤◌, ◌<◌, ◌&&◌, true, ℕ, OnOk, OnErr};
ghost use Rattle.quic_time.specs.Timers.{no_timers};
ghost use Rattle.quic_wire.specs.FrameView.{item_view};
ghost use Rattle.quic_wire.specs.Items.{items};
ghost use Rattle.quic_spaces.specs.Numbers.{expected};
ghost use Rattle.quic_machine.specs.Calls.{is_open};
ghost use Rattle.quic_machine.specs.Control.{with_pacing};
ghost use Rattle.quic_machine.specs.End.{with_end, hearing, drawing, policy_of, HasFailed};
ghost use Rattle.quic_machine.specs.Heard.{heard_moved};
ghost use Rattle.quic_machine.specs.IdFrames.{drawn};
ghost use Rattle.quic_machine.specs.Receive.{is_taken};
ghost use Rattle.quic_machine.specs.Migration.{is_foreign, migrates, with_path, path_to, next_id_if_allowed, path_item_taken, path_frames_taken, migrated, pacing_moved, repaced};
ghost use Rattle.quic_connection_parts.specs.Drawn.{words_of, Draws};

use crate::connection::Connection;
use quic_congestion::Controller;
use quic_connection_parts::receiving::{is_taken, tells_address};
use quic_machine::{NextIdError, Received};
use quic_packet::Opened;
use quic_packet::crypto::{HeaderKey, PacketKey};
use quic_paths::{Address, PathData, PathResponses};
use quic_wire::frame::{Frame, InvalidFrame, Unpadded};
use rand_core::Rng;
use std::alloc::AllocError;

impl<H: HeaderKey + Drop, K: PacketKey + Drop, R: Rng + Drop, C: Controller> Connection<
    H,
    K,
    R,
    C,
> {
    /// Whether nothing is taken from this address: the endpoint is a client, whose peer stays where
    /// it is, which is elsewhere.
    pub(crate) fn is_foreign(&self, remote: Address) -> bool
        ensures { result ≡ is_foreign remote self.now.end }
    {
        self.side().is_client() && remote != self.path.remote
    }

    /// Whether a packet that opened says, if all its frames are taken, that a server's peer has
    /// moved to the address from which it came: its number is above all that were taken so far, and
    /// it doesn't only probe (RFC 9000, sections 9.1 and 9.3).
    pub(crate) fn migrates(&self, remote: Address, opened: &Opened, payload: &[u8]) -> bool
        ensures says { result ≡ migrates (record { first = opened.now.first; number = opened.now.number; payload = payload.now }) remote self.now.end }
        ensures above { result ≡ true → self.now.end.path.generation ≤ opened.now.number }
    {
        self.side().is_server()
            && remote != self.path.remote
            && self.space.numbers.expected() <= opened.number
            && tells_address(payload)
    }

    /// Whether the peer has moved, as a packet says or doesn't that is answered so: all its frames
    /// were taken, and it had no close.
    pub(crate) fn has_moved(&self, migrates: bool, received: &Received) -> bool
        ensures { result ≡ (migrates && (is_taken received.now && is_open self.now.end.closing.state)) }
    {
        migrates && is_taken(received) && self.is_open()
    }

    /// The peer has moved to this address, as a datagram of so many bytes said, whose frames were
    /// taken: what is answered to it. An allocation may fail, before anything is drawn of the
    /// random source.
    pub(crate) fn migrate(&mut self, remote: Address, len: u64, payload: &[u8]) -> Received
        requires { self.old.end.path.generation < expected self.old.end.numbers }
        ensures answer { result ≢ Received.Failed → result ≡ Received.Taken }
        ensures end { result ≢ Received.Failed → (first number : ℕ)
            → let p = policy_of H.protection K.aead K.seal_limit K.refusal_limit (words_of R.stream) self.old in
            let before = drawn p.words self.old.end in
            let after = migrated p (record { first = first; number = number; payload = payload.now }) remote before in
            self.new ≡ drawing self.new.random (with_end (hearing self.old (heard_moved true len self.old.heard)) (repaced (C.window_of self.old.control) before after)) }
        ensures random { result ≢ Received.Failed → Draws R.stream self.old self.new }
        ensures failed { result ≡ Received.Failed → HasFailed self.old self.new }
        ensures stopped { result ≡ Received.Failed → self.new.end.timers ≡ no_timers }
    {
        match self.change_path(remote, len) {
            Ok(()) => {
                self.draw_ids();
                self.challenge_anew();
                self.take_path_frames(payload);
                Received::Taken
            }
            Err(AllocError) => {
                self.fail();
                Received::Failed
            }
        }
    }

    /// The path is another one, to this address, on which a datagram of so many bytes came, and the
    /// peer's next ID comes into use, if it may be used (RFC 9000, sections 9.3 and 9.5). Fails if
    /// out of memory; the endpoint is then unusable.
    fn change_path(&mut self, remote: Address, len: u64) -> Result<(), AllocError>
        requires { self.old.end.path.generation < expected self.old.end.numbers }
        ensures ok { OnOk result (let next = next_id_if_allowed self.old.end in
            self.new ≡ with_end (hearing self.old (heard_moved true len self.old.heard)) (with_pacing (with_path next (path_to remote next)) (pacing_moved true (C.window_of self.old.control) next))) }
        ensures err { OnErr result (self.new ≡ with_end self.old self.new.end) }
    {
        self.change_id()?;
        let now = self.closing.clock();
        // The proof reads that the numbers of packets have 62 bits.
        let _expected = self.space.numbers.expected();
        let generation = self.path.generation() + 1;
        let mut path = PathData::from_previous(remote, &self.path, generation, now)?;
        path.on_datagram_received(len);
        self.path = path;
        self.path_responses = PathResponses::new();
        Ok(())
    }

    /// The next ID of the peer comes into use, so that addresses can't be told to be those of one
    /// peer (RFC 9000, section 9.5): where none is known, or more than 80 retirements would wait,
    /// the ID stays. Fails if out of memory; nothing has changed then.
    fn change_id(&mut self) -> Result<(), AllocError>
        ensures ok { OnOk result (self.new ≡ with_end self.old (next_id_if_allowed self.old.end)) }
        ensures err { OnErr result (self.new ≡ self.old) }
    {
        match self.use_next_id() {
            Ok(()) | Err(NextIdError::NoId | NextIdError::TooManyPending) => Ok(()),
            Err(NextIdError::Memory) => Err(AllocError),
        }
    }

    /// Takes the frames of path validation in a payload, one after another.
    fn take_path_frames(&mut self, payload: &[u8])
        ensures { self.new ≡ with_end self.old (path_frames_taken (items payload.now) self.old.end) }
    {
        for item in Unpadded::new(payload) {
            self.take_path_item(&item);
        }
    }

    /// Takes an item of a payload, if it is a frame of path validation.
    fn take_path_item(&mut self, item: &Result<Frame<'_>, InvalidFrame>)
        ensures { self.new ≡ with_end self.old (path_item_taken (item_view item.now) self.old.end) }
    {
        match item {
            Ok(Frame::PathChallenge(token)) => self.take_path_challenge(*token),
            Ok(Frame::PathResponse(token)) => self.take_path_response(*token),
            Ok(_) | Err(_) => {}
        }
    }
}
