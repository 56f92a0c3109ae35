//! The clock of an end, whether it is open, and what it tells its peer where it isn't.
ghost use Rattle.std.specs.Prelude.{◌≡◌, option_copied, option_map, None, false};
ghost use Rattle.quic_machine.specs.Closing.{ticked, closing_for, drained_for, drained, failed, close_owed, close_asked, close_given, loss_to_tell, after_told};
ghost use Rattle.quic_connection_parts.specs.Closes.{close_frame};

use bytes::Bytes;
use quic_machine::{Instant, LostReason, PeerClose, State};
use quic_wire_core::{Code, VarInt};
use std::marker::Model;

/// What an end that closes tells its peer (RFC 9000, section 19.19).
#[derive(Debug, Drop)]
pub enum OwnClose {
    /// An error of QUIC, of which neither a frame nor a text is told.
    Transport(Code),
    /// The application's code, and its text.
    Application(VarInt, Bytes),
}

/// What the peer said as it closed: once to be kept, and once for the application.
#[derive(Debug, Drop)]
pub struct CloseTold {
    pub kept: PeerClose,
    pub told: PeerClose,
    ghost same: { told ≡ kept },
}

/// The greatest moment taken over, whether the end is open, why it isn't, and what the peer is told
/// of that.
#[derive(Debug, Drop)]
pub struct Closing {
    clock: Instant,
    state: State,
    reason: Option<LostReason>,
    // The same once more, until the application is told.
    untold: Option<LostReason>,
    // What the peer is told while the end is closing, and whether it is to be told so (again).
    close: Option<OwnClose>,
    owed: bool,
}

impl Model for Closing {
    ghost use Rattle.std.specs.Prelude.{◌≡◌, ◌&&◌, None, Some, IfSome};
    ghost use Rattle.std.specs.Prelude.{option_map};
    ghost use Rattle.std.specs.Option.{is_some, is_none};
    ghost use Rattle.quic_machine.specs.declared.answers.State.TheVariants as states;
    ghost use Rattle.quic_machine.specs.Closing as words;
    ghost use Rattle.quic_connection_parts.specs.Closes.{close_frame};

    ghost Value = { words.Closing };

    ghost view = { λ c. record {
      clock = c.clock;
      state = c.state;
      reason = c.reason;
      told = is_some c.reason && is_none c.untold;
      close = option_map close_frame c.close;
      owed = c.owed;
    } };

    ghost invariant = { λ c. (c.state ≡ states.Failed → c.reason ≡ None) × IfSome c.untold (λ reason. c.reason ≡ Some reason) };
}

impl Closing {
    ghost use Rattle.quic_machine.specs.declared.answers.State.TheVariants as states;

    /// An open end that begins at this moment.
    pub fn new(now: Instant) -> Self
        ensures { result ≡ record { clock = now; state = states.Open; reason = None; told = false; close = None; owed = false } }
    {
        Closing {
            clock: now,
            state: State::Open,
            reason: None,
            untold: None,
            close: None,
            owed: false,
        }
    }

    /// Whether the end is open, and else in which way it isn't.
    pub fn state(&self) -> State
        ensures state { result ≡ self.now.state }
        ensures no_reason { self.now.state ≡ states.Failed → self.now.reason ≡ None }
    {
        self.state
    }

    /// Why the end isn't open.
    pub fn reason(&self) -> Option<&LostReason>
        ensures { option_copied result ≡ self.now.reason }
    {
        self.reason.as_ref()
    }

    /// The greatest moment that was taken over.
    pub fn clock(&self) -> Instant
        ensures { result ≡ self.now.clock }
    {
        self.clock
    }

    /// Why the end isn't open, where the application wasn't told yet: it is now.
    pub fn poll(&mut self) -> Option<LostReason>
        ensures answer { result ≡ loss_to_tell self.old }
        ensures next { self.new ≡ after_told (loss_to_tell self.old) self.old }
    {
        // Mostly there is none, and nothing is moved.
        if self.untold.is_none() {
            return None;
        }
        self.untold.take()
    }

    /// Takes a moment over; one that steps back counts as the greatest so far.
    pub fn tick(&mut self, now: Instant)
        ensures { self.new ≡ ticked self.old now }
    {
        self.clock = self.clock.later(now);
    }

    /// Closes for a reason, of which the peer is to be told this (RFC 9000, section 10.2.1).
    /// `untold` is the reason once more.
    pub fn close(&mut self, reason: LostReason, untold: LostReason, close: OwnClose)
        requires { untold ≡ reason }
        ensures { self.new ≡ closing_for reason (close_frame close) self.old }
    {
        self.state = State::Closing;
        self.reason = Some(reason);
        self.untold = Some(untold);
        self.close = Some(close);
        self.owed = true;
    }

    /// Is drained for a reason at once, and the peer isn't told (RFC 9000, sections 10.1 and
    /// 10.2.2). `untold` is the reason once more.
    pub fn drain(&mut self, reason: LostReason, untold: LostReason)
        requires { untold ≡ reason }
        ensures { self.new ≡ drained_for reason self.old }
    {
        self.state = State::Drained;
        self.reason = Some(reason);
        self.untold = Some(untold);
    }

    /// Has been closing for long enough, and is drained: the peer isn't told any more.
    pub fn expire(&mut self)
        ensures { self.new ≡ drained self.old }
    {
        self.state = State::Drained;
        self.close = None;
        self.owed = false;
    }

    /// What the peer is to be told now, if it is to be told.
    pub fn owed(&self) -> Option<&OwnClose>
        ensures { option_map close_frame (option_copied result) ≡ close_owed self.now }
    {
        if self.owed { self.close.as_ref() } else { None }
    }

    /// A packet came while the end was closing: the peer is to be told (again).
    pub fn ask(&mut self)
        ensures { self.new ≡ close_asked self.old }
    {
        self.owed = true;
    }

    /// The peer was told.
    pub fn told(&mut self)
        ensures { self.new ≡ close_given self.old }
    {
        self.owed = false;
    }

    /// Fails for good.
    pub fn fail(&mut self)
        ensures { self.new ≡ failed self.old }
    {
        self.state = State::Failed;
        self.reason = None;
        self.untold = None;
    }
}
