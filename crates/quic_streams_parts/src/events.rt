//! What the application is told of streams.
ghost use Rattle.std.specs.Prelude.{◌≡◌, OnOk, OnErr};
ghost use Rattle.quic_streams_parts.specs.declared.answers.StreamEvent.{StreamEvent};
ghost use Rattle.quic_streams_parts.specs.Events.{Events, no_events, with_opened, with_event, first_opened, after_opened, first_event, after_event};

use crate::answers::StreamEvent;
use crate::by_dir::ByDir;
use quic_wire_core::Dir;
use std::alloc::{AllocError, Global};
use std::collections::VecDeque;
use std::marker::Model;

/// What happened to streams and wasn't told: that the peer opened streams, once for each kind, and
/// what else happened, in its order (quinn-proto's `StreamsState::{opened, events}`).
#[derive(Drop)]
pub struct Events {
    opened: ByDir<bool>,
    queue: VecDeque<StreamEvent>,
}

impl Model for Events {
    ghost use Rattle.quic_streams_parts.specs.Events.{Events};

    ghost Value = { Events };

    ghost view = { λ e. record { opened = e.opened; queue = e.queue.items } };
}

impl Events {
    /// Nothing happened.
    pub fn new(alloc: Global) -> Self
        ensures { result ≡ no_events }
    {
        Events {
            opened: ByDir {
                bi: false,
                uni: false,
            },
            queue: VecDeque::new(alloc),
        }
    }

    /// The peer opened streams of a kind: that is told once, however many calls say so.
    pub fn set_opened(&mut self, dir: Dir)
        ensures { self.new ≡ with_opened dir self.old }
    {
        match dir {
            Dir::Bi => self.opened.bi = true,
            Dir::Uni => self.opened.uni = true,
        }
    }

    /// Something happened, which is told behind what happened before.
    ///
    /// # Errors
    ///
    /// - [`AllocError`]: an allocation fails. Nothing changes.
    // Inline, so that the event isn't made in memory first.
    #[inline(always)]
    pub fn push(&mut self, event: StreamEvent) -> Result<(), AllocError>
        ensures ok { OnOk result (self.new ≡ with_event event self.old) }
        ensures err { OnErr result (self.new ≡ self.old) }
    {
        self.queue.push_back(event)?;
        Ok(())
    }

    /// Takes back what happened last.
    pub fn take_back(&mut self)
        ensures { (before : Events) (event : StreamEvent) → self.old ≡ with_event event before → self.new ≡ before }
    {
        let _ = self.queue.pop_back();
    }

    /// Takes off the kind of which the peer opened streams, two-way ones first; `None` where that
    /// was told.
    pub fn take_opened(&mut self) -> Option<Dir>
        ensures answer { result ≡ first_opened self.old }
        ensures new { self.new ≡ after_opened self.old result }
    {
        if self.opened.bi {
            self.opened.bi = false;
            return Some(Dir::Bi);
        }
        if self.opened.uni {
            self.opened.uni = false;
            return Some(Dir::Uni);
        }
        None
    }

    /// Takes off what happened first of the rest; `None` where all was told.
    pub fn pop(&mut self) -> Option<StreamEvent>
        ensures answer { result ≡ first_event self.old }
        ensures new { self.new ≡ after_event self.old }
    {
        self.queue.pop_front()
    }
}
