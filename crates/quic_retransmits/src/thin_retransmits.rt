//! What has to be sent again, kept only where there is something.
ghost use Rattle.std.specs.Prelude.{◌≡◌, None, Some, IfOk, MatchOption, OnOk, OnErr};
ghost use Rattle.std.specs.Option.{option_copied};
ghost use Rattle.std.specs.Borrow.{sem};
ghost use Rattle.quic_retransmits.specs.Lending.{LendsKept, LendsMade};
ghost use Rattle.quic_retransmits.specs.Kept.{made, is_none_where};

use crate::queries::LimitQueries;
use crate::retransmits::Retransmits;
use std::alloc::{AllocError, Global};
use std::marker::Model;

/// What a packet carried of [`Retransmits`]: most carry nothing of it, and then nothing is
/// allocated (quinn-proto's `ThinRetransmits`).
#[derive(Drop)]
pub struct ThinRetransmits {
    retransmits: Option<Box<Retransmits>>,
}

impl Model for ThinRetransmits {
    ghost use Rattle.std.specs.Prelude.{Option};
    ghost use Rattle.std.specs.Option.{option_map};
    ghost use Rattle.quic_retransmits.specs.Retransmits.{Retransmits};

    ghost Value = { Option Retransmits };

    ghost view = { λ t. option_map (λ b. b.value) t.retransmits };
}

impl ThinRetransmits {
    /// Nothing.
    pub fn new() -> Self
        ensures { result ≡ None }
    {
        ThinRetransmits { retransmits: None }
    }

    /// Keeps what a packet carried, in a box.
    ///
    /// # Errors
    ///
    /// - [`AllocError`]: an allocation fails. What the packet carried is dropped.
    pub fn of(alloc: Global, retransmits: Retransmits) -> Result<Self, AllocError>
        ensures { IfOk result (λ kept. kept ≡ Some retransmits) }
    {
        let retransmits = Box::new(alloc, retransmits)?;
        Ok(ThinRetransmits {
            retransmits: Some(retransmits),
        })
    }

    /// Whether nothing is kept that may go, by [`Retransmits::is_empty`].
    pub fn is_empty<S: LimitQueries>(&self, streams: &S) -> bool
        ensures { result ≡ is_none_where (λ kind. S.gate streams.now kind) (λ kind id. S.gate_on streams.now kind id) self.now }
    {
        match self.get() {
            Some(retransmits) => retransmits.is_empty(streams),
            None => true,
        }
    }

    /// What is kept, if anything is.
    pub fn get(&self) -> Option<&Retransmits>
        ensures { option_copied result ≡ self.now }
    {
        match &self.retransmits {
            Some(retransmits) => Some(retransmits.as_ref()),
            None => None,
        }
    }

    /// Allocates what is kept, where nothing is yet.
    ///
    /// # Errors
    ///
    /// - [`AllocError`]: an allocation fails. Nothing changes.
    pub fn create(&mut self, alloc: Global) -> Result<(), AllocError>
        ensures ok { OnOk result (self.new ≡ Some (made self.old)) }
        ensures err { OnErr result (self.new ≡ self.old) }
    {
        if self.retransmits.is_some() {
            return Ok(());
        }
        let retransmits = Box::new(alloc, Retransmits::new(alloc))?;
        self.retransmits = Some(retransmits);
        Ok(())
    }

    /// What is kept, to be changed, if anything is.
    pub fn get_mut(&mut self) -> Option<&mut Retransmits>
        ensures* writes_back { sem 𝓛 (LendsKept self.entry result) }
        ensures value { MatchOption result (self.old ≡ None) (λ r. self.old ≡ Some r.now) }
    {
        match &mut self.retransmits {
            Some(retransmits) => Some(retransmits.as_mut()),
            None => None,
        }
    }
}
