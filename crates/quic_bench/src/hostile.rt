//! A peer attacks, which has the keys: what it costs the end that takes its datagrams.
pub mod attack;
mod change;
mod frames;
pub mod mutated;
mod peer;
mod tally;
mod victim;

use crate::endpoint::Endpoint;
use crate::fault::Fault;
use crate::figures::{Figures, Watch};
use crate::hostile::attack::{Attack, Plan};
use crate::hostile::peer::Peer;
use crate::hostile::victim::{Victim, queue_messages};
use crate::lane::ONE_WAY;
use crate::pair::{Pair, expire};
use quic_connection::{DropReason, Instant, Received};
use std::alloc::Global;
use std::rt::Clock;
use std::time::CpuClock;

/// How many packets ask for an acknowledgement before forgotten numbers are named: each second one
/// is answered by a packet that asks for none, of which 1000 are tracked.
const TO_FORGET: u64 = 5200;

/// How many messages of a byte fill the window, and how many wait then while ids of other lengths
/// come into use.
const FILLING: u64 = 4_000;

const WAITING: u64 = 10_000;

/// A peer that attacks, and the end that it attacks.
#[derive(Drop)]
struct Siege {
    peer: Peer,
    victim: Victim,
}

/// Whether an end has to answer so to a datagram of an attack.
fn is_due(attack: Attack, answer: &Received) -> bool {
    match (attack, answer) {
        (Attack::Unopened, Received::Dropped(DropReason::NotOpened)) => true,
        (Attack::Repeated, Received::Dropped(DropReason::Duplicate)) => true,
        (Attack::Unopened | Attack::Repeated, _) => false,
        (_, Received::Taken) => true,
        _ => false,
    }
}

impl Siege {
    /// Nothing was sent.
    fn new(alloc: Global) -> Self {
        Siege {
            peer: Peer::new(alloc),
            victim: Victim::new(alloc),
        }
    }

    /// The peer sends a datagram, which the server takes; then it and its application have a turn.
    fn round(&mut self, pair: &mut Pair<impl Endpoint>, plan: &Plan) -> Result<(), Fault> {
        if plan.acknowledges {
            pair.now = pair.now.saturating_add(ONE_WAY);
        } else {
            self.peer.owed.clear();
        }
        self.peer.compose(plan)?;
        let server = pair.server.as_mut();
        let now = Instant::from_nanos(pair.now);
        let answer = server.receive(now, None, &mut self.peer.datagram);
        if !is_due(plan.attack, &answer) {
            return Err(answer.into());
        }
        expire(server, pair.now)?;
        self.victim.act(server, plan.reads)?;
        self.victim.transmit(server, pair.now, &mut self.peer.owed)
    }

    /// So many rounds.
    fn rounds(
        &mut self,
        pair: &mut Pair<impl Endpoint>,
        plan: &Plan,
        count: u64,
    ) -> Result<(), Fault> {
        for _ in 0..count {
            self.round(pair, plan)?;
        }
        Ok(())
    }

    /// What comes before an attack.
    fn prepare(
        &mut self,
        alloc: Global,
        pair: &mut Pair<impl Endpoint>,
        plan: &Plan,
    ) -> Result<(), Fault> {
        match plan.attack {
            Attack::Forgotten => {
                // This PING is never acknowledged.
                pair.server.as_mut().ping();
                self.rounds(pair, &Plan::before(Attack::Pings, 0), TO_FORGET)?;
            }
            Attack::LongerIds => self.fill(alloc, pair)?,
            Attack::LateIds => self.rounds(pair, &Plan::before(Attack::NewIds, 1200), 1)?,
            Attack::Repeated => self.take_first(pair, plan)?,
            _ => {}
        }
        self.peer.items = 0;
        Ok(())
    }

    /// Messages wait at the server that the window doesn't let go, and behind them one that is as
    /// long as it may be.
    fn fill(&mut self, alloc: Global, pair: &mut Pair<impl Endpoint>) -> Result<(), Fault> {
        let server = pair.server.as_mut();
        queue_messages(server, alloc, FILLING, 1)?;
        self.victim.transmit(server, pair.now, &mut self.peer.owed)?;
        queue_messages(server, alloc, WAITING, 1)?;
        queue_messages(server, alloc, 1, usize::MAX)
    }

    /// The datagram comes that is to be repeated.
    fn take_first(&mut self, pair: &mut Pair<impl Endpoint>, plan: &Plan) -> Result<(), Fault> {
        self.peer.compose(plan)?;
        let server = pair.server.as_mut();
        match server.receive(Instant::from_nanos(pair.now), None, &mut self.peer.datagram) {
            Received::Taken => self.victim.act(server, true),
            answer => Err(answer.into()),
        }
    }
}

/// A peer attacks. The units are the items that it sent, of which a datagram may carry many; the
/// checksum is how many bytes the server sent.
///
/// # Errors
///
/// - [`Fault::Memory`], [`Fault::Failed`]: an allocation fails, or the server failed before.
/// - [`Fault::Taken`], [`Fault::Dropped`], [`Fault::Closed`]: a datagram of the attack got another
///   answer than it has to get.
/// - [`Fault`]: as the server's application answers, for example [`Fault::Lost`].
/// - [`Fault::Clock`]: a clock can't be read.
pub fn run<R: Clock + CpuClock + AllocGlobal>(
    rt: &R,
    pair: &mut Pair<impl Endpoint>,
    plan: &Plan,
) -> Result<Figures, Fault> {
    let mut siege = Siege::new(rt.alloc());
    siege.prepare(rt.alloc(), pair, plan)?;
    pair.begin();
    let (sent, bytes) = (siege.victim.sent, siege.victim.bytes);
    let watch = Watch::start(rt)?;
    siege.rounds(pair, plan, plan.count)?;
    pair.up.sent = plan.count;
    pair.down.sent = siege.victim.sent.saturating_sub(sent);
    let bytes = siege.victim.bytes.saturating_sub(bytes);
    pair.figures(rt, &watch, siege.peer.items, bytes)
}
