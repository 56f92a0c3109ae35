//! Two ends of a connection in one thread and in virtual time, and the rule by which they are
//! driven: at each moment first the client, then the server, each over and over while datagrams
//! are due: it takes up to `batch` of them and a due timeout, its application acts, and it sends
//! until it gives nothing. Then the next moment is the least of timers and arrivals.
use crate::endpoint::Endpoint;
use crate::fault::Fault;
use crate::figures::{Figures, Watch};
use crate::lane::{Datagram, Lane, Link, earlier};
use quic_connection::{DropReason, EcnCodepoint, Instant, Received};
use quic_wire_core::{Side, VarInt};
use std::alloc::Global;
use std::rt::Clock;
use std::time::CpuClock;

/// The network between the ends, and how the ends are driven.
#[derive(Clone, Copy)]
pub struct Network {
    /// How many of 1000 datagrams are lost.
    pub loss: u64,
    /// How many of 1000 come late.
    pub reorder: u64,
    /// The seed of the generator that says which.
    pub seed: u64,
    /// How many datagrams an end takes before it may send.
    pub batch: u64,
}

/// What each end lets the other do, and asks it to.
#[derive(Drop)]
pub struct Limits {
    /// How many streams of each kind the peer may have open at once.
    pub streams: VarInt,
    /// How many bytes the peer may send on a stream before any is read. Eight times as many may be
    /// written that aren't acknowledged.
    pub window: VarInt,
    /// How many packets that ask for an acknowledgement the peer is asked to take without one; none
    /// where it isn't asked.
    pub threshold: Option<VarInt>,
    /// Whether each end looks for a larger path MTU, by the default settings.
    pub searches: bool,
    /// What the lanes carry at first.
    pub link: Link,
}

impl Limits {
    /// The same limits.
    fn copied(&self) -> Self {
        Limits {
            streams: self.streams,
            window: self.window,
            threshold: self.threshold,
            searches: self.searches,
            link: self.link,
        }
    }
}

/// What the applications of both ends do.
pub trait Work {
    /// The client's turn.
    ///
    /// # Errors
    ///
    /// - [`Fault`]: the work can't go on, by its application.
    fn client(&mut self, end: &mut impl Endpoint) -> Result<(), Fault>;

    /// The server's turn: whether its application has everything.
    ///
    /// # Errors
    ///
    /// - [`Fault`]: the work can't go on, by its application.
    fn server(&mut self, end: &mut impl Endpoint) -> Result<bool, Fault>;

    /// How many units of work the server's application has.
    fn units(&self) -> u64;

    /// A checksum of what it has.
    fn checksum(&self) -> u64;
}

/// Nothing is done.
#[derive(Drop)]
struct Rest;

impl Work for Rest {
    fn client(&mut self, _end: &mut impl Endpoint) -> Result<(), Fault> {
        Ok(())
    }

    fn server(&mut self, _end: &mut impl Endpoint) -> Result<bool, Fault> {
        Ok(false)
    }

    fn units(&self) -> u64 {
        0
    }

    fn checksum(&self) -> u64 {
        0
    }
}

/// A client and a server. They lie on the heap, so that a pair is small.
pub type BothEnds<E> = (Box<E>, Box<E>);

/// A client and a server, and the lanes between them.
#[derive(Drop)]
pub struct Pair<E> {
    /// The client.
    pub client: Box<E>,
    /// The server.
    pub server: Box<E>,
    /// From the client to the server.
    pub up: Lane,
    /// From the server to the client.
    pub down: Lane,
    /// What each end lets the other do.
    pub limits: Limits,
    batch: u64,
    /// The moment, in nanoseconds.
    pub now: u64,
    /// When the work began.
    start: u64,
}

/// Two ends at the moment 0.
fn new_ends<E: Endpoint>(alloc: Global, limits: &Limits) -> Result<BothEnds<E>, Fault> {
    let client = E::new(alloc, Side::Client, limits)?;
    let server = E::new(alloc, Side::Server, limits)?;
    Ok((client, server))
}

impl<E: Endpoint> Pair<E> {
    /// Two ends at the moment 0, which take so many datagrams before they may send.
    ///
    /// # Errors
    ///
    /// - [`Fault::Config`]: the endpoints can't be made.
    /// - [`Fault::Memory`]: an allocation fails.
    pub fn new(alloc: Global, limits: &Limits, batch: u64) -> Result<Self, Fault> {
        let (client, server) = new_ends(alloc, limits)?;
        Ok(Pair {
            client,
            server,
            up: Lane::new(alloc, limits.link),
            down: Lane::new(alloc, limits.link),
            limits: limits.copied(),
            batch,
            now: 0,
            start: 0,
        })
    }

    /// Both ends go, and new ones begin, which are made at the moment 0.
    ///
    /// # Errors
    ///
    /// - [`Fault::Config`]: the endpoints can't be made. The old ones stay.
    /// - [`Fault::Memory`]: an allocation fails. The old ones stay.
    pub fn renew(&mut self, alloc: Global) -> Result<(), Fault> {
        let (client, server) = new_ends(alloc, &self.limits)?;
        self.client = client;
        self.server = server;
        Ok(())
    }

    /// Both ends, without the lanes between them.
    pub fn into_ends(self) -> BothEnds<E> {
        let Pair {
            client,
            server,
            up,
            down,
            ..
        } = self;
        drop(up);
        drop(down);
        (client, server)
    }

    /// Each end learns the round trip from a PING, as from a handshake, and both come to rest.
    ///
    /// # Errors
    ///
    /// - [`Fault`]: as [`run`](Self::run) answers.
    pub fn settle(&mut self) -> Result<(), Fault> {
        self.client.as_mut().ping();
        self.server.as_mut().ping();
        self.run_until(self.limits.link.delay.saturating_mul(20), &mut Rest)
    }

    /// The network becomes what it is to be.
    pub fn disturb(&mut self, network: Network) {
        let Network {
            loss,
            reorder,
            seed,
            batch: _,
        } = network;
        self.up.disturb(seed, loss, reorder);
        self.down.disturb(!seed, loss, reorder);
    }

    /// Both lanes carry datagrams of so many bytes from now on.
    pub fn shrink(&mut self, mtu: u16) {
        self.up.shrink(mtu);
        self.down.shrink(mtu);
    }

    /// Begins to count anew.
    pub fn begin(&mut self) {
        self.up.reset_counts();
        self.down.reset_counts();
        self.start = self.now;
    }

    /// Does a piece of work, and measures what it takes.
    ///
    /// # Errors
    ///
    /// - [`Fault::Clock`]: a clock can't be read.
    /// - [`Fault`]: as [`run`](Self::run) answers.
    pub fn measure<R: Clock + CpuClock, W: Work>(
        &mut self,
        rt: &R,
        work: &mut W,
    ) -> Result<Figures, Fault> {
        self.begin();
        let watch = Watch::start(rt)?;
        self.run(work)?;
        self.figures(rt, &watch, work.units(), work.checksum())
    }

    /// What work comes to that began with this watch.
    ///
    /// # Errors
    ///
    /// - [`Fault::Clock`]: a clock can't be read.
    pub fn figures<R: Clock + CpuClock>(
        &self,
        rt: &R,
        watch: &Watch,
        units: u64,
        checksum: u64,
    ) -> Result<Figures, Fault> {
        let (ns, cpu_ns) = watch.read(rt)?;
        Ok(Figures {
            ns,
            cpu_ns,
            units,
            data: self.up.sent,
            back: self.down.sent,
            lost: self.up.lost.wrapping_add(self.down.lost),
            virtual_us: self.now.saturating_sub(self.start) / 1000,
            checksum,
        })
    }

    /// Lets both ends run until the server's application has everything.
    ///
    /// # Errors
    ///
    /// - [`Fault::Dropped`], [`Fault::Closed`], [`Fault::Failed`]: a datagram wasn't taken that had
    ///   to be. The endpoints stay as they are by then.
    /// - [`Fault::Failed`], [`Fault::Memory`]: an allocation fails. The endpoints stay as they are
    ///   by then.
    /// - [`Fault::Rest`]: no datagram is under way and no timer runs, and the server's application
    ///   hasn't everything. The endpoints stay as they are by then.
    /// - [`Fault`]: as the work's turns answer. The endpoints stay as they are by then.
    pub fn run<W: Work>(&mut self, work: &mut W) -> Result<(), Fault> {
        self.run_until(u64::MAX, work)
    }

    /// The same until a moment at most.
    fn run_until<W: Work>(&mut self, end: u64, work: &mut W) -> Result<(), Fault> {
        for _ in 0..u64::MAX {
            self.client_turn(work)?;
            if self.server_turn(work)? {
                break;
            }
            match self.next_moment() {
                Some(moment) if moment <= end => self.now = self.now.max(moment),
                None if end == u64::MAX => return Err(Fault::Rest),
                _ => break,
            }
        }
        Ok(())
    }

    /// The client acts while datagrams are due.
    fn client_turn<W: Work>(&mut self, work: &mut W) -> Result<(), Fault> {
        for _ in 0..u64::MAX {
            let client = self.client.as_mut();
            let more = take(client, &mut self.down, self.now, self.batch)?;
            work.client(client)?;
            transmit(client, &mut self.up, self.now)?;
            if !more {
                break;
            }
        }
        Ok(())
    }

    /// The server acts while datagrams are due: whether its application has everything.
    fn server_turn<W: Work>(&mut self, work: &mut W) -> Result<bool, Fault> {
        let mut is_done = false;
        for _ in 0..u64::MAX {
            let server = self.server.as_mut();
            let more = take(server, &mut self.up, self.now, self.batch)?;
            is_done |= work.server(server)?;
            transmit(server, &mut self.down, self.now)?;
            if !more {
                break;
            }
        }
        Ok(is_done)
    }

    /// The next moment at which a timer expires or a datagram arrives.
    fn next_moment(&self) -> Option<u64> {
        let timers = earlier(
            timer_of(self.client.as_ref()),
            timer_of(self.server.as_ref()),
        );
        let arrivals = earlier(self.up.next_arrival(), self.down.next_arrival());
        earlier(timers, arrivals)
    }
}

/// The moment at which the next timer of an end expires.
fn timer_of(end: &impl Endpoint) -> Option<u64> {
    Some(end.poll_timeout()?.as_nanos())
}

/// Takes datagrams that are due, so many at most, and a due timeout: whether more are due.
fn take(end: &mut impl Endpoint, inbox: &mut Lane, now: u64, batch: u64) -> Result<bool, Fault> {
    for _ in 0..batch {
        let Some(datagram) = inbox.pop_due(now) else {
            break;
        };
        let Datagram { ecn, mut bytes, .. } = datagram;
        if !receive(end, now, ecn, &mut bytes)? {
            inbox.came_too_late();
        }
        inbox.give_back(bytes);
    }
    expire(end, now)?;
    Ok(inbox.is_due(now))
}

/// Takes a datagram: whether it was taken. None comes twice, so that one that may have come before
/// is so late that the end can't tell.
///
/// # Errors
///
/// - [`Fault::Dropped`]: the datagram was dropped, and not as a duplicate.
/// - [`Fault::Closed`]: the datagram broke a rule, which closed the endpoint.
/// - [`Fault::Failed`]: an allocation fails, or did before.
pub fn receive(
    end: &mut impl Endpoint,
    now: u64,
    ecn: Option<EcnCodepoint>,
    bytes: &mut [u8],
) -> Result<bool, Fault> {
    match end.receive(Instant::from_nanos(now), ecn, bytes) {
        Received::Taken => Ok(true),
        Received::Dropped(DropReason::Duplicate) => Ok(false),
        answer => Err(answer.into()),
    }
}

/// Lets timers expire that are due.
///
/// # Errors
///
/// - [`Fault::Failed`]: an allocation fails, or did before.
pub fn expire(end: &mut impl Endpoint, now: u64) -> Result<(), Fault> {
    if let Some(moment) = timer_of(end)
        && moment <= now
    {
        end.handle_timeout(Instant::from_nanos(now))?;
    }
    Ok(())
}

/// Sends until there is nothing to send.
///
/// # Errors
///
/// - [`Fault::Failed`]: an allocation fails within the endpoint, or did before. What was sent
///   before stays sent.
/// - [`Fault::Memory`]: an allocation fails beside it. What was sent before stays sent.
pub fn transmit(end: &mut impl Endpoint, outbox: &mut Lane, now: u64) -> Result<(), Fault> {
    for _ in 0..u64::MAX {
        let mut bytes = outbox.buffer()?;
        match end.poll_transmit(Instant::from_nanos(now), &mut bytes)? {
            Some(transmit) => outbox.push(now, transmit.ecn, bytes)?,
            None => {
                outbox.give_back(bytes);
                break;
            }
        }
    }
    Ok(())
}
