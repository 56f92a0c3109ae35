//! A lane of the network: it takes datagrams from one end to the other in virtual time, as fast as
//! its rate lets them leave, loses some and has some come late.
use quic_connection::EcnCodepoint;
use std::alloc::{AllocError, Global};
use std::collections::VecDeque;

/// How long a timely datagram is under way once it has left, unless it is said, in nanoseconds.
pub const ONE_WAY: u64 = 10_000_000;

/// How much longer a late one is.
const LATENESS: u64 = 3_000_000;

/// How many bytes of a datagram every lane carries.
pub const LEAST_MTU: u16 = 1200;

/// At a bit a second a byte takes so many nanoseconds to leave.
const BYTE_AT_LEAST_RATE: u64 = 8_000_000_000;

/// The most buffers that are kept to be used again.
const MAX_SPARE: usize = 4096;

/// What a lane carries, how fast, and how long that is under way.
#[derive(Clone, Copy)]
pub struct Link {
    /// The most bytes of a datagram that goes through; a longer one is lost.
    pub mtu: u16,
    /// How many bits leave in a second; 0 where each datagram leaves at once.
    pub rate: u64,
    /// How many bytes may wait to leave, with those of the datagram that is leaving. One that comes
    /// when there is no room for it is lost.
    pub queue: u64,
    /// How long a timely datagram is under way once it has left, in nanoseconds.
    pub delay: u64,
}

impl Link {
    /// Whether a datagram may go through that is as long as every lane carries.
    pub fn carries_any(&self) -> bool {
        self.rate == 0 || self.queue >= u64::from(LEAST_MTU)
    }

    /// How long so many bytes take to leave, in nanoseconds. Of more than 2 GB it says that they
    /// never do.
    fn time_of(&self, bytes: u64) -> u64 {
        match bytes.checked_mul(BYTE_AT_LEAST_RATE) {
            Some(time) => time.checked_div(self.rate).unwrap_or(0),
            None => u64::MAX,
        }
    }
}

/// A datagram under way.
#[derive(Drop)]
pub struct Datagram {
    /// The moment at which it arrives, in nanoseconds.
    pub arrives: u64,
    /// How it is marked.
    pub ecn: Option<EcnCodepoint>,
    /// Its bytes.
    pub bytes: Vec<u8>,
}

/// A lane from one end to the other.
#[derive(Drop)]
pub struct Lane {
    alloc: Global,
    link: Link,
    /// The moment at which all that was sent has left, in nanoseconds.
    idle_from: u64,
    /// The state of the generator that says what happens to a datagram.
    random: u64,
    /// How many of 1000 datagrams are lost.
    loss: u64,
    /// How many of 1000 come late.
    late_share: u64,
    timely: VecDeque<Datagram>,
    late: VecDeque<Datagram>,
    /// Buffers to be used again.
    spare: Vec<Vec<u8>>,
    /// How many datagrams were sent.
    pub sent: u64,
    /// How many of them were lost.
    pub lost: u64,
}

impl Lane {
    /// A lane that loses only what its link doesn't carry.
    pub fn new(alloc: Global, link: Link) -> Self {
        Lane {
            alloc,
            link,
            idle_from: 0,
            random: 0,
            loss: 0,
            late_share: 0,
            timely: VecDeque::new(alloc),
            late: VecDeque::new(alloc),
            spare: Vec::new(alloc),
            sent: 0,
            lost: 0,
        }
    }

    /// From now on so many of 1000 datagrams are lost, and so many come late, as a generator with
    /// this seed says.
    pub fn disturb(&mut self, seed: u64, loss: u64, late_share: u64) {
        self.random = seed;
        self.loss = loss;
        self.late_share = late_share;
    }

    /// From now on it carries datagrams of so many bytes. What is under way arrives.
    pub fn shrink(&mut self, mtu: u16) {
        self.link.mtu = mtu;
    }

    /// A datagram came too late for its end to tell whether it came before: it counts as lost.
    pub fn came_too_late(&mut self) {
        self.lost = self.lost.wrapping_add(1);
    }

    /// Nothing was sent yet.
    pub fn reset_counts(&mut self) {
        self.sent = 0;
        self.lost = 0;
    }

    /// The next word of the generator (splitmix64).
    pub fn draw(&mut self) -> u64 {
        self.random = self.random.wrapping_add(0x9e37_79b9_7f4a_7c15);
        let word = self.random;
        let word = (word ^ (word >> 30)).wrapping_mul(0xbf58_476d_1ce4_e5b9);
        let word = (word ^ (word >> 27)).wrapping_mul(0x94d0_49bb_1331_11eb);
        word ^ (word >> 31)
    }

    /// An empty buffer with room for a datagram, which was used before if possible.
    ///
    /// # Errors
    ///
    /// - [`AllocError`]: an allocation fails.
    pub fn buffer(&mut self) -> Result<Vec<u8>, AllocError> {
        match self.spare.pop() {
            Some(buffer) => Ok(buffer),
            None => Vec::with_capacity(self.alloc, usize::from(self.link.mtu)),
        }
    }

    /// Takes a buffer back, to be used again.
    pub fn give_back(&mut self, mut buffer: Vec<u8>) {
        if self.spare.len() < MAX_SPARE {
            buffer.clear();
            // Where memory lacks, the buffer is let go.
            let _ = self.spare.push(buffer);
        }
    }

    /// The moment at which a datagram leaves that is sent at this one, behind those before it; none
    /// where the queue has no room for it.
    fn leave(&mut self, now: u64, bytes: &[u8]) -> Option<u64> {
        let time = self.link.time_of(bytes.len() as u64);
        let leaves = self.idle_from.max(now).saturating_add(time);
        if leaves.saturating_sub(now) > self.link.time_of(self.link.queue) {
            return None;
        }
        self.idle_from = leaves;
        Some(leaves)
    }

    /// The moment at which a datagram leaves that is sent at this one, as a word of the generator
    /// says; none where it is lost.
    fn pass(&mut self, now: u64, word: u64, bytes: &[u8]) -> Option<u64> {
        if word % 1000 < self.loss || bytes.len() > usize::from(self.link.mtu) {
            return None;
        }
        self.leave(now, bytes)
    }

    /// Sends a datagram at a moment.
    ///
    /// # Errors
    ///
    /// - [`AllocError`]: an allocation fails. The datagram is counted as sent, and dropped.
    pub fn push(
        &mut self,
        now: u64,
        ecn: Option<EcnCodepoint>,
        bytes: Vec<u8>,
    ) -> Result<(), AllocError> {
        let word = self.draw();
        self.sent = self.sent.wrapping_add(1);
        let Some(leaves) = self.pass(now, word, &bytes) else {
            self.lost = self.lost.wrapping_add(1);
            self.give_back(bytes);
            return Ok(());
        };
        let arrives = leaves.saturating_add(self.link.delay);
        if (word >> 32) % 1000 < self.late_share {
            let arrives = arrives.saturating_add(LATENESS);
            self.late.push_back(Datagram {
                arrives,
                ecn,
                bytes,
            })?;
        } else {
            self.timely.push_back(Datagram {
                arrives,
                ecn,
                bytes,
            })?;
        }
        Ok(())
    }

    /// The moment at which the next datagram arrives, if one is under way.
    pub fn next_arrival(&self) -> Option<u64> {
        earlier(first_arrival(&self.timely), first_arrival(&self.late))
    }

    /// Whether a datagram has arrived at a moment.
    pub fn is_due(&self, now: u64) -> bool {
        match self.next_arrival() {
            Some(arrives) => arrives <= now,
            None => false,
        }
    }

    /// The next datagram that has arrived at a moment: of two that arrived at once the timely one.
    pub fn pop_due(&mut self, now: u64) -> Option<Datagram> {
        let due = self.next_arrival()?;
        if due > now {
            return None;
        }
        if first_arrival(&self.timely) == Some(due) {
            self.timely.pop_front()
        } else {
            self.late.pop_front()
        }
    }
}

/// The moment at which the first of these arrives.
fn first_arrival(datagrams: &VecDeque<Datagram>) -> Option<u64> {
    Some(datagrams.front()?.arrives)
}

/// The earlier of two moments, of which there may be none.
pub fn earlier(one: Option<u64>, other: Option<u64>) -> Option<u64> {
    match (one, other) {
        (Some(one), Some(other)) => Some(one.min(other)),
        (Some(moment), None) | (None, Some(moment)) => Some(moment),
        (None, None) => None,
    }
}
