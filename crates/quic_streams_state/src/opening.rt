//! How many streams are opened, and how many may be.
ghost use Rattle.std.specs.Prelude.{◌≡◌, ◌<◌, ◌≤◌, ◌^◌, ◌+◌, ◌-◌, nat_lt, nat_le, not, ◌&&◌, min, IfSome, Some, None, MatchOption};
ghost use Rattle.quic_wire_core.specs.StreamId.{stream_id, other_side, dir_of, index_of};
ghost use Rattle.quic_streams_parts.specs.Dirs.{of, with_of, more, no_count, is_own};
ghost use Rattle.quic_streams_state.specs.Parts.{no_opening, is_opened_in, one_done, most_streams};
ghost use Rattle.quic_streams_state.specs.Limits.{raised_count, count_grew};
ghost use Rattle.quic_streams_state.specs.Opening.{with_remote, beyond_in, opened_next, accepted_next, announced_count};

use quic_streams_halves::is_own;
use quic_streams_parts::{Breach, ByDir, least_growth};
use quic_wire_core::{Dir, Side, StreamId, VarInt};
use std::marker::Model;

/// The most streams of a kind (RFC 9000, section 4.6).
pub const MAX_STREAM_COUNT: u64 = 1 << 60;

/// How many streams of each kind are opened by either end, and how many may be (the counts of
/// quinn-proto's `StreamsState`).
#[derive(Drop)]
pub struct Opening {
    // How many this end opened, and how many it may open.
    next: ByDir<u64>,
    max: ByDir<u64>,
    // How many the peer opened, how many of these were accepted, and how many are done both ways.
    next_remote: ByDir<u64>,
    next_reported_remote: ByDir<u64>,
    done_remote: ByDir<u64>,
    // How many the peer may have open at once, and how many it was told that it may open.
    max_concurrent_remote: ByDir<u64>,
    sent_max_remote: ByDir<u64>,
    // On how many opened streams this end may send and isn't done.
    send_streams: u64,
}

impl Model for Opening {
    ghost use Rattle.quic_streams_state.specs.Parts as parts;

    ghost Value = { parts.Opening };

    ghost use Rattle.quic_streams_state.specs.Views.{opening_of};
    ghost use Rattle.quic_streams_state.specs.Bounds.{IsOpening};

    ghost view = { opening_of };

    ghost invariant = { λ o. IsOpening (opening_of o) };
}

fn of(counts: &ByDir<u64>, dir: Dir) -> u64
    ensures { result ≡ of dir counts.now }
{
    match dir {
        Dir::Bi => counts.bi,
        Dir::Uni => counts.uni,
    }
}

fn set(counts: &mut ByDir<u64>, dir: Dir, count: u64)
    ensures { counts.new ≡ with_of dir count counts.old }
{
    match dir {
        Dir::Bi => counts.bi = count,
        Dir::Uni => counts.uni = count,
    }
}

fn none() -> ByDir<u64>
    ensures { result ≡ no_count }
{
    ByDir { bi: 0, uni: 0 }
}

impl Opening {
    /// No stream is opened, and this end may open none; the peer may have so many of each kind open
    /// at once.
    pub fn new(max_remote_bi: u64, max_remote_uni: u64) -> Self
        ensures { result ≡ no_opening max_remote_bi max_remote_uni }
    {
        let max_remote = ByDir {
            bi: max_remote_bi.min(MAX_STREAM_COUNT),
            uni: max_remote_uni.min(MAX_STREAM_COUNT),
        };
        Opening {
            next: none(),
            max: none(),
            next_remote: none(),
            next_reported_remote: none(),
            done_remote: none(),
            max_concurrent_remote: max_remote,
            sent_max_remote: max_remote,
            send_streams: 0,
        }
    }

    /// Sets how many streams of each kind this end may open.
    pub fn set_max(&mut self, bi: u64, uni: u64)
        requires bi { bi ≤ most_streams }
        requires uni { uni ≤ most_streams }
        ensures { self.new ≡ record self.old { own_limit = record { bi = bi; uni = uni } } }
    {
        self.max = ByDir { bi, uni };
    }

    /// Whether a stream was opened.
    pub fn is_opened(&self, side: Side, id: StreamId) -> bool
        ensures { result ≡ is_opened_in self.now side id }
    {
        if is_own(side, id) {
            id.index() < of(&self.next, id.dir())
        } else {
            id.index() < of(&self.next_remote, id.dir())
        }
    }

    /// How many streams of a kind the peer may open.
    pub fn max_remote(&self, dir: Dir) -> u64
        ensures value { result ≡ raised_count dir self.now }
        ensures small { result ≤ most_streams }
    {
        (of(&self.max_concurrent_remote, dir) + of(&self.done_remote, dir)).min(MAX_STREAM_COUNT)
    }

    /// Whether that grew so far that the peer is told.
    pub fn max_remote_grew(&self, dir: Dir) -> bool
        ensures { result ≡ count_grew dir self.now }
    {
        let growth = least_growth(of(&self.max_concurrent_remote, dir));
        of(&self.sent_max_remote, dir) + growth <= self.max_remote(dir)
    }

    /// The peer is told how many streams of a kind it may open.
    pub fn set_sent_max_remote(&mut self, dir: Dir)
        ensures { self.new ≡ announced_count dir self.old }
    {
        let max = self.max_remote(dir);
        set(&mut self.sent_max_remote, dir, max);
    }

    /// The rule that a frame of a stream breaks by its id: an own stream has to be opened before,
    /// and one of the peer's has to lie within the count that it may open.
    pub fn beyond(&self, side: Side, id: StreamId) -> Option<Breach>
        ensures { result ≡ beyond_in self.now side id }
    {
        if is_own(side, id) {
            if self.is_opened(side, id) {
                None
            } else {
                Some(Breach::StreamState)
            }
        } else if id.index() >= self.max_remote(id.dir()) {
            Some(Breach::StreamLimit)
        } else {
            None
        }
    }

    /// Opens the next stream of a kind, if one may be opened.
    pub fn open(&mut self, side: Side, dir: Dir) -> Option<StreamId>
        ensures id { result ≡ (opened_next side dir self.old).0 }
        ensures new { self.new ≡ (opened_next side dir self.old).1 }
    {
        let next = of(&self.next, dir);
        if next >= of(&self.max, dir) {
            return None;
        }
        set(&mut self.next, dir, next + 1);
        self.send_streams += 1;
        Some(StreamId::new(side, dir, next))
    }

    /// The first stream of a kind that the peer opened and that wasn't accepted; it is accepted
    /// now.
    pub fn accept(&mut self, side: Side, dir: Dir) -> Option<StreamId>
        ensures id { result ≡ (accepted_next side dir self.old).0 }
        ensures new { self.new ≡ (accepted_next side dir self.old).1 }
    {
        let next = of(&self.next_reported_remote, dir);
        if next >= of(&self.next_remote, dir) {
            return None;
        }
        set(&mut self.next_reported_remote, dir, next + 1);
        Some(StreamId::new(!side, dir, next))
    }

    /// The peer opened a stream, and those of its kind below it.
    pub fn open_remote(&mut self, id: StreamId)
        requires { of (dir_of id) self.old.remote ≤ index_of id }
        ensures { self.new ≡ with_remote (dir_of id) (index_of id + 1) self.old }
    {
        let count = id.index() + 1;
        match id.dir() {
            Dir::Bi => {
                self.send_streams += count - self.next_remote.bi;
                self.next_remote.bi = count;
            }
            Dir::Uni => self.next_remote.uni = count,
        }
    }

    /// The peer lets this end open more streams of a kind.
    pub fn set_max_of(&mut self, dir: Dir, count: u64)
        requires { count ≤ most_streams }
        ensures { self.new ≡ record self.old { own_limit = with_of dir count self.old.own_limit } }
    {
        set(&mut self.max, dir, count);
    }

    /// How many streams of a kind this end may open.
    pub fn max_of(&self, dir: Dir) -> u64
        ensures value { result ≡ of dir self.now.own_limit }
        ensures small { result ≤ most_streams }
    {
        of(&self.max, dir)
    }

    /// One more stream of a kind is done both ways.
    pub fn count_done(&mut self, dir: Dir)
        ensures { self.new ≡ one_done dir self.old }
    {
        let done = (of(&self.done_remote, dir) + 1).min(MAX_STREAM_COUNT);
        set(&mut self.done_remote, dir, done);
    }

    /// The sending part of a stream is done.
    pub fn count_sent(&mut self)
        ensures { self.new ≡ record self.old { sending = self.old.sending - 1 } }
    {
        self.send_streams = self.send_streams.saturating_sub(1);
    }

    /// How many streams may have something to be acknowledged.
    pub fn send_streams(&self) -> u64
        ensures { result ≡ self.now.sending }
    {
        self.send_streams
    }

    /// How many streams of a kind that the peer opened aren't done both ways.
    pub fn remote_open_streams(&self, dir: Dir) -> u64
        ensures { result ≡ of dir self.now.remote - of dir self.now.done }
    {
        of(&self.next_remote, dir).saturating_sub(of(&self.done_remote, dir))
    }
}
