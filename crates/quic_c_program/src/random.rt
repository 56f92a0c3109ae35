//! Calls at random at two endpoints that talk to one another.

use crate::draws::Draws;
use crate::exports::{
    fh_accept, fh_close, fh_finish, fh_next_event, fh_next_timeout, fh_open, fh_ping, fh_poll,
    fh_read, fh_read_unordered, fh_receive, fh_receive_message, fh_reset, fh_send_message,
    fh_set_priority, fh_stop, fh_timeout, fh_would_open, fh_write, fh_writev,
};
use quic_c_core::{Calls, EventRecord};

/// The most bytes of a call.
const MOST: usize = 1500;

/// Two endpoints, the time, and a sum of all answers.
#[derive(Drop)]
pub(crate) struct Pair<E> {
    pub(crate) client: Box<E>,
    pub(crate) server: Box<E>,
    pub(crate) now: u64,
    pub(crate) sum: u64,
}

/// A call at a stream.
fn call_stream(conn: &mut impl Calls, draws: &mut Draws) -> i64 {
    let bytes = [7u8; MOST];
    let id = draws.stream();
    let data = &bytes[..draws.length().min(MOST)];
    let mut code = 0u64;
    match draws.below(8) {
        0 => fh_open(conn, draws.small(3)),
        1 => fh_accept(conn, draws.small(3)),
        2 => fh_writev(conn, id, &[data, &[], data], &mut code),
        3 => fh_finish(conn, id, &mut code) as i64,
        4 => fh_reset(conn, id, draws.number()) as i64,
        5 => fh_stop(conn, id, draws.number()) as i64,
        6 => fh_set_priority(conn, id, i32::try_from(draws.below(9)).unwrap_or(0)) as i64,
        _ => fh_write(conn, id, data, &mut code),
    }
}

/// A read, or a message, into a room.
fn call_read(conn: &mut impl Calls, draws: &mut Draws) -> i64 {
    let mut bytes = [0u8; MOST];
    let room = &mut bytes[..draws.length().min(MOST)];
    let (mut offset, mut fin, mut code) = (0u64, 0u32, 0u64);
    match draws.below(5) {
        0 => fh_receive_message(conn, room),
        1 => fh_send_message(conn, room, draws.small(3)) as i64,
        2 => fh_read_unordered(conn, draws.stream(), room, &mut offset, &mut fin, &mut code),
        _ => fh_read(conn, draws.stream(), room, &mut offset, &mut fin, &mut code),
    }
}

/// A call at the connection.
fn call_rest(conn: &mut impl Calls, now: u64, draws: &mut Draws) -> i64 {
    let mut event = EventRecord::default();
    match draws.below(400) {
        0 => fh_close(conn, now, draws.number(), b"at random") as i64,
        1..100 => {
            fh_ping(conn);
            0
        }
        100..200 => fh_timeout(conn, now) as i64,
        200..300 => i64::try_from(fh_next_timeout(conn)).unwrap_or(i64::MAX),
        _ => fh_next_event(conn, &mut event) as i64,
    }
}

/// A datagram of one endpoint, whole or altered, or bytes at random, for the other.
fn carry(from: &mut impl Calls, to: &mut impl Calls, now: u64, draws: &mut Draws) -> i64 {
    let mut bytes = [0u8; MOST];
    let (mut address, mut ecn) = (7u64, 0u32);
    let sent = fh_poll(from, now, &mut bytes, &mut address, &mut ecn);
    let length = if draws.below(20) == 0 {
        draws.fill(&mut bytes);
        draws.length()
    } else {
        usize::try_from(sent).unwrap_or(0)
    };
    let length = length.min(MOST);
    let mut copy = bytes;
    let opens = fh_would_open(to, address, &mut copy[..length]);
    let answer = fh_receive(to, now, address, ecn, &mut bytes[..length]);
    answer.saturating_add(opens) as i64
}

/// A call at one of two endpoints, which may get a datagram of the other.
fn call(one: &mut impl Calls, other: &mut impl Calls, now: u64, draws: &mut Draws) -> i64 {
    match draws.below(6) {
        0 => call_stream(one, draws),
        1 => call_read(one, draws),
        2 => call_rest(one, now, draws),
        _ => carry(other, one, now, draws),
    }
}

impl<E: Calls> Pair<E> {
    /// Makes a call at random, and adds its answer to the sum.
    pub(crate) fn step(&mut self, draws: &mut Draws) {
        self.now = self.now.saturating_add(draws.below(2_000_000));
        let answer = if draws.below(2) == 0 {
            call(self.client.as_mut(), self.server.as_mut(), self.now, draws)
        } else {
            call(self.server.as_mut(), self.client.as_mut(), self.now, draws)
        };
        self.sum = self
            .sum
            .wrapping_mul(31)
            .wrapping_add(answer.unsigned_abs());
    }
}
