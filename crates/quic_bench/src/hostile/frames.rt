//! The frames of a peer that attacks (RFC 9000, section 19).
use crate::hostile::attack::{Attack, Plan};
use std::alloc::AllocError;

/// How many pieces a stream has that come out of order.
const PIECES: u64 = 2048;

/// Over how many gaps between pieces one frame goes.
const COVERED: usize = 512;

/// How many streams one frame opens.
const OPENED: u64 = 10_000;

/// The first id of the peer that it didn't give when the connection began.
const NEXT_ID: u64 = 8;

/// How many of the peer's first ids are given again once they are retired.
const LATE_IDS: u64 = 30;

/// How many of the server's ids are retired in turn, less than the 80 that it lets wait to be told.
const LIVING_IDS: u64 = 40;

/// In how many frames they are: more than a datagram has.
const RETIREMENTS: u64 = 600;

/// The least limit of a stream that the peer tells, above those with which streams begin.
const LEAST_LIMIT: u64 = 1 << 21;

/// The least number that an ACK frame over forgotten ones names. It and the others are even: those
/// that are left out are odd where each random word is 63.
const LEAST_FORGOTTEN: u64 = 12;

/// Appends a number as a variable-length integer, the shortest (RFC 9000, section 16).
///
/// # Errors
///
/// - [`AllocError`]: an allocation fails. Nothing is appended.
pub fn put_number(out: &mut Vec<u8>, number: u64) -> Result<(), AllocError> {
    if number < 1 << 6 {
        out.push(number as u8)?;
    } else if number < 1 << 14 {
        out.extend_from_slice(&(number as u16 | 1 << 14).to_be_bytes())?;
    } else if number < 1 << 30 {
        out.extend_from_slice(&(number as u32 | 1 << 31).to_be_bytes())?;
    } else {
        out.extend_from_slice(&(number | 3 << 62).to_be_bytes())?;
    }
    Ok(())
}

/// Appends a type of frame.
fn put_type(out: &mut Vec<u8>, kind: u8) -> Result<(), AllocError> {
    out.push(kind)?;
    Ok(())
}

/// Appends a type of frame and a number.
fn put_one(out: &mut Vec<u8>, kind: u8, number: u64) -> Result<(), AllocError> {
    out.push(kind)?;
    put_number(out, number)
}

/// Appends a type of frame and two numbers.
fn put_two(out: &mut Vec<u8>, kind: u8, first: u64, second: u64) -> Result<(), AllocError> {
    put_one(out, kind, first)?;
    put_number(out, second)
}

/// The stream of this index that the client opens for both ways.
fn two_way(index: u64) -> u64 {
    index.saturating_mul(4)
}

/// The one that it opens for one way.
fn one_way(index: u64) -> u64 {
    index.saturating_mul(4).saturating_add(2)
}

/// Appends a STREAM frame with so many bytes.
fn put_stream(out: &mut Vec<u8>, id: u64, offset: u64, len: usize) -> Result<(), AllocError> {
    put_two(out, 0x0e, id, offset)?;
    put_number(out, len as u64)?;
    out.resize(out.len().saturating_add(len), 7)?;
    Ok(())
}

/// Appends a STREAM frame that fills so much room, with the bytes behind those of as many others.
fn put_honest(out: &mut Vec<u8>, index: u64, room: usize) -> Result<(), AllocError> {
    // The type, the id, an offset of four bytes, and a length of two.
    let len = room.saturating_sub(8).max(1);
    let offset = index.saturating_mul(len as u64);
    put_stream(out, one_way(0), offset, len)
}

/// Appends a piece of one byte at an odd offset: `place` says at which.
fn put_piece(out: &mut Vec<u8>, stream: u64, place: u64) -> Result<(), AllocError> {
    let offset = place.saturating_mul(2).saturating_add(1);
    put_stream(out, one_way(stream), offset, 1)
}

/// The place of a piece below 2048 in an order that jumps: 1265 and 2048 have no common divisor, so
/// that each comes once.
fn jumping(index: u64) -> u64 {
    index % PIECES * 1265 % PIECES
}

/// Appends a piece of the stream that gets 2048, or of one between these, in an order that jumps:
/// 1000 and 2047 have no common divisor.
fn put_joined(out: &mut Vec<u8>, index: u64) -> Result<(), AllocError> {
    let (stream, at) = (index / (2 * PIECES - 1), index % (2 * PIECES - 1));
    if at < PIECES {
        return put_piece(out, stream, jumping(at));
    }
    let place = (at - PIECES) * 1000 % (PIECES - 1);
    put_stream(
        out,
        one_way(stream),
        place.saturating_mul(2).saturating_add(2),
        1,
    )
}

/// Appends a piece of the stream that gets 2048, or a frame that goes over the gaps between 512 of
/// these: how many pieces or gaps.
fn put_covered(out: &mut Vec<u8>, index: u64) -> Result<u64, AllocError> {
    let (stream, at) = (index / (2 * PIECES), index % (2 * PIECES));
    if at < PIECES {
        put_piece(out, stream, jumping(at))?;
        return Ok(1);
    }
    let offset = (at - PIECES).saturating_mul(2).saturating_add(2);
    put_stream(out, one_way(stream), offset, 2 * COVERED)?;
    Ok(COVERED as u64)
}

/// Appends an ACK frame of one number.
///
/// # Errors
///
/// - [`AllocError`]: an allocation fails. Some of the frame may be appended.
pub fn put_ack(out: &mut Vec<u8>, number: u64) -> Result<(), AllocError> {
    put_two(out, 0x02, number, 0)?;
    out.extend_from_slice(&[0, 0])?;
    Ok(())
}

/// Appends an ACK frame that fills so much room, each range of one number, and a number between
/// two: how many ranges it has.
fn put_forgotten(out: &mut Vec<u8>, room: usize) -> Result<u64, AllocError> {
    // The type, a number of two bytes, the delay, a count of two bytes, and the first range.
    let more = (room.saturating_sub(7) / 2).min(579) as u64;
    let largest = LEAST_FORGOTTEN.saturating_add(more.saturating_mul(2));
    put_two(out, 0x02, largest, 0)?;
    put_number(out, more)?;
    out.push(0)?;
    for _ in 0..more {
        out.extend_from_slice(&[0, 0])?;
    }
    Ok(more.saturating_add(1))
}

/// Appends a NEW_CONNECTION_ID frame for the next number, with an id of a byte or of 20, which asks
/// that all before be retired.
fn put_longer_id(out: &mut Vec<u8>, index: u64) -> Result<(), AllocError> {
    let sequence = index.saturating_add(NEXT_ID);
    let len = if index % 2 == 0 { 1 } else { 20 };
    put_two(out, 0x18, sequence, sequence)?;
    out.push(len)?;
    // The id, and a token of 16 bytes.
    let byte = (index % 256) as u8;
    out.resize(out.len().saturating_add(usize::from(len) + 16), byte)?;
    Ok(())
}

/// Appends a NEW_CONNECTION_ID frame for a number, which asks that those below another be retired.
fn put_id(out: &mut Vec<u8>, sequence: u64, least: u64) -> Result<(), AllocError> {
    put_two(out, 0x18, sequence, least)?;
    let id = sequence.to_be_bytes();
    out.push(8)?;
    out.extend_from_slice(&id)?;
    out.extend_from_slice(&id)?;
    out.extend_from_slice(&id)?;
    Ok(())
}

/// Appends a NEW_CONNECTION_ID frame for the next number, which leaves it and seven before.
fn put_new_id(out: &mut Vec<u8>, index: u64) -> Result<(), AllocError> {
    let sequence = index.saturating_add(NEXT_ID);
    put_id(out, sequence, sequence.saturating_sub(7))
}

/// Appends a PATH_CHALLENGE frame.
fn put_challenge(out: &mut Vec<u8>, index: u64) -> Result<(), AllocError> {
    out.push(0x1a)?;
    out.extend_from_slice(&index.to_be_bytes())?;
    Ok(())
}

/// Appends a STREAM frame of an attack, which counts as one item.
fn put_on_stream(
    out: &mut Vec<u8>,
    attack: Attack,
    index: u64,
    room: usize,
) -> Result<(), AllocError> {
    let stream = index / PIECES;
    match attack {
        Attack::PiecesUp => put_piece(out, stream, index % PIECES),
        Attack::PiecesDown => put_piece(out, stream, PIECES - 1 - index % PIECES),
        Attack::PiecesSpread => put_piece(out, stream, jumping(index)),
        Attack::PiecesJoined => put_joined(out, index),
        Attack::Bytes => put_stream(out, one_way(0), index, 1),
        Attack::Starts => put_stream(out, one_way(index), 0, 1),
        _ => put_honest(out, index, room),
    }
}

/// Appends a STREAM frame that opens ten thousand further streams.
fn put_opening(out: &mut Vec<u8>, index: u64) -> Result<u64, AllocError> {
    let last = index.saturating_add(OPENED).saturating_sub(1);
    put_stream(out, one_way(last), 0, 1)?;
    Ok(OPENED)
}

/// Appends a frame about streams, other than STREAM, of an attack.
fn put_about_stream(out: &mut Vec<u8>, plan: &Plan, index: u64) -> Result<(), AllocError> {
    match plan.attack {
        Attack::Resets => {
            put_two(out, 0x04, one_way(index), 0)?;
            put_number(out, 0)
        }
        Attack::Stops => put_two(out, 0x05, two_way(index), 0),
        _ => {
            let id = two_way(index % plan.streams.max(1));
            put_two(out, 0x11, id, index.saturating_add(LEAST_LIMIT))
        }
    }
}

/// The number of the server's id that a frame retires: the first so many of each turn that of one
/// more that lives, all others that of the first one, which was retired.
fn retired_by(index: u64) -> u64 {
    let place = index % RETIREMENTS;
    if place < LIVING_IDS {
        (index / RETIREMENTS)
            .saturating_mul(LIVING_IDS)
            .saturating_add(place)
            .saturating_add(1)
    } else {
        1
    }
}

/// Appends a frame of an attack that isn't about streams.
fn put_control(out: &mut Vec<u8>, attack: Attack, index: u64) -> Result<(), AllocError> {
    match attack {
        Attack::Challenges => put_challenge(out, index),
        Attack::NewIds => put_new_id(out, index),
        Attack::LongerIds => put_longer_id(out, index),
        Attack::LateIds => put_id(out, index % LATE_IDS, 0),
        Attack::Retirements => put_one(out, 0x19, retired_by(index)),
        Attack::EmptyMessages => put_one(out, 0x31, 0),
        Attack::ByteMessages => put_two(out, 0x31, 1, 7),
        Attack::Padding => put_type(out, 0x00),
        Attack::AtOnce => put_type(out, 0x1f),
        _ => put_type(out, 0x01),
    }
}

/// Appends what an attack carries behind so many items, in at most so much room where it is large:
/// how many items it counts as.
///
/// # Errors
///
/// - [`AllocError`]: an allocation fails. Some of the frames may be appended.
pub fn put_item(
    out: &mut Vec<u8>,
    plan: &Plan,
    index: u64,
    room: usize,
) -> Result<u64, AllocError> {
    match plan.attack {
        Attack::Forgotten => return put_forgotten(out, room),
        Attack::PiecesCovered => return put_covered(out, index),
        Attack::Streams => return put_opening(out, index),
        Attack::Unopened | Attack::Repeated => put_honest(out, 0, room)?,
        Attack::Honest
        | Attack::PiecesUp
        | Attack::PiecesDown
        | Attack::PiecesSpread
        | Attack::PiecesJoined
        | Attack::Bytes
        | Attack::Starts => put_on_stream(out, plan.attack, index, room)?,
        Attack::Resets | Attack::Stops | Attack::Limits => put_about_stream(out, plan, index)?,
        _ => put_control(out, plan.attack, index)?,
    }
    Ok(1)
}
