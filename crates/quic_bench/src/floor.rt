//! What the lanes alone cost: datagrams of 1200 bytes go through one, each copied once.
use crate::endpoint::Endpoint;
use crate::fault::Fault;
use crate::figures::{Figures, Watch};
use crate::lane::Lane;
use crate::pair::Pair;
use std::alloc::AllocError;
use std::rt::Clock;
use std::time::CpuClock;

/// How many datagrams go at once.
const AT_ONCE: u64 = 100;

/// What each carries.
const DATAGRAM: [u8; 1200] = [7; 1200];

/// Sends datagrams.
fn send(lane: &mut Lane, now: u64) -> Result<(), AllocError> {
    for _ in 0..AT_ONCE {
        let mut bytes = lane.buffer()?;
        bytes.extend_from_slice(&DATAGRAM)?;
        lane.push(now, None, bytes)?;
    }
    Ok(())
}

/// Takes all datagrams: the sum of their last bytes.
fn take_all(lane: &mut Lane) -> u64 {
    let mut sum = 0u64;
    for _ in 0..u64::MAX {
        let Some(datagram) = lane.pop_due(u64::MAX) else {
            break;
        };
        let last = datagram.bytes.last().copied().unwrap_or(0);
        sum = sum.wrapping_add(u64::from(last));
        lane.give_back(datagram.bytes);
    }
    sum
}

/// So many datagrams go through a lane, in whole hundreds.
///
/// # Errors
///
/// - [`Fault::Clock`]: a clock can't be read.
/// - [`Fault::Memory`]: an allocation fails. Datagrams may be left in the lane.
pub fn run<R: Clock + CpuClock>(
    rt: &R,
    pair: &mut Pair<impl Endpoint>,
    count: u64,
) -> Result<Figures, Fault> {
    pair.begin();
    let watch = Watch::start(rt)?;
    let mut sum = 0u64;
    let rounds = count / AT_ONCE;
    for _ in 0..rounds {
        send(&mut pair.up, pair.now)?;
        sum = sum.wrapping_add(take_all(&mut pair.up));
    }
    pair.figures(rt, &watch, rounds.wrapping_mul(AT_ONCE), sum)
}
