//! Connections come to rest and are kept: what one takes in memory.
use crate::endpoint::Endpoint;
use crate::fault::Fault;
use crate::figures::{Figures, Watch};
use crate::pair::{BothEnds, Limits, Pair};
use std::alloc::Global;
use std::rt::Clock;
use std::time::CpuClock;

/// How many datagrams an end takes before it may send.
const BATCH: u64 = 2;

/// Both ends of a connection at rest, without the lanes between them.
fn at_rest<E: Endpoint>(alloc: Global, limits: &Limits) -> Result<BothEnds<E>, Fault> {
    let mut pair = Pair::new(alloc, limits, BATCH)?;
    pair.settle()?;
    Ok(pair.into_ends())
}

/// So many connections come to rest, and are kept.
fn keep<E: Endpoint>(
    alloc: Global,
    limits: &Limits,
    count: u64,
    kept: &mut Vec<BothEnds<E>>,
) -> Result<(), Fault> {
    for _ in 0..count {
        if kept.push(at_rest(alloc, limits)?).is_err() {
            return Err(Fault::Memory);
        }
    }
    Ok(())
}

/// So many connections come to rest, both ends of each, and are kept.
///
/// # Errors
///
/// - [`Fault::Clock`]: a clock can't be read.
/// - [`Fault`]: as [`Pair::new`] and [`Pair::settle`] answer. The connections that were made are
///   dropped.
pub fn run<E: Endpoint, R: Clock + CpuClock + AllocGlobal>(
    rt: &R,
    pair: &mut Pair<E>,
    count: u64,
) -> Result<Figures, Fault> {
    pair.begin();
    let watch = Watch::start(rt)?;
    let mut kept = Vec::<BothEnds<E>>::new(rt.alloc());
    keep(rt.alloc(), &pair.limits, count, &mut kept)?;
    pair.figures(rt, &watch, kept.len() as u64, 0)
}
