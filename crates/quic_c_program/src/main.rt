//! What the library with a C header is made of: `exports` has its functions. `main` calls each of
//! them once. Then, for each line of the input, which has a number of rounds and a seed, it makes
//! so many rounds of 500 calls at random, at two new endpoints each.
#![tactic(auto)]

mod draws;
mod exports;
mod once;
mod random;

use crate::draws::Draws;
use crate::exports::fh_free;
use crate::random::Pair;
use quic_c_core::{CallError, Calls, Endpoint, FirstIds, Peer, Settings, parameters};
use std::alloc::Global;
use std::io;
use std::mem::ManuallyDrop;

/// How many calls a round has.
const CALLS: u64 = 500;

/// The first connection IDs of the endpoint of this side, and of its peer.
fn ids_of(side: u32) -> FirstIds<'static> {
    if side == 0 {
        FirstIds {
            own: b"client-1",
            peer: b"server-1",
        }
    } else {
        FirstIds {
            own: b"server-1",
            peer: b"client-1",
        }
    }
}

/// A settled endpoint of this side, for a peer with the same settings.
fn make<E: Calls>(alloc: Global, settings: &Settings, side: u32) -> Result<Box<E>, CallError> {
    let mut list = [0u8; 256];
    let length = parameters(alloc, settings, &mut list)?;
    let peer = Peer {
        side,
        ids: ids_of(side),
        parameters: list.get(..length).unwrap_or(&[]),
        address: 7,
    };
    E::new(alloc, settings, &peer, &[1; 32], 0)
}

/// Calls each function of an endpoint once.
fn call_endpoints(
    rt: &impl Print,
    client: &mut impl Calls,
    server: &mut impl Calls,
) -> io::Result<()> {
    once::call_streams(rt, client)?;
    once::call_rest(rt, client)?;
    once::carry(rt, client, server)?;
    once::end(rt, client, server)
}

/// Calls each function once.
fn call_each<E: Calls>(rt: &(impl Print + AllocGlobal)) -> io::Result<()> {
    let mut settings = Settings::default();
    let Ok(client) = make::<E>(rt.alloc(), &settings, 0) else {
        return println!(rt; "no client");
    };
    let mut conn = ManuallyDrop::new(client);
    let answer = once::call_first(rt, &mut settings, &mut conn);
    let mut client = ManuallyDrop::into_inner(conn);
    answer?;
    let Ok(mut server) = make::<E>(rt.alloc(), &settings, 1) else {
        return println!(rt; "no server");
    };
    let answer = call_endpoints(rt, client.as_mut(), server.as_mut());
    fh_free(client);
    fh_free(server);
    answer
}

/// Makes calls at random at two new endpoints: a sum of what they answer, and 0 where there is no
/// memory for two.
fn call_round<E: Calls>(alloc: Global, draws: &mut Draws) -> u64 {
    let settings = draws.settings();
    let Ok(client) = make::<E>(alloc, &settings, 0) else {
        return 0;
    };
    let Ok(server) = make::<E>(alloc, &settings, 1) else {
        return 0;
    };
    let mut pair = Pair {
        client,
        server,
        now: 0,
        sum: 0,
    };
    for _ in 0..CALLS {
        pair.step(draws);
    }
    pair.sum
}

/// Makes so many rounds of calls, and prints the sum of what they answer.
fn call_many<E: Calls>(
    rt: &(impl Print + AllocGlobal),
    rounds: u64,
    draws: &mut Draws,
) -> io::Result<()> {
    let mut sum = 0u64;
    for _ in 0..rounds {
        sum = sum.wrapping_add(call_round::<E>(rt.alloc(), draws));
    }
    println!(rt; "{rounds} rounds of {CALLS} calls: {sum}")
}

/// The two numbers of a line, or none.
fn numbers_of(line: &str) -> Option<(u64, u64)> {
    let (rounds, seed) = line.split_once(' ')?;
    match (rounds.parse::<u64>(), seed.parse::<u64>()) {
        (Ok(rounds), Ok(seed)) => Some((rounds, seed)),
        _ => None,
    }
}

fn main(rt: HostRuntime) -> io::Result<()> {
    call_each::<Endpoint>(&rt)?;
    for line in rt.lines(rt.alloc()) {
        let line = line?;
        match numbers_of(line.as_str()) {
            Some((rounds, seed)) => call_many::<Endpoint>(&rt, rounds, &mut Draws::new(seed))?,
            None => println!(&rt; "no numbers")?,
        }
    }
    Ok(())
}
