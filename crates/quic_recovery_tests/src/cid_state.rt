use quic_ids::CidState;
use quic_time::Instant;
use quic_wire_core::{ConnectionId, IssuedCid, ResetToken};
use std::alloc::{AllocError, Global};

fn issued(sequence: u64) -> IssuedCid {
    IssuedCid {
        sequence,
        id: ConnectionId::new(&[1; 8]),
        reset_token: ResetToken::from([2; 16]),
    }
}

// A state with the number 0. Where memory lacks, it is made again.
fn make(alloc: Global) -> Result<CidState, AllocError> {
    let now = Instant::from_nanos(0);
    match CidState::new(alloc, 8, None, now, 1) {
        Ok(state) => Ok(state),
        Err(_) => CidState::new(alloc, 8, None, now, 1),
    }
}

// How many were issued, and whether the last of them lives, and the next number.
fn seen(state: &CidState) -> (u64, bool, bool) {
    let next = state.issued();
    (
        next,
        state.is_active(next.saturating_sub(1)),
        state.is_active(next),
    )
}

// Whether the next four numbers are issued. Where memory lacks, nothing has changed, and they are
// issued again.
fn issues(state: &mut CidState) -> bool {
    let before = seen(state);
    let next = before.0;
    if next >= 100 {
        return false;
    }
    let ids = [
        issued(next),
        issued(next + 1),
        issued(next + 2),
        issued(next + 3),
    ];
    let now = Instant::from_nanos(5);
    state.new_cids(&ids, now).is_ok() || seen(state) == before && state.new_cids(&ids, now).is_ok()
}

fn issue_many(state: &mut CidState) -> bool {
    issues(state)
        && issues(state)
        && issues(state)
        && issues(state)
        && seen(state) == (17, true, false)
}

// So many numbers that memory may lack for one of four.
fn many_are_issued(alloc: Global) -> bool {
    match make(alloc) {
        Ok(mut state) => {
            let is_right = issue_many(&mut state);
            drop(state);
            is_right
        }
        Err(_) => false,
    }
}

#[test]
fn many_ids_are_issued(rt: HostRuntime) {
    assert!(rt; many_are_issued(rt.alloc()));
}
