//! Endpoints are made, and let go.
ghost use Rattle.std.specs.Prelude.{◌≡◌, ◌≢◌, pos, IsSome};

use crate::held::Held;
use crate::loose::Loose;
use crate::slot::Slot;
use quic_c_core::{Calls, Endpoint, FirstIds, Peer, Settings};
use std::alloc::Global;

/// `fh_new`.
#[unsafe(no_mangle)]
pub extern "C" fn quic_c_new(
    alloc: Global,
    settings: &Settings,
    side: u32,
    own_id: &[u8],
    peer_id: &[u8],
    peer_parameters: &[u8],
    peer_address: u64,
    seed: &[u8],
    now: u64,
    conn: &mut Slot,
) -> i32
    ensures made { result ≡ pos 0 → IsSome conn.new.value }
    ensures refused { result ≢ pos 0 → conn.new ≡ conn.old }
{
    let peer = Peer {
        side,
        ids: FirstIds {
            own: own_id,
            peer: peer_id,
        },
        parameters: peer_parameters,
        address: peer_address,
    };
    match Endpoint::new(alloc, settings, &peer, seed, now) {
        Ok(endpoint) => {
            *conn = Slot::full(Held::of(Loose::of(endpoint)));
            0
        }
        Err(error) => error.code(),
    }
}

/// `fh_free`.
#[unsafe(no_mangle)]
pub extern "C" fn quic_c_free(conn: Held) {
    drop(conn.into_loose().into_box());
}
