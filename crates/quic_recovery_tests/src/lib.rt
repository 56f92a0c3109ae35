//! Tests of recovery and of connection IDs: each call that takes memory, made where an allocation
//! fails. What the definitions give of worked values is computed in `quic_recovery_rows`.
#![tactic(auto)]

#[cfg(test)]
mod acknowledging;
#[cfg(test)]
mod cid_state;
#[cfg(test)]
mod packets;
#[cfg(test)]
mod paths;
#[cfg(test)]
mod space;
