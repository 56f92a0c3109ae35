//! Stand-in keys and random sources, for scripts, tests, examples and measurements: the keys hide
//! nothing, and who knows the seed knows each random word. Keys that do hide something have the
//! same traits ([`quic_packet::crypto`]).
#![tactic(auto)]

mod key;
pub mod laws;
mod words;

pub use key::{KEY_LIMIT, PlainHeaderKey, PlainKey, keys_are_mates, keys_for, keys_within};
pub use words::{Source, Words};
