//! One endpoint for programs in other languages: all that stands behind the functions of
//! `native/fennelhammer.h`, over numbers, slices of bytes and structs of numbers. Every number, ID
//! and length is tested, as no prover stands on the other side.
#![tactic(auto)]

mod call_error;
mod calls;
mod endpoint;
mod events;
mod figures;
mod messages;
mod own_ids;
mod settings;
mod streams;

pub use call_error::{CallError, error_text};
pub use calls::Calls;
pub use endpoint::{Endpoint, FirstIds, NEVER, Peer, parameters};
pub use events::EventRecord;
pub use figures::{DropFigures, PathFigures, STATS_SIZE, Stats, UdpFigures};
pub use own_ids::IdRecord;
pub use settings::{SETTINGS_SIZE, Settings};
pub use streams::Piece;
