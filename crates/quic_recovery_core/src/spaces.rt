//! What an end keeps about the packets that come (quinn-proto's `connection::spaces`).

pub(crate) mod dedup;
pub(crate) mod pending_acks;
mod window;
