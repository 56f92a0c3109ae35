//! Packets of QUIC: packet numbers, the short header, keys, and packets sealed and opened in place.
#![tactic(auto)]

pub mod crypto;
pub mod laws;
mod packet;
mod sealing;

pub use packet::{
    ConnectionIdParser, FixedLengthConnectionIdParser, HasId, HeaderError, PacketNumber,
    ShortHeader, TooShort,
};
pub use sealing::{Opened, open_packet, seal_packet, seal_reserved, width_in};
