//! Integers and ids of QUIC, and how they stand in bytes.
#![tactic(auto)]

mod coding;
mod frame_type;
pub mod laws;
mod reason;
pub mod reserved;
mod shared;
mod stream_id;
mod token;
mod transport_error;
mod varint;

pub use coding::{Codec, UnexpectedEnd};
pub use frame_type::FrameType;
pub use reason::Reason;
pub use shared::{ConnectionId, EcnCodepoint, IssuedCid, MAX_CID_SIZE};
pub use stream_id::{Dir, Side, StreamId};
pub use token::{RESET_TOKEN_SIZE, ResetToken};
pub use transport_error::{Code, TransportError};
pub use varint::{VarInt, VarIntBoundsExceeded};
