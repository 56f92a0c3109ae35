//! The wire layer of QUIC: integers and ids, sets of numbers, frames, packets, keys and transport
//! parameters, under one name.
#![tactic(auto)]

pub mod frame;
pub mod frame_laws;
pub mod laws;
pub mod worked;

pub use quic_packet::{
    ConnectionIdParser, FixedLengthConnectionIdParser, HasId, HeaderError, Opened, PacketNumber,
    ShortHeader, TooShort, crypto, open_packet, seal_packet, seal_reserved, width_in,
};
pub use quic_parameters::{TransportParameterId, TransportParameters, TransportParametersError};
pub use quic_sets::{ArrayRangeSet, EltIter, Iter, RangeSet, Replace};
pub use quic_wire_core::{
    Code, Codec, ConnectionId, Dir, EcnCodepoint, FrameType, IssuedCid, MAX_CID_SIZE,
    RESET_TOKEN_SIZE, Reason, ResetToken, Side, StreamId, TransportError, UnexpectedEnd, VarInt,
    VarIntBoundsExceeded,
};
