//! The streams of one endpoint of a QUIC connection under one name (RFC 9000, sections 2 to 4 and
//! 19), usable over the wire layer with no connection: the state of all streams, what waits to be
//! sent beside their bytes, what an application holds of them, and what their calls answer. What
//! each does is said where it stands.
#![tactic(auto)]

pub use quic_assembler::{Assembler, Chunk, IllegalOrderedRead, MOST_PIECES};
pub use quic_retransmits::{
    CONTROL_KINDS, ControlKind, LimitQueries, RetireError, Retransmits, StreamIds, ThinRetransmits,
};
pub use quic_send_buffer::{
    ByteSlice, BytesArray, BytesSource, SendBuffer, ShouldTransmit, StreamMeta,
};
pub use quic_streams_handles::{Chunks, EndStreams, RecvStream, SendStream, Streams};
pub use quic_streams_parts::{
    Breach, ClosedStream, FinishError, ReadError, ReadableError, ReceivedError, StreamEvent,
    UpdateError, WriteError, Written,
};
pub use quic_streams_state::{IdRule, StreamsState};
