//! Two endpoints (*ends*) of a QUIC connection over a network: runs of them, a call at a time, a
//! list of calls, or until both rest. Beside them stands what an application names of one end: the
//! end, its handles, what its calls take, and what they answer; and one call at an end whose peer
//! is elsewhere.
//!
//! Whenever a datagram, a moment or a call of the application was handed to a [`Connection`], its
//! `poll_transmit` is called until it gives no datagram, its `poll` until it tells no event, and
//! its `poll_timeout` says when `handle_timeout` is due.
#![tactic(auto)]

mod alone;
mod on_messages;
mod on_streams;
mod pair;
mod running;
mod settling;
mod stepping;
mod views;

pub use alone::{Alone, run_alone};
pub use bytes::Bytes;
pub use pair::Making;
pub use quic_assembler::Chunk;
pub use quic_config::{
    AckFrequencyConfig, FirstSample, MAX_FIRST_SAMPLE_NANOS, MtuDiscoveryConfig,
};
pub use quic_congestion::{
    Controller, ControllerFactory, ControllerMetrics, NewReno, NewRenoConfig,
};
pub use quic_connection_core::{Config, Connection, OwnId};
pub use quic_copies::Copies;
pub use quic_machine::{
    Address, Answer, Call, CloseCall, ConfigError, Datagram, Delivery, DropReason, EndView,
    EndpointEvent, Event, Failed, HandshakeDoneError, IdleTimeout, Injection, Instant, LostReason,
    NextIdError, Nexts, PeerClose, ReadCall, Received, RunEvent, State, Timer, Transmit,
    TransportConfig, View,
};
pub use quic_messages::{DatagramLimits, DatagramState, Datagrams, SendDatagramError};
pub use quic_packet::crypto::{
    HeaderKey, KeyPair, Keys, NotOpened, PacketKey, SAMPLE_SIZE, TAG_LEN,
};
pub use quic_packet::width_in;

// parameters, streams, counts, time and the wire
pub use quic_parameters::{TransportParameters, TransportParametersError};
pub use quic_send_buffer::{BytesSource, ShouldTransmit};
pub use quic_stats::{ConnectionStats, DropStats, FrameStats, PathStats, UdpStats};
pub use quic_streams_handles::{Chunks, EndStreams, RecvStream, SendStream, Streams};
pub use quic_streams_parts::{
    ClosedStream, FinishError, ReadError, ReadableError, StreamEvent, UpdateError, WriteError,
    Written,
};
pub use quic_streams_state::BlockedBy;
pub use quic_time::{Duration, RttEstimator};
pub use quic_wire::frame::{ApplicationClose, Close, ConnectionClose};
pub use quic_wire_core::{
    Code, ConnectionId, Dir, EcnCodepoint, FrameType, Reason, Side, StreamId, TransportError,
    VarInt, VarIntBoundsExceeded,
};
pub use running::{Ends, Given, Outcome, run};
pub use settling::settle;
pub use stepping::{call_at, step};
