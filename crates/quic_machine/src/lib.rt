//! The reference machine of a QUIC connection: the values that its calls take and answer, what
//! each call of one endpoint (an *end*) answers and leaves, and runs of two over a network.
#![tactic(auto)]

mod answers;
pub mod laws;
mod peer_close;
mod run;

pub use answers::{
    ConfigError, DropReason, EndpointEvent, Event, Failed, HandshakeDoneError, LostReason,
    NextIdError, Received, State, Transmit,
};
pub use peer_close::PeerClose;
pub use quic_config::{IdleTimeout, TransportConfig};
pub use quic_paths::Address;
pub use quic_time::{Instant, Timer};
pub use run::{
    Answer, Call, CloseCall, Datagram, Delivery, EndView, Injection, Nexts, ReadCall, RunEvent,
    View,
};
