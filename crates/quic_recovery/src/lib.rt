//! Recovery of a QUIC connection (RFC 9002) under one name: moments, timers and the round-trip
//! time; what an endpoint is configured with; the congestion window, pacing and path MTU discovery;
//! what is in flight and known of a path; duplicates, what is to be acknowledged and when, and
//! connection ids; packet number spaces, with the numbers that are left out, the packets that are
//! tracked, and which of them are lost.
#![tactic(auto)]

pub use quic_config::{
    AckFrequencyConfig, IDS_KEPT, IdleTimeout, MtuDiscoveryConfig, TransportConfig,
};
pub use quic_congestion::{
    Controller, ControllerFactory, ControllerMetrics, MtuDiscovery, NewReno, NewRenoConfig, Pacer,
};
pub use quic_ids::{CidQueue, CidState, InsertError};
pub use quic_paths::{InFlight, PathData};
pub use quic_recovery_core::{
    AckFrequencyState, DUPLICATE_SPAN, Dedup, LAZY_ACK_THRESHOLD, MAX_ACK_RUNS, PendingAcks,
};
pub use quic_sent_packets::{SentPacket, SentPackets};
pub use quic_spaces::{
    Acknowledging, EcnError, Numbers, PacketNumberFilter, PacketSpace, PersistentCongestion,
    SendableFrames, Tracking, Verdict,
};
pub use quic_time::{Duration, Instant, RttEstimator, TIMER_GRANULARITY, Timer, TimerTable};
