//! The streams of an end, with what waits to be sent beside their bytes.

use quic_retransmits::Retransmits;
use quic_streams_state::StreamsState;

/// The streams of an endpoint, and the control frames that are pending: a handle borrows both at
/// once.
#[derive(Drop)]
pub struct EndStreams {
    /// All streams of the endpoint.
    pub state: StreamsState,
    /// The control frames that are pending.
    pub pending: Retransmits,
}
