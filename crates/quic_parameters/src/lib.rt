//! Transport parameters of QUIC: the limits, those of flow control among them, that two endpoints
//! tell each other as a connection begins.
#![tactic(auto)]

pub mod transport_parameters;

pub use transport_parameters::{
    TransportParameterId, TransportParameters, TransportParametersError,
};
