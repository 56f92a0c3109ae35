//! Why transport parameters are refused.
use thiserror::Error;

/// Why a list of transport parameters is refused (quinn-proto's `transport_parameters::Error`).
#[derive(Clone, Copy, Debug, PartialEq, Eq, Error)]
pub enum TransportParametersError {
    /// A list that ends within an entry, a parameter that stands twice, or a value that isn't one
    /// variable-length integer that fills its length (RFC 9000, sections 7.4 and 18).
    #[error("parameters are malformed")]
    Malformed,
    /// A value out of its parameter's range (RFC 9000, section 18.2).
    #[error("parameter had illegal value")]
    IllegalValue,
}
