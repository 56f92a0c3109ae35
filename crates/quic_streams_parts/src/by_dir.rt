//! One value for each direction.

/// A value for two-way streams, and one for one-way streams (RFC 9000, section 2.1).
#[derive(Clone, Copy, Debug, PartialEq, Eq, Drop)]
pub struct ByDir<T> {
    /// Of two-way streams.
    pub bi: T,
    /// Of one-way streams.
    pub uni: T,
}
