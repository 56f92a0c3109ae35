//! Statistics of datagrams that were dropped.

/// The datagrams that came and were dropped, by the reason why; quinn-proto counts none. Each
/// counts as one that came too, and under one reason alone, the first that holds.
#[derive(Clone, Copy, Debug, Default, PartialEq, Eq)]
pub struct DropStats {
    /// Those that end within the connection ID, or have fewer than 20 bytes behind it (RFC 9001,
    /// section 5.4.2).
    pub too_short: u64,
    /// Those with a long header (RFC 9000, section 17.2).
    pub not_short: u64,
    /// Those whose fixed bit is 0 (RFC 9000, section 17.3.1).
    pub fixed_bit: u64,
    /// Those for a connection ID that isn't in use (RFC 9000, section 5.2).
    pub unknown_id: u64,
    /// Those that the key refuses (RFC 9001, section 5.5).
    pub not_opened: u64,
    /// Those of another key phase (RFC 9001, section 6).
    pub key_phase: u64,
    /// Those whose packet number came before, or is too old to tell (RFC 9000, section 12.3).
    pub duplicate: u64,
    /// Those that opened while the endpoint was closing (RFC 9000, section 10.2.1).
    pub closing: u64,
    /// Those that came while the endpoint was drained (RFC 9000, section 10.2.2).
    pub drained: u64,
    /// Those that came while the endpoint had failed, as an allocation failed before.
    pub failed: u64,
}
