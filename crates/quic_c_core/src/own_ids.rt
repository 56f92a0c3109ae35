//! Own connection IDs, as numbers and bytes.

use quic_connection::OwnId;

/// How many bytes an own connection ID has.
const ID_LENGTH: usize = 8;

/// How many bytes a token has.
const TOKEN_LENGTH: usize = 16;

/// An own connection ID: `fh_own_id` of the header, which says what the numbers mean.
#[derive(Clone, Copy, Debug, Default, PartialEq, Eq)]
#[repr(C)]
pub struct IdRecord {
    /// The number under which it was issued.
    pub sequence: u64,
    /// 1 where it has a token by which a stateless reset is known, and else 0.
    pub has_reset_token: u64,
    /// Its bytes.
    pub id: [u8; ID_LENGTH],
    /// The token; zeros where it has none.
    pub reset_token: [u8; TOKEN_LENGTH],
}

impl IdRecord {
    /// An own ID.
    pub(crate) fn of(own: &OwnId) -> Self {
        let mut record = IdRecord {
            sequence: own.sequence(),
            ..IdRecord::default()
        };
        let id = own.id();
        let bytes = id.as_slice();
        let length = bytes.len().min(ID_LENGTH);
        record.id[..length].copy_from_slice(&bytes[..length]);
        if let Some(token) = own.reset_token() {
            record.has_reset_token = 1;
            record.reset_token.copy_from_slice(token.as_slice());
        }
        record
    }
}
