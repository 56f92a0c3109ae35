//! Tokens by which an end that lost its state resets a connection (RFC 9000, section 10.3).
ghost use Rattle.std.specs.Prelude.{◌≡◌, Some, length};
ghost use Rattle.quic_wire_core.specs.ConnectionId.{hex_text};

use crate::shared::write_hex;
use std::convert::AsSlice;
use std::fmt;
use std::marker::Model;
use std::ops::DerefSlice;

/// How many bytes a token has (RFC 9000, section 10.3; quinn-proto's `RESET_TOKEN_SIZE`).
pub const RESET_TOKEN_SIZE: usize = 16;

/// The token of a stateless reset: 16 bytes, which an end tells its peer with each of its ids (RFC
/// 9000, section 10.3; quinn-proto's `ResetToken`). Contracts see the list of its bytes.
#[derive(Clone, Copy, Debug, PartialEq, Eq)]
pub struct ResetToken([u8; RESET_TOKEN_SIZE]);

impl Model for ResetToken {
    ghost use Rattle.std.specs.Prelude.{List, ℕ};

    ghost Value = { List ℕ };

    ghost view = { λ token. token.0 };

    ghost inverse = { λ bytes. record { 0 = bytes } };
}

impl ResetToken {
    /// The 16 bytes of the token.
    pub fn as_slice(&self) -> &[u8]
        ensures value { result.now ≡ self.now }
        ensures len { length self.now ≡ 16 }
    {
        &self.0
    }
}

impl From<[u8; RESET_TOKEN_SIZE]> for ResetToken {
    ghost from_gives = { λ bytes token. token ≡ bytes };

    fn from(bytes: [u8; RESET_TOKEN_SIZE]) -> ResetToken {
        ResetToken(bytes)
    }
}

impl DerefSlice for ResetToken {
    type Elem = u8;

    ghost deref_gives = { λ token bytes. bytes ≡ token };

    fn deref(&self) -> &[u8] {
        self.as_slice()
    }
}

impl AsSlice<u8> for ResetToken {
    ghost items = { λ token. token };

    fn as_slice(&self) -> &[u8] {
        self.as_slice()
    }
}

impl fmt::Display for ResetToken {
    ghost output = { λ token. Some (hex_text token) };

    /// Two hexadecimal digits a byte.
    fn fmt<W: fmt::Write>(&self, f: &mut fmt::Formatter<W>) -> fmt::Result {
        write_hex(f, self.as_slice())
    }
}
