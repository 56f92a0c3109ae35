//! Answers to the peer's challenges that wait to be sent (RFC 9000, section 8.2.2; quinn-proto's
//! `PathResponses`).
ghost use Rattle.std.specs.Prelude.{◌≡◌, None};
ghost use Rattle.std.specs.Option.{option_map, is_none};
ghost use Rattle.quic_paths.specs.Responses.{newest};

use std::marker::Model;

/// A PATH_RESPONSE that waits.
#[derive(Clone, Copy, Debug)]
struct PathResponse {
    /// The number of the packet whose PATH_CHALLENGE it answers.
    packet: u64,
    /// The word of that PATH_CHALLENGE.
    token: u64,
}

/// The PATH_RESPONSE that waits to be sent, if one does (quinn-proto's `PathResponses`).
///
/// The peer has one address, so that one waits at most: that to the newest packet with a
/// PATH_CHALLENGE.
#[derive(Clone, Copy, Debug)]
pub struct PathResponses {
    pending: Option<PathResponse>,
}

impl Model for PathResponses {
    ghost use Rattle.std.specs.Prelude.{ℕ, Option};
    ghost use Rattle.std.specs.Option.{option_map};
    ghost use Rattle.quic_paths.specs.Responses.{Response};

    ghost Value = { Option Response };

    ghost view = { λ r. option_map (λ p. record { packet = p.packet; token = p.token }) r.pending };

    ghost inverse = { λ r. record { pending = option_map (λ p. record { packet = p.packet; token = p.token }) r } };
}

impl PathResponses {
    /// None waits.
    pub fn new() -> Self
        ensures { result ≡ None }
    {
        PathResponses { pending: None }
    }

    /// The packet of this number came with a PATH_CHALLENGE of this word, which is to be answered:
    /// in place of one that came before, unless that packet is newer.
    pub fn push(&mut self, packet: u64, token: u64)
        ensures { self.new ≡ newest self.old (record { packet = packet; token = token }) }
    {
        if let Some(waiting) = self.pending
            && packet < waiting.packet
        {
            return;
        }
        self.pending = Some(PathResponse { packet, token });
    }

    /// The word of the PATH_RESPONSE that waits, which goes now on the path that the peer's address
    /// names; none where none waits.
    pub fn pop_on_path(&mut self) -> Option<u64>
        ensures word { result ≡ option_map (λ r. r.token) self.old }
        ensures next { self.new ≡ None }
    {
        let token = self.pending?.token;
        self.pending = None;
        Some(token)
    }

    /// Whether none waits.
    pub fn is_empty(&self) -> bool
        ensures { result ≡ is_none self.now }
    {
        self.pending.is_none()
    }
}

impl Default for PathResponses {
    ghost is_default = { λ r. r ≡ None };

    /// None waits.
    fn default() -> PathResponses {
        PathResponses::new()
    }
}
