//! Payloads that a client seals which breaks rules, each at a new server (RFC 9000, section 20.1).
ghost use Rattle.std.specs.Prelude.{◌≡◌, [], ◌∷◌, ◌++◌, replicate, Some};
ghost use Rattle.quic_worked.specs.Worked.{server_made};
ghost use Rattle.quic_connection_rows.specs.Coming.{closes_with, narrow_server, silent_server, new_id};

/// Streams that the server is to open, the 101st of the client, a byte behind the end, and one
/// behind the last offset that there is (sections 4.1, 4.5, 4.6 and 19.8).
#[tactic(auto, unfolding(crate::specs::Coming::came))]
pub fn streams_have_their_codes()
    ensures two_way { closes_with (0x0a ∷ 0x01 ∷ 0x01 ∷ 0x61 ∷ []) server_made ≡ Some 5 }
    ensures one_way { closes_with (0x0a ∷ 0x03 ∷ 0x01 ∷ 0x61 ∷ []) server_made ≡ Some 5 }
    ensures further { closes_with (0x0a ∷ 0x41 ∷ 0x90 ∷ 0x01 ∷ 0x61 ∷ []) server_made ≡ Some 4 }
    ensures behind { closes_with (0x0b ∷ 0x00 ∷ 0x03 ∷ 0x61 ∷ 0x62 ∷ 0x63 ∷ 0x0a ∷ 0x00 ∷ 0x04 ∷ 0x61 ∷ 0x62 ∷ 0x63 ∷ 0x64 ∷ [])
        server_made ≡ Some 6 }
    ensures last { closes_with ((0x0e ∷ 0x00 ∷ replicate 8 0xff) ++ (0x01 ∷ 0x61 ∷ [])) server_made ≡ Some 3 }
{}

/// More than 2^60 streams, a range below 0, and an id that retires itself (sections 19.3, 19.11 and
/// 19.15).
#[tactic(auto, unfolding(crate::specs::Coming::came))]
pub fn malformed_frames_have_their_code()
    ensures count { closes_with ((0x12 ∷ 0xd0 ∷ replicate 6 0x00) ++ (0x01 ∷ [])) server_made ≡ Some 7 }
    ensures range { closes_with (0x02 ∷ 0x00 ∷ 0x00 ∷ 0x00 ∷ 0x01 ∷ []) server_made ≡ Some 7 }
    ensures id { closes_with (new_id 1 2) server_made ≡ Some 7 }
{}

/// A ninth id (section 5.1.1).
#[tactic(auto, unfolding(crate::specs::Coming::came))]
pub fn ninth_id_has_its_code()
    ensures { closes_with (new_id 8 0) server_made ≡ Some 9 }
{}

/// A number that was never given (section 13.1), what only servers send (sections 19.7 and 19.20),
/// and a request for no delay at all (QUIC Acknowledgement Frequency, section 4).
#[tactic(auto, unfolding(crate::specs::Coming::came))]
pub fn violations_have_their_code()
    ensures unsent { closes_with (0x02 ∷ 0x00 ∷ 0x00 ∷ 0x00 ∷ 0x00 ∷ []) server_made ≡ Some 10 }
    ensures token { closes_with (0x07 ∷ 0x01 ∷ 0x00 ∷ []) server_made ≡ Some 10 }
    ensures done { closes_with (0x1e ∷ []) server_made ≡ Some 10 }
    ensures delay { closes_with (0x40 ∷ 0xaf ∷ 0x00 ∷ 0x01 ∷ 0x00 ∷ 0x01 ∷ []) server_made ≡ Some 10 }
{}

/// Nine bytes where eight may come (section 4.1), and a message where none may (RFC 9221, section
/// 3).
#[tactic(auto, unfolding(crate::specs::Coming::came))]
pub fn settings_have_their_codes()
    ensures window { closes_with (0x0a ∷ 0x00 ∷ 0x09 ∷ replicate 9 0x61) narrow_server ≡ Some 3 }
    ensures message { closes_with (0x31 ∷ 0x01 ∷ 0x61 ∷ []) silent_server ≡ Some 10 }
{}
