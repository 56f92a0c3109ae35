//! Which numbers the constants of this crate are. The function does nothing: its contract is the
//! law.
ghost use Rattle.std.specs.Prelude.{◌≡◌};
ghost use Rattle.quic_config.specs.Configs.{max_udp_payload, ids_kept};

use crate::mtu_discovery::MAX_UDP_PAYLOAD;
use crate::transport::IDS_KEPT;

/// The greatest UDP payload (RFC 9000, section 18.2, max_udp_payload_size), and how many ids of its
/// peer an end keeps: our choice, of at least two (section 18.2, active_connection_id_limit).
pub fn constants_are_these()
    ensures payload { MAX_UDP_PAYLOAD ≡ max_udp_payload }
    ensures ids { IDS_KEPT ≡ ids_kept }
{}
