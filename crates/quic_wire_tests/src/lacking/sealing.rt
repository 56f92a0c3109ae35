//! Packets sealed, under keys that hide nothing.
ghost use Rattle.std.specs.Prelude.{◌++◌, None, refl, replicate};
ghost use Rattle.std.proofs.lemmas.List.{length-append};

use quic_wire::crypto::{HeaderKey, NotOpened, PacketKey};
use quic_wire::seal_packet;

/// A key that hides nothing of a header, and seals with zeros alone.
struct Clear;

impl HeaderKey for Clear {
    ghost protection = { λ _. record {
      mask = λ _ first. first;
      hide = λ _ bytes. bytes;
      unmask = λ _ first. first;
      reveal = λ _ bytes. bytes;
    } };

    #[tactic(auto, using(crate::proofs::Clear::as_it_was))]
    fn encrypt(&self, _number_at: usize, _packet: &mut [u8]) {}

    #[tactic(auto, using(crate::proofs::Clear::as_it_was))]
    fn decrypt(&self, _number_at: usize, _packet: &mut [u8]) {}

    ghost keeps_form = { λ _ _ _. refl };

    ghost keeps_length = { λ _ _ _. refl };

    ghost shows_form = { λ _ _ _. refl };

    ghost shows_length = { λ _ _ _. refl };
}

impl PacketKey for Clear {
    ghost aead = { λ _. record {
      seal = λ _ _ payload. payload ++ replicate 16 0;
      unseal = λ _ _ _. None;
    } };

    ghost seal_limit = { λ _. 0 };

    ghost refusal_limit = { λ _. 0 };

    #[tactic(auto, using(crate::proofs::Clear::tagged))]
    fn encrypt(&self, _number: u64, packet: &mut [u8], _header: usize) {
        let end = packet.len() - 16;
        packet[end..].copy_from_slice(&[0; 16]);
    }

    fn decrypt(
        &self,
        _number: u64,
        _header: &[u8],
        _payload: &mut [u8],
    ) -> Result<usize, NotOpened> {
        Err(NotOpened)
    }

    fn confidentiality_limit(&self) -> u64 {
        0
    }

    fn integrity_limit(&self) -> u64 {
        0
    }

    ghost adds_tag = { λ _ _ _ payload. length-append payload (replicate 16 0) };

    ghost opens_no_more = { λ _ _ _ _ _ opened. cc };
}

/// What stands before the packet, its header and its number of four bytes.
const BYTES: [u8; 7] = [9, 0x40, 5, 0x01, 0x00, 0x00, 0x00];

/// The same, and a tag of zeros.
const SEALED: [u8; 23] = [
    9, 0x40, 5, 0x01, 0x00, 0x00, 0x00, 0, 0, 0, 0, 0, 0, 0, 0, 0, 0, 0, 0, 0, 0, 0, 0,
];

#[test]
fn a_packet_is_sealed(rt: HostRuntime) {
    let mut out = Vec::new(rt.alloc());
    if out.extend_from_slice(&BYTES).is_err() {
        out.extend_from_slice(&BYTES).expect(&rt, "memory");
    }
    if seal_packet(&mut out, 1, 1, 5, &Clear, &Clear).is_err() {
        seal_packet(&mut out, 1, 1, 5, &Clear, &Clear).expect(&rt, "memory");
    }
    assert!(rt; out.as_slice() == SEALED.as_slice());
}
