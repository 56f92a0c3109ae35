//! Keys that protect nothing: payloads stay clear, and the tag shows the number and a mark. Keys
//! that do protect have AES or ChaCha20 here, and the secrets of a handshake (RFC 9001, section 5).
ghost use Rattle.std.specs.Prelude.{◌≡◌, ℕ, ◌+◌, ◌-◌, ◌<◌, ◌≤◌, ◌^◌, List, length, take, drop, slice_index};
ghost use Rattle.quic_packet.specs.Keys.{with_header, sample, AreMates};
ghost use Rattle.quic_wire_core.specs.StreamId.{other_side};
ghost use Rattle.quic_wire_core.specs.declared.stream_id.Side.{Side};
ghost use Rattle.quic_keys.specs.Plain.{xored, mask_first, mask_number, plain_protection, plain_aead};
ghost use Rattle.quic_keys.specs.KeysOf.{key_with, keys_of, keys_with};
ghost use Rattle.quic_keys.specs.PlainLaw.{first_form, number_length, adds_tag, opens_no_more};

use quic_packet::crypto::{HeaderKey, KeyPair, Keys, NotOpened, PacketKey};
use quic_packet::width_in;
use quic_wire_core::Side;

/// A header key whose mask is the sample itself.
#[derive(Clone, Copy, Debug, PartialEq, Eq)]
pub struct PlainHeaderKey;

/// A packet key whose tag is the number in eight bytes, big-endian, and a mark eight times.
#[derive(Clone, Copy, Debug, PartialEq, Eq)]
pub struct PlainKey {
    /// The byte that tells one endpoint's packets from the other's.
    pub mark: u8,
    /// How many packets the key may seal.
    pub confidentiality_limit: u64,
    /// How many packets the key may fail to open.
    pub integrity_limit: u64,
}

/// Masks bytes.
#[tactic(auto, using(crate::proofs::InPlace::xored_more, crate::proofs::InPlace::xored_done))]
fn xor_into(bytes: &mut [u8], mask: &[u8])
    requires { length bytes.old ≤ length mask.now }
    ensures { bytes.new ≡ xored bytes.old mask.now }
{
    for i in 0..bytes.len() {
        bytes[i] ^= mask[i];
    }
}

/// Gives a packet another first byte, and masks its number by the sample.
#[tactic(auto, using(crate::proofs::InPlace::rewritten))]
fn rewrite(packet: &mut [u8], number_at: usize, first: u8, width: usize)
    requires first { 1 ≤ number_at }
    requires width { width ≤ 4 }
    requires room { number_at + 20 ≤ length packet.old }
    ensures { packet.new ≡ with_header number_at packet.old first (mask_number (sample number_at packet.old) (take width (drop number_at packet.old))) }
{
    let mut sample = [0u8; 16];
    sample.copy_from_slice(&packet[number_at + 4..number_at + 20]);
    packet[0] = first;
    xor_into(&mut packet[number_at..number_at + width], &sample[1..]);
}

/// What the sample makes of the first byte.
#[tactic(auto, using(crate::proofs::InPlace::sample_first))]
fn masked_first(packet: &[u8], number_at: usize) -> u8
    requires { number_at + 20 ≤ length packet.now }
    ensures { result ≡ mask_first (sample number_at packet.now) (slice_index packet.now 0) }
{
    packet[0] ^ packet[number_at + 4] & 31
}

impl HeaderKey for PlainHeaderKey {
    ghost protection = { λ _. plain_protection };

    fn encrypt(&self, number_at: usize, packet: &mut [u8]) {
        let width = width_in(packet[0]);
        let first = masked_first(packet, number_at);
        rewrite(packet, number_at, first, width);
    }

    fn decrypt(&self, number_at: usize, packet: &mut [u8]) {
        let first = masked_first(packet, number_at);
        rewrite(packet, number_at, first, width_in(first));
    }

    ghost keeps_form = { λ _. first_form };

    ghost keeps_length = { λ _. number_length };

    ghost shows_form = { λ _. first_form };

    ghost shows_length = { λ _. number_length };
}

impl PacketKey for PlainKey {
    ghost aead = { λ k. plain_aead k.mark };

    ghost seal_limit = { λ k. k.confidentiality_limit };

    ghost refusal_limit = { λ k. k.integrity_limit };

    #[tactic(auto, using(crate::proofs::InPlace::tagged))]
    fn encrypt(&self, number: u64, packet: &mut [u8], header: usize) {
        let end = packet.len() - 16;
        let [a, b, c, d, e, f, g, h] = number.to_be_bytes();
        let m = self.mark;
        packet[end..].copy_from_slice(&[a, b, c, d, e, f, g, h, m, m, m, m, m, m, m, m]);
    }

    fn decrypt(&self, number: u64, header: &[u8], payload: &mut [u8]) -> Result<usize, NotOpened> {
        if payload.len() < 16 {
            return Err(NotOpened);
        }
        let length = payload.len() - 16;
        let [a, b, c, d, e, f, g, h] = number.to_be_bytes();
        let m = self.mark;
        if payload[length..] == [a, b, c, d, e, f, g, h, m, m, m, m, m, m, m, m] {
            Ok(length)
        } else {
            Err(NotOpened)
        }
    }

    fn confidentiality_limit(&self) -> u64 {
        self.confidentiality_limit
    }

    fn integrity_limit(&self) -> u64 {
        self.integrity_limit
    }

    ghost adds_tag = { λ k. adds_tag k.mark };

    ghost opens_no_more = { λ k. opens_no_more k.mark };
}

/// How many packets a key may seal, and how many it may fail to open, unless it is given another
/// limit.
pub const KEY_LIMIT: u64 = 1 << 23;

/// The packet key of one endpoint, with these limits: its mark is the letter `c` or `s`.
fn key_of(side: Side, confidentiality_limit: u64, integrity_limit: u64) -> PlainKey
    ensures { result ≡ key_with confidentiality_limit integrity_limit side }
{
    PlainKey {
        mark: match side {
            Side::Client => b'c',
            Side::Server => b's',
        },
        confidentiality_limit,
        integrity_limit,
    }
}

/// The keys of one endpoint, with [`KEY_LIMIT`] for both limits: it seals with its own, and opens
/// what the other endpoint sealed.
pub fn keys_for(side: Side) -> Keys<PlainHeaderKey, PlainKey>
    ensures { result ≡ keys_of side }
{
    keys_within(side, KEY_LIMIT, KEY_LIMIT)
}

/// The keys of one endpoint, of which each seals at most so many packets, and may fail to open so
/// many.
pub fn keys_within(
    side: Side,
    confidentiality_limit: u64,
    integrity_limit: u64,
) -> Keys<PlainHeaderKey, PlainKey>
    ensures { result ≡ keys_with confidentiality_limit integrity_limit side }
{
    Keys {
        header: KeyPair {
            local: PlainHeaderKey,
            remote: PlainHeaderKey,
        },
        packet: KeyPair {
            local: key_of(side, confidentiality_limit, integrity_limit),
            remote: key_of(!side, confidentiality_limit, integrity_limit),
        },
    }
}

/// What either endpoint seals with is the mate of what the other opens with: a law, which does
/// nothing.
pub fn keys_are_mates()
    ensures { (side : Side) → AreMates plain_protection (plain_aead (keys_of side).packet.local.mark) plain_protection (plain_aead (keys_of (other_side side)).packet.remote.mark) }
{}
