//! Keys that protect headers and seal payloads (RFC 9001, sections 5.3 and 5.4). Every call works
//! in place and takes no memory.
ghost use Rattle.std.specs.Prelude.{◌≡◌, ℕ, ◌+◌, ◌-◌, ◌/◌, ◌<◌, ◌≤◌, ◌^◌, List, ◌++◌, Some, None, length, take, drop, MatchResult};
ghost use Rattle.quic_packet.specs.Keys.{Protection, Aead, KeepsForm, KeepsLength, AddsTag, OpensNoMore, shielded, unshielded};

use thiserror::Error;

/// How many bytes sealing adds to a payload (RFC 9001, 5.3).
pub const TAG_LEN: usize = 16;

/// How many bytes of a packet a header key samples (RFC 9001, 5.4.2).
pub const SAMPLE_SIZE: usize = 16;

/// A packet was not sealed by the key's mate under this number and header (RFC 9001, 5.3).
#[derive(Clone, Copy, Debug, PartialEq, Eq, Error)]
#[error("the packet does not open")]
pub struct NotOpened;

/// The key for what this end sends and the key for what it receives, as in quinn-proto.
#[derive(Drop)]
pub struct KeyPair<T> {
    /// For packets that this end sends.
    pub local: T,
    /// For packets that the other end sends.
    pub remote: T,
}

/// The keys of one end, as in quinn-proto.
#[derive(Drop)]
pub struct Keys<H, K> {
    /// The keys that protect headers.
    pub header: KeyPair<H>,
    /// The keys that seal payloads.
    pub packet: KeyPair<K>,
}

/// A key that hides a packet's number and the low five bits of its first byte (RFC 9001, 5.4),
/// as in quinn-proto.
pub trait HeaderKey {
    // What the key does by a sample to the first byte and to the number's bytes.
    ghost protection: { Self → Protection };

    /// Hides the first byte and the number of the packet, whose number starts at `number_at`.
    fn encrypt(&self, number_at: usize, packet: &mut [u8])
        requires first { 1 ≤ number_at }
        requires room { number_at + 20 ≤ length packet.old }
        ensures { packet.new ≡ shielded (protection self.now) number_at packet.old };

    /// Shows the first byte and the number of the packet, whose number starts at `number_at`.
    fn decrypt(&self, number_at: usize, packet: &mut [u8])
        requires first { 1 ≤ number_at }
        requires room { number_at + 20 ≤ length packet.old }
        ensures { packet.new ≡ unshielded (protection self.now) number_at packet.old };

    /// How many bytes the key samples: 16.
    fn sample_size(&self) -> usize
        ensures { result ≡ 16 }
    {
        SAMPLE_SIZE
    }

    // Hiding and showing keep the first byte's top three bits and how many bytes the number has.
    ghost keeps_form: { (k : Self) → KeepsForm ((protection k).mask) };

    ghost keeps_length: { (k : Self) → KeepsLength ((protection k).hide) };

    ghost shows_form: { (k : Self) → KeepsForm ((protection k).unmask) };

    ghost shows_length: { (k : Self) → KeepsLength ((protection k).reveal) };
}

/// A key that seals payloads, or opens them (RFC 9001, 5.3), as in quinn-proto.
pub trait PacketKey {
    // What sealing under a number and a header makes of a payload, and the payload that bytes open
    // to.
    ghost aead: { Self → Aead };

    // How many packets the key may seal, and how many it may fail to open.
    ghost seal_limit: { Self → ℕ };

    ghost refusal_limit: { Self → ℕ };

    /// Seals the payload of `packet`, which is `header` bytes of header, the payload and 16
    /// bytes of room for the tag.
    fn encrypt(&self, number: u64, packet: &mut [u8], header: usize)
        requires number { number < 2 ^ 62 }
        requires room { header + 16 ≤ length packet.old }
        ensures { packet.new ≡ take header packet.old ++ (aead self.now).seal number (take header packet.old) (take (length packet.old - header - 16) (drop header packet.old)) };

    /// Opens the bytes of `payload`: how many bytes the opened payload has, which then
    /// stands at the front.
    ///
    /// # Errors
    ///
    /// - [`NotOpened`]: the bytes do not open under this number and header. What then stands in
    ///   `payload` is left open.
    fn decrypt(&self, number: u64, header: &[u8], payload: &mut [u8]) -> Result<usize, NotOpened>
        requires { number < 2 ^ 62 }
        ensures { MatchResult result
            (λ n. (n ≤ length payload.new) × ((aead self.now).unseal number header.now payload.old ≡ Some (take n payload.new)))
            (λ _. (aead self.now).unseal number header.now payload.old ≡ None) };

    /// How many bytes sealing adds: 16.
    fn tag_len(&self) -> usize
        ensures { result ≡ 16 }
    {
        TAG_LEN
    }

    /// How many packets may be sealed before the key is used up (RFC 9001, 6.6).
    fn confidentiality_limit(&self) -> u64
        ensures { result ≡ seal_limit self.now };

    /// How many packets may fail to open before the key is used up (RFC 9001, 6.6).
    fn integrity_limit(&self) -> u64
        ensures { result ≡ refusal_limit self.now };

    // Sealing adds the tag.
    ghost adds_tag: { (k : Self) → AddsTag ((aead k).seal) };

    // Opening gives no more bytes than there were.
    ghost opens_no_more: { (k : Self) → OpensNoMore ((aead k).unseal) };
}
