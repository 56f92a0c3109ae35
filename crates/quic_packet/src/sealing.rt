//! Packets sealed and opened in place (RFC 9001, sections 5.3 and 5.4).
ghost use Rattle.std.specs.Prelude.{◌≡◌, ℕ, ◌+◌, ◌-◌, ◌%◌, ◌<◌, ◌≤◌, ◌^◌, List, ◌++◌, Option, Some, None, length, take, drop, slice_index, slice_range, vec_len, vec_capacity, OnOk, OnErr, IfOk, MatchResult};
ghost use Rattle.quic_packet.specs.Keys.{width_in};
ghost use Rattle.quic_packet.specs.Datagram.{protected, Opening, opened_plain, opened_packet};

use crate::crypto::{HeaderKey, NotOpened, PacketKey, TAG_LEN};
use crate::packet::PacketNumber;
use quic_wire_core::reserved::append_zeros;
use std::alloc::AllocError;

/// How many bytes the number has, by the shown first byte.
pub fn width_in(first: u8) -> usize
    ensures width { result ≡ width_in first }
    ensures some { 1 ≤ result }
    ensures four { result ≤ 4 }
{
    usize::from(first & 3) + 1
}

/// Seals a payload under a number, in place: the packet has room for the tag.
fn protect<H: HeaderKey, K: PacketKey>(
    packet: &mut [u8],
    number_at: usize,
    number: u64,
    header_key: &H,
    packet_key: &K,
)
    requires number { number < 2 ^ 62 }
    requires first { 1 ≤ number_at }
    requires room { number_at + 20 ≤ length packet.old }
    ensures { packet.new ≡ protected (H.protection header_key.now) (K.aead packet_key.now) number_at number (take (length packet.old - 16) packet.old) }
{
    let header = number_at + width_in(packet[0]);
    packet_key.encrypt(number, packet, header);
    header_key.encrypt(number_at, packet);
}

/// Seals the packet that stands behind the first bytes, in place.
fn protect_behind<H: HeaderKey, K: PacketKey>(
    bytes: &mut [u8],
    start: usize,
    number_at: usize,
    number: u64,
    header_key: &H,
    packet_key: &K,
)
    requires number { number < 2 ^ 62 }
    requires first { 1 ≤ number_at }
    requires room { start + number_at + 20 ≤ length bytes.old }
    ensures { bytes.new ≡ take start bytes.old ++ protected (H.protection header_key.now) (K.aead packet_key.now) number_at number (drop start (take (length bytes.old - 16) bytes.old)) }
{
    protect(
        &mut bytes[start..],
        number_at,
        number,
        header_key,
        packet_key,
    );
}

/// Seals the packet that stands in `out` from `start` on, and protects its header. Its number
/// starts `number_at` bytes behind `start`, and the number and the payload have four bytes or
/// more.
///
/// # Errors
///
/// - [`AllocError`]: `out` has no room for the tag's 16 bytes, and an allocation fails. Nothing
///   changes.
pub fn seal_packet<H: HeaderKey, K: PacketKey>(
    out: &mut Vec<u8>,
    start: usize,
    number_at: usize,
    number: u64,
    header_key: &H,
    packet_key: &K,
) -> Result<(), AllocError>
    requires number { number < 2 ^ 62 }
    requires first { 1 ≤ number_at }
    requires start { start + number_at + 4 ≤ vec_len out.old }
    ensures ok { OnOk result (out.new.items ≡ take start out.old.items ++ protected (H.protection header_key.now) (K.aead packet_key.now) number_at number (drop start out.old.items)) }
    ensures err { OnErr result (out.new.items ≡ out.old.items) }
    ensures full { OnErr result (vec_capacity out.old < vec_len out.old + 16) }
{
    out.reserve(TAG_LEN)?;
    seal_reserved(out, start, number_at, number, header_key, packet_key);
    Ok(())
}

/// `seal_packet`, where there is room for the tag's 16 bytes.
#[tactic(auto, using(crate::proofs::Places::sealed_behind))]
pub fn seal_reserved<H: HeaderKey, K: PacketKey>(
    out: &mut Vec<u8>,
    start: usize,
    number_at: usize,
    number: u64,
    header_key: &H,
    packet_key: &K,
)
    requires number { number < 2 ^ 62 }
    requires first { 1 ≤ number_at }
    requires start { start + number_at + 4 ≤ vec_len out.old }
    requires room { vec_len out.old + 16 ≤ vec_capacity out.old }
    ensures items { out.new.items ≡ take start out.old.items ++ protected (H.protection header_key.now) (K.aead packet_key.now) number_at number (drop start out.old.items) }
    ensures len { vec_len out.new ≡ vec_len out.old + 16 }
    ensures capacity { vec_capacity out.old ≤ vec_capacity out.new }
{
    append_zeros(out, TAG_LEN);
    protect_behind(out, start, number_at, number, header_key, packet_key);
}

/// A packet that opened: its shown first byte, its number, and where its payload stands in the
/// datagram.
#[derive(Clone, Copy, Debug, PartialEq, Eq)]
pub struct Opened {
    /// The first byte, shown.
    pub first: u8,
    /// The packet number, below 2^62.
    pub number: u64,
    /// Where the payload starts.
    pub start: usize,
    /// Where the payload ends.
    pub end: usize,
}

impl Opened {
    ghost use Rattle.quic_packet.specs.Header.{key_phase, reserved_bits};

    /// The key phase bit of the first byte (RFC 9001, 5.4.1).
    pub fn key_phase(&self) -> bool
        ensures { result ≡ key_phase self.now.first }
    {
        self.first >> 2 & 1 == 1
    }

    /// The two reserved bits of the first byte, as a number. A sender writes 0 (RFC 9000, 17.3.1).
    pub fn reserved_bits(&self) -> u8
        ensures { result ≡ reserved_bits self.now.first }
    {
        self.first >> 3 & 3
    }
}

/// Opens a packet whose header is shown.
fn open_plain<K: PacketKey>(
    packet: &mut [u8],
    number_at: usize,
    expected: u64,
    packet_key: &K,
) -> Result<Opened, NotOpened>
    requires expected { expected ≤ 2 ^ 62 }
    requires room { number_at + 20 ≤ length packet.old }
    ensures opened { MatchResult result
        (λ o. opened_plain (K.aead packet_key.now) number_at expected packet.old ≡ Some (record { first = o.first; number = o.number; payload = slice_range packet.new o.start o.end }))
        (λ _. opened_plain (K.aead packet_key.now) number_at expected packet.old ≡ None) }
    ensures number { IfOk result (λ o. o.number < 2 ^ 62) }
    ensures start { IfOk result (λ o. o.start ≤ o.end) }
    ensures end { IfOk result (λ o. o.end ≤ length packet.new) }
{
    let first = packet[0];
    let start = number_at + width_in(first);
    let number = PacketNumber::decode(&packet[number_at..start]).expand(expected);
    if number >= 1 << 62 {
        return Err(NotOpened);
    }
    let (header, payload) = packet.split_at_mut(start);
    let length = packet_key.decrypt(number, header, payload)?;
    Ok(Opened {
        first,
        number,
        start,
        end: start + length,
    })
}

/// Opens the packet that is the whole datagram, in place. Its number starts at `number_at` and
/// is expanded around `expected`.
///
/// # Errors
///
/// - [`NotOpened`]: the packet number would be 2^62 or more, or the payload doesn't open under it.
///   What then stands in the datagram is left open.
pub fn open_packet<H: HeaderKey, K: PacketKey>(
    datagram: &mut [u8],
    number_at: usize,
    expected: u64,
    header_key: &H,
    packet_key: &K,
) -> Result<Opened, NotOpened>
    requires expected { expected ≤ 2 ^ 62 }
    requires first { 1 ≤ number_at }
    requires room { number_at + 20 ≤ length datagram.old }
    ensures opened { MatchResult result
        (λ o. opened_packet (H.protection header_key.now) (K.aead packet_key.now) number_at expected datagram.old ≡ Some (record { first = o.first; number = o.number; payload = slice_range datagram.new o.start o.end }))
        (λ _. opened_packet (H.protection header_key.now) (K.aead packet_key.now) number_at expected datagram.old ≡ None) }
    ensures number { IfOk result (λ o. o.number < 2 ^ 62) }
    ensures start { IfOk result (λ o. o.start ≤ o.end) }
    ensures end { IfOk result (λ o. o.end ≤ length datagram.new) }
{
    header_key.decrypt(number_at, datagram);
    open_plain(datagram, number_at, expected, packet_key)
}
