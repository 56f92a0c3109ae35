//! What stands in the datagrams that an end gave out.
ghost use Rattle.std.specs.Prelude.{◌≡◌, ◌≤◌, ◌-◌, ◌^◌, ◌++◌, None, Some, IfOk, OnOk, IfSome, MatchOption, length, slice_get, slice_range, vec_len, string_bytes};
ghost use Rattle.quic_run_core.specs.Shown.{opening_at, behind_last, AreNumbers, parts_text, shown_text, number_of as number_in};
ghost use Rattle.quic_run_core.specs.Opened.{parts_in};

use quic_connection::Datagram;
use quic_keys::keys_for;
use quic_lines::put_bytes;
use quic_packet::{Opened, open_packet};
use quic_wire_core::Side;
use std::alloc::{AllocError, Global};

/// Where the number starts behind the first byte and an id of eight bytes.
const NUMBER_AT: usize = 9;

/// The least bytes of a datagram that can be opened: a header, a sample and what lies between them.
const LEAST: usize = NUMBER_AT + 20;

/// A datagram that was opened.
#[derive(Drop)]
struct Shown {
    number: u64,
    payload: Vec<u8>,
}

/// Opens a datagram of this end in place, as the other end would.
fn open_in_place(side: Side, datagram: &mut [u8], expected: u64) -> Option<Opened>
    requires { expected ≤ 2 ^ 62 }
    ensures opened { MatchOption result
        (opening_at side expected datagram.old ≡ None)
        (λ o. opening_at side expected datagram.old ≡ Some (o.number, slice_range datagram.new o.start o.end)) }
    ensures start { IfSome result (λ o. o.start ≤ o.end) }
    ensures end { IfSome result (λ o. o.end ≤ length datagram.new) }
{
    if datagram.len() < LEAST {
        return None;
    }
    let keys = keys_for(!side);
    let header_key = &keys.header.remote;
    match open_packet(
        datagram,
        NUMBER_AT,
        expected,
        header_key,
        &keys.packet.remote,
    ) {
        Ok(packet) => Some(packet),
        Err(_) => None,
    }
}

/// Opens a datagram of this end as the other end would.
fn opened(
    alloc: Global,
    side: Side,
    datagram: &Datagram,
    expected: u64,
) -> Result<Option<Shown>, AllocError>
    requires { expected ≤ 2 ^ 62 }
    ensures { IfOk result (λ shown. parts_in shown ≡ opening_at side expected datagram.now) }
{
    let mut copy = Vec::from_slice(alloc, datagram.as_slice())?;
    match open_in_place(side, &mut copy, expected) {
        None => Ok(None),
        Some(packet) => Ok(Some(Shown {
            number: packet.number,
            payload: Vec::from_slice(alloc, &copy[packet.start..packet.end])?,
        })),
    }
}

/// The number of a datagram: the one that was expected where it doesn't open.
fn number_of(shown: Option<Shown>, expected: u64) -> u64
    ensures { result ≡ number_in expected (parts_in shown) }
{
    match shown {
        Some(shown) => shown.number,
        None => expected,
    }
}

/// The number expected behind these: one above the last, or 0.
fn expected_behind(numbers: &[u64]) -> u64
    ensures value { result ≡ behind_last 0 (slice_get numbers.now (length numbers.now - 1)) }
    ensures bound { result ≤ 2 ^ 62 }
{
    match numbers.last() {
        None => 0,
        Some(last) => last.saturating_add(1).min(1 << 62),
    }
}

/// Learns the numbers of the first `count` datagrams of this end, of which some may be known.
fn learn(
    alloc: Global,
    side: Side,
    given: &[Datagram],
    count: usize,
    numbers: &mut Vec<u64>,
) -> Result<(), AllocError>
    requires count { count ≤ length given.now }
    requires known { AreNumbers side given.now numbers.old.items }
    ensures known { AreNumbers side given.now numbers.new.items }
    ensures learnt { OnOk result (count ≤ vec_len numbers.new) }
{
    while numbers.len() < count {
        let expected = expected_behind(numbers.as_slice());
        let shown = opened(alloc, side, &given[numbers.len()], expected)?;
        numbers.push(number_of(shown, expected))?;
    }
    Ok(())
}

/// Appends the number and the payload of the datagram of this index. `numbers` are those of the
/// end's first datagrams, as far as they were looked at.
pub(crate) fn put_datagram(
    alloc: Global,
    side: Side,
    given: &[Datagram],
    index: usize,
    numbers: &mut Vec<u64>,
    out: &mut String,
) -> Result<(), AllocError>
    requires { AreNumbers side given.now numbers.old.items }
    ensures known { AreNumbers side given.now numbers.new.items }
    ensures text { OnOk result (string_bytes out.new ≡ string_bytes out.old ++ shown_text side given.now index) }
{
    let Some(datagram) = given.get(index) else {
        return out.push_str("nodatagram");
    };
    learn(alloc, side, given, index, numbers)?;
    let expected = expected_behind(&numbers[..index]);
    let shown = opened(alloc, side, datagram, expected)?;
    put_shown(alloc, &shown, out)
}

/// Appends the number and the payload of a datagram, if it opened.
fn put_shown(alloc: Global, shown: &Option<Shown>, out: &mut String) -> Result<(), AllocError>
    ensures { OnOk result (string_bytes out.new ≡ string_bytes out.old ++ parts_text (parts_in shown.now)) }
{
    match shown {
        None => out.push_str("nodatagram"),
        Some(shown) => {
            let number = shown.number;
            write!(out, "{number} ")?;
            put_bytes(alloc, out, &shown.payload)
        }
    }
}
