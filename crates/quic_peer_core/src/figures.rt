//! What is told of an end in figures.
ghost use Rattle.std.specs.Prelude.{◌≡◌, ◌++◌, IfOk, OnOk, string_bytes};
ghost use Rattle.quic_peer_core.specs.Printed.{window_line, udp_text, rtt_text, losses_text, probes_text, headers_text, packets_text, states_text, drops_text, stats_line};
ghost use Rattle.quic_peer_core.specs.Peer.{Counts};

use crate::end::End;
use quic_stats::{ConnectionStats, DropStats, PathStats};
use std::alloc::{AllocError, Global};

/// The line that tells how many bytes may be in flight.
pub(crate) fn tell_window(alloc: Global, end: &End) -> Result<String, AllocError>
    ensures { IfOk result (λ text. string_bytes text ≡ window_line end.now.control.window) }
{
    let bytes = end.window();
    format!(in alloc; "window {bytes}\n")
}

/// The line that tells what was counted of an end.
pub(crate) fn tell_stats(alloc: Global, end: &End) -> Result<String, AllocError>
    ensures { IfOk result (λ text. Counts end.now (string_bytes text)) }
{
    figures_line(alloc, &end.stats())
}

/// The line that tells these figures.
fn figures_line(alloc: Global, stats: &ConnectionStats) -> Result<String, AllocError>
    ensures { IfOk result (λ text. string_bytes text ≡ stats_line stats.now) }
{
    let mut out = String::from_str(alloc, "stats")?;
    put_udp(&mut out, stats)?;
    put_rtt(&mut out, &stats.path)?;
    put_losses(&mut out, &stats.path)?;
    put_probes(&mut out, &stats.path)?;
    put_drops(&mut out, &stats.dropped)?;
    out.push_str("\n")?;
    Ok(out)
}

/// Appends how many datagrams were sent and came, and their bytes.
fn put_udp(out: &mut String, stats: &ConnectionStats) -> Result<(), AllocError>
    ensures { OnOk result (string_bytes out.new ≡ string_bytes out.old ++ udp_text stats.now) }
{
    let sent = stats.udp_tx.datagrams;
    let sent_bytes = stats.udp_tx.bytes;
    let came = stats.udp_rx.datagrams;
    let came_bytes = stats.udp_rx.bytes;
    write!(out, " udp_tx_datagrams {sent} udp_tx_bytes {sent_bytes}")?;
    write!(out, " udp_rx_datagrams {came} udp_rx_bytes {came_bytes}")
}

/// Appends what is estimated of the path, and what it carries.
fn put_rtt(out: &mut String, path: &PathStats) -> Result<(), AllocError>
    ensures { OnOk result (string_bytes out.new ≡ string_bytes out.old ++ rtt_text path.now) }
{
    let rtt = path.rtt.as_nanos();
    let min_rtt = path.min_rtt.as_nanos();
    let cwnd = path.cwnd;
    let current_mtu = path.current_mtu;
    write!(out, " rtt {rtt} min_rtt {min_rtt}")?;
    write!(out, " cwnd {cwnd} current_mtu {current_mtu}")
}

/// Appends how many packets were sent and lost, the bytes of those that were lost, and how often
/// the congestion controller was told of congestion.
fn put_losses(out: &mut String, path: &PathStats) -> Result<(), AllocError>
    ensures { OnOk result (string_bytes out.new ≡ string_bytes out.old ++ losses_text path.now) }
{
    let sent = path.sent_packets;
    let lost = path.lost_packets;
    let bytes = path.lost_bytes;
    let events = path.congestion_events;
    write!(out, " sent_packets {sent} lost_packets {lost}")?;
    write!(out, " lost_bytes {bytes} congestion_events {events}")
}

/// Appends how many MTU probes were sent and lost, and how many black holes were found.
fn put_probes(out: &mut String, path: &PathStats) -> Result<(), AllocError>
    ensures { OnOk result (string_bytes out.new ≡ string_bytes out.old ++ probes_text path.now) }
{
    let sent = path.sent_plpmtud_probes;
    let lost = path.lost_plpmtud_probes;
    let holes = path.black_holes_detected;
    write!(
        out,
        " sent_plpmtud_probes {sent} lost_plpmtud_probes {lost}"
    )?;
    write!(out, " black_holes_detected {holes}")
}

/// Appends how many datagrams were dropped, by reason.
fn put_drops(out: &mut String, drops: &DropStats) -> Result<(), AllocError>
    ensures { OnOk result (string_bytes out.new ≡ string_bytes out.old ++ drops_text drops.now) }
{
    put_headers(out, drops)?;
    put_packets(out, drops)?;
    put_states(out, drops)
}

/// Appends how many were dropped whose header can't be read, or names no connection ID.
fn put_headers(out: &mut String, drops: &DropStats) -> Result<(), AllocError>
    ensures { OnOk result (string_bytes out.new ≡ string_bytes out.old ++ headers_text drops.now) }
{
    let short = drops.too_short;
    let long = drops.not_short;
    let fixed = drops.fixed_bit;
    let unknown = drops.unknown_id;
    write!(out, " dropped_too_short {short} dropped_not_short {long}")?;
    write!(
        out,
        " dropped_fixed_bit {fixed} dropped_unknown_id {unknown}"
    )
}

/// Appends how many were dropped for their packet.
fn put_packets(out: &mut String, drops: &DropStats) -> Result<(), AllocError>
    ensures { OnOk result (string_bytes out.new ≡ string_bytes out.old ++ packets_text drops.now) }
{
    let refused = drops.not_opened;
    let phase = drops.key_phase;
    let again = drops.duplicate;
    write!(
        out,
        " dropped_not_opened {refused} dropped_key_phase {phase}"
    )?;
    write!(out, " dropped_duplicate {again}")
}

/// Appends how many were dropped for the state of the endpoint.
fn put_states(out: &mut String, drops: &DropStats) -> Result<(), AllocError>
    ensures { OnOk result (string_bytes out.new ≡ string_bytes out.old ++ states_text drops.now) }
{
    let closing = drops.closing;
    let drained = drops.drained;
    let failed = drops.failed;
    write!(
        out,
        " dropped_closing {closing} dropped_drained {drained} dropped_failed {failed}"
    )
}
