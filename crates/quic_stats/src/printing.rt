//! How statistics print.
//!
//! Each figure is a line of its own, which ends in a newline: its name as that of the field, a
//! space, and the figure. Of a whole connection the name of the part stands before it, as
//! `udp_tx.bytes 1200`. Times have a unit, as `path.rtt 40ms`.
ghost use Rattle.std.specs.Prelude.{Some, []};
ghost use Rattle.std.specs.Fmt.{DisplaysOnOk};
ghost use Rattle.quic_stats.specs.Printing.{figure_text, length_text, udp_text, headers_text, packets_text, states_text, drops_text};

use crate::connection::ConnectionStats;
use crate::drops::DropStats;
use crate::frames::FrameStats;
use crate::path::PathStats;
use crate::udp::UdpStats;
use quic_time::Duration;
use std::fmt::{self, Display, Formatter};

// A line for a figure.
fn write_figure<W: fmt::Write>(
    f: &mut Formatter<W>,
    part: &str,
    name: &str,
    figure: u64,
) -> fmt::Result
    ensures { DisplaysOnOk W.write_str_gives f.old result (Some (figure_text part.now name.now figure)) f.new }
{
    write!(f, "{part}{name} {figure}\n")
}

// A line for a length of time.
fn write_length<W: fmt::Write>(
    f: &mut Formatter<W>,
    part: &str,
    name: &str,
    length: Duration,
) -> fmt::Result
    ensures { DisplaysOnOk W.write_str_gives f.old result (Some (length_text part.now name.now length)) f.new }
{
    write!(f, "{part}{name} {length}\n")
}

// The lines of datagrams.
fn write_udp<W: fmt::Write>(f: &mut Formatter<W>, part: &str, s: &UdpStats) -> fmt::Result
    ensures { DisplaysOnOk W.write_str_gives f.old result (Some (udp_text part.now s.now)) f.new }
{
    write_figure(f, part, "datagrams", s.datagrams)?;
    write_figure(f, part, "bytes", s.bytes)?;
    write_figure(f, part, "ios", s.ios)
}

// The first six lines of frames.
fn write_first_frames<W: fmt::Write>(
    f: &mut Formatter<W>,
    part: &str,
    s: &FrameStats,
) -> fmt::Result {
    write_figure(f, part, "acks", s.acks)?;
    write_figure(f, part, "ack_frequency", s.ack_frequency)?;
    write_figure(f, part, "crypto", s.crypto)?;
    write_figure(f, part, "connection_close", s.connection_close)?;
    write_figure(f, part, "data_blocked", s.data_blocked)?;
    write_figure(f, part, "datagram", s.datagram)
}

// The second six lines of frames.
fn write_second_frames<W: fmt::Write>(
    f: &mut Formatter<W>,
    part: &str,
    s: &FrameStats,
) -> fmt::Result {
    write_figure(f, part, "handshake_done", u64::from(s.handshake_done))?;
    write_figure(f, part, "immediate_ack", s.immediate_ack)?;
    write_figure(f, part, "max_data", s.max_data)?;
    write_figure(f, part, "max_stream_data", s.max_stream_data)?;
    write_figure(f, part, "max_streams_bidi", s.max_streams_bidi)?;
    write_figure(f, part, "max_streams_uni", s.max_streams_uni)
}

// The third six lines of frames.
fn write_third_frames<W: fmt::Write>(
    f: &mut Formatter<W>,
    part: &str,
    s: &FrameStats,
) -> fmt::Result {
    write_figure(f, part, "new_connection_id", s.new_connection_id)?;
    write_figure(f, part, "new_token", s.new_token)?;
    write_figure(f, part, "path_challenge", s.path_challenge)?;
    write_figure(f, part, "path_response", s.path_response)?;
    write_figure(f, part, "ping", s.ping)?;
    write_figure(f, part, "reset_stream", s.reset_stream)
}

// The fourth six lines of frames.
fn write_fourth_frames<W: fmt::Write>(
    f: &mut Formatter<W>,
    part: &str,
    s: &FrameStats,
) -> fmt::Result {
    write_figure(f, part, "retire_connection_id", s.retire_connection_id)?;
    write_figure(f, part, "stream_data_blocked", s.stream_data_blocked)?;
    write_figure(f, part, "streams_blocked_bidi", s.streams_blocked_bidi)?;
    write_figure(f, part, "streams_blocked_uni", s.streams_blocked_uni)?;
    write_figure(f, part, "stop_sending", s.stop_sending)?;
    write_figure(f, part, "stream", s.stream)
}

// The lines of frames.
fn write_frames<W: fmt::Write>(f: &mut Formatter<W>, part: &str, s: &FrameStats) -> fmt::Result {
    write_first_frames(f, part, s)?;
    write_second_frames(f, part, s)?;
    write_third_frames(f, part, s)?;
    write_fourth_frames(f, part, s)
}

// The lines of the times and the window of a path.
fn write_times<W: fmt::Write>(f: &mut Formatter<W>, part: &str, s: &PathStats) -> fmt::Result {
    write_length(f, part, "rtt", s.rtt)?;
    write_length(f, part, "min_rtt", s.min_rtt)?;
    write_figure(f, part, "cwnd", s.cwnd)
}

// The lines of what was sent and lost on a path.
fn write_losses<W: fmt::Write>(f: &mut Formatter<W>, part: &str, s: &PathStats) -> fmt::Result {
    write_figure(f, part, "congestion_events", s.congestion_events)?;
    write_figure(f, part, "lost_packets", s.lost_packets)?;
    write_figure(f, part, "lost_bytes", s.lost_bytes)?;
    write_figure(f, part, "sent_packets", s.sent_packets)
}

// The lines of the search for the MTU of a path.
fn write_mtu<W: fmt::Write>(f: &mut Formatter<W>, part: &str, s: &PathStats) -> fmt::Result {
    write_figure(f, part, "sent_plpmtud_probes", s.sent_plpmtud_probes)?;
    write_figure(f, part, "lost_plpmtud_probes", s.lost_plpmtud_probes)?;
    write_figure(f, part, "black_holes_detected", s.black_holes_detected)?;
    write_figure(f, part, "current_mtu", u64::from(s.current_mtu))
}

// The lines of a path.
fn write_path<W: fmt::Write>(f: &mut Formatter<W>, part: &str, s: &PathStats) -> fmt::Result {
    write_times(f, part, s)?;
    write_losses(f, part, s)?;
    write_mtu(f, part, s)
}

// The lines of datagrams whose header can't be read, or names no connection ID.
fn write_headers<W: fmt::Write>(f: &mut Formatter<W>, part: &str, s: &DropStats) -> fmt::Result
    ensures { DisplaysOnOk W.write_str_gives f.old result (Some (headers_text part.now s.now)) f.new }
{
    write_figure(f, part, "too_short", s.too_short)?;
    write_figure(f, part, "not_short", s.not_short)?;
    write_figure(f, part, "fixed_bit", s.fixed_bit)?;
    write_figure(f, part, "unknown_id", s.unknown_id)
}

// The lines of datagrams that were dropped for their packet.
fn write_packets<W: fmt::Write>(f: &mut Formatter<W>, part: &str, s: &DropStats) -> fmt::Result
    ensures { DisplaysOnOk W.write_str_gives f.old result (Some (packets_text part.now s.now)) f.new }
{
    write_figure(f, part, "not_opened", s.not_opened)?;
    write_figure(f, part, "key_phase", s.key_phase)?;
    write_figure(f, part, "duplicate", s.duplicate)
}

// The lines of datagrams that were dropped for the state of the endpoint.
fn write_states<W: fmt::Write>(f: &mut Formatter<W>, part: &str, s: &DropStats) -> fmt::Result
    ensures { DisplaysOnOk W.write_str_gives f.old result (Some (states_text part.now s.now)) f.new }
{
    write_figure(f, part, "closing", s.closing)?;
    write_figure(f, part, "drained", s.drained)?;
    write_figure(f, part, "failed", s.failed)
}

// The lines of datagrams that were dropped.
fn write_drops<W: fmt::Write>(f: &mut Formatter<W>, part: &str, s: &DropStats) -> fmt::Result
    ensures { DisplaysOnOk W.write_str_gives f.old result (Some (drops_text part.now s.now)) f.new }
{
    write_headers(f, part, s)?;
    write_packets(f, part, s)?;
    write_states(f, part, s)
}

/// A line for each of the three counts, as `bytes 1200`.
impl Display for UdpStats {
    ghost output = { λ s. Some (udp_text [] s) };

    fn fmt<W: fmt::Write>(&self, f: &mut Formatter<W>) -> fmt::Result {
        write_udp(f, "", self)
    }
}

/// A line for each reason, as `duplicate 2`.
impl Display for DropStats {
    ghost output = { λ s. Some (drops_text [] s) };

    fn fmt<W: fmt::Write>(&self, f: &mut Formatter<W>) -> fmt::Result {
        write_drops(f, "", self)
    }
}

/// A line for each count, as `max_data 2`.
impl Display for FrameStats {
    fn fmt<W: fmt::Write>(&self, f: &mut Formatter<W>) -> fmt::Result {
        write_frames(f, "", self)
    }
}

/// A line for each figure, as `cwnd 12000`; times have a unit, as `rtt 40ms`.
impl Display for PathStats {
    fn fmt<W: fmt::Write>(&self, f: &mut Formatter<W>) -> fmt::Result {
        write_path(f, "", self)
    }
}

/// A line for each figure of each part, as `udp_tx.bytes 1200`, `frame_rx.stream 3`,
/// `path.rtt 40ms` or `dropped.duplicate 2`; the last ends in a newline too.
impl Display for ConnectionStats {
    fn fmt<W: fmt::Write>(&self, f: &mut Formatter<W>) -> fmt::Result {
        write_udp(f, "udp_tx.", &self.udp_tx)?;
        write_udp(f, "udp_rx.", &self.udp_rx)?;
        write_frames(f, "frame_tx.", &self.frame_tx)?;
        write_frames(f, "frame_rx.", &self.frame_rx)?;
        write_path(f, "path.", &self.path)?;
        write_drops(f, "dropped.", &self.dropped)
    }
}
