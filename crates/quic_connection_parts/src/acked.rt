//! What becomes of streams, and of what is in flight, as packets are acknowledged or lost (RFC
//! 9000, section 13.3; RFC 9002, section 6.1).
ghost use Rattle.std.specs.Prelude.{◌≡◌, true, [], reverse, ◌&&◌, None, if◌then◌else◌, IfSome, IfNone, OnOk};
ghost use Rattle.quic_time.specs.Clocks.{saturated};
ghost use Rattle.quic_retransmits.specs.Kept.{made};
ghost use Rattle.quic_retransmits.specs.Retransmits.{merged};
ghost use Rattle.quic_streams_state.specs.State.{streams_of};
ghost use Rattle.quic_streams_state.specs.Acked.{after_stream_acked};
ghost use Rattle.quic_sent_packets.specs.Packets.{asks_any, from};
ghost use Rattle.quic_paths.specs.InFlight.{CanLeave, no_flight, flight_of};
ghost use Rattle.quic_congestion.specs.Search.{is_number};
ghost use Rattle.quic_machine.specs.Control.{last_sent};
ghost use Rattle.quic_machine.specs.Tracking.{lost_by};
ghost use Rattle.quic_connection_parts.specs.Flying.{flying_packets, is_flying, flight_left, less, HasAll};
ghost use Rattle.quic_connection_parts.specs.Tracked.{TakesLost, with_resets_acked, with_frames_acked, with_carried_acked, with_frames_lost, with_carried_lost};

use quic_machine::Instant;
use quic_paths::{InFlight, PathData};
use quic_retransmits::{Retransmits, ThinRetransmits};
use quic_send_buffer::StreamMeta;
use quic_sent_packets::SentPacket;
use quic_spaces::{Tracking, Verdict};
use quic_streams_handles::EndStreams;
use quic_streams_state::StreamsState;
use std::alloc::AllocError;

/// RESET_STREAM frames are acknowledged.
fn on_resets_acked(streams: &mut EndStreams, resets: &mut Retransmits)
    ensures { streams_of streams.new.state streams.new.pending ≡ with_resets_acked resets.old.reset_stream (streams_of streams.old.state streams.old.pending) }
{
    while let Some(reset) = resets.pop_reset_stream() {
        streams.state.reset_acked(reset.0, &mut streams.pending);
    }
}

/// The RESET_STREAM frames of a packet are acknowledged, if it carried any.
fn on_kept_acked(streams: &mut EndStreams, mut kept: ThinRetransmits)
    ensures { streams_of streams.new.state streams.new.pending ≡ with_resets_acked (made kept).reset_stream (streams_of streams.old.state streams.old.pending) }
{
    if let Some(resets) = kept.get_mut() {
        on_resets_acked(streams, resets);
    }
}

/// A STREAM frame is acknowledged: where its stream is wholly acknowledged then, its end too, the
/// application is to be told so.
fn on_stream_acked(streams: &mut EndStreams, frame: &StreamMeta) -> Result<(), AllocError>
    ensures { OnOk result (streams_of streams.new.state streams.new.pending ≡ after_stream_acked streams.old.state streams.old.pending frame.now) }
{
    streams.state.received_ack_of(frame, &mut streams.pending)
}

/// The STREAM frames of a packet are acknowledged.
fn on_streams_acked(streams: &mut EndStreams, frames: &[StreamMeta]) -> Result<(), AllocError>
    ensures { OnOk result (streams_of streams.new.state streams.new.pending ≡ with_frames_acked frames.now (streams_of streams.old.state streams.old.pending)) }
{
    for frame in frames {
        on_stream_acked(streams, frame)?;
    }
    Ok(())
}

/// What a packet carried of streams is acknowledged: the bytes, ends and resets that it carried
/// never go again. The list of its STREAM frames is given back, for its memory.
///
/// # Errors
///
/// - [`AllocError`]: an allocation fails. The streams are of no more use then.
pub fn on_carried_acked(
    streams: &mut EndStreams,
    packet: SentPacket,
) -> Result<Vec<StreamMeta>, AllocError>
    ensures { OnOk result (streams_of streams.new.state streams.new.pending ≡ with_carried_acked packet.carried (streams_of streams.old.state streams.old.pending)) }
{
    on_kept_acked(streams, packet.retransmits);
    on_streams_acked(streams, packet.stream_frames.as_slice())?;
    Ok(packet.stream_frames)
}

/// The STREAM frames of a packet are lost: what they carried goes again. An error is want of
/// memory.
fn on_streams_lost(state: &mut StreamsState, frames: &[StreamMeta]) -> Result<(), AllocError>
    ensures { OnOk result (state.new ≡ with_frames_lost frames.now state.old) }
{
    for frame in frames {
        state.retransmit(frame)?;
    }
    Ok(())
}

/// What has to be sent again of a packet that is lost waits again. An error is want of memory.
fn on_kept_lost(pending: &mut Retransmits, kept: &ThinRetransmits) -> Result<(), AllocError>
    ensures { OnOk result (pending.new ≡ merged pending.old (made kept.now)) }
{
    match kept.get() {
        Some(lost) => pending.merge(lost),
        None => Ok(()),
    }
}

/// What a packet carried is lost: it goes again. Its acknowledgement doesn't, since a later one
/// says more.
///
/// # Errors
///
/// - [`AllocError`]: an allocation fails. The streams are of no more use then.
pub fn on_carried_lost(streams: &mut EndStreams, packet: &SentPacket) -> Result<(), AllocError>
    ensures { OnOk result (streams_of streams.new.state streams.new.pending ≡ with_carried_lost packet.now.carried (streams_of streams.old.state streams.old.pending)) }
{
    on_streams_lost(&mut streams.state, packet.stream_frames.as_slice())?;
    on_kept_lost(&mut streams.pending, &packet.retransmits)
}

/// Whether one of these packets asks for an acknowledgement.
fn asks_any(packets: &[(u64, SentPacket)]) -> bool
    ensures { result ≡ asks_any packets.now }
{
    packets.iter().any(|(_, packet)| packet.ack_eliciting)
}

/// When the packet with the greatest number of an ACK frame went, if its round trip is measured:
/// that number lies above all that were named before, and one of the newly acknowledged packets
/// asks for an acknowledgement (RFC 9002, section 5.1).
pub fn if_measured(
    rises: bool,
    sent: Option<Instant>,
    acked: &[(u64, SentPacket)],
) -> Option<Instant>
    ensures { result ≡ (if rises && asks_any acked.now then sent else None) }
{
    if rises && asks_any(acked) { sent } else { None }
}

/// When the packet of the greatest number went, which stands first.
pub fn last_sent(acked: &[(u64, SentPacket)]) -> Instant
    ensures { result ≡ last_sent (reverse acked.now) }
{
    match acked.first() {
        Some((_, packet)) => packet.time_sent,
        None => Instant::from_nanos(0),
    }
}

/// So many bytes, as far as 64 bits hold them.
pub fn saturated(bytes: u128) -> u64
    ensures { result ≡ saturated bytes }
{
    match u64::try_from(bytes) {
        Ok(bytes) => bytes,
        Err(_) => u64::MAX,
    }
}

/// Takes out the first lost packet, where none below `low` is lost: there may be one from there on.
pub fn take_lost(tracking: &mut Tracking, low: u64, verdict: &Verdict) -> Option<(u64, SentPacket)>
    requires { lost_by verdict.now (from low tracking.old.packets) ≡ lost_by verdict.now tracking.old.packets }
    ensures taken { IfSome result (λ p. TakesLost verdict.now p tracking.old tracking.new) }
    ensures none { IfNone result (lost_by verdict.now tracking.old.packets ≡ []) }
    ensures same { IfNone result (tracking.new ≡ tracking.old) }
{
    let number = tracking.next_lost(low, verdict)?;
    // The proof reads that the numbers ascend.
    let _packet = tracking.packets().get(number);
    let packet = tracking.take(number)?;
    Some((number, packet))
}

/// Whether this is the number of a probe, if there is one.
pub fn is_number(number: u64, probe: Option<u64>) -> bool
    ensures { result ≡ is_number number probe }
{
    match probe {
        Some(probe) => probe == number,
        None => false,
    }
}

/// A packet is no longer in flight, if it was.
pub fn leave_flight<C>(path: &mut PathData<C>, packet: &SentPacket)
    requires { is_flying path.old.generation packet.now ≡ true → CanLeave path.old.in_flight packet.now.size true }
    ensures { path.new ≡ record path.old { in_flight = flight_left path.old.generation path.old.in_flight packet.now } }
{
    if packet.ack_eliciting {
        path.remove_in_flight(packet.path_generation, packet.size, true);
    }
}

/// Nothing is in flight on a path any more.
pub fn clear_flight<C>(path: &mut PathData<C>)
    ensures { path.new ≡ record path.old { in_flight = no_flight } }
{
    path.in_flight = InFlight::new();
}

/// None of these packets is in flight any more.
pub fn leave_all<C>(path: &mut PathData<C>, acked: &[(u64, SentPacket)])
    requires { HasAll path.old.in_flight (flight_of (flying_packets path.old.generation acked.now)) }
    ensures { path.new ≡ record path.old { in_flight = less path.old.in_flight (flight_of (flying_packets path.old.generation acked.now)) } }
{
    for (_, packet) in acked {
        leave_flight(path, packet);
    }
}
