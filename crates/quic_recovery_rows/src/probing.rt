//! What waits for a probe (RFC 9002, section 6.2.4), whatever streams there are.
ghost use Rattle.std.specs.Prelude.{◌≡◌, true, false, Some};
ghost use Rattle.quic_streams_parts.specs.Table.{at};
ghost use Rattle.quic_retransmits.specs.Retransmits.{nothing_waits};
ghost use Rattle.quic_sent_packets.specs.Packets.{without_record};
ghost use Rattle.quic_streams_state.specs.declared.state.StreamsState.{StreamsState};
ghost use Rattle.quic_recovery_core.specs.PendingAcks.{can_send};
ghost use Rattle.quic_spaces.specs.Space.{new_space, other_waits, after_probe_queued};
ghost use Rattle.quic_recovery_rows.specs.Probing.{expired_space, two_frames, recorded_packet, lost_space};

/// Where no probe waits, nothing does. Once the loss timer expired, PING does where there is
/// nothing else to send, and no acknowledgement.
pub fn probe_carries_something()
    ensures none { (streams : StreamsState) → after_probe_queued false (new_space 0) nothing_waits streams
        ≡ record { space = new_space 0; pending = nothing_waits } }
    ensures empty { (streams : StreamsState) → other_waits (new_space 0) nothing_waits streams ≡ false }
    ensures ping { (streams : StreamsState) → after_probe_queued false expired_space nothing_waits streams
        ≡ record { space = record expired_space { ping_pending = true }; pending = nothing_waits } }
    ensures other { (streams : StreamsState) → other_waits (record expired_space { ping_pending = true }) nothing_waits streams ≡ true }
    ensures acks { can_send expired_space.acknowledging ≡ false }
{}

/// What the lost packet carried waits in place of PING, and is gone from the packet, which stays.
pub fn probe_carries_what_is_lost()
    ensures pending { (streams : StreamsState) → (after_probe_queued false lost_space nothing_waits streams).pending ≡ two_frames }
    ensures ping { (streams : StreamsState) → (after_probe_queued false lost_space nothing_waits streams).space.ping_pending ≡ false }
    ensures hastening { (streams : StreamsState) → (after_probe_queued false lost_space nothing_waits streams).space.immediate_ack_pending ≡ false }
    ensures moved { (streams : StreamsState) → at (after_probe_queued false lost_space nothing_waits streams).space.tracking.packets 0
        ≡ Some (without_record recorded_packet) }
{}
