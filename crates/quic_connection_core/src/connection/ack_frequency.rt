//! How often acknowledgements are asked for (QUIC Acknowledgement Frequency).
ghost use Rattle.std.specs.Prelude.{◌≡◌, ◌+◌, ◌≤◌, ◌/◌, ◌++◌, length, min, vec_len, vec_capacity};
ghost use Rattle.quic_wire.specs.FrameView.{ack_frequency_view};
ghost use Rattle.quic_wire.specs.Value.{ack_frequency};
ghost use Rattle.quic_wire.specs.Writing.{spelling, Fits};
ghost use Rattle.quic_machine.specs.End.{with_end, with_frequency};
ghost use Rattle.quic_machine.specs.Poll.{in_micros, frequency_settings, asks_anew, written, most_requests, request_of, after_request, request_queued};
ghost use Rattle.quic_connection_parts.specs.Frames.{request_bytes, end_after_request_if};
ghost use Rattle.quic_recovery_core.specs.AckFrequency.{candidate};
ghost use Rattle.quic_time.specs.Rtt.{best_rtt};
ghost use Rattle.quic_machine.specs.Receive.{ack_required, take_frequency};
ghost use Rattle.quic_connection_parts.specs.Faults.{TakesAs};

use crate::connection::Connection;
use quic_config::AckFrequencyConfig;
use quic_congestion::Controller;
use quic_connection_parts::packet::put_ack_frequency;
use quic_connection_parts::receiving::Trouble;
use quic_connection_parts::statistics::count;
use quic_packet::crypto::{HeaderKey, PacketKey};
use quic_time::Duration;
use quic_wire::frame::AckFrequency;
use quic_wire_core::VarInt;
use rand_core::Rng;

/// The greatest sequence number that ACK_FREQUENCY can carry (RFC 9000, section 16).
const MAX_VARINT: u64 = (1 << 62) - 1;

/// These settings with the delay in whole microseconds, as frames carry it.
fn in_micros(config: AckFrequencyConfig) -> AckFrequencyConfig
    ensures { result ≡ in_micros config }
{
    let mut config = config;
    if let Some(delay) = config.max_delay() {
        let whole = delay.as_nanos() / 1000 * 1000;
        config.max_ack_delay(Some(Duration::from_nanos(whole)));
    }
    config
}

impl<H: HeaderKey + Drop, K: PacketKey + Drop, R: Rng + Drop, C: Controller> Connection<
    H,
    K,
    R,
    C,
> {
    /// Takes IMMEDIATE_ACK: an acknowledgement is due at once (section 5).
    pub(crate) fn take_immediate_ack_frame(&mut self)
        ensures { self.new ≡ with_end self.old (ack_required self.old.end) }
    {
        self.space.acknowledging.require();
    }

    /// Takes ACK_FREQUENCY: packets that come from now on are acknowledged as it requests, this one
    /// among them; an ACK timer that is set isn't moved. A frame that is no newer than one that
    /// came changes nothing, and one with a delay below 1 ms is a protocol violation (section 4).
    pub(crate) fn take_ack_frequency(&mut self, frame: &AckFrequency) -> Result<(), Trouble>
        ensures takes { TakesAs result (take_frequency (ack_frequency_view frame.now) self.old.end) self.new.end }
        ensures others { self.new ≡ with_end self.old self.new.end }
    {
        match self.ack_frequency.ack_frequency_received(frame) {
            Ok(true) => {
                self.space.acknowledging.set_ack_frequency_params(frame);
                Ok(())
            }
            Ok(false) => Ok(()),
            Err(error) => Err(Trouble::Broke(error)),
        }
    }

    /// Queues ACK_FREQUENCY if the peer is to get a new request how often to acknowledge: at first,
    /// and whenever the delay to request has changed. A peer that advertised no min_ack_delay gets
    /// none (section 3).
    pub(crate) fn queue_ack_frequency(&mut self)
        ensures { self.new ≡ with_end self.old (request_queued self.old.end) }
    {
        if self.asks_anew() {
            self.streams.pending.set_ack_frequency(true);
        }
    }

    /// Whether the peer is to get a new request how often to acknowledge.
    fn asks_anew(&self) -> bool
        ensures { result ≡ asks_anew self.now.end.transport.ack_frequency_config self.now.end }
    {
        let Some(config) = self.transport.get_ack_frequency_config() else {
            return false;
        };
        let config = in_micros(config);
        let rtt = self.path.rtt.get();
        self.peer_params.min_ack_delay.is_some()
            && self
                .ack_frequency
                .should_send_ack_frequency(rtt, &config, &self.peer_params)
    }

    /// What to request of the peer's acknowledgements.
    fn ack_frequency_config(&self) -> AckFrequencyConfig
        ensures { result ≡ frequency_settings self.now.end }
    {
        match self.transport.get_ack_frequency_config() {
            Some(config) => in_micros(config),
            None => in_micros(AckFrequencyConfig::default()),
        }
    }

    /// The delay to request of the peer, in whole microseconds.
    fn wanted_ack_delay(&self, config: &AckFrequencyConfig) -> VarInt
        ensures { result ≡ written (candidate self.now.end.frequency (best_rtt self.now.end.path.rtt) config.now self.now.end.peer_params / 1000) }
    {
        let rtt = self.path.rtt.get();
        let delay = self
            .ack_frequency
            .candidate_max_ack_delay(rtt, config, &self.peer_params);
        VarInt::from_u64_unchecked(delay.as_micros().min(MAX_VARINT))
    }

    /// The sequence number of the next ACK_FREQUENCY frame, which counts as used. The last that a
    /// frame can carry is used again and again.
    fn next_request_number(&mut self) -> VarInt
        ensures value { result ≡ written self.old.end.frequency.next }
        ensures end { self.new ≡ with_end self.old (with_frequency self.old.end (record self.old.end.frequency { next = min (self.old.end.frequency.next + 1) most_requests })) }
    {
        if self.requests > MAX_VARINT {
            return VarInt::MAX;
        }
        self.requests += 1;
        self.ack_frequency.next_sequence_number()
    }

    /// The ACK_FREQUENCY frame to send now, whose number counts as used.
    fn next_ack_frequency(&mut self) -> AckFrequency
        ensures value { ack_frequency_view result ≡ request_of self.old.end }
        ensures form { Fits (ack_frequency (ack_frequency_view result)) }
        ensures end { self.new ≡ with_end self.old (with_frequency self.old.end (record self.old.end.frequency { next = min (self.old.end.frequency.next + 1) most_requests })) }
    {
        let config = self.ack_frequency_config();
        let request_max_ack_delay = self.wanted_ack_delay(&config);
        AckFrequency {
            sequence: self.next_request_number(),
            ack_eliciting_threshold: config.threshold(),
            request_max_ack_delay,
            reordering_threshold: config.reordering(),
        }
    }

    /// Appends ACK_FREQUENCY if it is pending, for which there is room, with what the endpoint is
    /// configured to request: whether it did. It goes in the datagram that is sent next.
    pub(crate) fn put_request(&mut self, out: &mut Vec<u8>) -> bool
        requires { vec_len out.old + 34 ≤ vec_capacity out.old }
        ensures waited { result ≡ self.old.end.waiting.frames.ack_frequency }
        ensures items { out.new.items ≡ out.old.items ++ request_bytes self.old.end.waiting.frames.ack_frequency self.old.end }
        ensures len { vec_len out.new ≡ vec_len out.old + length (request_bytes self.old.end.waiting.frames.ack_frequency self.old.end) }
        ensures few { length (request_bytes self.old.end.waiting.frames.ack_frequency self.old.end) ≤ 34 }
        ensures capacity { vec_capacity out.old ≤ vec_capacity out.new }
        ensures end { self.new ≡ with_end self.old (end_after_request_if self.old.end.waiting.frames.ack_frequency self.old.end) }
    {
        if !self.streams.pending.ack_frequency() {
            return false;
        }
        self.put_queued_request(out);
        true
    }

    /// Appends ACK_FREQUENCY, for which there is room: it is no longer pending.
    fn put_queued_request(&mut self, out: &mut Vec<u8>)
        requires { vec_len out.old + 34 ≤ vec_capacity out.old }
        ensures items { out.new.items ≡ out.old.items ++ spelling (ack_frequency (request_of self.old.end)) }
        ensures len { vec_len out.new ≡ vec_len out.old + length (spelling (ack_frequency (request_of self.old.end))) }
        ensures few { length (spelling (ack_frequency (request_of self.old.end))) ≤ 34 }
        ensures capacity { vec_capacity out.old ≤ vec_capacity out.new }
        ensures end { self.new ≡ with_end self.old (after_request self.old.end) }
    {
        let frame = self.next_ack_frequency();
        let delay = Duration::from_micros(frame.request_max_ack_delay.into_inner());
        let number = self.number();
        self.ack_frequency.ack_frequency_sent(number, delay);
        self.streams.pending.set_ack_frequency(false);
        put_ack_frequency(frame, out);
        count(&mut self.stats.frame_tx.ack_frequency);
    }
}
