//! How often the peer is asked to acknowledge, and how often it asks this end to.
ghost use Rattle.std.specs.Prelude.{◌≡◌, ◌+◌, ◌*◌, ◌-◌, ◌^◌, ◌<◌, min, Some};
ghost use Rattle.quic_recovery_core.specs.AckFrequency.{micros, initial_frequency, least_delay, candidate, asked, longest_delay, differs, should_ask, after_acked, is_stale, after_received, received_answer};

use quic_config::AckFrequencyConfig;
use quic_parameters::TransportParameters;
use quic_time::{Duration, TIMER_GRANULARITY};
use quic_wire::frame::AckFrequency;
use quic_wire_core::{Code, Reason, TransportError, VarInt};
use std::marker::Model;

/// How long an ACK may wait where nothing else was said, and the least that the peer is asked for
/// on a short path: 25 ms.
const USUAL_ACK_DELAY: u64 = 25_000_000;

/// The packet of a request that isn't acknowledged yet, and the delay that it asks for.
#[derive(Clone, Copy, Debug)]
struct Request {
    packet: u64,
    delay: Duration,
}

/// What is asked and was asked of acknowledgements (the ACK frequency extension; quinn-proto's
/// `AckFrequencyState`).
///
/// Contracts see the request in flight, the number of the next frame, the delay that the peer keeps
/// to, the greatest number of a frame that came, and the delay that this end keeps to.
#[derive(Clone, Copy, Debug)]
pub struct AckFrequencyState {
    in_flight: Option<Request>,
    next_outgoing_sequence_number: u64,
    peer_max_ack_delay: Duration,
    last_ack_frequency_frame: Option<u64>,
    max_ack_delay: Duration,
}

impl Model for AckFrequencyState {
    ghost use Rattle.quic_recovery_core.specs.AckFrequency.{Frequency};

    ghost Value = { Frequency };

    ghost view = { λ s. record {
      in_flight = s.in_flight;
      next = s.next_outgoing_sequence_number;
      peer_delay = s.peer_max_ack_delay;
      last = s.last_ack_frequency_frame;
      own_delay = s.max_ack_delay;
    } };

    ghost inverse = { λ f. record {
      in_flight = f.in_flight;
      next_outgoing_sequence_number = f.next;
      peer_max_ack_delay = f.peer_delay;
      last_ack_frequency_frame = f.last;
      max_ack_delay = f.own_delay;
    } };
}

/// So many microseconds; what is longer than [`Duration`] can say counts as the longest that it
/// can.
fn from_micros(count: VarInt) -> Duration
    ensures { result ≡ micros count }
{
    Duration::from_micros(count.into_inner())
}

/// The least delay that the peer can be asked for.
fn least_delay(peer: &TransportParameters) -> Duration
    ensures { result ≡ least_delay peer.now.min_ack_delay }
{
    match peer.min_ack_delay {
        Some(least) => from_micros(least),
        None => Duration::from_nanos(0),
    }
}

/// Whether two delays differ by more than a fifth of the second.
fn differs(desired: Duration, current: Duration) -> bool
    ensures { result ≡ differs desired current }
{
    let (desired, current) = (desired.as_nanos(), current.as_nanos());
    5 * u128::from(desired.abs_diff(current)) > u128::from(current)
}

impl AckFrequencyState {
    /// Nothing was asked yet. `delay` is what the peer keeps to so far: the max_ack_delay that it
    /// announced. This end keeps to 25 ms.
    pub fn new(delay: Duration) -> Self
        ensures { result ≡ initial_frequency delay }
    {
        AckFrequencyState {
            in_flight: None,
            next_outgoing_sequence_number: 0,
            peer_max_ack_delay: delay,
            last_ack_frequency_frame: None,
            max_ack_delay: Duration::from_nanos(USUAL_ACK_DELAY),
        }
    }

    /// The delay to ask the peer for: the one that is configured, or else the one that it keeps to,
    /// but not above `rtt`, which counts as 25 ms at least, and not below the peer's min_ack_delay.
    pub fn candidate_max_ack_delay(
        &self,
        rtt: Duration,
        config: &AckFrequencyConfig,
        peer: &TransportParameters,
    ) -> Duration
        ensures { result ≡ candidate self.now rtt config.now peer.now }
    {
        let wanted = config.max_delay().unwrap_or(self.peer_max_ack_delay);
        let most = rtt.as_nanos().max(USUAL_ACK_DELAY);
        let least = least_delay(peer).as_nanos();
        Duration::from_nanos(wanted.as_nanos().min(most).max(least))
    }

    /// The longest that the peer may delay an ACK by now, for the probe timeout: the greater of the
    /// delay that it keeps to and of the one in flight, which it may have taken up already.
    pub fn max_ack_delay_for_pto(&self) -> Duration
        ensures { result ≡ longest_delay self.now }
    {
        match self.in_flight {
            Some(request) if request.delay > self.peer_max_ack_delay => request.delay,
            _ => self.peer_max_ack_delay,
        }
    }

    /// The number of the next ACK_FREQUENCY frame: 0, 1 and so on.
    pub fn next_sequence_number(&mut self) -> VarInt
        requires { self.old.next < 2 ^ 62 }
        ensures number { result ≡ self.old.next }
        ensures new { self.new ≡ record self.old { next = self.old.next + 1 } }
    {
        let number = self.next_outgoing_sequence_number;
        self.next_outgoing_sequence_number = number + 1;
        VarInt::from_u64_unchecked(number)
    }

    /// Whether an ACK_FREQUENCY frame should go: where none did, or where the delay to ask for
    /// differs from the one in flight, or else from the one that the peer keeps to, by more than a
    /// fifth of that.
    pub fn should_send_ack_frequency(
        &self,
        rtt: Duration,
        config: &AckFrequencyConfig,
        peer: &TransportParameters,
    ) -> bool
        ensures { result ≡ should_ask self.now rtt config.now peer.now }
    {
        if self.next_outgoing_sequence_number == 0 {
            return true;
        }
        let current = match self.in_flight {
            Some(request) => request.delay,
            None => self.peer_max_ack_delay,
        };
        differs(self.candidate_max_ack_delay(rtt, config, peer), current)
    }

    /// A packet with this number went out, whose ACK_FREQUENCY frame asks for this delay. It takes
    /// the place of one in flight.
    pub fn ack_frequency_sent(&mut self, packet: u64, delay: Duration)
        ensures { self.new ≡ record self.old { in_flight = Some (record { packet = packet; delay = delay }) } }
    {
        self.in_flight = Some(Request { packet, delay });
    }

    /// A packet was acknowledged. Where it has the request in flight, the peer keeps to that delay
    /// from now on.
    pub fn on_acked(&mut self, packet: u64)
        ensures { self.new ≡ after_acked self.old.in_flight packet self.old }
    {
        match self.in_flight {
            Some(request) if request.packet == packet => {
                self.peer_max_ack_delay = request.delay;
                self.in_flight = None;
            }
            _ => {}
        }
    }

    /// An ACK_FREQUENCY frame came. `true` where it is newer than all before: its delay is kept.
    /// `false` where it isn't; then nothing changes. What it asks of thresholds is not kept here.
    ///
    /// # Errors
    ///
    /// - [`TransportError`] of PROTOCOL_VIOLATION: the frame is newer than all before, and asks for
    ///   less than 1 ms. Its number is kept, and nothing else changes.
    pub fn ack_frequency_received(&mut self, frame: &AckFrequency) -> Result<bool, TransportError>
        ensures answer { result ≡ received_answer self.old frame.now }
        ensures new { self.new ≡ after_received self.old frame.now }
    {
        let sequence = frame.sequence.into_inner();
        if let Some(last) = self.last_ack_frequency_frame
            && sequence <= last
        {
            return Ok(false);
        }
        self.last_ack_frequency_frame = Some(sequence);
        let delay = from_micros(frame.request_max_ack_delay);
        if delay < TIMER_GRANULARITY {
            return Err(TransportError::new(Code::PROTOCOL_VIOLATION, None, Reason::IllegalValue));
        }
        self.max_ack_delay = delay;
        Ok(true)
    }

    /// How long this end may hold an ACK back.
    pub fn max_ack_delay(&self) -> Duration
        ensures { result ≡ self.now.own_delay }
    {
        self.max_ack_delay
    }

    /// How long the peer may hold an ACK back, as far as this end knows: the delay of the last
    /// request that was acknowledged, or else the one that it announced.
    pub fn peer_max_ack_delay(&self) -> Duration
        ensures { result ≡ self.now.peer_delay }
    {
        self.peer_max_ack_delay
    }
}
