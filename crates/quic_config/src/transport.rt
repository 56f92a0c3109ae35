//! What an end offers its peer, how much it buffers, and how it sends (quinn-proto's
//! `config::transport`).
ghost use Rattle.std.specs.Prelude.{◌≡◌, ◌<◌, ◌≤◌, min, max, ◌^◌, true, IfSome};
ghost use Rattle.quic_config.specs.Transport.{default_transport, told_timeout, told_frame_size, first_mtu};

use crate::ack_frequency::AckFrequencyConfig;
use crate::first_sample::FirstSample;
use crate::mtu_discovery::{MAX_UDP_PAYLOAD, MtuDiscoveryConfig};
use quic_parameters::TransportParameters;
use quic_time::Duration;
use quic_wire_core::{VarInt, VarIntBoundsExceeded};
use std::marker::Model;

/// The bytes of a datagram that each path carries (RFC 9000, section 14).
const INITIAL_MTU: u16 = 1200;

/// How many ids an end keeps of its peer: as many as it allows it (RFC 9000, section 18.2,
/// active_connection_id_limit).
pub const IDS_KEPT: u32 = 8;

/// How long a connection may be without a packet, in milliseconds (RFC 9000, section 10.1;
/// quinn-proto's `IdleTimeout`). Contracts see the number.
#[derive(Clone, Copy, Debug, Default, PartialEq, Eq, PartialOrd, Ord, Hash)]
pub struct IdleTimeout(VarInt);

impl Model for IdleTimeout {
    ghost use Rattle.std.specs.Prelude.{ℕ};

    ghost Value = { ℕ };

    ghost view = { λ t. t.0 };

    ghost inverse = { λ n. record { 0 = n } };
}

impl From<VarInt> for IdleTimeout {
    ghost from_gives = { λ ms t. t ≡ ms };

    /// The timeout of so many milliseconds, up to 2^62 - 1. With 0 the endpoint sets none (RFC
    /// 9000, section 18.2).
    fn from(ms: VarInt) -> IdleTimeout {
        IdleTimeout(ms)
    }
}

impl TryFrom<Duration> for IdleTimeout {
    type Error = VarIntBoundsExceeded;

    ghost use Rattle.std.specs.Prelude.{Ok};
    ghost use Rattle.quic_config.specs.Transport.{millis_of};

    ghost try_from_gives = { λ timeout r. r ≡ Ok (millis_of timeout) };

    /// The timeout of a [`Duration`], cut to whole milliseconds. Below a millisecond that is 0,
    /// with which the endpoint sets none.
    ///
    /// # Errors
    ///
    /// - [`VarIntBoundsExceeded`]: never, as every `Duration` has fewer than 2^62 milliseconds.
    fn try_from(timeout: Duration) -> Result<IdleTimeout, VarIntBoundsExceeded> {
        let ms = VarInt::from_u64(timeout.as_millis())?;
        Ok(IdleTimeout(ms))
    }
}

/// The settings of an endpoint's transport (quinn-proto's `TransportConfig`). Contracts see the
/// record of the settings.
#[derive(Clone, Copy, Debug)]
pub struct TransportConfig {
    receive_window: VarInt,
    stream_receive_window: VarInt,
    send_window: u64,
    max_concurrent_bidi_streams: VarInt,
    max_concurrent_uni_streams: VarInt,
    max_idle_timeout: Option<IdleTimeout>,
    datagram_receive_buffer_size: Option<usize>,
    datagram_send_buffer_size: usize,
    send_fairness: bool,
    packet_threshold: u32,
    time_threshold: (u32, u32),
    initial_rtt: Duration,
    first_sample: Option<FirstSample>,
    initial_mtu: u16,
    min_mtu: u16,
    mtu_discovery_config: Option<MtuDiscoveryConfig>,
    pad_to_mtu: bool,
    ack_frequency_config: Option<AckFrequencyConfig>,
    persistent_congestion_threshold: u32,
    keep_alive_interval: Option<Duration>,
}

impl Model for TransportConfig {
    ghost use Rattle.std.specs.Prelude.{◌≤◌, ◌<◌, ◌^◌, IfSome};
    ghost use Rattle.quic_config.specs.Transport.{TransportSettings, AreInBounds};

    ghost Value = { TransportSettings };

    ghost view = { λ c. record {
      receive_window = c.receive_window;
      stream_receive_window = c.stream_receive_window;
      send_window = c.send_window;
      max_bidi = c.max_concurrent_bidi_streams;
      max_uni = c.max_concurrent_uni_streams;
      max_idle_timeout = c.max_idle_timeout;
      datagram_receive_buffer_size = c.datagram_receive_buffer_size;
      datagram_send_buffer_size = c.datagram_send_buffer_size;
      send_fairness = c.send_fairness;
      packet_threshold = c.packet_threshold;
      time_threshold = c.time_threshold;
      initial_rtt = c.initial_rtt;
      first_sample = c.first_sample;
      initial_mtu = c.initial_mtu;
      min_mtu = c.min_mtu;
      mtu_discovery_config = c.mtu_discovery_config;
      pad_to_mtu = c.pad_to_mtu;
      ack_frequency_config = c.ack_frequency_config;
      persistent_congestion_threshold = c.persistent_congestion_threshold;
      keep_alive_interval = c.keep_alive_interval;
    } };

    ghost invariant = { λ c.
        AreInBounds c.max_concurrent_bidi_streams c.max_concurrent_uni_streams c.time_threshold.1 c.initial_mtu c.min_mtu
        × IfSome c.mtu_discovery_config (λ search. 2 ≤ search.least_change) };

    ghost inverse = { λ s. record {
      receive_window = s.receive_window;
      stream_receive_window = s.stream_receive_window;
      send_window = s.send_window;
      max_concurrent_bidi_streams = s.max_bidi;
      max_concurrent_uni_streams = s.max_uni;
      max_idle_timeout = s.max_idle_timeout;
      datagram_receive_buffer_size = s.datagram_receive_buffer_size;
      datagram_send_buffer_size = s.datagram_send_buffer_size;
      send_fairness = s.send_fairness;
      packet_threshold = s.packet_threshold;
      time_threshold = s.time_threshold;
      initial_rtt = s.initial_rtt;
      first_sample = s.first_sample;
      initial_mtu = s.initial_mtu;
      min_mtu = s.min_mtu;
      mtu_discovery_config = s.mtu_discovery_config;
      pad_to_mtu = s.pad_to_mtu;
      ack_frequency_config = s.ack_frequency_config;
      persistent_congestion_threshold = s.persistent_congestion_threshold;
      keep_alive_interval = s.keep_alive_interval;
    } };
}

impl TransportConfig {
    /// How many bytes the peer may send on all streams before any is read (RFC 9000, section 4.1).
    /// An endpoint that never raises its limits takes no more in all. The default is 2^62 - 1
    /// bytes, the greatest value.
    pub fn receive_window(&mut self, value: VarInt) -> &mut Self
        ensures same_reference { result.ghost_name ≡ self.entry.ghost_name }
        ensures value { result.now ≡ record self.old { receive_window = value } }
    {
        self.receive_window = value;
        self
    }

    /// How many bytes the peer may send on one stream before any is read (RFC 9000, section 4.1).
    /// An endpoint that never raises its limits takes no more on it in all. The default is 1250000
    /// bytes.
    pub fn stream_receive_window(&mut self, value: VarInt) -> &mut Self
        ensures same_reference { result.ghost_name ≡ self.entry.ghost_name }
        ensures value { result.now ≡ record self.old { stream_receive_window = value } }
    {
        self.stream_receive_window = value;
        self
    }

    /// How many bytes may be written that the peer hasn't acknowledged, on all streams. The default
    /// is 10000000 bytes.
    pub fn send_window(&mut self, value: u64) -> &mut Self
        ensures same_reference { result.ghost_name ≡ self.entry.ghost_name }
        ensures value { result.now ≡ record self.old { send_window = value } }
    {
        self.send_window = value;
        self
    }

    /// How many bidirectional streams the peer may have open at a time (RFC 9000, section 4.6).
    /// More than 2^60 are cut to 2^60. The default is 100 streams.
    pub fn max_concurrent_bidi_streams(&mut self, value: VarInt) -> &mut Self
        ensures same_reference { result.ghost_name ≡ self.entry.ghost_name }
        ensures value { result.now ≡ record self.old { max_bidi = min value (2 ^ 60) } }
    {
        self.max_concurrent_bidi_streams = at_most_streams(value);
        self
    }

    /// How many unidirectional streams the peer may have open at a time (RFC 9000, section 4.6).
    /// More than 2^60 are cut to 2^60. The default is 100 streams.
    pub fn max_concurrent_uni_streams(&mut self, value: VarInt) -> &mut Self
        ensures same_reference { result.ghost_name ≡ self.entry.ghost_name }
        ensures value { result.now ≡ record self.old { max_uni = min value (2 ^ 60) } }
    {
        self.max_concurrent_uni_streams = at_most_streams(value);
        self
    }

    /// How long the connection may be without a packet before the endpoint drops it, in
    /// milliseconds; `None` sets no timeout (RFC 9000, section 10.1). The default is 30000 ms. The
    /// lesser of this and the peer's timeout counts, or the only one that is set, and no less than
    /// three probe timeouts.
    pub fn max_idle_timeout(&mut self, value: Option<IdleTimeout>) -> &mut Self
        ensures same_reference { result.ghost_name ≡ self.entry.ghost_name }
        ensures value { result.now ≡ record self.old { max_idle_timeout = value } }
    {
        self.max_idle_timeout = value;
        self
    }

    /// How many bytes of messages may be kept unread; `None` takes no messages (RFC 9221, section
    /// 3). The default is 1250000 bytes. At most 65535 is advertised to the peer as
    /// max_datagram_frame_size.
    pub fn datagram_receive_buffer_size(&mut self, value: Option<usize>) -> &mut Self
        ensures same_reference { result.ghost_name ≡ self.entry.ghost_name }
        ensures value { result.now ≡ record self.old { datagram_receive_buffer_size = value } }
    {
        self.datagram_receive_buffer_size = value;
        self
    }

    /// How many bytes of messages may be queued to be sent. The default is 1048576 bytes.
    pub fn datagram_send_buffer_size(&mut self, value: usize) -> &mut Self
        ensures same_reference { result.ghost_name ≡ self.entry.ghost_name }
        ensures value { result.now ≡ record self.old { datagram_send_buffer_size = value } }
    {
        self.datagram_send_buffer_size = value;
        self
    }

    /// Whether streams of one priority take turns with each datagram; else the one that began is
    /// sent to its FIN. The default is `true`.
    pub fn send_fairness(&mut self, value: bool) -> &mut Self
        ensures same_reference { result.ghost_name ≡ self.entry.ghost_name }
        ensures value { result.now ≡ record self.old { send_fairness = value } }
    {
        self.send_fairness = value;
        self
    }

    /// How many packet numbers below an acknowledged one a packet lies to count as lost (RFC 9002,
    /// section 6.1.1). The default is 3 packets.
    pub fn packet_threshold(&mut self, value: u32) -> &mut Self
        ensures same_reference { result.ghost_name ≡ self.entry.ghost_name }
        ensures value { result.now ≡ record self.old { packet_threshold = value } }
    {
        self.packet_threshold = value;
        self
    }

    /// After which fraction of a round trip a packet is lost, once a later one was acknowledged:
    /// `numerator / denominator` (RFC 9002, section 6.1.2). The denominator has to be above 0. The
    /// default is 9/8.
    pub fn time_threshold(&mut self, numerator: u32, denominator: u32) -> &mut Self
        requires { 0 < denominator }
        ensures same_reference { result.ghost_name ≡ self.entry.ghost_name }
        ensures value { result.now ≡ record self.old { time_threshold = (numerator, denominator) } }
    {
        self.time_threshold = (numerator, denominator);
        self
    }

    /// The round trip that is taken before one is measured (RFC 9002, section 6.2.2), a
    /// [`Duration`]. The default is 333 ms.
    pub fn initial_rtt(&mut self, value: Duration) -> &mut Self
        ensures same_reference { result.ghost_name ≡ self.entry.ghost_name }
        ensures value { result.now ≡ record self.old { initial_rtt = value } }
    {
        self.initial_rtt = value;
        self
    }

    /// A round trip that was measured before the connection begins, as by the handshake: it counts
    /// as the first sample, and [`initial_rtt`](Self::initial_rtt) for nothing (RFC 9002, section
    /// 5). Where its time or its variation is 0 or above 60 s no connection is made
    /// (`ConfigError::FirstSample`). The default is `None`.
    pub fn first_sample(&mut self, value: Option<FirstSample>) -> &mut Self
        ensures same_reference { result.ghost_name ≡ self.entry.ghost_name }
        ensures value { result.now ≡ record self.old { first_sample = value } }
    {
        self.first_sample = value;
        self
    }

    /// The greatest size of a datagram at first, in bytes (RFC 9000, section 14). Less than 1200 is
    /// raised to 1200, and less than [`min_mtu`](Self::min_mtu) counts as that. Above 65527 no
    /// connection is made (`ConfigError::Size`). The default is 1200 bytes.
    pub fn initial_mtu(&mut self, value: u16) -> &mut Self
        ensures same_reference { result.ghost_name ≡ self.entry.ghost_name }
        ensures value { result.now ≡ record self.old { initial_mtu = max value 1200 } }
    {
        self.initial_mtu = value.max(INITIAL_MTU);
        self
    }

    /// The size of a datagram that every path carries, in bytes (RFC 9000, section 14). Less than
    /// 1200 is raised to 1200. Above 65527, or above the peer's max_udp_payload_size, no connection
    /// is made (`ConfigError::Size`). The default is 1200 bytes.
    pub fn min_mtu(&mut self, value: u16) -> &mut Self
        ensures same_reference { result.ghost_name ≡ self.entry.ghost_name }
        ensures value { result.now ≡ record self.old { min_mtu = max value 1200 } }
    {
        self.min_mtu = value.max(INITIAL_MTU);
        self
    }

    /// How path MTU discovery probes for a larger size of datagrams; `None` probes for none (RFC
    /// 9000, section 14.3). The default is [`MtuDiscoveryConfig::default`], which probes sizes of
    /// up to 1452 bytes; none above the peer's max_udp_payload_size ever is probed.
    pub fn mtu_discovery_config(&mut self, value: Option<MtuDiscoveryConfig>) -> &mut Self
        ensures same_reference { result.ghost_name ≡ self.entry.ghost_name }
        ensures value { result.now ≡ record self.old { mtu_discovery_config = value } }
    {
        self.mtu_discovery_config = value.map(MtuDiscoveryConfig::stepped);
        self
    }

    /// Whether a datagram that is ack-eliciting is filled up to the path's size. The default is
    /// `false`.
    pub fn pad_to_mtu(&mut self, value: bool) -> &mut Self
        ensures same_reference { result.ghost_name ≡ self.entry.ghost_name }
        ensures value { result.now ≡ record self.old { pad_to_mtu = value } }
    {
        self.pad_to_mtu = value;
        self
    }

    /// What is requested of the peer's acknowledgements; `None` requests nothing (QUIC
    /// Acknowledgement Frequency). The default is `None`. A peer that advertised no min_ack_delay
    /// gets no request.
    pub fn ack_frequency_config(&mut self, value: Option<AckFrequencyConfig>) -> &mut Self
        ensures same_reference { result.ghost_name ≡ self.entry.ghost_name }
        ensures value { result.now ≡ record self.old { ack_frequency_config = value } }
    {
        self.ack_frequency_config = value;
        self
    }

    /// How many probe timeouts losses last where the congestion is persistent (RFC 9002, section
    /// 7.6.1). The default is 3.
    pub fn persistent_congestion_threshold(&mut self, value: u32) -> &mut Self
        ensures same_reference { result.ghost_name ≡ self.entry.ghost_name }
        ensures value { result.now ≡ record self.old { persistent_congestion_threshold = value } }
    {
        self.persistent_congestion_threshold = value;
        self
    }

    /// After what time without a packet one is sent so that the connection stays, a [`Duration`];
    /// `None` sends none (RFC 9000, section 10.1.2). The default is `None`.
    pub fn keep_alive_interval(&mut self, value: Option<Duration>) -> &mut Self
        ensures same_reference { result.ghost_name ≡ self.entry.ghost_name }
        ensures value { result.now ≡ record self.old { keep_alive_interval = value } }
    {
        self.keep_alive_interval = value;
        self
    }
}

impl TransportConfig {
    /// How many bytes the peer may send on all streams before any is read.
    pub fn get_receive_window(&self) -> VarInt
        ensures { result ≡ self.now.receive_window }
    {
        self.receive_window
    }

    /// How many bytes the peer may send on one stream before any is read.
    pub fn get_stream_receive_window(&self) -> VarInt
        ensures { result ≡ self.now.stream_receive_window }
    {
        self.stream_receive_window
    }

    /// How many bytes may be written that the peer hasn't acknowledged.
    pub fn get_send_window(&self) -> u64
        ensures { result ≡ self.now.send_window }
    {
        self.send_window
    }

    /// How many bidirectional streams the peer may have open at a time, at most 2^60.
    pub fn get_max_concurrent_bidi_streams(&self) -> VarInt
        ensures value { result ≡ self.now.max_bidi }
        ensures bound { self.now.max_bidi ≤ 2 ^ 60 }
    {
        self.max_concurrent_bidi_streams
    }

    /// How many unidirectional streams the peer may have open at a time, at most 2^60.
    pub fn get_max_concurrent_uni_streams(&self) -> VarInt
        ensures value { result ≡ self.now.max_uni }
        ensures bound { self.now.max_uni ≤ 2 ^ 60 }
    {
        self.max_concurrent_uni_streams
    }

    /// How long the connection may be without a packet before the endpoint drops it; `None` is
    /// without limit.
    pub fn get_max_idle_timeout(&self) -> Option<IdleTimeout>
        ensures { result ≡ self.now.max_idle_timeout }
    {
        self.max_idle_timeout
    }

    /// How many bytes of messages may be kept unread; `None` takes no messages.
    pub fn get_datagram_receive_buffer_size(&self) -> Option<usize>
        ensures { result ≡ self.now.datagram_receive_buffer_size }
    {
        self.datagram_receive_buffer_size
    }

    /// How many bytes of messages may be queued to be sent.
    pub fn get_datagram_send_buffer_size(&self) -> usize
        ensures { result ≡ self.now.datagram_send_buffer_size }
    {
        self.datagram_send_buffer_size
    }

    /// Whether streams of one priority take turns.
    pub fn get_send_fairness(&self) -> bool
        ensures { result ≡ self.now.send_fairness }
    {
        self.send_fairness
    }

    /// How far below an acknowledged number a packet is lost.
    pub fn get_packet_threshold(&self) -> u32
        ensures { result ≡ self.now.packet_threshold }
    {
        self.packet_threshold
    }

    /// After which fraction of a round trip a packet is lost: a numerator, and a denominator above
    /// 0.
    pub fn get_time_threshold(&self) -> (u32, u32)
        ensures value { result ≡ self.now.time_threshold }
        ensures divides { 0 < self.now.time_threshold.1 }
    {
        self.time_threshold
    }

    /// The round trip that is taken before one is measured.
    pub fn get_initial_rtt(&self) -> Duration
        ensures { result ≡ self.now.initial_rtt }
    {
        self.initial_rtt
    }

    /// The round trip that was measured before the connection begins.
    pub fn get_first_sample(&self) -> Option<FirstSample>
        ensures { result ≡ self.now.first_sample }
    {
        self.first_sample
    }

    /// The bytes of the greatest datagram at first: as set, but no fewer than every path carries.
    pub fn get_initial_mtu(&self) -> u16
        ensures value { result ≡ first_mtu self.now }
        ensures bound { 1200 ≤ first_mtu self.now }
    {
        self.initial_mtu.max(self.min_mtu)
    }

    /// The bytes of a datagram that every path carries, at least 1200.
    pub fn get_min_mtu(&self) -> u16
        ensures value { result ≡ self.now.min_mtu }
        ensures bound { 1200 ≤ self.now.min_mtu }
    {
        self.min_mtu
    }

    /// How path MTU discovery probes for a greater size; `None` probes for none.
    pub fn get_mtu_discovery_config(&self) -> Option<MtuDiscoveryConfig>
        ensures value { result ≡ self.now.mtu_discovery_config }
        ensures steps { IfSome result (λ search. 2 ≤ search.least_change) }
    {
        self.mtu_discovery_config
    }

    /// Whether an ack-eliciting datagram is filled up to the path's size.
    pub fn get_pad_to_mtu(&self) -> bool
        ensures { result ≡ self.now.pad_to_mtu }
    {
        self.pad_to_mtu
    }

    /// What is requested of the peer's acknowledgements; `None` requests nothing.
    pub fn get_ack_frequency_config(&self) -> Option<AckFrequencyConfig>
        ensures { result ≡ self.now.ack_frequency_config }
    {
        self.ack_frequency_config
    }

    /// How many probe timeouts losses last where the congestion is persistent.
    pub fn get_persistent_congestion_threshold(&self) -> u32
        ensures { result ≡ self.now.persistent_congestion_threshold }
    {
        self.persistent_congestion_threshold
    }

    /// After what time without a packet one is sent; `None` sends none.
    pub fn get_keep_alive_interval(&self) -> Option<Duration>
        ensures { result ≡ self.now.keep_alive_interval }
    {
        self.keep_alive_interval
    }
}

impl TransportConfig {
    ghost use Rattle.quic_parameters.specs.Parameters.{AreInRange};
    ghost use Rattle.quic_config.specs.Transport.{settings_with, parameters_of, IsInRange};

    /// The transport parameters that advertise these settings, of an endpoint that takes
    /// ACK_FREQUENCY (RFC 9000, section 18.2).
    pub fn transport_parameters(&self) -> TransportParameters
        ensures value { result ≡ parameters_of (settings_with self.now true) }
        ensures in_range { AreInRange (parameters_of (settings_with self.now true)) }
        ensures range { IsInRange (settings_with self.now true) }
    {
        let stream_window = bounded(self.stream_receive_window);
        TransportParameters {
            max_idle_timeout: milliseconds(self.max_idle_timeout),
            max_udp_payload_size: VarInt::from_u32(u32::from(MAX_UDP_PAYLOAD)),
            initial_max_data: bounded(self.receive_window),
            initial_max_stream_data_bidi_local: stream_window,
            initial_max_stream_data_bidi_remote: stream_window,
            initial_max_stream_data_uni: stream_window,
            initial_max_streams_bidi: self.max_concurrent_bidi_streams,
            initial_max_streams_uni: self.max_concurrent_uni_streams,
            ack_delay_exponent: VarInt::from_u32(3),
            max_ack_delay: VarInt::from_u32(25),
            active_connection_id_limit: VarInt::from_u32(IDS_KEPT),
            max_datagram_frame_size: frame_size(self.datagram_receive_buffer_size),
            min_ack_delay: Some(VarInt::from_u32(1000)),
        }
    }
}

/// The value, of which the prover sees the bound.
fn bounded(value: VarInt) -> VarInt
    ensures same { result ≡ value }
    ensures bound { value < 2 ^ 62 }
{
    VarInt::from_u64_unchecked(value.into_inner())
}

/// The timeout as it is advertised: 0 is none.
fn milliseconds(timeout: Option<IdleTimeout>) -> VarInt
    ensures same { result ≡ told_timeout timeout }
    ensures bound { told_timeout timeout < 2 ^ 62 }
{
    match timeout {
        Some(timeout) => bounded(timeout.0),
        None => VarInt::from_u32(0),
    }
}

/// The greatest DATAGRAM frame as it is advertised: 0 is none, and 65535 bytes are the most.
fn frame_size(buffer: Option<usize>) -> VarInt
    ensures { result ≡ told_frame_size buffer }
{
    match buffer {
        Some(size) => VarInt::from_u32(size.min(65535) as u32),
        None => VarInt::from_u32(0),
    }
}

/// The count, but 2^60 where it's greater: indices of streams are below that.
fn at_most_streams(value: VarInt) -> VarInt
    ensures { result ≡ min value (2 ^ 60) }
{
    let count = value.into_inner().min(1 << 60);
    VarInt::from_u64_unchecked(count)
}

impl Default for TransportConfig {
    ghost is_default = { λ c. c ≡ default_transport };

    /// 100 streams of each kind, windows of 2^62 - 1 bytes a connection and 1250000 a stream,
    /// 10000000 bytes to send, 1250000 bytes of unread messages and 1048576 to send, and 30 seconds
    /// without a packet. Streams take turns. A packet is lost 3 numbers below an acknowledged one
    /// or after 9/8 of a round trip, which is 333 ms at first, and congestion is persistent after 3
    /// probe timeouts. Datagrams have 1200 bytes at first and aren't filled, and path MTU discovery
    /// is on. No ACK_FREQUENCY is sent, and nothing keeps the connection alive.
    fn default() -> TransportConfig {
        TransportConfig {
            receive_window: VarInt::MAX,
            stream_receive_window: VarInt::from_u32(1_250_000),
            send_window: 10_000_000,
            max_concurrent_bidi_streams: VarInt::from_u32(100),
            max_concurrent_uni_streams: VarInt::from_u32(100),
            max_idle_timeout: Some(IdleTimeout(VarInt::from_u32(30_000))),
            datagram_receive_buffer_size: Some(1_250_000),
            datagram_send_buffer_size: 1_048_576,
            send_fairness: true,
            packet_threshold: 3,
            time_threshold: (9, 8),
            initial_rtt: Duration::from_millis(333),
            first_sample: None,
            initial_mtu: INITIAL_MTU,
            min_mtu: INITIAL_MTU,
            mtu_discovery_config: Some(MtuDiscoveryConfig::default()),
            pad_to_mtu: false,
            ack_frequency_config: None,
            persistent_congestion_threshold: 3,
            keep_alive_interval: None,
        }
    }
}
