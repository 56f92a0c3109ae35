//! What an end is made of, and when it can't be.
ghost use Rattle.std.specs.Prelude.{◌≡◌, ◌*◌, true, None, Ok};
ghost use Rattle.quic_parameters.specs.Parameters.{AreInRange};
ghost use Rattle.quic_parameters.specs.declared.transport_parameters.error.TransportParametersError.{TransportParametersError};
ghost use Rattle.quic_config.specs.Transport.{Settings, transport_of, first_mtu};
ghost use Rattle.quic_machine.specs.End.{limits_of, refusal_of, first_streams, are_sizes_wrong, are_keys_short, is_sample_wrong, is_time_wrong};
ghost use Rattle.quic_spaces.specs.Filter.{first_filter};
ghost use Rattle.quic_connection_parts.specs.Drawn.{words_of, after_words};
ghost use Rattle.quic_connection_parts.specs.Telling.{path_limited};
ghost use Rattle.quic_paths.specs.Paths.{new_path};
ghost use Rattle.quic_retransmits.specs.Retransmits.{nothing_waits};

use crate::ids::OWN_ID_LENGTH;
use quic_config::{MAX_FIRST_SAMPLE_NANOS, MAX_UDP_PAYLOAD};
use quic_congestion::{Controller, ControllerFactory};
use quic_machine::{ConfigError, Instant, TransportConfig};
use quic_packet::crypto::{Keys, PacketKey};
use quic_parameters::TransportParameters;
use quic_paths::{Address, PathData};
use quic_retransmits::Retransmits;
use quic_spaces::PacketNumberFilter;
use quic_streams_handles::EndStreams;
use quic_streams_state::StreamsState;
use quic_time::Duration;
use quic_wire_core::{ConnectionId, Side};
use rand_core::Rng;
use std::alloc::Global;

/// No stream is opened: the peer's parameters are the limits on what is sent, the own settings
/// those on what comes.
pub fn first_streams(
    alloc: Global,
    side: Side,
    transport: &TransportConfig,
    theirs: &TransportParameters,
) -> EndStreams
    requires { AreInRange theirs.now }
    ensures state { (settings : Settings) → transport_of settings ≡ transport.now → result.state ≡ first_streams side settings theirs.now }
    ensures pending { result.pending ≡ nothing_waits }
{
    let mut state = StreamsState::new(
        alloc,
        side,
        transport.get_max_concurrent_uni_streams(),
        transport.get_max_concurrent_bidi_streams(),
        transport.get_send_window(),
        transport.get_receive_window(),
        transport.get_stream_receive_window(),
    );
    state.set_params(theirs);
    EndStreams {
        state,
        pending: Retransmits::new(alloc),
    }
}

/// Whether the sizes of datagrams can't be: more than a UDP payload may have, or more on each path
/// than the peer takes (RFC 9000, section 18.2).
fn are_sizes_wrong(transport: &TransportConfig, theirs: &TransportParameters) -> bool
    ensures { (settings : Settings) → transport_of settings ≡ transport.now → result ≡ are_sizes_wrong settings theirs.now }
{
    let least = transport.get_min_mtu();
    transport.get_initial_mtu() > MAX_UDP_PAYLOAD
        || u64::from(least) > theirs.max_udp_payload_size.into_inner()
}

/// The path with which a connection begins, to this address, made now: its datagrams have no more
/// bytes than a peer takes that told this (RFC 9000, section 18.2).
pub fn first_path<C: Controller, F: ControllerFactory<Controller = C>>(
    remote: Address,
    now: Instant,
    transport: &TransportConfig,
    factory: &F,
    theirs: &TransportParameters,
) -> PathData<C>
    requires { AreInRange theirs.now }
    ensures { let controller = F.built factory.now now (first_mtu transport.now) in
        result ≡ path_limited theirs.now.max_udp_payload_size (new_path remote true None 0 now transport.now controller (C.initial_of controller)) }
{
    let mut path = PathData::new(remote, true, None, 0, now, transport, factory);
    let limit = theirs.max_udp_payload_size.into_inner() as u16;
    path.mtud.on_peer_max_udp_payload_size_received(limit);
    path
}

/// How long a peer that told this may hold an acknowledgement back (RFC 9000, section 18.2).
pub fn told_ack_delay(theirs: &TransportParameters) -> Duration
    requires { AreInRange theirs.now }
    ensures { result ≡ theirs.now.max_ack_delay * 1000000 }
{
    Duration::from_nanos(theirs.max_ack_delay.into_inner() * 1_000_000)
}

/// Which packet number is left out first, by a word of the random source.
#[tactic(auto, unfolding(rand_core::specs::Stream::next_u64))]
pub fn first_filter<R: Rng>(random: &mut R) -> PacketNumberFilter
    ensures value { result ≡ first_filter (words_of R.stream random.old 0) }
    ensures random { R.stream random.new ≡ after_words 1 (R.stream random.old) }
{
    PacketNumberFilter::new(random)
}

/// The least that a limit of a key may be.
const LEAST_KEY_LIMIT: u64 = 16;

/// Whether the keys of an end last too short: the own one may seal fewer packets than any does, or
/// the peer's may refuse fewer.
fn are_keys_short<H, K: PacketKey>(keys: &Keys<H, K>) -> bool
    ensures { result ≡ are_keys_short (limits_of K.seal_limit K.refusal_limit keys.now) }
{
    keys.packet.local.confidentiality_limit() < LEAST_KEY_LIMIT
        || keys.packet.remote.integrity_limit() < LEAST_KEY_LIMIT
}

/// Whether a time of a first sample can't be: none, or more than a minute.
fn is_time_wrong(time: Duration) -> bool
    ensures { result ≡ is_time_wrong time }
{
    let nanos = time.as_nanos();
    nanos == 0 || nanos > MAX_FIRST_SAMPLE_NANOS
}

/// Whether the first sample can't be, where one is told.
fn is_sample_wrong(transport: &TransportConfig) -> bool
    ensures { result ≡ is_sample_wrong transport.now.first_sample }
{
    match transport.get_first_sample() {
        Some(sample) => is_time_wrong(sample.rtt) || is_time_wrong(sample.variation),
        None => false,
    }
}

/// Why no end is made with this configuration and these keys, if none is, for a peer that told
/// this, where the congestion controller begins with this window: the first reason there is.
pub fn refusal<H, K: PacketKey>(
    transport: &TransportConfig,
    window: u64,
    keys: &Keys<H, K>,
    theirs: &TransportParameters,
    own_id: ConnectionId,
    peer_id: ConnectionId,
) -> Option<ConfigError>
    ensures { (settings : Settings) → transport_of settings ≡ transport.now → result ≡ refusal_of {E = TransportParametersError} settings window (limits_of K.seal_limit K.refusal_limit keys.now) (Ok theirs.now) own_id peer_id }
{
    if own_id.as_slice().len() != OWN_ID_LENGTH || peer_id.as_slice().is_empty() {
        return Some(ConfigError::IdLength);
    }
    if are_sizes_wrong(transport, theirs) {
        return Some(ConfigError::Size);
    }
    if window < 2 * u64::from(transport.get_initial_mtu()) {
        return Some(ConfigError::Window);
    }
    if are_keys_short(keys) {
        return Some(ConfigError::KeyLimit);
    }
    if is_sample_wrong(transport) {
        return Some(ConfigError::FirstSample);
    }
    None
}
