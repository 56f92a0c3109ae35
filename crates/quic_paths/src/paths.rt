//! A path to the peer (RFC 9000, sections 8 and 9; quinn-proto's `paths`).
ghost use Rattle.std.specs.Prelude.{◌≡◌, ◌==◌, IfOk};
ghost use Rattle.quic_config.specs.Transport.{first_mtu, first_estimate};
ghost use Rattle.quic_congestion.specs.Search.{first_discovery};
ghost use Rattle.quic_paths.specs.InFlight.{CanJoin, CanLeave};
ghost use Rattle.quic_paths.specs.Paths.{new_path, next_path, path_after_reset, path_with, path_without, path_after_received, path_after_sent, is_blocked, path_challenged, challenge_to_send, path_after_challenge, answers, path_answered};

use crate::address::Address;
use crate::in_flight::InFlight;
use quic_config::TransportConfig;
use quic_congestion::{Controller, ControllerFactory, MtuDiscovery, Pacer};
use quic_time::{Instant, RttEstimator};
use std::alloc::AllocError;
use std::marker::Model;

/// A path to the peer, with its controller (quinn-proto's `PathData`).
#[derive(Drop)]
pub struct PathData<C> {
    /// The peer's address: what goes on this path goes there.
    pub remote: Address,
    /// How long a round trip takes (RFC 9002, section 5).
    pub rtt: RttEstimator,
    /// Whether packets are marked, so that routers can report congestion (RFC 9000, section 13.4).
    pub sending_ecn: bool,
    /// Says how many bytes may be in flight (RFC 9002, section 7).
    pub congestion: C,
    /// Spreads what goes over the round trip (RFC 9002, section 7.7).
    pub pacing: Pacer,
    /// The greatest size of datagrams, and the search for a greater one (RFC 9000, section 14.3).
    pub mtud: MtuDiscovery,
    /// The word of the latest PATH_CHALLENGE, until the peer answers it (RFC 9000, section 8.2).
    pub challenge: Option<u64>,
    /// Whether that PATH_CHALLENGE waits to be sent.
    pub challenge_pending: bool,
    /// What is in flight of the packets that went on this path, in bytes and packets.
    pub in_flight: InFlight,
    /// Whether the peer is known to receive at its address (RFC 9000, section 8).
    pub validated: bool,
    /// The number of the first packet that went after the round trip was sampled: persistent
    /// congestion begins behind it (RFC 9002, section 7.6.2).
    pub first_packet_after_rtt_sample: Option<u64>,
    total_sent: u64,
    total_recvd: u64,
    generation: u64,
}

impl<C> Model for PathData<C> {
    ghost use Rattle.quic_paths.specs.Paths.{PathValue};

    ghost Value = { PathValue C };

    ghost view = { λ p. record {
      remote = p.remote;
      rtt = p.rtt;
      congestion = p.congestion;
      pacing = p.pacing;
      in_flight = p.in_flight;
      marks = p.sending_ecn;
      challenge = p.challenge;
      challenge_waits = p.challenge_pending;
      validated = p.validated;
      received = p.total_recvd;
      sent = p.total_sent;
      discovery = p.mtud;
      first_after_rtt = p.first_packet_after_rtt_sample;
      generation = p.generation;
    } };
}

impl<C: Controller> PathData<C> {
    /// A path to this address made now, of which nothing was measured but what the settings say,
    /// and whose peer isn't validated. The factory makes its controller for the size of datagrams
    /// that the settings begin with. A greater one is looked for where that is allowed and
    /// configured, within the peer's `max_udp_payload_size`, in bytes, if it is known.
    pub fn new<F: ControllerFactory<Controller = C>>(
        remote: Address,
        allow_mtud: bool,
        peer_max_udp_payload_size: Option<u16>,
        generation: u64,
        now: Instant,
        config: &TransportConfig,
        factory: &F,
    ) -> Self
        ensures { let controller = F.built factory.now now (first_mtu config.now) in
            let window = C.initial_of controller in
            result ≡ new_path remote allow_mtud peer_max_udp_payload_size generation now config.now controller window }
    {
        let mtu = config.get_initial_mtu();
        let rtt = first_estimate(config);
        let congestion = factory.build(now, mtu);
        PathData {
            remote,
            rtt,
            sending_ecn: true,
            pacing: Pacer::new(rtt.get(), congestion.initial_window(), mtu, now),
            congestion,
            mtud: first_mtud(allow_mtud, peer_max_udp_payload_size, config),
            challenge: None,
            challenge_pending: false,
            in_flight: InFlight::new(),
            validated: false,
            first_packet_after_rtt_sample: config.get_first_sample().map(|_| 0),
            total_sent: 0,
            total_recvd: 0,
            generation,
        }
    }

    /// A path to this address made now in place of another, as the peer's address changed (RFC
    /// 9000, section 9). Round trip, controller, path MTU discovery and the first packet after a
    /// sample are the other's, and the pacer is made for them. Nothing is in flight on it, and its
    /// peer isn't validated.
    ///
    /// # Errors
    ///
    /// - [`AllocError`]: an allocation fails, of room for the controller. The other path stays.
    pub fn from_previous(
        remote: Address,
        prev: &Self,
        generation: u64,
        now: Instant,
    ) -> Result<Self, AllocError>
        ensures { let window = C.window_of prev.now.congestion in
            IfOk result (λ path. path ≡ next_path remote prev.now generation now window) }
    {
        let congestion = prev.congestion.try_clone()?;
        let mtu = prev.mtud.current_mtu();
        Ok(PathData {
            remote,
            rtt: prev.rtt,
            sending_ecn: true,
            pacing: Pacer::new(prev.rtt.get(), congestion.window(), mtu, now),
            congestion,
            mtud: prev.mtud,
            challenge: None,
            challenge_pending: false,
            in_flight: InFlight::new(),
            validated: false,
            first_packet_after_rtt_sample: prev.first_packet_after_rtt_sample,
            total_sent: 0,
            total_recvd: 0,
            generation,
        })
    }

    /// Forgets now what was measured: round trip, controller, path MTU discovery and pacer are as
    /// on a new path of which no sample was taken before, within the peer's limit that is known.
    /// The rest stays. It is for a path of which it is known that it changed.
    pub fn reset<F: ControllerFactory<Controller = C>>(
        &mut self,
        now: Instant,
        config: &TransportConfig,
        factory: &F,
    )
        ensures { let controller = F.built factory.now now (first_mtu config.now) in
            let window = C.initial_of controller in
            self.new ≡ path_after_reset self.old now config.now controller window }
    {
        let mtu = config.get_initial_mtu();
        let initial_rtt = config.get_initial_rtt();
        let congestion = factory.build(now, mtu);
        self.rtt = RttEstimator::new(initial_rtt);
        self.pacing = Pacer::new(initial_rtt, congestion.initial_window(), mtu, now);
        self.congestion = congestion;
        self.mtud.reset(mtu, config.get_min_mtu());
    }
}

/// What is known of the round trip as the connection begins: a sample that was taken before, or
/// else it is assumed (RFC 9002, section 5).
fn first_estimate(config: &TransportConfig) -> RttEstimator
    ensures { result ≡ first_estimate config.now }
{
    match config.get_first_sample() {
        Some(sample) => RttEstimator::with_first_sample(sample.rtt, sample.variation),
        None => RttEstimator::new(config.get_initial_rtt()),
    }
}

impl<C> PathData<C> {
    /// The bytes that a datagram has at most, but for an MTU probe (RFC 9000, section 14).
    pub fn current_mtu(&self) -> u16
        ensures { result ≡ self.now.discovery.size }
    {
        self.mtud.current_mtu()
    }

    /// Which path of the connection it is: each has a number of its own.
    pub fn generation(&self) -> u64
        ensures { result ≡ self.now.generation }
    {
        self.generation
    }

    /// A packet goes on this path, into flight: its size in bytes, and whether it asks for an
    /// acknowledgement. [`InFlight::insert`] says what is required.
    pub fn sent(&mut self, size: u16, ack_eliciting: bool)
        requires { CanJoin self.old.in_flight size ack_eliciting }
        ensures { self.new ≡ path_with self.old size ack_eliciting }
    {
        self.in_flight.insert(size, ack_eliciting);
    }

    /// Takes a packet out of flight that went on the path of this generation: false, and nothing
    /// changes, where that is another path. Of this path it has to be one that went into flight.
    pub fn remove_in_flight(&mut self, generation: u64, size: u16, ack_eliciting: bool) -> bool
        requires { generation ≡ self.old.generation → CanLeave self.old.in_flight size ack_eliciting }
        ensures answer { result ≡ (generation == self.old.generation) }
        ensures next { self.new ≡ path_without self.old generation size ack_eliciting }
    {
        if generation != self.generation {
            return false;
        }
        self.in_flight.remove(size, ack_eliciting);
        true
    }

    /// The peer is asked to show that it receives at its address, by a PATH_CHALLENGE with this
    /// word (RFC 9000, section 8.2.1). It waits to be sent, and an earlier one counts no more.
    pub fn challenge_with(&mut self, token: u64)
        ensures { self.new ≡ path_challenged self.old token }
    {
        self.challenge = Some(token);
        self.challenge_pending = true;
    }

    /// The data of the pending PATH_CHALLENGE, if one is pending.
    pub fn waiting_challenge(&self) -> Option<u64>
        ensures { result ≡ challenge_to_send self.now }
    {
        if self.challenge_pending {
            self.challenge
        } else {
            None
        }
    }

    /// Takes the pending PATH_CHALLENGE, which is sent now: its data, if one is pending.
    pub fn pop_challenge(&mut self) -> Option<u64>
        ensures word { result ≡ challenge_to_send self.old }
        ensures next { self.new ≡ path_after_challenge (challenge_to_send self.old) self.old }
    {
        let token = self.waiting_challenge()?;
        self.challenge_pending = false;
        Some(token)
    }

    /// A PATH_RESPONSE with this word came: whether it answers the latest PATH_CHALLENGE. The
    /// peer's address is validated then, and nothing is asked of it any more (RFC 9000, section
    /// 8.2.3); else nothing changes.
    pub fn on_response(&mut self, token: u64) -> bool
        ensures answer { result ≡ answers self.old token }
        ensures next { self.new ≡ path_answered self.old token }
    {
        if self.challenge != Some(token) {
            return false;
        }
        self.challenge = None;
        self.challenge_pending = false;
        self.validated = true;
        true
    }

    /// A datagram of so many bytes came. The sum saturates, which never lets more go.
    pub fn on_datagram_received(&mut self, bytes: u64)
        ensures { self.new ≡ path_after_received self.old bytes }
    {
        self.total_recvd = self.total_recvd.saturating_add(bytes);
    }

    /// A datagram of so many bytes went. The sum saturates, but not where the peer isn't validated
    /// and [`anti_amplification_blocked`](Self::anti_amplification_blocked) let the bytes go.
    pub fn on_datagram_sent(&mut self, bytes: u64)
        ensures { self.new ≡ path_after_sent self.old bytes }
    {
        self.total_sent = self.total_sent.saturating_add(bytes);
    }

    /// Whether so many bytes have to wait: the peer isn't validated, and with them more would have
    /// gone to it than three times what came (RFC 9000, section 8.1), or more than 64 bits count.
    pub fn anti_amplification_blocked(&self, bytes_to_send: u64) -> bool
        ensures { result ≡ is_blocked self.now bytes_to_send }
    {
        let limit = self.total_recvd.saturating_mul(3);
        !self.validated
            && u128::from(limit) < u128::from(self.total_sent) + u128::from(bytes_to_send)
    }
}

/// The size with which a path begins, and the search for a greater one where it is allowed and
/// configured.
fn first_mtud(allowed: bool, limit: Option<u16>, config: &TransportConfig) -> MtuDiscovery
    ensures { result ≡ first_discovery allowed limit config.now }
{
    let mtu = config.get_initial_mtu();
    let least = config.get_min_mtu();
    match config.get_mtu_discovery_config() {
        Some(search) if allowed => MtuDiscovery::new(mtu, least, limit, search),
        _ => MtuDiscovery::disabled(mtu, least),
    }
}
