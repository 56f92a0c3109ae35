//! One end of a connection (RFC 9000).
ghost use Rattle.std.specs.Prelude.{◌≡◌, ◌≢◌, ◌<◌, ◌^◌, ◌↔◌, ◌||◌, not, false, IfOk, OnOk, OnErr, IfErr, IsTrue, Some, None, option_copied, if◌then◌else◌};
ghost use Rattle.quic_parameters.specs.Parameters.{AreInRange};
ghost use Rattle.quic_parameters.specs.ParametersRead.{parameters_at};
ghost use Rattle.quic_config.specs.Transport.{transport_of, first_mtu};
ghost use Rattle.quic_machine.specs.declared.answers.ConfigError.TheVariants as config_errors;
ghost use Rattle.quic_machine.specs.declared.answers.State.TheVariants as states;
ghost use Rattle.quic_machine.specs.End.{MadeFrom, refusal_of, limits_of, with_end, with_closing, with_numbers, with_loss_timer, with_window, side_of, peer_delay, probe_timeout, HasFailed, words_drawn};
ghost use Rattle.quic_connection_parts.specs.Drawn.{words_of, after_words};
ghost use Rattle.quic_connection_parts.specs.Telling.{IsRoomy, windows_at};
ghost use Rattle.quic_machine.specs.Parts.{current_mtu, signals_wait};
ghost use Rattle.quic_machine.specs.Closing.{ticked};
ghost use Rattle.quic_machine.specs.Heard.{nothing_heard};
ghost use Rattle.quic_machine.specs.Poll.{asks_to_go, message_waits};
ghost use Rattle.quic_streams_state.specs.Waiting.{is_empty, can_send_stream_data};
ghost use Rattle.quic_machine.specs.Receive.{after_taken};
ghost use Rattle.quic_machine.specs.Calls.{is_open, end_after_ping};
ghost use Rattle.quic_spaces.specs.Numbers.{number_opened};
ghost use Rattle.quic_recovery_core.specs.Duplicates.{is_duplicate};
ghost use Rattle.quic_time.specs.Rtt.{best_rtt};
ghost use Rattle.quic_time.specs.Timers.{no_timers};

mod ack_frequency;
mod acked;
mod closes;
mod handshake;
mod id_frames;
mod idle;
mod limits;
mod messages;
mod migration;
mod packet;
mod polling;
mod printing;
mod receiving;
mod searching;
mod sent;
mod statistics;
mod timeouts;
mod validation;

use quic_congestion::{Controller, ControllerFactory};
use quic_connection_parts::Config;
use quic_connection_parts::closing::Closing;
use quic_connection_parts::idle::negotiate_max_idle_timeout;
use quic_connection_parts::ids::Ids;
use quic_connection_parts::making::{
    first_filter, first_path, first_streams, refusal, told_ack_delay,
};
use quic_connection_parts::receiving::AckDemand;
use quic_machine::{ConfigError, Instant, LostReason, State, TransportConfig};
use quic_messages::DatagramState;
use quic_packet::crypto::{HeaderKey, Keys, PacketKey};
use quic_parameters::TransportParameters;
use quic_paths::{Address, PathData, PathResponses};
use quic_recovery_core::AckFrequencyState;
use quic_send_buffer::StreamMeta;
use quic_sent_packets::SentPacket;
use quic_spaces::{PacketNumberFilter, PacketSpace, ack_due};
use quic_stats::ConnectionStats;
use quic_streams_handles::{EndStreams, RecvStream, SendStream, Streams};
use quic_time::{Duration, Timer, TimerTable};
use quic_wire_core::{ConnectionId, EcnCodepoint, Side, StreamId};
use rand_core::Rng;
use std::alloc::{AllocError, Global};
use std::marker::Model;

/// One endpoint of a connection: a deterministic state machine of datagrams, times and application
/// calls (quinn-proto's `Connection`, without handshake and sockets).
///
/// Contracts see its keys, its random source, its congestion controller, its statistics of
/// datagrams, and the record of its state.
#[derive(Drop)]
pub struct Connection<H, K, R, C: Controller> {
    closing: Closing,
    ids: Ids,
    // The only packet number space there is: that of short headers.
    space: PacketSpace,
    // Which packet numbers are left out.
    filter: PacketNumberFilter,
    // How often acknowledgements were asked for.
    ack_frequency: AckFrequencyState,
    // How many ACK_FREQUENCY frames went.
    requests: u64,
    timers: TimerTable,
    // How long the connection may be without a packet, if both ends don't let it be so without end;
    // and whether the next packet that is given and asks lets that time begin anew.
    idle_timeout: Option<Duration>,
    permit_idle_reset: bool,
    // The path to the peer, with its controller, its pacer and what is in flight.
    path: PathData<C>,
    // The answer to the peer's challenge that waits.
    path_responses: PathResponses,
    // How many challenges were made, each by a word of the random source.
    challenges: u64,
    // What the controller showed at the last poll.
    window: u64,
    // Whether the last poll found that one more datagram would come to more than three times what
    // came, to a peer whose address isn't validated.
    blocked: bool,
    // Whether the last poll gave nothing though neither window nor pacer held anything back.
    app_limited: bool,
    transport: TransportConfig,
    // What the peer told of itself.
    peer_params: TransportParameters,
    // All streams, and what waits to be sent beside their bytes.
    streams: EndStreams,
    // All messages, and how often the application has still to be told that one came.
    datagrams: DatagramState,
    messages_to_tell: u64,
    // Whether the handshake is confirmed, and whether the application has still to be told.
    handshake_confirmed: bool,
    confirmation_to_tell: bool,
    // How many packets didn't open under its keys.
    authentication_failures: u64,
    // What was counted. Contracts don't see it.
    stats: ConnectionStats,
    keys: Keys<H, K>,
    random: R,
    // Memory that is kept for the STREAM frames of the next packets. Contracts don't see it.
    spare_frames: Vec<Vec<StreamMeta>>,
    // And for the packets that the next ACK frame acknowledges: kept while packets are in flight.
    spare_acked: Vec<(u64, SentPacket)>,
    alloc: Global,
}

impl<H, K, R, C: Controller> Model for Connection<H, K, R, C> {
    ghost use Rattle.std.specs.Prelude.{◌≡◌, ◌≤◌, ◌^◌};
    ghost use Rattle.quic_parameters.specs.Parameters.{AreInRange};
    ghost use Rattle.quic_wire.specs.AckView.{counts_view};
    ghost use Rattle.quic_machine.specs.End.{ConnectionValue};
    ghost use Rattle.quic_machine.specs.Idle.{agreed_timeout};
    ghost use Rattle.quic_paths.specs.Paths.{challenge_to_send};
    ghost use Rattle.quic_connection_parts.specs.Telling.{AreSizes};
    ghost use Rattle.quic_connection_parts.specs.Flying.{IsInFlight};
    ghost use Rattle.quic_spaces.specs.Numbers.{expected};

    ghost Value = { ConnectionValue H K R C };

    ghost view = { λ c. record {
      keys = c.keys;
      random = c.random;
      control = c.path.congestion;
      heard = record { received = c.path.received; sent = c.path.sent; failures = c.authentication_failures };
      end = record {
        closing = c.closing;
        ids = c.ids;
        numbers = c.space.numbers;
        filter = c.filter;
        acknowledging = c.space.acknowledging;
        frequency = c.ack_frequency;
        marks = record { came = counts_view c.space.ecn_counters; told = counts_view c.space.ecn_feedback };
        timers = c.timers;
        tracking = c.space.tracking;
        idle_armed = c.permit_idle_reset;
        path = record {
          remote = c.path.remote;
          validated = c.path.validated;
          generation = c.path.generation;
          discovery = c.path.discovery;
          blocked = c.blocked;
          rtt = c.path.rtt;
          first_after_rtt = c.path.first_after_rtt;
          window = c.window;
          pacing = c.path.pacing;
          app_limited = c.app_limited;
          marking = c.path.marks;
        };
        validation = record { challenge = c.path.challenge; drawn = c.challenges };
        transport = c.transport;
        peer_params = c.peer_params;
        streams = c.streams.state;
        messages = record { queues = c.datagrams; to_tell = c.messages_to_tell };
        waiting = record {
          signals = record { challenge = challenge_to_send c.path; response = c.path_responses; ping = c.space.ping_pending; immediate = c.space.immediate_ack_pending };
          frames = c.streams.pending;
        };
        confirmation = record { confirmed = c.handshake_confirmed; to_tell = c.confirmation_to_tell };
      };
    } };

    // The idle timeout is that of both ends' settings. The size of datagrams lies between 1200
    // bytes and what the peer takes, the controller was told no less, and two datagrams fit the
    // window. In flight is what is tracked, asks, and went on the path. Each path after the first
    // came by a packet whose number is above all that were taken before. ACK_FREQUENCY frames are
    // numbered one after another.
    ghost invariant = { λ c. (c.idle_timeout ≡ agreed_timeout c.transport c.peer_params)
        × AreInRange c.peer_params
        × AreSizes C.size_of C.window_of c.peer_params.max_udp_payload_size c.path.discovery c.path.congestion c.window
        × IsInFlight c.path.generation c.space.numbers.next c.space.tracking.packets c.path.in_flight
        × (c.path.generation ≤ expected c.space.numbers)
        × (c.ack_frequency.next ≡ c.requests)
        × (c.requests ≤ 2 ^ 62) };
}

impl<H: HeaderKey + Drop, K: PacketKey + Drop, R: Rng + Drop, C: Controller> Connection<
    H,
    K,
    R,
    C,
> {
    /// Makes an endpoint at this time. Its limits are the peer's transport parameters, as the
    /// peer's `Config::write_parameters` wrote them. Both IDs were exchanged before, and datagrams
    /// go to the peer at `remote`. What `keys.header.local` and `keys.packet.local` seal, the
    /// peer's `remote` ones open, and the other way round.
    ///
    /// `validated` says whether the peer's address is validated already (RFC 9000, section 8). If
    /// it isn't, the endpoint sends no more than three times the bytes that come, and a
    /// PATH_CHALLENGE is pending, until the peer has answered one; [`Timer::PathValidation`] is set
    /// to three probe timeouts later.
    ///
    /// `random` is the endpoint's random source, of `u64` values. One says which packet number is
    /// skipped first, and each time that one is skipped, another says which is next (RFC 9000,
    /// section 21.4). The data of each PATH_CHALLENGE is one of its own. Each own ID but the first
    /// takes three, for itself and its token.
    ///
    /// The endpoint issues IDs at once, up to as many as the peer takes, the first one among them,
    /// and 8 at most (sections 5.1.1 and 18.2): its first datagrams carry them to the peer.
    ///
    /// The factory of the configuration makes the congestion controller, for the size of datagrams
    /// that the path begins with.
    ///
    /// # Errors
    ///
    /// - [`ConfigError::Parameters`]: the peer's parameters are malformed, or have a value out of
    ///   range. No endpoint is made.
    /// - [`ConfigError::IdLength`]: the own ID hasn't eight bytes, or the peer's has none. No
    ///   endpoint is made.
    /// - [`ConfigError::Size`]: a size of datagrams is above 65527 bytes, or the least is above the
    ///   peer's max_udp_payload_size. No endpoint is made.
    /// - [`ConfigError::Window`]: the congestion controller's window doesn't hold two datagrams of
    ///   the size that the path begins with. No endpoint is made.
    /// - [`ConfigError::KeyLimit`]: the own key may seal fewer than 16 packets, or the peer's may
    ///   refuse fewer. No endpoint is made.
    /// - [`ConfigError::FirstSample`]: the time or the variation of the first sample is 0 or above
    ///   60 s. No endpoint is made.
    /// - [`ConfigError::Memory`]: an allocation fails, of room for the IDs. No endpoint is made.
    pub fn new<F: ControllerFactory<Controller = C>>(
        alloc: Global,
        side: Side,
        config: &Config<F>,
        peer_parameters: &[u8],
        own_id: ConnectionId,
        peer_id: ConnectionId,
        remote: Address,
        keys: Keys<H, K>,
        now: Instant,
        random: R,
        validated: bool,
    ) -> Result<Connection<H, K, R, C>, ConfigError>
        ensures made { IfOk result (λ c. MadeFrom side config.now.settings (windows_at C.initial_of C.window_of c.control) peer_parameters.now own_id peer_id remote now validated (words_of R.stream random) c.end) }
        ensures control { IfOk result (λ c. c.control ≡ F.built config.now.factory now (first_mtu (transport_of config.now.settings))) }
        ensures roomy { IfOk result (λ c. IsRoomy C.size_of C.window_of c.control (first_mtu c.end.transport)) }
        ensures keys { IfOk result (λ c. c.keys ≡ keys) }
        ensures random { IfOk result (λ c. R.stream c.random ≡ after_words (words_drawn c.end) (R.stream random)) }
        ensures heard { IfOk result (λ c. c.heard ≡ nothing_heard) }
        ensures refusal { IfErr result (λ e. e ≢ config_errors.Memory → Some e ≡ refusal_of config.now.settings (C.window_of (F.built config.now.factory now (first_mtu (transport_of config.now.settings)))) (limits_of K.seal_limit K.refusal_limit keys) (parameters_at peer_parameters.now) own_id peer_id) }
        ensures lawful { OnOk result (refusal_of config.now.settings (C.window_of (F.built config.now.factory now (first_mtu (transport_of config.now.settings)))) (limits_of K.seal_limit K.refusal_limit keys) (parameters_at peer_parameters.now) own_id peer_id ≡ None) }
    {
        let Ok(theirs) = TransportParameters::read(side, peer_parameters) else {
            drop(keys);
            drop(random);
            return Err(ConfigError::Parameters);
        };
        let transport = config.transport();
        // The proof reads between which sizes the search stays.
        let _first = transport.get_initial_mtu();
        let _least = transport.get_min_mtu();
        let _search = transport.get_mtu_discovery_config();
        let mut path = first_path(remote, now, &transport, config.factory(), &theirs);
        let window = path.congestion.window();
        if let Some(error) = refusal(&transport, window, &keys, &theirs, own_id, peer_id) {
            drop(path);
            drop(keys);
            drop(random);
            return Err(error);
        }
        path.validated = validated;
        let mut random = random;
        let filter = first_filter(&mut random);
        let mut streams = first_streams(alloc, side, &transport, &theirs);
        let Ok(ids) = Ids::new(
            alloc,
            now,
            own_id,
            peer_id,
            theirs.active_connection_id_limit,
            &mut random,
            &mut streams.pending,
        ) else {
            drop(streams);
            drop(path);
            drop(keys);
            drop(random);
            return Err(ConfigError::Memory);
        };
        let connection = Connection {
            closing: Closing::new(now),
            ids,
            space: PacketSpace::new(alloc, now),
            filter,
            ack_frequency: AckFrequencyState::new(told_ack_delay(&theirs)),
            requests: 0,
            timers: TimerTable::default(),
            idle_timeout: negotiate_max_idle_timeout(&transport, &theirs),
            permit_idle_reset: true,
            path,
            path_responses: PathResponses::new(),
            challenges: 0,
            window,
            blocked: false,
            app_limited: false,
            transport,
            peer_params: theirs,
            streams,
            datagrams: DatagramState::new(alloc),
            messages_to_tell: 0,
            handshake_confirmed: false,
            confirmation_to_tell: false,
            authentication_failures: 0,
            stats: ConnectionStats::default(),
            keys,
            random,
            spare_frames: Vec::new(alloc),
            spare_acked: Vec::new(alloc),
            alloc,
        };
        Ok(connection.validating())
    }

    /// Whether the endpoint is no longer open: it is closing, drained or failed (RFC 9000, section
    /// 10).
    pub fn is_closed(&self) -> bool
        ensures { IsTrue result ↔ (self.now.end.closing.state ≢ states.Open) }
    {
        self.closing.state() != State::Open
    }

    /// Whether the endpoint is drained: it sends nothing more and drops what comes (RFC 9000,
    /// section 10.2.2).
    pub fn is_drained(&self) -> bool
        ensures { IsTrue result ↔ (self.now.end.closing.state ≡ states.Drained) }
    {
        self.closing.state() == State::Drained
    }

    /// Whether an allocation failed where a datagram was taken or given, or packets were lost at a
    /// timeout.
    pub fn is_failed(&self) -> bool
        ensures { IsTrue result ↔ (self.now.end.closing.state ≡ states.Failed) }
    {
        self.closing.state() == State::Failed
    }

    /// Whether the peer's address is validated (RFC 9000, section 8): it was as the endpoint was
    /// made, or the peer answered a PATH_CHALLENGE. It stays so until the peer moves to another
    /// address, as it may at a server (section 9).
    pub fn is_validated(&self) -> bool
        ensures { result ≡ self.now.end.path.validated }
    {
        self.path.validated
    }

    /// How many bytes may be in flight, as the congestion controller says (RFC 9002, section 7).
    pub fn window(&self) -> u64
        ensures { result ≡ C.window_of self.now.control }
    {
        self.path.congestion.window()
    }

    /// The bytes that a datagram has at most, but for an MTU probe (RFC 9000, section 14).
    pub fn current_mtu(&self) -> u16
        ensures { result ≡ current_mtu self.now.end.path }
    {
        self.path.current_mtu()
    }

    /// How long a round trip takes, as estimated now: the smoothed time, and before the first
    /// sample the one that is assumed (RFC 9002, section 5.3; quinn-proto's `Connection::rtt`). The
    /// same as `path.rtt` of [`Connection::stats`].
    pub fn rtt(&self) -> Duration
        ensures { result ≡ best_rtt self.now.end.path.rtt }
    {
        self.path.rtt.get()
    }

    /// How many probe timeouts passed since an ACK came (RFC 9002, section 6.2.1; quinn-proto's
    /// `pto_count`). Each doubles the next one, the first 16 of them.
    pub fn pto_count(&self) -> u64
        ensures { result ≡ self.now.end.tracking.timeouts }
    {
        self.space.tracking.timeouts()
    }

    /// The address to which the next datagram is to go (quinn-proto's
    /// `Connection::remote_address`).
    pub fn remote_address(&self) -> Address
        ensures { result ≡ self.now.end.path.remote }
    {
        self.path.remote
    }

    /// The connection ID that the next datagram is sent to: the one of the peer's that is in use
    /// (RFC 9000, section 5.1). It changes as the peer retires it.
    pub fn peer_id(&self) -> ConnectionId
        ensures { result ≡ self.now.end.ids.peer.id }
    {
        self.ids.destination()
    }

    /// Why the endpoint isn't open: what closed it, or `None` if nothing did. A failed endpoint has
    /// no reason, whether it had closed before or not.
    pub fn lost(&self) -> Option<&LostReason>
        ensures { option_copied result ≡ self.now.end.closing.reason }
    {
        self.closing.reason()
    }

    /// The state of the endpoint: open, or else in which way it isn't (RFC 9000, section 10).
    pub fn state(&self) -> State
        ensures state { result ≡ self.now.end.closing.state }
        ensures no_reason { self.now.end.closing.state ≡ states.Failed → self.now.end.closing.reason ≡ None }
    {
        self.closing.state()
    }

    /// Advances the endpoint's time to this one.
    fn tick(&mut self, now: Instant)
        ensures { self.new ≡ with_end self.old (with_closing self.old.end (ticked self.old.end.closing now)) }
    {
        self.closing.tick(now);
    }

    /// Notes that a packet of this number opened. Returns whether it is a duplicate, which changes
    /// nothing.
    fn open_number(&mut self, number: u64) -> bool
        requires { number < 2 ^ 62 }
        ensures answer { result ≡ is_duplicate self.old.end.numbers.opened number }
        ensures next { self.new ≡ with_end self.old (with_numbers self.old.end (if is_duplicate self.old.end.numbers.opened number then self.old.end.numbers else number_opened self.old.end.numbers number)) }
    {
        self.space.numbers.open(number)
    }

    /// Notes that the whole payload of a packet of this number was processed, what its frames ask
    /// for, and with which codepoint it came. Its number is to be acknowledged, and the idle and
    /// keep-alive times begin anew. Fails if out of memory; nothing has changed then.
    fn take_number(
        &mut self,
        number: u64,
        demand: AckDemand,
        ecn: Option<EcnCodepoint>,
    ) -> Result<(), AllocError>
        requires { number < 2 ^ 62 }
        ensures ok { OnOk result (self.new ≡ with_end self.old (after_taken number demand.asks demand.urged ecn self.old.end)) }
        ensures err { OnErr result (self.new ≡ self.old) }
    {
        let now = self.closing.clock();
        let space = &mut self.space;
        let waits = space.acknowledging.take(
            number,
            now,
            demand.asks,
            demand.urged,
            space.numbers.dedup(),
        )?;
        space.numbers.take(number);
        space.on_mark(ecn);
        if waits {
            self.timers.set(
                Timer::MaxAckDelay,
                ack_due(self.ack_frequency.max_ack_delay(), now),
            );
        }
        self.on_packet_taken();
        self.set_loss_timer();
        Ok(())
    }

    /// The peer's max_ack_delay: as it advertised (RFC 9000, section 18.2), or as ACK_FREQUENCY
    /// asked for, once that is acknowledged.
    fn peer_delay(&self) -> Duration
        ensures { result ≡ peer_delay self.now.end }
    {
        self.ack_frequency.peer_max_ack_delay()
    }

    /// The probe timeout, without back-off (RFC 9002, section 6.2.1).
    fn probe_timeout(&self) -> Duration
        ensures { result ≡ probe_timeout self.now.end }
    {
        self.path.rtt.pto_base() + self.ack_frequency.max_ack_delay_for_pto()
    }

    /// Sets the loss timer to where the tracked packets put it, or stops it.
    fn set_loss_timer(&mut self)
        ensures { self.new ≡ with_end self.old (with_loss_timer self.old.end) }
    {
        match self.space.tracking.loss_moment(self.probe_timeout()) {
            Some(moment) => self.timers.set(Timer::LossDetection, moment),
            None => self.timers.stop(Timer::LossDetection),
        }
    }

    /// Stores the congestion controller's window, which the poll under way goes by.
    fn read_window(&mut self)
        ensures { self.new ≡ with_end self.old (with_window self.old.end (C.window_of self.old.control)) }
    {
        self.window = self.path.congestion.window();
    }

    /// Queues a PING, so that the peer acknowledges (RFC 9000, section 19.2). Two before it is sent
    /// are one.
    pub fn ping(&mut self)
        ensures { self.new ≡ with_end self.old (end_after_ping self.old.end) }
    {
        self.space.ping_pending = true;
    }

    /// Whether the endpoint is the client or the server (quinn-proto's `Connection::side`).
    pub fn side(&self) -> Side
        ensures { result ≡ side_of self.now.end }
    {
        self.streams.state.side()
    }

    /// Fails for good: no timer is set any more. The controller isn't notified.
    fn fail(&mut self)
        ensures failed { HasFailed self.old self.new }
        ensures control { self.new.control ≡ self.old.control }
        ensures stopped { self.new.end.timers ≡ no_timers }
    {
        self.closing.fail();
        self.stop_timers();
    }

    /// Stops all timers.
    fn stop_timers(&mut self)
        ensures { self.new ≡ with_end self.old (record self.old.end { timers = no_timers }) }
    {
        self.timers = TimerTable::default();
    }

    /// Whether something ack-eliciting is pending.
    fn asks_to_go(&self) -> bool
        ensures { result ≡ asks_to_go self.now.end }
    {
        self.signals_wait() || self.frames_wait()
    }

    /// Whether PATH_CHALLENGE, PATH_RESPONSE, PING or IMMEDIATE_ACK is pending.
    fn signals_wait(&self) -> bool
        ensures { result ≡ signals_wait self.now.end.waiting.signals }
    {
        self.path_frames_wait() || self.space.ping_pending || self.space.immediate_ack_pending
    }

    /// Whether control frames of streams or IDs, messages or stream data are pending that may be
    /// sent.
    fn frames_wait(&self) -> bool
        ensures { result ≡ (not (is_empty self.now.end.waiting.frames self.now.end.streams) || (message_waits self.now.end || can_send_stream_data self.now.end.streams)) }
    {
        // Mostly stream data is pending, and what else is needn't be looked for.
        self.bytes_wait() || !self.streams.pending.is_empty(&self.streams.state)
    }

    /// Whether a message that fits a datagram is pending, or stream data.
    fn bytes_wait(&self) -> bool
        ensures { result ≡ (message_waits self.now.end || can_send_stream_data self.now.end.streams) }
    {
        self.streams.state.can_send_stream_data() || self.message_waits()
    }
}

impl<H, K, R, C: Controller> Connection<H, K, R, C> {
    ghost use Rattle.std.specs.Borrow.{sem};
    ghost use denote.Follow.{follows};
    ghost use Rattle.quic_connection_core.specs.contracts.connection.Connection.{the_row as connection_row};
    ghost use Rattle.quic_streams_handles.specs.contracts.end_streams.EndStreams.{the_row as streams_row};
    ghost use Rattle.quic_connection_core.specs.Handed.{handed_back};

    /// Whether the endpoint sends and receives.
    pub fn is_open(&self) -> bool
        ensures { result ≡ is_open self.now.end.closing.state }
    {
        match self.closing.state() {
            State::Open => true,
            State::Closing | State::Drained | State::Failed => false,
        }
    }

    /// All streams of the endpoint, and the control frames that are pending: what its handles
    /// borrow.
    pub fn streams_mut(&mut self) -> &mut EndStreams
        ensures* writes_back { sem 𝓛 (follows (connection_row H.row K.row R.row C.row C.Controller) streams_row self.entry.ghost_name result.ghost_name (handed_back self.old)) }
        ensures state { result.now.state ≡ self.old.end.streams }
        ensures pending { result.now.pending ≡ self.old.end.waiting.frames }
    {
        &mut self.streams
    }

    /// The streams of the endpoint (quinn-proto's `Connection::streams`).
    pub fn streams(&mut self) -> Streams<'_>
        ensures* writes_back { sem 𝓛 (follows (connection_row H.row K.row R.row C.row C.Controller) streams_row self.entry.ghost_name result.streams.ghost_name (handed_back self.old)) }
        ensures state { result.streams.now.state ≡ self.old.end.streams }
        ensures pending { result.streams.now.pending ≡ self.old.end.waiting.frames }
        ensures open { result.is_open ≡ is_open self.old.end.closing.state }
    {
        let is_open = self.is_open();
        Streams::new(&mut self.streams, is_open)
    }

    /// The send half of a stream (quinn-proto's `Connection::send_stream`), which needn't exist.
    pub fn send_stream(&mut self, id: StreamId) -> SendStream<'_>
        ensures* writes_back { sem 𝓛 (follows (connection_row H.row K.row R.row C.row C.Controller) streams_row self.entry.ghost_name result.streams.ghost_name (handed_back self.old)) }
        ensures state { result.streams.now.state ≡ self.old.end.streams }
        ensures pending { result.streams.now.pending ≡ self.old.end.waiting.frames }
        ensures open { result.is_open ≡ is_open self.old.end.closing.state }
        ensures stream { result.id ≡ id }
    {
        let is_open = self.is_open();
        SendStream::new(id, &mut self.streams, is_open)
    }

    /// The receive half of a stream (quinn-proto's `Connection::recv_stream`), which needn't exist.
    pub fn recv_stream(&mut self, id: StreamId) -> RecvStream<'_>
        ensures* writes_back { sem 𝓛 (follows (connection_row H.row K.row R.row C.row C.Controller) streams_row self.entry.ghost_name result.streams.ghost_name (handed_back self.old)) }
        ensures state { result.streams.now.state ≡ self.old.end.streams }
        ensures pending { result.streams.now.pending ≡ self.old.end.waiting.frames }
        ensures stream { result.id ≡ id }
    {
        RecvStream::new(id, &mut self.streams)
    }
}
