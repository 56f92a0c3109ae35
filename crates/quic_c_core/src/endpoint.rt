//! An endpoint, and what is handed in and out between it and its peer.
ghost use Rattle.std.specs.Prelude.{ℕ, ◌≡◌, ◌≢◌, ◌≤◌, ◌<◌, ◌==◌, ◌^◌, List, ◌++◌, Ok, Err, Some, None, IfSome, IfOk, IfErr, OnOk, OnErr, length, drop, ok_or, is_some};
ghost use Rattle.quic_time.specs.Rtt.{best_rtt};
ghost use Rattle.quic_time.specs.Timers.{next_timer};
ghost use Rattle.quic_machine.specs.Parts.{current_mtu};
ghost use Rattle.quic_machine.specs.End.{with_end, HasFailed};
ghost use Rattle.quic_machine.specs.Opens.{would_open};
ghost use Rattle.quic_machine.specs.Calls.{end_tells, end_after_event, end_after_ping, end_after_close};
ghost use Rattle.quic_machine.specs.IdFrames.{end_routes, end_after_routed, next_id_answer, after_next_id};
ghost use Rattle.quic_machine.specs.Handshake.{done_answer, after_done};
ghost use Rattle.quic_streams_state.specs.Opening.{open_answer, after_open, accept_answer, after_accept};
ghost use Rattle.quic_streams_state.specs.Writing.{write_answer, after_write, finish_answer, after_finish, reset_answer, after_reset, set_priority_answer, after_set_priority};
ghost use Rattle.quic_streams_state.specs.Reading.{stop_answer, after_stop};
ghost use Rattle.quic_messages.specs.Sending.{send_answer, after_send};
ghost use Rattle.quic_machine.specs.MessageCalls.{limits_of, most_message};
ghost use Rattle.quic_connection_core.specs.Handed.{messages_back};
ghost use Rattle.quic_c_core.specs.Answers.{mark_of, mark_number, dir_numbered, received_number, dropped_number, state_number, named, of_done, of_next_id, of_write, of_finish, of_update, of_send, put_answer, put_into};
ghost use Rattle.quic_c_core.specs.Events.{IsLostText, IsTold};
ghost use Rattle.quic_c_core.specs.Unread.{next_message, left_there, read_answer, filled_with, kept_of};
ghost use Rattle.quic_c_core.specs.Conn.{policy_at, received_at, received_end, polled_at, datagram_at, given_of, timed_out_at, next_or_never, with_streams_at, opened};

use crate::call_error::CallError;
use crate::calls::Calls;
use crate::events::{EventRecord, lost_text};
use crate::figures::Stats;
use crate::messages;
use crate::own_ids::IdRecord;
use crate::settings::Settings;
use crate::streams::{self, code_of, dir_of, stream_of};
use quic_connection::{
    Address, Bytes, Config, Connection, ConnectionId, DropReason, EcnCodepoint, Instant, Making,
    NewReno, NewRenoConfig, Received, RecvStream, SendStream, Side, State, StreamId,
    TransportConfig, TransportParameters, VarInt,
};
use quic_keys::{PlainHeaderKey, PlainKey};
use rand_chacha::ChaCha20Rng;
use rand_core::SeedableRng;
use std::alloc::{AllocError, Global};

/// The deadline where none is set.
pub const NEVER: u64 = u64::MAX;

/// How many bytes a connection ID has at most (RFC 9000, section 17.2).
const MAX_ID_LENGTH: usize = 20;

/// A connection with stand-in keys, whose random words nobody guesses who hasn't its seed.
type Conn = Connection<PlainHeaderKey, PlainKey, ChaCha20Rng, NewReno>;

/// An endpoint of a connection.
pub struct Endpoint {
    alloc: Global,
    conn: Conn,
    // No datagram is longer, in bytes.
    room: usize,
    // A datagram that was made, on its way to the host.
    out: Vec<u8>,
    // A message that was taken off the connection, and didn't fit the host's room.
    unread: Option<Bytes>,
}

// By hand, so that how each part of a connection is let go is proved in this crate alone, and not
// in each crate that lets an endpoint go.
impl Drop for Endpoint {
    fn drop(self) {
        let Endpoint {
            alloc: _,
            conn,
            room: _,
            out: _,
            unread: _,
        } = self;
        drop(conn);
    }
}

/// The first connection IDs of an endpoint and of its peer, as they were handed in.
#[derive(Clone, Copy, Debug)]
pub struct FirstIds<'a> {
    /// The endpoint's own, of eight bytes.
    pub own: &'a [u8],
    /// The peer's, of 1 to 20 bytes.
    pub peer: &'a [u8],
}

/// What an endpoint knows of its peer and of itself as it is made.
#[derive(Clone, Copy, Debug)]
pub struct Peer<'a> {
    /// Which side the endpoint is: 0 the client, 1 the server.
    pub side: u32,
    /// Both first connection IDs.
    pub ids: FirstIds<'a>,
    /// The peer's transport parameters.
    pub parameters: &'a [u8],
    /// By which number the host knows the peer's first address.
    pub address: u64,
}

/// The side of this number.
fn side_of(side: u32) -> Result<Side, CallError> {
    match side {
        0 => Ok(Side::Client),
        1 => Ok(Side::Server),
        _ => Err(CallError::Invalid),
    }
}

/// The connection ID of these bytes, of which there are 1 to 20.
fn id_of(bytes: &[u8]) -> Result<ConnectionId, CallError> {
    if bytes.is_empty() || bytes.len() > MAX_ID_LENGTH {
        return Err(CallError::IdLength);
    }
    Ok(ConnectionId::new(bytes))
}

/// The random source that this seed, of 32 bytes, comes to.
fn random_of(seed: &[u8]) -> Result<ChaCha20Rng, CallError> {
    if seed.len() != 32 {
        return Err(CallError::Seed);
    }
    let mut bytes = [0u8; 32];
    bytes.copy_from_slice(seed);
    Ok(ChaCha20Rng::from_seed(bytes))
}

/// The longest datagram that an endpoint with these settings makes, MTU probes among them.
fn longest_datagram(transport: &TransportConfig) -> usize {
    let first = transport.get_initial_mtu();
    let longest = match transport.get_mtu_discovery_config() {
        Some(discovery) => first.max(discovery.size_bound()),
        None => first,
    };
    longest as usize
}

/// Copies bytes to the front of a room: how many.
///
/// # Errors
///
/// - [`CallError::Room`]: the room is smaller; nothing is copied.
pub(crate) fn put(out: &mut [u8], bytes: &[u8]) -> Result<usize, CallError>
    ensures fits { OnOk result (length bytes.now ≤ length out.old) }
    ensures length { IfOk result (λ n. n ≡ length bytes.now) }
    ensures copied { OnOk result (out.new ≡ bytes.now ++ drop (length bytes.now) out.old) }
    ensures room { IfErr result (λ e. (e ≡ CallError.Room) × (out.new ≡ out.old)) }
    ensures small { OnErr result (length out.old < length bytes.now) }
    ensures answer { result ≡ put_answer bytes.now (length out.old) }
    ensures filled { out.new ≡ put_into bytes.now out.old }
{
    let length = bytes.len();
    if length > out.len() {
        return Err(CallError::Room);
    }
    out[..length].copy_from_slice(bytes);
    Ok(length)
}

/// Writes the transport parameters that an endpoint with these settings tells its peer: how many
/// bytes they have.
///
/// # Errors
///
/// - [`CallError::Size`], [`CallError::Setting`]: as of [`Settings::config`].
/// - [`CallError::Room`]: the room is too small.
/// - [`CallError::Memory`]: an allocation fails.
pub fn parameters(alloc: Global, settings: &Settings, out: &mut [u8]) -> Result<usize, CallError> {
    let config = settings.config()?;
    let list = config.write_parameters(alloc, &TransportParameters::ORDER)?;
    put(out, &list)
}

/// What a connection is made of, but for what it knows of its peer.
fn making(
    settings: &Settings,
    config: Config<NewRenoConfig>,
    side: Side,
    id: ConnectionId,
    remote: Address,
    random: ChaCha20Rng,
) -> Making<NewRenoConfig, PlainHeaderKey, PlainKey, ChaCha20Rng> {
    Making {
        config,
        id,
        remote,
        keys: settings.keys(side),
        random,
        validated: settings.address_validated == 1,
    }
}

impl Endpoint {
    /// The endpoint of a connection, on the heap. An `Err` is want of memory.
    fn boxed(
        alloc: Global,
        conn: Conn,
        room: usize,
        out: Vec<u8>,
    ) -> Result<Box<Endpoint>, AllocError> {
        let endpoint = Endpoint {
            alloc,
            conn,
            room,
            out,
            unread: None,
        };
        Ok(Box::new(alloc, endpoint)?)
    }
}

impl Calls for Endpoint {
    fn new(
        alloc: Global,
        settings: &Settings,
        peer: &Peer<'_>,
        seed: &[u8],
        now: u64,
    ) -> Result<Box<Endpoint>, CallError> {
        let config = settings.config()?;
        let side = side_of(peer.side)?;
        let random = random_of(seed)?;
        let own_id = id_of(peer.ids.own)?;
        let peer_id = id_of(peer.ids.peer)?;
        let room = longest_datagram(&config.transport());
        let out = Vec::with_capacity(alloc, room)?;
        let making = making(
            settings,
            config,
            side,
            own_id,
            Address(peer.address),
            random,
        );
        let now = Instant::from_nanos(now);
        let conn = making.connection(alloc, side, now, peer.parameters, peer_id)?;
        Ok(Endpoint::boxed(alloc, conn, room, out)?)
    }

    fn receive(
        &mut self,
        now: u64,
        address: u64,
        ecn: u32,
        datagram: &mut [u8],
    ) -> Result<u32, CallError>
        ensures invalid { mark_of ecn ≡ None → (result ≡ Err CallError.Invalid) × (self.new ≡ self.old) }
        ensures answer { IfSome (mark_of ecn) (λ mark. result ≢ Err CallError.Failed → result ≡ received_number (received_at self.old.conn now address mark datagram.old).answer) }
        ensures end { IfSome (mark_of ecn) (λ mark. result ≢ Err CallError.Failed → self.new.conn.end ≡ received_end self.old.conn now address mark datagram.old) }
        ensures others { self.new ≡ record self.old { conn = self.new.conn } }
    {
        let ecn = ecn_of(ecn)?;
        let now = Instant::from_nanos(now);
        came(&self.conn.receive(now, Address(address), ecn, datagram))
    }

    fn poll(&mut self, now: u64, out: &mut [u8]) -> Result<Option<(usize, u32)>, CallError>
        ensures room { length out.old < self.old.room → (result ≡ Err CallError.Room) × (self.new ≡ self.old) × (out.new ≡ out.old) }
        ensures given { IfOk result (λ given. given ≡ given_of (polled_at self.old.conn now).answer (length (datagram_at self.old.conn now))) }
        ensures datagram { IfOk result (λ given. IfSome given (λ _. out.new ≡ datagram_at self.old.conn now ++ drop (length (datagram_at self.old.conn now)) out.old)) }
        ensures nothing { result ≡ Ok None → out.new ≡ out.old }
        ensures end { OnOk result (self.new.conn.end ≡ (polled_at self.old.conn now).end) }
        ensures others { self.new ≡ record self.old { conn = self.new.conn; out = self.new.out } }
    {
        if out.len() < self.room {
            return Err(CallError::Room);
        }
        self.out.clear();
        match self
            .conn
            .poll_transmit(Instant::from_nanos(now), &mut self.out)
        {
            Ok(Some(transmit)) => {
                let length = put(out, &self.out)?;
                Ok(Some((length, ecn_bits(transmit.ecn))))
            }
            Ok(None) => Ok(None),
            Err(_) => Err(CallError::Failed),
        }
    }

    fn room(&self) -> usize
        ensures { result ≡ self.now.room }
    {
        self.room
    }

    fn address(&self) -> u64
        ensures { result ≡ self.now.conn.end.path.remote }
    {
        let Address(number) = self.conn.remote_address();
        number
    }

    fn timeout(&mut self, now: u64) -> Result<(), CallError>
        ensures ok { OnOk result (self.new.conn.end ≡ (timed_out_at self.old.conn now).end) }
        ensures failed { IfErr result (λ e. (e ≡ CallError.Failed) × HasFailed self.old.conn self.new.conn) }
        ensures others { self.new ≡ record self.old { conn = self.new.conn } }
    {
        match self.conn.handle_timeout(Instant::from_nanos(now)) {
            Ok(()) => Ok(()),
            Err(_) => Err(CallError::Failed),
        }
    }

    fn next_timeout(&self) -> u64
        ensures { result ≡ next_or_never (next_timer self.now.conn.end.timers) }
    {
        match self.conn.poll_timeout() {
            Some(time) => time.as_nanos(),
            None => NEVER,
        }
    }

    fn would_open(&self, address: u64, scratch: &mut [u8]) -> bool
        ensures { result ≡ would_open (policy_at self.now.conn) self.now.conn.end address scratch.old }
    {
        self.conn.would_open(Address(address), scratch)
    }

    fn next_event(&mut self) -> Option<EventRecord>
        ensures answer { is_some result ≡ is_some (end_tells self.old.conn.end) }
        ensures told { IfSome (end_tells self.old.conn.end) (λ event. IfSome result (IsTold event)) }
        ensures end { self.new.conn ≡ with_end self.old.conn (end_after_event self.old.conn.end) }
        ensures others { self.new ≡ record self.old { conn = self.new.conn } }
    {
        match self.conn.poll() {
            Some(event) => Some(EventRecord::of(&event)),
            None => None,
        }
    }

    fn ids_changed(&mut self) -> bool
        ensures answer { result ≡ is_some (end_routes self.old.conn.end) }
        ensures end { self.new.conn ≡ with_end self.old.conn (end_after_routed self.old.conn.end) }
        ensures others { self.new ≡ record self.old { conn = self.new.conn } }
    {
        self.conn.poll_endpoint_events().is_some()
    }

    fn put_own_ids(&self, out: &mut [IdRecord]) -> Result<usize, CallError>
        ensures count { IfOk result (λ count. count ≡ length self.now.conn.end.ids.living) }
        ensures room { IfErr result (λ e. (e ≡ CallError.Room) × (length out.old < length self.now.conn.end.ids.living) × (out.new ≡ out.old)) }
    {
        let own = self.conn.own_ids();
        if own.len() > out.len() {
            return Err(CallError::Room);
        }
        for (record, id) in out.iter_mut().zip(own) {
            *record = IdRecord::of(id);
        }
        Ok(own.len())
    }

    fn put_lost_text(&self, out: &mut [u8]) -> Result<usize, CallError>
        ensures { (text : List ℕ) × IsLostText self.now.conn.end.closing.reason text × (result ≡ put_answer text (length out.old)) × (out.new ≡ put_into text out.old) }
    {
        put(out, lost_text(self.conn.lost()))
    }

    fn send_stream(&mut self, id: StreamId) -> SendStream<'_> {
        self.conn.send_stream(id)
    }

    fn recv_stream(&mut self, id: StreamId) -> RecvStream<'_> {
        self.conn.recv_stream(id)
    }

    fn open(&mut self, dir: u32) -> Result<u64, CallError>
        ensures invalid { dir_numbered dir ≡ None → (result ≡ Err CallError.Invalid) × (self.new ≡ self.old) }
        ensures answer { IfSome (dir_numbered dir) (λ d. result ≡ ok_or (open_answer (opened self.old.conn) d self.old.conn.end.streams) CallError.Blocked) }
        ensures conn { IfSome (dir_numbered dir) (λ d. self.new.conn ≡ with_streams_at self.old.conn (after_open (opened self.old.conn) d self.old.conn.end.streams) self.old.conn.end.waiting.frames) }
        ensures others { self.new ≡ record self.old { conn = self.new.conn } }
    {
        let dir = dir_of(dir)?;
        let is_open = self.conn.is_open();
        streams::open(self.conn.streams_mut(), is_open, dir)
    }

    fn accept(&mut self, dir: u32) -> Result<u64, CallError>
        ensures invalid { dir_numbered dir ≡ None → (result ≡ Err CallError.Invalid) × (self.new ≡ self.old) }
        ensures answer { IfSome (dir_numbered dir) (λ d. result ≡ ok_or (accept_answer d self.old.conn.end.streams) CallError.Absent) }
        ensures conn { IfSome (dir_numbered dir) (λ d. self.new.conn ≡ with_streams_at self.old.conn (after_accept d self.old.conn.end.streams) self.old.conn.end.waiting.frames) }
        ensures others { self.new ≡ record self.old { conn = self.new.conn } }
    {
        let dir = dir_of(dir)?;
        let is_open = self.conn.is_open();
        streams::accept(self.conn.streams_mut(), is_open, dir)
    }

    fn write(&mut self, id: u64, bytes: &[u8]) -> Result<usize, CallError>
        ensures invalid { 2 ^ 62 ≤ id → (result ≡ Err CallError.Invalid) × (self.new ≡ self.old) }
        ensures answer { id < 2 ^ 62 → result ≢ Err CallError.Memory → result ≡ named of_write (write_answer (opened self.old.conn) self.old.conn.end.streams id (length bytes.now)) }
        ensures conn { IfOk result (λ taken. let after = after_write (opened self.old.conn) (Ok taken) self.old.conn.end.streams self.old.conn.end.waiting.frames id bytes.now in self.new.conn ≡ with_streams_at self.old.conn after.state after.pending) }
        ensures others { self.new ≡ record self.old { conn = self.new.conn } }
    {
        let id = stream_of(id)?;
        let is_open = self.conn.is_open();
        streams::write(self.conn.streams_mut(), is_open, id, bytes)
    }

    fn finish(&mut self, id: u64) -> Result<(), CallError>
        ensures invalid { 2 ^ 62 ≤ id → (result ≡ Err CallError.Invalid) × (self.new ≡ self.old) }
        ensures answer { id < 2 ^ 62 → result ≢ Err CallError.Memory → result ≡ named of_finish (finish_answer self.old.conn.end.streams id) }
        ensures conn { id < 2 ^ 62 → result ≢ Err CallError.Memory → self.new.conn ≡ with_streams_at self.old.conn (after_finish self.old.conn.end.streams id) self.old.conn.end.waiting.frames }
        ensures others { self.new ≡ record self.old { conn = self.new.conn } }
    {
        let id = stream_of(id)?;
        let is_open = self.conn.is_open();
        streams::finish(self.conn.streams_mut(), is_open, id)
    }

    fn reset(&mut self, id: u64, code: u64) -> Result<(), CallError>
        ensures invalid { 2 ^ 62 ≤ id → (result ≡ Err CallError.Invalid) × (self.new ≡ self.old) }
        ensures invalid_code { 2 ^ 62 ≤ code → (result ≡ Err CallError.Invalid) × (self.new ≡ self.old) }
        ensures answer { id < 2 ^ 62 → code < 2 ^ 62 → result ≢ Err CallError.Memory → result ≡ named of_update (reset_answer self.old.conn.end.streams id) }
        ensures conn { id < 2 ^ 62 → code < 2 ^ 62 → result ≢ Err CallError.Memory → let after = after_reset self.old.conn.end.streams self.old.conn.end.waiting.frames id code in self.new.conn ≡ with_streams_at self.old.conn after.state after.pending }
        ensures others { self.new ≡ record self.old { conn = self.new.conn } }
    {
        let id = stream_of(id)?;
        let code = code_of(code)?;
        let is_open = self.conn.is_open();
        streams::reset(self.conn.streams_mut(), is_open, id, code)
    }

    fn stop(&mut self, id: u64, code: u64) -> Result<(), CallError>
        ensures invalid { 2 ^ 62 ≤ id → (result ≡ Err CallError.Invalid) × (self.new ≡ self.old) }
        ensures invalid_code { 2 ^ 62 ≤ code → (result ≡ Err CallError.Invalid) × (self.new ≡ self.old) }
        ensures answer { id < 2 ^ 62 → code < 2 ^ 62 → result ≢ Err CallError.Memory → result ≡ named of_update (stop_answer self.old.conn.end.streams id) }
        ensures conn { id < 2 ^ 62 → code < 2 ^ 62 → result ≢ Err CallError.Memory → let after = after_stop self.old.conn.end.streams self.old.conn.end.waiting.frames id code in self.new.conn ≡ with_streams_at self.old.conn after.state after.pending }
        ensures others { self.new ≡ record self.old { conn = self.new.conn } }
    {
        let id = stream_of(id)?;
        let code = code_of(code)?;
        streams::stop(self.conn.streams_mut(), id, code)
    }

    fn set_priority(&mut self, id: u64, priority: i32) -> Result<(), CallError>
        ensures invalid { 2 ^ 62 ≤ id → (result ≡ Err CallError.Invalid) × (self.new ≡ self.old) }
        ensures answer { id < 2 ^ 62 → result ≢ Err CallError.Memory → result ≡ named of_update (set_priority_answer self.old.conn.end.streams id) }
        ensures conn { id < 2 ^ 62 → result ≢ Err CallError.Memory → self.new.conn ≡ with_streams_at self.old.conn (after_set_priority self.old.conn.end.streams id priority) self.old.conn.end.waiting.frames }
        ensures others { self.new ≡ record self.old { conn = self.new.conn } }
    {
        let id = stream_of(id)?;
        let is_open = self.conn.is_open();
        streams::set_priority(self.conn.streams_mut(), is_open, id, priority)
    }

    fn send_message(&mut self, message: &[u8], drop: u32) -> Result<(), CallError>
        ensures invalid { 1 < drop → (result ≡ Err CallError.Invalid) × (self.new ≡ self.old) }
        ensures answer { drop ≤ 1 → result ≢ Err CallError.Memory → result ≡ named of_send (send_answer (limits_of self.old.conn.end) (drop == 1) message.now self.old.conn.end.messages.queues) }
        ensures ok { OnOk result (self.new ≡ record self.old { conn = messages_back self.old.conn (after_send (limits_of self.old.conn.end) (drop == 1) message.now self.old.conn.end.messages.queues) }) }
        ensures err { OnErr result (self.new ≡ self.old) }
    {
        if drop > 1 {
            return Err(CallError::Invalid);
        }
        let limits = self.conn.datagram_limits();
        messages::send(
            self.alloc,
            self.conn.datagrams_mut(),
            &limits,
            message,
            drop == 1,
        )
    }

    fn receive_message(&mut self, out: &mut [u8]) -> Result<usize, CallError>
        ensures answer { result ≡ read_answer (next_message self.old.unread self.old.conn.end.messages.queues) (length out.old) }
        ensures filled { out.new ≡ filled_with (next_message self.old.unread self.old.conn.end.messages.queues) out.old }
        ensures left { self.new ≡ record self.old { conn = messages_back self.old.conn (left_there self.old.unread self.old.conn.end.messages.queues); unread = kept_of (next_message self.old.unread self.old.conn.end.messages.queues) (length out.old) } }
    {
        messages::take_oldest(self.conn.datagrams_mut(), &mut self.unread);
        messages::give(&mut self.unread, out)
    }

    fn max_message(&self) -> Result<usize, CallError>
        ensures { result ≡ ok_or (most_message self.now.conn.end) CallError.Unsupported }
    {
        let limits = self.conn.datagram_limits();
        limits.max_size.ok_or(CallError::Unsupported)
    }

    fn ping(&mut self)
        ensures { self.new ≡ record self.old { conn = with_end self.old.conn (end_after_ping self.old.conn.end) } }
    {
        self.conn.ping();
    }

    fn handshake_done(&mut self) -> Result<(), CallError>
        ensures answer { result ≡ named of_done (done_answer self.old.conn.end) }
        ensures ok { OnOk result (self.new ≡ record self.old { conn = with_end self.old.conn (after_done self.old.conn.end) }) }
        ensures err { OnErr result (self.new ≡ self.old) }
    {
        Ok(self.conn.handshake_done()?)
    }

    fn use_next_id(&mut self) -> Result<(), CallError>
        ensures answer { result ≢ Err CallError.Memory → result ≡ named of_next_id (next_id_answer self.old.conn.end) }
        ensures ok { OnOk result (self.new ≡ record self.old { conn = with_end self.old.conn (after_next_id self.old.conn.end) }) }
        ensures err { OnErr result (self.new ≡ self.old) }
    {
        Ok(self.conn.use_next_id()?)
    }

    fn close(&mut self, now: u64, code: u64, text: &[u8]) -> Result<(), CallError>
        ensures invalid { 2 ^ 62 ≤ code → (result ≡ Err CallError.Invalid) × (self.new ≡ self.old) }
        ensures ok { OnOk result (self.new ≡ record self.old { conn = with_end self.old.conn (end_after_close now code text.now self.old.conn.end) }) }
        ensures err { OnErr result (self.new ≡ self.old) }
    {
        let code = code_of(code)?;
        let text = Bytes::copy_from_slice(self.alloc, text)?;
        self.conn.close(Instant::from_nanos(now), code, text);
        Ok(())
    }

    fn state(&self) -> u32
        ensures { result ≡ state_number self.now.conn.end.closing.state }
    {
        match self.conn.state() {
            State::Open => 0,
            State::Closing => 1,
            State::Drained => 2,
            State::Failed => 3,
        }
    }

    fn is_validated(&self) -> bool
        ensures { result ≡ self.now.conn.end.path.validated }
    {
        self.conn.is_validated()
    }

    fn current_mtu(&self) -> usize
        ensures { result ≡ current_mtu self.now.conn.end.path }
    {
        self.conn.current_mtu() as usize
    }

    fn rtt(&self) -> u64
        ensures { result ≡ best_rtt self.now.conn.end.path.rtt }
    {
        self.conn.rtt().as_nanos()
    }

    fn congestion_window(&self) -> u64
        ensures { result ≡ self.now.conn.control.window }
    {
        self.conn.window()
    }

    fn stats(&self) -> Stats {
        Stats::of(&self.conn.stats())
    }
}

/// The number of what came of a datagram: 0 where it was taken.
fn came(received: &Received) -> Result<u32, CallError>
    ensures { result ≡ received_number received.now }
{
    match received {
        Received::Taken => Ok(0),
        Received::Dropped(reason) => dropped(*reason),
        Received::Closed(_) => Err(CallError::Closed),
        Received::Failed => Err(CallError::Failed),
    }
}

/// The number of the reason why a datagram was dropped.
fn dropped(reason: DropReason) -> Result<u32, CallError>
    ensures { result ≡ dropped_number reason }
{
    match reason {
        DropReason::TooShort => Ok(1),
        DropReason::NotShort => Ok(2),
        DropReason::FixedBit => Ok(3),
        DropReason::UnknownId => Ok(4),
        DropReason::NotOpened => Ok(5),
        DropReason::KeyPhase => Ok(6),
        DropReason::Duplicate => Ok(7),
        DropReason::Closing => Ok(8),
        DropReason::Drained => Ok(9),
        DropReason::Address => Ok(10),
        DropReason::Failed => Err(CallError::Failed),
    }
}

/// The ECN codepoint of these two bits.
fn ecn_of(bits: u32) -> Result<Option<EcnCodepoint>, CallError>
    ensures { result ≡ ok_or (mark_of bits) CallError.Invalid }
{
    match bits {
        0 => Ok(None),
        1 => Ok(Some(EcnCodepoint::Ect1)),
        2 => Ok(Some(EcnCodepoint::Ect0)),
        3 => Ok(Some(EcnCodepoint::Ce)),
        _ => Err(CallError::Invalid),
    }
}

/// The two bits of an ECN codepoint.
fn ecn_bits(ecn: Option<EcnCodepoint>) -> u32
    ensures { result ≡ mark_number ecn }
{
    match ecn {
        None => 0,
        Some(EcnCodepoint::Ect1) => 1,
        Some(EcnCodepoint::Ect0) => 2,
        Some(EcnCodepoint::Ce) => 3,
    }
}
