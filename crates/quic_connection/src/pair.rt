//! An endpoint, from what it is made of by name; and two that are made for one another.
ghost use Rattle.std.specs.Prelude.{◌≡◌, ◌≢◌, length, Ok, IfOk, IfErr, OnOk};
ghost use Rattle.quic_parameters.specs.ParametersWritten.{written_parameters};
ghost use Rattle.quic_parameters.specs.ParametersRead.{parameters_at};
ghost use Rattle.quic_config.specs.Transport.{parameters_of, first_mtu, IsInRange};
ghost use Rattle.quic_machine.specs.Policy.{KeysCanOpen};
ghost use Rattle.quic_machine.specs.End.{MadeFrom, limits_of, refusal_of, words_drawn};
ghost use Rattle.quic_machine.specs.Heard.{nothing_heard};
ghost use Rattle.quic_machine.specs.Start.{AreStarted, AreControlled, AreKeys};
ghost use Rattle.quic_machine.specs.declared.answers.ConfigError.TheVariants as config_errors;
ghost use Rattle.quic_headline.specs.Rest.{HaveRoom};
ghost use Rattle.quic_connection_parts.specs.Drawn.{words_of, after_words};
ghost use Rattle.quic_connection_parts.specs.Telling.{windows_of, windows_at, IsRoomy};
ghost use Rattle.quic_connection.specs.Ends.{first_world, policies_of, in_order, controller_for, refusal_for, IsRefused};

use crate::running::Ends;
use quic_congestion::laws::congestion::two_datagrams_have_room;
use quic_congestion::{Controller, ControllerFactory};
use quic_connection_core::{Config, Connection};
use quic_machine::{Address, ConfigError, Instant};
use quic_packet::crypto::{HeaderKey, Keys, PacketKey};
use quic_parameters::TransportParameters;
use quic_wire_core::{ConnectionId, Side};
use rand_core::Rng;
use std::alloc::{AllocError, Global};

/// What an endpoint is made of, but for what its peer told it.
#[derive(Drop)]
pub struct Making<F, H, K, R> {
    /// The configuration. What the peer has to know of it is advertised to the peer; the factory of
    /// the congestion controller isn't.
    pub config: Config<F>,
    /// The first connection ID of this endpoint, of eight bytes.
    pub id: ConnectionId,
    /// The peer's first address.
    pub remote: Address,
    /// Its keys: what the `local` ones seal, the peer's `remote` ones open, and the other way
    /// round.
    pub keys: Keys<H, K>,
    /// Its random source, of which a `u64` is drawn at once, three for each ID that is issued, and
    /// one more where the peer's address isn't validated.
    pub random: R,
    /// Whether the peer's address is validated already.
    pub validated: bool,
}

/// The parameter bytes that a configuration comes to.
fn parameters<F>(alloc: Global, config: &Config<F>) -> Result<Vec<u8>, ConfigError>
    ensures bytes { IfOk result (λ v.
        v.items ≡ written_parameters (parameters_of config.now.settings) in_order) }
    ensures read_back { IfOk result (λ v. parameters_at v.items ≡ Ok (parameters_of config.now.settings)) }
    ensures range { OnOk result (IsInRange config.now.settings) }
    ensures memory { IfErr result (λ e. e ≡ config_errors.Memory) }
{
    match config.write_parameters(alloc, &TransportParameters::ORDER) {
        Ok(bytes) => Ok(bytes),
        Err(AllocError) => Err(ConfigError::Memory),
    }
}

impl<
    F: ControllerFactory<Controller = C> + Drop,
    H: HeaderKey + Drop,
    K: PacketKey + Drop,
    R: Rng + Drop,
    C: Controller,
> Making<F, H, K, R> {
    /// Makes an endpoint of this side at this time, for a peer that wrote these transport
    /// parameters (`Config::write_parameters`) and has this first connection ID. It is what
    /// [`Connection::new`] makes of the same values, but no two arguments have the same type, so
    /// that the two connection IDs can't be swapped.
    ///
    /// # Errors
    ///
    /// - [`ConfigError::Parameters`]: the peer's parameters are malformed, or have a value out of
    ///   range. No endpoint is made.
    /// - [`ConfigError::IdLength`]: the own ID hasn't eight bytes, or the peer's has none. No
    ///   endpoint is made.
    /// - [`ConfigError::Size`]: a size of datagrams is above 65527 bytes, or the least is above the
    ///   peer's max_udp_payload_size. No endpoint is made.
    /// - [`ConfigError::Window`]: the congestion controller's window doesn't hold two datagrams of
    ///   the size that the path begins with. No endpoint is made.
    /// - [`ConfigError::KeyLimit`]: the own key may seal fewer than 16 packets, or the peer's may
    ///   refuse fewer. No endpoint is made.
    /// - [`ConfigError::FirstSample`]: the time or the variation of the first sample is 0 or above
    ///   60 s. No endpoint is made.
    /// - [`ConfigError::Memory`]: an allocation fails. No endpoint is made.
    pub fn connection(
        self,
        alloc: Global,
        side: Side,
        now: Instant,
        peer_parameters: &[u8],
        peer_id: ConnectionId,
    ) -> Result<Connection<H, K, R, C>, ConfigError>
        ensures made { IfOk result (λ c.
            MadeFrom side self.config.settings (windows_at C.initial_of C.window_of c.control)
            peer_parameters.entry.now self.id peer_id self.remote now self.validated (words_of R.stream self.random) c.end) }
        ensures control { IfOk result (λ c. c.control ≡ controller_for F.built self.config now) }
        ensures roomy { IfOk result (λ c. IsRoomy C.size_of C.window_of c.control (first_mtu c.end.transport)) }
        ensures keys { IfOk result (λ c. c.keys ≡ self.keys) }
        ensures random { IfOk result (λ c. R.stream c.random ≡ after_words (words_drawn c.end) (R.stream self.random)) }
        ensures heard { IfOk result (λ c. c.heard ≡ nothing_heard) }
        ensures refusal { IfErr result (λ e.
            e ≢ config_errors.Memory
            → Some e ≡ refusal_of self.config.settings (C.window_of (controller_for F.built self.config now))
            (limits_of K.seal_limit K.refusal_limit self.keys) (parameters_at peer_parameters.entry.now) self.id peer_id) }
        ensures lawful { OnOk result (
            refusal_of self.config.settings (C.window_of (controller_for F.built self.config now))
            (limits_of K.seal_limit K.refusal_limit self.keys) (parameters_at peer_parameters.entry.now) self.id peer_id ≡ None) }
    {
        let Making {
            config,
            id,
            remote,
            keys,
            random,
            validated,
        } = self;
        Connection::new(
            alloc,
            side,
            &config,
            peer_parameters,
            id,
            peer_id,
            remote,
            keys,
            now,
            random,
            validated,
        )
    }
}

impl<H: HeaderKey + Drop, K: PacketKey + Drop, R: Rng + Drop, C: Controller> Ends<H, K, R, C> {
    /// Makes a client and a server at this time, each from the other's parameters and first ID.
    /// They meet what the promises on runs require of the endpoints, if the keys of both are mates
    /// in both directions. The client is made before the server.
    ///
    /// # Errors
    ///
    /// - [`ConfigError::IdLength`]: an ID hasn't eight bytes. No endpoint is made.
    /// - [`ConfigError::Size`]: a size of datagrams is above 65527 bytes, or the least is above the
    ///   other endpoint's max_udp_payload_size. No endpoint is made.
    /// - [`ConfigError::Window`]: the congestion controller's window doesn't hold two datagrams of
    ///   the size that the path begins with. No endpoint is made.
    /// - [`ConfigError::KeyLimit`]: the own key may seal fewer than 16 packets, or the peer's may
    ///   refuse fewer. No endpoint is made.
    /// - [`ConfigError::FirstSample`]: the time or the variation of the first sample is 0 or above
    ///   60 s. No endpoint is made.
    /// - [`ConfigError::Memory`]: an allocation fails, of room for the parameters, before all
    ///   others are tested, or for the IDs. No endpoint is made.
    pub fn new<F: ControllerFactory<Controller = C> + Drop>(
        alloc: Global,
        now: Instant,
        client: Making<F, H, K, R>,
        server: Making<F, H, K, R>,
    ) -> Result<Self, ConfigError>
        ensures client { IfOk result (λ ends.
            MadeFrom Side.Client client.config.settings
            (windows_at C.initial_of C.window_of ends.client.control)
            (written_parameters (parameters_of server.config.settings) in_order) client.id server.id client.remote now
            client.validated (words_of R.stream client.random) ends.client.end) }
        ensures server { IfOk result (λ ends.
            MadeFrom Side.Server server.config.settings
            (windows_at C.initial_of C.window_of ends.server.control)
            (written_parameters (parameters_of client.config.settings) in_order) server.id client.id server.remote now
            server.validated (words_of R.stream server.random) ends.server.end) }
        ensures client_control { IfOk result (λ ends.
            ends.client.control ≡ controller_for F.built client.config now) }
        ensures server_control { IfOk result (λ ends.
            ends.server.control ≡ controller_for F.built server.config now) }
        ensures client_keys { IfOk result (λ ends. ends.client.keys ≡ client.keys) }
        ensures server_keys { IfOk result (λ ends. ends.server.keys ≡ server.keys) }
        ensures client_random { IfOk result (λ ends.
            R.stream ends.client.random ≡ after_words (words_drawn ends.client.end) (R.stream client.random)) }
        ensures server_random { IfOk result (λ ends.
            R.stream ends.server.random ≡ after_words (words_drawn ends.server.end) (R.stream server.random)) }
        ensures client_heard { IfOk result (λ ends. ends.client.heard ≡ nothing_heard) }
        ensures server_heard { IfOk result (λ ends. ends.server.heard ≡ nothing_heard) }
        ensures refusal { IfErr result (λ e.
            e ≢ config_errors.Memory
            → IsRefused e client.config.settings server.config.settings
            (C.window_of (controller_for F.built client.config now))
            (C.window_of (controller_for F.built server.config now))
            (limits_of K.seal_limit K.refusal_limit client.keys)
            (limits_of K.seal_limit K.refusal_limit server.keys) client.id server.id) }
        ensures lawful { OnOk result (
            refusal_for client.config.settings
            (C.window_of (controller_for F.built client.config now))
            (limits_of K.seal_limit K.refusal_limit client.keys) server.config.settings
            client.id server.id ≡ None) }
        ensures lawful_server { OnOk result (
            refusal_for server.config.settings
            (C.window_of (controller_for F.built server.config now))
            (limits_of K.seal_limit K.refusal_limit server.keys) client.config.settings
            server.id client.id ≡ None) }
        ensures controlled { IfOk result (λ ends.
            AreControlled (first_world (windows_of C.steps C.window_of) ends)) }
        ensures have_room { IfOk result (λ ends.
            HaveRoom (first_world (windows_of C.steps C.window_of) ends)) }
        ensures started { IfOk result (λ ends. AreStarted (first_world (windows_of C.steps C.window_of) ends)) }
        ensures keys { IfOk result (λ ends.
            KeysCanOpen H.protection K.aead client.keys server.keys
            → KeysCanOpen H.protection K.aead server.keys client.keys
            → AreKeys (policies_of H.protection K.aead K.seal_limit K.refusal_limit R.stream ends)) }
    {
        // A controller keeps room for two datagrams: a law, which does nothing.
        two_datagrams_have_room::<C>();
        let told_by_client = parameters(alloc, &client.config)?;
        let told_by_server = parameters(alloc, &server.config)?;
        let (client_id, server_id) = (client.id, server.id);
        let client = client.connection(alloc, Side::Client, now, &told_by_server, server_id)?;
        match server.connection(alloc, Side::Server, now, &told_by_client, client_id) {
            Ok(server) => Ok(Ends { client, server }),
            Err(error) => {
                drop(client);
                Err(error)
            }
        }
    }
}
