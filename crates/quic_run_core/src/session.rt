//! The two ends of a script.
ghost use Rattle.std.specs.Prelude.{◌≡◌, ◌⊎◌, ◌++◌, true, false, IfOk, IfErr, OnOk, string_bytes};
ghost use Rattle.quic_machine.specs.End.{words_drawn};
ghost use Rattle.quic_wire_core.specs.declared.stream_id.Side.TheVariants.{Client, Server};
ghost use Rattle.quic_wire_core.specs.StreamId.{other_side};
ghost use Rattle.quic_machine.specs.End.{are_keys_short};
ghost use Rattle.quic_machine.specs.Heard.{nothing_heard};
ghost use Rattle.quic_machine.specs.Machine.{given_by};
ghost use Rattle.quic_machine.specs.Start.{IsMaking, AreStarted};
ghost use Rattle.quic_connection_parts.specs.Drawn.{after_words};
ghost use Rattle.quic_congestion.specs.NewReno.{window_after};
ghost use Rattle.quic_connection.specs.Ends.{world_of};
ghost use Rattle.quic_keys.specs.KeysOf.{keys_with};
ghost use Rattle.quic_run_core.specs.Policies.{ArePlain};
ghost use Rattle.quic_run_core.specs.Shown.{AreNumbers, shown_text};
ghost use Rattle.quic_keys.specs.Words.{source_stream};
ghost use Rattle.quic_lines.specs.Options.{limits_in};
ghost use Rattle.quic_run_core.specs.Scripts.{are_short, policies_for, first_id, first_controller, first_end, first_world, making, Tells, TellsRest};

use crate::show::put_datagram;
use quic_connection::{Address, Connection, Ends, Given, Instant, NewReno, RunEvent, settle, step};
use quic_keys::{PlainHeaderKey, PlainKey, Words};
use quic_lines::{LineError, Options, put_answer, put_rest};
use quic_parameters::TransportParameters;
use quic_wire_core::{ConnectionId, Side};
use rand_core::Rng;
use std::alloc::{AllocError, Global};

type End = Connection<PlainHeaderKey, PlainKey, Words, NewReno>;

/// The first id of an end.
fn first_id(side: Side) -> ConnectionId
    ensures { result ≡ first_id side }
{
    match side {
        Side::Client => ConnectionId::new(&[0xc0; 8]),
        Side::Server => ConnectionId::new(&[0x50; 8]),
    }
}

/// An end that is made at moment 0. Its options and those of the peer are lawful but for the limits
/// of its key: an error is such a limit, or want of memory.
fn make_end(alloc: Global, side: Side, own: &Options, peer: &Options) -> Result<End, LineError>
    ensures end { IfOk result (λ made. made.end ≡ first_end side own.now peer.now) }
    ensures control { IfOk result (λ made. made.control ≡ first_controller) }
    ensures heard { IfOk result (λ made. made.heard ≡ nothing_heard) }
    ensures keys { IfOk result (λ made. made.keys ≡ keys_with own.now.seal_limit own.now.open_limit side) }
    ensures words { IfOk result (λ made. ⟦<Words as Rng>⟧.stream made.random ≡ after_words (words_drawn made.end) (source_stream own.now.source)) }
    ensures making { OnOk result (IsMaking (making (other_side side) peer.now)) }
    ensures lasts { OnOk result (are_keys_short (limits_in own.now) ≡ false) }
    ensures refusal { IfErr result (λ e. (e ≡ LineError.OutOfMemory) ⊎ ((e ≡ LineError.BadCommand) × (are_keys_short (limits_in own.now) ≡ true))) }
{
    let parameters = peer
        .config()
        .write_parameters(alloc, &TransportParameters::ORDER)?;
    let end = Connection::new(
        alloc,
        side,
        &own.config(),
        &parameters,
        first_id(side),
        first_id(!side),
        Address(0),
        own.keys(side),
        Instant::from_nanos(0),
        Words::of(own.source),
        own.validated,
    )?;
    Ok(end)
}

/// Two ends, and what they gave out.
#[derive(Drop)]
pub(crate) struct Session {
    alloc: Global,
    ends: Ends<PlainHeaderKey, PlainKey, Words, NewReno>,
    given: Given,
    // The numbers of each end's first datagrams, as far as they were shown.
    client_numbers: Vec<u64>,
    server_numbers: Vec<u64>,
    // What was set of them: by this their keys and random sources are known.
    client: Options,
    server: Options,
    ghost plain: { ArePlain (policies_for client server) ends },
    ghost client_known: { AreNumbers Client given.client.items client_numbers.items },
    ghost server_known: { AreNumbers Server given.server.items server_numbers.items },
}

impl Session {
    /// Two ends with these options, which meet what the promises on runs ask of ends. An error is a
    /// limit of a key that is too low, or want of memory.
    pub(crate) fn new(alloc: Global, client: &Options, server: &Options) -> Result<Self, LineError>
        ensures world { IfOk result (λ session. world_of window_after session.ends session.given ≡ first_world client.now server.now) }
        ensures started { OnOk result (AreStarted (first_world client.now server.now)) }
        ensures client_options { IfOk result (λ session. session.client ≡ client.now) }
        ensures server_options { IfOk result (λ session. session.server ≡ server.now) }
        ensures lasts { OnOk result (are_short client.now server.now ≡ false) }
        ensures refusal { IfErr result (λ e. (e ≡ LineError.OutOfMemory) ⊎ ((e ≡ LineError.BadCommand) × (are_short client.now server.now ≡ true))) }
    {
        let client_end = make_end(alloc, Side::Client, client, server)?;
        let server_end = match make_end(alloc, Side::Server, server, client) {
            Ok(end) => end,
            Err(error) => {
                drop(client_end);
                return Err(error);
            }
        };
        Ok(Session {
            alloc,
            ends: Ends {
                client: client_end,
                server: server_end,
            },
            given: Given::new(alloc),
            client_numbers: Vec::new(alloc),
            server_numbers: Vec::new(alloc),
            client: *client,
            server: *server,
        })
    }

    /// Makes a call, and appends what it answers.
    pub(crate) fn call(&mut self, event: &RunEvent, out: &mut String) -> Result<(), AllocError>
        ensures same_options { (self.new.client ≡ self.old.client) × (self.new.server ≡ self.old.server) }
        ensures tells { OnOk result (Tells (policies_for self.old.client self.old.server) (world_of window_after self.old.ends self.old.given) event.now (string_bytes out.old) (string_bytes out.new) (world_of window_after self.new.ends self.new.given)) }
    {
        let answer = step(self.alloc, &mut self.ends, &mut self.given, event)?;
        let given = match event.side {
            Side::Client => self.given.client.len(),
            Side::Server => self.given.server.len(),
        };
        put_answer(self.alloc, out, &answer, given)
    }

    /// Lets both ends talk from this moment on until they rest, and appends when they do.
    pub(crate) fn settle(&mut self, now: Instant, out: &mut String) -> Result<(), AllocError>
        ensures same_options { (self.new.client ≡ self.old.client) × (self.new.server ≡ self.old.server) }
        ensures tells { OnOk result (TellsRest (policies_for self.old.client self.old.server) (world_of window_after self.old.ends self.old.given) now (string_bytes out.old) (string_bytes out.new) (world_of window_after self.new.ends self.new.given)) }
    {
        let moment = settle(self.alloc, &mut self.ends, &mut self.given, now)?;
        put_rest(out, moment)
    }

    /// Appends what stands in a datagram that an end gave out.
    pub(crate) fn show(
        &mut self,
        side: Side,
        index: usize,
        out: &mut String,
    ) -> Result<(), AllocError>
        ensures same_options { (self.new.client ≡ self.old.client) × (self.new.server ≡ self.old.server) }
        ensures same { world_of window_after self.new.ends self.new.given ≡ world_of window_after self.old.ends self.old.given }
        ensures text { OnOk result (string_bytes out.new ≡ string_bytes out.old ++ shown_text side (given_by side (world_of window_after self.old.ends self.old.given)) index) }
    {
        match side {
            Side::Client => {
                let numbers = &mut self.client_numbers;
                put_datagram(self.alloc, side, &self.given.client, index, numbers, out)
            }
            Side::Server => {
                let numbers = &mut self.server_numbers;
                put_datagram(self.alloc, side, &self.given.server, index, numbers, out)
            }
        }
    }
}
