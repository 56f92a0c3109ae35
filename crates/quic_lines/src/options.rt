//! What is set of an end before it is made.
ghost use Rattle.std.specs.Prelude.{◌≡◌};
ghost use Rattle.quic_congestion.specs.NewReno.{default_reno};
ghost use Rattle.quic_keys.specs.KeysOf.{keys_with};
ghost use Rattle.quic_lines.specs.Options.{first_options, settings_of, kept_size, with_setting};

use crate::script::Setting;
use quic_config::{IdleTimeout, MtuDiscoveryConfig, TransportConfig};
use quic_congestion::NewRenoConfig;
use quic_connection_parts::Config;
use quic_keys::{KEY_LIMIT, PlainHeaderKey, PlainKey, Source, keys_within};
use quic_packet::crypto::Keys;
use quic_wire_core::Side;

/// The most bytes of a datagram, and the least that each path carries (RFC 9000, section 14).
const MTU: u16 = 1200;

/// Where the random words of an end come from that is given no other source.
const SOURCE: Source = Source::Word(63);

/// How many bytes of messages an end keeps unread: `None`, where it takes no messages, for 0.
fn kept_size(bytes: usize) -> Option<usize>
    ensures { result ≡ kept_size bytes }
{
    match bytes {
        0 => None,
        _ => Some(bytes),
    }
}

/// The options of an end.
#[derive(Clone, Copy, Debug)]
pub struct Options {
    /// The settings of the transport, but for its sizes of datagrams.
    pub transport: TransportConfig,
    /// How many packets its key may seal.
    pub seal_limit: u64,
    /// How many packets the peer's key may fail to open at it.
    pub open_limit: u64,
    /// Where its random words come from.
    pub source: Source,
    /// Whether the peer's address is validated from the start.
    pub validated: bool,
}

impl Options {
    /// The options of an end for which none is set.
    pub fn new() -> Self
        ensures { result ≡ first_options }
    {
        let mut transport = TransportConfig::default();
        transport.mtu_discovery_config(None);
        Options {
            transport,
            seal_limit: KEY_LIMIT,
            open_limit: KEY_LIMIT,
            source: SOURCE,
            validated: true,
        }
    }

    /// The configuration of an end with these options, with NewReno as its congestion controller.
    /// None sets a size of datagrams, which is the default one, nor a first sample: there is none.
    pub fn config(&self) -> Config<NewRenoConfig>
        ensures { result ≡ record { settings = settings_of self.now; factory = default_reno } }
    {
        let mut transport = self.transport;
        transport.initial_mtu(MTU);
        transport.min_mtu(MTU);
        transport.first_sample(None);
        Config::new(transport, NewRenoConfig::default())
    }

    /// The keys of an end with these options.
    pub fn keys(&self, side: Side) -> Keys<PlainHeaderKey, PlainKey>
        ensures { result ≡ keys_with self.now.seal_limit self.now.open_limit side }
    {
        keys_within(side, self.seal_limit, self.open_limit)
    }

    /// Sets one option, in place of what it was.
    pub fn set(&mut self, setting: Setting)
        ensures { self.new ≡ with_setting setting self.old }
    {
        match setting {
            Setting::ReceiveWindow(value) => {
                self.transport.receive_window(value);
            }
            Setting::StreamWindow(value) => {
                self.transport.stream_receive_window(value);
            }
            Setting::SendWindow(value) => {
                self.transport.send_window(value);
            }
            Setting::Bidi(count) => {
                self.transport.max_concurrent_bidi_streams(count);
            }
            Setting::Uni(count) => {
                self.transport.max_concurrent_uni_streams(count);
            }
            Setting::Idle(millis) => {
                self.transport
                    .max_idle_timeout(Some(IdleTimeout::from(millis)));
            }
            Setting::Messages(bytes) => {
                self.transport
                    .datagram_receive_buffer_size(kept_size(bytes));
            }
            Setting::Search(on) => {
                let search = if on {
                    Some(MtuDiscoveryConfig::default())
                } else {
                    None
                };
                self.transport.mtu_discovery_config(search);
            }
            Setting::SealLimit(packets) => self.seal_limit = packets,
            Setting::OpenLimit(packets) => self.open_limit = packets,
            Setting::Validated(validated) => self.validated = validated,
            Setting::Word(word) => self.source = Source::Word(word),
            Setting::Pcg(seed) => self.source = Source::Pcg(seed),
        }
    }
}
