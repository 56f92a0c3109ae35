//! What both ends of a connection are made from.
ghost use Rattle.std.specs.Prelude.{◌≡◌, IfOk, Ok, true, ◌≤◌};
ghost use Rattle.quic_parameters.specs.Parameters.{AreInRange};
ghost use Rattle.quic_parameters.specs.ParametersWritten.{IsWriteOrder, written_parameters};
ghost use Rattle.quic_parameters.specs.ParametersRead.{parameters_at};
ghost use Rattle.quic_config.specs.Transport.{settings_with, transport_of, parameters_of, IsInRange};

use quic_machine::TransportConfig;
use quic_parameters::TransportParameters;
use std::alloc::{AllocError, Global};
use std::marker::Model;

/// The configuration of an endpoint. Contracts see its settings, and what makes its congestion
/// controller.
///
/// An endpoint acts on each setting. By
/// [`ack_frequency_config`](TransportConfig::ack_frequency_config) it asks a peer how often to
/// acknowledge that advertised min_ack_delay; it obeys the peer's ACK_FREQUENCY frames, whatever
/// `ack_frequency_support` says. Its datagrams have at most as many bytes as a path begins with, or
/// as the peer takes where that is less, until a larger size is found where one is looked for; and
/// those that are ack-eliciting are filled up to that size where `pad_to_mtu` says so. The peer is
/// told of the settings that have a transport parameter.
#[derive(Clone, Copy, Debug, Drop)]
pub struct Config<F> {
    transport: TransportConfig,
    ack_frequency_support: bool,
    // Makes the congestion controller.
    factory: F,
}

impl<F> Model for Config<F> {
    ghost use Rattle.quic_config.specs.Transport.{settings_with, transport_of};
    ghost use Rattle.quic_connection_parts.specs.Configured.{Configured};

    ghost Value = { Configured F };

    ghost view = { λ c. record {
      settings = settings_with c.transport c.ack_frequency_support;
      factory = c.factory;
    } };

    ghost inverse = { λ v. record {
      transport = transport_of v.settings;
      ack_frequency_support = v.settings.ack_frequency_support;
      factory = v.factory;
    } };
}

impl<F> Config<F> {
    /// A configuration with these settings, of an end that can be asked when to acknowledge, whose
    /// congestion controller this makes.
    pub fn new(transport: TransportConfig, factory: F) -> Self
        ensures { result ≡ record { settings = settings_with transport true; factory = factory } }
    {
        Config {
            transport,
            ack_frequency_support: true,
            factory,
        }
    }

    /// The settings of the transport.
    pub fn transport(&self) -> TransportConfig
        ensures { result ≡ transport_of self.now.settings }
    {
        self.transport
    }

    /// What makes the congestion controller of each path.
    pub fn factory(&self) -> &F
        ensures { result.now ≡ self.now.factory }
    {
        &self.factory
    }

    /// Whether the peer is told that it can ask when to acknowledge, with 1000 microseconds as the
    /// least delay (QUIC Acknowledgement Frequency, section 3). The default is `true`.
    pub fn ack_frequency_support(&mut self, value: bool) -> &mut Self
        ensures same_reference { result.ghost_name ≡ self.entry.ghost_name }
        ensures value { result.now ≡ record self.old { settings = record self.old.settings { ack_frequency_support = value } } }
    {
        self.ack_frequency_support = value;
        self
    }

    /// What the peer is told of the settings (RFC 9000, section 18.2).
    fn parameters(&self) -> TransportParameters
        ensures value { result ≡ parameters_of self.now.settings }
        ensures in_range { AreInRange (parameters_of self.now.settings) }
        ensures range { IsInRange self.now.settings }
    {
        let told = self.transport.transport_parameters();
        if self.ack_frequency_support {
            told
        } else {
            TransportParameters {
                min_ack_delay: None,
                ..told
            }
        }
    }

    /// The transport parameters that the peer is told, as bytes (RFC 9000, section 18), in this
    /// order of their places, which has each of 0 to 12 once (`TransportParameters::write`): what
    /// the peer reads of them are these settings.
    ///
    /// # Errors
    ///
    /// - [`AllocError`]: an allocation fails. Nothing changes.
    pub fn write_parameters(&self, alloc: Global, order: &[u8; 13]) -> Result<Vec<u8>, AllocError>
        requires { IsWriteOrder order.now }
        ensures bytes { IfOk result (λ v. v.items ≡ written_parameters (parameters_of self.now.settings) order.now) }
        ensures read_back { IfOk result (λ v. parameters_at v.items ≡ Ok (parameters_of self.now.settings)) }
        ensures range { IsInRange self.now.settings }
    {
        self.parameters().write(alloc, order)
    }
}
