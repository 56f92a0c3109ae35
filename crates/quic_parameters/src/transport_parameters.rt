//! Transport parameters (RFC 9000, sections 7.4 and 18; RFC 9221, section 3; QUIC Acknowledgement
//! Frequency).
ghost use Rattle.std.specs.Prelude.{◌≡◌};
ghost use Rattle.quic_parameters.specs.Parameters.{default_of, number};
ghost use Rattle.quic_parameters.specs.ParametersRead.{met_at, met_or};

mod error;
mod id;
pub mod laws;
mod reading;
mod writing;

use crate::transport_parameters::id::PLACES;
use crate::transport_parameters::reading::met_of;
use crate::transport_parameters::writing::put_parameter;
pub use error::TransportParametersError;
pub use id::TransportParameterId;
use quic_wire_core::{Code, Reason, Side, TransportError, VarInt};
use std::alloc::{AllocError, Global};
use std::marker::Model;

/// The limits that an end tells its peer as the connection begins (RFC 9000, section 18.2;
/// quinn-proto's `TransportParameters`).
///
/// Contracts see the record of the values.
#[derive(Clone, Copy, Debug, PartialEq, Eq)]
pub struct TransportParameters {
    /// The milliseconds without a packet after which the list's sender drops the connection; 0
    /// where it never does (id 01).
    pub max_idle_timeout: VarInt,
    /// The bytes of the greatest UDP payload that the list's sender takes, 1200 to 65527 (id 03).
    pub max_udp_payload_size: VarInt,
    /// The bytes that the reader of the list may send at first, over all streams (id 04).
    pub initial_max_data: VarInt,
    /// The bytes that the reader may send at first on a two-way stream that the list's sender
    /// opened (id 05).
    pub initial_max_stream_data_bidi_local: VarInt,
    /// The bytes that the reader may send at first on a two-way stream that it opened itself (id
    /// 06).
    pub initial_max_stream_data_bidi_remote: VarInt,
    /// The bytes that the reader may send at first on a one-way stream that it opened (id 07).
    pub initial_max_stream_data_uni: VarInt,
    /// The two-way streams that the reader may open at first, at most 2^60 (id 08).
    pub initial_max_streams_bidi: VarInt,
    /// The one-way streams that the reader may open at first, at most 2^60 (id 09).
    pub initial_max_streams_uni: VarInt,
    /// The bits by which the list's sender shifts the delays in its ACK frames, at most 20 (id 0a).
    pub ack_delay_exponent: VarInt,
    /// The milliseconds for which the list's sender holds an ACK back at most, below 2^14 (id 0b).
    pub max_ack_delay: VarInt,
    /// The connection ids that the list's sender keeps, at least 2 (id 0e).
    pub active_connection_id_limit: VarInt,
    /// The bytes of the greatest DATAGRAM frame that the list's sender takes, with its type and
    /// length; 0 where it takes none (id 20; RFC 9221, section 3).
    pub max_datagram_frame_size: VarInt,
    /// The least microseconds for which the list's sender can be asked to delay an ACK, at most
    /// 1000 `max_ack_delay`; none where it can't be asked (id ff04de1b; QUIC Acknowledgement
    /// Frequency, section 3).
    pub min_ack_delay: Option<VarInt>,
}

impl Model for TransportParameters {
    ghost use Rattle.quic_parameters.specs.Parameters.{ParameterValues};

    ghost Value = { ParameterValues };

    ghost view = { λ p. record {
      max_idle_timeout = p.max_idle_timeout;
      max_udp_payload_size = p.max_udp_payload_size;
      initial_max_data = p.initial_max_data;
      initial_max_stream_data_bidi_local = p.initial_max_stream_data_bidi_local;
      initial_max_stream_data_bidi_remote = p.initial_max_stream_data_bidi_remote;
      initial_max_stream_data_uni = p.initial_max_stream_data_uni;
      initial_max_streams_bidi = p.initial_max_streams_bidi;
      initial_max_streams_uni = p.initial_max_streams_uni;
      ack_delay_exponent = p.ack_delay_exponent;
      max_ack_delay = p.max_ack_delay;
      active_connection_id_limit = p.active_connection_id_limit;
      max_datagram_frame_size = p.max_datagram_frame_size;
      min_ack_delay = p.min_ack_delay;
    } };

    ghost inverse = { λ p. record {
      max_idle_timeout = p.max_idle_timeout;
      max_udp_payload_size = p.max_udp_payload_size;
      initial_max_data = p.initial_max_data;
      initial_max_stream_data_bidi_local = p.initial_max_stream_data_bidi_local;
      initial_max_stream_data_bidi_remote = p.initial_max_stream_data_bidi_remote;
      initial_max_stream_data_uni = p.initial_max_stream_data_uni;
      initial_max_streams_bidi = p.initial_max_streams_bidi;
      initial_max_streams_uni = p.initial_max_streams_uni;
      ack_delay_exponent = p.ack_delay_exponent;
      max_ack_delay = p.max_ack_delay;
      active_connection_id_limit = p.active_connection_id_limit;
      max_datagram_frame_size = p.max_datagram_frame_size;
      min_ack_delay = p.min_ack_delay;
    } };
}

/// The value of a parameter, which is the default where it wasn't met.
fn value_at(met: &[Option<VarInt>; PLACES], parameter: TransportParameterId) -> Option<VarInt>
    ensures { result ≡ met_or (met_at met.now parameter) (default_of parameter) }
{
    met[parameter.place()].or(parameter.default_value())
}

/// The value of a parameter that has a default.
fn number_at(met: &[Option<VarInt>; PLACES], parameter: TransportParameterId) -> VarInt
    ensures { result ≡ number (met_or (met_at met.now parameter) (default_of parameter)) }
{
    value_at(met, parameter).unwrap_or(VarInt::from_u32(0))
}

impl TransportParameters {
    ghost use Rattle.std.specs.Prelude.{◌≡◌, ◌++◌, IfOk, OnOk, Ok};
    ghost use Rattle.quic_parameters.specs.Parameters.{ParameterValues, ParametersSpell, value_of, AreInRange};
    ghost use Rattle.quic_parameters.specs.ParametersRead.{values_met, judged, parameters_at};
    ghost use Rattle.quic_parameters.specs.ParametersWritten.{IsWriteOrder, parameter_of_place, written_place, written_parameters};

    /// The order of the places in which the ids ascend, for [`write`](Self::write).
    pub const ORDER: [u8; 13] = [0, 1, 2, 3, 4, 5, 6, 7, 8, 9, 10, 11, 12];

    #[tactic(auto, unfolding(crate::specs::ParametersRead::values_met))]
    fn of_met(met: &[Option<VarInt>; PLACES]) -> Self
        ensures { result ≡ values_met met.now }
    {
        TransportParameters {
            max_idle_timeout: number_at(met, TransportParameterId::MaxIdleTimeout),
            max_udp_payload_size: number_at(met, TransportParameterId::MaxUdpPayloadSize),
            initial_max_data: number_at(met, TransportParameterId::InitialMaxData),
            initial_max_stream_data_bidi_local: number_at(
                met,
                TransportParameterId::InitialMaxStreamDataBidiLocal,
            ),
            initial_max_stream_data_bidi_remote: number_at(
                met,
                TransportParameterId::InitialMaxStreamDataBidiRemote,
            ),
            initial_max_stream_data_uni: number_at(
                met,
                TransportParameterId::InitialMaxStreamDataUni,
            ),
            initial_max_streams_bidi: number_at(met, TransportParameterId::InitialMaxStreamsBidi),
            initial_max_streams_uni: number_at(met, TransportParameterId::InitialMaxStreamsUni),
            ack_delay_exponent: number_at(met, TransportParameterId::AckDelayExponent),
            max_ack_delay: number_at(met, TransportParameterId::MaxAckDelay),
            active_connection_id_limit: number_at(
                met,
                TransportParameterId::ActiveConnectionIdLimit,
            ),
            max_datagram_frame_size: number_at(met, TransportParameterId::MaxDatagramFrameSize),
            min_ack_delay: value_at(met, TransportParameterId::MinAckDelay),
        }
    }

    fn value(&self, parameter: TransportParameterId) -> Option<VarInt>
        ensures { result ≡ value_of self.now parameter }
    {
        match parameter {
            TransportParameterId::MaxIdleTimeout => Some(self.max_idle_timeout),
            TransportParameterId::MaxUdpPayloadSize => Some(self.max_udp_payload_size),
            TransportParameterId::InitialMaxData => Some(self.initial_max_data),
            TransportParameterId::InitialMaxStreamDataBidiLocal => Some(
                self.initial_max_stream_data_bidi_local,
            ),
            TransportParameterId::InitialMaxStreamDataBidiRemote => Some(
                self.initial_max_stream_data_bidi_remote,
            ),
            TransportParameterId::InitialMaxStreamDataUni => Some(self.initial_max_stream_data_uni),
            TransportParameterId::InitialMaxStreamsBidi => Some(self.initial_max_streams_bidi),
            TransportParameterId::InitialMaxStreamsUni => Some(self.initial_max_streams_uni),
            TransportParameterId::AckDelayExponent => Some(self.ack_delay_exponent),
            TransportParameterId::MaxAckDelay => Some(self.max_ack_delay),
            TransportParameterId::ActiveConnectionIdLimit => Some(self.active_connection_id_limit),
            TransportParameterId::MaxDatagramFrameSize => Some(self.max_datagram_frame_size),
            TransportParameterId::MinAckDelay => self.min_ack_delay,
        }
    }

    /// The parameters, where the least delay of an ACK is no longer than the greatest.
    #[tactic(auto, unfolding(crate::specs::ParametersRead::judged))]
    fn judged(self) -> Result<Self, TransportParametersError>
        ensures { result ≡ judged self }
    {
        let most = 1000 * u128::from(self.max_ack_delay.into_inner());
        match self.min_ack_delay {
            Some(least) if u128::from(least.into_inner()) > most => Err(
                TransportParametersError::IllegalValue,
            ),
            _ => Ok(self),
        }
    }

    /// Writes the parameter at a place, if there is one.
    fn put_place(&self, buf: &mut Vec<u8>, place: u8) -> Result<(), AllocError>
        ensures { OnOk result (buf.new.items ≡ buf.old.items ++ written_place self.now (parameter_of_place place)) }
    {
        match TransportParameterId::of_place(place) {
            Some(parameter) => put_parameter(buf, parameter, self.value(parameter)),
            None => Ok(()),
        }
    }

    /// Reads the list of parameters that the peer sent, all of `bytes` (RFC 9000, sections 7.4 and
    /// 18). `_side` is the end that reads: no parameter that is kept depends on it.
    ///
    /// A parameter that doesn't stand in the list has its default. Parameters of other ids are
    /// skipped by their lengths, also where they stand more than once. A `max_udp_payload_size`
    /// above 65527 counts as 65527. The list is judged entry by entry, and the first refusal is the
    /// answer.
    ///
    /// # Errors
    ///
    /// - [`TransportParametersError::Malformed`]: in an entry the id, the length or the value can't
    ///   be read, the parameter stood before, or the value isn't an integer that fills its length.
    /// - [`TransportParametersError::IllegalValue`]: in an entry that isn't malformed the value is
    ///   out of its range; or, behind the whole list, `min_ack_delay` is above 1000
    ///   `max_ack_delay`.
    #[tactic(auto, unfolding(crate::specs::ParametersRead::parameters_at))]
    pub fn read(_side: Side, bytes: &[u8]) -> Result<Self, TransportParametersError>
        ensures value { result ≡ parameters_at bytes.now }
        ensures spelled { IfOk result (λ p. ParametersSpell p bytes.now × AreInRange p) }
        ensures complete { (p : ParameterValues) → ParametersSpell p bytes.now → AreInRange p → result ≡ Ok p }
    {
        let met = met_of(bytes)?;
        Self::of_met(&met).judged()
    }

    /// The list of the parameters, in an order of their places (RFC 9000, section 18).
    ///
    /// A parameter is written where its value isn't the default. `order` has each of the places 0
    /// to 12 once: those of the ids 01, 03, 04, 05, 06, 07, 08, 09, 0a, 0b, 0e, 20 and ff04de1b.
    /// Each integer has its shortest form.
    ///
    /// # Errors
    ///
    /// - [`AllocError`]: an allocation fails.
    pub fn write(&self, alloc: Global, order: &[u8; 13]) -> Result<Vec<u8>, AllocError>
        requires { IsWriteOrder order.now }
        ensures bytes { IfOk result (λ v. v.items ≡ written_parameters self.now order.now) }
        ensures read_back { AreInRange self.now → IfOk result (λ v. parameters_at v.items ≡ Ok self.now) }
    {
        let mut bytes = Vec::new(alloc);
        for place in order {
            self.put_place(&mut bytes, *place)?;
        }
        Ok(bytes)
    }
}

impl From<TransportParametersError> for TransportError {
    ghost use Rattle.std.specs.Prelude.{◌≡◌};
    ghost use Rattle.quic_wire_core.specs.TransportError.{plain_error, transport_parameter_error};

    ghost from_gives = { λ e t. t ≡ plain_error transport_parameter_error };

    /// The error that closes the connection: TRANSPORT_PARAMETER_ERROR (RFC 9000, section 7.4), of
    /// no frame.
    fn from(e: TransportParametersError) -> TransportError {
        let reason = match e {
            TransportParametersError::Malformed => Reason::Malformed,
            TransportParametersError::IllegalValue => Reason::IllegalValue,
        };
        TransportError::new(Code::TRANSPORT_PARAMETER_ERROR, None, reason)
    }
}

impl Default for TransportParameters {
    ghost use Rattle.std.specs.Prelude.{◌≡◌};
    ghost use Rattle.quic_parameters.specs.Parameters.{values_by, default_of};

    ghost is_default = { λ p. p ≡ values_by default_of };

    /// The parameters of an empty list.
    fn default() -> Self {
        TransportParameters {
            max_idle_timeout: VarInt::from_u32(0),
            max_udp_payload_size: VarInt::from_u32(65527),
            initial_max_data: VarInt::from_u32(0),
            initial_max_stream_data_bidi_local: VarInt::from_u32(0),
            initial_max_stream_data_bidi_remote: VarInt::from_u32(0),
            initial_max_stream_data_uni: VarInt::from_u32(0),
            initial_max_streams_bidi: VarInt::from_u32(0),
            initial_max_streams_uni: VarInt::from_u32(0),
            ack_delay_exponent: VarInt::from_u32(3),
            max_ack_delay: VarInt::from_u32(25),
            active_connection_id_limit: VarInt::from_u32(2),
            max_datagram_frame_size: VarInt::from_u32(0),
            min_ack_delay: None,
        }
    }
}
