//! The transport parameters that are kept: a line for each in every table.
use quic_wire_core::VarInt;

/// The places of a write order, one for each parameter: those of the ids 01, 03, 04, 05, 06, 07,
/// 08, 09, 0a, 0b, 0e, 20 and ff04de1b.
pub(crate) const PLACES: usize = 13;

/// The transport parameters that are read and written (RFC 9000, section 18.2; quinn-proto's
/// `TransportParameterId`).
#[derive(Clone, Copy, Debug, PartialEq, Eq)]
pub enum TransportParameterId {
    /// The time without a packet after which the connection is dropped (id 01).
    MaxIdleTimeout,
    /// The greatest UDP payload that is taken (id 03).
    MaxUdpPayloadSize,
    /// The bytes on all streams (id 04).
    InitialMaxData,
    /// The bytes on a two-way stream of the list's sender (id 05).
    InitialMaxStreamDataBidiLocal,
    /// The bytes on a two-way stream of the list's reader (id 06).
    InitialMaxStreamDataBidiRemote,
    /// The bytes on a one-way stream of the list's reader (id 07).
    InitialMaxStreamDataUni,
    /// The two-way streams (id 08).
    InitialMaxStreamsBidi,
    /// The one-way streams (id 09).
    InitialMaxStreamsUni,
    /// By how many bits the delay of an ACK is shifted (id 0a).
    AckDelayExponent,
    /// The longest that an ACK waits (id 0b).
    MaxAckDelay,
    /// The connection ids that are kept (id 0e).
    ActiveConnectionIdLimit,
    /// The greatest DATAGRAM frame that is taken (id 20; RFC 9221, section 3).
    MaxDatagramFrameSize,
    /// The shortest delay of an ACK that can be asked for (id ff04de1b; QUIC Acknowledgement
    /// Frequency).
    MinAckDelay,
}

impl TransportParameterId {
    ghost use Rattle.std.specs.Prelude.{◌≡◌, ◌<◌};
    ghost use Rattle.quic_parameters.specs.Parameters.{id_of, place_of, default_of, least_of, most_of, counted};
    ghost use Rattle.quic_parameters.specs.ParametersRead.{parameter_at, is_out};
    ghost use Rattle.quic_parameters.specs.ParametersWritten.{parameter_of_place, is_default};

    /// The parameter of an id.
    pub(crate) fn of_id(id: u64) -> Option<Self>
        ensures { result ≡ parameter_at id }
    {
        match id {
            0x01 => Some(Self::MaxIdleTimeout),
            0x03 => Some(Self::MaxUdpPayloadSize),
            0x04 => Some(Self::InitialMaxData),
            0x05 => Some(Self::InitialMaxStreamDataBidiLocal),
            0x06 => Some(Self::InitialMaxStreamDataBidiRemote),
            0x07 => Some(Self::InitialMaxStreamDataUni),
            0x08 => Some(Self::InitialMaxStreamsBidi),
            0x09 => Some(Self::InitialMaxStreamsUni),
            0x0a => Some(Self::AckDelayExponent),
            0x0b => Some(Self::MaxAckDelay),
            0x0e => Some(Self::ActiveConnectionIdLimit),
            0x20 => Some(Self::MaxDatagramFrameSize),
            0xff04_de1b => Some(Self::MinAckDelay),
            _ => None,
        }
    }

    /// The parameter at a place of a write order.
    pub(crate) fn of_place(place: u8) -> Option<Self>
        ensures { result ≡ parameter_of_place place }
    {
        match place {
            0 => Some(Self::MaxIdleTimeout),
            1 => Some(Self::MaxUdpPayloadSize),
            2 => Some(Self::InitialMaxData),
            3 => Some(Self::InitialMaxStreamDataBidiLocal),
            4 => Some(Self::InitialMaxStreamDataBidiRemote),
            5 => Some(Self::InitialMaxStreamDataUni),
            6 => Some(Self::InitialMaxStreamsBidi),
            7 => Some(Self::InitialMaxStreamsUni),
            8 => Some(Self::AckDelayExponent),
            9 => Some(Self::MaxAckDelay),
            10 => Some(Self::ActiveConnectionIdLimit),
            11 => Some(Self::MaxDatagramFrameSize),
            12 => Some(Self::MinAckDelay),
            _ => None,
        }
    }

    /// The id that stands before the parameter's value.
    pub(crate) fn id(self) -> VarInt
        ensures { result ≡ id_of self }
    {
        match self {
            Self::MaxIdleTimeout => VarInt::from_u32(0x01),
            Self::MaxUdpPayloadSize => VarInt::from_u32(0x03),
            Self::InitialMaxData => VarInt::from_u32(0x04),
            Self::InitialMaxStreamDataBidiLocal => VarInt::from_u32(0x05),
            Self::InitialMaxStreamDataBidiRemote => VarInt::from_u32(0x06),
            Self::InitialMaxStreamDataUni => VarInt::from_u32(0x07),
            Self::InitialMaxStreamsBidi => VarInt::from_u32(0x08),
            Self::InitialMaxStreamsUni => VarInt::from_u32(0x09),
            Self::AckDelayExponent => VarInt::from_u32(0x0a),
            Self::MaxAckDelay => VarInt::from_u32(0x0b),
            Self::ActiveConnectionIdLimit => VarInt::from_u32(0x0e),
            Self::MaxDatagramFrameSize => VarInt::from_u32(0x20),
            Self::MinAckDelay => VarInt::from_u32(0xff04_de1b),
        }
    }

    /// The place among the thirteen ids of a write order.
    pub(crate) fn place(self) -> usize
        ensures value { result ≡ place_of self }
        ensures bound { result < 13 }
    {
        match self {
            Self::MaxIdleTimeout => 0,
            Self::MaxUdpPayloadSize => 1,
            Self::InitialMaxData => 2,
            Self::InitialMaxStreamDataBidiLocal => 3,
            Self::InitialMaxStreamDataBidiRemote => 4,
            Self::InitialMaxStreamDataUni => 5,
            Self::InitialMaxStreamsBidi => 6,
            Self::InitialMaxStreamsUni => 7,
            Self::AckDelayExponent => 8,
            Self::MaxAckDelay => 9,
            Self::ActiveConnectionIdLimit => 10,
            Self::MaxDatagramFrameSize => 11,
            Self::MinAckDelay => 12,
        }
    }

    /// The value where the parameter doesn't stand in a list.
    pub(crate) fn default_value(self) -> Option<VarInt>
        ensures { result ≡ default_of self }
    {
        match self {
            Self::MaxUdpPayloadSize => Some(VarInt::from_u32(65527)),
            Self::AckDelayExponent => Some(VarInt::from_u32(3)),
            Self::MaxAckDelay => Some(VarInt::from_u32(25)),
            Self::ActiveConnectionIdLimit => Some(VarInt::from_u32(2)),
            Self::MinAckDelay => None,
            Self::MaxIdleTimeout
            | Self::InitialMaxData
            | Self::InitialMaxStreamDataBidiLocal
            | Self::InitialMaxStreamDataBidiRemote
            | Self::InitialMaxStreamDataUni
            | Self::InitialMaxStreamsBidi
            | Self::InitialMaxStreamsUni
            | Self::MaxDatagramFrameSize => Some(VarInt::from_u32(0)),
        }
    }

    /// Whether the value is the one that a list needn't give.
    pub(crate) fn is_default(self, value: VarInt) -> bool
        ensures { result ≡ is_default value (default_of self) }
    {
        match self.default_value() {
            Some(default) => value.into_inner() == default.into_inner(),
            None => false,
        }
    }

    /// The value that a number in a list stands for: no UDP payload is longer than 65527 bytes.
    pub(crate) fn counted(self, number: VarInt) -> VarInt
        ensures { result ≡ counted self number }
    {
        match self {
            Self::MaxUdpPayloadSize => number.min(VarInt::from_u32(65527)),
            _ => number,
        }
    }

    /// The least value in range.
    pub(crate) fn least(self) -> u64
        ensures { result ≡ least_of self }
    {
        match self {
            Self::MaxUdpPayloadSize => 1200,
            Self::ActiveConnectionIdLimit => 2,
            _ => 0,
        }
    }

    /// The greatest value in range.
    pub(crate) fn most(self) -> u64
        ensures { result ≡ most_of self }
    {
        match self {
            Self::MaxUdpPayloadSize => 65527,
            Self::InitialMaxStreamsBidi | Self::InitialMaxStreamsUni => 1 << 60,
            Self::AckDelayExponent => 20,
            Self::MaxAckDelay => (1 << 14) - 1,
            _ => (1 << 62) - 1,
        }
    }

    /// Whether the value is out of the parameter's range.
    pub(crate) fn is_out(self, value: VarInt) -> bool
        ensures { result ≡ is_out self value }
    {
        value.into_inner() < self.least() || value.into_inner() > self.most()
    }
}
