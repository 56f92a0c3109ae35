//! Which lists of transport parameters are refused, and how one is written (RFC 9000, sections 7.4
//! and 18). More rows stand in `quic_wire` (`worked::parameters_are_read`).
ghost use Rattle.std.specs.Prelude.{◌≡◌, [], ◌∷◌, Err};
ghost use Rattle.quic_parameters.specs.declared.transport_parameters.error.TransportParametersError.TheVariants.{Malformed, IllegalValue};
ghost use Rattle.quic_wire.specs.ParametersRead.{parameters_at};
ghost use Rattle.quic_wire.specs.ParametersWritten.{places, written_parameters};
ghost use Rattle.quic_wire.specs.Worked.{no_limits};

/// A list may end neither within an id, nor within a length, nor within a value.
#[tactic(auto, unfolding(quic_parameters::specs::ParametersRead::parameters_at, quic_parameters::specs::ParametersRead::met_in, quic_parameters::specs::ParametersRead::met_within, quic_parameters::specs::ParametersRead::met_after, quic_parameters::specs::ParametersRead::whole_at, quic_parameters::specs::ParametersRead::entry_at))]
pub fn cut_entries_are_malformed()
    ensures id { parameters_at (0x40 ∷ []) ≡ Err Malformed }
    ensures length { parameters_at (0x04 ∷ 0x01 ∷ 0x07 ∷ 0x05 ∷ []) ≡ Err Malformed }
    ensures value { parameters_at (0x02 ∷ 0x02 ∷ 0xff ∷ []) ≡ Err Malformed }
{}

/// A value has all of its length, and nothing behind its integer.
#[tactic(auto, unfolding(quic_parameters::specs::ParametersRead::parameters_at, quic_parameters::specs::ParametersRead::met_in, quic_parameters::specs::ParametersRead::met_within, quic_parameters::specs::ParametersRead::met_after, quic_parameters::specs::ParametersRead::whole_at, quic_parameters::specs::ParametersRead::entry_at))]
pub fn values_fill_their_lengths()
    ensures empty { parameters_at (0x04 ∷ 0x00 ∷ []) ≡ Err Malformed }
    ensures cut { parameters_at (0x04 ∷ 0x01 ∷ 0x40 ∷ []) ≡ Err Malformed }
    ensures longer { parameters_at (0x04 ∷ 0x02 ∷ 0x07 ∷ 0x00 ∷ []) ≡ Err Malformed }
{}

/// Payloads of 1199 bytes, 2^60 + 1 streams of each kind, an exponent of 21, a delay of 2^14 ms,
/// and one ID (section 18.2).
#[tactic(auto, unfolding(quic_parameters::specs::ParametersRead::parameters_at, quic_parameters::specs::ParametersRead::met_in, quic_parameters::specs::ParametersRead::met_within, quic_parameters::specs::ParametersRead::met_after, quic_parameters::specs::ParametersRead::whole_at, quic_parameters::specs::ParametersRead::entry_at))]
pub fn values_out_of_range_are_illegal()
    ensures payload { parameters_at (0x03 ∷ 0x02 ∷ 0x44 ∷ 0xaf ∷ []) ≡ Err IllegalValue }
    ensures bidi { parameters_at (0x08 ∷ 0x08 ∷ 0xd0 ∷ 0 ∷ 0 ∷ 0 ∷ 0 ∷ 0 ∷ 0 ∷ 1 ∷ []) ≡ Err IllegalValue }
    ensures uni { parameters_at (0x09 ∷ 0x08 ∷ 0xd0 ∷ 0 ∷ 0 ∷ 0 ∷ 0 ∷ 0 ∷ 0 ∷ 1 ∷ []) ≡ Err IllegalValue }
    ensures exponent { parameters_at (0x0a ∷ 0x01 ∷ 0x15 ∷ []) ≡ Err IllegalValue }
    ensures delay { parameters_at (0x0b ∷ 0x04 ∷ 0x80 ∷ 0x00 ∷ 0x40 ∷ 0x00 ∷ []) ≡ Err IllegalValue }
    ensures one_id { parameters_at (0x0e ∷ 0x01 ∷ 0x01 ∷ []) ≡ Err IllegalValue }
{}

/// The first refusal in the list's order is the answer.
#[tactic(auto, unfolding(quic_parameters::specs::ParametersRead::parameters_at, quic_parameters::specs::ParametersRead::met_in, quic_parameters::specs::ParametersRead::met_within, quic_parameters::specs::ParametersRead::met_after, quic_parameters::specs::ParametersRead::whole_at, quic_parameters::specs::ParametersRead::entry_at))]
pub fn first_refusal_counts()
    ensures illegal { parameters_at (0x0e ∷ 0x01 ∷ 0x01 ∷ 0x04 ∷ []) ≡ Err IllegalValue }
    ensures repeated { parameters_at (0x04 ∷ 0x01 ∷ 0x00 ∷ 0x04 ∷ 0x01 ∷ 0x00 ∷ 0x0e ∷ 0x01 ∷ 0x01 ∷ []) ≡ Err Malformed }
{}

/// What differs from its default is written, ascending by id.
pub fn others_than_defaults_are_written()
    ensures { written_parameters (record no_limits { initial_max_data = 1; initial_max_streams_uni = 64; max_ack_delay = 0 }) places
        ≡ 0x04 ∷ 0x01 ∷ 0x01 ∷ 0x09 ∷ 0x02 ∷ 0x40 ∷ 0x40 ∷ 0x0b ∷ 0x01 ∷ 0x00 ∷ [] }
{}
