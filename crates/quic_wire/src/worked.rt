//! The definitions computed on samples of RFC 9000, and on one short stream. Each function does
//! nothing: its contract is the law.
ghost use Rattle.std.specs.Prelude.{◌≡◌, ◌-◌, true, false, [], ◌∷◌, ◌++◌, drop, replicate, Some, None, Ok, Err};
ghost use Rattle.quic_wire_core.specs.Varint.{Spells, varint_at, shortest};
ghost use Rattle.quic_wire.specs.declared.frame.FrameError.TheVariants.{UnexpectedEnd, InvalidId};
ghost use Rattle.quic_wire.specs.declared.frame.FrameError.TheVariants as frame_errors;
ghost use Rattle.quic_packet.specs.declared.packet.HeaderError.TheVariants.{TooShort, NotShort, FixedBit, UnknownId};
ghost use Rattle.quic_parameters.specs.declared.transport_parameters.error.TransportParametersError.TheVariants.{Malformed, IllegalValue};
ghost use Rattle.quic_packet.specs.Number.{truncated, number_bytes, residue_of, expanded, IsFewest, IsExpansion};
ghost use Rattle.quic_packet.specs.Header.{header_bytes, key_phase, reserved_bits};
ghost use Rattle.quic_packet.specs.Keys.{width_in};
ghost use Rattle.quic_packet.specs.Destination.{decoded, fixed_length_id};
ghost use Rattle.quic_wire.specs.Value.{ack, padding, ping, stream, asks};
ghost use Rattle.quic_wire.specs.FrameTypes.{is_stream, kind_of, type_of};
ghost use Rattle.quic_wire.specs.Grammar.{IsForm, Payload};
ghost use Rattle.quic_wire.specs.Items.{items};
ghost use Rattle.quic_wire.specs.AckSet.{ack_of_set};
ghost use Rattle.quic_wire.specs.Writing.{spelling, stream_spelling, stream_size, frame_size};
ghost use Rattle.quic_parameters.specs.Parameters.{ParametersSpell};
ghost use Rattle.quic_parameters.specs.ParametersRead.{parameters_at};
ghost use Rattle.quic_parameters.specs.ParametersWritten.{IsWriteOrder, places, written_parameters};
ghost use Rattle.quic_wire.specs.Worked.{seven_numbers, seven_acked, seven_spelled, hello_stream, hello_sized, hello_unsized, eight_bytes, short_header, limits, limits_spelled, no_limits};

/// The samples of RFC 9000, A.1: each form is a form of its number, is read as it, and all but the
/// last are the shortest.
pub fn integers_of_the_standard()
    ensures eight_bytes { shortest 151288809941952652 ≡ 0xc2 ∷ 0x19 ∷ 0x7c ∷ 0x5e ∷ 0xff ∷ 0x14 ∷ 0xe8 ∷ 0x8c ∷ [] }
    ensures eight_read { varint_at (0xc2 ∷ 0x19 ∷ 0x7c ∷ 0x5e ∷ 0xff ∷ 0x14 ∷ 0xe8 ∷ 0x8c ∷ []) ≡ Some (151288809941952652, []) }
    ensures eight_spelled { Spells 151288809941952652 (0xc2 ∷ 0x19 ∷ 0x7c ∷ 0x5e ∷ 0xff ∷ 0x14 ∷ 0xe8 ∷ 0x8c ∷ []) }
    ensures four_bytes { shortest 494878333 ≡ 0x9d ∷ 0x7f ∷ 0x3e ∷ 0x7d ∷ [] }
    ensures four_read { varint_at (0x9d ∷ 0x7f ∷ 0x3e ∷ 0x7d ∷ []) ≡ Some (494878333, []) }
    ensures four_spelled { Spells 494878333 (0x9d ∷ 0x7f ∷ 0x3e ∷ 0x7d ∷ []) }
    ensures two_bytes { shortest 15293 ≡ 0x7b ∷ 0xbd ∷ [] }
    ensures two_read { varint_at (0x7b ∷ 0xbd ∷ []) ≡ Some (15293, []) }
    ensures two_spelled { Spells 15293 (0x7b ∷ 0xbd ∷ []) }
    ensures one_byte { shortest 37 ≡ 0x25 ∷ [] }
    ensures one_read { varint_at (0x25 ∷ []) ≡ Some (37, []) }
    ensures one_spelled { Spells 37 (0x25 ∷ []) }
    ensures longer_read { varint_at (0x40 ∷ 0x25 ∷ []) ≡ Some (37, []) }
    ensures longer_spelled { Spells 37 (0x40 ∷ 0x25 ∷ []) }
    ensures cut { varint_at (0x7b ∷ []) ≡ None }
    ensures empty { varint_at [] ≡ None }
{}

/// The samples of RFC 9000, A.2: where 0xabe8b3 is acknowledged, 0xac5c02 takes 16 bits and
/// 0xace8fe takes 24. The same holds where 0xabe8bc is.
pub fn numbers_are_cut()
    ensures two_bytes { truncated 0xac5c02 0xabe8b3 ≡ record { width = 2; residue = 0x5c02 } }
    ensures two_written { number_bytes (truncated 0xac5c02 0xabe8b3) ≡ 0x5c ∷ 0x02 ∷ [] }
    ensures two_fewest { IsFewest (0xac5c02 - 0xabe8b3) 2 }
    ensures three_bytes { truncated 0xace8fe 0xabe8b3 ≡ record { width = 3; residue = 0xace8fe } }
    ensures three_written { number_bytes (truncated 0xace8fe 0xabe8b3) ≡ 0xac ∷ 0xe8 ∷ 0xfe ∷ [] }
    ensures three_fewest { IsFewest (0xace8fe - 0xabe8b3) 3 }
    ensures nearer_two { truncated 0xac5c02 0xabe8bc ≡ record { width = 2; residue = 0x5c02 } }
    ensures nearer_three { truncated 0xace8fe 0xabe8bc ≡ record { width = 3; residue = 0xace8fe } }
    ensures first { number_bytes (truncated 0 0) ≡ 0x00 ∷ [] }
    ensures sixteen { number_bytes (truncated 0x10 0) ≡ 0x10 ∷ [] }
    ensures two_of_256 { number_bytes (truncated 0x100 0) ≡ 0x01 ∷ 0x00 ∷ [] }
    ensures three_of_65536 { number_bytes (truncated 0x10000 0) ≡ 0x01 ∷ 0x00 ∷ 0x00 ∷ [] }
{}

/// The sample of RFC 9000, A.3: where 0xa82f30ea is the greatest that came, 0x9b32 is 0xa82f9b32.
pub fn numbers_are_expanded()
    ensures residue { residue_of (0x9b ∷ 0x32 ∷ []) ≡ 0x9b32 }
    ensures value { expanded (record { width = 2; residue = 0x9b32 }) 0xa82f30eb ≡ 0xa82f9b32 }
    ensures is { IsExpansion (record { width = 2; residue = 0x9b32 }) 0xa82f30eb 0xa82f9b32 }
    ensures back { expanded (truncated 0xac5c02 0xabe8b3) 0xabe8b4 ≡ 0xac5c02 }
    ensures first { expanded (truncated 0 0) 0 ≡ 0 }
    ensures below { expanded (record { width = 1; residue = 1 }) 130 ≡ 257 }
{}

/// A short header is written as RFC 9000, section 17.3.1, has it, and its id is read again or
/// refused.
pub fn headers_are_read()
    ensures written { header_bytes eight_bytes (truncated 0x100 0) ≡ short_header }
    ensures width { width_in 0x41 ≡ 2 }
    ensures phase { key_phase 0x45 ≡ true }
    ensures no_phase { key_phase 0x41 ≡ false }
    ensures reserved { reserved_bits 0x51 ≡ 2 }
    ensures none_reserved { reserved_bits 0x41 ≡ 0 }
    ensures known { decoded (fixed_length_id 8) ((8 ∷ 7 ∷ []) ∷ eight_bytes ∷ []) (short_header ++ replicate 18 0) ≡ Ok eight_bytes }
    ensures unknown { decoded (fixed_length_id 8) ((8 ∷ 7 ∷ []) ∷ []) (short_header ++ replicate 18 0) ≡ Err UnknownId }
    ensures short { decoded (fixed_length_id 8) (eight_bytes ∷ []) (short_header ++ replicate 17 0) ≡ Err TooShort }
    ensures fixed_bit { decoded (fixed_length_id 8) (eight_bytes ∷ []) ((0x00 ∷ drop 1 short_header) ++ replicate 18 0) ≡ Err FixedBit }
    ensures long_header { decoded (fixed_length_id 8) (eight_bytes ∷ []) ((0xc0 ∷ drop 1 short_header) ++ replicate 18 0) ≡ Err NotShort }
    ensures nothing { decoded (fixed_length_id 8) (eight_bytes ∷ []) [] ≡ Err TooShort }
{}

/// A STREAM frame is spelled with its length or to the payload's end, and its offset stands where
/// it isn't 0 (RFC 9000, section 19.8).
#[tactic(auto, unfolding(crate::specs::Writing::stream_spelling, crate::specs::FrameTypes::kind_of))]
pub fn frames_are_spelled()
    ensures sized { spelling (stream hello_stream) ≡ hello_sized }
    ensures to_end { stream_spelling false hello_stream ≡ hello_unsized }
    ensures later { spelling (stream (record { id = 4; offset = 64; fin = false; bytes = 0x61 ∷ [] })) ≡ 0x0e ∷ 0x04 ∷ 0x40 ∷ 0x40 ∷ 0x01 ∷ 0x61 ∷ [] }
    ensures ping { spelling ping ≡ 0x01 ∷ [] }
    ensures padding { spelling padding ≡ 0x00 ∷ [] }
    ensures size { stream_size true hello_stream ≡ 8 }
    ensures kind { kind_of 0x0b ≡ is_stream false true true }
    ensures type_number { type_of (is_stream true true false) ≡ 0x0e }
    ensures form { IsForm (stream hello_stream) hello_sized [] }
    ensures to_end_form { IsForm (stream hello_stream) hello_unsized [] }
    ensures payload { Payload (ping ∷ stream hello_stream ∷ padding ∷ []) (0x40 ∷ 0x01 ∷ (hello_sized ++ 0x00 ∷ [])) }
    ensures asks { asks (stream hello_stream) ≡ true }
    ensures asks_not { asks padding ≡ false }
{}

/// A payload is read frame by frame, up to the first field that can't be read (RFC 9000, section
/// 12.4).
#[tactic(auto, unfolding(crate::specs::Items::items, crate::specs::Items::items_within, crate::specs::Items::frame_at, crate::specs::Reading::body_at, crate::specs::FrameTypes::kind_of, crate::specs::Reading::stream_at, crate::specs::Reading::offset_at, crate::specs::Reading::data_at, crate::specs::Reading::sized_at, crate::specs::Reading::block_at))]
pub fn frames_are_read()
    ensures sized { items hello_sized ≡ Ok (stream hello_stream) ∷ [] }
    ensures to_end { items hello_unsized ≡ Ok (stream hello_stream) ∷ [] }
    ensures later { items (0x0e ∷ 0x04 ∷ 0x40 ∷ 0x40 ∷ 0x01 ∷ 0x61 ∷ []) ≡ Ok (stream (record { id = 4; offset = 64; fin = false; bytes = 0x61 ∷ [] })) ∷ [] }
    ensures several { items (0x40 ∷ 0x01 ∷ (hello_sized ++ 0x00 ∷ [])) ≡ Ok ping ∷ Ok (stream hello_stream) ∷ Ok padding ∷ [] }
    ensures nothing { items [] ≡ [] }
    ensures cut { items (0x01 ∷ 0x0a ∷ 0x00 ∷ 0x05 ∷ 0x68 ∷ 0x69 ∷ []) ≡ Ok ping ∷ Err (record { ty = Some 0x0a; reason = UnexpectedEnd }) ∷ [] }
    ensures cut_type { items (0x40 ∷ []) ≡ Err (record { ty = None; reason = UnexpectedEnd }) ∷ [] }
    ensures unknown { items (0x40 ∷ 0x42 ∷ 0x00 ∷ []) ≡ Err (record { ty = Some 0x42; reason = InvalidId }) ∷ [] }
{}

/// The limits are spelled as RFC 9000, section 18, has them, and read again; what can't be read is
/// refused for the first reason in the list's order.
#[tactic(auto, unfolding(quic_parameters::specs::ParametersRead::parameters_at, quic_parameters::specs::ParametersRead::judged, quic_parameters::specs::ParametersRead::values_met, quic_parameters::specs::ParametersRead::met_in, quic_parameters::specs::ParametersRead::met_within, quic_parameters::specs::ParametersRead::met_after, quic_parameters::specs::ParametersRead::whole_at, quic_parameters::specs::ParametersRead::entry_at))]
pub fn parameters_are_read()
    ensures written { written_parameters limits places ≡ limits_spelled }
    ensures order { IsWriteOrder places }
    ensures read { parameters_at limits_spelled ≡ Ok limits }
    ensures spelled { ParametersSpell limits limits_spelled }
    ensures other_order { written_parameters (record no_limits { initial_max_data = 1; initial_max_streams_bidi = 64; initial_max_streams_uni = 63 }) (12 ∷ 7 ∷ 6 ∷ 0 ∷ 1 ∷ 2 ∷ 3 ∷ 4 ∷ 5 ∷ 8 ∷ 9 ∷ 10 ∷ 11 ∷ []) ≡ 0x09 ∷ 0x01 ∷ 0x3f ∷ 0x08 ∷ 0x02 ∷ 0x40 ∷ 0x40 ∷ 0x04 ∷ 0x01 ∷ 0x01 ∷ [] }
    ensures nothing { parameters_at [] ≡ Ok no_limits }
    ensures nothing_written { written_parameters no_limits places ≡ [] }
    ensures skipped { parameters_at (0x02 ∷ 0x00 ∷ 0x04 ∷ 0x01 ∷ 0x07 ∷ 0x0c ∷ 0x00 ∷ 0x02 ∷ 0x02 ∷ 0xff ∷ 0xff ∷ []) ≡ Ok (record no_limits { initial_max_data = 7 }) }
    ensures cut { parameters_at (0x04 ∷ 0x02 ∷ 0x40 ∷ []) ≡ Err Malformed }
    ensures twice { parameters_at (0x04 ∷ 0x01 ∷ 0x07 ∷ 0x40 ∷ 0x04 ∷ 0x01 ∷ 0x08 ∷ []) ≡ Err Malformed }
    ensures longer { parameters_at (0x04 ∷ 0x02 ∷ 0x07 ∷ 0x00 ∷ []) ≡ Err Malformed }
    ensures most { parameters_at (0x08 ∷ 0x08 ∷ 0xd0 ∷ 0x00 ∷ 0x00 ∷ 0x00 ∷ 0x00 ∷ 0x00 ∷ 0x00 ∷ 0x00 ∷ []) ≡ Ok (record no_limits { initial_max_streams_bidi = 1152921504606846976 }) }
    ensures above { parameters_at (0x08 ∷ 0x08 ∷ 0xd0 ∷ 0x00 ∷ 0x00 ∷ 0x00 ∷ 0x00 ∷ 0x00 ∷ 0x00 ∷ 0x01 ∷ []) ≡ Err IllegalValue }
    ensures cut_payload { parameters_at (0x03 ∷ 0x04 ∷ 0x80 ∷ 0x01 ∷ 0x00 ∷ 0x00 ∷ []) ≡ Ok no_limits }
    ensures short_payload { parameters_at (0x03 ∷ 0x02 ∷ 0x44 ∷ 0xaf ∷ []) ≡ Err IllegalValue }
    ensures one_id { parameters_at (0x0e ∷ 0x01 ∷ 0x01 ∷ []) ≡ Err IllegalValue }
    ensures delay_first { parameters_at (0x80 ∷ 0x00 ∷ 0x00 ∷ 0x0b ∷ 0x01 ∷ 0x01 ∷ 0xc0 ∷ 0x00 ∷ 0x00 ∷ 0x00 ∷ 0xff ∷ 0x04 ∷ 0xde ∷ 0x1b ∷ 0x02 ∷ 0x43 ∷ 0xe8 ∷ []) ≡ Ok (record no_limits { max_ack_delay = 1; min_ack_delay = Some 1000 }) }
    ensures delay_behind { parameters_at (0xc0 ∷ 0x00 ∷ 0x00 ∷ 0x00 ∷ 0xff ∷ 0x04 ∷ 0xde ∷ 0x1b ∷ 0x02 ∷ 0x43 ∷ 0xe9 ∷ 0x0b ∷ 0x01 ∷ 0x01 ∷ []) ≡ Err IllegalValue }
    ensures delay_malformed { parameters_at (0xc0 ∷ 0x00 ∷ 0x00 ∷ 0x00 ∷ 0xff ∷ 0x04 ∷ 0xde ∷ 0x1b ∷ 0x02 ∷ 0x43 ∷ 0xe9 ∷ 0x0b ∷ 0x01 ∷ 0x01 ∷ 0x04 ∷ []) ≡ Err Malformed }
{}

/// A set of numbers is written as an ACK frame, and read again; fields are judged in their order
/// (RFC 9000, section 19.3): a first range longer than its greatest number, a gap that is too large
/// with nothing behind it, a length that is too large.
#[tactic(auto, unfolding(crate::specs::Items::items, crate::specs::Items::items_within, crate::specs::Items::frame_at, crate::specs::Reading::body_at, crate::specs::FrameTypes::kind_of, crate::specs::AckReading::ack_at, crate::specs::AckReading::ranges_at, crate::specs::AckReading::range_at, crate::specs::AckReading::ecn_at, crate::specs::AckReading::some_ecn_at))]
pub fn acks_are_sets()
    ensures set { ack_of_set 42 seven_numbers (Some (42, 24, 12)) ≡ seven_acked }
    ensures spelled { spelling (ack seven_acked) ≡ seven_spelled }
    ensures size { frame_size (ack seven_acked) ≡ 14 }
    ensures read { items seven_spelled ≡ Ok (ack seven_acked) ∷ [] }
    ensures first { items (0x02 ∷ 0x04 ∷ 0x00 ∷ 0x00 ∷ 0x05 ∷ []) ≡ Err (record { ty = Some 0x02; reason = frame_errors.Malformed }) ∷ [] }
    ensures gap { items (0x02 ∷ 0x04 ∷ 0x00 ∷ 0x01 ∷ 0x00 ∷ 0x03 ∷ []) ≡ Err (record { ty = Some 0x02; reason = frame_errors.Malformed }) ∷ [] }
    ensures no_length { items (0x02 ∷ 0x04 ∷ 0x00 ∷ 0x01 ∷ 0x00 ∷ 0x02 ∷ []) ≡ Err (record { ty = Some 0x02; reason = UnexpectedEnd }) ∷ [] }
    ensures length { items (0x02 ∷ 0x04 ∷ 0x00 ∷ 0x01 ∷ 0x00 ∷ 0x02 ∷ 0x01 ∷ []) ≡ Err (record { ty = Some 0x02; reason = frame_errors.Malformed }) ∷ [] }
    ensures asks { asks (ack seven_acked) ≡ false }
{}
