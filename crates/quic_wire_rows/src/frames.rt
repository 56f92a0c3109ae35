//! Each kind of frame, laid out by hand as in RFC 9000, section 19, RFC 9221, section 4, and the
//! ACK frequency extension, section 4: read from some bytes, and written as the same bytes again.
ghost use Rattle.std.specs.Prelude.{◌≡◌, true, false, [], ◌∷◌, Some, None, Ok, Err};
ghost use Rattle.std.specs.Int.{w64, to_be_bytes};
ghost use Rattle.quic_wire.specs.declared.frame.FrameError.TheVariants.{UnexpectedEnd};
ghost use Rattle.quic_wire.specs.Value.{padding, ping, ack, reset_stream, stop_sending, crypto, new_token, stream, max_data, max_stream_data, max_streams, data_blocked, stream_data_blocked, streams_blocked, new_connection_id, retire_connection_id, path_challenge, path_response, connection_close, application_close, handshake_done, immediate_ack, datagram, ack_frequency};
ghost use Rattle.quic_wire_rows.specs.Spelled.{read, read_unpadded, write, IsSpelled};

/// Frames of numbers.
#[tactic(auto, unfolding(crate::specs::Spelled::read, crate::specs::Spelled::write))]
pub fn numbers_are_spelled()
    ensures padding { IsSpelled padding (0x00 ∷ []) }
    ensures ping { IsSpelled ping (0x01 ∷ []) }
    ensures max_data { IsSpelled (max_data 65536) (0x10 ∷ 0x80 ∷ 0x01 ∷ 0x00 ∷ 0x00 ∷ []) }
    ensures max_bidi { IsSpelled (max_streams (record { one_way = false; count = 3 })) (0x12 ∷ 0x03 ∷ []) }
    ensures max_uni { IsSpelled (max_streams (record { one_way = true; count = 16384 })) (0x13 ∷ 0x80 ∷ 0x00 ∷ 0x40 ∷ 0x00 ∷ []) }
    ensures data_blocked { IsSpelled (data_blocked 256) (0x14 ∷ 0x41 ∷ 0x00 ∷ []) }
    ensures bidi_blocked { IsSpelled (streams_blocked (record { one_way = false; count = 0 })) (0x16 ∷ 0x00 ∷ []) }
    ensures uni_blocked { IsSpelled (streams_blocked (record { one_way = true; count = 5 })) (0x17 ∷ 0x05 ∷ []) }
    ensures retire { IsSpelled (retire_connection_id 64) (0x19 ∷ 0x40 ∷ 0x40 ∷ []) }
    ensures challenge { IsSpelled (path_challenge (to_be_bytes w64 72623859790382856)) (0x1a ∷ 1 ∷ 2 ∷ 3 ∷ 4 ∷ 5 ∷ 6 ∷ 7 ∷ 8 ∷ []) }
    ensures response { IsSpelled (path_response (to_be_bytes w64 4294967296)) (0x1b ∷ 0 ∷ 0 ∷ 0 ∷ 1 ∷ 0 ∷ 0 ∷ 0 ∷ 0 ∷ []) }
    ensures done { IsSpelled handshake_done (0x1e ∷ []) }
    ensures immediate { IsSpelled immediate_ack (0x1f ∷ []) }
{}

/// Frames of streams.
#[tactic(auto, unfolding(crate::specs::Spelled::read, crate::specs::Spelled::write))]
pub fn frames_of_streams_are_spelled()
    ensures reset { IsSpelled (reset_stream (record { id = 4; code = 256; final_size = 16384 }))
        (0x04 ∷ 0x04 ∷ 0x41 ∷ 0x00 ∷ 0x80 ∷ 0x00 ∷ 0x40 ∷ 0x00 ∷ []) }
    ensures stop { IsSpelled (stop_sending (record { id = 8; code = 63 })) (0x05 ∷ 0x08 ∷ 0x3f ∷ []) }
    ensures stream { IsSpelled (stream (record { id = 4; offset = 64; fin = true; bytes = 0x61 ∷ [] }))
        (0x0f ∷ 0x04 ∷ 0x40 ∷ 0x40 ∷ 0x01 ∷ 0x61 ∷ []) }
    ensures hello { IsSpelled (stream (record { id = 4; offset = 64; fin = true; bytes = 0x68 ∷ 0x65 ∷ 0x6c ∷ 0x6c ∷ 0x6f ∷ [] }))
        (0x0f ∷ 0x04 ∷ 0x40 ∷ 0x40 ∷ 0x05 ∷ 0x68 ∷ 0x65 ∷ 0x6c ∷ 0x6c ∷ 0x6f ∷ []) }
    ensures limit { IsSpelled (max_stream_data (record { id = 4; limit = 4294967296 }))
        (0x11 ∷ 0x04 ∷ 0xc0 ∷ 0 ∷ 0 ∷ 0x01 ∷ 0 ∷ 0 ∷ 0 ∷ 0 ∷ []) }
    ensures blocked { IsSpelled (stream_data_blocked (record { id = 2; limit = 100 })) (0x15 ∷ 0x02 ∷ 0x40 ∷ 0x64 ∷ []) }
{}

/// Frames with a text, with an id, and a request. The id is that of RFC 9001, appendix A.
#[tactic(auto, unfolding(crate::specs::Spelled::read, crate::specs::Spelled::write))]
pub fn texts_and_ids_are_spelled()
    ensures crypto { IsSpelled (crypto (record { offset = 64; bytes = 0x61 ∷ 0x62 ∷ [] })) (0x06 ∷ 0x40 ∷ 0x40 ∷ 0x02 ∷ 0x61 ∷ 0x62 ∷ []) }
    ensures token { IsSpelled (new_token (0x61 ∷ 0x62 ∷ 0x63 ∷ [])) (0x07 ∷ 0x03 ∷ 0x61 ∷ 0x62 ∷ 0x63 ∷ []) }
    ensures close { IsSpelled (connection_close (record { code = 10; frame_type = 6; reason = 0x6e ∷ 0x6f ∷ [] }))
        (0x1c ∷ 0x0a ∷ 0x06 ∷ 0x02 ∷ 0x6e ∷ 0x6f ∷ []) }
    ensures application { IsSpelled (application_close (record { code = 256; reason = [] })) (0x1d ∷ 0x41 ∷ 0x00 ∷ 0x00 ∷ []) }
    ensures message { IsSpelled (datagram (0x68 ∷ 0x69 ∷ [])) (0x31 ∷ 0x02 ∷ 0x68 ∷ 0x69 ∷ []) }
    ensures request { IsSpelled (ack_frequency (record { sequence = 1; threshold = 10; delay = 25000; reordering = 3 }))
        (0x40 ∷ 0xaf ∷ 0x01 ∷ 0x0a ∷ 0x80 ∷ 0x00 ∷ 0x61 ∷ 0xa8 ∷ 0x03 ∷ []) }
    ensures id { IsSpelled (new_connection_id (record {
      sequence = 2;
      retire_prior_to = 1;
      id = 0x83 ∷ 0x94 ∷ 0xc8 ∷ 0xf0 ∷ 0x3e ∷ 0x51 ∷ 0x57 ∷ 0x08 ∷ [];
      token = 0 ∷ 1 ∷ 2 ∷ 3 ∷ 4 ∷ 5 ∷ 6 ∷ 7 ∷ 8 ∷ 9 ∷ 10 ∷ 11 ∷ 12 ∷ 13 ∷ 14 ∷ 15 ∷ [];
    }))
        (0x18 ∷ 0x02 ∷ 0x01 ∷ 0x08 ∷ 0x83 ∷ 0x94 ∷ 0xc8 ∷ 0xf0 ∷ 0x3e ∷ 0x51 ∷ 0x57 ∷ 0x08
        ∷ 0 ∷ 1 ∷ 2 ∷ 3 ∷ 4 ∷ 5 ∷ 6 ∷ 7 ∷ 8 ∷ 9 ∷ 10 ∷ 11 ∷ 12 ∷ 13 ∷ 14 ∷ 15 ∷ []) }
{}

/// ACK frames, with counts of marks and without.
#[tactic(auto, unfolding(crate::specs::Spelled::read, crate::specs::Spelled::write))]
pub fn acks_are_spelled()
    ensures counts { IsSpelled (ack (record { largest = 14; delay = 42; ranges = (14, 14) ∷ (10, 11) ∷ (5, 5) ∷ (1, 3) ∷ []; ecn = Some (42, 24, 12) }))
        (0x03 ∷ 0x0e ∷ 0x2a ∷ 0x03 ∷ 0x00 ∷ 0x01 ∷ 0x01 ∷ 0x03 ∷ 0x00 ∷ 0x00 ∷ 0x02 ∷ 0x2a ∷ 0x18 ∷ 0x0c ∷ []) }
    ensures none { IsSpelled (ack (record { largest = 14; delay = 42; ranges = (14, 14) ∷ (10, 11) ∷ []; ecn = None }))
        (0x02 ∷ 0x0e ∷ 0x2a ∷ 0x01 ∷ 0x00 ∷ 0x01 ∷ 0x01 ∷ []) }
{}

/// A message without its length ends the payload (RFC 9221, section 4); a type has any width.
#[tactic(auto, unfolding(crate::specs::Spelled::read))]
pub fn other_forms_are_read()
    ensures message { read (0x30 ∷ 0x68 ∷ 0x69 ∷ 0x00 ∷ []) ≡ Ok (datagram (0x68 ∷ 0x69 ∷ 0x00 ∷ [])) ∷ [] }
    ensures wide { read (0xc0 ∷ 0 ∷ 0 ∷ 0 ∷ 0 ∷ 0 ∷ 0 ∷ 0x1e ∷ []) ≡ Ok handshake_done ∷ [] }
{}

/// PADDING is passed, whatever the width of its type; a type that is cut off is refused behind it.
#[tactic(auto, unfolding(crate::specs::Spelled::read_unpadded))]
pub fn padding_is_passed()
    ensures passed { read_unpadded (0 ∷ 0 ∷ 0x01 ∷ 0x40 ∷ 0 ∷ 0 ∷ 0x80 ∷ 0 ∷ 0 ∷ 0 ∷ 0x1e ∷ 0 ∷ 0 ∷ [])
        ≡ Ok ping ∷ Ok handshake_done ∷ [] }
    ensures cut { read_unpadded (0 ∷ 0xc0 ∷ 0 ∷ []) ≡ Err (record { ty = None; reason = UnexpectedEnd }) ∷ [] }
{}
