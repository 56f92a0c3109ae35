//! Why bytes are no frame, and of which type: the first field that fails decides (RFC 9000, section
//! 12.4).
ghost use Rattle.std.specs.Prelude.{◌≡◌, [], ◌∷◌, ◌++◌, replicate, Some, None, Ok, Err};
ghost use Rattle.quic_wire.specs.declared.frame.FrameError.TheVariants.{UnexpectedEnd, Malformed, InvalidId};
ghost use Rattle.quic_wire.specs.Value.{ping};
ghost use Rattle.quic_wire_rows.specs.Spelled.{read, refusal, cut_refusals, ends_early, IsCutAnywhere};

/// A frame that is cut off anywhere ends too early.
#[tactic(auto, unfolding(crate::specs::Spelled::cut_refusals))]
pub fn cut_fields_end_frames()
    ensures ack { IsCutAnywhere 0x03 (0x03 ∷ 0x04 ∷ 0x00 ∷ 0x01 ∷ 0x00 ∷ 0x01 ∷ 0x01 ∷ 0x02 ∷ 0x00 ∷ 0x40 ∷ 0x40 ∷ []) }
    ensures reset { IsCutAnywhere 0x04 (0x04 ∷ 0x01 ∷ 0x40 ∷ 0x02 ∷ 0x03 ∷ []) }
    ensures stop { IsCutAnywhere 0x05 (0x05 ∷ 0x01 ∷ 0x02 ∷ []) }
    ensures crypto { IsCutAnywhere 0x06 (0x06 ∷ 0x00 ∷ 0x02 ∷ 0x61 ∷ 0x62 ∷ []) }
    ensures token { IsCutAnywhere 0x07 (0x07 ∷ 0x01 ∷ 0x61 ∷ []) }
    ensures stream { IsCutAnywhere 0x0e (0x0e ∷ 0x01 ∷ 0x02 ∷ 0x01 ∷ 0x61 ∷ []) }
    ensures max_data { IsCutAnywhere 0x10 (0x10 ∷ 0x80 ∷ 0x00 ∷ 0x00 ∷ 0x01 ∷ []) }
    ensures max_stream_data { IsCutAnywhere 0x11 (0x11 ∷ 0x01 ∷ 0x02 ∷ []) }
    ensures max_bidi { IsCutAnywhere 0x12 (0x12 ∷ 0x40 ∷ 0x03 ∷ []) }
    ensures max_uni { IsCutAnywhere 0x13 (0x13 ∷ 0x40 ∷ 0x03 ∷ []) }
    ensures data_blocked { IsCutAnywhere 0x14 (0x14 ∷ 0x41 ∷ 0x00 ∷ []) }
    ensures stream_blocked { IsCutAnywhere 0x15 (0x15 ∷ 0x02 ∷ 0x40 ∷ 0x64 ∷ []) }
    ensures bidi_blocked { IsCutAnywhere 0x16 (0x16 ∷ 0x40 ∷ 0x03 ∷ []) }
    ensures uni_blocked { IsCutAnywhere 0x17 (0x17 ∷ 0x40 ∷ 0x05 ∷ []) }
    ensures id { IsCutAnywhere 0x18 (0x18 ∷ 0 ∷ 0 ∷ 4 ∷ replicate 20 0) }
    ensures retire { IsCutAnywhere 0x19 (0x19 ∷ 0x40 ∷ 0x40 ∷ []) }
    ensures challenge { IsCutAnywhere 0x1a (0x1a ∷ 1 ∷ 2 ∷ 3 ∷ 4 ∷ 5 ∷ 6 ∷ 7 ∷ 8 ∷ []) }
    ensures response { IsCutAnywhere 0x1b (0x1b ∷ 1 ∷ 2 ∷ 3 ∷ 4 ∷ 5 ∷ 6 ∷ 7 ∷ 8 ∷ []) }
    ensures close { IsCutAnywhere 0x1c (0x1c ∷ 0x01 ∷ 0x02 ∷ 0x01 ∷ 0x61 ∷ []) }
    ensures application { IsCutAnywhere 0x1d (0x1d ∷ 0x01 ∷ 0x01 ∷ 0x61 ∷ []) }
    ensures message { IsCutAnywhere 0x31 (0x31 ∷ 0x01 ∷ 0x61 ∷ []) }
{}

/// A first range longer than the greatest number; a gap that is too large, with nothing behind it;
/// the greatest gap, and nothing behind it; a length that is too large.
#[tactic(auto, unfolding(crate::specs::Spelled::refusal))]
pub fn ranges_are_judged_in_their_order()
    ensures first { refusal (0x02 ∷ 0x04 ∷ 0x00 ∷ 0x00 ∷ 0x05 ∷ []) ≡ Some (record { ty = Some 0x02; reason = Malformed }) }
    ensures gap { refusal (0x02 ∷ 0x04 ∷ 0x00 ∷ 0x01 ∷ 0x00 ∷ 0x03 ∷ []) ≡ Some (record { ty = Some 0x02; reason = Malformed }) }
    ensures no_length { refusal (0x02 ∷ 0x04 ∷ 0x00 ∷ 0x01 ∷ 0x00 ∷ 0x02 ∷ []) ≡ ends_early 0x02 }
    ensures length { refusal (0x02 ∷ 0x04 ∷ 0x00 ∷ 0x01 ∷ 0x00 ∷ 0x02 ∷ 0x01 ∷ []) ≡ Some (record { ty = Some 0x02; reason = Malformed }) }
{}

/// An id that is retired before it is given, with nothing behind it; lengths of 0, 21 and 20, and
/// no id.
#[tactic(auto, unfolding(crate::specs::Spelled::refusal))]
pub fn ids_are_judged_in_their_order()
    ensures retired { refusal (0x18 ∷ 0x00 ∷ 0x01 ∷ []) ≡ Some (record { ty = Some 0x18; reason = Malformed }) }
    ensures empty { refusal (0x18 ∷ 0x01 ∷ 0x01 ∷ 0x00 ∷ []) ≡ Some (record { ty = Some 0x18; reason = Malformed }) }
    ensures long { refusal (0x18 ∷ 0x01 ∷ 0x01 ∷ 0x15 ∷ []) ≡ Some (record { ty = Some 0x18; reason = Malformed }) }
    ensures longest { refusal (0x18 ∷ 0x01 ∷ 0x01 ∷ 0x14 ∷ []) ≡ ends_early 0x18 }
{}

/// A type of two bytes, whose last field is missing; types that no frame has, one of them in four
/// bytes.
#[tactic(auto, unfolding(crate::specs::Spelled::refusal))]
pub fn types_are_told()
    ensures wide { refusal (0x40 ∷ 0xaf ∷ 0x01 ∷ 0x0a ∷ 0x03 ∷ []) ≡ ends_early 0xaf }
    ensures unknown { refusal (0x2f ∷ 0x00 ∷ []) ≡ Some (record { ty = Some 0x2f; reason = InvalidId }) }
    ensures unknown_wide { refusal (0x80 ∷ 0x00 ∷ 0x00 ∷ 0xae ∷ []) ≡ Some (record { ty = Some 0xae; reason = InvalidId }) }
{}

/// Nothing is read behind a refusal.
#[tactic(auto, unfolding(crate::specs::Spelled::read))]
pub fn nothing_comes_behind_a_refusal()
    ensures { read (0x01 ∷ 0x80 ∷ 0x00 ∷ []) ≡ Ok ping ∷ Err (record { ty = None; reason = UnexpectedEnd }) ∷ [] }
{}
