//! What the definitions of frames say together. Each function does nothing: its contract is the
//! law.
ghost use Rattle.std.specs.Prelude.{◌≡◌, ℕ, ◌+◌, ◌≤◌, Bool, false, List, [], ◌∷◌, ◌++◌, ◌<◌, ◌^◌, length, map, replicate, Ok, Err, Result, Option, ◌↔◌};
ghost use Rattle.quic_wire.specs.declared.frame.InvalidFrame.{InvalidFrame};
ghost use Rattle.quic_wire.specs.Value.{FrameValue, StreamValue, ack, padding, stream, datagram};
ghost use Rattle.quic_wire.specs.FrameTypes.{Kind, IsKnown, kind_of, type_of};
ghost use Rattle.quic_wire.specs.Grammar.{Ends, IsForm, Payload};
ghost use Rattle.quic_wire.specs.Items.{items, EndsAtRefusal};
ghost use Rattle.quic_sets.specs.Runs.{Run, Has, AreRuns};
ghost use Rattle.quic_wire.specs.AckGrammar.{EcnFits, InRanges};
ghost use Rattle.quic_wire.specs.AckSet.{ack_of_set, IsSmall};
ghost use Rattle.quic_wire.specs.AckWriting.{ack_spelling};
ghost use Rattle.quic_wire.specs.Writing.{spelling, stream_spelling, datagram_to_end, spelled_all, Fits, AllFit, StreamFits, frame_size, stream_size, most_of};

/// A type number names one kind of frame, and each kind is named by its number (RFC 9000, section
/// 12.4).
pub fn types_name_kinds()
    ensures number { (type : ℕ) → type_of (kind_of type) ≡ type }
    ensures kind { (kind : Kind) → IsKnown kind → kind_of (type_of kind) ≡ kind }
{}

/// A payload has no more items than bytes, and nothing comes behind a refusal.
pub fn items_end()
    ensures few { (bytes : List ℕ) → length (items bytes) ≤ length bytes }
    ensures last { (bytes : List ℕ) → EndsAtRefusal (items bytes) }
{}

/// A form of a frame is read as that frame, and the items of what follows it come behind it.
pub fn form_is_read()
    ensures { (f : FrameValue) (bytes rest : List ℕ) → IsForm f bytes rest → items (bytes ++ rest) ≡ Ok f ∷ items rest }
{}

/// Bytes are refused only where no frame stands at their front.
pub fn refused_is_no_form()
    ensures { (bytes : List ℕ) (e : InvalidFrame) (others : List (Result FrameValue InvalidFrame)) → items bytes ≡ Err e ∷ others
        → (f : FrameValue) (front rest : List ℕ) → bytes ≡ front ++ rest → IsForm f front rest → ⊥ }
{}

/// A payload is the bytes of at most one list of frames.
pub fn payload_is_one_list()
    ensures { (fs gs : List FrameValue) (bytes : List ℕ) → Payload fs bytes → Payload gs bytes → fs ≡ gs }
{}

/// What is written for a frame is a form of it, whatever follows it; a STREAM or DATAGRAM frame
/// without its length where nothing follows it.
pub fn written_is_form()
    ensures frame { (f : FrameValue) (rest : List ℕ) → Fits f → IsForm f (spelling f) rest }
    ensures stream { (with_length : Bool) (s : StreamValue) (rest : List ℕ) → StreamFits s → Ends with_length rest → IsForm (stream s) (stream_spelling with_length s) rest }
    ensures datagram { (d : List ℕ) → IsForm (datagram d) (datagram_to_end d) [] }
{}

/// A frame that has a form of fewer than 2^62 bytes is in the range that the writers take.
pub fn form_is_in_range()
    ensures { (f : FrameValue) (bytes rest : List ℕ) → IsForm f bytes rest → length bytes < 2 ^ 62 → Fits f }
{}

/// What is written for a frame has the size that is told.
pub fn written_has_size()
    ensures frame { (f : FrameValue) → Fits f → length (spelling f) ≡ frame_size f }
    ensures stream { (with_length : Bool) (s : StreamValue) → length (stream_spelling with_length s) ≡ stream_size with_length s }
    ensures datagram { (d : List ℕ) → length (datagram_to_end d) ≡ 1 + length d }
{}

/// A frame of each kind takes no more bytes than the greatest numbers of its fields and its text
/// do.
pub fn written_has_bound()
    ensures { (f : FrameValue) → Fits f → frame_size f ≤ most_of f }
{}

/// Frames that are written are read as those frames: each byte 0 behind them as PADDING, and a
/// STREAM or DATAGRAM frame without its length as the last of them: all that follows its header is
/// its text.
pub fn written_is_read()
    ensures padded { (fs : List FrameValue) (count : ℕ) → AllFit fs → items (spelled_all fs ++ replicate count 0) ≡ map Ok (fs ++ replicate count padding) }
    ensures last { (fs : List FrameValue) (s : StreamValue) → AllFit fs → StreamFits s → items (spelled_all fs ++ stream_spelling false s) ≡ map Ok (fs ++ stream s ∷ []) }
    ensures last_datagram { (fs : List FrameValue) (d : List ℕ) → AllFit fs → items (spelled_all fs ++ datagram_to_end d) ≡ map Ok (fs ++ datagram d ∷ []) }
{}

/// An ACK frame is its set of numbers (RFC 9000, section 19.3.1): what is written for a set that
/// isn't empty has a form and is read as that frame, whatever follows it, and a number is in the
/// set exactly where one of the frame's ranges holds it.
pub fn ack_is_its_set()
    ensures fits { (delay : ℕ) (runs : List Run) (ecn : Option (ℕ × ℕ × ℕ)) → AreRuns runs → (runs ≡ [] → ⊥) → IsSmall runs → delay < 2 ^ 62 → EcnFits ecn → Fits (ack (ack_of_set delay runs ecn)) }
    ensures read { (delay : ℕ) (runs : List Run) (ecn : Option (ℕ × ℕ × ℕ)) (rest : List ℕ) → AreRuns runs → (runs ≡ [] → ⊥) → IsSmall runs → delay < 2 ^ 62 → EcnFits ecn
        → items (ack_spelling (ack_of_set delay runs ecn) ++ rest) ≡ Ok (ack (ack_of_set delay runs ecn)) ∷ items rest }
    ensures numbers { (delay : ℕ) (runs : List Run) (ecn : Option (ℕ × ℕ × ℕ)) (n : ℕ) → AreRuns runs → Has runs n ↔ InRanges (ack_of_set delay runs ecn).ranges n }
{}
