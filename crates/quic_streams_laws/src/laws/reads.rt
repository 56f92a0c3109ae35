//! What is read of streams is what was written on them.
ghost use Rattle.std.specs.Prelude.{◌≡◌, ℕ, ◌⊎◌, Bool, true, false, List, [], ◌∷◌, ◌++◌, Contains, Option, Some, None, Result, Ok, Err};
ghost use Rattle.std.specs.Option.{option_to_list};
ghost use Rattle.quic_wire_core.specs.declared.stream_id.Side.{Side};
ghost use Rattle.quic_wire_core.specs.declared.stream_id.Dir.{Dir};
ghost use Rattle.quic_wire_core.specs.StreamId.{dir_of};
ghost use Rattle.quic_parameters.specs.Parameters.{ParameterValues};
ghost use Rattle.quic_wire.specs.Value.{StreamValue, ResetStreamValue};
ghost use Rattle.quic_assembler.specs.declared.assembler.Chunk.{Chunk};
ghost use Rattle.quic_streams_parts.specs.declared.answers.ReadError.{ReadError};
ghost use Rattle.quic_streams_parts.specs.declared.answers.ReadError.TheVariants as read_errors;
ghost use Rattle.quic_streams_parts.specs.Dirs.{is_own};
ghost use Rattle.quic_streams_parts.specs.RecvHalf.{end_of};
ghost use Rattle.quic_retransmits.specs.Retransmits.{Retransmits};
ghost use Rattle.quic_streams_state.specs.declared.state.StreamsState.{StreamsState};
ghost use Rattle.quic_streams_state.specs.State.{new_streams, after_set_params, is_opened};
ghost use Rattle.quic_streams_state.specs.Opening.{accept_answer, after_accept};
ghost use Rattle.quic_streams_state.specs.Taking.{refusal, after_stream, after_reset_frame};
ghost use Rattle.quic_streams_state.specs.Reading.{Told, told_bytes, told_by, read_answer, after_read_begun, next_answer, after_next, after_finalize, after_stop, after_received_reset};
ghost use Rattle.quic_streams_laws.specs.Written.{Wrote, Grows, IsStreamOf, IsResetOf};
ghost use Rattle.quic_streams_laws.specs.Reads.{Reads, nothing_read, read_begun_by, read_next_by, bytes_of, AreSlices, AreDistinct, FollowOn, IsPrefix, IsNextOf};
ghost use Rattle.quic_streams_laws.specs.Content.{HoldsRead, TellsRight, IsOpenHalf, MayRead, IsNextAnswer};
ghost use Rattle.quic_streams_laws.specs.Kept.{HoldsTaken, BringsNothing};
ghost use Rattle.quic_streams_laws.specs.Accepted.{HoldsAccepted};
ghost use Rattle.quic_streams_laws.specs.Quiet.{IsQuiet};

/// At the start nothing is read, and the peer's first limits change nothing of that. What was read
/// stays so as more is written.
pub fn nothing_is_read()
    ensures new { (wrote : ℕ → Wrote) (side : Side) (uni bi send_window window stream_window : ℕ) → HoldsRead wrote (λ id. nothing_read) (new_streams side uni bi send_window window stream_window) }
    ensures limits { (wrote : ℕ → Wrote) (read : ℕ → Reads) (s : StreamsState) (p : ParameterValues) → HoldsRead wrote read s → HoldsRead wrote read (after_set_params s p) }
    ensures more { (wrote more : ℕ → Wrote) (read : ℕ → Reads) (s : StreamsState) → ((id : ℕ) → Grows (wrote id) (more id)) → HoldsRead wrote read s → HoldsRead more read s }
{}

/// Each chunk that was read stands in what was written at its offset, no offset is read twice, and
/// while all reads of a stream were in order each follows the one before, so that the bytes that
/// were read are a prefix of those that were written (RFC 9000, section 2.2).
pub fn reads_are_what_was_written()
    ensures slices { (wrote : ℕ → Wrote) (read : ℕ → Reads) (s : StreamsState) (id : ℕ) → HoldsRead wrote read s → AreSlices (wrote id).bytes (read id).chunks }
    ensures once { (wrote : ℕ → Wrote) (read : ℕ → Reads) (s : StreamsState) (id : ℕ) → HoldsRead wrote read s → AreDistinct (read id).chunks }
    ensures follows { (wrote : ℕ → Wrote) (read : ℕ → Reads) (s : StreamsState) (id : ℕ) → HoldsRead wrote read s → (read id).unordered ≡ false → FollowOn 0 (read id).chunks }
    ensures prefix { (wrote : ℕ → Wrote) (read : ℕ → Reads) (s : StreamsState) (id : ℕ) → HoldsRead wrote read s → (read id).unordered ≡ false → IsPrefix (bytes_of (read id).chunks) (wrote id).bytes }
{}

/// STREAM and RESET_STREAM frames that say what was done on their stream, whether they are refused
/// or not, leave what was read (RFC 9000, sections 19.4 and 19.8).
pub fn frames_bring_what_was_written()
    ensures stream { (wrote : ℕ → Wrote) (read : ℕ → Reads) (s : StreamsState) (p : Retransmits) (f : StreamValue) → IsStreamOf (wrote f.id) f → HoldsRead wrote read s → HoldsRead wrote read (after_stream s p f).state }
    ensures reset_stream { (wrote : ℕ → Wrote) (read : ℕ → Reads) (s : StreamsState) (p : Retransmits) (f : ResetStreamValue) → IsResetOf (wrote f.id) f → HoldsRead wrote read s → HoldsRead wrote read (after_reset_frame s p f).state }
    ensures stream_stays { (w more : Wrote) (f : StreamValue) → Grows w more → IsStreamOf w f → IsStreamOf more f }
    ensures reset_stays { (w more : Wrote) (f : ResetStreamValue) → Grows w more → IsResetOf w f → IsResetOf more f }
{}

/// What calls read is counted: a read that begins, each `next` with what it answered, a stop, and
/// asking for a reset.
pub fn calls_read()
    ensures begun { (wrote : ℕ → Wrote) (read : ℕ → Reads) (s : StreamsState) (id : ℕ) (ordered : Bool) → HoldsRead wrote read s → HoldsRead wrote (read_begun_by (read_answer s id ordered) ordered id read) (after_read_begun s id ordered) }
    ensures next { (wrote : ℕ → Wrote) (read : ℕ → Reads) (told : Told) (s : StreamsState) (id most : ℕ) (answer : Result (Option Chunk) ReadError) → IsNextAnswer told s id most answer
        → HoldsRead wrote read s → HoldsRead wrote (read_next_by answer id read) (after_next told answer s id most) }
    ensures finalize { (wrote : ℕ → Wrote) (read : ℕ → Reads) (s : StreamsState) (p : Retransmits) (id : ℕ) → HoldsRead wrote read s → HoldsRead wrote read (after_finalize s p id).state }
    ensures stop { (wrote : ℕ → Wrote) (read : ℕ → Reads) (s : StreamsState) (p : Retransmits) (id code : ℕ) → HoldsRead wrote read s → HoldsRead wrote read (after_stop s p id code).state }
    ensures received_reset { (wrote : ℕ → Wrote) (read : ℕ → Reads) (s : StreamsState) (p : Retransmits) (id : ℕ) → HoldsRead wrote read s → HoldsRead wrote read (after_received_reset s p id).state }
{}

/// What a `next` answers on a stream that isn't stopped: a chunk that was written and wasn't read,
/// which follows on while all reads were in order; the end only where the stream ended and each
/// byte of it was read; and a reset only with its code. It tells so again.
pub fn nexts_tell_what_was_written()
    ensures answer { (wrote : ℕ → Wrote) (read : ℕ → Reads) (told : Told) (s : StreamsState) (id most : ℕ) → MayRead told s id → TellsRight (wrote id) (read id) told → HoldsRead wrote read s → IsNextOf (wrote id) (read id) (next_answer told s id most) }
    ensures told { (wrote : ℕ → Wrote) (read : ℕ → Reads) (told : Told) (s : StreamsState) (id most : ℕ) (answer : Result (Option Chunk) ReadError) → IsNextAnswer told s id most answer
        → MayRead told s id → TellsRight (wrote id) (read id) told → HoldsRead wrote read s → TellsRight (wrote id) (read_next_by answer id read id) (told_by answer told) }
    ensures grown { (w more : Wrote) (r : Reads) (told : Told) → Grows w more → TellsRight w r told → TellsRight more r told }
    ensures begun { (s : StreamsState) (id : ℕ) (ordered : Bool) (x : Unit {0}) → read_answer s id ordered ≡ Ok x → IsOpenHalf (after_read_begun s id ordered) id }
    ensures goes_on { (told : Told) (s : StreamsState) (id most : ℕ) (answer : Result (Option Chunk) ReadError) → MayRead told s id → MayRead (told_by answer told) (after_next told answer s id most) id }
{}

/// What STREAM frames that were taken brought is read or waits, on each stream that is neither
/// stopped nor reset: so after each frame, which counts as taken unless it is refused, and after
/// each call that reads.
pub fn taken_frames_are_kept()
    ensures new { (side : Side) (uni bi send_window window stream_window : ℕ) → HoldsTaken (λ f. Contains [] f) (new_streams side uni bi send_window window stream_window) }
    ensures limits { (taken : List StreamValue) (s : StreamsState) (p : ParameterValues) → HoldsTaken (λ f. Contains taken f) s → HoldsTaken (λ f. Contains taken f) (after_set_params s p) }
    ensures taken { (taken : List StreamValue) (s : StreamsState) (p : Retransmits) (f : StreamValue) → refusal s f.id (end_of f) f.fin ≡ None → HoldsTaken (λ g. Contains taken g) s → HoldsTaken (λ g. Contains (taken ++ f ∷ []) g) (after_stream s p f).state }
    ensures stream { (taken : List StreamValue) (s : StreamsState) (p : Retransmits) (f : StreamValue) → HoldsTaken (λ g. Contains taken g) s → HoldsTaken (λ g. Contains taken g) (after_stream s p f).state }
    ensures reset_stream { (taken : List StreamValue) (s : StreamsState) (p : Retransmits) (f : ResetStreamValue) → HoldsTaken (λ f. Contains taken f) s → HoldsTaken (λ f. Contains taken f) (after_reset_frame s p f).state }
    ensures begun { (taken : List StreamValue) (s : StreamsState) (id : ℕ) (ordered : Bool) → HoldsTaken (λ f. Contains taken f) s → HoldsTaken (λ f. Contains taken f) (after_read_begun s id ordered) }
    ensures next { (taken : List StreamValue) (told : Told) (s : StreamsState) (id most : ℕ) (answer : Result (Option Chunk) ReadError) → IsNextAnswer told s id most answer → HoldsTaken (λ f. Contains taken f) s → HoldsTaken (λ f. Contains taken f) (after_next told answer s id most) }
    ensures stop { (taken : List StreamValue) (s : StreamsState) (p : Retransmits) (id code : ℕ) → HoldsTaken (λ f. Contains taken f) s → HoldsTaken (λ f. Contains taken f) (after_stop s p id code).state }
    ensures received_reset { (taken : List StreamValue) (s : StreamsState) (p : Retransmits) (id : ℕ) → HoldsTaken (λ f. Contains taken f) s → HoldsTaken (λ f. Contains taken f) (after_received_reset s p id).state }
{}

/// A read is blocked only where no taken frame of its stream brought what it may give: while all
/// reads were in order the first byte that wasn't read, else any that wasn't; nor, with all read,
/// the end.
pub fn blocked_reads_lack_bytes()
    ensures { (wrote : ℕ → Wrote) (read : ℕ → Reads) (taken : List StreamValue) (s : StreamsState) (id most : ℕ) (f : StreamValue) → IsOpenHalf s id → next_answer told_bytes s id most ≡ Err read_errors.Blocked
        → Contains taken f → f.id ≡ id → HoldsRead wrote read s → HoldsTaken (λ f. Contains taken f) s → BringsNothing (read id) f }
{}

/// Streams are accepted in their order, and a call that accepts one finds none only where each of
/// the peer's streams of that kind that is opened was accepted, as the stream of each taken frame
/// is (RFC 9000, section 2.1).
pub fn streams_are_accepted()
    ensures new { (side : Side) (uni bi send_window window stream_window : ℕ) → HoldsAccepted (λ id. Contains [] id) (new_streams side uni bi send_window window stream_window) }
    ensures limits { (accepted : List ℕ) (s : StreamsState) (p : ParameterValues) → HoldsAccepted (λ id. Contains accepted id) s → HoldsAccepted (λ id. Contains accepted id) (after_set_params s p) }
    ensures accept { (accepted : List ℕ) (dir : Dir) (s : StreamsState) → HoldsAccepted (λ id. Contains accepted id) s → HoldsAccepted (λ id. Contains (accepted ++ option_to_list (accept_answer dir s)) id) (after_accept dir s) }
    ensures all { (accepted : List ℕ) (dir : Dir) (s : StreamsState) (id : ℕ) → accept_answer dir s ≡ None → dir_of id ≡ dir → is_own s.side id ≡ false → is_opened s id ≡ true → HoldsAccepted (λ id. Contains accepted id) s → Contains accepted id }
    ensures opened { (taken : List StreamValue) (s : StreamsState) (f : StreamValue) → Contains taken f → HoldsTaken (λ f. Contains taken f) s → is_opened s f.id ≡ true }
    ensures stream { (accepted : List ℕ) (s : StreamsState) (p : Retransmits) (f : StreamValue) → HoldsAccepted (λ id. Contains accepted id) s → HoldsAccepted (λ id. Contains accepted id) (after_stream s p f).state }
    ensures reset_stream { (accepted : List ℕ) (s : StreamsState) (p : Retransmits) (f : ResetStreamValue) → HoldsAccepted (λ id. Contains accepted id) s → HoldsAccepted (λ id. Contains accepted id) (after_reset_frame s p f).state }
    ensures begun { (accepted : List ℕ) (s : StreamsState) (id : ℕ) (ordered : Bool) → HoldsAccepted (λ id. Contains accepted id) s → HoldsAccepted (λ id. Contains accepted id) (after_read_begun s id ordered) }
    ensures next { (accepted : List ℕ) (told : Told) (s : StreamsState) (id most : ℕ) (answer : Result (Option Chunk) ReadError) → IsNextAnswer told s id most answer → HoldsAccepted (λ id. Contains accepted id) s → HoldsAccepted (λ id. Contains accepted id) (after_next told answer s id most) }
    ensures stop { (accepted : List ℕ) (s : StreamsState) (p : Retransmits) (id code : ℕ) → HoldsAccepted (λ id. Contains accepted id) s → HoldsAccepted (λ id. Contains accepted id) (after_stop s p id code).state }
    ensures received_reset { (accepted : List ℕ) (s : StreamsState) (p : Retransmits) (id : ℕ) → HoldsAccepted (λ id. Contains accepted id) s → HoldsAccepted (λ id. Contains accepted id) (after_received_reset s p id).state }
{}

/// Words about what an end sends leave what was read, what taken frames brought, and what was
/// accepted; a call that accepts a stream leaves the first two.
pub fn sending_leaves_what_was_read()
    ensures read { (wrote : ℕ → Wrote) (read : ℕ → Reads) → IsQuiet (HoldsRead wrote read) }
    ensures taken { (taken : List StreamValue) → IsQuiet (HoldsTaken (λ f. Contains taken f)) }
    ensures accepted { (accepted : List ℕ) → IsQuiet (HoldsAccepted (λ id. Contains accepted id)) }
    ensures accept_read { (wrote : ℕ → Wrote) (read : ℕ → Reads) (dir : Dir) (s : StreamsState) → HoldsRead wrote read s → HoldsRead wrote read (after_accept dir s) }
    ensures accept_taken { (taken : List StreamValue) (dir : Dir) (s : StreamsState) → HoldsTaken (λ f. Contains taken f) s → HoldsTaken (λ f. Contains taken f) (after_accept dir s) }
{}
