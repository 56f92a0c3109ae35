//! What is sent on streams is what was written on them.
ghost use Rattle.std.specs.Prelude.{◌≡◌, ℕ, ◌<◌, ◌≤◌, ◌^◌, ℤ, Bool, true, if◌then◌else◌, List, length, None};
ghost use Rattle.std.specs.List.{AllByRecursion};
ghost use Rattle.quic_wire_core.specs.declared.stream_id.Side.{Side};
ghost use Rattle.quic_wire_core.specs.declared.stream_id.Dir.{Dir};
ghost use Rattle.quic_parameters.specs.Parameters.{ParameterValues};
ghost use Rattle.quic_wire.specs.Value.{StreamValue, ResetStreamValue, StopSendingValue};
ghost use Rattle.quic_send_buffer.specs.declared.stream_meta.StreamMeta.{StreamMeta};
ghost use Rattle.quic_streams_parts.specs.declared.answers.StreamEvent.TheVariants as stream_events;
ghost use Rattle.quic_streams_parts.specs.Events.{with_event};
ghost use Rattle.quic_retransmits.specs.Retransmits.{Retransmits, merged};
ghost use Rattle.quic_streams_state.specs.declared.state.StreamsState.{StreamsState};
ghost use Rattle.quic_streams_state.specs.State.{new_streams, after_set_params};
ghost use Rattle.quic_streams_state.specs.Opening.{after_open, after_accept, after_max_streams};
ghost use Rattle.quic_streams_state.specs.Taking.{after_stream, after_reset_frame, after_max_data, after_max_stream_data, after_stop_sending};
ghost use Rattle.quic_streams_state.specs.Reading.{Told, after_read_begun, after_next, next_answer, after_finalize, after_stop, after_received_reset};
ghost use Rattle.quic_streams_state.specs.Writing.{write_answer, after_write, write_chunks_answer, after_write_chunks, finish_answer, after_finish, reset_answer, after_reset, after_set_priority};
ghost use Rattle.quic_streams_state.specs.Acked.{sent_half, finishes, after_stream_acked, after_stream_lost, after_reset_acked};
ghost use Rattle.quic_streams_state.specs.Telling.{polled};
ghost use Rattle.quic_streams_state.specs.Frames.{Sent, with_stream_frames};
ghost use Rattle.quic_streams_state.specs.Control.{Draft, with_control_frames};
ghost use Rattle.quic_streams_laws.specs.Few.{AreFew};
ghost use Rattle.quic_streams_laws.specs.Written.{Wrote, Grows, nothing_done, wrote_by, wrote_chunks_by, wrote_end_by, wrote_reset_by, HoldsWritten, HasSmallLimits, SaysSo, SaysResets};
ghost use Rattle.quic_streams_laws.specs.WrittenResets.{TellsResets};
ghost use Rattle.quic_streams_laws.specs.Acknowledged.{AllArrived, AckedHave, FinishedHave, MetaArrived};

/// At the start nothing is written, and the peer's first limits change nothing of that.
pub fn nothing_is_written()
    ensures new { (side : Side) (uni bi send_window window stream_window : ℕ) → HoldsWritten (λ id. nothing_done) (new_streams side uni bi send_window window stream_window) }
    ensures limits { (wrote : ℕ → Wrote) (s : StreamsState) (p : ParameterValues) → HasSmallLimits p → HoldsWritten wrote s → HoldsWritten wrote (after_set_params s p) }
{}

/// What an application does on a stream is held by its half: the bytes that a write accepts go
/// behind those before, a finish ends them, and a reset drops them.
pub fn calls_write()
    ensures write { (wrote : ℕ → Wrote) (s : StreamsState) (p : Retransmits) (is_open : Bool) (id : ℕ) (bytes : List ℕ) → HoldsWritten wrote s
        → HoldsWritten (wrote_by (write_answer is_open s id (length bytes)) id bytes wrote) (after_write is_open (write_answer is_open s id (length bytes)) s p id bytes).state }
    ensures write_chunks { (wrote : ℕ → Wrote) (s : StreamsState) (p : Retransmits) (is_open : Bool) (id : ℕ) (chunks : List (List ℕ)) → HoldsWritten wrote s
        → HoldsWritten (wrote_chunks_by (write_chunks_answer is_open s id chunks) id chunks wrote) (after_write_chunks is_open (write_chunks_answer is_open s id chunks) s p id chunks).state }
    ensures finish { (wrote : ℕ → Wrote) (s : StreamsState) (id : ℕ) → HoldsWritten wrote s → HoldsWritten (wrote_end_by (finish_answer s id) id wrote) (after_finish s id) }
    ensures reset { (wrote : ℕ → Wrote) (s : StreamsState) (p : Retransmits) (id code : ℕ) → HoldsWritten wrote s → HoldsWritten (wrote_reset_by (reset_answer s id) id code wrote) (after_reset s p id code).state }
{}

/// What was done on a stream only grows, and once it is finished or reset no byte comes (RFC 9000,
/// section 3.1).
pub fn writing_grows()
    ensures write { (wrote : ℕ → Wrote) (s : StreamsState) (is_open : Bool) (id : ℕ) (bytes : List ℕ) (q : ℕ) → HoldsWritten wrote s → Grows (wrote q) (wrote_by (write_answer is_open s id (length bytes)) id bytes wrote q) }
    ensures write_chunks { (wrote : ℕ → Wrote) (s : StreamsState) (is_open : Bool) (id : ℕ) (chunks : List (List ℕ)) (q : ℕ) → HoldsWritten wrote s → Grows (wrote q) (wrote_chunks_by (write_chunks_answer is_open s id chunks) id chunks wrote q) }
    ensures finish { (wrote : ℕ → Wrote) (s : StreamsState) (id q : ℕ) → HoldsWritten wrote s → Grows (wrote q) (wrote_end_by (finish_answer s id) id wrote q) }
    ensures reset { (wrote : ℕ → Wrote) (s : StreamsState) (id code q : ℕ) → HoldsWritten wrote s → Grows (wrote q) (wrote_reset_by (reset_answer s id) id code wrote q) }
    ensures more { (w x y : Wrote) → Grows w x → Grows x y → Grows w y }
{}

/// Frames that come and what they say of a stream's limits, its stop, what was acknowledged and
/// what was lost leave what was written.
pub fn frames_leave_what_was_written()
    ensures stream { (wrote : ℕ → Wrote) (s : StreamsState) (p : Retransmits) (f : StreamValue) → HoldsWritten wrote s → HoldsWritten wrote (after_stream s p f).state }
    ensures reset_stream { (wrote : ℕ → Wrote) (s : StreamsState) (p : Retransmits) (f : ResetStreamValue) → HoldsWritten wrote s → HoldsWritten wrote (after_reset_frame s p f).state }
    ensures stop_sending { (wrote : ℕ → Wrote) (s : StreamsState) (f : StopSendingValue) → HoldsWritten wrote s → HoldsWritten wrote (after_stop_sending s f) }
    ensures max_data { (wrote : ℕ → Wrote) (s : StreamsState) (limit : ℕ) → HoldsWritten wrote s → HoldsWritten wrote (after_max_data s limit) }
    ensures max_stream_data { (wrote : ℕ → Wrote) (s : StreamsState) (id limit : ℕ) → limit < 2 ^ 62 → HoldsWritten wrote s → HoldsWritten wrote (after_max_stream_data s id limit) }
    ensures max_streams { (wrote : ℕ → Wrote) (s : StreamsState) (dir : Dir) (count : ℕ) → HoldsWritten wrote s → HoldsWritten wrote (after_max_streams dir count s) }
    ensures acked { (wrote : ℕ → Wrote) (s : StreamsState) (p : Retransmits) (m : StreamMeta) → (m.fin ≡ true → (wrote m.id).ended ≡ true) → HoldsWritten wrote s → HoldsWritten wrote (after_stream_acked s p m).state }
    ensures lost { (wrote : ℕ → Wrote) (s : StreamsState) (m : StreamMeta) → (m.fin ≡ true → (wrote m.id).ended ≡ true) → HoldsWritten wrote s → HoldsWritten wrote (after_stream_lost s m) }
    ensures reset_acked { (wrote : ℕ → Wrote) (s : StreamsState) (p : Retransmits) (id : ℕ) → HoldsWritten wrote s → HoldsWritten wrote (after_reset_acked s p id).state }
{}

/// So do the calls that write nothing, and the frames that go.
pub fn calls_leave_what_was_written()
    ensures open { (wrote : ℕ → Wrote) (s : StreamsState) (is_open : Bool) (dir : Dir) → HoldsWritten wrote s → HoldsWritten wrote (after_open is_open dir s) }
    ensures accept { (wrote : ℕ → Wrote) (s : StreamsState) (dir : Dir) → HoldsWritten wrote s → HoldsWritten wrote (after_accept dir s) }
    ensures set_priority { (wrote : ℕ → Wrote) (s : StreamsState) (id : ℕ) (priority : ℤ) → HoldsWritten wrote s → HoldsWritten wrote (after_set_priority s id priority) }
    ensures read { (wrote : ℕ → Wrote) (s : StreamsState) (id : ℕ) (ordered : Bool) → HoldsWritten wrote s → HoldsWritten wrote (after_read_begun s id ordered) }
    ensures next { (wrote : ℕ → Wrote) (s : StreamsState) (told : Told) (id most : ℕ) → HoldsWritten wrote s → HoldsWritten wrote (after_next told (next_answer told s id most) s id most) }
    ensures finalize { (wrote : ℕ → Wrote) (s : StreamsState) (p : Retransmits) (id : ℕ) → HoldsWritten wrote s → HoldsWritten wrote (after_finalize s p id).state }
    ensures stop { (wrote : ℕ → Wrote) (s : StreamsState) (p : Retransmits) (id code : ℕ) → HoldsWritten wrote s → HoldsWritten wrote (after_stop s p id code).state }
    ensures received_reset { (wrote : ℕ → Wrote) (s : StreamsState) (p : Retransmits) (id : ℕ) → HoldsWritten wrote s → HoldsWritten wrote (after_received_reset s p id).state }
    ensures poll { (wrote : ℕ → Wrote) (s : StreamsState) → HoldsWritten wrote s → HoldsWritten wrote (polled s).state }
    ensures stream_frames { (wrote : ℕ → Wrote) (fair : Bool) (most : ℕ) (d : Sent) → HoldsWritten wrote d.state → HoldsWritten wrote (with_stream_frames fair most d).state }
    ensures control_frames { (wrote : ℕ → Wrote) (most : ℕ) (d : Draft) → HoldsWritten wrote d.state → HoldsWritten wrote (with_control_frames most d).state }
{}

/// STREAM frames that go say what was written: their bytes stand at their offset, the end comes
/// exactly with the last of a stream that was finished, and none is of a stream that was reset (RFC
/// 9000, sections 2.2 and 19.8). They fill no more than their room.
pub fn frames_say_what_was_written()
    ensures { (wrote : ℕ → Wrote) (fair : Bool) (most : ℕ) (d : Sent) → HoldsWritten wrote d.state → AreFew d.state → AllByRecursion (SaysSo wrote) d.frames → length d.bytes ≤ most
        → AllByRecursion (SaysSo wrote) (with_stream_frames fair most d).frames × (length (with_stream_frames fair most d).bytes ≤ most) }
{}

/// RESET_STREAM frames that go say how streams were reset: the code, and how many bytes were
/// written (RFC 9000, sections 4.5 and 19.4).
pub fn resets_say_how_streams_were_reset()
    ensures frames { (wrote : ℕ → Wrote) (most : ℕ) (d : Draft) → TellsResets wrote d → TellsResets wrote (with_control_frames most d) }
    ensures reset { (wrote : ℕ → Wrote) (s : StreamsState) (p : Retransmits) (id code : ℕ) → HoldsWritten wrote s → SaysResets wrote p
        → SaysResets (wrote_reset_by (reset_answer s id) id code wrote) (after_reset s p id code).pending }
    ensures lost { (wrote : ℕ → Wrote) (p other : Retransmits) → SaysResets wrote p → SaysResets wrote other → SaysResets wrote (merged p other) }
    ensures grown { (wrote more : ℕ → Wrote) (p : Retransmits) → ((q : ℕ) → Grows (wrote q) (more q)) → SaysResets wrote p → SaysResets more p }
{}

/// What is acknowledged of what was sent arrived, where frames are acknowledged that did, and
/// nothing is left to do on a stream only once all of it arrived or it was reset (RFC 9000, section
/// 3.1).
pub fn acknowledged_arrived()
    ensures new { (arrived : ℕ → ℕ → Bool) (end_arrived : ℕ → Bool) (side : Side) (uni bi send_window window stream_window : ℕ)
        → AckedHave (λ id o. arrived id o ≡ true) (λ id. end_arrived id ≡ true) (λ id. nothing_done) (new_streams side uni bi send_window window stream_window) }
    ensures acked { (arrived : ℕ → ℕ → Bool) (end_arrived : ℕ → Bool) (wrote : ℕ → Wrote) (s : StreamsState) (p : Retransmits) (m : StreamMeta) → MetaArrived (λ id o. arrived id o ≡ true) (λ id. end_arrived id ≡ true) wrote m
        → AckedHave (λ id o. arrived id o ≡ true) (λ id. end_arrived id ≡ true) wrote s → AckedHave (λ id o. arrived id o ≡ true) (λ id. end_arrived id ≡ true) wrote (after_stream_acked s p m).state }
    ensures written { (arrived : ℕ → ℕ → Bool) (end_arrived : ℕ → Bool) (wrote : ℕ → Wrote) (s : StreamsState) → AckedHave (λ id o. arrived id o ≡ true) (λ id. end_arrived id ≡ true) wrote s → HoldsWritten wrote s }
    ensures finished { (arrived : ℕ → ℕ → Bool) (end_arrived : ℕ → Bool) (wrote : ℕ → Wrote) (s : StreamsState) (m : StreamMeta) → MetaArrived (λ id o. arrived id o ≡ true) (λ id. end_arrived id ≡ true) wrote m → AckedHave (λ id o. arrived id o ≡ true) (λ id. end_arrived id ≡ true) wrote s
        → finishes (sent_half s m.id) m ≡ true → AllArrived (λ o. arrived m.id o ≡ true) (end_arrived m.id ≡ true) (wrote m.id) × ((wrote m.id).reset ≡ None) }
    ensures told { (arrived : ℕ → ℕ → Bool) (end_arrived : ℕ → Bool) (wrote : ℕ → Wrote) (s : StreamsState) (p : Retransmits) (m : StreamMeta) → MetaArrived (λ id o. arrived id o ≡ true) (λ id. end_arrived id ≡ true) wrote m
        → FinishedHave (λ id o. arrived id o ≡ true) (λ id. end_arrived id ≡ true) wrote s → FinishedHave (λ id o. arrived id o ≡ true) (λ id. end_arrived id ≡ true) wrote (after_stream_acked s p m).state }
    ensures events { (s : StreamsState) (p : Retransmits) (m : StreamMeta)
        → (after_stream_acked s p m).state.events ≡ (if finishes (sent_half s m.id) m then with_event (stream_events.Finished m.id) s.events else s.events) }
{}

/// No stream that is to be told finished didn't wholly arrive, whatever is written.
pub fn finished_streams_arrived()
    ensures write { (arrived : ℕ → ℕ → Bool) (end_arrived : ℕ → Bool) (wrote : ℕ → Wrote) (s : StreamsState) (p : Retransmits) (is_open : Bool) (id : ℕ) (bytes : List ℕ) → FinishedHave (λ id o. arrived id o ≡ true) (λ id. end_arrived id ≡ true) wrote s
        → FinishedHave (λ id o. arrived id o ≡ true) (λ id. end_arrived id ≡ true) (wrote_by (write_answer is_open s id (length bytes)) id bytes wrote) (after_write is_open (write_answer is_open s id (length bytes)) s p id bytes).state }
    ensures finish { (arrived : ℕ → ℕ → Bool) (end_arrived : ℕ → Bool) (wrote : ℕ → Wrote) (s : StreamsState) (id : ℕ) → FinishedHave (λ id o. arrived id o ≡ true) (λ id. end_arrived id ≡ true) wrote s
        → FinishedHave (λ id o. arrived id o ≡ true) (λ id. end_arrived id ≡ true) (wrote_end_by (finish_answer s id) id wrote) (after_finish s id) }
    ensures reset { (arrived : ℕ → ℕ → Bool) (end_arrived : ℕ → Bool) (wrote : ℕ → Wrote) (s : StreamsState) (p : Retransmits) (id code : ℕ) → FinishedHave (λ id o. arrived id o ≡ true) (λ id. end_arrived id ≡ true) wrote s
        → FinishedHave (λ id o. arrived id o ≡ true) (λ id. end_arrived id ≡ true) (wrote_reset_by (reset_answer s id) id code wrote) (after_reset s p id code).state }
    ensures poll { (arrived : ℕ → ℕ → Bool) (end_arrived : ℕ → Bool) (wrote : ℕ → Wrote) (s : StreamsState) → FinishedHave (λ id o. arrived id o ≡ true) (λ id. end_arrived id ≡ true) wrote s
        → FinishedHave (λ id o. arrived id o ≡ true) (λ id. end_arrived id ≡ true) wrote (polled s).state }
{}
