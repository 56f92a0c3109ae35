//! The definitions computed on worked rows. Each function does nothing: its contract is the law.
ghost use Rattle.std.specs.Prelude.{◌≡◌, ◌+◌, ◌-◌, ◌^◌, pos, IfSome, true, false, [], ◌∷◌, replicate, length, Some, None, Ok, Err};
ghost use Rattle.quic_wire_core.specs.declared.stream_id.Side.TheVariants.{Client, Server};
ghost use Rattle.quic_wire_core.specs.declared.stream_id.Dir.TheVariants.{Bi, Uni};
ghost use Rattle.quic_wire.specs.Writing.{spelled_all};
ghost use Rattle.quic_wire.specs.Value.{max_data, max_streams, reset_stream, stop_sending};
ghost use Rattle.quic_streams_parts.specs.declared.answers.Breach.TheVariants as breaches;
ghost use Rattle.quic_streams_parts.specs.declared.answers.WriteError.TheVariants as write_errors;
ghost use Rattle.quic_streams_parts.specs.declared.answers.ReadError.TheVariants as read_errors;
ghost use Rattle.quic_streams_parts.specs.declared.answers.ReadableError.TheVariants as readable_errors;
ghost use Rattle.quic_streams_parts.specs.declared.answers.UpdateError.TheVariants as update_errors;
ghost use Rattle.quic_streams_parts.specs.declared.answers.StreamEvent.TheVariants as stream_events;
ghost use Rattle.quic_retransmits.specs.Retransmits.{nothing_waits, merged, after_retire, can_retire};
ghost use Rattle.quic_streams_halves.specs.Halves.{done};
ghost use Rattle.quic_streams_state.specs.Parts.{buffered};
ghost use Rattle.quic_streams_state.specs.State.{consumed, sending_half, sending_status, receiving_status};
ghost use Rattle.quic_streams_state.specs.Opening.{sending_refusal, open_answer, after_open, accept_answer, after_max_streams, max_streams_breach};
ghost use Rattle.quic_streams_state.specs.Taking.{stream_breach, reset_breach, after_max_data};
ghost use Rattle.quic_streams_state.specs.Reading.{told_bytes, next_answer, read_answer, stop_answer, after_stop, after_read_begun};
ghost use Rattle.quic_streams_state.specs.Writing.{write_answer, after_write_chunks, reset_answer, after_reset, write_chunks_answer, priority_answer, after_set_priority};
ghost use Rattle.quic_streams_state.specs.Telling.{polled};
ghost use Rattle.quic_streams_state.specs.Frames.{stream_frames_in};
ghost use Rattle.quic_streams_state.specs.Worked.{client, server, wrote, sends, controls, controls_in, two_stops, resets_wait, took, hello, hello_frame, twenty, eight_written, eight_frame, eight_read, one_written, one_frame, one_read, one_ended, a_frame, one_accepted, end_read, hello_written, hello_reset, reset_taken, hello_taken, hello_stopped, a_ended, byte_lost, end_lost, whole_acked, two_written, higher_written, sends_twice, some_of_twenty};

/// With a window of eight bytes a write takes eight; once the server read them, MAX_DATA tells 16,
/// and a write takes eight more.
#[tactic(auto, unfolding(quic_wire::specs::Writing::stream_spelling, quic_sets::specs::Offsets::without_offsets, quic_sets::specs::Offsets::with_offsets, quic_sets::specs::Offsets::parts_from, quic_sets::specs::Pieces::pieces, quic_sets::specs::Pieces::joining, quic_sets::specs::Pieces::with_range))]
pub fn window_of_eight()
    ensures opened { open_answer true Bi (client 8 100) ≡ Some 0 }
    ensures written { write_answer true (after_open true Bi (client 8 100)) 0 20 ≡ Ok 8 }
    ensures blocked { write_answer true eight_written 0 12 ≡ Err write_errors.Blocked }
    ensures frames { (sends eight_written).frames ≡ eight_frame ∷ [] }
    ensures taken { stream_breach (server 8 100) eight_frame ≡ None }
    ensures told { (polled (took (server 8 100) eight_frame)).answer ≡ Some (stream_events.Opened Bi) }
    ensures waits { eight_read.pending.max_data ≡ true }
    ensures limit { (controls eight_read.state eight_read.pending).frames ≡ max_data 16 ∷ [] }
    ensures bytes { spelled_all ((controls eight_read.state eight_read.pending).frames) ≡ 0x10 ∷ 0x10 ∷ [] }
    ensures again { write_answer true (after_max_data eight_written 16) 0 12 ≡ Ok 8 }
    ensures writable { (polled (after_max_data eight_written 16)).answer ≡ None }
{}

/// With a window of one byte each write takes one.
#[tactic(auto, unfolding(quic_wire::specs::Writing::stream_spelling, quic_sets::specs::Offsets::without_offsets, quic_sets::specs::Offsets::with_offsets, quic_sets::specs::Offsets::parts_from, quic_sets::specs::Pieces::pieces, quic_sets::specs::Pieces::joining, quic_sets::specs::Pieces::with_range))]
pub fn window_of_one()
    ensures written { write_answer true (after_open true Bi (client 1 100)) 0 20 ≡ Ok 1 }
    ensures frames { (sends one_written).frames ≡ one_frame ∷ [] }
    ensures bytes { spelled_all ((controls one_read.state one_read.pending).frames) ≡ 0x10 ∷ 0x02 ∷ [] }
    ensures again { write_answer true (after_max_data one_written 2) 0 20 ≡ Ok 1 }
{}

/// What was written is dropped by a reset, which tells how many bytes that were: RESET_STREAM goes,
/// and no STREAM frame.
pub fn stream_is_reset()
    ensures answer { reset_answer hello_written 0 ≡ Ok tt }
    ensures again { reset_answer hello_reset.state 0 ≡ Err update_errors.ClosedStream }
    ensures frames { (controls hello_reset.state hello_reset.pending).frames ≡ reset_stream (record { id = 0; code = 5; final_size = 5 }) ∷ [] }
    ensures bytes { spelled_all ((controls hello_reset.state hello_reset.pending).frames) ≡ 0x04 ∷ 0x00 ∷ 0x05 ∷ 0x05 ∷ [] }
    ensures nothing { (sends hello_reset.state).frames ≡ [] }
    ensures buffered { buffered hello_reset.state.sending ≡ 0 }
    ensures taken { reset_breach (server 1000 100) (record { id = 0; code = 5; final_size = 5 }) ≡ None }
    ensures told { next_answer told_bytes (reset_taken 0).state 0 32 ≡ Err (read_errors.Reset 5) }
{}

/// A stream whose bytes and end came may be stopped before it is read: STOP_SENDING goes, nothing
/// is read any more, and the part is done.
#[tactic(auto, unfolding(quic_sets::specs::Offsets::with_offsets, quic_sets::specs::Pieces::joining, quic_sets::specs::Pieces::with_range))]
pub fn stream_is_stopped()
    ensures accepted { accept_answer Bi (took (server 1000 100) hello_frame) ≡ Some 0 }
    ensures answer { stop_answer hello_taken 0 ≡ Ok tt }
    ensures frames { (controls hello_stopped.state hello_stopped.pending).frames ≡ stop_sending (record { id = 0; code = 9 }) ∷ [] }
    ensures closed { read_answer hello_stopped.state 0 true ≡ Err readable_errors.ClosedStream }
    ensures again { stop_answer hello_stopped.state 0 ≡ Err update_errors.ClosedStream }
    ensures done { receiving_status hello_stopped.state 0 ≡ done }
    ensures consumed { consumed hello_stopped.state.receiving ≡ 5 }
    ensures writes { write_answer true hello_stopped.state 0 5 ≡ Ok 5 }
{}

/// Two buffers of two bytes and one are taken whole; a priority is kept.
pub fn buffers_are_written()
    ensures written { write_chunks_answer true (after_open true Bi (client 1000 100)) 0 ((0x61 ∷ 0x62 ∷ []) ∷ (0x63 ∷ []) ∷ []) ≡ Ok (record { bytes = 3; chunks = 2 }) }
    ensures pieces { IfSome (sending_half (after_write_chunks true (Ok (record { bytes = 3; chunks = 2 })) (after_open true Bi (client 1000 100)) nothing_waits 0 ((0x61 ∷ 0x62 ∷ []) ∷ (0x63 ∷ []) ∷ [])).state 0) (λ h. h.buffer.pieces ≡ 2 ∷ 1 ∷ []) }
    ensures part { write_chunks_answer true (after_open true Bi (client 2 100)) 0 ((0x61 ∷ []) ∷ (0x62 ∷ 0x63 ∷ []) ∷ []) ≡ Ok (record { bytes = 2; chunks = 1 }) }
    ensures fresh { priority_answer (after_open true Bi (client 1000 100)) 0 ≡ Ok (pos 0) }
    ensures priority { priority_answer (after_set_priority (after_open true Bi (client 1000 100)) 0 (pos 1)) 0 ≡ Ok (pos 1) }
    ensures unknown { priority_answer (client 1000 100) 0 ≡ Err (record {}) }
{}

/// One one-way stream may be open at once: once its bytes and its end were read, one more may be
/// opened.
#[tactic(auto, unfolding(quic_wire::specs::Writing::stream_spelling, quic_sets::specs::Offsets::without_offsets, quic_sets::specs::Offsets::with_offsets, quic_sets::specs::Offsets::parts_from, quic_sets::specs::Pieces::pieces, quic_sets::specs::Pieces::joining, quic_sets::specs::Pieces::with_range))]
pub fn counts_are_given_back()
    ensures opened { open_answer true Uni (client 1000 1) ≡ Some 2 }
    ensures none { open_answer true Uni one_ended ≡ None }
    ensures frames { (sends one_ended).frames ≡ a_frame ∷ [] }
    ensures accepted { accept_answer Uni (took (server 1000 1) a_frame) ≡ Some 2 }
    ensures byte { next_answer told_bytes (after_read_begun one_accepted 2 true) 2 32 ≡ Ok (Some (record { offset = 0; bytes = 0x61 ∷ [] })) }
    ensures done { end_read.state.opening.done ≡ record { bi = 0; uni = 1 } }
    ensures limit { (controls end_read.state end_read.pending).frames ≡ max_streams (record { one_way = true; count = 2 }) ∷ [] }
    ensures bytes { spelled_all ((controls end_read.state end_read.pending).frames) ≡ 0x13 ∷ 0x02 ∷ [] }
    ensures again { open_answer true Uni (after_max_streams Uni 2 one_ended) ≡ Some 6 }
    ensures told { (polled (after_max_streams Uni 2 one_ended)).answer ≡ Some (stream_events.Available Uni) }
{}

/// Each frame that breaks a rule of streams is refused for it.
pub fn broken_rules_are_found()
    ensures not_opened { stream_breach (server 1000 100) (record { id = 1; offset = 0; fin = false; bytes = 0x61 ∷ [] }) ≡ Some breaches.StreamState }
    ensures own_way { stream_breach (server 1000 100) (record { id = 3; offset = 0; fin = false; bytes = 0x61 ∷ [] }) ≡ Some breaches.StreamState }
    ensures beyond_count { stream_breach (server 1000 100) (record { id = 400; offset = 0; fin = false; bytes = 0x61 ∷ [] }) ≡ Some breaches.StreamLimit }
    ensures last { stream_breach (server 1000 100) (record { id = 396; offset = 0; fin = false; bytes = 0x61 ∷ [] }) ≡ None }
    ensures past_end { stream_breach (took (server 1000 100) (record { id = 0; offset = 0; fin = true; bytes = 0x61 ∷ 0x62 ∷ 0x63 ∷ [] })) (record { id = 0; offset = 0; fin = false; bytes = 0x61 ∷ 0x62 ∷ 0x63 ∷ 0x64 ∷ [] }) ≡ Some breaches.FinalSize }
    ensures below_seen { reset_breach (took (server 1000 100) (record { id = 0; offset = 0; fin = false; bytes = hello })) (record { id = 0; code = 0; final_size = 4 }) ≡ Some breaches.FinalSize }
    ensures too_far { stream_breach (server (2 ^ 62 - 1) 100) (record { id = 0; offset = 2 ^ 62 - 1; fin = false; bytes = 0x61 ∷ [] }) ≡ Some breaches.FlowControl }
    ensures past_window { stream_breach (server 8 100) (record { id = 0; offset = 0; fin = false; bytes = replicate 9 0x61 }) ≡ Some breaches.FlowControl }
    ensures past_stream_window { stream_breach (server (2 ^ 62 - 1) 100) (record { id = 0; offset = 1250000; fin = false; bytes = 0x61 ∷ [] }) ≡ Some breaches.FlowControl }
    ensures too_many { max_streams_breach (2 ^ 60 + 1) ≡ Some breaches.FrameEncoding }
    ensures most { max_streams_breach (2 ^ 60) ≡ None }
    ensures stop_own { sending_refusal (client 1000 100) 0 ≡ Some breaches.StreamState }
    ensures stop_one_way { sending_refusal (server 1000 100) 2 ≡ Some breaches.StreamState }
    ensures stop_beyond { sending_refusal (server 1000 100) 400 ≡ Some breaches.StreamLimit }
{}

/// An end that was lost waits to go again. Where another frame with it is acknowledged before that,
/// the stream is done, and no longer stands in the queue.
#[tactic(auto, unfolding(quic_wire::specs::Writing::stream_spelling, quic_sets::specs::Offsets::without_offsets, quic_sets::specs::Offsets::with_offsets, quic_sets::specs::Offsets::parts_from, quic_sets::specs::Pieces::pieces, quic_sets::specs::Pieces::joining, quic_sets::specs::Pieces::with_range))]
pub fn end_goes_twice()
    ensures alone { (sends a_ended).frames ≡ record { id = 0; offset = 1; fin = true; bytes = [] } ∷ [] }
    ensures both { (sends byte_lost).frames ≡ record { id = 0; offset = 0; fin = true; bytes = 0x61 ∷ [] } ∷ [] }
    ensures waits { length end_lost.sending.queue.entries ≡ 1 }
    ensures done { sending_status whole_acked.state 0 ≡ done }
    ensures live { whole_acked.state.sending.halves.live ≡ [] }
    ensures queue { whole_acked.state.sending.queue.entries ≡ [] }
    ensures told { (polled whole_acked.state).answer ≡ Some (stream_events.Finished 0) }
{}

/// What waits is taken from its front: what is no longer due is dropped, and the first that is due
/// and doesn't fit stays, with all behind it.
pub fn first_goes_first()
    ensures goes { (controls_in 5 (client 1000 100) two_stops).frames ≡ stop_sending (record { id = 0; code = 9 }) ∷ [] }
    ensures stays { (controls_in 5 (client 1000 100) two_stops).pending.stop_sending ≡ record { id = 4; code = 9 } ∷ [] }
    ensures noted { (controls_in 5 (client 1000 100) two_stops).sent.stop_sending ≡ record { id = 0; code = 9 } ∷ [] }
    ensures dropped { (controls_in 4 hello_reset.state (resets_wait ((4, 1) ∷ (0, 5) ∷ []))).frames ≡ reset_stream (record { id = 0; code = 5; final_size = 5 }) ∷ [] }
    ensures untouched { (controls_in 3 hello_reset.state (resets_wait ((0, 5) ∷ (4, 1) ∷ []))).pending.reset_stream ≡ (0, 5) ∷ (4, 1) ∷ [] }
    ensures nothing { (controls_in 3 hello_reset.state (resets_wait ((0, 5) ∷ (4, 1) ∷ []))).frames ≡ [] }
{}

/// Retirements are joined in their order, and at most 80 wait.
pub fn retirements_wait()
    ensures merged { (merged (after_retire nothing_waits 1 2) (after_retire nothing_waits 2 3)).retire_cids ≡ 1 ∷ 2 ∷ [] }
    ensures eighty { can_retire nothing_waits 0 80 ≡ true }
    ensures more { can_retire nothing_waits 0 81 ≡ false }
{}

/// Of two streams of one priority the one that was written first goes first. Where they take turns,
/// the other goes in the next datagram, and else what is left of the first; a stream of higher
/// priority goes first in any case. 24 bytes are too few for a frame.
#[tactic(auto, unfolding(quic_wire::specs::Writing::stream_spelling, quic_sets::specs::Offsets::without_offsets, quic_sets::specs::Offsets::with_offsets, quic_sets::specs::Offsets::parts_from, quic_sets::specs::Pieces::pieces, quic_sets::specs::Pieces::joining, quic_sets::specs::Pieces::with_range))]
pub fn streams_take_turns()
    ensures first { (stream_frames_in true 25 two_written).frames ≡ some_of_twenty 0 0 15 ∷ [] }
    ensures bytes { (stream_frames_in true 25 two_written).bytes ≡ 0x0a ∷ 0x00 ∷ 0x0f ∷ replicate 15 0x61 }
    ensures fair { (sends_twice true 25 two_written).frames ≡ some_of_twenty 4 0 15 ∷ [] }
    ensures unfair { (sends_twice false 25 two_written).frames ≡ some_of_twenty 0 15 5 ∷ [] }
    ensures both { (stream_frames_in true 48 two_written).frames ≡ some_of_twenty 0 0 20 ∷ some_of_twenty 4 0 15 ∷ [] }
    ensures higher { (stream_frames_in true 25 higher_written).frames ≡ some_of_twenty 4 0 15 ∷ [] }
    ensures still_higher { (sends_twice true 25 higher_written).frames ≡ some_of_twenty 4 15 5 ∷ [] }
    ensures too_few { (stream_frames_in true 24 two_written).frames ≡ [] }
{}
