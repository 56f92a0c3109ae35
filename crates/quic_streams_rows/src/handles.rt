//! What an application does with streams: opens, accepts, writes, reads and stops them, one call
//! behind another.
ghost use Rattle.std.specs.Prelude.{◌≡◌, pos, true, false, [], ◌∷◌, codes, Some, None, Ok, Err};
ghost use Rattle.quic_wire_core.specs.declared.stream_id.Dir.TheVariants.{Bi};
ghost use Rattle.quic_streams_parts.specs.declared.answers.WriteError.TheVariants as write_errors;
ghost use Rattle.quic_streams_parts.specs.declared.answers.ReadError.TheVariants as read_errors;
ghost use Rattle.quic_streams_parts.specs.declared.answers.ReadableError.TheVariants as readable_errors;
ghost use Rattle.quic_streams_parts.specs.declared.answers.UpdateError.TheVariants as update_errors;
ghost use Rattle.quic_retransmits.specs.Retransmits.{has_id};
ghost use Rattle.quic_streams_state.specs.declared.blocked.BlockedBy.TheVariants as by;
ghost use Rattle.quic_streams_state.specs.State.{send_streams, remote_open_streams};
ghost use Rattle.quic_streams_state.specs.Opening.{open_answer, accept_answer};
ghost use Rattle.quic_streams_state.specs.Reading.{read_answer, finalize_answer, stop_answer, received_reset_answer};
ghost use Rattle.quic_streams_state.specs.Writing.{write_answer, stopped_answer, finish_answer, reset_answer, priority_answer, set_priority_answer};
ghost use Rattle.quic_streams_state.specs.Blocking.{blocked_by};
ghost use Rattle.quic_streams_rows.specs.Handles.{chunk, nexts, ended_come, accepted, read_begun, read_up, read_over, later_come, later_begun, later_over, reset_come, reset_begun, reset_over, plain_come, plain_stopped, client, let_open, opened, given_priority, once_written, twice_written, finished, reset_last};

/// `hello` and the FIN come: the stream is accepted once, read in two parts, and its end is told
/// again and again. Its limit isn't told then, that of all streams is.
#[tactic(auto, unfolding(quic_sets::specs::Offsets::with_offsets, quic_sets::specs::Pieces::joining, quic_sets::specs::Pieces::with_range))]
pub fn a_stream_is_read_to_its_end()
    ensures accepted { accept_answer Bi ended_come.state ≡ Some 0 }
    ensures once { accept_answer Bi accepted ≡ None }
    ensures open_streams { remote_open_streams accepted Bi ≡ 1 }
    ensures sends { send_streams accepted ≡ 1 }
    ensures begins { read_answer accepted 0 true ≡ Ok tt }
    ensures given { nexts read_begun (3 ∷ 32 ∷ 32 ∷ 32 ∷ []) ≡ Ok (chunk 0 (codes "hel")) ∷ Ok (chunk 3 (codes "lo")) ∷ Ok None ∷ Ok None ∷ [] }
    ensures grew { finalize_answer read_up 0 ≡ true }
    ensures all_told { read_over.pending.max_data ≡ true }
    ensures not_told { has_id 0 read_over.pending.max_stream_data ≡ false }
    ensures closed { read_answer read_over.state 0 true ≡ Err readable_errors.ClosedStream }
{}

/// `llo` comes at offset 2 and is read in no order: the limit of the stream is told, and none is in
/// order from then on.
#[tactic(auto, unfolding(quic_sets::specs::Offsets::with_offsets, quic_sets::specs::Pieces::joining, quic_sets::specs::Pieces::with_range))]
pub fn a_read_in_any_order_tells_the_limit()
    ensures begins { read_answer later_come.state 0 false ≡ Ok tt }
    ensures given { nexts later_begun (32 ∷ 32 ∷ []) ≡ Ok (chunk 2 (codes "llo")) ∷ Err read_errors.Blocked ∷ [] }
    ensures told { has_id 0 later_over.pending.max_stream_data ≡ true }
    ensures ordered { read_answer later_over.state 0 true ≡ Err readable_errors.IllegalOrderedRead }
{}

/// The peer resets a stream behind six bytes, of which five came: that is told again and again.
#[tactic(auto, unfolding(quic_sets::specs::Offsets::with_offsets, quic_sets::specs::Pieces::joining, quic_sets::specs::Pieces::with_range))]
pub fn a_reset_is_told_again()
    ensures begins { read_answer reset_come.state 0 true ≡ Ok tt }
    ensures given { nexts reset_begun (32 ∷ 32 ∷ []) ≡ Err (read_errors.Reset 7) ∷ Err (read_errors.Reset 7) ∷ [] }
    ensures grew { finalize_answer reset_over.state 0 ≡ true }
    ensures closed { read_answer reset_over.state 0 true ≡ Err readable_errors.ClosedStream }
{}

/// A stream that this end stopped is read no more, and the peer is asked to stop.
#[tactic(auto, unfolding(quic_sets::specs::Offsets::with_offsets, quic_sets::specs::Pieces::joining, quic_sets::specs::Pieces::with_range))]
pub fn a_stopped_stream_is_read_no_more()
    ensures no_reset { received_reset_answer plain_come.state 0 ≡ Ok None }
    ensures answer { stop_answer plain_come.state 0 ≡ Ok tt }
    ensures again { stop_answer plain_stopped.state 0 ≡ Err update_errors.ClosedStream }
    ensures no_answer { received_reset_answer plain_stopped.state 0 ≡ Err (record {}) }
    ensures closed { read_answer plain_stopped.state 0 true ≡ Err readable_errors.ClosedStream }
    ensures asked { plain_stopped.pending.stop_sending ≡ record { id = 0; code = 7 } ∷ [] }
{}

/// A stream is opened once the peer lets one be and the end is open; of ten bytes seven are taken,
/// as the peer lets come; it is finished, and then reset.
#[tactic(auto, unfolding(quic_sets::specs::Offsets::without_offsets, quic_sets::specs::Offsets::with_offsets, quic_sets::specs::Offsets::parts_from, quic_sets::specs::Pieces::pieces, quic_sets::specs::Pieces::joining, quic_sets::specs::Pieces::with_range))]
pub fn a_stream_is_written_and_finished()
    ensures none_lets { open_answer true Bi client ≡ None }
    ensures not_open { open_answer false Bi let_open ≡ None }
    ensures open { open_answer true Bi let_open ≡ Some 0 }
    ensures closed { blocked_by false opened 0 ≡ Some by.Closed }
    ensures blocked { write_answer false opened 0 5 ≡ Err write_errors.Blocked }
    ensures set { set_priority_answer opened 0 ≡ Ok tt }
    ensures priority { priority_answer given_priority 0 ≡ Ok (pos 3) }
    ensures five { write_answer true given_priority 0 5 ≡ Ok 5 }
    ensures takes { blocked_by true once_written 0 ≡ None }
    ensures two { write_answer true once_written 0 5 ≡ Ok 2 }
    ensures full { blocked_by true twice_written 0 ≡ Some by.Connection }
    ensures not_stopped { stopped_answer twice_written 0 ≡ Ok None }
    ensures finishes { finish_answer twice_written 0 ≡ Ok tt }
    ensures resets { reset_answer finished 0 ≡ Ok tt }
    ensures again { reset_answer reset_last.state 0 ≡ Err update_errors.ClosedStream }
    ensures reset_waits { reset_last.pending.reset_stream ≡ (0, 7) ∷ [] }
{}
