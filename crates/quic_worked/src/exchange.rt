//! Rows of streams (RFC 9000, sections 2 to 4). Each function does nothing: its contract is the
//! row.
ghost use Rattle.std.specs.Prelude.{◌≡◌, ◌+◌, ◌^◌, pos, true, false, [], ◌∷◌, replicate, Some, None, Ok, Err};
ghost use Rattle.quic_wire_core.specs.declared.stream_id.Side.TheVariants.{Client, Server};
ghost use Rattle.quic_wire_core.specs.declared.stream_id.Dir.TheVariants.{Bi, Uni};
ghost use Rattle.quic_wire.specs.Value.{reset_stream, stop_sending, max_data, max_streams, max_stream_data};
ghost use Rattle.quic_worked.specs.Settings.{plain_settings};
ghost use Rattle.quic_streams_parts.specs.declared.answers.ReadableError.TheVariants as readable_errors;
ghost use Rattle.quic_streams_parts.specs.declared.answers.ReadError.TheVariants as read_errors;
ghost use Rattle.quic_streams_parts.specs.declared.answers.UpdateError.TheVariants as update_errors;
ghost use Rattle.quic_streams_parts.specs.declared.answers.StreamEvent.TheVariants as stream_events;
ghost use Rattle.quic_machine.specs.declared.answers.Event.TheVariants.{Stream};
ghost use Rattle.quic_machine.specs.declared.answers.Received.TheVariants.{Taken};
ghost use Rattle.quic_worked.specs.Exchange.{opens, accepts, writes, finishes, resets, ranks, reads, stops, tells, gives, loses, hears, id, count, ended, updated, unreadable, next, event, given, lost, heard, acks, acks_from, stream_frame, chunk, closes_by, hello, with_window, with_uni, ends_with, played, default_ends};

/// A stream that is reset sends the number of bytes written as its final size, and none of them
/// (RFC 9000, section 3.1).
#[tactic(auto, unfolding(quic_wire::specs::Writing::stream_spelling, quic_sets::specs::Offsets::without_offsets, quic_sets::specs::Offsets::with_offsets, quic_sets::specs::Offsets::parts_from, quic_sets::specs::Pieces::pieces, quic_sets::specs::Pieces::joining, quic_sets::specs::Pieces::with_range))]
pub fn resets_send_the_final_size()
    ensures { played default_ends (opens Client Bi ∷ writes Client 0 hello ∷ resets Client 0 5 ∷ gives Client 0 ∷ [])
        ≡ id (Some 0) ∷ count (Ok 5) ∷ updated (Ok tt) ∷ given (reset_stream (record { id = 0; code = 5; final_size = 5 }) ∷ []) Taken ∷ [] }
{}

/// A stream whose bytes and end have come may be stopped, once, and isn't read any more;
/// STOP_SENDING goes all the same (section 3.5).
#[tactic(auto, unfolding(quic_wire::specs::Writing::stream_spelling, quic_sets::specs::Offsets::without_offsets, quic_sets::specs::Offsets::with_offsets, quic_sets::specs::Offsets::parts_from, quic_sets::specs::Pieces::pieces, quic_sets::specs::Pieces::joining, quic_sets::specs::Pieces::with_range))]
pub fn stops_end_reads()
    ensures { played default_ends (opens Client Bi ∷ writes Client 0 hello ∷ finishes Client 0 ∷ gives Client 0 ∷ accepts Server Bi ∷ stops Server 0 9 ∷ reads Server true 0 32 ∷ stops Server 0 9 ∷ gives Server 0 ∷ tells Client ∷ tells Client ∷ [])
        ≡ id (Some 0) ∷ count (Ok 5) ∷ ended (Ok tt) ∷ given (stream_frame 0 0 true hello ∷ []) Taken ∷ id (Some 0) ∷ updated (Ok tt) ∷ unreadable readable_errors.ClosedStream ∷ updated (Err update_errors.ClosedStream)
        ∷ given (stop_sending (record { id = 0; code = 9 }) ∷ acks 0 ∷ []) Taken ∷ event (Some (Stream (stream_events.Stopped 0 9))) ∷ event (Some (Stream (stream_events.Finished 0))) ∷ [] }
{}

/// With a window of 8 bytes a write takes 8, and 8 more once these are read and that is told
/// (section 4.1).
#[tactic(auto, unfolding(quic_wire::specs::Writing::stream_spelling, quic_sets::specs::Offsets::without_offsets, quic_sets::specs::Offsets::with_offsets, quic_sets::specs::Offsets::parts_from, quic_sets::specs::Pieces::pieces, quic_sets::specs::Pieces::joining, quic_sets::specs::Pieces::with_range))]
pub fn windows_are_raised()
    ensures { played (ends_with plain_settings (with_window 8)) (opens Client Bi ∷ writes Client 0 (replicate 20 97) ∷ gives Client 0 ∷ accepts Server Bi ∷ reads Server true 0 8 ∷ gives Server 0 ∷ writes Client 0 (replicate 12 98) ∷ [])
        ≡ id (Some 0) ∷ count (Ok 8) ∷ given (stream_frame 0 0 false (replicate 8 97) ∷ []) Taken ∷ id (Some 0) ∷ chunk 0 (replicate 8 97) ∷ given (max_data 16 ∷ acks 0 ∷ []) Taken ∷ count (Ok 8) ∷ [] }
{}

/// A one-way stream whose end is read gives back its place in the count (section 4.6).
#[tactic(auto, unfolding(quic_wire::specs::Writing::stream_spelling, quic_sets::specs::Offsets::without_offsets, quic_sets::specs::Offsets::with_offsets, quic_sets::specs::Offsets::parts_from, quic_sets::specs::Pieces::pieces, quic_sets::specs::Pieces::joining, quic_sets::specs::Pieces::with_range))]
pub fn counts_are_given_back()
    ensures { played (ends_with plain_settings (with_uni 1)) (opens Client Uni ∷ opens Client Uni ∷ writes Client 2 (97 ∷ []) ∷ finishes Client 2 ∷ gives Client 0 ∷ accepts Server Uni ∷ reads Server true 2 32 ∷ reads Server true 2 32 ∷ gives Server 0 ∷ tells Client ∷ tells Client ∷ opens Client Uni ∷ [])
        ≡ id (Some 2) ∷ id None ∷ count (Ok 1) ∷ ended (Ok tt) ∷ given (stream_frame 2 0 true (97 ∷ []) ∷ []) Taken ∷ id (Some 2) ∷ chunk 0 (97 ∷ []) ∷ next (Ok None)
        ∷ given (max_streams (record { one_way = true; count = 2 }) ∷ acks 0 ∷ []) Taken ∷ event (Some (Stream (stream_events.Available Uni))) ∷ event (Some (Stream (stream_events.Finished 2))) ∷ id (Some 6) ∷ [] }
{}

/// A lost RESET_STREAM goes again; where it is acknowledged, nothing is left of its stream
/// (sections 3.1 and 13.3).
#[tactic(auto, unfolding(quic_wire::specs::Writing::stream_spelling, quic_sets::specs::Offsets::without_offsets, quic_sets::specs::Offsets::with_offsets, quic_sets::specs::Offsets::parts_from, quic_sets::specs::Pieces::pieces, quic_sets::specs::Pieces::joining, quic_sets::specs::Pieces::with_range))]
pub fn lost_resets_go_again()
    ensures { played default_ends (opens Client Uni ∷ resets Client 2 7 ∷ loses Client 0 ∷ opens Client Uni ∷ writes Client 6 (97 ∷ []) ∷ loses Client 0 ∷ writes Client 6 (98 ∷ []) ∷ loses Client 0 ∷ writes Client 6 (99 ∷ []) ∷ loses Client 0
        ∷ hears Client 0 (acks_from 3 3 ∷ []) ∷ loses Client 0 ∷ hears Client 1 (acks_from 4 4 ∷ []) ∷ resets Client 2 8 ∷ [])
        ≡ id (Some 2) ∷ updated (Ok tt) ∷ lost (reset_stream (record { id = 2; code = 7; final_size = 0 }) ∷ []) ∷ id (Some 6)
        ∷ count (Ok 1) ∷ lost (stream_frame 6 0 false (97 ∷ []) ∷ []) ∷ count (Ok 1) ∷ lost (stream_frame 6 1 false (98 ∷ []) ∷ []) ∷ count (Ok 1) ∷ lost (stream_frame 6 2 false (99 ∷ []) ∷ [])
        ∷ heard Taken ∷ lost (reset_stream (record { id = 2; code = 7; final_size = 0 }) ∷ acks 0 ∷ []) ∷ heard Taken ∷ updated (Err update_errors.ClosedStream) ∷ [] }
{}

/// Of streams with something to send the one of the highest priority goes first; equal ones take
/// turns, a frame each (section 2.3).
#[tactic(auto, unfolding(quic_wire::specs::Writing::stream_spelling, quic_sets::specs::Offsets::without_offsets, quic_sets::specs::Offsets::with_offsets, quic_sets::specs::Offsets::parts_from, quic_sets::specs::Pieces::pieces, quic_sets::specs::Pieces::joining, quic_sets::specs::Pieces::with_range))]
pub fn priorities_go_first()
    ensures { played default_ends (opens Client Uni ∷ opens Client Uni ∷ ranks Client 6 (pos 1) ∷ writes Client 2 (97 ∷ []) ∷ writes Client 6 (98 ∷ []) ∷ gives Client 0 ∷ [])
        ≡ id (Some 2) ∷ id (Some 6) ∷ updated (Ok tt) ∷ count (Ok 1) ∷ count (Ok 1) ∷ given (stream_frame 6 0 false (98 ∷ []) ∷ stream_frame 2 0 false (97 ∷ []) ∷ []) Taken ∷ [] }
{}

/// An unordered read gives what waits, each offset once; one in order is refused from then on
/// (section 2.2).
#[tactic(auto, unfolding(quic_wire::specs::Writing::stream_spelling, quic_sets::specs::Offsets::without_offsets, quic_sets::specs::Offsets::with_offsets, quic_sets::specs::Offsets::parts_from, quic_sets::specs::Pieces::pieces, quic_sets::specs::Pieces::joining, quic_sets::specs::Pieces::with_range))]
pub fn unordered_reads_skip_gaps()
    ensures { played default_ends (hears Server 0 (stream_frame 0 2 true (99 ∷ []) ∷ []) ∷ reads Server true 0 9 ∷ reads Server false 0 9 ∷ reads Server true 0 9 ∷ hears Server 1 (stream_frame 0 0 false (97 ∷ 98 ∷ 99 ∷ []) ∷ []) ∷ reads Server false 0 9 ∷ reads Server false 0 9 ∷ reads Server false 0 9 ∷ [])
        ≡ heard Taken ∷ next (Err read_errors.Blocked) ∷ chunk 2 (99 ∷ []) ∷ unreadable readable_errors.IllegalOrderedRead ∷ heard Taken ∷ chunk 0 (97 ∷ 98 ∷ []) ∷ next (Ok None) ∷ unreadable readable_errors.ClosedStream ∷ [] }
{}

/// What a peer may not send closes the end that hears it (sections 4.1, 4.5, 4.6 and 19).
#[tactic(auto, unfolding(quic_wire::specs::Writing::stream_spelling, quic_sets::specs::Offsets::without_offsets, quic_sets::specs::Offsets::with_offsets, quic_sets::specs::Offsets::parts_from, quic_sets::specs::Pieces::pieces, quic_sets::specs::Pieces::joining, quic_sets::specs::Pieces::with_range))]
pub fn broken_rules_close()
    ensures flow_control { played default_ends (hears Server 0 (stream_frame 0 1250001 false (97 ∷ []) ∷ []) ∷ []) ≡ closes_by 3 ∷ [] }
    ensures stream_limit { played default_ends (hears Server 0 (stream_frame 400 0 false (97 ∷ []) ∷ []) ∷ []) ≡ closes_by 4 ∷ [] }
    ensures stream_state { played default_ends (hears Server 0 (stream_frame 3 0 false (97 ∷ []) ∷ []) ∷ []) ≡ closes_by 5 ∷ [] }
    ensures unopened { played default_ends (hears Client 0 (max_stream_data (record { id = 0; limit = 9 }) ∷ []) ∷ []) ≡ closes_by 5 ∷ [] }
    ensures final_size { played default_ends (hears Server 0 (stream_frame 0 0 true hello ∷ []) ∷ hears Server 1 (stream_frame 0 5 false (97 ∷ []) ∷ []) ∷ []) ≡ heard Taken ∷ closes_by 6 ∷ [] }
    ensures other_size { played default_ends (hears Server 0 (reset_stream (record { id = 0; code = 0; final_size = 5 }) ∷ []) ∷ hears Server 1 (reset_stream (record { id = 0; code = 0; final_size = 6 }) ∷ []) ∷ []) ≡ heard Taken ∷ closes_by 6 ∷ [] }
    ensures count { played default_ends (hears Client 0 (max_streams (record { one_way = false; count = 2 ^ 60 + 1 }) ∷ []) ∷ []) ≡ closes_by 7 ∷ [] }
{}
