//! The definitions computed on one worked run: the client opens stream 0, writes `hello` and ends
//! it, and the server reads it. Each function does nothing: its contract is the law.
ghost use Rattle.std.specs.Prelude.{◌≡◌, ℕ, ◌-◌, ◌<◌, ◌^◌, true, false, [], ◌∷◌, ◌++◌, length, map, take, drop, replicate, Some, None, Ok, Err};
ghost use Rattle.quic_wire_core.specs.TransportError.{error_in, plain_error};
ghost use Rattle.quic_wire_core.specs.declared.stream_id.Side.TheVariants.{Client, Server};
ghost use Rattle.quic_wire_core.specs.declared.stream_id.Dir.TheVariants.{Bi, Uni};
ghost use Rattle.quic_wire_core.specs.declared.shared.EcnCodepoint.TheVariants.{Ect0};
ghost use Rattle.quic_packet.specs.declared.packet.HeaderError.TheVariants.{UnknownId};
ghost use Rattle.quic_packet.specs.Keys.{shielded, unshielded};
ghost use Rattle.quic_packet.specs.Datagram.{protected, opened_packet};
ghost use Rattle.quic_packet.specs.Destination.{decoded, fixed_length_id};
ghost use Rattle.quic_wire.specs.Value.{stream, ping};
ghost use Rattle.quic_congestion.specs.Search.{open_probe};
ghost use Rattle.quic_parameters.specs.ParametersRead.{parameters_at};
ghost use Rattle.quic_wire.specs.Writing.{spelling, spelled_all};
ghost use Rattle.quic_wire.specs.Items.{items};
ghost use Rattle.quic_machine.specs.declared.answers.LostReason.TheVariants.{NumberLimit};
ghost use Rattle.quic_machine.specs.declared.answers.ConfigError.TheVariants.{Parameters, IdLength, Size, Window, KeyLimit};
ghost use Rattle.quic_streams_parts.specs.declared.answers.ReadableError.TheVariants as readable_errors;
ghost use Rattle.quic_streams_parts.specs.declared.answers.ReadError.TheVariants as read_errors;
ghost use Rattle.quic_streams_parts.specs.declared.answers.WriteError.TheVariants as write_errors;
ghost use Rattle.quic_streams_parts.specs.declared.answers.FinishError.TheVariants as finish_errors;
ghost use Rattle.quic_machine.specs.declared.answers.DropReason.TheVariants as drops;
ghost use Rattle.quic_machine.specs.declared.answers.Received.TheVariants.{Taken, Dropped, Closed};
ghost use Rattle.quic_machine.specs.declared.answers.Received.TheVariants as receives;
ghost use Rattle.quic_machine.specs.declared.run.ReadCall.{ReadCall};
ghost use Rattle.quic_machine.specs.declared.run.Answer.TheVariants as answers;
ghost use Rattle.quic_config.specs.Transport.{parameters_of};
ghost use Rattle.quic_worked.specs.Settings.{plain_settings};
ghost use Rattle.quic_recovery_core.specs.Duplicates.{is_duplicate};
ghost use Rattle.quic_recovery_core.specs.DuplicateRuns.{seen_after};
ghost use Rattle.quic_streams_state.specs.Writing.{finish_answer};
ghost use Rattle.quic_streams_state.specs.Reading.{read_answer};
ghost use Rattle.quic_machine.specs.Ids.{first_ids, words_behind};
ghost use Rattle.quic_machine.specs.End.{MadeFrom, new_end, refusal_of, drained_by, with_waiting, with_window};
ghost use Rattle.quic_machine.specs.Parts.{nothing_waits};
ghost use Rattle.quic_machine.specs.Poll.{IsDatagram};
ghost use Rattle.quic_machine.specs.PollCases.{draft_at};
ghost use Rattle.quic_machine.specs.Machine.{IsStep, Follows};
ghost use Rattle.quic_machine.specs.Opens.{opens};
ghost use Rattle.quic_headline.specs.Runs.{until, written, ended, reads, finished, ids_of, accepts, count_given, given_until, is_again, HasArrived, EndHasArrived, frames_of};
ghost use Rattle.quic_headline.specs.Observer.{took, references_until};
ghost use Rattle.quic_machine.specs.Start.{AreStarted, AreKeys};
ghost use Rattle.quic_headline.specs.Headline.{IsHonest, IsRun};
ghost use Rattle.quic_worked.specs.Broken.{once_full, once_failed};
ghost use Rattle.quic_worked.specs.Worked.{steady_window, steady, long_keys, unprotected_hello, hello_opening, client_gives, searching, no_two_way, end_opens, end_accepts, end_writes, end_after_write, end_next, write_lacks, finish_lacks, read_lacks, next_lacks, poll_lacks, ReadsBy, two_chunks, parameters_with, worked_parameters, few_started, few_ended, issued, client_id, server_id, client_made, server_made, started, with_server, once_opened, once_written, once_ended, once_sent, once_taken, once_read, hello, hello_frame, hello_payload, hello_datagram, writes_hello, finishes_stream, asks_datagram, delivers, reads_stream, failed_end, numbered_from, from_client, client_packet, at_server, within, worked_policies, worked_events, worked_answers, worked_views, worked_run, shut, id_frames, ids_payload, behind_ids, hello_whole};

/// Each end is made of the other's parameters and first id, at moment 0 on a validated path. The
/// window of the server is shut, so that it only acknowledges.
pub fn ends_are_made()
    ensures client { MadeFrom Client plain_settings steady worked_parameters client_id server_id 0 0
        true (λ n. 63) client_made }
    ensures server { MadeFrom Server plain_settings shut worked_parameters server_id client_id 0 0
        true (λ n. 63) server_made }
{}

/// The frame with the five bytes and the end, behind those that tell seven ids, under number 0 and
/// the server's first id, is the datagram of 230 bytes.
#[tactic(auto, unfolding(crate::specs::Worked::once_sent))]
pub fn hello_is_given()
    ensures spelling { spelling (stream hello_frame) ≡ hello_payload }
    ensures ids { spelled_all id_frames ≡ ids_payload }
    ensures bytes { from_client 0 hello_whole ≡ hello_datagram }
    ensures size { length hello_datagram ≡ 230 }
    ensures sealed { protected worked_policies.client.header worked_policies.client.packet 9 0
        ((0x40 ∷ server_id) ++ (0x00 ∷ hello_whole)) ≡ hello_datagram }
    ensures is { IsDatagram worked_policies.client 0 0 server_id
        (behind_ids (stream hello_frame ∷ [])) hello_datagram }
    ensures against { (read : ReadCall) → references_until (worked_run read) Client 8 ≡ 0 ∷ [] }
{}

/// An endpoint issues as many ids as its peer keeps, and no more (RFC 9000, section 5.1.1): to one
/// that keeps five, a client tells four beside the one with which it began, under numbers 1 to 4.
/// So its first datagram has 146 bytes.
pub fn peer_may_keep_fewer()
    ensures made { MadeFrom Client plain_settings steady (parameters_with 5) client_id server_id 0 0
        true (λ n. 63) few_started.client }
    ensures ids { few_started.client.ids
        ≡ first_ids client_id server_id 5 0 (words_behind 1 (λ n. 63)) }
    ensures living { map (λ i. i.number) few_started.client.ids.living
        ≡ 0 ∷ 1 ∷ 2 ∷ 3 ∷ 4 ∷ [] }
    ensures told { few_started.client.waiting.frames.new_cids
        ≡ issued 1 ∷ issued 2 ∷ issued 3 ∷ issued 4 ∷ [] }
    ensures size { (client_gives few_ended.client 0).answer
        ≡ Ok (Some (record { size = 146; ecn = Some Ect0; remote = 0 })) }
{}

/// The datagram shows the server's id, its number and its frame to the server, and nothing to
/// another end or another key.
#[tactic(auto, unfolding(crate::specs::Worked::once_taken))]
pub fn hello_is_opened()
    ensures id { decoded (fixed_length_id 8) (server_id ∷ []) hello_datagram ≡ Ok server_id }
    ensures unknown { decoded (fixed_length_id 8) (client_id ∷ []) hello_datagram ≡ Err UnknownId }
    ensures shown { unshielded worked_policies.server.header 9 hello_datagram ≡ unprotected_hello }
    ensures hidden { shielded worked_policies.client.header 9 unprotected_hello ≡ hello_datagram }
    ensures opened { opened_packet worked_policies.server.header worked_policies.server.packet 9 0
        hello_datagram ≡ Some hello_opening }
    ensures taken { opens worked_policies.server (server_id ∷ []) 0 hello_datagram
        ≡ Some hello_opening }
    ensures elsewhere { opens worked_policies.server (client_id ∷ []) 0 hello_datagram ≡ None }
    ensures refused { opened_packet worked_policies.client.header worked_policies.client.packet 9 0
        hello_datagram ≡ None }
    ensures frames { items hello_payload ≡ Ok (stream hello_frame) ∷ [] }
    ensures all_frames { frames_of (items hello_whole) ≡ behind_ids (stream hello_frame ∷ []) }
{}

/// The reference machine runs the worked example: each event is answered so and is seen so. Then
/// the client still waits for one acknowledgement, which the server still has to give, and nothing
/// is left to read. The client has counted the bytes of its datagram as sent, and the server those
/// of both copies as received.
#[tactic(auto, unfolding(crate::specs::Worked::once_taken))]
pub fn worked_run_follows()
    ensures follows { (read : ReadCall) → ReadsBy two_chunks read
        → Follows worked_policies started (worked_events read) worked_answers worked_views once_read }
    ensures tracked { map (λ p. p.0) once_read.client.tracking.packets ≡ 0 ∷ [] }
    ensures pending { once_read.server.acknowledging.runs ≡ record { start = 0; end = 1 } ∷ [] }
    ensures read { once_read.server.streams.receiving.halves.live ≡ [] }
    ensures sent { once_read.client_heard ≡ record { received = 0; sent = 230; failures = 0 } }
    ensures received { once_read.server_heard ≡ record { received = 460; sent = 0; failures = 0 } }
{}

/// It meets the premises of the headline: what is proved of every run holds of this one.
pub fn worked_run_is_honest()
    ensures start { AreStarted started }
    ensures keys { AreKeys worked_policies }
    ensures honest { (read : ReadCall) → read.id ≡ 0 → IsHonest (worked_run read) }
    ensures run { (read : ReadCall) → ReadsBy two_chunks read → IsRun (worked_run read) once_read }
{}

/// The client opened stream 0, wrote `hello`, ended the stream and gave one datagram; the server
/// accepted the stream, read `hello` at offset 0, and then the end. On another stream nothing was
/// written or read.
pub fn worked_run_tells()
    ensures opened { (read : ReadCall) → ids_of (until (worked_run read) Client 8) ≡ 0 ∷ [] }
    ensures written { (read : ReadCall) → written 0 (until (worked_run read) Client 8) ≡ hello }
    ensures ended { (read : ReadCall) → ended 0 (until (worked_run read) Client 8) ≡ true }
    ensures count { (read : ReadCall) → count_given (until (worked_run read) Client 8) ≡ 1 }
    ensures given { (read : ReadCall)
        → given_until (worked_run read) Client 8 ≡ hello_datagram ∷ [] }
    ensures none_given { (read : ReadCall) → given_until (worked_run read) Client 3 ≡ [] }
    ensures accepted { (read : ReadCall) → accepts (until (worked_run read) Server 8) ≡ 0 ∷ [] }
    ensures reads { (read : ReadCall) → read.id ≡ 0
        → reads 0 (until (worked_run read) Server 8) ≡ record { offset = 0; bytes = hello } ∷ [] }
    ensures finished { (read : ReadCall) → read.id ≡ 0
        → finished 0 (until (worked_run read) Server 8) ≡ true }
    ensures others { (read : ReadCall) → read.id ≡ 0
        → reads 4 (until (worked_run read) Server 8) ≡ [] }
    ensures nothing { (read : ReadCall) → written 4 (until (worked_run read) Client 8) ≡ [] }
{}

/// One packet came, although its datagram was delivered twice; each of the five bytes arrived at
/// its offset, and the end behind them.
pub fn hello_arrives()
    ensures before { (read : ReadCall) → took (worked_run read) Server 4 ≡ [] }
    ensures took { (read : ReadCall)
        → took (worked_run read) Server 8
        ≡ record { number = 0; frames = behind_ids (stream hello_frame ∷ []) } ∷ [] }
    ensures bytes { (read : ReadCall) (offset : ℕ) → offset < 5
        → HasArrived (took (worked_run read) Server 8) 0 offset }
    ensures end { (read : ReadCall) → EndHasArrived (took (worked_run read) Server 8) 0 5 }
{}

/// A number is a duplicate of itself, and of a number that is 257 above it (RFC 9000, section
/// 12.3).
pub fn duplicates_are_told()
    ensures same { is_again 0 (0 ∷ []) ≡ true }
    ensures old { is_again 0 (257 ∷ []) ≡ true }
    ensures new { is_again 1 (0 ∷ []) ≡ false }
    ensures late { is_again 0 (256 ∷ []) ≡ false }
    ensures same_opened { is_duplicate (seen_after (0 ∷ [])) 0 ≡ true }
    ensures old_opened { is_duplicate (seen_after (257 ∷ [])) 0 ≡ true }
    ensures new_opened { is_duplicate (seen_after (0 ∷ [])) 1 ≡ false }
    ensures late_opened { is_duplicate (seen_after (256 ∷ [])) 0 ≡ false }
{}

/// A datagram that isn't for the server, or doesn't open, is dropped (RFC 9000, sections 5.2 and
/// 17.3.1; RFC 9001, section 5.4.2).
#[tactic(auto, unfolding(crate::specs::Worked::once_taken))]
pub fn datagrams_are_dropped()
    ensures short { at_server server_made (take 28 hello_datagram) ≡ Dropped drops.TooShort }
    ensures long_header { at_server server_made (0xc8 ∷ drop 1 hello_datagram)
        ≡ Dropped drops.NotShort }
    ensures zeros { at_server server_made (replicate 1200 0) ≡ Dropped drops.FixedBit }
    ensures other_id { at_server server_made (0x48 ∷ (client_id ++ drop 9 hello_datagram))
        ≡ Dropped drops.UnknownId }
    ensures other_tag { at_server server_made ((0x40 ∷ server_id) ++ replicate 21 0)
        ≡ Dropped drops.NotOpened }
    ensures key_phase { at_server server_made (client_packet 0x44 0 hello_payload)
        ≡ Dropped drops.KeyPhase }
    ensures again { at_server once_taken.server hello_datagram ≡ Dropped drops.Duplicate }
    ensures drained { at_server (drained_by NumberLimit server_made) hello_datagram
        ≡ Dropped drops.Drained }
{}

/// A packet that breaks a rule closes the server with the error of that rule (RFC 9000, section
/// 20.1).
#[tactic(auto, unfolding(crate::specs::Worked::once_taken))]
pub fn broken_rules_are_found()
    ensures cut { at_server server_made (from_client 0 (0x0a ∷ 0x00 ∷ 0x05 ∷ 0x68 ∷ 0x69 ∷ []))
        ≡ Closed (error_in 7 (Some 0x0a)) }
    ensures unknown_type { at_server server_made (from_client 0 (0x40 ∷ 0x42 ∷ 0x00 ∷ []))
        ≡ Closed (error_in 7 (Some 0x42)) }
    ensures no_frame { at_server server_made (from_client (2 ^ 30) []) ≡ Closed (plain_error 10) }
    ensures reserved { at_server server_made (client_packet 0x48 0 hello_payload)
        ≡ Closed (plain_error 10) }
    ensures unopened_stream { at_server server_made (from_client 0 (0x0a ∷ 0x01 ∷ 0x01 ∷ 0x61 ∷ []))
        ≡ Closed (plain_error 5) }
    ensures above_limit { at_server server_made
        (from_client 0 (0x0c ∷ 0x00 ∷ 0x80 ∷ 0x13 ∷ 0x12 ∷ 0xd0 ∷ 0x61 ∷ []))
        ≡ Closed (plain_error 3) }
    ensures above_all { at_server server_made
        (from_client 0 (0x0c ∷ 0x00 ∷ (replicate 8 0xff ++ 0x61 ∷ [])))
        ≡ Closed (plain_error 3) }
    ensures behind_end { at_server once_taken.server
        (from_client 1 (0x0c ∷ 0x00 ∷ 0x05 ∷ 0x61 ∷ [])) ≡ Closed (plain_error 6) }
    ensures other_end { at_server once_taken.server (from_client 1 (0x09 ∷ 0x00 ∷ 0x61 ∷ []))
        ≡ Closed (plain_error 6) }
    ensures beyond_count { at_server
        (new_end Server no_two_way steady (parameters_of plain_settings) server_id client_id 0 0
        true (λ n. 63))
        hello_datagram ≡ Closed (plain_error 4) }
    ensures none { at_server server_made (from_client 0 (0x40 ∷ 0x00 ∷ 0x01 ∷ [])) ≡ Taken }
{}

/// What application calls are answered where there is nothing to do, and what they accept within
/// limits.
#[tactic(auto, unfolding(crate::specs::Worked::once_taken, quic_parameters::specs::ParametersRead::parameters_at, quic_parameters::specs::ParametersRead::judged, quic_parameters::specs::ParametersRead::values_met, quic_parameters::specs::ParametersRead::met_in, quic_parameters::specs::ParametersRead::met_within, quic_parameters::specs::ParametersRead::met_after, quic_parameters::specs::ParametersRead::whole_at, quic_parameters::specs::ParametersRead::entry_at))]
pub fn calls_are_bounded()
    ensures second_open { end_opens Bi once_opened.client ≡ Some 4 }
    ensures one_way { end_opens Uni once_opened.client ≡ Some 2 }
    ensures no_count { end_opens Bi
        (new_end Client plain_settings steady (parameters_of no_two_way) client_id server_id 0 0
        true (λ n. 63))
        ≡ None }
    ensures server_open { end_opens Bi server_made ≡ Some 1 }
    ensures drained_open { end_opens Bi (drained_by NumberLimit client_made) ≡ None }
    ensures not_opened { end_writes client_made 0 5 ≡ Err write_errors.ClosedStream }
    ensures ended { end_writes once_ended.client 0 5 ≡ Err write_errors.ClosedStream }
    ensures within { end_writes (within 8 once_opened.client) 0 20 ≡ Ok 8 }
    ensures full { end_writes
        (end_after_write (Ok 8) (within 8 once_opened.client) 0 (replicate 20 0x61)) 0 12
        ≡ Err write_errors.Blocked }
    ensures drained { end_writes (drained_by NumberLimit once_opened.client) 0 5
        ≡ Err write_errors.Blocked }
    ensures second_end { finish_answer once_ended.client.streams 0
        ≡ Err finish_errors.ClosedStream }
    ensures no_stream { finish_answer server_made.streams 0 ≡ Err finish_errors.ClosedStream }
    ensures other_way { finish_answer once_taken.server.streams 0 ≡ Ok tt }
    ensures none_to_accept { end_accepts Bi server_made ≡ None }
    ensures none_to_read { read_answer server_made.streams 0 true
        ≡ Err readable_errors.ClosedStream }
    ensures all_read { read_answer once_read.server.streams 0 true
        ≡ Err readable_errors.ClosedStream }
    ensures nothing_came { end_next once_opened.client 0 9 ≡ Err read_errors.Blocked }
    ensures a_part { end_next once_taken.server 0 2
        ≡ Ok (Some (record { offset = 0; bytes = 0x68 ∷ 0x65 ∷ [] })) }
    ensures nothing_to_give { (client_gives once_sent.client 0).answer ≡ Ok None }
    ensures numbers_used { (client_gives (numbered_from (2 ^ 31 - 16) once_ended.client) 0).end.closing.reason
        ≡ Some NumberLimit }
    ensures no_number_left { (client_gives (numbered_from (2 ^ 31 - 16) once_ended.client) 0).answer
        ≡ Ok (Some (record { size = 33; ecn = Some Ect0; remote = 0 })) }
    ensures last_number { (client_gives (numbered_from (2 ^ 31 - 17) once_ended.client) 0).answer
        ≡ Ok (Some (record { size = 233; ecn = Some Ect0; remote = 0 })) }
    ensures bad_parameters { refusal_of plain_settings steady_window long_keys
        (parameters_at (0x04 ∷ 0x01 ∷ [])) client_id server_id ≡ Some Parameters }
    ensures short_id { refusal_of plain_settings steady_window long_keys
        (parameters_at worked_parameters) (take 7 client_id) server_id ≡ Some IdLength }
    ensures no_peer_id { refusal_of plain_settings steady_window long_keys
        (parameters_at worked_parameters) client_id [] ≡ Some IdLength }
    ensures big_datagrams { refusal_of (record plain_settings { initial_mtu = 65528 })
        steady_window long_keys (parameters_at worked_parameters) client_id server_id ≡ Some Size }
    ensures small_window { refusal_of plain_settings 2399 long_keys
        (parameters_at worked_parameters) client_id server_id ≡ Some Window }
    ensures few_seals { refusal_of plain_settings steady_window (record long_keys { seals = 15 })
        (parameters_at worked_parameters) client_id server_id ≡ Some KeyLimit }
    ensures few_openings { refusal_of plain_settings steady_window
        (record long_keys { openings = 15 }) (parameters_at worked_parameters) client_id server_id
        ≡ Some KeyLimit }
    ensures no_refusal { refusal_of plain_settings steady_window
        (record { seals = 16; openings = 16 }) (parameters_at worked_parameters) client_id
        server_id ≡ None }
{}

/// Where nothing waits, PING goes as a probe of the size between 1200 and 1452 bytes, under a
/// number that is open then; but not where the path isn't validated, the window has no room for the
/// greatest size that is looked at, or none is looked for (RFC 8899, section 5.3).
pub fn sizes_are_probed()
    ensures probe { (client_gives (searching true) 0).answer
        ≡ Ok (Some (record { size = 1326; ecn = Some Ect0; remote = 0 })) }
    ensures alone { (draft_at (searching true) 0).frames ≡ ping ∷ [] }
    ensures opened { open_probe (client_gives (searching true) 0).end.path.discovery ≡ Some 0 }
    ensures room { (client_gives (with_window (searching true) 1453) 0).answer
        ≡ Ok (Some (record { size = 1326; ecn = Some Ect0; remote = 0 })) }
    ensures no_room { (client_gives (with_window (searching true) 1452) 0).answer ≡ Ok None }
    ensures not_validated { (client_gives (searching false) 0).answer ≡ Ok None }
    ensures not_looked_for { (client_gives (with_waiting client_made nothing_waits) 0).answer
        ≡ Ok None }
{}

/// Where memory lacks, an application's call leaves all as it was, and an end that is polled or
/// that receives has failed. It may lack where bytes are kept, a blocked write is noted, an end is
/// queued, a read begins, a chunk is cut off a piece, a datagram is given, and frames are taken. A
/// delivery of a datagram that wasn't given is no call.
pub fn memory_may_lack()
    ensures write { IsStep worked_policies once_opened writes_hello write_lacks once_opened }
    ensures blocked { IsStep worked_policies once_full writes_hello write_lacks once_full }
    ensures finish { IsStep worked_policies once_written finishes_stream finish_lacks once_written }
    ensures begin { (read : ReadCall) → ReadsBy two_chunks read
        → IsStep worked_policies once_taken (reads_stream read) read_lacks once_taken }
    ensures next { (read : ReadCall) → ReadsBy (2 ∷ []) read
        → IsStep worked_policies once_taken (reads_stream read) next_lacks once_taken }
    ensures poll { IsStep worked_policies once_ended asks_datagram poll_lacks once_failed }
    ensures deliver { IsStep worked_policies once_sent delivers (answers.Deliver receives.Failed)
        (with_server once_sent (failed_end once_sent.server)) }
    ensures no_datagram { IsStep worked_policies started delivers answers.NoDatagram started }
{}
