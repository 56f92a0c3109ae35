//! Single definitions of the machine computed on small ends, where a change of one of them would
//! show in no run that is computed elsewhere. What they are to give is worked out by hand, by the
//! rule that each law names; where no other RFC is named, sections are those of RFC 9000. Each
//! function does nothing: its contract is the law.
ghost use Rattle.std.specs.Prelude.{◌≡◌, true, false, [], ◌∷◌, ◌++◌, map, take, Some, None, Ok, Err};
ghost use Rattle.quic_wire_core.specs.TransportError.{plain_error};
ghost use Rattle.quic_wire_core.specs.declared.shared.EcnCodepoint.TheVariants.{Ect0, Ect1, Ce};
ghost use Rattle.quic_wire_core.specs.declared.stream_id.Dir.TheVariants.{Bi};
ghost use Rattle.quic_wire.specs.Value.{ack, ping, handshake_done, stop_sending, application_close};
ghost use Rattle.quic_messages.specs.Sending.{send_answer};
ghost use Rattle.quic_messages.specs.declared.errors.SendDatagramError.TheVariants as send_errors;
ghost use Rattle.quic_congestion.specs.Congestion.{Congested};
ghost use Rattle.quic_streams_parts.specs.declared.answers.StreamEvent.TheVariants.{Opened};
ghost use Rattle.quic_machine.specs.declared.answers.DropReason.TheVariants as drops;
ghost use Rattle.quic_machine.specs.declared.answers.Event.TheVariants as events;
ghost use Rattle.quic_machine.specs.declared.answers.LostReason.TheVariants as reasons;
ghost use Rattle.quic_machine.specs.declared.answers.Received.TheVariants as receives;
ghost use Rattle.quic_machine.specs.declared.answers.State.TheVariants as states;
ghost use Rattle.quic_machine.specs.Acked.{without_known, marks_seen, told_marks};
ghost use Rattle.quic_machine.specs.Arrival.{arriving};
ghost use Rattle.quic_machine.specs.Calls.{end_tells, end_after_event};
ghost use Rattle.quic_machine.specs.Closing.{close_owed};
ghost use Rattle.quic_machine.specs.End.{with_told};
ghost use Rattle.quic_machine.specs.Heard.{nothing_heard, heard_failure, is_last};
ghost use Rattle.quic_machine.specs.Idle.{packet_given, packet_heard};
ghost use Rattle.quic_machine.specs.Ids.{drawn_id};
ghost use Rattle.quic_machine.specs.MessageCalls.{limits_of};
ghost use Rattle.quic_machine.specs.Poll.{whole, no_frames, with_ack, ping_if, draft_as, ack_of, composed, datagram_size, fitted, close_to_go};
ghost use Rattle.quic_machine.specs.Receive.{unopened_in};
ghost use Rattle.quic_machine.specs.Sizes.{told_losses};
ghost use Rattle.quic_machine.specs.Timeouts.{timed_out};
ghost use Rattle.quic_machine.specs.Validation.{path_expired};
ghost use Rattle.quic_worked.specs.Worked.{worked_policies, client_made, server_made, client_id, hello};
ghost use Rattle.quic_worked.specs.Changed.{at_moment, took, counting, word_bytes, came_with, silent_came, gap_came, acks_from, acks_marked, went_at, probing_client, opened_client, stream_turn, streams_of_draft, two_came, much_happened, counting_client, asking_server, challenged_in, padding_client, alive_client, idle_client, agreed, hello_close, closing_client, close_went, ping_opened};

/// Of the marks CE alone makes an ACK frame due at once, where the packet asks (RFC 9000, section
/// 13.2.1).
pub fn congestion_is_acknowledged_at_once()
    ensures none { (came_with None true).acknowledging.due ≡ false }
    ensures ect0 { (came_with (Some Ect0) true).acknowledging.due ≡ false }
    ensures ect1 { (came_with (Some Ect1) true).acknowledging.due ≡ false }
    ensures ce { (came_with (Some Ce) true).acknowledging.due ≡ true }
    ensures bare { (came_with (Some Ce) false).acknowledging.due ≡ false }
{}

/// Each packet that comes with a mark counts, whether it asks or doesn't (section 13.4.1).
pub fn all_marks_count()
    ensures silent { (came_with (Some Ect0) false).marks.came ≡ (1, 0, 0) }
    ensures asking { (came_with (Some Ect0) true).marks.came ≡ (1, 0, 0) }
    ensures ect1 { (came_with (Some Ect1) false).marks.came ≡ (0, 1, 0) }
    ensures ce { (came_with (Some Ce) false).marks.came ≡ (0, 0, 1) }
    ensures none { (came_with None true).marks.came ≡ (0, 0, 0) }
{}

/// An ACK frame names all ranges of numbers that are to be acknowledged, the greatest first
/// (section 19.3.1).
pub fn all_ranges_are_named()
    ensures ranges { (ack_of gap_came).ranges ≡ (4, 4) ∷ (0, 1) ∷ [] }
    ensures largest { (ack_of gap_came).largest ≡ 4 }
{}

/// Once an ACK frame is acknowledged whose greatest number was 2, the numbers up to that one aren't
/// named any more, and those above still are (section 13.2.4).
pub fn numbers_above_are_named_again()
    ensures known { (ack_of (without_known (Some 2) (silent_came false 5))).ranges ≡ (3, 4) ∷ [] }
    ensures none { (ack_of (without_known None (silent_came false 5))).ranges ≡ (0, 4) ∷ [] }
{}

/// Packets that don't ask make no ACK frame go alone; once more than ten came, it goes before the
/// other frames of a datagram that goes anyway.
pub fn silent_packets_are_acknowledged_first()
    ensures eleven { (draft_as whole (silent_came true 11)).frames ≡ ack (acks_from 0 10) ∷ ping ∷ [] }
    ensures ten { (draft_as whole (silent_came true 10)).frames ≡ ping ∷ ack (acks_from 0 9) ∷ [] }
    ensures alone { (silent_came true 11).acknowledging.due ≡ false }
{}

/// Where the count of CE grew, the controller is told of congestion: at moment 5, since the last
/// packet that is newly acknowledged went at moment 3 (RFC 9002, section 7.1).
pub fn congestion_marks_are_told()
    ensures grew { told_marks true ((0, went_at 3) ∷ []) (acks_marked (0, 0, 1)) (at_moment 5 client_made)
        ≡ Congested 5 3 false 0 ∷ [] }
    ensures same { told_marks true ((0, went_at 3) ∷ []) (acks_marked (1, 0, 0)) (at_moment 5 client_made) ≡ [] }
{}

/// The counts of an ACK frame that names no number above all before may be smaller than those that
/// came, and aren't judged; others that are smaller end the marks (RFC 9000, section 13.4.2.1).
pub fn late_counts_are_not_judged()
    ensures late { (marks_seen false 1 (acks_marked (1, 0, 0)) (with_told client_made (2, 0, 0))).path.marking ≡ true }
    ensures kept { (marks_seen false 1 (acks_marked (1, 0, 0)) (with_told client_made (2, 0, 0))).marks.told ≡ (2, 0, 0) }
    ensures above { (marks_seen true 1 (acks_marked (1, 0, 0)) (with_told client_made (2, 0, 0))).path.marking ≡ false }
{}

/// The loss of an MTU probe isn't told as congestion, as that of another datagram is (section
/// 14.4).
pub fn lost_probe_is_no_congestion()
    ensures probe { told_losses true probing_client ((0, went_at 0) ∷ []) ≡ [] }
    ensures other { told_losses true probing_client ((1, went_at 0) ∷ []) ≡ Congested 0 0 false 1200 ∷ [] }
{}

/// STOP_SENDING of an own stream that wasn't opened closes with STREAM_STATE_ERROR, and is taken
/// once it was (section 19.5).
pub fn unopened_stream_is_not_stopped()
    ensures unopened { (took (stop_sending (record { id = 0; code = 7 })) client_made).answer
        ≡ receives.Closed (plain_error 5) }
    ensures closing { (took (stop_sending (record { id = 0; code = 7 })) client_made).end.closing.state
        ≡ states.Closing }
    ensures opened { (took (stop_sending (record { id = 0; code = 7 })) opened_client).answer ≡ receives.Taken }
{}

/// A server to which HANDSHAKE_DONE comes closes with PROTOCOL_VIOLATION; a client takes it
/// (section 19.20).
pub fn server_refuses_handshake_done()
    ensures server { (took handshake_done server_made).answer ≡ receives.Closed (plain_error 10) }
    ensures client { (took handshake_done client_made).answer ≡ receives.Taken }
{}

/// Streams of one priority take turns: a stream of which more is left goes behind the other one.
#[tactic(auto, unfolding(crate::specs::Changed::stream_turn))]
pub fn streams_take_turns()
    ensures first { streams_of_draft (stream_turn 0) ≡ 0 ∷ [] }
    ensures second { streams_of_draft (stream_turn 1) ≡ 4 ∷ 0 ∷ [] }
{}

/// An endpoint that is closing takes no message to send, as an open one does.
pub fn closing_end_sends_no_message()
    ensures open { send_answer (limits_of client_made) false hello client_made.messages.queues ≡ Ok tt }
    ensures closing { send_answer (limits_of closing_client) true hello closing_client.messages.queues
        ≡ Err send_errors.Blocked }
{}

/// That messages came is told once, where a second one comes before the first is read.
pub fn messages_are_told_once()
    ensures came { two_came.messages.queues.incoming ≡ hello ∷ hello ∷ [] }
    ensures told { end_tells two_came ≡ Some events.Message }
    ensures once { end_tells (end_after_event two_came) ≡ None }
{}

/// That messages came is told before what happened to streams, and that before the loss of the
/// connection, whatever happened first.
pub fn loss_is_told_last()
    ensures first { end_tells much_happened ≡ Some events.Message }
    ensures second { end_tells (end_after_event much_happened) ≡ Some (events.Stream (Opened Bi)) }
    ensures third { end_tells (end_after_event (end_after_event much_happened)) ≡ Some (events.Lost reasons.Idle) }
    ensures last { end_tells (end_after_event (end_after_event (end_after_event much_happened))) ≡ None }
{}

/// The token by which a stateless reset is known is drawn of two words of its own: who sees the id
/// doesn't know it (section 10.3).
pub fn tokens_have_words_of_their_own()
    ensures drawn { drawn_id counting 1
        ≡ record { sequence = 1; id = word_bytes 0; reset_token = word_bytes 1 ++ word_bytes 2 } }
{}

/// A new endpoint draws each of its later ids of words of its own: the first word says which packet
/// number is left out, and each id draws three.
pub fn new_ids_differ()
    ensures living { map (λ i. i.id) counting_client.ids.living
        ≡ client_id ∷ word_bytes 1 ∷ word_bytes 4 ∷ word_bytes 7 ∷ word_bytes 10 ∷ word_bytes 13
        ∷ word_bytes 16 ∷ word_bytes 19 ∷ [] }
    ensures told { map (λ c. c.id) counting_client.waiting.frames.new_cids
        ≡ word_bytes 1 ∷ word_bytes 4 ∷ word_bytes 7 ∷ word_bytes 10 ∷ word_bytes 13
        ∷ word_bytes 16 ∷ word_bytes 19 ∷ [] }
{}

/// A challenge that wasn't answered in time is followed by one with other data (section 8.2.1):
/// 21 words went for ids and one for numbers, the next is that of the first challenge, and the
/// one behind it that of the second.
pub fn second_challenge_differs()
    ensures first { asking_server.validation.challenge ≡ Some 22 }
    ensures second { (path_expired counting true asking_server).validation.challenge ≡ Some 23 }
    ensures waits { (path_expired counting true asking_server).waiting.signals.challenge ≡ Some 23 }
{}

/// Of two challenges that of the packet with the greater number is answered, whichever comes last.
pub fn newest_challenge_is_answered()
    ensures late { (challenged_in 3 8 (challenged_in 5 7 client_made)).waiting.signals.response
        ≡ Some (record { packet = 5; token = 7 }) }
    ensures in_order { (challenged_in 5 7 (challenged_in 3 8 client_made)).waiting.signals.response
        ≡ Some (record { packet = 5; token = 7 }) }
{}

/// With `pad_to_mtu` datagrams that ask have the size of their path; one with an ACK frame alone
/// has its 5 bytes, and 26 others.
pub fn acknowledgements_are_not_padded()
    ensures silent { datagram_size (with_ack (no_frames padding_client)) ≡ 31 }
    ensures asking { datagram_size (ping_if true (no_frames padding_client)) ≡ 1200 }
{}

/// Once the time of keep-alive is over PING goes (section 10.1.2), and not before.
pub fn keep_alive_pings()
    ensures early { (timed_out worked_policies.client alive_client 9999999999).end.waiting.signals.ping ≡ false }
    ensures over { (timed_out worked_policies.client alive_client 10000000000).end.waiting.signals.ping ≡ true }
    ensures goes { (composed (timed_out worked_policies.client alive_client 10000000000).end).frames ≡ ping ∷ [] }
{}

/// The lesser of both idle timeouts counts, and the only one where one end told of none (section
/// 10.1).
pub fn lesser_timeout_counts()
    ensures peer { agreed (Some 30000) 10000 ≡ Some 10000000000 }
    ensures own { agreed (Some 10000) 30000 ≡ Some 10000000000 }
    ensures peer_alone { agreed None 10000 ≡ Some 10000000000 }
    ensures own_alone { agreed (Some 30000) 0 ≡ Some 30000000000 }
    ensures none { agreed None 0 ≡ None }
{}

/// The idle timeout begins anew with the first datagram that asks and goes since one came, and not
/// with a second one (section 10.1).
pub fn idle_time_begins_once()
    ensures first { (packet_given true idle_client).timers.idle ≡ Some 30000000000 }
    ensures second { (packet_given true (at_moment 5000000000 (packet_given true idle_client))).timers.idle
        ≡ Some 30000000000 }
    ensures behind { (packet_given true (at_moment 9000000000 (packet_heard (at_moment 5000000000
        (packet_given true idle_client))))).timers.idle ≡ Some 39000000000 }
{}

/// A close goes again for each packet that comes behind it (section 10.2.1).
pub fn close_goes_again()
    ensures first { close_owed closing_client.closing ≡ Some (application_close hello_close) }
    ensures went { close_owed (close_went closing_client).closing ≡ None }
    ensures dropped { (ping_opened 0 (close_went closing_client)).answer ≡ receives.Dropped drops.Closing }
    ensures again { close_owed (ping_opened 0 (close_went closing_client)).end.closing
        ≡ Some (application_close hello_close) }
    ensures thrice { close_owed (ping_opened 1 (close_went (ping_opened 0 (close_went closing_client)).end)).end.closing
        ≡ Some (application_close hello_close) }
{}

/// An endpoint is closing for three probe timeouts of 1024 ms, and drained then, whenever its
/// timers are served before (section 10.2).
pub fn closing_lasts_its_time()
    ensures early { (timed_out worked_policies.client closing_client 3071999999).end.closing.state ≡ states.Closing }
    ensures over { (timed_out worked_policies.client closing_client 3072000000).end.closing.state ≡ states.Drained }
{}

/// An application's close has its text, and where there is room for six bytes alone, the three that
/// fit behind type, code and length (section 19.19).
pub fn close_has_its_text()
    ensures goes { close_to_go worked_policies.client closing_client ≡ Some (application_close hello_close) }
    ensures cut { fitted 6 (application_close hello_close)
        ≡ application_close (record { code = 7; reason = take 3 hello }) }
{}

/// Where three packets may fail to open, an endpoint drops two and closes for the third with
/// AEAD_LIMIT_REACHED (RFC 9001, section 6.6).
pub fn third_refusal_closes()
    ensures first { is_last 3 nothing_heard ≡ false }
    ensures second { is_last 3 (heard_failure nothing_heard) ≡ false }
    ensures third { is_last 3 (heard_failure (heard_failure nothing_heard)) ≡ true }
    ensures drops { (unopened_in states.Open false (arriving 0 0 None false) client_made).answer
        ≡ receives.Dropped drops.NotOpened }
    ensures closes { (unopened_in states.Open true (arriving 0 0 None true) client_made).answer
        ≡ receives.Closed (plain_error 15) }
{}
