//! What begins to wait, computed on the run in which a limit is lost and goes again, and machines
//! that make something wait at each call. Each function does nothing: its contract is the law.
ghost use Rattle.std.specs.Prelude.{◌≡◌, take, true};
ghost use Rattle.quic_machine.specs.declared.run.ReadCall.{ReadCall};
ghost use Rattle.quic_headline.specs.Duties.{AllData};
ghost use Rattle.quic_headline.specs.Begins.{Challenge, Response, Frame, LimitOf, NewId, Retirement, IsPending, HasCause, asks_for, WasLost, BeginsAt};
ghost use Rattle.quic_worked.specs.Credit.{ReadsEight, credit_written, credit_accepted, credit_read, credit_given};
ghost use Rattle.quic_worked.specs.Worked.{ReadsBy, two_chunks, once_accepted};
ghost use Rattle.quic_worked.specs.Raised.{raised_events, raised_told, third_came, NeverComes};
ghost use Rattle.quic_worked.specs.Begun.{sending_seen, reading_seen, word_seen, raising_seen, pinging_seen, waiting_seen, losing_seen, challenged_seen, bringing_seen, using_seen, retired_seen, unanswered_server, unanswered_seen, challenge_at_each_timeout, early_challenge, limit_at_each_read, all_at_each_read, limit_at_each_poll, ack_at_each_call, ping_at_each_timeout, bytes_at_each_poll, challenge_at_each_call, response_at_each_call, id_at_each_call, retirement_at_each_call, done_at_each_call, issues_two, tells_again, repeated_seen, retires_the_next, retires_at_once, NeverRetired, NeverBrought, NeverRead, NeverRenamed};
ghost use Rattle.quic_worked.specs.Renamed.{once_renamed};
ghost use Rattle.quic_worked.specs.Unvalidated.{once_far, once_answered};

/// MAX_DATA waits once the bytes are read that may come, for which the read asks; and again once
/// the datagram that said it is lost (RFC 9000, sections 4.1 and 13.3).
pub fn limit_has_causes()
    ensures read { (read : ReadCall) → ReadsEight read
        → asks_for (reading_seen read) (LimitOf AllData) ≡ true }
    ensures lost { (read : ReadCall) → WasLost (losing_seen read) (Frame (LimitOf AllData)) }
{}

/// PATH_RESPONSE waits once PATH_CHALLENGE came (RFC 9000, section 8.2.2), RETIRE_CONNECTION_ID
/// once the next id is used (section 5.1.2), NEW_CONNECTION_ID once the peer retired an id (section
/// 5.1.1), and PATH_CHALLENGE once more where no answer came in time (section 8.2.4): at the moment
/// for that, and not before.
pub fn frames_have_causes()
    ensures challenged { HasCause challenged_seen Response }
    ensures response { IsPending (once_answered 1).client Response }
    ensures used { HasCause using_seen (Frame (Retirement 0)) }
    ensures retirement { IsPending (once_renamed 4).client (Frame (Retirement 0)) }
    ensures retired { HasCause retired_seen (Frame (NewId 8)) }
    ensures new_id { IsPending (once_renamed 6).server (Frame (NewId 8)) }
    ensures challenge { IsPending unanswered_server Challenge }
    ensures due { HasCause (unanswered_seen 3072000000) Challenge }
    ensures early { HasCause (unanswered_seen 3071999999) Challenge → ⊥ }
{}

/// A client at which bytes wait again behind the poll that gave them breaks the clause, and no run
/// comes to it.
pub fn bytes_at_each_poll_show()
    ensures bytes { (read : ReadCall)
        → BeginsAt (sending_seen read) credit_written.client bytes_at_each_poll.client → ⊥ }
    ensures machine { (read : ReadCall)
        → NeverComes (take 3 (raised_events read)) (take 3 raised_told) bytes_at_each_poll }
{}

/// A server at which MAX_STREAM_DATA waits behind a read of eight bytes, though the peer was told
/// that 1250000 may come, breaks the clause (RFC 9000, section 4.2), and no run comes to it.
pub fn needless_stream_limit_shows()
    ensures limit { (read : ReadCall) → ReadsEight read
        → BeginsAt (reading_seen read) credit_accepted.server limit_at_each_read.server → ⊥ }
    ensures machine { (read : ReadCall) → ReadsEight read
        → NeverComes (take 6 (raised_events read)) (take 6 raised_told) limit_at_each_read }
{}

/// A server at which MAX_DATA waits behind a read of five bytes, though the peer was told that far
/// more may come, breaks the clause (RFC 9000, section 4.1), and no run comes to it.
pub fn needless_limit_shows()
    ensures limit { (read : ReadCall) → ReadsBy two_chunks read
        → BeginsAt (word_seen read) once_accepted.server all_at_each_read.server → ⊥ }
    ensures machine { (read : ReadCall) → ReadsBy two_chunks read
        → NeverRead read all_at_each_read }
{}

/// A server at which MAX_DATA waits again behind the poll that said it breaks the clause; so does
/// one at which an ACK frame is due though no packet came, and a client at which PING waits behind
/// a timeout. No run comes to them.
pub fn needless_waits_show()
    ensures limit { (read : ReadCall)
        → BeginsAt (raising_seen read) credit_read.server limit_at_each_poll.server → ⊥ }
    ensures acks { (read : ReadCall)
        → BeginsAt (pinging_seen read) credit_given.server ack_at_each_call.server → ⊥ }
    ensures ping { (read : ReadCall)
        → BeginsAt (waiting_seen read) third_came.client ping_at_each_timeout.client → ⊥ }
    ensures machine_limit { (read : ReadCall) → ReadsEight read
        → NeverComes (take 7 (raised_events read)) (take 7 raised_told) limit_at_each_poll }
    ensures machine_acks { (read : ReadCall) → ReadsEight read
        → NeverComes (take 8 (raised_events read)) (take 8 raised_told) ack_at_each_call }
    ensures machine_ping { (read : ReadCall) → ReadsEight read
        → NeverComes (take 15 (raised_events read)) (take 15 raised_told) ping_at_each_timeout }
{}

/// A client at which PATH_CHALLENGE waits behind a timeout, though the address of its peer is
/// validated, breaks the clause, and no run comes to it; so does a server at which it waits again
/// before the moment for that has come (RFC 9000, section 8.2.4).
pub fn challenge_at_each_timeout_shows()
    ensures validated { (read : ReadCall)
        → BeginsAt (waiting_seen read) third_came.client challenge_at_each_timeout.client → ⊥ }
    ensures early { BeginsAt (unanswered_seen 3071999999) (once_far 5).server early_challenge → ⊥ }
    ensures machine { (read : ReadCall) → ReadsEight read
        → NeverComes (take 15 (raised_events read)) (take 15 raised_told)
        challenge_at_each_timeout }
{}

/// A server at which PATH_CHALLENGE waits behind a call that asks for PING breaks the clause; so
/// does one at which PATH_RESPONSE waits there, an id that was told is to be told again, an id of
/// the peer is retired, or HANDSHAKE_DONE waits, though nobody said that the handshake is done. No
/// run comes to them.
pub fn needless_frames_show()
    ensures challenge { (read : ReadCall)
        → BeginsAt (pinging_seen read) credit_given.server challenge_at_each_call.server → ⊥ }
    ensures response { (read : ReadCall)
        → BeginsAt (pinging_seen read) credit_given.server response_at_each_call.server → ⊥ }
    ensures new_id { (read : ReadCall)
        → BeginsAt (pinging_seen read) credit_given.server id_at_each_call.server → ⊥ }
    ensures retirement { (read : ReadCall)
        → BeginsAt (pinging_seen read) credit_given.server retirement_at_each_call.server → ⊥ }
    ensures done { (read : ReadCall)
        → BeginsAt (pinging_seen read) credit_given.server done_at_each_call.server → ⊥ }
    ensures machine_challenge { (read : ReadCall) → ReadsEight read
        → NeverComes (take 8 (raised_events read)) (take 8 raised_told) challenge_at_each_call }
    ensures machine_response { (read : ReadCall) → ReadsEight read
        → NeverComes (take 8 (raised_events read)) (take 8 raised_told) response_at_each_call }
    ensures machine_new_id { (read : ReadCall) → ReadsEight read
        → NeverComes (take 8 (raised_events read)) (take 8 raised_told) id_at_each_call }
    ensures machine_retirement { (read : ReadCall) → ReadsEight read
        → NeverComes (take 8 (raised_events read)) (take 8 raised_told) retirement_at_each_call }
    ensures machine_done { (read : ReadCall) → ReadsEight read
        → NeverComes (take 8 (raised_events read)) (take 8 raised_told) done_at_each_call }
{}

/// A server that issues two ids where its peer retires one breaks the clause (RFC 9000, section
/// 5.1.1); so does one that tells an id again which it told before, and one that issues an id where
/// its peer says once more that one is retired. No run comes to the first two.
pub fn needless_ids_show()
    ensures two { BeginsAt retired_seen (once_renamed 5).server issues_two.server → ⊥ }
    ensures again { BeginsAt retired_seen (once_renamed 5).server tells_again.server → ⊥ }
    ensures repeated { BeginsAt repeated_seen (once_renamed 6).server issues_two.server → ⊥ }
    ensures machine_two { NeverRetired issues_two }
    ensures machine_again { NeverRetired tells_again }
{}

/// A client that uses the next id of its peer, and retires that one too, beside the one that it
/// used, breaks the clause (section 5.1.2), and no run comes to it.
pub fn next_retired_shows()
    ensures retirement { BeginsAt using_seen (once_renamed 3).client retires_the_next.client → ⊥ }
    ensures machine { NeverRenamed retires_the_next }
{}

/// A client that retires an id of its peer as that comes, which isn't late, breaks the clause
/// (section 19.15), and no run comes to it.
pub fn retirement_at_once_shows()
    ensures retirement { BeginsAt bringing_seen (once_renamed 2).client retires_at_once.client → ⊥ }
    ensures machine { NeverBrought retires_at_once }
{}
