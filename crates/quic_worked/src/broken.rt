//! Runs of machines with a bug, computed: each breaks a clause of the headline, or is none that the
//! reference machine makes. Each function does nothing: its contract is the law.
ghost use Rattle.std.specs.Prelude.{◌≡◌, ℕ, List, [], ◌∷◌, None, Ok, Err, true, false};
ghost use Rattle.quic_wire_core.specs.declared.stream_id.Side.TheVariants.{Client, Server};
ghost use Rattle.quic_wire.specs.Value.{stream};
ghost use Rattle.quic_machine.specs.declared.run.ReadCall.{ReadCall};
ghost use Rattle.quic_machine.specs.declared.run.RunEvent.{RunEvent};
ghost use Rattle.quic_machine.specs.declared.run.Answer.{Answer};
ghost use Rattle.quic_machine.specs.declared.run.Answer.TheVariants as answers;
ghost use Rattle.quic_machine.specs.declared.answers.Received.TheVariants as receives;
ghost use Rattle.quic_machine.specs.StreamCalls.{IsRead};
ghost use Rattle.quic_machine.specs.Machine.{World, IsStep};
ghost use Rattle.quic_headline.specs.Runs.{until, written, reads, bytes_of, given_until, IsTaken};
ghost use Rattle.quic_headline.specs.Observer.{took, acked_until};
ghost use Rattle.quic_headline.specs.Duties.{DutiesAt};
ghost use Rattle.quic_headline.specs.InFlight.{in_flight, TracksAt};
ghost use Rattle.quic_headline.specs.Headline.{OrderedPrefix, Slices, Once, EndAfterAll, BlockedOnlyWithoutBytes, AcceptsAll, FinishedMeansArrived, ToldOnce, FinishedIsTold, AcknowledgedWereTaken, NamesWereTaken, IsNamedIn, frames_given, OpensExactly, would_open_at, IsHonest, IsRun, LossTimersFollow, AckTimersFollow, NumbersRise};
ghost use Rattle.quic_worked.specs.Acknowledged.{ack_payload, from_server, client_datagram};
ghost use Rattle.quic_worked.specs.Worked.{write_lacks, finish_lacks, read_lacks, next_lacks, poll_lacks, ReadsBy, two_chunks, sending_events, sending_answers, hello, hello_frame, hello_payload, hello_datagram, all_nexts, worked_policies, server_made, started, once_opened, once_ended, once_sent, once_taken, once_read, writes_hello, finishes_stream, asks_datagram, delivers, reads_stream, run_with, carrying, acknowledging, behind_ids, ids_again};
ghost use Rattle.quic_worked.specs.Broken.{IsNoRun, IsNever, NeverLeads, writes_nothing, once_blocked, once_failed, lets_expire, hellp, changed_byte, repeated_bytes, unwritten_byte, early_end, unwritten_end, taken_twice, never_taken, blocked_read, never_accepted, early_finish, tells_finished, told_twice, never_told, early_acknowledgement, never_timed, still_timed, sending_run, answered_run, asked_run, forgotten, empty_datagram, repeated_number, early_name, injected_run, once_injected, always_opens, never_opens};

/// A read that changes a byte gives no prefix of what was written, and no slice of it.
pub fn changed_byte_shows()
    ensures reads { (read : ReadCall) → read.id ≡ 0
        → bytes_of (reads 0 (until (run_with read changed_byte) Server 8)) ≡ hellp }
    ensures prefix { (read : ReadCall) → read.id ≡ 0 → read.ordered ≡ true
        → OrderedPrefix (run_with read changed_byte) → ⊥ }
    ensures slices { (read : ReadCall) → read.id ≡ 0 → Slices (run_with read changed_byte) → ⊥ }
    ensures machine { (read : ReadCall) → ReadsBy two_chunks read
        → IsNoRun (run_with read changed_byte) }
{}

/// A read that gives bytes twice gives offsets twice, and more than was written.
pub fn repeated_bytes_show()
    ensures once { (read : ReadCall) → read.id ≡ 0 → Once (run_with read repeated_bytes) → ⊥ }
    ensures prefix { (read : ReadCall) → read.id ≡ 0 → read.ordered ≡ true
        → OrderedPrefix (run_with read repeated_bytes) → ⊥ }
    ensures machine { (read : ReadCall) → ReadsBy two_chunks read
        → IsNoRun (run_with read repeated_bytes) }
{}

/// Where a write accepts four of five bytes, and all five are read, one was read that wasn't
/// written.
pub fn unwritten_byte_shows()
    ensures written { (read : ReadCall)
        → written 0 (until (run_with read unwritten_byte) Client 8) ≡ 104 ∷ 101 ∷ 108 ∷ 108 ∷ [] }
    ensures prefix { (read : ReadCall) → read.id ≡ 0 → read.ordered ≡ true
        → OrderedPrefix (run_with read unwritten_byte) → ⊥ }
    ensures machine { (read : ReadCall) → IsNoRun (run_with read unwritten_byte) }
{}

/// An end that is read before the bytes doesn't come after all.
pub fn early_end_shows()
    ensures last { (read : ReadCall) → read.id ≡ 0 → EndAfterAll (run_with read early_end) → ⊥ }
    ensures machine { (read : ReadCall) → ReadsBy two_chunks read
        → IsNoRun (run_with read early_end) }
{}

/// Where a finish is refused, and the end is read, an end was read that nobody wrote.
pub fn unwritten_end_shows()
    ensures last { (read : ReadCall) → read.id ≡ 0 → EndAfterAll (run_with read unwritten_end) → ⊥ }
    ensures machine { (read : ReadCall) → IsNoRun (run_with read unwritten_end) }
{}

/// A read that gives nothing although all came is blocked with bytes.
pub fn blocked_read_shows()
    ensures blocked { (read : ReadCall) → read.id ≡ 0
        → BlockedOnlyWithoutBytes (run_with read blocked_read) → ⊥ }
    ensures machine { (read : ReadCall) → ReadsBy two_chunks read
        → IsNoRun (run_with read blocked_read) }
{}

/// Where nothing is accepted although the stream came, not all is accepted.
pub fn never_accepted_shows()
    ensures accepts { (read : ReadCall) → AcceptsAll (run_with read never_accepted) → ⊥ }
    ensures machine { (read : ReadCall) → IsNoRun (run_with read never_accepted) }
{}

/// A stream that is told to be finished, although nothing of it came, hasn't arrived.
pub fn early_finish_shows()
    ensures finished { FinishedMeansArrived early_finish → ⊥ }
    ensures machine { IsNoRun early_finish }
{}

/// A stream that is told to be finished twice isn't told once.
pub fn told_twice_shows()
    ensures once { FinishedIsTold told_twice → ⊥ }
    ensures machine { IsNoRun told_twice }
{}

/// Nor is one that is never told, although all of it is acknowledged: the datagram that has it all
/// is named by the acknowledgement that came.
pub fn never_told_shows()
    ensures before { (read : ReadCall) → acked_until (answered_run read) Client 7 ≡ [] }
    ensures told { (read : ReadCall)
        → ToldOnce (asked_run read (tells_finished ∷ answers.Event None ∷ [])) Client 0 9 }
    ensures once { (read : ReadCall)
        → FinishedIsTold (asked_run read (answers.Event None ∷ [])) → ⊥ }
    ensures machine { IsNoRun never_told }
{}

/// Where the client takes an acknowledgement of what the server never took, it came too early.
pub fn early_acknowledgement_shows()
    ensures acknowledged { AcknowledgedWereTaken early_acknowledgement → ⊥ }
    ensures machine { IsNoRun early_acknowledgement }
{}

/// The server's acknowledgement names the number that it took, and no other. One that is given
/// before anything came names what wasn't taken.
pub fn early_name_shows()
    ensures given { (read : ReadCall)
        → given_until (answered_run read) Server 7 ≡ from_server 0 ack_payload ∷ [] }
    ensures named { (read : ReadCall)
        → IsNamedIn (frames_given (answered_run read) Server 0 (from_server 0 ack_payload)) 0 }
    ensures taken { (read : ReadCall) (number : ℕ)
        → IsNamedIn (frames_given (answered_run read) Server 0 (from_server 0 ack_payload)) number
        → IsTaken (took (answered_run read) Server 7) number }
    ensures names { NamesWereTaken early_name → ⊥ }
    ensures machine { IsNoRun early_name }
{}

/// The client's datagram opens at the server and not at the client, nor does one whose number lies
/// too far above those that the server took; the machine answers so. An answer that no byte at all
/// opens is wrong, and so is one that takes what opens.
pub fn wrong_openings_show()
    ensures opens { would_open_at injected_run started Server 0 0 hello_datagram ≡ true }
    ensures elsewhere { would_open_at injected_run started Client 1 0 hello_datagram ≡ false }
    ensures far { would_open_at injected_run started Server 0 0
        (client_datagram 300 250 hello_payload) ≡ false }
    ensures honest { IsHonest injected_run }
    ensures run { IsRun injected_run once_injected }
    ensures exactly { OpensExactly injected_run }
    ensures always { OpensExactly always_opens → ⊥ }
    ensures never { OpensExactly never_opens → ⊥ }
    ensures always_machine { IsNoRun always_opens }
    ensures never_machine { IsNoRun never_opens }
{}

/// A client that waits for an acknowledgement with no timer set breaks the clause, and no run comes
/// to it.
pub fn missing_timer_shows()
    ensures timers { LossTimersFollow never_timed → ⊥ }
    ensures machine { (events : List RunEvent) (told : List Answer)
        → NeverLeads events told never_timed }
{}

/// A server that acknowledged all, and whose timer of acknowledgements still runs, breaks the
/// clause, and no run comes to it.
pub fn needless_timer_shows()
    ensures timers { AckTimersFollow still_timed → ⊥ }
    ensures machine { (events : List RunEvent) (told : List Answer)
        → NeverLeads events told still_timed }
{}

/// A client that forgets its datagram, which never came, owes what nobody has.
pub fn forgotten_bytes_show()
    ensures duties { (read : ReadCall) → DutiesAt (sending_run read) 4 forgotten → ⊥ }
    ensures machine { NeverLeads sending_events sending_answers forgotten }
{}

/// The datagram of the worked run is waited for from when it is given until its acknowledgement
/// came, and so is the acknowledgement, which doesn't ask for one, from when it is given on. A
/// client that forgets its datagram doesn't wait for what it has to.
pub fn forgotten_datagram_shows()
    ensures before { (read : ReadCall) → in_flight (answered_run read) Client 3 ≡ [] }
    ensures given { (read : ReadCall)
        → in_flight (answered_run read) Client 7 ≡ (0, carrying ids_again 230 0 5 true) ∷ [] }
    ensures answered { (read : ReadCall) → in_flight (answered_run read) Client 8 ≡ [] }
    ensures silent { (read : ReadCall)
        → in_flight (answered_run read) Server 8 ≡ (0, acknowledging 25000000 0) ∷ [] }
    ensures forgotten { (read : ReadCall) → TracksAt (sending_run read) 4 forgotten → ⊥ }
    ensures machine { NeverLeads sending_events sending_answers forgotten }
{}

/// An empty datagram has no number.
pub fn empty_datagram_shows()
    ensures numbers { (read : ReadCall) → NumbersRise (empty_datagram read) → ⊥ }
{}

/// A datagram that is given twice has its number twice.
pub fn repeated_number_shows()
    ensures numbers { NumbersRise repeated_number → ⊥ }
{}

/// A machine says of a datagram that comes twice that it was taken twice; its bytes say that it is
/// one packet.
pub fn taken_twice_shows()
    ensures took { (read : ReadCall)
        → took (run_with read taken_twice) Server 8
        ≡ record { number = 0; frames = behind_ids (stream hello_frame ∷ []) } ∷ [] }
    ensures machine { (read : ReadCall) → IsNoRun (run_with read taken_twice) }
{}

/// Where bytes are read of a datagram that was said to be dropped, the machine had none to give.
pub fn never_taken_shows()
    ensures reads { (read : ReadCall) → read.id ≡ 0
        → bytes_of (reads 0 (until (run_with read never_taken) Server 8)) ≡ hello }
    ensures machine { (read : ReadCall) → IsNoRun (run_with read never_taken) }
    ensures unread { IsRead server_made.streams 0 true two_chunks (answers.Read (Ok all_nexts)) → ⊥ }
{}

/// No call lacks memory that takes none: no finish and no write that is refused, no write that is
/// blocked a second time or has no byte, no read that is refused, no `next` that gives all of a
/// piece, no poll where nothing waits, and no delivery of a datagram that is dropped.
pub fn needless_lack_shows()
    ensures finish { IsNever once_ended finishes_stream finish_lacks }
    ensures closed_write { IsNever once_ended writes_hello write_lacks }
    ensures blocked_write { IsNever once_blocked writes_hello write_lacks }
    ensures empty_write { IsNever once_opened writes_nothing write_lacks }
    ensures read { (read : ReadCall) → read.id ≡ 0
        → IsNever once_read (reads_stream read) read_lacks }
    ensures next { (read : ReadCall) → ReadsBy (32 ∷ []) read
        → IsNever once_taken (reads_stream read) next_lacks }
    ensures poll { IsNever once_sent asks_datagram poll_lacks }
    ensures deliver { IsNever once_taken delivers (answers.Deliver receives.Failed) }
{}

/// A call at an end that had failed leaves it as it is.
pub fn changed_failure_shows()
    ensures { (next : World)
        → IsStep worked_policies once_failed lets_expire (answers.Timeout (Err (record {}))) next
        → next.client ≡ once_failed.client }
{}
