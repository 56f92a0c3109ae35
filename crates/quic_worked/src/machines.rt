//! More machines with a bug, each by a run that it makes and the reference machine doesn't: a
//! clause of the headline is false of it. Each function does nothing: its contract is the law.
ghost use Rattle.std.specs.Prelude.{◌≡◌, true, List, [], ◌∷◌, None, take};
ghost use Rattle.quic_machine.specs.declared.run.ReadCall.{ReadCall};
ghost use Rattle.quic_machine.specs.declared.run.RunEvent.{RunEvent};
ghost use Rattle.quic_machine.specs.declared.run.Answer.{Answer};
ghost use Rattle.quic_machine.specs.declared.run.Answer.TheVariants as answers;
ghost use Rattle.quic_headline.specs.Duties.{DutiesAt};
ghost use Rattle.quic_worked.specs.Losses.{losing_events, losing_answers, losing_run, never_lost, seldom_lost, early_lost, still_waiting, lost_for_good, all_named, changed_again, wide_name, narrow_name, first_events, first_answers, first_run, above_acked, falling};
ghost use Rattle.quic_headline.specs.InFlight.{TracksAt};
ghost use Rattle.quic_headline.specs.AckFrames.{AcksNameAll};
ghost use Rattle.quic_headline.specs.Headline.{OrderedPrefix, Once, EndAfterAll, BlockedOnlyWithoutBytes, AcceptsAll, FinishedMeansArrived, FinishedIsTold, AcknowledgedWereTaken, NamesWereTaken, OpensExactly, NumbersRise, LossTimersFollow, IsHonest};
ghost use Rattle.quic_headline.specs.Taken.{TakenExactly};
ghost use Rattle.quic_worked.specs.Worked.{ReadsBy, two_chunks, run_with, sending_events, sending_answers};
ghost use Rattle.quic_worked.specs.Broken.{IsNoRun, NeverLeads, sending_run, asked_run, tells_finished};
ghost use Rattle.quic_worked.specs.Machines.{unaccepted, taken_again, cut_frame, hidden_end, skipped_byte, all_dropped, refused_named, long_opens, used_twice, kept_four, writing_run, late_timed, misrecorded, both_run, mistimed, told_early, taken_early, nothing_given, NeverGives, accepted_twice, accepted_last, other_stream};
ghost use Rattle.quic_worked.specs.Reordered.{both_events, both_answers};

/// Receiving: a duplicate is taken again, and its bytes come a second time.
pub fn duplicate_is_taken_again()
    ensures once { (read : ReadCall) → read.id ≡ 0 → Once (run_with read taken_again) → ⊥ }
    ensures taken { (read : ReadCall) → TakenExactly (run_with read taken_again) → ⊥ }
    ensures machine { (read : ReadCall) → IsNoRun (run_with read taken_again) }
{}

/// Receiving: a packet that opens is dropped, so nothing is there to be accepted.
pub fn packet_is_dropped()
    ensures accepts { (read : ReadCall) → AcceptsAll (run_with read all_dropped) → ⊥ }
    ensures machine { (read : ReadCall) → IsNoRun (run_with read all_dropped) }
{}

/// Receiving: a packet at which the end closed counts as taken, and is acknowledged.
pub fn refused_packet_is_named()
    ensures names { (read : ReadCall) → NamesWereTaken (refused_named read) → ⊥ }
    ensures machine { (read : ReadCall) → IsNoRun (refused_named read) }
{}

/// Limits: of a frame no more than four bytes are kept, and the end is told behind them.
pub fn frame_is_cut()
    ensures last { (read : ReadCall) → read.id ≡ 0 → EndAfterAll (run_with read cut_frame) → ⊥ }
    ensures machine { (read : ReadCall) → ReadsBy two_chunks read
        → IsNoRun (run_with read cut_frame) }
{}

/// Limits: a stream accepts five bytes and keeps four.
pub fn buffer_keeps_four()
    ensures duties { (read : ReadCall) → DutiesAt (writing_run read) 2 kept_four → ⊥ }
    ensures machine { NeverLeads (take 2 sending_events) (take 2 sending_answers) kept_four }
{}

/// Limits: bytes of more than 1200 are said to open, whatever they are.
pub fn long_bytes_open()
    ensures exactly { OpensExactly long_opens → ⊥ }
    ensures machine { IsNoRun long_opens }
{}

/// Application calls: the end of a stream is never told, though it came and all was read.
pub fn end_is_hidden()
    ensures blocked { (read : ReadCall) → read.id ≡ 0
        → BlockedOnlyWithoutBytes (run_with read hidden_end) → ⊥ }
    ensures machine { (read : ReadCall) → ReadsBy two_chunks read
        → IsNoRun (run_with read hidden_end) }
{}

/// Application calls: a read leaves out the first byte.
pub fn byte_is_skipped()
    ensures prefix { (read : ReadCall) → read.id ≡ 0 → read.ordered ≡ true
        → OrderedPrefix (run_with read skipped_byte) → ⊥ }
    ensures machine { (read : ReadCall) → ReadsBy two_chunks read
        → IsNoRun (run_with read skipped_byte) }
{}

/// Numbers: a datagram goes a second time under its number.
pub fn number_is_used_twice()
    ensures numbers { (read : ReadCall) → NumbersRise (used_twice read) → ⊥ }
    ensures machine { (read : ReadCall) → IsNoRun (used_twice read) }
{}

/// Timers: the loss timer still runs once all is acknowledged.
pub fn loss_timer_still_runs()
    ensures timers { LossTimersFollow late_timed → ⊥ }
    ensures machine { (events : List RunEvent) (told : List Answer)
        → NeverLeads events told late_timed }
{}

/// Sending: what is kept of each of two datagrams is what the other carried.
pub fn records_are_swapped()
    ensures tracks { TracksAt both_run 5 misrecorded → ⊥ }
    ensures machine { NeverLeads both_events both_answers misrecorded }
{}

/// Timers: a datagram counts as sent later than it was.
pub fn moment_is_late()
    ensures tracks { (read : ReadCall) → TracksAt (sending_run read) 4 mistimed → ⊥ }
    ensures machine { NeverLeads sending_events sending_answers mistimed }
{}

/// Sending: an empty datagram goes.
pub fn empty_datagram_goes()
    ensures numbers { (read : ReadCall) → NumbersRise (nothing_given read) → ⊥ }
    ensures machine { (read : ReadCall) → NeverGives (nothing_given read) }
{}

/// Sending: a stream is told to be finished once its bytes and its end went.
pub fn sent_stream_is_told()
    ensures arrived { (read : ReadCall) → FinishedMeansArrived (told_early read) → ⊥ }
    ensures machine { (read : ReadCall) → IsNoRun (told_early read) }
{}

/// Acknowledging: what the peer gave is acknowledged before it came.
pub fn coming_packet_is_named()
    ensures acknowledged { (read : ReadCall) → AcknowledgedWereTaken (taken_early read) → ⊥ }
    ensures machine { (read : ReadCall) → IsNoRun (taken_early read) }
{}

/// Acknowledging: an ACK frame names one number more than was taken.
pub fn one_more_is_named()
    ensures names { (read : ReadCall) → NamesWereTaken (wide_name read) → ⊥ }
    ensures machine { (read : ReadCall) → NeverGives (wide_name read) }
{}

/// Acknowledging: an ACK frame leaves out the only number that was taken.
pub fn taken_packet_is_left_out()
    ensures names { (read : ReadCall) → AcksNameAll (narrow_name read) → ⊥ }
    ensures machine { (read : ReadCall) → NeverGives (narrow_name read) }
{}

/// Taking an ACK: the end of a stream is never booked, so it is never told to be finished.
pub fn acknowledged_end_is_lost()
    ensures told { (read : ReadCall)
        → FinishedIsTold (asked_run read (answers.Event None ∷ [])) → ⊥ }
    ensures machine { (read : ReadCall) → IsNoRun (asked_run read (answers.Event None ∷ [])) }
{}

/// Taking an ACK: it counts for what lies above the greatest number that it names.
pub fn all_above_are_acknowledged()
    ensures tracks { TracksAt first_run 10 above_acked → ⊥ }
    ensures machine { NeverLeads first_events first_answers above_acked }
{}

/// Numbers: a datagram has a number below that of the one before.
pub fn numbers_fall()
    ensures numbers { NumbersRise falling → ⊥ }
    ensures machine { NeverGives falling }
{}

/// Application calls: a stream that came is never accepted.
pub fn stream_is_never_accepted()
    ensures accepts { (read : ReadCall) → AcceptsAll (run_with read unaccepted) → ⊥ }
    ensures machine { (read : ReadCall) → IsNoRun (run_with read unaccepted) }
{}

/// Application calls: a stream is told to be finished twice.
pub fn stream_is_told_twice()
    ensures once { (read : ReadCall)
        → FinishedIsTold (asked_run read (tells_finished ∷ tells_finished ∷ [])) → ⊥ }
    ensures machine { (read : ReadCall)
        → IsNoRun (asked_run read (tells_finished ∷ tells_finished ∷ [])) }
{}

/// Application calls: a stream is accepted twice, and so another never.
pub fn stream_is_accepted_twice()
    ensures accepts { AcceptsAll accepted_twice → ⊥ }
    ensures machine { IsNoRun accepted_twice }
{}

/// Application calls: of two streams the first is never accepted.
pub fn stream_is_skipped()
    ensures accepts { AcceptsAll accepted_last → ⊥ }
    ensures machine { IsNoRun accepted_last }
{}

/// Application calls: a read of one stream gives the bytes of another.
pub fn streams_are_mixed()
    ensures prefix { (read : ReadCall) → read.id ≡ 0 → read.ordered ≡ true
        → OrderedPrefix (other_stream read) → ⊥ }
    ensures machine { (read : ReadCall) → ReadsBy (32 ∷ []) read → IsNoRun (other_stream read) }
{}

/// Loss: what was lost goes again with another last byte.
pub fn lost_bytes_are_changed()
    ensures prefix { (read : ReadCall) → read.id ≡ 0 → read.ordered ≡ true
        → OrderedPrefix (changed_again read) → ⊥ }
    ensures machine { (read : ReadCall) → ReadsBy (32 ∷ []) read → IsNoRun (changed_again read) }
{}

/// Loss: nothing is ever lost, however far above it an ACK frame names.
pub fn nothing_is_lost()
    ensures tracks { TracksAt (losing_run [] []) 16 never_lost → ⊥ }
    ensures machine { NeverLeads losing_events losing_answers never_lost }
{}

/// Loss: no number above 0 is lost, as where four numbers above one are needed.
pub fn few_are_lost()
    ensures tracks { TracksAt (losing_run [] []) 16 seldom_lost → ⊥ }
    ensures machine { NeverLeads losing_events losing_answers seldom_lost }
{}

/// Loss: two numbers above one are enough to lose it.
pub fn many_are_lost()
    ensures tracks { TracksAt (losing_run [] []) 16 early_lost → ⊥ }
    ensures machine { NeverLeads losing_events losing_answers early_lost }
{}

/// Loss: what was lost is dropped, and doesn't go again.
pub fn lost_bytes_are_dropped()
    ensures duties { DutiesAt (losing_run [] []) 16 lost_for_good → ⊥ }
    ensures machine { NeverLeads losing_events losing_answers lost_for_good }
{}

/// Taking an ACK: the datagram that it names is waited for still.
pub fn named_datagram_is_kept()
    ensures tracks { TracksAt (losing_run [] []) 16 still_waiting → ⊥ }
    ensures machine { NeverLeads losing_events losing_answers still_waiting }
{}

/// Taking an ACK: it counts for all numbers below those that it names.
pub fn all_below_are_acknowledged()
    ensures arrived { FinishedMeansArrived all_named → ⊥ }
    ensures machine { IsNoRun all_named }
{}

/// These runs meet the premises of the headline, so it isn't for want of those that it is false of
/// them.
pub fn premises_hold()
    ensures unaccepted { (read : ReadCall) → IsHonest (run_with read unaccepted) }
    ensures told_twice { (read : ReadCall)
        → IsHonest (asked_run read (tells_finished ∷ tells_finished ∷ [])) }
    ensures taken_again { (read : ReadCall) → read.id ≡ 0 → IsHonest (run_with read taken_again) }
    ensures all_dropped { (read : ReadCall) → read.id ≡ 0 → IsHonest (run_with read all_dropped) }
    ensures refused_named { (read : ReadCall) → IsHonest (refused_named read) }
    ensures cut_frame { (read : ReadCall) → read.id ≡ 0 → IsHonest (run_with read cut_frame) }
    ensures hidden_end { (read : ReadCall) → read.id ≡ 0 → IsHonest (run_with read hidden_end) }
    ensures skipped_byte { (read : ReadCall) → read.id ≡ 0 → IsHonest (run_with read skipped_byte) }
    ensures long_opens { IsHonest (long_opens) }
    ensures used_twice { (read : ReadCall) → IsHonest (used_twice read) }
    ensures told_early { (read : ReadCall) → IsHonest (told_early read) }
    ensures taken_early { (read : ReadCall) → IsHonest (taken_early read) }
    ensures nothing_given { (read : ReadCall) → IsHonest (nothing_given read) }
    ensures wide_name { (read : ReadCall) → IsHonest (wide_name read) }
    ensures narrow_name { (read : ReadCall) → IsHonest (narrow_name read) }
    ensures silent { (read : ReadCall) → IsHonest (asked_run read (answers.Event None ∷ [])) }
    ensures falling { IsHonest (falling) }
    ensures all_named { IsHonest (all_named) }
    ensures changed_again { (read : ReadCall) → read.id ≡ 0 → IsHonest (changed_again read) }
    ensures accepted_twice { IsHonest (accepted_twice) }
    ensures accepted_last { IsHonest (accepted_last) }
    ensures other_stream { (read : ReadCall) → read.id ≡ 0 → IsHonest (other_stream read) }
{}
