//! More machines with a fault, each by a run that it makes and the reference machine doesn't: a
//! clause of the headline is false of it. Each function does nothing: its contract is the law.
ghost use Rattle.std.specs.Prelude.{◌≡◌, ◌<◌, length, Some};
ghost use Rattle.quic_wire_core.specs.TransportError.{plain_error};
ghost use Rattle.quic_wire_core.specs.declared.stream_id.Side.TheVariants.{Client, Server};
ghost use Rattle.quic_machine.specs.declared.answers.Received.TheVariants.{Closed};
ghost use Rattle.quic_machine.specs.declared.run.ReadCall.{ReadCall};
ghost use Rattle.quic_headline.specs.Runs.{In, until, accepts, WasNamed};
ghost use Rattle.quic_headline.specs.Observer.{took};
ghost use Rattle.quic_headline.specs.Amounts.{WritesTakeWhatLimitsAllow};
ghost use Rattle.quic_headline.specs.Causes.{NoBlame, TakenOrTooMany};
ghost use Rattle.quic_headline.specs.Taken.{TakenExactly};
ghost use Rattle.quic_headline.specs.Moments.{LossMoments, LossTimerQuiet, AllNamed};
ghost use Rattle.quic_headline.specs.Polls.{GaveNothing, IsFull, IsHeldBack};
ghost use Rattle.quic_headline.specs.Sizes.{DatagramsAreSized};
ghost use Rattle.quic_headline.specs.Headline.{AcceptsAll, NewestOpens, NumbersRise, opened_there, IsHonest, IsRun};
ghost use Rattle.quic_worked.specs.Worked.{ReadsBy, two_chunks, started, once_ended, at_server, hello_datagram, hello_opening, run_with, worked_run, told_ids};
ghost use Rattle.quic_worked.specs.Acknowledged.{client_datagram};
ghost use Rattle.quic_worked.specs.Broken.{IsNoRun};
ghost use Rattle.quic_worked.specs.Machines.{NeverGives, all_dropped};
ghost use Rattle.quic_worked.specs.Limited.{limited_start};
ghost use Rattle.quic_worked.specs.Losses.{once_acked};
ghost use Rattle.quic_worked.specs.Messages.{ping_message, once_messaged};
ghost use Rattle.quic_worked.specs.Held.{full_view};
ghost use Rattle.quic_worked.specs.Timed.{due_at, NeverShows};
ghost use Rattle.quic_worked.specs.Faults.{both_open, own_payload, own_limits, ever_blocked, opened_instead, accepted_run, nothing_to_accept, below_dropped, noted_early, clock_moved, quiet_run, told_run, nothing_to_tell, never_quiet, cut_short, silent_message, message_held, message_waits, answered_to, too_long};

/// Limits: those in an end's own parameters count for its peer's. So a write takes more than the
/// peer lets come, which closes for it.
pub fn limits_are_own()
    ensures writes { WritesTakeWhatLimitsAllow own_limits → ⊥ }
    ensures blame { NoBlame own_limits → ⊥ }
    ensures closes { at_server limited_start.server (client_datagram 0 0 (told_ids own_payload))
        ≡ Closed (plain_error 3) }
    ensures premises { IsHonest own_limits }
    ensures machine { IsNoRun own_limits }
{}

/// Limits: each write is blocked, though nothing was written.
pub fn write_is_blocked()
    ensures writes { WritesTakeWhatLimitsAllow ever_blocked → ⊥ }
    ensures premises { IsHonest ever_blocked }
    ensures machine { IsNoRun ever_blocked }
{}

/// Application calls: a stream is opened where one is to be accepted.
pub fn stream_is_opened_instead()
    ensures accepts { AcceptsAll opened_instead → ⊥ }
    ensures premises { IsHonest opened_instead }
    ensures machine { IsNoRun opened_instead }
{}

/// Where nothing is accepted though a stream came, that one was accepted before.
pub fn all_is_accepted()
    ensures run { (read : ReadCall) → ReadsBy two_chunks read
        → IsRun (accepted_run read) nothing_to_accept }
    ensures honest { (read : ReadCall) → read.id ≡ 0 → IsHonest (accepted_run read) }
    ensures named { (read : ReadCall) → WasNamed (took (accepted_run read) Server 8) 0 }
    ensures accepted { (read : ReadCall) → In 0 (accepts (until (accepted_run read) Server 8)) }
{}

/// Receiving: no packet opens, so that each is dropped.
pub fn packet_never_opens()
    ensures { (read : ReadCall) → TakenOrTooMany (run_with read all_dropped) → ⊥ }
{}

/// Receiving: a packet is dropped whose number lies below the greatest that came.
pub fn lower_number_is_dropped()
    ensures taken { TakenOrTooMany below_dropped → ⊥ }
    ensures again { TakenExactly below_dropped → ⊥ }
    ensures premises { IsHonest below_dropped }
    ensures machine { IsNoRun below_dropped }
{}

/// Receiving: a number counts as one that came before its packet has opened.
pub fn unopened_number_is_noted()
    ensures taken { TakenOrTooMany noted_early → ⊥ }
    ensures again { TakenExactly noted_early → ⊥ }
    ensures premises { IsHonest noted_early }
    ensures machine { IsNoRun noted_early }
{}

/// Timers: the moment of bytes that are dropped is taken over, and the loss timer is set behind it.
pub fn dropped_bytes_move_the_clock()
    ensures due { due_at clock_moved Client 5 ≡ Some 1024000000 }
    ensures moments { LossMoments clock_moved → ⊥ }
    ensures premises { IsHonest clock_moved }
    ensures machine { NeverShows clock_moved }
{}

/// Once all that the client gave and that asks is named, its loss timer isn't set (RFC 9002,
/// section
/// 6.2.1).
pub fn all_is_named()
    ensures named { (read : ReadCall) → AllNamed (quiet_run read) Client 8 }
    ensures honest { (read : ReadCall) → IsHonest (quiet_run read) }
    ensures run { (read : ReadCall) → IsRun (quiet_run read) once_acked }
{}

/// Then the application is told that the stream is finished, and nothing more.
pub fn finish_is_told()
    ensures honest { (read : ReadCall) → IsHonest (told_run read) }
    ensures run { (read : ReadCall) → IsRun (told_run read) nothing_to_tell }
{}

/// Timers: the loss timer stays set once all was named.
pub fn loss_timer_stays()
    ensures quiet { (read : ReadCall) → LossTimerQuiet (never_quiet read) → ⊥ }
    ensures premises { (read : ReadCall) → IsHonest (never_quiet read) }
    ensures machine { (read : ReadCall) → NeverShows (never_quiet read) }
{}

/// The client's datagram opens at the server that took nothing as it was sent.
pub fn first_number_is_told()
    ensures { (read : ReadCall)
        → opened_there (worked_run read) Client 4 hello_datagram ≡ Some hello_opening }
{}

/// Numbers: of a number so few bytes go that the peer tells another.
pub fn number_is_cut_short()
    ensures opens { NewestOpens cut_short → ⊥ }
    ensures numbers { NumbersRise cut_short → ⊥ }
    ensures premises { IsHonest cut_short }
    ensures machine { NeverGives cut_short }
{}

/// A message waits, and is held back, where the window has no room for one more datagram.
pub fn message_is_held_back()
    ensures honest { IsHonest message_waits }
    ensures run { IsRun message_waits message_held }
    ensures gave { GaveNothing message_waits Client 4 0 full_view }
    ensures waits { In ping_message message_held.client.messages.queues.outgoing }
    ensures full { IsFull message_waits Client 5 full_view }
{}

/// Sending: a poll gives nothing though a message waits, and neither window nor pacer hold it back.
pub fn message_is_kept()
    ensures waits { In ping_message (once_messaged 1).client.messages.queues.outgoing }
    ensures gave { GaveNothing silent_message Client 1 0 both_open }
    ensures held { IsHeldBack silent_message Client 2 both_open → ⊥ }
    ensures premises { IsHonest silent_message }
    ensures machine { IsNoRun silent_message }
{}

/// Sending: a datagram that isn't an MTU probe has more bytes than the current size.
pub fn datagram_is_too_long()
    ensures sized { DatagramsAreSized too_long → ⊥ }
    ensures premises { IsHonest too_long }
    ensures machine { IsNoRun too_long }
{}

/// Where fewer answers are given than events, the run is one that was cut short, and no clause but
/// `whole` refuses it: one that makes no calls, and one that leaves out the last answer.
pub fn answers_are_fewer()
    ensures none { IsRun (answered_to 0) started }
    ensures fewer { IsRun (answered_to 3) once_ended }
    ensures no_answer { length (answered_to 0).answers < length (answered_to 0).events }
    ensures last_lacks { length (answered_to 3).answers < length (answered_to 3).events }
{}
