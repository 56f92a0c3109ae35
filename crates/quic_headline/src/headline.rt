//! What every run of two honest ends keeps. Each function does nothing: its contract is the law, of
//! every run of the reference machine whose ends, keys and applications meet the premises.
ghost use Rattle.std.specs.Prelude.{ℕ, List};
ghost use Rattle.quic_machine.specs.declared.run.RunEvent.{RunEvent};
ghost use Rattle.quic_machine.specs.declared.run.Call.{Call};
ghost use Rattle.quic_machine.specs.declared.run.Answer.{Answer};
ghost use Rattle.quic_machine.specs.Policy.{Policy};
ghost use Rattle.quic_machine.specs.declared.run.View.{View};
ghost use Rattle.quic_machine.specs.Machine.{World, Policies, Follows};
ghost use Rattle.quic_headline.specs.Runs.{Run};
ghost use Rattle.quic_headline.specs.Promises.{Promises};
ghost use Rattle.quic_headline.specs.Isolated.{Isolated, IsolatedByAnswers, IsolatedByLists};
ghost use Rattle.quic_headline.specs.TwoRuns.{RunsAgree, IdleRunsAgree};
ghost use Rattle.quic_headline.specs.Alone.{Lone, IsNew, FollowsAlone, BytesCame, MessagesCame};
ghost use Rattle.quic_headline.specs.Keeping.{StaysWithin};
ghost use Rattle.quic_headline.specs.FewEvents.{TellsFew};
ghost use Rattle.quic_headline.specs.Nonces.{SealsOnce};
ghost use Rattle.quic_headline.specs.LoneAcks.{AcksOnlyTaken};
ghost use Rattle.quic_headline.specs.LoneMessages.{MessagesFit};
ghost use Rattle.quic_headline.specs.Amplification.{StaysThreefold};
ghost use Rattle.quic_headline.specs.LoneCloses.{ClosedForCause, DrainedForCause};
ghost use Rattle.quic_headline.specs.FewCloses.{IsClosing, CloseFew};
ghost use Rattle.quic_machine.specs.Start.{AreStarted};
ghost use Rattle.quic_headline.specs.Headline.{IsHonest, IsRun, LossTimersFollow, AckTimersFollow};

/// At an open end the loss timer is set exactly while a datagram that asks is waited for (RFC
/// 9002, section 6.2.1), in each run of two ends that were made for one another, whatever their
/// keys. It holds where memory lacks too.
pub fn loss_timers_follow()
    ensures { (k : Policies) (w end : World) (events : List RunEvent) (answers : List Answer) (views : List View) → AreStarted w → Follows k w events answers views end → LossTimersFollow end }
{}

/// At an open end the timer of acknowledgements is set only where a packet that asks came since
/// the last acknowledgement went (RFC 9000, section 13.2.1), in each run that began so, and new
/// ends begin so. It wants no premise, and holds where memory lacks too.
pub fn ack_timers_follow()
    ensures runs { (k : Policies) (w end : World) (events : List RunEvent) (answers : List Answer) (views : List View) → Follows k w events answers views end → AckTimersFollow w → AckTimersFollow end }
    ensures starts { (w : World) → AreStarted w → AckTimersFollow w }
{}

/// Of any calls at one end, whatever is handed to it: each byte that a read gives stood at its
/// offset in a STREAM frame of a datagram that was handed in before and opened. So a peer that has
/// the keys, and lies, gives no byte but those that it sent there.
pub fn bytes_come()
    ensures { (p : Policy) (theirs : List (List ℕ)) (x left : Lone) (calls : List Call) (told : List Answer) → IsNew x.end
        → FollowsAlone p theirs x calls told left
        → BytesCame p theirs calls told }
{}

/// And each message that is received stood in a DATAGRAM frame of such a datagram.
pub fn messages_come()
    ensures { (p : Policy) (theirs : List (List ℕ)) (x left : Lone) (calls : List Call) (told : List Answer) → IsNew x.end
        → FollowsAlone p theirs x calls told left
        → MessagesCame p theirs calls told }
{}

/// An end that was made with these settings keeps no more of what was handed to it than it
/// advertised, or than a number of its own lets it, as long as it doesn't fail: of each stream, and
/// of all together, what lies within the window past what was read; while it is open, so many runs
/// of a stream as its window lets (RFC 9000, section 21.7); streams that the peer opened, as many
/// past those that are done as it may have open at once (sections 4.1 and 4.6); messages within the
/// receive buffer (RFC 9221, section 3); 64 runs of numbers to acknowledge (RFC 9000, section
/// 13.2.3); and seven connection ids of the peer beside the one in use (section 5.1.1).
pub fn keeps_within()
    ensures { (p : Policy) (theirs : List (List ℕ)) (x left : Lone) (calls : List Call) (told : List Answer) → StaysWithin p theirs x calls told left }
{}

/// Whatever datagrams are handed to an end, its application is told something no more often than
/// bytes came in those that it took, or at which it closed, and writes were blocked, as long as it
/// doesn't fail; and beside these of each stream once at most that it is finished, and once at most
/// that the end is lost (RFC 9000, section 2.4). It wants that header keys show as many bytes as
/// stand there, and that what packet keys open has no more than there were.
pub fn tells_few()
    ensures { (p : Policy) (theirs : List (List ℕ)) (x left : Lone) (calls : List Call) (told : List Answer) → TellsFew p theirs x calls told left }
{}

/// Whatever datagrams are handed to an end, and where memory lacks too, it seals each datagram that
/// it gives under a packet number above those before, and no more of them than its key may: no
/// nonce is used twice (RFC 9000, section 12.3; RFC 9001, sections 5.3 and 6.6). It wants nothing
/// of the keys.
pub fn seals_once()
    ensures { (p : Policy) (theirs : List (List ℕ)) (x left : Lone) (calls : List Call) (told : List Answer) (given : List (List ℕ)) → SealsOnce p theirs x calls told given left }
{}

/// Whatever datagrams are handed to an end, and where memory lacks too, the ACK frames that a
/// reader finds in each datagram that it gives name only packets that it took before: each number
/// is that to which a delivery opened that was answered so (RFC 9000, section 13.1). It wants an
/// end as it was made by settings in range, that codes are codes, and nothing of the keys.
pub fn acks_only_taken()
    ensures { (p : Policy) (theirs : List (List ℕ)) (x left : Lone) (calls : List Call) (told : List Answer) (given : List (List ℕ)) → AcksOnlyTaken p theirs x calls told given left }
{}

/// Whatever datagrams are handed to an end, and where memory lacks too, each message of a packet
/// that it takes has room in its receive buffer, and none comes where it has no such buffer: but
/// for what stands behind a close, which isn't read (RFC 9221, section 3).
pub fn messages_fit()
    ensures { (p : Policy) (theirs : List (List ℕ)) (x left : Lone) (calls : List Call) (told : List Answer) → MessagesFit p theirs x calls told left }
{}

/// While an end shows the address of its peer as one that isn't validated, it gave there no more
/// than three times the bytes that were handed to it from there, since it takes its peer to be
/// there, whatever these are, as long as it doesn't fail (RFC 9000, section 8.1). It wants that
/// header keys hide as many bytes as stand there, and that packet keys add a tag of 16 bytes.
pub fn stays_threefold()
    ensures { (p : Policy) (theirs : List (List ℕ)) (x left : Lone) (calls : List Call) (told : List Answer) (given : List (List ℕ)) → StaysThreefold p theirs x calls told given left }
{}

/// Whatever datagrams are handed to an end, one that closes or is drained has a reason, and one of
/// the calls closed or drained it for that while it was open: the application's close, a close of
/// the peer in a datagram that opened, a packet that was refused, the idle timer, or a limit of
/// keys or of numbers that was reached (RFC 9000, section 10; RFC 9001, section 6.6). It holds
/// where memory lacks too.
pub fn closed_for_cause()
    ensures { (p : Policy) (theirs : List (List ℕ)) (x left : Lone) (calls : List Call) (told : List Answer) → IsNew x.end
        → FollowsAlone p theirs x calls told left
        → ClosedForCause p theirs x calls told left }
{}

/// And it is drained only behind a close of the peer in a datagram that opened, or a timeout at
/// which its idle timer had expired while it was open, or its Close timer while it was closing
/// (RFC 9000, sections 10.1 and 10.2).
pub fn drained_for_cause()
    ensures { (p : Policy) (theirs : List (List ℕ)) (x left : Lone) (calls : List Call) (told : List Answer) → IsNew x.end
        → FollowsAlone p theirs x calls told left
        → DrainedForCause p theirs x calls told left }
{}

/// Calls at an end that is closing give no more datagrams than came by them that opened, under
/// numbers that didn't come before, and one: whatever is handed to it, it gives its close once, and
/// once more for each of these at most (RFC 9000, section 10.2.1). It holds where memory lacks too.
pub fn closes_few()
    ensures { (p : Policy) (theirs : List (List ℕ)) (x left : Lone) (calls : List Call) (told : List Answer) → IsClosing x.end
        → FollowsAlone p theirs x calls told left
        → CloseFew calls told }
{}

/// A run less any choice of its idle events, which are injections and deliveries that their end
/// dropped while it wasn't closing, is a run again: the calls that stay are answered as they were,
/// the views behind them are the same, both ends gave the same datagrams, and the same ends are
/// left, whatever they have counted. So datagrams that don't open, and repeated ones, change
/// nothing else (RFC 9000, sections 5.2, 12.2 and 12.3), while keys last: up to a limit each
/// packet that doesn't open counts, and no answer says that it was reached (RFC 9001, section
/// 6.6). It wants that the addresses of both peers are validated from the start: else what comes
/// says how much may go, also where it is dropped. It holds where memory lacks too.
pub fn isolated()
    ensures { (r : Run) (end : World) → IsRun r end → Isolated r end }
{}

/// So it is of all injections, and all deliveries that were dropped since they didn't open, for
/// their header, the key or the key phase, or came before.
pub fn isolated_by_answers()
    ensures { (r : Run) (end : World) → IsRun r end → IsolatedByAnswers r end }
{}

/// So it is of all injections, and all deliveries of datagrams that by the run's lists don't open
/// at their end, or came before: in each run of two ends that were made for one another, whatever
/// their keys, at each place up to which memory served.
pub fn isolated_by_lists()
    ensures { (r : Run) (end : World) → AreStarted r.start → IsRun r end → IsolatedByLists r }
{}

/// Two runs that began with the same ends, keys and random sources, over the same events, of which
/// as many were answered, come to the same answers, views, datagrams and ends, where no call lacked
/// memory in either.
pub fn runs_agree()
    ensures { (r : Run) (end : World) → IsRun r end → RunsAgree r end }
{}

/// So do a run and any that began with the same ends, over its events less any choice of idle ones:
/// what is computed without them is what was computed with them, while keys last, addresses are
/// validated, and no call lacked memory in either (RFC 9000, sections 5.2, 12.2 and 12.3).
pub fn idle_runs_agree()
    ensures { (r : Run) (end : World) → IsRun r end → IdleRunsAgree r end }
{}

/// A run of two honest ends keeps all that is promised of one: each law that stands on the honesty
/// of both.
pub fn honest_runs_keep_promises()
    ensures { (r : Run) (end : World) → IsHonest r → IsRun r end → Promises r }
{}
