//! The definitions computed on a run in which a limit is lost and goes again, and machines that
//! forget one. Each function does nothing: its contract is the law.
ghost use Rattle.std.specs.Prelude.{◌≡◌, ℕ, Bool, take, true};
ghost use Rattle.quic_wire_core.specs.declared.stream_id.Side.TheVariants.{Client, Server};
ghost use Rattle.quic_wire_core.specs.declared.stream_id.Dir.TheVariants.{Uni};
ghost use Rattle.quic_machine.specs.declared.run.ReadCall.{ReadCall};
ghost use Rattle.quic_headline.specs.Runs.{until};
ghost use Rattle.quic_headline.specs.Observer.{took, sents_until};
ghost use Rattle.quic_headline.specs.Headline.{IsRun};
ghost use Rattle.quic_headline.specs.Grown.{DataHasGrown, CountHasGrown, GrownLimitsWaitAt};
ghost use Rattle.quic_headline.specs.InUse.{in_use};
ghost use Rattle.quic_headline.specs.Duties.{AllData, Limit, IsOwed, Waits, IsUnderWay, HasCome, DutiesAt};
ghost use Rattle.quic_worked.specs.Credit.{ReadsEight, credit_read, credit_events, credit_until, count_read};
ghost use Rattle.quic_worked.specs.Raised.{raised_run, limit_used, limit_lost, limit_again, losing_limit, losing_told, raised_events, raised_told, NeverComes, never_noted, limit_forgotten, limit_low};

/// With a window of 8 bytes, once 8 are read, the limit on all bytes grew, and MAX_DATA waits. Its
/// datagram is lost; then the limit of 16 bytes waits again, goes again, and comes (RFC 9000,
/// sections 4.1 and 13.3).
pub fn lost_limit_goes_again()
    ensures run { (read : ReadCall) → ReadsEight read → IsRun (raised_run read) limit_used }
    ensures grew { DataHasGrown credit_read.server.streams.receiving }
    ensures noted { credit_read.server.waiting.frames.max_data ≡ true }
    ensures waits { Waits limit_lost.server (Limit AllData 16) }
    ensures flies { (read : ReadCall) → IsUnderWay (sents_until (raised_run read) Server 18)
        limit_again.server.tracking.packets (Limit AllData 16) }
    ensures came { (read : ReadCall) → HasCome (took (raised_run read) Client 19)
        (until (raised_run read) Server 19) (Limit AllData 16) }
{}

/// Once the one one-way stream that may be open is done, the count of such streams grew, and
/// MAX_STREAMS waits (section 4.6).
pub fn grown_count_waits()
    ensures grew { CountHasGrown count_read.server.streams.opening Uni }
    ensures noted { count_read.server.waiting.frames.max_stream_id.uni ≡ true }
{}

/// A server that isn't to say that more may come, though all was read, breaks the clause, and no
/// run comes to it.
pub fn unnoted_limit_shows()
    ensures grown { (read : ReadCall)
        → GrownLimitsWaitAt (until (raised_run read) Server 6) never_noted.server → ⊥ }
    ensures machine { (read : ReadCall) → ReadsEight read
        → NeverComes (take 6 (credit_events read)) credit_until never_noted }
{}

/// A server that said one byte less than may come, and isn't to say more, breaks the clause, and no
/// run comes to it.
pub fn low_limit_shows()
    ensures grown { (read : ReadCall)
        → GrownLimitsWaitAt (until (raised_run read) Server 7) limit_low.server → ⊥ }
    ensures machine { (read : ReadCall) → ReadsEight read
        → NeverComes (take 7 (raised_events read)) (take 7 raised_told) limit_low }
{}

/// A server that doesn't say its limit again, though the datagram that said it is lost, leaves a
/// limit that is nowhere, and no run comes to it.
pub fn forgotten_limit_shows()
    ensures owed { (read : ReadCall) (stays : ℕ → Bool)
        → IsOwed (in_use (raised_run read) stays Server 17)
        limit_forgotten.server (sents_until (raised_run read) Server 17)
        (until (raised_run read) Server 17) (Limit AllData 16) }
    ensures duties { (read : ReadCall) → DutiesAt (raised_run read) 17 limit_forgotten → ⊥ }
    ensures machine { (read : ReadCall) → ReadsEight read
        → NeverComes (losing_limit read) losing_told limit_forgotten }
{}
