//! A run in which both ends come to rest, and what they sent beside the bytes of streams has
//! arrived, computed; and machines that rest though it hasn't. Each function does nothing: its
//! contract is the law.
ghost use Rattle.std.specs.Prelude.{◌≡◌, ℕ, Bool, true, length, Some};
ghost use Rattle.quic_wire_core.specs.declared.stream_id.Side.TheVariants.{Client, Server};
ghost use Rattle.quic_wire.specs.Value.{max_data};
ghost use Rattle.quic_machine.specs.declared.run.ReadCall.{ReadCall};
ghost use Rattle.quic_headline.specs.Runs.{until, written, reset};
ghost use Rattle.quic_headline.specs.Observer.{took, sents_until};
ghost use Rattle.quic_headline.specs.Headline.{IsHonest, IsRun};
ghost use Rattle.quic_headline.specs.Amounts.{was_stopped};
ghost use Rattle.quic_headline.specs.InUse.{in_use, TellsStays};
ghost use Rattle.quic_headline.specs.Duties.{AllData, StreamData, limit_frame, WasGiven, LimitHasArrived, WasRetired};
ghost use Rattle.quic_headline.specs.Unread.{stopped};
ghost use Rattle.quic_headline.specs.Rest.{Rests, HaveRoom};
ghost use Rattle.quic_headline.specs.ControlArrived.{ResetArrivedAs, ResetsAtRest, StopsAtRest, RetirementsAtRest, LimitsAtRest, StreamLimitsAtRest};
ghost use Rattle.quic_worked.specs.Broken.{IsNoRun};
ghost use Rattle.quic_worked.specs.Credit.{ReadsEight};
ghost use Rattle.quic_worked.specs.Blocked.{small_start};
ghost use Rattle.quic_worked.specs.Arrived.{arrived_run, once_arrived, reset_forgotten, stop_forgotten, retirement_forgotten};
ghost use Rattle.quic_worked.specs.LimitArrived.{word_start, word_run, word_end, limit_dropped};

/// A client that reset a stream, and retired the id of its peer's with which it began, rests, and
/// so does a server that stopped another stream, and said how many bytes may come. All four have
/// arrived: the reset with its code, and the three bytes that were written for its final size.
pub fn controls_arrive()
    ensures honest { IsHonest arrived_run }
    ensures run { IsRun arrived_run (once_arrived 21) }
    ensures room { HaveRoom (small_start 8) }
    ensures client { Rests arrived_run Client 21 }
    ensures server { Rests arrived_run Server 21 }
    ensures was_reset { reset 0 (until arrived_run Client 21) ≡ Some 7 }
    ensures wrote { length (written 0 (until arrived_run Client 21)) ≡ 3 }
    ensures reset { ResetArrivedAs (took arrived_run Server 21) 0 7 3 }
    ensures stays { (stays : ℕ → Bool) → TellsStays arrived_run Client stays }
    ensures used { (stays : ℕ → Bool) → in_use arrived_run stays Client 21 ≡ 1 }
    ensures retired { WasRetired (took arrived_run Server 21) 0 }
    ensures was_stopped { stopped 2 (until arrived_run Server 21) ≡ true }
    ensures stop { was_stopped 2 (took arrived_run Client 21) ≡ true }
    ensures given { WasGiven (sents_until arrived_run Server 21) (max_data 16) }
    ensures limit { LimitHasArrived (took arrived_run Client 21) AllData 16 }
{}

/// Sending: RESET_STREAM is forgotten. A client whose datagram with it is lost comes to rest, and
/// the reset hasn't arrived.
pub fn forgotten_reset_shows()
    ensures rest { ResetsAtRest reset_forgotten → ⊥ }
    ensures premises { IsHonest reset_forgotten }
    ensures machine { IsNoRun reset_forgotten }
{}

/// Sending: RETIRE_CONNECTION_ID is forgotten. A client that uses the next id of its peer, and
/// whose datagram that retires the one before is lost, comes to rest.
pub fn forgotten_retirement_shows()
    ensures rest { RetirementsAtRest retirement_forgotten → ⊥ }
    ensures premises { IsHonest retirement_forgotten }
    ensures machine { IsNoRun retirement_forgotten }
{}

/// Sending: STOP_SENDING is forgotten. A server whose datagram with it is lost comes to rest: it
/// hasn't arrived, nor has the final size of the stream.
pub fn forgotten_stop_shows()
    ensures rest { StopsAtRest stop_forgotten → ⊥ }
    ensures premises { IsHonest stop_forgotten }
    ensures machine { IsNoRun stop_forgotten }
{}

/// Sending: MAX_DATA is forgotten. A server whose datagram with it is lost comes to rest, and the
/// limit hasn't arrived.
pub fn forgotten_data_limit_shows()
    ensures rest { LimitsAtRest stop_forgotten → ⊥ }
    ensures premises { IsHonest stop_forgotten }
    ensures machine { IsNoRun stop_forgotten }
{}

/// A server that let its peer come further on a stream, once it had read what it took, rests, and
/// the limit has arrived.
pub fn stream_limit_arrives()
    ensures honest { (read : ReadCall) → ReadsEight read → IsHonest (word_run read) }
    ensures run { (read : ReadCall) → ReadsEight read → IsRun (word_run read) word_end }
    ensures room { HaveRoom word_start }
    ensures server { (read : ReadCall) → Rests (word_run read) Server 13 }
    ensures given { (read : ReadCall)
        → WasGiven (sents_until (word_run read) Server 13) (limit_frame (StreamData 0) 10) }
    ensures limit { (read : ReadCall)
        → LimitHasArrived (took (word_run read) Client 13) (StreamData 0) 10 }
{}

/// Sending: MAX_STREAM_DATA is forgotten. A server whose datagram with it is lost comes to rest,
/// and the limit hasn't arrived, though neither the final size of the stream came nor was it
/// stopped.
pub fn forgotten_stream_limit_shows()
    ensures rest { (read : ReadCall) → StreamLimitsAtRest (limit_dropped read) → ⊥ }
    ensures premises { (read : ReadCall) → ReadsEight read → IsHonest (limit_dropped read) }
    ensures machine { (read : ReadCall) → ReadsEight read → IsNoRun (limit_dropped read) }
{}
