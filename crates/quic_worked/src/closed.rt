//! Runs in which an end closes, or refuses a packet, that has no reason to, computed: each breaks a
//! clause of the headline, and is none that the reference machine makes; and one in which an end
//! has a reason. Each function does nothing: its contract is the law.
ghost use Rattle.std.specs.Prelude.{◌≡◌, ◌-◌, ◌^◌, [], ◌∷◌, Some};
ghost use Rattle.quic_wire_core.specs.declared.stream_id.Side.TheVariants.{Client, Server};
ghost use Rattle.quic_machine.specs.declared.run.ReadCall.{ReadCall};
ghost use Rattle.quic_machine.specs.declared.run.Call.TheVariants as calls;
ghost use Rattle.quic_machine.specs.declared.run.Answer.TheVariants as answers;
ghost use Rattle.quic_machine.specs.declared.answers.Received.TheVariants as receives;
ghost use Rattle.quic_headline.specs.Runs.{until};
ghost use Rattle.quic_machine.specs.declared.answers.LostReason.TheVariants as reasons;
ghost use Rattle.quic_headline.specs.Observer.{next_number};
ghost use Rattle.quic_headline.specs.Headline.{IsAt, IsRun};
ghost use Rattle.quic_headline.specs.Reasons.{ClosedHasAReason, NeverFails};
ghost use Rattle.quic_headline.specs.Causes.{Shows, NoBlame, ordinary, NumberLimit, came_by, PacketCame, TooManyPieces, TakenOrTooMany};
ghost use Rattle.quic_headline.specs.Taken.{CameAgain};
ghost use Rattle.quic_worked.specs.Worked.{worked_policies, worked_run, delivery, hello_datagram};
ghost use Rattle.quic_worked.specs.Broken.{IsNoRun, duplicate};
ghost use Rattle.quic_worked.specs.Closed.{below_limits, early_pieces, early_limit, drains_silently, fails_silently, last_run, last_closed, early_last};
ghost use Rattle.quic_worked.specs.Timed.{NeverShows};

/// In the worked run the packet of the client comes to the server, which takes it.
pub fn hello_is_taken()
    ensures { (read : ReadCall)
        → (c : PacketCame worked_policies.server (hello_datagram ∷ [])
        (until (worked_run read) Server 8))
        × (c.call.answer ≡ answers.Deliver receives.Taken) }
{}

/// It comes once more, and the server drops it: by the lists it opens to a number that came before.
pub fn hello_comes_again()
    ensures first { (read : ReadCall) → IsAt (worked_run read) 4 Server (calls.Deliver delivery) (answers.Deliver receives.Taken) }
    ensures second { (read : ReadCall) → IsAt (worked_run read) 5 Server (calls.Deliver delivery) (answers.Deliver duplicate) }
    ensures again { (read : ReadCall)
        → CameAgain worked_policies.server (came_by worked_policies.server (hello_datagram ∷ []) (until (worked_run read) Server 5))
        (answers.Deliver duplicate) hello_datagram }
{}

/// A machine that refuses bytes below the limits that it told blames the other end, and doesn't
/// take what keeps the rules.
pub fn below_limits_shows()
    ensures blame { NoBlame below_limits → ⊥ }
    ensures taken { TakenOrTooMany below_limits → ⊥ }
    ensures machine { IsNoRun below_limits }
{}

/// A machine that closes for too many pieces where one came.
pub fn early_pieces_show()
    ensures pieces { TooManyPieces early_pieces → ⊥ }
    ensures machine { IsNoRun early_pieces }
{}

/// A machine that closes for used-up numbers before it gave any but its close has all of them left.
pub fn early_limit_shows()
    ensures numbers { NumberLimit early_limit → ⊥ }
    ensures machine { IsNoRun early_limit }
{}

/// A client that may give one number more gives it, closes at the next poll for used-up numbers,
/// and gives its close under the number behind it: that is 2^31 - 16, and none is acknowledged. It
/// is a run of the machine, but from no new ends: those give number 0 first, and so 2^31 - 17
/// datagrams before this one.
pub fn used_up_numbers_close()
    ensures run { IsRun last_run last_closed }
    ensures shows { Shows last_run Client 5 (Some reasons.NumberLimit) }
    ensures next { next_number (ordinary last_run Client 6) ≡ 2 ^ 31 - 16 }
    ensures numbers { NumberLimit last_run }
{}

/// In that run the view shows why the client closed. A client that is drained at its first poll,
/// and shows no reason, is none of the machine's.
pub fn silent_end_shows()
    ensures meets { ClosedHasAReason last_run }
    ensures reasons { ClosedHasAReason drains_silently → ⊥ }
    ensures machine { NeverShows drains_silently }
{}

/// A client that fails at its first poll, which answers that nothing goes, and not that memory ran
/// out, is none of the machine's.
pub fn silent_failure_shows()
    ensures failure { NeverFails fails_silently → ⊥ }
    ensures machine { NeverShows fails_silently }
{}

/// A client that may give two numbers more gives one, and closes at the next poll for used-up
/// numbers: with its close, but not without, they would be.
pub fn early_last_shows()
    ensures numbers { NumberLimit early_last → ⊥ }
    ensures machine { IsNoRun early_last }
{}
