//! Runs in which a limit is said to be used up once, computed, and machines at which it is to be
//! said at each write in vain. Each function does nothing: its contract is the law.
ghost use Rattle.std.specs.Prelude.{◌≡◌, true, false};
ghost use Rattle.quic_headline.specs.Headline.{IsHonest, IsRun};
ghost use Rattle.quic_headline.specs.Begins.{Blocked, BlockedOn, asks_for, BeginsAt};
ghost use Rattle.quic_worked.specs.Blocked.{small_start};
ghost use Rattle.quic_worked.specs.Limited.{limited_start};
ghost use Rattle.quic_worked.specs.Said.{once_said, said_run, once_said_on, said_on_run, said_answers, first_in_vain, second_in_vain, says_again, says_again_on, NeverSays};

/// A client that gave all eight bytes that may come writes in vain: the first such write asks for
/// DATA_BLOCKED, which goes, and the second asks for none. The client has nothing to give behind
/// five of them.
pub fn limit_is_said_once()
    ensures honest { IsHonest said_run }
    ensures run { IsRun said_run (once_said 10) }
    ensures first { asks_for (first_in_vain said_run) Blocked ≡ true }
    ensures second { asks_for (second_in_vain said_run) Blocked ≡ false }
{}

/// A client that gave all five bytes that may come on a stream writes in vain there: the first such
/// write asks for STREAM_DATA_BLOCKED, which goes, and the second asks for none. The client has
/// nothing to give behind five of them.
pub fn stream_limit_is_said_once()
    ensures honest { IsHonest said_on_run }
    ensures run { IsRun said_on_run (once_said_on 10) }
    ensures first { asks_for (first_in_vain said_on_run) (BlockedOn 0) ≡ true }
    ensures second { asks_for (second_in_vain said_on_run) (BlockedOn 0) ≡ false }
{}

/// A client at which DATA_BLOCKED waits again behind the second write in vain breaks the clause; so
/// does one at which STREAM_DATA_BLOCKED does. No run comes to them.
pub fn said_at_each_write_shows()
    ensures all { BeginsAt (second_in_vain said_run) (once_said 5).client says_again.client → ⊥ }
    ensures stream { BeginsAt (second_in_vain said_on_run) (once_said_on 5).client says_again_on.client → ⊥ }
    ensures machine { NeverSays (small_start 8) (said_answers 8 233) says_again }
    ensures machine_stream { NeverSays limited_start (said_answers 5 230) says_again_on }
{}
