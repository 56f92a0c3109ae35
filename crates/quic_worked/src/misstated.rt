//! Runs in which a client says at which limit it is blocked, computed, and those of clients that
//! say another one. Each function does nothing: its contract is the law.
ghost use Rattle.std.specs.Prelude.{◌≡◌};
ghost use Rattle.quic_headline.specs.Headline.{IsHonest};
ghost use Rattle.quic_headline.specs.Blocking.{BlockedSay};
ghost use Rattle.quic_worked.specs.Machines.{NeverGives};
ghost use Rattle.quic_worked.specs.Said.{said_run, said_on_run};
ghost use Rattle.quic_worked.specs.Misstated.{misstated_run, misstated_on_run, unwritten_run};

/// A client that wrote all eight bytes that may come says 8 in DATA_BLOCKED, and one that wrote all
/// five of a stream says 5 in STREAM_DATA_BLOCKED (RFC 9000, sections 19.12 and 19.13).
pub fn limit_is_that_of_the_peer()
    ensures all { BlockedSay said_run }
    ensures stream { BlockedSay said_on_run }
{}

/// Sending: a client says 0 in DATA_BLOCKED in place of 8, or 4 in STREAM_DATA_BLOCKED in place of
/// 5.
pub fn other_limit_shows()
    ensures all { BlockedSay misstated_run → ⊥ }
    ensures stream { BlockedSay misstated_on_run → ⊥ }
    ensures all_premises { IsHonest misstated_run }
    ensures stream_premises { IsHonest misstated_on_run }
    ensures machine_all { NeverGives misstated_run }
    ensures machine_stream { NeverGives misstated_on_run }
{}

/// Sending: a client says in STREAM_DATA_BLOCKED that it is blocked at 5 on a stream on which it
/// wrote nothing, and which may come so far.
pub fn unwritten_stream_shows()
    ensures stream { BlockedSay unwritten_run → ⊥ }
    ensures premises { IsHonest unwritten_run }
    ensures machine { NeverGives unwritten_run }
{}
