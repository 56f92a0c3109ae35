//! Where calls find no memory: computed on a run in which two do, and on machines with calls that
//! take none. Each function does nothing: its contract is the law.
ghost use Rattle.std.specs.Prelude.{◌≡◌, true};
ghost use Rattle.std.specs.List.{list_any};
ghost use Rattle.quic_wire_core.specs.declared.stream_id.Side.TheVariants.{Client};
ghost use Rattle.quic_machine.specs.declared.run.Call.TheVariants as calls;
ghost use Rattle.quic_headline.specs.Headline.{IsHonest, IsRun};
ghost use Rattle.quic_headline.specs.Memory.{lacks};
ghost use Rattle.quic_headline.specs.Lacking.{TakesMemory, LacksWhereTaken};
ghost use Rattle.quic_worked.specs.Worked.{hello, once_ended, once_read, started};
ghost use Rattle.quic_worked.specs.Broken.{IsNever, IsNoRun, lets_expire};
ghost use Rattle.quic_worked.specs.Lacking.{lacking_run, finish_again, write_behind, long_message, idle_timeout, timeout_lacks, failed_injection, resets_first, reset_lacks, stops_first, stop_lacks, sends_long, send_lacks};

/// A write and a finish find no memory, and find some when they are tried again. Both take some.
pub fn calls_are_tried_again()
    ensures run { IsRun lacking_run once_ended }
    ensures lacks { list_any lacks lacking_run.answers ≡ true }
    ensures write { TakesMemory lacking_run Client 1 (calls.Write 0 hello) }
    ensures finish { TakesMemory lacking_run Client 3 (calls.Finish 0) }
{}

/// Streams: a finish of a stream that is finished finds no memory in place of a closed stream (RFC
/// 9000, section 3.1).
pub fn refused_finish_lacks()
    ensures clause { LacksWhereTaken finish_again → ⊥ }
    ensures premises { IsHonest finish_again }
    ensures machine { IsNoRun finish_again }
{}

/// Streams: a write on a stream that is finished finds no memory in place of a closed stream,
/// though neither the peer's limit on all data nor the send window blocks it.
pub fn refused_write_lacks()
    ensures clause { LacksWhereTaken write_behind → ⊥ }
    ensures premises { IsHonest write_behind }
    ensures machine { IsNoRun write_behind }
{}

/// Messages: one that is too long for a datagram finds no memory in place of that (RFC 9221,
/// section 5).
pub fn long_message_lacks()
    ensures clause { LacksWhereTaken long_message → ⊥ }
    ensures premises { IsHonest long_message }
    ensures machine { IsNoRun long_message }
{}

/// Timers: a timeout finds no memory though no timer of losses is set.
pub fn idle_timeout_lacks()
    ensures clause { LacksWhereTaken idle_timeout → ⊥ }
    ensures premises { IsHonest idle_timeout }
    ensures machine { IsNoRun idle_timeout }
{}

/// Receiving: no byte comes from outside, and the client says that it failed for want of memory.
pub fn failed_injection_lacks()
    ensures clause { LacksWhereTaken failed_injection → ⊥ }
    ensures premises { IsHonest failed_injection }
    ensures machine { IsNoRun failed_injection }
{}

/// Nor does any other call lack memory that takes none: no reset of a stream that wasn't opened, no
/// stop of one that was read to its end, no message that is too long for a datagram, and no timeout
/// while nothing is in flight.
pub fn no_other_call_lacks()
    ensures reset { IsNever started resets_first reset_lacks }
    ensures stop { IsNever once_read stops_first stop_lacks }
    ensures send { IsNever started sends_long send_lacks }
    ensures timeout { IsNever started lets_expire timeout_lacks }
{}
