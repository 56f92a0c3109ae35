//! Runs in which a full window holds back frames of their own, and limits that are to be raised,
//! computed, and machines that keep such frames back though nothing holds them. Each function does
//! nothing: its contract is the law.
ghost use Rattle.std.specs.Prelude.{◌≡◌, ◌-◌, ◌^◌, ℕ, Bool, Some, length, true, false};
ghost use Rattle.quic_wire_core.specs.declared.stream_id.Side.TheVariants.{Client, Server};
ghost use Rattle.quic_machine.specs.declared.run.ReadCall.{ReadCall};
ghost use Rattle.quic_machine.specs.Start.{AreStarted};
ghost use Rattle.quic_headline.specs.Runs.{until, reset, reads, bytes_of};
ghost use Rattle.quic_headline.specs.Observer.{took};
ghost use Rattle.quic_headline.specs.Headline.{IsHonest, IsRun};
ghost use Rattle.quic_headline.specs.InUse.{in_use};
ghost use Rattle.quic_headline.specs.Amounts.{stops_stream};
ghost use Rattle.quic_headline.specs.Duties.{AllData, StreamData};
ghost use Rattle.quic_headline.specs.Unread.{stopped, receive_window, stream_window};
ghost use Rattle.quic_headline.specs.Credit.{resets_stream, all_consumed};
ghost use Rattle.quic_headline.specs.Polls.{GaveNothing, IsFull};
ghost use Rattle.quic_headline.specs.Rest.{Rests};
ghost use Rattle.quic_headline.specs.Going.{size_came, retires_number, IsMissing, ControlGoes, RetirementsGo, IsToRaise, LimitsGo};
ghost use Rattle.quic_worked.specs.Broken.{IsNoRun};
ghost use Rattle.quic_worked.specs.Credit.{ReadsEight};
ghost use Rattle.quic_worked.specs.Going.{once_going, heard_view, going_run, reset_kept, stop_kept, done_kept, retirement_kept, shut_start, shut_end, shut_view, shut_run, limits_kept};

/// A client's window is full as it stops its stream and resets it, and once it used the next id of
/// its peer: so its poll gives nothing, though nothing that is in flight or came says any of it
/// (RFC 9000, sections 5.1.2, 19.4, 19.5 and 19.16; RFC 9002, section 7).
pub fn frames_are_held_back()
    ensures honest { IsHonest going_run }
    ensures run { IsRun going_run (once_going 9) }
    ensures gave { GaveNothing going_run Client 8 0 heard_view }
    ensures is_reset { reset 0 (until going_run Client 9) ≡ Some 7 }
    ensures reset_waits { IsMissing going_run Client 9 (resets_stream 0) }
    ensures is_stopped { stopped 0 (until going_run Client 9) ≡ true }
    ensures no_size { size_came 0 (took going_run Client 9) ≡ false }
    ensures stop_waits { IsMissing going_run Client 9 (stops_stream 0) }
    ensures used { (stays : ℕ → Bool) → in_use going_run stays Client 9 ≡ 1 }
    ensures retirement_waits { IsMissing going_run Client 9 (retires_number 0) }
    ensures full { IsFull going_run Client 9 heard_view }
{}

/// Sending: a client that reset its stream gives nothing, though its window has room, and comes to
/// rest without RESET_STREAM.
pub fn reset_is_kept_back()
    ensures control { ControlGoes reset_kept → ⊥ }
    ensures rests { Rests reset_kept Client 3 }
    ensures premises { IsHonest reset_kept }
    ensures machine { IsNoRun reset_kept }
{}

/// Sending: so does one that stopped it, without STOP_SENDING.
pub fn stop_is_kept_back()
    ensures control { ControlGoes stop_kept → ⊥ }
    ensures rests { Rests stop_kept Client 3 }
    ensures premises { IsHonest stop_kept }
    ensures machine { IsNoRun stop_kept }
{}

/// Sending: a server whose application said that the handshake is done gives nothing, though its
/// window has room.
pub fn done_is_kept_back()
    ensures control { ControlGoes done_kept → ⊥ }
    ensures premises { IsHonest done_kept }
    ensures machine { IsNoRun done_kept }
{}

/// Sending: a client that uses the next id of its peer gives nothing, though its window has room:
/// it doesn't say that the one before it is retired.
pub fn retirement_is_kept_back()
    ensures retirements { RetirementsGo retirement_kept → ⊥ }
    ensures premises { IsHonest retirement_kept }
    ensures machine { IsNoRun retirement_kept }
{}

/// A server's window is shut as five bytes were read there of a stream on which it takes five at a
/// time, and eight in all: both limits are to be raised, and its poll gives nothing (RFC 9000,
/// sections 4.1, 19.9 and 19.10).
pub fn limits_are_held_back()
    ensures honest { (read : ReadCall) → read.id ≡ 0 → IsHonest (shut_run read) }
    ensures run { (read : ReadCall) → ReadsEight read → IsRun (shut_run read) shut_end }
    ensures gave { (read : ReadCall) → GaveNothing (shut_run read) Server 6 0 shut_view }
    ensures all { (read : ReadCall) → read.id ≡ 0 → (s : AreStarted shut_start)
        × IsToRaise (shut_run read) Server 7 AllData (receive_window (shut_run read) s Server)
        (all_consumed (took (shut_run read) Server 7) (until (shut_run read) Server 7))
        (2 ^ 62 - 1) }
    ensures one { (read : ReadCall) → read.id ≡ 0 → (s : AreStarted shut_start)
        × IsToRaise (shut_run read) Server 7 (StreamData 0) (stream_window (shut_run read) s Server)
        (length (bytes_of (reads 0 (until (shut_run read) Server 7)))) (2 ^ 62 - 1) }
    ensures full { (read : ReadCall) → IsFull (shut_run read) Server 7 shut_view }
{}

/// Limits: a server that read five bytes gives nothing, though its window has room: it lets no more
/// come.
pub fn limits_are_kept_back()
    ensures limits { (read : ReadCall) → read.id ≡ 0 → LimitsGo (limits_kept read) → ⊥ }
    ensures premises { (read : ReadCall) → read.id ≡ 0 → IsHonest (limits_kept read) }
    ensures machine { (read : ReadCall) → ReadsEight read → IsNoRun (limits_kept read) }
{}
