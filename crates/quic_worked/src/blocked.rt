//! What is left unread where both ends rest, computed, a run in which a write is blocked there for
//! that, and machines at which one is blocked though nothing is left. Each function does nothing:
//! its contract is the law.
ghost use Rattle.std.specs.Prelude.{◌≡◌};
ghost use Rattle.quic_wire_core.specs.declared.stream_id.Side.TheVariants.{Client, Server};
ghost use Rattle.quic_machine.specs.Start.{AreStarted};
ghost use Rattle.quic_headline.specs.Runs.{until};
ghost use Rattle.quic_headline.specs.Observer.{took};
ghost use Rattle.quic_headline.specs.Headline.{IsHonest, IsRun};
ghost use Rattle.quic_headline.specs.Rest.{Rests, HaveRoom};
ghost use Rattle.quic_headline.specs.Unread.{HasUnread, HasUnreadOn, least_left, receive_window, IsModest, BlockedOnlyForUnread};
ghost use Rattle.quic_worked.specs.Broken.{IsNoRun};
ghost use Rattle.quic_worked.specs.Rested.{rested_run};
ghost use Rattle.quic_worked.specs.Blocked.{blocked_run, small_start, once_left, left_run};

/// A server that reads nothing leaves the five bytes that the client wrote, and by its window so
/// many bytes are left at least: all of eight, and fifteen of sixteen, since limits are told anew
/// by an eighth.
pub fn word_is_left()
    ensures all { HasUnread (took rested_run Server 13) (until rested_run Server 13) 5 }
    ensures stream { HasUnreadOn (took rested_run Server 13) (until rested_run Server 13) 0 5 }
    ensures eight { least_left 8 ≡ 8 }
    ensures sixteen { least_left 16 ≡ 15 }
    ensures one { least_left 1 ≡ 1 }
{}

/// A client whose write is blocked while both ends rest, though nothing came that could be left
/// unread. The machine takes all that is written.
pub fn blocked_at_rest_shows()
    ensures client { Rests blocked_run Client 3 }
    ensures server { Rests blocked_run Server 3 }
    ensures unread { BlockedOnlyForUnread blocked_run → ⊥ }
    ensures honest { IsHonest blocked_run }
    ensures machine { IsNoRun blocked_run }
{}

/// With a window of eight bytes a client writes eight, which come, and the server reads nothing.
/// Both ends rest, and then a write is blocked: all eight are left unread.
pub fn unread_bytes_block()
    ensures honest { IsHonest left_run }
    ensures run { IsRun left_run (once_left 13) }
    ensures room { HaveRoom (small_start 8) }
    ensures modest { (s : AreStarted (small_start 8)) × IsModest left_run s 12
        × (receive_window left_run s Server ≡ 8) }
    ensures client { Rests left_run Client 12 }
    ensures server { Rests left_run Server 12 }
    ensures left { HasUnread (took left_run Server 12) (until left_run Server 12) 8 }
{}
