//! Streams that take bytes again, of which an application is told, computed, and a machine that
//! tells it nothing. Each function does nothing: its contract is the law.
ghost use Rattle.std.specs.Prelude.{◌≡◌, true, false};
ghost use Rattle.quic_wire_core.specs.declared.stream_id.Side.TheVariants.{Client};
ghost use Rattle.quic_machine.specs.declared.run.ReadCall.{ReadCall};
ghost use Rattle.quic_machine.specs.Start.{AreStarted};
ghost use Rattle.quic_headline.specs.Headline.{IsHonest, IsRun};
ghost use Rattle.quic_headline.specs.Events.{writing, WritablesAreTold};
ghost use Rattle.quic_worked.specs.Broken.{IsNoRun};
ghost use Rattle.quic_worked.specs.Credit.{ReadsEight};
ghost use Rattle.quic_worked.specs.Limited.{limited_start};
ghost use Rattle.quic_worked.specs.Writable.{writable_run, once_asked, writable_untold, AwaitsAt, own_run, own_behind};

/// A client used up the limit of one stream, and a write on another was blocked by its send window.
/// Then the limits are raised, and what it wrote is acknowledged: it is to be told of both streams,
/// and is told of the first, and then of the other (RFC 9000, section 4.1).
pub fn writable_is_told()
    ensures run { (read : ReadCall) → ReadsEight read → IsRun (writable_run read) (once_asked 3) }
    ensures honest { (read : ReadCall) → read.id ≡ 0 → IsHonest (writable_run read) }
    ensures waits { (read : ReadCall) → (s : AreStarted limited_start) × AwaitsAt read s 11 true true
        × AwaitsAt read s 12 false true × AwaitsAt read s 13 false false }
{}

/// A write is blocked by the limit of its stream alone. Once that is raised, the client is to be
/// told that the stream takes bytes again, and is told so (RFC 9000, section 19.10).
pub fn own_limit_is_told()
    ensures run { (read : ReadCall) → ReadsEight read → IsRun (own_run read) (own_behind 4) }
    ensures honest { (read : ReadCall) → read.id ≡ 0 → IsHonest (own_run read) }
    ensures waits { (read : ReadCall) → (s : AreStarted limited_start)
        × ((writing (own_run read) s Client 0 9).waits ≡ true)
        × ((writing (own_run read) s Client 0 10).waits ≡ false) }
{}

/// Events: an application is told nothing, though a stream takes bytes again.
pub fn writable_is_not_told()
    ensures told { (read : ReadCall) → WritablesAreTold (writable_untold read) → ⊥ }
    ensures premises { (read : ReadCall) → read.id ≡ 0 → IsHonest (writable_untold read) }
    ensures machine { (read : ReadCall) → ReadsEight read → IsNoRun (writable_untold read) }
{}
