//! Runs in which an end closes for a reason, computed, and machines that close for none. Each
//! function does nothing: its contract is the law.
ghost use Rattle.std.specs.Prelude.{◌≡◌, length, Some};
ghost use Rattle.quic_wire_core.specs.declared.stream_id.Side.TheVariants.{Client, Server};
ghost use Rattle.quic_wire.specs.Close.{CloseValue};
ghost use Rattle.quic_machine.specs.declared.answers.LostReason.{LostReason};
ghost use Rattle.quic_machine.specs.declared.answers.LostReason.TheVariants as reasons;
ghost use Rattle.quic_machine.specs.Machine.{policy_at};
ghost use Rattle.quic_headline.specs.Runs.{until};
ghost use Rattle.quic_headline.specs.Headline.{IsHonest, IsRun};
ghost use Rattle.quic_headline.specs.Causes.{Shows, HadClosed, PeerClosed, WasClosed, ApplicationClosed, WasIdle, IdleExpired, ordinary, IsKeyUsedUp, unopened, KeyLimited, KeysLast};
ghost use Rattle.quic_headline.specs.Waited.{EachWaited};
ghost use Rattle.quic_worked.specs.Broken.{IsNoRun};
ghost use Rattle.quic_worked.specs.Machines.{NeverGives};
ghost use Rattle.quic_worked.specs.Ended.{close_read, once_closed, closing_run, once_idle, idle_run, once_short, short_run, sealed_past, closed_past, closed_early, close_named, drains_for};

/// A client whose application closes is closing, and gives its close; the server takes that, and is
/// drained for it: its peer had closed (RFC 9000, section 10.2).
pub fn close_is_told()
    ensures honest { IsHonest closing_run }
    ensures run { IsRun closing_run (once_closed 3) }
    ensures client { Shows closing_run Client 0 (Some reasons.Application) }
    ensures called { WasClosed closing_run Client 0 }
    ensures server { Shows closing_run Server 2 (Some (reasons.Peer (close_read 7))) }
    ensures closed { HadClosed closing_run Client 2 }
{}

/// A client that gave a datagram which asks, and to which nothing comes for 30 seconds, is drained
/// (section 10.1).
pub fn nothing_comes()
    ensures honest { IsHonest idle_run }
    ensures run { IsRun idle_run (once_idle 2) }
    ensures shows { Shows idle_run Client 1 (Some reasons.Idle) }
    ensures idle { WasIdle idle_run Client 1 }
{}

/// A client whose key seals eight packets keeps all of them for closes, and closes at its first
/// poll (RFC 9001, section 6.6). It is a run of the machine, but no new end has such a key.
pub fn key_seals_no_more()
    ensures honest { IsHonest short_run }
    ensures run { IsRun short_run (once_short 1) }
    ensures shows { Shows short_run Client 0 (Some reasons.KeyLimit) }
    ensures used { IsKeyUsedUp (policy_at Client short_run.keys)
        (length (ordinary short_run Client 1)) (unopened (until short_run Client 1)) }
{}

/// Sending: a client whose key seals eight packets gives one that doesn't close.
pub fn seals_past_limit()
    ensures keys { KeysLast sealed_past → ⊥ }
    ensures premises { IsHonest sealed_past }
    ensures machine { NeverGives sealed_past }
{}

/// Closing: a client whose key seals no more packet gives its close.
pub fn closes_past_limit()
    ensures keys { KeysLast closed_past → ⊥ }
    ensures premises { IsHonest closed_past }
    ensures machine { NeverGives closed_past }
{}

/// Closing: a client whose key seals nine packets gives its close first, though one may go before
/// it that doesn't close. The close itself is no reason for it.
pub fn closes_one_early()
    ensures key { KeyLimited closed_early → ⊥ }
    ensures premises { IsHonest closed_early }
    ensures machine { NeverGives closed_early }
{}

/// Closing: a server that took a close, and is drained, acknowledges it. No packet that comes calls
/// for that (RFC 9000, sections 10.2.2 and 13.2.1).
pub fn close_is_acknowledged()
    ensures waited { EachWaited close_named → ⊥ }
    ensures premises { IsHonest close_named }
    ensures machine { IsNoRun close_named }
{}

/// Closing: a client is drained at its first poll, and shows that its application closed it, that
/// its peer did, that nothing came for the idle timeout, or that its key is used up.
pub fn needless_ends_show()
    ensures application { ApplicationClosed (drains_for reasons.Application) → ⊥ }
    ensures peer { (close : CloseValue) → PeerClosed (drains_for (reasons.Peer close)) → ⊥ }
    ensures idle { IdleExpired (drains_for reasons.Idle) → ⊥ }
    ensures key { KeyLimited (drains_for reasons.KeyLimit) → ⊥ }
    ensures premises { (reason : LostReason) → IsHonest (drains_for reason) }
    ensures machine { (reason : LostReason) → IsNoRun (drains_for reason) }
{}
