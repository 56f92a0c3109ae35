//! A stream that is reset, of which the peer's application is told, computed, and a machine that
//! tells it nothing. Each function does nothing: its contract is the law.
ghost use Rattle.std.specs.Prelude.{◌≡◌, true, false};
ghost use Rattle.quic_wire_core.specs.declared.stream_id.Side.TheVariants.{Server};
ghost use Rattle.quic_headline.specs.Headline.{IsHonest, IsRun};
ghost use Rattle.quic_headline.specs.Events.{reading, ReadablesAreTold};
ghost use Rattle.quic_worked.specs.Broken.{IsNoRun};
ghost use Rattle.quic_worked.specs.Reset.{reset_run, reset_end, reset_untold};

/// The reset of a stream comes that the server's application was told of: it is to be told that the
/// stream may be read, and is told so.
pub fn reset_is_told_of()
    ensures honest { IsHonest reset_run }
    ensures run { IsRun reset_run reset_end }
    ensures waits { (reading reset_run Server 0 8).waits ≡ true }
    ensures told { (reading reset_run Server 0 9).waits ≡ false }
{}

/// Events: an application is told nothing, though the reset of a stream came that it was told of.
pub fn reset_is_not_told_of()
    ensures told { ReadablesAreTold reset_untold → ⊥ }
    ensures premises { IsHonest reset_untold }
    ensures machine { IsNoRun reset_untold }
{}
