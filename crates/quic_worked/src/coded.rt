//! Runs in which a client stops or resets a stream, computed, and machines that say another code,
//! or how many bytes weren't written, or give bytes behind a reset. Each function does nothing: its
//! contract is the law.
ghost use Rattle.std.specs.Prelude.{◌≡◌, ◌∷◌, []};
ghost use Rattle.quic_wire_core.specs.declared.stream_id.Side.TheVariants.{Client};
ghost use Rattle.quic_headline.specs.Observer.{sents_until};
ghost use Rattle.quic_headline.specs.Headline.{IsHonest, IsRun};
ghost use Rattle.quic_headline.specs.Codes.{StopsSay, ResetsSay, NothingBehindResets};
ghost use Rattle.quic_worked.specs.Machines.{NeverGives};
ghost use Rattle.quic_worked.specs.Coded.{once_halting, halting_run, halt_sent, halts_for_none, resets_as, resets_for_none, resets_short, streams_behind};

/// A client whose application stops a stream with code 7 says so.
pub fn stop_says_its_code()
    ensures honest { IsHonest halting_run }
    ensures run { IsRun halting_run (once_halting 3) }
    ensures sent { sents_until halting_run Client 3 ≡ halt_sent 7 ∷ [] }
    ensures stops { StopsSay halting_run }
{}

/// One whose application resets a stream with code 7, on which three bytes were written, says both.
pub fn reset_says_its_code()
    ensures { ResetsSay (resets_as 7 3) }
{}

/// Its STREAM frame goes before the reset, and none behind it.
pub fn nothing_goes_behind_a_reset()
    ensures { NothingBehindResets (resets_as 7 3) }
{}

/// Sending: a client says that it stopped the stream with code 0.
pub fn stop_without_code_shows()
    ensures stops { StopsSay halts_for_none → ⊥ }
    ensures premises { IsHonest halts_for_none }
    ensures machine { NeverGives halts_for_none }
{}

/// Sending: a client says that it reset the stream with code 0, or behind two bytes.
pub fn wrong_resets_show()
    ensures code { ResetsSay resets_for_none → ⊥ }
    ensures size { ResetsSay resets_short → ⊥ }
    ensures code_premises { IsHonest resets_for_none }
    ensures size_premises { IsHonest resets_short }
    ensures code_machine { NeverGives resets_for_none }
    ensures size_machine { NeverGives resets_short }
{}

/// Sending: a client gives two bytes of a stream again behind its reset.
pub fn bytes_behind_reset_show()
    ensures behind { NothingBehindResets streams_behind → ⊥ }
    ensures premises { IsHonest streams_behind }
    ensures machine { NeverGives streams_behind }
{}
