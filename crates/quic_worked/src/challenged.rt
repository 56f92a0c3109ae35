//! A server that asks its peer whether it receives, computed, and machines that don't ask. Each
//! function does nothing: its contract is the law.
ghost use Rattle.std.specs.Prelude.{◌≡◌, false};
ghost use Rattle.quic_wire_core.specs.declared.stream_id.Side.TheVariants.{Server};
ghost use Rattle.quic_headline.specs.Headline.{IsHonest};
ghost use Rattle.quic_headline.specs.Validated.{asking};
ghost use Rattle.quic_headline.specs.Challenges.{IsToAsk, ChallengesGo};
ghost use Rattle.quic_worked.specs.Broken.{IsNoRun};
ghost use Rattle.quic_worked.specs.Machines.{NeverGives};
ghost use Rattle.quic_worked.specs.Unvalidated.{far_run};
ghost use Rattle.quic_worked.specs.Challenged.{unasking_run, mute_run};

/// A server is to ask its peer before its first datagram, and not behind it, which has
/// PATH_CHALLENGE.
pub fn challenge_goes()
    ensures due { IsToAsk far_run Server 4 }
    ensures asked { (asking far_run Server 5).renewed ≡ false }
    ensures challenges { ChallengesGo far_run }
{}

/// Sending: a server gives its first datagram without PATH_CHALLENGE, or gives none.
pub fn no_challenge_shows()
    ensures other { ChallengesGo unasking_run → ⊥ }
    ensures mute { ChallengesGo mute_run → ⊥ }
    ensures other_premises { IsHonest unasking_run }
    ensures mute_premises { IsHonest mute_run }
    ensures machine_other { NeverGives unasking_run }
    ensures machine_mute { IsNoRun mute_run }
{}
