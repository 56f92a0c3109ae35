//! The run in which a client answers the challenge of its server, computed, and machines that
//! answer it wrongly, or ask for data that weren't drawn. Each function does nothing: its contract
//! is the law.
ghost use Rattle.std.specs.Prelude.{◌≡◌, List, [], ◌∷◌, true};
ghost use Rattle.std.specs.List.{list_any};
ghost use Rattle.quic_wire_core.specs.declared.stream_id.Side.TheVariants.{Client};
ghost use Rattle.quic_headline.specs.Headline.{IsHonest, IsRun};
ghost use Rattle.quic_headline.specs.Responses.{Challenge, challenged, answers_in, IsNewest, validates_path, ResponsesAnswer, ChallengesAnswered, PathFramesFill};
ghost use Rattle.quic_headline.specs.Validated.{ChallengesAreOwn};
ghost use Rattle.quic_worked.specs.Worked.{id_word};
ghost use Rattle.quic_worked.specs.Broken.{IsNoRun};
ghost use Rattle.quic_worked.specs.Machines.{NeverGives};
ghost use Rattle.quic_worked.specs.Unvalidated.{state_told, answered_run, far_run};
ghost use Rattle.quic_worked.specs.Questioned.{server_asks, response_sent, answers_other, pings_instead, answers_never, answers_short, asks_zeros};

/// The server asks its client, which answers with the same data, in 1200 bytes, and has nothing to
/// answer then (RFC 9000, section 8.2.2).
pub fn challenge_is_answered()
    ensures honest { IsHonest answered_run }
    ensures run { IsRun answered_run state_told }
    ensures asked { (challenged answered_run Client 6).unanswered ≡ server_asks ∷ [] }
    ensures answers { answers_in response_sent.frames ≡ id_word ∷ [] }
    ensures newest { IsNewest (challenged answered_run Client 6).unanswered id_word }
    ensures fills { list_any validates_path response_sent.frames ≡ true }
    ensures none { (challenged answered_run Client 7).unanswered ≡ [] }
    ensures responses { ResponsesAnswer answered_run }
    ensures filled { PathFramesFill answered_run }
{}

/// Sending: a client answers a challenge with other data.
pub fn other_data_shows()
    ensures responses { ResponsesAnswer answers_other → ⊥ }
    ensures premises { IsHonest answers_other }
    ensures machine { IsNoRun answers_other }
{}

/// Sending: a client gives PING and doesn't answer, or gives nothing.
pub fn no_answer_shows()
    ensures ping { ChallengesAnswered pings_instead → ⊥ }
    ensures never { ChallengesAnswered answers_never → ⊥ }
    ensures ping_premises { IsHonest pings_instead }
    ensures never_premises { IsHonest answers_never }
    ensures machine_ping { IsNoRun pings_instead }
    ensures machine_never { IsNoRun answers_never }
{}

/// Sending: a client answers in a datagram of 40 bytes.
pub fn short_answer_shows()
    ensures fills { PathFramesFill answers_short → ⊥ }
    ensures premises { IsHonest answers_short }
    ensures machine { IsNoRun answers_short }
{}

/// What the server asks of its client is the word that its random source says.
pub fn challenge_is_own()
    ensures { ChallengesAreOwn far_run }
{}

/// Sending: a server asks for eight zeros, though its random source says another word.
pub fn zero_challenge_shows()
    ensures challenge { ChallengesAreOwn asks_zeros → ⊥ }
    ensures premises { IsHonest asks_zeros }
    ensures machine { NeverGives asks_zeros }
{}
