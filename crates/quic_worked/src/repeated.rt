//! What is wanted of an end, computed on worked runs, and runs of machines that give a datagram in
//! which nothing waited. Each function does nothing: its contract is the law.
ghost use Rattle.std.specs.Prelude.{◌≡◌, false, true, ℕ};
ghost use Rattle.quic_wire_core.specs.declared.stream_id.Side.TheVariants.{Client, Server};
ghost use Rattle.quic_machine.specs.declared.run.ReadCall.{ReadCall};
ghost use Rattle.quic_headline.specs.Headline.{IsHonest};
ghost use Rattle.quic_headline.specs.InFlight.{is_max_data};
ghost use Rattle.quic_headline.specs.Waited.{wants, wants_ack, stands, is_path_challenge, is_path_response, EachWaited};
ghost use Rattle.quic_worked.specs.Broken.{IsNoRun};
ghost use Rattle.quic_worked.specs.Hasty.{hasty_run};
ghost use Rattle.quic_worked.specs.Limited.{limited_run};
ghost use Rattle.quic_worked.specs.Credit.{ReadsEight};
ghost use Rattle.quic_worked.specs.Repeated.{ping_again, ack_again, limit_again, challenge_again, response_again};
ghost use Rattle.quic_worked.specs.Unvalidated.{far_run, answered_run};

/// PING is wanted once it is asked for, and no more once it went; so it is of an ACK frame once two
/// packets came that ask. MAX_DATA went at the poll that gives it, and not before; so did
/// PATH_CHALLENGE and PATH_RESPONSE.
pub fn wants_are_met()
    ensures asked { (wants hasty_run Client 1).pinged ≡ true }
    ensures pinged { (wants hasty_run Client 2).pinged ≡ false }
    ensures before { wants_ack hasty_run Server 4 ≡ false }
    ensures came { wants_ack hasty_run Server 6 ≡ true }
    ensures acknowledged { wants_ack hasty_run Server 7 ≡ false }
    ensures unsaid { (read : ReadCall) → stands is_max_data (wants (limited_run read) Server 9).since ≡ false }
    ensures said { (read : ReadCall) → stands is_max_data (wants (limited_run read) Server 10).since ≡ true }
    ensures unchallenged { stands is_path_challenge (wants far_run Server 4).since ≡ false }
    ensures challenged { stands is_path_challenge (wants far_run Server 5).since ≡ true }
    ensures unanswered { stands is_path_response (wants answered_run Client 6).since ≡ false }
    ensures answered { stands is_path_response (wants answered_run Client 7).since ≡ true }
{}

/// A client that gives PING again, for which it wasn't asked again, breaks the clause; so does a
/// server that acknowledges again what it acknowledged, and one that says its limit again. The
/// machine gives nothing there.
pub fn repeats_show()
    ensures ping { EachWaited ping_again → ⊥ }
    ensures acks { EachWaited ack_again → ⊥ }
    ensures limit { (read : ReadCall) → EachWaited (limit_again read) → ⊥ }
    ensures ping_honest { IsHonest ping_again }
    ensures acks_honest { IsHonest ack_again }
    ensures limit_honest { (read : ReadCall) → read.id ≡ 0 → IsHonest (limit_again read) }
    ensures machine_ping { IsNoRun ping_again }
    ensures machine_acks { IsNoRun ack_again }
    ensures machine_limit { (read : ReadCall) → ReadsEight read → IsNoRun (limit_again read) }
{}

/// A server that asks its peer again to answer, behind the poll that asked for it, breaks the
/// clause; so does a client that answers again. The machine gives nothing there.
pub fn path_frames_again_show()
    ensures challenge { EachWaited challenge_again → ⊥ }
    ensures response { EachWaited response_again → ⊥ }
    ensures challenge_premises { IsHonest challenge_again }
    ensures response_premises { IsHonest response_again }
    ensures machine_challenge { IsNoRun challenge_again }
    ensures machine_response { IsNoRun response_again }
{}
