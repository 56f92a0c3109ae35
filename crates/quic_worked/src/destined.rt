//! Runs of machines that take one connection id for another, computed: each breaks a clause of the
//! headline, and is none that the reference machine makes. Each function does nothing: its contract
//! is the law.
ghost use Rattle.std.specs.Prelude.{◌≡◌, [], ◌∷◌};
ghost use Rattle.quic_wire_core.specs.declared.stream_id.Side.TheVariants.{Client};
ghost use Rattle.quic_machine.specs.declared.run.ReadCall.{ReadCall};
ghost use Rattle.quic_headline.specs.Headline.{IsHonest};
ghost use Rattle.quic_headline.specs.Observer.{sents_until};
ghost use Rattle.quic_headline.specs.ConnectionIds.{IdsAreIssued, UnknownOnlyWhereRetired};
ghost use Rattle.quic_worked.specs.Worked.{server_id, hello_datagram, worked_run, run_with};
ghost use Rattle.quic_worked.specs.Broken.{IsNoRun};
ghost use Rattle.quic_worked.specs.Machines.{NeverGives};
ghost use Rattle.quic_worked.specs.Destined.{word_to, sent_to, sent_to_itself, all_unknown};

/// In the worked run the client's datagram was sent to the server's id, as its bytes say. A client
/// that sends it to its own id breaks the clause.
pub fn own_id_is_used()
    ensures word { word_to server_id ≡ hello_datagram }
    ensures sent { (read : ReadCall)
        → sents_until (worked_run read) Client 4 ≡ sent_to server_id ∷ [] }
    ensures wrong { (read : ReadCall) → IdsAreIssued (sent_to_itself read) → ⊥ }
    ensures premises { (read : ReadCall) → IsHonest (sent_to_itself read) }
    ensures machine { (read : ReadCall) → NeverGives (sent_to_itself read) }
{}

/// A server that drops what was sent to its first id, which nobody retired, as sent to none of its
/// own.
pub fn first_id_is_unknown()
    ensures wrong { (read : ReadCall)
        → UnknownOnlyWhereRetired (run_with read all_unknown) → ⊥ }
    ensures premises { (read : ReadCall) → IsHonest (run_with read all_unknown) }
    ensures machine { (read : ReadCall) → IsNoRun (run_with read all_unknown) }
{}
