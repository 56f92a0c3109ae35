//! A run on a path that marks each datagram with CE, computed, and the run of a server that answers
//! each packet so marked. Each function does nothing: its contract is the law.
ghost use Rattle.std.specs.Prelude.{◌≡◌, ◌++◌, false, true, take};
ghost use Rattle.quic_wire_core.specs.declared.stream_id.Side.TheVariants.{Client, Server};
ghost use Rattle.quic_headline.specs.Headline.{IsHonest, IsRun};
ghost use Rattle.quic_headline.specs.Rest.{Rests};
ghost use Rattle.quic_headline.specs.Begins.{BeginsAt};
ghost use Rattle.quic_headline.specs.Waited.{wants_ack, EachWaited};
ghost use Rattle.quic_worked.specs.Worked.{gives_bytes};
ghost use Rattle.quic_worked.specs.Broken.{IsNoRun, NeverLeads};
ghost use Rattle.quic_worked.specs.Hasty.{marked_events, answers_marked};
ghost use Rattle.quic_worked.specs.Marked.{calm_events, calm_answers, once_calm, calm_run, echo_run, answering_seen, due_for_ack};

/// With CE on each datagram both ways an ACK frame is wanted for a PING at once, and for the ACK
/// frame that newly acknowledges it; for one that acknowledges that alone none is (RFC 9000,
/// section 13.2.1), and both ends come to rest.
pub fn marked_acknowledgements_end()
    ensures honest { IsHonest calm_run }
    ensures run { IsRun calm_run (once_calm 5) }
    ensures ping { wants_ack calm_run Server 3 ≡ true }
    ensures acknowledged { wants_ack calm_run Client 5 ≡ true }
    ensures bare { wants_ack calm_run Server 7 ≡ false }
    ensures client { Rests calm_run Client 9 }
    ensures server { Rests calm_run Server 9 }
{}

/// A server that answers each packet with CE acknowledges what acknowledges an acknowledgement
/// alone, which breaks the clause and might go on without end; so does one at which an ACK frame is
/// due for it. The machine gives nothing there.
pub fn endless_acknowledgements_show()
    ensures waited { EachWaited echo_run → ⊥ }
    ensures due { BeginsAt answering_seen (once_calm 2).server due_for_ack.server → ⊥ }
    ensures honest { IsHonest echo_run }
    ensures machine { IsNoRun echo_run }
    ensures machine_due { NeverLeads (marked_events ++ take 3 calm_events)
        (answers_marked (gives_bytes 34) ++ take 3 calm_answers) due_for_ack }
{}
