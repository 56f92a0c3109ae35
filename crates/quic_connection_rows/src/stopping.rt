//! Where runs may say that they were cut short, as the clauses `why` have it, and where they may
//! not.
ghost use Rattle.std.specs.Prelude.{◌≡◌, ◌≢◌, ℕ, List, [], length, map, take, slice_get, Some};
ghost use Rattle.quic_wire_core.specs.declared.stream_id.Side.{Side};
ghost use Rattle.quic_wire_core.specs.declared.stream_id.Dir.{Dir};
ghost use Rattle.quic_machine.specs.declared.run.Call.{Call};
ghost use Rattle.quic_machine.specs.declared.run.Call.TheVariants as calls;
ghost use Rattle.quic_machine.specs.declared.run.RunEvent.{RunEvent};
ghost use Rattle.quic_machine.specs.declared.run.Answer.{Answer};
ghost use Rattle.quic_machine.specs.Machine.{World};
ghost use Rattle.quic_connection.specs.Rooms.{told_len};
ghost use Rattle.quic_connection.specs.Stopping.{StopsFor, StopsAloneFor};
ghost use Rattle.quic_worked.specs.Worked.{client_made, started, with_client, opens_stream, sending_events, sending_answers, once_ended};
ghost use Rattle.quic_connection_rows.specs.Coming.{came};
ghost use Rattle.quic_connection_rows.specs.Rows.{late_payload};

/// In the worked run the client's poll is next behind three answers, and takes memory, whatever it
/// gives: `run` may stop there, and so may `run_alone` at the client.
pub fn poll_is_a_cause()
    ensures run { StopsFor sending_events (take 3 sending_answers) once_ended }
    ensures alone { StopsAloneFor [] (map (λ e. e.call) sending_events) (take 3 sending_answers) }
{}

/// A client that its server closed with the text `late` is viewed with that text, which takes
/// memory: `run` may stop there also where the next call opens a stream.
#[tactic(auto, unfolding(crate::specs::Coming::came))]
pub fn text_is_a_cause()
    ensures { (events : List RunEvent) (answers : List Answer) → slice_get events (length answers) ≡ Some opens_stream
        → StopsFor events answers (with_client started (came late_payload client_made).end) }
{}

/// Behind an answer, and where the next call opens a stream, `why` of `run` refuses that memory ran
/// out in the run itself, unless an endpoint was closed by the other one with a text; and that of
/// `run_alone` refuses it at any endpoint.
pub fn opening_is_no_cause()
    ensures run { (w : World) (events : List RunEvent) (answers : List Answer) (side : Side) (dir : Dir) → answers ≢ []
        → slice_get events (length answers) ≡ Some (record { side = side; call = calls.Open dir })
        → told_len w.client.closing.reason ≡ 0 → told_len w.server.closing.reason ≡ 0 → StopsFor events answers w → ⊥ }
    ensures alone { (theirs : List (List ℕ)) (made : List Call) (answers : List Answer) (dir : Dir) → answers ≢ []
        → slice_get made (length answers) ≡ Some (calls.Open dir) → StopsAloneFor theirs made answers → ⊥ }
{}
