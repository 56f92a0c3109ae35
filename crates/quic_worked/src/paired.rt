//! A run of two streams at once, of which one is reset and the other stopped, and machines that go
//! wrong there. Each function does nothing: its contract is the law.
ghost use Rattle.std.specs.Prelude.{◌≡◌, [], ◌∷◌, Some, None, Ok};
ghost use Rattle.quic_wire_core.specs.declared.stream_id.Side.TheVariants.{Client, Server};
ghost use Rattle.quic_machine.specs.declared.run.ReadCall.{ReadCall};
ghost use Rattle.quic_machine.specs.declared.run.Call.TheVariants as calls;
ghost use Rattle.quic_machine.specs.declared.run.Answer.TheVariants as answers;
ghost use Rattle.quic_headline.specs.Runs.{until, written, reset, reads, ids_of, accepts, given_until};
ghost use Rattle.quic_headline.specs.Observer.{took};
ghost use Rattle.quic_headline.specs.Duties.{DutiesAt};
ghost use Rattle.quic_headline.specs.InFlight.{TracksAt};
ghost use Rattle.quic_headline.specs.Headline.{Slices, AcceptsAll, FinishedMeansArrived, IsAt, IsHonest, IsRun};
ghost use Rattle.quic_headline.specs.Resets.{ResetsAreTold};
ghost use Rattle.quic_headline.specs.Ids.{IdsAreNew, AcceptedWereOpened};
ghost use Rattle.quic_worked.specs.Acknowledged.{client_datagram, from_server};
ghost use Rattle.quic_worked.specs.Reordered.{abc, def};
ghost use Rattle.quic_worked.specs.Broken.{IsNoRun, NeverLeadsFrom};
ghost use Rattle.quic_worked.specs.Paired.{ReadsSecond, second_bounds, paired_payload, stop_payload, paired_frames, giving_events, giving_answers, reset_refused, paired_run, told_of_reset, other_code, opened_twice, accepted_early, accepted_twice, reset_of_second, pair_giving, reset_forgotten, reset_changed, reset_unaccepted, second_unaccepted, other_bytes};
ghost use Rattle.quic_worked.specs.Worked.{both_steady};

/// The reference machine runs it, and gives these datagrams: the reset of the first stream goes
/// with the bytes of the second, and is told to the server's application; the stop of the second
/// goes with an acknowledgement, and is told to the client's, which writes no more and resets no
/// stream twice.
pub fn paired_run_follows()
    ensures run { (read : ReadCall) → ReadsSecond second_bounds read
        → IsRun (paired_run read) reset_refused }
    ensures honest { (read : ReadCall) → read.id ≡ 4 → IsHonest (paired_run read) }
{}

/// What its lists say.
pub fn paired_run_tells()
    ensures opened { (read : ReadCall)
        → ids_of (until (paired_run read) Client 18) ≡ 0 ∷ 4 ∷ [] }
    ensures accepted { (read : ReadCall)
        → accepts (until (paired_run read) Server 18) ≡ 0 ∷ 4 ∷ [] }
    ensures first { (read : ReadCall) → written 0 (until (paired_run read) Client 18) ≡ abc }
    ensures second { (read : ReadCall) → written 4 (until (paired_run read) Client 18) ≡ def }
    ensures code { (read : ReadCall) → reset 0 (until (paired_run read) Client 18) ≡ Some 7 }
    ensures not_reset { (read : ReadCall) → reset 4 (until (paired_run read) Client 18) ≡ None }
    ensures given { (read : ReadCall)
        → given_until (paired_run read) Client 18 ≡ client_datagram 0 0 paired_payload ∷ [] }
    ensures answered { (read : ReadCall)
        → given_until (paired_run read) Server 18 ≡ from_server 0 stop_payload ∷ [] }
    ensures took { (read : ReadCall) → took (paired_run read) Server 18
        ≡ record { number = 0; frames = paired_frames } ∷ [] }
    ensures bytes { (read : ReadCall) → read.id ≡ 4
        → reads 4 (until (paired_run read) Server 18) ≡ record { offset = 0; bytes = def } ∷ [] }
{}

/// Application calls: a stream that was reset is told to be finished.
pub fn reset_stream_is_told()
    ensures arrived { (read : ReadCall) → FinishedMeansArrived (told_of_reset read) → ⊥ }
    ensures machine { (read : ReadCall) → ReadsSecond second_bounds read
        → IsNoRun (told_of_reset read) }
{}

/// The client opens each of its streams once, and the server accepts each once. A machine that
/// opens one twice is wrong, and so is one that accepts one twice.
pub fn ids_are_given_once()
    ensures right { (read : ReadCall) → ReadsSecond second_bounds read → IdsAreNew (paired_run read) }
    ensures opened { (read : ReadCall) → IdsAreNew (opened_twice read) → ⊥ }
    ensures accepted { (read : ReadCall) → IdsAreNew (accepted_twice read) → ⊥ }
    ensures opened_machine { (read : ReadCall) → IsNoRun (opened_twice read) }
    ensures accepted_machine { (read : ReadCall) → IsNoRun (accepted_twice read) }
{}

/// Both streams that the server accepts are opened by frames that came. A machine that accepts one
/// before anything came is wrong.
pub fn early_accept_shows()
    ensures right { (read : ReadCall) → ReadsSecond second_bounds read
        → AcceptedWereOpened (paired_run read) }
    ensures early { AcceptedWereOpened accepted_early → ⊥ }
    ensures machine { IsNoRun accepted_early }
{}

/// The reset is told with the code that the client gave. A machine that tells it with another code,
/// or a reset of a stream that wasn't reset, is wrong.
pub fn resets_are_told_rightly()
    ensures told { (read : ReadCall)
        → IsAt (paired_run read) 9 Server (calls.ReceivedReset 0) (answers.ReceivedReset (Ok (Some 7))) }
    ensures right { (read : ReadCall) → ReadsSecond second_bounds read → ResetsAreTold (paired_run read) }
    ensures code { (read : ReadCall) → ResetsAreTold (other_code read) → ⊥ }
    ensures stream { (read : ReadCall) → read.id ≡ 4 → ResetsAreTold (reset_of_second read) → ⊥ }
    ensures code_machine { (read : ReadCall) → IsNoRun (other_code read) }
    ensures stream_machine { (read : ReadCall) → ReadsSecond second_bounds read
        → IsNoRun (reset_of_second read) }
{}

/// Sending: a reset is forgotten once it went, though its datagram came to nobody.
pub fn reset_is_forgotten()
    ensures duties { (read : ReadCall) → DutiesAt (pair_giving read) 6 reset_forgotten → ⊥ }
    ensures machine { NeverLeadsFrom both_steady giving_events giving_answers reset_forgotten }
{}

/// Sending: of a datagram with a reset it is kept that it resets another stream.
pub fn reset_is_changed()
    ensures tracks { (read : ReadCall) → TracksAt (pair_giving read) 6 reset_changed → ⊥ }
    ensures machine { NeverLeadsFrom both_steady giving_events giving_answers reset_changed }
{}

/// Receiving: a stream isn't accepted of which the reset alone came.
pub fn reset_stream_is_not_accepted()
    ensures accepts { (read : ReadCall) → AcceptsAll (reset_unaccepted read) → ⊥ }
    ensures machine { (read : ReadCall) → IsNoRun (reset_unaccepted read) }
{}

/// Receiving: of two streams that came the second is never accepted.
pub fn second_stream_is_not_accepted()
    ensures accepts { (read : ReadCall) → AcceptsAll (second_unaccepted read) → ⊥ }
    ensures machine { (read : ReadCall) → IsNoRun (second_unaccepted read) }
{}

/// Receiving: what was written on one stream is read on another.
pub fn bytes_change_streams()
    ensures slices { (read : ReadCall) → read.id ≡ 4 → Slices (other_bytes read) → ⊥ }
    ensures machine { (read : ReadCall) → ReadsSecond second_bounds read
        → IsNoRun (other_bytes read) }
{}

/// These runs meet the premises of the headline, so it isn't for want of those that it is false of
/// them.
pub fn paired_premises_hold()
    ensures told { (read : ReadCall) → read.id ≡ 4 → IsHonest (told_of_reset read) }
    ensures giving { (read : ReadCall) → IsHonest (pair_giving read) }
    ensures first { (read : ReadCall) → IsHonest (reset_unaccepted read) }
    ensures second { (read : ReadCall) → IsHonest (second_unaccepted read) }
    ensures other { (read : ReadCall) → read.id ≡ 4 → IsHonest (other_bytes read) }
    ensures code { (read : ReadCall) → IsHonest (other_code read) }
    ensures opened { (read : ReadCall) → IsHonest (opened_twice read) }
    ensures accepted { (read : ReadCall) → IsHonest (accepted_twice read) }
    ensures early { IsHonest accepted_early }
    ensures reset { (read : ReadCall) → read.id ≡ 4 → IsHonest (reset_of_second read) }
{}
