//! What an end lets come in a run in which it is told at once what was read, and machines that let
//! more come. Each function does nothing: its contract is the law.
ghost use Rattle.std.specs.Prelude.{◌≡◌, true, [], ◌∷◌};
ghost use Rattle.quic_wire_core.specs.declared.stream_id.Side.TheVariants.{Server};
ghost use Rattle.quic_wire_core.specs.declared.stream_id.Dir.TheVariants.{Uni};
ghost use Rattle.quic_wire.specs.Value.{max_data, max_stream_data, max_streams};
ghost use Rattle.quic_machine.specs.declared.run.ReadCall.{ReadCall};
ghost use Rattle.quic_machine.specs.Start.{AreStarted};
ghost use Rattle.quic_headline.specs.Runs.{until};
ghost use Rattle.quic_headline.specs.Observer.{took, sents_until};
ghost use Rattle.quic_headline.specs.Headline.{IsHonest};
ghost use Rattle.quic_headline.specs.Duties.{WasGiven};
ghost use Rattle.quic_headline.specs.Unread.{receive_window, stream_window};
ghost use Rattle.quic_headline.specs.Amounts.{making_at};
ghost use Rattle.quic_headline.specs.Credit.{streams_of, consumed_on, all_consumed, CreditIsBounded, all_over, most_at_once, CountsAreBounded};
ghost use Rattle.quic_worked.specs.Credit.{narrow_count, count_run, ReadsEight, ReadsOneWay};
ghost use Rattle.quic_worked.specs.Limited.{limited_start, limited_run};
ghost use Rattle.quic_worked.specs.Machines.{NeverGives};
ghost use Rattle.quic_worked.specs.Bounded.{twice_for_all, twice_on_one, twice_done};

/// A server whose windows are 8 bytes for all and 5 for each stream, and that read 5 bytes of the
/// first of two streams, of which 7 bytes came, says MAX_DATA of 13 and MAX_STREAM_DATA of 10: as
/// much as the clause lets it.
pub fn all_credit_is_given()
    ensures streams { (read : ReadCall)
        → streams_of (took (limited_run read) Server 10) ≡ 0 ∷ 4 ∷ [] }
    ensures first { (read : ReadCall) → read.id ≡ 0 → consumed_on 0 (took (limited_run read) Server 10)
        (until (limited_run read) Server 10) ≡ 5 }
    ensures second { (read : ReadCall) → read.id ≡ 0 → consumed_on 4 (took (limited_run read) Server 10)
        (until (limited_run read) Server 10) ≡ 0 }
    ensures all { (read : ReadCall) → read.id ≡ 0 → all_consumed (took (limited_run read) Server 10)
        (until (limited_run read) Server 10) ≡ 5 }
    ensures windows { (read : ReadCall) → (s : AreStarted limited_start)
        × (receive_window (limited_run read) s Server ≡ 8)
        × (stream_window (limited_run read) s Server ≡ 5) }
    ensures limit { (read : ReadCall)
        → WasGiven (sents_until (limited_run read) Server 10) (max_data 13) }
    ensures own { (read : ReadCall) → WasGiven (sents_until (limited_run read) Server 10)
        (max_stream_data (record { id = 0; limit = 10 })) }
{}

/// A machine that counts the bytes that were read twice in MAX_DATA.
pub fn twice_for_all_shows()
    ensures credit { (read : ReadCall) → read.id ≡ 0 → CreditIsBounded (twice_for_all read) → ⊥ }
    ensures premises { (read : ReadCall) → read.id ≡ 0 → IsHonest (twice_for_all read) }
    ensures machine { (read : ReadCall) → ReadsEight read → NeverGives (twice_for_all read) }
{}

/// And one that does so in MAX_STREAM_DATA.
pub fn twice_on_one_shows()
    ensures credit { (read : ReadCall) → read.id ≡ 0 → CreditIsBounded (twice_on_one read) → ⊥ }
    ensures premises { (read : ReadCall) → read.id ≡ 0 → IsHonest (twice_on_one read) }
    ensures machine { (read : ReadCall) → ReadsEight read → NeverGives (twice_on_one read) }
{}

/// A server that takes one one-way stream at once, and one such stream of the client's is done
/// there, says MAX_STREAMS of two: as many as the clause lets it.
pub fn all_counts_are_given()
    ensures over { (read : ReadCall) → read.id ≡ 2 → all_over Server Uni
        (took (count_run read) Server 9) (until (count_run read) Server 9) ≡ 1 }
    ensures once { (s : AreStarted narrow_count)
        × (most_at_once Uni (making_at Server narrow_count s).settings ≡ 1) }
    ensures said { (read : ReadCall) → WasGiven (sents_until (count_run read) Server 9)
        (max_streams (record { one_way = true; count = 2 })) }
{}

/// A machine that counts the stream that is done twice in MAX_STREAMS.
pub fn twice_done_shows()
    ensures credit { (read : ReadCall) → read.id ≡ 2 → CountsAreBounded (twice_done read) → ⊥ }
    ensures premises { (read : ReadCall) → read.id ≡ 2 → IsHonest (twice_done read) }
    ensures machine { (read : ReadCall) → ReadsOneWay read → NeverGives (twice_done read) }
{}
