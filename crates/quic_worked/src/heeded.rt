//! Streams are opened in their order, and take no bytes once the peer stopped them: computed on the
//! run of two streams, and on runs of machines with a bug. Each function does nothing: its contract
//! is the law.
ghost use Rattle.std.specs.Prelude.{◌≡◌, true};
ghost use Rattle.quic_wire_core.specs.declared.stream_id.Side.TheVariants.{Client};
ghost use Rattle.quic_machine.specs.declared.run.ReadCall.{ReadCall};
ghost use Rattle.quic_headline.specs.Observer.{took};
ghost use Rattle.quic_headline.specs.Headline.{IsHonest};
ghost use Rattle.quic_headline.specs.Amounts.{was_stopped};
ghost use Rattle.quic_headline.specs.InOrder.{OpensInOrder};
ghost use Rattle.quic_headline.specs.Stopped.{StoppedTakeNothing};
ghost use Rattle.quic_worked.specs.Broken.{IsNoRun};
ghost use Rattle.quic_worked.specs.Paired.{ReadsSecond, second_bounds, paired_run};
ghost use Rattle.quic_worked.specs.Heeded.{opened_backwards, written_on};

/// The client opens stream 0, and then stream 4.
pub fn streams_open_in_order()
    ensures right { (read : ReadCall) → ReadsSecond second_bounds read → OpensInOrder (paired_run read) }
{}

/// Streams: the client opens stream 4 before stream 0 (RFC 9000, section 2.1).
pub fn backward_opens_show()
    ensures order { (read : ReadCall) → OpensInOrder (opened_backwards read) → ⊥ }
    ensures premises { (read : ReadCall) → IsHonest (opened_backwards read) }
    ensures machine { (read : ReadCall) → IsNoRun (opened_backwards read) }
{}

/// The server's STOP_SENDING of stream 4 came to the client, which writes nothing on it then.
pub fn stops_are_heeded()
    ensures came { (read : ReadCall) → was_stopped 4 (took (paired_run read) Client 16) ≡ true }
    ensures right { (read : ReadCall) → ReadsSecond second_bounds read → StoppedTakeNothing (paired_run read) }
{}

/// Streams: the client writes on after the server stopped its stream (RFC 9000, sections 2.4 and
/// 3.5).
pub fn unheeded_stop_shows()
    ensures takes { (read : ReadCall) → StoppedTakeNothing (written_on read) → ⊥ }
    ensures premises { (read : ReadCall) → read.id ≡ 4 → IsHonest (written_on read) }
    ensures machine { (read : ReadCall) → ReadsSecond second_bounds read → IsNoRun (written_on read) }
{}
