//! What an application is told of, computed, and machines that tell it nothing. Each function does
//! nothing: its contract is the law.
ghost use Rattle.std.specs.Prelude.{◌≡◌, [], ◌∷◌, true, false};
ghost use Rattle.quic_wire_core.specs.declared.stream_id.Side.TheVariants.{Server};
ghost use Rattle.quic_wire_core.specs.declared.stream_id.Dir.TheVariants.{Bi};
ghost use Rattle.quic_machine.specs.declared.run.ReadCall.{ReadCall};
ghost use Rattle.quic_headline.specs.Observer.{took};
ghost use Rattle.quic_headline.specs.Headline.{IsHonest, IsRun};
ghost use Rattle.quic_headline.specs.Events.{mail, MessagesAreTold, heard_of, OpeningsAreTold, reading, ReadablesAreTold};
ghost use Rattle.quic_worked.specs.Broken.{IsNoRun};
ghost use Rattle.quic_worked.specs.Worked.{ReadsBy, two_chunks};
ghost use Rattle.quic_worked.specs.Messages.{message_run};
ghost use Rattle.quic_worked.specs.Told.{opening_run, hello_packet, opening_end, opening_untold, readable_run, readable_end, readable_untold, message_untold};

/// The client's word opens a stream at the server, whose application is told so, and then nothing.
pub fn opening_is_told()
    ensures honest { IsHonest opening_run }
    ensures run { IsRun opening_run opening_end }
    ensures took { took opening_run Server 6 ≡ hello_packet ∷ [] }
    ensures heard { heard_of opening_run Server Bi 6 ≡ hello_packet ∷ [] }
{}

/// More comes on a stream that the server accepted and read until it was blocked: its application
/// is to be told that the stream may be read, and is told so.
pub fn readable_is_told()
    ensures honest { (read : ReadCall) → ReadsBy two_chunks read → IsHonest (readable_run read) }
    ensures run { (read : ReadCall) → ReadsBy two_chunks read → IsRun (readable_run read) readable_end }
    ensures waits { (read : ReadCall) → ReadsBy two_chunks read
        → (reading (readable_run read) Server 0 10).waits ≡ true }
    ensures told { (read : ReadCall) → ReadsBy two_chunks read
        → (reading (readable_run read) Server 0 11).waits ≡ false }
{}

/// A message waits where the server's application is told nothing next: it was told that one came.
pub fn message_is_told_of()
    ensures waits { (mail message_run Server 5).unread ≡ 1 }
    ensures told { (mail message_run Server 5).told ≡ true }
{}

/// Events: an application is told nothing, though the peer opened a stream.
pub fn opening_is_not_told()
    ensures told { OpeningsAreTold opening_untold → ⊥ }
    ensures premises { IsHonest opening_untold }
    ensures machine { IsNoRun opening_untold }
{}

/// Events: an application is told nothing, though more came on a stream that it reads.
pub fn readable_is_not_told()
    ensures told { (read : ReadCall) → ReadsBy two_chunks read
        → ReadablesAreTold (readable_untold read) → ⊥ }
    ensures premises { (read : ReadCall) → ReadsBy two_chunks read → IsHonest (readable_untold read) }
    ensures machine { (read : ReadCall) → ReadsBy two_chunks read → IsNoRun (readable_untold read) }
{}

/// Events: an application is told nothing, though a message came.
pub fn message_is_not_told_of()
    ensures told { MessagesAreTold message_untold → ⊥ }
    ensures premises { IsHonest message_untold }
    ensures machine { IsNoRun message_untold }
{}
