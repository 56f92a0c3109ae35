//! A run in which a client gives the bytes of a stream, computed, and those of clients that say of
//! it what wasn't written. Each function does nothing: its contract is the law.
ghost use Rattle.quic_headline.specs.Headline.{IsHonest};
ghost use Rattle.quic_headline.specs.Spelled.{StreamsSay};
ghost use Rattle.quic_worked.specs.Machines.{NeverGives};
ghost use Rattle.quic_worked.specs.Said.{said_run};
ghost use Rattle.quic_worked.specs.Respelled.{respelled_run, cut_short_run, far_run};

/// A client gives the eight bytes that it wrote.
pub fn bytes_are_as_written()
    ensures { StreamsSay said_run }
{}

/// Sending: a client gives the first byte of a stream again, as another one; or as it was, with
/// FIN, though the stream isn't finished. A peer to which all came before reads what was written
/// all the same.
pub fn other_bytes_show()
    ensures bytes { StreamsSay respelled_run → ⊥ }
    ensures fin { StreamsSay cut_short_run → ⊥ }
    ensures bytes_premises { IsHonest respelled_run }
    ensures fin_premises { IsHonest cut_short_run }
    ensures machine_bytes { NeverGives respelled_run }
    ensures machine_fin { NeverGives cut_short_run }
{}

/// Sending: a client gives a STREAM frame without a byte at offset 63 of a stream, on which it
/// wrote eight.
pub fn far_frame_shows()
    ensures within { StreamsSay far_run → ⊥ }
    ensures premises { IsHonest far_run }
    ensures machine { NeverGives far_run }
{}
