//! What an acknowledgement says of how long it was held back, computed, and the run of a server
//! that says 0. Each function does nothing: its contract is the law.
ghost use Rattle.std.specs.Prelude.{◌≡◌, ◌∷◌, []};
ghost use Rattle.quic_wire_core.specs.declared.stream_id.Side.TheVariants.{Server};
ghost use Rattle.quic_headline.specs.Observer.{sents_until};
ghost use Rattle.quic_headline.specs.Headline.{IsHonest};
ghost use Rattle.quic_headline.specs.AckDelays.{AcksSayDelay, IsSince};
ghost use Rattle.quic_worked.specs.Machines.{NeverGives};
ghost use Rattle.quic_worked.specs.Smoothed.{smoothed_run};
ghost use Rattle.quic_worked.specs.Delayed.{late_sent, prompt_run};

/// A datagram that came at 10 ms is acknowledged at 35 ms: the ACK frame says 3125, as 25 ms are so
/// many times 8 microseconds (RFC 9000, section 19.3).
pub fn delay_is_said()
    ensures went { sents_until smoothed_run Server 5 ≡ late_sent ∷ [] }
    ensures since { IsSince smoothed_run Server 4 35000000 3125 }
    ensures delays { AcksSayDelay smoothed_run }
{}

/// A server that says 0 there breaks the clause. The machine gives another datagram.
pub fn prompt_ack_shows()
    ensures delays { AcksSayDelay prompt_run → ⊥ }
    ensures premises { IsHonest prompt_run }
    ensures machine { NeverGives prompt_run }
{}
