//! A run in which a server draws an id for one that its peer retired, computed, and a server that
//! tells one token twice. Each function does nothing: its contract is the law.
ghost use Rattle.std.specs.Prelude.{◌≡◌, [], ◌∷◌, ◌++◌};
ghost use Rattle.quic_wire_core.specs.declared.stream_id.Side.TheVariants.{Server};
ghost use Rattle.quic_headline.specs.Observer.{sents_until};
ghost use Rattle.quic_headline.specs.Headline.{IsHonest, IsRun};
ghost use Rattle.quic_headline.specs.DrawnIds.{IsDrawnAt, IdsAreDrawn};
ghost use Rattle.quic_worked.specs.Machines.{NeverGives};
ghost use Rattle.quic_worked.specs.Known.{telling_sent};
ghost use Rattle.quic_worked.specs.Drawn.{up_to_255, low_word, once_drawn, eighth_with, eighth_sent, drawing_run, token_again};

/// A server made of words that are all 63 draws the next id, for one that its peer retired, of
/// words that count up: it has number 8, and is word 22, with 23 and 24 as its token (RFC 9000,
/// sections 5.1.1 and 10.3.2).
pub fn next_id_is_drawn()
    ensures honest { IsHonest drawing_run }
    ensures run { IsRun drawing_run (once_drawn 6) }
    ensures sent { sents_until drawing_run Server 6 ≡ telling_sent ∷ eighth_sent (low_word 23 ++ low_word 24) ∷ [] }
    ensures drawn { IsDrawnAt up_to_255 22 (eighth_with (low_word 23 ++ low_word 24)) }
    ensures keeps { IdsAreDrawn drawing_run }
{}

/// Sending: a server tells the token of an id again, with another id.
pub fn token_again_shows()
    ensures drawn { IdsAreDrawn token_again → ⊥ }
    ensures premises { IsHonest token_again }
    ensures machine { NeverGives token_again }
{}
