//! What the definitions of runs say together. Each function does nothing: its contract is the law.
ghost use Rattle.std.specs.Prelude.{◌≡◌, ◌≤◌, length, false, List};
ghost use Rattle.std.specs.List.{list_any};
ghost use Rattle.quic_machine.specs.declared.run.RunEvent.{RunEvent};
ghost use Rattle.quic_machine.specs.declared.run.Answer.{Answer};
ghost use Rattle.quic_machine.specs.declared.run.View.{View};
ghost use Rattle.quic_machine.specs.Machine.{World, Policies, Follows, fails};

/// Where memory served, the answers of a run tell what is seen after each event, and what it
/// leaves.
pub fn answers_tell_the_run()
    ensures { (k : Policies) (w : World) (events : List RunEvent) (told : List Answer) (views others : List View) (x y : World) → list_any fails told ≡ false
        → Follows k w events told views x → Follows k w events told others y → (views ≡ others) × (x ≡ y) }
{}

/// A run has one view for each answer, and no answer without an event.
pub fn each_answer_has_a_view()
    ensures views { (k : Policies) (w end : World) (events : List RunEvent) (told : List Answer) (views : List View) → Follows k w events told views end → length views ≡ length told }
    ensures events { (k : Policies) (w end : World) (events : List RunEvent) (told : List Answer) (views : List View) → Follows k w events told views end → length told ≤ length events }
{}
