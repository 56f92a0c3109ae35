//! The definitions computed on an acknowledgement: the server takes `hello`, and acknowledges it.
//! Each function does nothing: its contract is the law.
ghost use Rattle.std.specs.Prelude.{◌≡◌, ◌-◌, ◌^◌, ◌∷◌, ◌++◌, [], Bool, true, false, Some, None, Ok, map};
ghost use Rattle.quic_wire_core.specs.TransportError.{plain_error};
ghost use Rattle.quic_wire_core.specs.declared.shared.EcnCodepoint.TheVariants.{Ect0};
ghost use Rattle.quic_time.specs.Timers.{timer_at, next_timer};
ghost use Rattle.quic_time.specs.declared.timer.Timer.TheVariants.{MaxAckDelay, LossDetection};
ghost use Rattle.quic_machine.specs.declared.answers.Event.TheVariants as events;
ghost use Rattle.quic_machine.specs.declared.answers.LostReason.TheVariants.{NumberLimit};
ghost use Rattle.quic_machine.specs.declared.answers.Received.TheVariants as receives;
ghost use Rattle.quic_machine.specs.declared.answers.DropReason.TheVariants as drops;
ghost use Rattle.quic_machine.specs.declared.run.Answer.TheVariants as answers;
ghost use Rattle.quic_streams_parts.specs.declared.answers.StreamEvent.TheVariants.{Finished};
ghost use Rattle.quic_machine.specs.Acked.{after_acked};
ghost use Rattle.quic_machine.specs.Tracking.{nothing_tracked, loss_moment};
ghost use Rattle.quic_spaces.specs.Acknowledging.{written_delay};
ghost use Rattle.quic_spaces.specs.Numbers.{cut_against};
ghost use Rattle.quic_machine.specs.End.{drained_by, probe_timeout};
ghost use Rattle.quic_machine.specs.Calls.{end_tells, end_after_event, end_after_ping};
ghost use Rattle.quic_machine.specs.Opens.{would_open};
ghost use Rattle.quic_machine.specs.Poll.{composed};
ghost use Rattle.quic_machine.specs.Timeouts.{timed_out};
ghost use Rattle.quic_worked.specs.Worked.{client_gives, server_gives, worked_policies, client_made, server_made, once_sent, once_taken, hello_datagram, ids_payload, told_ids, hello_whole};
ghost use Rattle.quic_worked.specs.Acknowledged.{client_takes, injected, third_ack, server_early, server_due, server_acked, ack_payload, ack_at_once, ack_of_unsent, from_server, client_datagram, client_acked, client_pinged, client_lost, client_mixed, two_ranges, client_timed_out};
ghost use Rattle.quic_worked.specs.Losses.{first_ping};

/// A packet that asks and comes in order is acknowledged after 25 ms: nothing is given before the
/// timer expires, and then an ACK frame alone, as the window is shut. Where something else goes
/// before, the acknowledgement goes along.
#[tactic(auto, unfolding(crate::specs::Acknowledged::server_acked))]
pub fn hello_is_acknowledged()
    ensures set { timer_at MaxAckDelay once_taken.server.timers ≡ Some 25000000 }
    ensures next { next_timer once_taken.server.timers ≡ Some 25000000 }
    ensures nothing_yet { (server_gives once_taken.server 0).answer ≡ Ok None }
    ensures early { (timed_out worked_policies.server once_taken.server 24999999).answer ≡ Ok tt }
    ensures still_set { timer_at MaxAckDelay server_early.timers ≡ Some 25000000 }
    ensures nothing_early { (server_gives server_early 24999999).answer ≡ Ok None }
    ensures due { (timed_out worked_policies.server once_taken.server 25000000).answer ≡ Ok tt }
    ensures stopped { next_timer server_due.timers ≡ None }
    ensures given { (server_gives server_due 25000000).datagram ≡ Some (from_server 0 ack_payload) }
    ensures size { (server_gives server_due 25000000).answer
        ≡ Ok (Some (record { size = 32; ecn = Some Ect0; remote = 0 })) }
    ensures once { (server_gives server_acked 25000000).answer ≡ Ok None }
    ensures along { (composed (end_after_ping once_taken.server)).bytes ≡ 0x01 ∷ told_ids ack_at_once }
    ensures before { (composed (end_after_ping server_due)).bytes ≡ ack_payload ++ first_ping }
    ensures long { written_delay (2 ^ 64 - 1) ≡ 2305843009213693 }
{}

/// The client takes the acknowledgement: its later numbers are cut against the one that it names,
/// it waits for none any more, and its stream is finished, which is told once. One that names a
/// number that the client never gave closes it.
#[tactic(auto, unfolding(crate::specs::Acknowledged::client_acked))]
pub fn acknowledgements_are_taken()
    ensures answer { (client_takes once_sent.client 25000000 ack_payload).answer ≡ receives.Taken }
    ensures cut { cut_against client_acked.numbers ≡ 0 }
    ensures named { client_acked.numbers.largest_acked ≡ Some 0 }
    ensures waits_for { client_acked.tracking.packets ≡ [] }
    ensures stopped { next_timer client_acked.timers ≡ None }
    ensures told { end_tells client_acked ≡ Some (events.Stream (Finished 0)) }
    ensures once { end_tells (end_after_event client_acked) ≡ None }
    ensures unsent { (client_takes once_sent.client 0 ack_of_unsent).answer
        ≡ receives.Closed (plain_error 10) }
    ensures nothing_sent { (client_takes client_made 0 ack_payload).answer
        ≡ receives.Closed (plain_error 10) }
{}

/// Where three later datagrams went before the one that is acknowledged, one counts as lost, and
/// goes again under a number of its own, and new bytes behind it; one that is acknowledged twice
/// changes nothing more.
#[tactic(auto, unfolding(crate::specs::Acknowledged::client_lost, crate::specs::Acknowledged::client_mixed))]
pub fn lost_bytes_go_again()
    ensures sent { map (λ p. p.0) client_pinged.tracking.packets ≡ 0 ∷ 1 ∷ 2 ∷ 3 ∷ [] }
    ensures lost { map (λ p. p.0) client_lost.tracking.packets ≡ 1 ∷ 2 ∷ [] }
    ensures beside { (composed client_mixed).bytes ≡ told_ids two_ranges ++ ack_at_once }
    ensures again { (client_gives client_lost 0).datagram
        ≡ Some (client_datagram 4 3 (hello_whole ++ ack_at_once)) }
    ensures same { (rises : Bool) → after_acked rises third_ack client_lost ≡ client_lost }
{}

/// A datagram that asks is waited for: for 1024 ms, which are the 333 ms that a round trip is taken
/// to last at first, four times half of that, and the 25 ms for which the peer may hold an
/// acknowledgement back; then twice as long, and at most 65536 times as long. After each time two
/// probes go: the first has the ids, which the datagram that wasn't acknowledged told.
#[tactic(auto, unfolding(crate::specs::Worked::once_sent))]
pub fn timeouts_are_probed()
    ensures set { timer_at LossDetection once_sent.client.timers ≡ Some 1024000000 }
    ensures early { (timed_out worked_policies.client once_sent.client 1023999999).end.tracking
        ≡ once_sent.client.tracking }
    ensures still_set { timer_at LossDetection (timed_out worked_policies.client once_sent.client 1023999999).end.timers
        ≡ Some 1024000000 }
    ensures expired { client_timed_out.tracking.probes ≡ 2 }
    ensures again { timer_at LossDetection client_timed_out.timers ≡ Some 2048000000 }
    ensures probe { (client_gives client_timed_out 1024000000).datagram
        ≡ Some (client_datagram 1 0 ids_payload) }
    ensures one_left { (client_gives client_timed_out 1024000000).end.tracking.probes ≡ 1 }
    ensures moment { timer_at LossDetection (client_gives client_timed_out 1024000000).end.timers
        ≡ Some 3072000000 }
    ensures most { loss_moment (probe_timeout once_sent.client)
        (record once_sent.client.tracking { timeouts = 20 }) ≡ Some 67108864000000 }
    ensures none { loss_moment (probe_timeout client_made) (nothing_tracked 0) ≡ None }
{}

/// Bytes that would open are not taken as an injection, also where they came before; others are
/// dropped.
#[tactic(auto, unfolding(crate::specs::Worked::once_taken))]
pub fn injections_are_judged()
    ensures opens { would_open worked_policies.server server_made 0 hello_datagram ≡ true }
    ensures again { would_open worked_policies.server once_taken.server 0 hello_datagram ≡ true }
    ensures drained { would_open worked_policies.server (drained_by NumberLimit server_made) 0
        hello_datagram ≡ true }
    ensures elsewhere { would_open worked_policies.client client_made 0 hello_datagram ≡ false }
    ensures nothing { would_open worked_policies.server server_made 0 [] ≡ false }
    ensures no_call { injected worked_policies.server server_made hello_datagram ≡ answers.Opens }
    ensures dropped { injected worked_policies.client client_made hello_datagram
        ≡ answers.Inject (receives.Dropped drops.UnknownId) }
{}

/// Why an end is lost is told once, and of an open end nothing.
pub fn losses_are_told_once()
    ensures open { end_tells client_made ≡ None }
    ensures lost { end_tells (drained_by NumberLimit client_made) ≡ Some (events.Lost NumberLimit) }
    ensures once { end_tells (end_after_event (drained_by NumberLimit client_made)) ≡ None }
    ensures stays { (end_after_event (end_after_event (drained_by NumberLimit client_made))).closing
        ≡ (end_after_event (drained_by NumberLimit client_made)).closing }
    ensures reason { (end_after_event (drained_by NumberLimit client_made)).closing.reason
        ≡ Some NumberLimit }
{}
