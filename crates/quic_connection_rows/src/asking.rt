//! A client that asks its peer how often to acknowledge, and a server that is asked (QUIC
//! Acknowledgement Frequency, sections 4 to 6).
ghost use Rattle.std.specs.Prelude.{◌≡◌, [], ◌∷◌, ◌++◌, true, false, Some, None, Ok};
ghost use Rattle.quic_wire_core.specs.declared.stream_id.Side.TheVariants.{Server};
ghost use Rattle.quic_time.specs.Rtt.{best_rtt};
ghost use Rattle.quic_machine.specs.declared.answers.Received.TheVariants as receives;
ghost use Rattle.quic_machine.specs.Poll.{asks_anew};
ghost use Rattle.quic_worked.specs.Settings.{plain_settings};
ghost use Rattle.quic_worked.specs.Worked.{ids_payload, server_made, client_gives};
ghost use Rattle.quic_worked.specs.Acknowledged.{client_datagram, ack_at_once};
ghost use Rattle.quic_connection_rows.specs.Coming.{came};
ghost use Rattle.quic_connection_rows.specs.Asking.{asking_of, asking_client, request, ten_millis, hundred_millis, fifty_millis, first_asked, thrice_pinged, request_lost, once_measured, ping_waits, asked_anew, anew_acknowledged, anew_held, asking_late, once_probed, twice_probed};

/// The first datagram asks, and the next ones don't. Once it counts as lost, as a later one is
/// acknowledged three numbers above, another request goes, with the next number.
#[tactic(auto, unfolding(crate::specs::Asking::request_lost))]
pub fn lost_request_goes_anew()
    ensures first { (client_gives (asking_client 10000000) 0).datagram
        ≡ Some (client_datagram 0 0 (request 0 ten_millis ++ ids_payload)) }
    ensures nothing { (client_gives (first_asked 10000000) 0).datagram ≡ None }
    ensures silent { (client_gives thrice_pinged 0).datagram ≡ None }
    ensures anew { (client_gives request_lost 0).datagram
        ≡ Some (client_datagram 4 3 (request 1 ten_millis ++ (ids_payload ++ ack_at_once))) }
{}

/// An acknowledgement is waited for as long as the peer is asked to hold it back: 333 ms, twice as
/// long again, and 100 ms. So it is once that is acknowledged: behind a round trip of 50 ms that
/// much is asked for, and the 100 ms may still be kept to. Then no more is asked.
#[tactic(auto, unfolding(crate::specs::Asking::anew_acknowledged))]
pub fn what_was_asked_is_waited_for()
    ensures first { (client_gives (asking_client 100000000) 0).datagram
        ≡ Some (client_datagram 0 0 (request 0 hundred_millis ++ ids_payload)) }
    ensures long { (first_asked 100000000).timers.loss_detection ≡ Some 1099000000 }
    ensures known { (once_measured 50000000).timers.loss_detection ≡ None }
    ensures second { (client_gives (ping_waits 50000000) 50000000).datagram
        ≡ Some (client_datagram 1 0 ((0x01 ∷ request 1 fifty_millis) ++ ack_at_once)) }
    ensures longer { asked_anew.timers.loss_detection ≡ Some 300000000 }
    ensures no_more { asks_anew anew_acknowledged.transport.ack_frequency_config anew_acknowledged ≡ false }
{}

/// A peer that told no min_ack_delay isn't asked (section 3).
#[tactic(auto, unfolding(crate::specs::Asking::first_asked))]
pub fn peer_that_takes_no_request_is_not_asked()
    ensures first { (client_gives (asking_of plain_settings 100000000) 0).datagram
        ≡ Some (client_datagram 0 0 ids_payload) }
    ensures due { (client_gives (asking_of plain_settings 100000000) 0).end.timers.loss_detection
        ≡ Some 1024000000 }
{}

/// A round trip of 80 ms differs by a fifth from the 100 ms that were asked for, which is too
/// little to ask anew; one of a microsecond less differs by more.
#[tactic(auto, unfolding(crate::specs::Asking::once_measured))]
pub fn fifth_is_no_difference()
    ensures just_so { asks_anew (once_measured 80000000).transport.ack_frequency_config (once_measured 80000000) ≡ false }
    ensures more { asks_anew (once_measured 79999000).transport.ack_frequency_config (once_measured 79999000) ≡ true }
{}

/// The packet that asks for 50 ms is acknowledged 150 ms later, of which the peer says that it held
/// the acknowledgement back for 80 ms: it keeps to what that packet asks for, so that no more than
/// 50 ms are taken off. That is seven eighths of 50 ms, and one of 100 ms (RFC 9002, section 5.3).
#[tactic(auto, unfolding(crate::specs::Asking::anew_held))]
pub fn acknowledged_request_cuts_the_sample()
    ensures smoothed { best_rtt anew_held.path.rtt ≡ 56250000 }
    ensures least { anew_held.path.rtt.least ≡ 50000000 }
{}

/// Each probe asks anew, with the next number, as long as none is acknowledged, and for an
/// acknowledgement at once.
#[tactic(auto, unfolding(crate::specs::Asking::twice_probed))]
pub fn probes_ask_anew()
    ensures first { (client_gives asking_late 1024000000).datagram
        ≡ Some (client_datagram 1 0 ((0x1f ∷ request 1 ten_millis) ++ ids_payload)) }
    ensures second { (client_gives once_probed 1024000000).datagram
        ≡ Some (client_datagram 2 0 ((0x1f ∷ request 2 ten_millis) ++ ids_payload)) }
    ensures nothing { (client_gives twice_probed 1024000000).datagram ≡ None }
{}

/// A request is obeyed though the peer wasn't told that it may ask.
#[tactic(auto, unfolding(crate::specs::Coming::came))]
pub fn request_is_obeyed_without_support()
    ensures untold { plain_settings.ack_frequency_support ≡ false }
    ensures taken { (came (request 0 ten_millis) server_made).answer ≡ receives.Taken }
    ensures threshold { (came (request 0 ten_millis) server_made).end.acknowledging.threshold ≡ 4 }
    ensures reordering { (came (request 0 ten_millis) server_made).end.acknowledging.reordering ≡ 3 }
    ensures due { (came (request 0 ten_millis) server_made).end.timers.max_ack_delay ≡ Some 10000000 }
{}
