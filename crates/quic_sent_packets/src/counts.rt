//! How many packets are there of each kind that is asked for, so that no call has to walk them.
ghost use Rattle.std.specs.Prelude.{◌≡◌, ◌+◌, ◌≤◌, ◌<◌, ◌^◌};
ghost use Rattle.std.specs.Option.{option_copied};
ghost use Rattle.quic_sent_packets.specs.Counts.{counts_against, counts_of, of_one};

use crate::sent_packet::SentPacket;

/// How many packets are there of two kinds.
#[derive(Clone, Copy)]
pub(crate) struct Counts {
    /// Those that ask for an acknowledgement.
    pub(crate) asking: usize,
    /// Those that count against the congestion window.
    pub(crate) in_flight: usize,
}

impl Counts {
    /// No packet is there.
    pub(crate) fn new() -> Self
        ensures { result ≡ record { asking = 0; in_flight = 0 } }
    {
        Counts {
            asking: 0,
            in_flight: 0,
        }
    }

    /// One packet alone is there.
    pub(crate) fn of(packet: &SentPacket) -> Self
        ensures { result ≡ counts_of packet.now }
    {
        Counts {
            asking: usize::from(packet.ack_eliciting),
            in_flight: usize::from(packet.size > 0),
        }
    }

    /// More packets come.
    pub(crate) fn add(&mut self, more: Counts)
        requires asking { self.old.asking + more.asking < 2 ^ 64 }
        requires in_flight { self.old.in_flight + more.in_flight < 2 ^ 64 }
        ensures asking { self.new.asking ≡ self.old.asking + more.asking }
        ensures in_flight { self.new.in_flight ≡ self.old.in_flight + more.in_flight }
    {
        self.asking += more.asking;
        self.in_flight += more.in_flight;
    }

    /// A packet goes that was there, if one does.
    pub(crate) fn take(&mut self, packet: Option<&SentPacket>)
        requires asking { of_one (λ p. p.asks) (option_copied packet) ≤ self.old.asking }
        requires in_flight { of_one counts_against (option_copied packet) ≤ self.old.in_flight }
        ensures asking { self.new.asking + of_one (λ p. p.asks) (option_copied packet.entry) ≡ self.old.asking }
        ensures in_flight { self.new.in_flight + of_one counts_against (option_copied packet.entry) ≡ self.old.in_flight }
    {
        let Some(packet) = packet else {
            return;
        };
        if packet.ack_eliciting {
            self.asking -= 1;
        }
        if packet.size > 0 {
            self.in_flight -= 1;
        }
    }
}
