//! Finds out that a path carries less than before.
ghost use Rattle.std.specs.Prelude.{◌≡◌, None};
ghost use Rattle.quic_congestion.specs.Bursts.{no_bursts, is_suspicious, suspected, judged, ended, begun_at, after_lost, after_acknowledged, after_probe, is_black_hole, after_told};

use crate::mtud::suspects::SuspiciousBursts;
use std::marker::Model;

/// Packets with consecutive numbers that were lost, perhaps all for one reason (quinn-proto's
/// `CurrentLossBurst`).
#[derive(Clone, Copy, Debug)]
pub(super) struct LossBurst {
    latest: u64,
    smallest_size: u16,
}

impl Model for LossBurst {
    ghost use Rattle.quic_congestion.specs.Bursts.{Burst};

    ghost Value = { Burst };

    ghost view = { λ b. record { last = b.latest; size = b.smallest_size } };

    ghost inverse = { λ b. record { latest = b.last; smallest_size = b.size } };
}

/// Judges by losses whether a path carries less than before (RFC 8899, section 4.3; quinn-proto's
/// `BlackHoleDetector`).
#[derive(Clone, Copy, Debug)]
pub(super) struct BlackHoleDetector {
    min_mtu: u16,
    /// The size that is known to arrive, and the number of the packet that showed it.
    acked_mtu: u16,
    largest_post_loss_packet: u64,
    current: Option<LossBurst>,
    suspicious: SuspiciousBursts,
}

impl Model for BlackHoleDetector {
    ghost use Rattle.quic_congestion.specs.Bursts.{Bursts};

    ghost Value = { Bursts };

    ghost view = { λ d. record {
      least = d.min_mtu;
      acked = d.acked_mtu;
      number = d.largest_post_loss_packet;
      current = d.current;
      kept = d.suspicious;
    } };

    ghost inverse = { λ b. record {
      min_mtu = b.least;
      acked_mtu = b.acked;
      largest_post_loss_packet = b.number;
      current = b.current;
      suspicious = b.kept;
    } };
}

impl BlackHoleDetector {
    /// Nothing is lost, and nothing acknowledged.
    pub(super) fn new(min_mtu: u16) -> Self
        ensures { result ≡ no_bursts min_mtu }
    {
        BlackHoleDetector {
            min_mtu,
            acked_mtu: min_mtu,
            largest_post_loss_packet: 0,
            current: None,
            suspicious: SuspiciousBursts::new(),
        }
    }

    /// The size that every path carries.
    pub(super) fn min_mtu(&self) -> u16
        ensures { result ≡ self.now.least }
    {
        self.min_mtu
    }

    /// A probe was acknowledged. It is larger than all that went before, so no burst is due to
    /// sizes.
    pub(super) fn on_probe_acked(&mut self, number: u64, len: u16)
        ensures { self.new ≡ after_probe number len self.old }
    {
        self.acked_mtu = len;
        self.largest_post_loss_packet = number;
        self.suspicious = SuspiciousBursts::new();
    }

    /// A packet that is no probe was acknowledged. Where it is larger than what is known to arrive,
    /// bursts of no more than it were not due to sizes.
    pub(super) fn on_non_probe_acked(&mut self, number: u64, len: u16)
        ensures { self.new ≡ after_acknowledged number len self.old }
    {
        if len < self.acked_mtu {
            return;
        }
        if len == self.acked_mtu {
            self.largest_post_loss_packet = self.largest_post_loss_packet.max(number);
            return;
        }
        self.acked_mtu = len;
        self.largest_post_loss_packet = number;
        self.suspicious = self.suspicious.above(len);
    }

    /// Whether a burst may be due to its sizes: not where every path carries its least packet, nor
    /// where a later packet that was no smaller arrived.
    fn is_suspicious(&self, burst: LossBurst) -> bool
        ensures { result ≡ is_suspicious self.now burst }
    {
        let explained = burst.latest < self.largest_post_loss_packet
            && burst.smallest_size <= self.acked_mtu;
        !(burst.smallest_size <= self.min_mtu || explained)
    }

    /// Keeps a suspicious burst. A size that arrived before it is no longer known to arrive.
    fn suspect(&mut self, burst: LossBurst)
        ensures { self.new ≡ suspected self.old burst }
    {
        if self.largest_post_loss_packet < burst.latest {
            self.acked_mtu = self.min_mtu;
        }
        self.suspicious = self.suspicious.with(burst.smallest_size);
    }

    /// Judges a burst that has ended.
    fn judge(&mut self, burst: LossBurst)
        ensures { self.new ≡ judged self.old burst }
    {
        if self.is_suspicious(burst) {
            self.suspect(burst);
        }
    }

    /// Takes the current burst out.
    fn take_current(&mut self) -> Option<LossBurst>
        ensures burst { result ≡ self.old.current }
        ensures new { self.new ≡ record self.old { current = None } }
    {
        self.current.take()
    }

    /// Ends the current burst.
    fn finish_loss_burst(&mut self)
        ensures { self.new ≡ ended self.old }
    {
        if let Some(burst) = self.take_current() {
            self.judge(burst);
        }
    }

    /// Begins a burst of one packet, or has the current one go on with it.
    fn begin_at(&mut self, number: u64, size: u16)
        ensures { self.new ≡ begun_at number size self.old }
    {
        self.current = Some(LossBurst {
            latest: number,
            smallest_size: size,
        });
    }

    /// A packet that is no probe was lost: the next of the current burst, or else the first of
    /// another.
    pub(super) fn on_non_probe_lost(&mut self, number: u64, len: u16)
        ensures { self.new ≡ after_lost number len self.old }
    {
        match self.current {
            Some(burst) if burst.latest.checked_add(1) == Some(number) => {
                self.begin_at(number, burst.smallest_size.min(len));
            }
            _ => {
                self.finish_loss_burst();
                self.begin_at(number, len);
            }
        }
    }

    /// Ends the current burst. Where more than three are suspicious, true, and none is from then
    /// on.
    pub(super) fn black_hole_detected(&mut self) -> bool
        ensures found { result ≡ is_black_hole self.old }
        ensures new { self.new ≡ after_told self.old }
    {
        self.finish_loss_burst();
        let found = self.suspicious.are_many();
        if found {
            self.suspicious = SuspiciousBursts::new();
        }
        found
    }
}
