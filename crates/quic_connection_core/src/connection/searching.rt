//! The search for a greater size of datagrams (RFC 8899; RFC 9000, section 14.3).
ghost use Rattle.std.specs.Prelude.{◌≡◌, true, None};
ghost use Rattle.quic_congestion.specs.Search.{open_probe, after_probe_lost, after_packet_lost, after_question};
ghost use Rattle.quic_machine.specs.Control.{with_app_limited};
ghost use Rattle.quic_machine.specs.End.{with_end, with_discovery};
ghost use Rattle.quic_machine.specs.MessageCalls.{most_message};
ghost use Rattle.quic_machine.specs.Poll.{searched_if};
ghost use Rattle.quic_machine.specs.Sizes.{may_search, search_names, search_asked, told_size, told_probe, search_acked, with_one_lost, with_searched, without_longer_if};
ghost use Rattle.quic_machine.specs.Tracking.{TrackedPacket};
ghost use Rattle.quic_connection_parts.specs.Leaving.{Leaves, rested};
ghost use Rattle.quic_connection_parts.specs.Losses.{asked_if};
ghost use Rattle.quic_connection_parts.specs.Telling.{telling};

use crate::connection::Connection;
use quic_congestion::Controller;
use quic_connection_parts::leaving::Leaving;
use quic_connection_parts::losses::Losses;
use quic_connection_parts::searching::{
    hear_lost, hear_probe_lost, path_acked, path_asked, poll_search,
};
use quic_connection_parts::statistics::{count, count_lost};
use quic_packet::crypto::{HeaderKey, PacketKey};
use rand_core::Rng;

impl<H: HeaderKey + Drop, K: PacketKey + Drop, R: Rng + Drop, C: Controller> Connection<
    H,
    K,
    R,
    C,
> {
    /// Whether path MTU discovery may probe: it is on, the peer's address is validated, and the
    /// window has room for the greatest size that is probed.
    fn may_search(&self) -> bool
        ensures { result ≡ may_search self.now.end }
    {
        match self.path.mtud.upper_bound() {
            Some(bound) if self.path.validated => {
                let bound = u128::from(bound);
                self.bytes_in_flight().saturating_add(bound) < u128::from(self.window)
            }
            Some(_) | None => false,
        }
    }

    /// An MTU probe, if one may be sent and path MTU discovery names a size.
    pub(crate) fn search(&mut self) -> Option<Leaving>
        ensures leaving { Leaves result (searched_if (may_search self.old.end) self.old.end).leaving }
        ensures end { self.new ≡ with_end self.old (rested (searched_if (may_search self.old.end) self.old.end)) }
    {
        if !self.may_search() {
            return self.rest();
        }
        match self.ask_search() {
            Some(size) => Some(Leaving::Probe(size)),
            None => self.rest(),
        }
    }

    /// The size that path MTU discovery names now, if it names one: a probe of it is open then,
    /// under the next number.
    fn ask_search(&mut self) -> Option<u16>
        ensures named { result ≡ search_names self.old.end }
        ensures end { self.new ≡ with_end self.old (search_asked self.old.end) }
    {
        let now = self.closing.clock();
        let number = self.number();
        poll_search(&mut self.path, now, number)
    }

    /// Notes that nothing is sent, for want of anything to send.
    pub(crate) fn rest(&mut self) -> Option<Leaving>
        ensures none { result ≡ None }
        ensures end { self.new ≡ with_end self.old (with_app_limited self.old.end true) }
    {
        self.app_limited = true;
        None
    }

    /// Notifies path MTU discovery that a packet of so many bytes is acknowledged. If it is the
    /// open probe, datagrams have its size from then on, of which the controller is notified if it
    /// changed.
    pub(crate) fn search_acked(&mut self, number: u64, size: u16)
        ensures { (p : TrackedPacket) → p.size ≡ size → self.new ≡ telling C.steps self.old (told_probe (number, p) self.old.end.path.discovery) (search_acked (number, p) self.old.end) }
    {
        path_acked(&mut self.path, number, size);
    }

    /// The number of the open MTU probe, if one is open.
    pub(crate) fn open_probe(&self) -> Option<u64>
        ensures { result ≡ open_probe self.now.end.path.discovery }
    {
        self.path.mtud.in_flight_mtu_probe()
    }

    /// Notifies path MTU discovery that a packet of so many bytes is lost, which is its open probe
    /// or isn't.
    pub(crate) fn search_lost(&mut self, number: u64, size: u16, is_probe: bool)
        ensures { (p : TrackedPacket) → p.size ≡ size → self.new ≡ with_end self.old (with_discovery self.old.end (with_one_lost is_probe (number, p) self.old.end.path.discovery)) }
    {
        if is_probe {
            self.probe_lost();
            return;
        }
        self.other_lost(number, size);
    }

    /// Notifies path MTU discovery that its open probe is lost.
    fn probe_lost(&mut self)
        ensures { self.new ≡ with_end self.old (with_discovery self.old.end (after_probe_lost self.old.end.path.discovery)) }
    {
        count(&mut self.stats.path.lost_plpmtud_probes);
        hear_probe_lost(&mut self.path);
    }

    /// Notifies path MTU discovery that another packet of so many bytes is lost.
    fn other_lost(&mut self, number: u64, size: u16)
        ensures { self.new ≡ with_end self.old (with_discovery self.old.end (after_packet_lost number size self.old.end.path.discovery)) }
    {
        count_lost(&mut self.stats.path, size);
        hear_lost(&mut self.path, number, size);
    }

    /// Detects a black hole, if packets other than a probe were lost. If the size of datagrams
    /// fell, the controller is notified, and messages that are too long are dropped.
    pub(crate) fn judge_size(&mut self, losses: &Losses)
        ensures { let discovery = asked_if losses.now.others self.old.end.closing.clock self.old.end.path.discovery in
            self.new ≡ telling C.steps self.old (told_size self.old.end.path.discovery discovery) (with_searched discovery self.old.end) }
    {
        if !losses.others {
            return;
        }
        let before = self.path.current_mtu();
        let fell = self.ask_size();
        if fell {
            count(&mut self.stats.path.black_holes_detected);
        }
        if self.path.current_mtu() != before {
            self.drop_oversized();
        }
    }

    /// Whether path MTU discovery detects a black hole; the controller is notified of a size that
    /// fell.
    fn ask_size(&mut self) -> bool
        ensures { let discovery = after_question self.old.end.closing.clock self.old.end.path.discovery in
            self.new ≡ telling C.steps self.old (told_size self.old.end.path.discovery discovery) (with_discovery self.old.end discovery) }
    {
        let now = self.closing.clock();
        path_asked(&mut self.path, now)
    }

    /// Drops messages that are longer than one may be now.
    pub(crate) fn drop_oversized(&mut self)
        ensures { self.new ≡ with_end self.old (without_longer_if (most_message self.old.end) self.old.end) }
    {
        if let Some(most) = self.datagram_limits().max_size {
            self.datagrams.drop_oversized(most);
        }
    }
}
