//! Statistics of UDP datagrams.
ghost use Rattle.std.specs.Prelude.{◌≡◌};

/// The UDP datagrams that went one way (quinn-proto's `UdpStats`).
#[derive(Clone, Copy, Debug, Default, PartialEq, Eq)]
pub struct UdpStats {
    /// How many there were.
    pub datagrams: u64,
    /// How many bytes they had together.
    pub bytes: u64,
    /// How many system calls could have moved them: one for each.
    pub ios: u64,
}

impl UdpStats {
    ghost use Rattle.quic_stats.specs.Stats.{after_datagram};

    /// Counts a datagram of so many bytes (quinn-proto's `UdpStats::on_sent`).
    pub fn on_datagram(&mut self, bytes: usize)
        ensures { self.new ≡ after_datagram bytes self.old }
    {
        self.datagrams = self.datagrams.saturating_add(1);
        self.bytes = self.bytes.saturating_add(bytes as u64);
        self.ios = self.ios.saturating_add(1);
    }
}
