//! Acknowledgements (RFC 9000, section 19.3).
ghost use Rattle.std.specs.Prelude.{◌≡◌, ◌<◌, ◌^◌};
ghost use Rattle.quic_wire.specs.AckCounts.{one_more};

use crate::frame::writing::write_numbers;
use bytes::BufMut;
use quic_sets::ArrayRangeSet;
use quic_wire_core::{EcnCodepoint, FrameType};
use std::alloc::AllocError;
use std::marker::Model;
use std::ops::{AddAssign, RangeInclusive};

pub(crate) mod reading;
pub(crate) mod size;
pub(crate) mod writing;

use reading::range_of;
use size::size_of_set;
use writing::write_set;

/// The greatest count that has a form as a variable-length integer (section 16).
const MAX_COUNT: u64 = (1 << 62) - 1;

/// How many packets came with each congestion mark (section 19.3.2; quinn-proto's
/// `frame::EcnCounts`).
#[derive(Clone, Copy, Debug, PartialEq, Eq)]
pub struct EcnCounts {
    /// Packets marked ECT(0): below 2^62.
    pub ect0: u64,
    /// Packets marked ECT(1): below 2^62.
    pub ect1: u64,
    /// Packets marked ECN-CE: below 2^62.
    pub ce: u64,
    // Each count has a form as a variable-length integer (RFC 9000, section 16).
    ghost small: { (ect0 < 2 ^ 62) × (ect1 < 2 ^ 62) × (ce < 2 ^ 62) },
}

impl EcnCounts {
    ghost use Rattle.std.specs.Prelude.{◌++◌, Some, OnOk, OnErr};
    ghost use Rattle.quic_wire.specs.AckGrammar.{ecn_numbers};
    ghost use Rattle.quic_wire.specs.AckView.{counts_view};
    ghost use Rattle.quic_wire.specs.NumbersWritten.{widths};
    ghost use Rattle.quic_wire.specs.Writing.{written, BeginWith, SpendsSpare};

    /// No packet with any mark.
    pub const ZERO: EcnCounts = EcnCounts {
        ect0: 0,
        ect1: 0,
        ce: 0,
    };

    /// Writes the three counts as they stand in a frame, each in its shortest form (quinn-proto's
    /// `EcnCounts::encode`).
    ///
    /// # Errors
    ///
    /// - [`AllocError`]: an allocation fails, or the buffer can't grow, where it has no spare room
    ///   for the counts. A part of them may be written behind what was there.
    pub fn encode<B: BufMut>(&self, buf: &mut B) -> Result<(), AllocError>
        ensures ok { OnOk result (B.written buf.new ≡ B.written buf.old ++ written (ecn_numbers (Some (counts_view self.now)))) }
        ensures err { OnErr result (BeginWith (B.written buf.old) (B.written buf.new)) }
        ensures spare { SpendsSpare result (B.spare buf.old) (B.spare buf.new) (widths (ecn_numbers (Some (counts_view self.now)))) }
    {
        write_numbers(buf, &[self.ect0, self.ect1, self.ce])
    }
}

/// One more, up to the greatest count that has a form.
fn one_more(count: u64) -> u64
    ensures { result ≡ one_more count }
{
    count.saturating_add(1).min(MAX_COUNT)
}

impl AddAssign<EcnCodepoint> for EcnCounts {
    ghost use Rattle.std.specs.Prelude.{◌≡◌};
    ghost use Rattle.quic_wire.specs.AckView.{counts_view};
    ghost use Rattle.quic_wire.specs.AckCounts.{with_mark};

    ghost add_assign_gives = { λ counts mark r. counts_view r ≡ with_mark (counts_view counts) mark };

    /// Counts one more packet with this mark. A count stays at 2^62 - 1 once it is there, the
    /// greatest number that has a form.
    fn add_assign(&mut self, rhs: EcnCodepoint) {
        match rhs {
            EcnCodepoint::Ect0 => self.ect0 = one_more(self.ect0),
            EcnCodepoint::Ect1 => self.ect1 = one_more(self.ect1),
            EcnCodepoint::Ce => self.ce = one_more(self.ce),
        }
    }
}

/// Which packets came (section 19.3; quinn-proto's `frame::Ack`). Contracts see the greatest
/// number, the delay, the ranges from the highest down, and the counts.
#[derive(Clone, Debug, Drop)]
pub struct Ack<'a> {
    largest: u64,
    delay: u64,
    // the length of the first range
    first: u64,
    // how many ranges stand in the bytes
    count: u64,
    // the ranges below the first, and what follows them
    blocks: &'a [u8],
    ecn: Option<EcnCounts>,
}

impl<'a> Model for Ack<'a> {
    ghost use Rattle.quic_wire.specs.Value.{AckValue};
    ghost use Rattle.quic_wire.specs.AckView.{ack_view, IsAck};

    ghost Value = { AckValue };

    ghost view = { ack_view };

    ghost invariant = { IsAck };
}

impl<'a> Ack<'a> {
    ghost use Rattle.std.specs.Prelude.{ℕ, List, ◌+◌, ◌-◌, ◌*◌, ◌≤◌, ◌++◌, ◌∷◌, [], length, OnOk, OnErr};
    ghost use Rattle.quic_wire.specs.AckGrammar.{AckFits, has_ecn, range_numbers};
    ghost use Rattle.quic_wire.specs.NumbersWritten.{widths};
    ghost use Rattle.quic_wire.specs.AckSet.{ack_of_set, IsSmall};
    ghost use Rattle.quic_wire.specs.FrameTypes.{is_ack, type_of};
    ghost use Rattle.quic_wire.specs.AckView.{ecn_view, shown_ecn};
    ghost use Rattle.quic_wire.specs.AckWriting.{ack_spelling, ack_size};
    ghost use Rattle.quic_wire.specs.Writing.{BeginWith, SpendsSpare};

    /// Writes the ACK frame of a set of packet numbers, each number in its shortest form: the delay
    /// is in microseconds, shifted right by the exponent that this end told (quinn-proto's
    /// `Ack::encode`). The set isn't empty.
    ///
    /// # Errors
    ///
    /// - [`AllocError`]: an allocation fails, or the buffer can't grow, where it has no spare room
    ///   for the frame. A part of it may be written behind what was there.
    pub fn encode<B: BufMut>(
        delay: u64,
        ranges: &ArrayRangeSet,
        ecn: Option<&EcnCounts>,
        buf: &mut B,
    ) -> Result<(), AllocError>
        requires some { ranges.now ≡ [] → ⊥ }
        requires small { IsSmall ranges.now }
        requires delay { delay < 2 ^ 62 }
        ensures ok { OnOk result (B.written buf.new ≡ B.written buf.old ++ ack_spelling (ack_of_set delay ranges.now (shown_ecn ecn.entry))) }
        ensures err { OnErr result (BeginWith (B.written buf.old) (B.written buf.new)) }
        ensures spare { SpendsSpare result (B.spare buf.old) (B.spare buf.new) (ack_size (ack_of_set delay ranges.now (shown_ecn ecn.entry))) }
    {
        write_set(buf, delay, ranges.as_slice(), ecn.copied())
    }

    /// How many bytes [`Ack::encode`] writes for this delay, these ranges and these counts: with r
    /// ranges at most 57 + 16 (r - 1), which is the type, four numbers of at most 8 bytes, 16 bytes
    /// for each further range, and the counts.
    pub fn size_of(delay: u64, ranges: &ArrayRangeSet, ecn: Option<&EcnCounts>) -> usize
        requires some { ranges.now ≡ [] → ⊥ }
        requires small { IsSmall ranges.now }
        requires delay { delay < 2 ^ 62 }
        ensures size { result ≡ ack_size (ack_of_set delay ranges.now (shown_ecn ecn.entry)) }
        ensures bound { result ≤ 1 + 8 + 8 + 8 + 8 + 16 * (length ranges.now - 1) + 24 }
    {
        size_of_set(delay, ranges.as_slice(), ecn.copied())
    }

    /// The greatest number that is acknowledged.
    pub fn largest(&self) -> u64
        ensures value { result ≡ self.now.largest }
        ensures fits { AckFits self.now }
    {
        self.largest
    }

    /// How many ranges stand below the first.
    pub(crate) fn count(&self) -> u64
        ensures value { length self.now.ranges ≡ result + 1 }
        ensures room { (r : ℕ × ℕ) (rs : List (ℕ × ℕ)) → self.now.ranges ≡ r ∷ rs → widths (range_numbers r.0 rs) < 2 ^ 63 }
    {
        self.count
    }

    /// How long the acknowledgement waited, in microseconds shifted right by the exponent that the
    /// sender told (section 19.3).
    pub fn delay(&self) -> u64
        ensures { result ≡ self.now.delay }
    {
        self.delay
    }

    /// The counts of congestion marks, where the frame has them.
    pub fn ecn(&self) -> Option<EcnCounts>
        ensures { ecn_view result ≡ self.now.ecn }
    {
        self.ecn
    }

    /// The type: one with counts, or one without.
    pub(crate) fn ty(&self) -> FrameType
        ensures { result ≡ type_of (is_ack (has_ecn self.now.ecn)) }
    {
        match self.ecn {
            None => FrameType::ACK,
            Some(_) => FrameType::ACK_ECN,
        }
    }

    /// The ranges, from the highest down (quinn-proto's `Ack::iter`).
    pub fn iter(&self) -> AckIter<'a>
        ensures { result ≡ self.now.ranges }
    {
        let low = self.largest - self.first;
        AckIter {
            first: Some((low, self.largest)),
            low,
            count: self.count,
            blocks: self.blocks,
        }
    }
}

/// The ranges of an acknowledgement, from the highest down (quinn-proto's `AckIter`). Contracts see
/// the list of those that are left, each as its least and its greatest number.
#[derive(Clone, Debug, Drop)]
pub struct AckIter<'a> {
    first: Option<(u64, u64)>,
    low: u64,
    count: u64,
    blocks: &'a [u8],
}

impl<'a> Model for AckIter<'a> {
    ghost use Rattle.std.specs.Prelude.{ℕ, List};
    ghost use Rattle.quic_wire.specs.AckView.{iter_view, IsAckIter};

    ghost Value = { List (ℕ × ℕ) };

    ghost view = { iter_view };

    ghost invariant = { IsAckIter };
}

impl<'a> Iterator for AckIter<'a> {
    type Item = RangeInclusive<u64>;

    ghost use Rattle.std.specs.Prelude.{map};
    ghost use Rattle.std.specs.Iterator.{YieldsFirstBy, item_count};
    ghost use Rattle.quic_wire.specs.AckView.{bounds_of, whole};

    ghost next_gives = { YieldsFirstBy bounds_of (λ i. map whole i) };

    ghost remaining = { item_count (λ i. i) };

    fn next(&mut self) -> Option<RangeInclusive<u64>> {
        if let Some((low, high)) = self.first {
            self.first = None;
            return Some(low..=high);
        }
        if self.count == 0 {
            return None;
        }
        let mut rest = self.blocks;
        let Ok(range) = range_of(self.low, &mut rest) else {
            unreachable!()
        };
        self.count -= 1;
        self.low = range.0;
        self.blocks = rest;
        Some(range.0..=range.1)
    }
}

impl<'a> IntoIterator for &Ack<'a> {
    type Item = RangeInclusive<u64>;

    type IntoIter = AckIter<'a>;

    ghost use Rattle.std.specs.Prelude.{◌≡◌};

    ghost into_iter_gives = { λ ack ranges. ranges ≡ ack.now.ranges };

    /// The ranges, as [`Ack::iter`].
    fn into_iter(self) -> AckIter<'a> {
        self.iter()
    }
}
