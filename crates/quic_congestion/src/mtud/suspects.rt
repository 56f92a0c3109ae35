//! The bursts of lost packets that may be due to a path which carries less than before.
ghost use Rattle.std.specs.Prelude.{◌≡◌, [], ltb, length};
ghost use Rattle.quic_congestion.specs.Bursts.{kept_with, kept_above};
ghost use Rattle.quic_congestion.specs.Passing.{greater, lesser, above};

use std::marker::Model;

/// The sizes of the suspicious bursts that are kept, at most four, the greatest first. Contracts
/// see the list of the sizes.
#[derive(Clone, Copy, Debug)]
pub(super) struct SuspiciousBursts {
    first: Option<u16>,
    second: Option<u16>,
    third: Option<u16>,
    fourth: Option<u16>,
}

impl Model for SuspiciousBursts {
    ghost use Rattle.std.specs.Prelude.{List, ℕ};

    ghost Value = { List ℕ };

    ghost use Rattle.quic_congestion.specs.Places.{sizes, IsDescending, places_of, places_of_sizes};

    ghost view = { sizes };

    // Free places stand behind the others, so that equal lists have equal fields.
    ghost invariant = { IsDescending };

    ghost inverse = { places_of };

    ghost inverse_ok = { places_of_sizes };
}

/// Insertion step: returns the larger size, which stays in the slot, and the smaller, which moves
/// on.
fn exchanged(place: Option<u16>, size: Option<u16>) -> (Option<u16>, Option<u16>)
    ensures stays { result.0 ≡ greater place size }
    ensures goes_on { result.1 ≡ lesser place size }
{
    match (place, size) {
        (Some(kept), Some(new)) if new < kept => (place, size),
        (Some(_), None) => (place, size),
        _ => (size, place),
    }
}

/// What stays in a slot: its size, if that is above the given one.
fn kept_if_above(place: Option<u16>, size: u16) -> Option<u16>
    ensures { result ≡ above size place }
{
    match place {
        Some(kept) if size < kept => place,
        _ => None,
    }
}

impl SuspiciousBursts {
    /// No burst is suspicious.
    pub(super) fn new() -> Self
        ensures { result ≡ [] }
    {
        SuspiciousBursts {
            first: None,
            second: None,
            third: None,
            fourth: None,
        }
    }

    /// One more. A larger fifth replaces the least.
    pub(super) fn with(self, size: u16) -> Self
        ensures { result ≡ kept_with size self }
    {
        let (first, rest) = exchanged(self.first, Some(size));
        let (second, rest) = exchanged(self.second, rest);
        let (third, rest) = exchanged(self.third, rest);
        let (fourth, _) = exchanged(self.fourth, rest);
        SuspiciousBursts {
            first,
            second,
            third,
            fourth,
        }
    }

    /// Those of more than a size.
    pub(super) fn above(self, size: u16) -> Self
        ensures { result ≡ kept_above size self }
    {
        SuspiciousBursts {
            first: kept_if_above(self.first, size),
            second: kept_if_above(self.second, size),
            third: kept_if_above(self.third, size),
            fourth: kept_if_above(self.fourth, size),
        }
    }

    /// Whether there are more than three.
    pub(super) fn are_many(self) -> bool
        ensures { result ≡ ltb 3 (length self) }
    {
        self.fourth.is_some()
    }
}
