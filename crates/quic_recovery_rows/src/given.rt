//! Packet numbers that are left out, so that a peer that acknowledges one gives itself away (RFC
//! 9000, section 21.4).
ghost use Rattle.std.specs.Prelude.{◌≡◌, true, false, [], ◌∷◌, ◌++◌};
ghost use Rattle.std.specs.List.{range_with_len};
ghost use Rattle.quic_spaces.specs.Filter.{first_filter, names_skipped};
ghost use Rattle.quic_recovery_rows.specs.Given.{given};

/// Where the random source says 63, the last of the first 64 numbers is left out, and then the
/// last of the 64 from 64 on. An acknowledgement is refused that names the one left out last.
#[tactic(auto, unfolding(crate::specs::Given::given))]
pub fn last_of_the_first_64_is_left_out()
    ensures numbers { (given 127 0 63 (first_filter 63)).numbers
        ≡ range_with_len 0 63 ++ (range_with_len 64 63 ++ 128 ∷ []) }
    ensures below { names_skipped (given 64 0 63 (first_filter 63)).left.last 0 62 ≡ false }
    ensures up_to { names_skipped (given 64 0 63 (first_filter 63)).left.last 60 63 ≡ true }
    ensures alone { names_skipped (given 64 0 63 (first_filter 63)).left.last 63 63 ≡ true }
{}

/// Where it says 0, the first number is left out, and then the first from 64 on.
#[tactic(auto, unfolding(crate::specs::Given::given))]
pub fn first_number_is_left_out()
    ensures { (given 64 0 0 (first_filter 0)).numbers ≡ range_with_len 1 63 ++ 65 ∷ [] }
{}

/// Where it says 63 and then 0, the second is drawn right behind the first, and isn't left out.
#[tactic(auto, unfolding(crate::specs::Given::given))]
pub fn two_in_turn_are_not_left_out()
    ensures { (given 200 0 0 (first_filter 63)).numbers ≡ range_with_len 0 63 ++ range_with_len 64 137 }
{}
