//! What is known of the peer's ids.
ghost use Rattle.std.specs.Prelude.{◌≡◌, ℕ, ◌≤◌, ◌<◌, ◌-◌, ◌==◌, ◌&&◌, ◌||◌, ◌↔◌, false, leb, ltb, length, IsTrue};
ghost use Rattle.quic_wire.specs.declared.frame.NewConnectionId.{NewConnectionId};
ghost use Rattle.quic_ids.specs.CidQueue.{PeerIds, IsWindow, kept_ids, knows, exceeds, retires_active, after_insert, after_next};

/// The known ids have at most eight consecutive numbers, from the one in use on, whatever comes.
pub fn ids_are_a_window()
    ensures few { (ids : PeerIds) → IsWindow ids → length ids.later < kept_ids }
    ensures inserted { (ids : PeerIds) (frame : NewConnectionId) → frame.retire_prior_to ≤ frame.sequence → IsWindow ids → IsWindow (after_insert ids frame) }
    ensures next { (ids : PeerIds) → IsWindow ids → IsWindow (after_next ids) }
{}

/// The number in use never falls.
pub fn used_numbers_rise()
    ensures inserted { (ids : PeerIds) (frame : NewConnectionId) → frame.retire_prior_to ≤ frame.sequence → IsWindow ids → ids.active ≤ (after_insert ids frame).active }
    ensures next { (ids : PeerIds) → IsWindow ids → ids.active ≤ (after_next ids).active }
{}

/// After a frame that is accepted, what was known and the frame's own number are known, from the
/// one in use on; after the change to the next id, what was known is, from the one in use on.
pub fn known_ids_stay_known()
    ensures inserted { (ids : PeerIds) (frame : NewConnectionId) (n : ℕ) → frame.retire_prior_to ≤ frame.sequence → IsWindow ids → ids.active ≤ frame.sequence → exceeds ids frame ≡ false → knows (after_insert ids frame) n ≡ (leb (after_insert ids frame).active n && ((n == frame.sequence) || knows ids n)) }
    ensures next { (ids : PeerIds) (n : ℕ) → IsWindow ids → knows (after_next ids) n ≡ (leb (after_next ids).active n && knows ids n) }
{}

/// Where the id in use stays, exactly the numbers from eight above it on are too many.
pub fn eighth_number_is_too_many()
    ensures { (ids : PeerIds) (frame : NewConnectionId) → frame.retire_prior_to ≤ ids.active → IsTrue (exceeds ids frame) ↔ (kept_ids ≤ frame.sequence - ids.active) }
{}
