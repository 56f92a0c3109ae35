//! Which of this end's ids live.
ghost use Rattle.std.specs.Prelude.{◌≡◌, ℕ, ◌+◌, ◌^◌, ◌<◌, List, [], ◌∷◌, Option, length, false};
ghost use Rattle.quic_wire_core.specs.declared.shared.IssuedCid.{IssuedCid};
ghost use Rattle.quic_ids.specs.CidState.{OwnIds, is_wrong, initial_ids, after_new, after_retirement, after_timeout, LivesLess, HaveNumbers};

/// The living ids are those that were issued, less those that were retired: so it begins, and each
/// call keeps it.
pub fn issued_ids_live_until_retired()
    ensures first { (id_len : ℕ) (lifetime : Option ℕ) (now issued : ℕ) → LivesLess (initial_ids id_len lifetime now issued) [] }
    ensures issued { (s : OwnIds) (retired : List ℕ) (ids : List IssuedCid) (now : ℕ) → LivesLess s retired → HaveNumbers ids s.issued → s.issued + length ids < 2 ^ 64 → LivesLess (after_new s ids now) retired }
    ensures retired { (s : OwnIds) (retired : List ℕ) (n : ℕ) → LivesLess s retired → is_wrong s n ≡ false → LivesLess (after_retirement s n) (n ∷ retired) }
    ensures expired { (s : OwnIds) (retired : List ℕ) → LivesLess s retired → LivesLess (after_timeout s) retired }
{}
