//! Connection IDs that the peer gives (RFC 9000, sections 5.1.1, 5.1.2 and 19.15).
ghost use Rattle.std.specs.Prelude.{◌≡◌, [], ◌∷◌, replicate, Some, None, Ok, Err};
ghost use Rattle.quic_ids.specs.CidQueue.{after_insert, insert_answer, next_answer, after_next};
ghost use Rattle.quic_ids.specs.declared.cid_queue.InsertError.TheVariants.{Retired, ExceedsLimit};
ghost use Rattle.quic_recovery_rows.specs.PeerIds.{id_of, token_of, gives, first_known, known_after, answers_from};

/// The eighth number above the one in use is too many.
#[tactic(auto, unfolding(crate::specs::PeerIds::answers_from))]
pub fn eighth_number_is_too_many()
    ensures seventh { answers_from first_known (7 ∷ []) ≡ Ok None ∷ [] }
    ensures eighth { insert_answer (known_after (7 ∷ [])) (gives 8 0) ≡ Err ExceedsLimit }
    ensures stays { (known_after (7 ∷ 8 ∷ [])).active ≡ 0 }
    ensures id { (known_after (7 ∷ 8 ∷ [])).id ≡ id_of 0 }
{}

/// Where the ID in use is retired, the least that stays is used.
#[tactic(auto, unfolding(crate::specs::PeerIds::answers_from))]
pub fn least_that_stays_is_used()
    ensures second { answers_from first_known (2 ∷ []) ≡ Ok None ∷ [] }
    ensures retires { insert_answer (known_after (2 ∷ [])) (gives 3 1) ≡ Ok (Some (record { start = 0; end = 2 }, token_of 2)) }
    ensures used { (after_insert (known_after (2 ∷ [])) (gives 3 1)).active ≡ 2 }
    ensures id { (after_insert (known_after (2 ∷ [])) (gives 3 1)).id ≡ id_of 2 }
{}

/// The next ID is the one of the next number that came.
#[tactic(auto, unfolding(crate::specs::PeerIds::answers_from))]
pub fn next_skips_what_did_not_come()
    ensures none { next_answer first_known.later 0 ≡ None }
    ensures came { answers_from first_known (0 ∷ 2 ∷ 4 ∷ []) ≡ replicate 3 (Ok None) }
    ensures second { let ids = known_after (0 ∷ 2 ∷ 4 ∷ []) in
        next_answer ids.later ids.active ≡ Some (token_of 2, record { start = 0; end = 2 }) }
    ensures fourth { let ids = after_next (known_after (0 ∷ 2 ∷ 4 ∷ [])) in
        next_answer ids.later ids.active ≡ Some (token_of 4, record { start = 2; end = 4 }) }
    ensures last { let ids = after_next (after_next (known_after (0 ∷ 2 ∷ 4 ∷ []))) in
        next_answer ids.later ids.active ≡ None }
    ensures used { (after_next (after_next (after_next (known_after (0 ∷ 2 ∷ 4 ∷ []))))).active ≡ 4 }
    ensures id { (after_next (after_next (after_next (known_after (0 ∷ 2 ∷ 4 ∷ []))))).id ≡ id_of 4 }
{}

/// An ID that is known retires those before it, once.
#[tactic(auto, unfolding(crate::specs::PeerIds::answers_from))]
pub fn known_id_retires_those_before()
    ensures came { answers_from first_known (1 ∷ 2 ∷ 3 ∷ 4 ∷ []) ≡ replicate 4 (Ok None) }
    ensures retires { insert_answer (known_after (1 ∷ 2 ∷ 3 ∷ 4 ∷ [])) (gives 4 2)
        ≡ Ok (Some (record { start = 0; end = 2 }, token_of 2)) }
    ensures used { (after_insert (known_after (1 ∷ 2 ∷ 3 ∷ 4 ∷ [])) (gives 4 2)).active ≡ 2 }
    ensures id { (after_insert (known_after (1 ∷ 2 ∷ 3 ∷ 4 ∷ [])) (gives 4 2)).id ≡ id_of 2 }
    ensures again { insert_answer (after_insert (known_after (1 ∷ 2 ∷ 3 ∷ 4 ∷ [])) (gives 4 2)) (gives 4 2) ≡ Ok None }
    ensures stays { (after_insert (after_insert (known_after (1 ∷ 2 ∷ 3 ∷ 4 ∷ [])) (gives 4 2)) (gives 4 2)).active ≡ 2 }
    ensures stays_id { (after_insert (after_insert (known_after (1 ∷ 2 ∷ 3 ∷ 4 ∷ [])) (gives 4 2)) (gives 4 2)).id ≡ id_of 2 }
{}

/// A number far above all retires no more than could be kept.
#[tactic(auto, unfolding(crate::specs::PeerIds::answers_from))]
pub fn far_number_retires_what_was_kept()
    ensures second { answers_from first_known (2 ∷ []) ≡ Ok None ∷ [] }
    ensures retires { insert_answer (known_after (2 ∷ [])) (gives 1000000 1000000)
        ≡ Ok (Some (record { start = 0; end = 8 }, token_of 1000000)) }
    ensures used { (after_insert (known_after (2 ∷ [])) (gives 1000000 1000000)).active ≡ 1000000 }
    ensures id { (after_insert (known_after (2 ∷ [])) (gives 1000000 1000000)).id ≡ id_of 1000000 }
{}

/// A number below the one in use is retired, and the greatest one that is taken is seven above it.
#[tactic(auto, unfolding(crate::specs::PeerIds::answers_from))]
pub fn numbers_below_are_retired()
    ensures came { answers_from first_known (1 ∷ 2 ∷ 3 ∷ 4 ∷ []) ≡ replicate 4 (Ok None) }
    ensures next { let ids = known_after (1 ∷ 2 ∷ 3 ∷ 4 ∷ []) in
        next_answer ids.later ids.active ≡ Some (token_of 1, record { start = 0; end = 1 }) }
    ensures below { insert_answer (after_next (known_after (1 ∷ 2 ∷ 3 ∷ 4 ∷ []))) (gives 0 0) ≡ Err Retired }
    ensures most { insert_answer (after_next (known_after (1 ∷ 2 ∷ 3 ∷ 4 ∷ []))) (gives 8 0) ≡ Ok None }
    ensures above { insert_answer (after_insert (after_next (known_after (1 ∷ 2 ∷ 3 ∷ 4 ∷ []))) (gives 8 0)) (gives 9 0) ≡ Err ExceedsLimit }
{}

/// Another ID takes the place of the first one under its number.
pub fn first_id_is_replaced()
    ensures used { (record first_known { id = id_of 9 }).active ≡ 0 }
    ensures id { (record first_known { id = id_of 9 }).id ≡ id_of 9 }
{}
