//! Connection IDs that an endpoint gives its peer (RFC 9000, sections 5.1.1, 5.1.2 and 19.16).
ghost use Rattle.std.specs.Prelude.{◌≡◌, true, false, Some, None, Ok, Err};
ghost use Rattle.quic_wire_core.specs.TransportError.{plain_error, protocol_violation};
ghost use Rattle.quic_ids.specs.CidState.{is_in, retirement_answer, after_retirement, timeout_answer, after_timeout};
ghost use Rattle.quic_recovery_rows.specs.OwnIds.{one_issued, with_four, shown};

/// A number that wasn't issued can't be retired. Another may be issued where fewer live than may.
pub fn only_issued_ids_are_retired()
    ensures unissued { retirement_answer (with_four (one_issued 8 None)) 5 5 ≡ Err (plain_error protocol_violation) }
    ensures few { retirement_answer (with_four (one_issued 8 None)) 0 5 ≡ Ok true }
    ensures as_many { retirement_answer (after_retirement (with_four (one_issued 8 None)) 0) 1 3 ≡ Ok false }
    ensures retired { is_in 1 (after_retirement (after_retirement (with_four (one_issued 8 None)) 0) 1).living ≡ false }
    ensures lives { is_in 2 (after_retirement (after_retirement (with_four (one_issued 8 None)) 0) 1).living ≡ true }
    ensures seen { shown (after_retirement (after_retirement (with_four (one_issued 8 None)) 0) 1) ≡ (5, 3, 0, None) }
{}

/// All numbers live that were issued.
pub fn many_ids_are_issued()
    ensures { shown (with_four (with_four (with_four (with_four (one_issued 8 None))))) ≡ (17, 17, 0, None) }
{}

/// Where IDs have no bytes, none can be retired.
pub fn empty_ids_are_not_retired()
    ensures { retirement_answer (one_issued 0 None) 0 5 ≡ Err (plain_error protocol_violation) }
{}

/// What was issued together expires together, and the peer is told while one of it lives.
pub fn batches_expire_in_turn()
    ensures issued { shown (with_four (one_issued 8 (Some 100))) ≡ (5, 5, 0, Some 100) }
    ensures tells { timeout_answer (with_four (one_issued 8 (Some 100))) ≡ true }
    ensures first { shown (after_timeout (with_four (one_issued 8 (Some 100)))) ≡ (5, 5, 1, Some 105) }
    ensures silent { timeout_answer (after_timeout (with_four (one_issued 8 (Some 100)))) ≡ false }
    ensures second { shown (after_timeout (after_timeout (with_four (one_issued 8 (Some 100))))) ≡ (5, 5, 1, None) }
{}

/// The next batch is retired once the peer retired the one before.
pub fn next_batch_waits_for_retirements()
    ensures tells { timeout_answer (with_four (one_issued 8 (Some 100))) ≡ true }
    ensures retired { retirement_answer (after_timeout (with_four (one_issued 8 (Some 100)))) 0 5 ≡ Ok true }
    ensures again { timeout_answer (after_retirement (after_timeout (with_four (one_issued 8 (Some 100)))) 0) ≡ true }
    ensures seen { shown (after_timeout (after_retirement (after_timeout (with_four (one_issued 8 (Some 100)))) 0)) ≡ (5, 4, 5, None) }
{}
