//! The definitions computed on a run in which each limit on a write binds in turn, and machines
//! whose writes take less or more. Each function does nothing: its contract is the law.
ghost use Rattle.std.specs.Prelude.{◌≡◌, true, [], Ok};
ghost use Rattle.quic_wire_core.specs.declared.stream_id.Side.TheVariants.{Client};
ghost use Rattle.quic_parameters.specs.ParametersRead.{parameters_at};
ghost use Rattle.quic_config.specs.Transport.{parameters_of};
ghost use Rattle.quic_machine.specs.End.{MadeFrom};
ghost use Rattle.quic_machine.specs.declared.run.ReadCall.{ReadCall};
ghost use Rattle.quic_machine.specs.Start.{AreStarted};
ghost use Rattle.quic_headline.specs.Headline.{IsHonest, IsRun};
ghost use Rattle.quic_headline.specs.Observer.{took};
ghost use Rattle.quic_headline.specs.Amounts.{WritesTakeWhatLimitsAllow, data_limit};
ghost use Rattle.quic_headline.specs.PeerLimits.{KeepsTo};
ghost use Rattle.quic_worked.specs.Worked.{steady, client_id, server_id};
ghost use Rattle.quic_worked.specs.Broken.{IsNoRun};
ghost use Rattle.quic_worked.specs.Credit.{ReadsEight};
ghost use Rattle.quic_worked.specs.Limited.{keeps_seven, takes_eight, narrow_parameters, limited_start, limited_heard, limited_run, limited_end, few_taken, past_window, never_freed, LeavesAt, own_client};

/// A client keeps 7 bytes, and its peer takes 8 in all and 5 on each stream. The first write takes
/// 5, as the stream allows; the next, on another stream, takes 2, which the send window leaves; and
/// the third is blocked by it. Once the first stream is read, MAX_DATA of 13 and MAX_STREAM_DATA of
/// 10 come, with an acknowledgement that frees the send window: the next write takes 5, as the
/// first stream allows, the next takes 1, which is left of all data, and the last is blocked by
/// that (RFC 9000, section 4.1).
pub fn each_limit_binds()
    ensures run { (read : ReadCall) → ReadsEight read → IsRun (limited_run read) limited_end }
    ensures honest { (read : ReadCall) → read.id ≡ 0 → IsHonest (limited_run read) }
    ensures left { (read : ReadCall) → (s : AreStarted limited_start) × LeavesAt read s 2 0 8 5 7
        × LeavesAt read s 3 4 3 5 2 × LeavesAt read s 4 4 1 3 0 × LeavesAt read s 11 0 6 5 7
        × LeavesAt read s 12 4 1 3 2 × LeavesAt read s 13 4 0 2 1 }
{}

/// A machine whose write takes three of five bytes, though far more may come.
pub fn few_taken_shows()
    ensures writes { WritesTakeWhatLimitsAllow few_taken → ⊥ }
    ensures premises { IsHonest few_taken }
    ensures machine { IsNoRun few_taken }
{}

/// A machine that counts no send window: a write takes what all data and its stream allow.
pub fn past_window_shows()
    ensures writes { WritesTakeWhatLimitsAllow past_window → ⊥ }
    ensures premises { IsHonest past_window }
    ensures machine { IsNoRun past_window }
{}

/// A machine whose send window an acknowledgement doesn't free, so that a write is blocked.
pub fn never_freed_shows()
    ensures writes { (read : ReadCall) → WritesTakeWhatLimitsAllow (never_freed read) → ⊥ }
    ensures premises { (read : ReadCall) → read.id ≡ 0 → IsHonest (never_freed read) }
    ensures machine { (read : ReadCall) → ReadsEight read → IsNoRun (never_freed read) }
{}

/// The client keeps to the limits that its peer's parameter bytes tell; and once MAX_DATA of 13
/// came, to that (RFC 9000, sections 7.4 and 18.2).
pub fn limits_are_told()
    ensures says { parameters_at narrow_parameters ≡ Ok (parameters_of takes_eight) }
    ensures keeps { KeepsTo (parameters_of takes_eight) Client [] limited_start.client }
    ensures raised { (read : ReadCall)
        → data_limit (parameters_of takes_eight) (took (limited_run read) Client 11) ≡ 13 }
    ensures kept { limited_heard.client.streams.sending.limit ≡ 13 }
{}

/// Limits: what a client's own parameters tell counts for what its peer's tell.
pub fn takes_own_parameters_for_limits()
    ensures keeps { KeepsTo (parameters_of takes_eight) Client [] own_client → ⊥ }
    ensures machine { MadeFrom Client keeps_seven steady narrow_parameters client_id server_id
        0 0 true (λ n. 63) own_client → ⊥ }
{}
