//! The definitions computed on runs in which the peer is let go further, and machines that tell it
//! wrongly. Each function does nothing: its contract is the law.
ghost use Rattle.std.specs.Prelude.{◌≡◌, false};
ghost use Rattle.quic_machine.specs.declared.run.ReadCall.{ReadCall};
ghost use Rattle.quic_headline.specs.Headline.{IsHonest, IsRun};
ghost use Rattle.quic_headline.specs.PeerLimits.{OpeningIsExact};
ghost use Rattle.quic_worked.specs.Broken.{IsNoRun};
ghost use Rattle.quic_worked.specs.Machines.{NeverGives};
ghost use Rattle.quic_worked.specs.Credit.{ReadsEight, ReadsOneWay, credit_run, credit_used, count_run, count_used, never_raised, one_below, never_given_back, never_opened};

/// With a window of 8 bytes a write takes 8. Once these are read, whether the read ends by
/// `finalize` or is dropped, MAX_DATA goes, of 16 bytes; once that came, a write takes 8 more (RFC
/// 9000, section 4.1).
pub fn credit_is_raised()
    ensures { (read : ReadCall) → ReadsEight read → IsRun (credit_run read) credit_used }
{}

/// Where one one-way stream may be opened, a second one isn't until the first is done, its end
/// read: then MAX_STREAMS goes, of 2 streams, and once that came, the second is opened (section
/// 4.6).
pub fn count_is_raised()
    ensures { (read : ReadCall) → ReadsOneWay read → IsRun (count_run read) count_used }
{}

/// Limits: the limit on bytes is never raised, though all that may come is read; or not where the
/// read is dropped.
pub fn credit_is_never_raised()
    ensures never { (read : ReadCall) → ReadsEight read → IsNoRun (never_raised read) }
    ensures dropped { (read : ReadCall) → ReadsEight read → read.finalize ≡ false
        → IsNoRun (never_raised read) }
{}

/// Limits: the limit that is told lies one byte below.
pub fn limit_is_one_below()
    ensures { (read : ReadCall) → ReadsEight read → NeverGives (one_below read) }
{}

/// Limits: a stream that is done gives no place in the count back; or the count is told, and not
/// taken.
pub fn count_is_never_given_back()
    ensures told { (read : ReadCall) → ReadsOneWay read → IsNoRun (never_given_back read) }
    ensures taken { (read : ReadCall) → ReadsOneWay read → IsNoRun (never_opened read) }
{}

/// In that run the first stream is opened, a second isn't, and it is once the count came.
pub fn streams_open_while_counts_last()
    ensures { (read : ReadCall) → ReadsOneWay read → OpeningIsExact (count_run read) }
{}

/// Limits: a client opens no second stream though the count came that lets it.
pub fn untaken_count_shows()
    ensures opening { (read : ReadCall) → OpeningIsExact (never_opened read) → ⊥ }
    ensures premises { (read : ReadCall) → ReadsOneWay read → IsHonest (never_opened read) }
    ensures machine { (read : ReadCall) → ReadsOneWay read → IsNoRun (never_opened read) }
{}
