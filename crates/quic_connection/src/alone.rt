//! Calls at one end, one behind another, whatever datagrams its peer hands to it.
ghost use Rattle.std.specs.Prelude.{◌≡◌, ◌<◌, [], take, drop, length, true, false};
ghost use Rattle.quic_machine.specs.End.{policy_of};
ghost use Rattle.std.specs.List.{list_any};
ghost use Rattle.quic_machine.specs.Machine.{fails};
ghost use Rattle.quic_headline.specs.Alone.{IsNew, BeginsFit, FollowsAlone, BytesCame, MessagesCame};
ghost use Rattle.quic_headline.specs.Keeping.{KeepsWithin};
ghost use Rattle.quic_headline.specs.FewEvents.{EventsAreFew};
ghost use Rattle.quic_headline.specs.Amplification.{BeginsAlone, IsThreefold};
ghost use Rattle.quic_headline.specs.LoneCloses.{ClosedForCause, DrainedForCause};
ghost use Rattle.quic_headline.specs.FewCloses.{IsClosing, CloseFew};
ghost use Rattle.quic_headline.specs.Nonces.{SealedOnce};
ghost use Rattle.quic_headline.specs.LoneAcks.{AcksTaken, CodesAreSmall};
ghost use Rattle.quic_headline.specs.LoneMessages.{TakesFit};
ghost use Rattle.quic_connection_parts.specs.Telling.{windows_of};
ghost use Rattle.quic_connection_parts.specs.Drawn.{words_of};
ghost use Rattle.quic_connection.specs.Ends.{GoesOn};
ghost use Rattle.quic_connection.specs.Lone.{lone_of, AddsAlone};
ghost use Rattle.quic_connection.specs.Stopping.{StopsAloneFor};

use crate::running::show_code;
use crate::stepping::at_end;
use quic_congestion::Controller;
use quic_connection_core::Connection;
use quic_headline::headline;
use quic_machine::{Answer, Call, Datagram};
use quic_packet::crypto::{HeaderKey, PacketKey};
use rand_core::Rng;
use std::alloc::Global;

/// What comes of calls at one endpoint.
#[derive(Drop)]
pub struct Alone {
    /// The answer to each call.
    pub answers: Vec<Answer>,
    /// Whether memory beside the endpoint's own ran out: the next call then has no answer, and
    /// wasn't made.
    pub cut_short: bool,
}

/// Makes these calls in turn at one endpoint whose peer is elsewhere, and appends the datagrams
/// that it gives. [`Call::Deliver`] hands in one of `theirs`, by its index: any bytes, of a peer
/// that may have the keys and lie (RFC 9000, section 21).
///
/// Whatever that peer sent, each byte that a read gives stood at its offset in a STREAM frame of a
/// datagram that was handed in before and opened. Each message that is received stood in a DATAGRAM
/// frame of one. This holds at an endpoint as [`Connection::new`] makes it, as long as it hasn't
/// failed for want of memory.
///
/// Memory is asked for beside the endpoint's own before the first call, for all answers, and then
/// only where a call takes some, as `step` says.
///
/// Such an endpoint keeps no more of it than its settings let come: bytes within the windows,
/// streams within their counts, messages within the receive buffer, 64 ranges of numbers to
/// acknowledge, and eight connection IDs of the peer (RFC 9000, sections 4.1, 4.6, 5.1.1 and
/// 13.2.3; RFC 9221, section 3). While it is open, the unread bytes of a stream lie in no more
/// ranges than one for each 1,024 bytes of its window, and 2048 at least (RFC 9000, section 21.7).
/// Its application gets no more events than bytes came in datagrams that weren't dropped and writes
/// were blocked, beside one for each stream that is finished, and one for the loss of the
/// connection.
///
/// While it shows its peer's address as not validated, it gave there at most three times the bytes
/// that were handed in from there, since it takes its peer to be there (RFC 9000, section 8.1):
/// this and the bounds hold as long as it hasn't failed.
///
/// Where it isn't open any more, one of the calls closed it, for the reason that it has: a close of
/// the application's, a close of the peer's that came, a packet that was refused, the idle timer,
/// or a limit of keys or numbers. It is drained only by a close that came, or by a timeout at which
/// the idle or the Close timer had expired (RFC 9000, section 10). Any endpoint that is closing
/// gives no more datagrams than came since that opened under new numbers, and one (section 10.2.1).
///
/// Whoever the peer is, and also where memory runs out, such an endpoint seals each datagram under
/// a packet number above those before, and no more than [`PacketKey::confidentiality_limit`] lets
/// it: no nonce is used twice (RFC 9000, section 12.3; RFC 9001, sections 5.3 and 6.6). Each number
/// that a reader finds in an ACK frame of such a datagram is that of a packet that a call before it
/// handed in, and that was answered `Received::Taken` (RFC 9000, section 13.1). No message of such
/// a packet is longer than the receive buffer for messages, and none comes where there is no such
/// buffer (RFC 9221, section 3).
pub fn run_alone<H: HeaderKey + Drop, K: PacketKey + Drop, R: Rng + Drop, C: Controller>(
    alloc: Global,
    end: &mut Connection<H, K, R, C>,
    given: &mut Vec<Datagram>,
    theirs: &[Datagram],
    calls: &[Call],
) -> Alone
    ensures follows { FollowsAlone (policy_of H.protection K.aead K.seal_limit K.refusal_limit (words_of R.stream) end.old) theirs.now
        (lone_of (windows_of C.steps C.window_of) end.old) (take (length result.answers.items) calls.now) result.answers.items
        (lone_of (windows_of C.steps C.window_of) end.new) }
    ensures given { AddsAlone (policy_of H.protection K.aead K.seal_limit K.refusal_limit (words_of R.stream) end.old) theirs.now
        (lone_of (windows_of C.steps C.window_of) end.old) (take (length result.answers.items) calls.now) result.answers.items
        (lone_of (windows_of C.steps C.window_of) end.new) given.old.items given.new.items }
    ensures whole { result.cut_short ≡ false → length result.answers.items ≡ length calls.now }
    ensures stopped { result.cut_short ≡ true → length result.answers.items < length calls.now }
    ensures why { result.cut_short ≡ true → StopsAloneFor theirs.now calls.now result.answers.items }
    ensures goes_on { GoesOn R.stream end.old end.new }
    ensures bytes_come { IsNew end.old.end
        → BytesCame (policy_of H.protection K.aead K.seal_limit K.refusal_limit (words_of R.stream) end.old) theirs.now
        (take (length result.answers.items) calls.now) result.answers.items }
    ensures messages_come { IsNew end.old.end
        → MessagesCame (policy_of H.protection K.aead K.seal_limit K.refusal_limit (words_of R.stream) end.old) theirs.now
        (take (length result.answers.items) calls.now) result.answers.items }
    ensures bounded { (new : IsNew end.old.end) → list_any fails result.answers.items ≡ false → KeepsWithin new.settings end.new.end }
    ensures few_events { IsNew end.old.end → EventsAreFew theirs.now (take (length result.answers.items) calls.now) result.answers.items }
    ensures threefold { (begins : BeginsAlone (lone_of (windows_of C.steps C.window_of) end.old))
        → IsThreefold (policy_of H.protection K.aead K.seal_limit K.refusal_limit (words_of R.stream) end.old) theirs.now begins.new.side begins.new.remote
        (take (length result.answers.items) calls.now) result.answers.items
        (drop (length given.old.items) given.new.items) end.new.end }
    ensures closed_for_cause { IsNew end.old.end
        → ClosedForCause (policy_of H.protection K.aead K.seal_limit K.refusal_limit (words_of R.stream) end.old) theirs.now
        (lone_of (windows_of C.steps C.window_of) end.old) (take (length result.answers.items) calls.now) result.answers.items
        (lone_of (windows_of C.steps C.window_of) end.new) }
    ensures drained_for_cause { IsNew end.old.end
        → DrainedForCause (policy_of H.protection K.aead K.seal_limit K.refusal_limit (words_of R.stream) end.old) theirs.now
        (lone_of (windows_of C.steps C.window_of) end.old) (take (length result.answers.items) calls.now) result.answers.items
        (lone_of (windows_of C.steps C.window_of) end.new) }
    ensures closes_few { IsClosing end.old.end → CloseFew (take (length result.answers.items) calls.now) result.answers.items }
    ensures seals_once { IsNew end.old.end
        → SealedOnce (policy_of H.protection K.aead K.seal_limit K.refusal_limit (words_of R.stream) end.old)
        (drop (length given.old.items) given.new.items) }
    ensures acks_only_taken { BeginsFit (lone_of (windows_of C.steps C.window_of) end.old)
        → AcksTaken (policy_of H.protection K.aead K.seal_limit K.refusal_limit (words_of R.stream) end.old) theirs.now []
        (take (length result.answers.items) calls.now) result.answers.items
        (drop (length given.old.items) given.new.items) }
    ensures messages_fit { (new : IsNew end.old.end)
        → TakesFit (policy_of H.protection K.aead K.seal_limit K.refusal_limit (words_of R.stream) end.old) theirs.now
        new.settings.datagram_receive_buffer_size [] (take (length result.answers.items) calls.now) result.answers.items }
{
    // What the machine keeps at one end alone: laws, which do nothing.
    headline::bytes_come();
    headline::messages_come();
    headline::keeps_within();
    headline::tells_few();
    headline::stays_threefold();
    headline::closed_for_cause();
    headline::drained_for_cause();
    headline::closes_few();
    headline::seals_once();
    headline::acks_only_taken();
    headline::messages_fit();
    show_codes(calls);
    make_calls(alloc, end, given, theirs, calls)
}

/// Shows the prover that the codes of calls are below 2^62: their type says so.
fn show_codes(calls: &[Call])
    ensures { CodesAreSmall calls.now }
{
    for one in calls {
        show_code(one);
    }
}

/// Makes each call in turn.
fn make_calls<H: HeaderKey + Drop, K: PacketKey + Drop, R: Rng + Drop, C: Controller>(
    alloc: Global,
    end: &mut Connection<H, K, R, C>,
    given: &mut Vec<Datagram>,
    theirs: &[Datagram],
    calls: &[Call],
) -> Alone
    ensures given { AddsAlone (policy_of H.protection K.aead K.seal_limit K.refusal_limit (words_of R.stream) end.old) theirs.now
        (lone_of (windows_of C.steps C.window_of) end.old) (take (length result.answers.items) calls.now) result.answers.items
        (lone_of (windows_of C.steps C.window_of) end.new) given.old.items given.new.items }
    ensures whole { result.cut_short ≡ false → length result.answers.items ≡ length calls.now }
    ensures stopped { result.cut_short ≡ true → length result.answers.items < length calls.now }
    ensures why { result.cut_short ≡ true → StopsAloneFor theirs.now calls.now result.answers.items }
    ensures goes_on { GoesOn R.stream end.old end.new }
{
    let mut answers = Vec::new(alloc);
    if answers.reserve(calls.len()).is_err() {
        return Alone {
            answers,
            cut_short: true,
        };
    }
    for call in calls {
        let Ok(answer) = at_end(alloc, end, given, theirs, call) else {
            return Alone {
                answers,
                cut_short: true,
            };
        };
        answers.push_reserved(answer);
    }
    Alone {
        answers,
        cut_short: false,
    }
}
