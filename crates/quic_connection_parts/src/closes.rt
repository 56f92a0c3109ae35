//! Frames that close a connection (RFC 9000, section 19.19).
ghost use Rattle.std.specs.Prelude.{◌≡◌, ℕ, ◌+◌, ◌<◌, ◌≤◌, ◌^◌, ◌++◌, [], length, IfOk, IfSome, vec_len, vec_capacity};
ghost use Rattle.quic_wire_core.specs.Varint.{shortest};
ghost use Rattle.quic_wire.specs.Value.{connection_close, application_close};
ghost use Rattle.quic_wire.specs.Close.{by_transport, by_application, transport_close, application_close_with};
ghost use Rattle.quic_wire.specs.Writing.{spelling, frame_size};
ghost use Rattle.quic_stats.specs.Stats.{counted};
ghost use Rattle.quic_machine.specs.End.{End};
ghost use Rattle.quic_machine.specs.Receive.{closed_by_peer, frame_named, take_close};
ghost use Rattle.quic_machine.specs.Poll.{fitted};
ghost use Rattle.quic_connection_parts.specs.Faults.{TakesAs, fault_view};

use crate::closing::CloseTold;
use crate::receiving::Trouble;
use quic_machine::PeerClose;
use quic_stats::FrameStats;
use quic_wire::frame::{Ack, Frame, Stream, put_frame};
use quic_wire_core::{Code, FrameType, VarInt};
use std::alloc::{AllocError, Global};

/// That the peer closed, with what it said: once to be kept, and once for the application. Both
/// are boxed, so that an answer that is none of this stays small; [`Trouble::Memory`] where that
/// allocation fails.
fn closed(alloc: Global, kept: PeerClose, told: PeerClose) -> Trouble
    requires { told ≡ kept }
    ensures { IfSome (fault_view result) (λ fault. fault ≡ closed_by_peer kept) }
{
    match Box::new(alloc, CloseTold { kept, told }) {
        Ok(close) => Trouble::Closed(close),
        Err(_) => Trouble::Memory,
    }
}

/// Takes a CONNECTION_CLOSE frame of type 1c: what it says is copied twice, once to be kept and
/// once for the application.
///
/// # Errors
///
/// - [`Trouble::Memory`]: an allocation fails, for a copy or for the box of both. Nothing changes.
/// - [`Trouble::Closed`]: always else, with what the peer said.
pub fn take_connection_close(
    alloc: Global,
    error_code: u64,
    frame_type: u64,
    reason: &[u8],
) -> Result<(), Trouble>
    requires code { error_code < 2 ^ 62 }
    requires frame_type { frame_type < 2 ^ 62 }
    ensures { (e : End) → TakesAs result (take_close (by_transport (transport_close error_code (frame_named frame_type) reason.now)) e) e }
{
    let kept = closed_by_transport(alloc, error_code, frame_type, reason)?;
    let told = closed_by_transport(alloc, error_code, frame_type, reason)?;
    Err(closed(alloc, kept, told))
}

/// What a CONNECTION_CLOSE frame of type 1c says, copied.
fn closed_by_transport(
    alloc: Global,
    error_code: u64,
    frame_type: u64,
    reason: &[u8],
) -> Result<PeerClose, AllocError>
    requires code { error_code < 2 ^ 62 }
    requires frame_type { frame_type < 2 ^ 62 }
    ensures { IfOk result (λ close. close ≡ by_transport (transport_close error_code (frame_named frame_type) reason.now)) }
{
    let code = Code::from(VarInt::from_u64_unchecked(error_code));
    PeerClose::by_transport(alloc, code, frame_at_fault(frame_type), reason)
}

/// Takes a CONNECTION_CLOSE frame of type 1d, as one of type 1c is taken.
///
/// # Errors
///
/// - [`Trouble::Memory`]: an allocation fails, for a copy or for the box of both. Nothing changes.
/// - [`Trouble::Closed`]: always else, with what the peer said.
pub fn take_application_close(alloc: Global, error_code: u64, reason: &[u8]) -> Result<(), Trouble>
    requires { error_code < 2 ^ 62 }
    ensures { (e : End) → TakesAs result (take_close (by_application (application_close_with error_code reason.now)) e) e }
{
    let code = VarInt::from_u64_unchecked(error_code);
    let kept = PeerClose::by_application(alloc, code, reason)?;
    let told = PeerClose::by_application(alloc, code, reason)?;
    Err(closed(alloc, kept, told))
}

/// The frame of this type was at fault; none is known where it is 0.
fn frame_at_fault(frame_type: u64) -> Option<FrameType>
    requires { frame_type < 2 ^ 62 }
    ensures { result ≡ frame_named frame_type }
{
    if frame_type == 0 {
        return None;
    }
    Some(FrameType::from(VarInt::from_u64_unchecked(frame_type)))
}

/// Appends a close by an error of QUIC, for which there is room: it names neither a frame nor a
/// text.
pub fn put_transport_close(out: &mut Vec<u8>, code: Code)
    requires { vec_len out.old + frame_size (connection_close (record { code = code; frame_type = 0; reason = [] })) ≤ vec_capacity out.old }
    ensures items { out.new.items ≡ out.old.items ++ spelling (connection_close (record { code = code; frame_type = 0; reason = [] })) }
    ensures len { vec_len out.new ≡ vec_len out.old + frame_size (connection_close (record { code = code; frame_type = 0; reason = [] })) }
    ensures capacity { vec_capacity out.old ≤ vec_capacity out.new }
{
    let _: Option<(Stream<'_>, Ack<'_>)> = None;
    put_frame(
        out,
        &Frame::ConnectionClose {
            error_code: u64::from(code),
            frame_type: 0,
            reason: &[],
        },
    );
}

/// Appends the application's close in at most `room` bytes, which there are, and which hold one
/// without a text: as much of the text as fits.
pub fn put_application_close(out: &mut Vec<u8>, code: VarInt, reason: &[u8], room: usize)
    requires some { 10 ≤ room }
    requires few { room < 2 ^ 16 }
    requires room { vec_len out.old + room ≤ vec_capacity out.old }
    ensures items { out.new.items ≡ out.old.items ++ spelling (fitted room (application_close (record { code = code; reason = reason.now }))) }
    ensures within { vec_len out.new ≤ vec_len out.old + room }
    ensures capacity { vec_capacity out.old ≤ vec_capacity out.new }
{
    let _: Option<(Stream<'_>, Ack<'_>)> = None;
    let most = longest_text(room - 1 - code.size());
    put_frame(
        out,
        &Frame::ApplicationClose {
            error_code: code.into_inner(),
            reason: &reason[..reason.len().min(most)],
        },
    );
}

/// How many bytes a text has at most that stands in so many bytes behind its length, which takes
/// one, two or four bytes (RFC 9000, section 16).
fn longest_text(room: usize) -> usize
    requires some { 1 ≤ room }
    requires few { room < 2 ^ 30 }
    ensures fits { result + length (shortest result) ≤ room }
    ensures longest { (n : ℕ) → n + length (shortest n) ≤ room → n ≤ result }
{
    let short = room.saturating_sub(1).min(63);
    let middle = room.saturating_sub(2).min(16_383);
    let long = room.saturating_sub(4).min(1_073_741_823);
    short.max(middle).max(long)
}

/// Counts a close frame that goes.
pub fn count_close_frame(stats: &mut FrameStats)
    ensures { stats.new ≡ record stats.old { connection_close = counted stats.old.connection_close } }
{
    stats.connection_close = stats.connection_close.saturating_add(1);
}
