//! What the application is told, as numbers.
ghost use Rattle.std.specs.Prelude.{◌≡◌, option_copied};
ghost use Rattle.quic_c_core.specs.Events.{dir_number, of_kind, of_stream, reason_number, reason_code, IsText, IsLostText, IsTold};

use quic_connection::{Close, Dir, Event, LostReason, StreamEvent, StreamId, VarInt};

/// An event: `fh_event` of the header, which says what the numbers mean. What the kind doesn't name
/// is 0.
#[derive(Clone, Copy, Debug, Default, PartialEq, Eq)]
#[repr(C)]
pub struct EventRecord {
    /// What happened, from 1 to 9.
    pub kind: u64,
    /// The stream to which it happened.
    pub stream: u64,
    /// The kind of streams: 0 bidirectional, 1 unidirectional.
    pub dir: u64,
    /// An error code.
    pub code: u64,
    /// Why the connection is lost, from 1 to 8.
    pub reason: u64,
    /// How many bytes the text has that says more of why.
    pub text_len: u64,
}

impl EventRecord {
    /// An event.
    pub(crate) fn of(event: &Event) -> Self
        ensures { IsTold event.now result }
    {
        match event {
            Event::Stream(event) => EventRecord::of_stream(*event),
            Event::Message => EventRecord::of_kind(7),
            Event::HandshakeConfirmed => EventRecord::of_kind(9),
            Event::Lost(reason) => EventRecord::of_loss(reason),
        }
    }

    /// An event of this kind.
    fn of_kind(kind: u64) -> Self
        ensures { result ≡ of_kind kind }
    {
        EventRecord {
            kind,
            ..EventRecord::default()
        }
    }

    /// An event of this kind at a stream.
    fn at_stream(kind: u64, id: StreamId) -> Self
        ensures { result ≡ record (of_kind kind) { stream = id } }
    {
        EventRecord {
            kind,
            stream: VarInt::from(id).into_inner(),
            ..EventRecord::default()
        }
    }

    /// An event of this kind that is about a kind of streams.
    fn about(kind: u64, dir: Dir) -> Self
        ensures { result ≡ record (of_kind kind) { dir = dir_number dir } }
    {
        EventRecord {
            kind,
            dir: match dir {
                Dir::Bi => 0,
                Dir::Uni => 1,
            },
            ..EventRecord::default()
        }
    }

    /// What happened to streams.
    fn of_stream(event: StreamEvent) -> Self
        ensures { result ≡ of_stream event }
    {
        match event {
            StreamEvent::Opened { dir } => EventRecord::about(1, dir),
            StreamEvent::Readable { id } => EventRecord::at_stream(2, id),
            StreamEvent::Writable { id } => EventRecord::at_stream(3, id),
            StreamEvent::Finished { id } => EventRecord::at_stream(4, id),
            StreamEvent::Stopped { id, error_code } => EventRecord {
                code: error_code.into_inner(),
                ..EventRecord::at_stream(5, id)
            },
            StreamEvent::Available { dir } => EventRecord::about(6, dir),
        }
    }

    /// That the connection is lost, and why.
    fn of_loss(reason: &LostReason) -> Self
        ensures { IsTold (Event.Lost reason.now) result }
    {
        let (number, code) = reason_of(reason);
        EventRecord {
            code,
            reason: number,
            text_len: text_of(reason).len() as u64,
            ..EventRecord::of_kind(8)
        }
    }
}

/// The number of a reason, and the code that comes with it.
fn reason_of(reason: &LostReason) -> (u64, u64)
    ensures { result ≡ (reason_number reason.now, reason_code reason.now) }
{
    match reason {
        LostReason::Application => (1, 0),
        LostReason::Peer(close) => match close.as_close() {
            Close::Application(close) => (2, close.error_code.into_inner()),
            Close::Connection(close) => (3, VarInt::from(close.error_code).into_inner()),
        },
        LostReason::Idle => (4, 0),
        LostReason::Pieces => (5, 0),
        LostReason::KeyLimit => (6, 0),
        LostReason::NumberLimit => (7, 0),
        LostReason::Transport(error) => (8, VarInt::from(error.code()).into_inner()),
    }
}

/// The text that says more of a reason; none where there is no more to say.
fn text_of(reason: &LostReason) -> &[u8]
    ensures { IsText reason.now result.now }
{
    match reason {
        LostReason::Peer(close) => match close.as_close() {
            Close::Application(close) => &close.reason,
            Close::Connection(close) => &close.reason,
        },
        LostReason::Transport(error) => error.reason().as_str().as_bytes(),
        _ => &[],
    }
}

/// The text that says more of why the connection is lost; none where it isn't.
pub(crate) fn lost_text(reason: Option<&LostReason>) -> &[u8]
    ensures { IsLostText (option_copied reason.entry) result.now }
{
    match reason {
        Some(reason) => text_of(reason),
        None => &[],
    }
}
