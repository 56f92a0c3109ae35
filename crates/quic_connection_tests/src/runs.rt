//! The worked run whole, by the one call of `run` here and by the one of `run_alone`, also where an
//! allocation fails. Whoever calls these carries all that they promise: so each is called once, by
//! a function that does nothing else.
use crate::ends::{BothEnds, End, Pair, arrives, event, new_ends, stream, unset, with_pair};
use bytes::Bytes;
use quic_connection::{
    Alone, Answer, ApplicationClose, Call, Close, CloseCall, ConfigError, Datagram, Dir,
    FinishError, Instant, LostReason, NewReno, Outcome, ReadCall, ReadableError, Received,
    RunEvent, Side, VarInt, View, WriteError, run, run_alone,
};
use quic_keys::{PlainHeaderKey, PlainKey, Words};
use std::alloc::{AllocError, Global};
use std::process::Abort;
use std::test::Fail;

/// When all happens.
fn now() -> Instant {
    Instant::from_nanos(0)
}

/// `hello` is written on the client's stream.
fn hello() -> Call {
    Call::Write(stream(), Bytes::from_static(b"hello"))
}

/// The client writes `hello` on its stream, ends it, and gives a datagram.
fn writing() -> [Call; 4] {
    [
        Call::Open(Dir::Bi),
        hello(),
        Call::Finish(stream()),
        Call::Poll(now()),
    ]
}

/// That stream is read to its end.
fn whole_read(alloc: Global) -> Result<ReadCall, AllocError> {
    Ok(ReadCall {
        id: stream(),
        ordered: true,
        nexts: Vec::from_slice(alloc, &[32, 32])?,
        finalize: true,
    })
}

/// The datagram comes to the server, which accepts the stream and reads it to its end.
fn reading(alloc: Global) -> Result<[Call; 3], AllocError> {
    let read = whole_read(alloc)?;
    Ok([arrives(0), Call::Accept(Dir::Bi), Call::Read(read)])
}

/// The client closes with a text.
fn closing() -> Call {
    Call::Close(CloseCall {
        now: now(),
        error_code: VarInt::from_u32(7),
        reason: Bytes::from_static(b"bye"),
    })
}

/// Both, and then the client closes, and that comes to the server.
fn worked(alloc: Global) -> Result<[RunEvent; 10], AllocError> {
    let read = whole_read(alloc)?;
    Ok([
        event(Side::Client, Call::Open(Dir::Bi)),
        event(Side::Client, hello()),
        event(Side::Client, Call::Finish(stream())),
        event(Side::Client, Call::Poll(now())),
        event(Side::Server, arrives(0)),
        event(Side::Server, Call::Accept(Dir::Bi)),
        event(Side::Server, Call::Read(read)),
        event(Side::Client, closing()),
        event(Side::Client, Call::Poll(now())),
        event(Side::Server, arrives(1)),
    ])
}

/// Whether a read gave `hello`, and then the end.
fn is_hello(answer: &Answer) -> bool {
    match answer {
        Answer::Read(Ok(nexts)) => match nexts.as_slice() {
            [Ok(Some(chunk)), Ok(None)] => chunk.bytes.as_slice() == b"hello".as_slice(),
            _ => false,
        },
        _ => false,
    }
}

/// Whether the event of this index of the worked run is answered as where memory serves. A close
/// has a datagram of 32 bytes: 26 stand beside its frame, which has 3 beside its text.
fn is_served(index: usize, answer: &Answer) -> bool {
    match (index, answer) {
        (0 | 5, Answer::Open(Some(id)) | Answer::Accept(Some(id))) => *id == stream(),
        (1, Answer::Write(Ok(5))) | (2, Answer::Finish(Ok(()))) => true,
        (3, Answer::Poll(Ok(Some(transmit)))) => transmit.size == 230,
        (8, Answer::Poll(Ok(Some(transmit)))) => transmit.size == 32,
        (4 | 9, Answer::Deliver(Received::Taken)) => true,
        (6, read) => is_hello(read),
        (7, Answer::Close) => true,
        _ => false,
    }
}

/// Whether a call lacked memory.
fn lacks_memory(answer: &Answer) -> bool {
    matches!(
        answer,
        Answer::Write(Err(WriteError::Memory))
            | Answer::Finish(Err(FinishError::Memory))
            | Answer::Read(Err(ReadableError::Memory))
            | Answer::Poll(Err(_))
            | Answer::Deliver(Received::Failed)
    )
}

/// Whether the answers to events of the worked run, from this one on, are those where memory
/// serves, up to a call that lacked it; then no allocation is left to fail in the run itself.
fn are_right(from: usize, answers: &[Answer], cut_short: bool) -> bool {
    for (index, answer) in answers.iter().enumerate() {
        if !is_served(index.saturating_add(from), answer) {
            return !cut_short && lacks_memory(answer);
        }
    }
    true
}

/// Whether so many events of the worked run, from this one on, were made and served.
fn is_whole(from: usize, count: usize, answers: &[Answer]) -> bool {
    let served = |(index, answer): (usize, &Answer)| is_served(index.saturating_add(from), answer);
    answers.len() == count && answers.iter().enumerate().all(served)
}

/// What is seen of both endpoints behind the event of this index, where memory serves: why they
/// were lost, the server with the text.
fn assert_seen<R: Abort>(rt: &R, index: usize, view: &View, close: &Close) {
    match &view.client.reason {
        Some(LostReason::Application) => assert!(rt; index >= 7),
        Some(_) => panic!(rt; "another reason"),
        None => assert!(rt; index < 7),
    }
    match &view.server.reason {
        Some(LostReason::Peer(told)) => assert!(rt; index == 9 && *told.as_close() == *close),
        Some(_) => panic!(rt; "another reason"),
        None => assert!(rt; index < 9),
    }
}

/// Runs endpoints over these events.
fn run_ends(
    alloc: Global,
    ends: BothEnds,
    events: &[RunEvent],
) -> Outcome<PlainHeaderKey, PlainKey, Words, NewReno> {
    run(alloc, ends, events)
}

/// What a run says.
#[derive(Drop)]
struct Seen {
    answers: Vec<Answer>,
    views: Vec<View>,
    cut_short: bool,
}

/// What a run says, of which the endpoints and their datagrams are let go: at once and by name,
/// since a proof takes long where a function lets them go at its end.
fn seen_in(outcome: Outcome<PlainHeaderKey, PlainKey, Words, NewReno>) -> Seen {
    let Outcome {
        answers,
        views,
        given,
        ends,
        cut_short,
    } = outcome;
    drop(given);
    drop(ends);
    Seen {
        answers,
        views,
        cut_short,
    }
}

/// Runs new endpoints over these events.
fn seen_of(alloc: Global, events: &[RunEvent]) -> Result<Seen, ConfigError> {
    let ends = new_ends(alloc, unset(), unset(), true)?;
    Ok(seen_in(run_ends(alloc, ends, events)))
}

/// A run says what it has to: whether it is whole.
fn assert_run<R: Abort>(rt: &R, seen: &Seen, close: &Close) -> bool {
    let answers = seen.answers.as_slice();
    assert!(rt; are_right(0, answers, seen.cut_short));
    assert_eq!(rt; seen.cut_short, answers.len() < 10);
    assert_eq!(rt; seen.views.len(), answers.len());
    let whole = is_whole(0, 10, answers);
    if whole {
        for (index, view) in seen.views.iter().enumerate() {
            assert_seen(rt, index, view, close);
        }
    }
    whole
}

/// Makes so many allocations, so that the one which fails comes so much earlier in what follows.
fn allocate(alloc: Global, times: u8) -> Result<(), AllocError> {
    for _ in 0..times {
        Vec::from_slice(alloc, &[0u8])?;
    }
    Ok(())
}

/// Of two runs behind so many allocations one lacks memory at most.
fn assert_runs<R: Abort + AllocGlobal>(rt: &R, before: u8) -> Result<(), Fail> {
    let events = worked(rt.alloc())?;
    let bye = ApplicationClose::new(rt.alloc(), VarInt::from_u32(7), b"bye")?;
    let close = Close::Application(bye);
    allocate(rt.alloc(), before)?;
    let mut lacked = false;
    for _ in 0..2 {
        let whole = match seen_of(rt.alloc(), &events) {
            Ok(seen) => assert_run(rt, &seen, &close),
            Err(error) => {
                assert_eq!(rt; error, ConfigError::Memory);
                false
            }
        };
        assert!(rt; whole || !lacked);
        lacked = lacked || !whole;
    }
    Ok(())
}

#[test]
fn a_run(rt: HostRuntime) -> Result<(), Fail> {
    assert_runs(&rt, 0)
}

#[test]
fn a_run_behind_one(rt: HostRuntime) -> Result<(), Fail> {
    assert_runs(&rt, 1)
}

#[test]
fn a_run_behind_two(rt: HostRuntime) -> Result<(), Fail> {
    assert_runs(&rt, 2)
}

#[test]
fn a_run_behind_three(rt: HostRuntime) -> Result<(), Fail> {
    assert_runs(&rt, 3)
}

#[test]
fn a_run_behind_four(rt: HostRuntime) -> Result<(), Fail> {
    assert_runs(&rt, 4)
}

/// Makes these calls at one endpoint.
fn run_end(
    alloc: Global,
    end: &mut End,
    given: &mut Vec<Datagram>,
    theirs: &[Datagram],
    calls: &[Call],
) -> Alone {
    run_alone(alloc, end, given, theirs, calls)
}

/// The client's calls are made, and then the server's on their own: whether nothing lacked.
fn assert_alone<R: Abort>(rt: &R, pair: &mut Pair, calls: &[Call]) -> bool {
    for (index, call) in writing().into_iter().enumerate() {
        match pair.make(&event(Side::Client, call)) {
            Ok(answer) if is_served(index, &answer) => {}
            Ok(answer) => {
                assert!(rt; lacks_memory(&answer));
                return false;
            }
            Err(AllocError) => return false,
        }
    }
    let Pair { alloc, ends, given } = pair;
    let alone = run_end(
        *alloc,
        &mut ends.server,
        &mut given.server,
        &given.client,
        calls,
    );
    let answers = alone.answers.as_slice();
    assert!(rt; are_right(4, answers, alone.cut_short));
    assert_eq!(rt; alone.cut_short, answers.len() < calls.len());
    assert!(rt; given.server.is_empty());
    is_whole(4, calls.len(), answers)
}

/// Of two such endpoints behind so many allocations one lacks memory at most.
fn assert_ends<R: Abort + AllocGlobal>(rt: &R, before: u8) -> Result<(), Fail> {
    let calls = reading(rt.alloc())?;
    allocate(rt.alloc(), before)?;
    let mut lacked = false;
    for _ in 0..2 {
        let made = with_pair(rt.alloc(), unset(), unset(), true, |pair| {
            assert_alone(rt, pair, &calls)
        });
        let whole = match made {
            Ok(whole) => whole,
            Err(error) => {
                assert_eq!(rt; error, ConfigError::Memory);
                false
            }
        };
        assert!(rt; whole || !lacked);
        lacked = lacked || !whole;
    }
    Ok(())
}

#[test]
fn alone(rt: HostRuntime) -> Result<(), Fail> {
    assert_ends(&rt, 0)
}

#[test]
fn alone_behind_one(rt: HostRuntime) -> Result<(), Fail> {
    assert_ends(&rt, 1)
}

#[test]
fn alone_behind_two(rt: HostRuntime) -> Result<(), Fail> {
    assert_ends(&rt, 2)
}

#[test]
fn alone_behind_three(rt: HostRuntime) -> Result<(), Fail> {
    assert_ends(&rt, 3)
}

#[test]
fn alone_behind_four(rt: HostRuntime) -> Result<(), Fail> {
    assert_ends(&rt, 4)
}
