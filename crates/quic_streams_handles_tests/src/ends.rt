use quic_retransmits::Retransmits;
use quic_streams_handles::EndStreams;
use quic_streams_state::StreamsState;
use quic_wire::frame::Stream;
use quic_wire_core::{Dir, Side, StreamId, VarInt};
use std::alloc::Global;

// One end, whose peer may open one stream of each kind; eight bytes may come.
fn end_streams(alloc: Global, side: Side) -> EndStreams {
    let count = VarInt::from_u32(1);
    let window = VarInt::from_u32(8);
    EndStreams {
        state: StreamsState::new(alloc, side, count, count, 100, window, window),
        pending: Retransmits::new(alloc),
    }
}

// Whether an act with the streams of such an end goes as it should: here alone they are let go,
// since each function that owns some is proved to let them go wherever it ends.
pub(crate) fn with_streams<F: FnOnce(&mut EndStreams) -> bool>(
    alloc: Global,
    side: Side,
    act: F,
) -> bool
    requires { F.IsAlwaysCallable act }
{
    let mut streams = end_streams(alloc, side);
    let is_right = act(&mut streams);
    drop(streams);
    is_right
}

// The first two-way stream of the client.
pub(crate) fn first_id() -> StreamId {
    StreamId::new(Side::Client, Dir::Bi, 0)
}

// Whether the first bytes of the peer come. Where memory lacks, nothing has changed, and they come
// again.
pub(crate) fn receives(streams: &mut EndStreams, data: &[u8]) -> bool {
    let frame = Stream {
        id: first_id(),
        offset: 0,
        fin: false,
        data,
    };
    let EndStreams { state, pending } = streams;
    state.received(&frame, pending).is_ok() || state.received(&frame, pending).is_ok()
}
