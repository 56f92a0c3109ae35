//! All streams of an end, as an application holds them.
ghost use Rattle.std.specs.Prelude.{◌≡◌};
ghost use Rattle.quic_streams_state.specs.State.{send_streams, remote_open_streams};
ghost use Rattle.quic_streams_state.specs.Opening.{open_answer, after_open, accept_answer, after_accept};

use crate::end_streams::EndStreams;
use quic_wire_core::{Dir, StreamId};

/// The streams of an endpoint (quinn-proto's `Streams`).
#[derive(Drop)]
pub struct Streams<'a> {
    /// All of them.
    pub streams: &'a mut EndStreams,
    /// Whether the endpoint is open: no stream is opened on any other.
    pub is_open: bool,
}

impl<'a> Streams<'a> {
    /// Those of an endpoint, which is open or isn't.
    pub fn new(streams: &'a mut EndStreams, is_open: bool) -> Streams<'a>
        ensures same_reference { result.streams.ghost_name ≡ streams.entry.ghost_name }
        ensures same_streams { result.streams.now ≡ streams.old }
        ensures open { result.is_open ≡ is_open }
    {
        Streams { streams, is_open }
    }

    /// Opens the next stream of a kind (RFC 9000, section 4.6; quinn-proto's `Streams::open`): its
    /// ID. `None` if the endpoint isn't open, or the peer lets no more of them be opened.
    pub fn open(&mut self, dir: Dir) -> Option<StreamId>
        ensures same_reference { self.new.streams.ghost_name ≡ self.old.streams.ghost_name }
        ensures same_open { self.new.is_open ≡ self.old.is_open }
        ensures answer { result ≡ open_answer self.old.is_open dir self.old.streams.now.state }
        ensures state { self.new.streams.now.state ≡ after_open self.old.is_open dir self.old.streams.now.state }
        ensures pending { self.new.streams.now.pending ≡ self.old.streams.now.pending }
    {
        self.streams.state.open(self.is_open, dir)
    }

    /// The first stream of a kind that the peer opened and that wasn't accepted; it is accepted now
    /// (quinn-proto's `Streams::accept`). `None` where all were.
    pub fn accept(&mut self, dir: Dir) -> Option<StreamId>
        ensures same_reference { self.new.streams.ghost_name ≡ self.old.streams.ghost_name }
        ensures same_open { self.new.is_open ≡ self.old.is_open }
        ensures answer { result ≡ accept_answer dir self.old.streams.now.state }
        ensures state { self.new.streams.now.state ≡ after_accept dir self.old.streams.now.state }
        ensures pending { self.new.streams.now.pending ≡ self.old.streams.now.pending }
    {
        self.streams.state.accept(dir)
    }

    /// How many opened streams this endpoint may send on, and isn't done with.
    pub fn send_streams(&self) -> u64
        ensures { result ≡ send_streams self.now.streams.now.state }
    {
        self.streams.state.send_streams()
    }

    /// How many streams of a kind that the peer opened aren't done both ways.
    pub fn remote_open_streams(&self, dir: Dir) -> u64
        ensures { result ≡ remote_open_streams self.now.streams.now.state dir }
    {
        self.streams.state.remote_open_streams(dir)
    }
}
