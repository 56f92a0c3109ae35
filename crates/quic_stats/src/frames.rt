//! Statistics of frames.
ghost use Rattle.std.specs.Prelude.{◌≡◌};
ghost use Rattle.quic_wire.specs.FrameView.{frame_view};
ghost use Rattle.quic_stats.specs.Stats.{counted};

use quic_wire::frame::Frame;
use quic_wire_core::Dir;
use std::fmt::{self, Debug, Formatter};

/// How many frames of each type went one way (quinn-proto's `FrameStats`). PADDING isn't counted.
#[derive(Clone, Copy, Default, PartialEq, Eq)]
pub struct FrameStats {
    /// ACK frames (RFC 9000, section 19.3).
    pub acks: u64,
    /// ACK_FREQUENCY frames (the ACK frequency extension, section 4).
    pub ack_frequency: u64,
    /// CRYPTO frames (section 19.6).
    pub crypto: u64,
    /// CONNECTION_CLOSE frames of both types (section 19.19).
    pub connection_close: u64,
    /// DATA_BLOCKED frames (section 19.12).
    pub data_blocked: u64,
    /// DATAGRAM frames (RFC 9221, section 4).
    pub datagram: u64,
    /// HANDSHAKE_DONE frames (section 19.20).
    pub handshake_done: u8,
    /// IMMEDIATE_ACK frames (the ACK frequency extension, section 5).
    pub immediate_ack: u64,
    /// MAX_DATA frames (section 19.9).
    pub max_data: u64,
    /// MAX_STREAM_DATA frames (section 19.10).
    pub max_stream_data: u64,
    /// MAX_STREAMS frames for two-way streams (section 19.11).
    pub max_streams_bidi: u64,
    /// MAX_STREAMS frames for one-way streams.
    pub max_streams_uni: u64,
    /// NEW_CONNECTION_ID frames (section 19.15).
    pub new_connection_id: u64,
    /// NEW_TOKEN frames (section 19.7).
    pub new_token: u64,
    /// PATH_CHALLENGE frames (section 19.17).
    pub path_challenge: u64,
    /// PATH_RESPONSE frames (section 19.18).
    pub path_response: u64,
    /// PING frames (section 19.2).
    pub ping: u64,
    /// RESET_STREAM frames (section 19.4).
    pub reset_stream: u64,
    /// RETIRE_CONNECTION_ID frames (section 19.16).
    pub retire_connection_id: u64,
    /// STREAM_DATA_BLOCKED frames (section 19.13).
    pub stream_data_blocked: u64,
    /// STREAMS_BLOCKED frames for two-way streams (section 19.14).
    pub streams_blocked_bidi: u64,
    /// STREAMS_BLOCKED frames for one-way streams.
    pub streams_blocked_uni: u64,
    /// STOP_SENDING frames (section 19.5).
    pub stop_sending: u64,
    /// STREAM frames (section 19.8).
    pub stream: u64,
}

/// Counts one more.
fn count(counter: &mut u64)
    ensures { counter.new ≡ counted counter.old }
{
    *counter = counter.saturating_add(1);
}

impl FrameStats {
    ghost use Rattle.quic_stats.specs.Stats.{after_frame};

    /// Counts a frame (quinn-proto's `FrameStats::record`).
    pub fn record(&mut self, frame: &Frame<'_>)
        ensures { self.new ≡ after_frame (frame_view frame.now) self.old }
    {
        match frame {
            Frame::Padding => {}
            Frame::Ping => count(&mut self.ping),
            Frame::Ack(_) => count(&mut self.acks),
            Frame::ResetStream(_) => count(&mut self.reset_stream),
            Frame::StopSending(_) => count(&mut self.stop_sending),
            Frame::Crypto { .. } => count(&mut self.crypto),
            Frame::NewToken { .. } => count(&mut self.new_token),
            Frame::Stream(_) => count(&mut self.stream),
            Frame::MaxData(_) => count(&mut self.max_data),
            Frame::MaxStreamData { .. } => count(&mut self.max_stream_data),
            Frame::MaxStreams { dir: Dir::Bi, .. } => count(&mut self.max_streams_bidi),
            Frame::MaxStreams { dir: Dir::Uni, .. } => count(&mut self.max_streams_uni),
            Frame::DataBlocked { .. } => count(&mut self.data_blocked),
            Frame::StreamDataBlocked { .. } => count(&mut self.stream_data_blocked),
            Frame::StreamsBlocked { dir: Dir::Bi, .. } => count(&mut self.streams_blocked_bidi),
            Frame::StreamsBlocked { dir: Dir::Uni, .. } => count(&mut self.streams_blocked_uni),
            Frame::NewConnectionId(_) => count(&mut self.new_connection_id),
            Frame::RetireConnectionId { .. } => count(&mut self.retire_connection_id),
            Frame::PathChallenge(_) => count(&mut self.path_challenge),
            Frame::PathResponse(_) => count(&mut self.path_response),
            Frame::ConnectionClose { .. } | Frame::ApplicationClose { .. } => {
                count(&mut self.connection_close)
            }
            Frame::HandshakeDone => self.handshake_done = self.handshake_done.saturating_add(1),
            Frame::ImmediateAck => count(&mut self.immediate_ack),
            Frame::Datagram { .. } => count(&mut self.datagram),
            Frame::AckFrequency(_) => count(&mut self.ack_frequency),
        }
    }
}

/// Each count under the name of its type, in quinn-proto's order.
impl Debug for FrameStats {
    fn fmt<W: fmt::Write>(&self, f: &mut Formatter<W>) -> fmt::Result {
        f.debug_struct("FrameStats")
            .field("ACK", &self.acks)
            .field("ACK_FREQUENCY", &self.ack_frequency)
            .field("CONNECTION_CLOSE", &self.connection_close)
            .field("CRYPTO", &self.crypto)
            .field("DATA_BLOCKED", &self.data_blocked)
            .field("DATAGRAM", &self.datagram)
            .field("HANDSHAKE_DONE", &self.handshake_done)
            .field("IMMEDIATE_ACK", &self.immediate_ack)
            .field("MAX_DATA", &self.max_data)
            .field("MAX_STREAM_DATA", &self.max_stream_data)
            .field("MAX_STREAMS_BIDI", &self.max_streams_bidi)
            .field("MAX_STREAMS_UNI", &self.max_streams_uni)
            .field("NEW_CONNECTION_ID", &self.new_connection_id)
            .field("NEW_TOKEN", &self.new_token)
            .field("PATH_CHALLENGE", &self.path_challenge)
            .field("PATH_RESPONSE", &self.path_response)
            .field("PING", &self.ping)
            .field("RESET_STREAM", &self.reset_stream)
            .field("RETIRE_CONNECTION_ID", &self.retire_connection_id)
            .field("STREAM_DATA_BLOCKED", &self.stream_data_blocked)
            .field("STREAMS_BLOCKED_BIDI", &self.streams_blocked_bidi)
            .field("STREAMS_BLOCKED_UNI", &self.streams_blocked_uni)
            .field("STOP_SENDING", &self.stop_sending)
            .field("STREAM", &self.stream)
            .finish()
    }
}
