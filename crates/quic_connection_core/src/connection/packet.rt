//! The packet of a datagram: header, frames, PADDING and seal.
ghost use Rattle.std.specs.Prelude.{◌≡◌, ◌+◌, ◌-◌, ◌<◌, ◌≤◌, ◌^◌, ◌++◌, length, take, drop, IfOk, OnOk, OnErr, true, vec_len, vec_capacity};
ghost use Rattle.quic_packet.specs.Number.{truncated};
ghost use Rattle.quic_packet.specs.Header.{header_bytes};
ghost use Rattle.quic_packet.specs.Datagram.{protected};
ghost use Rattle.quic_wire.specs.AckSet.{ranges_of_set, greatest};
ghost use Rattle.quic_wire.specs.Value.{ack};
ghost use Rattle.quic_wire.specs.Writing.{spelling, frame_size};
ghost use Rattle.quic_recovery_core.specs.declared.spaces.pending_acks.TheConstants.{MAX_ACK_RUNS};
ghost use Rattle.quic_recovery_core.specs.PendingAcks.{can_send, is_filled};
ghost use Rattle.quic_time.specs.Timers.{no_timers};
ghost use Rattle.quic_machine.specs.End.{with_end, with_number_given, number_of, policy_of, HasFailed, words_drawn};
ghost use Rattle.quic_spaces.specs.Acknowledging.{most_ack_bytes};
ghost use Rattle.quic_spaces.specs.Numbers.{can_number, may_give, cut_against};
ghost use Rattle.quic_machine.specs.Tracking.{carried_in};
ghost use Rattle.quic_machine.specs.DraftLaws.{MayGo, MayLeave};
ghost use Rattle.quic_machine.specs.Poll.{draft_left, draft_as, lazied_as, most_of, most_ordinary, beside_frames, composed, frame_room, payload_of, datagram_of, datagram_size, paid_if, told_draft, after_given, asking, tracked, ack_of, after_ack};
ghost use Rattle.quic_connection_parts.specs.Leaving.{leaving_of, IsLooked, least_of, pads_left};
ghost use Rattle.quic_machine.specs.Idle.{packet_given};
ghost use Rattle.quic_machine.specs.Validation.{path_waits};
ghost use Rattle.quic_machine.specs.Parts.{current_mtu};
ghost use Rattle.quic_connection_parts.specs.Frames.{content_at, with_content, with_request, asked, ping_bytes, pinged, immediate_bytes, end_after_immediate_if, bare_bytes, bare_sent, fits_behind, ack_bytes_if, acked_if, end_after_ack_if};
ghost use Rattle.quic_connection_parts.specs.Drawn.{words_of, after_words};
ghost use Rattle.quic_connection_parts.specs.Telling.{KeepsRest};
ghost use Rattle.quic_congestion.specs.Congestion.{after_calls};

use crate::connection::Connection;
use crate::connection::validation::PATH_FRAMES_SIZE;
use quic_congestion::Controller;
use quic_connection_parts::leaving::Leaving;
use quic_connection_parts::packet::{pad, put_content, put_immediate_ack, put_ping};
use quic_connection_parts::sent::{Carried, SentFrames};
use quic_connection_parts::spare::spare_list;
use quic_connection_parts::statistics::count;
use quic_machine::{Failed, Timer};
use quic_packet::crypto::{HeaderKey, PacketKey, TAG_LEN};
use quic_packet::{PacketNumber, ShortHeader, seal_reserved};
use rand_core::Rng;
use std::alloc::AllocError;

impl<H: HeaderKey + Drop, K: PacketKey + Drop, R: Rng + Drop, C: Controller> Connection<
    H,
    K,
    R,
    C,
> {
    /// About to build a packet: an ACK becomes due if more than ten non-ack-eliciting packets have
    /// arrived. MTU probes carry no ACK.
    fn lazy(&mut self, leaving: Leaving)
        ensures { self.new ≡ with_end self.old (lazied_as (leaving_of leaving) self.old.end) }
    {
        match leaving {
            Leaving::Whole | Leaving::Alone => self.space.acknowledging.lazy(),
            Leaving::Probe(_) => {}
        }
    }

    /// How many bytes an ordinary datagram has at most: the current size, and while a PTO probe is
    /// pending no more than `min_mtu`, so that the probe arrives if the path carries less than it
    /// did (RFC 8899, section 4.3; RFC 9000, section 14.3).
    pub(crate) fn most_ordinary(&self) -> u16
        ensures size { result ≡ most_ordinary self.now.end }
        ensures least { 1200 ≤ result }
        ensures within { result ≤ current_mtu self.now.end.path }
    {
        // The proof reads that the current size has 1200 bytes at least.
        let size = self.path.current_mtu();
        if self.space.tracking.has_probes() {
            self.transport.get_min_mtu().min(size)
        } else {
            size
        }
    }

    /// How many bytes a datagram of this kind has at most.
    fn most_size(&self, leaving: Leaving) -> usize
        ensures { result ≡ most_of (leaving_of leaving) self.now.end }
    {
        match leaving {
            Leaving::Whole | Leaving::Alone => usize::from(self.most_ordinary()),
            Leaving::Probe(size) => usize::from(size.max(self.path.current_mtu())),
        }
    }

    /// Appends a datagram of this kind, tracks it, and counts it as sent: its size. If out of
    /// memory, nothing is appended, and the endpoint fails for good.
    pub(crate) fn give(&mut self, leaving: Leaving, out: &mut Vec<u8>) -> Result<usize, Failed>
        requires number { can_number self.old.end.numbers ≡ true }
        requires due { MayLeave (leaving_of leaving) self.old.end }
        requires looked { IsLooked leaving self.old.end }
        ensures items { OnOk result (out.new.items ≡ out.old.items ++ datagram_of (policy_of H.protection K.aead K.seal_limit K.refusal_limit (words_of R.stream) self.old) (draft_as (leaving_of leaving) self.old.end)) }
        ensures size { IfOk result (λ size. vec_len out.new ≡ vec_len out.old + size) }
        ensures most { IfOk result (λ size. size ≤ most_of (leaving_of leaving) self.old.end) }
        ensures end { OnOk result (self.new.end ≡ after_given (policy_of H.protection K.aead K.seal_limit K.refusal_limit (words_of R.stream) self.old) (draft_as (leaving_of leaving) self.old.end)) }
        ensures control { OnOk result (self.new.control ≡ after_calls C.steps self.old.control (told_draft (draft_as (leaving_of leaving) self.old.end))) }
        ensures keys { self.new.keys ≡ self.old.keys }
        ensures heard { OnOk result (self.new.heard ≡ self.old.heard) }
        ensures random { OnOk result (R.stream self.new.random ≡ after_words (words_drawn self.new.end - words_drawn self.old.end) (R.stream self.old.random)) }
        ensures failed { OnErr result (HasFailed self.old self.new) }
        ensures stopped { OnErr result (self.new.end.timers ≡ no_timers) }
        ensures nothing { OnErr result (out.new.items ≡ out.old.items) }
    {
        if out.reserve(self.most_size(leaving)).is_err() {
            self.fail();
            return Err(Failed);
        }
        self.lazy(leaving);
        self.put_datagram(leaving, out)
    }

    /// Appends a datagram of this kind, for which there is room, tracks it, and counts it as sent:
    /// its size. If out of memory, nothing is appended, and the endpoint fails for good.
    fn put_datagram(&mut self, leaving: Leaving, out: &mut Vec<u8>) -> Result<usize, Failed>
        requires number { can_number self.old.end.numbers ≡ true }
        requires due { MayGo (leaving_of leaving) self.old.end }
        requires looked { IsLooked leaving self.old.end }
        requires room { vec_len out.old + most_of (leaving_of leaving) self.old.end ≤ vec_capacity out.old }
        ensures items { OnOk result (out.new.items ≡ out.old.items ++ datagram_of (policy_of H.protection K.aead K.seal_limit K.refusal_limit (words_of R.stream) self.old) (draft_left (leaving_of leaving) self.old.end)) }
        ensures size { IfOk result (λ size. vec_len out.new ≡ vec_len out.old + size) }
        ensures most { IfOk result (λ size. size ≤ most_of (leaving_of leaving) self.old.end) }
        ensures end { OnOk result (self.new.end ≡ after_given (policy_of H.protection K.aead K.seal_limit K.refusal_limit (words_of R.stream) self.old) (draft_left (leaving_of leaving) self.old.end)) }
        ensures control { OnOk result (self.new.control ≡ after_calls C.steps self.old.control (told_draft (draft_left (leaving_of leaving) self.old.end))) }
        ensures keys { self.new.keys ≡ self.old.keys }
        ensures heard { OnOk result (self.new.heard ≡ self.old.heard) }
        ensures random { OnOk result (R.stream self.new.random ≡ after_words (words_drawn self.new.end - words_drawn self.old.end) (R.stream self.old.random)) }
        ensures failed { OnErr result (HasFailed self.old self.new) }
        ensures stopped { OnErr result (self.new.end.timers ≡ no_timers) }
        ensures nothing { OnErr result (out.new.items ≡ out.old.items) }
    {
        let start = out.len();
        let number = self.number();
        if self.put_tracked(leaving, out).is_err() {
            out.truncate(start);
            self.fail();
            return Err(Failed);
        }
        self.seal(start, number, out);
        self.app_limited = false;
        self.set_loss_timer();
        Ok(out.len() - start)
    }

    /// Appends the packet of what is pending, for which there is room, unsealed, tracks it, and
    /// counts its number as used. Fails if out of memory; the endpoint is then unusable, and some
    /// of the packet may be in `out`.
    fn put_tracked(&mut self, leaving: Leaving, out: &mut Vec<u8>) -> Result<(), AllocError>
        requires number { can_number self.old.end.numbers ≡ true }
        requires due { MayGo (leaving_of leaving) self.old.end }
        requires looked { IsLooked leaving self.old.end }
        requires room { vec_len out.old + most_of (leaving_of leaving) self.old.end ≤ vec_capacity out.old }
        ensures items { OnOk result (out.new.items ≡ out.old.items ++ (header_bytes self.old.end.ids.peer.id (truncated (number_of self.old.end) (cut_against self.old.end.numbers)) ++ payload_of (draft_left (leaving_of leaving) self.old.end))) }
        ensures four { OnOk result (vec_len out.old + 1 + length self.old.end.ids.peer.id + 4 ≤ vec_len out.new) }
        ensures within { OnOk result (vec_len out.new + 16 ≤ vec_len out.old + most_of (leaving_of leaving) self.old.end) }
        ensures capacity { vec_capacity out.old ≤ vec_capacity out.new }
        ensures end { OnOk result (self.new.end ≡ packet_given (asking (draft_left (leaving_of leaving) self.old.end).frames) (paid_if (asking (draft_left (leaving_of leaving) self.old.end).frames) (with_number_given (words_of R.stream self.old.random 0) (tracked (draft_left (leaving_of leaving) self.old.end))) (datagram_size (draft_left (leaving_of leaving) self.old.end)))) }
        ensures control { OnOk result (self.new.control ≡ after_calls C.steps self.old.control (told_draft (draft_left (leaving_of leaving) self.old.end))) }
        ensures random { OnOk result (R.stream self.new.random ≡ after_words (words_drawn self.new.end - words_drawn self.old.end) (R.stream self.old.random)) }
        ensures ids { OnOk result (self.new.end.ids ≡ self.old.end.ids) }
        ensures keys { self.new.keys ≡ self.old.keys }
        ensures heard { OnOk result (self.new.heard ≡ self.old.heard) }
        ensures front { take (vec_len out.old) out.new.items ≡ out.old.items }
        ensures grows { vec_len out.old ≤ vec_len out.new }
        ensures others { OnErr result (KeepsRest self.old self.new) }
    {
        let start = out.len();
        // The proof reads that the size has 16 bits.
        let _most = self.path.current_mtu();
        let sent = self.put_plain(leaving, out)?;
        let size = (out.len() - start + TAG_LEN) as u16;
        self.track(size, sent)
    }

    /// Appends the packet of what is pending, for which there is room, unsealed; its frames are
    /// taken off. Returns what it carries. Fails if out of memory; the endpoint is then unusable,
    /// and some of the packet may be in `out`.
    fn put_plain(&mut self, leaving: Leaving, out: &mut Vec<u8>) -> Result<SentFrames, AllocError>
        requires number { can_number self.old.end.numbers ≡ true }
        requires due { MayGo (leaving_of leaving) self.old.end }
        requires looked { IsLooked leaving self.old.end }
        requires room { vec_len out.old + most_of (leaving_of leaving) self.old.end ≤ vec_capacity out.old }
        ensures items { OnOk result (out.new.items ≡ out.old.items ++ (header_bytes self.old.end.ids.peer.id (truncated (number_of self.old.end) (cut_against self.old.end.numbers)) ++ payload_of (draft_left (leaving_of leaving) self.old.end))) }
        ensures four { OnOk result (vec_len out.old + 1 + length self.old.end.ids.peer.id + 4 ≤ vec_len out.new) }
        ensures within { OnOk result (vec_len out.new + 16 ≤ vec_len out.old + most_of (leaving_of leaving) self.old.end) }
        ensures capacity { vec_capacity out.old ≤ vec_capacity out.new }
        ensures end { OnOk result (self.new ≡ with_end self.old (draft_left (leaving_of leaving) self.old.end).end) }
        ensures size { OnOk result (vec_len out.new + 16 ≡ vec_len out.old + datagram_size (draft_left (leaving_of leaving) self.old.end)) }
        ensures numbers { OnOk result (self.new.end.numbers ≡ self.old.end.numbers) }
        ensures filter { OnOk result (self.new.end.filter ≡ self.old.end.filter) }
        ensures ids { OnOk result (self.new.end.ids ≡ self.old.end.ids) }
        ensures keys { self.new.keys ≡ self.old.keys }
        ensures asks { IfOk result (λ sent. sent.asks ≡ asking (draft_left (leaving_of leaving) self.old.end).frames) }
        ensures carried { IfOk result (λ sent. sent.carried ≡ carried_in (draft_left (leaving_of leaving) self.old.end).frames) }
        ensures front { take (vec_len out.old) out.new.items ≡ out.old.items }
        ensures grows { vec_len out.old ≤ vec_len out.new }
        ensures others { self.new ≡ with_end self.old self.new.end }
    {
        // The proof reads that a datagram may have 1200 bytes.
        let _most = self.most_ordinary();
        let start = out.len();
        let width = self.put_header(out);
        let body = out.len();
        let sent = self.put_leave(leaving, out)?;
        let beside = body - start + TAG_LEN;
        let least = self.least_size(leaving, &sent);
        pad(out, width, body, least.saturating_sub(beside));
        Ok(sent)
    }

    /// Appends the frames of a datagram of this kind as a payload, for which there is room: of all
    /// that is pending, a due ACK alone, or the PING of an MTU probe. Returns what they carry.
    /// Fails if out of memory; the endpoint is then unusable, and some of the frames may be in
    /// `out`.
    fn put_leave(&mut self, leaving: Leaving, out: &mut Vec<u8>) -> Result<SentFrames, AllocError>
        requires number { can_number self.old.end.numbers ≡ true }
        requires due { MayGo (leaving_of leaving) self.old.end }
        requires looked { IsLooked leaving self.old.end }
        requires some { 1159 ≤ frame_room self.old.end }
        requires room { vec_len out.old + frame_room self.old.end ≤ vec_capacity out.old }
        ensures items { OnOk result (out.new.items ≡ out.old.items ++ (draft_left (leaving_of leaving) self.old.end).bytes) }
        ensures within { vec_len out.new ≤ vec_len out.old + frame_room self.old.end }
        ensures grows { vec_len out.old ≤ vec_len out.new }
        ensures capacity { vec_capacity out.old ≤ vec_capacity out.new }
        ensures end { OnOk result (self.new ≡ with_end self.old (draft_left (leaving_of leaving) self.old.end).end) }
        ensures asks { IfOk result (λ sent. sent.asks ≡ asking (draft_left (leaving_of leaving) self.old.end).frames) }
        ensures pads { IfOk result (λ sent. sent.requires_padding ≡ pads_left (leaving_of leaving) self.old.end) }
        ensures carried { IfOk result (λ sent. sent.carried ≡ carried_in (draft_left (leaving_of leaving) self.old.end).frames) }
        ensures front { take (vec_len out.old) out.new.items ≡ out.old.items }
        ensures others { self.new ≡ with_end self.old self.new.end }
    {
        match leaving {
            Leaving::Whole => self.put_frames(out),
            Leaving::Alone => {
                let largest = self.put_ack(out);
                Ok(SentFrames::acks(self.alloc, largest))
            }
            Leaving::Probe(_) => {
                put_ping(out);
                count(&mut self.stats.frame_tx.ping);
                count(&mut self.stats.path.sent_plpmtud_probes);
                Ok(SentFrames::probe(self.alloc))
            }
        }
    }

    /// How many bytes a datagram has at least: an MTU probe has its size, one with PATH_CHALLENGE
    /// or PATH_RESPONSE 1200, and with `pad_to_mtu` an ack-eliciting one as many as it may have.
    fn least_size(&self, leaving: Leaving, sent: &SentFrames) -> usize
        ensures { result ≡ least_of (leaving_of leaving) sent.now.requires_padding sent.now.asks self.now.end }
    {
        let size = match leaving {
            Leaving::Whole if sent.requires_padding => PATH_FRAMES_SIZE,
            Leaving::Whole | Leaving::Alone => 0,
            Leaving::Probe(size) => size,
        };
        if self.transport.get_pad_to_mtu() && sent.asks {
            usize::from(size.max(self.most_ordinary()))
        } else {
            usize::from(size)
        }
    }

    /// Appends the pending frames as a payload, for which there is room. A due ACK goes first, so
    /// that it always fits; one that isn't due goes last, if it fits, so that it takes no room from
    /// what is pending. Returns what they carry. Fails if out of memory; the endpoint is then
    /// unusable, and some of the frames may be in `out`.
    fn put_frames(&mut self, out: &mut Vec<u8>) -> Result<SentFrames, AllocError>
        requires number { can_number self.old.end.numbers ≡ true }
        requires some { 1159 ≤ frame_room self.old.end }
        requires room { vec_len out.old + frame_room self.old.end ≤ vec_capacity out.old }
        ensures items { OnOk result (out.new.items ≡ out.old.items ++ (composed self.old.end).bytes) }
        ensures within { vec_len out.new ≤ vec_len out.old + frame_room self.old.end }
        ensures grows { vec_len out.old ≤ vec_len out.new }
        ensures capacity { vec_capacity out.old ≤ vec_capacity out.new }
        ensures end { OnOk result (self.new ≡ with_end self.old (composed self.old.end).end) }
        ensures asks { IfOk result (λ sent. sent.asks ≡ asking (composed self.old.end).frames) }
        ensures pads { IfOk result (λ sent. sent.requires_padding ≡ path_waits self.old.end) }
        ensures carried { IfOk result (λ sent. sent.carried ≡ carried_in (composed self.old.end).frames) }
        ensures front { take (vec_len out.old) out.new.items ≡ out.old.items }
        ensures others { self.new ≡ with_end self.old self.new.end }
    {
        let body = out.len();
        if self.is_ack_due() {
            let largest = self.put_ack(out);
            let sent = self.put_asking(body, out)?;
            Ok(sent.with_ack(Some(largest)))
        } else {
            let sent = self.put_asking(body, out)?;
            let largest = self.put_late_ack(body, out);
            Ok(sent.with_ack(largest))
        }
    }

    /// Whether an acknowledgement is due.
    pub(crate) fn is_ack_due(&self) -> bool
        ensures { result ≡ can_send self.now.end.acknowledging }
    {
        self.space.acknowledging.is_due()
    }

    /// Appends an ACK if there is a number to acknowledge and the frame fits behind the frames of
    /// the packet whose payload begins at `body`; there is room for the whole payload. Returns the
    /// greatest number that it names.
    fn put_late_ack(&mut self, body: usize, out: &mut Vec<u8>) -> Option<u64>
        requires number { can_number self.old.end.numbers ≡ true }
        requires body { body ≤ vec_len out.old }
        requires within { vec_len out.old ≤ body + frame_room self.old.end }
        requires room { body + frame_room self.old.end ≤ vec_capacity out.old }
        ensures items { out.new.items ≡ out.old.items ++ ack_bytes_if (fits_behind self.old.end (vec_len out.old - body)) self.old.end }
        ensures within { vec_len out.new ≤ body + frame_room self.old.end }
        ensures grows { vec_len out.old ≤ vec_len out.new }
        ensures capacity { vec_capacity out.old ≤ vec_capacity out.new }
        ensures end { self.new ≡ with_end self.old (end_after_ack_if (fits_behind self.old.end (vec_len out.old - body)) self.old.end) }
        ensures largest { result ≡ acked_if (fits_behind self.old.end (vec_len out.old - body)) self.old.end }
    {
        if self.ack_fits(out.len() - body) {
            Some(self.put_ack(out))
        } else {
            None
        }
    }

    /// Whether there is a number to acknowledge, and its frame fits behind so many bytes of a
    /// payload.
    #[tactic(auto, using(crate::proofs::Plain::can_give))]
    fn ack_fits(&self, used: usize) -> bool
        requires number { can_number self.now.end.numbers ≡ true }
        requires used { used ≤ frame_room self.now.end }
        ensures { result ≡ fits_behind self.now.end used }
    {
        let room = self.frame_room() - used;
        // Mostly the bytes of a stream left none, and the size needn't be worked out.
        if room == 0 {
            return false;
        }
        self.space.acknowledging.is_filled() && self.ack_size() <= room
    }

    /// How many bytes an ACK frame takes now. There is a number to acknowledge.
    fn ack_size(&self) -> usize
        requires { is_filled self.now.end.acknowledging.runs ≡ true }
        ensures { result ≡ frame_size (ack (ack_of self.now.end)) }
    {
        let counts = self.space.told_counts();
        self.space
            .acknowledging
            .size(self.closing.clock(), counts.as_ref())
    }

    /// Appends an ACK, for which there is room, and stops its timer. Returns the greatest number
    /// that it names. There is a number to acknowledge.
    fn put_ack(&mut self, out: &mut Vec<u8>) -> u64
        requires some { is_filled self.old.end.acknowledging.runs ≡ true }
        requires room { length self.old.end.acknowledging.runs ≤ MAX_ACK_RUNS → vec_len out.old + frame_size (ack (ack_of self.old.end)) ≤ vec_capacity out.old }
        ensures items { out.new.items ≡ out.old.items ++ spelling (ack (ack_of self.old.end)) }
        ensures len { vec_len out.new ≡ vec_len out.old + frame_size (ack (ack_of self.old.end)) }
        ensures few { frame_size (ack (ack_of self.old.end)) ≤ most_ack_bytes }
        ensures capacity { vec_capacity out.old ≤ vec_capacity out.new }
        ensures end { self.new ≡ with_end self.old (after_ack self.old.end) }
        ensures largest { result ≡ greatest (ranges_of_set self.old.end.acknowledging.runs) }
    {
        let largest = self.space.acknowledging.largest();
        let counts = self.space.told_counts();
        let now = self.closing.clock();
        self.space.acknowledging.put(now, counts.as_ref(), out);
        self.timers.stop(Timer::MaxAckDelay);
        count(&mut self.stats.frame_tx.acks);
        largest
    }

    /// Appends the ack-eliciting frames, PATH_CHALLENGE and PATH_RESPONSE, PING, IMMEDIATE_ACK,
    /// ACK_FREQUENCY, messages and frames about streams, behind the frames of the packet whose
    /// payload begins at `body`: none, or an ACK. There is room for the whole payload. Returns what
    /// they carry. Fails if out of memory; the endpoint is then unusable.
    fn put_asking(&mut self, body: usize, out: &mut Vec<u8>) -> Result<SentFrames, AllocError>
        requires number { can_number self.old.end.numbers ≡ true }
        requires body { body ≤ vec_len out.old }
        requires few { vec_len out.old ≤ body + most_ack_bytes }
        requires some { 1159 ≤ frame_room self.old.end }
        requires room { body + frame_room self.old.end ≤ vec_capacity out.old }
        ensures items { OnOk result (out.new.items ≡ out.old.items ++ (asked self.old.end (vec_len out.old - body)).bytes) }
        ensures within { vec_len out.new ≤ body + frame_room self.old.end }
        ensures grows { vec_len out.old ≤ vec_len out.new }
        ensures capacity { vec_capacity out.old ≤ vec_capacity out.new }
        ensures end { OnOk result (self.new ≡ with_end self.old (asked self.old.end (vec_len out.old - body)).end) }
        ensures asks { IfOk result (λ sent. sent.asks ≡ asking (asked self.old.end (vec_len out.old - body)).frames) }
        ensures pads { IfOk result (λ sent. sent.requires_padding ≡ path_waits self.old.end) }
        ensures carried { IfOk result (λ sent. sent.carried ≡ carried_in (asked self.old.end (vec_len out.old - body)).frames) }
        ensures front { take (vec_len out.old) out.new.items ≡ out.old.items }
        ensures others { self.new ≡ with_end self.old self.new.end }
    {
        let before = out.len();
        let requires_padding = self.put_path_frames(out);
        self.put_bare_signals(out);
        let requests = self.put_request(out);
        let carried = self.put_content(requests, body, out)?;
        Ok(SentFrames {
            asks: before < out.len(),
            requires_padding,
            carried,
        })
    }

    /// Appends PING and IMMEDIATE_ACK, each if it is pending, for which there is room.
    fn put_bare_signals(&mut self, out: &mut Vec<u8>)
        requires { vec_len out.old + 2 ≤ vec_capacity out.old }
        ensures items { out.new.items ≡ out.old.items ++ bare_bytes self.old.end.waiting.signals }
        ensures len { vec_len out.new ≡ vec_len out.old + length (bare_bytes self.old.end.waiting.signals) }
        ensures few { length (bare_bytes self.old.end.waiting.signals) ≤ 2 }
        ensures capacity { vec_capacity out.old ≤ vec_capacity out.new }
        ensures end { self.new ≡ with_end self.old (bare_sent self.old.end) }
    {
        self.put_ping(out);
        self.put_immediate_ack(out);
    }

    /// Appends IMMEDIATE_ACK if it is pending, for which there is room.
    fn put_immediate_ack(&mut self, out: &mut Vec<u8>)
        requires { vec_len out.old + 1 ≤ vec_capacity out.old }
        ensures items { out.new.items ≡ out.old.items ++ immediate_bytes self.old.end.waiting.signals.immediate }
        ensures len { vec_len out.new ≡ vec_len out.old + length (immediate_bytes self.old.end.waiting.signals.immediate) }
        ensures few { length (immediate_bytes self.old.end.waiting.signals.immediate) ≤ 1 }
        ensures capacity { vec_capacity out.old ≤ vec_capacity out.new }
        ensures end { self.new ≡ with_end self.old (end_after_immediate_if self.old.end.waiting.signals.immediate self.old.end) }
    {
        if self.space.immediate_ack_pending {
            self.space.immediate_ack_pending = false;
            put_immediate_ack(out);
            count(&mut self.stats.frame_tx.immediate_ack);
        }
    }

    /// Appends PING if it is pending, for which there is room.
    fn put_ping(&mut self, out: &mut Vec<u8>)
        requires { vec_len out.old + 1 ≤ vec_capacity out.old }
        ensures items { out.new.items ≡ out.old.items ++ ping_bytes self.old.end.waiting.signals.ping }
        ensures len { vec_len out.new ≡ vec_len out.old + length (ping_bytes self.old.end.waiting.signals.ping) }
        ensures few { length (ping_bytes self.old.end.waiting.signals.ping) ≤ 1 }
        ensures capacity { vec_capacity out.old ≤ vec_capacity out.new }
        ensures end { self.new ≡ with_end self.old (pinged self.old.end) }
    {
        if self.space.ping_pending {
            self.space.ping_pending = false;
            put_ping(out);
            count(&mut self.stats.frame_tx.ping);
        }
    }

    /// Appends messages and frames about streams behind the frames of the packet whose payload
    /// begins at `body`; there is room for the whole payload. Returns what they carry, with
    /// ACK_FREQUENCY if `requests` says that it went before them. Fails if out of memory; the
    /// endpoint is then unusable.
    #[tactic(auto, using(crate::proofs::Plain::can_give))]
    fn put_content(
        &mut self,
        requests: bool,
        body: usize,
        out: &mut Vec<u8>,
    ) -> Result<Carried, AllocError>
        requires number { can_number self.old.end.numbers ≡ true }
        requires body { body ≤ vec_len out.old }
        requires within { vec_len out.old ≤ body + frame_room self.old.end }
        requires room { body + frame_room self.old.end ≤ vec_capacity out.old }
        ensures items { OnOk result (out.new.items ≡ out.old.items ++ (content_at self.old.end (vec_len out.old - body)).bytes) }
        ensures within { vec_len out.new ≤ body + frame_room self.old.end }
        ensures grows { vec_len out.old ≤ vec_len out.new }
        ensures capacity { vec_capacity out.old ≤ vec_capacity out.new }
        ensures end { OnOk result (self.new ≡ with_end self.old (with_content self.old.end (content_at self.old.end (vec_len out.old - body)))) }
        ensures carried { IfOk result (λ carried. carried ≡ with_request requests (carried_in (content_at self.old.end (vec_len out.old - body)).frames)) }
        ensures front { take (vec_len out.old) out.new.items ≡ out.old.items }
        ensures others { self.new ≡ with_end self.old self.new.end }
    {
        let most = self.frame_room();
        let fair = self.transport.get_send_fairness();
        let frames = spare_list(&mut self.spare_frames, self.alloc);
        put_content(
            &mut self.streams,
            &mut self.datagrams,
            &mut self.stats.frame_tx,
            fair,
            self.alloc,
            requests,
            body,
            most,
            frames,
            out,
        )
    }

    /// The number of the next datagram.
    pub(crate) fn number(&self) -> u64
        ensures value { result ≡ number_of self.now.end }
        ensures above { self.now.end.numbers.next ≤ result }
        ensures most { result ≤ self.now.end.numbers.next + 1 }
    {
        self.filter.peek(&self.space.numbers)
    }

    /// The number of the next datagram as it is written, truncated against the greatest that was
    /// acknowledged.
    fn packet_number(&self) -> PacketNumber
        requires { may_give self.now.end.numbers (number_of self.now.end) ≡ true }
        ensures value { result ≡ truncated (number_of self.now.end) (cut_against self.now.end.numbers) }
        ensures some { 1 ≤ result.width }
        ensures four { result.width ≤ 4 }
    {
        let numbers = &self.space.numbers;
        // The proof reads that the number lies above it.
        let _reference = numbers.reference();
        numbers.packet_number(self.number())
    }

    /// How many bytes of the next datagram aren't frames: header, number and tag.
    pub(crate) fn beside_frames(&self) -> usize
        requires number { may_give self.now.end.numbers (number_of self.now.end) ≡ true }
        ensures beside { result ≡ beside_frames self.now.end }
        ensures few { result ≤ 41 }
    {
        1 + self.ids.destination().len() + self.packet_number().len() + TAG_LEN
    }

    /// How many bytes are left for frames in the next datagram.
    fn frame_room(&self) -> usize
        requires number { may_give self.now.end.numbers (number_of self.now.end) ≡ true }
        ensures room { result ≡ frame_room self.now.end }
        ensures some { 1159 ≤ result }
        ensures few { result < 2 ^ 16 }
    {
        usize::from(self.most_ordinary()) - self.beside_frames()
    }

    /// Appends the header of the next datagram, for which there is room: how many bytes its number
    /// takes.
    pub(crate) fn put_header(&self, out: &mut Vec<u8>) -> usize
        requires number { may_give self.now.end.numbers (number_of self.now.end) ≡ true }
        requires room { vec_len out.old + 25 ≤ vec_capacity out.old }
        ensures items { out.new.items ≡ out.old.items ++ header_bytes self.now.end.ids.peer.id (truncated (number_of self.now.end) (cut_against self.now.end.numbers)) }
        ensures width { result ≡ (truncated (number_of self.now.end) (cut_against self.now.end.numbers)).width }
        ensures four { result ≤ 4 }
        ensures short { 1 + length self.now.end.ids.peer.id + result ≤ 25 }
        ensures len { vec_len out.new ≡ vec_len out.old + (1 + length self.now.end.ids.peer.id + result) }
        ensures capacity { vec_capacity out.old ≤ vec_capacity out.new }
    {
        let header = ShortHeader {
            destination: self.ids.destination(),
            number: self.packet_number(),
        };
        header.put(out);
        header.number.len()
    }

    /// Seals the packet of this number that stands behind the first bytes.
    pub(crate) fn seal(&self, start: usize, number: u64, out: &mut Vec<u8>)
        requires start { start + 1 + length self.now.end.ids.peer.id + 4 ≤ vec_len out.old }
        requires room { vec_len out.old + 16 ≤ vec_capacity out.old }
        requires number { number < 2 ^ 62 }
        ensures items { out.new.items ≡ take start out.old.items ++ protected (H.protection self.now.keys.header.local) (K.aead self.now.keys.packet.local) (length self.now.end.ids.peer.id + 1) number (drop start out.old.items) }
        ensures len { vec_len out.new ≡ vec_len out.old + 16 }
    {
        let number_at = self.ids.destination().len() + 1;
        seal_reserved(
            out,
            start,
            number_at,
            number,
            &self.keys.header.local,
            &self.keys.packet.local,
        );
    }
}
