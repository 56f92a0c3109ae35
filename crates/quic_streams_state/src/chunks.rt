//! How many bytes several chunks have, and how many of them a write uses up.
ghost use Rattle.std.specs.Prelude.{◌≡◌, ◌-◌, ◌^◌, min};
ghost use Rattle.quic_send_buffer.specs.Source.{bytes_of};
ghost use Rattle.quic_streams_state.specs.Writing.{used_up};

use bytes::Bytes;

/// How many bytes chunks have in all, up to the greatest count.
pub(crate) fn total_len(chunks: &[Bytes]) -> usize
    ensures { result ≡ min (bytes_of chunks.now) (2 ^ 64 - 1) }
{
    let (mut rest, mut total) = (chunks, 0usize);
    while let Some((chunk, others)) = rest.split_first() {
        total = total.saturating_add(chunk.len());
        rest = others;
    }
    total
}

/// How many of the chunks so many bytes use up, those without a byte too.
pub(crate) fn used_up(chunks: &[Bytes], len: usize) -> usize
    ensures { result ≡ used_up len chunks.now }
{
    let (mut rest, mut left) = (chunks, len);
    while let Some((chunk, others)) = rest.split_first() {
        if chunk.len() > left {
            break;
        }
        left -= chunk.len();
        rest = others;
    }
    chunks.len() - rest.len()
}
