//! Writers that append to a `Vec` in which there is room, and so cannot fail.
ghost use Rattle.std.specs.Prelude.{◌≡◌, ◌+◌, ◌≤◌, ◌++◌, length, replicate, vec_len, vec_capacity};
ghost use Rattle.quic_wire_core.specs.Varint.{shortest};

use crate::coding::Codec;
use crate::varint::VarInt;

/// Appends bytes, for which there is room.
pub fn append(out: &mut Vec<u8>, bytes: &[u8])
    requires { vec_len out.old + length bytes.now ≤ vec_capacity out.old }
    ensures items { out.new.items ≡ out.old.items ++ bytes.now }
    ensures len { vec_len out.new ≡ vec_len out.old + length bytes.now }
    ensures capacity { vec_capacity out.old ≤ vec_capacity out.new }
{
    out.extend_from_slice(bytes).unwrap()
}

/// Appends so many zeros, for which there is room: each is a PADDING frame (RFC 9000, 19.1).
pub fn append_zeros(out: &mut Vec<u8>, count: usize)
    requires { vec_len out.old + count ≤ vec_capacity out.old }
    ensures items { out.new.items ≡ out.old.items ++ replicate count 0 }
    ensures len { vec_len out.new ≡ vec_len out.old + count }
    ensures capacity { vec_capacity out.old ≤ vec_capacity out.new }
{
    out.resize(out.len() + count, 0).unwrap();
}

/// How many bytes a number takes as a variable-length integer: 1, 2, 4 or 8 (RFC 9000, 16;
/// quinn-proto's `VarInt::size`).
pub fn varint_size(n: VarInt) -> usize
    ensures size { result ≡ length (shortest n) }
    ensures some { 1 ≤ result }
    ensures most { result ≤ 8 }
{
    n.size()
}

/// Appends a number as a variable-length integer (RFC 9000, 16), for which there is room.
pub fn put_varint(out: &mut Vec<u8>, n: VarInt)
    requires { vec_len out.old + length (shortest n) ≤ vec_capacity out.old }
    ensures items { out.new.items ≡ out.old.items ++ shortest n }
    ensures len { vec_len out.new ≡ vec_len out.old + length (shortest n) }
    ensures capacity { vec_capacity out.old ≤ vec_capacity out.new }
{
    n.encode(out).unwrap()
}
