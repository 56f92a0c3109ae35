use bytes::Bytes;
use quic_send_buffer::{ByteSlice, BytesArray, BytesSource};

#[test]
fn pieces_are_taken(rt: HostRuntime) {
    let mut slice = ByteSlice::from_slice(b"abc");
    assert!(rt; slice.pop_chunk(2) == (b"ab".as_slice(), 0));
    let buffers = [Bytes::new(), Bytes::from_static(b"abc")];
    let mut array = BytesArray::from_chunks(&buffers);
    assert!(rt; array.pop_chunk(2) == (b"ab".as_slice(), 1));
}
