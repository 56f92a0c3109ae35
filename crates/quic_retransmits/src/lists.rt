//! Lists that are written from the front, and added to at the end.
ghost use Rattle.std.specs.Prelude.{◌≡◌, ◌+◌, ◌^◌, ◌<◌, ◌≤◌, ◌++◌};
ghost use Rattle.std.specs.List.{range_with_len};
ghost use Rattle.std.specs.VecDeque.{deque_len, deque_capacity};
ghost use Rattle.quic_retransmits.specs.Retransmits.{first_of};

use std::collections::VecDeque;

/// The first of a list.
pub fn first<T: Copy>(list: &VecDeque<T>) -> Option<T>
    ensures { result ≡ first_of list.now.items }
{
    match list.front() {
        Some(item) => Some(*item),
        None => None,
    }
}

/// Puts a list behind another, which has room for it.
pub fn append<T: Copy>(list: &mut VecDeque<T>, more: &VecDeque<T>)
    requires { deque_len list.old + deque_len more.now ≤ deque_capacity list.old }
    ensures { list.new.items ≡ list.old.items ++ more.now.items }
{
    for item in more.iter() {
        list.push_back_reserved(*item);
    }
}

/// Puts so many numbers from `start` on behind a list, which has room for them.
pub fn append_range(list: &mut VecDeque<u64>, start: u64, count: usize)
    requires room { deque_len list.old + count ≤ deque_capacity list.old }
    requires fits { start + count < 2 ^ 64 }
    ensures { list.new.items ≡ list.old.items ++ range_with_len start count }
{
    for i in 0..count {
        list.push_back_reserved(start + i as u64);
    }
}
