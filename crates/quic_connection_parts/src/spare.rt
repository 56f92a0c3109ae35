//! Memory of lists that is kept for the next ones, so that not each takes its own.
ghost use Rattle.std.specs.Prelude.{◌≡◌, ◌≤◌, ◌<◌, ◌++◌, ◌∷◌, ◌⊎◌, [], nat_le, length, vec_capacity, if◌then◌else◌};

use std::alloc::Global;
use std::mem;

/// How many places a list has at most whose memory is kept.
const MOST_PLACES: usize = 16;

/// How many lists are kept at most.
const MOST_LISTS: usize = 32;

/// How many places a list has at most whose memory is kept alone.
const MOST_PLACES_ALONE: usize = 128;

/// An empty list, in memory that was kept, if some was.
pub fn spare_list<T: Drop>(spare: &mut Vec<Vec<T>>, alloc: Global) -> Vec<T>
    ensures { result.items ≡ [] }
{
    let Some(mut list) = spare.pop() else {
        return Vec::new(alloc);
    };
    list.clear();
    list
}

/// Keeps the memory of a list, unless it has none or much, or enough is kept.
pub fn keep_list<T: Drop>(spare: &mut Vec<Vec<T>>, list: Vec<T>)
    ensures kept { (spare.new.items ≡ spare.old.items) ⊎ ((spare.new.items ≡ spare.old.items ++ list ∷ []) × (length spare.old.items < 32) × (0 < vec_capacity list) × (vec_capacity list ≤ 16)) }
{
    let places = list.capacity();
    if places == 0 || places > MOST_PLACES || spare.len() >= MOST_LISTS {
        return;
    }
    // Where there is no room for it either, it goes.
    let _ = spare.push(list);
}

/// An empty list, in the memory that was kept, if some was.
pub fn take_spare<T: Drop>(spare: &mut Vec<T>, alloc: Global) -> Vec<T>
    ensures { result.items ≡ [] }
{
    let mut list = mem::replace(spare, Vec::new(alloc));
    list.clear();
    list
}

/// Keeps the memory of a list for the next one, unless it has much.
pub fn keep_spare<T: Drop>(spare: &mut Vec<T>, list: Vec<T>)
    ensures { spare.new ≡ (if nat_le (vec_capacity list) 128 then list else spare.old) }
{
    if list.capacity() <= MOST_PLACES_ALONE {
        *spare = list;
    }
}
