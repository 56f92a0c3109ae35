use std::alloc::Global;

// So many allocations are made, so that those behind them have the numbers at which ./fail-alloc
// makes one fail. None of these matters.
pub(crate) fn spend(alloc: Global, allocations: u64) {
    for _ in 0..allocations {
        let mut bytes: Vec<u8> = Vec::new(alloc);
        let _ = bytes.reserve(1);
    }
}

// Whether none of the allocations that come next fails: so a test that ends with this fails where
// its calls come to an end before the allocation that ./fail-alloc makes fail.
pub(crate) fn none_fails_behind(alloc: Global) -> bool {
    let mut made = 0u64;
    for _ in 0..100 {
        let mut bytes: Vec<u8> = Vec::new(alloc);
        if bytes.reserve(1).is_ok() {
            made = made.saturating_add(1);
        }
    }
    made == 100
}
