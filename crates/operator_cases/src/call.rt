use crate::raw::Raw;
use kinds::fault::Fault;
use std::alloc::{AllocError, Global};

// What a lent slice holds before a call: a value at each place that no call forms there.
fn filler<K: Raw>(k: &K, place: usize) -> K::Value {
    k.made((place % 97) as i64 + 1, 101)
}

pub(crate) fn filled<K: Raw>(
    heap: Global,
    k: &K,
    count: usize,
) -> Result<Vec<K::Value>, AllocError> {
    (0..count).map(|place| filler(k, place)).collect(heap)
}

// Whether the values from a place on are as they were filled.
fn untouched<K: Raw>(k: &K, from: usize, slice: &[K::Value]) -> bool {
    slice
        .iter()
        .enumerate()
        .skip(from)
        .all(|(place, v)| *v == filler(k, place))
}

// How many values at the front of a slice are zeros, where all others are as they were filled.
fn zeroed<K: Raw>(heap: Global, k: &K, slice: &[K::Value]) -> Result<String, AllocError> {
    let zero = k.whole(0);
    let front = slice.iter().position(|v| *v != zero).unwrap_or(slice.len());
    if untouched(k, front, slice) {
        front.to_string(heap)
    } else {
        String::from_str(heap, "bad")
    }
}

// The values of an accepted call's target that are not zero, by place.
fn answers<K: Raw>(
    heap: Global,
    k: &K,
    size: usize,
    target: &[K::Value],
) -> Result<String, AllocError> {
    let zero = k.whole(0);
    let mut all = String::new(heap);
    for (place, v) in target.iter().enumerate() {
        if place < size && *v != zero {
            write!(all, ", {place} {v}")?;
        }
        if place >= size && *v != filler(k, place) {
            all.push_str(" bad")?;
        }
    }
    Ok(all)
}

fn refused<K: Raw>(
    heap: Global,
    k: &K,
    fault: Fault,
    target: &[K::Value],
    work: &[K::Value],
) -> Result<String, AllocError> {
    let left = zeroed(heap, k, work)?;
    let cleared = zeroed(heap, k, target)?;
    format!(in heap; "refused {fault} work {left} target {cleared}")
}

// The outcome of a call, and what it left in the target and the working tables, which are slices as in the call.
pub(crate) fn told<K: Raw>(
    heap: Global,
    k: &K,
    size: usize,
    answer: Result<u32, Fault>,
    target: &[K::Value],
    work: &[K::Value],
) -> Result<String, AllocError> {
    match answer {
        Ok(passes) => {
            let left = zeroed(heap, k, work)?;
            let all = answers(heap, k, size, target)?;
            format!(in heap; "ok {passes} work {left} target{all}")
        }
        Err(fault) => refused(heap, k, fault, target, work),
    }
}
