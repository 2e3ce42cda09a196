//! Filters that many workers build.
use super::odd::Odd;
use crate::engines::faulty::{Seen, WHOLE};
use crate::row_reports::tell_row;
use std::alloc::{AllocError, Global};
use std::thread::Threads;
use summaries_engine::{AnyFilter, Stop, build, build_alone, classic_with_bits};

// Two thousand keys of two bytes.
fn keys_of(alloc: Global) -> Result<Vec<u8>, AllocError> {
    let mut keys = Vec::new(alloc);
    for i in 0..2000u32 {
        keys.extend_from_slice(&[64 | (i / 64) as u8, 64 | (i % 64) as u8, b'\n'])?;
    }
    Ok(keys)
}

// Whether this many workers build the filter of one.
fn is_alike<R: Threads + Sync + AllocGlobal>(
    rt: &R,
    odd: &Odd,
    workers: usize,
) -> Result<bool, Stop> {
    let Ok(empty) = classic_with_bits(rt.alloc(), 1 << 14, 3, &0) else {
        return Err(Stop::Memory);
    };
    let empty = AnyFilter::Classic(empty);
    let AnyFilter::Classic(alone) = build_alone::<10, _>(rt.alloc(), empty, odd, &["odd"])? else {
        return Ok(false);
    };
    let Ok(empty) = classic_with_bits(rt.alloc(), 1 << 14, 3, &0) else {
        return Err(Stop::Memory);
    };
    let built = build::<10, _, _>(rt, rt.alloc(), empty, workers.max(1), odd, &["odd"])?;
    Ok((built == alone) & (built.count_ones() > 4000))
}

// The same, by inputs with those keys.
fn are_alike<R: Threads + Sync + AllocGlobal>(rt: &R, workers: usize) -> bool {
    let Ok(keys) = keys_of(rt.alloc()) else {
        return false;
    };
    let seen = Seen::new();
    let odd = Odd {
        keys: keys.as_slice(),
        reading: WHOLE,
        seen: &seen,
    };
    matches!(is_alike(rt, &odd, workers), Ok(true))
}

#[test]
fn any_number_of_workers_builds_the_filter_of_one(rt: HostRuntime) {
    for workers in [1, 65, 1000] {
        assert!(rt; tell_row(&rt, workers, are_alike(&rt, workers)));
    }
}
