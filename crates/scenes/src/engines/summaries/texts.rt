//! JSON texts of small and large filters.
use crate::row_reports::tell_row;
use fastbloom::{BloomFilter, FilterError};
use std::alloc::{AllocError, Global};
use summaries_engine::{AnyFilter, Form, load, put};

// The text of a filter whose words are 1 to 8, this many times.
fn text_of(alloc: Global, times: usize) -> Result<Vec<u8>, AllocError> {
    let mut text = b"{\"bits\":{\"bits\":[1".to_vec(alloc)?;
    for time in 0..times {
        let rest: &[u8] = if time > 0 { b",1" } else { b"" };
        text.extend_from_slice(rest)?;
        text.extend_from_slice(b",2,3,4,5,6,7,8")?;
    }
    text.extend_from_slice(b"]},\"num_hashes_minus_one\":1,\"k0\":0,\"k1\":0}\n")?;
    Ok(text)
}

// That filter.
fn filter_of(alloc: Global, times: usize) -> Result<BloomFilter, FilterError> {
    let mut words = Vec::new(alloc);
    for _ in 0..times {
        words.extend_from_slice(&[1u64, 2, 3, 4, 5, 6, 7, 8])?;
    }
    Ok(BloomFilter::from_vec(words)?.hashes(2))
}

// Whether a filter is this one, with each of its words.
fn is_same(back: &AnyFilter, filter: &BloomFilter) -> bool {
    match back {
        AnyFilter::Classic(back) => *back == *filter,
        AnyFilter::Blocked(_back) => false,
    }
}

// Whether a filter is read from a text.
fn is_read(alloc: Global, text: &[u8], filter: &BloomFilter) -> bool {
    let mut rest = text;
    match load(alloc, "text", 64, &mut rest) {
        Ok((back, form)) => (form == Form::Json) & is_same(&back, filter),
        Err(_stop) => false,
    }
}

// Whether a filter is written as a text.
fn is_written(alloc: Global, text: &[u8], filter: &BloomFilter) -> bool {
    let mut output = Vec::new(alloc);
    put(alloc, filter, &mut output).is_ok() & (output.as_slice() == text)
}

// Whether the filter is read from its text, and written as it.
fn comes_back(alloc: Global, times: usize) -> bool {
    let Ok(text) = text_of(alloc, times) else {
        return false;
    };
    let Ok(filter) = filter_of(alloc, times) else {
        return false;
    };
    is_read(alloc, text.as_slice(), &filter) & is_written(alloc, text.as_slice(), &filter)
}

// Of eight words, of 65,536 and of 2^20, which are more than a million.
#[test]
fn filters_are_read_from_their_texts(rt: HostRuntime) {
    for times in [1, 8192, 131_072] {
        assert!(rt; tell_row(&rt, times, comes_back(rt.alloc(), times)));
    }
}
