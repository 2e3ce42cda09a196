//! Builders that take items from an iterator that says more than come.
ghost use Rattle.std.specs.Prelude.{◌≤◌, length};
ghost use Rattle.std.specs.Iterator.{at_most};

use fastbloom::{AtomicBloomFilter, BloomFilter, FilterError, Rate};
use std::alloc::Global;
use std::cell::Cell;

// Says that it has more items than come, and counts those that are taken.
#[derive(Drop)]
struct Overstated<'a> {
    rest: &'a [u64],
    said: usize,
    taken: &'a Cell<usize>,
    ghost enough: { length rest.now ≤ said },
}

impl<'a> Iterator for Overstated<'a> {
    type Item = &'a u64;

    ghost remaining = { λ s. at_most s.said };

    fn next(&mut self) -> Option<&'a u64> {
        let (first, others) = self.rest.split_first()?;
        *self = Overstated {
            rest: others,
            said: self.said - 1,
            taken: self.taken,
        };
        self.taken.set(self.taken.get().saturating_add(1));
        Some(first)
    }
}

impl<'a> ExactSizeIterator for Overstated<'a> {
    fn len(&self) -> usize {
        self.said
    }
}

// The items 1, 2 and 3 of an iterator that says it has this number, and counts those taken.
fn three_of(said: usize, taken: &Cell<usize>) -> Overstated<'_>
    requires { 3 ≤ said }
{
    Overstated {
        rest: &[1, 2, 3],
        said,
        taken,
    }
}

// The word of the items 1, 2 and 3, where there is one hash, by a model of SipHash-1-3.
const THREE: u64 = 9223374235878031488;

// Whether filters of 64 bits are sized for 500 items, one hash, and have the three that come.
fn are_sized(alloc: Global) -> Result<bool, FilterError> {
    let taken = Cell::new(0);
    let builder = BloomFilter::with_num_bits(alloc, 64)?;
    let plain = builder.items(three_of(500, &taken));
    let is_plain = (plain.num_hashes() == 1) & (plain.as_slice() == [THREE].as_slice());
    let builder = AtomicBloomFilter::with_num_bits(alloc, 64)?;
    let shared = builder.items(alloc, three_of(500, &taken))?;
    Ok(is_plain & (shared.num_hashes() == 1) & shared.iter().eq([THREE]) & (taken.get() == 6))
}

// Whether a size for 2^64 - 1 items at a half is refused, and no item is taken.
fn refuses_by_what_is_said(alloc: Global) -> Result<bool, FilterError> {
    let half = Rate::new(1, 2)?;
    let taken = Cell::new(0);
    let items = three_of(18446744073709551615, &taken);
    let plain = BloomFilter::with_false_pos(half).items(alloc, items).err();
    let items = three_of(18446744073709551615, &taken);
    let shared = AtomicBloomFilter::with_false_pos(half);
    let shared = shared.items(alloc, items).err();
    let refused = Some(FilterError::SizeOverflow);
    Ok((plain == refused) & (shared == refused) & (taken.get() == 0))
}

#[test]
fn what_an_iterator_says_sizes_alone(rt: HostRuntime) {
    assert!(rt; matches!(are_sized(rt.alloc()), Ok(true)));
    assert!(rt; matches!(refuses_by_what_is_said(rt.alloc()), Ok(true)));
}
