//! How both filters of a scripted test are made, and whether they are alike.
use crate::memory::data_of;
use crate::scripted::{Make, Size};
use fastbloom::{
    AtomicBloomFilter, AtomicBuilderWithBits, BloomFilter, BuilderWithBits, FilterData,
    FilterError, Rate,
};
use std::alloc::Global;

/// What is named instead of a call where the test's own memory runs out.
pub(crate) const THE_TEST: &'static str = "the test";

/// A call that was refused, and why.
#[derive(Clone, Copy)]
pub(crate) struct Refused {
    pub(crate) call: &'static str,
    pub(crate) reason: FilterError,
}

// Where a rate is to take a number of hashes.
const NO_SUCH_CALL: Refused = Refused {
    call: "hashes by rate",
    reason: FilterError::ZeroRate,
};

/// A plain and a shared filter, on which the same calls are made.
#[derive(Drop)]
pub(crate) struct Pair {
    pub(crate) plain: BloomFilter,
    pub(crate) shared: AtomicBloomFilter,
}

/// The outcome of a call, with the call's name where it was refused.
pub(crate) fn named<T>(call: &'static str, outcome: Result<T, FilterError>) -> Result<T, Refused> {
    match outcome {
        Ok(made) => Ok(made),
        Err(reason) => Err(Refused { call, reason }),
    }
}

/// A vector of these words.
pub(crate) fn words_of(alloc: Global, words: &[u64]) -> Result<Vec<u64>, Refused> {
    match words.to_vec(alloc) {
        Ok(copy) => Ok(copy),
        Err(_error) => Err(Refused {
            call: THE_TEST,
            reason: FilterError::Memory,
        }),
    }
}

fn plain_words(alloc: Global, words: &[u64]) -> Result<BuilderWithBits, Refused> {
    named("from_vec", BloomFilter::from_vec(words_of(alloc, words)?))
}

/// The plain filter of a builder, if that was made.
pub(crate) fn plain_by(
    builder: Result<BuilderWithBits, Refused>,
    seed: &u128,
    size: &Size,
) -> Result<BloomFilter, Refused> {
    let builder = builder?.seed(seed);
    Ok(match size {
        Size::Hashes(hashes) => builder.hashes(*hashes),
        Size::Expected(number) => builder.expected_items(*number),
        Size::Numbers(numbers) => builder.items(*numbers),
        Size::Texts(texts) => builder.items(*texts),
    })
}

fn plain_at(alloc: Global, rate: Rate, seed: &u128, size: &Size) -> Result<BloomFilter, Refused> {
    let builder = BloomFilter::with_false_pos(rate).seed(seed);
    match size {
        Size::Hashes(_) => Err(NO_SUCH_CALL),
        Size::Expected(number) => {
            named(
                "expected_items by rate",
                builder.expected_items(alloc, *number),
            )
        }
        Size::Numbers(numbers) => named("items by rate", builder.items(alloc, *numbers)),
        Size::Texts(texts) => named("items by rate", builder.items(alloc, *texts)),
    }
}

/// The plain filter of data, if these were made.
pub(crate) fn plain_from(form: Result<FilterData, Refused>) -> Result<BloomFilter, Refused> {
    match form {
        Ok(form) => named("from_data", BloomFilter::from_data(form)),
        Err(refused) => Err(refused),
    }
}

/// The plain filter.
pub(crate) fn plain_of(alloc: Global, make: &Make) -> Result<BloomFilter, Refused> {
    match make {
        Make::Bits(bits, size) => {
            let builder = named("with_num_bits", BloomFilter::with_num_bits(alloc, *bits));
            plain_by(builder, &0, size)
        }
        Make::Words(words, seed, size) => plain_by(plain_words(alloc, words), seed, size),
        Make::Data(text) => plain_from(named(THE_TEST, data_of(alloc, text))),
        Make::Rate(num, den, seed, size) => {
            plain_at(
                alloc,
                named("Rate::new", Rate::new(*num, *den))?,
                seed,
                size,
            )
        }
    }
}

fn shared_words(alloc: Global, words: &[u64]) -> Result<AtomicBuilderWithBits, Refused> {
    let builder = AtomicBloomFilter::from_vec(words_of(alloc, words)?);
    named("shared from_vec", builder)
}

fn shared_by(
    alloc: Global,
    builder: Result<AtomicBuilderWithBits, Refused>,
    seed: &u128,
    size: &Size,
) -> Result<AtomicBloomFilter, Refused> {
    let builder = builder?.seed(seed);
    match size {
        Size::Hashes(hashes) => named("shared hashes", builder.hashes(alloc, *hashes)),
        Size::Expected(number) => {
            named(
                "shared expected_items",
                builder.expected_items(alloc, *number),
            )
        }
        Size::Numbers(numbers) => named("shared items", builder.items(alloc, *numbers)),
        Size::Texts(texts) => named("shared items", builder.items(alloc, *texts)),
    }
}

fn shared_at(
    alloc: Global,
    rate: Rate,
    seed: &u128,
    size: &Size,
) -> Result<AtomicBloomFilter, Refused> {
    let builder = AtomicBloomFilter::with_false_pos(rate).seed(seed);
    match size {
        Size::Hashes(_) => Err(NO_SUCH_CALL),
        Size::Expected(number) => named(
            "shared expected_items by rate",
            builder.expected_items(alloc, *number),
        ),
        Size::Numbers(numbers) => named("shared items by rate", builder.items(alloc, *numbers)),
        Size::Texts(texts) => named("shared items by rate", builder.items(alloc, *texts)),
    }
}

/// The shared filter of data, if these were made.
pub(crate) fn shared_from(
    alloc: Global,
    form: Result<FilterData, Refused>,
) -> Result<AtomicBloomFilter, Refused> {
    match form {
        Ok(form) => named(
            "shared from_data",
            AtomicBloomFilter::from_data(alloc, form),
        ),
        Err(refused) => Err(refused),
    }
}

/// The shared filter.
pub(crate) fn shared_of(alloc: Global, make: &Make) -> Result<AtomicBloomFilter, Refused> {
    match make {
        Make::Bits(bits, size) => {
            let builder = AtomicBloomFilter::with_num_bits(alloc, *bits);
            shared_by(alloc, named("shared with_num_bits", builder), &0, size)
        }
        Make::Words(words, seed, size) => shared_by(alloc, shared_words(alloc, words), seed, size),
        Make::Data(text) => shared_from(alloc, named(THE_TEST, data_of(alloc, text))),
        Make::Rate(num, den, seed, size) => {
            shared_at(
                alloc,
                named("Rate::new", Rate::new(*num, *den))?,
                seed,
                size,
            )
        }
    }
}

/// A plain filter and a shared one, if that was made.
pub(crate) fn paired(
    plain: BloomFilter,
    shared: Result<AtomicBloomFilter, Refused>,
) -> Result<Pair, Refused> {
    match shared {
        Ok(shared) => Ok(Pair { plain, shared }),
        Err(refused) => Err(refused),
    }
}

/// Both filters.
pub(crate) fn pair_of(alloc: Global, make: &Make) -> Result<Pair, Refused> {
    match plain_of(alloc, make) {
        Ok(plain) => paired(plain, shared_of(alloc, make)),
        Err(refused) => Err(refused),
    }
}

/// Whether both filters have the same shape, words and hasher.
pub(crate) fn are_alike(pair: &Pair) -> bool {
    let Pair { plain, shared } = pair;
    (plain.num_bits() == shared.num_bits())
        & (plain.num_hashes() == shared.num_hashes())
        & (plain.hasher().key() == shared.hasher().key())
        & (plain.source_hash(&7u64) == shared.source_hash(&7u64))
        & plain.iter().eq(shared.iter())
}

/// Whether both filters have these words.
pub(crate) fn have_words(pair: &Pair, words: &[u64]) -> bool {
    (pair.plain.as_slice() == words) & pair.shared.iter().eq(words.iter().copied())
}
