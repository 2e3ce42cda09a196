//! Calls on all words that threads share, or on those of two filters.
ghost use Rattle.std.specs.Prelude.{◌≡◌, ◌↔◌, false, IsTrue, length, None};
ghost use Rattle.bloom_steps.specs.LiveSteps.{MakesCallOn, TakesWordsOf};
ghost use Rattle.bloom_steps.specs.Loaded.{CountsLoaded, WereLoaded};
ghost use Rattle.bloom_steps.specs.declared.steps.vocabulary.Call.TheVariants as call;
ghost use Rattle.fastbloom_c.specs.Passed.{MakeFilter, vector_of};

use crate::lent::LentWords;
use crate::passed_words::PassedWords;
use bloom_steps::calls::{clear, count_ones, intersect, load_into, take_into, union};

/// Clears every position, one word after the other, and returns whether there are words.
#[unsafe(no_mangle)]
pub extern "C" fn fastbloom_shared_clear(words: PassedWords) -> bool
    ensures done { IsTrue result ↔ MakeFilter words.len }
    ensures made { IsTrue result → let vector = vector_of words.at words.len in
        MakesCallOn vector vector 1 call.Clear None }
{
    let Some(words) = words.filter() else {
        return false;
    };
    clear(&LentWords::new(&words), 1);
    true
}

/// Sets what is found set in the other words, one word after the other, and returns whether it did.
///
/// It returns false, and changes nothing, where there are no words or the numbers of words differ.
#[unsafe(no_mangle)]
pub extern "C" fn fastbloom_shared_union(words: PassedWords, other: PassedWords) -> bool
    ensures done { IsTrue result ↔ (MakeFilter words.len × (other.len ≡ words.len)) }
    ensures made { IsTrue result → MakesCallOn (vector_of words.at words.len)
        (vector_of other.at other.len) 1 call.Union None }
{
    let (Some(words), Some(other)) = (words.filter(), other.filter()) else {
        return false;
    };
    if words.len() != other.len() {
        return false;
    }
    union(&LentWords::new(&words), &LentWords::new(&other), 1);
    true
}

/// Clears what is found clear in the other words, one word after the other, and returns whether it
/// did.
///
/// It returns false, and changes nothing, where there are no words or the numbers of words differ.
#[unsafe(no_mangle)]
pub extern "C" fn fastbloom_shared_intersect(words: PassedWords, other: PassedWords) -> bool
    ensures done { IsTrue result ↔ (MakeFilter words.len × (other.len ≡ words.len)) }
    ensures made { IsTrue result → MakesCallOn (vector_of words.at words.len)
        (vector_of other.at other.len) 1 call.Intersect None }
{
    let (Some(words), Some(other)) = (words.filter(), other.filter()) else {
        return false;
    };
    if words.len() != other.len() {
        return false;
    }
    intersect(&LentWords::new(&words), &LentWords::new(&other), 1);
    true
}

/// Takes the words out, word 0 first, and returns whether it did: whether there are words, and as
/// many in `taken`. Each is read and cleared by one operation.
#[unsafe(no_mangle)]
pub extern "C" fn fastbloom_shared_take(words: PassedWords, taken: &mut [u64]) -> bool
    ensures done { IsTrue result ↔ (MakeFilter words.len × (length taken.old ≡ words.len)) }
    ensures taken { IsTrue result → TakesWordsOf (vector_of words.at words.len) 1 taken.new }
    ensures stays { result ≡ false → taken.new ≡ taken.old }
    ensures shape { length taken.new ≡ length taken.old }
{
    let Some(words) = words.filter() else {
        return false;
    };
    if words.len() != taken.len() {
        return false;
    }
    take_into(&LentWords::new(&words), 1, taken);
    true
}

/// Loads the words, word 0 first, and returns whether it did: whether there are words, and as many
/// in `loaded`.
#[unsafe(no_mangle)]
pub extern "C" fn fastbloom_shared_load(words: PassedWords, loaded: &mut [u64]) -> bool
    ensures done { IsTrue result ↔ (MakeFilter words.len × (length loaded.old ≡ words.len)) }
    ensures loaded { IsTrue result → WereLoaded (vector_of words.at words.len) loaded.new }
    ensures stays { result ≡ false → loaded.new ≡ loaded.old }
    ensures shape { length loaded.new ≡ length loaded.old }
{
    let Some(words) = words.filter() else {
        return false;
    };
    if words.len() != loaded.len() {
        return false;
    }
    load_into(&LentWords::new(&words), loaded);
    true
}

/// The number of bits that are set, of the words as they were loaded, or 0 where there are no words
/// or more than 2^58 - 1.
#[unsafe(no_mangle)]
pub extern "C" fn fastbloom_shared_count_ones(words: PassedWords) -> usize
    ensures counts { MakeFilter words.len → CountsLoaded (vector_of words.at words.len) result }
    ensures none { (MakeFilter words.len → ⊥) → result ≡ 0 }
{
    let Some(words) = words.filter() else {
        return 0;
    };
    count_ones(&LentWords::new(&words))
}
