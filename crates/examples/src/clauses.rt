//! Functions with clauses of their own, which laws of filters prove.
ghost use Rattle.std.specs.Prelude.{◌≡◌, ◌⊎◌, Some, true, IfOk, IfErr};
ghost use Rattle.fastbloom.specs.Data.{AnswerAlike};
ghost use Rattle.fastbloom.specs.FileReads.{IsInput};
ghost use Rattle.fastbloom.specs.Filter.{contains, anywhere};

use fastbloom::{BloomFilter, DefaultHasher, FileError, FilterFile, laws};
use std::alloc::Global;

/// Adds a hash, which is found from then on.
pub fn remember(filter: &mut BloomFilter, hash: u64)
    ensures { contains anywhere filter.new hash ≡ true }
{
    laws::insert_answers_contains::<DefaultHasher>();
    filter.insert_hash(hash);
}

/// Writes a filter's file, and reads it. What is read has the same words, number of hashes and key,
/// and contains the same hashes.
///
/// # Errors
/// `Memory` where there is no room for both. No read of memory fails, though no clause says so.
pub fn write_and_read(alloc: Global, filter: &BloomFilter) -> Result<BloomFilter, FileError>
    ensures alike { IfOk result (λ read. AnswerAlike anywhere filter.now read) }
    ensures refused { IfErr result (λ error. (error ≡ FileError.Memory) ⊎ IsInput (Some error)) }
{
    laws::file_reads_back::<u64>();
    let mut file = Vec::new(alloc);
    let Ok(()) = filter.write_file(&mut file) else {
        return Err(FileError::Memory);
    };
    let mut rest = file.as_slice();
    BloomFilter::read_file(alloc, &mut rest)
}
