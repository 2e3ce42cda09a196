//! The calls on files, for a filter of either kind.
ghost use Rattle.std.specs.Prelude.{◌≡◌, length, IfOk, IfErr, IfSome, OnOk, OnErr, IsOkUnless};
ghost use Rattle.std.specs.Result.{result_err};
ghost use Rattle.std.specs.Io.KnownBytes.{Appends};
ghost use Rattle.lines.specs.Writing.{AppendsPart};
ghost use Rattle.bloom_plain.specs.Data.{DefaultFilter};
ghost use Rattle.bloom_plain.specs.Filter.{HasShape, IsShape};
ghost use Rattle.bloom_files.specs.declared.layout.Layout.{Layout as ALayout};
ghost use Rattle.bloom_files.specs.File.{FitsWords, HasOwnKey, head_of};
ghost use Rattle.bloom_files.specs.FileLayouts.{AreWhole, IsReadIn, IsRefusedIn};
ghost use Rattle.bloom_files.specs.FileReads.{FailsEarly};
ghost use Rattle.bloom_files.specs.FilterFiles.{IsFileOf, ReadsFile, WritesFile, file_of};

use crate::bytes::{parts_from_bytes, parts_to_bytes};
use crate::error::FileError;
use crate::head::Head;
use crate::layout::Layout;
use crate::streams::{read_parts, write_parts};
use bloom_parts::error::FilterError;
use std::alloc::Global;
use std::io;
use std::io::{Read, Write};

/// A filter with the default hasher, which has a file: a Bloom filter or a blocked one.
pub trait FilterFile: Drop {
    // How its words lie.
    ghost layout: { ALayout };

    // What contracts see of it.
    ghost seen: { Self → DefaultFilter };

    /// How the words lie.
    fn layout() -> Layout
        ensures { result ≡ layout };

    /// What the head of the filter's file says.
    fn head(&self) -> Head
        ensures head { result ≡ head_of (seen self.now) }
        ensures shape { HasShape (seen self.now) }
        ensures whole { AreWhole layout (length (seen self.now).words) }
        ensures range { FitsWords (seen self.now) };

    /// The words, word 0 first.
    fn words(&self) -> &[u64]
        ensures { result.now ≡ (seen self.now).words };

    /// The filter that a head tells of, with these words.
    fn from_head(head: Head, words: Vec<u64>) -> Self
        requires shape { IsShape (length words.items) head.num_hashes }
        requires count { length words.items ≡ head.num_words }
        requires whole { AreWhole layout (length words.items) }
        ensures words { (seen result).words ≡ words.items }
        ensures head { head_of (seen result) ≡ head }
        ensures key { HasOwnKey (seen result) }
        ensures range { FitsWords (seen result) };

    /// The file of this filter, in memory.
    ///
    /// # Errors
    /// `Memory` where there is no room for it.
    final fn to_bytes(&self, alloc: Global) -> Result<Vec<u8>, FilterError>
    where
        Self: Sized,
        ensures value { IfOk result (λ bytes. bytes.items ≡ file_of layout (seen self.now)) }
        ensures file { IfOk result (λ bytes. IsFileOf layout bytes.items (seen self.now)) }
        ensures refused { IsOkUnless result FilterError.Memory }
    {
        let head = self.head();
        parts_to_bytes(alloc, Self::layout(), &head, self.words())
    }

    /// The filter of a file, under its key.
    ///
    /// # Errors
    /// The first reason for which the bytes are no file of such a filter, in the order of the
    /// variants of `FileError`. `Memory` comes only where there is no such reason.
    final fn from_bytes(alloc: Global, bytes: &[u8]) -> Result<Self, FileError>
    where
        Self: Sized,
        ensures file { IfOk result (λ filter. IsFileOf layout bytes.now (seen filter)) }
        ensures key { IfOk result (λ filter. HasOwnKey (seen filter)) }
        ensures refused { IsRefusedIn layout bytes.now (result_err result) }
    {
        let (head, words) = parts_from_bytes(alloc, Self::layout(), bytes)?;
        Ok(Self::from_head(head, words))
    }

    /// Writes the file of this filter, and flushes nothing.
    ///
    /// # Errors
    /// Where a write fails. Then a beginning of the file was written.
    final fn write_file<W: Write>(&self, output: &mut W) -> io::Result<()>
    where
        Self: Sized,
        // What is written reads back.
        ensures file { OnOk result (WritesFile layout
            (W.contents output.old) (W.contents output.new) (seen self.now)) }
        ensures whole { OnOk result (Appends (W.contents output.old) (W.contents output.new)
            (file_of layout (seen self.now))) }
        ensures part { OnErr result (AppendsPart (file_of layout (seen self.now))
            (W.contents output.old) (W.contents output.new)) }
    {
        let head = self.head();
        write_parts(output, Self::layout(), &head, self.words())
    }

    /// Reads the filter of a file, to the end of the reader, under the file's key.
    ///
    /// Room is asked for as words come, so that a head that promises more of them costs nothing.
    ///
    /// # Errors
    /// The first reason for which the bytes are no file of such a filter, in the order of the
    /// variants of `FileError`; `Memory`, where the head isn't refused for its first numbers; and
    /// `Input`, where a read fails before the bytes decide a reason: a head of fewer than 64 bytes,
    /// or one that isn't refused so with no byte behind its words, decides none yet.
    final fn read_file<R: Read>(alloc: Global, input: &mut R) -> Result<Self, FileError>
    where
        Self: Sized,
        ensures file { IfOk result (λ filter. ReadsFile layout
            (R.remaining input.old) (R.remaining input.new) (seen filter)) }
        ensures key { IfOk result (λ filter. HasOwnKey (seen filter)) }
        ensures refused { IfSome (R.remaining input.old)
            (λ bytes. IsReadIn layout bytes (result_err result)) }
        // A failed read is reported only where the bytes before it decide no refusal yet.
        ensures input { IfErr result
            (FailsEarly (R.remaining input.old) (R.remaining input.new)) }
    {
        let (head, words) = read_parts(alloc, Self::layout(), input)?;
        Ok(Self::from_head(head, words))
    }
}
