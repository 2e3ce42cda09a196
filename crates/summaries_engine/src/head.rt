//! What the head of a file of the form tells.
ghost use Rattle.std.specs.Prelude.{◌≡◌, ◌<◌, Some};
ghost use Rattle.bloom_files.specs.FileRefusals.{number_at};
ghost use Rattle.summaries_engine.specs.Loaded.{file_form, head_layout};

use crate::form::Form;
use fastbloom::file::Layout;

// The number at a place of the head of a file.
fn number_of(head: &[u8; 64], place: usize) -> u64
    requires { place < 8 }
    ensures { result ≡ number_at head.now place }
{
    let (numbers, _rest) = head.as_chunks::<8>();
    match numbers.get(place) {
        Some(number) => u64::from_le_bytes(*number),
        None => unreachable!(),
    }
}

// The form of a file, by its head, in which the seal is 0 where there is none.
pub(crate) fn form_of(head: &[u8; 64]) -> Form
    ensures { result ≡ file_form (number_at head.now 5) }
{
    if number_of(head, 5) == 0 {
        Form::Unsealed
    } else {
        Form::Sealed
    }
}

// The layout that a head tells, of which this many bytes were read.
pub(crate) fn layout_of(count: usize, head: &[u8; 64]) -> Layout
    ensures { result ≡ head_layout count head.now }
{
    if count == 64 && number_of(head, 6) == 1 {
        Layout::Lines
    } else {
        Layout::Whole
    }
}
