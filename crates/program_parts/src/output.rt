//! Where a program writes: standard output, or a file.

use crate::target::{STANDARD_OUTPUT, Target, target_of};
use either::{Either, Left, Right};
use std::alloc::{AllocError, Global};
use std::fs::{Metadata, OpenFile, OpenOptions, Permissions};
use std::io::{ErrorKind, Printer};
use std::os::fd::AsFd;
use std::os::unix::fs::{MetadataExt, OpenOptionsExt, PermissionsExt, fchown};
use std::rt::Files;
use std::{fs, io};

/// Where a program writes. A regular file is written beside the one whose place it takes, so that
/// this is whole until it has it, and may be an input.
#[derive(Drop)]
pub struct Output<W> {
    pub writer: W,
    place: Option<Place>,
}

// Where a file lies, and where it is to lie.
#[derive(Drop)]
struct Place {
    part: String,
    name: String,
    // The file whose place it takes, if there is one.
    old: Option<Metadata>,
}

/// The writer of a system: of its standard output, or of one of its files.
pub type Writer<'r, R, F> = Either<Printer<'r, R>, F>;

// The bits of a file's mode that the one in its place may have. Where that has another group, the
// group and others may do what both could do.
fn kept_mode(old: &Metadata, new: &Metadata) -> u32 {
    let mode = old.mode() & 0o777;
    if old.gid() == new.gid() {
        return mode;
    }
    let both = mode & (mode >> 3) & 0o7;
    (mode & 0o700) | (both << 3) | both
}

// The name of a file in the folder of another.
fn part_beside(alloc: Global, name: &str, number: u32) -> Result<String, AllocError> {
    match name.rsplit_once('/') {
        Some((folder, _)) => format!(in alloc; "{folder}/fastbloom.{number}.part"),
        None => format!(in alloc; "fastbloom.{number}.part"),
    }
}

// Opens a new file in the folder of another, whose place it is to take.
fn open_beside<'r, R: Files + AllocGlobal>(
    rt: &'r R,
    name: String,
    old: Option<Metadata>,
) -> io::Result<Output<Writer<'r, R, R::File>>> {
    // Only its owner has it until it has the mode of the other.
    let mode = if old.is_some() { 0o600 } else { 0o666 };
    'parts: for number in 0..u32::MAX {
        let part = part_beside(rt.alloc(), name.as_str(), number)?;
        let mut options = OpenOptions::new();
        options.write(true).create_new(true).mode(mode);
        match options.open(rt, part.as_str()) {
            Ok(file) => {
                return Ok(Output {
                    writer: Right(file),
                    place: Some(Place { part, name, old }),
                });
            }
            Err(error) => {
                if error.kind() != ErrorKind::AlreadyExists {
                    return Err(error);
                }
            }
        }
    }
    Err(ErrorKind::AlreadyExists.into())
}

// Opens a stream: what is written follows what it has.
fn open_stream<'r, R: Files>(rt: &'r R, name: &str) -> io::Result<Output<Writer<'r, R, R::File>>> {
    let file = OpenOptions::new().append(true).open(rt, name)?;
    Ok(Output {
        writer: Right(file),
        place: None,
    })
}

// Standard output, which is open.
fn standard_output<'r, R: Files + Print>(rt: &'r R) -> Output<Writer<'r, R, R::File>> {
    Output {
        writer: Left(io::writer(rt)),
        place: None,
    }
}

/// Opens the file of this name to write it, or standard output where there is none or it is `-`.
///
/// # Errors
/// Where the file can't be opened, and out of memory.
pub fn open_output<'r, R: Files + Print + AllocGlobal>(
    rt: &'r R,
    name: Option<&str>,
) -> io::Result<Output<Writer<'r, R, R::File>>> {
    let name = name.unwrap_or("-");
    if name == "-" {
        return Ok(standard_output(rt));
    }
    match target_of(rt, name)? {
        Target::Standard => Ok(standard_output(rt)),
        Target::Stream(name) => open_stream(rt, name.as_str()),
        Target::Regular(name, old) => open_beside(rt, name, old),
    }
}

/// What is known of the file that an output is written to where it lies, if it is.
pub fn metadata_in_place<R: Files>(
    rt: &R,
    output: &Output<Writer<'_, R, R::File>>,
) -> Option<Metadata> {
    match &output.writer {
        Left(_) => fs::metadata(rt, STANDARD_OUTPUT).ok(),
        Right(file) if output.place.is_none() => file.metadata().ok(),
        Right(_) => None,
    }
}

// Gives a file the owner and the group of another where it can, or else the group.
fn keep_owner<F: AsFd>(file: &F, old: &Metadata) {
    if fchown(file, Some(old.uid()), Some(old.gid())).is_err() {
        let _ = fchown(file, None, Some(old.gid()));
    }
}

// Gives a file the owner and the mode of the one whose place it takes, and waits until the disk has
// it.
fn settle<F: OpenFile + AsFd>(file: &F, old: Option<&Metadata>) -> io::Result<()> {
    if let Some(old) = old {
        keep_owner(file, old);
        let mode = kept_mode(old, &file.metadata()?);
        file.set_permissions(Permissions::from_mode(mode))?;
    }
    file.sync_all()
}

// Puts a file in its place, if it is whole, and else removes it.
fn put_in_place<R: Files>(rt: &R, file: R::File, place: &Place, is_whole: bool) -> io::Result<()>
where
    R::File: AsFd,
{
    let mut done = Ok(());
    if is_whole {
        done = settle(&file, place.old.as_ref());
    }
    drop(file);
    if is_whole && done.is_ok() {
        done = fs::rename(rt, place.part.as_str(), place.name.as_str());
    }
    if !is_whole || done.is_err() {
        let _ = fs::remove_file(rt, place.part.as_str());
    }
    done
}

/// Closes the output. If all was written that was to be, a regular file takes its place now. Else
/// it is removed, and what was in its place stays.
///
/// # Errors
/// Where the file can't take its place.
pub fn close<'r, R: Files>(
    rt: &R,
    output: Output<Writer<'r, R, R::File>>,
    is_whole: bool,
) -> io::Result<()>
where
    R::File: AsFd,
{
    let Output { writer, place } = output;
    match writer {
        Left(printer) => {
            drop(printer);
            Ok(())
        }
        Right(file) => match place {
            Some(place) => put_in_place(rt, file, &place, is_whole),
            None => {
                drop(file);
                Ok(())
            }
        },
    }
}
