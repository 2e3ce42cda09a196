//! What the name of an output leads to.

use std::alloc::{AllocError, Global};
use std::fs::Metadata;
use std::io::ErrorKind;
use std::os::unix::fs::MetadataExt;
use std::rt::Files;
use std::{fs, io};

// Where Linux has a link for each open file of this process.
const OPEN_FILES: &str = "/proc/self/fd";

/// The link of standard output among them.
pub const STANDARD_OUTPUT: &str = "/proc/self/fd/1";

// How many links the system follows for a name.
const MOST_LINKS: u32 = 40;

/// What the name of an output leads to.
#[derive(Drop)]
pub enum Target {
    /// The standard output of this process.
    Standard,
    /// An open file of a process, or what is no regular file, by the name that the links lead to.
    Stream(String),
    /// A regular file, or none yet, by the name that the links lead to.
    Regular(String, Option<Metadata>),
}

// Where a link leads to.
fn followed(alloc: Global, link: &str, text: String) -> Result<String, AllocError> {
    match link.rsplit_once('/') {
        Some((folder, _)) if !text.starts_with('/') => format!(in alloc; "{folder}/{text}"),
        _ => Ok(text),
    }
}

// Whether a link leads to an open file of a process. Such a link lies where those of this one do.
fn is_open_file<R: Files>(rt: &R, link: &Metadata) -> bool {
    match fs::metadata(rt, OPEN_FILES) {
        Ok(found) => found.dev() == link.dev(),
        Err(_) => false,
    }
}

// Whether a link is that of standard output.
fn is_standard_output<R: Files>(rt: &R, link: &Metadata) -> bool {
    match fs::symlink_metadata(rt, STANDARD_OUTPUT) {
        Ok(found) => found.dev() == link.dev() && found.ino() == link.ino(),
        Err(_) => false,
    }
}

/// What the name of an output leads to. Links are followed one by one, since the path of their
/// folder may have no text, and the file that they lead to may not be there.
///
/// # Errors
/// Where the name or a link can't be followed, and out of memory.
pub fn target_of<R: Files + AllocGlobal>(rt: &R, name: &str) -> io::Result<Target> {
    let mut name = name.to_string(rt.alloc())?;
    'links: for _ in 0..MOST_LINKS {
        match fs::symlink_metadata(rt, name.as_str()) {
            Ok(found) => {
                if found.is_file() {
                    return Ok(Target::Regular(name, Some(found)));
                }
                if !found.is_symlink() {
                    return Ok(Target::Stream(name));
                }
                if is_standard_output(rt, &found) {
                    return Ok(Target::Standard);
                }
                if is_open_file(rt, &found) {
                    return Ok(Target::Stream(name));
                }
                let text = fs::read_link(rt, name.as_str())?.into_string();
                name = followed(rt.alloc(), name.as_str(), text)?;
            }
            Err(error) => {
                if error.kind() == ErrorKind::NotFound {
                    return Ok(Target::Regular(name, None));
                }
                return Err(error);
            }
        }
    }
    Err(ErrorKind::FilesystemLoop.into())
}
