//! The standard streams of a process that was started without some of them.
#![tactic(auto)]

use std::fs::OpenOptions;
use std::io;
use std::os::fd::{AsFd, IntoRawFd};

// The system's number for a descriptor that isn't open.
const NOT_OPEN: i32 = 9;

fn is_closed<S: AsFd>(stream: &S) -> bool {
    match stream.as_fd().try_clone_to_owned() {
        Ok(_copy) => false,
        Err(error) => error.raw_os_error() == Some(NOT_OPEN),
    }
}

// Opens a stream that is closed, as an opened file gets the lowest number that is free.
fn open_closed<S: AsFd>(rt: &HostRuntime, stream: &S, writes: bool) -> io::Result<()> {
    if is_closed(stream) {
        let null = OpenOptions::new()
            .read(!writes)
            .write(writes)
            .open(rt, "/dev/null")?;
        // It stays open until the process ends.
        let _ = null.into_raw_fd();
    }
    Ok(())
}

/// Opens each standard stream that is closed on `/dev/null`, so that no file gets its number. Input
/// is opened to be written, and the others to be read, so that they still fail.
///
/// # Errors
/// Where `/dev/null` can't be opened.
pub fn open_closed_streams(rt: &HostRuntime) -> io::Result<()> {
    open_closed(rt, &rt.stdin(), true)?;
    open_closed(rt, &rt.stdout(), false)?;
    open_closed(rt, &rt.stderr(), false)
}
