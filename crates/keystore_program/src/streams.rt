//! The standard streams of a process that was started with some of them closed.

use file_disk::LAST_STREAM;
use std::fs;
use std::fs::OpenOptions;
use std::os::fd::AsRawFd;

/// The null device, in the place of each standard stream that is closed. Let go, these are closed again.
#[derive(Drop)]
pub struct Streams {
    first: Option<fs::File>,
    second: Option<fs::File>,
    third: Option<fs::File>,
}

/// The null device at the least descriptor that is free, where that is one of a standard stream's.
fn stand_in(rt: &HostRuntime) -> Option<fs::File> {
    let null = OpenOptions::new()
        .read(true)
        .write(true)
        .open(rt, "/dev/null")
        .ok()?;
    if null.as_raw_fd() > LAST_STREAM {
        return None;
    }
    Some(null)
}

/// Opens the null device until no descriptor of a standard stream is free, before any other file is opened: so a closed input has no byte, a
/// closed output takes all, and no file of the service stands where text goes.
pub fn hold_streams(rt: &HostRuntime) -> Streams {
    let first = stand_in(rt);
    let second = match &first {
        Some(_) => stand_in(rt),
        None => None,
    };
    let third = match &second {
        Some(_) => stand_in(rt),
        None => None,
    };
    Streams {
        first,
        second,
        third,
    }
}
