//! The standard descriptors, whose numbers no socket may get.

use std::fs::{File, OpenOptions};
use std::io;
use std::os::fd::{AsRawFd, IntoRawFd};
use std::rt::Files;

/// How many standard descriptors there are, numbered from 0.
const STANDARD: i32 = 3;

/// Opens the null device under the number of each standard descriptor that is closed, where it stays open.
pub fn open_standard<F: Files<File = File>>(files: &F) -> io::Result<()> {
    for _ in 0..STANDARD {
        let file = OpenOptions::new()
            .read(true)
            .write(true)
            .open(files, "/dev/null")?;
        if file.as_raw_fd() >= STANDARD {
            return Ok(());
        }
        let _ = file.into_raw_fd();
    }
    Ok(())
}
