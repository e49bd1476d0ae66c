//! The numbers of the standard streams. One that was closed as the program began would leave its number to the next file that
//! is opened, and that file would be read as the script or written with the console's text.
ghost use Rattle.std.specs.Prelude.{◌<ℤ◌, pos};

use std::fs::File;
use std::os::fd::{AsRawFd, IntoRawFd, RawFd};
use std::rt;

/// The greatest number of a standard stream.
const LAST_STREAM: RawFd = 2;

/// The numbers of the standard streams are taken to the end of the program: no file that is opened from here on gets one.
#[derive(Drop)]
pub struct StandardTaken {
    /// The number of the file that was opened last; the system gives the least that is free.
    next: RawFd,
    ghost behind: { pos 2 <ℤ next },
}

/// Opens a folder to read it.
fn open_folder<R: rt::Files>(system: &R) -> Option<R::File> {
    match File::open(system, "/") {
        Ok(folder) => Some(folder),
        Err(_) => File::open(system, ".").ok(),
    }
}

impl StandardTaken {
    /// Takes those that are free: each is then the folder `/`, or else the one in which the program runs, opened to be read, from
    /// which no byte can be read and to which none can be written. None where the system opens neither.
    pub fn take<R: rt::Files>(system: &R) -> Option<StandardTaken>
    where
        R::File: AsRawFd + IntoRawFd,
    {
        for _ in 0..=LAST_STREAM + 1 {
            let folder = open_folder(system)?;
            let next = folder.as_raw_fd();
            if next > LAST_STREAM {
                return Some(StandardTaken { next });
            }
            folder.into_raw_fd();
        }
        None
    }
}
