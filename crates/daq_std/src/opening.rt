//! How a file is made, and how one that is there is opened.
ghost use Rattle.std.specs.Prelude.{◌≡◌, [], IfOk, string_bytes};
ghost use Rattle.daq_std.specs.SystemCalls.{new_to_write, to_read};

use crate::system::{Fault, SystemFile, look_at, open_as};
use std::fs::OpenOptions;
use std::rt;

/// Makes a file, where there is nothing of that name.
pub fn make_file<R: rt::Files>(system: &R, path: &String) -> Result<SystemFile<R::File>, Fault>
    ensures opening { IfOk result (λ made. made.opening
        ≡ record { how = new_to_write; path = string_bytes path.now }) }
    ensures nothing { IfOk result (λ made. made.handed ≡ []) }
{
    let mut how = OpenOptions::new();
    how.read(true).write(true).create_new(true);
    open_as(system, &how, path)
}

/// Opens what is there, to read it.
pub fn open_to_read<R: rt::Files>(system: &R, path: &String) -> Result<SystemFile<R::File>, Fault>
    ensures opening { IfOk result (λ opened. opened.opening
        ≡ record { how = to_read; path = string_bytes path.now }) }
    ensures nothing { IfOk result (λ opened. opened.handed ≡ []) }
{
    let mut how = OpenOptions::new();
    how.read(true);
    open_as(system, &how, path)
}

/// Opens the file that is there, to read it. What is no file is not opened, since the system may wait for the other end of
/// a pipe; and it is looked at again once it is open.
pub fn open_file<R: rt::Files>(system: &R, path: &String) -> Result<SystemFile<R::File>, Fault>
    ensures opening { IfOk result (λ opened. opened.opening
        ≡ record { how = to_read; path = string_bytes path.now }) }
    ensures nothing { IfOk result (λ opened. opened.handed ≡ []) }
{
    look_at(system, path)?;
    let opened = open_to_read(system, path)?;
    opened.look()?;
    Ok(opened)
}
