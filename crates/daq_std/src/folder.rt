ghost use Rattle.std.specs.Prelude.{◌≡◌, ◌<◌, ◌+◌, ◌≤◌, ◌++◌, ◌∷◌, [], All, IfOk, IsTrue, None, OnErr, OnOk, Some, length, string_bytes, string_capacity, take};
ghost use Rattle.daq_types.specs.Names.{is_file_byte};
ghost use Rattle.daq_io.specs.Seen.{close_state, stored_as, was_left, was_removed};
ghost use Rattle.daq_std.specs.Paths.{IsFolderPart, KeepsName, is_rooted, path_in};
ghost use Rattle.daq_std.specs.SystemCalls.{new_to_write, to_read};

use crate::opening::{make_file, open_file};
use crate::system::{
    Fault, LeftFile, NameOnDisk, OnDisk, Removed, SystemFile, remove_file, sync_folder,
};
use daq_io::FileTrace;
use daq_types::{FileName, NoMemory};
use std::alloc::Global;
use std::marker::Model;
use std::{rt, str};

/// The longest name of a file, and the slash before it.
const NAME_ROOM: usize = 256;

/// A folder of the system. The path of a file is made anew for each call, in room that was taken once.
#[derive(Drop)]
pub struct SystemFolder<R> {
    system: R,
    folder: String,
    /// The path that was made last, for the system.
    path: String,
    /// The last removal, where no file was asked to be made since.
    removed: Option<Removed>,
    /// The last name that was put on the disk, where none was made or removed since.
    kept: Option<NameOnDisk>,
    /// The files that were written and left, or removed.
    done: FileTrace,
}

impl<R> Model for SystemFolder<R> {
    ghost use Rattle.std.specs.Prelude.{◌+◌, ◌≤◌, length, string_bytes, string_capacity};
    ghost use Rattle.daq_std.specs.InBlocks.{InFolder};

    ghost Value = { InFolder };

    ghost view = { λ s. record {
      folder = string_bytes s.folder;
      removed = s.removed;
      kept = s.kept;
      done = s.done;
    } };

    // There is room for the longest path.
    ghost invariant = { λ s. length (string_bytes s.folder) + 256 ≤ string_capacity s.path };
}

/// Whether a name is one from the root of the system.
fn is_rooted(name: &[u8]) -> bool
    ensures { result ≡ is_rooted name.now }
{
    match name.first() {
        Some(first) => *first == b'/',
        None => false,
    }
}

/// The first bytes of a name, so many, say in which folder its file lies.
fn folder_part(name: &[u8]) -> usize
    ensures { IsFolderPart name.now result }
{
    let mut count = name.len();
    while count > 0 && name[count - 1] != b'/' {
        count -= 1;
    }
    count
}

/// The text of bytes that a name of a file may have.
fn text_of(name: &[u8]) -> &str
    requires { All (λ b. IsTrue (is_file_byte b)) name.now }
    ensures { result.now ≡ name.now }
{
    match str::from_utf8(name) {
        Ok(text) => text,
        Err(_) => unreachable!(),
    }
}

/// Appends a text, for which there is room.
fn put(path: &mut String, text: &str)
    requires { length (string_bytes path.old) + length text.now ≤ string_capacity path.old }
    ensures bytes { string_bytes path.new ≡ string_bytes path.old ++ text.now }
    ensures room { string_capacity path.old ≤ string_capacity path.new }
{
    if path.push_str(text).is_err() {
        unreachable!();
    }
}

/// Makes the path of a name of a folder.
fn make_path(folder: &str, name: &[u8], path: &mut String)
    requires bytes { All (λ b. IsTrue (is_file_byte b)) name.now }
    requires short { length name.now ≤ 255 }
    requires room { length folder.now + 256 ≤ string_capacity path.old }
    ensures path { string_bytes path.new ≡ path_in folder.now name.now }
    ensures room { string_capacity path.old ≤ string_capacity path.new }
{
    path.clear();
    if !is_rooted(name) {
        put(path, folder);
        put(path, "/");
    }
    put(path, text_of(name));
}

impl<R: rt::Files + Drop> SystemFolder<R> {
    /// A folder, with room for the longest path.
    pub fn new(alloc: Global, system: R, folder: &str) -> Result<SystemFolder<R>, NoMemory>
        ensures folder { IfOk result (λ made. made.folder ≡ folder.now) }
        ensures nothing { IfOk result (λ made. made.done ≡ []) }
    {
        let Some(room) = folder.len().checked_add(NAME_ROOM) else {
            return Err(NoMemory);
        };
        Ok(SystemFolder {
            system,
            folder: String::from_str(alloc, folder)?,
            path: String::with_capacity(alloc, room)?,
            removed: None,
            kept: None,
            done: FileTrace::new(),
        })
    }

    /// Makes a file of this name, where there is nothing of that name.
    pub fn create(&mut self, name: &FileName) -> Result<SystemFile<R::File>, Fault>
        ensures made { IfOk result (λ file. file.opening
            ≡ record { how = new_to_write; path = path_in self.old.folder name.now }) }
        ensures nothing { IfOk result (λ file. file.handed ≡ []) }
        ensures folder { self.new ≡ record self.old { removed = None; kept = None } }
    {
        self.removed = None;
        self.kept = None;
        make_path(self.folder.as_str(), name.as_slice(), &mut self.path);
        make_file(&self.system, &self.path)
    }

    /// Opens the file of this name to read it.
    pub fn open(&mut self, name: &FileName) -> Result<SystemFile<R::File>, Fault>
        ensures opened { IfOk result (λ file. file.opening
            ≡ record { how = to_read; path = path_in self.old.folder name.now }) }
        ensures nothing { IfOk result (λ file. file.handed ≡ []) }
        ensures folder { self.new ≡ self.old }
    {
        make_path(self.folder.as_str(), name.as_slice(), &mut self.path);
        open_file(&self.system, &self.path)
    }

    /// Removes the file of this name, if there is one.
    pub fn remove(&mut self, name: &FileName) -> Result<(), Fault>
        ensures removed { OnOk result (self.new.removed
            ≡ Some (path_in self.old.folder name.now)) }
        ensures done { OnOk result (self.new.done ≡ self.old.done ++ was_removed name.now ∷ []) }
        ensures not_done { OnErr result (self.new.done ≡ self.old.done) }
        ensures folder { self.new.folder ≡ self.old.folder }
    {
        self.kept = None;
        make_path(self.folder.as_str(), name.as_slice(), &mut self.path);
        let folder = self.folder.as_str();
        self.removed = Some(remove_file(&self.system, &self.path, &mut self.done, folder, name)?);
        Ok(())
    }

    /// Has the system put the names of the folder in which the file of this name lies on the disk, behind that file. The file is
    /// closed where the system did, and else let go.
    pub fn sync(&mut self, name: &FileName, file: OnDisk<R::File>) -> Result<(), Fault>
        requires { file.opening.path ≡ path_in self.old.folder name.now }
        ensures kept { OnOk result (KeepsName self.old.folder name.now file.opening.path
            self.new.kept) }
        ensures done { self.new.done ≡ self.old.done
            ++ was_left name.now (stored_as (close_state result) file.handed) ∷ [] }
        ensures folder { self.new.folder ≡ self.old.folder }
    {
        let bytes = name.as_slice();
        make_path(
            self.folder.as_str(),
            &bytes[..folder_part(bytes)],
            &mut self.path,
        );
        let (kept, file) = sync_folder(&self.system, &self.path, file);
        file.tell(&mut self.done, self.folder.as_str(), name);
        self.kept = Some(kept?);
        Ok(())
    }

    /// Notes that the file of this name is written no more.
    pub fn leave(&mut self, name: &FileName, file: LeftFile)
        requires { file.opening.path ≡ path_in self.old.folder name.now }
        ensures { self.new ≡ record self.old
            { done = self.old.done ++ was_left name.now file.left ∷ [] } }
    {
        file.tell(&mut self.done, self.folder.as_str(), name);
    }
}
