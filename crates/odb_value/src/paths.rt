ghost use Rattle.std.specs.Prelude.{◌≡◌, ◌≢◌, ◌+◌, ◌-◌, ◌*◌, ◌<◌, ◌≤◌, ◌∷◌, ◌++◌, [], ℕ, IfOk, IfErr, OnOk, OnErr, IfSome, IfNone, IsOk, None, Some, length, take, drop, position, ◌==◌};
ghost use Rattle.odb_value.specs.Paths.{depth_limit, IsPath};
ghost use Rattle.odb_value.specs.PathText.{behind_slash, name_fault, add_fault, path_reply, GivesNames};
ghost use Rattle.odb_value.specs.declared.path_refusals.PathRefusal.TheVariants.{NoMemory as no_memory};

use crate::path_refusals::PathRefusal;
use daq_types::{Name, NameRefusal, NoMemory};
use std::alloc::Global;
use std::marker::Model;

/// The most names of a path.
pub const MAX_DEPTH: usize = 32;

/// A path of the online database: the names of the directories from the root down, and of the key. The root has no
/// name. A path has at most 32 names, each by the rule of names.
#[derive(Drop)]
pub struct Path {
    names: Vec<Name>,
}

impl Model for Path {
    ghost use Rattle.std.specs.Prelude.{List, ℕ};
    ghost use Rattle.odb_value.specs.Paths.{IsPath};

    ghost Value = { List (List ℕ) };

    ghost view = { λ p. p.names.items };

    ghost invariant = { λ p. IsPath p.names.items };
}

/// The text behind a first slash, which may be absent.
fn behind_slash(text: &[u8]) -> &[u8]
    ensures { result.now ≡ behind_slash text.now }
{
    match text.split_first() {
        Some((b'/', rest)) => rest,
        _ => text,
    }
}

/// The place of the first slash.
fn slash_in(text: &[u8]) -> Option<usize>
    ensures first { result ≡ position (λ b. b == 47) text.now }
    ensures within { IfSome result (λ at. at < length text.now) }
{
    text.iter().position(|byte| *byte == b'/')
}

/// What stands before and behind this place.
fn cut(text: &[u8], at: usize) -> (&[u8], &[u8])
    requires { at < length text.now }
    ensures before { result.0.now ≡ take at text.now }
    ensures behind { result.1.now ≡ drop (at + 1) text.now }
{
    let (before, _) = text.split_at(at);
    let (_, behind) = text.split_at(at + 1);
    (before, behind)
}

/// The name that begins at this place of a path's text.
fn read_name(text: &[u8], place: usize) -> Result<Name, PathRefusal>
    requires { place ≤ 1 + 32 * depth_limit }
    ensures name { IfOk result (λ name. name ≡ text.now) }
    ensures right { OnOk result (name_fault place text.now ≡ None) }
    ensures short { OnOk result (length text.now ≤ 31) }
    ensures refused { IfErr result (λ refusal. name_fault place text.now ≡ Some refusal) }
    ensures no_memory { IfErr result (λ refusal. refusal ≢ no_memory) }
{
    match Name::new(text) {
        Ok(name) => Ok(name),
        Err(NameRefusal::EmptyName) => Err(PathRefusal::EmptyName),
        Err(NameRefusal::LongName) => Err(PathRefusal::LongName),
        Err(NameRefusal::BadByte { at }) => Err(PathRefusal::BadByte {
            at: place as u32 + at,
        }),
    }
}

/// What is wrong with a name that begins at this place of a path's text and has so many names in front.
fn add_fault(text: &[u8], place: usize, depth: usize) -> Option<PathRefusal>
    requires { place ≤ 1 + 32 * depth_limit }
    ensures fault { result ≡ add_fault place depth text.now }
    ensures no_memory { IfSome result (λ refusal. refusal ≢ no_memory) }
    ensures short { IfNone result (length text.now ≤ 31) }
    ensures room { IfNone result (depth < depth_limit) }
{
    match read_name(text, place) {
        Err(refusal) => Some(refusal),
        Ok(_) => {
            if depth < MAX_DEPTH {
                None
            } else {
                Some(PathRefusal::TooDeep)
            }
        }
    }
}

/// What is wrong with the text of a path; None exactly where it is one. Takes no memory.
pub fn path_fault(text: &[u8]) -> Option<PathRefusal>
    ensures fault { IfSome result (λ refusal. path_reply text.now ≡ Err refusal) }
    ensures no_memory { IfSome result (λ refusal. refusal ≢ no_memory) }
    ensures none { IfNone result (IsOk (path_reply text.now)) }
{
    let body = behind_slash(text);
    if body.is_empty() {
        return None;
    }
    let mut rest = body;
    let mut place = text.len() - body.len();
    let mut depth = 0;
    while let Some(at) = slash_in(rest) {
        let (name, behind) = cut(rest, at);
        if let Some(refusal) = add_fault(name, place, depth) {
            return Some(refusal);
        }
        place += at + 1;
        depth += 1;
        rest = behind;
    }
    add_fault(rest, place, depth)
}

impl Path {
    /// The root. Takes no memory.
    pub fn root(alloc: Global) -> Path
        ensures { result ≡ [] }
    {
        Path {
            names: Vec::new(alloc),
        }
    }

    /// The path with these names.
    pub fn of(alloc: Global, names: &[Name]) -> Result<Path, NoMemory>
        requires { length names.now ≤ depth_limit }
        ensures { IfOk result (λ path. path ≡ names.now) }
    {
        let mut path = Path {
            names: Vec::with_capacity(alloc, names.len())?,
        };
        for name in names {
            path.push(*name)?;
        }
        Ok(path)
    }

    /// The path of a text: names between slashes, where a first slash may be absent; a slash alone and the empty text
    /// are the root. Else the first name with a fault is refused, and of its faults the first in the order of
    /// `PathRefusal`. Memory is taken only where the text is that of a path.
    pub fn read(alloc: Global, text: &[u8]) -> Result<Path, PathRefusal>
        ensures { GivesNames result (path_reply text.now) }
    {
        if let Some(refusal) = path_fault(text) {
            return Err(refusal);
        }
        Path::read_names(alloc, text)
    }

    /// The same, where memory is taken name by name.
    fn read_names(alloc: Global, text: &[u8]) -> Result<Path, PathRefusal>
        ensures path { IfOk result (λ path. path_reply text.now ≡ Ok path) }
        ensures refused { IfErr result (λ refusal. refusal ≢ no_memory
            → path_reply text.now ≡ Err refusal) }
    {
        let mut path = Path::root(alloc);
        let body = behind_slash(text);
        if body.is_empty() {
            return Ok(path);
        }
        let mut rest = body;
        let mut place = text.len() - body.len();
        while let Some(at) = slash_in(rest) {
            let (name, behind) = cut(rest, at);
            path.add(name, place)?;
            place += at + 1;
            rest = behind;
        }
        path.add(rest, place)?;
        Ok(path)
    }

    /// Adds the name that begins at this place of the path's text.
    fn add(&mut self, text: &[u8], place: usize) -> Result<(), PathRefusal>
        requires { place ≤ 1 + 32 * length self.old }
        ensures added { OnOk result (self.new ≡ self.old ++ text.now ∷ []) }
        ensures right { OnOk result (add_fault place (length self.old) text.now ≡ None) }
        ensures short { OnOk result (length text.now ≤ 31) }
        ensures room { OnOk result (length self.old < depth_limit) }
        ensures refused { IfErr result (λ refusal. refusal ≢ no_memory
            → add_fault place (length self.old) text.now ≡ Some refusal) }
    {
        let depth = self.names.len();
        let name = read_name(text, place)?;
        if depth >= MAX_DEPTH {
            return Err(PathRefusal::TooDeep);
        }
        self.push(name)?;
        Ok(())
    }

    /// One name more, behind the others.
    pub fn push(&mut self, name: Name) -> Result<(), NoMemory>
        requires { length self.old < depth_limit }
        ensures ok { OnOk result (self.new ≡ self.old ++ name ∷ []) }
        ensures err { OnErr result (self.new ≡ self.old) }
    {
        let _ = name.as_slice();
        self.names.push(name)?;
        Ok(())
    }

    /// The names, from the root down.
    pub fn names(&self) -> &[Name]
        ensures names { result.now ≡ self.now }
        ensures is_path { IsPath self.now }
    {
        self.names.as_slice()
    }

    /// The same path once more.
    pub fn try_clone(&self, alloc: Global) -> Result<Path, NoMemory>
        ensures { IfOk result (λ path. path ≡ self.now) }
    {
        Path::of(alloc, self.names())
    }
}
