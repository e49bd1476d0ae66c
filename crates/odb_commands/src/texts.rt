ghost use Rattle.std.specs.Prelude.{◌≡◌, ◌++◌, ◌∷◌, [], OnOk, codes};
ghost use Rattle.std.specs.Fmt.{decimal};
ghost use Rattle.odb_value.specs.ItemTexts.{item_text};
ghost use Rattle.daq_types.specs.Tids.{tid_name};
ghost use Rattle.odb_tree.specs.Calls.{last_name};
ghost use Rattle.odb_commands.specs.Texts.{child_line, child_lines, item_refusal_text, limit_name, odb_text, path_refusal_text, refusal_text, refused_line, reply_text, slash_if};

use crate::replies::{CommandRefusal, CommandReply};
use daq_text::TextBuffer;
use daq_types::{NoMemory, Tid};
use odb_tree::{Child, OdbRefusal, What};
use odb_value::{Item, ItemRefusal, Path, PathRefusal, print_item, print_key};

/// The last name of a path; nothing for the root.
fn last_name(path: &Path) -> &[u8]
    ensures { result.now ≡ last_name path.now }
{
    match path.names().last() {
        None => b"",
        Some(name) => name.as_slice(),
    }
}

/// Adds the line of an item.
fn add_one(text: &mut TextBuffer, item: &Item) -> Result<(), NoMemory>
    ensures { OnOk result (text.new ≡ text.old ++ (item_text item.now ++ 10 ∷ [])) }
{
    print_item(item, text)?;
    text.end_line()
}

/// Adds the line of what stands in a directory under one name.
fn add_child(text: &mut TextBuffer, child: &Child) -> Result<(), NoMemory>
    ensures { OnOk result (text.new ≡ text.old ++ child_line child.now) }
{
    text.text(child.name.as_slice())?;
    if child.is_dir {
        text.text(b"/")?;
    }
    text.text(b"\n")
}

/// Adds the lines of what stands in a directory.
fn add_children(text: &mut TextBuffer, children: &[Child]) -> Result<(), NoMemory>
    ensures { OnOk result (text.new ≡ text.old ++ child_lines children.now) }
{
    for child in children {
        add_child(text, child)?;
    }
    Ok(())
}

/// Adds why a text is no path.
fn add_path_refusal(text: &mut TextBuffer, why: PathRefusal) -> Result<(), NoMemory>
    ensures { OnOk result (text.new ≡ text.old ++ path_refusal_text why) }
{
    match why {
        PathRefusal::EmptyName => text.text(b"EmptyName"),
        PathRefusal::LongName => text.text(b"LongName"),
        PathRefusal::BadByte { at } => {
            text.text(b"BadByte ")?;
            text.number(at as u64)
        }
        PathRefusal::TooDeep => text.text(b"TooDeep"),
        PathRefusal::NoMemory => text.text(b"NoMemory"),
    }
}

/// Adds the name of a refusal and the name of a type behind it.
fn add_with_type(text: &mut TextBuffer, name: &[u8], tid: Tid) -> Result<(), NoMemory>
    ensures { OnOk result (text.new ≡ text.old ++ (name.now ++ tid_name tid)) }
{
    text.text(name)?;
    text.text(tid.name().as_bytes())
}

/// Adds why a text is no item.
fn add_item_refusal(text: &mut TextBuffer, why: ItemRefusal) -> Result<(), NoMemory>
    ensures { OnOk result (text.new ≡ text.old ++ item_refusal_text why) }
{
    match why {
        ItemRefusal::BadText { at } => {
            text.text(b"BadText ")?;
            text.number(at)
        }
        ItemRefusal::OutOfRange => text.text(b"OutOfRange"),
        ItemRefusal::NotKept { tid } => add_with_type(text, b"NotKept ", tid),
        ItemRefusal::NoMemory => text.text(b"NoMemory"),
    }
}

/// The name of a limit.
fn name_of_limit(what: What) -> &'static [u8]
    ensures { result.now ≡ limit_name what }
{
    match what {
        What::Keys => b"Keys",
        What::Items => b"Items",
        What::Size => b"Size",
        What::Total => b"Total",
        What::Rows => b"Rows",
    }
}

/// Adds why the database refused a call.
fn add_odb_refusal(text: &mut TextBuffer, why: OdbRefusal) -> Result<(), NoMemory>
    ensures { OnOk result (text.new ≡ text.old ++ odb_text why) }
{
    match why {
        OdbRefusal::NoKey => text.text(b"NoKey"),
        OdbRefusal::Exists => text.text(b"Exists"),
        OdbRefusal::NotDir => text.text(b"NotDir"),
        OdbRefusal::NotValue => text.text(b"NotValue"),
        OdbRefusal::TypeMismatch { have } => add_with_type(text, b"TypeMismatch ", have),
        OdbRefusal::BadIndex { len } => {
            text.text(b"BadIndex ")?;
            text.number(len as u64)
        }
        OdbRefusal::Limit { what } => {
            text.text(b"Limit ")?;
            text.text(name_of_limit(what))
        }
        OdbRefusal::NotKept { tid } => add_with_type(text, b"NotKept ", tid),
        OdbRefusal::BadLink { steps } => {
            text.text(b"BadLink ")?;
            text.number(steps as u64)
        }
        OdbRefusal::NoMemory => text.text(b"NoMemory"),
    }
}

impl CommandRefusal {
    /// Adds the refusal: its name, and its fields in the order of their declaration, each behind a blank.
    pub fn print(&self, text: &mut TextBuffer) -> Result<(), NoMemory>
        ensures { OnOk result (text.new ≡ text.old ++ refusal_text self.now) }
    {
        match *self {
            CommandRefusal::Path { why } => add_path_refusal(text, why),
            CommandRefusal::Protected => text.text(b"Protected"),
            CommandRefusal::Item { why } => add_item_refusal(text, why),
            CommandRefusal::Database { why } => add_odb_refusal(text, why),
        }
    }
}

/// Adds what stands in front of the refusal of the script's line of this number.
pub fn begin_refusal(text: &mut TextBuffer, line: u64) -> Result<(), NoMemory>
    ensures { OnOk result (text.new ≡ text.old ++ (codes "refused "
        ++ (decimal line ++ codes ": "))) }
{
    text.text(b"refused ")?;
    text.number(line)?;
    text.text(b": ")
}

/// Adds the line of a refusal, with the number of the script's line.
fn add_refused(text: &mut TextBuffer, line: u64, why: &CommandRefusal) -> Result<(), NoMemory>
    ensures { OnOk result (text.new ≡ text.old ++ refused_line line (refusal_text why.now)) }
{
    begin_refusal(text, line)?;
    why.print(text)?;
    text.text(b"\n")
}

impl CommandReply {
    /// Adds what the command prints, which stands in the script's line of this number: for `get` a key as in a dump of
    /// the database, or one item; for `ls` a line per child, with a slash behind the name of a directory; one line for a
    /// refusal; nothing for any other.
    pub fn print(&self, line: u64, text: &mut TextBuffer) -> Result<(), NoMemory>
        ensures { OnOk result (text.new ≡ text.old ++ reply_text line self.now) }
    {
        match self {
            CommandReply::Done => Ok(()),
            CommandReply::Key { path, value } => print_key(last_name(path), value, text),
            CommandReply::One { item } => add_one(text, item),
            CommandReply::Listed { children } => add_children(text, children.as_slice()),
            CommandReply::Refused { why } => add_refused(text, line, why),
        }
    }
}
