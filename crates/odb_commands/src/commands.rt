ghost use Rattle.std.specs.Prelude.{◌≡◌, Err};
ghost use Rattle.daq_types.specs.Callers.{main_caller};
ghost use Rattle.odb_value.specs.PathText.{path_reply};
ghost use Rattle.odb_watch.specs.DatabasePorts.{IsSamePort};
ghost use Rattle.odb_tree.specs.declared.rows.NewKey.TheVariants.{Dir, Keys};
ghost use Rattle.odb_commands.specs.Answers.{done_or, listed_or};
ghost use Rattle.odb_commands.specs.CommandCalls.{Answers, AtPath, CreatesKey, EndsCommand, Gets, GetsIn, LinksTo, Lists, Names, NamesFound, Performs, RemovesKey, Sets, SetsIn, SetsItem, Shows};

use crate::reading::{is_protected, item_for, one_of, read_path, settled};
use crate::replies::{CommandRefusal, CommandReply};
use daq_types::NoMemory;
use odb_script::RowCommand;
use odb_tree::{Children, NewKey, OdbRefusal};
use odb_value::{Item, Path, PathRefusal, Value, path_fault};
use odb_watch::DatabasePort;
use odb_watch::port_laws::calls_add_up;
use std::alloc::Global;
use std::sync::Wait;

/// The reply to a call that prints nothing where it is accepted.
fn done_or(reply: Result<u32, OdbRefusal>) -> CommandReply
    ensures { result ≡ done_or reply }
{
    match reply {
        Ok(_) => CommandReply::Done,
        Err(why) => refused_by(why),
    }
}

/// The reply where the database refused a call.
fn refused_by(why: OdbRefusal) -> CommandReply
    ensures { result ≡ done_or (Err why) }
{
    CommandReply::Refused {
        why: CommandRefusal::Database { why },
    }
}

/// The reply with a directory's list.
fn listed_or(reply: Result<Children, OdbRefusal>) -> CommandReply
    ensures { result ≡ listed_or reply }
{
    match reply {
        Ok(children) => CommandReply::Listed { children },
        Err(why) => refused_by(why),
    }
}

/// The reply where a text is no path.
fn no_path(why: PathRefusal) -> CommandReply
    ensures { result ≡ CommandReply.Refused (CommandRefusal.Path why) }
{
    CommandReply::Refused {
        why: CommandRefusal::Path { why },
    }
}

/// The command at this path.
fn create_at<R: Wait, P: DatabasePort>(
    rt: &R,
    alloc: Global,
    port: &mut P,
    path: Path,
    kind: NewKey,
) -> Result<CommandReply, NoMemory>
    requires main { (P.access port.old).caller ≡ main_caller }
    ensures { EndsCommand (P.access port.old) (P.access port.new) (CreatesKey kind path) result }
{
    let reply = settled(port.create(rt, alloc, path, kind))?;
    Ok(done_or(reply))
}

/// The command `create`: makes a key or a directory at the path of this text.
fn create<R: Wait, P: DatabasePort>(
    rt: &R,
    alloc: Global,
    port: &mut P,
    path: &[u8],
    kind: NewKey,
) -> Result<CommandReply, NoMemory>
    requires main { (P.access port.old).caller ≡ main_caller }
    ensures { EndsCommand (P.access port.old) (P.access port.new)
        (AtPath (path_reply path.now) (CreatesKey kind)) result }
{
    match read_path(alloc, path)? {
        Err(why) => Ok(no_path(why)),
        Ok(path) => create_at(rt, alloc, port, path, kind),
    }
}

/// The command at this path, with the text of the target's.
fn link_at<R: Wait, P: DatabasePort>(
    rt: &R,
    alloc: Global,
    port: &mut P,
    path: Path,
    target: &[u8],
) -> Result<CommandReply, NoMemory>
    requires main { (P.access port.old).caller ≡ main_caller }
    ensures { EndsCommand (P.access port.old) (P.access port.new) (LinksTo target.now path) result }
{
    match read_path(alloc, target)? {
        Err(why) => Ok(no_path(why)),
        Ok(target) => create_at(rt, alloc, port, path, NewKey::Link { target }),
    }
}

/// The command `link`: makes a link at the path of the one text to the path of the other. Where there is no memory for the
/// one, what is wrong with the other is told all the same.
fn link<R: Wait, P: DatabasePort>(
    rt: &R,
    alloc: Global,
    port: &mut P,
    path: &[u8],
    target: &[u8],
) -> Result<CommandReply, NoMemory>
    requires main { (P.access port.old).caller ≡ main_caller }
    ensures { EndsCommand (P.access port.old) (P.access port.new)
        (AtPath (path_reply path.now) (LinksTo target.now)) result }
{
    match read_path(alloc, path) {
        Err(wanting) => match path_fault(target) {
            Some(why) => Ok(no_path(why)),
            None => Err(wanting),
        },
        Ok(Err(why)) => Ok(no_path(why)),
        Ok(Ok(path)) => link_at(rt, alloc, port, path, target),
    }
}

/// Sets the item, where there is one.
fn set_item<R: Wait, P: DatabasePort>(
    rt: &R,
    alloc: Global,
    port: &mut P,
    path: Path,
    index: u32,
    item: Result<Item, CommandRefusal>,
) -> Result<CommandReply, NoMemory>
    ensures { EndsCommand (P.access port.old) (P.access port.new) (SetsItem path index item) result }
{
    match item {
        Err(why) => Ok(CommandReply::Refused { why }),
        Ok(item) => {
            let reply = settled(port.set(rt, alloc, path, index, item))?;
            Ok(done_or(reply))
        }
    }
}

/// Sets an item of the key that was got.
fn set_in<R: Wait, P: DatabasePort>(
    rt: &R,
    alloc: Global,
    port: &mut P,
    path: Path,
    index: u32,
    text: &[u8],
    got: Result<Value, OdbRefusal>,
) -> Result<CommandReply, NoMemory>
    ensures { EndsCommand (P.access port.old) (P.access port.new) (SetsIn path index text.now got)
        result }
{
    match got {
        Err(why) => Ok(refused_by(why)),
        Ok(value) => {
            let item = item_for(alloc, &value, index, text)?;
            set_item(rt, alloc, port, path, index, item)
        }
    }
}

/// The command at this path.
fn set_at<R: Wait, P: DatabasePort>(
    rt: &R,
    alloc: Global,
    port: &mut P,
    path: Path,
    index: u32,
    text: &[u8],
) -> Result<CommandReply, NoMemory>
    ensures { EndsCommand (P.access port.old) (P.access port.new) (Sets index text.now path) result }
{
    let copy = path.try_clone(alloc)?;
    let got = settled(port.get(rt, alloc, copy))?;
    set_in(rt, alloc, port, path, index, text, got)
}

/// The command `set`: sets an item of the key at the path of this text, as the other text spells it.
fn set<R: Wait, P: DatabasePort>(
    rt: &R,
    alloc: Global,
    port: &mut P,
    path: &[u8],
    index: u32,
    text: &[u8],
) -> Result<CommandReply, NoMemory>
    ensures { EndsCommand (P.access port.old) (P.access port.new)
        (AtPath (path_reply path.now) (Sets index text.now)) result }
{
    match read_path(alloc, path)? {
        Err(why) => Ok(no_path(why)),
        Ok(path) => set_at(rt, alloc, port, path, index, text),
    }
}

/// The reply with the lines of the key in this row.
fn key_named<R: Wait, P: DatabasePort>(
    rt: &R,
    alloc: Global,
    port: &mut P,
    value: Value,
    row: u32,
) -> Result<CommandReply, NoMemory>
    ensures { EndsCommand (P.access port.old) (P.access port.new) (Names value row) result }
{
    let path = port.path_of(rt, alloc, row)?;
    let path = path.unwrap_or(Path::root(alloc));
    Ok(CommandReply::Key { path, value })
}

/// The reply with the lines of the key that was found.
fn key_found<R: Wait, P: DatabasePort>(
    rt: &R,
    alloc: Global,
    port: &mut P,
    value: Value,
    found: Result<u32, OdbRefusal>,
) -> Result<CommandReply, NoMemory>
    ensures { EndsCommand (P.access port.old) (P.access port.new) (NamesFound value found) result }
{
    match found {
        Err(why) => Ok(refused_by(why)),
        Ok(row) => key_named(rt, alloc, port, value, row),
    }
}

/// The reply with a key's lines, or with one item.
fn shown<R: Wait, P: DatabasePort>(
    rt: &R,
    alloc: Global,
    port: &mut P,
    path: Path,
    index: Option<u32>,
    value: Value,
) -> Result<CommandReply, NoMemory>
    ensures { EndsCommand (P.access port.old) (P.access port.new) (Shows path index value) result }
{
    match index {
        Some(index) => one_of(alloc, &value, index),
        None => {
            let found = settled(port.find(rt, alloc, path))?;
            key_found(rt, alloc, port, value, found)
        }
    }
}

/// The reply with what was got.
fn get_in<R: Wait, P: DatabasePort>(
    rt: &R,
    alloc: Global,
    port: &mut P,
    path: Path,
    index: Option<u32>,
    got: Result<Value, OdbRefusal>,
) -> Result<CommandReply, NoMemory>
    ensures { EndsCommand (P.access port.old) (P.access port.new) (GetsIn path index got) result }
{
    match got {
        Err(why) => Ok(refused_by(why)),
        Ok(value) => shown(rt, alloc, port, path, index, value),
    }
}

/// The command at this path.
fn get_at<R: Wait, P: DatabasePort>(
    rt: &R,
    alloc: Global,
    port: &mut P,
    path: Path,
    index: Option<u32>,
) -> Result<CommandReply, NoMemory>
    ensures { EndsCommand (P.access port.old) (P.access port.new) (Gets index path) result }
{
    let copy = path.try_clone(alloc)?;
    let got = settled(port.get(rt, alloc, copy))?;
    get_in(rt, alloc, port, path, index, got)
}

/// The command `get`: the value of the key at the path of this text, or one item of it.
fn get<R: Wait, P: DatabasePort>(
    rt: &R,
    alloc: Global,
    port: &mut P,
    path: &[u8],
    index: Option<u32>,
) -> Result<CommandReply, NoMemory>
    ensures { EndsCommand (P.access port.old) (P.access port.new)
        (AtPath (path_reply path.now) (Gets index)) result }
{
    match read_path(alloc, path)? {
        Err(why) => Ok(no_path(why)),
        Ok(path) => get_at(rt, alloc, port, path, index),
    }
}

/// The command at this path.
fn list_at<R: Wait, P: DatabasePort>(
    rt: &R,
    alloc: Global,
    port: &mut P,
    path: Path,
) -> Result<CommandReply, NoMemory>
    ensures { EndsCommand (P.access port.old) (P.access port.new) (Lists path) result }
{
    let children = settled(port.list(rt, alloc, path))?;
    Ok(listed_or(children))
}

/// The command `ls`: what stands in the directory at the path of this text.
fn list<R: Wait, P: DatabasePort>(
    rt: &R,
    alloc: Global,
    port: &mut P,
    path: &[u8],
) -> Result<CommandReply, NoMemory>
    ensures { EndsCommand (P.access port.old) (P.access port.new)
        (AtPath (path_reply path.now) Lists) result }
{
    match read_path(alloc, path)? {
        Err(why) => Ok(no_path(why)),
        Ok(path) => list_at(rt, alloc, port, path),
    }
}

/// The command at this path.
fn remove_at<R: Wait, P: DatabasePort>(rt: &R, port: &mut P, path: Path) -> CommandReply
    requires main { (P.access port.old).caller ≡ main_caller }
    ensures { Answers (P.access port.old) (P.access port.new) (RemovesKey path) result }
{
    if is_protected(path.names()) {
        return CommandReply::Refused {
            why: CommandRefusal::Protected,
        };
    }
    done_or(port.delete(rt, path))
}

/// The command `rm`: removes the row at the path of this text and all below it, unless it is protected.
fn remove<R: Wait, P: DatabasePort>(
    rt: &R,
    alloc: Global,
    port: &mut P,
    path: &[u8],
) -> Result<CommandReply, NoMemory>
    requires main { (P.access port.old).caller ≡ main_caller }
    ensures { EndsCommand (P.access port.old) (P.access port.new)
        (AtPath (path_reply path.now) RemovesKey) result }
{
    match read_path(alloc, path)? {
        Err(why) => Ok(no_path(why)),
        Ok(path) => Ok(remove_at(rt, port, path)),
    }
}

/// The command, by its case.
fn answer<R: Wait, P: DatabasePort>(
    rt: &R,
    alloc: Global,
    port: &mut P,
    command: &RowCommand<'_>,
) -> Result<CommandReply, NoMemory>
    requires main { (P.access port.old).caller ≡ main_caller }
    ensures { EndsCommand (P.access port.old) (P.access port.new) (Performs command.now) result }
{
    match command {
        RowCommand::Create { tid, path, len } => {
            let kind = NewKey::Keys {
                tid: *tid,
                len: *len,
            };
            create(rt, alloc, port, path.as_slice(), kind)
        }
        RowCommand::CreateDir { path } => create(rt, alloc, port, path.as_slice(), NewKey::Dir),
        RowCommand::Link { path, target } => {
            link(rt, alloc, port, path.as_slice(), target.as_slice())
        }
        RowCommand::Set { path, index, value } => {
            set(rt, alloc, port, path.as_slice(), *index, value.as_slice())
        }
        RowCommand::Get { path, index } => get(rt, alloc, port, path.as_slice(), *index),
        RowCommand::List { path } => list(rt, alloc, port, path.as_slice()),
        RowCommand::Remove { path } => remove(rt, alloc, port, path.as_slice()),
    }
}

/// Answers a command on the rows of the database, by the main thread: makes its calls, each once and in order, and gives the
/// reply. Where memory ends, the first of its calls were made, the last of them maybe with that reply, and all of them only
/// where its own reply takes memory behind them.
pub fn run_command<R: Wait, P: DatabasePort>(
    rt: &R,
    alloc: Global,
    port: &mut P,
    command: &RowCommand<'_>,
) -> Result<CommandReply, NoMemory>
    requires main { (P.access port.old).caller ≡ main_caller }
    ensures ends { EndsCommand (P.access port.old) (P.access port.new) (Performs command.now)
        result }
    ensures same { IsSamePort (P.access port.old) (P.access port.new) }
{
    calls_add_up();
    answer(rt, alloc, port, command)
}
