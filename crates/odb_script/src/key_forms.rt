//! The forms of the commands `create`, `link`, `set` and `get`.
ghost use Rattle.std.specs.Prelude.{◌≡◌};
ghost use Rattle.odb_script.specs.Forms.{directory_form, value_form, create_form, link_form, set_end, set_form, get_form};

use crate::commands::{Command, RowCommand, on_rows};
use crate::line_text::LineText;
use crate::pieces::{end, is_name, last_number, only_text, text, type_of, word_number};
use crate::refusals::LineRefusal;
use crate::words::{NextWord, WordReader};
use daq_types::Tid;

/// `create DIR PATH`
fn read_directory<'a>(words: &mut WordReader<'a>) -> Result<Command<'a>, LineRefusal>
    ensures { result ≡ directory_form words.old }
{
    let path = only_text(words)?;
    Ok(on_rows(RowCommand::CreateDir { path }))
}

/// `create TYPE PATH [LEN]`, where the type's name stands at this place.
fn read_value<'a>(
    at: u32,
    tid: Option<Tid>,
    words: &mut WordReader<'a>,
) -> Result<Command<'a>, LineRefusal>
    ensures { result ≡ value_form at tid words.old }
{
    let Some(tid) = tid else {
        return Err(LineRefusal::BadCommand { at });
    };
    let path = text(words)?;
    let len = last_number(words)?.unwrap_or(1);
    Ok(on_rows(RowCommand::Create { tid, path, len }))
}

/// `create DIR PATH` or `create TYPE PATH [LEN]`
pub(crate) fn read_create<'a>(words: &mut WordReader<'a>) -> Result<Command<'a>, LineRefusal>
    ensures { result ≡ create_form words.old }
{
    match words.next() {
        NextWord::Word { at, text } => {
            if is_name(text.as_slice(), "DIR") {
                read_directory(words)
            } else {
                read_value(at, type_of(text.as_slice()), words)
            }
        }
        NextWord::End { at } | NextWord::Faulty { at } => Err(LineRefusal::BadCommand { at }),
    }
}

/// `link PATH TARGET`
pub(crate) fn read_link<'a>(words: &mut WordReader<'a>) -> Result<Command<'a>, LineRefusal>
    ensures { result ≡ link_form words.old }
{
    let path = text(words)?;
    let target = only_text(words)?;
    Ok(on_rows(RowCommand::Link { path, target }))
}

/// What stands behind `set PATH` and one more word.
fn read_set_end<'a>(
    path: LineText<'a>,
    first: LineText<'a>,
    index: Option<u32>,
    words: &mut WordReader<'a>,
) -> Result<Command<'a>, LineRefusal>
    ensures { result ≡ set_end path.entry first.entry index words.old }
{
    match words.next() {
        NextWord::End { .. } => Ok(on_rows(RowCommand::Set {
            path,
            index: 0,
            value: first,
        })),
        NextWord::Faulty { at } => Err(LineRefusal::BadCommand { at }),
        NextWord::Word { at, text } => match index {
            None => Err(LineRefusal::BadCommand { at }),
            Some(index) => {
                end(words)?;
                Ok(on_rows(RowCommand::Set {
                    path,
                    index,
                    value: text,
                }))
            }
        },
    }
}

/// `set PATH [INDEX] VALUE`
pub(crate) fn read_set<'a>(words: &mut WordReader<'a>) -> Result<Command<'a>, LineRefusal>
    ensures { result ≡ set_form words.old }
{
    let path = text(words)?;
    let first = text(words)?;
    let index = word_number(&first, u32::MAX);
    read_set_end(path, first, index, words)
}

/// `get PATH [INDEX]`
pub(crate) fn read_get<'a>(words: &mut WordReader<'a>) -> Result<Command<'a>, LineRefusal>
    ensures { result ≡ get_form words.old }
{
    let path = text(words)?;
    let index = last_number(words)?;
    Ok(on_rows(RowCommand::Get { path, index }))
}
