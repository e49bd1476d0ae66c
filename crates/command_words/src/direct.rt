//! The form of words, told without memory, for where there is none to read them with.
ghost use Rattle.std.specs.Prelude.{◌∷◌, [], take};
ghost use Rattle.command_words.specs.CommandLine.{FormIs};

use crate::files::with_files;
use crate::forms::{Form, form_generate, form_on_file, tool_of};
use daq_types::Words;

/// The form of one word.
fn form_of_one(word: &str) -> Option<Form>
    ensures { FormIs (word.now ∷ []) result }
{
    if word == "run" {
        return Some(Form::Run { cooperative: false });
    }
    None
}

/// The form of two words.
fn form_of_two(first: &str, second: &str) -> Option<Form>
    ensures { FormIs (first.now ∷ second.now ∷ []) result }
{
    if first == "gen" {
        return form_generate(second);
    }
    if let Some(tool) = tool_of(first) {
        return form_on_file(tool, second);
    }
    if first == "run" && second == "--cooperative" {
        return Some(Form::Run { cooperative: true });
    }
    None
}

/// The form of the first two words.
fn form_of_first(words: &Words) -> Option<Form>
    ensures { FormIs (take 2 words.now) result }
{
    let first = words.get(0)?;
    match words.get(1) {
        None => form_of_one(first),
        Some(second) => form_of_two(first, second),
    }
}

/// The form of the words; none exactly where they have none.
pub(crate) fn direct_form(words: &Words) -> Option<Form>
    ensures { FormIs words.now result }
{
    with_files(form_of_first(words), words)
}
