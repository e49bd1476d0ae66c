//! The files behind the word of a tool.
ghost use Rattle.std.specs.Prelude.{◌≡◌, ◌≤◌, ◌↔◌, List, ℕ, All, IfOk, drop, length, take, true};
ghost use Rattle.command_words.specs.CommandLine.{FormIs, IsFileWord, IsToolCall};
ghost use Rattle.command_words.specs.declared.forms.Tool.{Tool};

use crate::forms::{Form, file_word, most_files};
use daq_types::{FileName, NoMemory, Words};
use std::alloc::Global;

/// Whether the words behind the first two name files.
fn are_files(words: &Words) -> bool
    requires { length words.now ≤ 4294967295 }
    ensures { (result ≡ true) ↔ All IsFileWord (drop 2 words.now) }
{
    for at in 2..words.len() {
        let Some(word) = words.get(at as u32) else {
            return true;
        };
        if file_word(word).is_none() {
            return false;
        }
    }
    true
}

/// The form of the words, of which the first two have this one.
pub(crate) fn with_files(first: Option<Form>, words: &Words) -> Option<Form>
    requires { FormIs (take 2 words.now) first }
    ensures { FormIs words.now result }
{
    if words.len() <= 2 {
        return first;
    }
    match first {
        Some(Form::OnFiles { tool }) if words.len() - 1 <= most_files(tool) && are_files(words) => {
            first
        }
        _ => None,
    }
}

/// The names of files behind the word of a tool.
pub fn file_names(alloc: Global, words: &Words) -> Result<Vec<FileName>, NoMemory>
    requires { (tool : Tool) × IsToolCall tool words.now }
    ensures { IfOk result (λ names. names.items ≡ drop 1 words.now) }
{
    let mut names = Vec::with_capacity(alloc, words.len() - 1)?;
    for at in 1..words.len() {
        let Some(word) = words.get(at as u32) else {
            unreachable!();
        };
        let Some(name) = file_word(word) else {
            unreachable!();
        };
        names.push(name)?;
    }
    Ok(names)
}
