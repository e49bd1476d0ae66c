ghost use Rattle.std.specs.Prelude.{◌≡◌, ◌≤◌, ◌∷◌, [], Bool, List, ℕ, IfOk, OnErr, Some, None, false, codes, length, map, take};
ghost use Rattle.clap.specs.Words.{Row, app_of, first_of, one_of, shape_of, subcommand_rows_of};
ghost use Rattle.command_words.specs.CommandLine.{FormIs, HasForm, tool_word};
ghost use Rattle.command_words.specs.declared.forms.Tool.{Tool};
ghost use Rattle.command_words.specs.Reader.{flag_text, has_separator, midas_app, one_word, run_shape};

use crate::direct::direct_form;
use crate::files::with_files;
use crate::forms::{Form, form_generate, form_on_file, tool_of};
use clap::error::ErrorKind;
use clap::{Arg, ArgAction, ArgMatches, Command};
use daq_types::{NoMemory, Words};
use std::alloc::{AllocError, Global};

/// The subcommand `run`, with its flag.
fn run_command<'a>(alloc: Global) -> Result<Command<'a>, AllocError>
    ensures { IfOk result (λ c. shape_of c ≡ run_shape) }
{
    let cooperative = Arg::new(alloc, "cooperative")
        .long("cooperative")
        .action(ArgAction::SetTrue);
    Command::new(alloc, "run").arg(cooperative)
}

/// A subcommand that takes one word.
fn one_word_command<'a>(
    alloc: Global,
    name: &'a str,
    id: &'a str,
) -> Result<Command<'a>, AllocError>
    ensures { IfOk result (λ c. shape_of c ≡ one_word name.entry.now id.entry.now) }
{
    let word = Arg::new(alloc, id).required(true);
    Command::new(alloc, name).arg(word)
}

/// The command with all its subcommands. It has neither help nor version.
fn command<'a>(alloc: Global) -> Result<Command<'a>, AllocError>
    ensures { IfOk result (λ c. app_of c ≡ midas_app) }
{
    Command::new(alloc, "midas")
        .no_binary_name(true)
        .disable_help_flag(true)
        .disable_help_subcommand(true)
        .disable_version_flag(true)
        .subcommand(run_command(alloc)?)?
        .subcommand(one_word_command(alloc, "check", "FILE")?)?
        .subcommand(one_word_command(alloc, "dump", "FILE")?)?
        .subcommand(one_word_command(alloc, "analyze", "FILE")?)?
        .subcommand(one_word_command(alloc, "gen", "N")?)
}

/// The form that the matches of the command tell.
fn form_in(matches: &ArgMatches<'_>) -> Option<Form>
    ensures none { subcommand_rows_of matches.now ≡ None → result ≡ None }
    ensures run { (cooperative : Bool) (rows : List Row)
        → subcommand_rows_of matches.now ≡ Some (codes "run", rows)
        → one_of (codes "cooperative") rows ≡ Some (flag_text cooperative)
        → result ≡ Some (Form.Run cooperative) }
    ensures file { (tool : Tool) (word : List ℕ) (rows : List Row)
        → subcommand_rows_of matches.now ≡ Some (tool_word tool, rows)
        → first_of (codes "FILE") rows ≡ Some word → FormIs (tool_word tool ∷ word ∷ []) result }
    ensures number { (word : List ℕ) (rows : List Row)
        → subcommand_rows_of matches.now ≡ Some (codes "gen", rows)
        → first_of (codes "N") rows ≡ Some word → FormIs (codes "gen" ∷ word ∷ []) result }
{
    let (name, given) = matches.subcommand()?;
    if name == "run" {
        let cooperative = given.get_flag("cooperative");
        return Some(Form::Run { cooperative });
    }
    if name == "gen" {
        return form_generate(given.get_str("N")?);
    }
    form_on_file(tool_of(name)?, given.get_str("FILE")?)
}

/// The form of words none of which is `--`, as the command reads them.
fn form_read(alloc: Global, words: &[&str]) -> Result<Option<Form>, NoMemory>
    requires few { length words.now ≤ 2 }
    requires apart { has_separator (map (λ word. word.now) words.now) ≡ false }
    ensures { IfOk result (FormIs (map (λ word. word.now) words.now)) }
{
    match command(alloc)?.try_get_matches_from(words) {
        Ok(matches) => Ok(form_in(&matches)),
        Err(error) => match error.kind() {
            ErrorKind::OutOfMemory => Err(NoMemory),
            _ => Ok(None),
        },
    }
}

/// The texts of the first two words.
fn first_texts(alloc: Global, words: &Words) -> Result<Vec<&str>, AllocError>
    ensures { IfOk result (λ texts. map (λ word. word.now) texts.items ≡ take 2 words.now) }
{
    let mut texts = Vec::new(alloc);
    for at in 0..words.len().min(2) {
        if let Some(word) = words.get(at as u32) {
            texts.push(word)?;
        }
    }
    Ok(texts)
}

/// The form of the first two words, as the command reads them. Behind these the words of a form name further files.
fn read(alloc: Global, words: &Words) -> Result<Option<Form>, NoMemory>
    ensures { IfOk result (FormIs (take 2 words.now)) }
{
    let texts = first_texts(alloc, words)?;
    // To the reader `--` says that flags end, and no form has it.
    if texts.contains(&"--") {
        return Ok(None);
    }
    form_read(alloc, texts.as_slice())
}

/// The form of the words; none exactly where they have none. FILE is a name of a file that does not begin with `-`, but
/// for `-` alone, and N is decimal digits of a value that fits 32 bits, with any zeros in front. Words of no form are told
/// so even where there is no memory to read them.
pub fn form_of(alloc: Global, words: &Words) -> Result<Option<Form>, NoMemory>
    ensures form { IfOk result (FormIs words.now) }
    ensures no_memory { OnErr result (HasForm words.now) }
{
    match read(alloc, words) {
        Ok(first) => Ok(with_files(first, words)),
        Err(NoMemory) if direct_form(words).is_none() => Ok(None),
        Err(NoMemory) => Err(NoMemory),
    }
}
