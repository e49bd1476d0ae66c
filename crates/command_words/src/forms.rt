ghost use Rattle.std.specs.Prelude.{◌≡◌, ◌≢◌, ◌∷◌, [], IfSome, IfNone, MatchOption, codes};
ghost use Rattle.command_words.specs.CommandLine.{FormIs, IsFileWord, IsNumberWord, is_flag, most_files, tool_word};

use daq_types::FileName;

/// A tool that reads run files.
#[derive(Clone, Copy, Debug, PartialEq, Eq)]
pub enum Tool {
    Check,
    Dump,
    Analyze,
}

/// A form that the words of the command line may have.
#[derive(Clone, Copy, Debug, PartialEq, Eq)]
pub enum Form {
    /// A session is run; `cooperative` says that the main thread gives all members their turns.
    Run { cooperative: bool },
    /// A tool reads the files that the words behind the first name.
    OnFiles { tool: Tool },
    /// A script is written, the one of this number.
    Generate { number: u32 },
}

/// The tool of a word.
pub(crate) fn tool_of(word: &str) -> Option<Tool>
    ensures found { IfSome result (λ tool. word.now ≡ tool_word tool) }
    ensures none { IfNone result ((tool : Tool) → word.now ≢ tool_word tool) }
{
    match word {
        "check" => Some(Tool::Check),
        "dump" => Some(Tool::Dump),
        "analyze" => Some(Tool::Analyze),
        _ => None,
    }
}

/// Whether a word begins with `-` and is longer.
fn is_flag(word: &[u8]) -> bool
    ensures { result ≡ is_flag word.now }
{
    word.len() > 1 && word[0] == b'-'
}

/// How many files a tool reads at most: `check` and `analyze` read those of one run.
pub(crate) fn most_files(tool: Tool) -> usize
    ensures { result ≡ most_files tool }
{
    match tool {
        Tool::Check | Tool::Analyze => 10_000,
        Tool::Dump => 1,
    }
}

/// The file that a word names; none where the word is no name of a file, or a flag.
pub(crate) fn file_word(word: &str) -> Option<FileName>
    ensures { MatchOption result (¬ IsFileWord word.now)
        (λ name. (name ≡ word.now) × IsFileWord word.now) }
{
    if is_flag(word.as_bytes()) {
        return None;
    }
    FileName::new(word).ok()
}

/// The number that a word writes; none where it has another byte than digits, or the number is too large.
fn number_word(word: &str) -> Option<u32>
    ensures found { IfSome result (λ number. IsNumberWord number word.now) }
    ensures none { IfNone result ((number : _) → ¬ IsNumberWord number word.now) }
{
    if word.starts_with('+') {
        return None;
    }
    word.parse::<u32>().ok()
}

/// The form of a tool's word and the word behind it.
pub(crate) fn form_on_file(tool: Tool, word: &str) -> Option<Form>
    ensures { FormIs (tool_word tool ∷ word.now ∷ []) result }
{
    let _name = file_word(word)?;
    Some(Form::OnFiles { tool })
}

/// The form of the word `gen` and the word behind it.
pub(crate) fn form_generate(word: &str) -> Option<Form>
    ensures { FormIs (codes "gen" ∷ word.now ∷ []) result }
{
    let number = number_word(word)?;
    Some(Form::Generate { number })
}
