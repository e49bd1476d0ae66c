//! Lists of words, and the forms that they have.
use command_words::{Form, Tool, file_names, form_of};
use daq_types::{FileName, NoMemory, Words};
use std::alloc::{AllocError, Global};

/// Lists of words that have no form.
const REFUSED: &[&[&str]] = &[
    &[],
    &[""],
    &["-"],
    &["--"],
    &["-h"],
    &["-\u{e9}"],
    &["--help"],
    &["--version"],
    &["help"],
    &["help", "run"],
    &["Run"],
    &["ru"],
    &["run "],
    &["run", ""],
    &["run", "--"],
    &["run", "-c"],
    &["run", "--help"],
    &["run", "run"],
    &["run", "cooperative"],
    &["run", "--coop"],
    &["run", "--cooperative="],
    &["run", "--cooperative=true"],
    &["run", "--cooperative", "--cooperative"],
    &["run", "--cooperative", "true"],
    &["run", "--cooperative", "--"],
    &["--cooperative", "run"],
    &["check"],
    &["check", "--"],
    &["check", "--", "run00001.mid"],
    &["check", "-x"],
    &["check", "--help"],
    &["check", ""],
    &["check", "two words"],
    &["check", "\u{e9}.mid"],
    &["check", "a.mid", "-x"],
    &["check", "a.mid", "--"],
    &["check", "a.mid", "b.mid", ""],
    &["analyze", "a.mid", "b.mid", "two words", "c.mid"],
    &["dump", "a.mid", "b.mid"],
    &["run", "a.mid", "b.mid"],
    &["run", "--cooperative", "a.mid"],
    &["analyse", "a.mid"],
    &["a.mid", "check"],
    &["gen"],
    &["gen", ""],
    &["gen", "+5"],
    &["gen", "-5"],
    &["gen", "0x5"],
    &["gen", "5 "],
    &["gen", "4294967296"],
    &["gen", "00000000004294967296"],
    &["gen", "1", "2"],
];

/// Lists of words, and their forms. The words of a tool behind its own name its files.
const FORMS: &[(&[&str], Form)] = &[
    (&["run"], Form::Run { cooperative: false }),
    (&["run", "--cooperative"], Form::Run { cooperative: true }),
    (
        &["check", "run00001.mid"],
        Form::OnFiles { tool: Tool::Check },
    ),
    (
        &["dump", "run00001.mid.gz"],
        Form::OnFiles { tool: Tool::Dump },
    ),
    (
        &["analyze", "data/run00001.mid"],
        Form::OnFiles {
            tool: Tool::Analyze,
        },
    ),
    (&["check", "-"], Form::OnFiles { tool: Tool::Check }),
    (&["dump", "a-b"], Form::OnFiles { tool: Tool::Dump }),
    (&["check", "check"], Form::OnFiles { tool: Tool::Check }),
    (&["check", "help"], Form::OnFiles { tool: Tool::Check }),
    (
        &["analyze", "name=value"],
        Form::OnFiles {
            tool: Tool::Analyze,
        },
    ),
    (
        &["check", "a.mid", "b.mid"],
        Form::OnFiles { tool: Tool::Check },
    ),
    (
        &["analyze", "b.mid", "-", "run", "b.mid"],
        Form::OnFiles {
            tool: Tool::Analyze,
        },
    ),
    (&["gen", "0"], Form::Generate { number: 0 }),
    (&["gen", "007"], Form::Generate { number: 7 }),
    (&["gen", "42"], Form::Generate { number: 42 }),
    (
        &["gen", "4294967295"],
        Form::Generate {
            number: 4_294_967_295,
        },
    ),
    (
        &["gen", "00000000004294967295"],
        Form::Generate {
            number: 4_294_967_295,
        },
    ),
];

/// The words of a list.
fn words_of(alloc: Global, list: &[&str]) -> Result<Words, NoMemory> {
    let mut words = Words::new(alloc);
    for word in list {
        words.add(alloc, word)?;
    }
    Ok(words)
}

/// The form of these words.
fn read(alloc: Global, list: &[&str]) -> Result<Option<Form>, NoMemory> {
    let words = words_of(alloc, list)?;
    form_of(alloc, &words)
}

/// Whether the words have no form.
fn has_none(alloc: Global, list: &[&str]) -> Result<bool, NoMemory> {
    Ok(read(alloc, list)?.is_none())
}

#[test]
fn words_of_no_form(rt: HostRuntime) {
    for words in REFUSED {
        let is_right = has_none(rt.alloc(), words);
        assert!(rt; matches!(is_right, Ok(true)), "{words:?}");
    }
}

/// Whether these are the names of the words behind the first.
fn are_names(names: &[FileName], list: &[&str]) -> bool {
    names.len() + 1 == list.len()
        && names
            .iter()
            .zip(list.iter().skip(1))
            .all(|(name, word)| name.as_slice() == word.as_bytes())
}

/// Whether the words have this form, and, where it is a tool's, name its files.
fn has(alloc: Global, list: &[&str], form: Form) -> Result<bool, NoMemory> {
    let words = words_of(alloc, list)?;
    let found = form_of(alloc, &words)?;
    if let Some(Form::OnFiles { .. }) = found {
        let names = file_names(alloc, &words)?;
        return Ok(found == Some(form) && are_names(names.as_slice(), list));
    }
    Ok(found == Some(form))
}

#[test]
fn words_of_each_form(rt: HostRuntime) {
    for (words, form) in FORMS {
        let is_right = has(rt.alloc(), words, *form);
        assert!(rt; matches!(is_right, Ok(true)), "{words:?}");
    }
}

/// Whether a tool takes 10,000 files and no more.
fn are_many(alloc: Global) -> Result<bool, NoMemory> {
    let mut words = words_of(alloc, &["check"])?;
    for _ in 0..10_000 {
        words.add(alloc, "a")?;
    }
    let most = form_of(alloc, &words)?;
    words.add(alloc, "a")?;
    let more = form_of(alloc, &words)?;
    Ok(most == Some(Form::OnFiles { tool: Tool::Check }) && more.is_none())
}

#[test]
fn many_words(rt: HostRuntime) {
    assert!(rt; matches!(are_many(rt.alloc()), Ok(true)));
}

/// So many of these bytes, and then this text.
fn long_word(alloc: Global, byte: char, count: usize, rest: &str) -> Result<String, AllocError> {
    let mut text = String::new(alloc);
    for _ in 0..count {
        text.push(byte)?;
    }
    text.push_str(rest)?;
    Ok(text)
}

/// The form of this word, and a second that is so long.
fn read_long(
    alloc: Global,
    word: &str,
    byte: char,
    count: usize,
    rest: &str,
) -> Result<Option<Form>, NoMemory> {
    let text = long_word(alloc, byte, count, rest)?;
    read(alloc, [word, text.as_str()].as_slice())
}

/// Whether a name of 255 bytes has a form and one of 256 has none, and zeros before a number change nothing.
fn are_long(alloc: Global) -> Result<bool, NoMemory> {
    let longest = read_long(alloc, "check", 'x', 255, "")?;
    let longer = read_long(alloc, "check", 'x', 256, "")?;
    let zeros = read_long(alloc, "gen", '0', 5000, "7")?;
    Ok(longest.is_some() && longer.is_none() && zeros == Some(Form::Generate { number: 7 }))
}

#[test]
fn long_words(rt: HostRuntime) {
    assert!(rt; matches!(are_long(rt.alloc()), Ok(true)));
}
