//! What the errors of paths say to a user.
use odb_value::PathRefusal;
use std::alloc::{AllocError, Global};

/// Why a text is no path, and what the error says.
const REFUSALS: &[(PathRefusal, &str)] = &[
    (PathRefusal::EmptyName, "a name of the path is empty"),
    (
        PathRefusal::LongName,
        "a name of the path has more than 31 bytes",
    ),
    (
        PathRefusal::BadByte { at: 3 },
        "byte 3 of the path belongs to no name",
    ),
    (PathRefusal::TooDeep, "the path has more than 32 names"),
    (PathRefusal::NoMemory, "there was no memory for the path"),
];

/// Whether the error says this.
fn says(alloc: Global, refusal: &PathRefusal, text: &str) -> Result<bool, AllocError> {
    let said = format!(in alloc; "{refusal}")?;
    Ok(said.as_str() == text)
}

#[test]
fn refusals_of_paths(rt: HostRuntime) {
    for (refusal, text) in REFUSALS {
        assert!(rt;
            matches!(says(rt.alloc(), refusal, text), Ok(true)),
            "{text}"
        );
    }
}
