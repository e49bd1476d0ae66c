ghost use Rattle.std.specs.Prelude.{◌≡◌, ◌++◌, ◌∷◌, OnOk, ℕ, List};
ghost use Rattle.std.specs.List.{flat_map};
ghost use Rattle.odb_value.specs.PathText.{path_text};

use daq_text::TextBuffer;
use daq_types::{Name, NoMemory};

/// Adds names, each behind a slash.
fn add_names(text: &mut TextBuffer, names: &[Name]) -> Result<(), NoMemory>
    ensures { OnOk result (text.new ≡ text.old ++ flat_map (λ (name : List ℕ). 47 ∷ name)
        names.now) }
{
    for name in names {
        text.text(b"/")?;
        text.text(name.as_slice())?;
    }
    Ok(())
}

/// Adds the text of the path with these names: each behind a slash, from the root down; the root's is a slash alone.
pub fn print_path(names: &[Name], text: &mut TextBuffer) -> Result<(), NoMemory>
    ensures { OnOk result (text.new ≡ text.old ++ path_text names.now) }
{
    if names.is_empty() {
        return text.text(b"/");
    }
    add_names(text, names)
}
