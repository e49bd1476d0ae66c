//! What follows from the definitions of forms.
ghost use Rattle.std.specs.Prelude.{◌≡◌, List, ℕ};
ghost use Rattle.command_words.specs.CommandLine.{IsForm};

use crate::forms::Form;

/// Words have one form at most.
pub fn one_form()
    ensures { (words : List (List ℕ)) (a b : Form) → IsForm a words → IsForm b words → a ≡ b }
{}
