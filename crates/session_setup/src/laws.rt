//! What the contracts of declarations leave no choice of. The function does nothing, and its contract is the law.

ghost use Rattle.std.specs.Prelude.{◌≡◌, ℕ, Bool, List, Option};
ghost use Rattle.mid_logger.specs.Patterns.{NamePattern};
ghost use Rattle.session_setup.specs.Refusals.{NameRead, IsNameRead};
ghost use Rattle.session_setup.specs.SetupLines.{IsPatternRead};

use sub_files::laws::one_pattern;

/// A text is read in one way, as a name and as a pattern: so each line that declares something has one answer.
pub fn read_once()
    ensures name { (text : List ℕ) (a b : NameRead) → IsNameRead text a → IsNameRead text b
        → a ≡ b }
    ensures pattern { (text : List ℕ) (limited : Bool) (a b : Option NamePattern)
        → IsPatternRead text limited a → IsPatternRead text limited b → a ≡ b }
{
    one_pattern();
}
