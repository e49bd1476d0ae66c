//! What one reply more adds to the console text and to the lines that were refused.
ghost use Rattle.std.specs.Prelude.{◌≡◌, ◌+◌, ◌++◌, ◌∷◌, [], List, ℕ, length};
ghost use Rattle.console.specs.declared.replies.Reply.{Reply};
ghost use Rattle.console.specs.declared.refusals.Refusals.{Refusals};
ghost use Rattle.console.specs.Console.{console_text, line_if, refused_lines, refuses_line, text_of};
ghost use Rattle.console.specs.Refused.{CountsRefusals, refusals_after};

/// A reply more prints its text behind that of the others.
pub fn text_grows()
    ensures { (line : ℕ) (replies : List Reply) (reply : Reply)
        → console_text line (replies ++ reply ∷ [])
        ≡ console_text line replies ++ text_of (line + length replies) reply }
{}

/// A reply more adds its line behind the lines that were refused, where it refuses it; and where these are counted, the
/// count that noted it counts them all.
pub fn refusals_grow()
    ensures lines { (line : ℕ) (replies : List Reply) (reply : Reply)
        → refused_lines line (replies ++ reply ∷ []) ≡ refused_lines line replies
        ++ line_if (refuses_line reply) (line + length replies) }
    ensures counted { (replies : List Reply) (reply : Reply) (refusals : Refusals)
        → CountsRefusals (refused_lines 1 replies) refusals
        → CountsRefusals (refused_lines 1 (replies ++ reply ∷ []))
        (refusals_after refusals (1 + length replies) (refuses_line reply)) }
{}
