//! Laws of dumps and of texts that are loaded: each function does nothing, and its contract is the law.

ghost use Rattle.std.specs.Prelude.{◌≡◌, ◌≢◌, ◌≤◌, ℕ, Bool, List, [], length, Ok};
ghost use Rattle.std.specs.Str.Lines.{lines};
ghost use Rattle.odb_tree.specs.Rows.{Rows};
ghost use Rattle.odb_tree.specs.Databases.{IsDatabase};
ghost use Rattle.odb_text.specs.Dumps.{dump_text, dump_limit};
ghost use Rattle.odb_text.specs.declared.acts.LoadRefusal.{LoadRefusal};
ghost use Rattle.odb_text.specs.declared.acts.LoadRefusal.TheVariants.{NoMemory as no_memory};
ghost use Rattle.std.specs.List.{AllByRecursion};
ghost use Rattle.odb_text.specs.declared.acts.Act.{Act};
ghost use Rattle.odb_text.specs.TextSteps.{TextStep, after_act, run_steps, IsSoundAct};
ghost use Rattle.odb_text.specs.Grammar.{SpellsSteps};
ghost use Rattle.odb_text.specs.TextFaults.{IsTextFault};
ghost use Rattle.odb_text.specs.DumpSteps.{DumpFollowsWalk, RemakesRows, LoadsAgain};

/// A dump has at most 268,435,456 bytes.
pub fn dump_is_small()
    ensures { (s : Rows) → IsDatabase s → length (dump_text s) ≤ dump_limit }
{}

/// The lines of a dump ask for each row of the walk, in its order, and before them for the root where it has keys.
pub fn dump_follows_walk()
    ensures { (s : Rows) → IsDatabase s → DumpFollowsWalk s }
{}

/// A text that is loaded into a database leaves a database.
pub fn loading_keeps_a_database()
    ensures { (s : Rows) (after : Rows) (text : List (List ℕ)) (steps : List TextStep)
        → IsDatabase s → SpellsSteps s.links 1 [] text steps → run_steps steps s ≡ Ok after
        → IsDatabase after }
{}

/// What a text asks for, where none of it is refused, is sound: paths, and values of keys, or links where the database keeps
/// them. No step changes whether it does.
pub fn texts_are_sound()
    ensures acts { (s : Rows) (after : Rows) (text : List (List ℕ)) (steps : List TextStep)
        → SpellsSteps s.links 1 [] text steps → run_steps steps s ≡ Ok after
        → AllByRecursion (λ step. IsSoundAct s.links step.act) steps }
    ensures links { (s : Rows) (act : Act) → (after_act s act).links ≡ s.links }
{}

/// A dump loads again: its lines ask for steps, and whatever steps they ask for lead from a new database, which keeps links
/// where the first one does, to the same paths and values in the order of the walk; none of them is refused, and none skips
/// a key.
pub fn loads_again()
    ensures steps { (s : Rows) → IsDatabase s → LoadsAgain s }
    ensures remade { (s : Rows) (steps : List TextStep) → IsDatabase s
        → SpellsSteps s.links 1 [] (lines (dump_text s)) steps → RemakesRows s steps }
{}

/// At most one list of steps stands in the grammar with some lines.
pub fn one_list_of_steps()
    ensures { (links : Bool) (number : ℕ) (dir : List (List ℕ)) (lines : List (List ℕ)) (steps : List TextStep)
        (others : List TextStep) → SpellsSteps links number dir lines steps
        → SpellsSteps links number dir lines others → steps ≡ others }
{}

/// A text that asks for steps none of which is refused has no line at fault: so `load` answers a line at fault exactly
/// where there is one, but for want of memory.
pub fn loaded_text_has_no_fault()
    ensures { (s : Rows) (after : Rows) (text : List (List ℕ)) (steps : List TextStep)
        (why : LoadRefusal) → SpellsSteps s.links 1 [] text steps → run_steps steps s ≡ Ok after
        → why ≢ no_memory → IsTextFault s text why → ⊥ }
{}

/// A text has at most one fault: one line, and one thing that is wrong with it.
pub fn text_has_one_fault()
    ensures { (s : Rows) (text : List (List ℕ)) (why : LoadRefusal) (other : LoadRefusal)
        → why ≢ no_memory → other ≢ no_memory → IsTextFault s text why → IsTextFault s text other
        → why ≡ other }
{}
