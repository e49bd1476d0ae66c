//! Laws of patterns, of cuts and of files: each function does nothing, and its contract is the law.

ghost use Rattle.std.specs.Prelude.{◌≡◌, ◌≢◌, ◌≤◌, ◌∷◌, [], ℕ, Bool, false, List, length};
ghost use Rattle.daq_types.specs.declared.events.Event.{Event};
ghost use Rattle.sub_files.specs.Patterns.{NamePattern, IsPattern, pattern_text};
ghost use Rattle.sub_files.specs.Cuts.{IsCut};
ghost use Rattle.sub_files.specs.Pieces.{FilesOfRun};
ghost use Rattle.sub_files.specs.SampleCuts.{CutsSamples};

/// No two patterns have the same text.
pub fn one_pattern()
    ensures { (p q : NamePattern) → IsPattern p → IsPattern q → pattern_text p ≡ pattern_text q
        → p ≡ q }
{}

/// With a limit, events are cut into so many pieces in one way at the most; where no next name was found taken, and there are
/// at most 10,000 pieces, they are cut in one way at the most. Without a limit all events are one piece.
pub fn one_cut()
    ensures many { (limit head : ℕ) (events : List Event) (taken other : Bool)
        (p q : List (List Event)) → limit ≢ 0 → IsCut limit head events taken p
        → IsCut limit head events other q → length p ≡ length q → p ≡ q }
    ensures free { (limit head : ℕ) (events : List Event) (p q : List (List Event)) → limit ≢ 0
        → length p ≤ 10000 → length q ≤ 10000 → IsCut limit head events false p
        → IsCut limit head events false q → p ≡ q }
    ensures unlimited { (head : ℕ) (events : List Event) (taken : Bool)
        (pieces : List (List Event)) → IsCut 0 head events taken pieces → pieces ≡ events ∷ [] }
{}

/// How three events are cut, and how they are not.
pub fn sample_cuts()
    ensures { CutsSamples }
{}

/// What each file of a run that is closed holds, by its number.
pub fn files_of_run()
    ensures { FilesOfRun }
{}
