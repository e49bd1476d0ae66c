ghost use Rattle.std.specs.Prelude.{◌≡◌, ◌≤◌, ◌<◌, ◌++◌, ◌∷◌, [], length, slice_get};

use std::marker::Model;

/// The ids of the events of a builder's front-ends, in order: 2 to 8 of them.
#[derive(Drop)]
pub struct FrontIds {
    ids: [u16; 8],
    count: usize,
}

impl Model for FrontIds {
    ghost use Rattle.std.specs.Prelude.{List, ℕ, ◌≤◌, take};

    ghost Value = { List ℕ };

    ghost view = { λ f. take f.count f.ids };

    ghost invariant = { λ f. (2 ≤ f.count) × (f.count ≤ 8) };
}

impl FrontIds {
    /// Those of two front-ends.
    pub fn of(first: u16, second: u16) -> FrontIds
        ensures { result ≡ first ∷ second ∷ [] }
    {
        FrontIds {
            ids: [first, second, 0, 0, 0, 0, 0, 0],
            count: 2,
        }
    }

    /// That of one front-end more.
    pub fn push(&mut self, id: u16)
        requires { length self.old < 8 }
        ensures { self.new ≡ self.old ++ id ∷ [] }
    {
        self.ids[self.count] = id;
        self.count += 1;
    }

    /// How many there are.
    pub fn len(&self) -> usize
        ensures len { result ≡ length self.now }
        ensures some { 2 ≤ result }
        ensures few { result ≤ 8 }
    {
        self.count
    }

    /// The one at this place.
    #[tactic(auto, using(std::proofs::lemmas::Option::gets, std::proofs::lemmas::Grind::common_steps))]
    pub fn get(&self, place: usize) -> Option<u16>
        ensures { result ≡ slice_get self.now place }
    {
        if place < self.count {
            Some(self.ids[place])
        } else {
            None
        }
    }
}
