// How the members of a session heed one another's work.
ghost use Rattle.std.specs.Prelude.{◌≤◌};

use std::hint::spin_loop;
use std::sync::atomic::{AtomicBool, AtomicUsize, Ordering};
use std::thread;

/// The most turns of others' work that a member waits for which finds nothing to do.
pub(crate) const MANY: usize = 64;

/// How often it looks for each of these turns before it gives its processor away.
const LOOKS: usize = 64;

/// How often a member looks whether it may have the floor while nobody works.
const PATIENCE: usize = 4096;

/// How often a member sees others at work at most until it goes on without the floor.
const TURNS: usize = 512;

/// How often a member that gave the floor away looks whether another works.
const PAUSE: usize = 256;

/// How often the main thread looks whether a member works, between two rounds that see nobody at work.
const WATCH: usize = 512;

/// How many such rounds it has in a row before it gives its processor up.
const STILL: u32 = 8;

/// What a member saw that looked for the floor.
enum Noticed {
    /// It has the floor.
    Floor,
    /// Another worked.
    Work,
    /// Nobody worked.
    Nothing,
}

/// What members see of one another's work, at no lock: how often they worked, modulo the size of a word, and whether one has
/// the floor. A member that has it works while the others look on, so that they are not in one another's way at the locks. Both
/// are advice alone: who has waited for some time goes on without.
#[derive(Drop)]
pub(crate) struct Activity {
    worked: AtomicUsize,
    floor: AtomicBool,
}

impl Activity {
    /// Nobody worked yet, and nobody has the floor.
    pub(crate) fn new() -> Activity {
        Activity {
            worked: AtomicUsize::new(0),
            floor: AtomicBool::new(false),
        }
    }

    /// A member had so many turns of work.
    pub(crate) fn add(&self, turns: usize) {
        self.worked.fetch_add(turns, Ordering::SeqCst);
    }

    /// Those that wait for work are to look again.
    pub(crate) fn call(&self) {
        self.add(MANY);
    }

    /// How often members worked.
    fn count(&self) -> usize {
        self.worked.load(Ordering::SeqCst)
    }

    /// Looks so often at most whether members had so many turns of work since this count, and says whether they had.
    fn sees(&self, from: usize, turns: usize, looks: usize) -> bool {
        for _ in 0..looks {
            if self.count().wrapping_sub(from) >= turns {
                return true;
            }
            spin_loop();
        }
        false
    }

    /// Waits until members had so many turns of work, at most `MANY`. It waits for some time only, since not all changes are
    /// counted: where it has looked often the processor is given up once.
    pub(crate) fn wait(&self, turns: usize)
        requires { turns ≤ 64 }
    {
        let from = self.count();
        if !self.sees(from, turns, LOOKS * turns) {
            thread::yield_now();
        }
    }

    /// Waits between two rounds of the main thread, of which so many in a row have seen nobody at work, and says of how many that
    /// is so then. Where members worked it calls those that wait, and waits for many turns. Where they did not it looks for a while
    /// alone, and calls them and gives the processor up now and then, so that what it does besides goes on.
    pub(crate) fn wait_on(&self, still: u32) -> u32 {
        if still == 0 {
            self.call();
            let from = self.count();
            self.wait(MANY);
            return if self.count() == from { 1 } else { 0 };
        }
        if self.sees(self.count(), 1, WATCH) {
            return 0;
        }
        if still < STILL {
            return still + 1;
        }
        self.call();
        thread::yield_now();
        1
    }

    /// Takes the floor, if nobody has it, and says whether it did.
    fn try_claim(&self) -> bool {
        !self.floor.load(Ordering::SeqCst) && !self.floor.swap(true, Ordering::SeqCst)
    }

    /// Looks for the floor until another works.
    fn look(&self) -> Noticed {
        let from = self.count();
        for _ in 0..PATIENCE {
            if self.try_claim() {
                return Noticed::Floor;
            }
            if self.count() != from {
                return Noticed::Work;
            }
            spin_loop();
        }
        Noticed::Nothing
    }

    /// Waits for the floor, and says whether it was had. It was not where others have had many turns meanwhile, and where the
    /// one that has it does not come to an end of its turn; the processor is given up once then.
    pub(crate) fn claim(&self) -> bool {
        for _ in 0..TURNS {
            match self.look() {
                Noticed::Floor => return true,
                Noticed::Work => {}
                Noticed::Nothing => break,
            }
        }
        thread::yield_now();
        self.try_claim()
    }

    /// Gives the floor away.
    pub(crate) fn leave(&self) {
        self.floor.store(false, Ordering::SeqCst);
    }

    /// Gives the floor away, and leaves others the time to take it.
    pub(crate) fn pass_on(&self) {
        self.leave();
        let from = self.count();
        self.sees(from, 1, PAUSE);
    }
}
