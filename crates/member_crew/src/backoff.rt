// How a member goes from turn to turn.
ghost use Rattle.std.specs.Prelude.{◌<◌, ◌≤◌};

use crate::activity::{Activity, MANY};

/// How many turns of work a member has in a row while it has the floor.
const ROW: usize = 64;

/// After how many of them it counts them for the others to see.
const STEP: usize = 8;

/// How a member goes from turn to turn: what it found to do in the last ones, and whether it has the floor.
#[derive(Drop)]
pub(crate) struct Backoff<'a> {
    activity: &'a Activity,
    /// For how many turns of others' work it waits next.
    awaited: usize,
    /// How many turns of work it had since it took the floor, or waited for it.
    row: usize,
    has_floor: bool,
    ghost few: { awaited ≤ 64 },
    ghost short: { row < 64 },
}

impl<'a> Backoff<'a> {
    /// A member that has had no turn.
    pub(crate) fn new(activity: &'a Activity) -> Backoff<'a> {
        Backoff {
            activity,
            awaited: 1,
            row: 0,
            has_floor: false,
        }
    }

    /// The member found nothing to do: it waits until others have worked, and longer each time.
    pub(crate) fn idle(&mut self) {
        if self.row % STEP > 0 {
            self.activity.add(self.row % STEP);
        }
        self.end();
        self.activity.wait(self.awaited);
        self.awaited = (self.awaited * 2).min(MANY);
        self.begin();
    }

    /// The member worked. Others have their turns after so many of its own.
    pub(crate) fn worked(&mut self) {
        self.awaited = 1;
        let row = self.row + 1;
        if row % STEP == 0 {
            self.activity.add(STEP);
        }
        if row < ROW {
            self.row = row;
            return;
        }
        if self.has_floor {
            self.activity.pass_on();
        }
        self.begin();
    }

    /// Takes the floor for the next turns, if it can be had.
    fn begin(&mut self) {
        self.has_floor = self.activity.claim();
        self.row = 0;
    }

    /// The member works no more for now.
    pub(crate) fn end(&mut self) {
        if self.has_floor {
            self.activity.leave();
            self.has_floor = false;
        }
    }
}
