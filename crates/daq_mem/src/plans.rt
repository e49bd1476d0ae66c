ghost use Rattle.std.specs.Prelude.{◌≡◌, ◌<◌, replicate};
ghost use Rattle.daq_mem.specs.Plans.{is_call_listed, is_op_planned, after_op_call, op_place};

use std::marker::Model;

/// An operation on files.
#[derive(Clone, Copy, Debug, PartialEq, Eq)]
pub enum FileOp {
    Create,
    Append,
    Close,
    Remove,
    OpenRead,
    Read,
}

/// A call that fails.
#[derive(Clone, Copy, Debug, PartialEq, Eq)]
pub struct FileFail {
    /// The operation.
    pub op: FileOp,
    /// The number of the call among those of its operation, from 0.
    pub call: u64,
}

/// The place of an operation among all of them.
fn op_place(op: FileOp) -> usize
    ensures place { result ≡ op_place op }
    ensures inside { result < 6 }
{
    match op {
        FileOp::Create => 0,
        FileOp::Append => 1,
        FileOp::Close => 2,
        FileOp::Remove => 3,
        FileOp::OpenRead => 4,
        FileOp::Read => 5,
    }
}

/// The calls on files that fail, and how many there were of each operation.
#[derive(Drop)]
pub struct PlannedFails {
    fails: Vec<FileFail>,
    calls: [u64; 6],
}

impl Model for PlannedFails {
    ghost use Rattle.daq_mem.specs.Plans.{FilePlan};

    ghost Value = { FilePlan };

    ghost view = { λ p. record { fails = p.fails.items; calls = p.calls } };
}

impl PlannedFails {
    /// The calls of these numbers fail.
    pub fn new(fails: Vec<FileFail>) -> PlannedFails
        ensures { result ≡ record { fails = fails.items; calls = replicate 6 0 } }
    {
        PlannedFails {
            fails,
            calls: [0; 6],
        }
    }

    /// Counts a call of this operation, and answers whether it is one that fails.
    pub fn is_next(&mut self, op: FileOp) -> bool
        ensures listed { result ≡ is_op_planned self.old op }
        ensures counted { self.new ≡ after_op_call self.old op }
    {
        let place = op_place(op);
        let call = self.calls[place];
        self.calls[place] = call.saturating_add(1);
        self.is_listed(place, call)
    }

    /// Whether the call of this number is listed for the operation at this place.
    fn is_listed(&self, place: usize, call: u64) -> bool
        ensures { result ≡ is_call_listed self.now.fails place call }
    {
        for fail in self.fails.iter() {
            if op_place(fail.op) == place && fail.call == call {
                return true;
            }
        }
        false
    }
}
