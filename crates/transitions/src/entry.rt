use crate::Sequences;
use crate::answers::{Answer, Tallies};
use crate::replies::{BeginRefusal, InProgress, NotYourTurn, Polled, Progress, RegisterRefusal};
use crate::sheet::Sheet;
use daq_types::{Name, Transition};

/// A call on the engine, with its arguments and its reply.
#[derive(Drop)]
pub enum EngineEntry<R> {
    Register {
        name: Name,
        sequences: Sequences,
        wants_dump: bool,
        wants_report: bool,
        reply: Result<u32, RegisterRefusal>,
    },
    Begin {
        transition: Transition,
        sheet: Sheet<R>,
        reply: Result<u32, BeginRefusal>,
    },
    Poll {
        client: u32,
        reply: Polled<R>,
    },
    Answer {
        client: u32,
        answer: Answer<R>,
        reply: Result<(), NotYourTurn>,
    },
    /// `tallies` are those that the call moved out.
    Check {
        reply: Progress,
        tallies: Tallies<R>,
    },
    Close {
        reply: Result<(), InProgress>,
    },
}
