// The main thread's part of an open session: the lines of its script, and the close of its engine.
ghost use Rattle.std.specs.Prelude.{◌≤◌, ◌+◌};

use crate::opened::Opened;
use crate::script::Script;
use crate::side::MainSide;
use console::{Ending, Halt, play_out};
use daq_io::{Clock, Files, Sink, Source};
use daq_types::Journal;
use member_crew::{Playing, Rounds};
use odb_watch::WatchPort;
use session_runs::{RunRecord, Runs};
use session_setup::DeclaredLists;
use std::alloc::Global;
use std::sync::Wait;
use transition_lock::EnginePass;

/// All that the main thread of an open session calls, where a line of its script was read that is not answered yet.
#[derive(Drop)]
pub struct MainPlay<'a, S: Source, O: Sink, D: WatchPort, E: Files, C: Clock> {
    pub alloc: Global,
    /// What was declared.
    pub lists: &'a DeclaredLists,
    pub runs: Runs<'a>,
    pub side: MainSide<D, E, C>,
    pub script: Script<S, O>,
    ghost fits: { script.line_loop.number + 1 ≤ script.line_loop.reader.taken },
}

/// What the lines of an open session came to, and what its main thread has then.
#[derive(Drop)]
pub struct MainEnd<S: Source, O: Sink, D: WatchPort, E: Files, C: Clock> {
    pub ending: Ending,
    /// What failed behind the lines.
    pub closing: Option<Halt>,
    /// The main thread's pass of the engine, by which this is closed.
    pub main: EnginePass,
    pub records: Journal<RunRecord>,
    pub side: MainSide<D, E, C>,
    pub script: Script<S, O>,
}

impl<'a, S: Source, O: Sink, D: WatchPort, E: Files, C: Clock> Playing
    for MainPlay<'a, S, O, D, E, C> {
    ghost use Rattle.console.specs.Closing.{EndCounts};
    ghost use Rattle.session_commands.specs.Finishing.{script_point, side_told};
    ghost use Rattle.session_commands.specs.MainEnds.{MainEnds};

    type Played = MainEnd<S, O, D, E, C>;

    ghost plays = { λ main end. MainEnds
        (side_told D.access E.told C.told)
        main.lists.now main.runs main.side end.side
        (script_point S.told O.told main.script) (script_point S.told O.told end.script)
        end.ending end.closing end.records end.main
        × EndCounts end.ending end.closing (S.told main.script.src).faults (S.told end.script.src).faults
        (O.told main.script.out).faults (O.told end.script.out).faults };

    /// From the line that was read to the end of the script. The engine is closed behind that.
    fn play<R: Wait, M: Rounds>(self, rt: &R, members: M) -> (MainEnd<S, O, D, E, C>, M) {
        let mut opened = Opened {
            runs: self.runs,
            crew: members,
            side: self.side,
            lists: self.lists,
            begun: false,
        };
        let mut script = self.script;
        let (ending, closing) = play_out(
            rt,
            self.alloc,
            &mut script.line_loop,
            &mut opened,
            &mut script.src,
            &mut script.out,
        );
        // For what `on` ensures: a run is on exactly where the engine's state, as the main thread knows it, is not stopped.
        opened.runs.on();
        let (seat, records) = opened.runs.into_parts();
        // For what `state` ensures: the main thread stands between two transitions, so that it may close the engine.
        seat.state();
        let end = MainEnd {
            ending,
            closing,
            main: seat.close(rt),
            records,
            side: opened.side,
            script,
        };
        (end, opened.crew)
    }
}
