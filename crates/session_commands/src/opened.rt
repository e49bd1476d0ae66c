// A session that a start opened.
ghost use Rattle.std.specs.Prelude.{◌≡◌, true, false, if◌then◌else◌};
ghost use Rattle.member_crew.specs.Rounds.{HadRounds};

use crate::command_laws::{commands_keep, members_passed_over};
use crate::commands::{answer_pause, answer_resume, answer_start, answer_stop};
use crate::side::MainSide;
use console::{Answerer, Reply};
use daq_io::{Clock, Files};
use daq_types::NoMemory;
use member_crew::Rounds;
use odb_script::{Command, LineRefusal, RunCommand};
use odb_watch::WatchPort;
use session_runs::Runs;
use session_setup::{DeclaredLists, SetupRefusal};
use std::alloc::Global;
use std::sync::Wait;

/// A session that a start opened: what the main thread keeps of its runs, its members, and the online database.
#[derive(Drop)]
pub struct Opened<'a, D: WatchPort, M: Rounds, E: Files, C: Clock> {
    pub runs: Runs<'a>,
    pub crew: M,
    pub side: MainSide<D, E, C>,
    /// What was declared.
    pub lists: &'a DeclaredLists,
    /// Whether the line that opened the session was answered.
    pub begun: bool,
}

/// One round before a line, but for the line that opened the session.
fn begin_line<R: Wait, M: Rounds>(rt: &R, members: &mut M, begun: &mut bool)
    ensures rounds { (count : _) × (count ≡ (if begun.old then 1 else 0))
        × HadRounds M.round count members.old members.new }
    ensures begun { begun.new ≡ true }
{
    if *begun {
        members.round(rt);
    } else {
        *begun = true;
    }
}

impl<'a, D: WatchPort, M: Rounds, E: Files, C: Clock> Answerer for Opened<'a, D, M, E, C> {
    ghost use Rattle.session_commands.specs.Stages.{SessionStage, open_stage};
    ghost use Rattle.session_setup.specs.Setup.{declared_by};
    ghost use Rattle.session_commands.specs.ScriptLines.{BreaksScriptLine, ClosesScript, DoesScriptLine, GivesUp, WithdrawsLine};
    ghost use Rattle.console.specs.DatabaseStages.{database_stage};
    ghost use Rattle.session_commands.specs.Staying.{StaysOpen, stays_open, stays_open_on};

    ghost Stage = { SessionStage };

    ghost stage = { λ s. open_stage (declared_by s.lists.now)
        (database_stage (D.access s.side.database.access) (E.told s.side.database.files)
        s.side.database.replies.replies)
        (C.told s.side.clock) s.runs };

    ghost leaves = { λ line. false };

    ghost does = { DoesScriptLine };

    ghost breaks = { BreaksScriptLine };

    ghost withdraws = { WithdrawsLine };

    ghost closes = { ClosesScript };

    ghost gives_up = { GivesUp };

    ghost stays = { λ a b. StaysOpen M.round a.crew b.crew a.runs.main.engine
        b.runs.main.engine (D.access a.side.database.access) (D.access b.side.database.access)
        a.lists.now b.lists.now };

    /// An open session answers each line.
    fn is_left(&self, _line: &Result<Command<'_>, LineRefusal>) -> bool {
        false
    }

    fn answer<R: Wait>(
        &mut self,
        rt: &R,
        alloc: Global,
        number: u64,
        line: Result<Command<'_>, LineRefusal>,
    ) -> Result<Reply, NoMemory> {
        begin_line(rt, &mut self.crew, &mut self.begun);
        let command = match line {
            Ok(command) => command,
            Err(LineRefusal::BadCommand { at }) => return Ok(Reply::BadCommand { at }),
        };
        members_passed_over::<M>();
        commands_keep::<M>();
        let (runs, crew) = (&mut self.runs, &mut self.crew);
        let access = &mut self.side.database.access;
        match command {
            Command::Nothing | Command::Exit => Ok(Reply::Silent),
            Command::Declare { .. } => Ok(Reply::Setup {
                refusal: SetupRefusal::Opened,
            }),
            Command::Run {
                command: RunCommand::Events { count },
            } => {
                runs.set_quota(count);
                Ok(Reply::Silent)
            }
            Command::Run {
                command: RunCommand::Start,
            } => answer_start(rt, alloc, runs, access, crew, &mut self.side.clock),
            Command::Run {
                command: RunCommand::Stop,
            } => answer_stop(rt, alloc, runs, access, crew, &mut self.side.clock),
            Command::Run {
                command: RunCommand::Pause,
            } => Ok(answer_pause(rt, alloc, runs, access, crew)),
            Command::Run {
                command: RunCommand::Resume,
            } => Ok(answer_resume(rt, alloc, runs, access, crew)),
            Command::Database { command } => {
                self.side.database.answer(rt, alloc, number, &command)
            }
        }
    }

    /// What came of a line that called the files of the database.
    fn withdraw(&mut self, number: u64) {
        self.side.database.withdraw(number);
    }

    /// Where a run is on, it is stopped as by the command.
    fn close<R: Wait>(&mut self, rt: &R, alloc: Global) -> Result<Option<Reply>, NoMemory> {
        members_passed_over::<M>();
        commands_keep::<M>();
        if self.runs.on().is_none() {
            return Ok(None);
        }
        let reply = answer_stop(
            rt,
            alloc,
            &mut self.runs,
            &mut self.side.database.access,
            &mut self.crew,
            &mut self.side.clock,
        )?;
        Ok(Some(reply))
    }

    ghost stays_so = { λ a. stays_open a.crew a.runs.main.engine
        (D.access a.side.database.access) a.lists.now };

    ghost stays_on = { λ a b c ab bc. stays_open_on ab bc };
}
