// A session that no start opened yet.
ghost use Rattle.std.specs.Prelude.{◌≡◌, false, None};

use crate::declaring::declare;
use crate::side::MainSide;
use console::{Answerer, Reply};
use daq_io::{Clock, Files};
use daq_types::{NoMemory, RunState};
use odb_script::{Command, LineRefusal, RunCommand};
use odb_watch::WatchPort;
use session_setup::Declarations;
use std::alloc::Global;
use std::sync::Wait;

/// A session that no start opened yet: what is declared so far, and the online database.
#[derive(Drop)]
pub struct Unopened<D: WatchPort, E: Files, C: Clock> {
    /// How many events each front-end has to send in the runs to come.
    pub quota: u32,
    pub declarations: Declarations,
    pub side: MainSide<D, E, C>,
    ghost closed: { declarations.opened ≡ false },
}

impl<D: WatchPort, E: Files, C: Clock> Answerer for Unopened<D, E, C> {
    ghost use Rattle.session_commands.specs.Stages.{SessionStage, unopened_stage};
    ghost use Rattle.session_commands.specs.ScriptLines.{BreaksScriptLine, ClosesScript, DoesScriptLine, GivesUp, WithdrawsLine, opens_session};
    ghost use Rattle.console.specs.DatabaseStages.{database_stage};
    ghost use Rattle.odb_watch.specs.DatabasePorts.{IsSamePort};
    ghost use Rattle.std.proofs.Common.{refl, ◌∙◌};

    ghost Stage = { SessionStage };

    ghost stage = { λ s. unopened_stage s.quota s.declarations
        (database_stage (D.access s.side.database.access) (E.told s.side.database.files)
        s.side.database.replies.replies)
        (C.told s.side.clock) };

    ghost leaves = { opens_session };

    ghost does = { DoesScriptLine };

    ghost breaks = { BreaksScriptLine };

    ghost withdraws = { WithdrawsLine };

    ghost closes = { ClosesScript };

    ghost gives_up = { GivesUp };

    ghost stays = { λ a b. IsSamePort (D.access a.side.database.access)
        (D.access b.side.database.access) };

    /// The first start is left to the session that it opens.
    fn is_left(&self, line: &Result<Command<'_>, LineRefusal>) -> bool {
        matches!(
            line,
            Ok(Command::Run {
                command: RunCommand::Start
            })
        )
    }

    fn answer<R: Wait>(
        &mut self,
        rt: &R,
        alloc: Global,
        number: u64,
        line: Result<Command<'_>, LineRefusal>,
    ) -> Result<Reply, NoMemory> {
        let command = match line {
            Ok(command) => command,
            Err(LineRefusal::BadCommand { at }) => return Ok(Reply::BadCommand { at }),
        };
        match command {
            Command::Nothing | Command::Exit => Ok(Reply::Silent),
            Command::Declare { declaration } => { Ok(declare(&mut self.declarations, declaration)) }
            Command::Run {
                command: RunCommand::Events { count },
            } => {
                self.quota = count;
                Ok(Reply::Silent)
            }
            Command::Run {
                command: RunCommand::Start,
            } => unreachable!(),
            Command::Run {
                command: RunCommand::Stop,
            }
            | Command::Run {
                command: RunCommand::Pause,
            }
            | Command::Run {
                command: RunCommand::Resume,
            } => Ok(Reply::WrongState {
                state: RunState::Stopped,
            }),
            Command::Database { command } => {
                self.side.database.answer(rt, alloc, number, &command)
            }
        }
    }

    /// What came of a line that called the files of the database.
    fn withdraw(&mut self, number: u64) {
        self.side.database.withdraw(number);
    }

    /// There is no run to be stopped.
    fn close<R: Wait>(&mut self, _rt: &R, _alloc: Global) -> Result<Option<Reply>, NoMemory> {
        Ok(None)
    }

    ghost stays_so = { λ a. record { database = refl; caller = refl } };

    ghost stays_on = { λ a b c ab bc. record {
      database = bc.database ∙ ab.database;
      caller = bc.caller ∙ ab.caller;
    } };
}
