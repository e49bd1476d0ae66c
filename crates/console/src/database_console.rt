ghost use Rattle.std.specs.Prelude.{◌≡◌, ◌≤◌, IfOk, OnErr};
ghost use Rattle.daq_types.specs.Callers.{main_caller};
ghost use Rattle.odb_watch.specs.DatabasePorts.{IsSamePort};

use crate::Reply;
use crate::noting::note_file;
use daq_io::Files;
use daq_types::NoMemory;
use odb_commands::{FileReplies, WatchAnswer, run_command, run_watch_command};
use odb_script::DatabaseCommand;
use odb_watch::WatchPort;
use std::alloc::Global;
use std::sync::Wait;

/// The online database, as the lines of a script command it.
#[derive(Drop)]
pub struct DatabaseConsole<D: WatchPort, E: Files> {
    /// The main thread's access.
    pub access: D,
    /// The files of the dumps.
    pub files: E,
    /// What came of the lines that called these.
    pub replies: FileReplies,
    ghost main: { (D.access access).caller ≡ main_caller },
}

impl<D: WatchPort, E: Files> DatabaseConsole<D, E> {
    ghost use Rattle.console.specs.DatabaseLines.{BreaksDatabase, DoesDatabase, WithdrawsEntry};
    ghost use Rattle.console.specs.DatabaseStages.{database_stage};

    /// Answers a command of the online database in the line of this number.
    pub fn answer<R: Wait>(
        &mut self,
        rt: &R,
        alloc: Global,
        number: u64,
        command: &DatabaseCommand<'_>,
    ) -> Result<Reply, NoMemory>
        ensures did { IfOk result (λ reply. DoesDatabase number command.now
            (database_stage (D.access self.old.access) (E.told self.old.files)
            self.old.replies.replies)
            reply
            (database_stage (D.access self.new.access) (E.told self.new.files)
            self.new.replies.replies)) }
        ensures broke { OnErr result (BreaksDatabase command.now
            (database_stage (D.access self.old.access) (E.told self.old.files)
            self.old.replies.replies)
            (database_stage (D.access self.new.access) (E.told self.new.files)
            self.new.replies.replies)) }
        ensures same { IsSamePort (D.access self.old.access)
            (D.access self.new.access) }
    {
        match command {
            DatabaseCommand::Rows { command } => {
                let reply = run_command(rt, alloc, &mut self.access, command)?;
                Ok(Reply::Database { reply })
            }
            DatabaseCommand::Watches { command } => {
                self.replies.reserve(1)?;
                let (access, files) = (&mut self.access, &mut self.files);
                let WatchAnswer { reply, file } = run_watch_command(
                    rt, alloc, access, files, command,
                )?;
                note_file(&mut self.replies, number, file);
                Ok(Reply::Watch { reply })
            }
        }
    }

    /// Takes out again what came of the line of this number, the last that was answered, if that was noted. Takes no memory.
    pub fn withdraw(&mut self, number: u64)
        ensures withdrew { WithdrawsEntry number
            (database_stage (D.access self.old.access) (E.told self.old.files)
            self.old.replies.replies)
            (database_stage (D.access self.new.access) (E.told self.new.files)
            self.new.replies.replies) }
        ensures same { IsSamePort (D.access self.old.access)
            (D.access self.new.access) }
    {
        if let Some((line, came)) = self.replies.pop() {
            if line != number {
                self.replies.push(line, came);
            }
        }
    }
}
