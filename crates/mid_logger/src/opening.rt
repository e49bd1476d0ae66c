//! How a channel opens the file of a run and asks for its events, and how it calls a run off.

ghost use Rattle.std.specs.Prelude.{◌≡◌, ◌≢◌, ◌≤◌, ◌<◌, ◌^◌, ◌⊎◌, ◌↔◌, IsTrue, IsSome, IsErrOf, OnOk, OnErr, IfErr, IfSome, Some, None, codes, length};
ghost use Rattle.std.specs.Option.{option_map};
ghost use Rattle.daq_types.specs.declared.runs.Why.TheVariants.{Exists};
ghost use Rattle.event.specs.Events.{record_limit};
ghost use Rattle.daq_io.specs.Counts.{Rose};
ghost use Rattle.mid_logger.specs.declared.stage.ChannelStage.TheVariants.{Idle};
ghost use Rattle.mid_logger.specs.Patterns.{file_name_by};
ghost use Rattle.mid_logger.specs.Channels.{FileHead, GivesEachOnce, ChannelStands, IsLastOpen, written_run, files_by};
ghost use Rattle.mid_logger.specs.Pulls.{NamesMore};
ghost use Rattle.mid_logger.specs.RecordFiles.{DropsFile, IsUndone};
ghost use Rattle.mid_logger.specs.ChannelTurns.{AsksEvents, StartsAsking, HasClient, OpensBy, OpenFaults, OpenClashes, OpenFirst, NotesFault, IsRefusalOf, failed_at};

use crate::channel::Channel;
use crate::stage::{ChannelRun, ChannelStage};
use buffer_core::BufferPort;
use daq_io::{Failed, Files, NameRefused};
use daq_types::{FileName, Kind, Name, Order, Why};
use std::sync::Wait;
use sub_files::{OpenFile, RunHead, drop_file};

/// A client with its one request.
#[derive(Clone, Copy, Debug, PartialEq, Eq)]
struct Reader {
    client: u32,
    request: u32,
}

/// That a limit is one of 32 bits.
fn in_range(limit: u32)
    ensures { limit < 2 ^ 32 }
{}

/// The name under which the logger attaches its clients.
fn client_name() -> Name
    ensures { result ≡ codes "Logger" }
{
    match Name::new(b"Logger") {
        Ok(name) => name,
        Err(_) => unreachable!(),
    }
}

impl Channel {
    /// The channel's client, which is attached where there is none yet.
    fn attached<R: Wait, P: BufferPort>(&mut self, rt: &R, port: &mut P) -> Option<u32>
        ensures channel { self.new ≡ record self.old { client = self.new.client } }
        ensures client { result ≡ self.new.client }
        ensures has { HasClient self.old.client self.new.client (P.access port.old)
            (P.access port.new) }
    {
        match self.client {
            Some(client) => Some(client),
            None => match port.attach(rt, client_name()) {
                Ok(client) => {
                    self.client = Some(client);
                    Some(client)
                }
                Err(_) => None,
            },
        }
    }

    /// Asks for all events of the channel's id and mask.
    fn ask<R: Wait, P: BufferPort>(&mut self, rt: &R, port: &mut P) -> Option<Reader>
        ensures channel { self.new ≡ record self.old { client = self.new.client } }
        ensures client { IfSome result (λ reader. self.new.client ≡ Some reader.client) }
        ensures asks { AsksEvents self.old.spec self.old.client self.new.client
            (option_map (λ reader. reader.request) result) (P.access port.old) (P.access port.new) }
    {
        let Some(client) = self.attached(rt, port) else {
            return None;
        };
        match port.request(rt, client, self.spec.id, self.spec.mask, Kind::All) {
            Ok(request) => Some(Reader { client, request }),
            Err(_) => None,
        }
    }

    /// Why no run is opened whose file could not be begun. A failure is kept in mind.
    fn refusal(&mut self, why: NameRefused) -> Why
        requires { why ≢ NameRefused.Missing }
        ensures channel { self.new ≡ record self.old { failed = self.new.failed } }
        ensures why { IsRefusalOf why self.old.spec.number result }
        ensures failed { self.new.failed ≡ failed_at why self.old.failed }
    {
        let channel = self.spec.number;
        match why {
            NameRefused::Exists => Why::Exists { channel },
            NameRefused::Failed => {
                self.failed = true;
                Why::Fault { channel }
            }
            NameRefused::Missing => unreachable!(),
        }
    }

    /// Closes and removes the file of this number and name. A failure is kept in mind.
    fn drop_run<F: Files>(&mut self, files: &mut F, file: u32, name: &FileName)
        requires writes { IsTrue ((F.told files.old).seen.writes file) }
        requires named { (F.told files.old).seen.name_of file ≡ name.now }
        ensures channel { self.new ≡ record self.old { failed = self.new.failed } }
        ensures drops { DropsFile (F.told files.old).seen (F.told files.new).seen file name.now }
        ensures gone { IsUndone (F.told files.old).seen (F.told files.new).seen name.now
            ⊎ Rose (F.told files.old).faults (F.told files.new).faults }
        ensures failed { NotesFault self.old.failed self.new.failed (F.told files.old).faults
            (F.told files.new).faults }
        ensures faults { (F.told files.old).faults ≤ (F.told files.new).faults }
        ensures clashes { (F.told files.new).clashes ≡ (F.told files.old).clashes }
        ensures first { NamesMore name.now (F.told files.old).first (F.told files.new).first }
    {
        match drop_file(files, file, name) {
            Ok(()) => {}
            Err(Failed) => self.failed = true,
        }
    }

    /// Asks for the events of a run whose file was begun. Where that is refused, the file is closed and removed.
    fn start_asking<R: Wait, F: Files, P: BufferPort>(
        &mut self,
        rt: &R,
        files: &mut F,
        port: &mut P,
        order: &Order,
        at: OpenFile,
    ) -> Result<(), Why>
        requires writes { IsTrue ((F.told files.old).seen.writes at.file) }
        requires named { (F.told files.old).seen.name_of at.file
            ≡ file_name_by self.old.spec.pattern order.now.run }
        ensures spec { self.new.spec ≡ self.old.spec }
        ensures event { self.new.event ≡ self.old.event }
        ensures asks { OnOk result (StartsAsking self.old.spec order.now at (record {
          client = self.old.client;
          stage = self.old.stage;
          port = P.access port.old;
          files = (F.told files.old).seen;
          faults = (F.told files.old).faults;
        }) (record {
          client = self.new.client;
          stage = self.new.stage;
          port = P.access port.new;
          files = (F.told files.new).seen;
          faults = (F.told files.new).faults;
        })) }
        ensures quiet { OnOk result ((F.told files.new).seen ≡ (F.told files.old).seen) }
        ensures why { IfErr result (λ why. why ≡ Why.BufferRefused) }
        ensures stage { OnErr result (self.new.stage ≡ self.old.stage) }
        ensures refused { OnErr result
            (AsksEvents self.old.spec self.old.client self.new.client None
            (P.access port.old) (P.access port.new)) }
        ensures drops { OnErr result
            (DropsFile (F.told files.old).seen (F.told files.new).seen at.file
            (file_name_by self.old.spec.pattern order.now.run)) }
        ensures gone { OnErr result (IsUndone (F.told files.old).seen (F.told files.new).seen
            (file_name_by self.old.spec.pattern order.now.run)
            ⊎ Rose (F.told files.old).faults (F.told files.new).faults) }
        ensures faults { OpenFaults result (F.told files.old).faults (F.told files.new).faults }
        ensures failed { NotesFault self.old.failed self.new.failed (F.told files.old).faults
            (F.told files.new).faults }
        ensures clashes { (F.told files.new).clashes ≡ (F.told files.old).clashes }
        ensures first { OpenFirst result (file_name_by self.old.spec.pattern order.now.run)
            (F.told files.old).first (F.told files.new).first }
    {
        match self.ask(rt, port) {
            Some(Reader { client, request }) => {
                self.stage = ChannelStage::Asking {
                    opened: ChannelRun {
                        run: order.run,
                        start: order.start,
                        time: order.time,
                        at,
                        client,
                        request,
                    },
                };
                Ok(())
            }
            None => {
                let name = self.spec.pattern.name(order.run, 0);
                self.drop_run(files, at.file, &name);
                Err(Why::BufferRefused)
            }
        }
    }

    /// Opens a run: makes its file, writes the begin record with the dump, and asks for the events of the channel. Where
    /// that is refused, the file is closed and removed, and the channel stays as it was.
    pub fn open<R: Wait, F: Files, P: BufferPort>(
        &mut self,
        rt: &R,
        files: &mut F,
        port: &mut P,
        order: &Order,
        dump: &[u8],
    ) -> Result<(), Why>
        requires idle { self.old.stage ≡ Idle }
        requires small { length dump.now ≤ record_limit }
        ensures spec { self.new.spec ≡ self.old.spec }
        ensures event { self.new.event ≡ self.old.event }
        ensures opens { OpensBy result self.old.spec order.now dump.now (record {
          client = self.old.client;
          stage = self.old.stage;
          port = P.access port.old;
          files = (F.told files.old).seen;
          faults = (F.told files.old).faults;
        }) (record {
          client = self.new.client;
          stage = self.new.stage;
          port = P.access port.new;
          files = (F.told files.new).seen;
          faults = (F.told files.new).faults;
        }) }
        ensures exists { IsTrue (F.told files.old).seen.names
            → (IsErrOf result (Exists self.old.spec.number)
            ↔ IsSome ((F.told files.old).seen.at (file_name_by self.old.spec.pattern order.now.run))) }
        ensures failed { NotesFault self.old.failed self.new.failed (F.told files.old).faults
            (F.told files.new).faults }
        ensures faults { OpenFaults result (F.told files.old).faults (F.told files.new).faults }
        ensures clashes { OpenClashes result (F.told files.old).clashes (F.told files.new).clashes }
        ensures first { OpenFirst result (file_name_by self.old.spec.pattern order.now.run)
            (F.told files.old).first (F.told files.new).first }
        ensures file { IsLastOpen (F.told files.new).seen self.new.spec (written_run self.new.stage) }
        ensures few { files_by self.new.stage ≤ 10000 }
        ensures asking { OnOk result ((before : FileHead) → GivesEachOnce (P.access port.new).own →
            ChannelStands self.old.spec self.old.client self.old.stage before
            (P.access port.old).own (P.access port.old).got (F.told files.old).seen →
            ChannelStands self.new.spec self.new.client self.new.stage (record {
              run = order.now.run;
              time = order.now.time;
              dump = dump.now;
            }) (P.access port.new).own (P.access port.new).got (F.told files.new).seen) }
        ensures idle { OnErr result ((head : FileHead) → GivesEachOnce (P.access port.new).own →
            ChannelStands self.old.spec self.old.client self.old.stage head
            (P.access port.old).own (P.access port.old).got (F.told files.old).seen →
            ChannelStands self.new.spec self.new.client self.new.stage head
            (P.access port.new).own (P.access port.new).got (F.told files.new).seen) }
    {
        self.open_run(rt, files, port, order, dump)
    }

    /// Opens a run: begins its file and asks for the events of the channel.
    fn open_run<R: Wait, F: Files, P: BufferPort>(
        &mut self,
        rt: &R,
        files: &mut F,
        port: &mut P,
        order: &Order,
        dump: &[u8],
    ) -> Result<(), Why>
        requires idle { self.old.stage ≡ Idle }
        requires small { length dump.now ≤ record_limit }
        ensures spec { self.new.spec ≡ self.old.spec }
        ensures event { self.new.event ≡ self.old.event }
        ensures opens { OpensBy result self.old.spec order.now dump.now (record {
          client = self.old.client;
          stage = self.old.stage;
          port = P.access port.old;
          files = (F.told files.old).seen;
          faults = (F.told files.old).faults;
        }) (record {
          client = self.new.client;
          stage = self.new.stage;
          port = P.access port.new;
          files = (F.told files.new).seen;
          faults = (F.told files.new).faults;
        }) }
        ensures exists { IsTrue (F.told files.old).seen.names
            → (IsErrOf result (Exists self.old.spec.number)
            ↔ IsSome ((F.told files.old).seen.at (file_name_by self.old.spec.pattern order.now.run))) }
        ensures failed { NotesFault self.old.failed self.new.failed (F.told files.old).faults
            (F.told files.new).faults }
        ensures faults { OpenFaults result (F.told files.old).faults (F.told files.new).faults }
        ensures clashes { OpenClashes result (F.told files.old).clashes (F.told files.new).clashes }
        ensures first { OpenFirst result (file_name_by self.old.spec.pattern order.now.run)
            (F.told files.old).first (F.told files.new).first }
    {
        let head = RunHead {
            run: order.run,
            time: order.time,
        };
        in_range(self.spec.sub_bytes);
        match OpenFile::begin(files, &self.spec.pattern, head, dump) {
            Ok(at) => self.start_asking(rt, files, port, order, at),
            Err(why) => Err(self.refusal(why)),
        }
    }
}
