// Taking the passes of a session's objects back from its members.
ghost use Rattle.std.specs.Prelude.{◌≡◌, ◌+◌, Some, length, slice_get, map};
ghost use Rattle.daq_types.specs.Callers.{caller_of_client};
ghost use Rattle.turn_lock.specs.Passes.{seen_by, own_entries};
ghost use Rattle.buffer_lock.specs.SharedPorts.{access_by};
ghost use Rattle.transition_lock.specs.SharedEngines.{engine_lock_of};
ghost use Rattle.odb_lock.specs.SharedOdbs.{odb_lock_of};
ghost use Rattle.session_objects.specs.Rosters.{IsMainPass};
ghost use Rattle.session_objects.specs.Calls.{SessionCalls, account_at};
ghost use Rattle.session_setup.specs.declared.member.MemberDeclared.TheVariants.{FrontEnd, Logger, Analyzer};
ghost use Rattle.session_setup.specs.DeclaredMembers.{declared_members, logger_number};
ghost use Rattle.session_objects.specs.Kept.{out_to, out_to_members, ports_out, HasFreshBut, OthersSawNothing};
ghost use Rattle.session_objects.specs.Records.{HasCallsBut, HasCalls};
ghost use Rattle.session_objects.specs.Members.{ring_window, front_account, logger_account, analyzer_account, ArePortsTo, IsFrontOf, IsLoggerOf, IsAnalyzerOf, AreMembersOf, HasAccount, IsOwnPort, CalledAt, AreCalledAt, session_calls, files_left, AreSeated, IsNewMemberAt};
ghost use Rattle.session_objects.specs.Returns.{ComesBack, left_also, left_among, end_of_member, logger_end};

use crate::membership::Membership;
use crate::passes::SessionPasses;
use crate::seats::{SessionAnalyzer, SessionFront, SessionLogger, SessionMember, SessionMembers};
use buffer_lock::SharedPort;
use daq_io::Files;
use daq_members::{AnalyzerParts, FrontParts, LoggerParts, MemberKind};
use loggers::Ports;
use odb_lock::{LockedDatabase, OdbPass, WatchedSeen};
use odb_tree::Database;
use odb_watch::WatchEntry;
use ring_buffer::RingBuffer;
use transition_lock::EnginePass;
use turn_lock::Machine;

/// What a logger leaves: the run files, and whether a call on them failed in one of its turns.
#[derive(Drop)]
pub struct LoggerEnd<F> {
    pub files: F,
    pub failed: bool,
}

/// What comes back from the members of a session: all passes of its objects, and what the logger leaves.
#[derive(Drop)]
pub struct Returned<D: Database, F>
where
    LockedDatabase<D>: Machine<State = WatchedSeen, Entry = WatchEntry>,
{
    pub passes: SessionPasses<D>,
    pub logger: LoggerEnd<F>,
}

impl<'a, 's, D: Database> Membership<'a, 's, D> {
    /// Takes the pass back of this client's port to the one buffer that it calls.
    fn take_back_port(
        &self,
        client: usize,
        port: SharedPort<'a, RingBuffer>,
        passes: &mut SessionPasses<D>,
    )
        ghost calls: { SessionCalls }
        requires port { IsOwnPort self.now.lists.now self.now.objects.now calls client
            (access_by ring_window port) }
        requires out { HasCallsBut (ports_out self.now.lists.now client
            (length self.now.objects.now.buffers.items)) calls self.now.objects.now
            self.now.database.now passes.old }
        ensures { HasCallsBut (out_to self.now.lists.now client) calls self.now.objects.now
            self.now.database.now passes.new }
    {
        let Some(buffer) = self.own_buffer(client) else {
            unreachable!()
        };
        passes.put_to_buffer(buffer, port.into_pass());
    }

    /// Takes the passes of the front-end with this client number back, which is the last one that has them.
    fn take_back_front(
        &self,
        client: usize,
        front: SessionFront<'a, D>,
        passes: &mut SessionPasses<D>,
    )
        ghost calls: { SessionCalls }
        requires front { (wanted : _) × IsFrontOf self.now.objects.now self.now.database.now client
            wanted front × HasAccount self.now.lists.now calls client (FrontEnd wanted)
            (front_account wanted front) }
        requires out { HasCallsBut (out_to self.now.lists.now (client + 1)) calls
            self.now.objects.now self.now.database.now passes.old }
        ensures { HasCallsBut (out_to self.now.lists.now client) calls self.now.objects.now
            self.now.database.now passes.new }
    {
        let FrontParts {
            pass,
            port,
            database: access,
            ..
        } = front.into_parts();
        passes.put_to_engine(pass);
        passes.put_to_database(access.into_pass());
        self.take_back_port(client, port, passes);
    }

    /// Takes the passes of the logger back, which has this client number and is the last one that has them.
    fn take_back_logger<F: Files>(
        &self,
        client: usize,
        logger: SessionLogger<'a, F>,
        passes: &mut SessionPasses<D>,
    ) -> LoggerEnd<F>
        ghost calls: { SessionCalls }
        requires logger { IsLoggerOf self.now.objects.now self.now.lists.now.channels client logger }
        requires calls { HasAccount self.now.lists.now calls client Logger (logger_account logger) }
        requires out { HasCallsBut (out_to self.now.lists.now (client + 1)) calls
            self.now.objects.now self.now.database.now passes.old }
        ensures end { result ≡ logger_end logger.entry }
        ensures out { HasCallsBut (out_to self.now.lists.now client) calls self.now.objects.now
            self.now.database.now passes.new }
    {
        let failed = logger.failed();
        let LoggerParts { pass, ports, files } = logger.into_parts();
        passes.put_to_engine(pass);
        self.take_back_ports(client, ports, passes);
        LoggerEnd { files, failed }
    }

    /// Takes the passes of the ports of this client back, each to those of its buffer.
    fn take_back_ports(
        &self,
        client: usize,
        mut ports: Ports<SharedPort<'a, RingBuffer>>,
        passes: &mut SessionPasses<D>,
    )
        ghost calls: { SessionCalls }
        requires wanted { slice_get (declared_members self.now.lists.now) client ≡ Some Logger }
        requires ports { ArePortsTo self.now.objects.now.buffers.items (caller_of_client client)
            (map (access_by ring_window) ports) }
        requires calls { (account_at calls client).port
            ≡ slice_get (map (access_by ring_window) ports) }
        requires out { HasCallsBut (ports_out self.now.lists.now client (length ports)) calls
            self.now.objects.now self.now.database.now passes.old }
        ensures { HasCallsBut (ports_out self.now.lists.now client 0) calls
            self.now.objects.now self.now.database.now passes.new }
    {
        while let Some(port) = ports.pop() {
            passes.put_to_buffer(ports.len(), port.into_pass());
        }
    }

    /// Takes the passes of the analyzer with this client number back, which is the last one that has them.
    fn take_back_analyzer(
        &self,
        client: usize,
        analyzer: SessionAnalyzer<'a>,
        passes: &mut SessionPasses<D>,
    )
        ghost calls: { SessionCalls }
        requires analyzer { (wanted : _) × IsAnalyzerOf self.now.objects.now client wanted analyzer
            × HasAccount self.now.lists.now calls client (Analyzer wanted)
            (analyzer_account wanted analyzer) }
        requires out { HasCallsBut (out_to self.now.lists.now (client + 1)) calls
            self.now.objects.now self.now.database.now passes.old }
        ensures { HasCallsBut (out_to self.now.lists.now client) calls self.now.objects.now
            self.now.database.now passes.new }
    {
        let AnalyzerParts { pass, port } = analyzer.into_parts();
        passes.put_to_engine(pass);
        self.take_back_port(client, port, passes);
    }

    /// Takes the passes of the member with this client number back, which is the last one that has them. Of the logger this also
    /// takes what it leaves.
    fn take_back_member<F: Files + Drop>(
        &self,
        client: usize,
        member: SessionMember<'a, D, F>,
        passes: &mut SessionPasses<D>,
        left: &mut Option<LoggerEnd<F>>,
    )
        ghost calls: { SessionCalls }
        requires member { CalledAt self.now.lists.now self.now.objects.now self.now.database.now
            calls client member }
        requires out { HasCallsBut (out_to self.now.lists.now (client + 1)) calls
            self.now.objects.now self.now.database.now passes.old }
        ensures left { left.new ≡ left_also (end_of_member member.entry) left.old }
        ensures out { HasCallsBut (out_to self.now.lists.now client) calls self.now.objects.now
            self.now.database.now passes.new }
    {
        match member.into_kind() {
            MemberKind::FrontEnd(front) => self.take_back_front(client, front, passes),
            MemberKind::Logger(logger) => *left = Some(self.take_back_logger(
                client, logger, passes,
            )),
            MemberKind::Analyzer(analyzer) => self.take_back_analyzer(client, analyzer, passes),
        }
    }

    /// Takes the passes of all members back, and what the logger leaves.
    fn take_back_members<F: Files + Drop>(
        &self,
        mut members: SessionMembers<'a, D, F>,
        passes: &mut SessionPasses<D>,
    ) -> Option<LoggerEnd<F>>
        ghost calls: { SessionCalls }
        requires members { AreCalledAt self.now.lists.now self.now.objects.now
            self.now.database.now calls members }
        requires out { HasCallsBut (out_to self.now.lists.now (length members)) calls
            self.now.objects.now self.now.database.now passes.old }
        ensures left { result ≡ left_among members.entry }
        ensures out { HasCallsBut (out_to self.now.lists.now 0) calls self.now.objects.now
            self.now.database.now passes.new }
    {
        let mut left = None;
        while let Some(member) = members.pop() {
            self.take_back_member(members.len(), member, passes, &mut left);
        }
        left
    }

    /// Takes the passes of these members back, none of which made a call, and the run files: they are here, or with the logger among
    /// these members.
    pub(crate) fn take_back_made<F: Files + Drop>(
        &self,
        members: SessionMembers<'a, D, F>,
        files: Option<F>,
        passes: &mut SessionPasses<D>,
    ) -> F
        requires made { (given : F) × (files ≡ files_left (logger_number self.now.lists.now)
            (length members) given) × AreSeated (IsNewMemberAt self.now.lists.now
            self.now.objects.now self.now.database.now given) (length members) members }
        requires out { HasFreshBut (out_to self.now.lists.now (length members)) self.now.objects.now
            self.now.database.now passes.old }
        ensures files { (given : F) → files ≡ files_left (logger_number self.now.lists.now)
            (length members.entry) given → AreSeated (IsNewMemberAt self.now.lists.now
            self.now.objects.now self.now.database.now given) (length members.entry) members.entry
            → result ≡ given }
        ensures back { OthersSawNothing self.now.database.now passes.new.database }
    {
        match (self.take_back_members(members, passes), files) {
            (Some(end), _) => end.files,
            (None, Some(files)) => files,
            (None, None) => unreachable!(),
        }
    }

    /// Takes all passes back, by which these calls were made.
    fn take_back_all<F: Files + Drop>(
        &self,
        mut passes: SessionPasses<D>,
        members: SessionMembers<'a, D, F>,
        main_engine: EnginePass,
        main_database: OdbPass<D>,
    ) -> Returned<D, F>
        ghost calls: { SessionCalls }
        requires calls { calls ≡ session_calls self.now.lists.now
            (own_entries main_engine) (seen_by main_database) members }
        requires members { AreMembersOf self.now.lists.now self.now.objects.now self.now.database.now
            members }
        requires out { HasFreshBut (out_to_members self.now.lists.now) self.now.objects.now
            self.now.database.now passes }
        requires engine { IsMainPass (engine_lock_of self.now.objects.now.engine) main_engine }
        requires database { IsMainPass (odb_lock_of self.now.database.now) main_database }
        ensures calls { HasCalls calls self.now.objects.now self.now.database.now result.passes }
        ensures logger { left_among members.entry ≡ Some result.logger }
    {
        let Some(logger) = self.take_back_members(members, &mut passes) else {
            unreachable!()
        };
        passes.put_to_engine(main_engine);
        passes.put_to_database(main_database);
        Returned { passes, logger }
    }

    /// Takes all passes of the session's objects back: from the members, which are behind their last turns, and the main
    /// thread's own. Takes no memory.
    pub fn take_back<F: Files + Drop>(
        &self,
        passes: SessionPasses<D>,
        members: SessionMembers<'a, D, F>,
        main_engine: EnginePass,
        main_database: OdbPass<D>,
    ) -> Returned<D, F>
        requires members { AreMembersOf self.now.lists.now self.now.objects.now self.now.database.now
            members }
        requires out { HasFreshBut (out_to_members self.now.lists.now) self.now.objects.now
            self.now.database.now passes }
        requires engine { IsMainPass (engine_lock_of self.now.objects.now.engine) main_engine }
        requires database { IsMainPass (odb_lock_of self.now.database.now) main_database }
        ensures { ComesBack self.now.lists.now self.now.objects.now self.now.database.now
            (own_entries main_engine) (seen_by main_database) members.entry result }
    {
        self.take_back_all(passes, members, main_engine, main_database)
    }
}
