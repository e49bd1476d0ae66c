// Making the members of a session.
ghost use Rattle.std.specs.Prelude.{◌≡◌, ◌≤◌, ◌<◌, ◌+◌, ◌-◌, ◌≢◌, [], length, map, min, slice_get, Contains, Some, None, IfOk, OnOk, OnErr, IfErr};
ghost use Rattle.daq_types.specs.Callers.{caller_of_client};
ghost use Rattle.turn_lock.specs.Roster.{numbers_of};
ghost use Rattle.buffer_lock.specs.SharedPorts.{access_by};
ghost use Rattle.odb_lock.specs.SharedAccesses.{access_by_pass};
ghost use Rattle.analyzers.specs.AnalyzerKept.{AnalyzerStands, AnalyzerTells};
ghost use Rattle.loggers.specs.NewLoggers.{HaveNumbers};
ghost use Rattle.session_setup.specs.declared.member.MemberDeclared.TheVariants.{FrontEnd as WantedFront, Logger as WantedLogger, Analyzer as WantedAnalyzer};
ghost use Rattle.session_setup.specs.DeclaredMembers.{declared_members, logger_number, member_count};
ghost use Rattle.session_objects.specs.Objects.{HaveBuffers, SuitMembers};
ghost use Rattle.session_objects.specs.Kept.{OutNumbers, out_to, out_to_members, ports_out, engine_out, database_out, buffer_out, HasFreshBut, OthersSawNothing};
ghost use Rattle.session_objects.specs.Members.{ring_window, new_ports, new_access, generator_of, event_room_of, event_rooms, idle_analyzer, files_left, IsNewPort, IsNewFront, IsNewLogger, IsNewAnalyzer, IsNewMemberAt, IsMadeLogger, HasNewMembers};

use crate::membership::Membership;
use crate::objects::SessionBuffer;
use crate::passes::{SessionPasses, take_fresh};
use crate::seats::{SessionAnalyzer, SessionFront, SessionLogger, SessionMember, SessionMembers};
use analyzers::Analyzer;
use buffer_lock::SharedPort;
use daq_io::Files;
use daq_members::{
    AnalyzerMember, EngineClient, FrontMember, LoggerMember, Member, MemberKind, SentKey,
};
use daq_types::{BoundedList, Caller, NoMemory};
use event::MAX_DATA;
use front_ends::FrontEnd;
use frontend_kit::Generator;
use loggers::{ChannelSpecs, Logger, Ports};
use mid_logger::ChannelSpec;
use odb_lock::{SharedAccess, SharedOdb};
use odb_tree::Database;
use ring_buffer::RingBuffer;
use session_setup::{AnalyzerDeclared, FrontDeclared, MemberDeclared};
use std::alloc::Global;

/// How many bytes of its slot in a buffer are not an event's data.
const SLOT_HEAD: u32 = 24;

/// The equipment that was declared.
fn generator_of(front: &FrontDeclared) -> Generator
    ensures { result ≡ generator_of front.now }
{
    Generator {
        id: front.id,
        mask: front.mask,
        limit: front.limit,
    }
}

/// The room for an event from this buffer.
fn event_room_of(buffers: &[SessionBuffer], buffer: usize) -> u32
    requires { buffer < length buffers.now }
    ensures { result ≡ event_room_of (slice_get buffers.now buffer) }
{
    MAX_DATA.min(buffers[buffer].size - SLOT_HEAD)
}

/// The room for an event of each of these channels, by the buffer that it reads.
fn event_rooms(
    alloc: Global,
    buffers: &[SessionBuffer],
    channels: &[ChannelSpec],
) -> Result<Vec<u32>, NoMemory>
    requires { HaveBuffers channels.now (length buffers.now) }
    ensures { IfOk result (λ rooms. rooms.items ≡ event_rooms buffers.now channels.now) }
{
    let mut rooms = Vec::new(alloc);
    for channel in channels {
        rooms.push(event_room_of(buffers, channel.buffer as usize))?;
    }
    Ok(rooms)
}

/// The channel once more.
fn copied_channel(channel: &ChannelSpec) -> ChannelSpec
    ensures { result ≡ channel.now }
{
    ChannelSpec {
        number: channel.number,
        pattern: channel.pattern.copy(),
        buffer: channel.buffer,
        id: channel.id,
        mask: channel.mask,
        sub_bytes: channel.sub_bytes,
    }
}

/// The channels once more.
fn copied_channels(alloc: Global, channels: &[ChannelSpec]) -> Result<ChannelSpecs, NoMemory>
    ensures { IfOk result (λ copied. copied ≡ channels.now) }
{
    let mut copied = BoundedList::new(alloc)?;
    for channel in channels {
        copied.try_push(copied_channel(channel))?;
    }
    Ok(copied)
}

/// A logger of these channels, with room for the events of these buffers.
fn make_logger(
    alloc: Global,
    buffers: &[SessionBuffer],
    channels: ChannelSpecs,
) -> Result<Logger, NoMemory>
    requires numbers { HaveNumbers channels }
    requires read { HaveBuffers channels (length buffers.now) }
    ensures { IfOk result (IsMadeLogger buffers.now channels) }
{
    let rooms = event_rooms(alloc, buffers, channels.as_slice())?;
    let logger = Logger::new(alloc, channels, &rooms)?;
    Ok(logger)
}

/// The analyzer that was declared, with room for the events of its buffer.
fn make_analyzer(
    alloc: Global,
    buffers: &[SessionBuffer],
    declared: &AnalyzerDeclared,
) -> Result<Analyzer, NoMemory>
    requires { declared.now.buffer < length buffers.now }
    ensures made { IfOk result (λ analyzer. analyzer
        ≡ idle_analyzer (event_room_of (slice_get buffers.now declared.now.buffer)) declared.now) }
    ensures stands { IfOk result (λ analyzer. AnalyzerStands analyzer.wanted analyzer.client
        analyzer.run [] [] []) }
    ensures tells { IfOk result (λ analyzer. AnalyzerTells analyzer.run []) }
{
    let room = event_room_of(buffers, declared.buffer as usize);
    let AnalyzerDeclared { id, mask, kind, .. } = *declared;
    let analyzer = Analyzer::new(alloc, id, mask, kind, room)?;
    Ok(analyzer)
}

impl<'a, 's, D: Database> Membership<'a, 's, D> {
    /// A port of this client to the buffer of this number, with its pass of that, by which no call was made.
    fn take_port(
        &self,
        client: u32,
        number: usize,
        passes: &mut SessionPasses<D>,
    ) -> SharedPort<'a, RingBuffer>
        requires client { client < 64 }
        requires number { number < length self.now.objects.now.buffers.items }
        requires out { (out : OutNumbers) × HasFreshBut out self.now.objects.now self.now.database.now
            passes.old }
        requires there { (roster : _) → slice_get passes.old.buffers.items number ≡ Some roster →
            Contains (numbers_of roster) (caller_of_client client) }
        ensures out { (out : OutNumbers) → HasFreshBut out self.now.objects.now self.now.database.now
            passes.old → HasFreshBut (buffer_out (caller_of_client client) number out)
            self.now.objects.now self.now.database.now passes.new }
        ensures port { IsNewPort self.now.objects.now.buffers.items number client
            (access_by ring_window result) }
    {
        let caller = Caller::of_client(client).number();
        let pass = passes.take_of_buffer(number, caller);
        SharedPort::new(&self.objects.buffers[number].shared, pass)
    }

    /// An access of this client to the database, with its pass of that, by which no call was made.
    fn take_access(&self, client: u32, passes: &mut SessionPasses<D>) -> SharedAccess<'a, D>
        requires client { client < 64 }
        requires out { (out : OutNumbers) × HasFreshBut out self.now.objects.now self.now.database.now
            passes.old }
        requires there { Contains (numbers_of passes.old.database) (caller_of_client client) }
        ensures out { (out : OutNumbers) → HasFreshBut out self.now.objects.now self.now.database.now
            passes.old → HasFreshBut (database_out (caller_of_client client) out)
            self.now.objects.now self.now.database.now passes.new }
        ensures access { access_by_pass result
            ≡ new_access self.now.database.now (caller_of_client client) }
    {
        let caller = Caller::of_client(client).number();
        SharedAccess::new(self.database, take_fresh(&mut passes.database, caller))
    }

    /// This client at the engine, with its pass of that, by which no call was made.
    fn take_engine(&self, client: u32, passes: &mut SessionPasses<D>) -> EngineClient<'a>
        requires client { client < 64 }
        requires out { (out : OutNumbers) × HasFreshBut out self.now.objects.now self.now.database.now
            passes.old }
        requires there { Contains (numbers_of passes.old.engine) (caller_of_client client) }
        ensures out { (out : OutNumbers) → HasFreshBut out self.now.objects.now self.now.database.now
            passes.old → HasFreshBut (engine_out (caller_of_client client) out)
            self.now.objects.now self.now.database.now passes.new }
        ensures client { result.client ≡ client }
        ensures engine { result.engine ≡ self.now.objects.now.engine }
        ensures calls { result.calls ≡ [] }
    {
        let caller = Caller::of_client(client).number();
        let pass = take_fresh(&mut passes.engine, caller);
        EngineClient::new(&self.objects.engine, pass, client)
    }

    /// The front-end that was declared so with this client number.
    fn make_front(
        &self,
        alloc: Global,
        client: u32,
        declared: &FrontDeclared,
        passes: &mut SessionPasses<D>,
    ) -> Result<SessionFront<'a, D>, NoMemory>
        requires declared { slice_get (declared_members self.now.lists.now) client ≡ Some (WantedFront declared.now) }
        requires suit { SuitMembers self.now.lists.now self.now.objects.now self.now.database.now }
        requires out { HasFreshBut (out_to self.now.lists.now client) self.now.objects.now
            self.now.database.now passes.old }
        ensures out { OnOk result (HasFreshBut (out_to self.now.lists.now (client + 1))
            self.now.objects.now self.now.database.now passes.new) }
        ensures front { IfOk result (IsNewFront self.now.objects.now self.now.database.now client
            declared.now) }
        ensures same { OnErr result (passes.new ≡ passes.old) }
    {
        let key = SentKey::new(alloc, declared.name)?;
        let front = FrontEnd::new(alloc, generator_of(declared))?;
        let port = self.take_port(client, declared.buffer as usize, passes);
        let access = self.take_access(client, passes);
        let engine = self.take_engine(client, passes);
        Ok(FrontMember::new(engine, key, front, port, access))
    }

    /// Ports of this client, one to each buffer.
    fn take_ports(
        &self,
        alloc: Global,
        client: u32,
        passes: &mut SessionPasses<D>,
    ) -> Result<Ports<SharedPort<'a, RingBuffer>>, NoMemory>
        requires declared { slice_get (declared_members self.now.lists.now) client ≡ Some WantedLogger }
        requires suit { SuitMembers self.now.lists.now self.now.objects.now self.now.database.now }
        requires out { HasFreshBut (out_to self.now.lists.now client) self.now.objects.now
            self.now.database.now passes.old }
        ensures out { OnOk result (HasFreshBut (ports_out self.now.lists.now client
            (length self.now.objects.now.buffers.items)) self.now.objects.now
            self.now.database.now passes.new) }
        ensures ports { IfOk result (λ ports. map (access_by ring_window) ports
            ≡ new_ports self.now.objects.now.buffers.items (caller_of_client client)) }
        ensures same { OnErr result (passes.new ≡ passes.old) }
    {
        let mut ports = BoundedList::new(alloc)?;
        for number in 0..self.objects.buffers.len() {
            ports.push(self.take_port(client, number, passes));
        }
        Ok(ports)
    }

    /// The logger, which has this client number. It gets the run files.
    fn make_logger_member<F: Files>(
        &self,
        alloc: Global,
        client: u32,
        passes: &mut SessionPasses<D>,
        files: &mut Option<F>,
    ) -> Result<SessionLogger<'a, F>, NoMemory>
        requires declared { slice_get (declared_members self.now.lists.now) client ≡ Some WantedLogger }
        requires suit { SuitMembers self.now.lists.now self.now.objects.now self.now.database.now }
        requires files { (given : F) × (files.old ≡ Some given) }
        requires out { HasFreshBut (out_to self.now.lists.now client) self.now.objects.now
            self.now.database.now passes.old }
        ensures out { OnOk result (HasFreshBut (out_to self.now.lists.now (client + 1))
            self.now.objects.now self.now.database.now passes.new) }
        ensures logger { (given : F) → files.old ≡ Some given → IfOk result (IsNewLogger
            self.now.objects.now client self.now.lists.now.channels given) }
        ensures files { OnOk result (files.new ≡ None) }
        ensures kept { OnErr result (files.new ≡ files.old) }
        ensures same { OnErr result (passes.new ≡ passes.old) }
    {
        let channels = copied_channels(alloc, self.lists.channels.as_slice())?;
        let logger = make_logger(alloc, &self.objects.buffers, channels)?;
        let ports = self.take_ports(alloc, client, passes)?;
        let engine = self.take_engine(client, passes);
        let Some(files) = files.take() else {
            unreachable!()
        };
        Ok(LoggerMember::new(engine, logger, ports, files))
    }

    /// The analyzer that was declared so with this client number.
    fn make_analyzer_member(
        &self,
        alloc: Global,
        client: u32,
        declared: &AnalyzerDeclared,
        passes: &mut SessionPasses<D>,
    ) -> Result<SessionAnalyzer<'a>, NoMemory>
        requires declared { slice_get (declared_members self.now.lists.now) client
            ≡ Some (WantedAnalyzer declared.now) }
        requires suit { SuitMembers self.now.lists.now self.now.objects.now self.now.database.now }
        requires out { HasFreshBut (out_to self.now.lists.now client) self.now.objects.now
            self.now.database.now passes.old }
        ensures out { OnOk result (HasFreshBut (out_to self.now.lists.now (client + 1))
            self.now.objects.now self.now.database.now passes.new) }
        ensures analyzer { IfOk result (IsNewAnalyzer self.now.objects.now client declared.now) }
        ensures same { OnErr result (passes.new ≡ passes.old) }
    {
        let analyzer = make_analyzer(alloc, &self.objects.buffers, declared)?;
        let port = self.take_port(client, declared.buffer as usize, passes);
        let engine = self.take_engine(client, passes);
        Ok(AnalyzerMember::new(engine, analyzer, port))
    }

    /// The member that was declared with this client number, of whatever kind it is. The logger gets the run files.
    fn make_member<F: Files>(
        &self,
        alloc: Global,
        client: u32,
        passes: &mut SessionPasses<D>,
        files: &mut Option<F>,
    ) -> Result<SessionMember<'a, D, F>, NoMemory>
        requires client { client < member_count self.now.lists.now }
        requires suit { SuitMembers self.now.lists.now self.now.objects.now self.now.database.now }
        requires files { (given : F) × (files.old
            ≡ files_left (logger_number self.now.lists.now) client given) }
        requires out { HasFreshBut (out_to self.now.lists.now client) self.now.objects.now
            self.now.database.now passes.old }
        ensures out { OnOk result (HasFreshBut (out_to self.now.lists.now (client + 1))
            self.now.objects.now self.now.database.now passes.new) }
        ensures member { (given : F) → files.old
            ≡ files_left (logger_number self.now.lists.now) client given → IfOk result
            (IsNewMemberAt self.now.lists.now self.now.objects.now self.now.database.now given client) }
        ensures files { (given : F) → files.old
            ≡ files_left (logger_number self.now.lists.now) client given → OnOk result (files.new
            ≡ files_left (logger_number self.now.lists.now) (client + 1) given) }
        ensures kept { OnErr result (files.new ≡ files.old) }
        ensures same { OnErr result (passes.new ≡ passes.old) }
    {
        match self.lists.member(client as usize) {
            MemberDeclared::FrontEnd(declared) => {
                let front = self.make_front(alloc, client, &declared, passes)?;
                Ok(Member::new(MemberKind::FrontEnd(front)))
            }
            MemberDeclared::Logger => {
                let logger = self.make_logger_member(alloc, client, passes, files)?;
                Ok(Member::new(MemberKind::Logger(logger)))
            }
            MemberDeclared::Analyzer(declared) => {
                let analyzer = self.make_analyzer_member(alloc, client, &declared, passes)?;
                Ok(Member::new(MemberKind::Analyzer(analyzer)))
            }
        }
    }

    /// The members of a session, by their client numbers, none of which made a call: its front-ends, in their order, the logger, and
    /// its analyzers, in their order. Their passes are taken out of those that are kept. Where memory is wanting for the members the
    /// run files come back, and so do the passes of the members that were made.
    pub fn members<F: Files + Drop>(
        &self,
        alloc: Global,
        passes: &mut SessionPasses<D>,
        files: F,
    ) -> Result<SessionMembers<'a, D, F>, F>
        requires suit { SuitMembers self.now.lists.now self.now.objects.now self.now.database.now }
        requires out { HasFreshBut (out_to self.now.lists.now 0) self.now.objects.now
            self.now.database.now passes.old }
        ensures members { IfOk result (HasNewMembers self.now.lists.now
            self.now.objects.now self.now.database.now files) }
        ensures out { OnOk result (HasFreshBut (out_to_members self.now.lists.now)
            self.now.objects.now self.now.database.now passes.new) }
        ensures files { IfErr result (λ back. back ≡ files) }
        ensures back { OnErr result (OthersSawNothing self.now.database.now passes.new.database) }
    {
        let Ok(mut members) = BoundedList::new(alloc) else {
            return Err(files);
        };
        let mut run_files = Some(files);
        for client in 0..self.count() {
            match self.make_member(alloc, client, passes, &mut run_files) {
                Ok(member) => members.push(member),
                Err(NoMemory) => {
                    return Err(self.take_back_made(members, run_files, passes));
                }
            }
        }
        Ok(members)
    }
}
