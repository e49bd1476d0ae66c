ghost use Rattle.std.specs.Prelude.{◌≡◌, ◌<◌, slice_get, Some};
ghost use Rattle.mid_logger.specs.ChannelTurns.{logger_name};
ghost use Rattle.session_setup.specs.DeclaredMembers.{declared_members, member_count, own_buffer, name_of_member, role_of_member};

use crate::declared::{AnalyzerDeclared, DeclaredLists, FrontDeclared};
use daq_types::Name;
use transitions::Role;

/// What was declared with a client number: which kind of member.
#[derive(Clone, Copy, Debug)]
pub enum MemberDeclared {
    FrontEnd(FrontDeclared),
    Logger,
    Analyzer(AnalyzerDeclared),
}

/// The name of the logger.
fn logger_name() -> Name
    ensures { result ≡ logger_name }
{
    match Name::new(b"Logger") {
        Ok(name) => name,
        Err(_) => unreachable!(),
    }
}

impl MemberDeclared {
    /// What the member does.
    pub fn role(&self) -> Role
        ensures { result ≡ role_of_member self.now }
    {
        match self {
            MemberDeclared::FrontEnd(_) => Role::FrontEnd,
            MemberDeclared::Logger => Role::Logger,
            MemberDeclared::Analyzer(_) => Role::Analyzer,
        }
    }

    /// The name of the member.
    pub fn name(&self) -> Name
        ensures { result ≡ name_of_member self.now }
    {
        match self {
            MemberDeclared::FrontEnd(front) => front.name,
            MemberDeclared::Logger => logger_name(),
            MemberDeclared::Analyzer(analyzer) => analyzer.name,
        }
    }

    /// The number of the buffer that the member calls, where it calls one alone.
    pub fn own_buffer(&self) -> Option<usize>
        ensures { result ≡ own_buffer self.now }
    {
        match self {
            MemberDeclared::FrontEnd(front) => Some(front.buffer as usize),
            MemberDeclared::Logger => None,
            MemberDeclared::Analyzer(analyzer) => Some(analyzer.buffer as usize),
        }
    }
}

impl DeclaredLists {
    /// How many members were declared.
    pub fn member_count(&self) -> usize
        ensures { result ≡ member_count self.now }
    {
        self.fronts.as_slice().len() + 1 + self.analyzers.as_slice().len()
    }

    /// The member that was declared with this client number.
    pub fn member(&self, client: usize) -> MemberDeclared
        requires { client < member_count self.now }
        ensures { slice_get (declared_members self.now) client ≡ Some result }
    {
        let fronts = self.fronts.as_slice();
        if client < fronts.len() {
            return MemberDeclared::FrontEnd(fronts[client]);
        }
        if client == fronts.len() {
            return MemberDeclared::Logger;
        }
        MemberDeclared::Analyzer(self.analyzers.as_slice()[client - fronts.len() - 1])
    }
}
