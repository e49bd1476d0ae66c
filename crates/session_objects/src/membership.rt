// What the members of a session are made for.
ghost use Rattle.std.specs.Prelude.{◌≡◌, ◌<◌, ◌≤◌, length, slice_get, Some};
ghost use Rattle.session_setup.specs.DeclaredMembers.{declared_members, member_count, own_buffer};

use crate::objects::SessionObjects;
use odb_lock::SharedOdb;
use odb_tree::Database;
use session_setup::DeclaredLists;

/// What the members of a session call, and which members it has: its objects and its database, and what was declared.
#[derive(Drop)]
pub struct Membership<'a, 's, D: Database> {
    pub objects: &'a SessionObjects,
    pub database: &'a SharedOdb<D>,
    pub lists: &'s DeclaredLists,
}

impl<'a, 's, D: Database> Membership<'a, 's, D> {
    /// How many members were declared.
    pub(crate) fn count(&self) -> u32
        requires few { length self.now.lists.now.fronts ≤ 32 }
        requires few_analyzers { length self.now.lists.now.analyzers ≤ 8 }
        ensures { result ≡ member_count self.now.lists.now }
    {
        self.lists.member_count() as u32
    }

    /// The number of the buffer that the member with this client number calls, where it calls one alone.
    pub(crate) fn own_buffer(&self, client: usize) -> Option<usize>
        requires { client < member_count self.now.lists.now }
        ensures { (declared : _) → slice_get (declared_members self.now.lists.now) client ≡ Some declared
            → result ≡ own_buffer declared }
    {
        self.lists.member(client).own_buffer()
    }
}
