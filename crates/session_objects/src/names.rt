// How the members of a session are registered.
ghost use Rattle.std.specs.Prelude.{◌≡◌, IfOk};
ghost use Rattle.session_objects.specs.Names.{member_names};

use daq_types::NoMemory;
use session_runs::MemberName;
use session_setup::DeclaredLists;
use std::alloc::Global;

/// The members of a session, each by its name and what it does, in the order of their client numbers.
pub fn member_names(alloc: Global, lists: &DeclaredLists) -> Result<Vec<MemberName>, NoMemory>
    ensures { IfOk result (λ names. names.items ≡ member_names lists.now) }
{
    let mut names = Vec::new(alloc);
    for client in 0..lists.member_count() {
        let declared = lists.member(client);
        names.push(MemberName {
            name: declared.name(),
            role: declared.role(),
        })?;
    }
    Ok(names)
}
