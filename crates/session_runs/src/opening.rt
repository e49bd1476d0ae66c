// The members of a session at the engine: how they are registered, and how the engine is closed behind them.
ghost use Rattle.std.specs.Prelude.{◌≡◌, ◌+◌, ◌≤◌, ◌++◌, ◌∷◌, [], None, Ok, length, false};
ghost use Rattle.daq_types.specs.Callers.{main_caller};
ghost use Rattle.turn_lock.specs.Passes.{number_of, held_by, own_entries, IsOf};
ghost use Rattle.transitions.specs.declared.entry.EngineEntry.TheVariants.{Close};
ghost use Rattle.transitions.specs.Engines.{engine_opening};
ghost use Rattle.transitions.specs.Limits.{most_clients};
ghost use Rattle.transition_lock.specs.SharedEngines.{engine_lock_of, first_engine};
ghost use Rattle.session_runs.specs.MainKnowledge.{known_from};
ghost use Rattle.session_runs.specs.Members.{gets_dumps, gets_reports, registration, registrations, sends_events};

use daq_types::Name;
use std::sync::Wait;
use transition_lock::{EnginePass, SharedEngine};
use transitions::Role;

/// How a member of a session is registered.
#[derive(Clone, Copy, Debug)]
pub struct MemberName {
    pub name: Name,
    pub role: Role,
}

/// Whether a member in this role writes the database's text.
fn wants_dump(role: Role) -> bool
    ensures { result ≡ gets_dumps role }
{
    matches!(role, Role::Logger)
}

/// Whether a member in this role sends events of its own.
pub(crate) fn sends_events(role: Role) -> bool
    ensures { result ≡ sends_events role }
{
    matches!(role, Role::FrontEnd)
}

/// Whether a member in this role counts in a report.
pub(crate) fn wants_report(role: Role) -> bool
    ensures { result ≡ gets_reports role }
{
    matches!(role, Role::Analyzer)
}

/// Registers one member, which gets the next client number.
fn register_one<R: Wait>(rt: &R, engine: &SharedEngine, main: &mut EnginePass, member: &MemberName)
    requires main { number_of main.old ≡ main_caller }
    requires own { IsOf (engine_lock_of engine.now) main.old }
    requires idle { held_by main.old ≡ None }
    requires opening { first_engine engine.now ≡ engine_opening }
    requires open_yet { (known_from (own_entries main.old)).closed ≡ false }
    requires none_going { (known_from (own_entries main.old)).going ≡ None }
    requires room { length (known_from (own_entries main.old)).clients + 1 ≤ most_clients }
    ensures registered { own_entries main.new ≡ own_entries main.old
        ++ registration (length (known_from (own_entries main.old)).clients) member.now ∷ [] }
    ensures main { number_of main.new ≡ main_caller }
    ensures own { IsOf (engine_lock_of engine.now) main.new }
    ensures idle { held_by main.new ≡ None }
{
    let MemberName { name, role } = *member;
    let dump = wants_dump(role);
    let report = wants_report(role);
    let _ = engine.register(rt, main, name, role.sequences(), dump, report);
}

/// Registers the members in order, with their sequence numbers. Each gets the client number behind the one before it; the
/// logger gets the database's text, and an analyzer a report to count in.
pub(crate) fn register_all<R: Wait>(
    rt: &R,
    engine: &SharedEngine,
    main: &mut EnginePass,
    members: &[MemberName],
)
    requires main { number_of main.old ≡ main_caller }
    requires own { IsOf (engine_lock_of engine.now) main.old }
    requires idle { held_by main.old ≡ None }
    requires opening { first_engine engine.now ≡ engine_opening }
    requires open_yet { (known_from (own_entries main.old)).closed ≡ false }
    requires none_going { (known_from (own_entries main.old)).going ≡ None }
    requires room { length (known_from (own_entries main.old)).clients + length members.now
        ≤ most_clients }
    ensures registered { own_entries main.new ≡ own_entries main.old
        ++ registrations (length (known_from (own_entries main.old)).clients) members.now }
    ensures main { number_of main.new ≡ main_caller }
    ensures own { IsOf (engine_lock_of engine.now) main.new }
    ensures idle { held_by main.new ≡ None }
{
    for member in members {
        register_one(rt, engine, main, member);
    }
}

/// Closes the engine, where no transition is going on. Its clients find it closed from then on.
pub(crate) fn close<R: Wait>(rt: &R, engine: &SharedEngine, main: &mut EnginePass)
    requires main { number_of main.old ≡ main_caller }
    requires own { IsOf (engine_lock_of engine.now) main.old }
    requires idle { held_by main.old ≡ None }
    requires opening { first_engine engine.now ≡ engine_opening }
    requires none_going { (known_from (own_entries main.old)).going ≡ None }
    ensures closed { own_entries main.new ≡ own_entries main.old ++ Close (Ok tt) ∷ [] }
    ensures main { number_of main.new ≡ main_caller }
    ensures own { IsOf (engine_lock_of engine.now) main.new }
    ensures idle { held_by main.new ≡ None }
{
    let _ = engine.close(rt, main);
}
