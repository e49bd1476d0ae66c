use member_crew::Rounds;
use std::sync::Wait;

/// Members of which nothing is said.
#[derive(Clone, Copy, Debug)]
pub struct PassedOver;

impl Rounds for PassedOver {
    ghost use Rattle.session_commands.specs.NothingSaid.{NothingSaid};

    ghost round = { NothingSaid };

    /// Does nothing.
    fn round<R: Wait>(&mut self, _rt: &R) {}
}
