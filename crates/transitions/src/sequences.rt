ghost use Rattle.std.specs.Prelude.{◌≡◌};
ghost use Rattle.transitions.specs.Sequences.{sequence_for, sequences_of};

use daq_types::Transition;

/// By which numbers a client is called at the transitions: those with lower numbers first. `None`: it is not called.
#[derive(Clone, Copy, Debug, PartialEq, Eq)]
pub struct Sequences {
    pub start: Option<u32>,
    pub stop: Option<u32>,
    pub pause: Option<u32>,
    pub resume: Option<u32>,
    pub start_abort: Option<u32>,
}

/// What a member of a session does.
#[derive(Clone, Copy, Debug, PartialEq, Eq)]
pub enum Role {
    FrontEnd,
    Logger,
    Analyzer,
}

impl Sequences {
    /// The number for this transition.
    pub fn get(&self, transition: Transition) -> Option<u32>
        ensures { result ≡ sequence_for self.now transition }
    {
        match transition {
            Transition::Start => self.start,
            Transition::Stop => self.stop,
            Transition::Pause => self.pause,
            Transition::Resume => self.resume,
            Transition::StartAbort => self.start_abort,
        }
    }
}

impl Role {
    /// The numbers of a member in this role.
    pub fn sequences(self) -> Sequences
        ensures { result ≡ sequences_of self }
    {
        match self {
            Role::FrontEnd => Sequences {
                start: Some(500),
                stop: Some(500),
                pause: Some(500),
                resume: Some(500),
                start_abort: Some(500),
            },
            Role::Logger => Sequences {
                start: Some(200),
                stop: Some(800),
                pause: Some(800),
                resume: Some(200),
                start_abort: Some(800),
            },
            Role::Analyzer => Sequences {
                start: Some(300),
                stop: Some(900),
                pause: None,
                resume: None,
                start_abort: Some(900),
            },
        }
    }
}
