// The members of a session, by what they are made of.
use buffer_lock::SharedPort;
use daq_members::{AnalyzerMember, FrontMember, LoggerMember, Member, Members};
use frontend_kit::Generator;
use odb_lock::SharedAccess;
use ring_buffer::RingBuffer;

/// A front-end of a session, which generates its events.
pub type SessionFront<'a, D> = FrontMember<
    'a,
    Generator,
    SharedPort<'a, RingBuffer>,
    SharedAccess<'a, D>,
>;

/// The logger of a session.
pub type SessionLogger<'a, F> = LoggerMember<'a, SharedPort<'a, RingBuffer>, F>;

/// An analyzer of a session.
pub type SessionAnalyzer<'a> = AnalyzerMember<'a, SharedPort<'a, RingBuffer>>;

/// A member of a session.
pub type SessionMember<'a, D, F> = Member<
    'a,
    Generator,
    SharedPort<'a, RingBuffer>,
    SharedAccess<'a, D>,
    F,
>;

/// The members of a session, by their client numbers.
pub type SessionMembers<'a, D, F> = Members<
    'a,
    Generator,
    SharedPort<'a, RingBuffer>,
    SharedAccess<'a, D>,
    F,
>;
