//! Declarations, and why each is refused.
use daq_text::TextBuffer;
use daq_types::{Kind, NameRefusal, NoMemory};
use session_setup::{Declarations, SetupRefusal};
use std::alloc::Global;

/// A line that declares something.
#[derive(Clone, Copy)]
enum Line<'a> {
    /// `buffer NAME SIZE`.
    Buffer(&'a str, u32),
    /// `equip NAME ID 0 BUFFER 10`.
    Equip(&'a str, u32, &'a str),
    /// `channel N PATTERN BUFFER 65535 65535 SUBBYTES`.
    Channel(u32, &'a str, &'a str, u32),
    /// `analyzer NAME BUFFER 65535 65535 all`.
    Analyzer(&'a str, &'a str),
}

/// A line, and its refusal; none where it declares.
type Row = (Line<'static>, Option<SetupRefusal>);

const EMPTY_NAME: SetupRefusal = SetupRefusal::BadName(NameRefusal::EmptyName);

const LONG_NAME: SetupRefusal = SetupRefusal::BadName(NameRefusal::LongName);

/// A name has a `/` at place 1.
const SLASH: SetupRefusal = SetupRefusal::BadName(NameRefusal::BadByte { at: 1 });

/// The buffers of a session would have more bytes than 2^30.
const BUFFERS_TOO_LARGE: SetupRefusal = SetupRefusal::TooMany { most: 1073741824 };

/// There are eight buffers, or eight analyzers.
const EIGHT: SetupRefusal = SetupRefusal::TooMany { most: 8 };

/// Buffers of one session, in order.
const BUFFERS: &[Row] = &[
    (Line::Buffer("", 0), Some(EMPTY_NAME)),
    (
        Line::Buffer("a name of more than thirty-one by", 0),
        Some(LONG_NAME),
    ),
    (Line::Buffer("A/B", 0), Some(SLASH)),
    (Line::Buffer("A", 248), Some(SetupRefusal::BadBufferSize)),
    (Line::Buffer("A", 260), Some(SetupRefusal::BadBufferSize)),
    (
        Line::Buffer("A", 268435464),
        Some(SetupRefusal::BadBufferSize),
    ),
    (Line::Buffer("A", 256), None),
    (Line::Buffer("a", 0), Some(SetupRefusal::Exists)),
    (Line::Buffer("B", 268435456), None),
    (Line::Buffer("C", 268435456), None),
    (Line::Buffer("D", 268435456), None),
    (Line::Buffer("E", 268435456), Some(BUFFERS_TOO_LARGE)),
    (Line::Buffer("system", 0), Some(SetupRefusal::BadBufferSize)),
    (Line::Buffer("system", 268435456), Some(BUFFERS_TOO_LARGE)),
    (Line::Buffer("system", 4096), None),
    (Line::Buffer("E", 256), None),
    (Line::Buffer("F", 256), None),
    (Line::Buffer("G", 256), None),
    (Line::Buffer("H", 0), Some(SetupRefusal::BadBufferSize)),
    (Line::Buffer("H", 268435456), Some(EIGHT)),
    (Line::Buffer("SYSTEM", 1048576), None),
];

/// Front-ends of one session, in order.
const FRONTS: &[Row] = &[
    (Line::Equip("", 0, "NONE"), Some(EMPTY_NAME)),
    (
        Line::Equip("LOGGER", 0, "NONE"),
        Some(SetupRefusal::SameName),
    ),
    (Line::Equip("A", 0, "NONE"), Some(SetupRefusal::BadId)),
    (Line::Equip("A", 32768, "NONE"), Some(SetupRefusal::BadId)),
    (Line::Equip("A", 1, "NONE"), Some(SetupRefusal::NoBuffer)),
    (Line::Equip("A", 1, "no/name"), Some(SetupRefusal::NoBuffer)),
    (Line::Equip("A", 1, "system"), None),
    (Line::Equip("a", 0, "NONE"), Some(SetupRefusal::SameName)),
    (Line::Equip("B", 1, "NONE"), Some(SetupRefusal::SameId)),
    (Line::Equip("B", 32767, "SYSTEM"), None),
];

/// Channels of one session, in order.
const CHANNELS: &[Row] = &[
    (
        Line::Channel(16, "run.mid", "NONE", 300),
        Some(SetupRefusal::BadChannel),
    ),
    (
        Line::Channel(15, "run.mid", "NONE", 0),
        Some(SetupRefusal::BadPattern),
    ),
    (
        Line::Channel(15, "run%05d.gz", "NONE", 0),
        Some(SetupRefusal::Compressed),
    ),
    (
        Line::Channel(15, "run%05d.mid", "NONE", 0),
        Some(SetupRefusal::NoBuffer),
    ),
    (Line::Channel(15, "run%05d.mid", "system", 0), None),
    (
        Line::Channel(15, "run.mid", "NONE", 0),
        Some(SetupRefusal::SameChannel),
    ),
    (Line::Channel(0, "sub%05d.mid", "SYSTEM", 0), None),
];

/// Channels of one session whose files have a limit, or whose pattern has a place for the file's number, in order.
const LIMITED: &[Row] = &[
    (
        Line::Channel(1, "run%05dsub%04d.mid", "NONE", 0),
        Some(SetupRefusal::BadPattern),
    ),
    (
        Line::Channel(1, "run%05d.mid", "NONE", 1),
        Some(SetupRefusal::BadPattern),
    ),
    (
        Line::Channel(1, "sub%04drun%05d.mid", "NONE", 300),
        Some(SetupRefusal::BadPattern),
    ),
    (
        Line::Channel(1, "run%05dsub%04d%04d.mid", "NONE", 300),
        Some(SetupRefusal::BadPattern),
    ),
    (
        Line::Channel(1, "run%05dsub%04d.gz", "NONE", 300),
        Some(SetupRefusal::Compressed),
    ),
    (
        Line::Channel(1, "run%05dsub%04d.mid", "NONE", 300),
        Some(SetupRefusal::NoBuffer),
    ),
    (Line::Channel(1, "run%05dsub%04d.mid", "SYSTEM", 1), None),
    (
        Line::Channel(1, "run%05d.mid", "NONE", 300),
        Some(SetupRefusal::SameChannel),
    ),
    (Line::Channel(2, "%05d%04d", "SYSTEM", 4294967295), None),
    (Line::Channel(3, "run%05d.mid", "SYSTEM", 0), None),
];

/// Analyzers of one session with a front-end, in order.
const ANALYZERS: &[Row] = &[
    (Line::Equip("FE", 1, "SYSTEM"), None),
    (Line::Analyzer("A/B", "NONE"), Some(SLASH)),
    (
        Line::Analyzer("logger", "NONE"),
        Some(SetupRefusal::SameName),
    ),
    (Line::Analyzer("fe", "NONE"), Some(SetupRefusal::SameName)),
    (Line::Analyzer("A", "NONE"), Some(SetupRefusal::NoBuffer)),
    (Line::Analyzer("A", "system"), None),
    (Line::Analyzer("a", "NONE"), Some(SetupRefusal::SameName)),
    (Line::Analyzer("B", "SYSTEM"), None),
    (Line::Analyzer("C", "SYSTEM"), None),
    (Line::Analyzer("D", "SYSTEM"), None),
    (Line::Analyzer("E", "SYSTEM"), None),
    (Line::Analyzer("F", "SYSTEM"), None),
    (Line::Analyzer("G", "SYSTEM"), None),
    (Line::Analyzer("H", "SYSTEM"), None),
    (Line::Analyzer("I", "SYSTEM"), Some(EIGHT)),
    (Line::Equip("a", 2, "SYSTEM"), Some(SetupRefusal::SameName)),
];

/// Lines behind the opening.
const OPENED: &[Row] = &[
    (Line::Buffer("", 0), Some(SetupRefusal::Opened)),
    (Line::Equip("", 0, "NONE"), Some(SetupRefusal::Opened)),
    (
        Line::Channel(16, "run.mid", "NONE", 0),
        Some(SetupRefusal::Opened),
    ),
    (Line::Analyzer("", "NONE"), Some(SetupRefusal::Opened)),
];

/// The refusal of a line.
fn refusal(session: &mut Declarations, line: Line<'_>) -> Option<SetupRefusal> {
    let answer = match line {
        Line::Buffer(name, size) => session.buffer(name.as_bytes(), size),
        Line::Equip(name, id, buffer) => {
            session.equip(name.as_bytes(), id, 0, buffer.as_bytes(), 10)
        }
        Line::Channel(number, pattern, buffer, sub_bytes) => {
            let pattern = pattern.as_bytes();
            session.channel(number, pattern, buffer.as_bytes(), 65535, 65535, sub_bytes)
        }
        Line::Analyzer(name, buffer) => {
            session.analyzer(name.as_bytes(), buffer.as_bytes(), 65535, 65535, Kind::All)
        }
    };
    answer.err()
}

/// The place of the first of these lines that is not answered as it is told.
fn first_wrong(session: &mut Declarations, rows: &[Row]) -> Option<usize> {
    for (place, (line, expected)) in rows.iter().enumerate() {
        if refusal(session, *line) != *expected {
            return Some(place);
        }
    }
    None
}

/// How many buffers, front-ends, channels and analyzers are declared.
fn counts(session: &Declarations) -> [usize; 4] {
    [
        session.buffers().len(),
        session.fronts().len(),
        session.channels().len(),
        session.analyzers().len(),
    ]
}

/// What a session declares by these lines: so many buffers, front-ends, channels and analyzers.
const SESSIONS: &[(&[Row], [usize; 4])] = &[
    (BUFFERS, [8, 0, 0, 0]),
    (FRONTS, [1, 2, 0, 0]),
    (CHANNELS, [1, 0, 2, 0]),
    (LIMITED, [1, 0, 3, 0]),
    (ANALYZERS, [1, 1, 0, 8]),
];

/// The first of these lines that is not answered as it is told, and what is declared behind them.
fn declare(alloc: Global, rows: &[Row]) -> Result<(Option<usize>, [usize; 4]), NoMemory> {
    let mut session = Declarations::new(alloc)?;
    let wrong = first_wrong(&mut session, rows);
    Ok((wrong, counts(&session)))
}

#[test]
fn lines_are_refused_in_order(rt: HostRuntime) {
    for (rows, expected) in SESSIONS {
        let (wrong, declared) = declare(rt.alloc(), rows).expect(&rt, "memory");
        let is_right = wrong.is_none() && declared == *expected;
        assert!(rt; is_right, "row {wrong:?}, {expected:?}");
    }
}

/// Declares a front-end whose name is F and its id, and tells whether it does.
fn declares(alloc: Global, session: &mut Declarations, id: u32) -> Result<bool, NoMemory> {
    let mut name = TextBuffer::new(alloc);
    name.text(b"F")?;
    name.number(u64::from(id))?;
    Ok(session.equip(name.as_slice(), id, 0, b"SYSTEM", 10).is_ok())
}

/// Whether thirty-two front-ends are declared.
fn declares_all(alloc: Global, session: &mut Declarations) -> Result<bool, NoMemory> {
    for id in 1..=32u32 {
        if !declares(alloc, session, id)? {
            return Ok(false);
        }
    }
    Ok(true)
}

/// Whether one more is refused.
fn refuses_one_more(session: &mut Declarations) -> bool {
    let refused = session.equip(b"F33", 33, 0, b"SYSTEM", 10);
    refused == Err(SetupRefusal::TooMany { most: 32 }) && counts(session) == [1, 32, 0, 0]
}

/// Whether both hold of the session.
fn is_filled(alloc: Global, session: &mut Declarations) -> Result<bool, NoMemory> {
    Ok(declares_all(alloc, session)? && refuses_one_more(session))
}

/// Whether a session has thirty-two front-ends and no more.
fn has_thirty_two(alloc: Global) -> Result<bool, NoMemory> {
    let mut session = Declarations::new(alloc)?;
    is_filled(alloc, &mut session)
}

#[test]
fn a_session_has_thirty_two_front_ends(rt: HostRuntime) {
    assert!(rt; matches!(has_thirty_two(rt.alloc()), Ok(true)));
}

/// Whether the first front-end is that of a session which declares none.
fn has_default_front(session: &Declarations) -> bool {
    let Some(front) = session.fronts().first() else {
        return false;
    };
    front.name.as_slice() == b"FE".as_slice()
        && front.id == 1
        && front.mask == 0
        && front.buffer == 0
        && front.limit == 4294967295
}

/// Whether the first channel is that of a session which declares none.
fn has_default_channel(session: &Declarations) -> bool {
    let Some(channel) = session.channels().first() else {
        return false;
    };
    channel.number == 0
        && channel.pattern.name(7, 0).as_slice() == b"run00007.mid".as_slice()
        && channel.buffer == 0
        && channel.id == 65535
        && channel.mask == 65535
        && channel.sub_bytes == 0
}

/// Whether the session has one of each, and no analyzer.
fn has_defaults(session: &Declarations) -> bool {
    has_default_front(session) && has_default_channel(session) && counts(session) == [1, 1, 1, 0]
}

/// Whether each of the lists that a session gives has one item.
fn gives_one_of_each(session: Declarations) -> bool {
    let lists = session.into_lists();
    let counts = [
        lists.buffers.len(),
        lists.fronts.len(),
        lists.channels.len(),
    ];
    counts == [1, 1, 1]
}

/// The first of the lines behind the opening that is not answered as it is told, and whether the rest is as it must be.
fn open(alloc: Global) -> Result<(Option<usize>, bool), NoMemory> {
    let mut session = Declarations::new(alloc)?;
    session.open();
    let is_opened = session.is_opened();
    let wrong = first_wrong(&mut session, OPENED);
    let has_defaults = has_defaults(&session);
    let gives_lists = gives_one_of_each(session);
    Ok((wrong, is_opened && has_defaults && gives_lists))
}

#[test]
fn an_opened_session_has_defaults_and_declares_no_more(rt: HostRuntime) {
    let (wrong, is_right) = open(rt.alloc()).expect(&rt, "memory");
    assert!(rt; wrong.is_none() && is_right, "row {wrong:?}");
}
