//! What the replies to worked scripts print, and which of their lines are refused.
use console::{Refusals, Reply};
use daq_text::TextBuffer;
use daq_types::{
    BoundedList, Bytes, ChannelEnd, ChannelState, Name, NameRefusal, NoMemory, RunState, Why,
};
use event_report::Report;
use odb_commands::{WatchCommandRefusal, WatchReply};
use session_runs::{ChannelFiles, FileRecords, ReportLine, ReportLines, SentLine, SentLines};
use session_setup::SetupRefusal;
use std::alloc::Global;
use sub_files::Pattern;

/// A reply, as the rows tell it.
#[derive(Clone, Copy)]
enum Told {
    Silent,
    BadCommand(u32),
    Setup(SetupRefusal),
    WrongState(RunState),
    LastStart,
    RunNumber(i32),
    /// The member of this name refused the start.
    StartRefused(&'static str, Why),
    Started(u32),
    Paused(u32),
    Resumed(u32),
    /// A dump of so many bytes was saved.
    Saved(u64),
    /// A command for watches was refused.
    WatchRefused(WatchCommandRefusal),
    /// Run 1 ended: what the front-ends of these names sent, and the files of these channels.
    Stopped(&'static [(&'static str, u64)], &'static [Channel]),
    /// Run 2 ended, in which the analyzer ANA got no event.
    Analyzed,
}

/// A channel's number, the pattern of its files, whether it has a limit, and what became of it.
type Channel = (u32, &'static str, bool, ChannelEnd);

/// A channel with no limit whose file ended.
const ENDED: Channel = (
    15,
    "run%05d.mid",
    false,
    ChannelEnd {
        state: ChannelState::Ended,
        files: 1,
        framed: 1,
    },
);

/// One whose file broke off, and one whose file has no end record.
const BROKEN: Channel = (
    0,
    "run%05d.mid",
    false,
    ChannelEnd {
        state: ChannelState::Broken,
        files: 1,
        framed: 0,
    },
);

const NO_END: Channel = (
    0,
    "run%05d.mid",
    false,
    ChannelEnd {
        state: ChannelState::NoEnd,
        files: 1,
        framed: 0,
    },
);

/// A channel that broke off in its third file.
const BROKEN_OFF: Channel = (
    1,
    "run%05dsub%04d.mid",
    true,
    ChannelEnd {
        state: ChannelState::Broken,
        files: 3,
        framed: 2,
    },
);

/// Replies, the numbers of their lines, and what is printed.
const ROWS: &[(Told, u64, &str)] = &[
    (Told::Silent, 1, ""),
    (Told::BadCommand(0), 1, "refused 1: BadCommand 0\n"),
    (Told::Started(1), 1, "run 1 started\n"),
    (Told::Paused(1), 1, "run 1 paused\n"),
    (Told::Resumed(1), 1, "run 1 resumed\n"),
    (Told::LastStart, 1, "refused 1: LastStart\n"),
    (Told::Saved(269), 1, "saved 269\n"),
    (
        Told::WatchRefused(WatchCommandRefusal::NoWatch),
        1,
        "refused 1: NoWatch\n",
    ),
    (Told::RunNumber(-1), 1, "refused 1: RunNumber -1\n"),
    (
        Told::WrongState(RunState::Stopped),
        1,
        "refused 1: WrongState 1\n",
    ),
    (
        Told::StartRefused("Logger", Why::Exists { channel: 0 }),
        1,
        "refused 1: StartRefused Logger Exists 0\n",
    ),
    (
        Told::StartRefused("FE", Why::NotReady),
        1,
        "refused 1: StartRefused FE NotReady\n",
    ),
    (
        Told::Setup(SetupRefusal::Opened),
        12,
        "refused 12: Opened\n",
    ),
    (
        Told::Setup(SetupRefusal::BadName(NameRefusal::EmptyName)),
        12,
        "refused 12: EmptyName\n",
    ),
    (
        Told::Setup(SetupRefusal::BadName(NameRefusal::BadByte { at: 3 })),
        12,
        "refused 12: BadByte 3\n",
    ),
    (
        Told::Setup(SetupRefusal::TooMany { most: 8 }),
        12,
        "refused 12: TooMany 8\n",
    ),
    (
        Told::Setup(SetupRefusal::TooMany {
            most: 1_073_741_824,
        }),
        12,
        "refused 12: TooMany 1073741824\n",
    ),
    (
        Told::Setup(SetupRefusal::SameId),
        12,
        "refused 12: SameId\n",
    ),
    (
        Told::Setup(SetupRefusal::Compressed),
        12,
        "refused 12: Compressed\n",
    ),
    (
        Told::Stopped(&[("FE", 0)], &[ENDED]),
        3,
        "run 1 stopped\nFE sent 0\nrun00001.mid Ended\n",
    ),
    (
        Told::Stopped(&[("A", 1), ("B", 1)], &[NO_END]),
        3,
        "run 1 stopped\nA sent 1\nB sent 1\nrun00001.mid NoEnd\n",
    ),
    (
        Told::Stopped(&[("FE", 3)], &[BROKEN]),
        3,
        "run 1 stopped\nFE sent 3\nrun00001.mid Broken\n",
    ),
    (
        Told::Stopped(&[("FE", 3)], &[BROKEN_OFF, ENDED]),
        3,
        "run 1 stopped\nFE sent 3\nrun00001sub0000.mid Ended\nrun00001sub0001.mid Ended\n\
         run00001sub0002.mid Broken\nrun00001.mid Ended\n",
    ),
    (
        Told::Analyzed,
        9,
        "run 2 stopped\nANA events 0\nANA rest ids 0 banks 0 bad 0\n",
    ),
];

/// What the front-ends sent. One whose name is none has no line.
fn sent_lines(alloc: Global, fronts: &[(&str, u64)]) -> Result<SentLines, NoMemory> {
    let mut lines = BoundedList::new(alloc)?;
    for (front, sent) in fronts {
        if let Ok(name) = Name::new(front.as_bytes()) {
            lines.try_push(SentLine { name, sent: *sent })?;
        }
    }
    Ok(lines)
}

/// The files of these channels. One whose pattern is none has no line.
fn file_records(alloc: Global, channels: &[Channel]) -> Result<FileRecords, NoMemory> {
    let mut files = BoundedList::new(alloc)?;
    for (channel, text, limited, told) in channels {
        if let Ok(pattern) = Pattern::new(text, *limited) {
            files.try_push(ChannelFiles {
                channel: *channel,
                pattern,
                told: *told,
            })?;
        }
    }
    Ok(files)
}

/// The report of the analyzer ANA, which got no event.
fn report_lines(alloc: Global) -> Result<ReportLines, NoMemory> {
    let mut start = Vec::new(alloc);
    start.extend_from_slice(b"ANA ")?;
    let mut reports = BoundedList::new(alloc)?;
    reports.try_push(ReportLine {
        start: Bytes::of(start),
        report: Report::new(alloc)?,
    })?;
    Ok(reports)
}

/// The end of run 1.
fn stopped(alloc: Global, fronts: &[(&str, u64)], channels: &[Channel]) -> Result<Reply, NoMemory> {
    Ok(Reply::Stopped {
        run: 1,
        fronts: sent_lines(alloc, fronts)?,
        files: file_records(alloc, channels)?,
        reports: BoundedList::new(alloc)?,
    })
}

/// The end of run 2.
fn analyzed(alloc: Global) -> Result<Reply, NoMemory> {
    Ok(Reply::Stopped {
        run: 2,
        fronts: BoundedList::new(alloc)?,
        files: BoundedList::new(alloc)?,
        reports: report_lines(alloc)?,
    })
}

/// The refusal of a start, silent where the member's name is none.
fn start_refused(member: &str, why: Why) -> Reply {
    match Name::new(member.as_bytes()) {
        Ok(client) => Reply::StartRefused { client, why },
        Err(_) => Reply::Silent,
    }
}

/// The reply itself.
fn reply_of(alloc: Global, told: Told) -> Result<Reply, NoMemory> {
    let reply = match told {
        Told::Silent => Reply::Silent,
        Told::BadCommand(at) => Reply::BadCommand { at },
        Told::Setup(refusal) => Reply::Setup { refusal },
        Told::WrongState(state) => Reply::WrongState { state },
        Told::LastStart => Reply::LastStart,
        Told::RunNumber(have) => Reply::RunNumber { have },
        Told::StartRefused(member, why) => start_refused(member, why),
        Told::Started(run) => Reply::Started { run },
        Told::Paused(run) => Reply::Paused { run },
        Told::Resumed(run) => Reply::Resumed { run },
        Told::Saved(bytes) => Reply::Watch {
            reply: WatchReply::Saved { bytes },
        },
        Told::WatchRefused(why) => Reply::Watch {
            reply: WatchReply::Refused { why },
        },
        Told::Stopped(fronts, channels) => return stopped(alloc, fronts, channels),
        Told::Analyzed => return analyzed(alloc),
    };
    Ok(reply)
}

/// Whether the reply to the line of this number prints this text.
fn prints(alloc: Global, line: u64, reply: &Reply, wanted: &[u8]) -> Result<bool, NoMemory> {
    let mut text = TextBuffer::new(alloc);
    reply.print(line, &mut text)?;
    Ok(text.as_slice() == wanted)
}

/// Whether the reply prints so, and refuses its line where the text begins so.
fn is_told(alloc: Global, line: u64, reply: &Reply, wanted: &[u8]) -> Result<bool, NoMemory> {
    let refused = wanted.starts_with(b"refused ".as_slice());
    Ok(prints(alloc, line, reply, wanted)? && reply.is_refusal() == refused)
}

/// Whether the reply that is told does so.
fn is_right(alloc: Global, line: u64, told: Told, wanted: &[u8]) -> Result<bool, NoMemory> {
    let reply = reply_of(alloc, told)?;
    is_told(alloc, line, &reply, wanted)
}

#[test]
fn replies_print(rt: HostRuntime) {
    for (told, line, wanted) in ROWS {
        let is_right = is_right(rt.alloc(), *line, *told, wanted.as_bytes());
        assert!(rt; matches!(is_right, Ok(true)), "{wanted}");
    }
}

#[test]
fn lines_that_were_refused(rt: HostRuntime) {
    let mut refusals = Refusals::NONE;
    refusals.note(1, &Reply::Silent);
    assert!(rt; refusals == Refusals::NONE);
    refusals.note(2, &Reply::LastStart);
    refusals.note(3, &Reply::Started { run: 1 });
    refusals.note(4, &Reply::BadCommand { at: 0 });
    assert!(rt; refusals == Refusals { count: 2, first: 2 });
}
