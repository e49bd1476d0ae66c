//! Sessions that are seen at a gate: one whose members meet there, each held until all have come, which they can only where each
//! has its turns in a thread of its own; and one whose rounds tell the order of the turns.
use crate::manners::Manner;
use crate::page::Page;
use crate::playing::tell_row;
use crate::rows::{PLAIN, Row};
use daq_io::{Gate, Point};
use std::alloc::Global;
use std::fmt::Write;
use std::sync::Wait;
use std::sync::atomic::{AtomicU64, Ordering};
use std::thread::{self, Threads};

/// How often a gate looks, in all, before it gives up and holds nobody any more.
const LOOKS: u64 = 1_000_000_000;

/// How many members the session has: two front-ends, the logger and an analyzer.
const MEMBERS: u64 = 4;

/// The session.
static MEETING: Row = Row {
    title: "Two front-ends, the logger and an analyzer, which meet at a gate",
    script: "equip A 1 0 SYSTEM\nequip B 2 0 SYSTEM\n\
        analyzer ANA SYSTEM 65535 65535 all\nevents 2\nstart\nstop\n",
    tools: &[&["check", "run00001.mid"], &["analyze", "run00001.mid"]],
    ..PLAIN
};

/// A session of a front-end, the logger and an analyzer whose start makes no transition, so that each member has one piece of work
/// to do in each of its turns, and there is one round before each line behind the start.
static ROUNDS: Row = Row {
    title: "A front-end, the logger and an analyzer, round by round",
    script: "equip FE 1 0 SYSTEM\nanalyzer ANA SYSTEM 65535 65535 all\n\
        set \"/Runinfo/Run number\" -1\nstart\nget /Runinfo/State\nget /Runinfo/State\n\
        get /Runinfo/State\nget /Runinfo/State\nexit\n",
    ..PLAIN
};

/// Which member is first in each of its rounds.
const FIRST: Manner = Manner::InTurns {
    picks: &[2, 0, 1, 1, 2],
};

/// What a member came to last at a gate.
#[derive(Drop)]
struct LastPoint {
    number: AtomicU64,
}

impl LastPoint {
    /// Nothing yet.
    fn new() -> LastPoint {
        LastPoint {
            number: AtomicU64::new(0),
        }
    }

    /// The number of a point. 0 stands for none.
    fn number_of(point: Point) -> u64 {
        match point {
            Point::BeforeSend => 1,
            Point::AfterSend => 2,
            Point::BeforeReceive => 3,
            Point::AfterReceive => 4,
        }
    }

    /// Whether it came to none.
    fn is_none(&self) -> bool {
        self.number.load(Ordering::SeqCst) == 0
    }

    /// The member comes to this point. Answers whether it follows on the last one: each point behind a call on the one before that
    /// call, and each before a call on the one behind the call before it, if there was one.
    fn follow(&self, point: Point) -> bool {
        let last = self
            .number
            .swap(LastPoint::number_of(point), Ordering::SeqCst);
        match point {
            Point::BeforeSend => last == 0 || last == 2,
            Point::AfterSend => last == 1,
            Point::BeforeReceive => last == 0 || last == 4,
            Point::AfterReceive => last == 3,
        }
    }

    /// Its name.
    fn name(&self) -> &'static str {
        match self.number.load(Ordering::SeqCst) {
            0 => "none",
            1 => "BeforeSend",
            2 => "AfterSend",
            3 => "BeforeReceive",
            _ => "AfterReceive",
        }
    }
}

/// A gate that holds each member at the first point it comes to, which is one before a call, until so many have come. It keeps
/// the last point of each of the first four members, how many points did not follow on the one before, and who came before a call,
/// as the digits of a number: 1 for the first member. That number is of no use in threads.
#[derive(Drop)]
pub struct MeetingGate {
    members: u64,
    looked: AtomicU64,
    first: LastPoint,
    second: LastPoint,
    third: LastPoint,
    fourth: LastPoint,
    astray: AtomicU64,
    turns: AtomicU64,
}

impl MeetingGate {
    /// A gate that waits for so many members, and to which none came yet. With 0 it holds nobody.
    pub fn of(members: u64) -> MeetingGate {
        MeetingGate {
            members,
            looked: AtomicU64::new(0),
            first: LastPoint::new(),
            second: LastPoint::new(),
            third: LastPoint::new(),
            fourth: LastPoint::new(),
            astray: AtomicU64::new(0),
            turns: AtomicU64::new(0),
        }
    }

    /// The last points.
    fn points(&self) -> [&LastPoint; 4] {
        [&self.first, &self.second, &self.third, &self.fourth]
    }

    /// How many members came.
    fn came(&self) -> u64 {
        let mut came = 0u64;
        for point in self.points() {
            if !point.is_none() {
                came = came.saturating_add(1);
            }
        }
        came
    }

    /// Whether it has not given up.
    fn stands(&self) -> bool {
        self.looked.load(Ordering::SeqCst) < LOOKS
    }

    /// Whether it holds nobody.
    fn is_open(&self) -> bool {
        self.came() >= self.members || self.looked.fetch_add(1, Ordering::SeqCst) >= LOOKS
    }

    /// Whether this point follows on the last one of this member.
    fn follows(&self, member: u32, point: Point) -> bool {
        match self.points().get(member as usize) {
            Some(last) => last.follow(point),
            None => false,
        }
    }

    /// Adds who came, where this is a point before a call.
    fn note(&self, member: u32, point: Point) {
        if matches!(point, Point::AfterSend | Point::AfterReceive) {
            return;
        }
        let digit = u64::from(member).saturating_add(1);
        let turns = self.turns.load(Ordering::SeqCst);
        self.turns.store(
            turns.saturating_mul(10).saturating_add(digit),
            Ordering::SeqCst,
        );
    }

    /// Holds a member until it is open.
    fn hold(&self) {
        for _ in 0..LOOKS {
            if self.is_open() {
                return;
            }
            thread::yield_now();
        }
    }

    /// Adds how many points did not follow on the one before, and the last point of each member.
    fn add_points(&self, page: &mut Page) {
        let astray = self.astray.load(Ordering::SeqCst);
        let added = write!(page.text, "{astray} points astray, last:");
        page.note(added);
        for point in self.points() {
            let name = point.name();
            let added = write!(page.text, " {name}");
            page.note(added);
        }
        page.add("\n");
    }
}

impl Gate for MeetingGate {
    // A member that is held comes no second time.
    fn at(&self, member: u32, point: Point) {
        if !self.follows(member, point) {
            self.astray.fetch_add(1, Ordering::SeqCst);
        }
        self.note(member, point);
        self.hold();
    }
}

/// Adds what that session came to in threads, whether its members met, and the order of their points.
pub fn add_meeting<R: Threads + Wait + Sync>(rt: &R, alloc: Global, page: &mut Page) {
    let gate = MeetingGate::of(MEMBERS);
    tell_row(rt, alloc, page, &MEETING, Manner::InThreads, &gate);
    let (came, opened) = (gate.came(), gate.stands());
    let added = writeln!(
        page.text,
        "{came} of {MEMBERS} members came, opened: {opened}"
    );
    page.note(added);
    gate.add_points(page);
}

/// Adds what the other came to in turns of the main thread, and whose turn came when: the number of the member from 1, for each call.
pub fn add_rounds<R: Threads + Wait + Sync>(rt: &R, alloc: Global, page: &mut Page) {
    let gate = MeetingGate::of(0);
    tell_row(rt, alloc, page, &ROUNDS, FIRST, &gate);
    let turns = gate.turns.load(Ordering::SeqCst);
    let added = writeln!(page.text, "turns: {turns}");
    page.note(added);
    gate.add_points(page);
}
