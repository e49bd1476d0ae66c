//! Run files, read from a source.
ghost use Rattle.std.specs.Prelude.{◌≡◌, ◌≤◌, ◌<◌, [], None, IfOk, vec_len};
ghost use Rattle.event.specs.Events.{event_limit};

use daq_io::{ByteTrace, Failed, Source, copy_front};
use daq_mem::MemSource;
use daq_types::NoMemory;
use event::{EventBuf, Header, MAX_DATA};
use mid_format::{Ahead, BlockSource, MidFault, MidReader, begin_record, end_record};
use std::alloc::{AllocError, Global};
use std::test::Fail;
use worked_dumps::{BEGIN, END, EVENT};

/// A file of these parts.
fn file_of(alloc: Global, parts: &[&[u8]]) -> Result<Vec<u8>, AllocError> {
    let mut file = Vec::new(alloc);
    for part in parts {
        file.extend_from_slice(part)?;
    }
    Ok(file)
}

/// The file of a run of one event: a record with 173 bytes, an event with 24 bytes, and a record with 176 bytes.
fn one_event(alloc: Global) -> Result<Vec<u8>, AllocError> {
    file_of(alloc, &[BEGIN, EVENT, END])
}

/// A source of these bytes, one at a time. It does not tell which are left.
#[derive(Drop)]
struct SingleBytes<'a> {
    rest: &'a [u8],
    gave: ByteTrace,
}

impl Source for SingleBytes<'_> {
    ghost told = { λ s. record { left = None; gave = s.gave; faults = 0; at_hand = []; origin = None } };

    fn read(&mut self, into: &mut [u8]) -> Result<usize, Failed> {
        let (front, _) = into.split_at_mut(into.len().min(1));
        let count = copy_front(self.rest, front);
        let (_, rest) = self.rest.split_at(count);
        self.rest = rest;
        self.gave.more(into, count);
        Ok(count)
    }
}

/// The first two answers of a reader of this source, and the number of the run behind them.
fn read_two<S: Source + Drop>(
    source: S,
    mut into: EventBuf,
) -> ([Result<Option<()>, MidFault>; 2], Option<u32>)
    requires { event_limit ≤ into.room }
{
    let mut reader = MidReader::new(source);
    let first = reader.next(&mut into);
    let second = reader.next(&mut into);
    ([first, second], reader.run())
}

/// What becomes of the first bytes of a file, behind whose end one more byte lies.
fn cut(len: usize) -> Result<Option<()>, MidFault> {
    let at = len as u64;
    match len {
        0 => Err(MidFault::NoBegin { at }),
        189 | 229 => Err(MidFault::NoEnd { at }),
        421 => Ok(None),
        422 => Err(MidFault::AfterEnd { at: 421 }),
        _ => Err(MidFault::Truncated { at }),
    }
}

/// What a reader answers to these bytes.
fn answers_to(alloc: Global, bytes: &[u8]) -> Result<[Result<Option<()>, MidFault>; 2], Fail> {
    let source = MemSource::new(bytes.to_vec(alloc)?, Vec::new(alloc));
    let (answers, _) = read_two(source, EventBuf::new(alloc, MAX_DATA)?);
    Ok(answers)
}

/// The file with these four bytes at a place.
fn with_bytes(alloc: Global, place: usize, bytes: [u8; 4]) -> Result<Vec<u8>, AllocError> {
    let mut file = one_event(alloc)?;
    for (target, byte) in file.as_mut_slice().iter_mut().skip(place).zip(bytes) {
        *target = byte;
    }
    Ok(file)
}

/// What a reader answers to the first bytes of a file, behind whose end one more byte lies.
fn answers_to_front(alloc: Global, len: usize) -> Result<[Result<Option<()>, MidFault>; 2], Fail> {
    let mut file = one_event(alloc)?;
    file.push(0)?;
    let (front, _) = file.as_slice().split_at(file.as_slice().len().min(len));
    answers_to(alloc, front)
}

#[test]
fn every_cut_of_a_file(rt: HostRuntime) -> Result<(), Fail> {
    for len in 0..423 {
        let answers = answers_to_front(rt.alloc(), len)?;
        let first = if len < 229 { cut(len) } else { Ok(Some(())) };
        assert!(rt; answers == [first, cut(len)], "{len} bytes");
    }
    Ok(())
}

/// Places of the file, other bytes there, and the fault that this is.
const WRONG_FIELDS: &[(usize, [u8; 4], MidFault)] = &[
    (0, [1, 0x80, 0x4D, 0x49], MidFault::NoBegin { at: 0 }),
    (0, [0, 0x80, 0x4D, 0x48], MidFault::NoBegin { at: 0 }),
    (
        201,
        [1, 0, 0x40, 0],
        MidFault::TooBig {
            at: 189,
            size: 4_194_305,
        },
    ),
    (229, [0, 0x80, 0x4D, 0x49], MidFault::BadRecord { at: 229 }),
    (229, [1, 0x80, 0x4E, 0x49], MidFault::BadRecord { at: 229 }),
    (233, [2, 0, 0, 0], MidFault::BadRecord { at: 229 }),
];

/// What a reader answers where these four bytes stand at a place of the file.
fn answers_to_bytes(
    alloc: Global,
    place: usize,
    bytes: [u8; 4],
) -> Result<[Result<Option<()>, MidFault>; 2], Fail> {
    let file = with_bytes(alloc, place, bytes)?;
    answers_to(alloc, file.as_slice())
}

#[test]
fn files_with_one_wrong_field(rt: HostRuntime) -> Result<(), Fail> {
    for (place, bytes, fault) in WRONG_FIELDS {
        let [_, second] = answers_to_bytes(rt.alloc(), *place, *bytes)?;
        assert!(rt; second == Err(*fault), "at {place}");
    }
    Ok(())
}

/// The number of the run, and the begin and end records, so far as they were read.
type Records = (Option<u32>, Option<Header>, Option<Header>);

fn records<S: Source>(reader: &MidReader<S>) -> Records {
    (reader.run(), reader.begin(), reader.last())
}

/// The records before the first event, behind it and at the end of a file of one event; what the two readings answer; and
/// the length and the number of the event that is left.
type ReadThrough = (
    [Records; 3],
    [Result<Option<()>, MidFault>; 2],
    (usize, u32),
);

/// Reads a file of one event.
fn read_through<S: Source>(reader: &mut MidReader<S>, into: &mut EventBuf) -> ReadThrough
    requires { event_limit ≤ into.old.room }
{
    let before = records(reader);
    let first = reader.next(into);
    let between = records(reader);
    let second = reader.next(into);
    let event = (into.bytes().len(), into.header().serial_number);
    ([before, between, records(reader)], [first, second], event)
}

/// Reads the file by its bytes, one at a time, and tells whether none is left behind that.
fn read_single_bytes(alloc: Global) -> Result<(ReadThrough, bool), NoMemory> {
    let file = one_event(alloc)?;
    let mut into = EventBuf::new(alloc, MAX_DATA)?;
    let mut reader = MidReader::new(SingleBytes {
        rest: file.as_slice(),
        gave: ByteTrace::new(),
    });
    let told = read_through(&mut reader, &mut into);
    Ok((told, reader.into_source().read(&mut [0; 8]) == Ok(0)))
}

#[test]
fn a_source_in_single_bytes(rt: HostRuntime) -> Result<(), Fail> {
    let ((records, answers, event), is_at_end) = read_single_bytes(rt.alloc())?;
    let begin = Some(begin_record(1, 1000, 173));
    let end = Some(end_record(1, 1010, 176));
    assert!(rt;
        records
            == [
                (None, None, None),
                (Some(1), begin, None),
                (Some(1), begin, end)
            ]
    );
    assert!(rt; answers == [Ok(Some(())), Ok(None)]);
    assert!(rt; event == (40, 1));
    assert!(rt; is_at_end);
    Ok(())
}

#[test]
fn a_source_that_fails_in_an_event(rt: HostRuntime) -> Result<(), Fail> {
    let alloc = rt.alloc();
    let fails = vec![in alloc; 3]?;
    let source = MemSource::new(one_event(alloc)?, fails);
    let answers = read_two(source, EventBuf::new(alloc, MAX_DATA)?);
    let failed = Err(MidFault::ReadFault);
    assert!(rt; answers == ([failed, failed], Some(1)));
    Ok(())
}

/// The most bytes that the files of a run have together.
const MOST: u64 = 1 << 62;

/// The first two answers of a reader of the file behind others of its run, where so many bytes may follow them.
fn answers_behind(alloc: Global, left: u32) -> Result<[Result<Option<()>, MidFault>; 2], Fail> {
    let source = MemSource::new(one_event(alloc)?, Vec::new(alloc));
    let mut into = EventBuf::new(alloc, MAX_DATA)?;
    let mut reader = MidReader::behind(source, MOST - left as u64);
    let first = reader.next(&mut into);
    let second = reader.next(&mut into);
    Ok([first, second])
}

/// How many bytes may follow the files before, and, where the file has more, how many bytes stand in front of the header
/// whose data would end behind them.
const TOO_LONG: &[(u32, Option<u32>)] = &[
    (0, Some(0)),
    (188, Some(0)),
    (189, Some(189)),
    (228, Some(189)),
    (229, Some(229)),
    (420, Some(229)),
    (421, None),
    (500, None),
];

/// What a reader answers at the end of the file where so many bytes may follow the files before.
fn end_behind(left: u32, at: Option<u32>) -> Result<Option<()>, MidFault> {
    match at {
        None => Ok(None),
        Some(at) => Err(MidFault::TooLong {
            at: MOST - left as u64 + at as u64,
        }),
    }
}

#[test]
fn a_file_behind_others(rt: HostRuntime) -> Result<(), Fail> {
    for (left, at) in TOO_LONG {
        let answers = answers_behind(rt.alloc(), *left)?;
        let end = end_behind(*left, *at);
        let first = if *left < 229 { end } else { Ok(Some(())) };
        assert!(rt; answers == [first, end], "{left}");
    }
    Ok(())
}

/// The file with its event three times.
fn three_events(alloc: Global) -> Result<Vec<u8>, AllocError> {
    file_of(alloc, &[BEGIN, EVENT, EVENT, EVENT, END])
}

/// A block of so many bytes, and one at least.
fn block_of(alloc: Global, len: u8) -> Result<Vec<u8>, AllocError>
    ensures { IfOk result (λ block. 0 < vec_len block) }
{
    let mut block = Vec::new(alloc);
    block.resize(len.max(1) as usize, 0)?;
    Ok(block)
}

/// Reads the next event, from where it lies if it lies whole at hand, and answers how many bytes of data it has.
fn read_on<S: Ahead>(
    reader: &mut MidReader<S>,
    into: &mut EventBuf,
) -> Result<Option<u32>, MidFault>
    requires { event_limit ≤ into.old.room }
    ensures { into.new.room ≡ into.old.room }
{
    if let Some((header, data)) = reader.whole_event() {
        let whole = data.len() == header.data_size as usize;
        reader.pass_event(&header);
        return Ok(whole.then_some(header.data_size));
    }
    match reader.next(into) {
        Ok(Some(())) => Ok(Some(into.header().data_size)),
        Ok(None) => Ok(None),
        Err(fault) => Err(fault),
    }
}

/// Two answers of a reader, and its place behind them.
type Answers = ([Result<Option<u32>, MidFault>; 2], u64);

/// The next two answers of a reader, and its place behind them.
fn read_two_on<S: Ahead>(reader: &mut MidReader<S>, into: &mut EventBuf) -> Answers
    requires { event_limit ≤ into.old.room }
    ensures { into.new.room ≡ into.old.room }
{
    let answers = [read_on(reader, into), read_on(reader, into)];
    (answers, reader.place())
}

/// The first two answers of a reader of this source, and the next two.
fn read_four<S: Ahead + Drop>(source: S, mut into: EventBuf) -> (Answers, Answers)
    requires { event_limit ≤ into.room }
{
    let mut reader = MidReader::new(source);
    let front = read_two_on(&mut reader, &mut into);
    (front, read_two_on(&mut reader, &mut into))
}

/// The answers of a reader of the file in blocks of so many bytes.
fn read_four_in_blocks(alloc: Global, len: u8) -> Result<(Answers, Answers), NoMemory> {
    let block = block_of(alloc, len)?;
    let file = MemSource::new(three_events(alloc)?, Vec::new(alloc));
    let into = EventBuf::new(alloc, MAX_DATA)?;
    Ok(read_four(BlockSource::new(file, block), into))
}

#[test]
fn events_at_hand(rt: HostRuntime) -> Result<(), Fail> {
    for len in &[1, 39, 80, 229, 255] {
        let (front, end) = read_four_in_blocks(rt.alloc(), *len)?;
        assert!(rt; front == ([Ok(Some(24)), Ok(Some(24))], 269), "{len}");
        assert!(rt; end == ([Ok(Some(24)), Ok(None)], 501), "{len}");
    }
    Ok(())
}
