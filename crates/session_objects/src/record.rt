// What is kept of a session once it has ended.
use buffer_lock::BufferClosed;
use daq_types::{BoundedList, Name};
use odb_lock::{LockedDatabase, OdbClosed, WatchedSeen};
use odb_tree::Database;
use odb_watch::WatchEntry;
use ring_buffer::RingBuffer;
use session_runs::RunRecord;
use transition_lock::EngineClosed;
use turn_lock::Machine;

/// What is kept of a buffer of a session: its name, its size in bytes, and its closed history.
#[derive(Drop)]
pub struct BufferRecord {
    pub name: Name,
    pub size: u32,
    pub closed: BufferClosed<RingBuffer>,
}

/// What is kept of the buffers of a session, in the order of their declaration.
pub type BufferRecords = BoundedList<BufferRecord, 8>;

/// What is kept of the runs of a session, one for each start that the engine began, in order.
pub type RunRecords = BoundedList<RunRecord, 0>;

/// What is kept of a session once it has ended.
#[derive(Drop)]
pub struct SessionRecord<D: Database>
where
    LockedDatabase<D>: Machine<State = WatchedSeen, Entry = WatchEntry>,
{
    pub buffers: BufferRecords,
    pub database: OdbClosed<D>,
    pub engine: EngineClosed,
    pub runs: RunRecords,
}
