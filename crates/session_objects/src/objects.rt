// What the members of a session share.
ghost use Rattle.std.specs.Prelude.{◌≡◌, ◌≤◌, [], IsTrue, length};
ghost use Rattle.buffer_core.specs.Window.{opening};
ghost use Rattle.buffer_lock.specs.SharedBuffers.{first_buffer};
ghost use Rattle.session_setup.specs.Setup.{is_buffer_size};

use crate::record::BufferRecords;
use buffer_lock::SharedBuffer;
use daq_types::Name;
use ring_buffer::RingBuffer;
use transition_lock::SharedEngine;

/// A buffer of a session, with its name and its size in bytes. It was shared as it opened.
#[derive(Drop)]
pub struct SessionBuffer {
    pub name: Name,
    pub size: u32,
    pub shared: SharedBuffer<RingBuffer>,
    ghost sized: { IsTrue (is_buffer_size size) },
    ghost opens: { (first_buffer shared).window ≡ opening size },
}

/// The objects that the members of a session share, but for the database: its buffers, in the order of their declaration,
/// and its engine.
#[derive(Drop)]
pub struct SessionObjects {
    pub buffers: Vec<SessionBuffer>,
    pub engine: SharedEngine,
    /// The room for what is kept of the buffers once they are closed.
    pub(crate) records: BufferRecords,
    ghost few: { length buffers.items ≤ 8 },
    ghost empty: { records ≡ [] },
}
