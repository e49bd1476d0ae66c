ghost use Rattle.std.specs.Prelude.{◌<◌, IfOk, vec_len};

use daq_types::NoMemory;
use std::alloc::Global;

/// How many bytes of a file are read at a time.
const BLOCK_BYTES: usize = 131_072;

/// Room for a block of a file.
pub fn new_block(alloc: Global) -> Result<Vec<u8>, NoMemory>
    ensures { IfOk result (λ block. 0 < vec_len block) }
{
    let mut block = Vec::with_capacity(alloc, BLOCK_BYTES)?;
    block.resize(BLOCK_BYTES, 0)?;
    Ok(block)
}
