//! Laws of the real files: each function does nothing, and its contract is the law.

ghost use Rattle.std.specs.Prelude.{◌≡◌};
ghost use Rattle.daq_std.specs.Blocks.{block_room};
ghost use Rattle.daq_std.specs.declared.blocks.TheConstants.{BLOCK_BYTES};

/// The constant `BLOCK_BYTES` is the room of a block.
pub fn room_of_a_block()
    ensures { BLOCK_BYTES ≡ block_room }
{}
