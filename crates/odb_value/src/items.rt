ghost use Rattle.std.specs.Prelude.{◌≡◌, IfOk, OnErr};
ghost use Rattle.daq_types.specs.declared.types.Tid.{Tid};
ghost use Rattle.odb_value.specs.Items.{tid_of, IsItem};

use crate::parts::{CharByte, TextBytes};
use daq_types::{NoMemory, Tid};
use std::alloc::Global;

/// One item of a value of the online database.
#[derive(Drop)]
pub enum Item {
    UInt8(u8),
    Int8(i8),
    Char(CharByte),
    UInt16(u16),
    Int16(i16),
    UInt32(u32),
    Int32(i32),
    Bool(bool),
    Text(TextBytes),
    Int64(i64),
    UInt64(u64),
}

impl Item {
    /// The type of the item.
    pub fn tid(&self) -> Tid
        ensures tid { result ≡ tid_of self.now }
        ensures is_item { IsItem (tid_of self.now) self.now }
    {
        // Each number is read, and each part is asked: so it is known to be one of its type's.
        match *self {
            Item::UInt8(_number) => Tid::UInt8,
            Item::Int8(_number) => Tid::Int8,
            Item::Char(byte) => {
                let _ = byte.get();
                Tid::Char
            }
            Item::UInt16(_number) => Tid::UInt16,
            Item::Int16(_number) => Tid::Int16,
            Item::UInt32(_number) => Tid::UInt32,
            Item::Int32(_number) => Tid::Int32,
            Item::Bool(_) => Tid::Bool,
            Item::Text(ref text) => {
                let _ = text.as_slice();
                Tid::Text
            }
            Item::Int64(_number) => Tid::Int64,
            Item::UInt64(_number) => Tid::UInt64,
        }
    }

    /// The same item once more. Takes memory for a text alone.
    pub fn try_clone(&self, alloc: Global) -> Result<Item, NoMemory>
        ensures item { IfOk result (λ item. item ≡ self.now) }
        ensures memory { OnErr result (tid_of self.now ≡ Tid.Text) }
    {
        match self {
            Item::UInt8(number) => Ok(Item::UInt8(*number)),
            Item::Int8(number) => Ok(Item::Int8(*number)),
            Item::Char(byte) => Ok(Item::Char(*byte)),
            Item::UInt16(number) => Ok(Item::UInt16(*number)),
            Item::Int16(number) => Ok(Item::Int16(*number)),
            Item::UInt32(number) => Ok(Item::UInt32(*number)),
            Item::Int32(number) => Ok(Item::Int32(*number)),
            Item::Bool(truth) => Ok(Item::Bool(*truth)),
            Item::Text(text) => {
                let text = text.try_clone(alloc)?;
                Ok(Item::Text(text))
            }
            Item::Int64(number) => Ok(Item::Int64(*number)),
            Item::UInt64(number) => Ok(Item::UInt64(*number)),
        }
    }
}
