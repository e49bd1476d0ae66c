ghost use Rattle.std.specs.Prelude.{◌≡◌, ◌≤◌, ◌<◌, ◌++◌, length, take, replicate, slice_set, IsTrue, IfOk, OnOk, OnErr};
ghost use Rattle.odb_value.specs.Items.{is_kept, tid_of};
ghost use Rattle.odb_value.specs.Values.{HeldValue, IsShorter, items_limit, size_limit};
ghost use Rattle.odb_value.specs.LinkValues.{IsValueOrLink};
ghost use Rattle.odb_value.specs.ValueChanges.{default_item, default_size, new_held, size_with_item, put_in, resized};

use crate::items::Item;
use crate::parts::{CharByte, TextBytes};
use daq_types::{BoundedList, NoMemory, Tid};
use std::alloc::Global;
use std::marker::Model;

/// The item size of a new STRING.
const NEW_TEXT_SIZE: u32 = 32;

/// The items of a key.
pub type Items = BoundedList<Item, 0>;

/// The item of a new key of this type: 0, n or the empty text. Takes no memory.
fn new_item(alloc: Global, tid: Tid) -> Item
    requires { IsTrue (is_kept tid) }
    ensures { result ≡ default_item tid }
{
    match tid {
        Tid::UInt8 => Item::UInt8(0),
        Tid::Int8 => Item::Int8(0),
        Tid::Char => Item::Char(CharByte::none()),
        Tid::UInt16 => Item::UInt16(0),
        Tid::Int16 => Item::Int16(0),
        Tid::UInt32 => Item::UInt32(0),
        Tid::Int32 => Item::Int32(0),
        Tid::Text => Item::Text(TextBytes::empty(alloc)),
        Tid::Int64 => Item::Int64(0),
        Tid::UInt64 => Item::UInt64(0),
        _ => Item::Bool(false),
    }
}

/// So many items of a new key.
fn new_items(alloc: Global, tid: Tid, count: usize) -> Result<Items, NoMemory>
    requires { IsTrue (is_kept tid) }
    ensures { IfOk result (λ items. items ≡ replicate count (default_item tid)) }
{
    let mut items = Vec::with_capacity(alloc, count)?;
    for i in 0..count {
        items.push(new_item(alloc, tid))?;
    }
    Ok(Items::of(items))
}

/// The same items once more.
fn cloned(alloc: Global, items: &[Item]) -> Result<Items, NoMemory>
    ensures { IfOk result (λ copy. copy ≡ items.now) }
{
    let mut copy = Vec::with_capacity(alloc, items.len())?;
    for item in items.iter() {
        copy.push(item.try_clone(alloc)?)?;
    }
    Ok(Items::of(copy))
}

/// The item size of a new key of this type.
fn new_size(tid: Tid) -> u32
    ensures { result ≡ default_size tid }
{
    match tid {
        Tid::Text => NEW_TEXT_SIZE,
        _ => tid.size(),
    }
}

/// The item size where this item is put into a key of this item size.
fn raised_size(size: u32, item: &Item) -> u32
    requires { IsShorter size_limit item.now }
    ensures { result ≡ size_with_item size item.now }
{
    match item {
        Item::Text(text) => size.max(text.as_slice().len() as u32 + 1),
        _ => size,
    }
}

/// The value of a key: 1 to 65,536 items of one type. For a STRING the item size is above each text's length and at
/// most 1,024, for any other type it is the type's. Or the value of a link, of type LINK: one text, which is that of a
/// path, with its length plus 1 as the item size.
#[derive(Drop)]
pub struct Value {
    tid: Tid,
    size: u32,
    items: Items,
}

impl Model for Value {
    ghost use Rattle.odb_value.specs.Values.{HeldValue};
    ghost use Rattle.odb_value.specs.LinkValues.{IsValueOrLink};

    ghost Value = { HeldValue };

    ghost use Rattle.odb_value.specs.ValueInside.{held_of};

    ghost view = { held_of };

    ghost invariant = { λ v. IsValueOrLink (held_of v) };
}

impl Value {
    /// The value of this type with these items. Takes no memory.
    pub fn of(tid: Tid, size: u32, items: Items) -> Value
        requires { IsValueOrLink (record { tid = tid; size = size; items = items }) }
        ensures { result ≡ record { tid = tid; size = size; items = items } }
    {
        Value { tid, size, items }
    }

    /// The value of a new key of this type with so many items: 0, n or empty texts, with the item size 32.
    pub fn new(alloc: Global, tid: Tid, len: u32) -> Result<Value, NoMemory>
        requires kept { IsTrue (is_kept tid) }
        requires some { 1 ≤ len }
        requires many { len ≤ items_limit }
        ensures { IfOk result (λ value. value ≡ new_held tid len) }
    {
        let items = new_items(alloc, tid, len as usize)?;
        Ok(Value {
            tid,
            size: new_size(tid),
            items,
        })
    }

    /// Another item at this index; a text as long as the item size or longer raises that. Takes no memory.
    pub fn put(&mut self, index: u32, item: Item)
        requires inside { index < length self.old.items }
        requires of_type { tid_of item ≡ self.old.tid }
        requires short { IsShorter size_limit item }
        ensures { self.new ≡ put_in self.old index item }
    {
        let _ = item.tid();
        self.size = raised_size(self.size, &item);
        self.items.set(index as usize, item);
    }

    /// So many items: cut at the end, or with those of a new key behind. A link has one item always.
    pub fn resize(&mut self, alloc: Global, len: u32) -> Result<(), NoMemory>
        requires kept { IsTrue (is_kept self.old.tid) }
        requires some { 1 ≤ len }
        requires many { len ≤ items_limit }
        ensures ok { OnOk result (self.new ≡ resized self.old len) }
        ensures err { OnErr result (self.new ≡ self.old) }
    {
        let len = len as usize;
        let more = new_items(alloc, self.tid, len.saturating_sub(self.items.len()))?;
        self.items.append(more)?;
        self.items.truncate(len);
        Ok(())
    }

    /// The type of the items.
    pub fn tid(&self) -> Tid
        ensures tid { result ≡ self.now.tid }
        ensures held { IsValueOrLink self.now }
    {
        self.tid
    }

    /// The item size, in bytes.
    pub fn size(&self) -> u32
        ensures { result ≡ self.now.size }
    {
        self.size
    }

    /// The items.
    pub fn items(&self) -> &[Item]
        ensures items { result.now ≡ self.now.items }
        ensures some { 1 ≤ length result.now }
        ensures many { length result.now ≤ items_limit }
        ensures held { IsValueOrLink self.now }
    {
        self.items.as_slice()
    }

    /// The items, given away.
    pub fn into_items(self) -> Items
        ensures { result ≡ self.items }
    {
        self.items
    }

    /// The same value once more.
    pub fn try_clone(&self, alloc: Global) -> Result<Value, NoMemory>
        ensures { IfOk result (λ value. value ≡ self.now) }
    {
        let items = cloned(alloc, self.items.as_slice())?;
        Ok(Value::of(self.tid, self.size, items))
    }
}
