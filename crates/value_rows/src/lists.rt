//! Lists that grow, and the lists of words and of bytes.
use daq_types::{BoundedList, Bytes, Journal, NoMemory, Words};
use std::alloc::{AllocError, Global};

/// Whether a list of two words has them.
fn has_words(alloc: Global) -> Result<bool, NoMemory> {
    let mut words = Words::new(alloc);
    words.add(alloc, "check")?;
    words.add(alloc, "run00001.mid")?;
    Ok(words.len() == 2 && words.get(1) == Some("run00001.mid") && words.get(2).is_none())
}

#[test]
fn words(rt: HostRuntime) {
    assert!(rt; matches!(has_words(rt.alloc()), Ok(true)));
}

/// Whether a list of two bytes has them.
fn has_bytes(alloc: Global) -> Result<bool, AllocError> {
    let bytes = Bytes::of([1, 2].to_vec(alloc)?);
    Ok(bytes.as_slice() == [1, 2].as_slice())
}

#[test]
fn bytes(rt: HostRuntime) {
    assert!(rt; matches!(has_bytes(rt.alloc()), Ok(true)));
}

/// A list with room for two numbers, and both in it.
fn full_list(alloc: Global) -> Result<BoundedList<u32, 2>, NoMemory> {
    let mut list = BoundedList::new(alloc)?;
    list.push(7);
    list.push(5);
    Ok(list)
}

/// Whether that list grows, and has one less behind that.
fn grows(list: &mut BoundedList<u32, 2>) -> Result<bool, NoMemory> {
    list.try_push(3)?;
    let has_three = list.len() == 3 && list.as_slice() == [7, 5, 3].as_slice();
    let has_places = list.get(1) == Some(&5) && list.get(3).is_none();
    Ok(has_three && has_places && list.pop() == Some(3))
}

/// Whether both entries are changed.
fn changes(mut list: BoundedList<u32, 2>) -> bool {
    if let Some(first) = list.get_mut(0) {
        *first = 9;
    }
    if list.len() == 2 {
        list.set(1, 4);
    }
    let journal = Journal::of(list.into_vec());
    journal.as_slice() == [9, 4].as_slice()
}

/// Whether a list does both.
fn grows_and_changes(alloc: Global) -> Result<bool, NoMemory> {
    let mut list = full_list(alloc)?;
    Ok(grows(&mut list)? && changes(list))
}

#[test]
fn a_list_grows_and_its_entries_are_changed(rt: HostRuntime) {
    assert!(rt; matches!(grows_and_changes(rt.alloc()), Ok(true)));
}

/// A journal that went on.
fn long_journal(alloc: Global) -> Result<Journal<u32>, NoMemory> {
    let mut journal = Journal::of([9, 4].to_vec(alloc)?);
    journal.append(Journal::of([1, 2].to_vec(alloc)?))?;
    Ok(journal)
}

/// Whether that journal is cut at its end, at its begin and to nothing.
fn is_cut(journal: &mut Journal<u32>) -> bool {
    journal.truncate(3);
    let first = journal.take_first();
    let is_left = journal.as_slice() == [4, 1].as_slice();
    journal.clear();
    first == Some(9) && is_left && journal.len() == 0
}

/// Whether a journal goes on and is cut.
fn goes_on(alloc: Global) -> Result<bool, NoMemory> {
    let mut journal = long_journal(alloc)?;
    Ok(is_cut(&mut journal))
}

#[test]
fn a_journal_goes_on(rt: HostRuntime) {
    assert!(rt; matches!(goes_on(rt.alloc()), Ok(true)));
}
