//! Generated events.
use daq_types::{NoMemory, Order, RunState};
use event::EventBuf;
use frontend_kit::{EVENT_ROOM, Generator};
use std::alloc::Global;

/// The ids of two front-ends, and the word of the first event of each.
const WORDS: &[(u16, u32)] = &[(1, 1817669548), (2, 3102535385)];

const ORDER: Order = Order {
    run: 1,
    start: 1,
    time: 1000,
    from: RunState::Stopped,
    quota: 3,
};

/// Whether the data of an event have their length, and this word at the end of their bank.
fn ends_with(body: &[u8], word: u32) -> bool {
    body.len() == 24 && &body[16..20] == word.to_le_bytes().as_slice()
}

/// Whether the first event of the front-end with this id, which is not 0, does so.
fn first_ends_with(alloc: Global, id: u16, word: u32) -> Result<bool, NoMemory> {
    let generator = Generator {
        id,
        mask: 0,
        limit: 3,
    };
    if id == 0 || !generator.check(&ORDER) {
        return Ok(false);
    }
    let mut event = EventBuf::new(alloc, EVENT_ROOM)?;
    generator.event(&ORDER, 1, &mut event);
    Ok(ends_with(event.body(), word))
}

#[test]
fn first_events_of_two_front_ends(rt: HostRuntime) {
    for (id, word) in WORDS {
        let is_right = first_ends_with(rt.alloc(), *id, *word);
        assert!(rt; matches!(is_right, Ok(true)), "of {id}");
    }
}
