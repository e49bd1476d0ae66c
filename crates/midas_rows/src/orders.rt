//! The orders in which the events of two front-ends may stand in a run file.
use crate::page::Page;
use crate::rows::Order;
use std::alloc::Global;
use std::fmt::Write;

/// Adds the lines of an event, whose bank has as many words of four bytes as its serial number says.
fn add_event(page: &mut Page, id: u32, serial: u32) {
    let size = u64::from(serial) * 4;
    let added = writeln!(
        page.text,
        "event {id} 0 {serial} 1000 24\n  bank GEN0 UINT32 {size}"
    );
    page.note(added);
}

/// What `dump` prints of a run of the front-ends A and B whose events stand in this order.
fn dump_of(alloc: Global, order: Order) -> Page {
    let mut page = Page::new(alloc);
    page.add("begin 1 1000 213\n");
    for (id, serial) in order {
        add_event(&mut page, *id, *serial);
    }
    page.add("end 1 1010 216\n");
    page
}

/// Whether a dump is that of this order.
fn is_in_order(alloc: Global, page: &mut Page, order: Order, dump: &[u8]) -> bool {
    let wanted = dump_of(alloc, order);
    if wanted.lacks {
        page.lacks = true;
    }
    wanted.text.as_bytes() == dump
}

/// Adds whether a dump is that of one of these orders.
pub fn add_in_order(alloc: Global, page: &mut Page, orders: &[Order], dump: &[u8]) {
    let mut found = false;
    for order in orders {
        if is_in_order(alloc, page, order, dump) {
            found = true;
        }
    }
    let count = orders.len();
    let added = writeln!(page.text, "events in one of {count} orders: {found}");
    page.note(added);
}
