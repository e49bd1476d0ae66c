//! The pointers of two clients.
use buffer_core::{NoClient, RequestRefusal};
use daq_types::{Kind, Name};
use event::Header;
use ring_buffer::Pointers;
use std::process::Abort;

fn name(rt: &impl Abort) -> Name {
    Name::new(b"ANA").expect(rt, "a name")
}

const EVENT: Header = Header {
    event_id: 1,
    trigger_mask: 0,
    serial_number: 1,
    time_stamp: 0,
    data_size: 8,
};

/// Adds two clients that ask for the event. Only the second must get it.
fn add_two(rt: &impl Abort, pointers: &mut Pointers) {
    let attached = [
        pointers.attach(name(rt), 0, 0),
        pointers.attach(name(rt), 32, 1),
    ];
    assert!(rt; attached == [Ok(0), Ok(1)]);
    let asked = [
        pointers.request(0, 1, 0xFFFF, Kind::NonBlocking, 0),
        pointers.request(1, 1, 0xFFFF, Kind::All, 1),
    ];
    assert!(rt; asked == [Ok(0), Ok(0)]);
}

#[test]
fn an_event_is_owed_and_wanted_by_place(rt: HostRuntime) {
    let mut pointers = Pointers::new();
    add_two(&rt, &mut pointers);
    assert!(rt; [pointers.owed(0, &EVENT), pointers.owed(1, &EVENT)] == [None, Some(1)]);
    assert!(rt;
        [pointers.wanted(1, 0, &EVENT), pointers.wanted(2, 0, &EVENT)] == [Some(false), None]
    );
}

#[test]
fn clients_go_on_by_offset_and_place(rt: HostRuntime) {
    let mut pointers = Pointers::new();
    add_two(&rt, &mut pointers);
    pointers.push(64, 2);
    assert_eq!(rt; pointers.at(0), Some((64, 2)));
    assert_eq!(rt; pointers.advance(1, 96, 3), Ok(()));
    pointers.push(64, 2);
    assert_eq!(rt; pointers.at(1), Some((96, 3)));
}

#[test]
fn a_cancelled_request_wants_no_event(rt: HostRuntime) {
    let mut pointers = Pointers::new();
    add_two(&rt, &mut pointers);
    let cancelled = [pointers.cancel(1, 0), pointers.cancel(1, 0)];
    assert!(rt; cancelled == [Ok(()), Err(RequestRefusal::NoRequest)]);
    assert_eq!(rt; pointers.wanted(1, 4, &EVENT), Some(false));
}

#[test]
fn a_detached_client_goes_on_no_more(rt: HostRuntime) {
    let mut pointers = Pointers::new();
    add_two(&rt, &mut pointers);
    let gone_on = [pointers.detach(1), pointers.advance(1, 96, 3)];
    assert!(rt; gone_on == [Ok(()), Err(NoClient)]);
}
