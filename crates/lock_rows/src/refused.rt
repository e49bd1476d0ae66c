//! Sends that a shared buffer refuses: two passes call it by ports, and its history has each refusal.
ghost use Rattle.std.specs.Prelude.{◌≡◌, ◌++◌, ◌∷◌, [], IfOk};
ghost use Rattle.daq_types.specs.Callers.{entries_by};
ghost use Rattle.buffer_core.specs.declared.entry.BufferEntry.TheVariants.{Send};
ghost use Rattle.turn_lock.specs.Closing.{history_of};

use crate::buffers::{close_two, header, share, two_passes};
use buffer_core::{BufferPort, EventBuffer, SendRefusal};
use buffer_lock::{BufferClosed, SharedPort};
use daq_types::{Kind, Name, NoMemory};
use plain_buffer::PlainBuffer;
use std::alloc::Global;
use std::sync::Wait;

const ANY: u16 = 0xFFFF;

const DATA: [u8; 8] = [7; 8];

/// What two sends were answered, between which a client was detached.
type Refusals = (Result<u64, SendRefusal>, Result<u64, SendRefusal>);

/// Attaches two clients, which both request all events of id 1: whether each call is done.
fn attach_two<R: Wait, P: BufferPort>(rt: &R, port: &mut P, names: [Name; 2]) -> [bool; 4]
    ensures caller { (P.access port.new).caller ≡ (P.access port.old).caller }
    ensures buffer { (P.access port.new).buffer ≡ (P.access port.old).buffer }
{
    [
        port.attach(rt, names[0]) == Ok(0),
        port.attach(rt, names[1]) == Ok(1),
        port.request(rt, 0, 1, ANY, Kind::All) == Ok(0),
        port.request(rt, 1, 1, ANY, Kind::All) == Ok(0),
    ]
}

/// Sends eight events: whether each has the place that its number says.
fn send_eight<R: Wait, P: BufferPort>(rt: &R, port: &mut P) -> [bool; 8]
    ensures caller { (P.access port.new).caller ≡ (P.access port.old).caller }
    ensures buffer { (P.access port.new).buffer ≡ (P.access port.old).buffer }
{
    [
        port.send(rt, &header(0), &DATA) == Ok(0),
        port.send(rt, &header(1), &DATA) == Ok(1),
        port.send(rt, &header(2), &DATA) == Ok(2),
        port.send(rt, &header(3), &DATA) == Ok(3),
        port.send(rt, &header(4), &DATA) == Ok(4),
        port.send(rt, &header(5), &DATA) == Ok(5),
        port.send(rt, &header(6), &DATA) == Ok(6),
        port.send(rt, &header(7), &DATA) == Ok(7),
    ]
}

/// Sends a ninth event, lets the other caller detach client 0, and sends it again.
fn send_again<R: Wait, P: BufferPort, Q: BufferPort>(
    rt: &R,
    first: &mut P,
    second: &mut Q,
) -> (bool, Refusals)
    ensures callers { ((P.access first.new).caller ≡ (P.access first.old).caller)
        × ((Q.access second.new).caller ≡ (Q.access second.old).caller) }
    ensures buffers { ((P.access first.new).buffer ≡ (P.access first.old).buffer)
        × ((Q.access second.new).buffer ≡ (Q.access second.old).buffer) }
    ensures noted { (e : _) × (e.serial ≡ 8) × ((Q.access second.new).own
        ≡ ((Q.access second.old).own ++ Send 8 e result.1.0 ∷ []) ++ Send 8 e result.1.1 ∷ []) }
{
    let ninth = header(8);
    let refused = second.send(rt, &ninth, &DATA);
    let detached = first.detach(rt, 0) == Ok(());
    let again = second.send(rt, &ninth, &DATA);
    (detached, (refused, again))
}

/// Two passes of a buffer in which eight events fit: what is answered, and the buffer behind it.
fn refuse_twice<R: Wait>(
    rt: &R,
    alloc: Global,
    names: [Name; 2],
) -> Result<
    (
        ([bool; 4], [bool; 8], bool),
        Refusals,
        BufferClosed<PlainBuffer>,
    ),
    NoMemory,
>
    ensures history { IfOk result (λ made. (before : _) × (e : _) × (e.serial ≡ 8)
        × (entries_by 1 (history_of made.2)
        ≡ (before ++ Send 8 e made.1.0 ∷ []) ++ Send 8 e made.1.1 ∷ [])) }
{
    let (shared, mut passes) = share(alloc, 256, 2)?;
    let (first, second) = two_passes(&shared, &mut passes);
    let mut first = SharedPort::new(&shared, first);
    let mut second = SharedPort::new(&shared, second);
    let attached = attach_two(rt, &mut first, names);
    let placed = send_eight(rt, &mut second);
    let (detached, refusals) = send_again(rt, &mut first, &mut second);
    let first = first.into_pass();
    let second = second.into_pass();
    let closed = close_two(shared, passes, first, second);
    Ok(((attached, placed, detached), refusals, closed))
}

#[test]
fn each_refused_send_is_in_the_history(rt: HostRuntime) {
    let names = [
        Name::new(b"ONE").expect(&rt, "a name"),
        Name::new(b"TWO").expect(&rt, "a name"),
    ];
    let (done, refusals, closed) = refuse_twice(&rt, rt.alloc(), names).expect(&rt, "memory");
    assert!(rt;
        done == ([true; 4], [true; 8], true),
        "both clients read all, and eight events fit"
    );
    assert!(rt;
        refusals
            == (
                Err(SendRefusal::Full {
                    client: 0,
                    place: 0
                }),
                Err(SendRefusal::Full {
                    client: 1,
                    place: 0
                })
            ),
        "each silent client in its turn is owed the first event"
    );
    assert!(rt;
        closed.value.buffer.accepted() == 8,
        "no refused event is kept"
    );
}
