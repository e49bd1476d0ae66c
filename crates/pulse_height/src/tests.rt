//! Front-ends over a port to a buffer.
ghost use Rattle.std.specs.Prelude.{◌≡◌, ◌≤◌, IfOk};
ghost use Rattle.plain_buffer.specs.OwningPorts.{owned_access};

use crate::PulseHeight;
use buffer_core::BufferPort;
use daq_types::{FrontEnded, NoMemory, Order, RunState, Transition, Why};
use front_ends::{Equipment, FrontEnd, FrontStep};
use frontend_kit::Generator;
use member_model::{Answer, Tally};
use plain_buffer::{OwningPort, PlainBuffer};
use std::alloc::Global;
use std::sync::Wait;
use std::test::Fail;

/// An order of run 1 in which each front-end has to send so many events.
fn order(from: RunState, quota: u32) -> Order {
    Order {
        run: 1,
        start: 1,
        time: 1000,
        from,
        quota,
    }
}

/// A port to a new buffer.
fn new_port(alloc: Global) -> Result<OwningPort<PlainBuffer>, NoMemory>
    ensures { IfOk result (λ port. (owned_access (λ window. window) port).size ≡ 1024) }
{
    OwningPort::new(alloc, PlainBuffer::new(alloc, 1024)?)
}

/// Begins the run.
fn begin<R: Wait, P: BufferPort>(rt: &R, port: &mut P)
    ensures { (P.access port.new).size ≡ (P.access port.old).size }
{
    let _ = port.begin(rt, 1);
}

/// Starts run 1 with this quota. Says whether that was refused since the equipment does not take part.
fn is_refused<X: Equipment>(front: &mut FrontEnd<X>, quota: u32) -> bool {
    let answer = front.on_turn(Transition::Start, &order(RunState::Stopped, quota));
    matches!(answer, Some(Answer::No(Why::NotReady)))
}

/// Starts run 1 with this quota. Says whether the front-end agrees, and has no events to tell of.
fn is_accepted<X: Equipment>(front: &mut FrontEnd<X>, quota: u32) -> bool {
    let answer = front.on_turn(Transition::Start, &order(RunState::Stopped, quota));
    matches!(answer, Some(Answer::Yes(Tally::Plain)))
}

/// Stops run 1. Says whether the answer has to wait.
fn stop_waits<X: Equipment>(front: &mut FrontEnd<X>) -> bool {
    let answer = front.on_turn(Transition::Stop, &order(RunState::Running, 0));
    answer.is_none()
}

/// Finishes run 1. Says how many events were sent, where the front-end answers that they are its quota.
fn quota_told<X: Equipment>(front: &mut FrontEnd<X>) -> Option<u64> {
    match front.finish() {
        Some(
            Answer::Yes(
                Tally::Front {
                    sent,
                    ended: FrontEnded::Quota,
                },
            ),
        ) => Some(sent),
        _ => None,
    }
}

/// What came of two starts, and of two steps in the run of one event that the second one started.
#[derive(Drop)]
struct QuotaRun {
    /// Whether the start with the larger quota was refused.
    refused: bool,
    /// Whether the start with a quota of one event was accepted.
    accepted: bool,
    first: FrontStep,
    second: FrontStep,
}

/// Starts run 1 with the larger quota and then with a quota of one event, and makes two steps.
fn start_twice<R: Wait, X: Equipment, P: BufferPort>(
    rt: &R,
    front: &mut FrontEnd<X>,
    port: &mut P,
    larger: u32,
) -> QuotaRun
    requires { 104 ≤ (P.access port.old).size }
{
    begin(rt, port);
    let refused = is_refused(front, larger);
    let accepted = is_accepted(front, 1);
    QuotaRun {
        refused,
        accepted,
        first: front.step(rt, port),
        second: front.step(rt, port),
    }
}

/// The same with a new front-end and a new buffer. These end here, so that the test holds neither while it looks at what
/// came of the run: each place where a function may end is proved with all that it holds there.
fn quota_run<R: Wait, X: Equipment>(
    rt: &R,
    alloc: Global,
    equipment: X,
    larger: u32,
) -> Result<QuotaRun, NoMemory>
    requires { X.fit equipment }
{
    let mut front = FrontEnd::new(alloc, equipment)?;
    let mut port = new_port(alloc)?;
    Ok(start_twice(rt, &mut front, &mut port, larger))
}

/// What came of a run of two events that was stopped after the first.
#[derive(Drop)]
struct StoppedRun {
    first: FrontStep,
    /// Whether the answer to the stop had to wait.
    waits: bool,
    second: FrontStep,
    /// How many events the answer tells, as the quota.
    told: Option<u64>,
}

/// Starts run 1 with a quota of two events, and stops it after the first.
fn stop_after_one<R: Wait, X: Equipment, P: BufferPort>(
    rt: &R,
    front: &mut FrontEnd<X>,
    port: &mut P,
) -> StoppedRun
    requires { 104 ≤ (P.access port.old).size }
{
    let _ = is_refused(front, 2);
    begin(rt, port);
    StoppedRun {
        first: front.step(rt, port),
        waits: stop_waits(front),
        second: front.step(rt, port),
        told: quota_told(front),
    }
}

/// The same with a new front-end and a new buffer.
fn stopped_run<R: Wait, X: Equipment>(
    rt: &R,
    alloc: Global,
    equipment: X,
) -> Result<StoppedRun, NoMemory>
    requires { X.fit equipment }
{
    let mut front = FrontEnd::new(alloc, equipment)?;
    let mut port = new_port(alloc)?;
    Ok(stop_after_one(rt, &mut front, &mut port))
}

#[test]
fn a_front_end_sends_its_quota(rt: HostRuntime) -> Result<(), Fail> {
    let generator = Generator {
        id: 1,
        mask: 0,
        limit: 10,
    };
    let run = quota_run(&rt, rt.alloc(), generator, 11)?;
    assert!(rt; run.refused);
    assert!(rt; run.accepted);
    assert!(rt; run.first == FrontStep::Sent { place: 0 });
    assert!(rt; run.second == FrontStep::NoWork);
    Ok(())
}

#[test]
fn a_stop_waits_for_the_quota(rt: HostRuntime) -> Result<(), Fail> {
    let heights = [16, 272, 1024, 4095, 0, 7, 513, 2048];
    let run = stopped_run(&rt, rt.alloc(), PulseHeight { id: 7, heights })?;
    assert!(rt; run.first == FrontStep::Sent { place: 0 });
    assert!(rt; run.waits);
    assert!(rt; run.second == FrontStep::Sent { place: 1 });
    assert!(rt; run.told == Some(2));
    Ok(())
}
