//! The end of a run: no input of the builder is read any more.

ghost use Rattle.std.specs.Prelude.{◌≡◌, ◌<◌, ◌+◌, ◌^◌, length, map, Some};
ghost use Rattle.std.specs.List.{list_any};
ghost use Rattle.event_builder.specs.Inputs.{CancelsInput, EachInput, InputsStep, is_done as is_input_done, is_drained as is_stop_drained, let_go};
ghost use Rattle.event_builder.specs.Builders.{EndsRun, EndsIfDone, EndsAfter};
ghost use Rattle.event_builder.specs.BuilderSends.{LetsGoAt, EndsSend, IsWaitReply};

use crate::answers::BuildStep;
use crate::asking::cancel_first;
use crate::build_run::{BuildFault, BuildRun, BuiltEnd};
use crate::inputs::{BuilderInput, InputStop, Inputs, Ports};
use buffer_core::{BufferPort, SendRefusal};
use std::sync::Wait;

/// Whether all that the buffer had taken at the stop was read.
fn is_drained(stop: InputStop) -> bool
    ensures { result ≡ is_stop_drained stop }
{
    matches!(stop, InputStop::Drained)
}

/// Whether all of some input was read, and nothing of it is held.
fn is_done(inputs: &[BuilderInput]) -> bool
    ensures { result ≡ list_any is_input_done inputs.now }
{
    inputs
        .iter()
        .any(|input| is_drained(input.stop) && !input.held)
}

/// Cancels the requests of all inputs that live, and lets go of what they hold.
pub fn cancel_all<R: Wait, P: BufferPort>(rt: &R, inputs: &mut Inputs, ports: &mut Ports<P>)
    requires ports { length ports.old ≡ length inputs.old }
    ensures { InputsStep P.access (EachInput CancelsInput)
        inputs.old ports.old inputs.new ports.new }
{
    let count = inputs.len();
    cancel_first(rt, inputs, ports, count);
}

/// The run, which has ended so: no input is read any more.
pub fn end_run<R: Wait, P: BufferPort>(
    rt: &R,
    inputs: &mut Inputs,
    ports: &mut Ports<P>,
    run: BuildRun,
    ended: BuiltEnd,
) -> BuildRun
    requires ports { length ports.old ≡ length inputs.old }
    ensures { InputsStep P.access (EndsRun ended run (Some result))
        inputs.old ports.old inputs.new ports.new }
{
    cancel_all(rt, inputs, ports);
    BuildRun {
        ended: Some(ended),
        ..run
    }
}

/// The run, which has ended where all of some input was read and nothing of it is held.
fn end_if_done<R: Wait, P: BufferPort>(
    rt: &R,
    inputs: &mut Inputs,
    ports: &mut Ports<P>,
    run: BuildRun,
) -> BuildRun
    requires ports { length ports.old ≡ length inputs.old }
    ensures { InputsStep P.access (EndsIfDone run (Some result))
        inputs.old ports.old inputs.new ports.new }
{
    if is_done(inputs.as_slice()) {
        end_run(rt, inputs, ports, run, BuiltEnd::All)
    } else {
        run
    }
}

/// The run behind a pull: it has ended with the fault, if there is one, or else where all of some input was read.
pub fn end_by<R: Wait, P: BufferPort>(
    rt: &R,
    inputs: &mut Inputs,
    ports: &mut Ports<P>,
    run: BuildRun,
    fault: Option<BuildFault>,
) -> BuildRun
    requires ports { length ports.old ≡ length inputs.old }
    ensures { InputsStep P.access (EndsAfter fault run (Some result))
        inputs.old ports.old inputs.new ports.new }
{
    match fault {
        Some(fault) => end_run(rt, inputs, ports, run, BuiltEnd::Fault(fault)),
        None => end_if_done(rt, inputs, ports, run),
    }
}

/// Lets go of the event that the input of this number holds.
fn let_go_at(inputs: &mut Inputs, number: usize)
    requires { number < length inputs.old }
    ensures { LetsGoAt number inputs.old inputs.new }
{
    let Some(input) = inputs.get_mut(number) else {
        unreachable!()
    };
    input.held = false;
}

/// Lets go of all events that are held.
fn let_go_all(inputs: &mut Inputs)
    ensures { inputs.new ≡ map let_go inputs.old }
{
    for number in 0..inputs.len() {
        let_go_at(inputs, number);
    }
}

/// The run behind a send of its next event that had this reply, and what is answered.
pub fn end_send<R: Wait, P: BufferPort>(
    rt: &R,
    inputs: &mut Inputs,
    ports: &mut Ports<P>,
    run: BuildRun,
    reply: Result<u64, SendRefusal>,
) -> (BuildRun, BuildStep)
    requires ports { length ports.old ≡ length inputs.old }
    requires below { run.sent + 1 < 2 ^ 32 }
    requires reply { IsWaitReply reply }
    ensures { InputsStep P.access (EndsSend reply run result)
        inputs.old ports.old inputs.new ports.new }
{
    match reply {
        Ok(place) => {
            let_go_all(inputs);
            let sent = BuildRun {
                sent: run.sent + 1,
                ..run
            };
            let later = end_if_done(rt, inputs, ports, sent);
            (later, BuildStep::Sent { place })
        }
        Err(SendRefusal::Full { client, place }) => (run, BuildStep::Held { client, place }),
        Err(SendRefusal::NotRunning { gate }) => (run, BuildStep::Shut { gate }),
        Err(SendRefusal::Spent { total }) => {
            let later = end_run(rt, inputs, ports, run, BuiltEnd::Spent { total });
            (later, BuildStep::Spent { total })
        }
        Err(_) => unreachable!(),
    }
}
